// The line of an event.
ghost use Rattle.std.specs.Prelude.{◌≡◌, OnOk};
ghost use Rattle.std.specs.Io.KnownBytes.{Appends};
ghost use Rattle.hv_trace.specs.Perfetto.{action_name, answer_text, line_text, refused_text, slice_text};
ghost use Rattle.hv_trace.specs.Perfetto.{start_text, title_text};
ghost use Rattle.hv_words.specs.Words.{IsQuotable};

use crate::perfetto::note::{Note, put_lane, put_notes, put_time};
use crate::put::put_text;
use hv_abi::{CallKind, InputValue};
use hv_policy::{Action, Caller, Reply};
use hv_words::{Words, call_name};
use std::alloc::Global;
use std::io;
use std::io::Write;

/// Writes the line of an event, with these words about it and these notes.
#[tactic(auto, unfolding(crate::specs::Perfetto::line_text))]
pub(crate) fn put_line<W: Write>(
    out: &mut W,
    number: u64,
    by: Caller,
    what: &Action<Global>,
    reply: &Reply,
    words: &Words,
    notes: &[Note],
) -> io::Result<()>
    ensures line { OnOk result (Appends (W.contents out.old) (W.contents out.new)
        (line_text number by what.now reply.now words.now notes.now)) }
    ensures quotable { IsQuotable words.now }
{
    let text = words.as_slice();
    out.write_all(b",")?;
    put_slice(out, number, by, what, reply, text)?;
    put_notes(out, notes)?;
    out.write_all(b"\n")
}

// Writes the slice of an event, with this text about it.
#[tactic(auto, unfolding(crate::specs::Perfetto::slice_text))]
fn put_slice<W: Write>(
    out: &mut W,
    number: u64,
    by: Caller,
    what: &Action<Global>,
    reply: &Reply,
    text: &[u8],
) -> io::Result<()>
    ensures { OnOk result (Appends (W.contents out.old) (W.contents out.new)
        (slice_text number by what.now reply.now text.now)) }
{
    put_start(out, number, by)?;
    put_title(out, what, reply)?;
    put_text(out, b"\",\"text\":\"", text, b"\"}}")
}

// Writes the start of a slice.
#[tactic(auto, unfolding(crate::specs::Perfetto::start_text))]
fn put_start<W: Write>(out: &mut W, number: u64, by: Caller) -> io::Result<()>
    ensures { OnOk result (Appends (W.contents out.old) (W.contents out.new) (start_text number by)) }
{
    put_time(out, b"{\"ph\":\"X\",\"cat\":\"hvpm\",\"ts\":", number)?;
    out.write_all(b",\"dur\":900")?;
    put_lane(out, by)
}

// Writes the name of an event, and its reply.
#[tactic(auto, unfolding(crate::specs::Perfetto::title_text))]
fn put_title<W: Write>(out: &mut W, what: &Action<Global>, reply: &Reply) -> io::Result<()>
    ensures { OnOk result (Appends (W.contents out.old) (W.contents out.new)
        (title_text what.now reply.now)) }
{
    out.write_all(b",\"name\":\"")?;
    out.write_all(name_of(what).as_bytes())?;
    put_answer(out, reply)
}

// Returns the name of a call or an access.
fn name_of(what: &Action<Global>) -> &'static str
    ensures { result.now ≡ action_name what.now }
{
    match what {
        Action::Hypercall(frame) => match CallKind::of(InputValue::read(frame.rcx).call) {
            Some(kind) => call_name(kind),
            None => "unknown call",
        },
        Action::ReadMsr(_) => "ReadMsr",
        Action::WriteMsr(_, _) => "WriteMsr",
        Action::ReadSlot(_) => "ReadSlot",
        Action::ClearSlot(_) => "ClearSlot",
        Action::ReadFlags(_) => "ReadFlags",
        Action::ClearFlag(_, _) => "ClearFlag",
        Action::TakeInterrupt => "TakeInterrupt",
    }
}

// Writes the rest of a name, and the reply.
fn put_answer<W: Write>(out: &mut W, reply: &Reply) -> io::Result<()>
    ensures { OnOk result (Appends (W.contents out.old) (W.contents out.new) (answer_text reply.now)) }
{
    match reply {
        Reply::Served(_) => out.write_all(b"\",\"args\":{\"reply\":\"served"),
        Reply::More { .. } => out.write_all(b"\",\"args\":{\"reply\":\"more"),
        Reply::Denied { rule, .. } => put_refused(out, b"denied", rule.name().as_bytes()),
        Reply::Fault { rule } => put_refused(out, b"fault", rule.name().as_bytes()),
    }
}

// Writes the rest of a name and the reply of an event that this rule refused.
#[tactic(auto, unfolding(crate::specs::Perfetto::refused_text))]
fn put_refused<W: Write>(out: &mut W, kind: &[u8], rule: &[u8]) -> io::Result<()>
    ensures { OnOk result (Appends (W.contents out.old) (W.contents out.new)
        (refused_text kind.now rule.now)) }
{
    put_text(
        out,
        b" ",
        rule,
        b"\",\"cname\":\"terrible\",\"args\":{\"reply\":\"",
    )?;
    put_text(out, kind, b"\",\"rule\":\"", rule)
}
