// The JSON text of an event's reply.
ghost use Rattle.std.specs.Prelude.{◌≤◌, ◌++◌, codes, length, OnOk};
ghost use Rattle.std.specs.Io.KnownBytes.{Appends};
ghost use Rattle.hv_policy.specs.Rule.{rule_name};
ghost use Rattle.hv_trace.specs.Trace.{no_result_text, output_text, reply_text, result_text, rule_text};
ghost use Rattle.hv_trace.specs.Trace.{served_text, status_text};

use crate::put::{put_number, put_text};
use hv_abi::Status;
use hv_policy::{Action, Reply, Rule, completed_reps};
use std::alloc::Global;
use std::io;
use std::io::Write;

/// Writes what was replied to an action, with the reason if a rule refused it.
pub(crate) fn put_reply<W: Write>(
    out: &mut W,
    what: &Action<Global>,
    reply: &Reply,
    reason: &[u8],
) -> io::Result<()>
    ensures { OnOk result (Appends (W.contents out.old) (W.contents out.new)
        (reply_text what.now reply.now reason.now)) }
{
    match reply {
        Reply::Served(output) => {
            out.write_all(b",\"reply\":\"served\"")?;
            put_served(out, what)?;
            put_output(out, output.as_slice())
        }
        Reply::More { next, output } => {
            out.write_all(b",\"reply\":\"more\"")?;
            put_result(out, Status::Success, *next)?;
            put_output(out, output.as_slice())
        }
        Reply::Denied { rule, status, reps } => {
            out.write_all(b",\"reply\":\"denied\"")?;
            put_result(out, *status, *reps)?;
            put_rule(out, *rule, reason)
        }
        Reply::Fault { rule } => {
            out.write_all(b",\"reply\":\"fault\"")?;
            put_no_result(out)?;
            put_rule(out, *rule, reason)
        }
    }
}

// Writes the status and the reps completed of an action that was served.
fn put_served<W: Write>(out: &mut W, what: &Action<Global>) -> io::Result<()>
    ensures { OnOk result (Appends (W.contents out.old) (W.contents out.new) (served_text what.now)) }
{
    match what {
        Action::Hypercall(frame) => put_result(out, Status::Success, completed_reps(frame.rcx)),
        Action::ReadMsr(_)
        | Action::WriteMsr(_, _)
        | Action::ReadSlot(_)
        | Action::ClearSlot(_)
        | Action::ReadFlags(_)
        | Action::ClearFlag(_, _)
        | Action::TakeInterrupt => put_no_result(out),
    }
}

// Writes that an access has neither.
fn put_no_result<W: Write>(out: &mut W) -> io::Result<()>
    ensures { OnOk result (Appends (W.contents out.old) (W.contents out.new) no_result_text) }
{
    out.write_all(b",\"status\":null,\"reps\":null")
}

// Writes a status and the reps completed.
#[tactic(auto, unfolding(crate::specs::Trace::result_text))]
fn put_result<W: Write>(out: &mut W, status: Status, reps: u16) -> io::Result<()>
    ensures { OnOk result (Appends (W.contents out.old) (W.contents out.new) (result_text status reps)) }
{
    put_status(out, status)?;
    put_number(out, b",\"reps\":", u64::from(reps))
}

// Writes a status.
#[tactic(auto, unfolding(crate::specs::Trace::status_text))]
fn put_status<W: Write>(out: &mut W, status: Status) -> io::Result<()>
    ensures { OnOk result (Appends (W.contents out.old) (W.contents out.new) (status_text status)) }
{
    put_text(
        out,
        b",\"status\":\"HV_STATUS_",
        status.name().as_bytes(),
        b"\"",
    )
}

// Writes the rule that refused an event, which has no output, and the reason.
fn put_rule<W: Write>(out: &mut W, rule: Rule, reason: &[u8]) -> io::Result<()>
    ensures { OnOk result (Appends (W.contents out.old) (W.contents out.new) (rule_text rule reason.now)) }
{
    put_rule_name(out, rule)?;
    put_text(out, b"\",\"reason\":\"", reason, b"\",\"output\":\"\"")
}

// Writes the rule's name, after an open quote.
fn put_rule_name<W: Write>(out: &mut W, rule: Rule) -> io::Result<()>
    ensures { OnOk result (Appends (W.contents out.old) (W.contents out.new)
        (codes ",\"rule\":\"" ++ rule_name rule)) }
{
    out.write_all(b",\"rule\":\"")?;
    out.write_all(rule.name().as_bytes())
}

// Writes the output of an event that no rule refused.
#[tactic(auto, unfolding(crate::specs::Trace::output_text))]
fn put_output<W: Write>(out: &mut W, output: &[u8]) -> io::Result<()>
    requires { length output.now ≤ 256 }
    ensures { OnOk result (Appends (W.contents out.old) (W.contents out.new) (output_text output.now)) }
{
    let mut room = [0; 512];
    let digits = &mut room[..2 * output.len()];
    let Ok(()) = hex::encode_to_slice(output, digits) else {
        unreachable!()
    };
    put_text(
        out,
        b",\"rule\":null,\"reason\":null,\"output\":\"",
        digits,
        b"\"",
    )
}
