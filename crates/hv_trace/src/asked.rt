// The JSON text of what an event asks for: its kind and its name.
ghost use Rattle.std.specs.Prelude.{OnOk};
ghost use Rattle.std.specs.Io.KnownBytes.{Appends};
ghost use Rattle.hv_abi.specs.CallRow.{kind_of};
ghost use Rattle.hv_trace.specs.Trace.{access_text, asked_text, call_text, name_text};

use crate::put::put_text;
use hv_abi::{CallKind, InputValue};
use hv_policy::Action;
use hv_words::call_name;
use std::alloc::Global;
use std::io;
use std::io::Write;

/// Writes the kind and the name of an action.
pub(crate) fn put_asked<W: Write>(out: &mut W, what: &Action<Global>) -> io::Result<()>
    ensures { OnOk result (Appends (W.contents out.old) (W.contents out.new) (asked_text what.now)) }
{
    match what {
        Action::Hypercall(frame) => put_call(out, frame.rcx),
        Action::ReadMsr(_) => put_access(out, b"ReadMsr"),
        Action::WriteMsr(_, _) => put_access(out, b"WriteMsr"),
        Action::ReadSlot(_) => put_access(out, b"ReadSlot"),
        Action::ClearSlot(_) => put_access(out, b"ClearSlot"),
        Action::ReadFlags(_) => put_access(out, b"ReadFlags"),
        Action::ClearFlag(_, _) => put_access(out, b"ClearFlag"),
        Action::TakeInterrupt => put_access(out, b"TakeInterrupt"),
    }
}

// Writes a hypercall, by its input value.
#[tactic(auto, unfolding(crate::specs::Trace::call_text))]
fn put_call<W: Write>(out: &mut W, rcx: u64) -> io::Result<()>
    ensures { OnOk result (Appends (W.contents out.old) (W.contents out.new) (call_text rcx)) }
{
    out.write_all(b",\"kind\":\"hypercall\",\"name\":")?;
    put_name(out, InputValue::read(rcx).call)
}

// Writes the name of the call with this code, or null.
fn put_name<W: Write>(out: &mut W, code: u16) -> io::Result<()>
    ensures { OnOk result (Appends (W.contents out.old) (W.contents out.new) (name_text (kind_of code))) }
{
    match CallKind::of(code) {
        Some(kind) => put_text(out, b"\"", call_name(kind).as_bytes(), b"\""),
        None => out.write_all(b"null"),
    }
}

// Writes an access with this name.
fn put_access<W: Write>(out: &mut W, name: &[u8]) -> io::Result<()>
    ensures { OnOk result (Appends (W.contents out.old) (W.contents out.new) (access_text name.now)) }
{
    put_text(out, b",\"kind\":\"access\",\"name\":\"", name, b"\"")
}
