// The audit's lines.
ghost use Rattle.std.specs.Prelude.{◌≡◌};
ghost use Rattle.hv_abi.specs.declared.frame.Frame.{Frame as CallFrame};
ghost use Rattle.hv_policy.specs.Result.{HasResult};
ghost use Rattle.hv_policy.specs.declared.event.Action.TheVariants.{Hypercall};

use hv_machine::{Action, Caller, Event, Reply, result_of};
use std::alloc::Global;
use std::io;
use std::io::Write;

/// Writes the audit's line of an event with this number and this reply.
pub fn put_line<W: Write>(
    out: &mut W,
    number: u32,
    event: &Event<Global>,
    reply: &Reply,
) -> io::Result<()>
    requires { (frame : CallFrame Global) → event.now.what ≡ Hypercall frame → HasResult reply.now }
{
    let Caller { part, vp } = event.by;
    write!(out, "{number} {part}.{vp} ")?;
    put_request(out, &event.what)?;
    match reply {
        Reply::Served(output) => {
            put_word(out, "ok", &event.what, reply)?;
            put_output(out, output.as_slice())?;
        }
        Reply::More { output, .. } => {
            put_word(out, "more", &event.what, reply)?;
            put_output(out, output.as_slice())?;
        }
        Reply::Denied { rule, .. } => {
            put_word(out, "denied", &event.what, reply)?;
            write!(out, " {}", rule.name())?;
        }
        Reply::Fault { rule } => write!(out, " fault {}", rule.name())?,
    }
    writeln!(out)
}

fn put_request<W: Write>(out: &mut W, what: &Action<Global>) -> io::Result<()> {
    match what {
        Action::Hypercall(frame) => write!(out, "call {:016x}", frame.rcx),
        Action::ReadMsr(msr) => write!(out, "rdmsr {msr:08x}"),
        Action::WriteMsr(msr, value) => write!(out, "wrmsr {msr:08x} {value:016x}"),
        Action::ReadSlot(sint) => write!(out, "slot {sint}"),
        Action::ClearSlot(sint) => write!(out, "clearslot {sint}"),
        Action::ReadFlags(sint) => write!(out, "flags {sint}"),
        Action::ClearFlag(sint, flag) => write!(out, "clearflag {sint} {flag}"),
        Action::TakeInterrupt => write!(out, "interrupt"),
    }
}

// Writes the first word of a reply, and for a hypercall the result value.
fn put_word<W: Write>(
    out: &mut W,
    word: &str,
    what: &Action<Global>,
    reply: &Reply,
) -> io::Result<()>
    requires { (frame : CallFrame Global) → what.now ≡ Hypercall frame → HasResult reply.now }
{
    write!(out, " {word}")?;
    match what {
        Action::Hypercall(frame) => write!(out, " {:016x}", result_of(frame, reply).bits()),
        Action::ReadMsr(_)
        | Action::WriteMsr(_, _)
        | Action::ReadSlot(_)
        | Action::ClearSlot(_)
        | Action::ReadFlags(_)
        | Action::ClearFlag(_, _)
        | Action::TakeInterrupt => Ok(()),
    }
}

// Writes an event's output, two digits a byte, or `-` if there is none.
fn put_output<W: Write>(out: &mut W, output: &[u8]) -> io::Result<()> {
    write!(out, " ")?;
    if output.is_empty() {
        return write!(out, "-");
    }
    for byte in output {
        write!(out, "{byte:02x}")?;
    }
    Ok(())
}
