// Texts for C: a machine's table, and events as lines of a script. Writing a text is not an event. Each
// function reports the text's length, and writes the text if the buffer has room for it.
ghost use Rattle.std.specs.Prelude.{◌≡◌, ◌≢◌, ◌++◌, ℕ, List, codes, true, false, IfSome};
ghost use Rattle.hv_machine.specs.IsFlat.{IsFlat};
ghost use Rattle.hv_policy.specs.Flat.{Flat};
ghost use Rattle.hv_policy.specs.declared.event.Action.TheVariants.{Hypercall};
ghost use Rattle.hv_script.specs.Recorded.{line_text};
ghost use Rattle.hv_text.specs.Table.{table_text};
ghost use Rattle.hv_embed.specs.Answer.{caller_of as caller_by, frame_of as frame_by};
ghost use Rattle.hv_embed.specs.Taken.{IsAsBefore};
ghost use Rattle.hv_embed.specs.Texts.{IsAccessLine, IsPut, access_named, readable as readable_of};
ghost use Rattle.hv_embed.specs.declared.status.TheConstants.{DONE, EMPTY, SHORT};

use crate::handle::{HvMachine, state_of};
use crate::layout::{
    CLEAR_FLAG, CLEAR_SLOT, HvCaller, HvRegisters, READ_FLAGS, READ_MSR, READ_SLOT, TAKE_INTERRUPT,
    WRITE_MSR,
};
use crate::machine_state::{no_frame, refill};
use crate::status::{DONE, MEMORY, NONE, SHORT};
use crate::take::caller_of;
use hv_machine::{Caller, Machine};
use hv_policy::Action;
use hv_script::script_line;
use hv_text::table_of;
use std::alloc::Global;

// The most bytes of an input list, which lies in one page.
pub const MOST_INPUT: usize = 4096;

/// Writes the table of the partitions.
///
/// The table goes into a buffer that has room for it, and its length in bytes is reported. It takes memory
/// for the table, and for the partitions' ids.
#[unsafe(no_mangle)]
pub extern "C" fn hv_embed_table(
    alloc: Global,
    machine: &mut HvMachine,
    text: &mut [u8],
    len: &mut usize,
) -> u32
    ensures empty { machine.old.live ≡ false → result ≡ EMPTY }
    ensures table { machine.old.live ≡ true → (f : Flat) → IsFlat machine.old.raw_machine.machine f
        → IsPut (table_text f) result text.old text.new len.old len.new }
    ensures kept { IsAsBefore machine.old machine.new }
    ensures unwritten { result ≢ DONE → text.new ≡ text.old }
    ensures untold { result ≢ DONE → result ≢ SHORT → len.new ≡ len.old }
{
    put_text(table_bytes(alloc, &state_of!(machine).machine), text, len)
}

/// Writes a hypercall of a processor as a line of a script.
///
/// The line goes into a buffer that has room for it, and its length in bytes, with its line feed, is
/// reported. It has the first 4,096 bytes of the input list.
#[unsafe(no_mangle)]
pub extern "C" fn hv_embed_hypercall_line(
    alloc: Global,
    by: HvCaller,
    registers: &HvRegisters,
    input: &[u8],
    text: &mut [u8],
    len: &mut usize,
) -> u32
    ensures { IsPut (line_text (caller_by by) (Hypercall (frame_by registers.now (readable_of input.now)))
        ++ codes "\n") result text.old text.new len.old len.new }
{
    put_text(call_line(alloc, by, registers, input), text, len)
}

/// Writes an access of a processor as a line of a script.
///
/// The line goes into a buffer that has room for it, and its length in bytes, with its line feed, is
/// reported. `number` is that of the MSR or of the SINT. `value` is the value to write, or the number of the
/// event flag.
#[unsafe(no_mangle)]
pub extern "C" fn hv_embed_access_line(
    alloc: Global,
    by: HvCaller,
    access: u32,
    number: u32,
    value: u64,
    text: &mut [u8],
    len: &mut usize,
) -> u32
    ensures { IsAccessLine (caller_by by) (access_named access number value) result text.old text.new
        len.old len.new }
{
    match access_of(access, number, value) {
        Some(access) => put_text(event_line(alloc, caller_of(by), &access), text, len),
        None => NONE,
    }
}

// Returns the table of a machine, or `None` if memory runs out.
fn table_bytes(alloc: Global, machine: &Machine<Global>) -> Option<Vec<u8>>
    ensures { (f : Flat) → IsFlat machine.now f → IfSome result (λ bytes. bytes.items ≡ table_text f) }
{
    let mut bytes = Vec::new(alloc);
    table_of(&mut bytes, machine).ok()?;
    Some(bytes)
}

// Returns the line of a call, or `None` if memory runs out.
fn call_line(alloc: Global, by: HvCaller, registers: &HvRegisters, input: &[u8]) -> Option<Vec<u8>>
    ensures { IfSome result (λ line. line.items
        ≡ line_text (caller_by by) (Hypercall (frame_by registers.now (readable_of input.now)))
        ++ codes "\n") }
{
    let mut frame = no_frame(alloc);
    refill(&mut frame, registers, readable(input)).ok()?;
    event_line(alloc, caller_of(by), &Action::Hypercall(frame))
}

// Returns the bytes of an input list that a line has.
#[tactic(auto, using(std::proofs::lemmas::List::take_min))]
pub(crate) fn readable(input: &[u8]) -> &[u8]
    ensures { result.now ≡ readable_of input.now }
{
    &input[..MOST_INPUT.min(input.len())]
}

// Returns the line of an event with its line feed, or `None` if memory runs out.
fn event_line(alloc: Global, by: Caller, what: &Action<Global>) -> Option<Vec<u8>>
    ensures { IfSome result (λ line. line.items ≡ line_text by what.now ++ codes "\n") }
{
    let mut line = script_line(alloc, by, what).ok()?;
    line.push(b'\n').ok()?;
    Some(line)
}

// Returns the access that C names by these numbers, if there is one.
pub(crate) fn access_of(access: u32, number: u32, value: u64) -> Option<Action<Global>>
    ensures { result ≡ access_named access number value }
{
    let sint = u8::try_from(number).ok();
    match access {
        READ_MSR => Some(Action::ReadMsr(number)),
        WRITE_MSR => Some(Action::WriteMsr(number, value)),
        TAKE_INTERRUPT => Some(Action::TakeInterrupt),
        READ_SLOT => Some(Action::ReadSlot(sint?)),
        CLEAR_SLOT => Some(Action::ClearSlot(sint?)),
        READ_FLAGS => Some(Action::ReadFlags(sint?)),
        CLEAR_FLAG if value <= 0xFFFF => Some(Action::ClearFlag(sint?, value as u16)),
        _ => None,
    }
}

// Writes a text as `put_bytes` does. Without a text, memory ran out.
fn put_text(bytes: Option<Vec<u8>>, text: &mut [u8], len: &mut usize) -> u32
    ensures put { (told : List ℕ) → IfSome bytes (λ b. b.items ≡ told)
        → IsPut told result text.old text.new len.old len.new }
    ensures unwritten { result ≢ DONE → text.new ≡ text.old }
    ensures untold { result ≢ DONE → result ≢ SHORT → len.new ≡ len.old }
{
    let Some(bytes) = bytes else { return MEMORY };
    put_bytes(&bytes, text, len)
}

// Writes a text into a buffer that has room for it, and reports its length in bytes.
pub(crate) fn put_bytes(bytes: &[u8], text: &mut [u8], len: &mut usize) -> u32
    ensures put { IsPut bytes.now result text.old text.new len.old len.new }
    ensures unwritten { result ≢ DONE → text.new ≡ text.old }
    ensures untold { result ≢ DONE → result ≢ SHORT → len.new ≡ len.old }
{
    *len = bytes.len();
    if text.len() < bytes.len() {
        return SHORT;
    }
    text[..bytes.len()].copy_from_slice(bytes);
    DONE
}
