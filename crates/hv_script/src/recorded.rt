// The line of an event.
ghost use Rattle.std.specs.Prelude.{◌≡◌, ◌++◌, ◌∷◌, [], false, IfOk, OnOk, codes, decimal};
ghost use Rattle.std.specs.Fmt.{digits};
ghost use Rattle.hv_script.specs.Recorded.{hex_text, input_text, line_text, spaced, words_by};

use hv_abi::Frame;
use hv_policy::{Action, Caller};
use itoa::Buffer;
use std::alloc::{AllocError, Allocator, Global};

/// Returns the script line by which this processor asks for this action, without its line feed.
///
/// A hypercall is written with its registers as they are, so a run drives it from its start index to its last
/// element. Fails if there is no memory.
pub fn script_line<A: Allocator>(
    alloc: Global,
    by: Caller,
    what: &Action<A>,
) -> Result<Vec<u8>, AllocError>
    ensures { IfOk result (λ line. line.items ≡ line_text by what.now) }
{
    let mut line = Vec::new(alloc);
    push_decimal(&mut line, b"", by.part)?;
    push_decimal(&mut line, b".", u64::from(by.vp))?;
    push_action(&mut line, what)?;
    Ok(line)
}

// Adds the words after the processor's, each with a space before it.
fn push_action<A: Allocator>(line: &mut Vec<u8>, what: &Action<A>) -> Result<(), AllocError>
    ensures { OnOk result (line.new.items ≡ line.old.items ++ spaced (words_by what.now)) }
{
    match what {
        Action::Hypercall(frame) => push_call(line, frame),
        Action::ReadMsr(msr) => push_hex(line, b" rdmsr 0x", u64::from(*msr)),
        Action::WriteMsr(msr, value) => {
            push_hex(line, b" wrmsr 0x", u64::from(*msr))?;
            push_hex(line, b" 0x", *value)
        }
        Action::ReadSlot(sint) => push_decimal(line, b" slot ", u64::from(*sint)),
        Action::ClearSlot(sint) => push_decimal(line, b" clearslot ", u64::from(*sint)),
        Action::ReadFlags(sint) => push_decimal(line, b" flags ", u64::from(*sint)),
        Action::ClearFlag(sint, flag) => {
            push_decimal(line, b" clearflag ", u64::from(*sint))?;
            push_decimal(line, b" ", u64::from(*flag))
        }
        Action::TakeInterrupt => line.extend_from_slice(b" interrupt"),
    }
}

fn push_call<A: Allocator>(line: &mut Vec<u8>, frame: &Frame<A>) -> Result<(), AllocError>
    ensures { OnOk result (line.new.items
        ≡ line.old.items ++ spaced (codes "call" ∷ hex_text frame.now.rcx ∷ hex_text frame.now.rdx
        ∷ hex_text frame.now.r8 ∷ input_text frame.now.input ∷ [])) }
{
    push_hex(line, b" call 0x", frame.rcx)?;
    push_hex(line, b" 0x", frame.rdx)?;
    push_hex(line, b" 0x", frame.r8)?;
    line.extend_from_slice(b" ")?;
    push_input(line, frame.input.as_slice())
}

// Adds the bytes of an input list as a word, or a dash if there are none.
fn push_input(line: &mut Vec<u8>, input: &[u8]) -> Result<(), AllocError>
    ensures { OnOk result (line.new.items ≡ line.old.items ++ input_text input.now) }
{
    if input.is_empty() {
        return line.extend_from_slice(b"-");
    }
    let text = hex::encode(*line.allocator(), input)?;
    line.extend_from_slice(text.as_bytes())
}

// Adds a text, then a number in decimal.
fn push_decimal(line: &mut Vec<u8>, before: &[u8], number: u64) -> Result<(), AllocError>
    ensures { OnOk result (line.new.items ≡ line.old.items ++ (before.now ++ decimal number)) }
{
    let mut buffer = Buffer::new();
    line.extend_from_slice(before)?;
    line.extend_from_slice(buffer.format(number).as_bytes())
}

// Adds a text, then a number in hexadecimal digits.
fn push_hex(line: &mut Vec<u8>, before: &[u8], number: u64) -> Result<(), AllocError>
    ensures { OnOk result (line.new.items ≡ line.old.items ++ (before.now ++ digits 16 false number)) }
{
    let digits = format!(in *line.allocator(); "{number:x}")?;
    line.extend_from_slice(before)?;
    line.extend_from_slice(digits.as_bytes())
}
