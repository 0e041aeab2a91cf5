// The bytes of a call's input list without its elements.
ghost use Rattle.std.specs.Prelude.{map};
ghost use Rattle.hv_asm.specs.List.{header_of, part_bytes};
ghost use Rattle.hv_asm.specs.Made.{IsPushed};
ghost use Rattle.hv_asm.specs.declared.field.Part.TheVariants as part;

use crate::fault::AsmFault;
use crate::field::{Part, parts};
use crate::push::{push_bytes, push_number, push_zeros};
use crate::values::{field_value, given};
use hv_abi::CallKind;
use hv_defs::MAX_PAYLOAD;
use hv_script::{FaultKind, bytes};

/// Adds a call's list without its elements.
pub fn push_header(list: &mut Vec<u8>, call: CallKind, words: &[&[u8]]) -> Result<(), AsmFault>
    ensures { IsPushed result list.old.items list.new.items (header_of call
        (map (λ word. word.now) words.now)) }
{
    let parts = parts(call);
    for part in parts {
        push_part(list, *part, words)?;
    }
    Ok(())
}

/// Adds the bytes of a part.
pub fn push_part(list: &mut Vec<u8>, part: Part, words: &[&[u8]]) -> Result<(), AsmFault>
    ensures { IsPushed result list.old.items list.new.items (part_bytes
        (map (λ word. word.now) words.now) part) }
{
    match part {
        Part::Field(field) => {
            let value = field_value(words, field)?;
            push_number(list, value, field.size())
        }
        Part::Unused(count) => push_zeros(list, count),
        Part::Payload => push_payload(list, words),
    }
}

// Adds a message's payload, which ends the list.
fn push_payload(list: &mut Vec<u8>, words: &[&[u8]]) -> Result<(), AsmFault>
    ensures { IsPushed result list.old.items list.new.items (part_bytes
        (map (λ word. word.now) words.now) part.Payload) }
{
    let Some(word) = given(words, b"Payload")? else {
        return Err(AsmFault::MissingField);
    };
    if word.is_empty() {
        return Err(AsmFault::Script(FaultKind::Hex));
    }
    let payload = bytes(*list.allocator(), word).map_err(AsmFault::Script)?;
    if payload.len() > MAX_PAYLOAD as usize {
        return Err(AsmFault::Script(FaultKind::Hex));
    }
    push_bytes(list, payload.as_slice())
}
