// The elements of a rep call's input list.
ghost use Rattle.std.specs.Prelude.{◌≡◌, IfOk, length, map};
ghost use Rattle.hv_asm.specs.List.{all_bytes, element_bytes, elements_of, is_address, is_part, is_rep_word};
ghost use Rattle.hv_asm.specs.List.{is_setting, register_value};
ghost use Rattle.hv_asm.specs.Table.{parts_of};
ghost use Rattle.std.specs.List.{list_any};
ghost use Rattle.hv_asm.specs.Made.{IsPushed};

use crate::fault::AsmFault;
use crate::field::{Part, parts};
use crate::names::register_of;
use crate::push::{push_number, push_zeros};
use crate::values::{numeral, split};
use hv_abi::CallKind;

/// Adds the elements that the words have, and returns how many there are.
pub fn push_elements(
    list: &mut Vec<u8>,
    call: CallKind,
    fast: bool,
    words: &[&[u8]],
) -> Result<u64, AsmFault>
    ensures bytes { IsPushed result list.old.items list.new.items (all_bytes (element_bytes call)
        (elements_of call fast (map (λ word. word.now) words.now))) }
    ensures count { IfOk result (λ count. count ≡ length (elements_of call fast
        (map (λ word. word.now) words.now))) }
{
    let mut count: u64 = 0;
    for word in words {
        if is_setting(call, fast, word) {
            continue;
        }
        push_element(list, call, word)?;
        count += 1;
    }
    Ok(count)
}

/// Returns whether a word gives a field of the call or an option.
pub fn is_setting(call: CallKind, fast: bool, word: &[u8]) -> bool
    ensures { result ≡ is_setting call fast word.now }
{
    let (name, _) = split(word);
    is_field(call, name) || is_rep_word(name) || !fast && is_address(name)
}

// Returns whether the call has a field with this name.
fn is_field(call: CallKind, name: &[u8]) -> bool
    ensures { result ≡ list_any (is_part name.now) (parts_of call) }
{
    parts(call).iter().any(|part| is_named(*part, name))
}

// Returns whether this names the rep count or the start index.
fn is_rep_word(name: &[u8]) -> bool
    ensures { result ≡ is_rep_word name.now }
{
    name == b"reps".as_slice() || name == b"start".as_slice()
}

// Returns whether this names the address of a list.
fn is_address(name: &[u8]) -> bool
    ensures { result ≡ is_address name.now }
{
    name == b"input".as_slice() || name == b"output".as_slice()
}

// Returns whether a part has this name.
fn is_named(part: Part, name: &[u8]) -> bool
    ensures { result ≡ is_part name.now part }
{
    match part {
        Part::Field(field) => field.name().as_bytes() == name,
        Part::Unused(_) => false,
        Part::Payload => name == b"Payload".as_slice(),
    }
}

/// Adds the element that a word is.
pub fn push_element(list: &mut Vec<u8>, call: CallKind, word: &[u8]) -> Result<(), AsmFault>
    ensures { IsPushed result list.old.items list.new.items (element_bytes call word.now) }
{
    match call {
        CallKind::DepositMemory => push_number(list, numeral(word, 64)?, 8),
        CallKind::GetVpRegisters => push_number(list, register_of(word)?, 4),
        CallKind::SetVpRegisters => push_register_value(list, word),
        CallKind::CreatePartition
        | CallKind::InitializePartition
        | CallKind::FinalizePartition
        | CallKind::DeletePartition
        | CallKind::GetPartitionProperty
        | CallKind::SetPartitionProperty
        | CallKind::GetPartitionId
        | CallKind::GetNextChildPartition
        | CallKind::WithdrawMemory
        | CallKind::GetMemoryBalance
        | CallKind::CreateVp
        | CallKind::DeleteVp
        | CallKind::DeletePort
        | CallKind::DisconnectPort
        | CallKind::PostMessage
        | CallKind::SignalEvent
        | CallKind::CreatePort
        | CallKind::ConnectPort => Err(AsmFault::UnknownField),
    }
}

// Adds a register's name, and its value of 64 bits in 16 bytes.
fn push_register_value(list: &mut Vec<u8>, word: &[u8]) -> Result<(), AsmFault>
    ensures { IsPushed result list.old.items list.new.items (register_value word.now) }
{
    let (name, value) = split(word);
    push_number(list, register_of(name)?, 4)?;
    push_zeros(list, 12)?;
    push_number(list, numeral(value, 64)?, 8)?;
    push_zeros(list, 8)
}
