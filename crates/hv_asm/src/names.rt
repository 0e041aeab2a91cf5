// What the names of a line mean.
ghost use Rattle.std.specs.Prelude.{◌≡◌, ◌<◌, ◌^◌, IfOk, false};
ghost use Rattle.std.specs.Option.{option_map_or};
ghost use Rattle.std.specs.Str.{bytes_eq};
ghost use Rattle.hv_words.specs.Names.{register_name};
ghost use Rattle.hv_asm.specs.Names.{call_named, msr_of, register_of, row_named, short};

use crate::fault::AsmFault;
use crate::values::numeral;
use hv_abi::{ALL_CALLS, CallKind};
use hv_defs::{REGISTERS, RegisterRow};
use hv_script::FaultKind;
use hv_words::{call_name, register_name};

/// The call with this name.
#[tactic(auto, unfolding(crate::specs::Names::call_named))]
pub fn call_named(word: &[u8]) -> Option<CallKind>
    ensures { result ≡ call_named word.now }
{
    ALL_CALLS
        .iter()
        .find(|call| call_name(**call).as_bytes() == word)
        .copied()
}

// The row of the register with this name.
#[tactic(auto, unfolding(crate::specs::Names::row_named))]
fn row_named(word: &[u8]) -> Option<RegisterRow>
    ensures { result ≡ row_named word.now }
{
    REGISTERS
        .iter()
        .find(|row| is_register(row.name, word))
        .copied()
}

// Returns whether the register with this number in a call has this name.
fn is_register(number: u32, word: &[u8]) -> bool
    ensures { result ≡ option_map_or (λ name. bytes_eq name word.now) (register_name number) false }
{
    match register_name(number) {
        Some(name) => name.as_bytes() == word,
        None => false,
    }
}

/// Reads a register: its name, or its number in a call.
pub fn register_of(word: &[u8]) -> Result<u64, AsmFault>
    ensures number { result ≡ register_of word.now }
    ensures fits { IfOk result (λ number. number < 2 ^ 32) }
{
    match row_named(word) {
        Some(row) => Ok(u64::from(row.name)),
        None => numeral(word, 32),
    }
}

/// Reads an MSR: its name, with or without its prefix, or its number.
pub fn msr_of(word: &[u8]) -> Result<u32, AsmFault>
    ensures { result ≡ msr_of word.now }
{
    match row_named(short(word)) {
        Some(row) => row.msr.ok_or(AsmFault::Script(FaultKind::Number)),
        None => Ok(numeral(word, 32)? as u32),
    }
}

/// An MSR's name without its prefix.
pub fn short(word: &[u8]) -> &[u8]
    ensures { result.now ≡ short word.now }
{
    word.strip_prefix(b"HV_X64_MSR_").unwrap_or(word)
}
