// The values that the words of a line give.
ghost use Rattle.std.specs.Prelude.{◌≡◌, ◌<◌, ◌≤◌, ◌^◌, ◌*◌, IfOk, map, option_map};
ghost use Rattle.hv_asm.specs.Made.{IsMade};
ghost use Rattle.hv_asm.specs.Table.{size_of};
ghost use Rattle.hv_asm.specs.Values.{at_most_one, field_value, given, name_in, numeral, number_of};
ghost use Rattle.hv_asm.specs.Values.{option_value, value_in};

use crate::fault::AsmFault;
use crate::field::Field;
use hv_defs::SELF_ID;
use hv_script::{FaultKind, around, number_64, number_in};

/// The name of a word `NAME=VALUE`, and its value.
pub fn split(word: &[u8]) -> (&[u8], &[u8])
    ensures name { result.0.now ≡ name_in word.now }
    ensures value { result.1.now ≡ value_in word.now }
{
    around(word, b'=')
}

/// The value that words give to a name, if they give one.
pub fn given<'a>(words: &[&'a [u8]], name: &[u8]) -> Result<Option<&'a [u8]>, AsmFault>
    ensures { IsMade result (λ found. option_map (λ value. value.now) found) (at_most_one (given name.now
        (map (λ word. word.now) words.now))) }
{
    let mut found = None;
    for word in words {
        let (before, value) = split(word);
        if before == name {
            if found.is_some() {
                return Err(AsmFault::FieldTwice);
            }
            found = Some(value);
        }
    }
    Ok(found)
}

/// Reads a number of some bits, at most 64.
pub fn numeral(word: &[u8], bits: u32) -> Result<u64, AsmFault>
    requires { bits ≤ 64 }
    ensures number { result ≡ numeral bits word.now }
    ensures fits { IfOk result (λ number. number < 2 ^ bits) }
{
    let number = if bits == 64 {
        number_64(word)
    } else {
        number_in(word, bits)
    };
    number.ok_or(AsmFault::Script(FaultKind::Number))
}

/// Reads a field of some bits. `self` is the id by which a caller names its own partition.
pub fn number_of(word: &[u8], bits: u32) -> Result<u64, AsmFault>
    requires { bits ≤ 64 }
    ensures number { result ≡ number_of bits word.now }
    ensures fits { IfOk result (λ number. number < 2 ^ bits) }
{
    if bits == 64 && word == b"self".as_slice() {
        return Ok(SELF_ID);
    }
    numeral(word, bits)
}

/// The value of a field.
#[tactic(auto, unfolding(crate::specs::Values::field_value))]
pub fn field_value(words: &[&[u8]], field: Field) -> Result<u64, AsmFault>
    ensures number { IsMade result (λ number. number) (field_value field (map (λ word. word.now) words.now)) }
    ensures fits { IfOk result (λ number. number < 2 ^ (8 * size_of field)) }
{
    match given(words, field.name().as_bytes())? {
        Some(word) => number_of(word, 8 * field.size() as u32),
        None => Err(AsmFault::MissingField),
    }
}

/// The value of an option, or what it is where it isn't given.
#[tactic(auto, unfolding(crate::specs::Values::option_value))]
pub fn option_value(words: &[&[u8]], name: &[u8], default: u64) -> Result<u64, AsmFault>
    ensures { IsMade result (λ number. number) (option_value name.now default
        (map (λ word. word.now) words.now)) }
{
    match given(words, name)? {
        Some(word) => numeral(word, 64),
        None => Ok(default),
    }
}
