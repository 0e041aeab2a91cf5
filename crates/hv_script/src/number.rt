// Numbers and bytes, as words of a script.
ghost use Rattle.std.specs.Prelude.{◌≡◌, ◌≢◌, ◌+◌, ◌*◌, ◌^◌, ◌<◌, ◌≤◌, option_and_then, IfOk, IfSome};
ghost use Rattle.std.specs.Prelude.{SomeIff};
ghost use Rattle.std.specs.Char.{digit_value};
ghost use Rattle.std.specs.Str.Parse.{IsNumeral, digits_value};
ghost use Rattle.hv_script.specs.declared.cut.TheConstants.{KEPT};
ghost use Rattle.hv_script.specs.Fault.{IsRead};
ghost use Rattle.hv_script.specs.Line.{number_at};
ghost use Rattle.hv_script.specs.Number.{bytes_in, decimal_in, fitting, number_in};
ghost use Rattle.hv_script.specs.Words.{word_at};

use crate::cut::CutLine;
use crate::fault::FaultKind;
use hex::FromHexError;
use std::alloc::Allocator;

// The most digits of a word for bytes, two for each.
const MOST_DIGITS: usize = 8192;

impl<'a> CutLine<'a> {
    /// Returns the 64-bit number at a place.
    pub fn number(&self, place: usize) -> Result<u64, FaultKind>
        requires { place < KEPT }
        ensures { result ≡ number_at 64 self.now place }
    {
        number_64(self.word(place)).ok_or(FaultKind::Number)
    }

    /// Returns the number of `bits` bits, fewer than 64, at a place.
    pub fn number_in(&self, bits: u32, place: usize) -> Result<u64, FaultKind>
        requires place { place < KEPT }
        requires fewer { bits < 64 }
        ensures number { result ≡ number_at bits self.now place }
        ensures fits { IfOk result (λ number. number < 2 ^ bits) }
    {
        number_in(self.word(place), bits).ok_or(FaultKind::Number)
    }

    /// Returns the bytes at a place.
    pub fn bytes<A: Allocator>(&self, alloc: A, place: usize) -> Result<Vec<u8, A>, FaultKind>
        requires { place < KEPT }
        ensures { IsRead result (λ bytes. bytes.items) (bytes_in (word_at self.now place)) }
    {
        bytes(alloc, self.word(place))
    }
}

/// Reads a 64-bit number in decimal digits, with any number of leading zeros.
pub fn decimal(word: &[u8]) -> Option<u64>
    ensures { result ≡ decimal_in 64 word.now }
{
    digits(word, 10)
}

/// Reads a 32-bit number in decimal digits, with any number of leading zeros.
pub fn decimal_32(word: &[u8]) -> Option<u32>
    ensures { result ≡ decimal_in 32 word.now }
{
    match fitting(decimal(word), 32) {
        Some(number) => Some(number as u32),
        None => None,
    }
}

/// Reads a 64-bit number in decimal digits, or in `0x` and 1 to 16 hexadecimal digits of either case.
pub fn number_64(word: &[u8]) -> Option<u64>
    ensures { result ≡ number_in 64 word.now }
{
    match word {
        [b'0', b'x', hex @ ..] if hex.len() <= 16 => digits(hex, 16),
        [b'0', b'x', ..] => None,
        _ => digits(word, 10),
    }
}

/// Reads a number of fewer bits, in the forms of [`number_64`].
pub fn number_in(word: &[u8], bits: u32) -> Option<u64>
    requires { bits < 64 }
    ensures number { result ≡ number_in bits word.now }
    ensures fits { IfSome result (λ number. number < 2 ^ bits) }
{
    fitting(number_64(word), bits)
}

// Returns a number if it fits `bits` bits.
fn fitting(number: Option<u64>, bits: u32) -> Option<u64>
    requires { bits < 64 }
    ensures number { result ≡ option_and_then (fitting bits) number }
    ensures fits { IfSome result (λ number. number < 2 ^ bits) }
{
    match number {
        Some(number) if number >> bits == 0 => Some(number),
        _ => None,
    }
}

/// Reads bytes: an even number of hexadecimal digits of either case, at most 8,192, or `-` for none.
pub fn bytes<A: Allocator>(alloc: A, word: &[u8]) -> Result<Vec<u8, A>, FaultKind>
    ensures { IsRead result (λ bytes. bytes.items) (bytes_in word.now) }
{
    if word == b"-".as_slice() {
        return Ok(Vec::new(alloc));
    }
    if word.len() > MOST_DIGITS {
        return Err(FaultKind::Hex);
    }
    match hex::decode(alloc, word) {
        Ok(bytes) => Ok(bytes),
        Err(error) => Err(fault_of(error)),
    }
}

// Why digits weren't read as bytes.
fn fault_of(error: FromHexError) -> FaultKind
    ensures memory { error ≡ FromHexError.OutOfMemory → result ≡ FaultKind.Memory }
    ensures hex { error ≢ FromHexError.OutOfMemory → result ≡ FaultKind.Hex }
{
    match error {
        FromHexError::OutOfMemory => FaultKind::Memory,
        FromHexError::InvalidHexCharacter { .. }
        | FromHexError::OddLength
        | FromHexError::InvalidStringLength => FaultKind::Hex,
    }
}

// The number that digits in a base write, where it fits 64 bits.
fn digits(word: &[u8], base: u64) -> Option<u64>
    requires least { 2 ≤ base }
    requires most { base ≤ 16 }
    ensures { SomeIff result (IsNumeral base word.now
        × (digits_value base word.now < 2 ^ 64)) (digits_value base word.now) }
{
    if word.is_empty() {
        return None;
    }
    let mut value = 0u64;
    for byte in word {
        value = with_digit(value, *byte, base)?;
    }
    Some(value)
}

// The number with one digit more, where it fits 64 bits.
fn with_digit(value: u64, byte: u8, base: u64) -> Option<u64>
    requires least { 2 ≤ base }
    requires most { base ≤ 16 }
    ensures { SomeIff result ((digit_value byte < base) × (value * base + digit_value byte < 2 ^ 64))
        (value * base + digit_value byte) }
{
    let digit = char::from(byte).to_digit(base as u32)?;
    value.checked_mul(base)?.checked_add(u64::from(digit))
}
