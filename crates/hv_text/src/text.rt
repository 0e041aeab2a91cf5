// A line on the stack.
ghost use Rattle.std.specs.Prelude.{◌≡◌, ◌+◌, ◌*◌, ◌≤◌, [], ◌++◌, length, decimal, drop, take};
ghost use Rattle.hex.specs.Hex.{encode_lower};
ghost use Rattle.hv_text.specs.declared.text.TheConstants.{LINE, MOST_DIGITS, MOST_WIDE_DIGITS};

use itoa::{Buffer, write_digits};
use std::marker::Model;

// More bytes than a line has.
pub const LINE: usize = 768;

// The most digits of a number of 64 bits.
pub const MOST_DIGITS: usize = 20;

// More digits than a number of 128 bits has.
pub const MOST_WIDE_DIGITS: usize = 40;

// The two hexadecimal digits of each byte.
static PAIRS: [u8; 512] = *b"\
    000102030405060708090a0b0c0d0e0f\
    101112131415161718191a1b1c1d1e1f\
    202122232425262728292a2b2c2d2e2f\
    303132333435363738393a3b3c3d3e3f\
    404142434445464748494a4b4c4d4e4f\
    505152535455565758595a5b5c5d5e5f\
    606162636465666768696a6b6c6d6e6f\
    707172737475767778797a7b7c7d7e7f\
    808182838485868788898a8b8c8d8e8f\
    909192939495969798999a9b9c9d9e9f\
    a0a1a2a3a4a5a6a7a8a9aaabacadaeaf\
    b0b1b2b3b4b5b6b7b8b9babbbcbdbebf\
    c0c1c2c3c4c5c6c7c8c9cacbcccdcecf\
    d0d1d2d3d4d5d6d7d8d9dadbdcdddedf\
    e0e1e2e3e4e5e6e7e8e9eaebecedeeef\
    f0f1f2f3f4f5f6f7f8f9fafbfcfdfeff\
";

// The number of bytes whose digits one step of a loop writes.
const BLOCK: usize = 8;

// The line that is being built.
#[derive(Drop)]
pub(crate) struct Text {
    bytes: [u8; LINE],
    len: usize,
}

impl Model for Text {
    ghost use Rattle.std.specs.Prelude.{◌≤◌, List, ℕ, take};
    ghost use Rattle.hv_text.specs.declared.text.TheConstants.{LINE};

    ghost Value = { List ℕ };

    ghost view = { λ l. take l.len l.bytes };

    ghost invariant = { λ l. l.len ≤ LINE };
}

impl Text {
    // Creates an empty line.
    pub(crate) fn new() -> Text
        ensures { result ≡ [] }
    {
        Text {
            bytes: [0; LINE],
            len: 0,
        }
    }

    // Empties the line.
    pub(crate) fn clear(&mut self)
        ensures { self.new ≡ [] }
    {
        self.len = 0;
    }

    pub(crate) fn as_slice(&self) -> &[u8]
        ensures bytes { result.now ≡ self.now }
        ensures most { length self.now ≤ LINE }
    {
        &self.bytes[..self.len]
    }

    // Adds these bytes.
    pub(crate) fn push_text(&mut self, text: &[u8])
        requires { length self.old + length text.now ≤ LINE }
        ensures { self.new ≡ self.old ++ text.now }
    {
        let end = self.len + text.len();
        self.bytes[self.len..end].copy_from_slice(text);
        self.len = end;
    }

    // Adds a number in decimal.
    // Inlined: calls for the own id in bench/largest.sh.
    #[inline(always)]
    pub(crate) fn push_decimal(&mut self, number: u64)
        requires { length self.old + MOST_DIGITS ≤ LINE }
        ensures text { self.new ≡ self.old ++ decimal number }
        ensures most { length (decimal number) ≤ MOST_DIGITS }
    {
        let end = self.len + digits_of(number);
        let _start = write_digits(number, &mut self.bytes, end);
        self.len = end;
    }

    // Adds a word and a number in decimal.
    pub(crate) fn push_named(&mut self, name: &[u8], number: u64)
        requires { length self.old + length name.now + MOST_DIGITS ≤ LINE }
        ensures text { self.new ≡ self.old ++ (name.now ++ decimal number) }
        ensures most { length (decimal number) ≤ MOST_DIGITS }
    {
        self.push_text(name);
        self.push_decimal(number);
    }

    // Adds a number of up to 128 bits in decimal.
    pub(crate) fn push_wide(&mut self, number: u128)
        requires { length self.old + MOST_WIDE_DIGITS ≤ LINE }
        ensures text { self.new ≡ self.old ++ decimal number }
        ensures most { length (decimal number) ≤ MOST_WIDE_DIGITS }
    {
        let mut buffer = Buffer::new();
        self.push_text(buffer.format(number).as_bytes());
    }

    // Adds each byte as two hexadecimal digits, in lower case.
    pub(crate) fn push_bytes(&mut self, bytes: &[u8])
        requires { length self.old + 2 * length bytes.now ≤ LINE }
        ensures text { self.new ≡ self.old ++ encode_lower bytes.now }
        ensures most { length (encode_lower bytes.now) ≤ 2 * length bytes.now }
    {
        let end = self.len + 2 * bytes.len();
        put_pairs(bytes, &mut self.bytes[self.len..end]);
        self.len = end;
    }
}

// The number of digits that a number has in decimal.
fn digits_of(number: u64) -> usize
    ensures is { result ≡ length (decimal number) }
    ensures most { length (decimal number) ≤ MOST_DIGITS }
{
    let mut count = 1;
    let mut rest = number;
    while rest >= 10 {
        rest /= 10;
        count += 1;
    }
    count
}

// Writes the two digits of each byte into room for exactly these.
fn put_pairs(bytes: &[u8], room: &mut [u8])
    requires { length room.old ≡ 2 * length bytes.now }
    ensures { room.new ≡ encode_lower bytes.now }
{
    let whole = bytes.len() / BLOCK;
    for block in 0..whole {
        put_range(bytes, room, BLOCK * block, BLOCK * block + BLOCK);
    }
    put_range(bytes, room, BLOCK * whole, bytes.len());
}

// Writes the two digits of each byte of a range, after those of the bytes before it.
fn put_range(bytes: &[u8], room: &mut [u8], from: usize, to: usize)
    requires order { (from ≤ to) × (to ≤ length bytes.now) }
    requires room { length room.old ≡ 2 * length bytes.now }
    requires so_far { take (2 * from) room.old ++ encode_lower (drop from bytes.now)
        ≡ encode_lower bytes.now }
    ensures room { length room.new ≡ length room.old }
    ensures so_far { take (2 * to) room.new ++ encode_lower (drop to bytes.now) ≡ encode_lower bytes.now }
{
    for at in from..to {
        let pair = 2 * bytes[at] as usize;
        let (high, low) = (PAIRS[pair], PAIRS[pair + 1]);
        room[2 * at] = high;
        room[2 * at + 1] = low;
    }
}
