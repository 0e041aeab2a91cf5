// The buffer of a text.
ghost use Rattle.std.specs.Prelude.{◌≡◌, ◌<◌, [], true};
ghost use Rattle.hv_words.specs.Words.{IsPlain, IsQuotable, StandsForItself};

use arrayvec::ArrayVec;
use hv_defs::SELF_ID;
use itoa::Buffer;
use std::marker::Model;

/// A buffer in which a text is built, for a line and for quotes. It takes no memory.
///
/// It has printable ASCII without `"`, `&`, `<` and `\`. All other bytes are left out, and so are those past
/// 2,048. The text of an event has none of them.
#[derive(Drop)]
pub struct Words {
    bytes: ArrayVec<u8, 2048>,
}

impl Model for Words {
    ghost use Rattle.std.specs.Prelude.{List, ℕ};
    ghost use Rattle.hv_words.specs.Words.{IsQuotable};

    ghost Value = { List ℕ };

    ghost view = { λ w. w.bytes.items };

    ghost invariant = { λ w. IsQuotable w.bytes.items };
}

impl Words {
    /// Creates the empty text.
    pub fn new() -> Words
        ensures { result ≡ [] }
    {
        Words {
            bytes: ArrayVec::new(),
        }
    }

    /// Removes the text.
    pub fn clear(&mut self)
        ensures { self.new ≡ [] }
    {
        self.bytes.clear();
    }

    /// The text's bytes.
    pub fn as_slice(&self) -> &[u8]
        ensures bytes { result.now ≡ self.now }
        ensures plain { IsPlain self.now }
        ensures quotable { IsQuotable self.now }
    {
        self.bytes.as_slice()
    }

    /// Adds a text.
    pub fn text(&mut self, text: &str) {
        for byte in text.as_bytes() {
            self.push(*byte);
        }
    }

    /// Adds a text and a number in decimal.
    pub fn decimal(&mut self, before: &str, number: u64) {
        self.text(before);
        let mut buffer = Buffer::new();
        self.text(buffer.format(number));
    }

    /// Adds a text and a number in hexadecimal, with `0x` and without leading zeros.
    pub fn hex(&mut self, before: &str, number: u64) {
        self.text(before);
        self.text("0x");
        let mut shown = false;
        for at in 0..16u32 {
            let digit = number >> (4 * (15 - at)) & 0xf;
            shown = shown || digit != 0 || at == 15;
            if shown {
                self.push(digit_of(digit as u8));
            }
        }
    }

    /// Adds a text and a partition's id, or `self` for the id by which a caller names its own partition.
    pub fn id(&mut self, before: &str, id: u64) {
        if id == SELF_ID {
            self.text(before);
            self.text("self");
        } else {
            self.decimal(before, id);
        }
    }

    /// Adds a text, the number of bytes, and then each byte as two hexadecimal digits after a space.
    pub fn bytes(&mut self, before: &str, bytes: &[u8]) {
        self.decimal(before, bytes.len() as u64);
        self.text(if bytes.len() == 1 { " byte" } else { " bytes" });
        for byte in bytes {
            self.push(b' ');
            self.push(digit_of(*byte >> 4));
            self.push(digit_of(*byte & 0xf));
        }
    }

    // Adds a byte, if it stands for itself and there is room.
    fn push(&mut self, byte: u8) {
        if stands_for_itself(byte) {
            let _ = self.bytes.try_push(byte);
        }
    }
}

// Returns whether a byte stands for itself in JSON and in XML.
fn stands_for_itself(byte: u8) -> bool
    ensures { result ≡ true → StandsForItself byte }
{
    match byte {
        b'"' | b'&' | b'<' | b'\\' => false,
        _ => b' ' <= byte && byte <= b'~',
    }
}

// The hexadecimal digit of a number.
fn digit_of(number: u8) -> u8
    requires { number < 16 }
{
    if number < 10 {
        b'0' + number
    } else {
        b'a' + (number - 10)
    }
}
