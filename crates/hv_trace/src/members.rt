// The members of an object in JSON, in a buffer.
ghost use Rattle.std.specs.Prelude.{◌≡◌, ◌++◌, [], IfOk, OnOk, codes, if◌then◌else◌};
ghost use Rattle.hv_trace.specs.Members.{AreMembers, IsValue};

use arrayvec::{ArrayVec, CapacityError};
use hv_words::Words;
use itoa::Buffer;
use std::marker::Model;

// The digits, each as a text.
const DIGITS: [&str; 16] = [
    "0", "1", "2", "3", "4", "5", "6", "7", "8", "9", "a", "b", "c", "d", "e", "f",
];

/// The members of an object, as text. It takes no memory.
///
/// A member for which no room is left in 2,048 bytes is left out. The fields of an event need fewer.
#[derive(Drop)]
pub(crate) struct Members {
    text: ArrayVec<u8, 2048>,
}

impl Model for Members {
    ghost use Rattle.std.specs.Prelude.{List, ℕ};
    ghost use Rattle.hv_trace.specs.Members.{AreMembers};

    ghost Value = { List ℕ };

    ghost view = { λ m. m.text.items };

    ghost invariant = { λ m. AreMembers m.text.items };
}

impl Members {
    /// Creates the members of an object that has none.
    pub(crate) fn new() -> Members {
        Members {
            text: ArrayVec::new(),
        }
    }

    /// Removes all members.
    pub(crate) fn clear(&mut self) {
        self.text.clear();
    }

    /// The members' text.
    pub(crate) fn as_slice(&self) -> &[u8]
        ensures bytes { result.now ≡ self.now }
        ensures members { AreMembers self.now }
    {
        self.text.as_slice()
    }

    /// Adds a number.
    pub(crate) fn number(&mut self, name: &str, number: u64) {
        let mut buffer = Buffer::new();
        self.add(name, b"", buffer.format(number).as_bytes());
    }

    /// Adds null.
    pub(crate) fn null(&mut self, name: &str) {
        self.add(name, b"", b"null");
    }

    /// Adds words as a string.
    pub(crate) fn words(&mut self, name: &str, words: &Words) {
        self.add(name, b"\"", words.as_slice());
    }

    /// Adds a text as a string.
    pub(crate) fn text(&mut self, name: &str, text: &str) {
        let mut words = Words::new();
        words.text(text);
        self.words(name, &words);
    }

    /// Adds a number in hexadecimal, as a string.
    pub(crate) fn hex(&mut self, name: &str, number: u64) {
        let mut words = Words::new();
        words.hex("", number);
        self.words(name, &words);
    }

    /// Adds two hexadecimal digits for each byte, as a string.
    pub(crate) fn bytes(&mut self, name: &str, bytes: &[u8]) {
        let mut words = Words::new();
        for byte in bytes {
            words.text(DIGITS[usize::from(*byte >> 4)]);
            words.text(DIGITS[usize::from(*byte & 0xf)]);
        }
        self.words(name, &words);
    }

    // Adds a member whose value is this text between two marks, if there is room for all of it.
    fn add(&mut self, name: &str, mark: &[u8], value: &[u8])
        requires { IsValue (mark.now ++ value.now ++ mark.now) }
    {
        let mut own = Words::new();
        own.text(name);
        let comma = comma(self.text.is_empty());
        match joined(self.text.as_slice(), comma, own.as_slice(), mark, value) {
            Ok(text) => self.text = text,
            Err(_) => {}
        }
    }
}

// Returns what stands before a member.
fn comma(is_first: bool) -> &'static [u8]
    ensures { result.now ≡ (if is_first then [] else codes ",") }
{
    if is_first { b"" } else { b"," }
}

// Returns the text of the members before, a comma, and one more member.
fn joined(
    before: &[u8],
    comma: &[u8],
    name: &[u8],
    mark: &[u8],
    value: &[u8],
) -> Result<ArrayVec<u8, 2048>, CapacityError>
    ensures { IfOk result (λ text. text.items ≡ before.now ++ comma.now
        ++ (codes "\"" ++ name.now ++ codes "\":" ++ (mark.now ++ value.now ++ mark.now))) }
{
    let mut text = ArrayVec::new();
    push_parts(&mut text, before, comma, b"\"")?;
    push_parts(&mut text, name, b"\":", mark)?;
    push_parts(&mut text, value, mark, b"")?;
    Ok(text)
}

// Adds three texts.
fn push_parts(
    text: &mut ArrayVec<u8, 2048>,
    first: &[u8],
    second: &[u8],
    third: &[u8],
) -> Result<(), CapacityError>
    ensures { OnOk result (text.new.items ≡ text.old.items ++ first.now ++ second.now ++ third.now) }
{
    text.try_extend_from_slice(first)?;
    text.try_extend_from_slice(second)?;
    text.try_extend_from_slice(third)
}
