// What is told of a fault beside its text: the word that it is about, and a name that is near this word.

use crate::elements::{is_setting, push_element};
use crate::fault::{AsmError, AsmFault};
use crate::field::{Part, parts};
use crate::frame::twelve_bits;
use crate::line::{is_by_names, words_of};
use crate::list::push_part;
use crate::names::{call_named, msr_of, short};
use crate::near::{near_call, near_field, near_msr, near_register, near_verb};
use crate::values::{option_value, split};
use hv_abi::CallKind;
use hv_script::{FaultKind, around, number_64};
use std::alloc::Global;
use std::io;
use std::io::Write;

// The most bytes that are shown of a word.
const SHOWN: usize = 60;

/// The word that a fault is about, and a name that is near it.
#[derive(Clone, Copy)]
pub struct Hint<'a> {
    word: Option<&'a [u8]>,
    near: Option<&'static str>,
}

impl<'a> Hint<'a> {
    fn at(word: Option<&'a [u8]>) -> Hint<'a> {
        Hint { word, near: None }
    }

    /// The hint for the first fault of a text.
    pub fn of(alloc: Global, text: &'a [u8], error: AsmError) -> Hint<'a> {
        match words_of(alloc, line_at(text, error.line)) {
            Ok(words) => of_line(alloc, words.as_slice(), error.kind),
            Err(_) => Hint::at(None),
        }
    }

    /// Writes a hint behind a fault's text.
    pub fn put<E: Write>(self, err: &mut E) -> io::Result<()> {
        if let Some(word) = self.word {
            let end: &[u8] = if word.len() > SHOWN { b"..'" } else { b"'" };
            err.write_all(b" '")?;
            err.write_all(&word[..word.len().min(SHOWN)])?;
            err.write_all(end)?;
        }
        if let Some(near) = self.near {
            write!(err, "; did you mean {near}?")?;
        }
        Ok(())
    }
}

// The line with this number.
fn line_at(text: &[u8], number: usize) -> &[u8] {
    let mut left = text;
    for _ in 1..number {
        let (_, rest) = around(left, b'\n');
        left = rest;
    }
    let (line, _) = around(left, b'\n');
    line
}

// The hint for a fault of the line with these words.
fn of_line<'a>(alloc: Global, words: &[&'a [u8]], kind: AsmFault) -> Hint<'a> {
    match words {
        [by, ..] if kind == AsmFault::Script(FaultKind::Processor) => Hint::at(Some(by)),
        [_, verb, ..] if kind == AsmFault::Script(FaultKind::Word) => of_verb(alloc, verb),
        [_, verb, rest @ ..] if is_by_names(words) => of_names(alloc, verb, rest, kind),
        [first, rest @ ..] => of_numbers(first, rest, kind),
        [] => Hint::at(None),
    }
}

// The hint for a second word that is unknown.
fn of_verb<'a>(alloc: Global, verb: &'a [u8]) -> Hint<'a> {
    let near = match near_call(alloc, verb) {
        Some(name) => Some(name),
        None => near_verb(alloc, verb),
    };
    Hint {
        word: Some(verb),
        near,
    }
}

// The hint for a line of numbers: the first word that is no number, or the bytes.
fn of_numbers<'a>(first: &[u8], words: &[&'a [u8]], kind: AsmFault) -> Hint<'a> {
    let from = usize::from(first != b"boot".as_slice());
    let word = match kind {
        AsmFault::Script(FaultKind::Number) => words
            .iter()
            .skip(from)
            .find(|word| number_64(word).is_none())
            .copied(),
        AsmFault::Script(FaultKind::Hex) => words.last().copied(),
        _ => None,
    };
    Hint::at(word)
}

// The hint for a line by names, by the words behind its name.
fn of_names<'a>(alloc: Global, verb: &[u8], words: &[&'a [u8]], kind: AsmFault) -> Hint<'a> {
    match call_named(verb) {
        Some(call) => match words {
            [b"fast", fields @ ..] => of_call(alloc, call, true, fields, kind),
            _ => of_call(alloc, call, false, words, kind),
        },
        None => match words {
            [msr, ..] if msr_of(msr) == Err(kind) => Hint {
                word: Some(msr),
                near: near_msr(alloc, short(msr)),
            },
            [_, value] if kind == AsmFault::Script(FaultKind::Number) => Hint::at(Some(value)),
            _ => Hint::at(None),
        },
    }
}

// The hint for a call by names. The reading of its words stops at the first fault in this order.
fn of_call<'a>(
    alloc: Global,
    call: CallKind,
    fast: bool,
    words: &[&'a [u8]],
    kind: AsmFault,
) -> Hint<'a> {
    if let Some(word) = wrong_element(alloc, call, fast, words, kind) {
        let (name, _) = split(word);
        return Hint {
            word: Some(word),
            near: near_element(alloc, call, name),
        };
    }
    match wrong_part(alloc, call, words, kind) {
        Some(name) => Hint::at(Some(word_named(words, name))),
        None => match wrong_option(words, kind) {
            Some(name) => Hint::at(Some(word_named(words, name))),
            None => Hint::at(None),
        },
    }
}

// The first element with this fault.
fn wrong_element<'a>(
    alloc: Global,
    call: CallKind,
    fast: bool,
    words: &[&'a [u8]],
    kind: AsmFault,
) -> Option<&'a [u8]> {
    for word in words {
        if !is_setting(call, fast, word) && has_fault(alloc, call, word, kind) {
            return Some(word);
        }
    }
    None
}

// Returns whether an element has this fault.
fn has_fault(alloc: Global, call: CallKind, word: &[u8], kind: AsmFault) -> bool {
    let mut list = Vec::new(alloc);
    push_element(&mut list, call, word) == Err(kind)
}

// A name that is near the name in an element.
fn near_element(alloc: Global, call: CallKind, name: &[u8]) -> Option<&'static str> {
    match near_field(alloc, call, name) {
        Some(near) => Some(near),
        None if matches!(call, CallKind::GetVpRegisters | CallKind::SetVpRegisters) => {
            near_register(alloc, name)
        }
        None => None,
    }
}

// The name of the first part with this fault.
fn wrong_part(
    alloc: Global,
    call: CallKind,
    words: &[&[u8]],
    kind: AsmFault,
) -> Option<&'static str> {
    for part in parts(call) {
        if is_wrong(alloc, *part, words, kind) {
            return part.name();
        }
    }
    None
}

// Returns whether a part has this fault.
fn is_wrong(alloc: Global, part: Part, words: &[&[u8]], kind: AsmFault) -> bool {
    let mut list = Vec::new(alloc);
    push_part(&mut list, part, words) == Err(kind)
}

// The name of the first option with this fault.
fn wrong_option(words: &[&[u8]], kind: AsmFault) -> Option<&'static str> {
    for name in ["reps", "start"] {
        if option_value(words, name.as_bytes(), 0).and_then(twelve_bits) == Err(kind) {
            return Some(name);
        }
    }
    for name in ["input", "output"] {
        if option_value(words, name.as_bytes(), 0) == Err(kind) {
            return Some(name);
        }
    }
    None
}

// The first word that gives this name, or the name itself.
fn word_named<'a>(words: &[&'a [u8]], name: &'static str) -> &'a [u8] {
    for word in words {
        let (before, _) = split(word);
        if before == name.as_bytes() {
            return word;
        }
    }
    name.as_bytes()
}
