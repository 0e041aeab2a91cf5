// Lines by names.
ghost use Rattle.std.specs.Prelude.{◌≡◌, ◌≤◌, ◌++◌, Ok, length, map, true};
ghost use Rattle.hv_asm.specs.Line.{action_of, call_of, is_by_names, line_of, numbers_of};
ghost use Rattle.hv_asm.specs.Line.{read_of, write_of};
ghost use Rattle.hv_asm.specs.Made.{IsMade, IsPushed};
ghost use Rattle.hv_script.specs.Cursor.{word_in};
ghost use Rattle.hv_script.specs.Words.{has_good_bytes, words_of};

use crate::fault::AsmFault;
use crate::frame::frame_of;
use crate::names::{call_named, msr_of};
use crate::push::push_bytes;
use crate::values::numeral;
use hv_policy::{Action, Caller};
use hv_script::{FaultKind, around, processor, script_line};
use std::alloc::Global;

/// Adds the line that a line means: its numbers, or itself where it isn't by names.
#[tactic(auto, unfolding(crate::specs::Line::line_of))]
pub fn push_line(script: &mut Vec<u8>, line: &[u8]) -> Result<(), AsmFault>
    ensures { IsPushed result script.old.items script.new.items (line_of line.now) }
{
    let alloc = *script.allocator();
    let words = words_of(alloc, line)?;
    if !is_by_names(words.as_slice()) {
        return push_bytes(script, line);
    }
    if !has_good_bytes(line) {
        return Err(AsmFault::Script(FaultKind::Byte));
    }
    let (by, what) = event_of(alloc, words.as_slice())?;
    match script_line(alloc, by, &what) {
        Ok(numbers) => push_bytes(script, numbers.as_slice()),
        Err(_) => Err(AsmFault::Script(FaultKind::Memory)),
    }
}

// Returns whether each byte may stand in a script.
fn has_good_bytes(line: &[u8]) -> bool
    ensures { result ≡ has_good_bytes line.now }
{
    line.iter().all(|byte| matches!(*byte, 0x20..=0x7E))
}

/// The words of a line.
pub fn words_of<'a>(alloc: Global, line: &'a [u8]) -> Result<Vec<&'a [u8]>, AsmFault>
    ensures { IsMade result (λ words. map (λ word. word.now) words.items) (Ok (words_of line.now)) }
{
    let mut words = Vec::new(alloc);
    let mut left = line;
    while !left.is_empty() {
        let (word, rest) = around(left, b' ');
        push_word(&mut words, word)?;
        left = rest;
    }
    Ok(words)
}

// Adds a word, if it isn't empty.
fn push_word<'a>(words: &mut Vec<&'a [u8]>, word: &'a [u8]) -> Result<(), AsmFault>
    ensures { IsMade result (λ _. map (λ word. word.now) words.new.items)
        (Ok (map (λ word. word.now) words.old.items ++ word_in word.now)) }
{
    if word.is_empty() {
        return Ok(());
    }
    words
        .push(word)
        .map_err(|_| AsmFault::Script(FaultKind::Memory))
}

/// Returns whether a line is written by names.
pub fn is_by_names(words: &[&[u8]]) -> bool
    ensures named { result ≡ is_by_names (map (λ word. word.now) words.now) }
    ensures two { result ≡ true → 2 ≤ length words.now }
{
    match words {
        [[b'#', ..], ..] => false,
        [_, b"read", ..] | [_, b"write", ..] | [_, [b'H', b'v', ..], ..] => true,
        _ => false,
    }
}

// The processor and the action of a line by names.
#[tactic(auto, unfolding(crate::specs::Line::numbers_of))]
fn event_of(alloc: Global, words: &[&[u8]]) -> Result<(Caller, Action<Global>), AsmFault>
    requires { 2 ≤ length words.now }
    ensures { IsMade result (λ event. event) (numbers_of (map (λ word. word.now) words.now)) }
{
    let [by, verb, rest @ ..] = words else {
        unreachable!()
    };
    let by = processor(by).map_err(AsmFault::Script)?;
    let what = action_of(alloc, verb, rest)?;
    Ok((by, what))
}

#[tactic(auto, unfolding(crate::specs::Line::action_of))]
fn action_of(alloc: Global, verb: &[u8], words: &[&[u8]]) -> Result<Action<Global>, AsmFault>
    ensures { IsMade result (λ action. action) (action_of verb.now (map (λ word. word.now) words.now)) }
{
    if verb == b"read".as_slice() {
        return read_msr(words);
    }
    if verb == b"write".as_slice() {
        return write_msr(words);
    }
    call_of(alloc, verb, words)
}

// The hypercall of a name, by the words behind it.
fn call_of(alloc: Global, verb: &[u8], words: &[&[u8]]) -> Result<Action<Global>, AsmFault>
    ensures { IsMade result (λ action. action) (call_of verb.now (map (λ word. word.now) words.now)) }
{
    let Some(call) = call_named(verb) else {
        return Err(AsmFault::Script(FaultKind::Word));
    };
    Ok(Action::Hypercall(frame_of(alloc, call, words)?))
}

fn read_msr(words: &[&[u8]]) -> Result<Action<Global>, AsmFault>
    ensures { IsMade result (λ action. action) (read_of (map (λ word. word.now) words.now)) }
{
    match words {
        [msr] => Ok(Action::ReadMsr(msr_of(msr)?)),
        _ => Err(AsmFault::Script(FaultKind::Count)),
    }
}

fn write_msr(words: &[&[u8]]) -> Result<Action<Global>, AsmFault>
    ensures { IsMade result (λ action. action) (write_of (map (λ word. word.now) words.now)) }
{
    match words {
        [msr, value] => Ok(Action::WriteMsr(msr_of(msr)?, numeral(value, 64)?)),
        _ => Err(AsmFault::Script(FaultKind::Count)),
    }
}
