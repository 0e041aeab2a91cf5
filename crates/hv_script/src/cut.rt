// Lines, cut into words.
ghost use Rattle.std.specs.Prelude.{◌≡◌, ◌+◌, ◌<◌, ◌≤◌, ◌==◌, ◌++◌, ◌&&◌, ◌^◌, IfOk, [], length, map, take};
ghost use Rattle.std.specs.Prelude.{drop, codes, nat_eq};
ghost use Rattle.std.specs.List.{after_first, before_first, starts_with};
ghost use Rattle.hv_script.specs.declared.cut.TheConstants.{KEPT};
ghost use Rattle.hv_script.specs.Cursor.{Runs, is_of_word, line_of, word_in, words_read};
ghost use Rattle.hv_script.specs.Fault.{IsRead};
ghost use Rattle.hv_script.specs.Words.{begins_with, word_at};

use crate::fault::FaultKind;
use std::marker::Model;

/// The number of words that are kept of a line: the most that a line of a script has.
pub const KEPT: usize = 6;

/// A line, cut into its words.
#[derive(Drop)]
pub struct CutLine<'a> {
    line: &'a [u8],
    // The first words. Those past the count are of earlier lines.
    first: [&'a [u8]; KEPT],
    count: usize,
}

impl<'a> Model for CutLine<'a> {
    ghost use Rattle.std.specs.Prelude.{◌≡◌, List, ℕ, length, map, take};
    ghost use Rattle.hv_script.specs.Words.{words_of};
    ghost use Rattle.hv_script.specs.declared.cut.TheConstants.{KEPT};

    ghost Value = { List (List ℕ) };

    ghost view = { λ cut. words_of cut.line.now };

    ghost invariant = { λ cut. (cut.count ≡ length (words_of cut.line.now))
        × (map (λ word. word.now) (take cut.count cut.first) ≡ take KEPT (words_of cut.line.now)) };
}

impl<'a> CutLine<'a> {
    /// Creates an empty line.
    #[tactic(auto, unfolding(crate::specs::Words::words_of))]
    pub fn new() -> CutLine<'a>
        ensures { result ≡ [] }
    {
        CutLine {
            line: &[],
            first: [&[]; KEPT],
            count: 0,
        }
    }

    /// Cuts the first line of a text, and returns the text after its line feed.
    ///
    /// A line that is skipped has no words. A line that isn't skipped and has a bad byte is a fault.
    pub fn cut(&mut self, text: &'a [u8]) -> Result<&'a [u8], FaultKind>
        ensures rest { IfOk result (λ rest. rest.now ≡ after_first (λ byte. byte == 10) text.now) }
        ensures words { IsRead result (λ _. self.new) (words_read (line_of text.now)) }
    {
        self.line = &[];
        self.count = 0;
        let mut count = 0usize;
        let mut at = 0usize;
        loop {
            let end = word_end(text, at);
            let run = &text[at..end];
            if begins_comment(count, run) {
                let (_, rest) = around(text, b'\n');
                return Ok(rest);
            }
            count = keep(&mut self.first, count, run);
            if end == text.len() || text[end] == b'\n' {
                self.line = &text[..end];
                self.count = count;
                return Ok(behind(text, end));
            }
            if text[end] != b' ' {
                return Err(FaultKind::Byte);
            }
            at = end + 1;
        }
    }

    /// The word at a place counted from 0, empty where there is none.
    pub fn word(&self, place: usize) -> &'a [u8]
        requires { place < KEPT }
        ensures { result.now ≡ word_at self.now place }
    {
        if place < self.count {
            self.first[place]
        } else {
            &[]
        }
    }

    /// The number of words.
    pub fn words(&self) -> usize
        ensures { result ≡ length self.now }
    {
        self.count
    }

    /// Returns `true` if the first word is this one.
    pub fn begins_with(&self, text: &[u8]) -> bool
        ensures { result ≡ begins_with self.now text.now }
    {
        self.word(0) == text
    }
}

// Returns the end of the bytes of words in a text from a place on.
fn word_end(text: &[u8], from: usize) -> usize
    requires { from ≤ length text.now }
    ensures { Runs is_of_word text.now from result }
{
    let mut at = from;
    while at < text.len() && matches!(text[at], 0x21..=0x7E) {
        at += 1;
    }
    at
}

// Whether a run of bytes after `count` words begins a comment.
fn begins_comment(count: usize, run: &[u8]) -> bool
    ensures { result ≡ ((count == 0) && starts_with nat_eq run.now (codes "#")) }
{
    count == 0 && matches!(run, [b'#', ..])
}

// Keeps a run of bytes after `count` words, if it is a word and there is room. Returns the new number of
// words.
fn keep<'a>(first: &mut [&'a [u8]; KEPT], count: usize, run: &'a [u8]) -> usize
    requires { count + 1 < 2 ^ 64 }
    ensures count { result ≡ count + length (word_in run.now) }
    ensures kept { map (λ word. word.now) (take result first.new)
        ≡ take KEPT (map (λ word. word.now) (take count first.old) ++ word_in run.now) }
{
    if run.is_empty() {
        return count;
    }
    if count < KEPT {
        first[count] = run;
    }
    count + 1
}

/// Splits a text at the first of this byte. Without one, nothing comes after it.
pub fn around(text: &[u8], mark: u8) -> (&[u8], &[u8])
    ensures before { result.0.now ≡ before_first (λ byte. byte == mark) text.now }
    ensures after { result.1.now ≡ after_first (λ byte. byte == mark) text.now }
{
    match text.iter().position(|byte| *byte == mark) {
        Some(at) => (&text[..at], &text[at + 1..]),
        None => (text, &[]),
    }
}

// Returns the text after the byte at a place, if there is one.
fn behind(text: &[u8], place: usize) -> &[u8]
    ensures { result.now ≡ drop (place + 1) text.now }
{
    if place < text.len() {
        &text[place + 1..]
    } else {
        &[]
    }
}
