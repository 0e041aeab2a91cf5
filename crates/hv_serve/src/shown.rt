// What a line shows in JSON: the table, the bytes of a look, or an explanation. A fault by names shows more
// than its text.
ghost use Rattle.std.specs.Prelude.{◌≡◌, ◌++◌, Some, Option, List, ℕ, IfErr, IfOk, IsTrue, codes, option_map};
ghost use Rattle.hv_serve.specs.Bench.{IsRequest, IsToldAs, Shows, kept_in};
ghost use Rattle.hv_words.specs.Words.{IsPlain};
ghost use Rattle.hv_history.specs.Kept.{Kept as KeptValue};
ghost use Rattle.std.specs.declared.alloc.Global.{Global as GlobalValue};

use crate::bench::Bench;
use crate::outcome::{Outcome, named_text};
use crate::peek::{Peek, seen};
use hv_asm::{AsmError, AsmFault, Hint};
use hv_explain::explain_last;
use hv_history::{HostRefused, Kept};
use hv_text::table;
use std::alloc::{AllocError, Global};

// Returns the outcome that is reported, and what the line shows. The outcome is out of memory if there is no
// memory for what it shows.
pub(crate) fn take_shown(
    alloc: Global,
    bench: &Option<Bench>,
    line: &[u8],
    outcome: Outcome,
) -> (Outcome, Option<Vec<u8>>)
    ensures told { IsToldAs outcome result.0 }
    ensures shown { Shows result.0 (kept_in bench.now) (option_map (λ text. text.items) result.1) }
{
    match shown(alloc, bench, line, outcome) {
        Ok(shown) => (outcome, shown),
        Err(AllocError) => (Outcome::Host(HostRefused::Memory), None),
    }
}

// Returns what a line with this outcome shows, if it shows anything.
fn shown(
    alloc: Global,
    bench: &Option<Bench>,
    line: &[u8],
    outcome: Outcome,
) -> Result<Option<Vec<u8>>, AllocError>
    ensures shown { IfOk result (λ shown. Shows outcome (kept_in bench.now)
        (option_map (λ text. text.items) shown)) }
    ensures memory { IfErr result (λ _. IsRequest outcome) }
{
    match outcome {
        Outcome::Done | Outcome::Help | Outcome::Fault(_) | Outcome::Boot(_) | Outcome::Host(_) => {
            Ok(None)
        }
        Outcome::Named(fault) => named(alloc, line, fault),
        Outcome::Table => match bench {
            None => Ok(None),
            Some(bench) => whole_table(alloc, &bench.kept),
        },
        Outcome::Peek(peek) => match bench {
            None => Ok(None),
            Some(bench) => look(alloc, &bench.kept, peek),
        },
        Outcome::Explain => match bench {
            None => Ok(None),
            Some(bench) => explanation(alloc, &bench.kept),
        },
    }
}

// Returns the text for a fault of a line by names: the fault's text, and then the word that it is about and a
// name that is near it.
fn named(alloc: Global, line: &[u8], fault: AsmFault) -> Result<Option<Vec<u8>>, AllocError>
    ensures { (now : Option (KeptValue GlobalValue)) → IfOk result (λ shown. Shows (Outcome.Named fault) now
        (option_map (λ text. text.items) shown)) }
{
    let mut text = Vec::new(alloc);
    text.extend_from_slice(named_text(fault).as_bytes())?;
    text.extend_from_slice(&hint(alloc, line, fault))?;
    Ok(Some(text))
}

// Returns what is told of a fault behind its text. Without memory it is empty.
fn hint(alloc: Global, line: &[u8], kind: AsmFault) -> Vec<u8>
    ensures { IsPlain result.items }
{
    let mut text = Vec::new(alloc);
    let hint = Hint::of(alloc, line, AsmError { line: 1, kind });
    match hint.put(&mut text) {
        Ok(()) if is_plain(&text) => text,
        _ => Vec::new(alloc),
    }
}

// Returns whether a text has no line feed.
fn is_plain(text: &[u8]) -> bool
    ensures { IsTrue result → IsPlain text.now }
{
    text.iter().all(|byte| *byte != b'\n')
}

// Returns the table of the current state.
fn whole_table(alloc: Global, kept: &Kept<Global>) -> Result<Option<Vec<u8>>, AllocError>
    ensures { IfOk result (λ shown. Shows Outcome.Table (Some kept.now)
        (option_map (λ text. text.items) shown)) }
{
    // Proof: the history is a run.
    let _history = kept.history();
    let mut text = Vec::new(alloc);
    match table(&mut text, kept) {
        Ok(()) => Ok(Some(text)),
        Err(_) => Err(AllocError),
    }
}

// Returns the bytes that a look shows, in hexadecimal digits.
fn look(alloc: Global, kept: &Kept<Global>, peek: Peek) -> Result<Option<Vec<u8>>, AllocError>
    ensures { IfOk result (λ shown. Shows (Outcome.Peek peek) (Some kept.now)
        (option_map (λ text. text.items) shown)) }
{
    match seen(kept.machine(), peek) {
        None => Ok(None),
        Some(output) => {
            let digits = hex::encode(alloc, output.as_slice())?;
            Ok(Some(digits.into_bytes()))
        }
    }
}

// Returns the explanation of the last event, if there has been one.
fn explanation(alloc: Global, kept: &Kept<Global>) -> Result<Option<Vec<u8>>, AllocError>
    ensures { IfOk result (λ shown. Shows Outcome.Explain (Some kept.now)
        (option_map (λ text. text.items) shown)) }
{
    if kept.history().len() == 0 {
        return Ok(None);
    }
    let mut text = Vec::new(alloc);
    match explain_last(alloc, kept, &mut text) {
        Ok(()) => {
            drop_line_feed(&mut text);
            Ok(Some(text))
        }
        Err(_) => Err(AllocError),
    }
}

// Drops the line feed at a line's end.
fn drop_line_feed(line: &mut Vec<u8>)
    ensures { (text : List ℕ) → line.old.items ≡ text ++ codes "\n" → line.new.items ≡ text }
{
    line.truncate(line.len().saturating_sub(1));
}
