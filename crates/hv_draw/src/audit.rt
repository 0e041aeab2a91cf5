// Drawing a state of an audit. Its events are taken from the legal audit as for a chart, and happen once more
// on a machine whose history must then be what the audit begins with.
ghost use Rattle.std.specs.Prelude.{◌≡◌, ◌≢◌, ◌⊎◌, ◌++◌, [], IfErr, IfOk, IfSome, IsTrue, List, OnOk, true};
ghost use Rattle.std.specs.Prelude.{ℕ};
ghost use Rattle.hv_check.specs.Legal.{IsLegal, IsLegalOf, end_text};
ghost use Rattle.hv_run.specs.Failure.{exit_of};
ghost use Rattle.hv_script.specs.Reading.{said};
ghost use Rattle.hv_text.specs.Audit.{audit_text};
ghost use Rattle.hv_draw.specs.Drawn.{AreFirstOf, HasState, HasStateFrom, HasStatePart, IsBeginning};
ghost use Rattle.hv_draw.specs.Drawn.{IsLeft};

use crate::choice::Only;
use crate::draw::write_graph;
use crate::events::Events;
use crate::sequence::show_verdict;
use crate::text::{push, push_number};
use hv_explain::{follow_with, happen};
use hv_history::{HostRefused, Kept};
use hv_policy::Event;
use hv_run::{Exit, Failure, tell};
use hv_script::{Script, parse};
use hv_text::audit as put_audit;
use std::alloc::{AllocError, Global};
use std::io::Write;

/// Draws the state after the first `at` events of an audit, or after all of them. If it isn't legal, this
/// writes a check's verdict.
pub(crate) fn draw_audit<W: Write, E: Write>(
    alloc: Global,
    script: &[u8],
    audit: &[u8],
    at: Option<u64>,
    only: Option<Only>,
    out: &mut W,
    err: &mut E,
) -> Exit
    ensures drawn { result ≡ Exit.Done → HasStateFrom script.now (AreFirstOf at audit.now) only
        (W.contents out.old) (W.contents out.new) }
    ensures part { IsLegalOf true true script.now audit.now → HasStatePart only
        (W.contents out.old) (W.contents out.new) }
    ensures illegal { result ≡ Exit.Script → IsLegalOf true true script.now audit.now → ⊥ }
    ensures no_usage { result ≢ Exit.Usage }
{
    let mut events = Events::new(alloc, at);
    let mut verdict = Vec::new(alloc);
    match follow_with(alloc, &mut events, script, audit, &mut verdict, err) {
        Exit::Done => draw_or_tell(alloc, script, audit, events.as_slice(), at, only, out, err),
        Exit::Script => show_verdict(Some(audit), &verdict, out, err),
        exit => exit,
    }
}

// Draws the state after these events of a legal audit, and writes the reason if that fails.
fn draw_or_tell<W: Write, E: Write>(
    alloc: Global,
    script: &[u8],
    audit: &[u8],
    events: &[Event<Global>],
    at: Option<u64>,
    only: Option<Only>,
    out: &mut W,
    err: &mut E,
) -> Exit
    requires { IsLegalOf true true script.now audit.now }
    ensures drawn { result ≡ Exit.Done → HasStateFrom script.now (AreFirstOf at audit.now) only
        (W.contents out.old) (W.contents out.new) }
    ensures part { HasStatePart only (W.contents out.old) (W.contents out.new) }
    ensures illegal { result ≡ Exit.Script → IsLegalOf true true script.now audit.now → ⊥ }
    ensures no_usage { result ≢ Exit.Usage }
{
    match draw_read(alloc, script, audit, events, at, only, out) {
        Ok(()) => Exit::Done,
        Err(failure) => tell(failure, err),
    }
}

// Draws the state after these events of a legal audit.
fn draw_read<W: Write>(
    alloc: Global,
    script: &[u8],
    audit: &[u8],
    events: &[Event<Global>],
    at: Option<u64>,
    only: Option<Only>,
    out: &mut W,
) -> Result<(), Failure>
    requires { IsLegalOf true true script.now audit.now }
    ensures drawn { OnOk result (HasStateFrom script.now (AreFirstOf at audit.now) only
        (W.contents out.old) (W.contents out.new)) }
    ensures part { HasStatePart only (W.contents out.old) (W.contents out.new) }
    ensures illegal { IfErr result (λ failure. exit_of failure ≡ Exit.Script
        → IsLegalOf true true script.now audit.now → ⊥) }
{
    match parse(alloc, script) {
        Ok(script) => draw_events(alloc, script, audit, events, at, only, out),
        Err(fault) => Err(Failure::from(fault)),
    }
}

// Draws the state of a script after these events, if they are what an audit begins with.
fn draw_events<W: Write>(
    alloc: Global,
    script: Script<Global>,
    audit: &[u8],
    events: &[Event<Global>],
    at: Option<u64>,
    only: Option<Only>,
    out: &mut W,
) -> Result<(), Failure>
    ensures drawn { OnOk result (HasState (said script) (IsBeginning at audit.now) only
        (W.contents out.old) (W.contents out.new)) }
    ensures part { HasStatePart only (W.contents out.old) (W.contents out.new) }
    ensures refused { IfErr result (λ failure. exit_of failure ≡ Exit.Script
        → IsLegal true true (said script) audit.now → ⊥) }
{
    let Script {
        config,
        limit,
        lines,
    } = script;
    drop(lines);
    let mut kept = Kept::boot(alloc, config, limit)?;
    take(&mut kept, events)?;
    compare(alloc, &kept, at, audit)?;
    write_graph(alloc, &kept, only, out)
}

// Lets events happen, one after another.
fn take(kept: &mut Kept<Global>, events: &[Event<Global>]) -> Result<(), Failure>
    ensures config { kept.new.config ≡ kept.old.config }
    ensures limit { kept.new.limit ≡ kept.old.limit }
    ensures host { IfErr result (λ failure. exit_of failure ≡ Exit.Host) }
{
    for event in events {
        match happen(kept, event.by, &event.what) {
            Ok(_) => {}
            Err(HostRefused::HistoryFull) => return Err(Failure::HistoryFull),
            Err(HostRefused::Memory) => return Err(Failure::Memory),
        }
    }
    Ok(())
}

// Succeeds if an audit begins with the events of a history: with so many of them, or with all that it has.
fn compare(alloc: Global, kept: &Kept<Global>, at: Option<u64>, audit: &[u8]) -> Result<(), Failure>
    ensures begins { OnOk result (IsBeginning at audit.now kept.now.history) }
    ensures host { IfErr result (λ failure. exit_of failure ≡ Exit.Host) }
{
    match is_beginning(alloc, kept, at, audit) {
        Ok(true) => Ok(()),
        Ok(false) => Err(Failure::Differs),
        Err(_) => Err(Failure::Memory),
    }
}

// Returns whether it does.
fn is_beginning(
    alloc: Global,
    kept: &Kept<Global>,
    at: Option<u64>,
    audit: &[u8],
) -> Result<bool, AllocError>
    ensures { IfOk result (λ is. IsTrue is → IsBeginning at audit.now kept.now.history) }
{
    let events = kept.history().len() as u64;
    let mut end = Vec::new(alloc);
    push_count(&mut end, events)?;
    let whole = audit_of(alloc, kept)?;
    match behind(&whole, &end, audit) {
        Some(rest) => Ok(is_left(rest, &end, at, events)),
        None => Ok(false),
    }
}

// Adds the last line of an audit with so many events.
fn push_count(text: &mut Vec<u8>, events: u64) -> Result<(), AllocError>
    ensures { OnOk result (text.new.items ≡ text.old.items ++ end_text events) }
{
    push(text, b"events ")?;
    push_number(text, events)?;
    push(text, b"\n")
}

// Returns the audit of a history.
fn audit_of(alloc: Global, kept: &Kept<Global>) -> Result<Vec<u8>, AllocError>
    ensures { IfOk result (λ text. text.items ≡ audit_text kept.now.history) }
{
    let mut text = Vec::new(alloc);
    match put_audit(&mut text, kept) {
        Ok(()) => Ok(text),
        Err(_) => Err(AllocError),
    }
}

// Returns what an audit has behind the lines of a whole one, which ends with this last line.
fn behind<'a>(whole: &[u8], end: &[u8], audit: &'a [u8]) -> Option<&'a [u8]>
    ensures { (lines : List ℕ) → whole.now ≡ lines ++ end.now
        → IfSome result (λ rest. audit.now ≡ lines ++ rest.now) }
{
    let count = whole.len().saturating_sub(end.len());
    if count > audit.len() {
        return None;
    }
    let (lines, _) = whole.split_at(count);
    let (front, rest) = audit.split_at(count);
    if front == lines { Some(rest) } else { None }
}

// Returns whether this may be left of an audit behind this number of events, if `at` of them were asked for.
fn is_left(rest: &[u8], end: &[u8], at: Option<u64>, events: u64) -> bool
    ensures { IsTrue result → end.now ≡ end_text events → IsLeft at events rest.now }
{
    let ends = is_end(rest, end);
    match at {
        Some(at) => at == events || events < at && ends,
        None => ends,
    }
}

// Returns whether a text is empty, or the last line.
fn is_end(rest: &[u8], end: &[u8]) -> bool
    ensures { IsTrue result → (rest.now ≡ []) ⊎ (rest.now ≡ end.now) }
{
    rest.is_empty() || rest == end
}
