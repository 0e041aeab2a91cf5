// Drawing a state of a script, from the bytes of its files to the exit status.
ghost use Rattle.std.specs.Prelude.{◌≡◌, ◌≢◌, IfErr, IfNone, IfOk, IfSome, IsOk, None, OnOk, true};
ghost use Rattle.std.specs.Io.KnownBytes.{Appends, Keeps};
ghost use Rattle.hv_check.specs.Legal.{IsLegalOf};
ghost use Rattle.hv_explain.specs.First.{AreFirst};
ghost use Rattle.hv_history.specs.Kept.{IsRun};
ghost use Rattle.hv_policy.specs.BootFault.{boot_fault};
ghost use Rattle.hv_run.specs.Failure.{CanRun, exit_of};
ghost use Rattle.hv_run.specs.Written.{HasPart};
ghost use Rattle.hv_script.specs.Reading.{said};
ghost use Rattle.hv_draw.specs.Drawn.{HasDrawnOf, HasDrawnPart, HasPicture, HasState, HasStateOf};
ghost use Rattle.hv_draw.specs.Drawn.{HasStatePart, IsGraph, IsPicture};
ghost use Rattle.hv_draw.specs.Sequence.{IsTaken};

use crate::audit::draw_audit;
use crate::choice::Only;
use crate::folded::is_crowd;
use crate::graph::{push_blocks, push_end, push_head};
use crate::inside::View;
use crate::links::push_links;
use crate::made::made_ports;
use crate::only::chosen_graph;
use crate::silent::Silent;
use crate::text::push;
use hv_explain::explain_lines;
use hv_history::Kept;
use hv_run::{Exit, Failure, tell};
use hv_script::{Script, parse};
use hv_text::put_bytes;
use std::alloc::{AllocError, Global};
use std::io::Write;

/// Runs a script in order, and writes its last state as a graph for Graphviz to `out`. With `at` it is the
/// state after so many events, or after all if there are fewer.
///
/// If not everything runs, the reason goes to `err`, in one line. After a fault of the script or a refused
/// boot, nothing is written to `out`. If the host refuses an event, no later line is run, and the graph shows
/// the state so far. If the graph can't be written, `out` has a first part of it.
pub fn draw_text<W: Write, E: Write>(
    alloc: Global,
    script: &[u8],
    at: Option<u64>,
    out: &mut W,
    err: &mut E,
) -> Exit
    ensures drawn { result ≡ Exit.Done → HasDrawnOf script.now at (W.contents out.old) (W.contents out.new) }
    ensures part { HasDrawnPart (W.contents out.old) (W.contents out.new) }
    ensures silent { result ≡ Exit.Script → out.new ≡ out.old }
    ensures faulty { result ≡ Exit.Script → CanRun script.now → ⊥ }
    ensures no_usage { result ≢ Exit.Usage }
{
    draw_lines(alloc, script, at, None, out, err)
}

/// Writes a state of a script, or of an audit of it, as a graph for Graphviz to `out`.
///
/// Without an audit the state is that of [`draw_text`]. With an audit it is the state after the audit's
/// events, in its order, or after its first `at` events. If the audit isn't legal, `out` gets only the first
/// line that isn't, as a check prints it.
///
/// With `only` the graph has the chosen partition and those above it, up to the root, and a note that counts
/// what it leaves out: `IsChosenGraph` of `specs/Chosen.antt`.
pub fn state_text<W: Write, E: Write>(
    alloc: Global,
    script: &[u8],
    audit: Option<&[u8]>,
    at: Option<u64>,
    only: Option<Only>,
    out: &mut W,
    err: &mut E,
) -> Exit
    ensures drawn { result ≡ Exit.Done → HasStateOf script.now audit.entry at only
        (W.contents out.old) (W.contents out.new) }
    ensures part { IsTaken script.now audit.entry → HasStatePart only
        (W.contents out.old) (W.contents out.new) }
    ensures illegal { IfSome audit.entry (λ audit. result ≡ Exit.Script
        → IsLegalOf true true script.now audit.now → ⊥) }
    ensures silent { IfNone audit.entry (result ≡ Exit.Script → out.new ≡ out.old) }
    ensures faulty { IfNone audit.entry (result ≡ Exit.Script → CanRun script.now → ⊥) }
    ensures no_usage { result ≢ Exit.Usage }
{
    match audit {
        None => draw_lines(alloc, script, at, only, out, err),
        Some(audit) => draw_audit(alloc, script, audit, at, only, out, err),
    }
}

// Draws a state of a script that runs in order.
fn draw_lines<W: Write, E: Write>(
    alloc: Global,
    script: &[u8],
    at: Option<u64>,
    only: Option<Only>,
    out: &mut W,
    err: &mut E,
) -> Exit
    ensures drawn { result ≡ Exit.Done → HasStateOf script.now None at only
        (W.contents out.old) (W.contents out.new) }
    ensures part { HasStatePart only (W.contents out.old) (W.contents out.new) }
    ensures silent { result ≡ Exit.Script → out.new ≡ out.old }
    ensures faulty { result ≡ Exit.Script → CanRun script.now → ⊥ }
    ensures no_usage { result ≢ Exit.Usage }
{
    match parse(alloc, script) {
        Ok(script) => draw_or_tell(alloc, script, at, only, out, err),
        Err(fault) => tell(Failure::from(fault), err),
    }
}

// Draws a script that has no fault, and writes the reason if not everything runs.
fn draw_or_tell<W: Write, E: Write>(
    alloc: Global,
    script: Script<Global>,
    at: Option<u64>,
    only: Option<Only>,
    out: &mut W,
    err: &mut E,
) -> Exit
    ensures drawn { result ≡ Exit.Done → HasState (said script) (AreFirst at script.lines.items) only
        (W.contents out.old) (W.contents out.new) }
    ensures part { HasStatePart only (W.contents out.old) (W.contents out.new) }
    ensures silent { result ≡ Exit.Script → out.new ≡ out.old }
    ensures faulty { result ≡ Exit.Script → boot_fault script.config ≡ None → ⊥ }
    ensures no_usage { result ≢ Exit.Usage }
{
    match draw_script(alloc, script, at, only, out) {
        Ok(()) => Exit::Done,
        Err(failure) => tell(failure, err),
    }
}

// Runs a script's lines up to this event, and writes the graph of the state after them.
fn draw_script<W: Write>(
    alloc: Global,
    script: Script<Global>,
    at: Option<u64>,
    only: Option<Only>,
    out: &mut W,
) -> Result<(), Failure>
    ensures drawn { OnOk result
        (HasState (said script) (AreFirst at script.lines.items) only
        (W.contents out.old) (W.contents out.new)) }
    ensures part { HasStatePart only (W.contents out.old) (W.contents out.new) }
    ensures silent { IfErr result (λ failure. exit_of failure ≡ Exit.Script → out.new ≡ out.old) }
    ensures faulty { IfErr result (λ failure. exit_of failure ≡ Exit.Script
        → boot_fault script.config ≡ None → ⊥) }
{
    let Script {
        config,
        limit,
        lines,
    } = script;
    let mut kept = Kept::boot(alloc, config, limit)?;
    let mut nothing: Vec<u8> = Vec::new(alloc);
    let ran = explain_lines(
        alloc,
        &mut kept,
        lines.as_slice(),
        at,
        &mut Silent {},
        &mut nothing,
    );
    let drawn = write_graph(alloc, &kept, only, out);
    ended(ran, drawn)
}

// Combines two results. The reason that not everything ran takes precedence over output that couldn't be
// written.
fn ended(ran: Result<(), Failure>, drawn: Result<(), Failure>) -> Result<(), Failure>
    ensures ran { OnOk result (IsOk ran) }
    ensures drawn { OnOk result (IsOk drawn) }
    ensures host { IfErr ran (λ failure. exit_of failure ≡ Exit.Host)
        → IfErr drawn (λ failure. exit_of failure ≡ Exit.Host)
        → IfErr result (λ failure. exit_of failure ≡ Exit.Host) }
{
    match ran {
        Ok(()) => drawn,
        Err(failure) => Err(failure),
    }
}

/// Writes the graph of the machine, or that of a choice.
pub(crate) fn write_graph<W: Write>(
    alloc: Global,
    kept: &Kept<Global>,
    only: Option<Only>,
    out: &mut W,
) -> Result<(), Failure>
    ensures graph { OnOk result (HasPicture only kept.now (W.contents out.old) (W.contents out.new)) }
    ensures part { HasStatePart only (W.contents out.old) (W.contents out.new) }
    ensures run { IsRun kept.now }
    ensures host { IfErr result (λ failure. exit_of failure ≡ Exit.Host) }
{
    // Proof: the history is a run.
    let _history = kept.history();
    match picture(alloc, kept, only) {
        Ok(text) => put(&text, out),
        Err(_) => Err(Failure::Memory),
    }
}

/// Writes a whole text. After a failed write, the writer has a first part of it.
pub(crate) fn put<W: Write>(text: &[u8], out: &mut W) -> Result<(), Failure>
    ensures told { OnOk result (Appends (W.contents out.old) (W.contents out.new) text.now) }
    ensures part { HasPart text.now (W.contents out.old) (W.contents out.new) }
    ensures host { IfErr result (λ failure. exit_of failure ≡ Exit.Host) }
{
    match put_bytes(out, text) {
        Ok(()) => flush(out),
        Err(_) => Err(Failure::Write),
    }
}

fn flush<W: Write>(out: &mut W) -> Result<(), Failure>
    ensures bytes { Keeps (W.contents out.old) (W.contents out.new) }
    ensures host { IfErr result (λ failure. exit_of failure ≡ Exit.Host) }
{
    match out.flush() {
        Ok(()) => Ok(()),
        Err(_) => Err(Failure::Write),
    }
}

// Returns the graph of the machine, or that of a choice.
fn picture(alloc: Global, kept: &Kept<Global>, only: Option<Only>) -> Result<Vec<u8>, AllocError>
    ensures { IfOk result (λ text. IsPicture only kept.now text.items) }
{
    match only {
        None => graph(alloc, kept),
        Some(only) => chosen_graph(alloc, kept, only),
    }
}

// Returns the graph of the machine.
fn graph(alloc: Global, kept: &Kept<Global>) -> Result<Vec<u8>, AllocError>
    ensures { IfOk result (λ text. IsGraph kept.now text.items) }
{
    let made = made_ports(alloc, kept)?;
    let tree = kept.machine().tree();
    let ids = tree.ids()?;
    let mut links = Vec::new(alloc);
    push_links(&mut links, tree, &ids)?;
    let mut text = Vec::new(alloc);
    push_head(&mut text, ids.len())?;
    push_blocks(&mut text, tree, &ids, &made, view_of(ids.len()))?;
    push(&mut text, &links)?;
    push_end(&mut text, kept.history().len() as u64)?;
    Ok(text)
}

// Returns what the graph of so many partitions has inside each of them.
fn view_of(partitions: usize) -> View {
    if is_crowd(partitions) {
        View::Crowd
    } else {
        View::Whole
    }
}
