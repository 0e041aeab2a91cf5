// Drawing a run as a sequence chart, from the bytes of its script to the exit status.
ghost use Rattle.std.specs.Prelude.{◌≡◌, ◌≢◌, IfErr, IfNone, IfOk, IfSome, OnOk, true};
ghost use Rattle.hv_check.specs.Legal.{IsLegalOf};
ghost use Rattle.hv_run.specs.Failure.{CanRun, exit_of};
ghost use Rattle.hv_draw.specs.Sequence.{AreRows, HasChart, HasChartPart, HasSequence, HasSequencePart};
ghost use Rattle.hv_draw.specs.Sequence.{IsChart, IsTaken, none_text};

use crate::chart::Chart;
use crate::choice::{Choice, Chooses};
use crate::chosen::Chosen;
use crate::draw::put;
use crate::head::head;
use crate::phases::Phases;
use crate::text::push;
use hv_explain::{Teller, explain_with, follow_with};
use hv_run::{Exit, Failure, tell};
use std::alloc::{AllocError, Global};
use std::io::Write;
use std::marker::Brand;

/// Runs a script, and writes its messages and signals as a sequence chart in SVG to `out`.
///
/// Without an audit the events are those of the script's lines, one after another. With an audit they are its
/// events, in its order; if it isn't legal, `out` gets only the first line that isn't, as a check prints it.
/// The chart shows the events of `choice`.
///
/// The events are taken twice: the first time finds the lanes, which are sorted by their partitions. If not
/// everything runs, the reason goes to `err`, in one line, and there is no chart.
pub fn sequence_text<W: Write, E: Write>(
    alloc: Global,
    script: &[u8],
    audit: Option<&[u8]>,
    choice: Choice,
    out: &mut W,
    err: &mut E,
) -> Exit
    ensures drawn { result ≡ Exit.Done → HasSequence script.now audit.entry choice
        (W.contents out.old) (W.contents out.new) }
    ensures part { result ≢ Exit.Done → IsTaken script.now audit.entry → HasSequencePart script.now
        audit.entry choice (W.contents out.old) (W.contents out.new) }
    ensures illegal { IfSome audit.entry (λ audit. result ≡ Exit.Script
        → IsLegalOf true true script.now audit.now → ⊥) }
    ensures silent { IfNone audit.entry (result ≡ Exit.Script → out.new ≡ out.old) }
    ensures faulty { IfNone audit.entry (result ≡ Exit.Script → CanRun script.now → ⊥) }
    ensures no_usage { result ≢ Exit.Usage }
{
    match Phases::read(alloc, script) {
        Ok(phases) => find_lanes::<Brand, W, E>(alloc, script, audit, choice, phases, out, err),
        Err(_) => tell(Failure::Memory, err),
    }
}

// Finds the lanes of the events that a chart shows, and writes the chart.
fn find_lanes<K: Chooses, W: Write, E: Write>(
    alloc: Global,
    script: &[u8],
    audit: Option<&[u8]>,
    choice: Choice,
    phases: Phases,
    out: &mut W,
    err: &mut E,
) -> Exit
    requires { choice ≡ K.choice }
    ensures drawn { result ≡ Exit.Done → HasSequence script.now audit.entry K.choice
        (W.contents out.old) (W.contents out.new) }
    ensures part { result ≢ Exit.Done → IsTaken script.now audit.entry → HasSequencePart script.now
        audit.entry K.choice (W.contents out.old) (W.contents out.new) }
    ensures illegal { IfSome audit.entry (λ audit. result ≡ Exit.Script
        → IsLegalOf true true script.now audit.now → ⊥) }
    ensures silent { IfNone audit.entry (result ≡ Exit.Script → out.new ≡ out.old) }
    ensures faulty { IfNone audit.entry (result ≡ Exit.Script → CanRun script.now → ⊥) }
    ensures no_usage { result ≢ Exit.Usage }
{
    let mut chosen = Chosen::<K>::new(alloc, choice, phases);
    let mut unsorted = Vec::new(alloc);
    match put_rows(alloc, &mut chosen, script, audit, &mut unsorted, err) {
        Exit::Done => draw_again(alloc, &mut chosen, script, audit, out, err),
        Exit::Script => show_verdict(audit, &unsorted, out, err),
        exit => exit,
    }
}

// Writes the chart of a run whose lanes are known.
fn draw_again<K: Chooses, W: Write, E: Write>(
    alloc: Global,
    chosen: &mut Chosen<K>,
    script: &[u8],
    audit: Option<&[u8]>,
    out: &mut W,
    err: &mut E,
) -> Exit
    ensures drawn { result ≡ Exit.Done → HasSequence script.now audit.entry K.choice
        (W.contents out.old) (W.contents out.new) }
    ensures part { result ≢ Exit.Done → HasSequencePart script.now audit.entry K.choice
        (W.contents out.old) (W.contents out.new) }
    ensures illegal { IfSome audit.entry (λ audit. result ≡ Exit.Script
        → IsLegalOf true true script.now audit.now → ⊥) }
    ensures silent { IfNone audit.entry (result ≡ Exit.Script → out.new ≡ out.old) }
    ensures faulty { IfNone audit.entry (result ≡ Exit.Script → CanRun script.now → ⊥) }
    ensures no_usage { result ≢ Exit.Usage }
{
    match chosen.restart() {
        Ok(()) => draw_rows(alloc, chosen, script, audit, out, err),
        Err(_) => tell(Failure::Memory, err),
    }
}

// Takes the events once more, and writes the chart, which begins with the lanes.
fn draw_rows<K: Chooses, W: Write, E: Write>(
    alloc: Global,
    chosen: &mut Chosen<K>,
    script: &[u8],
    audit: Option<&[u8]>,
    out: &mut W,
    err: &mut E,
) -> Exit
    ensures drawn { result ≡ Exit.Done → HasSequence script.now audit.entry K.choice
        (W.contents out.old) (W.contents out.new) }
    ensures part { result ≢ Exit.Done → HasSequencePart script.now audit.entry K.choice
        (W.contents out.old) (W.contents out.new) }
    ensures illegal { IfSome audit.entry (λ audit. result ≡ Exit.Script
        → IsLegalOf true true script.now audit.now → ⊥) }
    ensures silent { IfNone audit.entry (result ≡ Exit.Script → out.new ≡ out.old) }
    ensures faulty { IfNone audit.entry (result ≡ Exit.Script → CanRun script.now → ⊥) }
    ensures no_usage { result ≢ Exit.Usage }
{
    let mut rows = Vec::new(alloc);
    match put_rows(alloc, chosen, script, audit, &mut rows, err) {
        Exit::Done => match put_chart(alloc, chosen.chart(), &rows, out) {
            Ok(()) => Exit::Done,
            Err(failure) => tell(failure, err),
        },
        exit => exit,
    }
}

// Lets a teller write about the events of a script, or of an audit of it. If the audit isn't legal, the text
// is a check's verdict.
fn put_rows<T: Teller, E: Write>(
    alloc: Global,
    teller: &mut T,
    script: &[u8],
    audit: Option<&[u8]>,
    rows: &mut Vec<u8>,
    err: &mut E,
) -> Exit
    ensures told { result ≡ Exit.Done → AreRows T.tells script.now audit.entry rows.old.items
        rows.new.items }
    ensures illegal { IfSome audit.entry (λ audit. result ≡ Exit.Script
        → IsLegalOf true true script.now audit.now → ⊥) }
    ensures faulty { IfNone audit.entry (result ≡ Exit.Script → CanRun script.now → ⊥) }
    ensures no_usage { result ≢ Exit.Usage }
{
    match audit {
        None => explain_with(alloc, teller, script, rows, err),
        Some(audit) => follow_with(alloc, teller, script, audit, rows, err),
    }
}

/// Writes the verdict on an audit that isn't legal. A script with a fault has none.
pub(crate) fn show_verdict<W: Write, E: Write>(
    audit: Option<&[u8]>,
    verdict: &[u8],
    out: &mut W,
    err: &mut E,
) -> Exit
    ensures none { IfNone audit.entry ((result ≡ Exit.Script) × (out.new ≡ out.old)) }
    ensures not_done { result ≢ Exit.Done }
    ensures no_usage { result ≢ Exit.Usage }
{
    if audit.is_none() {
        return Exit::Script;
    }
    match put(verdict, out) {
        Ok(()) => Exit::Script,
        Err(failure) => tell(failure, err),
    }
}

// Writes a chart with these rows.
fn put_chart<W: Write>(
    alloc: Global,
    chart: &Chart,
    rows: &[u8],
    out: &mut W,
) -> Result<(), Failure>
    ensures drawn { OnOk result (HasChart rows.now (W.contents out.old) (W.contents out.new)) }
    ensures part { HasChartPart rows.now (W.contents out.old) (W.contents out.new) }
    ensures host { IfErr result (λ failure. exit_of failure ≡ Exit.Host) }
{
    match whole(alloc, chart, rows) {
        Ok(text) => put(&text, out),
        Err(_) => Err(Failure::Memory),
    }
}

// Returns the whole text of a chart with these rows.
fn whole(alloc: Global, chart: &Chart, rows: &[u8]) -> Result<Vec<u8>, AllocError>
    ensures { IfOk result (λ text. IsChart rows.now text.items) }
{
    let mut text = head(alloc, chart.lanes(), chart.layout())?;
    push(&mut text, none(rows))?;
    push(&mut text, rows)?;
    push(&mut text, b"</svg>\n")?;
    Ok(text)
}

// Returns what a chart says if it has no rows.
fn none(rows: &[u8]) -> &'static [u8]
    ensures { result.now ≡ none_text rows.now }
{
    if rows.is_empty() {
        b"<text x=\"20\" y=\"60\">nothing was sent, made or ended</text>\n"
    } else {
        b""
    }
}
