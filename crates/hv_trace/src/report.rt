// Reporting a script as a page, from its text to an exit status.
ghost use Rattle.std.specs.Prelude.{◌≡◌, ◌≢◌, ◌⊎◌, true, IfNone, IfSome};
ghost use Rattle.hv_check.specs.Legal.{IsLegalOf};
ghost use Rattle.hv_explain.specs.Followed.{HasFollowedText};
ghost use Rattle.hv_explain.specs.Part.{FollowsPartOf, HasPutPart, TellsPartOf};
ghost use Rattle.hv_explain.specs.Written.{HasExplainedText};
ghost use Rattle.hv_run.specs.Failure.{CanRun};
ghost use Rattle.hv_trace.specs.Framed.{IsFramed};
ghost use Rattle.hv_trace.specs.Report.{HasPage, reports};
ghost use Rattle.hv_trace.specs.declared.report.page.TheConstants.{HEAD, TAIL};

mod page;
mod reporter;

use crate::boots::try_boot;
use crate::frame::{close, open};
use crate::lines::Lines;
use crate::report::page::{HEAD, TAIL};
use crate::report::reporter::Reporter;
use hv_check::check_text;
use hv_explain::{tell_audit, tell_script};
use hv_run::{Exit, Failure, tell};
use std::alloc::Global;
use std::io::Write;

/// Runs a script, and writes a page about its events on `out`: one file of HTML, which needs no network.
///
/// Without an audit the events are those of the script's lines, one after another, as `explain_text` of
/// `hv_explain` runs them. With an audit they are its events, as `follow_text` of that crate takes them. If
/// not everything runs, this function writes what those two write, and nothing of a page. If the host refuses
/// an event, the page has the events before it. After a failed write, `out` has a first part of a page.
pub fn report_text<W: Write, E: Write>(
    alloc: Global,
    script: &[u8],
    audit: Option<&[u8]>,
    out: &mut W,
    err: &mut E,
) -> Exit
    ensures script { IfNone audit.entry (result ≡ Exit.Done → HasPage (HasExplainedText reports script.now)
        (W.contents out.old)
        (W.contents out.new)) }
    ensures audit { IfSome audit.entry (λ audit. result ≡ Exit.Done
        → HasPage (HasFollowedText reports script.now audit.now) (W.contents out.old) (W.contents out.new)) }
    ensures failed_script { IfNone audit.entry (result ≢ Exit.Done → HasPutPart
        (IsFramed HEAD.now TAIL.now (TellsPartOf reports script.now)) (W.contents out.old)
        (W.contents out.new)) }
    ensures failed_audit { IfSome audit.entry (λ audit. result ≢ Exit.Done
        → IsLegalOf true true script.now audit.now
        → HasPutPart (IsFramed HEAD.now TAIL.now (FollowsPartOf reports script.now audit.now))
        (W.contents out.old) (W.contents out.new)) }
    ensures legal { IfSome audit.entry (λ audit. result ≡ Exit.Done
        → IsLegalOf true true script.now audit.now) }
    ensures illegal { IfSome audit.entry (λ audit. result ≡ Exit.Script
        → IsLegalOf true true script.now audit.now → ⊥) }
    ensures silent { IfNone audit.entry (result ≡ Exit.Script → out.new ≡ out.old) }
    ensures faulty { IfNone audit.entry (result ≡ Exit.Script → CanRun script.now → ⊥) }
    ensures no_usage { result ≢ Exit.Usage }
{
    let Ok(lines) = Lines::read(alloc, script) else {
        return tell(Failure::Memory, err);
    };
    match audit {
        None => report_script(alloc, Reporter::new(lines), script, out, err),
        Some(audit) => report_audit(alloc, Reporter::new(lines), script, audit, out, err),
    }
}

// Writes the page of a script's lines, one after another.
fn report_script<W: Write, E: Write>(
    alloc: Global,
    reporter: Reporter,
    script: &[u8],
    out: &mut W,
    err: &mut E,
) -> Exit
    ensures page { result ≡ Exit.Done → HasPage (HasExplainedText reports script.now) (W.contents out.old)
        (W.contents out.new) }
    ensures failed { result ≢ Exit.Done → HasPutPart
        (IsFramed HEAD.now TAIL.now (TellsPartOf reports script.now)) (W.contents out.old)
        (W.contents out.new) }
    ensures silent { result ≡ Exit.Script → out.new ≡ out.old }
    ensures faulty { result ≡ Exit.Script → CanRun script.now → ⊥ }
    ensures no_usage { result ≢ Exit.Usage }
{
    match try_boot(alloc, script) {
        Ok(()) => write_script(alloc, reporter, script, out, err),
        Err(failure) => tell(failure, err),
    }
}

// Writes the page of a script that runs.
fn write_script<W: Write, E: Write>(
    alloc: Global,
    mut reporter: Reporter,
    script: &[u8],
    out: &mut W,
    err: &mut E,
) -> Exit
    requires { CanRun script.now }
    ensures page { result ≡ Exit.Done → HasPage (HasExplainedText reports script.now) (W.contents out.old)
        (W.contents out.new) }
    ensures failed { result ≢ Exit.Done → HasPutPart
        (IsFramed HEAD.now TAIL.now (TellsPartOf reports script.now)) (W.contents out.old)
        (W.contents out.new) }
    ensures status { (result ≡ Exit.Done) ⊎ (result ≡ Exit.Host) }
{
    let Ok(()) = open(HEAD, out) else {
        return tell(Failure::Write, err);
    };
    let told = tell_script(alloc, &mut reporter, script, out);
    close(told, TAIL, out, err)
}

// Writes the page of an audit's events, in its order, or the verdict on an audit that isn't legal.
fn report_audit<W: Write, E: Write>(
    alloc: Global,
    reporter: Reporter,
    script: &[u8],
    audit: &[u8],
    out: &mut W,
    err: &mut E,
) -> Exit
    ensures page { result ≡ Exit.Done → HasPage (HasFollowedText reports script.now audit.now)
        (W.contents out.old)
        (W.contents out.new) }
    ensures failed { result ≢ Exit.Done → IsLegalOf true true script.now audit.now → HasPutPart
        (IsFramed HEAD.now TAIL.now (FollowsPartOf reports script.now audit.now)) (W.contents out.old)
        (W.contents out.new) }
    ensures legal { result ≡ Exit.Done → IsLegalOf true true script.now audit.now }
    ensures illegal { result ≡ Exit.Script → IsLegalOf true true script.now audit.now → ⊥ }
    ensures no_usage { result ≢ Exit.Usage }
{
    let mut verdict: Vec<u8> = Vec::new(alloc);
    match check_text(alloc, script, audit, true, true, &mut verdict, err) {
        Exit::Done => write_audit(alloc, reporter, script, audit, out, err),
        Exit::Script => show_verdict(&verdict, out, err),
        exit => exit,
    }
}

// Writes the page of a legal audit.
fn write_audit<W: Write, E: Write>(
    alloc: Global,
    mut reporter: Reporter,
    script: &[u8],
    audit: &[u8],
    out: &mut W,
    err: &mut E,
) -> Exit
    requires { IsLegalOf true true script.now audit.now }
    ensures page { result ≡ Exit.Done → HasPage (HasFollowedText reports script.now audit.now)
        (W.contents out.old)
        (W.contents out.new) }
    ensures failed { result ≢ Exit.Done → HasPutPart
        (IsFramed HEAD.now TAIL.now (FollowsPartOf reports script.now audit.now)) (W.contents out.old)
        (W.contents out.new) }
    ensures status { (result ≡ Exit.Done) ⊎ (result ≡ Exit.Host) }
{
    let Ok(()) = open(HEAD, out) else {
        return tell(Failure::Write, err);
    };
    let told = tell_audit(alloc, &mut reporter, script, audit, out);
    close(told, TAIL, out, err)
}

// Prints the verdict on an audit that isn't legal.
fn show_verdict<W: Write, E: Write>(verdict: &[u8], out: &mut W, err: &mut E) -> Exit
    ensures done { result ≢ Exit.Done }
    ensures usage { result ≢ Exit.Usage }
{
    if out.write_all(verdict).is_err() || out.flush().is_err() {
        return tell(Failure::Write, err);
    }
    Exit::Script
}
