// Checking two texts, up to an exit status.

ghost use Rattle.std.specs.Prelude.{◌≡◌, ◌≢◌, IfErr, IfOk};
ghost use Rattle.hv_run.specs.Failure.{exit_of};
ghost use Rattle.hv_run.specs.declared.failure.Exit.TheVariants as exit;
ghost use Rattle.hv_check.specs.Legal.{IsLegalOf, IsLegalOfWith};
ghost use Rattle.hv_check.specs.Verdict.{Counts, Says, status_of};

use crate::audit::check;
use crate::ending::is_last_line;
use crate::json::put_json;
use crate::own_line::OwnLine;
use crate::tell::put_verdict;
use crate::verdict::{Ask, Verdict, Wrong};
use hv_run::{Exit, Failure, tell};
use hv_script::parse;
use std::alloc::Global;
use std::io;
use std::io::{ErrorKind, Write};

/// Checks an audit beside its script, and prints the verdict on `out`.
///
/// The verdict is `legal, N events`, or the first line that isn't legal with what the policy answers there.
/// With `prefix` an audit may end before the script's lines do. Without `rules` the names of rules are not
/// compared. A fault of the script, a refused boot and a failure of the host are printed on `err`, in one
/// line. So is a hint, if the audit is illegal only without `prefix`.
pub fn check_text<W: Write, E: Write>(
    alloc: Global,
    script: &[u8],
    audit: &[u8],
    prefix: bool,
    rules: bool,
    out: &mut W,
    err: &mut E,
) -> Exit
    ensures legal { result ≡ Exit.Done → IsLegalOf prefix rules script.now audit.now }
    ensures illegal { result ≡ Exit.Script → IsLegalOf prefix rules script.now audit.now → ⊥ }
    ensures no_usage { result ≢ Exit.Usage }
{
    answer(alloc, script, audit, Ask { prefix, rules }, false, out, err)
}

/// Checks an audit beside its script as [`check_text`] does, and prints the verdict as one line of JSON.
pub fn check_json<W: Write, E: Write>(
    alloc: Global,
    script: &[u8],
    audit: &[u8],
    prefix: bool,
    rules: bool,
    out: &mut W,
    err: &mut E,
) -> Exit
    ensures legal { result ≡ Exit.Done → IsLegalOf prefix rules script.now audit.now }
    ensures illegal { result ≡ Exit.Script → IsLegalOf prefix rules script.now audit.now → ⊥ }
    ensures no_usage { result ≢ Exit.Usage }
{
    answer(alloc, script, audit, Ask { prefix, rules }, true, out, err)
}

// Checks an audit beside its script, and prints the verdict, as JSON if that is asked for.
fn answer<W: Write, E: Write>(
    alloc: Global,
    script: &[u8],
    audit: &[u8],
    ask: Ask,
    json: bool,
    out: &mut W,
    err: &mut E,
) -> Exit
    ensures legal { result ≡ Exit.Done → IsLegalOf ask.prefix ask.rules script.now audit.now }
    ensures illegal { result ≡ Exit.Script → IsLegalOf ask.prefix ask.rules script.now audit.now → ⊥ }
    ensures no_usage { result ≢ Exit.Usage }
{
    let mut own = OwnLine::new();
    match verdict_of(alloc, script, audit, ask, &mut own) {
        Ok(verdict) => match put(alloc, verdict, own.as_slice(), (ask.rules, json), out) {
            Ok(()) => {
                hint(verdict, err);
                status_of(verdict)
            }
            Err(error) if error.kind() == ErrorKind::OutOfMemory => tell(Failure::Memory, err),
            Err(_) => tell(Failure::Write, err),
        },
        Err(failure) => tell(failure, err),
    }
}

// Prints a verdict, as a line of JSON if that is asked for.
fn put<W: Write>(
    alloc: Global,
    verdict: Verdict<'_>,
    own: &[u8],
    (rules, json): (bool, bool),
    out: &mut W,
) -> io::Result<()> {
    if json {
        put_json(alloc, out, verdict, own, rules)
    } else {
        put_verdict(out, verdict, own, rules)
    }
}

// Tells of `--prefix`, if an audit is refused only because it ends early.
fn hint<E: Write>(verdict: Verdict<'_>, err: &mut E) {
    if let Verdict::Illegal {
        wrong: Wrong::Early { events, .. },
        text,
    } = verdict
    {
        if text.is_empty() || is_last_line(text, events) {
            let _ = writeln!(err, "hvpm: with --prefix, an audit may end early");
        }
    }
}

// Reads the script, and checks the audit.
fn verdict_of<'a>(
    alloc: Global,
    script: &[u8],
    audit: &'a [u8],
    ask: Ask,
    own: &mut OwnLine,
) -> Result<Verdict<'a>, Failure>
    ensures verdict { IfOk result (λ verdict. Says verdict
        (IsLegalOf ask.prefix ask.rules script.now audit.now)) }
    ensures count { IfOk result (λ verdict. Counts verdict
        (IsLegalOfWith ask.prefix ask.rules script.now audit.now)) }
    ensures refused { IfErr result (λ failure. exit_of failure ≡ exit.Script
        → IsLegalOf ask.prefix ask.rules script.now audit.now → ⊥) }
{
    match parse(alloc, script) {
        Ok(script) => check(alloc, script, audit, ask, own),
        Err(fault) => Err(Failure::from(fault)),
    }
}

// Returns the exit status of a verdict.
fn status_of(verdict: Verdict<'_>) -> Exit
    ensures { result ≡ status_of verdict.entry }
{
    match verdict {
        Verdict::Legal { .. } => Exit::Done,
        Verdict::Illegal { .. } => Exit::Script,
    }
}
