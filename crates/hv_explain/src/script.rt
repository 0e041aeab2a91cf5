// A script's text, from its first line to an exit status.
ghost use Rattle.std.specs.Prelude.{◌≡◌, ◌≢◌, ◌<◌, length, IfErr, IsErrAnd, None, OnOk};
ghost use Rattle.hv_policy.specs.BootFault.{boot_fault};
ghost use Rattle.hv_run.specs.Failure.{CanRun, exit_of};
ghost use Rattle.hv_script.specs.Reading.{said};
ghost use Rattle.hv_script.specs.declared.script.TheConstants.{MOST_BYTES as MOST};
ghost use Rattle.hv_explain.specs.Part.{HasPutPart, HasPutUntil, TellsPart, TellsPartOf};
ghost use Rattle.hv_explain.specs.Written.{HasExplained, HasExplainedText, explains};

use crate::explainer::Explainer;
use crate::run::explain_lines;
use crate::teller::Teller;
use hv_history::Kept;
use hv_run::{Exit, Failure, tell};
use hv_script::{Script, parse};
use std::alloc::Global;
use std::io::Write;

/// Runs a script's lines in order, and explains each event in a line on `out`.
///
/// If not everything runs, the reason goes to `err`, in one line. After a fault of the script or a refused
/// boot, nothing is written to `out`. If the host refuses an event, `out` has the lines of the events before
/// it, and after a failed write a first part of the lines.
pub fn explain_text<W: Write, E: Write>(
    alloc: Global,
    script: &[u8],
    out: &mut W,
    err: &mut E,
) -> Exit
    ensures told { result ≡ Exit.Done → HasExplainedText explains script.now (W.contents out.old)
        (W.contents out.new) }
    ensures failed { result ≢ Exit.Done → HasPutPart (TellsPartOf explains script.now) (W.contents out.old)
        (W.contents out.new) }
    ensures long { MOST < length script.now → result ≡ Exit.Script }
    ensures silent { result ≡ Exit.Script → out.new ≡ out.old }
    ensures faulty { result ≡ Exit.Script → CanRun script.now → ⊥ }
    ensures no_usage { result ≢ Exit.Usage }
{
    explain_with(alloc, &mut Explainer::new(), script, out, err)
}

/// Runs a script's lines in order, and lets the teller write about each event on `out`.
///
/// If not everything runs, the reason goes to `err`, as [`explain_text`] says.
pub fn explain_with<T: Teller, W: Write, E: Write>(
    alloc: Global,
    teller: &mut T,
    script: &[u8],
    out: &mut W,
    err: &mut E,
) -> Exit
    ensures told { result ≡ Exit.Done → HasExplainedText T.tells script.now (W.contents out.old)
        (W.contents out.new) }
    ensures failed { result ≢ Exit.Done → HasPutPart (TellsPartOf T.tells script.now) (W.contents out.old)
        (W.contents out.new) }
    ensures long { MOST < length script.now → result ≡ Exit.Script }
    ensures silent { result ≡ Exit.Script → out.new ≡ out.old }
    ensures faulty { result ≡ Exit.Script → CanRun script.now → ⊥ }
    ensures no_usage { result ≢ Exit.Usage }
{
    match tell_script(alloc, teller, script, out) {
        Ok(()) => Exit::Done,
        Err(failure) => tell(failure, err),
    }
}

/// Runs a script's lines in order, and lets the teller write about each event on `out`.
///
/// It stops at the first failure. The output is then a first part of what is told of the first events, and
/// all of it unless a write failed.
pub fn tell_script<T: Teller, W: Write>(
    alloc: Global,
    teller: &mut T,
    script: &[u8],
    out: &mut W,
) -> Result<(), Failure>
    ensures told { OnOk result (HasExplainedText T.tells script.now (W.contents out.old)
        (W.contents out.new)) }
    ensures failed { IfErr result (λ failure. HasPutUntil failure (TellsPartOf T.tells script.now)
        (W.contents out.old) (W.contents out.new)) }
    ensures long { MOST < length script.now → IsErrAnd result (λ failure. exit_of failure ≡ Exit.Script) }
    ensures silent { IfErr result (λ failure. exit_of failure ≡ Exit.Script → out.new ≡ out.old) }
    ensures faulty { IfErr result (λ failure. exit_of failure ≡ Exit.Script → CanRun script.now → ⊥) }
{
    match parse(alloc, script) {
        Ok(script) => tell_lines(alloc, teller, &script, out),
        Err(fault) => Err(Failure::from(fault)),
    }
}

// Boots the script's machine, and runs its lines.
fn tell_lines<T: Teller, W: Write>(
    alloc: Global,
    teller: &mut T,
    script: &Script<Global>,
    out: &mut W,
) -> Result<(), Failure>
    ensures told { OnOk result (HasExplained T.tells (said script.now) (W.contents out.old)
        (W.contents out.new)) }
    ensures failed { IfErr result (λ failure. HasPutUntil failure (TellsPart T.tells (said script.now))
        (W.contents out.old) (W.contents out.new)) }
    ensures silent { IfErr result (λ failure. exit_of failure ≡ Exit.Script → out.new ≡ out.old) }
    ensures faulty { IfErr result (λ failure. exit_of failure ≡ Exit.Script
        → boot_fault script.now.config ≡ None → ⊥) }
{
    let mut kept = Kept::boot(alloc, script.config, script.limit)?;
    let lines = script.lines.as_slice();
    let told = explain_lines(alloc, &mut kept, lines, None, teller, out);
    match (told, out.flush()) {
        (Ok(()), Ok(())) => Ok(()),
        (Ok(()), Err(_)) => Err(Failure::Write),
        (Err(failure), _) => Err(failure),
    }
}
