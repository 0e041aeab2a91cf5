// The events of an audit, from both texts to an exit status.
ghost use Rattle.std.specs.Prelude.{◌≡◌, ◌≢◌, ◌⊎◌, ◌<◌, true, IfErr, IfOk, OnOk, length};
ghost use Rattle.std.specs.Io.KnownBytes.{Appends, Keeps};
ghost use Rattle.hv_check.specs.Legal.{IsLegal, IsLegalOf};
ghost use Rattle.hv_explain.specs.Cut.{IsCutNext};
ghost use Rattle.hv_explain.specs.Followed.{HasFollowed, HasFollowedText, IsFollowed};
ghost use Rattle.hv_explain.specs.Part.{FollowsPart, FollowsPartOf, HasPutPart, HasPutUntil};
ghost use Rattle.hv_explain.specs.Written.{explains};
ghost use Rattle.hv_phases.specs.Read.{AreRead};
ghost use Rattle.hv_run.specs.Failure.{exit_of};
ghost use Rattle.hv_run.specs.declared.failure.Exit.TheVariants as exit;
ghost use Rattle.hv_script.specs.Reading.{said};

use crate::audit::{behind_last, is_end};
use crate::event::{take_event, tell_event};
use crate::explainer::Explainer;
use crate::teller::Teller;
use hv_check::check_text;
use hv_history::Kept;
use hv_phases::Schedule;
use hv_policy::{BootRefused, Caller};
use hv_run::{Exit, Failure, tell};
use hv_script::{Script, parse, processor};
use std::alloc::Global;
use std::io::Write;

/// Explains the events of an audit in its order, each in a line on `out`.
///
/// The audit may end early. If it isn't legal, `out` gets only the first line that isn't, as a check prints
/// it. A fault of the script, a refused boot and a failure of the host are printed on `err`, in one line. If
/// the host fails at a legal audit, `out` has a first part of the lines.
pub fn follow_text<W: Write, E: Write>(
    alloc: Global,
    script: &[u8],
    audit: &[u8],
    out: &mut W,
    err: &mut E,
) -> Exit
    ensures told { result ≡ Exit.Done → HasFollowedText explains script.now audit.now (W.contents out.old)
        (W.contents out.new) }
    ensures failed { result ≢ Exit.Done → IsLegalOf true true script.now audit.now
        → HasPutPart (FollowsPartOf explains script.now audit.now) (W.contents out.old) (W.contents out.new) }
    ensures legal { result ≡ Exit.Done → IsLegalOf true true script.now audit.now }
    ensures illegal { result ≡ Exit.Script → IsLegalOf true true script.now audit.now → ⊥ }
    ensures no_usage { result ≢ Exit.Usage }
{
    follow_with(alloc, &mut Explainer::new(), script, audit, out, err)
}

/// Takes the events of an audit in its order, and lets the teller write about each on `out`.
///
/// Otherwise it prints what [`follow_text`] does.
pub fn follow_with<T: Teller, W: Write, E: Write>(
    alloc: Global,
    teller: &mut T,
    script: &[u8],
    audit: &[u8],
    out: &mut W,
    err: &mut E,
) -> Exit
    ensures told { result ≡ Exit.Done → HasFollowedText T.tells script.now audit.now (W.contents out.old)
        (W.contents out.new) }
    ensures failed { result ≢ Exit.Done → IsLegalOf true true script.now audit.now
        → HasPutPart (FollowsPartOf T.tells script.now audit.now) (W.contents out.old) (W.contents out.new) }
    ensures legal { result ≡ Exit.Done → IsLegalOf true true script.now audit.now }
    ensures illegal { result ≡ Exit.Script → IsLegalOf true true script.now audit.now → ⊥ }
    ensures no_usage { result ≢ Exit.Usage }
{
    let mut told: Vec<u8> = Vec::new(alloc);
    match check_text(alloc, script, audit, true, true, &mut told, err) {
        Exit::Done => explain_audit(alloc, teller, script, audit, out, err),
        Exit::Script => show_verdict(&told, out, err),
        exit => exit,
    }
}

// Prints the verdict on an audit that isn't legal.
fn show_verdict<W: Write, E: Write>(told: &[u8], out: &mut W, err: &mut E) -> Exit
    ensures told { result ≡ Exit.Script → Appends (W.contents out.old) (W.contents out.new) told.now }
    ensures done { result ≢ Exit.Done }
    ensures usage { result ≢ Exit.Usage }
{
    if out.write_all(told).is_err() || out.flush().is_err() {
        return tell(Failure::Write, err);
    }
    Exit::Script
}

// Tells of the events of a legal audit.
fn explain_audit<T: Teller, W: Write, E: Write>(
    alloc: Global,
    teller: &mut T,
    script: &[u8],
    audit: &[u8],
    out: &mut W,
    err: &mut E,
) -> Exit
    ensures told { result ≡ Exit.Done → HasFollowedText T.tells script.now audit.now (W.contents out.old)
        (W.contents out.new) }
    ensures failed { result ≢ Exit.Done → HasPutPart (FollowsPartOf T.tells script.now audit.now)
        (W.contents out.old) (W.contents out.new) }
    ensures illegal { result ≡ Exit.Script → IsLegalOf true true script.now audit.now → ⊥ }
    ensures no_usage { result ≢ Exit.Usage }
{
    match tell_audit(alloc, teller, script, audit, out) {
        Ok(()) => Exit::Done,
        Err(failure) => tell(failure, err),
    }
}

/// Takes the events of an audit in its order, and lets the teller write about each on `out`.
///
/// It stops at the first failure, and at a line that isn't the policy's, which no legal audit has. The output
/// is then a first part of what is told of the first events, and all of it unless a write failed.
pub fn tell_audit<T: Teller, W: Write>(
    alloc: Global,
    teller: &mut T,
    script: &[u8],
    audit: &[u8],
    out: &mut W,
) -> Result<(), Failure>
    ensures told { OnOk result (HasFollowedText T.tells script.now audit.now (W.contents out.old)
        (W.contents out.new)) }
    ensures failed { IfErr result (λ failure. HasPutUntil failure
        (FollowsPartOf T.tells script.now audit.now) (W.contents out.old) (W.contents out.new)) }
    ensures illegal { IfErr result (λ failure. exit_of failure ≡ exit.Script
        → IsLegalOf true true script.now audit.now → ⊥) }
{
    match parse(alloc, script) {
        Ok(script) => follow_script(alloc, teller, script, audit, out),
        Err(fault) => Err(Failure::from(fault)),
    }
}

// Takes the events of an audit, and tells of them.
fn follow_script<T: Teller, W: Write>(
    alloc: Global,
    teller: &mut T,
    script: Script<Global>,
    audit: &[u8],
    out: &mut W,
) -> Result<(), Failure>
    requires { AreRead script.lines.items }
    ensures told { OnOk result
        (HasFollowed T.tells (said script) audit.now (W.contents out.old) (W.contents out.new)) }
    ensures failed { IfErr result (λ failure. HasPutUntil failure
        (FollowsPart T.tells (said script) audit.now) (W.contents out.old) (W.contents out.new)) }
    ensures refused { IfErr result (λ failure. exit_of failure ≡ exit.Script
        → IsLegal true true (said script) audit.now → ⊥) }
{
    let Script {
        config,
        limit,
        lines,
    } = script;
    let mut kept = match Kept::boot(alloc, config, limit) {
        Ok(kept) => kept,
        Err(BootRefused::Memory) => return Err(Failure::Memory),
        Err(refused) => return Err(Failure::from(refused)),
    };
    let mut schedule = Schedule::new(alloc, lines);
    let mut room = Vec::new(alloc);
    let mut left = audit;
    while let Some(by) = caller_in(left) {
        left = follow_event(&mut kept, &mut schedule, by, teller, &mut room, left, out)?;
    }
    if !is_end(left, kept.history().len() as u64) {
        return Err(Failure::Differs);
    }
    match out.flush() {
        Ok(()) => Ok(()),
        Err(_) => Err(Failure::Write),
    }
}

// Takes the next event of a processor, tells of it, and returns the text after its line.
fn follow_event<'a, T: Teller, W: Write>(
    kept: &mut Kept<Global>,
    schedule: &mut Schedule,
    by: Caller,
    teller: &mut T,
    room: &mut Vec<u8>,
    text: &'a [u8],
    out: &mut W,
) -> Result<&'a [u8], Failure>
    ensures followed { IfOk result (λ rest. IsFollowed T.tells kept.old kept.new schedule.old schedule.new
        text.now rest.now (W.contents out.old) (W.contents out.new)) }
    ensures cut { IfErr result (λ failure. Keeps (W.contents out.old) (W.contents out.new)
        ⊎ IsCutNext T.tells failure kept.old kept.new schedule.old schedule.new text.now
        (W.contents out.old) (W.contents out.new)) }
    ensures shorter { IfOk result (λ rest. length rest.now < length text.now) }
    ensures host { IfErr result (λ failure. exit_of failure ≡ exit.Host) }
{
    let Ok(()) = schedule.begin() else {
        return Err(Failure::Memory);
    };
    let Some(action) = schedule.next(by) else {
        return Err(Failure::Differs);
    };
    let (reply, effect) = take_event(kept, by, action)?;
    let Some(rest) = behind_last(kept, text) else {
        return Err(Failure::Differs);
    };
    let told = tell_event(kept, by, action, &reply, &effect, teller, room, out);
    schedule.go_on(by, &reply);
    match told {
        Ok(()) => Ok(rest),
        Err(failure) => Err(failure),
    }
}

// Returns the processor of an audit's first line, if that is the line of an event.
fn caller_in(audit: &[u8]) -> Option<Caller> {
    let start = audit.iter().position(|byte| *byte == b' ')? + 1;
    let word = &audit[start..];
    let len = word
        .iter()
        .position(|byte| *byte == b' ')
        .unwrap_or(word.len());
    processor(&word[..len]).ok()
}
