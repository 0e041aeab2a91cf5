// Checking a whole audit.
ghost use Rattle.std.specs.Prelude.{◌≡◌, ◌<◌, ◌^◌, Bool, List, IfErr, IfOk, IsTrue, length, false};
ghost use Rattle.std.specs.declared.alloc.Global.{Global as GlobalValue};
ghost use Rattle.hv_script.specs.Reading.{said};
ghost use Rattle.hv_script.specs.declared.line.Line.{Line as LineValue};
ghost use Rattle.hv_run.specs.Failure.{exit_of};
ghost use Rattle.hv_run.specs.declared.failure.Exit.TheVariants as exit;
ghost use Rattle.hv_run.specs.declared.failure.Failure.TheVariants as failure;
ghost use Rattle.hv_check.specs.From.{IsLegalFrom, IsLegalFromWith, IsNoEnd, IsNoLine};
ghost use Rattle.hv_check.specs.Legal.{IsLegal, IsLegalWith};
ghost use Rattle.hv_phases.specs.Read.{AreRead};
ghost use Rattle.hv_phases.specs.Schedule.{IsBegun, StandsFor};
ghost use Rattle.hv_history.specs.Kept.{IsRun};
ghost use Rattle.hv_check.specs.Verdict.{Counts, Says};

use crate::compare::behind;
use crate::ending::{Ending, end_of};
use crate::own_line::OwnLine;
use crate::step::{Step, take_line};
use crate::verdict::{Ask, Verdict};
use hv_history::Kept;
use hv_phases::Schedule;
use hv_policy::BootRefused;
use hv_run::Failure;
use hv_script::Script;
use std::alloc::{AllocError, Global};

/// Checks an audit beside its script.
///
/// The lines are those of a script that was read. If a line differs from the policy's, `own` holds the
/// policy's line. Running out of memory is a failure that says nothing about the audit.
pub fn check<'a>(
    alloc: Global,
    script: Script<Global>,
    audit: &'a [u8],
    ask: Ask,
    own: &mut OwnLine,
) -> Result<Verdict<'a>, Failure>
    requires { AreRead script.lines.items }
    ensures verdict { IfOk result (λ verdict. Says verdict
        (IsLegal ask.prefix ask.rules (said script) audit.now)) }
    ensures count { IfOk result (λ verdict. Counts verdict
        (IsLegalWith ask.prefix ask.rules (said script) audit.now)) }
    ensures refused { IfErr result (λ failure. exit_of failure ≡ exit.Script
        → IsLegal ask.prefix ask.rules (said script) audit.now → ⊥) }
    ensures host { IfErr result (λ why. exit_of why ≡ exit.Host → why ≡ failure.Memory) }
{
    let Script {
        config,
        limit,
        lines,
    } = script;
    let mut kept = match Kept::boot(alloc, config, limit) {
        Ok(kept) => kept,
        Err(BootRefused::Memory) => return Err(Failure::Memory),
        Err(refused) => return Err(Failure::from(refused)),
    };
    let mut schedule = Schedule::new(alloc, lines);
    match follow(&mut kept, &mut schedule, own, audit, ask) {
        Ok(verdict) => Ok(verdict),
        Err(_) => Err(Failure::Memory),
    }
}

// Checks an audit beside all lines of its script. The machine has taken no event yet.
fn follow<'a>(
    kept: &mut Kept<Global>,
    schedule: &mut Schedule,
    own: &mut OwnLine,
    audit: &'a [u8],
    ask: Ask,
) -> Result<Verdict<'a>, AllocError>
    ensures verdict { IfOk result (λ verdict. (lines : List (LineValue GlobalValue))
        → StandsFor schedule.old lines
        → Says verdict (IsLegalFrom ask.prefix ask.rules kept.old lines audit.now)) }
    ensures count { IfOk result (λ verdict. (lines : List (LineValue GlobalValue))
        → StandsFor schedule.old lines
        → Counts verdict (IsLegalFromWith ask.prefix ask.rules kept.old lines audit.now)) }
{
    let mut text = audit;
    schedule.begin()?;
    while is_event(text) {
        match take_line(kept, schedule, own, text, ask.rules)? {
            Step::On(rest) => text = rest,
            Step::Not(wrong) => return Ok(Verdict::Illegal { wrong, text }),
        }
        schedule.begin()?;
    }
    Ok(judge(kept, schedule, text, ask.prefix))
}

// Returns the verdict on the end of an audit, where no line of an event is left.
fn judge<'a>(kept: &Kept<Global>, schedule: &Schedule, text: &'a [u8], prefix: bool) -> Verdict<'a>
    requires begun { IsBegun schedule.now }
    requires no_line { IsNoLine text.now }
    ensures verdict { (rules : Bool) (lines : List (LineValue GlobalValue)) → StandsFor schedule.now lines
        → Says result (IsLegalFrom prefix rules kept.now lines text.now) }
    ensures count { (rules : Bool) (lines : List (LineValue GlobalValue)) → StandsFor schedule.now lines
        → Counts result (IsLegalFromWith prefix rules kept.now lines text.now) }
{
    let events = events_of(kept);
    match end_of(schedule, text, events, prefix) {
        Ending::Good => Verdict::Legal { events },
        Ending::Bad(wrong) => Verdict::Illegal { wrong, text },
    }
}

// Returns the number of events.
fn events_of(kept: &Kept<Global>) -> u64
    ensures events { result ≡ length kept.now.history }
    ensures few { length kept.now.history < 2 ^ 32 }
    ensures run { IsRun kept.now }
{
    // Proof: a history's length fits 32 bits.
    let _limit = kept.limit();
    kept.history().len() as u64
}

// Returns whether an audit goes on with a line that isn't its last.
fn is_event(text: &[u8]) -> bool
    ensures event { IsTrue result → IsNoEnd text.now }
    ensures none { result ≡ false → IsNoLine text.now }
{
    match behind(text, b"events ") {
        Some(_) => false,
        None => !text.is_empty(),
    }
}
