// A booted machine, and the effect of its lines.
ghost use Rattle.std.specs.Prelude.{◌≡◌, ◌≢◌, ◌≤◌, Option, Some, None};
ghost use Rattle.std.specs.Prelude.{All, IfSome, List, ℕ, length};
ghost use Rattle.hv_script.specs.Cursor.{line_of};
ghost use Rattle.hv_script.specs.Script.{first_line, later_line, phase_line, processor_line, read_words};
ghost use Rattle.hv_script.specs.declared.script.TheConstants.{MOST_BYTES as MOST};
ghost use Rattle.hv_serve.specs.Bench.{HasBecome, HasTaken, IsBench, IsOutcomeOf, StandsFor, reads};
ghost use Rattle.hv_serve.specs.Bench.{kept_in, words_say};
ghost use Rattle.hv_serve.specs.Input.{AreKept};
ghost use Rattle.hv_asm.specs.Line.{line_of as line_meant};
ghost use Rattle.hv_serve.specs.Meant.{meant, meant_as, meant_by};
ghost use Rattle.hv_serve.specs.Session.{AreTraced, Served, history_of, read_of};
ghost use Rattle.hv_serve.specs.Traced.{IsTracedIn};
ghost use Rattle.hv_serve.specs.declared.form.Form.TheVariants.{Json};
ghost use Rattle.hv_history.specs.Kept.{Kept as KeptValue};
ghost use Rattle.hv_policy.specs.declared.event.Action.{Action as ActionValue};
ghost use Rattle.hv_policy.specs.declared.event.Caller.{Caller as CallerValue};
ghost use Rattle.hv_threads.specs.Acted.{HasTried};
ghost use Rattle.std.specs.declared.alloc.Global.{Global as GlobalValue};

use crate::form::{Form, Place};
use crate::outcome::{Outcome, misnamed, outcome_of, refused_boot};
use crate::request::Request;
use crate::traced::{Trace, act_traced};
use hv_asm::push_line;
use hv_history::{HostRefused, Kept};
use hv_policy::{Action, Caller};
use hv_script::{CutLine, FaultKind, MOST_BYTES, action, admit, processor, read_boot};
use hv_threads::act;
use std::alloc::Global;

// A booted machine with its history.
#[derive(Drop)]
pub(crate) struct Bench {
    pub(crate) kept: Kept<Global>,
    // In JSON, the objects of the events of the last line that has some.
    pub(crate) trace: Trace,
    // The processors that lines of the current phase named.
    callers: Vec<Caller>,
}

// Does what a line asks for, unless its bytes were lost. Before the boot line there is no machine.
#[tactic(auto, using(crate::proofs::Tracing::untraced))]
pub(crate) fn take_line(
    alloc: Global,
    at: Place,
    bench: &mut Option<Bench>,
    line: &[u8],
    lost: Option<FaultKind>,
) -> Outcome
    ensures comes { (before : Option Served) (bytes : List ℕ) → StandsFor bench.old before
        → All (λ byte. byte ≢ 10) bytes → AreKept bytes line.now lost
        → HasBecome before (meant_by at.names (read_of before) bytes) result bench.new }
    ensures traced { at.form ≡ Json → IsTracedIn (length (history_of (kept_in bench.old))) bench.new }
{
    match lost {
        Some(kind) => outcome_of(Err(kind)),
        None if at.names => named_line(alloc, at, bench, line),
        None => outcome_of(do_line(alloc, at, bench, line)),
    }
}

// Does what a line asks for that may be by names.
#[tactic(auto, using(crate::proofs::Tracing::untraced))]
fn named_line(alloc: Global, at: Place, bench: &mut Option<Bench>, text: &[u8]) -> Outcome
    ensures comes { (before : Option Served) → StandsFor bench.old before → All (λ byte. byte ≢ 10) text.now
        → HasBecome before (meant_as (read_of before) (line_meant text.now)) result bench.new }
    ensures traced { at.form ≡ Json → IsTracedIn (length (history_of (kept_in bench.old))) bench.new }
{
    let mut plain = Vec::new(alloc);
    match push_line(&mut plain, text) {
        Ok(()) => outcome_of(plain_line(alloc, at, bench, &plain)),
        Err(fault) => misnamed(fault),
    }
}

// Does what a line of any length asks for.
#[tactic(auto, using(crate::proofs::Tracing::untraced))]
fn plain_line(
    alloc: Global,
    at: Place,
    bench: &mut Option<Bench>,
    text: &[u8],
) -> Result<Outcome, FaultKind>
    ensures taken { (before : Option Served) → StandsFor bench.old before → All (λ byte. byte ≢ 10) text.now
        → HasTaken before (meant (read_of before) text.now) bench.new result }
    ensures traced { at.form ≡ Json → IsTracedIn (length (history_of (kept_in bench.old))) bench.new }
{
    if text.len() > MOST_BYTES {
        return Err(FaultKind::Long);
    }
    do_line(alloc, at, bench, text)
}

// Does what a line asks for.
#[tactic(auto, using(crate::proofs::Tracing::untraced))]
fn do_line(
    alloc: Global,
    at: Place,
    bench: &mut Option<Bench>,
    text: &[u8],
) -> Result<Outcome, FaultKind>
    ensures taken { (before : Option Served) → StandsFor bench.old before → length text.now ≤ MOST
        → HasTaken before (meant (read_of before) (line_of text.now)) bench.new result }
    ensures traced { at.form ≡ Json → IsTracedIn (length (history_of (kept_in bench.old))) bench.new }
{
    let mut line = CutLine::new();
    line.cut(text)?;
    do_words(alloc, at, bench, &line)
}

// Does what the words of a line ask for.
#[tactic(auto, using(crate::proofs::Tracing::untraced))]
fn do_words(
    alloc: Global,
    at: Place,
    bench: &mut Option<Bench>,
    line: &CutLine<'_>,
) -> Result<Outcome, FaultKind>
    ensures taken { (before : Option Served) → StandsFor bench.old before
        → HasTaken before (words_say (read_of before) line.now) bench.new result }
    ensures traced { at.form ≡ Json → IsTracedIn (length (history_of (kept_in bench.old))) bench.new }
{
    if line.words() == 0 {
        return Ok(Outcome::Done);
    }
    match Request::of(line) {
        Some(request) => request.read(bench.is_some(), line),
        None => script_line(alloc, at, bench, line),
    }
}

// Handles a line of a script.
#[tactic(auto, using(crate::proofs::Tracing::untraced))]
fn script_line(
    alloc: Global,
    at: Place,
    bench: &mut Option<Bench>,
    line: &CutLine<'_>,
) -> Result<Outcome, FaultKind>
    ensures taken { (before : Option Served) → StandsFor bench.old before
        → HasTaken before (reads (read_words (read_of before) line.now)) bench.new result }
    ensures traced { at.form ≡ Json → IsTracedIn (length (history_of (kept_in bench.old))) bench.new }
{
    match bench {
        None => boot_line(alloc, bench, line),
        Some(bench) => bench.later_line(alloc, at, line),
    }
}

// Handles the first line, which must be a `boot` line.
#[tactic(auto, using(crate::proofs::Tracing::untraced))]
fn boot_line(
    alloc: Global,
    bench: &mut Option<Bench>,
    line: &CutLine<'_>,
) -> Result<Outcome, FaultKind>
    requires { bench.old ≡ None }
    ensures taken { HasTaken None (reads (first_line line.now)) bench.new result }
    ensures traced { IsTracedIn (length (history_of (kept_in bench.old))) bench.new }
{
    if !line.begins_with(b"boot".as_slice()) {
        return Err(FaultKind::NoBoot);
    }
    let boot = read_boot(line)?;
    match Kept::boot(alloc, boot.config, boot.limit) {
        Ok(kept) => {
            *bench = Some(Bench {
                kept,
                trace: Trace::new(alloc),
                callers: Vec::new(alloc),
            });
            Ok(Outcome::Done)
        }
        Err(refused) => Ok(refused_boot(refused)),
    }
}

impl Bench {
    // Returns the objects of the events after the first `before`, each in a line. `None` if memory ran out.
    pub(crate) fn objects(&self, before: usize) -> Option<&[u8]>
        ensures { IsTracedIn before (Some self.now) → IfSome result (λ objects.
            AreTraced before (Some self.now.kept) objects.now) }
    {
        if before < self.kept.history().len() {
            self.trace.objects()
        } else {
            Some(b"")
        }
    }

    // Handles any line after the first.
    #[tactic(auto, using(crate::proofs::Tracing::untraced_same))]
    fn later_line(
        &mut self,
        alloc: Global,
        at: Place,
        line: &CutLine<'_>,
    ) -> Result<Outcome, FaultKind>
        ensures taken { (served : Served) → IsBench self.old served
            → HasTaken (Some served) (reads (later_line served.read line.now)) (Some self.new) result }
        ensures traced { at.form ≡ Json → IsTracedIn (length self.old.kept.history) (Some self.new) }
    {
        if line.begins_with(b"boot".as_slice()) {
            return Err(FaultKind::BootTwice);
        }
        if line.begins_with(b"phase".as_slice()) {
            return self.phase_line(line);
        }
        self.processor_line(alloc, at, line)
    }

    // Handles a `phase` line.
    fn phase_line(&mut self, line: &CutLine<'_>) -> Result<Outcome, FaultKind>
        ensures taken { (served : Served) → IsBench self.old served
            → HasTaken (Some served) (reads (phase_line served.read line.now)) (Some self.new) result }
        ensures kept { self.new.kept ≡ self.old.kept }
    {
        if line.words() != 1 {
            return Err(FaultKind::Count);
        }
        self.callers.clear();
        Ok(Outcome::Done)
    }

    // Handles a line of a processor. It reads the whole line before it changes anything.
    #[tactic(auto, using(crate::proofs::Tracing::untraced_same))]
    fn processor_line(
        &mut self,
        alloc: Global,
        at: Place,
        line: &CutLine<'_>,
    ) -> Result<Outcome, FaultKind>
        ensures taken { (served : Served) → IsBench self.old served
            → HasTaken (Some served) (reads (processor_line served.read line.now)) (Some self.new) result }
        ensures traced { at.form ≡ Json → IsTracedIn (length self.old.kept.history) (Some self.new) }
    {
        let by = processor(line.word(0))?;
        let action = action(&alloc, line)?;
        admit(&mut self.callers, by)?;
        Ok(self.perform(at, by, action))
    }

    // Runs an action to its end, unless the host refuses it. No action has as many events as `u32::MAX`.
    fn perform(&mut self, at: Place, by: Caller, action: Action<Global>) -> Outcome
        ensures acted { IsOutcomeOf by action u32.MAX self.old.kept self.new.kept result }
        ensures callers { self.new.callers.items ≡ self.old.callers.items }
        ensures traced { at.form ≡ Json → IsTracedIn (length self.old.kept.history) (Some self.new) }
    {
        match at.form {
            Form::Text => outcome_of_act(act(&mut self.kept, by, action, u32::MAX)),
            Form::Json => {
                let (kept, trace) = (&mut self.kept, &mut self.trace);
                outcome_of_act(act_traced(kept, at.number, by, action, trace))
            }
        }
    }
}

// Returns the outcome of a line whose action was run.
fn outcome_of_act(acted: Result<(), HostRefused>) -> Outcome
    ensures { (by : CallerValue) (what : ActionValue GlobalValue) (most : ℕ) (old new : KeptValue GlobalValue)
        → HasTried by what most old new acted → IsOutcomeOf by what most old new result }
{
    match acted {
        Ok(()) => Outcome::Done,
        Err(why) => Outcome::Host(why),
    }
}
