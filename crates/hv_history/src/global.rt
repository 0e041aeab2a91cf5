//! `Kept`'s calls for memory of `Global`.
//!
//! A generic call is compiled again in each crate that makes it, with the whole machine in it. These are
//! compiled once.
ghost use Rattle.std.specs.Prelude.{◌≡◌, ◌<◌, ◌↔◌, [], length, IfOk, OnErr, IfErr, IsErrOf};
ghost use Rattle.std.specs.declared.alloc.Global.{Global as GlobalValue};
ghost use Rattle.hv_abi.specs.declared.frame.Frame.{Frame as FrameValue};
ghost use Rattle.hv_admit.specs.Effect.{Tells};
ghost use Rattle.hv_machine.specs.IsFlat.{IsFlat};
ghost use Rattle.hv_policy.specs.Flat.{Flat};
ghost use Rattle.hv_policy.specs.Next.{GoesOn};
ghost use Rattle.hv_policy.specs.Parts.{reply_of};
ghost use Rattle.hv_policy.specs.Result.{HasResult};
ghost use Rattle.hv_policy.specs.Step.{NamesAsked, step};
ghost use Rattle.hv_policy.specs.declared.event.Action.TheVariants.{Hypercall};
ghost use Rattle.hv_history.specs.Kept.{HasGained, IsRun, IsTaken};
ghost use Rattle.hv_history.specs.Run.{HasRun, HasStopped};

use crate::kept::{HostRefused, Kept};
use crate::run::{RunAnswered, RunDone};
use hv_abi::Frame;
use hv_admit::Effect;
use hv_machine::{Answer, Caller, Event, Output, Reply};
use std::alloc::Global;

/// [`Kept::apply`].
pub fn apply(kept: &mut Kept<Global>, event: Event<Global>) -> Result<(u64, Reply), HostRefused>
    ensures applied { IfOk result (λ r. HasGained event r.1 kept.old kept.new) }
    ensures number { IfOk result (λ r. r.0 ≡ length kept.new.history) }
    ensures run { IsRun kept.new }
    ensures full { IsErrOf result HostRefused.HistoryFull ↔ (length kept.old.history ≡ kept.old.limit) }
    ensures refused { OnErr result (kept.new ≡ kept.old) }
    ensures asked { IfOk result (λ r. NamesAsked event r.1) }
    ensures result { (frame : FrameValue GlobalValue) → event.what ≡ Hypercall frame
        → IfOk result (λ r. HasResult r.1) }
    ensures next { IfOk result (λ r. GoesOn event.what r.1) }
{
    kept.apply(event)
}

/// [`Kept::answer`].
pub fn answer(
    kept: &mut Kept<Global>,
    event: Event<Global>,
    output: &mut Output,
) -> Result<(Answer, Effect), HostRefused>
    requires empty { output.old ≡ [] }
    ensures taken { IfOk result (λ done. IsTaken event (reply_of done.0 output.new) kept.old kept.new) }
    ensures effect { (f : Flat) → IsFlat kept.old.machine f
        → IfOk result (λ done. Tells done.1 f (step f event).0) }
    ensures run { IsRun kept.new }
    ensures full { IsErrOf result HostRefused.HistoryFull ↔ (length kept.old.history ≡ kept.old.limit) }
    ensures refused { OnErr result (kept.new ≡ kept.old) }
{
    kept.answer(event, output)
}

/// [`Kept::apply_run`].
pub fn apply_run(kept: &mut Kept<Global>, by: Caller, frame: Frame<Global>, most: u32) -> RunDone
    requires { 0 < most }
    ensures ran { IfOk result.last (λ reply. HasRun by frame reply result.events most kept.old kept.new) }
    ensures stopped { OnErr result.last (HasStopped by frame result.events most kept.old kept.new) }
    ensures run { IsRun kept.new }
    ensures full { IfErr result.last (λ why. (why ≡ HostRefused.HistoryFull)
        ↔ (length kept.new.history ≡ kept.new.limit)) }
{
    kept.apply_run(by, frame, most)
}

/// [`Kept::answer_run`].
pub fn answer_run(
    kept: &mut Kept<Global>,
    by: Caller,
    frame: Frame<Global>,
    most: u32,
    output: &mut Output,
) -> RunAnswered
    requires { 0 < most }
    ensures ran { IfOk result.last (λ answer. HasRun by frame (reply_of answer output.new) result.events
        most kept.old kept.new) }
    ensures stopped { OnErr result.last (HasStopped by frame result.events most kept.old kept.new) }
    ensures run { IsRun kept.new }
    ensures full { IfErr result.last (λ why. (why ≡ HostRefused.HistoryFull)
        ↔ (length kept.new.history ≡ kept.new.limit)) }
{
    kept.answer_run(by, frame, most, output)
}
