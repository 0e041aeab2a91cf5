// The elements of one call, one after another.
ghost use Rattle.std.specs.Prelude.{◌≡◌, ◌<◌, ◌↔◌, ℕ, List, IfOk, OnErr, IfErr, IfSome, IfNone, length};
ghost use Rattle.hv_policy.specs.Parts.{reply_of};
ghost use Rattle.hv_policy.specs.declared.reply.Reply.TheVariants.{More};
ghost use Rattle.hv_history.specs.Kept.{IsRun};
ghost use Rattle.hv_history.specs.Run.{HasRun, HasStopped, IsMore};

use crate::kept::{HostRefused, Kept};
use hv_abi::Frame;
use hv_machine::{Action, Answer, Caller, Event, Output, Reply};
use std::alloc::Allocator;

/// The outcome of several elements of one call.
#[derive(Drop)]
pub struct RunDone {
    /// The number of elements that happened.
    pub events: u32,
    /// The reply to the last of them, or why the host refused the next one.
    pub last: Result<Reply, HostRefused>,
}

/// The outcome of several elements of one call, whose last output is in a buffer of the caller's.
#[derive(Clone, Copy)]
pub struct RunAnswered {
    /// The number of elements that happened.
    pub events: u32,
    /// The answer to the last of them, or why the host refused the next one.
    pub last: Result<Answer, HostRefused>,
}

impl<A: Allocator + Clone> Kept<A> {
    /// Applies the elements of a call from the frame's start index on, each as [`Kept::apply`] does.
    ///
    /// It stops after `most` elements, after a reply that ends the call, or at an element that the host
    /// refuses.
    pub fn apply_run(&mut self, by: Caller, frame: Frame<A>, most: u32) -> RunDone
        requires { 0 < most }
        ensures ran { IfOk result.last (λ reply. HasRun by frame reply result.events most self.old self.new) }
        ensures stopped { OnErr result.last (HasStopped by frame result.events most self.old self.new) }

        // Each reply is that of the run.
        ensures run { IsRun self.new }

        // The host refuses an element because the history is full, and otherwise for lack of memory.
        ensures full { IfErr result.last (λ why. (why ≡ HostRefused.HistoryFull)
            ↔ (length self.new.history ≡ self.new.limit)) }
    {
        let mut output = Output::new();
        let RunAnswered { events, last } = self.answer_run(by, frame, most, &mut output);
        let last = match last {
            Ok(answer) => Ok(Reply::of(answer, output.as_slice())),
            Err(why) => Err(why),
        };
        RunDone { events, last }
    }

    /// Applies elements of a call as [`Kept::apply_run`] does, and returns the answer to the last.
    ///
    /// Its output replaces what `output` has.
    // Inlined: calls for the own id in bench/largest.sh.
    #[inline(always)]
    pub fn answer_run(
        &mut self,
        by: Caller,
        frame: Frame<A>,
        most: u32,
        output: &mut Output,
    ) -> RunAnswered
        requires { 0 < most }
        ensures ran { IfOk result.last (λ answer. HasRun by frame (reply_of answer output.new) result.events
            most self.old self.new) }
        ensures stopped { OnErr result.last (HasStopped by frame result.events most self.old self.new) }
        ensures run { IsRun self.new }
        ensures full { IfErr result.last (λ why. (why ≡ HostRefused.HistoryFull)
            ↔ (length self.new.history ≡ self.new.limit)) }
    {
        let first = Event {
            by,
            what: Action::Hypercall(frame),
        };
        output.clear();
        let mut answer = match self.answer(first, output) {
            Ok((answer, _)) => answer,
            Err(why) => {
                return RunAnswered {
                    events: 0,
                    last: Err(why),
                };
            }
        };
        let mut events = 1;
        loop {
            let Some(next) = next_of(answer) else {
                return RunAnswered {
                    events,
                    last: Ok(answer),
                };
            };
            if events == most {
                return RunAnswered {
                    events,
                    last: Ok(answer),
                };
            }
            output.clear();
            match self.answer_next(next, output) {
                Ok(now) => answer = now,
                Err(why) => {
                    return RunAnswered {
                        events,
                        last: Err(why),
                    };
                }
            }
            events += 1;
        }
    }
}

/// Returns the element with which a call continues after this answer, if it does.
pub fn next_of(answer: Answer) -> Option<u16>
    ensures some { IfSome result (λ next. (output : List ℕ) → reply_of answer output ≡ More next output) }
    ensures none { IfNone result ((output : List ℕ) → IsMore (reply_of answer output) → ⊥) }
{
    match answer {
        Answer::More { next } => Some(next),
        Answer::Served | Answer::Denied { .. } | Answer::Fault { .. } => None,
    }
}
