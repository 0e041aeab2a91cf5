// Checking one line of an audit.
ghost use Rattle.std.specs.Prelude.{◌≡◌, ◌<◌, ◌^◌, IfOk, Some, length};
ghost use Rattle.hv_check.specs.From.{IsNamedIn, IsNoEnd, IsShorter, IsStep};
ghost use Rattle.hv_phases.specs.Schedule.{IsBegun, first_of, left_by};
ghost use Rattle.hv_policy.specs.declared.event.Caller.{Caller as CallerValue};

use crate::compare::behind_line;
use crate::own_line::OwnLine;
use crate::reader::processor;
use crate::verdict::Wrong;
use hv_history::{HostRefused, Kept, global};
use hv_phases::Schedule;
use hv_policy::{Action, Caller, Event};
use std::alloc::{AllocError, Global};

/// The result for a line.
#[derive(Clone, Copy)]
pub enum Step<'a> {
    /// The line is legal, and this text follows it.
    On(&'a [u8]),
    /// The line isn't legal.
    Not(Wrong),
}

/// Takes the line at the start of a text.
///
/// The machine takes the next event of the processor that the line names. The line must be the policy's line
/// of that event.
pub fn take_line<'a>(
    kept: &mut Kept<Global>,
    schedule: &mut Schedule,
    own: &mut OwnLine,
    text: &'a [u8],
    rules: bool,
) -> Result<Step<'a>, AllocError>
    requires begun { IsBegun schedule.old }
    requires line { IsNoEnd text.now }
    ensures step { IfOk result (IsStep rules kept.old kept.new schedule.old schedule.new text.now) }
    ensures shorter { IfOk result (IsShorter text.now) }
{
    let line = number_of(kept);
    let Some(by) = processor(text) else {
        return Ok(Step::Not(Wrong::Unreadable { line }));
    };
    match next_of(schedule, by)? {
        Some(what) => take_event(kept, schedule, own, text, rules, Event { by, what }),
        None => Ok(Step::Not(Wrong::Idle { line, by })),
    }
}

// Returns the number of the next event.
fn number_of(kept: &Kept<Global>) -> u64
    ensures { length kept.now.history < 2 ^ 32 }
{
    // Proof: a history's length fits 32 bits.
    let _limit = kept.limit();
    kept.history().len() as u64 + 1
}

// Returns a copy of the next action of a processor.
fn next_of(schedule: &Schedule, by: Caller) -> Result<Option<Action<Global>>, AllocError>
    ensures { IfOk result (λ next. next ≡ first_of (left_by by schedule.now)) }
{
    match schedule.next(by) {
        Some(action) => Ok(Some(action.copy()?)),
        None => Ok(None),
    }
}

// Takes an event, and compares the line with the policy's.
fn take_event<'a>(
    kept: &mut Kept<Global>,
    schedule: &mut Schedule,
    own: &mut OwnLine,
    text: &'a [u8],
    rules: bool,
    event: Event<Global>,
) -> Result<Step<'a>, AllocError>
    requires line { IsNoEnd text.now }
    requires few { length kept.old.history < 2 ^ 32 }
    requires by { (by : CallerValue) → IsNamedIn text.now by → by ≡ event.by }
    requires next { first_of (left_by event.by schedule.old) ≡ Some event.what }
    ensures step { IfOk result (IsStep rules kept.old kept.new schedule.old schedule.new text.now) }
    ensures shorter { IfOk result (IsShorter text.now) }
{
    let by = event.by;
    let line = number_of(kept);
    match global::apply(kept, event) {
        Ok((_, reply)) => {
            schedule.go_on(by, &reply);
            own.put_last(kept);
            match behind_line(text, own.as_slice(), reply.parts().0, rules) {
                Some(rest) => Ok(Step::On(rest)),
                None => Ok(Step::Not(Wrong::Differs { line })),
            }
        }
        Err(HostRefused::HistoryFull) => Ok(Step::Not(Wrong::Full { line, by })),
        Err(HostRefused::Memory) => Err(AllocError),
    }
}
