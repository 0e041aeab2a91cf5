// The preparation of a hold that serves elements of a hypercall.
ghost use Rattle.std.specs.Prelude.{◌≡◌, ◌<◌, ◌≤◌, IfNone, IfOk, IfSome, OnOk, vec_len};
ghost use Rattle.hv_defs.specs.declared.sizes.TheConstants.{REPS_END};
ghost use Rattle.hv_history.specs.Run.{element, restart};
ghost use Rattle.hv_shared.specs.Copies.{AreCopies, elements_in};
ghost use Rattle.hv_shared.specs.Pass.{IsAsBefore};

use crate::held::Pass;
use hv_abi::{CallKind, Frame, InputValue};
use hv_history::HostRefused;
use hv_policy::{Action, Caller, Event};
use std::alloc::{AllocError, Global};
use std::mem;
use std::sync::ledger::Ledger;

/// Why the host stopped a hypercall before its end, and the start index of the element that it refused.
///
/// The elements before it were served and have their receipts.
#[derive(Clone, Copy, PartialEq, Eq, Debug)]
pub struct DriveRefused {
    pub why: HostRefused,
    pub next: u16,
}

// The most elements of a call in one critical section.
pub(crate) const MOST_IN_A_HOLD: u32 = 16;

// The most elements of a call.
const MOST_ELEMENTS: u32 = 4095;

// Returns the number of elements of an input value's call from the start index on. It is 1 for a simple call,
// and for an input value that P4 or P5 denies.
fn elements_in(rcx: u64) -> u32
    ensures { result ≡ elements_in rcx MOST_ELEMENTS }
{
    let InputValue {
        call,
        reps,
        start,
        ..
    } = InputValue::read(rcx);
    match CallKind::of(call) {
        Some(kind) => {
            let row = kind.row();
            if row.rep && row.takes(rcx) {
                u32::from(reps - start)
            } else {
                1
            }
        }
        None => 1,
    }
}

// Returns a copy of the event of each element that one hold may serve, and a second frame if the call may
// go on after it. The pass then has room for their receipts.
pub(crate) fn prepare<L: Ledger>(
    pass: &mut Pass<L>,
    frame: &Frame<Global>,
) -> Result<(Vec<Event<Global>>, Option<Frame<Global>>), AllocError>
    ensures copies { IfOk result (λ r. AreCopies pass.old.caller frame.now MOST_IN_A_HOLD r.0.items) }
    ensures room { IfOk result (λ r. vec_len r.0 ≤ pass.new.room) }
    ensures left { IfOk result (λ r. IfSome r.1 (λ left. left ≡ frame.now)) }
    ensures last { IfOk result (λ r. IfNone r.1 (elements_in frame.now.rcx MOST_ELEMENTS ≤ MOST_IN_A_HOLD)) }
    ensures same { IsAsBefore pass.old pass.new }
{
    let elements = elements_in(frame.rcx);
    let count = elements.min(MOST_IN_A_HOLD) as usize;
    pass.reserve(count)?;
    let mut copies = pass.take_copies(count)?;
    let InputValue { start, .. } = InputValue::read(frame.rcx);
    let by = pass.caller();
    for i in 0..count {
        set_copy(&mut copies[i], by, frame, start + i as u16)?;
    }
    if elements <= MOST_IN_A_HOLD {
        Ok((copies, None))
    } else {
        Ok((copies, Some(frame.copy()?)))
    }
}

// Makes an event the one of a frame by this caller, with this start index. The frame's input list takes the
// memory of the event's.
fn set_copy(
    event: &mut Event<Global>,
    by: Caller,
    frame: &Frame<Global>,
    start: u16,
) -> Result<(), AllocError>
    requires { start < REPS_END }
    ensures { OnOk result (event.new ≡ element by (restart frame.now start)) }
{
    let old = mem::replace(&mut event.what, Action::TakeInterrupt);
    let copy = match old {
        Action::Hypercall(old) => {
            let mut input = old.input;
            input.refill(frame.input.as_slice())?;
            Frame {
                rcx: frame.rcx,
                rdx: frame.rdx,
                r8: frame.r8,
                input,
            }
        }
        _ => frame.copy()?,
    };
    *event = Event {
        by,
        what: Action::Hypercall(copy.with_start(start)),
    };
    Ok(())
}
