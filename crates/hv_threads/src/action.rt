// One action to its end.
ghost use Rattle.std.specs.Prelude.{◌<◌, OnOk, OnErr};
ghost use Rattle.hv_threads.specs.Acted.{HasTried};
ghost use Rattle.hv_threads.specs.Perform.{HasBegun, HasPerformed};

use hv_history::{HostRefused, Kept, global};
use hv_policy::{Action, Caller, Event};
use hv_shared::{Gate, Pass, Shared};
use std::alloc::Global;
use std::sync::Wait;
use std::sync::ledger::Ledger;

/// Runs one action of a processor on a machine that one thread owns.
///
/// An access is one event. A hypercall is an event per element, from the frame's start index on, and at most
/// 4,096. It stops after `most` events, even if it would go on. `Err` says why the host refused an event; the
/// events before that one stay in the history.
pub fn act(
    kept: &mut Kept<Global>,
    by: Caller,
    action: Action<Global>,
    most: u32,
) -> Result<(), HostRefused>
    requires { 0 < most }
    ensures { HasTried by action most kept.old kept.new result }
{
    match action {
        Action::Hypercall(frame) => match global::apply_run(kept, by, frame, most).last {
            Ok(_) => Ok(()),
            Err(why) => Err(why),
        },
        Action::ReadMsr(_)
        | Action::WriteMsr(_, _)
        | Action::ReadSlot(_)
        | Action::ClearSlot(_)
        | Action::ReadFlags(_)
        | Action::ClearFlag(_, _)
        | Action::TakeInterrupt => match global::apply(kept, Event { by, what: action }) {
            Ok(_) => Ok(()),
            Err(why) => Err(why),
        },
    }
}

/// A machine that threads share, and what a thread needs to act on it.
#[derive(Drop)]
pub struct Driver<'a, L: Ledger, R: Wait, G: Gate> {
    /// What lets a thread wait for the lock.
    pub rt: &'a R,
    /// The lock.
    pub shared: &'a Shared<L>,
    /// Its hooks run around each hold of the lock.
    pub gate: &'a G,
}

impl<L: Ledger, R: Wait, G: Gate> Driver<'_, L, R, G> {
    /// Performs one action of the pass's processor to its end: drives a hypercall, and calls for an access.
    ///
    /// `Err` says why the host refused an event; the pass has the receipts of those before it.
    // Inlined: messages in bench/largest.sh.
    #[inline(always)]
    pub fn drive(&self, pass: &mut Pass<L>, action: Action<Global>) -> Result<(), HostRefused>
        ensures performed { OnOk result (HasPerformed action pass.old pass.new) }
        ensures refused { OnErr result (HasBegun action pass.old pass.new) }
    {
        match action {
            Action::Hypercall(frame) => match self.shared.drive(self.rt, pass, self.gate, frame) {
                Ok(_) => Ok(()),
                Err(refused) => Err(refused.why),
            },
            Action::ReadMsr(_)
            | Action::WriteMsr(_, _)
            | Action::ReadSlot(_)
            | Action::ClearSlot(_)
            | Action::ReadFlags(_)
            | Action::ClearFlag(_, _)
            | Action::TakeInterrupt => match self.shared.call(self.rt, pass, self.gate, action) {
                Ok(_) => Ok(()),
                Err(why) => Err(why),
            },
        }
    }
}
