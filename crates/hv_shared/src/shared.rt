// The one lock.
ghost use Rattle.std.specs.Prelude.{◌≡◌, ◌<◌, ◌≤◌, [], IfOk, IfErr, OnErr, vec_len, vec_capacity};
ghost use Rattle.hv_abi.specs.declared.frame.Frame.{Frame as CallFrame};
ghost use Rattle.hv_policy.specs.Next.{GoesOn};
ghost use Rattle.hv_policy.specs.Parts.{reply_of};
ghost use Rattle.hv_policy.specs.Result.{HasResult};
ghost use Rattle.hv_policy.specs.declared.event.Action.TheVariants.{Hypercall};
ghost use Rattle.hv_shared.specs.Drive.{HasDriven, HasStopped};
ghost use Rattle.hv_shared.specs.Pass.{HasCalled, IsAsBefore};
ghost use Rattle.hv_shared.specs.Shared.{AreOpened};

use crate::drive::{DriveRefused, MOST_IN_A_HOLD, prepare};
use crate::gate::Gate;
use crate::held::{Held, Pass, Unsettled};
use hv_abi::{Frame, InputValue, ResultValue, restarted};
use hv_history::{HostRefused, Kept, RunDone, next_of};
use hv_policy::{Action, Caller, Config, Event, Reply, result_value};
use std::alloc::Global;
use std::marker::Model;
use std::sync::ledger::{Blank, Ledger};
use std::sync::{Mutex, Wait};

/// A lock around a machine with its history.
///
/// Beside it are the number of passes, and the configuration and limit with which the history was begun.
#[derive(Drop)]
pub struct Shared<L: Ledger> {
    held: Mutex<Held<L>>,
    passes: usize,
    config: Config,
    limit: u32,
    // Room for the receipts of each pass, for the settlement.
    room: Vec<Unsettled>,
}

impl<L: Ledger> Model for Shared<L> {
    ghost use Rattle.std.specs.Prelude.{◌≡◌, ◌<◌, ◌≤◌, [], vec_capacity};
    ghost use Rattle.hv_shared.specs.SharedValue.{SharedValue};

    ghost Value = { SharedValue };

    ghost view = { λ s. record { passes = s.passes; config = s.config; limit = s.limit } };

    ghost invariant = { λ s. (s.passes ≡ L.parts) × (0 < s.passes) × (s.room.items ≡ [])
        × (L.parts ≤ vec_capacity s.room) };
}

impl<L: Ledger> Shared<L> {
    /// Returns a lock around a machine without events, and a pass for each caller, in order.
    ///
    /// The blank has as many parts as there are callers. Out of memory, it hands the machine back.
    pub fn new(
        kept: Kept<Global>,
        blank: Blank,
        callers: Vec<Caller>,
    ) -> Result<(Shared<L>, Vec<Pass<L>>), Kept<Global>>
        requires empty { kept.history ≡ [] }
        requires some { 0 < vec_len callers }
        requires ledger { (blank.name ≡ L.name) × (blank.parts ≡ L.parts) × (blank.parts ≡ vec_len callers) }
        ensures count { IfOk result (λ r. r.0.passes ≡ vec_len callers) }
        ensures config { IfOk result (λ r. r.0.config ≡ kept.config) }
        ensures limit { IfOk result (λ r. r.0.limit ≡ kept.limit) }
        ensures passes { IfOk result (λ r. AreOpened callers.items r.1.items) }
        ensures back { IfErr result (λ k. k ≡ kept) }
    {
        let passes = callers.len();
        let config = kept.config();
        let limit = kept.limit();
        let Ok(room) = Vec::with_capacity(*callers.allocator(), passes) else {
            return Err(kept);
        };
        let (held, opened) = Held::open(kept, blank, callers)?;
        let shared = Shared {
            held: Mutex::new(held),
            passes,
            config,
            limit,
            room,
        };
        Ok((shared, opened))
    }

    /// Applies one event of the pass's caller, and keeps its receipt.
    ///
    /// The call makes room for the receipt and copies the event before it enters the gate.
    // Inlined: messages in bench/largest.sh.
    #[inline(always)]
    pub fn call<R: Wait, G: Gate>(
        &self,
        rt: &R,
        pass: &mut Pass<L>,
        gate: &G,
        what: Action<Global>,
    ) -> Result<Reply, HostRefused>
        ensures called { IfOk result (λ r. HasCalled what r pass.old pass.new) }
        ensures refused { OnErr result (IsAsBefore pass.old pass.new) }

        // The reply to a hypercall has a result value. A call continues with the element after the one that
        // was served.
        ensures result { (frame : CallFrame Global) → what ≡ Hypercall frame → IfOk result HasResult }
        ensures next { IfOk result (λ r. GoesOn what r) }
    {
        let by = pass.caller();
        let event = Event { by, what };
        let Ok(copy) = event.copy() else {
            return Err(HostRefused::Memory);
        };
        if pass.reserve(1).is_err() {
            return Err(HostRefused::Memory);
        }
        let turn = pass.receipts().len() as u64;
        gate.enter(rt, by, turn);
        let told = self.held.lock(rt).hold(pass, event, copy);
        gate.leave(rt, by, turn);
        told
    }

    // Returns the lock's contents, room for the settlement, and the configuration and limit of the history.
    pub(crate) fn into_parts(self) -> (Held<L>, Vec<Unsettled>, Config, u32)
        ensures room { (result.1.items ≡ []) × (L.parts ≤ vec_capacity result.1) }
        ensures config { result.2 ≡ self.config }
        ensures limit { result.3 ≡ self.limit }
        ensures passes { (self.passes ≡ L.parts) × (0 < L.parts) }
    {
        (self.held.into_inner(), self.room, self.config, self.limit)
    }

    /// Drives a hypercall to its end, and returns its result value and the reply to its last event.
    ///
    /// The elements of a rep call happen one after another from its start index on. Each is an event of its
    /// own, to which all rules apply. Up to 16 of them share one critical section. The call ends with its
    /// last element, or with the first that a rule refuses. The result value is that of the whole call.
    // Inlined: calls for the own id in bench/largest.sh.
    #[inline(always)]
    pub fn drive<R: Wait, G: Gate>(
        &self,
        rt: &R,
        pass: &mut Pass<L>,
        gate: &G,
        frame: Frame<Global>,
    ) -> Result<(ResultValue, Reply), DriveRefused>
        ensures driven { IfOk result (λ r. HasDriven frame r.0 r.1 pass.old pass.new) }
        ensures refused { IfErr result (λ e. HasStopped frame e.next pass.old pass.new) }
    {
        let mut frame = frame;
        loop {
            let rcx = frame.rcx;
            let start = InputValue::read(rcx).start;
            let Ok((copies, left)) = prepare(pass, &frame) else {
                return Err(DriveRefused {
                    why: HostRefused::Memory,
                    next: start,
                });
            };
            let turn = pass.receipts().len() as u64;
            gate.enter(rt, pass.caller(), turn);
            let RunDone { events, last } = self
                .held
                .lock(rt)
                .hold_run(pass, frame, copies, MOST_IN_A_HOLD);
            gate.leave(rt, pass.caller(), turn);
            let reply = match last {
                Ok(reply) => reply,
                Err(why) => {
                    return Err(DriveRefused {
                        why,
                        next: start + events as u16,
                    });
                }
            };
            let (answer, _) = reply.parts();
            let Some(next) = next_of(answer) else {
                let last = restarted(rcx, start + events as u16 - 1);
                return Ok((result_value::<Global>(last, answer), reply));
            };
            let Some(left) = left else { unreachable!() };
            frame = left.with_start(next);
        }
    }
}
