// What the lock protects, what each thread owns, and the steps that change both. The fields of `Held` and
// `Pass` are private to this file and the settlement.
ghost use Rattle.std.specs.Prelude.{◌≡◌, ◌<◌, ◌≤◌, ◌+◌, [], ◌↔◌, IfOk, OnOk, OnErr, IsErrOf, IfErr, length};
ghost use Rattle.std.specs.Prelude.{vec_len, vec_capacity};
ghost use Rattle.hv_defs.specs.declared.sizes.TheConstants.{REPS_END};
ghost use Rattle.hv_abi.specs.declared.frame.Frame.{Frame};
ghost use Rattle.hv_policy.specs.Next.{GoesOn};
ghost use Rattle.hv_policy.specs.Result.{HasResult};
ghost use Rattle.hv_policy.specs.Step.{NamesAsked};
ghost use Rattle.hv_policy.specs.declared.event.Action.TheVariants.{Hypercall};
ghost use Rattle.hv_history.specs.Kept.{HasGained, IsRun};
ghost use Rattle.hv_history.specs.Run.{HasRun, HasStopped};
ghost use Rattle.hv_shared.specs.Copies.{AreCopies};
ghost use Rattle.hv_shared.specs.Hold.{HasHeld};
ghost use Rattle.hv_shared.specs.Pass.{HasReceipt, IsAsBefore};
ghost use Rattle.hv_shared.specs.Receipts.{list_of};
ghost use Rattle.hv_shared.specs.Shared.{AreOpened};

use crate::receipts::Receipts;
use hv_abi::Frame;
use hv_history::{HostRefused, Kept, RunAnswered, RunDone, global};
use hv_policy::{Action, Caller, Event, Output, Reply};
use std::alloc::{AllocError, Global};
use std::marker::Model;
use std::mem;
use std::sync::ledger::{Blank, Book, Ledger, Share};

mod settlement;

pub(crate) use settlement::Unsettled;
pub use settlement::settle;

/// What one thread owns: its caller, the receipts of its events, and its share of the count of all events.
#[derive(Drop)]
pub struct Pass<L: Ledger> {
    caller: Caller,
    // In a block of their own, so a pass, and what a settlement has to find of it, are small to move.
    receipts: Box<Receipts>,
    share: Share<L>,
    // The copies of the last hold. The next hold's copies use their memory.
    copies: Vec<Event<Global>>,
    // Copies of earlier holds that had more.
    spare: Vec<Event<Global>>,
}

impl<L: Ledger> Model for Pass<L> {
    ghost use Rattle.hv_shared.specs.PassValue.{PassValue, IsPass};
    ghost use Rattle.hv_shared.specs.Receipts.{list_of, room_in};

    ghost Value = { PassValue };

    ghost view = { λ p. record {
      caller = p.caller;
      receipts = list_of p.receipts.value;
      share = p.share.amount;
      room = room_in p.receipts.value;
    } };

    ghost invariant = { λ p. IsPass p.caller (list_of p.receipts.value) p.share.parts p.share.amount };
}

/// What the lock of a [`Shared`](crate::Shared) protects: the machine with its history, and the count of the
/// history's events.
#[derive(Drop)]
pub struct Held<L: Ledger> {
    kept: Kept<Global>,
    count: Book<L>,
    // The output of the last event, and room for the next one's.
    output: Output,
}

impl<L: Ledger> Model for Held<L> {
    ghost use Rattle.std.specs.Coded.{codes};
    ghost use Rattle.std.specs.Prelude.{◌≡◌, length};
    ghost use Rattle.hv_machine.specs.State.{state_code};
    ghost use Rattle.hv_shared.specs.HeldValue.{HeldValue};

    ghost Value = { HeldValue };

    ghost coded = { Prim.hlevel (codes, state_code) };

    ghost view = { λ h. record { kept = h.kept; count = h.count.total } };

    ghost invariant = { λ h. h.count.total ≡ length h.kept.history };
}

impl<L: Ledger> Pass<L> {
    /// The virtual processor that asks.
    pub fn caller(&self) -> Caller
        ensures { result ≡ self.now.caller }
    {
        self.caller
    }

    /// The receipts of its events, in the order in which they happened.
    pub fn receipts(&self) -> &Receipts
        ensures { list_of result.now ≡ self.now.receipts }
    {
        &self.receipts
    }

    /// The number of further receipts for which there is room, whatever their events are.
    pub fn room(&self) -> usize
        ensures { result ≡ self.now.room }
    {
        self.receipts.room()
    }

    /// Makes room for `more` further receipts, whatever their events are.
    pub fn reserve(&mut self, more: usize) -> Result<(), AllocError>
        ensures room { OnOk result (more ≤ self.new.room) }
        ensures same { IsAsBefore self.old self.new }
    {
        self.receipts.reserve(more)
    }

    // Returns a list of this many events, whose memory the copies of a hold use.
    pub(crate) fn take_copies(&mut self, count: usize) -> Result<Vec<Event<Global>>, AllocError>
        ensures len { IfOk result (λ copies. vec_len copies ≡ count) }
        ensures same { self.new ≡ self.old }
    {
        let none = Vec::new(self.receipts.allocator());
        let mut copies = mem::replace(&mut self.copies, none);
        cut(&mut copies, count, &mut self.spare);
        copies.reserve(count - copies.len())?;
        while copies.len() < count {
            copies.push_reserved(match self.spare.pop() {
                Some(copy) => copy,
                None => Event {
                    by: self.caller,
                    what: Action::TakeInterrupt,
                },
            });
        }
        Ok(copies)
    }

    // A pass without receipts, with one part of the count.
    fn open(alloc: Global, caller: Caller, share: Share<L>) -> Result<Pass<L>, AllocError>
        requires { (share.parts ≡ 1) × (share.amount ≡ 0) }
        ensures { IfOk result (λ pass. (pass.caller ≡ caller) × (pass.receipts ≡ []) × (pass.share ≡ 0)) }
    {
        let receipts = Box::new(alloc, Receipts::new(alloc))?;
        Ok(Pass {
            caller,
            receipts,
            share,
            copies: Vec::new(alloc),
            spare: Vec::new(alloc),
        })
    }

    fn into_parts(self) -> (Share<L>, Box<Receipts>)
        ensures share { (result.0.parts ≡ 1) × (result.0.amount ≡ self.share) }
        ensures receipts { list_of result.1.value ≡ self.receipts }
    {
        (self.share, self.receipts)
    }
}

impl<L: Ledger> Held<L> {
    // Returns the lock's contents for a machine without events, and a pass for each caller, in order. The
    // blank has a part for each caller. Out of memory, it hands the machine back.
    pub(crate) fn open(
        kept: Kept<Global>,
        blank: Blank,
        callers: Vec<Caller>,
    ) -> Result<(Held<L>, Vec<Pass<L>>), Kept<Global>>
        requires empty { kept.history ≡ [] }
        requires ledger { (blank.name ≡ L.name) × (blank.parts ≡ L.parts) × (blank.parts ≡ vec_len callers) }
        ensures held { IfOk result (λ r. (r.0.kept ≡ kept) × (r.0.count ≡ 0)) }
        ensures passes { IfOk result (λ r. AreOpened callers.items r.1.items) }
        ensures back { IfErr result (λ k. k ≡ kept) }
    {
        let mut passes = Vec::new(*callers.allocator());
        if passes.reserve(callers.len()).is_err() {
            return Err(kept);
        }
        let (count, mut rest) = blank.open::<L>();
        for i in 0..callers.len() {
            let share = rest.split_off(1, 0);
            let Ok(pass) = Pass::open(*callers.allocator(), callers[i], share) else {
                return Err(kept);
            };
            passes.push_reserved(pass);
        }
        let held = Held {
            kept,
            count,
            output: Output::new(),
        };
        Ok((held, passes))
    }

    /// Applies an event by the pass's caller and keeps its receipt, for which there is room. The copy is
    /// equal to the event, and becomes the receipt's.
    // Inlined: messages in bench/largest.sh.
    #[inline(always)]
    pub fn hold(
        &mut self,
        pass: &mut Pass<L>,
        event: Event<Global>,
        copy: Event<Global>,
    ) -> Result<Reply, HostRefused>
        requires by { event.by ≡ pass.old.caller }
        requires copy { copy ≡ event }
        requires room { 1 ≤ pass.old.room }

        // The history gains the event with its reply, and the pass a receipt of it. Both are counted.
        ensures kept { IfOk result (λ r. HasGained event r self.old.kept self.new.kept) }
        ensures count { OnOk result (self.new.count ≡ self.old.count + 1) }
        ensures receipt { IfOk result (λ r. HasReceipt (length self.new.kept.history) event r pass.old
            pass.new) }
        ensures run { IsRun self.new.kept }

        // The host refuses every event of a full history, before any rule is checked. Any other refusal is
        // for lack of memory.
        ensures full { IsErrOf result HostRefused.HistoryFull
            ↔ (length self.old.kept.history ≡ self.old.kept.limit) }
        ensures refused { OnErr result (self.new ≡ self.old) }
        ensures pass { OnErr result (pass.new ≡ pass.old) }

        // A reply that names a rule names one that applies. The reply to a hypercall has a result value. A
        // call continues with the element after the one that was served.
        ensures asked { IfOk result (λ r. NamesAsked event r) }
        ensures result { (frame : Frame Global) → event.what ≡ Hypercall frame → IfOk result HasResult }
        ensures next { IfOk result (λ r. GoesOn event.what r) }
    {
        self.output.clear();
        match global::answer(&mut self.kept, event, &mut self.output) {
            Ok((answer, _)) => {
                self.count.add(&mut pass.share, 1);
                // proof: a history's length fits 32 bits.
                let _limit = self.kept.limit();
                let number = self.kept.history().len() as u32;
                let output = self.output.as_slice();
                pass.receipts.push(number, copy, answer, output);
                Ok(Reply::of(answer, output))
            }
            Err(why) => Err(why),
        }
    }

    /// Applies the elements of a call by the pass's caller as [`Kept::apply_run`](hv_history::Kept) does, and
    /// keeps their receipts, for which there is room. The copies are the caller's events of the frame at its
    /// start index, then at each next one, up to `most` of them or to the last element. There is only one for
    /// a simple call, or if P4 or P5 denies the frame. Where the receipts need an event, they take the first.
    // Inlined: calls for the own id in bench/largest.sh.
    #[inline(always)]
    pub fn hold_run(
        &mut self,
        pass: &mut Pass<L>,
        frame: Frame<Global>,
        copies: Vec<Event<Global>>,
        most: u32,
    ) -> RunDone
        requires some { 0 < most }
        requires copies { AreCopies pass.old.caller frame most copies.items }
        requires room { vec_len copies ≤ pass.old.room }
        ensures held { HasHeld self.old self.new pass.old pass.new }
        ensures ran { IfOk result.last (λ reply. HasRun pass.old.caller frame reply result.events most
            self.old.kept self.new.kept) }
        ensures stopped { OnErr result.last (HasStopped pass.old.caller frame result.events most self.old.kept
            self.new.kept) }
        ensures run { IsRun self.new.kept }
        ensures full { IfErr result.last (λ why. (why ≡ HostRefused.HistoryFull)
            ↔ (length self.new.kept.history ≡ self.new.kept.limit)) }
    {
        let from = self.kept.history().len();
        let RunAnswered { events, last } = global::answer_run(
            &mut self.kept,
            pass.caller,
            frame,
            most,
            &mut self.output,
        );
        self.count.add(&mut pass.share, u64::from(events));
        // proof: a history's length fits 32 bits.
        let _limit = self.kept.limit();
        let mut copies = copies;
        let first = &mut copies[0];
        pass.receipts.push_all(self.kept.history(), from, first);
        pass.copies = copies;
        let last = match last {
            Ok(answer) => Ok(Reply::of(answer, self.output.as_slice())),
            Err(why) => Err(why),
        };
        RunDone { events, last }
    }

    fn into_parts(self) -> (Kept<Global>, Book<L>)
        ensures kept { result.0 ≡ self.kept }
        ensures count { result.1.total ≡ length self.kept.history }
    {
        (self.kept, self.count)
    }
}

// Cuts the copies of a hold to this many, and keeps the others. Without room for them, they are freed.
fn cut(copies: &mut Vec<Event<Global>>, count: usize, spare: &mut Vec<Event<Global>>)
    ensures { vec_len copies.new ≤ count }
{
    if copies.len() <= count {
        return;
    }
    if spare.reserve(copies.len() - count).is_err() {
        copies.truncate(count);
        return;
    }
    while copies.len() > count {
        if let Some(copy) = copies.pop() {
            spare.push_reserved(copy);
        }
    }
}
