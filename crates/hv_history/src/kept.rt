// The machine with its history.
ghost use Rattle.std.specs.Prelude.{◌≡◌, ◌-◌, ◌<◌, ◌↔◌, [], length, slice_get, None, Some, IsTrue};
ghost use Rattle.std.specs.Prelude.{IfOk, OnErr, IfErr, IsErrOf};
ghost use Rattle.hv_abi.specs.declared.frame.Frame.{Frame};
ghost use Rattle.hv_defs.specs.declared.sizes.TheConstants.{REPS_END};
ghost use Rattle.hv_admit.specs.Effect.{Tells};
ghost use Rattle.hv_machine.specs.IsFlat.{IsFlat};
ghost use Rattle.hv_machine.specs.Masks.{AreMasksWithin};
ghost use Rattle.hv_policy.specs.BootFault.{boot_fault, IsBootRefusal};
ghost use Rattle.hv_policy.specs.Next.{GoesOn};
ghost use Rattle.hv_policy.specs.Parts.{reply_of};
ghost use Rattle.hv_policy.specs.Result.{HasResult};
ghost use Rattle.hv_policy.specs.Flat.{Flat};
ghost use Rattle.hv_policy.specs.Step.{NamesAsked, step};
ghost use Rattle.hv_policy.specs.declared.event.Action.TheVariants.{Hypercall};
ghost use Rattle.hv_history.specs.History.{entries};
ghost use Rattle.hv_history.specs.Justified.{IsJustified, operations_in, states_in};
ghost use Rattle.hv_history.specs.Kept.{HasGained, IsRun, IsTaken};
ghost use Rattle.hv_history.specs.Run.{element, restart};
ghost use Rattle.hv_history.specs.declared.entry.Entry.{Entry};

use crate::row::History;
use hv_admit::Effect;
use hv_machine::{Answer, BootRefused, Config, Event, Machine, Output, Reply};
use std::alloc::Allocator;
use std::marker::Model;

/// Why the host refused an event. Nothing changed.
///
/// The variants have the order in which the host checks them.
#[derive(Clone, Copy, PartialEq, Eq, Debug)]
pub enum HostRefused {
    /// The history has reached its limit. No rule was checked.
    HistoryFull,
    /// The host has no memory for the event.
    Memory,
}

/// A machine, with the events that led to its state and their replies.
#[derive(Drop)]
pub struct Kept<A: Allocator> {
    config: Config,
    limit: u32,
    history: History<A>,
    machine: Machine<A>,
}

impl<A: Allocator> Model for Kept<A> {
    ghost use Rattle.std.specs.Coded.{codes};
    ghost use Rattle.hv_machine.specs.State.{state_code};
    ghost use Rattle.hv_history.specs.History.{entries};
    ghost use Rattle.hv_history.specs.Kept.{Kept as KeptValue, IsRun};

    ghost Value = { KeptValue A };

    ghost coded = { Prim.hlevel (codes, state_code) };

    ghost view = { λ k. record {
      config = k.config;
      limit = k.limit;
      history = entries k.history;
      machine = k.machine;
    } };

    ghost invariant = { λ k. IsRun (record {
      config = k.config;
      limit = k.limit;
      history = entries k.history;
      machine = k.machine;
    }) };
}

impl<A: Allocator + Copy> Kept<A> {
    /// Boots a machine without events. It takes at most `limit` events.
    pub fn boot(alloc: A, config: Config, limit: u32) -> Result<Kept<A>, BootRefused>
        ensures refused { IfErr result (IsBootRefusal config) }
        ensures accepted { IfOk result (λ k. boot_fault config ≡ None) }
        ensures config { IfOk result (λ k. k.config ≡ config) }
        ensures limit { IfOk result (λ k. k.limit ≡ limit) }
        ensures history { IfOk result (λ k. k.history ≡ []) }
        ensures run { IfOk result IsRun }
    {
        let machine = Machine::boot(alloc, config)?;
        Ok(Kept {
            config,
            limit,
            history: History::new(alloc),
            machine,
        })
    }
}

impl<A: Allocator + Clone> Kept<A> {
    /// Applies an event, and returns its number and its reply.
    ///
    /// Numbers count from 1, in the order in which events happen. An event that the host refuses is dropped.
    pub fn apply(&mut self, event: Event<A>) -> Result<(u64, Reply), HostRefused>
        // The history gains the event with its reply, and is still a run. So the reply and the new state are
        // those of the flat step. The number is the event's place.
        ensures applied { IfOk result (λ r. HasGained event r.1 self.old self.new) }
        ensures number { IfOk result (λ r. r.0 ≡ length self.new.history) }
        ensures run { IsRun self.new }

        // The host refuses every event of a full history, before any rule is checked. Any other refusal is
        // for lack of memory, for the machine or for the history.
        ensures full { IsErrOf result HostRefused.HistoryFull ↔ (length self.old.history ≡ self.old.limit) }
        ensures refused { OnErr result (self.new ≡ self.old) }

        // A reply that names a rule names one that applies. The reply to a hypercall has a result value. A
        // call continues with the element after the one that was served.
        ensures asked { IfOk result (λ r. NamesAsked event r.1) }
        ensures result { (frame : Frame A) → event.what ≡ Hypercall frame
            → IfOk result (λ r. HasResult r.1) }
        ensures next { IfOk result (λ r. GoesOn event.what r.1) }
    {
        let mut output = Output::new();
        let (answer, _) = self.answer(event, &mut output)?;
        Ok((
            self.history.len() as u64,
            Reply::of(answer, output.as_slice()),
        ))
    }

    /// Applies one event as [`Kept::apply`] does, and returns the answer and the effect.
    ///
    /// The event appends its output to `output`, which must be empty.
    // Inlined: calls for the own id in bench/largest.sh.
    #[inline(always)]
    pub fn answer(
        &mut self,
        event: Event<A>,
        output: &mut Output,
    ) -> Result<(Answer, Effect), HostRefused>
        requires empty { output.old ≡ [] }
        ensures taken { IfOk result (λ done. IsTaken event (reply_of done.0 output.new) self.old self.new) }
        ensures effect { (f : Flat) → IsFlat self.old.machine f
            → IfOk result (λ done. Tells done.1 f (step f event).0) }
        ensures run { IsRun self.new }
        ensures full { IsErrOf result HostRefused.HistoryFull ↔ (length self.old.history ≡ self.old.limit) }
        ensures refused { OnErr result (self.new ≡ self.old) }
    {
        if self.is_full() {
            return Err(HostRefused::HistoryFull);
        }
        if self.history.reserve(1).is_err() {
            return Err(HostRefused::Memory);
        }
        let Ok((answer, effect)) = self.machine.answer(&event, output) else {
            return Err(HostRefused::Memory);
        };
        self.history.push(event, answer, output.as_slice());
        Ok((answer, effect))
    }

    // Applies the element of the last event's call with this start index, as `answer` does.
    pub(crate) fn answer_next(
        &mut self,
        start: u16,
        output: &mut Output,
    ) -> Result<Answer, HostRefused>
        requires empty { output.old ≡ [] }
        requires some { 0 < length self.old.history }
        requires index { start < REPS_END }
        ensures applied { (last : Entry A) (frame : Frame A)
            → slice_get self.old.history (length self.old.history - 1) ≡ Some last
            → last.event.what ≡ Hypercall frame
            → IfOk result (λ answer. IsTaken (element last.event.by (restart frame start))
            (reply_of answer output.new) self.old self.new) }
        ensures run { IsRun self.new }
        ensures full { IsErrOf result HostRefused.HistoryFull ↔ (length self.old.history ≡ self.old.limit) }
        ensures refused { OnErr result (self.new ≡ self.old) }
    {
        if self.is_full() {
            return Err(HostRefused::HistoryFull);
        }
        if self.history.reserve(1).is_err() {
            return Err(HostRefused::Memory);
        }
        let head = self.history.restart(start);
        let history = &self.history;
        let event = &history.heads[head];
        let Ok((answer, _)) = self.machine.answer(event, output) else {
            return Err(HostRefused::Memory);
        };
        self.history.push_head(head, answer, output.as_slice());
        Ok(answer)
    }
}

impl<A: Allocator> Kept<A> {
    /// The events with their replies, in order.
    ///
    /// They are a run of the policy from a configuration that boots, with the replies of that run.
    pub fn history(&self) -> &History<A>
        ensures list { entries result.now ≡ self.now.history }
        ensures run { IsRun self.now }
    {
        &self.history
    }

    /// The machine that the history made.
    ///
    /// Each page has one owner. The pages in use are within the pool, and each mask is within the parent's.
    /// An entry of the history posted each message, signalled each event flag that is set, and made each port
    /// and connection. A message or flag is at the processor that took it then.
    pub fn machine(&self) -> &Machine<A>
        ensures machine { result.now ≡ self.now.machine }
        ensures run { IsRun self.now }
        ensures masks { AreMasksWithin self.now.machine.rows }
        ensures justified { IsJustified (states_in self.now.config self.now.history)
            (operations_in self.now.history)
            self.now.machine.rows }
    {
        &self.machine
    }

    /// The configuration that boot was given.
    pub fn config(&self) -> Config
        ensures { result ≡ self.now.config }
    {
        self.config
    }

    /// The most events that the history may have.
    pub fn limit(&self) -> u32
        ensures { result ≡ self.now.limit }
    {
        self.limit
    }

    /// Returns `true` if the history has no room for another event.
    pub fn is_full(&self) -> bool
        ensures { IsTrue result ↔ (length self.now.history ≡ self.now.limit) }
    {
        self.history.len() == self.limit as usize
    }
}
