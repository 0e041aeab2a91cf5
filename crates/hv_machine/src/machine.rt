// The machine and its one step.
ghost use Rattle.std.specs.Prelude.{◌≡◌, ◌<◌, [], None, Ok, IsTrue, IfOk, OnOk, OnErr};
ghost use Rattle.std.specs.Result.{result_map_both};
ghost use Rattle.hv_abi.specs.Check.{call_of};
ghost use Rattle.hv_abi.specs.declared.frame.Frame.{Frame as CallFrame};
ghost use Rattle.hv_security.specs.Integrity.{Integrity};
ghost use Rattle.hv_admit.specs.Effect.{Tells};
ghost use Rattle.hv_policy.specs.Call.{call_event, may_take_memory};
ghost use Rattle.hv_policy.specs.Flat.{Flat};
ghost use Rattle.hv_security.specs.Misses.{LeavesOthers};
ghost use Rattle.hv_policy.specs.Parts.{reply_of};
ghost use Rattle.hv_policy.specs.Result.{HasResult};
ghost use Rattle.hv_policy.specs.Step.{NamesAsked, step};
ghost use Rattle.hv_policy.specs.Rules.{unmet};
ghost use Rattle.hv_policy.specs.declared.event.Action.TheVariants.{Hypercall};
ghost use Rattle.hv_admit.specs.Room.{roomless};
ghost use Rattle.hv_machine.specs.Access.{access_event, access_reply, effect_in};
ghost use Rattle.hv_machine.specs.IsFlat.{IsFlat};
ghost use Rattle.hv_machine.specs.MachineInvariant.{MachineInvariant};
ghost use Rattle.hv_machine.specs.Sound.{IsSound};
ghost use Rattle.hv_machine.specs.Step.{IsStep};
ghost use Rattle.hv_defs.specs.declared.sizes.TheConstants.{MAX_SERVED};

use crate::dispatch::{dispatch, dispatch_access, next_after};
use hv_abi::{CallKind, Frame, InputValue};
use hv_admit::{CallError, Effect, Partitions, first_rule};
use hv_defs::MAX_SERVED;
use hv_policy::{
    Access, Answer, Caller, Event, Output, Reply, Rule, ask_frame, refused_answer, served_answer,
};
use std::alloc::Allocator;
use std::marker::Model;

/// All existing partitions, with everything that they hold.
#[derive(Drop)]
pub struct Machine<A: Allocator> {
    pub(crate) tree: Partitions<A>,
    pub(crate) pages: u32,
    pub(crate) next: u64,
    pub(crate) served: u64,
    pub(crate) alloc: A,
}

impl<A: Allocator> Model for Machine<A> {
    ghost use Rattle.hv_machine.specs.State.{State, state_code};

    ghost Value = { State };

    ghost coded = { state_code };

    ghost use Rattle.hv_machine.specs.MachineInvariant.{MachineInvariant};
    ghost use Rattle.hv_admit.specs.Room.{roomless};

    ghost view = { λ m. record {
      rows = roomless m.tree;
      pages = m.pages;
      next = m.next;
      served = m.served;
    } };

    ghost invariant = { λ m. MachineInvariant (record {
      rows = roomless m.tree;
      pages = m.pages;
      next = m.next;
      served = m.served;
    }) };
}

/// The reason that the host could not let an event happen. Nothing changed.
#[derive(Clone, Copy, PartialEq, Eq, Debug)]
pub enum HostRefused {
    /// The host is out of memory.
    Memory,
}

impl<A: Allocator + Clone> Machine<A> {
    /// Takes one event and serves it exactly when all rules that apply to it hold.
    ///
    /// Otherwise it replies with the first rule that fails and changes nothing. The caller keeps the count of
    /// served events below 2^64 - 3.
    pub fn step(&mut self, event: &Event<A>) -> Result<Reply, HostRefused>
        requires { self.old.served < MAX_SERVED }

        // Refinement: the reply and the new state are those of the flat step, for every flat state that
        // the machine stands for.
        ensures reply { (f : Flat) → IsFlat self.old f → IfOk result (λ r. r ≡ (step f event.now).1) }
        ensures state { (f : Flat) → IsFlat self.old f → OnOk result (IsFlat self.new (step f event.now).0) }

        // The host refuses only an event that would be served and that may take memory. Then nothing
        // changes.
        ensures refused { (f : Flat) → IsFlat self.old f → OnErr result (unmet f event.now ≡ None) }
        ensures memory { OnErr result (IsTrue (may_take_memory event.now)) }
        ensures kept { OnErr result (self.new ≡ self.old) }

        // Integrity: a partition that is neither the caller nor a child of it, before or after, does not
        // change, except for what a post or a signal adds where its connection's port aims.
        ensures confined { (f g : Flat) → IsFlat self.old f → IsFlat self.new g → Integrity event.now f g }

        // A partition does not change either if the event is not about it: it is neither the event's
        // target nor created by it, nor where it sends to, nor below a mask that it narrows, nor the
        // caller of an event that moves the caller's pages.
        ensures others { (f g : Flat) → IsFlat self.old f → IsFlat self.new g → LeavesOthers event.now f g }

        // A refusal names a rule that applies to the event, and a reply to a hypercall has a result value.
        ensures asked { IfOk result (NamesAsked event.now) }
        ensures result { (frame : CallFrame A) → event.now.what ≡ Hypercall frame → IfOk result HasResult }

        // The machine stands for a lawful flat state, so the clauses on all such states are not vacuous.
        // Each boot page stays in exactly one page set, the pages in use within the pool, and each mask
        // within the parent's.
        ensures lasting { MachineInvariant self.new }
        ensures pages { self.new.pages ≡ self.old.pages }
        ensures sound { IsSound self.new }
    {
        let mut output = Output::new();
        match self.answer(event, &mut output) {
            Ok((answer, _)) => Ok(Reply::of(answer, output.as_slice())),
            Err(why) => Err(why),
        }
    }

    /// Takes one event, with the promises of [`Machine::step`], and returns the answer and the effect.
    ///
    /// The event appends its output to `output`, which must be empty.
    // Inlined: calls for the own id in bench/largest.sh.
    #[inline(always)]
    pub fn answer(
        &mut self,
        event: &Event<A>,
        output: &mut Output,
    ) -> Result<(Answer, Effect), HostRefused>
        requires count { self.old.served < MAX_SERVED }
        requires empty { output.old ≡ [] }
        ensures step { IsStep event.now self.old
            (result_map_both (λ done. reply_of done.0 output.new) (λ why. why) result) self.new }
        ensures effect { (f : Flat) → IsFlat self.old f
            → IfOk result (λ done. Tells done.1 f (step f event.now).0) }
    {
        match event.what.as_access() {
            Ok(access) => match self.access(event.by, access, output) {
                Ok(told) => Ok((Answer::Served, told)),
                Err(rule) => Ok((Answer::Fault { rule }, Effect::Nothing)),
            },
            Err(frame) => self.hypercall(event.by, frame, output),
        }
    }

    /// Takes one hypercall of a processor, with the promises of [`Machine::step`] for that event, and returns
    /// the answer and the effect.
    ///
    /// The event appends its output to `output`, which must be empty.
    pub fn hypercall(
        &mut self,
        by: Caller,
        frame: &Frame<A>,
        output: &mut Output,
    ) -> Result<(Answer, Effect), HostRefused>
        requires count { self.old.served < MAX_SERVED }
        requires empty { output.old ≡ [] }
        ensures step { IsStep (call_event by frame.now) self.old
            (result_map_both (λ done. reply_of done.0 output.new) (λ why. why) result) self.new }
        ensures effect { (f : Flat) → IsFlat self.old f
            → IfOk result (λ done. Tells done.1 f (step f (call_event by frame.now)).0) }
    {
        // Each frequent call has an arm with a constant call kind, so the compiler can specialize `take` for
        // it. All other calls share the last arm.
        match CallKind::of(InputValue::read(frame.rcx).call) {
            Some(CallKind::GetPartitionProperty) => self.take(
                by,
                frame,
                Some(CallKind::GetPartitionProperty),
                output,
            ),
            Some(CallKind::SetPartitionProperty) => self.take(
                by,
                frame,
                Some(CallKind::SetPartitionProperty),
                output,
            ),
            Some(CallKind::GetPartitionId) => self.take(
                by,
                frame,
                Some(CallKind::GetPartitionId),
                output,
            ),
            Some(CallKind::GetNextChildPartition) => self.take(
                by,
                frame,
                Some(CallKind::GetNextChildPartition),
                output,
            ),
            Some(CallKind::DepositMemory) => self.take(
                by,
                frame,
                Some(CallKind::DepositMemory),
                output,
            ),
            Some(CallKind::WithdrawMemory) => self.take(
                by,
                frame,
                Some(CallKind::WithdrawMemory),
                output,
            ),
            Some(CallKind::GetMemoryBalance) => self.take(
                by,
                frame,
                Some(CallKind::GetMemoryBalance),
                output,
            ),
            Some(CallKind::GetVpRegisters) => self.take(
                by,
                frame,
                Some(CallKind::GetVpRegisters),
                output,
            ),
            Some(CallKind::SetVpRegisters) => self.take(
                by,
                frame,
                Some(CallKind::SetVpRegisters),
                output,
            ),
            Some(CallKind::PostMessage) => self.take(
                by,
                frame,
                Some(CallKind::PostMessage),
                output,
            ),
            Some(CallKind::SignalEvent) => self.take(
                by,
                frame,
                Some(CallKind::SignalEvent),
                output,
            ),
            named => self.take(by, frame, named, output),
        }
    }

    // Takes one hypercall, given the kind of call that the frame names, if it names one.
    // Inlined: calls for the own id in bench/embed.sh.
    #[inline(always)]
    fn take(
        &mut self,
        by: Caller,
        frame: &Frame<A>,
        named: Option<CallKind>,
        output: &mut Output,
    ) -> Result<(Answer, Effect), HostRefused>
        requires count { self.old.served < MAX_SERVED }
        requires named { call_of frame.now ≡ named }
        requires empty { output.old ≡ [] }
        ensures step { IsStep (call_event by frame.now) self.old
            (result_map_both (λ done. reply_of done.0 output.new) (λ why. why) result) self.new }
        ensures effect { (f : Flat) → IsFlat self.old f
            → IfOk result (λ done. Tells done.1 f (step f (call_event by frame.now)).0) }
    {
        // P4 to P7 look at the frame alone. They are checked first, and reported behind P1 to P3.
        let (shape, call) = match ask_frame(frame, named) {
            Ok(asked) => asked,
            Err(rule) => {
                let first = first_rule(&self.tree, by, rule);
                return Ok((refused_answer(frame, first), Effect::Nothing));
            }
        };
        match dispatch(
            &mut self.tree,
            &self.alloc,
            by,
            self.next,
            self.served,
            &call,
            output,
        ) {
            Ok(effect) => {
                self.next = next_after(&call, self.next);
                self.served += 1;
                Ok((served_answer(frame, shape), effect))
            }
            Err(CallError::Unmet(rule)) => Ok((refused_answer(frame, rule), Effect::Nothing)),
            Err(CallError::Memory) => Err(HostRefused::Memory),
        }
    }

    /// Takes one access of a processor, with the promises of [`Machine::step`] for that event, and returns
    /// its effect.
    ///
    /// The access appends its result to `output`, which must be empty. The host never refuses an access.
    pub fn access(
        &mut self,
        by: Caller,
        access: Access,
        output: &mut Output,
    ) -> Result<Effect, Rule>
        requires count { self.old.served < MAX_SERVED }
        requires empty { output.old ≡ [] }
        ensures step { IsStep {A = A} (access_event by access) self.old
            (Ok (access_reply result output.new)) self.new }
        ensures effect { (f : Flat) → IsFlat self.old f
            → Tells (effect_in result) f (step {A = A} f (access_event by access)).0 }
    {
        match dispatch_access(&mut self.tree, by, access, output) {
            Ok(effect) => {
                self.served += 1;
                Ok(effect)
            }
            Err(rule) => Err(rule),
        }
    }
}

impl<A: Allocator> Machine<A> {
    /// Returns the number of served events. Every machine stands for a lawful flat state.
    pub fn served(&self) -> u64
        ensures count { result ≡ self.now.served }
        ensures lasting { MachineInvariant self.now }
    {
        self.served
    }

    /// Returns the id that the next partition gets.
    pub fn next_id(&self) -> u64
        ensures { result ≡ self.now.next }
    {
        self.next
    }

    /// Returns the tree of partitions.
    ///
    /// In contracts, a machine's rows are this tree without the room of its page sets, processors and tables.
    pub fn tree(&self) -> &Partitions<A>
        ensures { roomless result.now ≡ self.now.rows }
    {
        &self.tree
    }
}
