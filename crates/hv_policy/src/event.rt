// Events: who acts, and what it asks for.
ghost use Rattle.std.specs.Prelude.{◌≡◌, IfErr, IfOk};
ghost use Rattle.hv_policy.specs.Call.{action_of};
ghost use Rattle.hv_policy.specs.declared.event.Action.TheVariants.{Hypercall};

use hv_abi::Frame;
use std::alloc::{AllocError, Allocator};

/// The virtual processor that issues an event: its partition's id, and its index there.
///
/// A variable of this type is named `by`; one named `caller` is the id of the partition alone.
#[derive(Clone, Copy, PartialEq, Eq, Debug)]
pub struct Caller {
    pub part: u64,
    pub vp: u32,
}

/// What a virtual processor asks for.
#[derive(Drop)]
pub enum Action<A: Allocator> {
    /// One simple hypercall, or the element of a rep hypercall at its start index.
    Hypercall(Frame<A>),
    /// Reads a model-specific register of its own.
    ReadMsr(u32),
    /// Writes a value to a model-specific register of its own.
    WriteMsr(u32, u64),
    /// Reads the message slot of a SINT of its own.
    ReadSlot(u8),
    /// Removes the message that a SINT of its own shows. None is shown in its place.
    ClearSlot(u8),
    /// Reads the event flags of a SINT of its own.
    ReadFlags(u8),
    /// Clears an event flag of a SINT of its own: the SINT, then the flag's number.
    ClearFlag(u8, u16),
    /// Takes the highest pending interrupt vector.
    TakeInterrupt,
}

/// What a virtual processor does without a hypercall: any [`Action`] but the first.
#[derive(Clone, Copy, PartialEq, Eq, Debug)]
pub enum Access {
    ReadMsr(u32),
    WriteMsr(u32, u64),
    ReadSlot(u8),
    ClearSlot(u8),
    ReadFlags(u8),
    ClearFlag(u8, u16),
    TakeInterrupt,
}

/// One event: a simple hypercall, one element of a rep hypercall, or one access.
#[derive(Drop)]
pub struct Event<A: Allocator> {
    pub by: Caller,
    pub what: Action<A>,
}

impl<A: Allocator> Action<A> {
    /// Returns the access, or the frame of the hypercall as the error.
    pub fn as_access(&self) -> Result<Access, &Frame<A>>
        ensures access { IfOk result (λ access. action_of access ≡ self.now) }
        ensures call { IfErr result (λ frame. Hypercall frame.now ≡ self.now) }
    {
        match self {
            Action::Hypercall(frame) => Err(frame),
            Action::ReadMsr(msr) => Ok(Access::ReadMsr(*msr)),
            Action::WriteMsr(msr, value) => Ok(Access::WriteMsr(*msr, *value)),
            Action::ReadSlot(sint) => Ok(Access::ReadSlot(*sint)),
            Action::ClearSlot(sint) => Ok(Access::ClearSlot(*sint)),
            Action::ReadFlags(sint) => Ok(Access::ReadFlags(*sint)),
            Action::ClearFlag(sint, flag) => Ok(Access::ClearFlag(*sint, *flag)),
            Action::TakeInterrupt => Ok(Access::TakeInterrupt),
        }
    }
}

impl<A: Allocator + Clone> Action<A> {
    /// Copies the action, on the same allocator.
    pub fn copy(&self) -> Result<Action<A>, AllocError>
        ensures { IfOk result (λ a. a ≡ self.now) }
    {
        match self {
            Action::Hypercall(frame) => Ok(Action::Hypercall(frame.copy()?)),
            Action::ReadMsr(msr) => Ok(Action::ReadMsr(*msr)),
            Action::WriteMsr(msr, value) => Ok(Action::WriteMsr(*msr, *value)),
            Action::ReadSlot(sint) => Ok(Action::ReadSlot(*sint)),
            Action::ClearSlot(sint) => Ok(Action::ClearSlot(*sint)),
            Action::ReadFlags(sint) => Ok(Action::ReadFlags(*sint)),
            Action::ClearFlag(sint, flag) => Ok(Action::ClearFlag(*sint, *flag)),
            Action::TakeInterrupt => Ok(Action::TakeInterrupt),
        }
    }
}

impl<A: Allocator + Clone> Event<A> {
    /// Copies the event, on the same allocator.
    pub fn copy(&self) -> Result<Event<A>, AllocError>
        ensures { IfOk result (λ e. e ≡ self.now) }
    {
        let what = self.what.copy()?;
        Ok(Event { by: self.by, what })
    }
}
