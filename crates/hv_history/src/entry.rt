// An event with its reply, as contracts and callers see it.
ghost use Rattle.std.specs.Prelude.{◌≡◌, ◌↔◌, IsTrue};
ghost use Rattle.hv_policy.specs.Parts.{reply_of};

use hv_machine::{Action, Answer, Caller, Event, Reply};
use std::alloc::Allocator;

/// An event with its reply, as contracts see it.
#[derive(Drop)]
pub struct Entry<A: Allocator> {
    pub event: Event<A>,
    pub reply: Reply,
}

/// The request of an event, without the bytes of a call's input list.
#[derive(Clone, Copy, PartialEq, Eq, Debug)]
pub enum Request {
    /// A simple hypercall, or the element of a rep hypercall at its start index: the registers of its frame.
    Hypercall { rcx: u64, rdx: u64, r8: u64 },
    /// A read of a model-specific register.
    ReadMsr(u32),
    /// A write of a value to a model-specific register.
    WriteMsr(u32, u64),
    /// A read of the message slot of a SINT.
    ReadSlot(u8),
    /// The removal of the message that a SINT shows.
    ClearSlot(u8),
    /// A read of the event flags of a SINT.
    ReadFlags(u8),
    /// The clearing of an event flag: the SINT, then the flag's number.
    ClearFlag(u8, u16),
    /// The taking of the highest pending interrupt vector.
    TakeInterrupt,
}

impl Request {
    ghost use Rattle.hv_history.specs.Row.{action_of, with_rcx};

    // Returns an action's request, with this RCX if it is a call, and the bytes of its input list. An access
    // has none.
    pub(crate) fn of<A: Allocator>(what: &Action<A>, rcx: u64) -> (Request, &[u8])
        ensures { action_of result.0 result.1.now ≡ with_rcx what.now rcx }
    {
        match what {
            Action::Hypercall(frame) => (
                Request::Hypercall {
                    rcx,
                    rdx: frame.rdx,
                    r8: frame.r8,
                },
                frame.input.as_slice(),
            ),
            Action::ReadMsr(msr) => (Request::ReadMsr(*msr), &[]),
            Action::WriteMsr(msr, value) => (Request::WriteMsr(*msr, *value), &[]),
            Action::ReadSlot(sint) => (Request::ReadSlot(*sint), &[]),
            Action::ClearSlot(sint) => (Request::ClearSlot(*sint), &[]),
            Action::ReadFlags(sint) => (Request::ReadFlags(*sint), &[]),
            Action::ClearFlag(sint, flag) => (Request::ClearFlag(*sint, *flag), &[]),
            Action::TakeInterrupt => (Request::TakeInterrupt, &[]),
        }
    }
}

/// An event with its reply, borrowed from a history.
#[derive(Clone, Copy)]
pub struct EntryRef<'h> {
    /// The processor that asked.
    pub by: Caller,
    pub asked: Request,
    /// The bytes of the input list of a call. An access has none.
    pub input: &'h [u8],
    pub answer: Answer,
    /// The output of the event, at most 256 bytes.
    pub output: &'h [u8],
}

// Whether two replies are equal. Only a served event has output.
pub(crate) fn are_equal_replies(
    answer: Answer,
    output: &[u8],
    other: Answer,
    other_output: &[u8],
) -> bool
    ensures { IsTrue result ↔ (reply_of answer output.now ≡ reply_of other other_output.now) }
{
    match (answer, other) {
        (Answer::Served, Answer::Served) => output == other_output,
        (Answer::More { next }, Answer::More { next: other_next }) => {
            next == other_next && output == other_output
        }
        (
            Answer::Denied { rule, status, reps },
            Answer::Denied {
                rule: other_rule,
                status: other_status,
                reps: other_reps,
            },
        ) => rule == other_rule && (status == other_status && reps == other_reps),
        (Answer::Fault { rule }, Answer::Fault { rule: that }) => rule == that,
        _ => false,
    }
}
