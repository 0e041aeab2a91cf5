// The packed form of events and of their replies.
ghost use Rattle.std.specs.Prelude.{vec_len};
ghost use Rattle.hv_history.specs.Row.{ArePlaced};

use hv_machine::{Answer, Event};
use std::alloc::Allocator;

// The most bytes of an event's output: those of a message slot.
pub(crate) const MOST_OUTPUT: usize = 256;

// An event with its reply, without what it shares with other events.
#[derive(Clone, Copy)]
pub(crate) struct Row {
    // RCX of a call, else 0.
    pub(crate) rcx: u64,
    // The place of its head.
    pub(crate) head: usize,
    // Where its output starts among those of all events.
    pub(crate) output: usize,
    pub(crate) output_len: u16,
    pub(crate) answer: Answer,
}

/// Events with their replies, in the order in which they happened.
///
/// An event that differs from the one before it in RCX alone takes no memory for its input. The elements of a
/// rep call are such events.
#[derive(Drop)]
pub struct History<A: Allocator> {
    pub(crate) rows: Vec<Row, A>,
    // The events that the rows name, each as it came first. No row uses the RCX of its head.
    pub(crate) heads: Vec<Event<A>, A>,
    // The outputs of the events, one after another.
    pub(crate) outputs: Vec<u8, A>,
    ghost placed: { ArePlaced (vec_len heads) (vec_len outputs) rows.items },
}
