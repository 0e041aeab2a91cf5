// Calls, copies of events, and room for entries in the history.

use crate::rationed::Heap;
use crate::trial::{Answer, Told, Trial, answer_of, attempt};
use hv_abi::{Bytes, Frame};
use hv_history::{History, Request};
use hv_policy::{Action, Answer as Reply, Caller, Event};
use std::alloc::AllocError;

pub(crate) const ROOT: Caller = Caller { part: 1, vp: 0 };

// A call with this input value and input.
pub(crate) fn frame<'h>(
    heap: &'h Heap,
    rcx: u64,
    input: &[u8],
) -> Result<Frame<&'h Heap>, AllocError> {
    let input = Bytes::from_vec(input.to_vec(heap)?);
    Ok(Frame {
        rcx,
        rdx: 0,
        r8: 0,
        input,
    })
}

// Such a call by a processor of the root.
pub(crate) fn call<'h>(
    heap: &'h Heap,
    rcx: u64,
    input: &[u8],
) -> Result<Event<&'h Heap>, AllocError> {
    let what = Action::Hypercall(frame(heap, rcx, input)?);
    Ok(Event { by: ROOT, what })
}

// The copy that is made of an event.
#[derive(Clone, Copy)]
pub(crate) enum Copied {
    Bytes,
    Frame,
    Action,
    Event,
}

// The event that is copied: a call that differs from others in everything that it has.
const BY: Caller = Caller { part: 2, vp: 3 };

const INPUT: [u8; 3] = [7, 8, 9];

fn event(heap: &Heap) -> Result<Event<&Heap>, AllocError> {
    let input = Bytes::from_vec(INPUT.to_vec(heap)?);
    let frame = Frame {
        rcx: 0x46,
        rdx: 0x10,
        r8: 0x20,
        input,
    };
    Ok(Event {
        by: BY,
        what: Action::Hypercall(frame),
    })
}

fn is_frame(frame: &Frame<&Heap>) -> bool {
    let registers = [frame.rcx, frame.rdx, frame.r8];
    registers == [0x46, 0x10, 0x20] && frame.input.as_slice() == INPUT.as_slice()
}

fn is_action(what: &Action<&Heap>) -> bool {
    match what {
        Action::Hypercall(frame) => is_frame(frame),
        _ => false,
    }
}

fn is_event(event: &Event<&Heap>) -> bool {
    event.by == BY && is_action(&event.what)
}

// A copy is served if it has the values of its original.
#[derive(Drop)]
struct Copies<'h> {
    event: Event<&'h Heap>,
    copied: Copied,
}

fn outcome(is_same: Result<bool, AllocError>) -> Answer {
    match is_same {
        Ok(true) => Answer::Served,
        Ok(false) => Answer::Wrong,
        Err(_) => Answer::Memory,
    }
}

fn copy_of(event: &Event<&Heap>, copied: Copied) -> Result<bool, AllocError> {
    let Action::Hypercall(frame) = &event.what else {
        return Ok(false);
    };
    match copied {
        Copied::Bytes => Ok(frame.input.copy()?.as_slice() == INPUT.as_slice()),
        Copied::Frame => Ok(is_frame(&frame.copy()?)),
        Copied::Action => Ok(is_action(&event.what.copy()?)),
        Copied::Event => Ok(is_event(&event.copy()?)),
    }
}

impl<'h> Trial for Copies<'h> {
    fn call(&mut self) -> Answer {
        outcome(copy_of(&self.event, self.copied))
    }

    fn is_before(&mut self) -> bool {
        is_event(&self.event)
    }

    fn is_after(&mut self) -> bool {
        is_event(&self.event)
    }
}

pub(crate) fn copy(heap: &Heap, copied: Copied, blocks: u64) -> Result<Told, AllocError> {
    let event = event(heap)?;
    Ok(attempt(heap, &mut Copies { event, copied }, blocks))
}

// One entry, and a request for room for a hundred more.
#[derive(Drop)]
struct Entries<'h> {
    history: History<&'h Heap>,
}

impl<'h> Trial for Entries<'h> {
    fn call(&mut self) -> Answer {
        answer_of(self.history.reserve(100))
    }

    fn is_before(&mut self) -> bool {
        if self.history.len() != 1 {
            return false;
        }
        let entry = self.history.entry(0);
        let asked = Request::Hypercall {
            rcx: 0x46,
            rdx: 0x10,
            r8: 0x20,
        };
        let is_asked = entry.by == BY && entry.asked == asked && entry.input == INPUT.as_slice();
        is_asked && entry.answer == Reply::Served && entry.output == [1, 0].as_slice()
    }

    fn is_after(&mut self) -> bool {
        self.is_before() && self.history.room() >= 100
    }
}

pub(crate) fn reserve(heap: &Heap, blocks: u64) -> Result<Told, AllocError> {
    let mut history = History::new(heap);
    history.reserve(1)?;
    history.push(event(heap)?, Reply::Served, &[1, 0]);
    Ok(attempt(heap, &mut Entries { history }, blocks))
}
