// Messages, and processors at which they arrive.

use crate::rationed::Heap;
use crate::trial::{Answer, Told, Trial, answer_of, attempt};
use arrayvec::ArrayVec;
use hv_mail::{Mailbox, Message};
use hv_vp::Vp;
use std::alloc::AllocError;

// A message of port 5 of birth 10, with one byte.
fn message(byte: u8) -> Message {
    let mut payload = ArrayVec::new();
    payload.push(byte);
    Message {
        port: 5,
        born: 10,
        kind: 1,
        payload,
    }
}

fn are_zeros(bytes: &[u8]) -> bool {
    for byte in bytes {
        if *byte != 0 {
            return false;
        }
    }
    true
}

// Whether a slot shows the message with this byte, with `waits` as its flag for waiting messages.
fn shows(slot: &[u8; 256], byte: u8, waits: u8) -> bool {
    let head = [1, 0, 0, 0, 1, waits, 0, 0, 5, 0, 0, 0, 0, 0, 0, 0, byte];
    &slot[..17] == head.as_slice() && are_zeros(&slot[17..])
}

// No messages.
#[derive(Drop)]
struct Empty<'h> {
    mailbox: Mailbox<&'h Heap>,
}

impl<'h> Trial for Empty<'h> {
    fn call(&mut self) -> Answer {
        answer_of(self.mailbox.reserve_one())
    }

    fn is_before(&mut self) -> bool {
        let are_none = are_zeros(&self.mailbox.slot(2)) && self.mailbox.of_port(5, 10) == 0;
        are_none && !self.mailbox.has_room()
    }

    fn is_after(&mut self) -> bool {
        if !self.mailbox.has_room() || !self.mailbox.post(2, message(1)) {
            return false;
        }
        shows(&self.mailbox.slot(2), 1, 0) && self.mailbox.of_port(5, 10) == 1
    }
}

pub(crate) fn reserve(heap: &Heap, blocks: u64) -> Told {
    let mailbox = Mailbox::new(heap);
    attempt(heap, &mut Empty { mailbox }, blocks)
}

// Messages 2 and 3 fill the ring of SINT 2. In memory 3 comes before 2, in the place of message 1.
#[derive(Drop)]
struct Full<'h> {
    mailbox: Mailbox<&'h Heap>,
}

impl<'h> Trial for Full<'h> {
    fn call(&mut self) -> Answer {
        answer_of(self.mailbox.reserve_one())
    }

    fn is_before(&mut self) -> bool {
        let are_two = shows(&self.mailbox.slot(2), 2, 1) && self.mailbox.of_port(5, 10) == 2;
        are_two && !self.mailbox.has_room()
    }

    fn is_after(&mut self) -> bool {
        if !self.mailbox.has_room() || self.mailbox.post(2, message(4)) {
            return false;
        }
        let are_three = shows(&self.mailbox.slot(2), 2, 1) && self.mailbox.of_port(5, 10) == 3;
        are_three && show_next(&mut self.mailbox, 3, 1) && show_next(&mut self.mailbox, 4, 0)
    }
}

// Clears the shown message. Returns whether this one is shown then.
fn show_next(mailbox: &mut Mailbox<&Heap>, byte: u8, waits: u8) -> bool {
    mailbox.clear(2);
    mailbox.advance_all() == 1 << 2 && shows(&mailbox.slot(2), byte, waits)
}

fn post(mailbox: &mut Mailbox<&Heap>, byte: u8) -> Result<(), AllocError> {
    mailbox.reserve_one()?;
    mailbox.post(2, message(byte));
    Ok(())
}

pub(crate) fn reserve_third(heap: &Heap, blocks: u64) -> Result<Told, AllocError> {
    let mut mailbox = Mailbox::new(heap);
    post(&mut mailbox, 1)?;
    post(&mut mailbox, 2)?;
    mailbox.clear(2);
    post(&mut mailbox, 3)?;
    Ok(attempt(heap, &mut Full { mailbox }, blocks))
}

// No processor yet.
#[derive(Drop)]
struct Making<'h> {
    heap: &'h Heap,
    made: Option<Vp<&'h Heap>>,
}

impl<'h> Trial for Making<'h> {
    fn call(&mut self) -> Answer {
        match Vp::new(self.heap, 7) {
            Ok(vp) => {
                self.made = Some(vp);
                Answer::Served
            }
            Err(_) => Answer::Memory,
        }
    }

    fn is_before(&mut self) -> bool {
        self.made.is_none()
    }

    fn is_after(&mut self) -> bool {
        match &mut self.made {
            Some(vp) => is_new(vp),
            None => false,
        }
    }
}

// Whether a processor is new: its index, the controller's register and that of SINT 0, and nothing has
// arrived.
fn is_new(vp: &mut Vp<&Heap>) -> bool {
    let registers = [
        vp.read_msr(0x4000_0002),
        vp.read_msr(0x4000_0080),
        vp.read_msr(0x4000_0090),
    ];
    let are_none = are_zeros(&vp.slot(2)) && are_zeros(&vp.flags(3));
    registers == [Ok(7), Ok(0), Ok(0x1_0000)] && are_none && vp.take_interrupt() == None
}

pub(crate) fn make_processor(heap: &Heap, blocks: u64) -> Told {
    attempt(heap, &mut Making { heap, made: None }, blocks)
}

// A processor that takes messages, at SINT 2 with vector 0x30.
#[derive(Drop)]
struct Ready<'h> {
    heap: &'h Heap,
    vp: Vp<&'h Heap>,
}

impl<'h> Trial for Ready<'h> {
    fn call(&mut self) -> Answer {
        answer_of(self.vp.reserve_message())
    }

    fn is_before(&mut self) -> bool {
        let vp = &mut self.vp;
        let is_ready = vp.ready_for_messages() && vp.read_msr(0x4000_0092) == Ok(0x30);
        is_ready && are_zeros(&vp.slot(2)) && vp.take_interrupt() == None
    }

    fn is_after(&mut self) -> bool {
        // There is room even without a block.
        self.heap.ration(0);
        let has_room = self.vp.reserve_message().is_ok();
        self.heap.lift();
        has_room && arrives(&mut self.vp)
    }
}

// A message is shown and raises the vector of its SINT.
fn arrives(vp: &mut Vp<&Heap>) -> bool {
    if vp.reserve_message().is_err() {
        return false;
    }
    vp.post(2, message(1));
    let vectors = [vp.take_interrupt(), vp.take_interrupt()];
    shows(&vp.slot(2), 1, 0) && vectors == [Some(0x30), None]
}

pub(crate) fn reserve_message(heap: &Heap, blocks: u64) -> Result<Told, AllocError> {
    let mut vp = Vp::new(heap, 7)?;
    for (msr, value) in [(0x4000_0080, 1), (0x4000_0083, 1), (0x4000_0092, 0x30)] {
        if vp.write_msr(msr, value).is_err() {
            return Err(AllocError);
        }
    }
    Ok(attempt(heap, &mut Ready { heap, vp }, blocks))
}
