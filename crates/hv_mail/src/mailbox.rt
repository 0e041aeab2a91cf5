// The messages of one processor: a queue for each SINT, created with the room for the first message, and the
// number of messages of each port.
ghost use Rattle.std.specs.Prelude.{◌≡◌, ◌+◌, ◌<◌, ◌≤◌, ◌==◌, ◌&&◌, ℕ, true, false, IfOk, IfSome, IsOk};
ghost use Rattle.std.specs.Prelude.{OnOk, is_some, length, nat_lt, option_map};
ghost use Rattle.std.specs.Int.{bit_at};
ghost use Rattle.std.specs.List.{list_all};
ghost use Rattle.std.specs.FinMap as map;
ghost use Rattle.hv_defs.specs.declared.sizes.TheConstants.{SINTS};
ghost use Rattle.hv_mail.specs.Mail.{no_messages, with_next, has_next, with_last, posted, cleared};
ghost use Rattle.hv_mail.specs.Mail.{all_next, count_of, count_shown, at, with_at};
ghost use Rattle.hv_mail.specs.Queue.{are_ready, mail_from};
ghost use Rattle.hv_mail.specs.Slot.{slot_bytes};
ghost use Rattle.hv_mail.specs.Tally.{has_room, kept_in};

use crate::message::Message;
use crate::sint_queue::SintQueue;
use crate::tally::Tally;
use arrayvec::ArrayVec;
use hv_defs::SINTS;
use std::alloc::{AllocError, Allocator};
use std::marker::Model;

/// The messages at the 16 SINTs of a virtual processor, in memory of an allocator `A`.
///
/// Each SINT shows at most one message, and the others wait. A mailbox takes no memory before the first
/// message. Dropping a mailbox gives its memory back.
#[derive(Drop)]
pub struct Mailbox<A: Allocator> {
    queues: Vec<SintQueue<A>, A>,
    // The number of messages of each port in all queues.
    tally: Tally<A>,
    // Memory for the next message, wherever it goes.
    spare: Option<Box<Message, A>>,
    // If set, each queue is known to have room, and need not be checked.
    roomy: bool,
    // Bit n is 1 where SINT n may have a message. No other SINT has one.
    busy: u16,
}

impl<A: Allocator> Model for Mailbox<A> {
    ghost use Rattle.hv_mail.specs.Mail.{MailboxState, mailbox_code};
    ghost use Rattle.hv_mail.specs.Queue.{mail_from, is_roomy, AreQueues};

    ghost Value = { MailboxState };

    ghost coded = { mailbox_code };

    ghost view = { λ m. record {
      mail = mail_from 0 m.queues.items;
      room = is_roomy m.queues.items m.spare m.tally.spare m.tally.kept;
    } };

    ghost invariant = { λ m. AreQueues m.queues.items m.tally.tree m.roomy m.busy };
}

impl<A: Allocator> Mailbox<A> {
    /// Creates a mailbox without messages, and without memory for any.
    pub fn new(alloc: A) -> Mailbox<A>
        ensures { result ≡ no_messages }
    {
        Mailbox {
            queues: Vec::new(alloc),
            tally: Tally::new(),
            spare: None,
            roomy: false,
            busy: 0,
        }
    }

    /// Returns `true` if there is room for one more message at each SINT.
    pub fn has_room(&self) -> bool
        ensures { result ≡ self.now.room }
    {
        (self.roomy || are_ready(&self.queues)) && self.spare.is_some() && self.tally.has_room()
    }

    /// Makes room for one more message at each SINT. Existing room always suffices.
    ///
    /// Returns `Err` if there is no memory for it, or if there are 2^63 messages. No message is lost then
    /// either.
    pub fn reserve_one(&mut self) -> Result<(), AllocError>
    where
        A: Clone,
        ensures room { OnOk result (self.new.room ≡ true) }
        ensures enough { self.old.room ≡ true → IsOk result }
        ensures mail { self.new.mail ≡ self.old.mail }
        ensures kept { self.old.room ≡ true → self.new.room ≡ true }
    {
        if !self.roomy && !are_ready(&self.queues) {
            if self.queues.is_empty() {
                self.queues = quiet_queues(self.queues.allocator().clone()?)?;
            } else {
                reserve_each(&mut self.queues)?;
            }
        }
        self.roomy = true;
        if self.spare.is_none() {
            self.spare = Some(blank(self.queues.allocator().clone()?)?);
        }
        self.tally.reserve_one(self.queues.allocator())
    }

    /// Adds a message behind all others at a SINT below 16. Returns `true` if a message became shown.
    ///
    /// If the SINT shows no message, it shows the oldest. There must be room for the message.
    pub fn post(&mut self, sint: u8, message: Message) -> bool
        requires sint { sint < SINTS }
        requires room { self.old.room ≡ true }
        ensures mail { self.new.mail ≡ with_at self.old.mail sint (posted (at self.old.mail sint) message) }
        ensures shown { result ≡ has_next (with_last (at self.old.mail sint) message) }
    {
        let Some(mut held) = self.spare.take() else {
            unreachable!()
        };
        self.tally.add(message.port, message.born);
        *held = message;
        let queue = &mut self.queues[usize::from(sint)];
        let shown = queue.post(held);
        self.roomy = queue.has_room();
        self.busy |= 1 << sint;
        shown
    }

    /// The 256 bytes of the message slot of a SINT below 16, or zeros if it shows no message.
    ///
    /// In order: the type in 4 bytes, the payload's size, a byte that is 1 if another message waits and 0
    /// otherwise, two zeros, the port's id in 8 bytes, and the payload with zeros after it. Numbers are
    /// little-endian.
    pub fn slot(&self, sint: u8) -> [u8; 256]
        requires { sint < SINTS }
        ensures { result ≡ slot_bytes (at self.now.mail sint) }
    {
        let at = usize::from(sint);
        if at < self.queues.len() {
            self.queues[at].slot()
        } else {
            [0; 256]
        }
    }

    /// The id of the port of the message that a SINT below 16 shows, if it shows one.
    pub fn shown(&self, sint: u8) -> Option<u32>
        requires { sint < SINTS }
        ensures { result ≡ option_map (λ message. message.port) (at self.now.mail sint).slot }
    {
        let at = usize::from(sint);
        if at < self.queues.len() {
            self.queues[at].shown()
        } else {
            None
        }
    }

    /// Removes the message that a SINT below 16 shows, if any. No other message takes its place.
    pub fn clear(&mut self, sint: u8)
        requires { sint < SINTS }
        ensures mail { self.new.mail ≡ with_at self.old.mail sint (cleared (at self.old.mail sint)) }
        ensures kept { self.old.room ≡ true → self.new.room ≡ true }
    {
        let at = usize::from(sint);
        if at < self.queues.len() {
            let queue = &mut self.queues[at];
            forget(&mut self.tally, &mut self.spare, queue.clear());
            if !queue.is_pending() {
                self.busy &= !(1 << sint);
            }
        }
    }

    /// Shows the oldest waiting message at each SINT that shows none.
    ///
    /// Bit n of the result is 1 if a message became shown at SINT n.
    pub fn advance_all(&mut self) -> u16
        ensures mail { self.new.mail ≡ all_next SINTS self.old.mail }
        ensures shown { (sint : ℕ) → sint < SINTS → (bit_at result sint == 1) ≡ has_next
            (at self.old.mail sint) }
        ensures kept { self.old.room ≡ true → self.new.room ≡ true }
    {
        let mut shown = 0;
        for sint in 0..SINTS as u8 {
            if !self.is_busy_from(sint) {
                return shown;
            }
            if self.advance(sint) {
                shown |= 1 << sint;
            }
        }
        shown
    }

    /// The SINTs at which a message waits and none is shown: where `advance_all` shows one.
    ///
    /// Bit n of the result is 1 if SINT n is one of them.
    pub fn due(&self) -> u16
        ensures { (sint : ℕ) → (bit_at result sint == 1)
            ≡ (nat_lt sint SINTS && has_next (at self.now.mail sint)) }
    {
        let mut due = 0;
        for sint in 0..SINTS as u8 {
            if !self.is_busy_from(sint) {
                return due;
            }
            if self.is_due(sint) {
                due |= 1 << sint;
            }
        }
        due
    }

    // Whether this SINT or a higher one may have a message.
    fn is_busy_from(&self, sint: u8) -> bool
        requires { sint < SINTS }
        ensures none { result ≡ false
            → (k : ℕ) → sint ≤ k → k < SINTS → has_next (at self.now.mail k) ≡ false }
        ensures stays { result ≡ false → (k : ℕ) → sint ≤ k → k < SINTS
            → with_at self.now.mail k (with_next (at self.now.mail k)) ≡ self.now.mail }
    {
        self.busy >> sint != 0
    }

    // Whether a message waits at a SINT and none is shown there.
    fn is_due(&self, sint: u8) -> bool
        requires { sint < SINTS }
        ensures { result ≡ has_next (at self.now.mail sint) }
    {
        // Most SINTs have none.
        if self.busy >> sint & 1 == 0 {
            return false;
        }
        let at = usize::from(sint);
        at < self.queues.len() && self.queues[at].is_due()
    }

    // Shows the oldest waiting message at a SINT, if one waits and none is shown. Returns `true` if one
    // became shown.
    fn advance(&mut self, sint: u8) -> bool
        requires { sint < SINTS }
        ensures mail { self.new.mail ≡ with_at self.old.mail sint (with_next (at self.old.mail sint)) }
        ensures shown { result ≡ has_next (at self.old.mail sint) }
        ensures kept { self.old.room ≡ true → self.new.room ≡ true }
    {
        // Most SINTs have none.
        if self.busy >> sint & 1 == 0 {
            return false;
        }
        let at = usize::from(sint);
        if at < self.queues.len() {
            let queue = &mut self.queues[at];
            queue.advance()
        } else {
            false
        }
    }

    /// The number of messages, shown or waiting, that came through this port of this birth.
    ///
    /// It takes at most 96 steps, however many messages there are.
    pub fn of_port(&self, port: u32, born: u64) -> usize
        ensures { result ≡ count_of port born self.now.mail }
    {
        self.tally.count(port, born)
    }
}

// Uncounts a message that went, and keeps its memory for the next one.
fn forget<A: Allocator>(
    tally: &mut Tally<A>,
    spare: &mut Option<Box<Message, A>>,
    gone: Option<Box<Message, A>>,
)
    requires { IfSome gone (λ m. 0 < kept_in tally.old.tree m.value.port m.value.born) }
    ensures counts { (p b : ℕ) → kept_in tally.old.tree p b ≡ kept_in tally.new.tree p b
        + count_shown p b (option_map (λ m. m.value) gone) }
    ensures room { has_room tally.old.spare tally.old.kept ≡ true
        → has_room tally.new.spare tally.new.kept ≡ true }
    ensures kept { is_some spare.old ≡ true → is_some spare.new ≡ true }
{
    if let Some(message) = gone {
        tally.remove(message.port, message.born);
        *spare = Some(message);
    }
}

// Memory for a message.
fn blank<A: Allocator>(alloc: A) -> Result<Box<Message, A>, AllocError> {
    let message = Message {
        port: 0,
        born: 0,
        kind: 0,
        payload: ArrayVec::new(),
    };
    match Box::new(alloc, message) {
        Ok(held) => Ok(held),
        Err(_) => Err(AllocError),
    }
}

// Whether there are queues, each with room.
fn are_ready<A: Allocator>(queues: &[SintQueue<A>]) -> bool
    ensures { result ≡ are_ready queues.now }
{
    !queues.is_empty() && are_roomy(queues)
}

// Whether each queue has room.
fn are_roomy<A: Allocator>(queues: &[SintQueue<A>]) -> bool
    ensures { result ≡ list_all (λ q. q.room) queues.now }
{
    queues.iter().all(|queue| queue.has_room())
}

// Creates a queue for each SINT, without messages and with room for one.
fn quiet_queues<A: Allocator + Clone>(alloc: A) -> Result<Vec<SintQueue<A>, A>, AllocError>
    ensures count { IfOk result (λ queues. length queues.items ≡ SINTS) }
    ensures quiet { IfOk result (λ queues. mail_from 0 queues.items ≡ map.empty) }
    ensures room { IfOk result (λ queues. list_all (λ q. q.room) queues.items ≡ true) }
{
    let mut queues = Vec::new(alloc.clone()?);
    for _ in 0..SINTS {
        queues.push(SintQueue::new(alloc.clone()?)?)?;
    }
    Ok(queues)
}

// Makes room in each queue.
fn reserve_each<A: Allocator>(queues: &mut [SintQueue<A>]) -> Result<(), AllocError>
    ensures ok { OnOk result (list_all (λ q. q.room) queues.new ≡ true) }
    ensures mail { mail_from 0 queues.new ≡ mail_from 0 queues.old }
    ensures count { length queues.new ≡ length queues.old }
{
    for i in 0..queues.len() {
        let queue = &mut queues[i];
        queue.reserve_one()?;
    }
    Ok(())
}
