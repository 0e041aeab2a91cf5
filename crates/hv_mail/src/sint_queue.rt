// The queue of one SINT: a ring of messages, the first of which may be shown.
ghost use Rattle.std.specs.Prelude.{◌≡◌, true, IfOk, OnOk, option_map};
ghost use Rattle.hv_mail.specs.Mail.{no_mail, with_next, has_next, with_last, posted, cleared};
ghost use Rattle.hv_mail.specs.Slot.{is_some_of, slot_bytes};

use crate::message::Message;
use crate::slot::shown_slot;
use std::alloc::{AllocError, Allocator};
use std::collections::VecDeque;
use std::marker::Model;

#[derive(Drop)]
pub(crate) struct SintQueue<A: Allocator> {
    // The oldest is first.
    messages: VecDeque<Box<Message, A>, A>,
    // Whether there is a first message and it is shown. The others wait.
    is_shown: bool,
}

impl<A: Allocator> Model for SintQueue<A> {
    ghost use Rattle.std.specs.Prelude.{◌≡◌, ◌≤◌, nat_lt, true};
    ghost use Rattle.std.specs.VecDeque.{deque_capacity, deque_len};
    ghost use Rattle.hv_mail.specs.Queue.{QueueState, messages_of, queue_code, standing};

    ghost Value = { QueueState };

    ghost coded = { queue_code };

    ghost view = { λ q. record {
      mail = standing q.is_shown (messages_of q.messages.items);
      room = nat_lt (deque_len q.messages) (deque_capacity q.messages);
    } };

    ghost invariant = { λ q. q.is_shown ≡ true → 1 ≤ deque_len q.messages };
}

impl<A: Allocator> SintQueue<A> {
    // Creates an empty queue with room for one message.
    pub(crate) fn new(alloc: A) -> Result<SintQueue<A>, AllocError>
        ensures mail { IfOk result (λ q. q.mail ≡ no_mail) }
        ensures room { IfOk result (λ q. q.room ≡ true) }
    {
        Ok(SintQueue {
            messages: VecDeque::with_capacity(alloc, 1)?,
            is_shown: false,
        })
    }

    // Makes room for one more message.
    pub(crate) fn reserve_one(&mut self) -> Result<(), AllocError>
        ensures ok { OnOk result (self.new.room ≡ true) }
        ensures mail { self.new.mail ≡ self.old.mail }
    {
        self.messages.reserve(1)
    }

    pub(crate) fn has_room(&self) -> bool
        ensures { result ≡ self.now.room }
    {
        self.messages.len() < self.messages.capacity()
    }

    // Adds a message last, and then shows the next. Returns `true` if one became shown.
    pub(crate) fn post(&mut self, message: Box<Message, A>) -> bool
        requires { self.old.room ≡ true }
        ensures mail { self.new.mail ≡ posted self.old.mail message.value }
        ensures shown { result ≡ has_next (with_last self.old.mail message.value) }
    {
        self.messages.push_back_reserved(message);
        self.advance()
    }

    // Shows the oldest waiting message if none is shown. Returns `true` if one became shown.
    pub(crate) fn advance(&mut self) -> bool
        ensures mail { self.new.mail ≡ with_next self.old.mail }
        ensures shown { result ≡ has_next self.old.mail }
        ensures kept { self.old.room ≡ true → self.new.room ≡ true }
    {
        let due = self.is_due();
        if due {
            self.is_shown = true;
        }
        due
    }

    // Removes the shown message, and returns it.
    pub(crate) fn clear(&mut self) -> Option<Box<Message, A>>
        ensures removed { option_map (λ message. message.value) result ≡ self.old.mail.slot }
        ensures mail { self.new.mail ≡ cleared self.old.mail }
        ensures kept { self.old.room ≡ true → self.new.room ≡ true }
    {
        if !self.is_shown {
            return None;
        }
        self.is_shown = false;
        self.messages.pop_front()
    }

    // The id of the port of the shown message.
    pub(crate) fn shown(&self) -> Option<u32>
        ensures { result ≡ option_map (λ message. message.port) self.now.mail.slot }
    {
        match self.messages.front() {
            Some(message) if self.is_shown => Some(message.port),
            _ => None,
        }
    }

    // Whether a message waits and none is shown.
    pub(crate) fn is_due(&self) -> bool
        ensures { result ≡ has_next self.now.mail }
    {
        !self.is_shown && !self.messages.is_empty()
    }

    // Whether a message waits.
    pub(crate) fn is_pending(&self) -> bool
        ensures { result ≡ is_some_of self.now.mail.waiting }
    {
        self.messages.len() > usize::from(self.is_shown)
    }

    // The bytes of the slot.
    pub(crate) fn slot(&self) -> [u8; 256]
        ensures { result ≡ slot_bytes self.now.mail }
    {
        if !self.is_shown {
            return [0; 256];
        }
        let Some(message) = self.messages.front() else {
            unreachable!()
        };
        shown_slot(message, self.is_pending())
    }
}
