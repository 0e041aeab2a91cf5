// A processor's messages, event flags and pending vectors.
ghost use Rattle.std.specs.Prelude.{◌≡◌, ◌<◌, ◌==◌, ◌&&◌, ℕ, true, nat_lt, option_map, IsOk, OnOk, OnErr};
ghost use Rattle.std.specs.FinSet as set;
ghost use Rattle.std.specs.Int.{bit_at};
ghost use Rattle.hv_defs.specs.Flags.{flag_bytes};
ghost use Rattle.hv_defs.specs.Registers.{takes_messages};
ghost use Rattle.hv_defs.specs.Vectors.{highest, raised};
ghost use Rattle.hv_defs.specs.declared.sizes.TheConstants.{EVENT_FLAGS, SINTS};
ghost use Rattle.hv_mail.specs.Mail.{at, count_of, has_next, with_last};
ghost use Rattle.hv_mail.specs.Slot.{slot_bytes};
ghost use Rattle.hv_mail.specs.Words.{numbers_of};
ghost use Rattle.hv_vp.specs.Vp.{ended, flag_cleared, interrupted, posted, raised_if, signalled};
ghost use Rattle.hv_vp.specs.Vp.{slot_cleared};

use crate::Vp;
use crate::registers::Registers;
use hv_defs::{SINT0, SINTS};
use hv_mail::{Message, Pending};
use std::alloc::{AllocError, Allocator};

impl<A: Allocator> Vp<A> {
    /// Reserves room for one message, which the next `post` uses up.
    ///
    /// If room is reserved already, nothing changes. Returns `Err` if there is no memory for it, or if there
    /// are 2^63 messages. Nothing has changed then.
    pub fn reserve_message(&mut self) -> Result<(), AllocError>
    where
        A: Clone,
        ensures reserved { OnOk result (self.new ≡ record self.old { room = true }) }
        ensures unchanged { OnErr result (self.new ≡ self.old) }
        ensures enough { self.old.room ≡ true → IsOk result }
    {
        self.mailbox.reserve_one()?;
        self.room = true;
        Ok(())
    }

    /// Adds a message behind all others at a SINT below 16, and uses up the reserved room. Returns `true` if
    /// a message became shown.
    ///
    /// If the SINT shows no message, it shows the oldest and raises its vector (TLFS 4.0, "Messages").
    /// Whether the processor takes messages is not checked.
    pub fn post(&mut self, sint: u8, message: Message) -> bool
        requires sint { sint < SINTS }
        requires room { self.old.room ≡ true }
        ensures state { self.new ≡ posted sint message self.old }
        ensures shown { result ≡ has_next (with_last (at self.old.mail sint) message) }
    {
        self.room = false;
        let shown = self.mailbox.post(sint, message);
        if shown {
            self.raise(sint);
        }
        shown
    }

    /// Sets an event flag below 2,048 of a SINT below 16.
    ///
    /// If the flag was clear, the SINT raises its vector (TLFS 4.0, "Event Flags"). Whether the processor
    /// takes event flags is not checked.
    pub fn signal(&mut self, sint: u8, flag: u16)
        requires sint { sint < SINTS }
        requires flag { flag < EVENT_FLAGS }
        ensures { self.new ≡ signalled sint flag self.old }
    {
        if self.flags.set(sint, flag) {
            self.raise(sint);
        }
    }

    /// The 256 bytes of the message slot of a SINT below 16, or zeros if it shows no message (TLFS 4.0,
    /// "Messages").
    ///
    /// [`hv_mail::Mailbox::slot`] describes their layout.
    pub fn slot(&self, sint: u8) -> [u8; 256]
        requires { sint < SINTS }
        ensures { result ≡ slot_bytes (at self.now.mail sint) }
    {
        self.mailbox.slot(sint)
    }

    /// The 256 bytes of the event flags of a SINT below 16: flag f is bit f % 8 of byte f / 8 (TLFS
    /// 4.0, "Event Flags").
    pub fn flags(&self, sint: u8) -> [u8; 256]
        requires { sint < SINTS }
        ensures { result ≡ flag_bytes self.now.flags sint }
    {
        self.flags.read(sint)
    }

    /// The id of the port of the message that a SINT below 16 shows, if it shows one.
    pub fn shown(&self, sint: u8) -> Option<u32>
        requires { sint < SINTS }
        ensures { result ≡ option_map (λ message. message.port) (at self.now.mail sint).slot }
    {
        self.mailbox.shown(sint)
    }

    /// Whether an event flag below 2,048 of a SINT below 16 is set.
    pub fn has_flag(&self, sint: u8, flag: u16) -> bool
        requires sint { sint < SINTS }
        requires flag { flag < EVENT_FLAGS }
        ensures { result ≡ set.contains self.now.flags (sint, flag) }
    {
        self.flags.has_flag(sint, flag)
    }

    /// The SINTs at which an end of a message shows another one. Bit n of the result is 1 if SINT n is one of
    /// them.
    pub fn due(&self) -> u16
        ensures { (sint : ℕ) → (bit_at result sint == 1) ≡ (nat_lt sint SINTS
            && (takes_messages self.now.registers && has_next (at self.now.mail sint))) }
    {
        if !self.ready_for_messages() {
            return 0;
        }
        self.mailbox.due()
    }

    /// Adds the vector of a SINT below 16 to some vectors, unless the SINT's register masks it.
    pub fn add_vector(&self, sint: u8, vectors: &mut Pending)
        requires { sint < SINTS }
        ensures { vectors.new ≡ raised self.now.registers sint vectors.old }
    {
        add_vector(&self.registers, sint, vectors);
    }

    /// Removes the message that a SINT below 16 shows, if any. No other message takes its place.
    pub fn clear_slot(&mut self, sint: u8)
        requires { sint < SINTS }
        ensures { self.new ≡ slot_cleared sint self.old }
    {
        self.mailbox.clear(sint);
    }

    /// Clears an event flag below 2,048 of a SINT below 16.
    pub fn clear_flag(&mut self, sint: u8, flag: u16)
        requires sint { sint < SINTS }
        requires flag { flag < EVENT_FLAGS }
        ensures { self.new ≡ flag_cleared sint flag self.old }
    {
        self.flags.clear(sint, flag);
    }

    /// The pending vectors as bits: vector v is pending if bit v % 64 of word v / 64 is 1.
    pub fn pending(&self) -> [u64; 4]
        ensures { numbers_of result ≡ self.now.pending }
    {
        self.pending.words()
    }

    /// Removes and returns the highest pending vector, or returns `None` if none is pending.
    pub fn take_interrupt(&mut self) -> Option<u8>
        ensures vector { result ≡ highest self.old.pending }
        ensures state { self.new ≡ interrupted self.old }
    {
        self.pending.take_highest()
    }

    /// The number of its messages, shown or waiting, that came through this port of this birth.
    ///
    /// It takes at most 96 steps, however many messages there are.
    pub fn of_port(&self, port: u32, born: u64) -> usize
        ensures { result ≡ count_of port born self.now.mail }
    {
        self.mailbox.of_port(port, born)
    }

    // If the processor takes messages, shows the next message of each SINT. Each SINT at which one became
    // shown raises its vector, in SINT order.
    pub(crate) fn end_message(&mut self)
        ensures { self.new ≡ ended self.old }
    {
        if self.ready_for_messages() {
            let shown = self.mailbox.advance_all();
            for sint in 0..SINTS as u8 {
                // Most SINTs show no other one.
                if shown >> sint == 0 {
                    return;
                }
                if shown >> sint & 1 == 1 {
                    self.raise(sint);
                }
            }
        }
    }

    // Raises the vector of a SINT below 16, unless the SINT's register masks it.
    fn raise(&mut self, sint: u8)
        requires { sint < SINTS }
        ensures { self.new ≡ raised_if true sint self.old }
    {
        add_vector(&self.registers, sint, &mut self.pending);
    }
}

// Adds the vector in the register of a SINT below 16, unless the register masks it.
fn add_vector(registers: &Registers, sint: u8, vectors: &mut Pending)
    requires { sint < SINTS }
    ensures { vectors.new ≡ raised registers.now sint vectors.old }
{
    let Some(value) = registers.read(SINT0 + u32::from(sint)) else {
        return;
    };
    if value >> 16 & 1 == 0 {
        vectors.raise((value & 0xff) as u8);
    }
}
