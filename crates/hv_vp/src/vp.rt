// The virtual processor, and its registers.
ghost use Rattle.std.specs.Prelude.{◌≡◌, IfOk, OnErr};
ghost use Rattle.hv_defs.specs.Registers.{is_on, kept, name_of_msr, row_of, takes_flags, takes_messages};
ghost use Rattle.hv_vp.specs.Registers.{answer, kept_msr, read_of, read_of_msr};
ghost use Rattle.hv_vp.specs.Vp.{new_vp, written, written_msr};
ghost use Rattle.hv_vp.specs.Vps.{is_ready};

use crate::registers::Registers;
use crate::table::name_of_msr;
use hv_defs::{EOM, PortKind, RegFault, SCONTROL, SIEFP, SIMP};
use hv_mail::{Flags, Mailbox, Pending};
use std::alloc::{AllocError, Allocator};
use std::marker::Model;

/// A virtual processor: its registers, the messages and event flags at its 16 SINTs, and its pending
/// interrupt vectors (TLFS 4.0, "Virtual Processor Management" and "Synthetic Interrupt Controller").
///
/// Creating it takes 4 KB of its allocator for the event flags. Reserving room for a message takes memory for
/// messages.
#[derive(Drop)]
pub struct Vp<A: Allocator> {
    pub(crate) registers: Registers,
    pub(crate) mailbox: Mailbox<A>,
    // Their 4 KB are boxed, so that a processor is cheap to move.
    pub(crate) flags: Box<Flags, A>,
    pub(crate) pending: Pending,
    // Whether room for a message is reserved. If it is, the mailbox has it.
    pub(crate) room: bool,
}

impl<A: Allocator> Model for Vp<A> {
    ghost use Rattle.std.specs.Prelude.{◌≡◌, true};
    ghost use Rattle.hv_vp.specs.Vp.{VpState, vp_code};

    ghost Value = { VpState };

    ghost coded = { vp_code };

    ghost view = { λ v. record {
      registers = v.registers;
      mail = v.mailbox.mail;
      flags = v.flags.value;
      pending = v.pending;
      room = v.room;
    } };

    ghost invariant = { λ v. v.room ≡ true → v.mailbox.room ≡ true };
}

impl<A: Allocator> Vp<A> {
    /// Creates a processor with this index, or fails when out of memory for its event flags.
    pub fn new(alloc: A, index: u32) -> Result<Vp<A>, AllocError>
    where
        A: Clone,
        ensures { IfOk result (λ vp. vp ≡ new_vp index) }
    {
        let flags = Box::new(alloc.clone()?, Flags::new())?;
        Ok(Vp {
            registers: Registers::new(index),
            mailbox: Mailbox::new(alloc),
            flags,
            pending: Pending::new(),
            room: false,
        })
    }

    /// The value of the register with this name, HV_REGISTER_NAME.
    pub fn read_reg(&self, name: u32) -> Result<u64, RegFault>
        ensures { result ≡ read_of self.now.registers name }
    {
        self.registers.read(name).ok_or(RegFault::Unknown)
    }

    /// Writes the register with this name. A fault changes nothing.
    ///
    /// A write of EOM ends a message. If the processor takes messages, each SINT from 0 to 15 that shows none
    /// then shows its oldest waiting message, and raises its vector if one became shown (TLFS 4.0, "Synthetic
    /// Interrupt Controller").
    pub fn write_reg(&mut self, name: u32, value: u64) -> Result<(), RegFault>
        ensures answer { result ≡ answer (kept (row_of name) value) }
        ensures state { self.new ≡ written name value self.old }
        ensures unchanged { OnErr result (self.new ≡ self.old) }
    {
        self.registers.write(name, value)?;
        if name == EOM {
            self.end_message();
        }
        Ok(())
    }

    /// The value of the model-specific register with this number.
    pub fn read_msr(&self, msr: u32) -> Result<u64, RegFault>
        ensures { result ≡ read_of_msr self.now.registers (name_of_msr msr) }
    {
        match name_of_msr(msr) {
            Some(name) => self.read_reg(name),
            None => Err(RegFault::Unknown),
        }
    }

    /// Writes the model-specific register with this number, by the rules of [`Vp::write_reg`]. A fault
    /// changes nothing.
    pub fn write_msr(&mut self, msr: u32, value: u64) -> Result<(), RegFault>
        ensures answer { result ≡ answer (kept_msr (name_of_msr msr) value) }
        ensures state { self.new ≡ written_msr (name_of_msr msr) value self.old }
        ensures unchanged { OnErr result (self.new ≡ self.old) }
    {
        match name_of_msr(msr) {
            Some(name) => self.write_reg(name, value),
            None => Err(RegFault::Unknown),
        }
    }

    /// Whether it takes messages: its synthetic interrupt controller and its message page are on.
    pub fn ready_for_messages(&self) -> bool
        ensures { result ≡ takes_messages self.now.registers }
    {
        self.is_on(SCONTROL) && self.is_on(SIMP)
    }

    /// Whether it takes event flags: its synthetic interrupt controller and its page of event flags are on.
    pub fn ready_for_flags(&self) -> bool
        ensures { result ≡ takes_flags self.now.registers }
    {
        self.is_on(SCONTROL) && self.is_on(SIEFP)
    }

    /// Whether it is ready for what a port of this kind takes.
    pub fn is_ready(&self, kind: PortKind) -> bool
        ensures { result ≡ is_ready kind self.now }
    {
        match kind {
            PortKind::Message => self.ready_for_messages(),
            PortKind::Event => self.ready_for_flags(),
        }
    }

    // Whether bit 0 of a register is set.
    fn is_on(&self, name: u32) -> bool
        ensures { result ≡ is_on self.now.registers name }
    {
        match self.registers.read(name) {
            Some(value) => value & 1 == 1,
            None => false,
        }
    }
}
