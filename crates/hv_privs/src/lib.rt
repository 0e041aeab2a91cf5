//! A partition's privileges: the mask of 64 bits that says what the partition may ask of the hypervisor.
//!
//! The bits and their names are those of HV_PARTITION_PRIVILEGE_MASK (TLFS 4.0, "Partition Privilege Flags",
//! in the chapter on partition properties). This crate does not say which hypercall or register needs which
//! privilege.
//!
//! Every function takes every mask, and keeps the bits that have no name. A comparison or an intersection is
//! specified twice: as a test or a mask that computes, and bit by bit.
#![tactic(auto)]

ghost use Rattle.std.specs.Prelude.{⊤, ℕ, ◌≡◌, ◌↔◌, IsTrue, [], ◌∷◌, codes};

use bitflags::{Flag, Flags, bitflag_items};

/// A set of privileges. Only the named bits grant a right; a mask keeps the others unchanged.
#[derive(Clone, Copy, PartialEq, Eq, Debug)]
pub struct Privileges(u64);

bitflag_items! {
    impl Privileges: u64 {
        const ACCESS_SYNIC_REGS = 1 << 2;
        const ACCESS_VP_INDEX = 1 << 6;
        const CREATE_PARTITIONS = 1 << 32;
        const ACCESS_PARTITION_ID = 1 << 33;
        const ACCESS_MEMORY_POOL = 1 << 34;
        const POST_MESSAGES = 1 << 36;
        const SIGNAL_EVENTS = 1 << 37;
        const CREATE_PORT = 1 << 38;
        const CONNECT_PORT = 1 << 39;
    }
}

impl Privileges {
    /// The most privileges that a new partition can have of its creator's.
    ///
    /// They are enough to use its own processors, to post messages and to signal events, and no more. This
    /// choice is this project's own.
    pub const NEW_PARTITION: Privileges = Privileges(
        Self::ACCESS_SYNIC_REGS.0
            | Self::ACCESS_VP_INDEX.0
            | Self::POST_MESSAGES.0
            | Self::SIGNAL_EVENTS.0,
    );
}

// The number of this mask in scripts and tables.
const _: () = prove!(Privileges::NEW_PARTITION.0 == 0x0000_0030_0000_0044);

impl Privileges {
    ghost use Rattle.hv_privs.specs.Privileges.{bits_of, of, HasBit, IsSubset, contains, restrict};

    /// Returns the mask with exactly these bits, named or not.
    pub fn of(bits: u64) -> Privileges
        ensures { result ≡ of bits }
    {
        Privileges::from_bits_retain(bits)
    }

    /// Returns the mask as the 64 bits of a property or a register.
    pub fn bits(self) -> u64
        ensures { result ≡ bits_of self }
    {
        Flags::bits(&self)
    }

    /// Returns whether every bit of `other` is also set in this mask.
    pub fn contains(self, other: Privileges) -> bool
        ensures test { result ≡ contains self other }
        ensures bits { IsTrue result ↔ IsSubset other self }
    {
        Flags::contains(&self, other)
    }

    /// Returns whether every bit of this mask is also set in `other`.
    pub fn is_within(self, other: Privileges) -> bool
        ensures test { result ≡ contains other self }
        ensures bits { IsTrue result ↔ IsSubset self other }
    {
        other.contains(self)
    }

    /// Returns the bits that are set both in this mask and in `to`.
    pub fn restrict(self, to: Privileges) -> Privileges
        ensures mask { result ≡ restrict self to }
        ensures bits { (k : ℕ) → HasBit result k ↔ (HasBit self k × HasBit to k) }
    {
        self.intersection(to)
    }
}

impl Flags for Privileges {
    ghost use Rattle.hv_privs.specs.Privileges.{bits_of};
    ghost use Rattle.hv_privs.specs.declared.TheConstants.Privileges as privilege;

    type Bits = u64;

    ghost exact = { ⊤ };

    ghost table = { (codes "ACCESS_SYNIC_REGS", bits_of privilege.ACCESS_SYNIC_REGS)
        ∷ (codes "ACCESS_VP_INDEX", bits_of privilege.ACCESS_VP_INDEX)
        ∷ (codes "CREATE_PARTITIONS", bits_of privilege.CREATE_PARTITIONS)
        ∷ (codes "ACCESS_PARTITION_ID", bits_of privilege.ACCESS_PARTITION_ID)
        ∷ (codes "ACCESS_MEMORY_POOL", bits_of privilege.ACCESS_MEMORY_POOL)
        ∷ (codes "POST_MESSAGES", bits_of privilege.POST_MESSAGES)
        ∷ (codes "SIGNAL_EVENTS", bits_of privilege.SIGNAL_EVENTS)
        ∷ (codes "CREATE_PORT", bits_of privilege.CREATE_PORT)
        ∷ (codes "CONNECT_PORT", bits_of privilege.CONNECT_PORT)
        ∷ [] };

    ghost set_of = { bits_of };

    fn flags<'a>() -> &'a [Flag<Privileges>] {
        Privileges::FLAGS
    }

    fn bits(&self) -> u64 {
        self.0
    }

    fn from_bits_retain(bits: u64) -> Privileges {
        Privileges(bits)
    }
}
