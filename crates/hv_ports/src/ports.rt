// Ports and connections, and their tables.
use crate::table::Table;
use hv_defs::{Aim, PortKind};

/// A port: where the messages or event flags of another partition arrive (TLFS 4.0, "Inter-Partition
/// Communication").
#[derive(Clone, Copy, PartialEq, Eq, Debug)]
pub struct Port {
    /// What it takes.
    pub kind: PortKind,
    /// The id of the partition that may connect to it.
    pub peer: u64,
    /// The SINT that it aims at, below 16.
    pub sint: u32,
    /// The processor that it aims at, or any.
    pub vp: Aim,
    /// The first flag of an event port, and 0 for a message port.
    pub base: u16,
    /// The number of flags of an event port, and 0 for a message port.
    pub count: u16,
    /// The count of served events at its creation, that event included. It tells a port from an earlier one
    /// with the same id.
    pub born: u64,
}

/// A connection: a partition's way to a port (TLFS 4.0, "Inter-Partition Communication").
#[derive(Clone, Copy, PartialEq, Eq, Debug)]
pub struct Conn {
    /// The id of the partition that has the port.
    pub part: u64,
    /// The port's id there.
    pub port: u32,
    /// What the port took when the connection was made. It is kept, and no rule reads it.
    pub kind: PortKind,
    /// The port's `born` when the connection was made.
    pub born: u64,
}

/// The ports of a partition, by their ids.
pub type PortTable<A> = Table<Port, A>;

/// The connections of a partition, by their ids.
pub type ConnTable<A> = Table<Conn, A>;
