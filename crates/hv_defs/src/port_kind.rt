// What a port takes.

/// What a port takes (TLFS 4.0, "Inter-Partition Communication").
/// The discriminant is its PortType in a block. Monitor and doorbell ports are left out.
#[derive(Clone, Copy, PartialEq, Eq, Debug)]
pub enum PortKind {
    /// Messages, which wait for a SINT's message slot.
    Message = 1,
    /// Event flags, which are bits of a SINT's event flags.
    Event = 2,
}
