// The aim of a port.

/// The virtual processor of its partition that a port delivers to (TLFS 4.0, "Inter-Partition Communication",
/// the TargetVp of HvCreatePort).
#[derive(Clone, Copy, PartialEq, Eq, Debug)]
pub enum Aim {
    /// The processor with this index, from 0 to 0xFFFFFFFE. If it is deleted and created again, the port
    /// delivers to it again.
    One(u32),
    /// Any processor: a TargetVp of 0xFFFFFFFF. Each message and each event flag goes to the processor with
    /// the lowest index among those that are ready for it at that event. This choice is this project's own.
    Any,
}
