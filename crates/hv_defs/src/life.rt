// The life of a partition.

/// The life state of a partition (TLFS 4.0, "Partition Management": the states that
/// HvInitializePartition and HvFinalizePartition lead to).
///
/// A partition that isn't `Active` has no children, virtual processors, ports or connections.
#[derive(Clone, Copy, PartialEq, Eq, Debug)]
pub enum Life {
    /// Created, and not yet initialized: its properties may be set.
    Created,
    /// Initialized: it may have virtual processors, ports, connections and children.
    Active,
    /// Finalized: its pages may be taken back, and then it may be deleted.
    Finalized,
}
