// The two kinds of pages that a partition has.

/// What a partition's pages are for.
#[derive(Clone, Copy, PartialEq, Eq, Debug)]
pub enum PageKind {
    /// The partition's own memory.
    Loose,
    /// The partition's pool, which pays for its children, processors, ports and connections.
    Pooled,
}
