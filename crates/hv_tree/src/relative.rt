//! How one node stands to another.

/// How a node stands to another one.
#[derive(Clone, Copy)]
pub enum Relative<'t, T> {
    /// It is that node.
    Itself,
    /// It is a child of that node, with this content and this number of children.
    Child(&'t T, u32),
    /// It is neither.
    Other,
    /// No node has its id.
    Absent,
}
