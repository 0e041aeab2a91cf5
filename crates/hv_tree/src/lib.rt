//! An owned tree of boxes whose nodes have ids, for any content and any allocator.
//!
//! Contracts see a tree as its rows: a finite map from each id to its parent, if it has one, and its content.
//! Only the root's row has no parent. Every other row's parent has a row (`IsTree`).
//!
//! - A change affects one row: an inserted child, a removed leaf, or a content written through `get_mut`.
//! - Only `update_subtree` changes more: the contents of a node and of all nodes below it, each by an `Edit`.
//! - A refusal names its first cause, hands back what it was given, and leaves the rows as they were.
//! - Look-ups, `get_mut`, `update_subtree` and `remove_leaf` take no memory.
//!
//! Beside the boxes, an index maps each id to its parent's. A look-up climbs the index from the requested id
//! to the root, and keeps the ids that it meets. It comes down along them: at each node a binary search finds
//! the next child. For a `&mut` to a node deeper than 7 it climbs again on the way down.
//!
//! `specs/Rows.antt` and `specs/Subtree.antt` define the words of the contracts. `proofs/Laws.antt`,
//! `proofs/ChildLaws.antt` and `proofs/SubtreeLaws.antt` state what a caller's proof may need of them.
#![tactic(auto)]

mod change;
mod descent;
mod edit;
mod index;
mod look_up;
mod node;
mod path;
mod refused;
mod relative;
mod tree;

pub use edit::Edit;
pub use refused::{InsertRefused, ReserveRefused};
pub use relative::Relative;
pub use tree::IdTree;
