//! The path from the root down to a node, found by one climb in the index of parents.
//!
//! No partition lies deeper than 7, so the ids on its path fit an array.
ghost use Rattle.std.specs.Prelude.{◌≡◌, ◌≤◌, ◌-◌, IfSome, IfNone, drop, true, false};
ghost use Rattle.hv_tree.specs.declared.index.TheConstants.{MOST};
ghost use Rattle.hv_tree.specs.declared.path.TheConstants.{NEAR};
ghost use Rattle.hv_tree.specs.Index.{parents, IsLaid};
ghost use Rattle.hv_tree.specs.Lines.{lines};
ghost use Rattle.hv_tree.specs.Nest.{has_row};
ghost use Rattle.hv_tree.specs.Way.{depth, line};

use crate::index::{Index, MOST, parent_in};
use crate::node::Branch;
use std::alloc::Allocator;

/// The most steps of a path whose ids are kept.
const NEAR: u64 = 7;

/// The path from the root down to a node.
#[derive(Drop)]
pub(crate) struct Path {
    /// The number of nodes above the node.
    pub(crate) steps: u64,
    // The ids on the way down, after the root's, fill the end of the array if they are few.
    ids: [u64; 7],
}

impl Path {
    /// The ids on the way down, after the root's, or `None` if they are more than 7.
    pub(crate) fn ids(&self) -> Option<&[u64]>
        ensures ids { IfSome result (λ ids. ids.now ≡ drop (NEAR - self.now.steps) self.now.ids) }
        ensures few { IfSome result (λ _. self.now.steps ≤ NEAR) }
    {
        if self.steps <= NEAR {
            Some(&self.ids[(NEAR - self.steps) as usize..])
        } else {
            None
        }
    }
}

/// The path to the node with the id.
pub(crate) fn climb<T, A: Allocator>(root: &Branch<T, A>, index: &Index<A>, id: u64) -> Option<Path>
    requires { IsLaid (lines root.now) (parents index.now) }
    ensures found { IfSome result (λ _. has_row id (lines root.now) ≡ true) }
    ensures steps { IfSome result (λ path. path.steps ≡ depth (parents index.now) MOST id) }
    ensures ids { IfSome result (λ path. path.steps ≤ NEAR
        → drop (NEAR - path.steps) path.ids ≡ line (parents index.now) path.steps id) }
    ensures none { IfNone result (has_row id (lines root.now) ≡ false) }
{
    let (mut at, mut ids) = (id, [0; 7]);
    for step in 0..MOST {
        if at == root.node.id {
            return Some(Path { steps: step, ids });
        }
        let parent = parent_in(index, at)?;
        if step < NEAR {
            ids[(NEAR - 1 - step) as usize] = at;
        }
        at = parent;
    }
    None
}
