//! Look-ups of a node by its id.
ghost use Rattle.std.specs.Prelude.{◌≡◌, IfSome, IfNone, true, false};
ghost use Rattle.std.specs.Borrow.{LendsIf, sem};
ghost use Rattle.hv_tree.specs.contracts.node.Branch.{the_row as branch_row};
ghost use Rattle.hv_tree.specs.contracts.node.Node.{the_row as node_row};
ghost use Rattle.hv_tree.specs.Index.{parents, IsLaid};
ghost use Rattle.hv_tree.specs.Lines.{lines};
ghost use Rattle.hv_tree.specs.Nest.{has_row};
ghost use Rattle.hv_tree.specs.Put.{put_far, put_content_far, IsContentAt};
ghost use Rattle.hv_tree.specs.Way.{way_to, IsReached};

use crate::descent::{Along, Down, Near, Toward};
use crate::index::{Index, parent_in};
use crate::node::{Branch, Node};
use crate::path::climb;
use std::alloc::Allocator;

/// Returns `true` if a node has the id.
pub(crate) fn is_there<T, A: Allocator>(root: &Branch<T, A>, index: &Index<A>, id: u64) -> bool
    requires { IsLaid (lines root.now) (parents index.now) }
    ensures { result ≡ has_row id (lines root.now) }
{
    id == root.node.id || parent_in(index, id).is_some()
}

/// The node with the id.
pub(crate) fn seek<'t, T, A: Allocator>(
    root: &'t Branch<T, A>,
    index: &Index<A>,
    id: u64,
) -> Option<&'t Node<T, A>>
    requires { IsLaid (lines root.now) (parents index.now) }
    ensures found { IfSome result (λ n. IsReached (parents index.now) id root.now n.now) }
    ensures none { IfNone result (has_row id (lines root.now) ≡ false) }
{
    if id == root.node.id {
        return Some(&root.node);
    }
    let parent = parent_in(index, id)?;
    let node = seek(root, index, parent)?;
    let child = node.child(id)?;
    Some(child)
}

/// Returns a mutable reference to the node with the id.
pub(crate) fn seek_mut<'t, T, A: Allocator>(
    root: &'t mut Branch<T, A>,
    index: &Index<A>,
    id: u64,
) -> Option<&'t mut Node<T, A>>
    requires { IsLaid (lines root.old) (parents index.now) }
    ensures* writes_back { sem 𝓛 (LendsIf (branch_row T.row A.row A.Allocator)
        (node_row T.row A.row A.Allocator) root.entry result
        (put_far (way_to (parents index.now) id root.old) root.old) root.old) }
    ensures found { IfSome result (λ r. IsReached (parents index.now) id root.old r.now) }
    ensures none { IfNone result (has_row id (lines root.old) ≡ false) }
{
    let path = climb(root, index, id)?;
    match path.ids() {
        Some(ids) => Near::along(root, ids),
        None => Down::toward(root, index, id, path.steps),
    }
}

/// Returns a mutable reference to the content of the node with the id.
pub(crate) fn content_at<'t, T, A: Allocator>(
    root: &'t mut Branch<T, A>,
    index: &Index<A>,
    id: u64,
) -> Option<&'t mut T>
    requires { IsLaid (lines root.old) (parents index.now) }
    ensures* writes_back { sem 𝓛 (LendsIf (branch_row T.row A.row A.Allocator) T.row root.entry result
        (put_content_far (way_to (parents index.now) id root.old) root.old) root.old) }
    ensures found { IfSome result
        (λ r. IsContentAt (way_to (parents index.now) id root.old) id root.old r.now) }
    ensures none { IfNone result (has_row id (lines root.old) ≡ false) }
{
    let node = seek_mut(root, index, id)?;
    Some(node.content_mut())
}
