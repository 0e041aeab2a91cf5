//! Operations that change the nodes of a tree. Each one borrows its node through the way down to it.
ghost use Rattle.std.specs.Prelude.{◌≡◌, ◌≢◌, ◌↔◌, ◌<◌, ◌≤◌, ℕ, ◌==◌, cond, length, true, false, None, Some};
ghost use Rattle.std.specs.Prelude.{IfSome, IfNone, IfErr, OnOk, OnErr, option_map};
ghost use Rattle.std.specs.List.Sorted.{IsNonDecreasing};
ghost use Rattle.hv_tree.specs.Rows.{children_in};
ghost use Rattle.hv_tree.specs.Edited.{IsEditedFrom};
ghost use Rattle.hv_tree.specs.Index.{parents, IsLaid};
ghost use Rattle.hv_tree.specs.Lines.{lines};
ghost use Rattle.hv_tree.specs.Nest.{has_row, look, AreDistinct, IsGrownBy, IsWithout};
ghost use Rattle.hv_tree.specs.Way.{id_of};

use crate::edit::Edit;
use crate::index::{Index, note};
use crate::look_up::seek_mut;
use crate::node::{Branch, first_above};
use crate::refused::ReserveRefused;
use std::alloc::Allocator;

/// Makes room for one more child of `parent`.
pub(crate) fn reserve<T, A: Allocator>(
    root: &mut Branch<T, A>,
    index: &Index<A>,
    parent: u64,
) -> Result<(), ReserveRefused>
    requires { IsLaid (lines root.old) (parents index.now) }
    ensures rows { lines root.new ≡ lines root.old }
    ensures no_parent { (result ≡ Err ReserveRefused.NoParent)
        ↔ (has_row parent (lines root.old) ≡ false) }
{
    let Some(node) = seek_mut(root, index, parent) else {
        return Err(ReserveRefused::NoParent);
    };
    if node.children.reserve(1).is_err() {
        return Err(ReserveRefused::Memory);
    }
    Ok(())
}

/// Inserts a node among the children of `parent` and into the index. Out of memory, it hands the node back.
pub(crate) fn graft<T, A: Allocator>(
    root: &mut Branch<T, A>,
    index: &mut Index<A>,
    parent: u64,
    child: Box<Branch<T, A>, A>,
) -> Result<(), Box<Branch<T, A>, A>>
    requires laid { IsLaid (lines root.old) (parents index.old) }
    requires there { has_row parent (lines root.old) ≡ true }
    ensures ok { OnOk result (IsGrownBy parent (lines child.value) (lines root.old) (lines root.new)) }
    ensures noted { OnOk result ((q : ℕ) → parents index.new q
        ≡ cond (id_of child.value == q) (Some parent) (parents index.old q)) }
    ensures rising { OnOk result (AreDistinct (lines root.new)
        → IsNonDecreasing (children_in parent (lines root.new))) }
    ensures err { OnErr result (lines root.new ≡ lines root.old) }
    ensures kept { OnErr result ((q : ℕ) → parents index.new q ≡ parents index.old q) }
    ensures back { IfErr result (λ n. n.value ≡ child.value) }
{
    let Some(node) = seek_mut(root, index, parent) else {
        unreachable!();
    };
    if node.children.reserve(1).is_err() {
        return Err(child);
    }
    let id = child.node.id;
    let at = first_above(&node.children, id);
    if note(index, id, parent).is_err() {
        return Err(child);
    }
    match node.children.insert(at, child) {
        Ok(()) => Ok(()),
        // There is room.
        Err(_) => unreachable!(),
    }
}

/// Removes the node with the id, a child of `parent`, and returns its content.
///
/// Returns `None` if the node has children.
pub(crate) fn prune<T: Drop, A: Allocator>(
    root: &mut Branch<T, A>,
    index: &Index<A>,
    parent: u64,
    id: u64,
) -> Option<T>
    requires laid { IsLaid (lines root.old) (parents index.now) }
    requires below { option_map (λ r. r.0) (look id (lines root.old)) ≡ Some (Some parent) }
    ensures gone { IfSome result (λ c. IsWithout id (Some c) (lines root.old) (lines root.new)) }
    ensures rising { IfSome result (λ _. AreDistinct (lines root.new)
        → IsNonDecreasing (children_in parent (lines root.new))) }
    ensures stays { IfNone result (lines root.new ≡ lines root.old) }
    ensures refused { IfNone result (1 ≤ length (children_in id (lines root.old))) }
{
    let Some(node) = seek_mut(root, index, parent) else {
        unreachable!();
    };
    node.take_leaf(id)
}

/// Edits the content of the node with the id and of every node below it.
///
/// Returns `false` if no node has the id.
pub(crate) fn edit_below<T, A: Allocator, E: Edit<T>>(
    root: &mut Branch<T, A>,
    index: &Index<A>,
    id: u64,
    edit: &E,
) -> bool
    requires { IsLaid (lines root.old) (parents index.now) }
    ensures found { result ≡ has_row id (lines root.old) }
    ensures edited { result ≡ true
        → IsEditedFrom (E.edited edit.now) id (lines root.old) (lines root.new) }
    ensures stays { result ≡ false → lines root.new ≡ lines root.old }
{
    let Some(node) = seek_mut(root, index, id) else {
        return false;
    };
    node.edit_all(edit);
    true
}
