//! A node, which owns its children.
ghost use Rattle.std.specs.Prelude.{◌≡◌, ◌≢◌, ◌<◌, ◌≤◌, ◌++◌, ◌∷◌, [], length, map, true, Some, None, IfSome};
ghost use Rattle.std.specs.Prelude.{IfNone, IfOk, OnOk, OnErr, All, HoldsAt, option_copied};
ghost use Rattle.std.specs.Prelude.{option_map};
ghost use Rattle.std.specs.Borrow.{Lends, LendsIf, sem};
ghost use Rattle.std.specs.Option.{option_copied_mut};
ghost use Rattle.std.specs.List.Sorted.{IsNonDecreasingBy, IsPartitionPoint};
ghost use Rattle.hv_tree.specs.contracts.node.Branch.{the_row as branch_row};
ghost use Rattle.hv_tree.specs.contracts.node.Node.{the_row as node_row};
ghost use Rattle.hv_tree.specs.Put.{node_of, put_node, child_of, put_child, content_of, put_content};
ghost use Rattle.hv_tree.specs.Lines.{lines, node_lines};
ghost use Rattle.hv_tree.specs.Edited.{edited_in};
ghost use Rattle.hv_tree.specs.Rows.{IsLeastAbove};
ghost use Rattle.hv_tree.specs.Way.{id_of, children_of, place_by, IsRising, IsShorn, HasChild, HasParent};

use crate::edit::Edit;
use std::alloc::{AllocError, Allocator};

/// A node with all nodes below it, as its parent owns it.
///
/// It is a separate type because what a `&mut` to a `Node` lends can't be a `&mut` to a `Node`.
#[derive(Drop)]
#[cycle(tree)]
pub(crate) struct Branch<T, A: Allocator> {
    pub(crate) node: Node<T, A>,
}

/// A node, which owns all nodes below it through its children.
#[derive(Drop)]
#[cycle(tree)]
pub(crate) struct Node<T, A: Allocator> {
    pub(crate) id: u64,
    // By rising id.
    pub(crate) children: Vec<Box<Branch<T, A>, A>, A>,
    pub(crate) content: T,
}

impl<T, A: Allocator> Branch<T, A> {
    pub(crate) fn leaf(alloc: A, id: u64, content: T) -> Branch<T, A>
        ensures { lines result ≡ (id, (None, Some content)) ∷ [] }
    {
        Branch {
            node: Node {
                id,
                children: Vec::new(alloc),
                content,
            },
        }
    }

    pub(crate) fn into_content(self) -> T
    where
        T: Drop,
        ensures { result ≡ content_of (node_of self) }
    {
        let Branch { node } = self;
        let Node { content, .. } = node;
        content
    }

    pub(crate) fn node_mut(&mut self) -> &mut Node<T, A>
        ensures* writes_back { sem 𝓛 (Lends (branch_row T.row A.row A.Allocator)
            (node_row T.row A.row A.Allocator) self.entry result (put_node self.old)) }
        ensures value { result.now ≡ node_of self.old }
    {
        &mut self.node
    }
}

impl<T, A: Allocator> Node<T, A> {
    pub(crate) fn content_mut(&mut self) -> &mut T
        ensures* writes_back { sem 𝓛 (Lends (node_row T.row A.row A.Allocator) T.row self.entry result
            (put_content self.old)) }
        ensures value { result.now ≡ content_of self.old }
    {
        &mut self.content
    }

    /// The place of the child with the id.
    pub(crate) fn place_of(&self, id: u64) -> Option<usize>
        requires { IsRising self.now }
        ensures some { IfSome result (λ i. i ≡ place_by id (children_of self.now)) }
        ensures none { IfNone result (child_of self.now (place_by id (children_of self.now)) ≡ None) }
    {
        match search_child(&self.children, id) {
            Ok(at) => Some(at),
            Err(_) => None,
        }
    }

    /// The child with the id.
    pub(crate) fn child(&self, id: u64) -> Option<&Node<T, A>>
        requires { IsRising self.now }
        ensures { option_copied result
            ≡ option_map (λ b. node_of b) (child_of self.now (place_by id (children_of self.now))) }
    {
        let at = self.place_of(id)?;
        let child = self.children.get(at)?;
        Some(&child.node)
    }

    pub(crate) fn child_mut(&mut self, at: usize) -> Option<&mut Branch<T, A>>
        ensures* writes_back { sem 𝓛 (LendsIf (node_row T.row A.row A.Allocator)
            (branch_row T.row A.row A.Allocator) self.entry result (put_child self.old at) self.old) }
        ensures value { option_copied_mut result ≡ child_of self.old at }
    {
        let child = self.children.get_mut(at)?;
        Some(child)
    }

    /// Appends the ids of this node and of all nodes below it.
    pub(crate) fn push_ids(&self, ids: &mut Vec<u64, A>) -> Result<(), AllocError>
        ensures { OnOk result (ids.new.items ≡ ids.old.items ++ map (λ e. e.0) (node_lines self.now)) }
    {
        ids.push(self.id)?;
        for child in &self.children {
            child.node.push_ids(ids)?;
        }
        Ok(())
    }

    /// Edits the content of this node and of each below it.
    pub(crate) fn edit_all<E: Edit<T>>(&mut self, edit: &E)
        ensures { node_lines self.new
            ≡ edited_in (E.edited edit.now) (λ _. true) (node_lines self.old) }
    {
        for i in 0..self.children.len() {
            self.children[i].node.edit_all(edit);
        }
        edit.edit(&mut self.content);
    }

    /// Removes the child with the id, if it has no children, and returns its content.
    pub(crate) fn take_leaf(&mut self, id: u64) -> Option<T>
    where
        T: Drop,
        requires rising { IsRising self.old }
        requires there { HasChild id self.old }
        ensures gone { IfSome result (λ c. IsShorn id c self.old self.new) }
        ensures stays { IfNone result (self.new ≡ self.old) }
        ensures refused { IfNone result (HasParent id self.old) }
    {
        let Ok(at) = search_child(&self.children, id) else {
            unreachable!();
        };
        if !self.children[at].node.children.is_empty() {
            return None;
        }
        let child = self.children.remove(at);
        Some(Box::into_inner(child).into_content())
    }

    /// The least id above `previous` among the children.
    pub(crate) fn child_after(&self, previous: u64) -> Option<u64>
        requires { IsRising self.now }
        ensures { IsLeastAbove previous (map (λ k. id_of k.value) (children_of self.now)) result }
    {
        match self.children.get(first_above(&self.children, previous)) {
            None => None,
            Some(child) => Some(child.node.id),
        }
    }
}

/// The place of the first child with a higher id, or where it would be.
pub(crate) fn first_above<T, A: Allocator>(children: &[Box<Branch<T, A>, A>], id: u64) -> usize
    requires { IsNonDecreasingBy (λ k. id_of k.value) children.now }
    ensures bound { result ≤ length children.now }
    ensures place { IsPartitionPoint (λ k. id_of k.value ≤ id) (λ k. id < id_of k.value)
        children.now result }
{
    children.partition_point(|child| child.node.id <= id)
}

/// The place of the child with the id, or where it would go.
pub(crate) fn search_child<T, A: Allocator>(
    children: &[Box<Branch<T, A>, A>],
    id: u64,
) -> Result<usize, usize>
    requires { IsNonDecreasingBy (λ k. id_of k.value) children.now }
    ensures found { IfOk result
        (λ i. (i < length children.now) × HoldsAt (λ k. id_of k.value ≡ id) children.now i) }
    ensures none { OnErr result (All (λ k. id_of k.value ≢ id) children.now) }
{
    children.binary_search_by_key(&id, |child| child.node.id)
}
