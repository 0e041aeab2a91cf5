//! The tree, seen as its rows.
ghost use Rattle.std.specs.Prelude.{◌≡◌, ◌<◌, ◌↔◌, [], ◌∷◌, None, Some, true, false, length, is_some, ℕ};
ghost use Rattle.std.specs.Prelude.{IfSome, IfNone, OnSome, IfOk, IfErr, OnOk, OnErr, option_copied};
ghost use Rattle.std.specs.Prelude.{option_map};
ghost use Rattle.std.specs.Option.{option_copied_mut};
ghost use Rattle.std.specs.Borrow.{LendsIf, sem};
ghost use Rattle.std.specs.FinMap as map;
ghost use Rattle.hv_tree.specs.contracts.tree.IdTree.{the_row};
ghost use Rattle.hv_tree.specs.Rows.{change, content, parent, children, is_leaf, HasDepth, IsLeastAbove};
ghost use Rattle.hv_tree.specs.Rows.{IsTree};
ghost use Rattle.hv_tree.specs.Refused.{Refuses};
ghost use Rattle.hv_tree.specs.Relative.{IsRelative};
ghost use Rattle.hv_tree.specs.Subtree.{IsInSubtree};
ghost use Rattle.hv_tree.specs.Lines.{lines};

use crate::change::{edit_below, graft, prune, reserve};
use crate::edit::Edit;
use crate::index::{Index, MOST, forget, parent_in};
use crate::look_up::{content_at, is_there, seek};
use crate::node::Branch;
use crate::path::climb;
use crate::refused::{InsertRefused, ReserveRefused};
use crate::relative::Relative;
use indexmap::IndexMap;
use std::alloc::{AllocError, AllocFailed, Allocator};
use std::marker::Model;

/// A tree whose nodes each have a unique id and a content. One node, the root, has no parent.
///
/// Each node owns its children in boxes, by rising id. Beside them, an index names each node's parent, and so
/// gives the way down to a node.
#[derive(Drop)]
pub struct IdTree<T, A: Allocator> {
    root: Branch<T, A>,
    // The parent of each node but the root.
    index: Index<A>,
    // The number of nodes.
    count: u64,
    alloc: A,
}

impl<T, A: Allocator> Model for IdTree<T, A> {
    ghost use Rattle.std.specs.Prelude.{None};
    ghost use Rattle.std.specs.Coded.{coded_ℕ, coded_option, coded×};
    ghost use Rattle.std.specs.FinMap as map;
    ghost use Rattle.hv_tree.specs.Rows.{Rows};

    ghost Value = { Rows T };

    ghost coded = { map.code coded_ℕ (coded× (coded_option coded_ℕ) T.code) };

    ghost use Rattle.hv_tree.specs.Full.{full};
    ghost use Rattle.hv_tree.specs.Index.{parents, IsKept};
    ghost use Rattle.hv_tree.specs.Lines.{lines};

    ghost view = { λ a. map.from_entries (full (lines a.root)) };

    ghost invariant = { λ a. IsKept (lines a.root) a.count (parents a.index) };
}

impl<T, A: Allocator> IdTree<T, A> {
    /// Returns `true` if a node has the id.
    pub fn contains(&self, id: u64) -> bool
        ensures value { result ≡ map.contains_key self.now id }
        ensures none { result ≡ false → children self.now id ≡ [] }
        ensures tree { IsTree self.now }
    {
        is_there(&self.root, &self.index, id)
    }

    /// The content of a node.
    pub fn get(&self, id: u64) -> Option<&T>
        ensures { option_copied result ≡ content self.now id }
    {
        match seek(&self.root, &self.index, id) {
            Some(node) => Some(&node.content),
            None => None,
        }
    }

    /// The id of a node's parent, or `None` for the root and if no node has the id.
    pub fn parent_of(&self, id: u64) -> Option<u64>
        ensures value { result ≡ parent self.now id }
        ensures tree { IsTree self.now }
    {
        parent_in(&self.index, id)
    }

    /// The number of nodes above a node: 0 for the root, and `None` if no node has the id.
    pub fn depth_of(&self, id: u64) -> Option<u64>
        ensures found { is_some result ≡ map.contains_key self.now id }
        ensures depth { IfSome result (HasDepth self.now id) }
        ensures tree { IsTree self.now }
    {
        let path = climb(&self.root, &self.index, id)?;
        Some(path.steps)
    }

    /// The number of a node's children, or `None` if no node has the id.
    pub fn children_of(&self, id: u64) -> Option<u32>
        ensures value { result
            ≡ option_map (λ _. length (children self.now id)) (map.get self.now id) }
        ensures none { IfNone result (children self.now id ≡ []) }
        ensures tree { IsTree self.now }
    {
        match seek(&self.root, &self.index, id) {
            Some(node) => Some(node.children.len() as u32),
            None => None,
        }
    }

    /// The content of a node, the number of its children, and how another node stands to it.
    ///
    /// Returns `None` if no node has the id `id`. A child is found from its parent's node, without a way from
    /// the root.
    // Inlined: calls for the own id in bench/embed.sh.
    #[inline(always)]
    pub fn get_with(&self, id: u64, other: u64) -> Option<(&T, u32, Relative<'_, T>)>
        ensures content { IfSome result (λ found. content self.now id ≡ Some found.0.now) }
        ensures children { IfSome result (λ found. found.1 ≡ length (children self.now id)) }
        ensures other { IfSome result (λ found. IsRelative self.now id other found.2) }
        ensures none { IfNone result (content self.now id ≡ None) }
    {
        let node = seek(&self.root, &self.index, id)?;
        let relative = if other == id {
            Relative::Itself
        } else {
            match parent_in(&self.index, other) {
                Some(parent) if parent == id => match node.child(other) {
                    Some(child) => Relative::Child(&child.content, child.children.len() as u32),
                    None => unreachable!(),
                },
                Some(_) => Relative::Other,
                None if other == self.root.node.id => Relative::Other,
                None => Relative::Absent,
            }
        };
        Some((&node.content, node.children.len() as u32, relative))
    }

    /// The least id above `previous` among the children of `parent`.
    ///
    /// Repeated calls from 0, each with the last result, visit every child except one with the id 0.
    pub fn child_after(&self, parent: u64, previous: u64) -> Option<u64>
        ensures value { IsLeastAbove previous (children self.now parent) result }
        ensures tree { IsTree self.now }
    {
        let Some(node) = seek(&self.root, &self.index, parent) else {
            return None;
        };
        node.child_after(previous)
    }

    /// Makes room for one more child of `parent`.
    ///
    /// The next insert there needs memory only for the node and for its place in the index.
    pub fn reserve_child(&mut self, parent: u64) -> Result<(), ReserveRefused>
        ensures rows { self.new ≡ self.old }
        ensures no_parent { (result ≡ Err ReserveRefused.NoParent)
            ↔ (map.contains_key self.old parent ≡ false) }
    {
        reserve(&mut self.root, &self.index, parent)
    }
}

impl<T, A: Allocator + Clone> IdTree<T, A> {
    /// The ids of all nodes, rising.
    pub fn ids(&self) -> Result<Vec<u64, A>, AllocError>
        ensures { IfOk result (λ v. v.items ≡ map.keys self.now) }
    {
        let mut ids = Vec::with_capacity(self.alloc.clone()?, self.count as usize)?;
        self.root.node.push_ids(&mut ids)?;
        ids.sort_unstable();
        Ok(ids)
    }
}

impl<T: Drop, A: Allocator> IdTree<T, A> {
    /// Returns a mutable reference to the content of a node. It takes no memory.
    pub fn get_mut(&mut self, id: u64) -> Option<&mut T>
        ensures* writes_back { sem 𝓛 (LendsIf (the_row T.row A.row A.Allocator) T.row self.entry result
            (λ w. change self.old id (λ _. w)) self.old) }
        ensures value { option_copied_mut result ≡ content self.old id }
    {
        content_at(&mut self.root, &self.index, id)
    }

    /// Edits the content of a node and of each node below it. It takes no memory.
    ///
    /// Returns `false` if no node has the id.
    pub fn update_subtree<E: Edit<T>>(&mut self, id: u64, edit: &E) -> bool
        ensures found { result ≡ map.contains_key self.old id }
        ensures edited { (q : ℕ) → IsInSubtree self.old id q → map.get self.new q
            ≡ option_map (λ r. (r.0, E.edited edit.now r.1)) (map.get self.old q) }
        ensures others { (q : ℕ) → ¬ IsInSubtree self.old id q
            → map.get self.new q ≡ map.get self.old q }
        ensures parents { (q : ℕ) → option_map (λ r. r.0) (map.get self.new q)
            ≡ option_map (λ r. r.0) (map.get self.old q) }
        ensures absent { result ≡ false → self.new ≡ self.old }
    {
        edit_below(&mut self.root, &self.index, id, edit)
    }

    /// Removes a node that has a parent and no children, and returns its content. It takes no memory.
    ///
    /// Returns `None` if no node has the id, for the root, and for a node with children.
    pub fn remove_leaf(&mut self, id: u64) -> Option<T>
        ensures leaf { is_some result ≡ is_leaf self.old id }
        ensures content { IfSome result (λ c. content self.old id ≡ Some c) }
        ensures removed { OnSome result (self.new ≡ map.remove self.old id) }
        ensures unchanged { IfNone result (self.new ≡ self.old) }
    {
        let parent = parent_in(&self.index, id)?;
        let content = prune(&mut self.root, &self.index, parent, id)?;
        forget(&mut self.index, id);
        self.count -= 1;
        Some(content)
    }
}

impl<T: Drop, A: Allocator + Copy> IdTree<T, A> {
    /// Creates a tree of one node. Out of memory, it hands the content back.
    pub fn new(alloc: A, id: u64, content: T) -> Result<IdTree<T, A>, T>
        ensures ok { IfOk result (λ t. t ≡ map.insert map.empty id (None, content)) }
        ensures err { IfErr result (λ c. c ≡ content) }
    {
        Ok(IdTree {
            root: Branch::leaf(alloc, id, content),
            index: IndexMap::new(alloc),
            count: 1,
            alloc,
        })
    }
}

impl<T, A: Allocator> IdTree<T, A> {
    // Returns the content if a node with this id may be inserted below the parent.
    fn admit(&self, parent: u64, id: u64, content: T) -> Result<T, InsertRefused<T>>
        ensures content { IfOk result (λ c. c ≡ content) }
        ensures has_parent { OnOk result (map.contains_key self.now parent ≡ true) }
        ensures is_free { OnOk result (map.contains_key self.now id ≡ false) }
        ensures refused { IfErr result (Refuses self.now parent id content) }
    {
        if !self.contains(parent) {
            return Err(InsertRefused::NoParent(content));
        }
        if self.contains(id) {
            return Err(InsertRefused::IdTaken(content));
        }
        Ok(content)
    }
}

impl<T: Drop, A: Allocator + Clone> IdTree<T, A> {
    /// Inserts a new node below `parent`, or hands its content back and leaves the tree as it was.
    pub fn insert_child(&mut self, parent: u64, id: u64, content: T) -> Result<(), InsertRefused<T>>
        requires { length (children self.old parent) < u32.MAX }
        ensures ok { OnOk result (self.new ≡ map.insert self.old id (Some parent, content)) }
        ensures had_parent { OnOk result (map.contains_key self.old parent ≡ true) }
        ensures was_free { OnOk result (map.contains_key self.old id ≡ false) }
        ensures refused { IfErr result (Refuses self.old parent id content) }
        ensures unchanged { OnErr result (self.new ≡ self.old) }
    {
        let content = self.admit(parent, id, content)?;
        let count = self.count + 1;
        if MOST <= count {
            return Err(InsertRefused::Memory(content));
        }
        let child = match make(&self.alloc, id, content) {
            Ok(child) => child,
            Err(content) => return Err(InsertRefused::Memory(content)),
        };
        if let Err(child) = graft(&mut self.root, &mut self.index, parent, child) {
            return Err(InsertRefused::Memory(Box::into_inner(child).into_content()));
        }
        self.count = count;
        Ok(())
    }
}

// Creates a node with no nodes below it, or hands its content back.
fn make<T: Drop, A: Allocator + Clone>(
    alloc: &A,
    id: u64,
    content: T,
) -> Result<Box<Branch<T, A>, A>, T>
    ensures ok { IfOk result (λ n. lines n.value ≡ (id, (None, Some content)) ∷ []) }
    ensures err { IfErr result (λ c. c ≡ content) }
{
    let Ok(own) = alloc.clone() else {
        return Err(content);
    };
    let Ok(below) = alloc.clone() else {
        return Err(content);
    };
    match Box::new(own, Branch::leaf(below, id, content)) {
        Ok(child) => Ok(child),
        Err(failed) => {
            let AllocFailed { value } = failed;
            Err(value.into_content())
        }
    }
}
