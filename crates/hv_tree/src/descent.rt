//! The way down to a node from a `&mut`.
//!
//! The prover doesn't prove recursions that return a `&mut`. So each type here goes down a bounded number of
//! steps, by means of the type before it. `Near` goes along ids that are at hand. `Down` goes as far as any
//! tree is deep, and asks the index for the ids.
ghost use Rattle.std.specs.Prelude.{◌≡◌, ◌≤◌, ◌+◌, ℕ, length};
ghost use Rattle.std.specs.Borrow.{LendsIf, sem};
ghost use Rattle.std.specs.Option.{option_copied_mut};
ghost use Rattle.hv_tree.specs.contracts.node.Branch.{the_row as branch_row};
ghost use Rattle.hv_tree.specs.contracts.node.Node.{the_row as node_row};
ghost use Rattle.hv_tree.specs.Index.{parents};
ghost use Rattle.hv_tree.specs.Put.{child_of, put_child, put_far, reach};
ghost use Rattle.hv_tree.specs.Way.{above, children_of, line, place_by, places, IsRising, AreRising};

use crate::index::{Index, above};
use crate::node::{Branch, Node};
use std::alloc::Allocator;

/// A descent to a node, of a bounded number of steps.
pub(crate) trait Toward {
    // The most steps that it can go.
    ghost most: { ℕ };

    /// Returns the node with the id, which is `steps` steps down.
    fn toward<'n, T, A: Allocator>(
        branch: &'n mut Branch<T, A>,
        index: &Index<A>,
        id: u64,
        steps: u64,
    ) -> Option<&'n mut Node<T, A>>
        requires rising { AreRising branch.old }
        requires few { steps ≤ most }
        ensures* writes_back { sem 𝓛 (LendsIf (branch_row T.row A.row A.Allocator)
            (node_row T.row A.row A.Allocator) branch.entry result
            (put_far (places (line (parents index.now) steps id) branch.old) branch.old) branch.old) }
        ensures value { option_copied_mut result
            ≡ reach (places (line (parents index.now) steps id) branch.old) branch.old };
}

/// A descent of no steps.
pub(crate) struct Stay;

impl Toward for Stay {
    ghost most = { 0 };

    fn toward<'n, T, A: Allocator>(
        branch: &'n mut Branch<T, A>,
        index: &Index<A>,
        id: u64,
        steps: u64,
    ) -> Option<&'n mut Node<T, A>> {
        Some(branch.node_mut())
    }
}

/// Two descents by `D`, with one step between them.
pub(crate) struct Twice<D: Toward>(D);

impl<D: Toward> Toward for Twice<D> {
    ghost most = { D.most + 1 + D.most };

    fn toward<'n, T, A: Allocator>(
        branch: &'n mut Branch<T, A>,
        index: &Index<A>,
        id: u64,
        steps: u64,
    ) -> Option<&'n mut Node<T, A>> {
        if steps == 0 {
            return Some(branch.node_mut());
        }
        let first = steps / 2;
        let rest = steps - first - 1;
        let next = above(index, id, rest);
        let node = D::toward(branch, index, parent_at(index, next, first), first)?;
        let child = step_toward(node, next)?;
        D::toward(child, index, id, rest)
    }
}

// Returns the parent of the node with the id, for a descent of `steps` steps to that parent. A descent of no
// steps works with any id.
fn parent_at<A: Allocator>(index: &Index<A>, id: u64, steps: u64) -> u64
    ensures { line (parents index.now) steps result
        ≡ line (parents index.now) steps (above (parents index.now) 1 id) }
{
    if steps == 0 {
        return id;
    }
    above(index, id, 1)
}

// The child with the id.
fn step_toward<'n, T, A: Allocator>(
    node: &'n mut Node<T, A>,
    id: u64,
) -> Option<&'n mut Branch<T, A>>
    requires { IsRising node.old }
    ensures* writes_back { sem 𝓛 (LendsIf (node_row T.row A.row A.Allocator)
        (branch_row T.row A.row A.Allocator) node.entry result
        (put_child node.old (place_by id (children_of node.old))) node.old) }
    ensures value { option_copied_mut result ≡ child_of node.old (place_by id (children_of node.old)) }
{
    let at = node.place_of(id)?;
    node.child_mut(at)
}

/// A descent along ids, of a bounded number of steps.
pub(crate) trait Along {
    // The most ids that it can go along.
    ghost most: { ℕ };

    /// Returns the node to which the ids lead, each the id of a child of the node before.
    fn along<'n, T, A: Allocator>(
        branch: &'n mut Branch<T, A>,
        ids: &[u64],
    ) -> Option<&'n mut Node<T, A>>
        requires rising { AreRising branch.old }
        requires few { length ids.now ≤ most }
        ensures* writes_back { sem 𝓛 (LendsIf (branch_row T.row A.row A.Allocator)
            (node_row T.row A.row A.Allocator) branch.entry result
            (put_far (places ids.now branch.old) branch.old) branch.old) }
        ensures value { option_copied_mut result ≡ reach (places ids.now branch.old) branch.old };
}

impl Along for Stay {
    ghost most = { 0 };

    fn along<'n, T, A: Allocator>(
        branch: &'n mut Branch<T, A>,
        ids: &[u64],
    ) -> Option<&'n mut Node<T, A>> {
        Some(branch.node_mut())
    }
}

/// A step, and then a descent by `D`.
pub(crate) struct Then<D: Along>(D);

impl<D: Along> Along for Then<D> {
    ghost most = { D.most + 1 };

    fn along<'n, T, A: Allocator>(
        branch: &'n mut Branch<T, A>,
        ids: &[u64],
    ) -> Option<&'n mut Node<T, A>> {
        let Some((next, rest)) = ids.split_first() else {
            return Some(branch.node_mut());
        };
        let child = step_toward(branch.node_mut(), *next)?;
        D::along(child, rest)
    }
}

/// A descent along up to 7 ids.
pub(crate) type Near = Then<Then<Then<Then<Then<Then<Then<Stay>>>>>>>;

type Twice4<D> = Twice<Twice<Twice<Twice<D>>>>;

/// A descent of up to 2³² - 1 steps. No tree is that deep.
pub(crate) type Down = Twice4<Twice4<Twice4<Twice4<Twice4<Twice4<Twice4<Twice4<Stay>>>>>>>>;
