// A root with 300 children, each with 10 children of its own: inserted out of order, inspected, and removed
// leaf by leaf.
//
// The root is 1, its children are 2 to 301, and the ten children of the n-th of them are 302 + 10 n to 311 +
// 10 n. The content of each node is its id with all bits flipped.

use crate::tree::has_few;
use hv_tree::IdTree;
use std::alloc::Global;
use std::process::Abort;
use std::test::Fail;

fn insert(
    rt: &impl Abort,
    tree: &mut IdTree<u64, Global>,
    parent: u64,
    id: u64,
) -> Result<(), Fail> {
    assert!(rt; has_few(tree, parent));
    tree.insert_child(parent, id, !id)?;
    Ok(())
}

fn grow(rt: &impl Abort, tree: &mut IdTree<u64, Global>) -> Result<(), Fail> {
    for n in 0..300u64 {
        insert(rt, tree, 1, 2 + n * 7 % 300)?;
    }
    for n in 0..3000u64 {
        let at = n * 7 % 3000;
        insert(rt, tree, 2 + at / 10, 302 + at)?;
    }
    Ok(())
}

// Whether the ids are the numbers from 1 to 3301.
fn are_numbered(ids: &[u64]) -> bool {
    let mut wanted = 1u64;
    for id in ids {
        if *id != wanted {
            return false;
        }
        wanted = wanted.saturating_add(1);
    }
    wanted == 3302
}

fn look_at_ids(rt: &impl Abort, tree: &IdTree<u64, Global>) -> Result<(), Fail> {
    let ids = tree.ids()?;
    assert!(rt; are_numbered(&ids));
    Ok(())
}

// The position of a node: its parent, its depth, and its first child after this id; then its number of
// children.
fn place_of(tree: &IdTree<u64, Global>, id: u64, after: u64) -> ([Option<u64>; 3], Option<u32>) {
    let ids = [
        tree.parent_of(id),
        tree.depth_of(id),
        tree.child_after(id, after),
    ];
    (ids, tree.children_of(id))
}

fn look_at_root(rt: &impl Abort, tree: &IdTree<u64, Global>) {
    assert!(rt; place_of(tree, 1, 0) == ([None, Some(0), Some(2)], Some(300)));
    assert!(rt; place_of(tree, 1, 301) == ([None, Some(0), None], Some(300)));
    assert!(rt; place_of(tree, 3302, 0) == ([None, None, None], None));
}

fn look_at_children(rt: &impl Abort, tree: &IdTree<u64, Global>) {
    for id in 2..302u64 {
        let lowest = 282 + 10 * id;
        let ten = ([Some(1), Some(1), Some(lowest)], Some(10));
        let last = [
            tree.child_after(1, id - 1),
            tree.child_after(id, lowest + 9),
        ];
        assert!(rt;
            place_of(tree, id, lowest - 1) == ten && last == [Some(id), None],
            "{id}"
        );
    }
}

fn look_at_leaves(rt: &impl Abort, tree: &IdTree<u64, Global>) {
    for id in 302..3302u64 {
        let none = ([Some((id - 302) / 10 + 2), Some(2), None], Some(0));
        let content = tree.get(id).copied();
        assert!(rt;
            place_of(tree, id, 0) == none && content == Some(!id),
            "{id}"
        );
    }
}

// Removes each node once the last one below it is gone.
fn fell(rt: &impl Abort, tree: &mut IdTree<u64, Global>) {
    for at in 0..3000u64 {
        let (above, leaf) = (2 + at / 10, 302 + at);
        let taken = [
            tree.remove_leaf(above),
            tree.remove_leaf(leaf),
            tree.parent_of(leaf),
        ];
        assert!(rt; taken == [None, Some(!leaf), None], "{leaf}");
        let is_last = at % 10 == 9;
        assert!(rt;
            !is_last || tree.remove_leaf(above) == Some(!above),
            "{above}"
        );
    }
}

fn live(rt: &impl Abort, tree: &mut IdTree<u64, Global>) -> Result<(), Fail> {
    grow(rt, tree)?;
    look_at_ids(rt, tree)?;
    look_at_root(rt, tree);
    look_at_children(rt, tree);
    look_at_leaves(rt, tree);
    fell(rt, tree);
    assert!(rt; place_of(tree, 1, 0) == ([None, Some(0), None], Some(0)));
    Ok(())
}

#[test]
fn a_tree_grows_and_is_felled(rt: HostRuntime) -> Result<(), Fail> {
    let mut tree = IdTree::new(rt.alloc(), 1, !1)?;
    live(&rt, &mut tree)
}
