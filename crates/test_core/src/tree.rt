// Two equal subtrees of 300 nodes below a root, each with seven levels below its top. An edit of one changes
// only its own contents, and all nodes are removed leaf by leaf.
//
// The root is 1. The even ids from 2 to 600 form one subtree, the odd ids from 3 to 601 the other. The tops
// are 2 and 3. The next 43 nodes of a subtree are children of its top, and each later node is a child of the
// 43rd node before it. The content of each node is its id with all bits flipped.
ghost use Rattle.std.specs.Prelude.{◌<◌, IsTrue, bit_and, length};
ghost use Rattle.hv_tree.specs.Rows.{children};

use hv_tree::{Edit, IdTree, InsertRefused, ReserveRefused};
use std::alloc::{AllocError, Global};
use std::process::Abort;
use std::test::Fail;

// Keeps the bits of a content that the mask has.
struct Narrow {
    mask: u64,
}

impl Edit<u64> for Narrow {
    ghost edited = { λ edit content. bit_and content edit.mask };

    fn edit(&self, content: &mut u64) {
        *content &= self.mask;
    }
}

fn above(id: u64) -> u64 {
    if id < 4 {
        1
    } else if id < 90 {
        2 + id % 2
    } else {
        id - 86
    }
}

// Whether a node, if it exists, can have one more child.
pub(crate) fn has_few(tree: &IdTree<u64, Global>, id: u64) -> bool
    ensures { IsTrue result → length (children tree.now id) < u32.MAX }
{
    match tree.children_of(id) {
        Some(count) => count < 1000,
        None => true,
    }
}

fn insert(
    rt: &impl Abort,
    tree: &mut IdTree<u64, Global>,
    parent: u64,
    id: u64,
) -> Result<(), InsertRefused<u64>> {
    assert!(rt; has_few(tree, parent));
    tree.insert_child(parent, id, !id)
}

fn grow(rt: &impl Abort, tree: &mut IdTree<u64, Global>) -> Result<(), InsertRefused<u64>> {
    for id in 2..602u64 {
        insert(rt, tree, above(id), id)?;
    }
    Ok(())
}

// Whether the ids are the numbers from 1 to 601.
fn are_numbered(tree: &IdTree<u64, Global>) -> Result<bool, AllocError> {
    let mut wanted = 1u64;
    for id in tree.ids()?.as_slice() {
        if *id != wanted {
            return Ok(false);
        }
        wanted = wanted.saturating_add(1);
    }
    Ok(wanted == 602)
}

// A refused insertion returns its content.
fn is_refused(rt: &impl Abort, tree: &mut IdTree<u64, Global>) -> bool {
    let taken = insert(rt, tree, 1, 2);
    let lone = insert(rt, tree, 602, 700);
    matches!(taken, Err(InsertRefused::IdTaken(content)) if content == !2)
        && matches!(lone, Err(InsertRefused::NoParent(content)) if content == !700)
        && tree.reserve_child(602) == Err(ReserveRefused::NoParent)
}

// The content that was last borrowed to be changed is edited with the others.
fn edit(tree: &mut IdTree<u64, Global>) -> bool {
    if let Some(content) = tree.get_mut(600) {
        *content = !600;
    }
    let told = [
        tree.update_subtree(2, &Narrow { mask: 0xFFFF }),
        tree.update_subtree(9, &Narrow { mask: 0xFF_FFFF }),
        tree.update_subtree(602, &Narrow { mask: 0 }),
    ];
    told == [true, true, false]
}

// The content of a node after the edit. Node 9 and those below it are 86 apart.
fn content_of(id: u64) -> u64 {
    if id % 2 == 0 {
        !id & 0xFFFF
    } else if id % 86 == 9 {
        !id & 0xFF_FFFF
    } else {
        !id
    }
}

// Whether each node is where it was inserted, with its content after the edit.
fn all_stand(tree: &IdTree<u64, Global>) -> bool {
    for id in 2..602u64 {
        let content = tree.get(id).copied();
        if tree.parent_of(id) != Some(above(id)) || content != Some(content_of(id)) {
            return false;
        }
    }
    tree.get(1).copied() == Some(!1) && tree.parent_of(1) == None && tree.depth_of(600) == Some(8)
}

// Whether each node returns its content as soon as it is a leaf, last node first.
fn is_felled(tree: &mut IdTree<u64, Global>) -> bool {
    for id in (2..602u64).rev() {
        let taken = [tree.remove_leaf(above(id)), tree.remove_leaf(id)];
        if taken != [None, Some(content_of(id))] || tree.contains(id) {
            return false;
        }
    }
    tree.children_of(1) == Some(0)
}

fn live(rt: &impl Abort, tree: &mut IdTree<u64, Global>) -> Result<(), Fail> {
    grow(rt, tree)?;
    let are_numbered = are_numbered(tree)?;
    assert!(rt; are_numbered && is_refused(rt, tree));
    assert!(rt; tree.children_of(1) == Some(2) && tree.child_after(1, 2) == Some(3));
    assert!(rt; edit(tree) && all_stand(tree) && is_felled(tree));
    Ok(())
}

#[test]
fn an_edit_keeps_to_its_subtree(rt: HostRuntime) -> Result<(), Fail> {
    let mut tree = IdTree::new(rt.alloc(), 1, !1)?;
    live(&rt, &mut tree)
}
