// A tree of two nodes, one call at a time.
ghost use Rattle.std.specs.Prelude.{◌<◌, IsTrue, length};
ghost use Rattle.hv_tree.specs.Rows.{children};

use hv_tree::{IdTree, InsertRefused, ReserveRefused};
use std::alloc::Global;
use std::process::Abort;
use std::test::Fail;

fn has_few(tree: &IdTree<char, Global>, id: u64) -> bool
    ensures { IsTrue result → length (children tree.now id) < u32.MAX }
{
    match tree.children_of(id) {
        Some(count) => count < 1000,
        None => true,
    }
}

fn insert(
    rt: &impl Abort,
    tree: &mut IdTree<char, Global>,
    parent: u64,
    id: u64,
    content: char,
) -> Result<(), InsertRefused<char>> {
    assert!(rt; has_few(tree, parent));
    tree.insert_child(parent, id, content)
}

#[test]
fn each_call_has_its_answer(rt: HostRuntime) -> Result<(), Fail> {
    let mut tree = IdTree::new(rt.alloc(), 1, 'a')?;
    let put = insert(&rt, &mut tree, 1, 2, 'b');
    assert!(&rt; put.is_ok());
    let taken = insert(&rt, &mut tree, 1, 2, 'c');
    assert!(&rt; matches!(taken, Err(InsertRefused::IdTaken(content)) if content == 'c'));
    let lone = insert(&rt, &mut tree, 9, 3, 'c');
    assert!(&rt; matches!(lone, Err(InsertRefused::NoParent(content)) if content == 'c'));
    assert!(&rt; tree.reserve_child(9) == Err(ReserveRefused::NoParent));
    assert!(&rt; tree.reserve_child(2) == Ok(()));
    assert!(&rt; tree.remove_leaf(1) == None);
    let ids = tree.ids()?;
    assert!(&rt; ids.as_slice() == [1, 2].as_slice());
    assert!(&rt; tree.remove_leaf(2) == Some('b'));
    assert!(&rt; tree.remove_leaf(2) == None);
    Ok(())
}
