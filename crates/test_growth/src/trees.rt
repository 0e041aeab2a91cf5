// Nodes, room for children, and the list of ids.
ghost use Rattle.std.specs.Prelude.{◌<◌, IsTrue, length};
ghost use Rattle.hv_tree.specs.Rows.{children};

use crate::rationed::Heap;
use crate::trial::{Answer, Told, Trial, attempt};
use hv_tree::{IdTree, InsertRefused, ReserveRefused};
use std::alloc::AllocError;

type Tree<'h> = IdTree<u64, &'h Heap>;

// The content of the node with this id. The root is 1.
fn content_of(id: u64) -> u64 {
    !id
}

// Whether the tree has exactly the ids from 1 to the one before `next`, each with its content. All but 1 are
// children of 1.
fn has_all(tree: &Tree<'_>, next: u64) -> bool {
    let Ok(ids) = tree.ids() else {
        return false;
    };
    let mut wanted = 1u64;
    for id in ids.as_slice() {
        let parent = if *id == 1 { None } else { Some(1) };
        let content = tree.get(*id).copied();
        if *id != wanted || tree.parent_of(*id) != parent || content != Some(content_of(*id)) {
            return false;
        }
        wanted = wanted.saturating_add(1);
    }
    match tree.children_of(1) {
        Some(count) => wanted == next && u64::from(count) + 2 == next,
        None => false,
    }
}

// No tree yet.
#[derive(Drop)]
struct Making<'h> {
    heap: &'h Heap,
    made: Option<Tree<'h>>,
}

impl<'h> Trial for Making<'h> {
    fn call(&mut self) -> Answer {
        match IdTree::new(self.heap, 1, content_of(1)) {
            Ok(tree) => {
                self.made = Some(tree);
                Answer::Served
            }
            Err(content) if content == content_of(1) => Answer::Memory,
            Err(_) => Answer::Wrong,
        }
    }

    fn is_before(&mut self) -> bool {
        self.made.is_none()
    }

    fn is_after(&mut self) -> bool {
        match &self.made {
            Some(tree) => has_all(tree, 2),
            None => false,
        }
    }
}

pub(crate) fn make(heap: &Heap, blocks: u64) -> Told {
    attempt(heap, &mut Making { heap, made: None }, blocks)
}

// Whether a node can have one more child.
fn has_few(tree: &Tree<'_>, id: u64) -> bool
    ensures { IsTrue result → length (children tree.now id) < u32.MAX }
{
    match tree.children_of(id) {
        Some(count) => count < 1000,
        None => true,
    }
}

fn insert(tree: &mut Tree<'_>, parent: u64, id: u64) -> Answer {
    if !has_few(tree, parent) {
        return Answer::Wrong;
    }
    match tree.insert_child(parent, id, content_of(id)) {
        Ok(()) => Answer::Served,
        Err(InsertRefused::Memory(content)) if content == content_of(id) => Answer::Memory,
        Err(_) => Answer::Wrong,
    }
}

fn reserve(tree: &mut Tree<'_>) -> Answer {
    match tree.reserve_child(2) {
        Ok(()) => Answer::Served,
        Err(ReserveRefused::Memory) => Answer::Memory,
        Err(ReserveRefused::NoParent) => Answer::Wrong,
    }
}

// The request to a tree.
#[derive(Clone, Copy)]
pub(crate) enum Wanted {
    // Room for a child of 2.
    Room,
    // One more child of the root.
    Child,
    Ids,
}

// A tree whose ids are below the next one.
#[derive(Drop)]
struct Grown<'h> {
    heap: &'h Heap,
    tree: Tree<'h>,
    wanted: Wanted,
    next: u64,
}

impl<'h> Trial for Grown<'h> {
    fn call(&mut self) -> Answer {
        match self.wanted {
            Wanted::Room => reserve(&mut self.tree),
            Wanted::Child => insert(&mut self.tree, 1, self.next),
            Wanted::Ids => match self.tree.ids() {
                Ok(ids) if ids.as_slice() == [1, 2, 3].as_slice() => Answer::Served,
                Ok(_) => Answer::Wrong,
                Err(_) => Answer::Memory,
            },
        }
    }

    fn is_before(&mut self) -> bool {
        has_all(&self.tree, self.next)
    }

    fn is_after(&mut self) -> bool {
        match self.wanted {
            Wanted::Room => has_room(self.heap, &mut self.tree, self.next),
            Wanted::Child => has_all(&self.tree, self.next.saturating_add(1)),
            Wanted::Ids => self.is_before(),
        }
    }
}

// Inserts a child of 2 with one block, that of its node, which no contract shows.
fn has_room(heap: &Heap, tree: &mut Tree<'_>, id: u64) -> bool {
    let are_all = has_all(tree, id);
    heap.ration(1);
    let answer = insert(tree, 2, id);
    heap.lift();
    let is_below = tree.parent_of(id) == Some(2) && tree.get(id).copied() == Some(content_of(id));
    are_all && answer == Answer::Served && is_below
}

// Makes the request to a tree whose root has this many children.
pub(crate) fn ask(
    heap: &Heap,
    wanted: Wanted,
    count: u64,
    blocks: u64,
) -> Result<Told, AllocError> {
    let Ok(mut tree) = IdTree::new(heap, 1, content_of(1)) else {
        return Err(AllocError);
    };
    let next = 2 + count.min(100);
    for id in 2..next {
        insert(&mut tree, 1, id);
    }
    let mut grown = Grown {
        heap,
        tree,
        wanted,
        next,
    };
    Ok(attempt(heap, &mut grown, blocks))
}
