// A tree of counts.
ghost use Rattle.std.specs.Prelude.{◌≡◌, ◌+◌, ◌^◌, ◌<◌, ◌≤◌, ◌==◌, ◌||◌, ℕ, false, if◌then◌else◌, IsSome};
ghost use Rattle.hv_mail.specs.Tally.{is_idle, is_key, on_way, total};

use std::alloc::Allocator;
use std::mem;

// The numbers of messages by port. The way to a port's node is a number: from each node it leads low if it is
// even and high if it is odd, and its half leads on. So a way has at most one node more than its number has
// bits, whatever ports there are.
#[cycle(tree)]
#[derive(Drop)]
pub(crate) enum Tree<A: Allocator> {
    Empty,
    Full(Box<Node<A>, A>),
}

#[cycle(tree)]
#[derive(Drop)]
pub(crate) struct Node<A: Allocator> {
    // A port's id and birth.
    key: (u32, u64),
    // How many of its messages were counted here. If none, the node is free for the next port whose way leads
    // here.
    count: usize,
    low: Tree<A>,
    high: Tree<A>,
}

impl<A: Allocator> Node<A> {
    // A node that counts nothing.
    pub(crate) fn idle() -> Node<A> {
        Node {
            key: (0, 0),
            count: 0,
            low: Tree::Empty,
            high: Tree::Empty,
        }
    }

    // The number of a port's messages that were counted here.
    fn count_of(&self, key: (u32, u64)) -> usize
        ensures { result ≡ (if is_key self.now.key key then self.now.count else 0) }
    {
        if self.key.0 == key.0 && self.key.1 == key.1 {
            self.count
        } else {
            0
        }
    }

    // Whether a port can be counted here.
    fn takes(&self, key: (u32, u64)) -> bool
        ensures { result ≡ ((self.now.count == 0) || is_key self.now.key key) }
    {
        self.count == 0 || (self.key.0 == key.0 && self.key.1 == key.1)
    }
}

impl<A: Allocator> Tree<A> {
    // Counts one message more. A port without a node takes the spare one.
    pub(crate) fn add(&mut self, spare: &mut Option<Box<Node<A>, A>>, way: u128, key: (u32, u64))
        requires spare { IsSome spare.old }
        requires few { total self.old < 2 ^ 63 }
        ensures counted { on_way self.new way key ≡ on_way self.old way key + 1 }
        ensures others { (w : ℕ) (k : ℕ × ℕ) → is_key key k ≡ false
            → on_way self.new w k ≡ on_way self.old w k }
        ensures total { total self.new ≡ total self.old + 1 }
    {
        match self {
            Tree::Empty => {
                let Some(mut node) = spare.take() else {
                    unreachable!()
                };
                *node = Node {
                    key,
                    count: 1,
                    low: Tree::Empty,
                    high: Tree::Empty,
                };
                *self = Tree::Full(node);
            }
            Tree::Full(node) => {
                if node.takes(key) {
                    node.key = key;
                    node.count += 1;
                } else if way % 2 == 0 {
                    node.low.add(spare, way / 2, key);
                } else {
                    node.high.add(spare, way / 2, key);
                }
            }
        }
    }

    // Counts one message less. A node that is idle then becomes the spare one.
    pub(crate) fn remove(&mut self, spare: &mut Option<Box<Node<A>, A>>, way: u128, key: (u32, u64))
        requires { 0 < on_way self.old way key }
        ensures counted { on_way self.old way key ≡ on_way self.new way key + 1 }
        ensures others { (w : ℕ) (k : ℕ × ℕ) → is_key key k ≡ false
            → on_way self.new w k ≡ on_way self.old w k }
        ensures total { total self.old ≡ total self.new + 1 }
        ensures kept { IsSome spare.old → IsSome spare.new }
    {
        let Tree::Full(node) = self else {
            unreachable!()
        };
        if node.count_of(key) > 0 {
            node.count -= 1;
        } else if way % 2 == 0 {
            node.low.remove(spare, way / 2, key);
        } else {
            node.high.remove(spare, way / 2, key);
        }
        self.prune(spare);
    }

    // Gives a node away that counts nothing and has none below.
    fn prune(&mut self, spare: &mut Option<Box<Node<A>, A>>)
        ensures ways { (w : ℕ) (k : ℕ × ℕ) → on_way self.new w k ≡ on_way self.old w k }
        ensures total { total self.new ≡ total self.old }
        ensures kept { IsSome spare.old → IsSome spare.new }
    {
        if self.is_idle() {
            if let Tree::Full(node) = mem::replace(self, Tree::Empty) {
                *spare = Some(node);
            }
        }
    }

    // Whether nothing is counted here, and there are no nodes below.
    fn is_idle(&self) -> bool
        ensures { result ≡ is_idle self.now }
    {
        match self {
            Tree::Empty => true,
            Tree::Full(node) => {
                node.count == 0
                    && matches!(node.low, Tree::Empty)
                    && matches!(node.high, Tree::Empty)
            }
        }
    }

    // The number of a port's messages on its way.
    pub(crate) fn count(&self, way: u128, key: (u32, u64)) -> usize
        requires { on_way self.now way key ≤ 2 ^ 63 }
        ensures { result ≡ on_way self.now way key }
    {
        let Tree::Full(node) = self else {
            return 0;
        };
        let below = if way % 2 == 0 { &node.low } else { &node.high };
        node.count_of(key) + below.count(way / 2, key)
    }
}
