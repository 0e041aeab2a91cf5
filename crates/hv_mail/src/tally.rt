// How many messages of each port are kept.
ghost use Rattle.std.specs.Prelude.{◌≡◌, ◌+◌, ◌^◌, ◌<◌, ◌≤◌, ℕ, true, false, OnOk, IsOk};
ghost use Rattle.hv_mail.specs.Tally.{has_room, kept_in, one_at, total, way_of};

use crate::tree::{Node, Tree};
use std::alloc::{AllocError, Allocator};

// More messages than any memory holds.
const MOST: usize = 1 << 63;

#[derive(Drop)]
pub(crate) struct Tally<A: Allocator> {
    tree: Tree<A>,
    // For the next port that has no node.
    spare: Option<Box<Node<A>, A>>,
    // The number of all messages.
    kept: usize,
    ghost whole: { kept ≡ total tree },
    ghost few: { kept ≤ 2 ^ 63 },
}

impl<A: Allocator> Tally<A> {
    // Counts no messages, and takes no memory.
    pub(crate) fn new() -> Tally<A>
        ensures counts { (p b : ℕ) → kept_in result.tree p b ≡ 0 }
        ensures room { has_room result.spare result.kept ≡ false }
    {
        Tally {
            tree: Tree::Empty,
            spare: None,
            kept: 0,
        }
    }

    // Whether there is room for a message of any port.
    pub(crate) fn has_room(&self) -> bool
        ensures { result ≡ has_room self.now.spare self.now.kept }
    {
        self.spare.is_some() && self.kept < MOST
    }

    // Makes room for a message of any port.
    pub(crate) fn reserve_one(&mut self, alloc: &A) -> Result<(), AllocError>
    where
        A: Clone,
        ensures room { OnOk result (has_room self.new.spare self.new.kept ≡ true) }
        ensures enough { has_room self.old.spare self.old.kept ≡ true → IsOk result }
        ensures counts { self.new.tree ≡ self.old.tree }
        ensures kept { has_room self.old.spare self.old.kept ≡ true
            → has_room self.new.spare self.new.kept ≡ true }
    {
        if self.kept >= MOST {
            return Err(AllocError);
        }
        if self.spare.is_none() {
            self.spare = Some(new_node(alloc.clone()?)?);
        }
        Ok(())
    }

    // Counts one message more.
    pub(crate) fn add(&mut self, port: u32, born: u64)
        requires { has_room self.old.spare self.old.kept ≡ true }
        ensures { (p b : ℕ) → kept_in self.new.tree p b
            ≡ kept_in self.old.tree p b + one_at port born p b }
    {
        let key = (port, born);
        self.tree.add(&mut self.spare, way_of(key), key);
        self.kept += 1;
    }

    // Counts one message less.
    pub(crate) fn remove(&mut self, port: u32, born: u64)
        requires { 0 < kept_in self.old.tree port born }
        ensures count { (p b : ℕ) → kept_in self.old.tree p b
            ≡ kept_in self.new.tree p b + one_at port born p b }
        ensures kept { has_room self.old.spare self.old.kept ≡ true
            → has_room self.new.spare self.new.kept ≡ true }
    {
        let key = (port, born);
        self.tree.remove(&mut self.spare, way_of(key), key);
        self.kept -= 1;
    }

    // The number of messages of a port and birth.
    pub(crate) fn count(&self, port: u32, born: u64) -> usize
        ensures { result ≡ kept_in self.now.tree port born }
    {
        let key = (port, born);
        self.tree.count(way_of(key), key)
    }
}

// The way to a port's node.
fn way_of(key: (u32, u64)) -> u128
    ensures { result ≡ way_of key }
{
    u128::from(key.0) * (1 << 64) + u128::from(key.1)
}

fn new_node<A: Allocator>(alloc: A) -> Result<Box<Node<A>, A>, AllocError> {
    match Box::new(alloc, Node::idle()) {
        Ok(node) => Ok(node),
        Err(_) => Err(AllocError),
    }
}
