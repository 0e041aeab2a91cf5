// An allocator that gives a number of blocks and then refuses every further one.

use std::alloc::{AllocError, Allocator, Global};
use std::cell::Cell;

/// The allocator from which the tests take their blocks.
pub type Heap = Rationed<Global>;

/// Limits another allocator to a number of blocks.
///
/// A block that is given back does not count again, and growing a block takes a new one.
pub struct Rationed<B: Allocator> {
    inner: B,
    left: Cell<u64>,
}

impl<B: Allocator> Rationed<B> {
    /// Creates an allocator without a limit: it refuses nothing that the other gives.
    pub fn new(inner: B) -> Rationed<B> {
        Rationed {
            inner,
            left: Cell::new(u64::MAX),
        }
    }

    /// Limits the allocator to this many further blocks.
    pub fn ration(&self, blocks: u64) {
        self.left.set(blocks);
    }

    /// Lifts the limit, so that the allocator refuses nothing that the other gives.
    pub fn lift(&self) {
        self.left.set(u64::MAX);
    }

    /// Returns the other allocator.
    pub fn inner(&self) -> B
    where
        B: Copy,
    {
        self.inner
    }
}

impl<B: Allocator> Drop for Rationed<B> {
    fn drop(self) {
        let Self { inner: _, left: _ } = self;
    }
}

// Takes one block from the ration, and returns whether one was left.
fn spend(left: &Cell<u64>) -> bool {
    match left.get().checked_sub(1) {
        Some(fewer) => {
            left.set(fewer);
            true
        }
        None => false,
    }
}

unsafe impl<B: Allocator> Allocator for Rationed<B> {
    ghost dealloc_token = { λ heap ty ptr. B.dealloc_token heap.inner ty ptr };

    fn allocate(&self, size: usize, align: usize) -> Result<*mut u8, AllocError> {
        if spend(&self.left) {
            self.inner.allocate(size, align)
        } else {
            Err(AllocError)
        }
    }

    unsafe fn deallocate(&self, ptr: *mut u8, size: usize, align: usize) {
        self.inner.deallocate(ptr, size, align);
    }
}
