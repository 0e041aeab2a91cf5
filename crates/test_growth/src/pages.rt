// Sets of pages.

use crate::rationed::Heap;
use crate::trial::{Answer, Told, Trial, answer_of, attempt};
use hv_pages::PageSet;
use std::alloc::AllocError;

// Whether the set has exactly these pages, all of them distinct.
fn has(set: &PageSet<&Heap>, pages: &[u32]) -> bool {
    for page in pages {
        if !set.holds(*page) {
            return false;
        }
    }
    set.count() == pages.len() as u64
}

fn put(set: &mut PageSet<&Heap>, page: u32) -> bool {
    if set.room() < 1 || set.holds(page) {
        return false;
    }
    set.put(page);
    true
}

// Pages 3 and 5, and a request for room for more changes than there is.
#[derive(Drop)]
struct Grown<'h> {
    set: PageSet<&'h Heap>,
    room: usize,
    wanted: usize,
}

impl<'h> Trial for Grown<'h> {
    fn call(&mut self) -> Answer {
        answer_of(self.set.reserve(self.wanted))
    }

    fn is_before(&mut self) -> bool {
        has(&self.set, &[3, 5]) && self.set.room() == self.room
    }

    fn is_after(&mut self) -> bool {
        self.set.room() >= self.wanted && goes_on(&mut self.set)
    }
}

// The lowest page is taken and put back, and a page that is not in the set is not taken.
fn goes_on(set: &mut PageSet<&Heap>) -> bool {
    if set.room() < 1 || set.take(9) {
        return false;
    }
    let lowest = set.take_lowest();
    lowest == Some(3) && has(set, &[5]) && put(set, 3) && has(set, &[3, 5])
}

pub(crate) fn reserve(heap: &Heap, blocks: u64) -> Result<Told, AllocError> {
    let mut set = PageSet::new(heap);
    set.reserve(2)?;
    for page in [5, 3] {
        put(&mut set, page);
    }
    let room = set.room();
    let wanted = room.saturating_add(2);
    Ok(attempt(heap, &mut Grown { set, room, wanted }, blocks))
}

// Inserts a run into an empty set with room for one change, with this many blocks.
fn run_of<'h>(heap: &'h Heap, blocks: u64) -> Result<PageSet<&'h Heap>, AllocError> {
    let mut set = PageSet::new(heap);
    set.reserve(1)?;
    heap.ration(blocks);
    set.put_run(10, 20);
    heap.lift();
    Ok(set)
}

pub(crate) fn put_run(heap: &Heap, blocks: u64) -> Result<Told, AllocError> {
    let set = run_of(heap, blocks)?;
    let ends = [set.holds(9), set.holds(10), set.holds(29), set.holds(30)];
    let is_right = set.count() == 20 && set.runs() == 1 && ends == [false, true, true, false];
    let refused = false;
    Ok(Told { refused, is_right })
}
