// Runs of pages in blocks. Inserting or removing a run moves the runs of one block. A block that fills up
// becomes two, and two neighbors that fit in half a block become one.
ghost use Rattle.std.specs.Prelude.{◌≡◌, ℕ, ◌+◌, ◌-◌, ◌*◌, ◌^◌, ◌<◌, ◌≤◌, ◌++◌, ◌∷◌, [], ◌↔◌, length, take};
ghost use Rattle.std.specs.Prelude.{drop, All, vec_len, slice_index_or, slice_set, IsOk, OnOk, OnErr, IsNone};
ghost use Rattle.std.specs.Prelude.{IfNone, IfSome, insert, remove, vec_capacity};
ghost use Rattle.arrayvec.specs.ArrayVec.{ArrayVec as Items};
ghost use Rattle.hv_pages.specs.declared.runs.Run.{Run as ARun};
ghost use Rattle.hv_pages.specs.declared.blocks.Place.{Place as APlace};
ghost use Rattle.hv_pages.specs.Blocks.{Block as ABlock, flat, lowest_of, AreBlocks, HasPlace, HasRun};
ghost use Rattle.hv_pages.specs.Blocks.{HaveRoom, IsLoose, index_of, run_at, runs_above, runs_from, runs_in};
ghost use Rattle.hv_pages.specs.Runs.{AreRuns};

use crate::runs::Run;
use arrayvec::ArrayVec;
use std::alloc::{AllocError, Allocator};

// The most runs of a block, and half of that.
pub(crate) const FULL: usize = 256;

pub(crate) const HALF: usize = 128;

pub(crate) type Block = ArrayVec<Run, FULL>;

// The position of a run: its block, and its position in the block.
#[derive(Clone, Copy, Drop)]
pub(crate) struct Place {
    pub(crate) block: usize,
    pub(crate) at: usize,
}

// Blocks of runs. The room is the number of further runs that are sure to find a place.
// proof: it is a field, since no contract of `Vec` says that 128 times a capacity fits a `usize`.
#[derive(Drop)]
pub(crate) struct Blocks<A: Allocator> {
    pub(crate) blocks: Vec<Block, A>,
    pub(crate) room: usize,
}

// Inserts a run into a block that is not full.
fn insert_into<A: Allocator>(blocks: &mut Vec<Block, A>, block: usize, at: usize, run: Run)
    requires block { block < vec_len blocks.old }
    requires at { (b : ABlock) → at ≤ length (slice_index_or blocks.old.items block b).items }
    requires some { (b : ABlock) → length (slice_index_or blocks.old.items block b).items < 256 }
    ensures items { (b : ABlock) → blocks.new.items ≡ slice_set blocks.old.items block
        (record { items = insert (slice_index_or blocks.old.items block b).items at run }) }
    ensures len { vec_len blocks.new ≡ vec_len blocks.old }
    ensures capacity { vec_capacity blocks.new ≡ vec_capacity blocks.old }
{
    blocks[block].insert(at, run);
}

// Inserts a block at a place. The blocks from there on rotate by one place, which the compiler makes one move
// of memory. It would make a loop of `Vec::insert`.
fn insert_block<A: Allocator>(blocks: &mut Vec<Block, A>, at: usize, block: Block)
    requires room { vec_len blocks.old < vec_capacity blocks.old }
    requires within { at ≤ vec_len blocks.old }
    ensures items { blocks.new.items ≡ insert blocks.old.items at block }
    ensures len { vec_len blocks.new ≡ vec_len blocks.old + 1 }
    ensures capacity { vec_capacity blocks.new ≡ vec_capacity blocks.old }
{
    blocks.push_reserved(block);
    blocks[at..].rotate_right(1);
}

// Splits a full block into two.
fn split<A: Allocator>(blocks: &mut Vec<Block, A>, at: usize)
    requires at { at < vec_len blocks.old }
    requires full { (b : ABlock) → length (slice_index_or blocks.old.items at b).items ≡ 256 }
    requires spare { vec_len blocks.old < vec_capacity blocks.old }
    ensures items { (b : ABlock) → blocks.new.items ≡ take at blocks.old.items
        ++ record { items = take 128 (slice_index_or blocks.old.items at b).items }
        ∷ record { items = drop 128 (slice_index_or blocks.old.items at b).items }
        ∷ drop (at + 1) blocks.old.items }
    ensures len { vec_len blocks.new ≡ vec_len blocks.old + 1 }
    ensures capacity { vec_capacity blocks.new ≡ vec_capacity blocks.old }
{
    let mut lower: Block = ArrayVec::new();
    let Ok(()) = lower.try_extend_from_slice(&blocks[at][HALF..]) else {
        unreachable!()
    };
    blocks[at].truncate(HALF);
    insert_block(blocks, at + 1, lower);
}

// Joins two neighbors that fit in half a block.
fn join<A: Allocator>(blocks: &mut Vec<Block, A>, at: usize)
    requires next { at + 1 < vec_len blocks.old }
    requires few { (b : ABlock) → length (slice_index_or blocks.old.items at b).items
        + length (slice_index_or blocks.old.items (at + 1) b).items ≤ 128 }
    ensures items { (b : ABlock) → blocks.new.items ≡ take at blocks.old.items
        ++ record {
          items = (slice_index_or blocks.old.items at b).items
              ++ (slice_index_or blocks.old.items (at + 1) b).items;
        }
        ∷ drop (at + 2) blocks.old.items }
    ensures len { vec_len blocks.new + 1 ≡ vec_len blocks.old }
    ensures capacity { vec_capacity blocks.new ≡ vec_capacity blocks.old }
{
    let lower = blocks.remove(at + 1);
    let Ok(()) = blocks[at].try_extend_from_slice(&lower) else {
        unreachable!()
    };
}

// The number of runs that begin above the page.
pub(crate) fn search(runs: &[Run], page: u32) -> usize
    ensures bound { result ≤ length runs.now }
    ensures above { (r : ARun) → 1 ≤ result → page < (slice_index_or runs.now (result - 1) r).first }
    ensures from { (r : ARun) → result < length runs.now → (slice_index_or runs.now result r).first ≤ page }
{
    let (mut low, mut high) = (0, runs.len());
    while low < high {
        let mid = low + (high - low) / 2;
        if runs[mid].first > page {
            low = mid + 1;
        } else {
            high = mid;
        }
    }
    low
}

// The number of blocks whose runs all begin above the page.
fn search_blocks(blocks: &[Block], page: u32) -> usize
    requires { (k : ℕ) (b : ABlock) → k < length blocks.now
        → 1 ≤ length (slice_index_or blocks.now k b).items }
    ensures bound { result ≤ length blocks.now }
    ensures above { (b : ABlock) (r : ARun) → 1 ≤ result
        → page < (lowest_of (slice_index_or blocks.now (result - 1) b) r).first }
    ensures from { (b : ABlock) (r : ARun) → result < length blocks.now
        → (lowest_of (slice_index_or blocks.now result b) r).first ≤ page }
{
    let (mut low, mut high) = (0, blocks.len());
    while low < high {
        let mid = low + (high - low) / 2;
        let last = blocks[mid].len() - 1;
        if blocks[mid][last].first > page {
            low = mid + 1;
        } else {
            high = mid;
        }
    }
    low
}

impl<A: Allocator> Blocks<A> {
    // The place of the first run that begins at the page or below.
    pub(crate) fn find(&self, page: u32) -> Place
        requires blocks { AreBlocks self.now }
        requires runs { AreRuns (runs_in self.now) }
        ensures place { HasPlace self.now result }
        ensures above { All (λ (run : ARun). page < run.first) (runs_above self.now result) }
        ensures from { All (λ (run : ARun). run.first ≤ page) (runs_from self.now result) }
    {
        let block = search_blocks(&self.blocks, page);
        if block < self.blocks.len() {
            let at = search(&self.blocks[block], page);
            Place { block, at }
        } else {
            Place { block, at: 0 }
        }
    }

    // The run at a place, or `None` at the end.
    pub(crate) fn get(&self, place: Place) -> Option<Run>
        requires blocks { AreBlocks self.now }
        requires place { HasPlace self.now place }
        ensures none { IsNone result ↔ (length (runs_in self.now) ≤ index_of self.now place) }
        ensures some { IfSome result (λ run. HasRun self.now place
            × ((r : ARun) → run ≡ run_at self.now place r)) }
    {
        if place.block < self.blocks.len() {
            Some(self.blocks[place.block][place.at])
        } else {
            None
        }
    }

    // The run at a place.
    pub(crate) fn read(&self, place: Place) -> Run
        requires blocks { AreBlocks self.now }
        requires place { HasRun self.now place }
        ensures { (r : ARun) → result ≡ run_at self.now place r }
    {
        self.blocks[place.block][place.at]
    }

    // The place of the run before, or `None` at the first run.
    pub(crate) fn upper(&self, place: Place) -> Option<Place>
        requires blocks { AreBlocks self.now }
        requires place { HasPlace self.now place }
        ensures none { IfNone result (index_of self.now place ≡ 0) }
        ensures some { IfSome result (λ upper. HasRun self.now upper
            × (index_of self.now upper + 1 ≡ index_of self.now place)) }
    {
        if place.at > 0 {
            Some(Place {
                block: place.block,
                at: place.at - 1,
            })
        } else if place.block > 0 {
            Some(Place {
                block: place.block - 1,
                at: self.blocks[place.block - 1].len() - 1,
            })
        } else {
            None
        }
    }

    // The place of the next run, or the end.
    pub(crate) fn next(&self, place: Place) -> Place
        requires blocks { AreBlocks self.now }
        requires place { HasRun self.now place }
        ensures place { HasPlace self.now result }
        ensures next { index_of self.now result ≡ index_of self.now place + 1 }
    {
        if place.at + 1 < self.blocks[place.block].len() {
            Place {
                block: place.block,
                at: place.at + 1,
            }
        } else {
            Place {
                block: place.block + 1,
                at: 0,
            }
        }
    }

    // The place of the last run, or `None` if there is no run.
    pub(crate) fn last(&self) -> Option<Place>
        requires blocks { AreBlocks self.now }
        ensures none { IsNone result ↔ (length (runs_in self.now) ≡ 0) }
        ensures some { IfSome result (λ place. HasRun self.now place
            × (index_of self.now place + 1 ≡ length (runs_in self.now))) }
    {
        let blocks = self.blocks.len();
        if blocks == 0 {
            return None;
        }
        Some(Place {
            block: blocks - 1,
            at: self.blocks[blocks - 1].len() - 1,
        })
    }

    // The number of runs.
    pub(crate) fn count(&self) -> u64
        requires { length (runs_in self.now) ≤ 2 ^ 32 }
        ensures { result ≡ length (runs_in self.now) }
    {
        let (mut count, mut at) = (0, 0);
        while at < self.blocks.len() {
            count += self.blocks[at].len() as u64;
            at += 1;
        }
        count
    }

    // Replaces the run at a place.
    pub(crate) fn set(&mut self, place: Place, run: Run)
        requires blocks { AreBlocks self.old }
        requires place { HasRun self.old place }
        ensures blocks { AreBlocks self.new }
        ensures runs { runs_in self.new ≡ slice_set (runs_in self.old) (index_of self.old place) run }
        ensures room { self.new.room ≡ self.old.room }
        ensures places { (other : APlace) → HasRun self.old other → HasRun self.new other
            × (index_of self.new other ≡ index_of self.old other) }
    {
        self.blocks[place.block][place.at] = run;
    }

    pub(crate) fn new(alloc: A) -> Blocks<A>
        ensures blocks { AreBlocks result }
        ensures runs { result.blocks.items ≡ [] }
        ensures room { result.room ≡ 0 }
    {
        Blocks {
            blocks: Vec::new(alloc),
            room: 0,
        }
    }

    // Puts few runs into the first block, for which there is room.
    pub(crate) fn begin(&mut self, few: &[Run])
        requires blocks { AreBlocks self.old }
        requires empty { self.old.blocks.items ≡ [] }
        requires room { 1 ≤ self.old.room }
        requires some { 1 ≤ length few.now }
        requires fits { length few.now ≤ 128 }
        ensures blocks { AreBlocks self.new }
        ensures items { self.new.blocks.items ≡ record { items = few.now } ∷ [] }
        ensures room { self.new.room ≡ self.old.room }
    {
        let mut first: Block = ArrayVec::new();
        let Ok(()) = first.try_extend_from_slice(few) else {
            unreachable!()
        };
        self.blocks.push_reserved(first);
    }

    // Makes room for at least `more` runs.
    pub(crate) fn reserve(&mut self, more: usize) -> Result<(), AllocError>
        requires { AreBlocks self.old }
        ensures blocks { AreBlocks self.new }
        ensures ok { OnOk result (more ≤ self.new.room) }
        ensures enough { more ≤ self.old.room → IsOk result }
        ensures same { self.new.blocks.items ≡ self.old.blocks.items }
        ensures room { self.old.room ≤ self.new.room }
        ensures unchanged { OnErr result (self.new.room ≡ self.old.room) }
    {
        if more <= self.room {
            return Ok(());
        }
        let capacity = self.blocks.capacity();
        let spare = capacity - self.blocks.len();
        let wanted = (more - self.room).div_ceil(HALF);
        let Some(additional) = spare.checked_add(wanted) else {
            return Err(AllocError);
        };
        self.blocks.reserve(additional)?;
        let grown = self.blocks.capacity() - capacity;
        self.room = self.room.saturating_add(grown.saturating_mul(HALF));
        Ok(())
    }

    // Removes the run at a place. A block without other runs goes, and a block that has become small joins a
    // neighbor, so that few runs never take many blocks.
    pub(crate) fn remove(&mut self, place: Place)
        requires blocks { AreBlocks self.old }
        requires place { HasRun self.old place }
        ensures blocks { AreBlocks self.new }
        ensures runs { runs_in self.new ≡ remove (runs_in self.old) (index_of self.old place) }
        ensures room { self.old.room ≤ self.new.room }
    {
        if self.blocks[place.block].len() == 1 {
            self.remove_block(place.block);
        } else {
            self.remove_in(place.block, place.at);
            self.join_around(place.block);
        }
    }

    // Removes a block of one run.
    fn remove_block(&mut self, block: usize)
        requires blocks { AreBlocks self.old }
        requires block { block < vec_len self.old.blocks }
        requires one { (b : ABlock) → length (slice_index_or self.old.blocks.items block b).items ≡ 1 }
        ensures blocks { AreBlocks self.new }
        ensures runs { runs_in self.new
            ≡ remove (runs_in self.old) (length (flat (take block self.old.blocks.items))) }
        ensures room { self.old.room ≤ self.new.room }
    {
        self.blocks.remove(block);
        if self.blocks.len() >= 1 {
            self.room = self.room.saturating_add(HALF);
        }
    }

    // Removes a run from a block that has others. The block and a neighbor may then fit in half a block.
    fn remove_in(&mut self, block: usize, at: usize)
        requires blocks { AreBlocks self.old }
        requires block { block < vec_len self.old.blocks }
        requires at { (b : ABlock) → at < length (slice_index_or self.old.blocks.items block b).items }
        requires more { (b : ABlock) → 1 < length (slice_index_or self.old.blocks.items block b).items }
        ensures blocks { HaveRoom self.new }
        ensures loose { IsLoose self.new.blocks.items block }
        ensures runs { runs_in self.new
            ≡ remove (runs_in self.old) (length (flat (take block self.old.blocks.items)) + at) }
        ensures room { self.old.room ≤ self.new.room }
        ensures len { vec_len self.new.blocks ≡ vec_len self.old.blocks }
    {
        if self.blocks[block].len() > HALF {
            self.room = self.room.saturating_add(1);
        }
        self.blocks[block].remove(at);
    }

    // Joins a block with a neighbor if both fit in half a block.
    fn join_around(&mut self, block: usize)
        requires blocks { HaveRoom self.old }
        requires block { block < vec_len self.old.blocks }
        requires loose { IsLoose self.old.blocks.items block }
        ensures blocks { AreBlocks self.new }
        ensures runs { runs_in self.new ≡ runs_in self.old }
        ensures room { self.old.room ≤ self.new.room }
    {
        let len = self.blocks[block].len();
        let next = block + 1;
        if next < self.blocks.len() && len + self.blocks[next].len() <= HALF {
            self.join_next(block);
        } else if block > 0 && self.blocks[block - 1].len() + len <= HALF {
            self.join_next(block - 1);
        }
    }

    // Joins a block with the next one, since both fit in half a block.
    fn join_next(&mut self, block: usize)
        requires blocks { HaveRoom self.old }
        requires next { block + 1 < vec_len self.old.blocks }
        requires few { (b : ABlock) → length (slice_index_or self.old.blocks.items block b).items
            + length (slice_index_or self.old.blocks.items (block + 1) b).items ≤ 128 }
        ensures blocks { HaveRoom self.new }
        ensures items { (b : ABlock) → self.new.blocks.items ≡ take block self.old.blocks.items
            ++ record {
              items = (slice_index_or self.old.blocks.items block b).items
                  ++ (slice_index_or self.old.blocks.items (block + 1) b).items;
            }
            ∷ drop (block + 2) self.old.blocks.items }
        ensures room { self.old.room ≤ self.new.room }
    {
        join(&mut self.blocks, block);
        self.room = self.room.saturating_add(HALF);
    }

    // Inserts a run at a place, before the run that is there.
    pub(crate) fn insert(&mut self, place: Place, run: Run)
        requires blocks { AreBlocks self.old }
        requires room { 1 ≤ self.old.room }
        requires place { HasPlace self.old place }
        ensures blocks { AreBlocks self.new }
        ensures runs { runs_in self.new ≡ insert (runs_in self.old) (index_of self.old place) run }
        ensures room { self.old.room ≤ self.new.room + 1 }
    {
        let blocks = self.blocks.len();
        if blocks == 0 {
            let mut first: Block = ArrayVec::new();
            first.push(run);
            self.blocks.push_reserved(first);
        } else if place.block == blocks {
            let len = self.blocks[blocks - 1].len();
            self.insert_in(blocks - 1, len, run);
        } else {
            self.insert_in(place.block, place.at, run);
        }
    }

    // Inserts a run into a block. A full block is split first.
    fn insert_in(&mut self, block: usize, at: usize, run: Run)
        requires blocks { AreBlocks self.old }
        requires room { 1 ≤ self.old.room }
        requires block { block < vec_len self.old.blocks }
        requires at { (b : ABlock) → at ≤ length (slice_index_or self.old.blocks.items block b).items }
        ensures blocks { AreBlocks self.new }
        ensures runs { runs_in self.new
            ≡ insert (runs_in self.old) (length (flat (take block self.old.blocks.items)) + at) run }
        ensures room { self.old.room ≤ self.new.room + 1 }
    {
        let len = self.blocks[block].len();
        if len < FULL {
            insert_into(&mut self.blocks, block, at, run);
            if len >= HALF {
                self.room -= 1;
            }
        } else {
            split(&mut self.blocks, block);
            if at <= HALF {
                insert_into(&mut self.blocks, block, at, run);
            } else {
                insert_into(&mut self.blocks, block + 1, at - HALF, run);
            }
            self.room -= 1;
        }
    }
}
