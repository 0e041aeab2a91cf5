// The runs of two sets become one list, in the memory of one of them. Its blocks move up by a gap, and its
// runs are read from there on. The runs of both are written from the first block on, the highest first. The
// gap has a place for each run of the other set, so no write meets a run that is not read yet.
ghost use Rattle.std.specs.Prelude.{◌≡◌, ℕ, ◌+◌, ◌*◌, ◌<◌, ◌≤◌, ◌++◌, ◌∷◌, [], length, take, drop, All, max};
ghost use Rattle.std.specs.Prelude.{IfNone, IfSome, MatchOption, IsPermutation, vec_len, vec_capacity};
ghost use Rattle.hv_pages.specs.PageSet.{pages_of, IsDisjoint};
ghost use Rattle.hv_pages.specs.Blocks.{AreBlocks, AreDense, IsBlock, flat, runs_in, weight};
ghost use Rattle.hv_pages.specs.Merge.{IsCursor, IsNext, IsPushed, IsUnder, IsWritten, count_of, left};
ghost use Rattle.hv_pages.specs.Merge.{places_before, written};
ghost use Rattle.hv_pages.specs.Runs.{AreRuns, IsRun, spread};

use crate::blocks::{Block, Blocks, FULL, HALF, Place};
use crate::runs::Run;
use arrayvec::ArrayVec;
use std::alloc::Allocator;

// The runs that are written: the number of full blocks, and the runs of the next one.
#[derive(Drop)]
pub(crate) struct Written {
    pub(crate) full: usize,
    pub(crate) last: Block,
}

// The run at a place, or `None` at the end.
fn peek(blocks: &[Block], place: Place) -> Option<Run>
    requires { IsCursor blocks.now place }
    ensures { MatchOption result (left blocks.now place ≡ [])
        (λ run. left blocks.now place ≡ run ∷ drop 1 (left blocks.now place)) }
{
    if place.block < blocks.len() {
        Some(blocks[place.block][place.at])
    } else {
        None
    }
}

// The place of the next run, or the end.
fn after(blocks: &[Block], place: Place) -> Place
    requires place { IsCursor blocks.now place }
    requires some { 1 ≤ length (left blocks.now place) }
    ensures place { IsCursor blocks.now result }
    ensures left { left blocks.now result ≡ drop 1 (left blocks.now place) }
    ensures more { places_before place + 1 ≤ places_before result }
{
    if place.at + 1 < blocks[place.block].len() {
        Place {
            block: place.block,
            at: place.at + 1,
        }
    } else {
        Place {
            block: place.block + 1,
            at: 0,
        }
    }
}

// Reads the higher of the next runs of two lists.
fn read_next(own: &[Block], read: &mut Place, more: &[Block], at: &mut Place) -> Option<Run>
    requires own { IsCursor own.now read.old }
    requires more { IsCursor more.now at.old }
    ensures own { IsCursor own.now read.new }
    ensures more { IsCursor more.now at.new }
    ensures none { IfNone result ((left own.now read.old ≡ []) × (left more.now at.old ≡ [])) }
    ensures some { IfSome result (λ run. IsNext run (left own.now read.old) (left own.now read.new)
        (left more.now at.old) (left more.now at.new)) }
    ensures places { IfSome result (λ run. places_before read.old + length (left more.now at.new) + 1
        ≤ places_before read.new + length (left more.now at.old)) }
{
    match (peek(own, *read), peek(more, *at)) {
        (Some(run), Some(other)) => {
            if run.first < other.first {
                *at = after(more, *at);
                Some(other)
            } else {
                *read = after(own, *read);
                Some(run)
            }
        }
        (Some(run), None) => {
            *read = after(own, *read);
            Some(run)
        }
        (None, Some(other)) => {
            *at = after(more, *at);
            Some(other)
        }
        (None, None) => None,
    }
}

// Writes a run behind the others.
fn write<A: Allocator>(blocks: &mut Vec<Block, A>, w: &mut Written, run: Run)
    requires written { IsWritten blocks.old.items w.old }
    requires place { count_of w.old < 256 * vec_len blocks.old }
    ensures written { IsWritten blocks.new.items w.new }
    ensures runs { written blocks.new.items w.new ≡ written blocks.old.items w.old ++ run ∷ [] }
    ensures count { count_of w.new ≡ count_of w.old + 1 }
    ensures some { 1 ≤ length w.new.last.items }
    ensures rest { (i : ℕ) → w.new.full ≤ i → drop i blocks.new.items ≡ drop i blocks.old.items }
    ensures len { vec_len blocks.new ≡ vec_len blocks.old }
    ensures capacity { vec_capacity blocks.new ≡ vec_capacity blocks.old }
{
    if w.last.len() == FULL {
        blocks[w.full] = std::mem::replace(&mut w.last, ArrayVec::new());
        w.full += 1;
    }
    w.last.push(run);
}

// Writes a run that is below the others. It joins the last one if they touch.
fn write_below<A: Allocator>(blocks: &mut Vec<Block, A>, w: &mut Written, run: Run)
    requires written { IsWritten blocks.old.items w.old }
    requires place { count_of w.old < 256 * vec_len blocks.old }
    requires runs { AreRuns (written blocks.old.items w.old) }
    requires run { IsRun run }
    requires under { IsUnder (written blocks.old.items w.old) run }
    ensures written { IsWritten blocks.new.items w.new }
    ensures pushed { IsPushed (written blocks.old.items w.old) run (written blocks.new.items w.new) }
    ensures count { count_of w.new ≤ count_of w.old + 1 }
    ensures some { 1 ≤ length w.new.last.items }
    ensures rest { (i : ℕ) → w.new.full ≤ i → drop i blocks.new.items ≡ drop i blocks.old.items }
    ensures len { vec_len blocks.new ≡ vec_len blocks.old }
    ensures capacity { vec_capacity blocks.new ≡ vec_capacity blocks.old }
{
    let len = w.last.len();
    if len > 0 && run.last + 1 == w.last[len - 1].first {
        w.last[len - 1].first = run.first;
    } else {
        write(blocks, w, run);
    }
}

// Moves the blocks up by a gap of empty ones.
fn make_gap<A: Allocator>(blocks: &mut Vec<Block, A>, gap: usize)
    requires { vec_len blocks.old + gap ≤ vec_capacity blocks.old }
    ensures items { drop gap blocks.new.items ≡ blocks.old.items }
    ensures len { vec_len blocks.new ≡ vec_len blocks.old + gap }
    ensures capacity { vec_capacity blocks.new ≡ vec_capacity blocks.old }
{
    let len = blocks.len();
    while blocks.len() < len + gap {
        blocks.push_reserved(ArrayVec::new());
    }
    blocks.rotate_left(len);
}

// Adds a full block and one of few runs, which takes half of the full one.
fn share<A: Allocator>(blocks: &mut Vec<Block, A>, upper: Block, last: Block)
    requires room { vec_len blocks.old + 1 < vec_capacity blocks.old }
    requires full { length upper.items ≡ 256 }
    requires few { length last.items < 128 }
    ensures items { blocks.new.items ≡ blocks.old.items ++ record { items = take 128 upper.items }
        ∷ record { items = drop 128 upper.items ++ last.items } ∷ [] }
    ensures capacity { vec_capacity blocks.new ≡ vec_capacity blocks.old }
{
    let mut upper = upper;
    let mut lower: Block = ArrayVec::new();
    let Ok(()) = lower.try_extend_from_slice(&upper[HALF..]) else {
        unreachable!()
    };
    let Ok(()) = lower.try_extend_from_slice(&last) else {
        unreachable!()
    };
    upper.truncate(HALF);
    blocks.push_reserved(upper);
    blocks.push_reserved(lower);
}

// Leaves the blocks that are written. A last block of few runs takes half of the one before.
fn finish<A: Allocator>(blocks: &mut Vec<Block, A>, w: Written)
    requires written { IsWritten blocks.old.items w }
    requires some { 1 ≤ length w.last.items }
    requires place { count_of w ≤ 256 * vec_len blocks.old }
    ensures runs { flat blocks.new.items ≡ written blocks.old.items w }
    ensures each { All IsBlock blocks.new.items }
    ensures dense { AreDense 129 blocks.new.items }
    ensures weight { weight blocks.new.items ≤ max 128 (count_of w) }
    ensures capacity { vec_capacity blocks.new ≡ vec_capacity blocks.old }
{
    let Written { full, last } = w;
    blocks.truncate(full);
    if last.len() < HALF {
        match blocks.pop() {
            None => blocks.push_reserved(last),
            Some(upper) => share(blocks, upper, last),
        }
    } else {
        blocks.push_reserved(last);
    }
}

// Merges all runs of other blocks that share no page with these. They are more than half a block, so the room
// for them has a gap of blocks.
pub(crate) fn merge_all<A: Allocator>(blocks: &mut Blocks<A>, more: &Blocks<A>, count: usize)
    requires blocks { AreBlocks blocks.old }
    requires runs { AreRuns (runs_in blocks.old) }
    requires more { AreBlocks more.now }
    requires more_runs { AreRuns (runs_in more.now) }
    requires count { count ≡ length (runs_in more.now) }
    requires many { 128 < count }
    requires room { count ≤ blocks.old.room }
    requires disjoint { IsDisjoint (pages_of (spread (runs_in blocks.old)))
        (pages_of (spread (runs_in more.now))) }
    ensures blocks { AreBlocks blocks.new }
    ensures runs { AreRuns (runs_in blocks.new) }
    ensures pages { IsPermutation (spread (runs_in blocks.new))
        (spread (runs_in blocks.old) ++ spread (runs_in more.now)) }
    ensures room { blocks.old.room ≤ blocks.new.room + count }
{
    let gap = count.div_ceil(FULL);
    make_gap(&mut blocks.blocks, gap);
    let mut read = Place { block: gap, at: 0 };
    let mut at = Place { block: 0, at: 0 };
    let mut w = Written {
        full: 0,
        last: ArrayVec::new(),
    };
    while let Some(run) = read_next(&blocks.blocks, &mut read, &more.blocks, &mut at) {
        write_below(&mut blocks.blocks, &mut w, run);
    }
    finish(&mut blocks.blocks, w);
    blocks.room -= count;
}
