// Slots in blocks, each an id with its row, by rising ids. Inserting or removing a slot moves those of one
// block. A full block becomes two, and a block whose last slot goes is gone.
ghost use Rattle.std.specs.Prelude.{◌≡◌, ℕ, ◌+◌, ◌-◌, ◌<◌, ◌≤◌, ◌++◌, ◌∷◌, [], length, All, IfErr, IfOk};
ghost use Rattle.std.specs.Prelude.{HoldsAt, IfSome, IsSome, IsTrue, false, insert, remove, slice_get};
ghost use Rattle.std.specs.Prelude.{slice_index_or, vec_capacity, vec_len};
ghost use Rattle.std.specs.List.Sorted.{IsPartitionPoint, IsSearchInRange};
ghost use Rattle.hv_ports.specs.Blocks.{Block as ABlock, IsBlank, IsBlock, IsPlace, IsPlaceOrEnd, IsRising};
ghost use Rattle.hv_ports.specs.Blocks.{before, first_of, flat};

use std::alloc::Allocator;

// The most slots of a block, and half of that.
pub(crate) const FULL: usize = 16;

pub(crate) const HALF: usize = 8;

pub(crate) type Block<R, A> = Vec<(u32, R), A>;

// The place of a slot: its block, and its position in the block.
#[derive(Clone, Copy, Drop)]
pub(crate) struct Place {
    pub(crate) block: usize,
    pub(crate) at: usize,
}

// The number of blocks that begin at the id or below.
fn search_blocks<R: Copy, A: Allocator>(blocks: &[Block<R, A>], id: u32) -> usize
    requires { All IsBlock blocks.now }
    ensures bound { result ≤ length blocks.now }
    ensures from { (b : ABlock R A) (s : ℕ × R) → 1 ≤ result
        → (first_of (slice_index_or blocks.now (result - 1) b) s).0 ≤ id }
    ensures above { (b : ABlock R A) (s : ℕ × R) → result < length blocks.now
        → id < (first_of (slice_index_or blocks.now result b) s).0 }
{
    let (mut low, mut high) = (0, blocks.len());
    while low < high {
        let mid = low + (high - low) / 2;
        if blocks[mid][0].0 <= id {
            low = mid + 1;
        } else {
            high = mid;
        }
    }
    low
}

// The position of the slot with this id in a block, or where it would go.
fn search<R: Copy>(slots: &[(u32, R)], id: u32) -> Result<usize, usize>
    requires { IsRising slots.now }
    ensures within { IsSearchInRange result (length slots.now) }
    ensures found { IfOk result (HoldsAt (λ slot. slot.0 ≡ id) slots.now) }
    ensures between { IfErr result (IsPartitionPoint (λ slot. slot.0 < id) (λ slot. id < slot.0) slots.now) }
{
    slots.binary_search_by_key(&id, |slot| slot.0)
}

// The place of the slot with this id, or where it would go.
pub(crate) fn place_of<R: Copy, A: Allocator>(
    blocks: &[Block<R, A>],
    id: u32,
) -> Result<Place, Place>
    requires each { All IsBlock blocks.now }
    requires rising { IsRising (flat blocks.now) }
    ensures place { IfOk result (IsPlace blocks.now) }
    ensures found { IfOk result (λ place. HoldsAt (λ slot. slot.0 ≡ id) (flat blocks.now)
        (before blocks.now place)) }
    ensures free { IfErr result (IsPlaceOrEnd blocks.now) }
    ensures between { IfErr result (λ place. IsPartitionPoint (λ slot. slot.0 < id) (λ slot. id < slot.0)
        (flat blocks.now) (before blocks.now place)) }
{
    let block = search_blocks(blocks, id).saturating_sub(1);
    if block < blocks.len() {
        match search(blocks[block].as_slice(), id) {
            Ok(at) => Ok(Place { block, at }),
            Err(at) => Err(Place { block, at }),
        }
    } else {
        Err(Place { block, at: 0 })
    }
}

// The slot at a place among all, or `None` if there are no more.
pub(crate) fn nth<R: Copy, A: Allocator>(blocks: &[Block<R, A>], place: usize) -> Option<(u32, R)>
    ensures { result ≡ slice_get (flat blocks.now) place }
{
    let (mut block, mut at) = (0, place);
    while block < blocks.len() {
        let len = blocks[block].len();
        if at < len {
            return Some(blocks[block][at]);
        }
        at -= len;
        block += 1;
    }
    None
}

// Inserts a slot into a block that is not full.
fn insert_in<R: Copy, A: Allocator>(blocks: &mut Vec<Block<R, A>, A>, place: Place, slot: (u32, R))
    requires each { All IsBlock blocks.old.items }
    requires block { place.block < vec_len blocks.old }
    requires at { (b : ABlock R A) → place.at ≤ length (slice_index_or blocks.old.items place.block b).items }
    requires some { (b : ABlock R A) → length (slice_index_or blocks.old.items place.block b).items < 16 }
    ensures slots { flat blocks.new.items
        ≡ insert (flat blocks.old.items) (before blocks.old.items place) slot }
    ensures each { All IsBlock blocks.new.items }
    ensures len { vec_len blocks.new ≡ vec_len blocks.old }
    ensures capacity { vec_capacity blocks.new ≡ vec_capacity blocks.old }
{
    blocks[place.block].insert(place.at, slot).unwrap();
}

// Adds a block with one slot.
fn push_block<R: Copy, A: Allocator>(
    blocks: &mut Vec<Block<R, A>, A>,
    mut blank: Block<R, A>,
    slot: (u32, R),
)
    requires each { All IsBlock blocks.old.items }
    requires blank { IsBlank blank }
    requires spare { vec_len blocks.old < vec_capacity blocks.old }
    ensures slots { flat blocks.new.items ≡ flat blocks.old.items ++ slot ∷ [] }
    ensures each { All IsBlock blocks.new.items }
{
    blank.push_reserved(slot);
    blocks.push_reserved(blank);
}

// Splits a full block into two, and returns what the place becomes.
fn split<R: Copy, A: Allocator>(
    blocks: &mut Vec<Block<R, A>, A>,
    mut blank: Block<R, A>,
    place: Place,
) -> Place
    requires each { All IsBlock blocks.old.items }
    requires blank { IsBlank blank }
    requires spare { vec_len blocks.old < vec_capacity blocks.old }
    requires block { place.block < vec_len blocks.old }
    requires at { place.at ≤ 16 }
    requires full { (b : ABlock R A) → length (slice_index_or blocks.old.items place.block b).items ≡ 16 }
    ensures slots { flat blocks.new.items ≡ flat blocks.old.items }
    ensures each { All IsBlock blocks.new.items }
    ensures block { result.block < vec_len blocks.new }
    ensures at { (b : ABlock R A)
        → result.at ≤ length (slice_index_or blocks.new.items result.block b).items }
    ensures some { (b : ABlock R A)
        → length (slice_index_or blocks.new.items result.block b).items < 16 }
    ensures place { before blocks.new.items result ≡ before blocks.old.items place }
{
    blank
        .extend_from_slice(&blocks[place.block][HALF..])
        .unwrap();
    blocks[place.block].truncate(HALF);
    let Ok(()) = blocks.insert(place.block + 1, blank) else {
        unreachable!()
    };
    if place.at <= HALF {
        place
    } else {
        Place {
            block: place.block + 1,
            at: place.at - HALF,
        }
    }
}

// Whether a slot would come behind all others, to a place behind all blocks or to the end of a full one.
fn is_end<R: Copy, A: Allocator>(blocks: &[Block<R, A>], place: Place) -> bool
    requires place { IsPlaceOrEnd blocks.now place }
    requires full { (b : ABlock R A) → place.block < length blocks.now
        → length (slice_index_or blocks.now place.block b).items ≡ 16 }
    ensures end { IsTrue result → before blocks.now place ≡ length (flat blocks.now) }
    ensures before { result ≡ false → place.block < length blocks.now }
{
    place.block == blocks.len() || (place.at == FULL && place.block + 1 == blocks.len())
}

// Inserts a slot with a blank block, behind all blocks or into a block that is full.
fn grow<R: Copy, A: Allocator>(
    blocks: &mut Vec<Block<R, A>, A>,
    blank: Block<R, A>,
    place: Place,
    slot: (u32, R),
)
    requires each { All IsBlock blocks.old.items }
    requires blank { IsBlank blank }
    requires spare { vec_len blocks.old < vec_capacity blocks.old }
    requires place { IsPlaceOrEnd blocks.old.items place }
    requires full { (b : ABlock R A) → place.block < vec_len blocks.old
        → length (slice_index_or blocks.old.items place.block b).items ≡ 16 }
    ensures slots { flat blocks.new.items
        ≡ insert (flat blocks.old.items) (before blocks.old.items place) slot }
    ensures each { All IsBlock blocks.new.items }
{
    if is_end(blocks, place) {
        push_block(blocks, blank, slot);
    } else {
        let place = split(blocks, blank, place);
        insert_in(blocks, place, slot);
    }
}

// Inserts a slot at a place. It takes the spare block if the place is behind all blocks or in a full one.
pub(crate) fn put<R: Copy, A: Allocator>(
    blocks: &mut Vec<Block<R, A>, A>,
    spare: &mut Option<Block<R, A>>,
    place: Place,
    slot: (u32, R),
)
    requires each { All IsBlock blocks.old.items }
    requires place { IsPlaceOrEnd blocks.old.items place }
    requires some { IsSome spare.old }
    requires blank { IfSome spare.old IsBlank }
    requires fits { IfSome spare.old (λ _. vec_len blocks.old < vec_capacity blocks.old) }
    ensures slots { flat blocks.new.items
        ≡ insert (flat blocks.old.items) (before blocks.old.items place) slot }
    ensures each { All IsBlock blocks.new.items }
    ensures blank { IfSome spare.new IsBlank }
    ensures fits { IfSome spare.new (λ _. vec_len blocks.new < vec_capacity blocks.new) }
{
    if place.block < blocks.len() && blocks[place.block].len() < FULL {
        insert_in(blocks, place, slot);
    } else if let Some(blank) = spare.take() {
        grow(blocks, blank, place, slot);
    }
}

// Removes the slot at a place, and returns its row.
pub(crate) fn take<R: Copy, A: Allocator>(blocks: &mut Vec<Block<R, A>, A>, place: Place) -> R
    requires each { All IsBlock blocks.old.items }
    requires place { IsPlace blocks.old.items place }
    ensures row { (s : ℕ × R) → result
        ≡ (slice_index_or (flat blocks.old.items) (before blocks.old.items place) s).1 }
    ensures slots { flat blocks.new.items ≡ remove (flat blocks.old.items) (before blocks.old.items place) }
    ensures each { All IsBlock blocks.new.items }
    ensures len { vec_len blocks.new ≤ vec_len blocks.old }
    ensures capacity { vec_capacity blocks.new ≡ vec_capacity blocks.old }
{
    let row = blocks[place.block][place.at].1;
    if blocks[place.block].len() == 1 {
        drop(blocks.remove(place.block));
    } else {
        blocks[place.block].remove(place.at);
    }
    row
}
