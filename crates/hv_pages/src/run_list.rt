// A list of runs. A few runs stand in the list itself, so that they take no memory, and more of them stand in
// blocks.
ghost use Rattle.std.specs.Prelude.{◌≡◌, ℕ, ◌+◌, ◌^◌, ◌<◌, ◌≤◌, ◌↔◌, [], length, take, drop, All};
ghost use Rattle.std.specs.Prelude.{slice_set, IsOk, OnOk, OnErr, IsNone, IfNone, IfSome, insert, remove};
ghost use Rattle.hv_pages.specs.declared.runs.Run.{Run as ARun};
ghost use Rattle.hv_pages.specs.declared.blocks.Place.{Place as APlace};
ghost use Rattle.hv_pages.specs.Blocks.{AreBlocks};
ghost use Rattle.hv_pages.specs.RunList.{AreFew, AreKept, HasPlace, HasRun, blocks_in, index_of, room_of};
ghost use Rattle.hv_pages.specs.RunList.{run_at, runs_above, runs_from, runs_in};
ghost use Rattle.hv_pages.specs.Runs.{AreRuns};

use crate::blocks::{Blocks, Place, search};
use crate::runs::Run;
use arrayvec::ArrayVec;
use std::alloc::{AllocError, Allocator};

// The most runs that stand in a list itself.
const FEW: usize = 8;

// A list has few runs or blocks, never both. It goes over to blocks once more runs are reserved than it holds
// itself.
#[derive(Drop)]
pub(crate) struct RunList<A: Allocator> {
    pub(crate) few: ArrayVec<Run, FEW>,
    // The number of runs that may come to the few ones.
    pub(crate) spare: usize,
    pub(crate) blocks: Blocks<A>,
}

impl<A: Allocator> RunList<A> {
    pub(crate) fn new(alloc: A) -> RunList<A>
        ensures kept { AreKept result }
        ensures blocks { blocks_in result ≡ [] }
        ensures room { room_of result ≡ 0 }
    {
        RunList {
            few: ArrayVec::new(),
            spare: 0,
            blocks: Blocks::new(alloc),
        }
    }

    // The number of further runs that are sure to find a place.
    pub(crate) fn room(&self) -> usize
        requires { AreKept self.now }
        ensures { result ≡ room_of self.now }
    {
        if self.spare > 0 {
            self.spare
        } else {
            self.blocks.room
        }
    }

    // The place of a position among the few runs, or the end.
    fn place(&self, at: usize) -> Place
        requires kept { AreKept self.now }
        requires some { 1 ≤ length self.now.few.items }
        requires at { at ≤ length self.now.few.items }
        ensures place { HasPlace self.now result }
        ensures at { index_of self.now result ≡ at }
    {
        if at < self.few.len() {
            Place { block: 0, at }
        } else {
            Place { block: 1, at: 0 }
        }
    }

    // The position of a place among the few runs.
    fn position(&self, place: Place) -> usize
        requires kept { AreKept self.now }
        requires few { self.now.blocks.blocks.items ≡ [] }
        requires place { HasPlace self.now place }
        ensures { result ≡ index_of self.now place }
    {
        if place.block == 0 {
            place.at
        } else {
            self.few.len()
        }
    }

    // The place of the first run that begins at the page or below.
    pub(crate) fn find(&self, page: u32) -> Place
        requires kept { AreKept self.now }
        requires runs { AreRuns (runs_in self.now) }
        ensures place { HasPlace self.now result }
        ensures above { All (λ (run : ARun). page < run.first) (runs_above self.now result) }
        ensures from { All (λ (run : ARun). run.first ≤ page) (runs_from self.now result) }
    {
        if self.few.is_empty() {
            self.blocks.find(page)
        } else {
            self.place(search(&self.few, page))
        }
    }

    // The run at a place, or `None` at the end.
    pub(crate) fn get(&self, place: Place) -> Option<Run>
        requires kept { AreKept self.now }
        requires place { HasPlace self.now place }
        ensures none { IsNone result ↔ (length (runs_in self.now) ≤ index_of self.now place) }
        ensures some { IfSome result (λ run. HasRun self.now place
            × ((r : ARun) → run ≡ run_at self.now place r)) }
    {
        if self.few.is_empty() {
            self.blocks.get(place)
        } else if place.block == 0 {
            Some(self.few[place.at])
        } else {
            None
        }
    }

    // The run at a place.
    pub(crate) fn read(&self, place: Place) -> Run
        requires kept { AreKept self.now }
        requires place { HasRun self.now place }
        ensures { (r : ARun) → result ≡ run_at self.now place r }
    {
        if self.few.is_empty() {
            self.blocks.read(place)
        } else {
            self.few[place.at]
        }
    }

    // The place of the run before, or `None` at the first run.
    pub(crate) fn upper(&self, place: Place) -> Option<Place>
        requires kept { AreKept self.now }
        requires place { HasPlace self.now place }
        ensures none { IfNone result (index_of self.now place ≡ 0) }
        ensures some { IfSome result (λ upper. HasRun self.now upper
            × (index_of self.now upper + 1 ≡ index_of self.now place)) }
    {
        if self.few.is_empty() {
            return self.blocks.upper(place);
        }
        let at = self.position(place);
        if at > 0 {
            Some(Place {
                block: 0,
                at: at - 1,
            })
        } else {
            None
        }
    }

    // The place of the next run, or the end.
    pub(crate) fn next(&self, place: Place) -> Place
        requires kept { AreKept self.now }
        requires place { HasRun self.now place }
        ensures place { HasPlace self.now result }
        ensures next { index_of self.now result ≡ index_of self.now place + 1 }
    {
        if self.few.is_empty() {
            self.blocks.next(place)
        } else {
            self.place(place.at + 1)
        }
    }

    // The place of the last run, or `None` if there is no run.
    pub(crate) fn last(&self) -> Option<Place>
        requires kept { AreKept self.now }
        ensures none { IsNone result ↔ (length (runs_in self.now) ≡ 0) }
        ensures some { IfSome result (λ place. HasRun self.now place
            × (index_of self.now place + 1 ≡ length (runs_in self.now))) }
    {
        if self.few.is_empty() {
            self.blocks.last()
        } else {
            Some(Place {
                block: 0,
                at: self.few.len() - 1,
            })
        }
    }

    // The number of runs.
    pub(crate) fn count(&self) -> u64
        requires kept { AreKept self.now }
        requires few { length (runs_in self.now) ≤ 2 ^ 32 }
        ensures { result ≡ length (runs_in self.now) }
    {
        if self.few.is_empty() {
            self.blocks.count()
        } else {
            self.few.len() as u64
        }
    }

    // Makes room for at least `more` runs. If they no longer fit in the list itself, all go to a block.
    pub(crate) fn reserve(&mut self, more: usize) -> Result<(), AllocError>
        requires { AreKept self.old }
        ensures kept { AreKept self.new }
        ensures ok { OnOk result (more ≤ room_of self.new) }
        ensures enough { more ≤ room_of self.old → IsOk result }
        ensures same { runs_in self.new ≡ runs_in self.old }
        ensures room { room_of self.old ≤ room_of self.new }
        ensures unchanged { OnErr result (room_of self.new ≡ room_of self.old) }
    {
        if more <= self.room() {
            return Ok(());
        }
        let free = self.few.remaining_capacity();
        if more <= free && self.blocks.room == 0 && self.blocks.blocks.is_empty() {
            self.spare = free;
            return Ok(());
        }
        self.blocks.reserve(more)?;
        self.leave_few();
        Ok(())
    }

    // Moves the few runs, if there are any, to the first block, for which there is room.
    fn leave_few(&mut self)
        requires few { AreFew self.old }
        requires blocks { AreBlocks self.old.blocks }
        requires room { 1 ≤ self.old.blocks.room }
        ensures kept { AreKept self.new }
        ensures same { runs_in self.new ≡ runs_in self.old }
        ensures room { room_of self.new ≡ self.old.blocks.room }
    {
        if !self.few.is_empty() {
            self.blocks.begin(&self.few);
            self.few.clear();
        }
        self.spare = 0;
    }

    // Replaces the run at a place.
    pub(crate) fn set(&mut self, place: Place, run: Run)
        requires kept { AreKept self.old }
        requires place { HasRun self.old place }
        ensures kept { AreKept self.new }
        ensures runs { runs_in self.new ≡ slice_set (runs_in self.old) (index_of self.old place) run }
        ensures room { room_of self.new ≡ room_of self.old }
        ensures places { (other : APlace) → HasRun self.old other → HasRun self.new other
            × (index_of self.new other ≡ index_of self.old other) }
    {
        if self.few.is_empty() {
            self.blocks.set(place, run);
        } else {
            self.few[place.at] = run;
        }
    }

    // Removes the run at a place.
    pub(crate) fn remove(&mut self, place: Place)
        requires kept { AreKept self.old }
        requires place { HasRun self.old place }
        ensures kept { AreKept self.new }
        ensures runs { runs_in self.new ≡ remove (runs_in self.old) (index_of self.old place) }
        ensures room { room_of self.old ≤ room_of self.new }
    {
        if self.few.is_empty() {
            self.blocks.remove(place);
        } else {
            self.few.remove(place.at);
            self.spare += 1;
        }
    }

    // Inserts a run at a place, before the run that is there.
    pub(crate) fn insert(&mut self, place: Place, run: Run)
        requires kept { AreKept self.old }
        requires room { 1 ≤ room_of self.old }
        requires place { HasPlace self.old place }
        ensures kept { AreKept self.new }
        ensures runs { runs_in self.new ≡ insert (runs_in self.old) (index_of self.old place) run }
        ensures room { room_of self.old ≤ room_of self.new + 1 }
    {
        if self.spare == 0 {
            self.blocks.insert(place, run);
        } else {
            let at = self.position(place);
            self.few.insert(at, run);
            self.spare -= 1;
        }
    }
}
