// A table of rows by ids.
ghost use Rattle.std.specs.Prelude.{◌≡◌, ◌+◌, ◌≤◌, ◌↔◌, false, IsOk, IsTrue, OnErr, OnOk, slice_get};
ghost use Rattle.std.specs.FinMap as map;
ghost use Rattle.hv_ports.specs.Table.{cleared, no_rows};

use crate::blocks::{Block, FULL, nth, place_of, put, take};
use std::alloc::{AllocError, Allocator};
use std::marker::Model;

// As many rows as a `u32` counts.
const MOST: u32 = 0xFFFF_FFFF;

/// Rows by their ids, in memory of an allocator `A`.
///
/// The room of a table is the number of further rows that it has memory for, at most 1. Dropping a table
/// gives its memory back.
#[derive(Drop)]
pub struct Table<R: Copy, A: Allocator> {
    blocks: Vec<Block<R, A>, A>,
    spare: Option<Block<R, A>>,
    count: u32,
}

impl<R: Copy, A: Allocator> Model for Table<R, A> {
    ghost use Rattle.hv_ports.specs.Blocks.{AreBlocks, flat};
    ghost use Rattle.hv_ports.specs.Table.{TableState, seen_of, table_code};

    ghost Value = { TableState R };

    ghost coded = { table_code R.code };

    ghost view = { λ t. seen_of (flat t.blocks.items) t.spare };

    ghost invariant = { λ t. AreBlocks t.blocks t.spare t.count };
}

impl<R: Copy, A: Allocator> Table<R, A> {
    /// Creates a table without rows, and without memory for any.
    #[tactic(auto, unfolding(crate::specs::Table::rows_of))]
    pub fn new(alloc: A) -> Table<R, A>
        ensures { result ≡ no_rows }
    {
        Table {
            blocks: Vec::new(alloc),
            spare: None,
            count: 0,
        }
    }

    /// The row with this id.
    ///
    /// The time is at most proportional to the logarithm of the count.
    pub fn find(&self, id: u32) -> Option<R>
        ensures { result ≡ map.get self.now.rows id }
    {
        match place_of(self.blocks.as_slice(), id) {
            Ok(place) => Some(self.blocks[place.block][place.at].1),
            Err(_) => None,
        }
    }

    /// The row at a place, with its id, or `None` if there are no more.
    ///
    /// The rows are in order of rising id, from place 0 on. The time is at most proportional to the number of
    /// blocks before the place.
    pub fn at(&self, place: u32) -> Option<(u32, R)>
        ensures { result ≡ slice_get (map.entries self.now.rows) place }
    {
        nth(self.blocks.as_slice(), place as usize)
    }

    /// The number of rows.
    pub fn count(&self) -> u32
        ensures { result ≡ map.len self.now.rows }
    {
        self.count
    }

    /// Returns `true` if there is room for one more row.
    pub fn has_room(&self) -> bool
        ensures { IsTrue result ↔ 1 ≤ self.now.room }
    {
        self.spare.is_some() && self.count < MOST
    }

    /// Makes room for one more row. Existing room always suffices.
    ///
    /// Returns `Err` if there is no memory for it, or if there are 2^32 - 1 rows already. Nothing has changed
    /// then.
    pub fn reserve_one(&mut self) -> Result<(), AllocError>
    where
        A: Clone,
        ensures room { OnOk result (1 ≤ self.new.room) }
        ensures enough { 1 ≤ self.old.room → IsOk result }
        ensures unchanged { OnErr result (self.new ≡ self.old) }
        ensures rows { self.new.rows ≡ self.old.rows }
        ensures kept { self.old.room ≤ self.new.room }
    {
        if self.count == MOST {
            return Err(AllocError);
        }
        if self.spare.is_none() {
            self.blocks.reserve(1)?;
            self.spare = Some(Vec::with_capacity(self.blocks.allocator().clone()?, FULL)?);
        }
        Ok(())
    }

    /// Adds a row with an id that is free. There must be room for it.
    ///
    /// It moves at most the rows of one block, and the list of blocks.
    pub fn insert(&mut self, id: u32, row: R)
        requires room { 1 ≤ self.old.room }
        requires free { map.contains_key self.old.rows id ≡ false }
        ensures rows { self.new.rows ≡ map.insert self.old.rows id row }
        ensures room { self.old.room ≤ self.new.room + 1 }
    {
        let Err(place) = place_of(self.blocks.as_slice(), id) else {
            unreachable!()
        };
        put(&mut self.blocks, &mut self.spare, place, (id, row));
        self.count += 1;
    }

    /// Removes the row with this id, and returns it.
    pub fn remove(&mut self, id: u32) -> Option<R>
        ensures row { result ≡ map.get self.old.rows id }
        ensures rows { self.new.rows ≡ map.remove self.old.rows id }
        ensures room { self.old.room ≤ self.new.room }
    {
        match place_of(self.blocks.as_slice(), id) {
            Ok(place) => {
                self.count -= 1;
                Some(take(&mut self.blocks, place))
            }
            Err(_) => None,
        }
    }

    /// Removes all rows. The room stays.
    pub fn clear(&mut self)
        ensures { self.new ≡ cleared self.old }
    {
        if self.count == MOST {
            self.spare = None;
        }
        self.blocks.clear();
        self.count = 0;
    }
}
