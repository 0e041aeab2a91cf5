// Where the rows of a sequence chart are, the names of its lanes between them, and the ends of phases.

use std::alloc::{AllocError, Global};

// The y of the first row, and the distance between rows.
const TOP: u64 = 80;

const ROW: u64 = 28;

// The most rows below the names of the lanes, and the room that names between rows take.
const BELOW_NAMES: u64 = 40;

const NAMES: u64 = 48;

/// The heights of what a chart shows, from top to bottom.
#[derive(Drop)]
pub(crate) struct Layout {
    // The number of rows, and the y of the next one.
    rows: u64,
    next: u64,
    // The number of phases that had ended before the last row.
    past: u64,
    names: Vec<u64>,
    ends: Vec<(u64, u64)>,
}

impl Layout {
    /// Creates a layout without rows.
    pub(crate) fn new(alloc: Global) -> Layout {
        Layout {
            rows: 0,
            next: TOP,
            past: 0,
            names: Vec::new(alloc),
            ends: Vec::new(alloc),
        }
    }

    /// Removes all rows.
    pub(crate) fn restart(&mut self) {
        self.rows = 0;
        self.next = TOP;
        self.past = 0;
        self.names.clear();
        self.ends.clear();
    }

    /// Places the next row, before which this many phases have ended, and returns the y of its middle.
    pub(crate) fn place(&mut self, past: u64) -> Result<u64, AllocError> {
        if self.rows > 0 {
            self.place_end(past)?;
            self.place_names()?;
        }
        self.past = past;
        self.rows = self.rows.saturating_add(1);
        Ok(self.step(ROW))
    }

    /// The y below the last row.
    pub(crate) fn end(&self) -> u64 {
        self.next
    }

    /// The y of each line of names between rows.
    pub(crate) fn names(&self) -> &[u64] {
        self.names.as_slice()
    }

    /// The y of each end of phases between rows, and how many have ended there.
    pub(crate) fn ends(&self) -> &[(u64, u64)] {
        self.ends.as_slice()
    }

    // Places the end of phases, if one ended since the last row.
    fn place_end(&mut self, past: u64) -> Result<(), AllocError> {
        if past == self.past {
            return Ok(());
        }
        let y = self.step(ROW);
        self.ends.push((y, past))?;
        Ok(())
    }

    // Places the names of the lanes, if there are enough rows below the last ones.
    fn place_names(&mut self) -> Result<(), AllocError> {
        if self.rows % BELOW_NAMES != 0 {
            return Ok(());
        }
        let y = self.step(NAMES);
        self.names.push(y)?;
        Ok(())
    }

    // Goes down by this height, and returns the y before it.
    fn step(&mut self, height: u64) -> u64 {
        let y = self.next;
        self.next = y.saturating_add(height);
        y
    }
}
