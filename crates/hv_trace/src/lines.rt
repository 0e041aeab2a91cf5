// Which line of a script asks for an event.

use hv_history::next_of;
use hv_policy::{Caller, Reply};
use hv_script::{CutLine, processor};
use indexmap::IndexMap;
use std::alloc::{AllocError, Global};

// A line of a processor.
#[derive(Clone, Copy)]
struct Row {
    // The number of the line in the text. Lines count from 1.
    number: u64,
    by: Caller,
    // The place of the processor's next line, or `usize::MAX`.
    next: usize,
}

/// The lines of a script, and the next one of each processor.
#[derive(Drop)]
pub(crate) struct Lines {
    rows: Vec<Row>,
    turns: IndexMap<(u64, u32), usize>,
}

impl Lines {
    /// Reads the lines of processors of a script's text, up to the first one with a bad byte.
    pub(crate) fn read(alloc: Global, script: &[u8]) -> Result<Lines, AllocError> {
        let mut rows = read_rows(alloc, script)?;
        let turns = link(alloc, &mut rows)?;
        Ok(Lines { rows, turns })
    }

    /// Takes an event of a processor, and returns the number of its line.
    ///
    /// The processor's next event is of the same line if the call continues.
    pub(crate) fn take(&mut self, by: Caller, reply: &Reply) -> u64 {
        let Some(turn) = self.turns.get_mut(&(by.part, by.vp)) else {
            return 0;
        };
        let Some(row) = self.rows.get(*turn) else {
            return 0;
        };
        if next_of(reply.parts().0).is_none() {
            *turn = row.next;
        }
        row.number
    }
}

// Returns the lines of processors, none of which has a next one yet.
fn read_rows(alloc: Global, script: &[u8]) -> Result<Vec<Row>, AllocError> {
    let mut rows = Vec::new(alloc);
    let mut line = CutLine::new();
    let mut rest = script;
    for at in 0..script.len() {
        let Ok(after) = line.cut(rest) else {
            break;
        };
        rest = after;
        if let Ok(by) = processor(line.word(0)) {
            rows.push(Row {
                number: at as u64 + 1,
                by,
                next: usize::MAX,
            })?;
        }
        if rest.is_empty() {
            break;
        }
    }
    Ok(rows)
}

// Sets the next line of each line, and returns the first one of each processor.
fn link(alloc: Global, rows: &mut [Row]) -> Result<IndexMap<(u64, u32), usize>, AllocError> {
    let mut turns = IndexMap::new(alloc);
    for past in 0..rows.len() {
        let at = rows.len() - 1 - past;
        let by = rows[at].by;
        match turns.insert((by.part, by.vp), at) {
            Ok(Some(next)) => rows[at].next = next,
            Ok(None) => {}
            Err(_) => return Err(AllocError),
        }
    }
    Ok(turns)
}
