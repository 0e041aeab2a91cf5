// The ends of a script's phases.

use hv_history::next_of;
use hv_policy::Reply;
use hv_script::{FaultKind, Line, parse};
use std::alloc::{AllocError, Global};

/// How many lines of a script are done, and which phases have ended. A phase begins when all lines of the
/// phases before it are done.
#[derive(Drop)]
pub(crate) struct Phases {
    // The number of lines up to the end of each phase, without the last.
    ends: Vec<u64>,
    // The number of lines that are done, and of phases that have ended.
    done: u64,
    past: usize,
}

impl Phases {
    /// Reads the phases of a script. A script with a fault has none.
    pub(crate) fn read(alloc: Global, script: &[u8]) -> Result<Phases, AllocError> {
        let ends = match parse(alloc, script) {
            Ok(script) => ends_of(alloc, script.lines.as_slice())?,
            Err(fault) => match fault.kind {
                FaultKind::Memory => return Err(AllocError),
                _ => Vec::new(alloc),
            },
        };
        Ok(Phases {
            ends,
            done: 0,
            past: 0,
        })
    }

    /// Begins the run again.
    pub(crate) fn restart(&mut self) {
        self.done = 0;
        self.past = 0;
    }

    /// The number of phases that have ended.
    pub(crate) fn past(&self) -> u64 {
        self.past as u64
    }

    /// Takes the reply to an event. If the call doesn't continue, one more line is done.
    pub(crate) fn take(&mut self, reply: &Reply) {
        if next_of(reply.parts().0).is_some() {
            return;
        }
        self.done = self.done.saturating_add(1);
        if let Some(end) = self.ends.get(self.past) {
            if *end <= self.done {
                self.past = self.past.saturating_add(1);
            }
        }
    }
}

// Returns the number of lines up to the end of each phase but the last.
fn ends_of(alloc: Global, lines: &[Line<Global>]) -> Result<Vec<u64>, AllocError> {
    let mut ends = Vec::new(alloc);
    for at in 1..lines.len() {
        if lines[at - 1].phase != lines[at].phase {
            ends.push(at as u64)?;
        }
    }
    Ok(ends)
}
