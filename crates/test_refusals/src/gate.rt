// A gate that counts.

use crate::ended::{Fault, Side, must};
use hv_policy::Caller;
use hv_threads::Gate;
use std::sync::Wait;
use std::sync::atomic::{AtomicU64, Ordering};

// Counts how often it is entered and left.
#[derive(Drop)]
pub(crate) struct Count {
    entered: AtomicU64,
    left: AtomicU64,
}

impl Count {
    pub(crate) fn new() -> Count {
        Count {
            entered: AtomicU64::new(0),
            left: AtomicU64::new(0),
        }
    }

    // Returns the number of holds, if it was both entered and left for each.
    fn holds(&self) -> Result<u64, Fault> {
        let entered = self.entered.load(Ordering::SeqCst);
        must(self.left.load(Ordering::SeqCst) == entered, Fault::Holds)?;
        Ok(entered)
    }

    // Checks that there were this many holds.
    pub(crate) fn must_have(&self, holds: u64) -> Result<(), Fault> {
        must(self.holds()? == holds, Fault::Holds)
    }

    // The side of the gate on which a hold was refused, given the number of other holds.
    pub(crate) fn side_after(&self, others: u64) -> Result<Side, Fault> {
        match self.holds()?.checked_sub(others) {
            Some(0) => Ok(Side::Before),
            Some(1) => Ok(Side::Behind),
            _ => Err(Fault::Holds),
        }
    }
}

impl Gate for Count {
    fn enter<R: Wait>(&self, _rt: &R, _by: Caller, _turn: u64) {
        self.entered.fetch_add(1, Ordering::SeqCst);
    }

    fn leave<R: Wait>(&self, _rt: &R, _by: Caller, _turn: u64) {
        self.left.fetch_add(1, Ordering::SeqCst);
    }
}
