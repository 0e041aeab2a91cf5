// The lanes of a sequence chart.

use hv_policy::Caller;
use indexmap::IndexSet;
use std::alloc::{AllocError, Global};

/// The processors that have a lane, from left to right, each by its partition and its index there.
#[derive(Drop)]
pub(crate) struct Lanes {
    vps: IndexSet<(u64, u32)>,
}

impl Lanes {
    pub(crate) fn new(alloc: Global) -> Lanes {
        Lanes {
            vps: IndexSet::new(alloc),
        }
    }

    pub(crate) fn as_slice(&self) -> &[(u64, u32)] {
        self.vps.as_slice()
    }

    /// Returns the lane of a processor, counted from 0. It makes one behind the others if there is none.
    pub(crate) fn take(&mut self, vp: Caller) -> Result<usize, AllocError> {
        match self.vps.insert_full((vp.part, vp.vp)) {
            Ok((at, _)) => Ok(at),
            Err(_) => Err(AllocError),
        }
    }

    /// Sorts the lanes by their partitions, and those of a partition by their indexes there.
    pub(crate) fn sort(&mut self) -> Result<(), AllocError> {
        self.vps.sort()
    }
}
