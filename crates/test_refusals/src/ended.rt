// The outcome of the trials: the one that was refused, or what is not as expected.

use hv_history::Kept;
use hv_machine::BootRefused;
use std::alloc::{AllocError, AllocFailed, Global};
use thiserror::Error;

// Whether a hold was refused before the gate was entered, or behind it.
#[derive(Clone, Copy, PartialEq, Eq, Debug, Error)]
pub(crate) enum Side {
    #[error("before the gate")]
    Before,
    #[error("behind the gate")]
    Behind,
}

// The call that was refused, and was then made again with memory.
#[derive(Clone, Copy, PartialEq, Eq, Debug, Error)]
pub(crate) enum Refusal {
    #[error("new: the machine came back")]
    New,
    #[error("phase: all work came back")]
    Phase,
    #[error("phase: a work was stopped")]
    Work,
    #[error("call: {0}")]
    Call(Side),
    #[error("denied call: {0}")]
    Denial(Side),
    #[error("drive: element {element}, {side}")]
    Drive { element: u16, side: Side },
    #[error("reserve: the receipts stayed")]
    Reserve,
    #[error("options: the words were read again")]
    Words,
}

// The expectation that does not hold.
#[derive(Clone, Copy, PartialEq, Eq, Debug, Error)]
pub(crate) enum Fault {
    #[error("memory")]
    Memory,
    #[error("write")]
    Write,
    #[error("the machine doesn't boot")]
    Boot,
    #[error("another reason than lack of memory")]
    Reason,
    #[error("refused again, with memory")]
    Again,
    #[error("the machine came back changed")]
    Machine,
    #[error("not a pass for each processor")]
    Passes,
    #[error("a receipt too few or too many")]
    Receipts,
    #[error("a receipt with another number, answer or output")]
    Receipt,
    #[error("the gate was told of a hold too few or too many")]
    Holds,
    #[error("no room was made before the gate")]
    Room,
    #[error("the works came back changed")]
    Works,
    #[error("a work stopped at another action")]
    Stops,
    #[error("a call was answered otherwise")]
    Reply,
    #[error("a call that is denied wanted memory")]
    Denial,
    #[error("a call stopped at another element")]
    Element,
    #[error("words were read otherwise")]
    Words,
    #[error("the history is no merge of the receipts")]
    Merge,
}

impl Fault {
    // The exit status: 3 for out of memory outside a trial, and 1 otherwise.
    pub(crate) fn status(self) -> u8 {
        if self == Fault::Memory { 3 } else { 1 }
    }
}

impl From<AllocError> for Fault {
    fn from(_: AllocError) -> Fault {
        Fault::Memory
    }
}

impl<T: Drop> From<AllocFailed<T>> for Fault {
    fn from(_: AllocFailed<T>) -> Fault {
        Fault::Memory
    }
}

impl From<BootRefused> for Fault {
    fn from(refused: BootRefused) -> Fault {
        match refused {
            BootRefused::Memory => Fault::Memory,
            BootRefused::Pages | BootRefused::Pool | BootRefused::Vps => Fault::Boot,
        }
    }
}

// The machine with its history after all trials, and the one that was refused.
#[derive(Drop)]
pub(crate) struct Ended {
    pub(crate) kept: Kept<Global>,
    pub(crate) refusal: Option<Refusal>,
}

// Returns this fault if something does not hold.
pub(crate) fn must(holds: bool, fault: Fault) -> Result<(), Fault> {
    if holds { Ok(()) } else { Err(fault) }
}
