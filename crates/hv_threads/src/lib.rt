//! Threads that share one history.
//!
//! [`run_phase`] runs each of many works in a thread of its own, on one [`Shared`]. The layer below the
//! threads is `hv_shared`: the lock with its contents, the passes and their settlement. All its names are
//! here, so a user needs this crate alone. [`Driver`] runs one action on a `Shared`. A machine that one
//! thread owns needs no lock: [`act`] runs an action on it.
#![tactic(auto)]

mod action;
mod phase;

pub use action::{Driver, act};
pub use hv_shared::{
    DriveRefused, Gate, Held, Open, Pass, Receipt, ReceiptRef, Receipts, SettleFault,
    SettleRefused, Shared, a_merge_counts_each_number_once, each_caller_did_what_its_pass_has,
    settle,
};
pub use phase::{Done, End, PhaseRefused, Work, run_phase};
