//! A history that threads share, and its settlement with the receipts of each thread.
//!
//! A [`Shared`] is a lock around a machine with its history ([`Held`]). Each thread has a [`Pass`]: its
//! caller, a receipt of each event that it made happen, and its share of the count of all events. Only a step
//! of [`Held`] adds events and receipts and raises the count. [`settle`] compares the history with all
//! receipts, and is `Ok` exactly if the history is a merge of them (`IsMerge` in `specs/`). Passes and gates
//! are this project's own.
#![tactic(auto)]

mod drive;
mod fault;
mod gate;
mod held;
mod laws;
mod receipts;
mod shared;

pub use drive::DriveRefused;
pub use fault::{SettleFault, SettleRefused};
pub use gate::{Gate, Open};
pub use held::{Held, Pass, settle};
pub use laws::{a_merge_counts_each_number_once, each_caller_did_what_its_pass_has};
pub use receipts::{Receipt, ReceiptRef, Receipts};
pub use shared::Shared;
