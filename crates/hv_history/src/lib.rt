//! A machine with the history of its events.
//!
//! A [`Kept`] has a machine, and the events that it took since boot, with their replies. There are at most as
//! many events as its limit. `IsRun` in `specs/` states the invariant: the history is a run of the flat
//! policy, and the machine stands for the state in which that run ends. The history, its limit and its
//! numbers are this project's own.
#![tactic(auto)]

mod beside;
mod entry;
pub mod global;
mod history;
mod kept;
mod row;
mod run;

pub use beside::members_are_answered_alike;
pub use entry::{Entry, EntryRef, Request};
pub use hv_machine::Answer;
pub use kept::{HostRefused, Kept};
pub use row::History;
pub use run::{RunAnswered, RunDone, next_of};
