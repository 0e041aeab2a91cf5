//! Checks whether a recorded audit is a legal run of a script.
//!
//! An emulator records its events in the order in which they happened. [`check`] reads such an audit beside
//! the script, and returns that it is legal, or the first line that isn't. `IsLegal` of `specs/Legal.antt`
//! defines legal: some history is a run of the policy from the script's boot, in which each processor's
//! events are those that its lines ask for, phase by phase, and this history's audit has these bytes.
//! [`check_text`] takes both texts and returns an exit status. [`check_json`] prints the verdict as JSON.
//!
//! Nothing here opens a file. Scripts and audits are this project's own.
#![tactic(auto)]

mod audit;
mod compare;
mod ending;
mod entry;
mod json;
mod own_line;
mod reader;
mod step;
mod tell;
mod verdict;

pub use audit::check;
pub use entry::{check_json, check_text};
pub use own_line::OwnLine;
pub use verdict::{Ask, Verdict, Wrong};
