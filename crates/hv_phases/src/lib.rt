//! A script's lines, run by the processors that they name.
//!
//! Each processor that a script names has one [`hv_threads::Pass`] for the whole run. A phase ends before the
//! next one begins. In a phase, each of its processors drives its lines in order, in a thread of its own. In
//! the script's order, one thread does so, line by line. At the end the passes' receipts are settled with the
//! history. [`run_lines`] returns the machine with its history, why the host stopped the run, if it did, and
//! the fault that the settlement found, if there is one. Of several processors that the host stopped, the one
//! with the first line counts.
//!
//! [`Schedule`] says whose turn it may be, and when a phase ends: it steps through a script's lines by named
//! processor, as an audit names them. Scripts and phases are this project's own.
#![tactic(auto)]

mod barrier;
mod callers;
mod in_order;
mod in_threads;
mod pass_map;
mod run;
mod schedule;
mod stop;
mod turn;
mod turning;

pub use run::{LinesDone, RunError, run_lines};
pub use schedule::Schedule;
pub use turn::Turn;
