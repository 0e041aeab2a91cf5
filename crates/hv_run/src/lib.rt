//! A run of a script, from its bytes to the exit status of the program `hvpm`: reading, running, and printing
//! the audit and the table.
//!
//! [`read_script`] reads a script's bytes. [`run_text`] runs them on a machine of its own over two writers.
//! [`run_gated`] does so with a gate, whose hooks run around each hold of the machine's lock. [`print_run`]
//! prints a run, also one that failed. [`tell_usage`] handles a command line that asks for no run. Nothing
//! here opens a file or ends the process.
#![tactic(auto)]

mod failure;
mod reading;
mod run;
mod usage;

pub use failure::{Exit, Failure, tell};
pub use reading::{read_script, unread};
pub use run::{print_run, run_gated, run_text};
pub use usage::tell_usage;
