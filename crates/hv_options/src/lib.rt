//! Reads the words of the command line of `hvpm`: what they ask for, or why they ask for nothing.
//!
//! [`command`] reads those of the whole program, with all its commands. [`options`] reads those of
//! `hvpm run SCRIPT [--serial] [--table]` alone. Both read by `clap`, and their contracts state the result in
//! clap's own words. If they return `Ok`, the command, its files and its flags are those of clap's matches of
//! the words. If they refuse, [`Usage`] says whether help or the version was asked for. `specs/Options.antt`
//! and `specs/Commands.antt` have the command lines as clap takes them.
//!
//! This crate prints nothing and chooses no exit status.
#![tactic(auto)]

mod command_line;
mod commands;
mod usage;

pub use command_line::options;
pub use commands::command;
pub use usage::{Command, Options, Usage};
