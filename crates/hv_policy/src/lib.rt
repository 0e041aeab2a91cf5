//! The flat policy: what an event is, the rules P1 to P27, and the model of the whole partition manager.
//!
//! The model is in `specs/`. It sees the state, `Flat`, as flat maps of rows, without trees, queues or stored
//! sizes. `specs/calls` has one record per call and per access: what it needs, the rules that apply to it,
//! its output and what it changes. `asks` lists all rules that apply to an event, each with whether it holds.
//! `unmet` is the first rule that fails. `effect` and `answer` define what a served event changes and
//! replies, and `step` combines them.
//!
//! Chapters of the TLFS 4.0: "Partition Management", "Virtual Processor Management", "Inter-Partition
//! Communication". The order of the rules, the privilege that each call needs and the charges are this
//! project's own.
//!
//! The code of this crate is the vocabulary of the model, the tables' look-ups, the rules that look at a
//! frame alone, and the replies and result values.
#![tactic(auto)]

mod answer;
mod asking;
mod config;
mod event;
mod need;
mod property;
mod reply;
mod result;
mod rule;

pub use answer::Answer;
pub use asking::ask_frame;
pub use config::{BootRefused, Config};
pub use event::{Access, Action, Caller, Event};
pub use need::{Kin, Need, States, needs};
pub use property::Property;
pub use reply::{Output, Reply};
pub use result::{
    completed_reps, refused_answer, refused_reps, result_of, result_value, served_answer,
};
pub use rule::Rule;
