//! The machine: it holds the partitions, and each event on it refines one step of the flat policy.
//!
//! The partitions form a tree. Each has its pages, its ports, its connections, and its processors with
//! their registers, messages, event flags and pending vectors. [`Machine::boot`] makes the root partition,
//! and [`Machine::step`] takes one event. The machine checks P4 to P7, which look at a call's frame alone,
//! and admits a call by P1 to P3 and P8 to P10. The call group checks all other rules of a call or an access,
//! serves it exactly when all of them hold, and returns its effect.
//!
//! `IsFlat` in `specs/` relates a machine to the flat states that it stands for. The contract of `step`
//! ensures that its reply and its new state are those of the flat step. Every machine stands for a lawful
//! flat state (`MachineInvariant`). Hence each boot page is in exactly one page set, no partition uses more
//! pages than its pool has, and no partition has a privilege that its parent lacks.
//!
//! Chapters of the TLFS 4.0: "Hypercall Interface", "Partition Management", "Resource Management",
//! "Virtual Processor Management", "Inter-Partition Communication", "Synthetic Interrupt Controller".
#![tactic(auto)]

mod boot;
mod dispatch;
mod machine;

pub use hv_policy::{
    Access, Action, Answer, BootRefused, Caller, Config, Event, Output, Reply, Rule, result_of,
};
pub use machine::{HostRefused, Machine};
