//! One partition: its life state, privileges, CPU properties, pages, processors, ports and connections.
//!
//! The chapters of the TLFS 4.0 are "Partition Management" and "Inter-Partition Communication". Each function
//! says what it changes, and leaves everything else as it was. Which partition may ask for a change, and
//! when, is not checked here.
//!
//! Contracts see a partition as the record of these parts (`PartitionState` in `specs/`): its processors as a
//! map by index, and its ports and connections as maps by id. Only `new`, `reserve`, `reserve_vp`,
//! `reserve_port` and `reserve_conn` ask for memory. A call that is refused memory changes nothing.
#![tactic(auto)]

mod kind;
mod links;
mod partition;

pub use kind::PageKind;
pub use partition::Partition;
