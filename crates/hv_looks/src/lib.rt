//! Looks at a machine without an event.
//!
//! A look changes nothing, takes no memory, needs no privilege, and is not counted. It serves a hypervisor
//! that shows a message page to its guest, or a debugger. An event would count, would add a line to the
//! audit, and may be refused.
//!
//! Each look returns what the policy says of every flat state that the machine stands for
//! (`specs/Look.antt`). It returns `None` where there is no such partition, processor, SINT or register.
//! Where an access reads the same bytes, a second clause (`served`) says that the look returns exactly these
//! bytes, if the access would be served.
//!
//! - At a processor: [`slot`], [`flags`], [`msr`] and [`pending`].
//! - At partitions: [`partition`], [`child_after`], [`page_owner`], [`port`], [`connection`].
//! - For CPUID and the exits that a hypervisor passes on: [`features`], [`is_msr`], [`is_call`].
#![tactic(auto)]

mod identity;
mod links;
mod partitions;
mod processors;
mod tree;

pub use identity::{features, is_call, is_msr};
pub use links::{connection, port};
pub use partitions::{PartitionLook, child_after, page_owner, partition};
pub use processors::{flags, msr, pending, slot};
