//! A virtual processor: its registers by name and by MSR number, the messages and event flags at its SINTs,
//! and its pending interrupt vectors; and the processors of a partition, by index.
//!
//! The chapters of the TLFS 4.0 are "Virtual Processor Management" and "Inter-Partition Communication".
//!
//! Contracts see a processor as the record of these parts (`VpState` in `specs/`): its registers as a finite
//! map from name to value, by the table of `hv_defs`, and the other parts as `hv_mail` has them. A write that
//! a register refuses tells why by [`RegFault`], and leaves the processor unchanged. Only `Vp::new`,
//! `Vp::reserve_message` and `Vps::reserve_one` ask for memory.
//!
//! Nothing here checks who may access a register or send a message, or whether the processor is ready for it.
//! Two functions tell whether it is.
#![tactic(auto)]

mod registers;
mod synic;
mod table;
mod vp;
mod vps;

pub use hv_defs::RegFault;
pub use table::{kept, name_of_msr, privilege_of};
pub use vp::Vp;
pub use vps::Vps;
