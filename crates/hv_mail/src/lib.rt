//! The synthetic interrupt controller of a virtual processor, without its registers: the messages and event
//! flags at its 16 SINTs (TLFS 4.0, "Inter-Partition Communication" and "Synthetic Interrupt Controller"),
//! and the pending interrupt vectors.
//!
//! A SINT shows one message at a time, in its slot, and the others wait in the order in which they came.
//! `reserve_one` makes room for a message first, and is the only call that can need memory. The calls after
//! it need room and cannot fail. Flags and vectors are bits of words and take no memory of an allocator.
//!
//! Contracts see a mailbox as the finite map from SINT to its messages, without a row for a SINT that has
//! none. They see flags as the finite set of the pairs (SINT, flag) that are set, and vectors as the finite
//! set of their numbers. Whether a processor takes messages or flags, and whom it notifies of them, is not
//! decided here.
#![tactic(auto)]

mod flags;
mod mailbox;
mod message;
mod pending;
mod sint_queue;
mod slot;
mod tally;
mod tree;
mod words;

pub use flags::Flags;
pub use mailbox::Mailbox;
pub use message::Message;
pub use pending::Pending;
