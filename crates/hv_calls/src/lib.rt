//! The parameters of hypercalls (TLFS 4.0, the pages of the calls): from a frame to a typed call.
//!
//! [`decode`] reads the block of a frame that [`hv_abi::Frame::check`] accepted. It returns the call with its
//! fields, or reports that a parameter is malformed by itself. It is total over all frames, and allocates no
//! memory. `block_of` in `specs/Call.antt` is the table of offsets and of malformed parameters. The contract
//! of `decode` is that it agrees with this table.
#![tactic(auto)]

mod call;
mod fields;
mod payload;

pub use call::{Call, Malformed, decode};
pub use payload::Payload;
