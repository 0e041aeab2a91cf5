//! The binary interface of hypercalls (TLFS 4.0, "Hypercall Interface"): input and result values, status
//! values, the calls' codes and list lengths, and frames.
//!
//! A frame is what a guest passes with one hypercall. [`Frame::check`] accepts exactly the frames whose input
//! value and list addresses are those of a call, and names the first fault of every other frame. Only
//! [`Frame::copy`], [`Bytes::copy`] and [`Bytes::refill`] allocate memory.
#![tactic(auto)]

mod bytes;
mod call_kind;
mod frame;
mod input_value;
mod result_value;
mod status;

pub use bytes::Bytes;
pub use call_kind::{ALL_CALLS, CallKind, CallRow};
pub use frame::{AbiFault, Frame, Shape};
pub use input_value::{InputValue, restarted};
pub use result_value::ResultValue;
pub use status::Status;
