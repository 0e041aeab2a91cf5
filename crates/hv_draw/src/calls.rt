// Reading a hypercall.

use hv_abi::Frame;
use hv_calls::{Call, decode};
use std::alloc::Global;

/// Returns the call of a frame, if its parameters are well-formed.
pub(crate) fn call_of(frame: &Frame<Global>) -> Option<Call<'_>> {
    match frame.check() {
        Ok(shape) => match decode(frame, &shape) {
            Ok(call) => Some(call),
            Err(_) => None,
        },
        Err(_) => None,
    }
}
