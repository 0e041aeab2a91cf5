// The hypercall in a frame.

use crate::calls::{call_name, push_call};
use crate::words::Words;
use hv_abi::{CallKind, Frame, InputValue, Shape};
use hv_calls::{Call, decode};
use std::alloc::Global;

/// Returns the call of a frame, if P4 to P7 hold.
pub fn call_of(frame: &Frame<Global>) -> Option<Call<'_>> {
    match frame.check() {
        Ok(shape) => match decode(frame, &shape) {
            Ok(call) => Some(call),
            Err(_) => None,
        },
        Err(_) => None,
    }
}

// Adds a call with its fields. If the fields can't be read, it adds the call's name and the registers. If no
// call has the code, the code takes the place of the name.
pub fn push_frame(words: &mut Words, frame: &Frame<Global>) {
    match call_of(frame) {
        Some(call) => {
            push_call(words, &call);
            push_elements(words, frame.rcx);
        }
        None => {
            push_code(words, InputValue::read(frame.rcx).call);
            words.hex(" RCX ", frame.rcx);
            words.hex(", RDX ", frame.rdx);
            words.hex(", R8 ", frame.r8);
        }
    }
}

// Adds the element of a rep call, and whether the call is fast.
fn push_elements(words: &mut Words, rcx: u64) {
    let InputValue {
        fast,
        reps,
        start,
        ..
    } = InputValue::read(rcx);
    if fast {
        words.text(", fast");
    }
    if reps > 0 {
        words.decimal(", rep ", u64::from(start));
        words.decimal(" of ", u64::from(reps));
    }
}

fn push_code(words: &mut Words, code: u16) {
    match CallKind::of(code) {
        Some(kind) => words.text(call_name(kind)),
        None => words.hex("call code ", u64::from(code)),
    }
}
