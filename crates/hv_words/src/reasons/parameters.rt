// The values of P5, P6 and P7, which check a frame alone.

use crate::words::Words;
use hv_abi::{CallKind, Frame, InputValue, Shape};
use hv_defs::{
    EVENT_FLAGS, MAX_MESSAGE_TYPE, MAX_PAYLOAD, MAX_PORT_ID, PAGE_SIZE, PortKind, SINTS,
};
use std::alloc::Global;

// Adds the value of P5: the first fault of an input value.
pub fn push_input_value(words: &mut Words, rcx: u64) {
    let Some(kind) = CallKind::of(InputValue::read(rcx).call) else {
        return;
    };
    let InputValue {
        fast,
        reps,
        start,
        reserved_zero,
        ..
    } = InputValue::read(rcx);
    if !reserved_zero {
        words.hex("RCX ", rcx);
        words.text(" has reserved bits");
    } else if fast && !kind.accepts_fast() {
        words.text("the call can't be fast");
    } else {
        push_reps(words, kind.is_rep(), reps, start);
    }
}

fn push_reps(words: &mut Words, is_rep: bool, reps: u16, start: u16) {
    words.decimal("rep count ", u64::from(reps));
    words.decimal(", start index ", u64::from(start));
    words.text(if is_rep { "" } else { " of a simple call" });
}

// Adds the value of P6: which list lies where it may not, and why.
pub fn push_lists(words: &mut Words, frame: &Frame<Global>) {
    let InputValue { call, reps, .. } = InputValue::read(frame.rcx);
    let Some(kind) = CallKind::of(call) else {
        return;
    };
    if !push_list(words, "the input list", frame.rdx, kind.input_len(reps)) {
        push_list(words, "the output list", frame.r8, kind.output_len(reps));
    }
}

// Adds what is wrong with a list, if anything is, and returns whether it is.
fn push_list(words: &mut Words, name: &str, address: u64, len: u32) -> bool {
    let aligned = address % 8 == 0;
    if len == 0 || aligned && address % PAGE_SIZE + u64::from(len) <= PAGE_SIZE {
        return false;
    }
    words.text(name);
    words.decimal(" of ", u64::from(len));
    words.hex(" bytes at ", address);
    words.text(if aligned {
        " crosses a page"
    } else {
        " isn't at a multiple of 8"
    });
    true
}

// Adds the value of P7: the malformed parameter.
pub fn push_parameters(words: &mut Words, frame: &Frame<Global>) {
    let Ok(shape) = frame.check() else {
        return;
    };
    let _ = match shape.kind {
        CallKind::SetVpRegisters => push_upper(words, frame, &shape),
        CallKind::DeletePort => push_id(words, "PortId ", number_at(frame, &shape, 8, 4)),
        CallKind::DisconnectPort => push_id(words, "ConnectionId ", number_at(frame, &shape, 8, 4)),
        CallKind::SignalEvent => push_id(words, "ConnectionId ", number_at(frame, &shape, 0, 4)),
        CallKind::PostMessage => push_message(words, frame, &shape),
        CallKind::CreatePort => push_new_port(words, frame, &shape),
        CallKind::ConnectPort => push_new_connection(words, frame, &shape),
        _ => false,
    };
}

// Adds the upper 8 bytes of a register's new value.
fn push_upper(words: &mut Words, frame: &Frame<Global>, shape: &Shape) -> bool {
    let upper = number_at(frame, shape, 16 + 32 * usize::from(shape.start) + 24, 8);
    words.hex("the value's upper 8 bytes are ", upper);
    true
}

// Adds an id if it has more than 24 bits, and returns whether it has.
fn push_id(words: &mut Words, name: &str, id: u64) -> bool {
    if id <= u64::from(MAX_PORT_ID) {
        return false;
    }
    words.hex(name, id);
    words.text(" has more than 24 bits");
    true
}

fn push_type(words: &mut Words, number: u64) -> bool {
    if number == PortKind::Message as u64 || number == PortKind::Event as u64 {
        return false;
    }
    words.decimal("PortType ", number);
    words.text(" is neither 1 nor 2");
    true
}

fn push_message(words: &mut Words, frame: &Frame<Global>, shape: &Shape) -> bool {
    let message_type = number_at(frame, shape, 8, 4);
    let size = number_at(frame, shape, 12, 4);
    if push_id(words, "ConnectionId ", number_at(frame, shape, 0, 4)) {
        return true;
    }
    if message_type == 0 || message_type > u64::from(MAX_MESSAGE_TYPE) {
        words.hex("MessageType ", message_type);
        words.text(if message_type == 0 { "" } else { " has bit 31" });
        return true;
    }
    words.decimal("PayloadSize ", size);
    words.decimal(" is above ", u64::from(MAX_PAYLOAD));
    true
}

fn push_new_port(words: &mut Words, frame: &Frame<Global>, shape: &Shape) -> bool {
    let sint = number_at(frame, shape, 32, 4);
    if push_id(words, "PortId ", number_at(frame, shape, 8, 4))
        || push_type(words, number_at(frame, shape, 24, 4))
    {
        return true;
    }
    if sint >= u64::from(SINTS) {
        words.decimal("TargetSint ", sint);
        words.text(" is above 15");
        return true;
    }
    push_flags(
        words,
        number_at(frame, shape, 40, 2),
        number_at(frame, shape, 42, 2),
    )
}

// Adds the flags of an event port, if it has none or they go past the last one.
fn push_flags(words: &mut Words, base: u64, count: u64) -> bool {
    if count > 0 {
        words.decimal("BaseFlagNumber ", base);
        words.decimal(" and FlagCount ", count);
        words.decimal(" are above ", u64::from(EVENT_FLAGS));
        words.text(" together");
    } else {
        words.text("FlagCount 0");
    }
    true
}

fn push_new_connection(words: &mut Words, frame: &Frame<Global>, shape: &Shape) -> bool {
    push_id(words, "ConnectionId ", number_at(frame, shape, 8, 4))
        || push_id(words, "PortId ", number_at(frame, shape, 24, 4))
        || push_type(words, number_at(frame, shape, 32, 4))
}

// Returns the little-endian number of `size` bytes, at most 8, of a call's input from a place on.
fn number_at(frame: &Frame<Global>, shape: &Shape, at: usize, size: usize) -> u64 {
    let mut number: u64 = 0;
    for k in 0..size {
        let byte = frame.byte(shape, at.saturating_add(size - 1 - k));
        number = number.wrapping_mul(256).wrapping_add(u64::from(byte));
    }
    number
}
