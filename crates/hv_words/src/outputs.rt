// The outputs of accesses.

use crate::words::Words;
use hv_policy::Access;

// The most flags that are listed.
const MOST_FLAGS: usize = 16;

/// Adds the output of a served access, after a comma.
pub fn push_access_output(words: &mut Words, access: Access, output: &[u8]) {
    match access {
        Access::ReadMsr(_) => words.hex(", value ", number_at(output, 0, 8)),
        Access::ReadSlot(_) => push_slot(words, output),
        Access::ReadFlags(_) => push_flags(words, output),
        Access::TakeInterrupt => push_vector(words, number_at(output, 0, 1)),
        Access::WriteMsr(_, _) | Access::ClearSlot(_) | Access::ClearFlag(_, _) => {}
    }
}

// The message that a slot shows. Its type isn't 0.
fn push_slot(words: &mut Words, slot: &[u8]) {
    let message_type = number_at(slot, 0, 4);
    if message_type == 0 {
        words.text(", no message");
        return;
    }
    words.decimal(", message type ", message_type);
    words.decimal(" from port ", number_at(slot, 8, 8));
    let size = usize::from(slot.get(4).copied().unwrap_or(0));
    match slot.get(16..16 + size) {
        Some(payload) => words.bytes(", ", payload),
        None => {}
    }
    if number_at(slot, 5, 1) == 1 {
        words.text(", another waits");
    }
}

// The flags that are set. The first of them are listed by number.
fn push_flags(words: &mut Words, flags: &[u8]) {
    let mut count: usize = 0;
    for at in 0..flags.len().min(256) {
        for bit in 0..8u32 {
            if flags[at] >> bit & 1 == 1 {
                if count < MOST_FLAGS {
                    words.decimal(
                        if count == 0 { ", flags " } else { " " },
                        8 * at as u64 + u64::from(bit),
                    );
                }
                count = count.saturating_add(1);
            }
        }
    }
    if count == 0 {
        words.text(", no flags");
    } else if count > MOST_FLAGS {
        words.decimal(" and ", (count - MOST_FLAGS) as u64);
        words.text(" more");
    }
}

fn push_vector(words: &mut Words, vector: u64) {
    if vector == 0 {
        words.text(", no vector");
    } else {
        words.hex(", vector ", vector);
    }
}

/// The little-endian number in `size` bytes, at most 8, from `at` on. Bytes past the end are 0.
pub(crate) fn number_at(bytes: &[u8], at: usize, size: usize) -> u64 {
    let mut number: u64 = 0;
    for k in 0..size {
        let place = at.saturating_add(size - 1 - k);
        let byte = bytes.get(place).copied().unwrap_or(0);
        number = number.wrapping_mul(256).wrapping_add(u64::from(byte));
    }
    number
}
