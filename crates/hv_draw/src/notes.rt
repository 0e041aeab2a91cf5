// The text of a row without an arrow: what a processor does. It is beside its lane.

use crate::calls::call_of;
use crate::inside::is_set;
use crate::rowed::is_eom;
use crate::shapes::{Class, Label, Mark, Place};
use hv_abi::{CallKind, Frame, InputValue};
use hv_admit::{Effect, Synic, resolve_partition_id};
use hv_calls::Call;
use hv_policy::{Access, Action, Answer, Caller, Reply, Rule};
use hv_words::{Words, call_name, push_access, push_access_output};
use std::alloc::Global;

// The distance of a text from its lane.
const GAP: u64 = 8;

// The most flags that are listed.
const MOST_FLAGS: u64 = 4;

/// Adds what an event asked for and what came of it, and returns its mark. A refused one has its rule and a
/// cross.
pub(crate) fn push_note(
    words: &mut Words,
    by: Caller,
    what: &Action<Global>,
    reply: &Reply,
    effect: &Effect,
) -> Mark {
    let (answer, output) = reply.parts();
    match what.as_access() {
        Ok(access) => push_access_note(words, access, output),
        Err(frame) => push_call_note(words, by, frame, output),
    }
    match rule_of(answer) {
        Some(rule) => {
            words.text(": ");
            words.text(rule.name());
            Mark::Cross
        }
        None => {
            push_effect(words, effect);
            Mark::Dot
        }
    }
}

/// Returns where the text is.
pub(crate) fn note_label(place: Place) -> Label {
    Label {
        class: Class::Right,
        x: place.from.saturating_add(GAP),
        y: place.y.saturating_add(4),
    }
}

// Returns the rule that refused an event.
fn rule_of(answer: Answer) -> Option<Rule> {
    match answer {
        Answer::Served | Answer::More { .. } => None,
        Answer::Denied { rule, .. } | Answer::Fault { rule } => Some(rule),
    }
}

// Adds an access and its output, which a refused one lacks.
fn push_access_note(words: &mut Words, access: Access, output: &[u8]) {
    match access {
        Access::WriteMsr(msr, _) if is_eom(msr) => words.text("EOM"),
        Access::ReadMsr(_)
        | Access::WriteMsr(_, _)
        | Access::ReadSlot(_)
        | Access::ClearSlot(_)
        | Access::ReadFlags(_)
        | Access::ClearFlag(_, _)
        | Access::TakeInterrupt => push_access(words, access),
    }
    if output.is_empty() {
        return;
    }
    match access {
        Access::ReadSlot(_) => push_slot(words, output),
        Access::ReadFlags(_) => push_flags(words, output),
        Access::ReadMsr(_)
        | Access::WriteMsr(_, _)
        | Access::ClearSlot(_)
        | Access::ClearFlag(_, _)
        | Access::TakeInterrupt => push_access_output(words, access, output),
    }
}

// Adds the message that a slot shows. Its type, in the first 4 bytes, isn't zero.
fn push_slot(words: &mut Words, slot: &[u8]) {
    if number_at(slot, 0) & 0xffff_ffff == 0 {
        words.text(", no message");
    } else {
        words.decimal(", message of port ", number_at(slot, 8));
    }
}

// Adds the flags that are set. The first of them are listed.
fn push_flags(words: &mut Words, flags: &[u8]) {
    let mut count = 0u64;
    for flag in 0..2048u16 {
        if is_set(flags, flag) {
            if count < MOST_FLAGS {
                words.decimal(if count == 0 { ", flags " } else { " " }, u64::from(flag));
            }
            count = count.saturating_add(1);
        }
    }
    if count == 0 {
        words.text(", no flags");
    } else if count > MOST_FLAGS {
        words.decimal(" and ", count - MOST_FLAGS);
        words.text(" more");
    }
}

// Adds a call. If its parameters are malformed, it is the call's name alone.
fn push_call_note(words: &mut Words, by: Caller, frame: &Frame<Global>, output: &[u8]) {
    match call_of(frame) {
        Some(call) => push_call(words, by.part, &call, output),
        None => match CallKind::of(InputValue::read(frame.rcx).call) {
            Some(kind) => words.text(call_name(kind)),
            None => {}
        },
    }
}

// Adds a call and its fields in short.
fn push_call(words: &mut Words, caller: u64, call: &Call<'_>, output: &[u8]) {
    match call {
        Call::CreatePartition { .. } => push_made(words, output),
        Call::InitializePartition { partition } => {
            push_id(words, "initialize partition ", caller, *partition);
        }
        Call::FinalizePartition { partition } => {
            push_id(words, "finalize partition ", caller, *partition);
        }
        Call::DeletePartition { partition } => {
            push_id(words, "delete partition ", caller, *partition);
        }
        Call::CreateVp { partition, vp } => {
            push_id(words, "create vp ", caller, *partition);
            words.decimal(".", u64::from(*vp));
        }
        Call::DeleteVp { partition, vp } => {
            push_id(words, "delete vp ", caller, *partition);
            words.decimal(".", u64::from(*vp));
        }
        Call::CreatePort {
            partition,
            port,
            ..
        } => push_port(words, "create port ", caller, *partition, *port),
        Call::DeletePort { partition, port } => {
            push_port(words, "delete port ", caller, *partition, *port);
        }
        Call::ConnectPort {
            partition,
            connection,
            port_partition,
            port,
            ..
        } => {
            push_connection(words, "make connection ", caller, *partition, *connection);
            push_port(words, " to port ", caller, *port_partition, *port);
        }
        Call::DisconnectPort {
            partition,
            connection,
        } => push_connection(words, "end connection ", caller, *partition, *connection),
        Call::PostMessage { connection, .. } => {
            words.decimal("message by connection ", u64::from(*connection));
        }
        Call::SignalEvent { connection, flag } => {
            words.decimal("signal ", u64::from(*flag));
            words.decimal(" by connection ", u64::from(*connection));
        }
        Call::GetPartitionProperty { .. }
        | Call::SetPartitionProperty { .. }
        | Call::GetPartitionId
        | Call::GetNextChildPartition { .. }
        | Call::DepositMemory { .. }
        | Call::WithdrawMemory { .. }
        | Call::GetMemoryBalance { .. }
        | Call::GetVpRegisters { .. }
        | Call::SetVpRegisters { .. } => words.text(call_name(call.kind())),
    }
}

// Adds the creation of a partition, with its id if it was made.
fn push_made(words: &mut Words, output: &[u8]) {
    words.text("create partition");
    if !output.is_empty() {
        words.decimal(" ", number_at(output, 0));
    }
}

// Adds the id of the partition that a caller names.
fn push_id(words: &mut Words, before: &str, caller: u64, partition: u64) {
    words.decimal(before, resolve_partition_id(caller, partition));
}

// Adds a port's id and its partition.
fn push_port(words: &mut Words, before: &str, caller: u64, partition: u64, port: u32) {
    words.decimal(before, u64::from(port));
    push_id(words, " of partition ", caller, partition);
}

// Adds a connection's id, and its partition unless it is the caller's own.
fn push_connection(words: &mut Words, before: &str, caller: u64, partition: u64, connection: u32) {
    words.decimal(before, u64::from(connection));
    let own = resolve_partition_id(caller, partition);
    if own != caller {
        words.decimal(" of partition ", own);
    }
}

// Adds what an event changed that its own fields don't say.
fn push_effect(words: &mut Words, effect: &Effect) {
    match effect {
        Effect::Synic(synic) => push_shown(words, synic),
        Effect::Nothing
        | Effect::Page { .. }
        | Effect::Pages { .. }
        | Effect::Processor { .. }
        | Effect::Partition { .. } => {}
    }
}

// Adds the SINTs that show a message after an event, and the vectors that they raised. An event that takes a
// message, a flag or a vector shows none.
fn push_shown(words: &mut Words, synic: &Synic) {
    if synic.taken.is_some() || synic.flag.is_some() || synic.freed.is_some() {
        return;
    }
    let mut before = ", next message at SINT ";
    for sint in 0..16u64 {
        if synic.shown >> sint & 1 == 1 {
            words.decimal(before, sint);
            before = " ";
        }
    }
    push_raised(words, ", raises ", synic);
}

/// Adds a text and the vectors that were raised, if there are any.
pub(crate) fn push_raised(words: &mut Words, before: &str, synic: &Synic) {
    let raised = synic.raised.words();
    let mut before = before;
    for vector in 0..256usize {
        if raised[vector / 64] >> (vector % 64) & 1 == 1 {
            words.hex(before, vector as u64);
            before = " ";
        }
    }
}

// Returns the little-endian number in 8 bytes from here on. Bytes past the end are 0.
fn number_at(bytes: &[u8], at: usize) -> u64 {
    let mut number: u64 = 0;
    for k in 0..8usize {
        let byte = bytes.get(at.saturating_add(7 - k)).copied().unwrap_or(0);
        number = number << 8 | u64::from(byte);
    }
    number
}
