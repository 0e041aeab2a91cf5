// The fields of an event, in JSON.

use crate::members::Members;
use hv_abi::{Frame, InputValue};
use hv_calls::{Call, Payload};
use hv_defs::{Aim, PortKind, SELF_ID};
use hv_policy::{Access, Action, Property};
use hv_words::{Words, call_of, kind_name, property_name, push_msr, push_register};
use std::alloc::Global;

/// Adds the fields of an event.
pub(crate) fn push_fields(fields: &mut Members, what: &Action<Global>) {
    match what.as_access() {
        Ok(access) => push_access(fields, access),
        Err(frame) => push_frame(fields, frame),
    }
}

// Adds the fields of a hypercall. If its parameters can't be read, the registers take their place.
fn push_frame(fields: &mut Members, frame: &Frame<Global>) {
    match call_of(frame) {
        Some(call) => {
            push_call(fields, &call);
            push_element(fields, frame.rcx);
        }
        None => {
            fields.hex("rcx", frame.rcx);
            fields.hex("rdx", frame.rdx);
            fields.hex("r8", frame.r8);
        }
    }
}

// Adds which element of a rep call this is, and of how many.
fn push_element(fields: &mut Members, rcx: u64) {
    let InputValue { reps, start, .. } = InputValue::read(rcx);
    if reps > 0 {
        fields.number("element", u64::from(start));
        fields.number("elements", u64::from(reps));
    }
}

// Adds the fields of a call.
fn push_call(fields: &mut Members, call: &Call<'_>) {
    match call {
        Call::CreatePartition { flags } => fields.hex("flags", *flags),
        Call::InitializePartition { partition }
        | Call::FinalizePartition { partition }
        | Call::DeletePartition { partition }
        | Call::WithdrawMemory { partition }
        | Call::GetMemoryBalance { partition } => push_partition(fields, *partition),
        Call::GetPartitionProperty { partition, code } => push_property(fields, *partition, *code),
        Call::SetPartitionProperty {
            partition,
            code,
            value,
        } => {
            push_property(fields, *partition, *code);
            fields.hex("value", *value);
        }
        Call::GetPartitionId => {}
        Call::GetNextChildPartition {
            partition,
            previous,
        } => {
            push_partition(fields, *partition);
            fields.number("previous", *previous);
        }
        Call::DepositMemory { partition, page } => {
            push_partition(fields, *partition);
            fields.number("page", *page);
        }
        Call::CreateVp { partition, vp } | Call::DeleteVp { partition, vp } => {
            push_vp(fields, *partition, *vp);
        }
        Call::GetVpRegisters {
            partition,
            vp,
            name,
        } => push_vp_register(fields, *partition, *vp, *name),
        Call::SetVpRegisters {
            partition,
            vp,
            name,
            value,
        } => {
            push_vp_register(fields, *partition, *vp, *name);
            fields.hex("value", *value);
        }
        Call::DeletePort { partition, port } => {
            push_partition(fields, *partition);
            fields.number("port", u64::from(*port));
        }
        Call::DisconnectPort {
            partition,
            connection,
        } => {
            push_partition(fields, *partition);
            fields.number("connection", u64::from(*connection));
        }
        Call::PostMessage {
            connection,
            message_type,
            payload,
        } => {
            push_post(fields, *connection, *message_type, payload);
        }
        Call::SignalEvent { connection, flag } => {
            fields.number("connection", u64::from(*connection));
            fields.number("flag", u64::from(*flag));
        }
        Call::CreatePort {
            partition,
            port,
            peer,
            kind,
            sint,
            vp,
            base,
            count,
        } => {
            push_port(fields, *partition, *port, *kind);
            push_id(fields, "peer", *peer);
            fields.number("sint", u64::from(*sint));
            push_aim(fields, *vp);
            fields.number("base", u64::from(*base));
            fields.number("count", u64::from(*count));
        }
        Call::ConnectPort {
            partition,
            connection,
            port_partition,
            port,
            kind,
        } => {
            push_port(fields, *partition, *port, *kind);
            fields.number("connection", u64::from(*connection));
            push_id(fields, "port_partition", *port_partition);
        }
    }
}

// Adds a partition's id, or `self` for the id by which a caller names its own partition.
fn push_id(fields: &mut Members, name: &str, id: u64) {
    if id == SELF_ID {
        fields.text(name, "self");
    } else {
        fields.number(name, id);
    }
}

fn push_partition(fields: &mut Members, partition: u64) {
    push_id(fields, "partition", partition);
}

fn push_property(fields: &mut Members, partition: u64, code: u32) {
    push_partition(fields, partition);
    match Property::of(code) {
        Some(property) => fields.text("property", property_name(property)),
        None => fields.hex("property", u64::from(code)),
    }
}

fn push_vp(fields: &mut Members, partition: u64, vp: u32) {
    push_partition(fields, partition);
    fields.number("vp", u64::from(vp));
}

fn push_vp_register(fields: &mut Members, partition: u64, vp: u32, name: u32) {
    push_vp(fields, partition, vp);
    let mut words = Words::new();
    push_register(&mut words, name);
    fields.words("register", &words);
}

fn push_post(fields: &mut Members, connection: u32, message_type: u32, payload: &Payload<'_>) {
    fields.number("connection", u64::from(connection));
    fields.number("type", u64::from(message_type));
    let bytes = payload.to_array();
    fields.bytes("payload", bytes.as_slice());
}

// Adds a port's partition, its id and what it takes.
fn push_port(fields: &mut Members, partition: u64, port: u32, kind: PortKind) {
    push_partition(fields, partition);
    fields.number("port", u64::from(port));
    fields.text("takes", kind_name(kind));
}

// Adds the processor at which a port aims, or null for any.
fn push_aim(fields: &mut Members, aim: Aim) {
    match aim {
        Aim::One(vp) => fields.number("vp", u64::from(vp)),
        Aim::Any => fields.null("vp"),
    }
}

// Adds the fields of an access.
fn push_access(fields: &mut Members, access: Access) {
    match access {
        Access::ReadMsr(msr) => push_named_msr(fields, msr),
        Access::WriteMsr(msr, value) => {
            push_named_msr(fields, msr);
            fields.hex("value", value);
        }
        Access::ReadSlot(sint) | Access::ClearSlot(sint) | Access::ReadFlags(sint) => {
            push_sint(fields, sint);
        }
        Access::ClearFlag(sint, flag) => {
            push_sint(fields, sint);
            fields.number("flag", u64::from(flag));
        }
        Access::TakeInterrupt => {}
    }
}

fn push_named_msr(fields: &mut Members, msr: u32) {
    let mut words = Words::new();
    push_msr(&mut words, msr);
    fields.words("msr", &words);
}

fn push_sint(fields: &mut Members, sint: u8) {
    fields.number("sint", u64::from(sint));
}
