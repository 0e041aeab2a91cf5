// Calls with their names, fields and outputs, and accesses with their fields.
ghost use Rattle.std.specs.Prelude.{◌≡◌};
ghost use Rattle.hv_words.specs.Names.{call_name};

use crate::names::{kind_name, property_name};
use crate::outputs::number_at;
use crate::registers::{push_msr, push_register};
use crate::words::Words;
use hv_abi::CallKind;
use hv_calls::{Call, Payload};
use hv_defs::{Aim, PortKind};
use hv_policy::{Access, Property};

/// The TLFS's name of a call.
pub fn call_name(call: CallKind) -> &'static str
    ensures { result.now ≡ call_name call }
{
    match call {
        CallKind::CreatePartition => "HvCreatePartition",
        CallKind::InitializePartition => "HvInitializePartition",
        CallKind::FinalizePartition => "HvFinalizePartition",
        CallKind::DeletePartition => "HvDeletePartition",
        CallKind::GetPartitionProperty => "HvGetPartitionProperty",
        CallKind::SetPartitionProperty => "HvSetPartitionProperty",
        CallKind::GetPartitionId => "HvGetPartitionId",
        CallKind::GetNextChildPartition => "HvGetNextChildPartition",
        CallKind::DepositMemory => "HvDepositMemory",
        CallKind::WithdrawMemory => "HvWithdrawMemory",
        CallKind::GetMemoryBalance => "HvGetMemoryBalance",
        CallKind::CreateVp => "HvCreateVp",
        CallKind::DeleteVp => "HvDeleteVp",
        CallKind::GetVpRegisters => "HvGetVpRegisters",
        CallKind::SetVpRegisters => "HvSetVpRegisters",
        CallKind::DeletePort => "HvDeletePort",
        CallKind::DisconnectPort => "HvDisconnectPort",
        CallKind::PostMessage => "HvPostMessage",
        CallKind::SignalEvent => "HvSignalEvent",
        CallKind::CreatePort => "HvCreatePort",
        CallKind::ConnectPort => "HvConnectPort",
    }
}

/// Adds a call's name and its fields.
pub fn push_call(words: &mut Words, call: &Call<'_>) {
    words.text(call_name(call.kind()));
    match call {
        Call::CreatePartition { flags } => words.hex(" flags ", *flags),
        Call::InitializePartition { partition }
        | Call::FinalizePartition { partition }
        | Call::DeletePartition { partition }
        | Call::WithdrawMemory { partition }
        | Call::GetMemoryBalance { partition } => words.id(" partition ", *partition),
        Call::GetPartitionProperty { partition, code } => push_property(words, *partition, *code),
        Call::SetPartitionProperty {
            partition,
            code,
            value,
        } => {
            push_property(words, *partition, *code);
            push_value(words, *code, *value);
        }
        Call::GetPartitionId => {}
        Call::GetNextChildPartition {
            partition,
            previous,
        } => {
            words.id(" partition ", *partition);
            words.decimal(", previous ", *previous);
        }
        Call::DepositMemory { partition, page } => {
            words.id(" partition ", *partition);
            words.decimal(", page ", *page);
        }
        Call::CreateVp { partition, vp } | Call::DeleteVp { partition, vp } => push_vp(
            words, *partition, *vp,
        ),
        Call::GetVpRegisters {
            partition,
            vp,
            name,
        } => push_vp_register(words, *partition, *vp, *name),
        Call::SetVpRegisters {
            partition,
            vp,
            name,
            value,
        } => {
            push_vp_register(words, *partition, *vp, *name);
            words.hex(", value ", *value);
        }
        Call::DeletePort { partition, port } => {
            words.id(" partition ", *partition);
            words.decimal(", port ", u64::from(*port));
        }
        Call::DisconnectPort {
            partition,
            connection,
        } => {
            words.id(" partition ", *partition);
            words.decimal(", connection ", u64::from(*connection));
        }
        Call::PostMessage {
            connection,
            message_type,
            payload,
        } => {
            push_post(words, *connection, *message_type, payload);
        }
        Call::SignalEvent { connection, flag } => {
            words.decimal(" connection ", u64::from(*connection));
            words.decimal(", flag ", u64::from(*flag));
        }
        Call::CreatePort {
            partition,
            port,
            peer,
            kind,
            sint,
            vp,
            base,
            count,
        } => {
            push_port(words, *partition, *port, *peer, *kind);
            push_aim(words, *sint, *vp);
            push_flags(words, *kind, *base, *count);
        }
        Call::ConnectPort {
            partition,
            connection,
            port_partition,
            port,
            kind,
        } => {
            words.id(" partition ", *partition);
            words.decimal(", connection ", u64::from(*connection));
            push_way(words, *port_partition, *port, *kind);
        }
    }
}

/// Adds the output of a served call, after a comma.
pub fn push_call_output(words: &mut Words, call: &Call<'_>, output: &[u8]) {
    let first = number_at(output, 0, 8);
    match call {
        Call::CreatePartition { .. } | Call::GetPartitionId => words.decimal(", partition ", first),
        Call::GetPartitionProperty { code, .. } => push_value(words, *code, first),
        Call::GetNextChildPartition { .. } => push_child(words, first),
        Call::WithdrawMemory { .. } => words.decimal(", page ", first),
        Call::GetMemoryBalance { .. } => {
            words.decimal(", balance ", first);
            words.decimal(" pages, ", number_at(output, 8, 8));
            words.text(" in use");
        }
        Call::GetVpRegisters { .. } => words.hex(", value ", first),
        Call::InitializePartition { .. }
        | Call::FinalizePartition { .. }
        | Call::DeletePartition { .. }
        | Call::SetPartitionProperty { .. }
        | Call::DepositMemory { .. }
        | Call::CreateVp { .. }
        | Call::DeleteVp { .. }
        | Call::SetVpRegisters { .. }
        | Call::DeletePort { .. }
        | Call::DisconnectPort { .. }
        | Call::PostMessage { .. }
        | Call::SignalEvent { .. }
        | Call::CreatePort { .. }
        | Call::ConnectPort { .. } => {}
    }
}

fn push_child(words: &mut Words, child: u64) {
    if child == 0 {
        words.text(", no child");
    } else {
        words.decimal(", partition ", child);
    }
}

// The property of a partition.
fn push_property(words: &mut Words, partition: u64, code: u32) {
    words.id(" partition ", partition);
    words.text(", property ");
    match Property::of(code) {
        Some(property) => {
            words.text(property_name(property));
            words.hex(" (", u64::from(code));
            words.text(")");
        }
        None => words.hex("", u64::from(code)),
    }
}

// A property's value: a mask in hexadecimal, a CPU property in decimal.
fn push_value(words: &mut Words, code: u32, value: u64) {
    match Property::of(code) {
        Some(Property::CpuReserve) | Some(Property::CpuCap) | Some(Property::CpuWeight) => {
            words.decimal(", value ", value);
        }
        Some(Property::PrivilegeFlags) | None => words.hex(", value ", value),
    }
}

fn push_vp(words: &mut Words, partition: u64, vp: u32) {
    words.id(" partition ", partition);
    words.decimal(", vp ", u64::from(vp));
}

fn push_vp_register(words: &mut Words, partition: u64, vp: u32, name: u32) {
    push_vp(words, partition, vp);
    words.text(", register ");
    push_register(words, name);
}

fn push_post(words: &mut Words, connection: u32, message_type: u32, payload: &Payload<'_>) {
    words.decimal(" connection ", u64::from(connection));
    words.decimal(", type ", u64::from(message_type));
    let bytes = payload.to_array();
    words.bytes(", ", bytes.as_slice());
}

// A port with its peer and what it takes.
fn push_port(words: &mut Words, partition: u64, port: u32, peer: u64, kind: PortKind) {
    words.id(" partition ", partition);
    words.decimal(", port ", u64::from(port));
    words.id(", peer ", peer);
    words.text(", ");
    words.text(kind_name(kind));
}

// Where a port aims.
fn push_aim(words: &mut Words, sint: u32, aim: Aim) {
    words.decimal(", SINT ", u64::from(sint));
    match aim {
        Aim::One(vp) => words.decimal(" of vp ", u64::from(vp)),
        Aim::Any => words.text(" of any vp"),
    }
}

// The flags of an event port.
fn push_flags(words: &mut Words, kind: PortKind, base: u16, count: u16) {
    match kind {
        PortKind::Message => {}
        PortKind::Event => {
            words.decimal(", base flag ", u64::from(base));
            words.decimal(", flag count ", u64::from(count));
        }
    }
}

// The port to which a connection is made.
fn push_way(words: &mut Words, partition: u64, port: u32, kind: PortKind) {
    words.decimal(" to port ", u64::from(port));
    words.id(" of partition ", partition);
    words.text(", ");
    words.text(kind_name(kind));
}

/// Adds what an access does.
pub fn push_access(words: &mut Words, access: Access) {
    match access {
        Access::ReadMsr(msr) => {
            words.text("read ");
            push_msr(words, msr);
        }
        Access::WriteMsr(msr, value) => {
            words.text("write ");
            push_msr(words, msr);
            words.hex(" value ", value);
        }
        Access::ReadSlot(sint) => words.decimal("read the slot of SINT ", u64::from(sint)),
        Access::ClearSlot(sint) => words.decimal("clear the slot of SINT ", u64::from(sint)),
        Access::ReadFlags(sint) => words.decimal("read the flags of SINT ", u64::from(sint)),
        Access::ClearFlag(sint, flag) => {
            words.decimal("clear flag ", u64::from(flag));
            words.decimal(" of SINT ", u64::from(sint));
        }
        Access::TakeInterrupt => words.text("take an interrupt"),
    }
}
