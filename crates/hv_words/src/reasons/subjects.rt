// The values of P21: the page, the register, the type or the number that isn't right.

use crate::names::kind_name;
use crate::reasons::registers::{push_register_value, push_unknown};
use crate::reasons::tree::{Tree, port_at, way_of};
use crate::words::Words;
use hv_admit::resolve_partition_id;
use hv_calls::Call;
use hv_defs::{EVENT_FLAGS, PortKind, SINTS};
use hv_policy::Access;
use hv_ports::Port;

// Adds the value of P21 for a call.
pub fn push_subject(words: &mut Words, tree: &Tree, caller: u64, call: &Call<'_>) {
    match call {
        Call::DepositMemory { page, .. } => {
            words.decimal("page ", *page);
            words.decimal(" isn't a loose page of partition ", caller);
        }
        Call::GetVpRegisters { name, .. } => push_unknown(words, *name),
        Call::SetVpRegisters { name, value, .. } => push_register_value(words, *name, *value),
        Call::ConnectPort {
            port_partition,
            port,
            ..
        } => {
            let part = resolve_partition_id(caller, *port_partition);
            match port_at(tree, part, *port) {
                Some(row) => push_kind(words, part, *port, row),
                None => {}
            }
        }
        Call::PostMessage { connection, .. } => match way_of(tree, caller, *connection) {
            Some((conn, port)) => push_kind(words, conn.part, conn.port, port),
            None => {}
        },
        Call::SignalEvent { connection, flag } => match way_of(tree, caller, *connection) {
            Some((conn, port)) => push_flag(words, conn.part, conn.port, port, *flag),
            None => {}
        },
        _ => {}
    }
}

// Adds the kind of a port.
fn push_kind(words: &mut Words, part: u64, port: u32, row: Port) {
    words.decimal("port ", u64::from(port));
    words.decimal(" of partition ", part);
    words.text(" takes ");
    words.text(kind_name(row.kind));
}

// Adds that a port takes messages, or the number of its flags.
fn push_flag(words: &mut Words, part: u64, port: u32, row: Port, flag: u16) {
    match row.kind {
        PortKind::Message => push_kind(words, part, port, row),
        PortKind::Event => {
            words.decimal("port ", u64::from(port));
            words.decimal(" of partition ", part);
            words.decimal(" has flags 0 to ", u64::from(row.count.saturating_sub(1)));
            words.decimal(", not ", u64::from(flag));
        }
    }
}

// Adds the value of P21 for an access.
pub fn push_access_subject(words: &mut Words, access: Access) {
    match access {
        Access::ReadSlot(sint) | Access::ClearSlot(sint) | Access::ReadFlags(sint) => push_sint(
            words, sint,
        ),
        Access::ClearFlag(sint, flag) => {
            if u32::from(sint) >= SINTS {
                push_sint(words, sint);
            } else {
                words.decimal("flag ", u64::from(flag));
                words.decimal(" isn't below ", u64::from(EVENT_FLAGS));
            }
        }
        _ => {}
    }
}

fn push_sint(words: &mut Words, sint: u8) {
    words.decimal("SINT ", u64::from(sint));
    words.decimal(" isn't below ", u64::from(SINTS));
}
