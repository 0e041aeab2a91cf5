// The values of the rules that look at other partitions, connections, ports and processors.

use crate::names::kind_name;
use crate::reasons::registers::push_register_privilege;
use crate::reasons::tree::{Tree, conn_at, mask_of, port_at, way_of};
use crate::words::Words;
use hv_admit::resolve_partition_id;
use hv_calls::Call;
use hv_defs::{Aim, MAX_VPS, PortKind, SCONTROL, SIEFP, SIMP};
use hv_ports::{Conn, Port};

// Adds the value of P15: the other partition.
pub fn push_other(words: &mut Words, caller: u64, target: u64, call: &Call<'_>) {
    match call {
        Call::GetNextChildPartition { previous, .. } => {
            words.decimal("partition ", *previous);
            words.decimal(" isn't a child of ", target);
        }
        Call::CreatePort { peer, .. } => words.decimal(
            "no partition ",
            resolve_partition_id(caller, *peer),
        ),
        Call::ConnectPort { port_partition, .. } => {
            words.decimal(
                "no partition ",
                resolve_partition_id(caller, *port_partition),
            );
        }
        _ => {}
    }
}

// Adds the value of P16: whether the partition has the connection.
pub fn push_connection(words: &mut Words, target: u64, call: &Call<'_>) {
    match call {
        Call::DisconnectPort { connection, .. }
        | Call::PostMessage { connection, .. }
        | Call::SignalEvent { connection, .. } => push_none(
            words,
            target,
            " has no connection ",
            *connection,
        ),
        Call::ConnectPort { connection, .. } => push_none(
            words,
            target,
            " already has connection ",
            *connection,
        ),
        _ => {}
    }
}

// Adds that a partition has something with this number, or has none.
fn push_none(words: &mut Words, id: u64, has: &str, number: u32) {
    words.decimal("partition ", id);
    words.decimal(has, u64::from(number));
}

// Adds the value of P17: whether the partition has the port, or where a connection leads.
pub fn push_port(words: &mut Words, tree: &Tree, caller: u64, target: u64, call: &Call<'_>) {
    match call {
        Call::DeletePort { port, .. } => push_none(words, target, " has no port ", *port),
        Call::CreatePort { port, .. } => push_none(words, target, " already has port ", *port),
        Call::ConnectPort {
            port_partition,
            port,
            ..
        } => {
            push_none(
                words,
                resolve_partition_id(caller, *port_partition),
                " has no port ",
                *port,
            );
        }
        Call::PostMessage { connection, .. } | Call::SignalEvent { connection, .. } => {
            match conn_at(tree, caller, *connection) {
                Some(conn) => push_lost(words, tree, *connection, conn),
                None => {}
            }
        }
        _ => {}
    }
}

// Adds a connection whose port is gone.
fn push_lost(words: &mut Words, tree: &Tree, connection: u32, conn: Conn) {
    words.decimal("connection ", u64::from(connection));
    words.decimal(" leads to port ", u64::from(conn.port));
    words.decimal(" of partition ", conn.part);
    if !tree.contains(conn.part) {
        words.text(", which is gone");
    } else if port_at(tree, conn.part, conn.port).is_none() {
        words.text(", and the port is gone");
    } else {
        words.text(", and that port was made again");
    }
}

// Adds the value of P18: the mask, the privilege or the peer.
pub fn push_right(words: &mut Words, tree: &Tree, caller: u64, target: u64, call: &Call<'_>) {
    match call {
        Call::SetPartitionProperty { value, .. } => push_mask(words, mask_of(tree, caller), *value),
        Call::GetVpRegisters { name, .. } | Call::SetVpRegisters { name, .. } => {
            push_register_privilege(words, tree, caller, *name);
        }
        Call::ConnectPort {
            port_partition,
            port,
            ..
        } => {
            let part = resolve_partition_id(caller, *port_partition);
            match port_at(tree, part, *port) {
                Some(row) => push_peer(words, part, *port, row, target),
                None => {}
            }
        }
        _ => {}
    }
}

// Adds the bits that the caller's mask lacks.
fn push_mask(words: &mut Words, mask: u64, value: u64) {
    words.hex("the caller's mask ", mask);
    words.hex(" lacks the bits ", value & !mask);
}

fn push_peer(words: &mut Words, part: u64, port: u32, row: Port, target: u64) {
    words.decimal("port ", u64::from(port));
    words.decimal(" of partition ", part);
    words.decimal(" is for partition ", row.peer);
    words.decimal(", not ", target);
}

// Adds the value of P19: whether the partition has the processor.
pub fn push_vp(words: &mut Words, tree: &Tree, target: u64, call: &Call<'_>) {
    match call {
        Call::CreateVp { vp, .. } => {
            if *vp >= MAX_VPS {
                words.decimal("vp ", u64::from(*vp));
                words.text(" is above 63");
            } else {
                push_none(words, target, " already has vp ", *vp);
            }
        }
        Call::DeleteVp { vp, .. }
        | Call::GetVpRegisters { vp, .. }
        | Call::SetVpRegisters { vp, .. } => {
            push_none(words, target, " has no vp ", *vp);
        }
        Call::CreatePort { vp, .. } => push_aim(words, target, *vp),
        Call::PostMessage { connection, .. } | Call::SignalEvent { connection, .. } => {
            match way_of(tree, target, *connection) {
                Some((conn, port)) => push_aimed(words, conn, port),
                None => {}
            }
        }
        _ => {}
    }
}

fn push_aim(words: &mut Words, id: u64, aim: Aim) {
    match aim {
        Aim::One(vp) => push_none(words, id, " has no vp ", vp),
        Aim::Any => {}
    }
}

// Adds a port whose processor is gone, and where it aims.
fn push_aimed(words: &mut Words, conn: Conn, port: Port) {
    words.decimal("port ", u64::from(conn.port));
    words.decimal(" of partition ", conn.part);
    match port.vp {
        Aim::One(vp) => words.decimal(" aims at vp ", u64::from(vp)),
        Aim::Any => words.text(" aims at any vp"),
    }
}

// Adds the value of P22: the registers that enable delivery at the processor at which the port aims, or that
// none is ready.
pub fn push_taker(words: &mut Words, tree: &Tree, caller: u64, call: &Call<'_>) {
    match call {
        Call::PostMessage { connection, .. } | Call::SignalEvent { connection, .. } => {
            match way_of(tree, caller, *connection) {
                Some((conn, port)) => match port.vp {
                    Aim::One(vp) => push_ready(words, tree, conn.part, vp, port.kind),
                    Aim::Any => {
                        words.decimal("partition ", conn.part);
                        words.text(" has none that is ready for ");
                        words.text(kind_name(port.kind));
                    }
                },
                None => {}
            }
        }
        _ => {}
    }
}

// Adds the registers that enable delivery at a processor for a port of this kind.
fn push_ready(words: &mut Words, tree: &Tree, part: u64, vp: u32, kind: PortKind) {
    words.decimal("vp ", u64::from(vp));
    words.decimal(" of partition ", part);
    words.hex(" has SCONTROL ", register_at(tree, part, vp, SCONTROL));
    match kind {
        PortKind::Message => words.hex(" and SIMP ", register_at(tree, part, vp, SIMP)),
        PortKind::Event => words.hex(" and SIEFP ", register_at(tree, part, vp, SIEFP)),
    }
}

// Returns the value of a processor's register, 0 if there is none.
fn register_at(tree: &Tree, part: u64, vp: u32, name: u32) -> u64 {
    let Some(partition) = tree.get(part) else {
        return 0;
    };
    match partition.vp(vp) {
        Some(own) => own.read_reg(name).unwrap_or(0),
        None => 0,
    }
}

// Adds the value of P23: the port.
pub fn push_kept(words: &mut Words, tree: &Tree, caller: u64, call: &Call<'_>) {
    let Call::PostMessage { connection, .. } = call else {
        return;
    };
    match conn_at(tree, caller, *connection) {
        Some(conn) => {
            words.decimal("8 messages of port ", u64::from(conn.port));
            words.decimal(" of partition ", conn.part);
        }
        None => {}
    }
}
