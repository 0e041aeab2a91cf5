// The way of a message or a signal.

use crate::calls::call_of;
use hv_admit::Partitions;
use hv_calls::Call;
use hv_defs::Aim;
use hv_policy::{Action, Answer, Caller, Reply};
use hv_ports::Port;
use std::alloc::Global;

/// The way of a message or a signal that was accepted.
#[derive(Clone, Copy)]
pub(crate) struct Way {
    /// The processor that it reached.
    pub(crate) to: Caller,
    /// The id of its port in the processor's partition.
    pub(crate) port: u32,
    /// The SINT.
    pub(crate) sint: u32,
    /// The number of the flag in the SINT. A message has none.
    pub(crate) flag: Option<u64>,
}

/// Returns the way of an event's message or signal, if there is one that was accepted. These are the
/// partitions after the event.
pub(crate) fn way_of(
    tree: &Partitions<Global>,
    by: Caller,
    what: &Action<Global>,
    reply: &Reply,
) -> Option<Way> {
    if reply.parts().0 != Answer::Served {
        return None;
    }
    let Err(frame) = what.as_access() else {
        return None;
    };
    match call_of(frame) {
        Some(Call::PostMessage { connection, .. }) => way_by(tree, by.part, connection, None),
        Some(Call::SignalEvent { connection, flag }) => {
            way_by(tree, by.part, connection, Some(flag))
        }
        Some(_) | None => None,
    }
}

// Returns the way from a partition by this connection. The flag counts from the port's first flag.
fn way_by(tree: &Partitions<Global>, from: u64, connection: u32, flag: Option<u16>) -> Option<Way> {
    let conn = tree.get(from)?.conn(connection)?;
    let home = tree.get(conn.part)?;
    let port = home.port(conn.port)?;
    let vp = match port.vp {
        Aim::One(vp) => vp,
        Aim::Any => home.lowest_ready_vp(port.kind)?,
    };
    Some(Way {
        to: Caller {
            part: conn.part,
            vp,
        },
        port: conn.port,
        sint: port.sint,
        flag: flag_in(&port, flag),
    })
}

// Returns the number in its SINT of a flag that counts from the port's first flag.
fn flag_in(port: &Port, flag: Option<u16>) -> Option<u64> {
    match flag {
        Some(flag) => Some(u64::from(port.base) + u64::from(flag)),
        None => None,
    }
}
