// The connections in the graph of a choice: those of the chosen partition, and those to its ports. Where the
// other end isn't in the graph, it is the note `x`, and one edge stands for all of them.

use crate::choice::Only;
use crate::inside::push_port_name;
use crate::links::{leads_to_port, push_connections, push_link};
use crate::shown::has_port;
use crate::text::{push, push_number};
use hv_admit::Partitions;
use hv_partition::Partition;
use hv_ports::Conn;
use indexmap::IndexMap;
use std::alloc::{AllocError, Global};

// How a connection is drawn.
enum Tie {
    // As an edge of its own.
    Own,
    // With others, from the chosen partition to the note.
    Out,
    // With others, from the note to a port of the chosen partition.
    In,
    // Not at all.
    Hidden,
}

// The connections that share an edge, or have none.
#[derive(Drop)]
struct Shared {
    out: u64,
    // By the ids of ports.
    into: IndexMap<u32, u64>,
    hidden: u64,
}

/// Adds the edges of all connections that the graph of a choice shows, and returns the number of the others.
/// The ids are those of all partitions, and those that the graph has.
pub(crate) fn push_ties(
    text: &mut Vec<u8>,
    tree: &Partitions<Global>,
    ids: &[u64],
    shown: &[u64],
    only: Only,
) -> Result<u64, AllocError> {
    let mut shared = Shared {
        out: 0,
        into: IndexMap::new(*text.allocator()),
        hidden: 0,
    };
    for id in ids {
        if let Some(partition) = tree.get(*id) {
            push_own(text, tree, *id, partition, shown, only, &mut shared)?;
        }
    }
    push_out(text, only.part, shared.out)?;
    push_into(text, only.part, &shared.into)?;
    Ok(shared.hidden)
}

// Adds the edges of a partition's connections that have one of their own, and counts the others.
fn push_own(
    text: &mut Vec<u8>,
    tree: &Partitions<Global>,
    id: u64,
    partition: &Partition<Global>,
    shown: &[u64],
    only: Only,
    shared: &mut Shared,
) -> Result<(), AllocError> {
    for place in 0..partition.conn_count() {
        if let Some((number, conn)) = partition.conn_at(place) {
            match tie_of(tree, id, conn, shown, only) {
                Tie::Own => push_link(text, tree, id, number, conn)?,
                Tie::Out => shared.out = shared.out.saturating_add(1),
                Tie::In => count_in(&mut shared.into, conn.port)?,
                Tie::Hidden => shared.hidden = shared.hidden.saturating_add(1),
            }
        }
    }
    Ok(())
}

// Returns how a connection of a partition is drawn.
fn tie_of(tree: &Partitions<Global>, id: u64, conn: Conn, shown: &[u64], only: Only) -> Tie {
    if id == only.part {
        out_of(tree, conn, shown, only)
    } else if conn.part != only.part || !has_port_of(tree, conn, only) {
        Tie::Hidden
    } else if shown.contains(&id) {
        Tie::Own
    } else {
        Tie::In
    }
}

// Returns how a connection of the chosen partition is drawn.
fn out_of(tree: &Partitions<Global>, conn: Conn, shown: &[u64], only: Only) -> Tie {
    if !leads_to_port(tree, conn) {
        Tie::Own
    } else if !shown.contains(&conn.part) {
        Tie::Out
    } else if has_port_of(tree, conn, only) {
        Tie::Own
    } else {
        Tie::Hidden
    }
}

// Returns whether the graph has the port of a connection, if the partition is in it.
fn has_port_of(tree: &Partitions<Global>, conn: Conn, only: Only) -> bool {
    let Some(partition) = tree.get(conn.part) else {
        return false;
    };
    match partition.port(conn.port) {
        Some(port) => port.born == conn.born && has_port(tree, only, conn.part, conn.port, &port),
        None => false,
    }
}

// Counts one more connection to a port.
fn count_in(into: &mut IndexMap<u32, u64>, port: u32) -> Result<(), AllocError> {
    let before = into.get(&port).copied().unwrap_or(0);
    match into.insert(port, before.saturating_add(1)) {
        Ok(_) => Ok(()),
        Err(_) => Err(AllocError),
    }
}

// Adds the edge of so many connections from a partition to the note, if there are any.
fn push_out(text: &mut Vec<u8>, part: u64, number: u64) -> Result<(), AllocError> {
    if number == 0 {
        return Ok(());
    }
    push(text, b"  p")?;
    push_number(text, part)?;
    push(text, b" -> x")?;
    push_connections(text, number)
}

// Adds the edges from the note to the ports of a partition, each with the number of connections.
fn push_into(text: &mut Vec<u8>, part: u64, into: &IndexMap<u32, u64>) -> Result<(), AllocError> {
    for at in 0..into.len() {
        if let Some((port, number)) = into.get_index(at) {
            push(text, b"  x -> ")?;
            push_port_name(text, part, *port)?;
            push_connections(text, *number)?;
        }
    }
    Ok(())
}
