// The connections, each an edge from its partition to its port. In a crowd of partitions they are one edge to
// the ports of each other partition, with their number.

use crate::folded::{is_crowd, push_ports_name};
use crate::inside::push_port_name;
use crate::text::{push, push_number};
use hv_admit::Partitions;
use hv_defs::PortKind;
use hv_partition::Partition;
use hv_ports::Conn;
use indexmap::IndexMap;
use std::alloc::{AllocError, Global};

/// Adds the edges of all connections of the partitions with these ids.
pub(crate) fn push_links(
    text: &mut Vec<u8>,
    tree: &Partitions<Global>,
    ids: &[u64],
) -> Result<(), AllocError> {
    for id in ids {
        if let Some(partition) = tree.get(*id) {
            if is_crowd(ids.len()) {
                push_folded(text, tree, *id, partition)?;
            } else {
                push_own(text, tree, *id, partition)?;
            }
        }
    }
    Ok(())
}

// Adds the edge of each connection of a partition.
fn push_own(
    text: &mut Vec<u8>,
    tree: &Partitions<Global>,
    id: u64,
    partition: &Partition<Global>,
) -> Result<(), AllocError> {
    for place in 0..partition.conn_count() {
        if let Some((number, conn)) = partition.conn_at(place) {
            push_link(text, tree, id, number, conn)?;
        }
    }
    Ok(())
}

// Adds an edge to the ports of each partition to which a partition is connected. One more leads to those that
// are gone.
fn push_folded(
    text: &mut Vec<u8>,
    tree: &Partitions<Global>,
    id: u64,
    partition: &Partition<Global>,
) -> Result<(), AllocError> {
    let alloc = *text.allocator();
    let mut counts: IndexMap<u64, u64> = IndexMap::new(alloc);
    let mut gone = 0u64;
    for place in 0..partition.conn_count() {
        if let Some((_, conn)) = partition.conn_at(place) {
            if leads_to_port(tree, conn) {
                count(&mut counts, conn.part)?;
            } else {
                gone = gone.saturating_add(1);
            }
        }
    }
    push_counts(text, id, &counts)?;
    push_all_gone(text, id, gone)
}

// Counts one more connection to a partition.
fn count(counts: &mut IndexMap<u64, u64>, to: u64) -> Result<(), AllocError> {
    let before = counts.get(&to).copied().unwrap_or(0);
    match counts.insert(to, before.saturating_add(1)) {
        Ok(_) => Ok(()),
        Err(_) => Err(AllocError),
    }
}

// Adds the edges from a partition to the ports of others, each with the number of connections.
fn push_counts(text: &mut Vec<u8>, id: u64, counts: &IndexMap<u64, u64>) -> Result<(), AllocError> {
    for at in 0..counts.len() {
        if let Some((to, number)) = counts.get_index(at) {
            push(text, b"  p")?;
            push_number(text, id)?;
            push(text, b" -> ")?;
            push_ports_name(text, *to)?;
            push_connections(text, *number)?;
        }
    }
    Ok(())
}

/// Adds the style of an edge for so many connections. Of one there is no label.
pub(crate) fn push_connections(text: &mut Vec<u8>, number: u64) -> Result<(), AllocError> {
    if number > 1 {
        push(text, b" [label=\"")?;
        push_number(text, number)?;
        return push(text, b" connections\" style=dashed];\n");
    }
    push(text, b" [style=dashed];\n")
}

// Adds a node for the ports that are gone, and the edge of so many connections to it.
fn push_all_gone(text: &mut Vec<u8>, id: u64, number: u64) -> Result<(), AllocError> {
    if number == 0 {
        return Ok(());
    }
    push(text, b"  g")?;
    push_number(text, id)?;
    push(
        text,
        b" [label=\"ports that are gone\" shape=plaintext];\n  p",
    )?;
    push_number(text, id)?;
    push(text, b" -> g")?;
    push_number(text, id)?;
    push_connections(text, number)
}

/// Adds an edge and, if the port is gone, a node that says so.
pub(crate) fn push_link(
    text: &mut Vec<u8>,
    tree: &Partitions<Global>,
    part: u64,
    number: u32,
    conn: Conn,
) -> Result<(), AllocError> {
    let leads = leads_to_port(tree, conn);
    if !leads {
        push_gone(text, part, number, conn)?;
    }
    push(text, b"  p")?;
    push_number(text, part)?;
    push(text, b" -> ")?;
    if leads {
        push_port_name(text, conn.part, conn.port)?;
    } else {
        push_gone_name(text, part, number)?;
    }
    push(text, b" [label=\"connection ")?;
    push_number(text, u64::from(number))?;
    push(text, kind_of(conn.kind))?;
    push(text, b"\" style=dashed];\n")
}

fn kind_of(kind: PortKind) -> &'static [u8] {
    match kind {
        PortKind::Message => b": messages",
        PortKind::Event => b": event flags",
    }
}

/// Returns whether the connection's port exists, with the birth that the connection keeps.
pub(crate) fn leads_to_port(tree: &Partitions<Global>, conn: Conn) -> bool {
    match tree.get(conn.part) {
        Some(partition) => match partition.port(conn.port) {
            Some(port) => port.born == conn.born,
            None => false,
        },
        None => false,
    }
}

// Adds a node in place of a port that is gone.
fn push_gone(text: &mut Vec<u8>, part: u64, number: u32, conn: Conn) -> Result<(), AllocError> {
    push(text, b"  ")?;
    push_gone_name(text, part, number)?;
    push(text, b" [label=\"port ")?;
    push_number(text, u64::from(conn.port))?;
    push(text, b" of partition ")?;
    push_number(text, conn.part)?;
    push(text, b" is gone\" shape=plaintext];\n")
}

fn push_gone_name(text: &mut Vec<u8>, part: u64, number: u32) -> Result<(), AllocError> {
    push(text, b"g")?;
    push_number(text, part)?;
    push(text, b"_")?;
    push_number(text, u64::from(number))
}
