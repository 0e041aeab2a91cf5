// What the graph of a choice shows in the cluster of a partition, behind the partition's node.

use crate::choice::Only;
use crate::folded::are_folded;
use crate::inside::{push_port, push_port_node, push_vp, push_vps};
use crate::made::MadePort;
use hv_admit::Partitions;
use hv_defs::Aim;
use hv_partition::Partition;
use hv_policy::Caller;
use hv_ports::Port;
use std::alloc::{AllocError, Global};

/// Adds the nodes of the chosen processors, if this is the chosen partition, and of the ports that the graph
/// has.
pub(crate) fn push_shown(
    text: &mut Vec<u8>,
    tree: &Partitions<Global>,
    id: u64,
    partition: &Partition<Global>,
    made: &[MadePort],
    only: Only,
) -> Result<(), AllocError> {
    if id == only.part {
        push_chosen_vps(text, id, partition, made, only.vp)?;
    }
    for place in 0..partition.port_count() {
        if let Some((number, port)) = partition.port_at(place) {
            if has_port(tree, only, id, number, &port) {
                push_shown_port(text, id, number, partition, &port, only)?;
            }
        }
    }
    Ok(())
}

// Adds the node of a port, and for one of the chosen partition the edge to its processor.
fn push_shown_port(
    text: &mut Vec<u8>,
    id: u64,
    number: u32,
    partition: &Partition<Global>,
    port: &Port,
    only: Only,
) -> Result<(), AllocError> {
    if id != only.part {
        return push_port_node(text, id, number, partition, port);
    }
    let folded = only.vp.is_none() && are_folded(partition, false);
    push_port(text, id, number, partition, port, folded)
}

// Adds the node of a processor, or those of all processors of a partition.
fn push_chosen_vps(
    text: &mut Vec<u8>,
    id: u64,
    partition: &Partition<Global>,
    made: &[MadePort],
    vp: Option<u32>,
) -> Result<(), AllocError> {
    let Some(index) = vp else {
        return push_vps(text, id, partition, made, false);
    };
    let by = Caller {
        part: id,
        vp: index,
    };
    match partition.vp(index) {
        Some(vp) => push_vp(text, by, vp, made),
        None => Ok(()),
    }
}

/// Returns whether the graph of a choice has this port of a partition in it: it is one of the chosen
/// partition and may reach the chosen processor, or the chosen partition is connected to it.
pub(crate) fn has_port(
    tree: &Partitions<Global>,
    only: Only,
    id: u64,
    number: u32,
    port: &Port,
) -> bool {
    if id == only.part {
        return may_reach(port, only.vp);
    }
    match tree.get(only.part) {
        Some(chosen) => is_connected(chosen, id, number, port.born),
        None => false,
    }
}

// Returns whether a port aims at a processor, if there is one, or at any.
fn may_reach(port: &Port, vp: Option<u32>) -> bool {
    match (port.vp, vp) {
        (Aim::One(aim), Some(vp)) => aim == vp,
        (Aim::One(_), None) | (Aim::Any, _) => true,
    }
}

// Returns whether a partition has a connection to this port of another one.
fn is_connected(partition: &Partition<Global>, to: u64, number: u32, born: u64) -> bool {
    for place in 0..partition.conn_count() {
        if let Some((_, conn)) = partition.conn_at(place) {
            if conn.part == to && conn.port == number && conn.born == born {
                return true;
            }
        }
    }
    false
}
