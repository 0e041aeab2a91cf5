// Reading the partitions, for the values of several rules.

use hv_admit::{Partitions, resolve_partition_id};
use hv_calls::Call;
use hv_partition::Partition;
use hv_policy::needs;
use hv_ports::{Conn, Port};
use std::alloc::Global;

// The partitions of a machine.
pub type Tree = Partitions<Global>;

// Returns the target of a call of this caller.
pub fn target_of(caller: u64, call: &Call<'_>) -> u64 {
    match needs(call).named {
        None => caller,
        Some(named) => resolve_partition_id(caller, named),
    }
}

// Returns the mask of a partition, 0 if there is none.
pub fn mask_of(tree: &Tree, id: u64) -> u64 {
    match tree.get(id) {
        None => 0,
        Some(partition) => partition.mask().bits(),
    }
}

// Returns a partition's connection with this id.
pub fn conn_at(tree: &Tree, id: u64, connection: u32) -> Option<Conn> {
    match tree.get(id) {
        None => None,
        Some(partition) => partition.conn(connection),
    }
}

// Returns a partition's port with this id.
pub fn port_at(tree: &Tree, id: u64, port: u32) -> Option<Port> {
    match tree.get(id) {
        None => None,
        Some(partition) => partition.port(port),
    }
}

// Returns a partition's connection, and the port with the id that it keeps.
pub fn way_of(tree: &Tree, id: u64, connection: u32) -> Option<(Conn, Port)> {
    let conn = conn_at(tree, id, connection)?;
    let port = port_at(tree, conn.part, conn.port)?;
    Some((conn, port))
}

// Returns the number of a partition's pooled pages that are available.
pub fn available(partition: &Partition<Global>, children: u32, pooled: u64) -> u64 {
    pooled.saturating_sub(partition.in_use(children))
}
