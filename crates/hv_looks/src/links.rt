// Looks at the ports and connections of a partition.
ghost use Rattle.std.specs.Prelude.{◌≡◌, option_map};
ghost use Rattle.std.specs.FinMap.{get};
ghost use Rattle.hv_machine.specs.IsFlat.{IsFlat};
ghost use Rattle.hv_policy.specs.Flat.{Flat};
ghost use Rattle.hv_admit.specs.Tie.{conn_row_of, port_row_of};

use crate::tree::tree_of;
use hv_machine::Machine;
use hv_ports::{Conn, Port};
use std::alloc::Allocator;

/// Returns the port with this id of a partition. `None` if there is no such partition, or no such port.
pub fn port<A: Allocator>(machine: &Machine<A>, part: u64, id: u32) -> Option<Port>
    ensures { (f : Flat) → IsFlat machine.now f → option_map port_row_of result ≡ get f.port (part, id) }
{
    match tree_of(machine).get(part) {
        Some(partition) => partition.port(id),
        None => None,
    }
}

/// Returns the connection with this id of a partition.
///
/// `None` if there is no such partition, or no such connection. The connection's port may be gone.
pub fn connection<A: Allocator>(machine: &Machine<A>, part: u64, id: u32) -> Option<Conn>
    ensures { (f : Flat) → IsFlat machine.now f → option_map conn_row_of result ≡ get f.conn (part, id) }
{
    match tree_of(machine).get(part) {
        Some(partition) => partition.conn(id),
        None => None,
    }
}
