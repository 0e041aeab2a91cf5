// The rules that two calls of this call group check, on the partition that was looked up.
ghost use Rattle.std.specs.Prelude.{◌≡◌, ℕ, Some};
ghost use Rattle.std.specs.FinMap.{contains_key};
ghost use Rattle.hv_partition.specs.Partition.{PartitionState};
ghost use Rattle.hv_policy.specs.Flat.{Flat};
ghost use Rattle.hv_admit.specs.Tie.{Refines};
ghost use Rattle.hv_tree.specs.Rows.{Rows, content};

use hv_partition::Partition;
use std::alloc::Allocator;

// P16: whether the partition has a connection with this id.
pub fn has_conn<A: Allocator>(partition: &Partition<A>, connection: u32) -> bool
    ensures { (tree : Rows PartitionState) (f : Flat) (id : ℕ) → content tree id ≡ Some partition.now
        → Refines tree f → result ≡ contains_key f.conn (id, connection) }
{
    partition.conn(connection).is_some()
}

// P17: whether the partition has a port with this id.
pub fn has_port<A: Allocator>(partition: &Partition<A>, port: u32) -> bool
    ensures { (tree : Rows PartitionState) (f : Flat) (id : ℕ) → content tree id ≡ Some partition.now
        → Refines tree f → result ≡ contains_key f.port (id, port) }
{
    partition.port(port).is_some()
}
