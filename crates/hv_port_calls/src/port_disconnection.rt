// HvDisconnectPort.
ghost use Rattle.std.specs.Prelude.{◌≡◌, ℕ, []};
ghost use Rattle.std.specs.Result.{result_err};
ghost use Rattle.hv_calls.specs.declared.call.Call.TheVariants as call;
ghost use Rattle.hv_partition.specs.Partition.{PartitionState};
ghost use Rattle.hv_policy.specs.Flat.{Flat};
ghost use Rattle.hv_admit.specs.Asked.{AreFound, IsGranted};
ghost use Rattle.hv_admit.specs.Done.{HasServed};
ghost use Rattle.hv_admit.specs.Served.{unmet_further};
ghost use Rattle.hv_admit.specs.Tie.{Refines};
ghost use Rattle.hv_tree.specs.Rows.{Rows};

use crate::rules::has_conn;
use hv_admit::{Effect, Found, Partitions, resolve_partition_id};
use hv_policy::Rule;
use std::alloc::Allocator;

/// Checks P12 and P16.
pub fn ask_disconnect<A: Allocator>(found: Found<'_, A>, connection: u32) -> Result<(), Rule>
    ensures { (tree : Rows PartitionState) (f : Flat) (by partition : ℕ)
        → AreFound tree by (call.DisconnectPort partition connection) found.entry.need found.entry.caller.now
        found.entry.target.now found.entry.children → Refines tree f
        → result_err result ≡ unmet_further f by (call.DisconnectPort partition connection) }
{
    if !found.need.states.allow(found.target.life()) {
        return Err(Rule::TargetState);
    }
    if !has_conn(found.target, connection) {
        return Err(Rule::Connection);
    }
    Ok(())
}

/// HvDisconnectPort: removes the target's connection with this id.
pub fn do_disconnect<A: Allocator>(
    tree: &mut Partitions<A>,
    caller: u64,
    partition: u64,
    connection: u32,
) -> Effect
    requires { IsGranted tree.old caller (call.DisconnectPort partition connection) }
    ensures { (f : Flat) → Refines tree.old f
        → HasServed f caller (call.DisconnectPort partition connection) [] result tree.new }
{
    let Some(target) = tree.get_mut(resolve_partition_id(caller, partition)) else {
        unreachable!()
    };
    target.remove_conn(connection);
    Effect::Nothing
}
