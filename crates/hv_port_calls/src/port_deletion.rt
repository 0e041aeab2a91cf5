// HvDeletePort.
ghost use Rattle.std.specs.Prelude.{◌≡◌, ℕ, []};
ghost use Rattle.std.specs.Result.{result_err};
ghost use Rattle.hv_calls.specs.declared.call.Call.TheVariants as call;
ghost use Rattle.hv_partition.specs.Partition.{PartitionState};
ghost use Rattle.hv_policy.specs.Flat.{Flat};
ghost use Rattle.hv_admit.specs.Asked.{AreFound, IsGranted};
ghost use Rattle.hv_admit.specs.Done.{HasServed};
ghost use Rattle.hv_admit.specs.Served.{unmet_further};
ghost use Rattle.hv_admit.specs.Tie.{Refines};
ghost use Rattle.hv_tree.specs.Rows.{Rows};

use crate::rules::has_port;
use hv_admit::{Effect, Found, Partitions, resolve_partition_id};
use hv_policy::Rule;
use std::alloc::Allocator;

/// Checks P12 and P17.
pub fn ask_delete_port<A: Allocator>(found: Found<'_, A>, port: u32) -> Result<(), Rule>
    ensures { (tree : Rows PartitionState) (f : Flat) (by partition : ℕ)
        → AreFound tree by (call.DeletePort partition port) found.entry.need found.entry.caller.now
        found.entry.target.now found.entry.children → Refines tree f
        → result_err result ≡ unmet_further f by (call.DeletePort partition port) }
{
    if !found.need.states.allow(found.target.life()) {
        return Err(Rule::TargetState);
    }
    if !has_port(found.target, port) {
        return Err(Rule::Port);
    }
    Ok(())
}

/// HvDeletePort: removes the target's port with this id. Connections to it stay.
pub fn do_delete_port<A: Allocator>(
    tree: &mut Partitions<A>,
    caller: u64,
    partition: u64,
    port: u32,
) -> Effect
    requires { IsGranted tree.old caller (call.DeletePort partition port) }
    ensures { (f : Flat) → Refines tree.old f
        → HasServed f caller (call.DeletePort partition port) [] result tree.new }
{
    let Some(target) = tree.get_mut(resolve_partition_id(caller, partition)) else {
        unreachable!()
    };
    target.remove_port(port);
    Effect::Nothing
}
