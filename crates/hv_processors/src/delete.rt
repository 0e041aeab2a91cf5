// HvDeleteVp.
ghost use Rattle.std.specs.Prelude.{◌≡◌, ℕ, []};
ghost use Rattle.std.specs.Result.{result_err};
ghost use Rattle.hv_calls.specs.declared.call.Call.TheVariants as call;
ghost use Rattle.hv_partition.specs.Partition.{PartitionState};
ghost use Rattle.hv_policy.specs.Flat.{Flat};
ghost use Rattle.hv_admit.specs.Asked.{AreFound, IsGranted};
ghost use Rattle.hv_admit.specs.Done.{HasServed};
ghost use Rattle.hv_admit.specs.Served.{unmet_further};
ghost use Rattle.hv_admit.specs.Tie.{Refines};
ghost use Rattle.hv_tree.specs.Rows.{Rows};

use hv_admit::{Effect, Found, Partitions, has_vp, resolve_partition_id};
use hv_policy::Rule;
use std::alloc::Allocator;

/// Checks P12 and P19.
pub fn ask_delete_vp<A: Allocator>(found: Found<'_, A>, vp: u32) -> Result<(), Rule>
    ensures { (tree : Rows PartitionState) (f : Flat) (by partition : ℕ)
        → AreFound tree by (call.DeleteVp partition vp) found.entry.need found.entry.caller.now
        found.entry.target.now found.entry.children → Refines tree f
        → result_err result ≡ unmet_further f by (call.DeleteVp partition vp) }
{
    if !found.need.states.allow(found.target.life()) {
        return Err(Rule::TargetState);
    }
    if !has_vp(found.target, vp) {
        return Err(Rule::VpExists);
    }
    Ok(())
}

/// HvDeleteVp: removes the target's processor with this index, its registers and its messages.
pub fn do_delete_vp<A: Allocator>(
    tree: &mut Partitions<A>,
    caller: u64,
    partition: u64,
    vp: u32,
) -> Effect
    requires { IsGranted tree.old caller (call.DeleteVp partition vp) }
    ensures { (f : Flat) → Refines tree.old f
        → HasServed f caller (call.DeleteVp partition vp) [] result tree.new }
{
    let part = resolve_partition_id(caller, partition);
    let Some(target) = tree.get_mut(part) else {
        unreachable!()
    };
    target.remove_vp(vp);
    Effect::Processor { part, vp }
}
