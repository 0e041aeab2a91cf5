// HvFinalizePartition.
ghost use Rattle.std.specs.Prelude.{◌≡◌, ℕ, ◌==◌, not, [], true, false};
ghost use Rattle.std.specs.FinMap as map;
ghost use Rattle.std.specs.Option.{option_map_or};
ghost use Rattle.std.specs.Result.{result_err};
ghost use Rattle.hv_calls.specs.declared.call.Call.TheVariants as call;
ghost use Rattle.hv_partition.specs.Partition.{PartitionState, finalized};
ghost use Rattle.hv_policy.specs.Flat.{Flat};
ghost use Rattle.hv_admit.specs.Asked.{AreFound, IsGranted};
ghost use Rattle.hv_admit.specs.Done.{HasServed};
ghost use Rattle.hv_admit.specs.Served.{unmet_further};
ghost use Rattle.hv_admit.specs.Tie.{Refines};
ghost use Rattle.hv_tree.specs.Rows.{Rows, change as changed, content};
ghost use Rattle.hv_partition_calls.specs.Change.{has_vps};

use hv_admit::{Effect, Found, Partitions, resolve_partition_id};
use hv_policy::Rule;
use hv_tree::IdTree;
use std::alloc::Allocator;

/// Checks P12 and P13.
#[tactic(auto, using(hv_admit::proofs::CountedRows::children_counted))]
pub fn ask_finalize<A: Allocator>(found: Found<'_, A>) -> Result<(), Rule>
    ensures { (tree : Rows PartitionState) (f : Flat) (by partition : ℕ)
        → AreFound tree by (call.FinalizePartition partition) found.entry.need found.entry.caller.now
        found.entry.target.now found.entry.children → Refines tree f
        → result_err result ≡ unmet_further f by (call.FinalizePartition partition) }
{
    if !found.need.states.allow(found.target.life()) {
        return Err(Rule::TargetState);
    }
    if found.children != 0 {
        return Err(Rule::NoChildren);
    }
    Ok(())
}

/// HvFinalizePartition: makes the target Finalized.
///
/// Removes its virtual processors with their messages, its ports and its connections. Its pages stay.
pub fn do_finalize<A: Allocator>(tree: &mut Partitions<A>, caller: u64, partition: u64) -> Effect
    requires { IsGranted tree.old caller (call.FinalizePartition partition) }
    ensures { (f : Flat) → Refines tree.old f
        → HasServed f caller (call.FinalizePartition partition) [] result tree.new }
{
    let target = resolve_partition_id(caller, partition);
    if finalize(tree, target) {
        Effect::Partition { part: target }
    } else {
        Effect::Nothing
    }
}

// Finalizes a partition, and returns whether it had processors.
#[tactic(auto, using(hv_tree::proofs::Laws::unchanged))]
fn finalize<A: Allocator>(tree: &mut Partitions<A>, id: u64) -> bool
    ensures rows { tree.new ≡ changed tree.old id finalized }
    ensures vps { result ≡ option_map_or has_vps (content tree.old id) false }
{
    match tree.get_mut(id) {
        None => false,
        Some(partition) => {
            let has_vps = partition.vp_count() != 0;
            partition.finalize();
            has_vps
        }
    }
}
