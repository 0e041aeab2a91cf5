// HvDeletePartition.
ghost use Rattle.std.specs.Prelude.{◌≡◌, ℕ, ◌+◌, [], IfOk, OnOk, OnErr, true};
ghost use Rattle.std.specs.FinMap.{contains_key};
ghost use Rattle.std.specs.Result.{result_err, result_map_both};
ghost use Rattle.hv_calls.specs.declared.call.Call.TheVariants as call;
ghost use Rattle.hv_pages.specs.PageSet.{runs_of};
ghost use Rattle.hv_partition.specs.Partition.{PartitionState};
ghost use Rattle.hv_policy.specs.Flat.{Flat};
ghost use Rattle.hv_admit.specs.Asked.{AreFound};
ghost use Rattle.hv_admit.specs.Done.{IsDone};
ghost use Rattle.hv_admit.specs.Served.{unmet_further};
ghost use Rattle.hv_admit.specs.Tie.{Refines};
ghost use Rattle.hv_tree.specs.Rows.{Rows};
ghost use Rattle.hv_partition_calls.specs.Change.{HasFewPages, HasRoom, HasTakenOver, MayDelete, MayTakeOver};
ghost use Rattle.hv_partition_calls.specs.Change.{effect_of_pages};

use hv_admit::{Effect, Found, Partitions, resolve_partition_id};
use hv_partition::{PageKind, Partition};
use hv_policy::Rule;
use hv_tree::IdTree;
use std::alloc::{AllocError, Allocator};

/// Checks P12, and returns the number of runs of the target's pages.
pub fn ask_delete_partition<A: Allocator>(found: Found<'_, A>) -> Result<u64, Rule>
    requires { HasFewPages found.target.now }
    ensures unmet { (tree : Rows PartitionState) (f : Flat) (by partition : ℕ)
        → AreFound tree by (call.DeletePartition partition) found.entry.need found.entry.caller.now
        found.entry.target.now found.entry.children → Refines tree f
        → result_err result ≡ unmet_further f by (call.DeletePartition partition) }
    ensures runs { IfOk result (λ runs. runs ≡ runs_of found.entry.target.now.loose.pages
        + runs_of found.entry.target.now.pooled.pages) }
{
    let Found { need, target, .. } = found;
    if !need.states.allow(target.life()) {
        return Err(Rule::TargetState);
    }
    Ok(target.pages(PageKind::Loose).runs() + target.pages(PageKind::Pooled).runs())
}

/// HvDeletePartition: removes the target. All its pages become loose pages of the caller.
///
/// It reserves room by the number of their runs, not of pages.
pub fn do_delete_partition<A: Allocator>(
    tree: &mut Partitions<A>,
    caller: u64,
    partition: u64,
    runs: u64,
) -> Result<Effect, AllocError>
    requires { MayDelete tree.old caller partition runs }
    ensures { (f : Flat) → Refines tree.old f → IsDone f caller (call.DeletePartition partition) tree.old
        (result_map_both (λ effect. ([], effect)) (λ why. why) result) tree.new }
{
    let target = resolve_partition_id(caller, partition);
    make_room(tree, caller, runs)?;
    let Some(gone) = tree.remove_leaf(target) else {
        unreachable!()
    };
    let effect = effect_of(&gone, target, caller);
    hand_over(tree, caller, gone);
    Ok(effect)
}

// Reserves room for `more` runs of loose pages in a partition.
#[tactic(auto, using(hv_tree::proofs::Laws::unchanged, crate::proofs::LentPartition::has_room))]
fn make_room<A: Allocator>(tree: &mut Partitions<A>, id: u64, more: u64) -> Result<(), AllocError>
    requires { contains_key tree.old id ≡ true }
    ensures room { OnOk result (HasRoom tree.old tree.new id more) }
    ensures kept { OnErr result (tree.new ≡ tree.old) }
{
    let Some(partition) = tree.get_mut(id) else {
        unreachable!()
    };
    partition.reserve(PageKind::Loose, more as usize)
}

// What changes as the pages of `gone` pass from one partition to another.
fn effect_of<A: Allocator>(gone: &Partition<A>, from: u64, to: u64) -> Effect
    ensures { result ≡ effect_of_pages from to gone.now }
{
    if gone.pages(PageKind::Loose).count() == 0 && gone.pages(PageKind::Pooled).count() == 0 {
        Effect::Nothing
    } else {
        Effect::Pages { from, to }
    }
}

// Gives all pages of a removed partition to another one.
fn hand_over<A: Allocator>(tree: &mut Partitions<A>, new_owner: u64, gone: Partition<A>)
    requires { MayTakeOver tree.old new_owner gone }
    ensures { HasTakenOver tree.old tree.new new_owner gone }
{
    let Some(partition) = tree.get_mut(new_owner) else {
        unreachable!()
    };
    partition.take_over(gone);
}
