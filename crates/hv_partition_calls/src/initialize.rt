// HvInitializePartition.
ghost use Rattle.std.specs.Prelude.{◌≡◌, ℕ, []};
ghost use Rattle.std.specs.Result.{result_err};
ghost use Rattle.hv_calls.specs.declared.call.Call.TheVariants as call;
ghost use Rattle.hv_defs.specs.declared.life.Life.TheVariants as life;
ghost use Rattle.hv_partition.specs.Partition.{PartitionState};
ghost use Rattle.hv_policy.specs.Flat.{Flat};
ghost use Rattle.hv_admit.specs.Asked.{AreFound, IsGranted};
ghost use Rattle.hv_admit.specs.Done.{HasServed};
ghost use Rattle.hv_admit.specs.Served.{unmet_further};
ghost use Rattle.hv_admit.specs.Tie.{Refines};
ghost use Rattle.hv_tree.specs.Rows.{Rows, change as changed};

use hv_admit::{Effect, Found, Partitions, resolve_partition_id};
use hv_defs::Life;
use hv_policy::Rule;
use hv_tree::IdTree;
use std::alloc::Allocator;

/// Checks P12.
pub fn ask_initialize<A: Allocator>(found: Found<'_, A>) -> Result<(), Rule>
    ensures { (tree : Rows PartitionState) (f : Flat) (by partition : ℕ)
        → AreFound tree by (call.InitializePartition partition) found.entry.need found.entry.caller.now
        found.entry.target.now found.entry.children → Refines tree f
        → result_err result ≡ unmet_further f by (call.InitializePartition partition) }
{
    if !found.need.states.allow(found.target.life()) {
        return Err(Rule::TargetState);
    }
    Ok(())
}

/// HvInitializePartition: makes the target Active.
#[tactic(auto, using(crate::proofs::LifeChanges::activated_tied, hv_admit::proofs::PagesAndVps::untold))]
pub fn do_initialize<A: Allocator>(tree: &mut Partitions<A>, caller: u64, partition: u64) -> Effect
    requires { IsGranted tree.old caller (call.InitializePartition partition) }
    ensures { (f : Flat) → Refines tree.old f
        → HasServed f caller (call.InitializePartition partition) [] result tree.new }
{
    activate(tree, resolve_partition_id(caller, partition));
    Effect::Nothing
}

#[tactic(auto, using(hv_tree::proofs::Laws::unchanged))]
fn activate<A: Allocator>(tree: &mut Partitions<A>, id: u64)
    ensures { tree.new ≡ changed tree.old id (λ p. record p { life = life.Active }) }
{
    if let Some(partition) = tree.get_mut(id) {
        partition.set_life(Life::Active);
    }
}
