// HvCreateVp.
ghost use Rattle.std.specs.Prelude.{◌≡◌, ℕ, []};
ghost use Rattle.std.specs.Result.{result_err, result_map_both};
ghost use Rattle.hv_calls.specs.declared.call.Call.TheVariants as call;
ghost use Rattle.hv_partition.specs.Partition.{PartitionState};
ghost use Rattle.hv_policy.specs.Flat.{Flat};
ghost use Rattle.hv_admit.specs.Asked.{AreFound, IsGranted};
ghost use Rattle.hv_admit.specs.Done.{IsDone};
ghost use Rattle.hv_admit.specs.Served.{unmet_further};
ghost use Rattle.hv_admit.specs.Tie.{Refines};
ghost use Rattle.hv_tree.specs.Rows.{Rows};

use hv_admit::{Effect, Found, Partitions, balance_of, has_vp, resolve_partition_id};
use hv_defs::MAX_VPS;
use hv_policy::Rule;
use hv_vp::Vp;
use std::alloc::{AllocError, Allocator};

/// Checks P12, P19 and P24.
pub fn ask_create_vp<A: Allocator>(found: Found<'_, A>, vp: u32) -> Result<(), Rule>
    ensures { (tree : Rows PartitionState) (f : Flat) (by partition : ℕ)
        → AreFound tree by (call.CreateVp partition vp) found.entry.need found.entry.caller.now
        found.entry.target.now found.entry.children → Refines tree f
        → result_err result ≡ unmet_further f by (call.CreateVp partition vp) }
{
    let Found {
        need,
        target,
        children,
        ..
    } = found;
    if !need.states.allow(target.life()) {
        return Err(Rule::TargetState);
    }
    if vp >= MAX_VPS || has_vp(target, vp) {
        return Err(Rule::VpExists);
    }
    if balance_of(target, children).available < need.charge {
        return Err(Rule::Pages);
    }
    Ok(())
}

/// HvCreateVp: creates a processor with this index in the target.
///
/// Its registers have their initial values. It uses 4 pages of the target's pool. It takes memory for the
/// processor, then for its place among the target's.
#[tactic(auto, using(hv_tree::proofs::Laws::unchanged))]
pub fn do_create_vp<A: Allocator + Clone>(
    tree: &mut Partitions<A>,
    alloc: &A,
    caller: u64,
    partition: u64,
    vp: u32,
) -> Result<Effect, AllocError>
    requires { IsGranted tree.old caller (call.CreateVp partition vp) }
    ensures { (f : Flat) → Refines tree.old f → IsDone f caller (call.CreateVp partition vp) tree.old
        (result_map_both (λ effect. ([], effect)) (λ why. why) result) tree.new }
{
    let part = resolve_partition_id(caller, partition);
    let created = Vp::new(alloc.clone()?, vp)?;
    let Some(target) = tree.get_mut(part) else {
        unreachable!()
    };
    target.reserve_vp()?;
    target.add_vp(vp, created);
    Ok(Effect::Processor { part, vp })
}
