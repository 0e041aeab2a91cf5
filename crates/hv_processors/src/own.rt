// The processor that accesses one of its model-specific registers.
ghost use Rattle.std.specs.Prelude.{◌≡◌, ◌++◌, ℕ, None, Some, IfErr, IfNone, IfOk, IsSome};
ghost use Rattle.std.specs.Borrow.{LendsIfOk, sem};
ghost use Rattle.hv_partition.specs.Partition.{PartitionState, with_vp_of};
ghost use Rattle.hv_partition.specs.contracts.partition.Partition.{the_row as partition_row};
ghost use Rattle.hv_policy.specs.Flat.{Flat};
ghost use Rattle.hv_policy.specs.Rules.{caller_asks, first_unmet};
ghost use Rattle.hv_admit.specs.Tie.{Refines};
ghost use Rattle.hv_tree.specs.Rows.{Rows, change, content};
ghost use Rattle.hv_tree.specs.contracts.tree.IdTree.{the_row as tree_row};
ghost use Rattle.hv_vp.specs.contracts.vp.Vp.{the_row as vp_row};
ghost use Rattle.hv_processors.specs.Asked.{msr_asks};
ghost use Rattle.hv_processors.specs.Place.{vp_at};

use crate::register_rules::may_access;
use hv_admit::Partitions;
use hv_defs::Life;
use hv_policy::{Caller, Rule};
use hv_privs::Privileges;
use hv_vp::{Vp, privilege_of};
use std::alloc::Allocator;

// Checks P1 to P3, P25 and P26 for the register with this name, and returns the processor that makes the
// access, to read or change. The error is the first of these rules that fails. The partitions are then
// unchanged.
#[tactic(auto, using(hv_tree::proofs::Laws::unchanged))]
pub fn own_vp<A: Allocator>(
    tree: &mut Partitions<A>,
    by: Caller,
    name: Option<u32>,
) -> Result<&mut Vp<A>, Rule>
    ensures* writes_back { sem 𝓛 (LendsIfOk (tree_row (partition_row A.row A.Allocator) A.row A.Allocator)
        (vp_row A.row A.Allocator) tree.entry result
        (λ w. change tree.old by.part (λ p. with_vp_of p by.vp w)) tree.old) }
    ensures there { IfOk result (λ vp. vp_at tree.old by.part by.vp ≡ Some vp.now) }
    ensures known { IfOk result (λ _. IsSome name) }
    ensures met { IfOk result (λ _. (f : Flat) → Refines tree.old f
        → (first_unmet (caller_asks f by) ≡ None) × (first_unmet (msr_asks f by.part name) ≡ None)) }
    ensures unmet { IfErr result (λ rule. (f : Flat) → Refines tree.old f
        → first_unmet (caller_asks f by ++ msr_asks f by.part name) ≡ Some rule) }
{
    let Some(caller) = tree.get_mut(by.part) else {
        return Err(Rule::CallerExists);
    };
    if caller.life() != Life::Active {
        return Err(Rule::CallerActive);
    }
    let mask = caller.mask();
    let Some(vp) = caller.vp_mut(by.vp) else {
        return Err(Rule::CallerVpExists);
    };
    match unmet_by_mask(mask, name) {
        None => Ok(vp),
        Some(rule) => Err(rule),
    }
}

// The first of P25 and P26 that fails for a partition with this mask, if one does.
fn unmet_by_mask(mask: Privileges, name: Option<u32>) -> Option<Rule>
    ensures known { IfNone result (IsSome name) }
    ensures unmet { (f : Flat) (rows : Rows PartitionState) (id : ℕ) (p : PartitionState)
        → content rows id ≡ Some p → p.mask ≡ mask → Refines rows f
        → result ≡ first_unmet (msr_asks f id name) }
{
    let Some(name) = name else {
        return Some(Rule::MsrKnown);
    };
    if !may_access(mask, privilege_of(name)) {
        return Some(Rule::MsrPrivilege);
    }
    None
}
