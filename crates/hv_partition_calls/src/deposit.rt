// HvDepositMemory.
ghost use Rattle.std.specs.Prelude.{◌≡◌, ℕ, Some, []};
ghost use Rattle.std.specs.FinMap.{get};
ghost use Rattle.std.specs.Result.{result_err, result_map_both};
ghost use Rattle.hv_calls.specs.declared.call.Call.TheVariants as call;
ghost use Rattle.hv_partition.specs.Partition.{PartitionState};
ghost use Rattle.hv_policy.specs.Flat.{Flat};
ghost use Rattle.hv_policy.specs.Met.{is_loose as is_loose_of};
ghost use Rattle.hv_admit.specs.Asked.{AreFound, IsGranted};
ghost use Rattle.hv_admit.specs.Done.{IsDone};
ghost use Rattle.hv_admit.specs.Served.{TreeInvariant, unmet_further};
ghost use Rattle.hv_admit.specs.Tie.{Refines};
ghost use Rattle.hv_tree.specs.Rows.{Rows, content};

use crate::pages::move_page;
use hv_admit::{Effect, Found, Partitions, resolve_partition_id};
use hv_partition::{PageKind, Partition};
use hv_policy::Rule;
use std::alloc::{AllocError, Allocator};

/// Checks P12 and P21.
pub fn ask_deposit<A: Allocator>(found: Found<'_, A>, page: u64) -> Result<(), Rule>
    ensures { (tree : Rows PartitionState) (f : Flat) (by partition : ℕ)
        → AreFound tree by (call.DepositMemory partition page) found.entry.need found.entry.caller.now
        found.entry.target.now found.entry.children → TreeInvariant tree → Refines tree f
        → result_err result ≡ unmet_further f by (call.DepositMemory partition page) }
{
    if !found.need.states.allow(found.target.life()) {
        return Err(Rule::TargetState);
    }
    if !is_loose(found.caller, page) {
        return Err(Rule::Operand);
    }
    Ok(())
}

// P21: whether a page is one of a partition's loose pages. Any number is allowed.
fn is_loose<A: Allocator>(partition: &Partition<A>, page: u64) -> bool
    ensures { (tree : Rows PartitionState) (f : Flat) (id : ℕ) → content tree id ≡ Some partition.now
        → TreeInvariant tree → Refines tree f → result ≡ is_loose_of id (get f.page page) }
{
    match u32::try_from(page) {
        Ok(page) => partition.pages(PageKind::Loose).holds(page),
        Err(_) => false,
    }
}

/// HvDepositMemory: moves a loose page of the caller to the target's pool.
///
/// It has no output and uses no pages. Any page number is allowed. Out of memory, the page stays where it is.
pub fn do_deposit<A: Allocator>(
    tree: &mut Partitions<A>,
    caller: u64,
    partition: u64,
    page: u64,
) -> Result<Effect, AllocError>
    requires { IsGranted tree.old caller (call.DepositMemory partition page) }
    ensures { (f : Flat) → Refines tree.old f → IsDone f caller (call.DepositMemory partition page) tree.old
        (result_map_both (λ effect. ([], effect)) (λ why. why) result) tree.new }
{
    let Ok(number) = u32::try_from(page) else {
        unreachable!()
    };
    let target = resolve_partition_id(caller, partition);
    match move_page(tree, caller, target, number, false) {
        Ok(()) => Ok(Effect::Page {
            page,
            owner: target,
            pooled: true,
        }),
        Err(refused) => Err(refused),
    }
}
