// HvWithdrawMemory.
ghost use Rattle.std.specs.Prelude.{◌≡◌, ℕ, Some, [], IfNone, IfOk};
ghost use Rattle.std.specs.FinSet as set;
ghost use Rattle.std.specs.Result.{result_err, result_map_both};
ghost use Rattle.hv_calls.specs.declared.call.Call.TheVariants as call;
ghost use Rattle.hv_partition.specs.Partition.{PartitionState};
ghost use Rattle.hv_policy.specs.Count.{lowest_pooled as lowest_pooled_of};
ghost use Rattle.hv_policy.specs.Flat.{Flat};
ghost use Rattle.hv_policy.specs.Needs.{target_of};
ghost use Rattle.hv_admit.specs.Asked.{AreFound};
ghost use Rattle.hv_admit.specs.Done.{IsDone};
ghost use Rattle.hv_admit.specs.Served.{unmet_further};
ghost use Rattle.hv_admit.specs.Tie.{Refines};
ghost use Rattle.hv_partition_calls.specs.PoolChange.{MayWithdraw};
ghost use Rattle.hv_tree.specs.Rows.{Rows, content};

use crate::pages::move_page;
use hv_admit::{Effect, Found, Partitions, balance_of, resolve_partition_id};
use hv_partition::{PageKind, Partition};
use hv_policy::{Output, Rule};
use std::alloc::{AllocError, Allocator};

/// Checks P24, and returns the page to move: the lowest pooled page of the target.
///
/// P24 fails if no pooled page is available.
pub fn ask_withdraw<A: Allocator>(found: Found<'_, A>) -> Result<u32, Rule>
    ensures page { IfOk result (λ page. (tree : Rows PartitionState) (f : Flat) (by partition : ℕ)
        → AreFound tree by (call.WithdrawMemory partition) found.entry.need found.entry.caller.now
        found.entry.target.now found.entry.children → Refines tree f
        → lowest_pooled_of f (target_of (call.WithdrawMemory partition) by) ≡ Some page) }
    ensures unmet { (tree : Rows PartitionState) (f : Flat) (by partition : ℕ)
        → AreFound tree by (call.WithdrawMemory partition) found.entry.need found.entry.caller.now
        found.entry.target.now found.entry.children → Refines tree f
        → result_err result ≡ unmet_further f by (call.WithdrawMemory partition) }
{
    let Found {
        need,
        target,
        children,
        ..
    } = found;
    if balance_of(target, children).available < need.charge {
        return Err(Rule::Pages);
    }
    match lowest_pooled(target) {
        Some(page) => Ok(page),
        None => Err(Rule::Pages),
    }
}

// The lowest pooled page of a partition, if it has one.
fn lowest_pooled<A: Allocator>(partition: &Partition<A>) -> Option<u32>
    ensures lowest { (tree : Rows PartitionState) (f : Flat) (id : ℕ) → content tree id ≡ Some partition.now
        → Refines tree f → result ≡ lowest_pooled_of f id }
    ensures empty { IfNone result (partition.now.pooled.pages ≡ set.empty) }
{
    match partition.pages(PageKind::Pooled).lowest() {
        None => None,
        Some(page) => Some(page),
    }
}

/// HvWithdrawMemory: moves the lowest page of the target's pool, `page`, to the caller's loose pages.
///
/// The output is the page's number, 8 bytes. Out of memory, the page stays where it is.
pub fn do_withdraw<A: Allocator>(
    tree: &mut Partitions<A>,
    caller: u64,
    partition: u64,
    page: u32,
    output: &mut Output,
) -> Result<Effect, AllocError>
    requires page { MayWithdraw tree.old caller (call.WithdrawMemory partition) page }
    requires empty { output.old ≡ [] }
    ensures { (f : Flat) → Refines tree.old f → IsDone f caller (call.WithdrawMemory partition) tree.old
        (result_map_both (λ effect. (output.new, effect)) (λ why. why) result) tree.new }
{
    let target = resolve_partition_id(caller, partition);
    match move_page(tree, target, caller, page, true) {
        Ok(()) => {
            output.push_number(u64::from(page));
            Ok(Effect::Page {
                page: u64::from(page),
                owner: caller,
                pooled: false,
            })
        }
        Err(refused) => Err(refused),
    }
}
