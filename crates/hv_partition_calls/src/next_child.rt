// HvGetNextChildPartition.
ghost use Rattle.std.specs.Prelude.{◌≡◌, ℕ, ◌==◌, ◌||◌, []};
ghost use Rattle.std.specs.Result.{result_err};
ghost use Rattle.hv_calls.specs.declared.call.Call.TheVariants as call;
ghost use Rattle.hv_policy.specs.Answer.{next_child as next_child_of};
ghost use Rattle.hv_policy.specs.Flat.{Flat};
ghost use Rattle.hv_policy.specs.Met.{is_child as is_child_of};
ghost use Rattle.hv_admit.specs.Done.{HasServed};
ghost use Rattle.hv_admit.specs.Served.{unmet_further};
ghost use Rattle.hv_admit.specs.Tie.{Refines};

use hv_admit::{Effect, Partitions, resolve_partition_id};
use hv_policy::{Output, Rule};
use hv_tree::IdTree;
use std::alloc::Allocator;

/// Checks P15: the previous child is 0, or a child of the target.
pub fn ask_next_child<A: Allocator>(
    tree: &Partitions<A>,
    by: u64,
    partition: u64,
    previous: u64,
) -> Result<(), Rule>
    ensures { (f : Flat) → Refines tree.now f
        → result_err result ≡ unmet_further f by (call.GetNextChildPartition partition previous) }
{
    if previous != 0 && !is_child(tree, resolve_partition_id(by, partition), previous) {
        return Err(Rule::PeerExists);
    }
    Ok(())
}

/// HvGetNextChildPartition: outputs the least id above `previous` among the target's children, or 0 if none.
pub fn do_next_child<A: Allocator>(
    tree: &Partitions<A>,
    caller: u64,
    partition: u64,
    previous: u64,
    output: &mut Output,
) -> Effect
    requires { output.old ≡ [] }
    ensures { (f : Flat) → Refines tree.now f
        → HasServed f caller (call.GetNextChildPartition partition previous) output.new result tree.now }
{
    let target = resolve_partition_id(caller, partition);
    output.push_number(next_child(tree, target, previous));
    Effect::Nothing
}

fn is_child<A: Allocator>(tree: &Partitions<A>, parent: u64, id: u64) -> bool
    ensures { (f : Flat) → Refines tree.now f → result ≡ is_child_of f parent id }
{
    match tree.parent_of(id) {
        None => false,
        Some(above) => above == parent,
    }
}

// The least id above `previous` among a partition's children, or 0.
#[tactic(auto, using(crate::proofs::NextChild::next_is))]
fn next_child<A: Allocator>(tree: &Partitions<A>, parent: u64, previous: u64) -> u64
    ensures { (f : Flat) → Refines tree.now f → result ≡ next_child_of f parent previous }
{
    match tree.child_after(parent, previous) {
        None => 0,
        Some(id) => id,
    }
}
