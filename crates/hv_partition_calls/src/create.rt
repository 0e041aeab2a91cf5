// HvCreatePartition.
ghost use Rattle.std.specs.Prelude.{◌≡◌, ℕ, [], option_map, Some, IfOk, OnOk, OnErr};
ghost use Rattle.std.specs.FinMap as map;
ghost use Rattle.std.specs.Result.{result_err, result_map_both};
ghost use Rattle.hv_calls.specs.declared.call.Call.TheVariants as call;
ghost use Rattle.hv_policy.specs.Count.{depth as depth_of};
ghost use Rattle.hv_policy.specs.Flat.{Flat};
ghost use Rattle.hv_policy.specs.Met.{is_depth_left as is_depth_left_of};
ghost use Rattle.hv_privs.specs.Privileges.{restrict};
ghost use Rattle.hv_privs.specs.declared.TheConstants.Privileges as privilege;
ghost use Rattle.hv_admit.specs.Asked.{AreFound};
ghost use Rattle.hv_admit.specs.Done.{IsDone};
ghost use Rattle.hv_admit.specs.Served.{TreeInvariant, unmet_further};
ghost use Rattle.hv_admit.specs.Tie.{Refines};
ghost use Rattle.hv_partition_calls.specs.Change.{CanInsert, MayCreate};

use hv_admit::{Effect, Found, Partitions, balance_of};
use hv_defs::{Life, MAX_DEPTH};
use hv_partition::Partition;
use hv_policy::{Output, Rule};
use hv_privs::Privileges;
use hv_tree::{IdTree, InsertRefused};
use std::alloc::{AllocError, Allocator};

/// Checks P14 and P24, and returns the mask of the new partition: the caller's, restricted.
pub fn ask_create_partition<A: Allocator>(
    tree: &Partitions<A>,
    by: u64,
    found: Found<'_, A>,
) -> Result<Privileges, Rule>
    requires { TreeInvariant tree.now }
    ensures unmet { (f : Flat) (flags : ℕ) → AreFound tree.now by (call.CreatePartition flags)
        found.entry.need found.entry.caller.now found.entry.target.now found.entry.children
        → Refines tree.now f → result_err result ≡ unmet_further f by (call.CreatePartition flags) }
    ensures mask { IfOk result (λ mask. mask ≡ restrict found.entry.target.now.mask
        privilege.NEW_PARTITION) }
{
    let Found {
        need,
        target,
        children,
        ..
    } = found;
    if !is_depth_left(tree, by) {
        return Err(Rule::Depth);
    }
    if balance_of(target, children).available < need.charge {
        return Err(Rule::Pages);
    }
    Ok(target.mask().restrict(Privileges::NEW_PARTITION))
}

// P14: whether a partition exists and the depth of a child of it would be at most `MAX_DEPTH`.
fn is_depth_left<A: Allocator>(tree: &Partitions<A>, id: u64) -> bool
    requires { TreeInvariant tree.now }
    ensures { (f : Flat) → Refines tree.now f → result ≡ is_depth_left_of f id }
{
    match depth(tree, id) {
        None => false,
        Some(above) => above < MAX_DEPTH,
    }
}

// The number of partitions above this one, if it exists.
fn depth<A: Allocator>(tree: &Partitions<A>, id: u64) -> Option<u64>
    requires { TreeInvariant tree.now }
    ensures { (f : Flat) → Refines tree.now f
        → result ≡ option_map (λ row. depth_of f id) (map.get f.part id) }
{
    tree.depth_of(id)
}

/// HvCreatePartition: creates a partition with the id `next` and this mask below the caller, and outputs the
/// id.
///
/// The new partition is Created and has no pages. It uses 2 pages of the caller's pool. The flags have no
/// effect.
pub fn do_create_partition<A: Allocator + Clone>(
    tree: &mut Partitions<A>,
    alloc: &A,
    caller: u64,
    next: u64,
    mask: Privileges,
    output: &mut Output,
) -> Result<Effect, AllocError>
    requires may { MayCreate tree.old caller next mask }
    requires empty { output.old ≡ [] }
    ensures { (f : Flat) (flags : ℕ) → Refines tree.old f → f.next ≡ next → IsDone f caller
        (call.CreatePartition flags) tree.old
        (result_map_both (λ effect. (output.new, effect)) (λ why. why) result) tree.new }
{
    let partition = Partition::new(alloc.clone()?, Life::Created, mask)?;
    insert(tree, caller, next, partition)?;
    output.push_number(next);
    Ok(Effect::Nothing)
}

fn insert<A: Allocator + Clone>(
    tree: &mut Partitions<A>,
    parent: u64,
    id: u64,
    partition: Partition<A>,
) -> Result<(), AllocError>
    requires { CanInsert tree.old parent id }
    ensures inserted { OnOk result (tree.new ≡ map.insert tree.old id (Some parent, partition)) }
    ensures kept { OnErr result (tree.new ≡ tree.old) }
{
    match tree.insert_child(parent, id, partition) {
        Ok(()) => Ok(()),
        Err(InsertRefused::Memory(_)) => Err(AllocError),
        Err(InsertRefused::NoParent(_)) | Err(InsertRefused::IdTaken(_)) => unreachable!(),
    }
}
