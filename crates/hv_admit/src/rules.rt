// Rules that several call groups check, on the partitions that were looked up.
ghost use Rattle.std.specs.Prelude.{◌≡◌, ℕ, Some};
ghost use Rattle.std.specs.FinMap.{contains_key};
ghost use Rattle.hv_partition.specs.Partition.{PartitionState, available as may_use, in_use as uses};
ghost use Rattle.hv_policy.specs.Aim.{has_target as has_target_of};
ghost use Rattle.hv_policy.specs.Flat.{Flat};
ghost use Rattle.hv_policy.specs.Needs.{resolved_id};
ghost use Rattle.hv_admit.specs.Tie.{Refines};
ghost use Rattle.hv_tree.specs.Rows.{Rows, content};

use hv_defs::{Aim, SELF_ID};
use hv_partition::{PageKind, Partition};
use std::alloc::Allocator;

/// A partition's balance of pooled pages: those still available, and those in use.
#[derive(Clone, Copy)]
pub struct Balance {
    pub available: u64,
    pub in_use: u64,
}

/// Returns the partition that an id in an input block names. All ones names the caller's own.
pub fn resolve_partition_id(caller: u64, id: u64) -> u64
    ensures { result ≡ resolved_id caller id }
{
    if id == SELF_ID { caller } else { id }
}

/// Checks P19: the partition has a processor with this index.
pub fn has_vp<A: Allocator>(partition: &Partition<A>, index: u32) -> bool
    ensures { (tree : Rows PartitionState) (f : Flat) (id : ℕ) → content tree id ≡ Some partition.now
        → Refines tree f → result ≡ contains_key f.vp (id, index) }
{
    partition.vp(index).is_some()
}

/// Checks P19 for a port: the partition has the one processor at which the port aims.
///
/// The rule always holds for `Aim::Any`.
pub fn has_target<A: Allocator>(partition: &Partition<A>, aim: Aim) -> bool
    ensures { (tree : Rows PartitionState) (f : Flat) (id : ℕ) → content tree id ≡ Some partition.now
        → Refines tree f → result ≡ has_target_of f id aim }
{
    match aim {
        Aim::One(index) => has_vp(partition, index),
        Aim::Any => true,
    }
}

/// Returns the balance of pages of a partition with this number of children.
pub fn balance_of<A: Allocator>(partition: &Partition<A>, children: u32) -> Balance
    ensures available { result.available ≡ may_use children partition.now }
    ensures in_use { result.in_use ≡ uses children partition.now }
{
    let in_use = partition.in_use(children);
    Balance {
        available: partition
            .pages(PageKind::Pooled)
            .count()
            .saturating_sub(in_use),
        in_use,
    }
}
