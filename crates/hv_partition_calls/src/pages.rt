// The move of a page that a deposit and a withdrawal make: from one partition to another, or within one.
ghost use Rattle.std.specs.Prelude.{◌≡◌, IsSome, OnOk, OnErr, not};
ghost use Rattle.hv_admit.specs.Effect.{Tells};
ghost use Rattle.hv_admit.specs.declared.effect.Effect.TheVariants as effect;
ghost use Rattle.hv_policy.specs.Flat.{Flat};
ghost use Rattle.hv_admit.specs.Room.{IsSameButRoom};
ghost use Rattle.hv_admit.specs.Tie.{Refines};
ghost use Rattle.hv_partition_calls.specs.PoolChange.{CanGain, CanHold, HasGained, HasLost, HasPages};
ghost use Rattle.hv_partition_calls.specs.PoolChange.{MayMove, kind_of as the_kind, moved_to, pages_at};

use hv_admit::Partitions;
use hv_partition::{PageKind, Partition};
use std::alloc::{AllocError, Allocator};

// Moves a page of `from` to `to`: from the pool to the loose pages if it is pooled, and from the loose pages
// to the pool otherwise. Out of memory at `to`, the page goes back.
pub fn move_page<A: Allocator>(
    tree: &mut Partitions<A>,
    from: u64,
    to: u64,
    page: u32,
    pooled: bool,
) -> Result<(), AllocError>
    requires { MayMove tree.old from to page pooled }
    ensures moved { OnOk result ((f : Flat) → Refines tree.old f → Refines tree.new
        (moved_to f page to (not pooled))) }
    ensures told { OnOk result ((f : Flat) → Refines tree.old f
        → Tells (effect.Page page to (not pooled)) f (moved_to f page to (not pooled))) }
    ensures kept { OnErr result (IsSameButRoom tree.old tree.new) }
{
    let kind = kind_of(pooled);
    let other = kind_of(!pooled);
    match take(tree, from, kind, page) {
        Ok(()) => {}
        Err(refused) => return Err(refused),
    }
    match give(tree, to, other, page) {
        Ok(()) => Ok(()),
        Err(refused) => {
            put(tree, from, kind, page);
            Err(refused)
        }
    }
}

fn kind_of(pooled: bool) -> PageKind
    ensures { result ≡ the_kind pooled }
{
    if pooled {
        PageKind::Pooled
    } else {
        PageKind::Loose
    }
}

// Reserves room for the change and for taking it back, then removes a page that is there from a partition's
// pages of a kind.
#[tactic(auto, using(hv_tree::proofs::Laws::unchanged))]
fn take<A: Allocator>(
    tree: &mut Partitions<A>,
    id: u64,
    kind: PageKind,
    page: u32,
) -> Result<(), AllocError>
    requires { IsSome (pages_at tree.old id kind) }
    ensures taken { OnOk result (HasPages tree.old tree.new id kind (HasLost page)) }
    ensures kept { OnErr result (tree.new ≡ tree.old) }
{
    let Some(partition) = tree.get_mut(id) else {
        unreachable!()
    };
    partition.reserve(kind, 2)?;
    partition.take(kind, page);
    Ok(())
}

// Reserves room and adds a page to a partition's pages of a kind.
#[tactic(auto, using(hv_tree::proofs::Laws::unchanged))]
fn give<A: Allocator>(
    tree: &mut Partitions<A>,
    id: u64,
    kind: PageKind,
    page: u32,
) -> Result<(), AllocError>
    requires { CanHold page (pages_at tree.old id kind) }
    ensures given { OnOk result (HasPages tree.old tree.new id kind (HasGained page)) }
    ensures kept { OnErr result (tree.new ≡ tree.old) }
{
    let Some(partition) = tree.get_mut(id) else {
        unreachable!()
    };
    partition.reserve(kind, 1)?;
    partition.put(kind, page);
    Ok(())
}

// Adds a page to a partition's pages of a kind, which have room for it.
fn put<A: Allocator>(tree: &mut Partitions<A>, id: u64, kind: PageKind, page: u32)
    requires { CanGain page (pages_at tree.old id kind) }
    ensures { HasPages tree.old tree.new id kind (HasGained page) }
{
    let Some(partition) = tree.get_mut(id) else {
        unreachable!()
    };
    partition.put(kind, page);
}
