// Which partitions the graph of a choice has.
ghost use Rattle.std.specs.Prelude.{◌≡◌, ◌↔◌, ◌∷◌, ◌++◌, [], IfOk, OnOk, if◌then◌else◌, ℕ};
ghost use Rattle.std.specs.List.{Contains};
ghost use Rattle.hv_tree.specs.Subtree.{IsInSubtree};
ghost use Rattle.hv_draw.specs.Chosen.{AreAbove};

use hv_admit::Partitions;
use std::alloc::{AllocError, Global};

/// Returns which of these ids the graph of a chosen partition has: its own id, and those of the partitions
/// above it, up to the root. An id that no partition has isn't among them.
pub(crate) fn with_above(
    alloc: Global,
    tree: &Partitions<Global>,
    ids: &[u64],
    part: u64,
) -> Result<Vec<u64>, AllocError>
    ensures { IfOk result (λ shown. AreAbove tree.now part ids.now shown.items) }
{
    let way = way_up(alloc, tree, part)?;
    let mut shown = Vec::new(alloc);
    for id in ids {
        push_if(&mut shown, *id, way.contains(id))?;
    }
    Ok(shown)
}

// Adds an id if a test holds.
fn push_if(ids: &mut Vec<u64>, id: u64, holds: bool) -> Result<(), AllocError>
    ensures { OnOk result (ids.new.items ≡ ids.old.items ++ (if holds then id ∷ [] else [])) }
{
    if holds {
        ids.push(id)?;
    }
    Ok(())
}

// Returns an id, and those of all partitions above that one.
fn way_up(alloc: Global, tree: &Partitions<Global>, part: u64) -> Result<Vec<u64>, AllocError>
    ensures { IfOk result (λ way. (id : ℕ) → Contains way.items id ↔ IsInSubtree tree.now id part) }
{
    let steps = tree.depth_of(part).unwrap_or(0);
    let mut way = Vec::new(alloc);
    way.push(part)?;
    let mut at = part;
    for _ in 0..steps {
        let Some(parent) = tree.parent_of(at) else {
            unreachable!()
        };
        way.push(parent)?;
        at = parent;
    }
    Ok(way)
}
