// The graph of a choice: a partition or one of its processors, with the partitions above it and what connects
// them.
ghost use Rattle.std.specs.Prelude.{IfOk};
ghost use Rattle.hv_draw.specs.Chosen.{IsChosenGraph};

use crate::above::with_above;
use crate::choice::Only;
use crate::graph::{push_blocks, push_end, push_head};
use crate::inside::View;
use crate::left::{left_inside, push_left};
use crate::made::made_ports;
use crate::text::push;
use crate::ties::push_ties;
use hv_history::Kept;
use std::alloc::{AllocError, Global};

/// Returns the graph of a choice.
pub(crate) fn chosen_graph(
    alloc: Global,
    kept: &Kept<Global>,
    only: Only,
) -> Result<Vec<u8>, AllocError>
    ensures { IfOk result (λ text. IsChosenGraph only kept.now text.items) }
{
    let made = made_ports(alloc, kept)?;
    let tree = kept.machine().tree();
    let ids = tree.ids()?;
    let shown = with_above(alloc, tree, &ids, only.part)?;
    let mut left = left_inside(tree, &ids, &shown, only);
    let mut links = Vec::new(alloc);
    left.connections = push_ties(&mut links, tree, &ids, &shown, only)?;
    let mut text = Vec::new(alloc);
    push_head(&mut text, ids.len())?;
    push_blocks(&mut text, tree, &shown, &made, View::Only(only))?;
    push(&mut text, &links)?;
    push_left(
        &mut text,
        ids.len().saturating_sub(shown.len()) as u64,
        left,
    )?;
    push_end(&mut text, kept.history().len() as u64)?;
    Ok(text)
}
