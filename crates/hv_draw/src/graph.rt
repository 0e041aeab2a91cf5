// The whole graph.
ghost use Rattle.std.specs.Prelude.{◌≡◌, ◌++◌, All, IsSome, OnOk, Some};
ghost use Rattle.std.specs.FinMap as map;
ghost use Rattle.hv_partition.specs.Partition.{PartitionState};
ghost use Rattle.hv_tree.specs.Rows.{Row};
ghost use Rattle.hv_draw.specs.Graph.{HasBlock, HasBlocks, color_text, direction_text, edge_text};
ghost use Rattle.hv_draw.specs.Graph.{end_text, events_text, fill_text, head_text, name_text, opening_text};
ghost use Rattle.hv_draw.specs.Graph.{pages_text, rank_text, rows_in, use_text};
ghost use Rattle.hv_text.specs.Table.{life_text};

use crate::inside::{View, push_inside};
use crate::made::MadePort;
use crate::text::{push, push_hex_64, push_number};
use hv_admit::Partitions;
use hv_defs::Life;
use hv_partition::{PageKind, Partition};
use std::alloc::{AllocError, Global};

// The most partitions of a graph that runs from top to bottom.
const DOWNWARD: usize = 8;

/// Adds the head of a graph of this many partitions.
pub(crate) fn push_head(text: &mut Vec<u8>, partitions: usize) -> Result<(), AllocError>
    ensures { OnOk result (text.new.items ≡ text.old.items ++ head_text partitions) }
{
    push(
        text,
        b"digraph hvpm {\n  graph [newrank=true style=rounded color=gray];\n",
    )?;
    push_direction(text, partitions)?;
    push(
        text,
        b"  node [fontname=\"Helvetica\" fontsize=10 shape=box];\n",
    )?;
    push(text, b"  edge [fontname=\"Helvetica\" fontsize=9];\n")
}

// Adds the direction of a graph of this many partitions, if it isn't from top to bottom.
fn push_direction(text: &mut Vec<u8>, partitions: usize) -> Result<(), AllocError>
    ensures { OnOk result (text.new.items ≡ text.old.items ++ direction_text partitions) }
{
    if partitions <= DOWNWARD {
        return Ok(());
    }
    push(text, b"  rankdir=LR;\n")
}

/// Adds the end of a graph of the state after this number of events.
pub(crate) fn push_end(text: &mut Vec<u8>, events: u64) -> Result<(), AllocError>
    ensures { OnOk result (text.new.items ≡ text.old.items ++ end_text events) }
{
    push(text, b"  label=\"after ")?;
    push_number(text, events)?;
    push(text, events_word(events))?;
    push(text, b"\" labelloc=t fontname=\"Helvetica\";\n}\n")
}

// Returns what is counted, for so many events.
fn events_word(events: u64) -> &'static [u8]
    ensures { result.now ≡ events_text events }
{
    if events == 1 { b" event" } else { b" events" }
}

/// Adds the block of each partition with one of these ids, with what the view has inside.
pub(crate) fn push_blocks(
    text: &mut Vec<u8>,
    tree: &Partitions<Global>,
    ids: &[u64],
    made: &[MadePort],
    view: View,
) -> Result<(), AllocError>
    requires { All (λ id. IsSome (map.get tree.now id)) ids.now }
    ensures { OnOk result (HasBlocks tree.now (rows_in tree.now ids.now) text.old.items text.new.items) }
{
    for id in ids {
        let mut inside = Vec::new(*text.allocator());
        push_inside(&mut inside, tree, *id, made, view)?;
        push_block(text, tree, *id, &inside)?;
    }
    Ok(())
}

// Adds the block of the partition with this id: the edge from its parent, and its cluster, which begins with
// its node.
fn push_block(
    text: &mut Vec<u8>,
    tree: &Partitions<Global>,
    id: u64,
    inside: &[u8],
) -> Result<(), AllocError>
    requires { IsSome (map.get tree.now id) }
    ensures { (row : Row PartitionState) → map.get tree.now id ≡ Some row
        → OnOk result (HasBlock tree.now (id, row) text.old.items text.new.items) }
{
    let Some(partition) = tree.get(id) else {
        unreachable!()
    };
    let Some(depth) = tree.depth_of(id) else {
        unreachable!()
    };
    let Some(count) = tree.children_of(id) else {
        unreachable!()
    };
    push_edge(text, tree.parent_of(id), id)?;
    push_opening(text, id)?;
    push_name(text, id, partition)?;
    push_rank(text, depth, partition)?;
    push_pages(text, partition)?;
    push_use(text, count, partition)?;
    push_fill(text, partition)?;
    push(text, inside)?;
    push(text, b"  }\n")
}

// Adds the edge from the parent, if there is one.
fn push_edge(text: &mut Vec<u8>, parent: Option<u64>, id: u64) -> Result<(), AllocError>
    ensures { OnOk result (text.new.items ≡ text.old.items ++ edge_text parent id) }
{
    let Some(parent) = parent else {
        return Ok(());
    };
    push(text, b"  p")?;
    push_number(text, parent)?;
    push(text, b" -> p")?;
    push_number(text, id)?;
    push(text, b";\n")
}

fn push_opening(text: &mut Vec<u8>, id: u64) -> Result<(), AllocError>
    ensures { OnOk result (text.new.items ≡ text.old.items ++ opening_text id) }
{
    push(text, b"  subgraph cluster_")?;
    push_number(text, id)?;
    push(text, b" {\n    p")?;
    push_number(text, id)
}

fn push_name(text: &mut Vec<u8>, id: u64, partition: &Partition<Global>) -> Result<(), AllocError>
    ensures { OnOk result (text.new.items ≡ text.old.items ++ name_text id partition.now) }
{
    push(text, b" [label=\"partition ")?;
    push_number(text, id)?;
    push(text, b"\\n")?;
    push(text, life_of(partition.life()))
}

fn push_rank(
    text: &mut Vec<u8>,
    depth: u64,
    partition: &Partition<Global>,
) -> Result<(), AllocError>
    ensures { OnOk result (text.new.items ≡ text.old.items ++ rank_text depth partition.now) }
{
    push(text, b", depth ")?;
    push_number(text, depth)?;
    push(text, b"\\nmask 0x")?;
    push_hex_64(text, partition.mask().bits())
}

fn push_pages(text: &mut Vec<u8>, partition: &Partition<Global>) -> Result<(), AllocError>
    ensures { OnOk result (text.new.items ≡ text.old.items ++ pages_text partition.now) }
{
    push(text, b"\\npages: ")?;
    push_number(text, partition.pages(PageKind::Loose).count())?;
    push(text, b" loose, ")?;
    push_number(text, partition.pages(PageKind::Pooled).count())
}

fn push_use(
    text: &mut Vec<u8>,
    children: u32,
    partition: &Partition<Global>,
) -> Result<(), AllocError>
    ensures { OnOk result (text.new.items ≡ text.old.items ++ use_text children partition.now) }
{
    push(text, b" pooled, ")?;
    push_number(text, partition.in_use(children))?;
    push(text, b" in use\"")
}

// Adds the color of a partition's node.
fn push_fill(text: &mut Vec<u8>, partition: &Partition<Global>) -> Result<(), AllocError>
    ensures { OnOk result (text.new.items ≡ text.old.items ++ fill_text partition.now) }
{
    push(text, b" style=filled fillcolor=")?;
    push(text, color_of(partition.life()))?;
    push(text, b"];\n")
}

fn life_of(life: Life) -> &'static [u8]
    ensures { result.now ≡ life_text life }
{
    match life {
        Life::Created => b"Created",
        Life::Active => b"Active",
        Life::Finalized => b"Finalized",
    }
}

// The colors differ in grey, too.
fn color_of(life: Life) -> &'static [u8]
    ensures { result.now ≡ color_text life }
{
    match life {
        Life::Created => b"lightyellow",
        Life::Active => b"palegreen",
        Life::Finalized => b"gray60",
    }
}
