// What the graph of a choice leaves out: a note with the numbers.
ghost use Rattle.std.specs.Prelude.{◌≡◌, ◌++◌, OnOk};
ghost use Rattle.hv_draw.specs.Chosen.{HasNote, left_text};

use crate::choice::Only;
use crate::shown::has_port;
use crate::text::{push, push_number};
use hv_admit::Partitions;
use hv_partition::Partition;
use std::alloc::{AllocError, Global};

/// The numbers of the processors, ports and connections that aren't in a graph, and whether what was chosen
/// isn't there.
#[derive(Clone, Copy)]
pub(crate) struct Left {
    pub(crate) vps: u64,
    pub(crate) ports: u64,
    pub(crate) connections: u64,
    pub(crate) missing: Option<Only>,
}

/// Counts what the graph of a choice leaves out inside partitions. The ids are those of all partitions, and
/// those that the graph has. Connections aren't counted.
pub(crate) fn left_inside(
    tree: &Partitions<Global>,
    ids: &[u64],
    shown: &[u64],
    only: Only,
) -> Left {
    let mut left = Left {
        vps: 0,
        ports: 0,
        connections: 0,
        missing: missing(tree, only),
    };
    for id in ids {
        if let Some(partition) = tree.get(*id) {
            let drawn = vps_in(*id, partition, only);
            let vps = u64::from(partition.vp_count()).saturating_sub(drawn);
            left.vps = left.vps.saturating_add(vps);
            let ports = ports_left(tree, *id, partition, shown, only);
            left.ports = left.ports.saturating_add(ports);
        }
    }
    left
}

// Returns the choice if there is no such partition or processor.
fn missing(tree: &Partitions<Global>, only: Only) -> Option<Only> {
    let is_there = match (tree.get(only.part), only.vp) {
        (Some(partition), Some(vp)) => partition.vp(vp).is_some(),
        (Some(_), None) => true,
        (None, _) => false,
    };
    if is_there { None } else { Some(only) }
}

// Returns the number of a partition's processors that the graph of a choice has.
fn vps_in(id: u64, partition: &Partition<Global>, only: Only) -> u64 {
    match only.vp {
        _ if id != only.part => 0,
        Some(vp) => u64::from(partition.vp(vp).is_some()),
        None => u64::from(partition.vp_count()),
    }
}

// Returns the number of a partition's ports that the graph of a choice leaves out.
fn ports_left(
    tree: &Partitions<Global>,
    id: u64,
    partition: &Partition<Global>,
    shown: &[u64],
    only: Only,
) -> u64 {
    let is_shown = shown.contains(&id);
    let mut left = 0u64;
    for place in 0..partition.port_count() {
        if let Some((number, port)) = partition.port_at(place) {
            if !is_shown || !has_port(tree, only, id, number, &port) {
                left = left.saturating_add(1);
            }
        }
    }
    left
}

/// Adds the note `x`, with the number of partitions that are left out, and the others.
pub(crate) fn push_left(text: &mut Vec<u8>, partitions: u64, left: Left) -> Result<(), AllocError>
    ensures { OnOk result (HasNote partitions text.old.items text.new.items) }
{
    let mut more = Vec::new(*text.allocator());
    push_numbers(&mut more, left)?;
    push(text, b"  x [label=\"left out\\npartitions: ")?;
    push_number(text, partitions)?;
    push(text, &more)
}

// Adds the numbers behind that of partitions, and what is missing.
fn push_numbers(text: &mut Vec<u8>, left: Left) -> Result<(), AllocError> {
    push(text, b"\\nvps: ")?;
    push_number(text, left.vps)?;
    push(text, b"\\nports: ")?;
    push_number(text, left.ports)?;
    push(text, b"\\nconnections: ")?;
    push_number(text, left.connections)?;
    push_missing(text, left.missing)?;
    push(text, b"\" shape=note];\n")
}

// Adds that there is no such partition or processor.
fn push_missing(text: &mut Vec<u8>, missing: Option<Only>) -> Result<(), AllocError> {
    let Some(Only { part, vp }) = missing else {
        return Ok(());
    };
    match vp {
        Some(vp) => {
            push(text, b"\\nno vp ")?;
            push_number(text, part)?;
            push(text, b".")?;
            push_number(text, u64::from(vp))
        }
        None => {
            push(text, b"\\nno partition ")?;
            push_number(text, part)
        }
    }
}
