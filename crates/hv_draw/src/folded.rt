// The processors and the ports of a partition as one node each, where a graph has too many of them.

use crate::inside::{VPS, push_gap, push_state};
use crate::made::MadePort;
use crate::text::{push, push_number};
use hv_partition::Partition;
use std::alloc::{AllocError, Global};

// The most processors of a partition that have a node each.
const MOST_VPS: u32 = 8;

// The most partitions of a graph whose ports have a node each.
const MOST_PARTITIONS: usize = 30;

/// Returns whether a graph of so many partitions has a crowd of them.
pub(crate) fn is_crowd(partitions: usize) -> bool {
    partitions > MOST_PARTITIONS
}

/// Returns whether the processors of a partition have one node, in a crowd or not.
pub(crate) fn are_folded(partition: &Partition<Global>, crowd: bool) -> bool {
    let most = if crowd { 1 } else { MOST_VPS };
    partition.vp_count() > most
}

/// Adds the node of all processors of a partition, and the line from the partition to it. Those that have
/// messages, flags or vectors follow with them.
pub(crate) fn push_folded_vps(
    text: &mut Vec<u8>,
    id: u64,
    partition: &Partition<Global>,
    made: &[MadePort],
) -> Result<(), AllocError> {
    push(text, b"    ")?;
    push_vps_name(text, id)?;
    push(text, b" [label=\"")?;
    push_number(text, u64::from(partition.vp_count()))?;
    push(text, b" vps:")?;
    push_ranges(text, indexes(*text.allocator(), partition)?.as_slice())?;
    push_states(text, id, partition, made)?;
    push(text, b"\"];\n    p")?;
    push_number(text, id)?;
    push(text, b" -> ")?;
    push_vps_name(text, id)?;
    push(text, b" [arrowhead=none];\n")
}

/// Adds the name of the node of all processors of a partition.
pub(crate) fn push_vps_name(text: &mut Vec<u8>, id: u64) -> Result<(), AllocError> {
    push(text, b"v")?;
    push_number(text, id)
}

// Adds what each processor has that has something.
fn push_states(
    text: &mut Vec<u8>,
    id: u64,
    partition: &Partition<Global>,
    made: &[MadePort],
) -> Result<(), AllocError> {
    for index in 0..VPS {
        if let Some(vp) = partition.vp(index) {
            let mut state = Vec::new(*text.allocator());
            push_state(&mut state, id, vp, made)?;
            if !state.is_empty() {
                push(text, b"\\nvp ")?;
                push_number(text, u64::from(index))?;
                push(text, b":")?;
                push(text, &state)?;
            }
        }
    }
    Ok(())
}

/// Adds the node of all ports of a partition, if it has any.
pub(crate) fn push_folded_ports(
    text: &mut Vec<u8>,
    id: u64,
    partition: &Partition<Global>,
) -> Result<(), AllocError> {
    let count = partition.port_count();
    if count == 0 {
        return Ok(());
    }
    push(text, b"    ")?;
    push_ports_name(text, id)?;
    push(text, b" [label=\"")?;
    push_number(text, u64::from(count))?;
    push(text, if count == 1 { b" port:" } else { b" ports:" })?;
    push_ranges(text, ports(*text.allocator(), partition)?.as_slice())?;
    push(text, b"\" style=rounded];\n")
}

/// Adds the name of the node of all ports of a partition.
pub(crate) fn push_ports_name(text: &mut Vec<u8>, id: u64) -> Result<(), AllocError> {
    push(text, b"o")?;
    push_number(text, id)
}

// Returns the indexes of a partition's processors.
fn indexes(alloc: Global, partition: &Partition<Global>) -> Result<Vec<u32>, AllocError> {
    let mut indexes = Vec::new(alloc);
    for index in 0..VPS {
        if partition.vp(index).is_some() {
            indexes.push(index)?;
        }
    }
    Ok(indexes)
}

// Returns the ids of a partition's ports.
fn ports(alloc: Global, partition: &Partition<Global>) -> Result<Vec<u32>, AllocError> {
    let mut ports = Vec::new(alloc);
    for place in 0..partition.port_count() {
        if let Some((number, _)) = partition.port_at(place) {
            ports.push(number)?;
        }
    }
    Ok(ports)
}

// Adds rising numbers, those in a row by the first and the last of them.
fn push_ranges(text: &mut Vec<u8>, numbers: &[u32]) -> Result<(), AllocError> {
    let mut told = 0usize;
    for at in 0..numbers.len() {
        let first = at == 0 || !is_next(numbers[at - 1], numbers[at]);
        let last = at + 1 == numbers.len() || !is_next(numbers[at], numbers[at + 1]);
        if first {
            push_gap(text, told)?;
            told = told.saturating_add(1);
            push_number(text, u64::from(numbers[at]))?;
        } else if last {
            push(text, b" to ")?;
            push_number(text, u64::from(numbers[at]))?;
        }
    }
    Ok(())
}

fn is_next(before: u32, number: u32) -> bool {
    before.saturating_add(1) == number
}
