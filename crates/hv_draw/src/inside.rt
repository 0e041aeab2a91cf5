// The contents of a partition's cluster after the partition's node: its virtual processors and its ports.
// `crate::folded` has those of which a graph shows too many, and `crate::shown` those of a choice.
ghost use Rattle.std.specs.Prelude.{◌<◌};
ghost use Rattle.hv_draw.specs.declared.inside.TheConstants.{SINTS};

use crate::choice::Only;
use crate::folded::{are_folded, push_folded_ports, push_folded_vps, push_vps_name};
use crate::made::MadePort;
use crate::shown::push_shown;
use crate::text::{push, push_number};
use hv_admit::Partitions;
use hv_defs::{Aim, PortKind};
use hv_partition::Partition;
use hv_policy::Caller;
use hv_ports::Port;
use hv_vp::Vp;
use std::alloc::{AllocError, Global};

/// The most processors of a partition.
pub(crate) const VPS: u32 = 64;

// The number of SINTs of a processor.
pub const SINTS: u8 = 16;

// The most numbers in a line of a label.
const IN_LINE: usize = 16;

/// Which processors and ports a graph has.
#[derive(Clone, Copy)]
pub(crate) enum View {
    /// All of them.
    Whole,
    /// All of them, with few nodes, since the graph has many partitions.
    Crowd,
    /// Those of a choice.
    Only(Only),
}

/// Adds the nodes of the processors and the ports of the partition with this id, if it exists.
pub(crate) fn push_inside(
    text: &mut Vec<u8>,
    tree: &Partitions<Global>,
    id: u64,
    made: &[MadePort],
    view: View,
) -> Result<(), AllocError> {
    let Some(partition) = tree.get(id) else {
        return Ok(());
    };
    match view {
        View::Whole => {
            push_vps(text, id, partition, made, false)?;
            push_ports(text, id, partition)
        }
        View::Crowd => {
            push_vps(text, id, partition, made, true)?;
            push_folded_ports(text, id, partition)
        }
        View::Only(only) => push_shown(text, tree, id, partition, made, only),
    }
}

/// Adds the nodes of a partition's processors, in a crowd of partitions or not.
pub(crate) fn push_vps(
    text: &mut Vec<u8>,
    id: u64,
    partition: &Partition<Global>,
    made: &[MadePort],
    crowd: bool,
) -> Result<(), AllocError> {
    if are_folded(partition, crowd) {
        push_folded_vps(text, id, partition, made)
    } else {
        push_each_vp(text, id, partition, made)
    }
}

// Adds a node for each of a partition's processors.
fn push_each_vp(
    text: &mut Vec<u8>,
    id: u64,
    partition: &Partition<Global>,
    made: &[MadePort],
) -> Result<(), AllocError> {
    for index in 0..VPS {
        if let Some(vp) = partition.vp(index) {
            let by = Caller {
                part: id,
                vp: index,
            };
            push_vp(text, by, vp, made)?;
        }
    }
    Ok(())
}

/// Adds the node of a processor, and the line from its partition to it.
pub(crate) fn push_vp(
    text: &mut Vec<u8>,
    by: Caller,
    vp: &Vp<Global>,
    made: &[MadePort],
) -> Result<(), AllocError> {
    push(text, b"    ")?;
    push_vp_name(text, by)?;
    push(text, b" [label=\"vp ")?;
    push_number(text, u64::from(by.vp))?;
    push_state(text, by.part, vp, made)?;
    push(text, b"\"];\n    p")?;
    push_number(text, by.part)?;
    push(text, b" -> ")?;
    push_vp_name(text, by)?;
    push(text, b" [arrowhead=none];\n")
}

/// Adds a row for each SINT of a processor that keeps messages or has set flags, and for its pending vectors.
pub(crate) fn push_state(
    text: &mut Vec<u8>,
    part: u64,
    vp: &Vp<Global>,
    made: &[MadePort],
) -> Result<(), AllocError> {
    for sint in 0..SINTS {
        push_messages(text, sint, vp, kept_at(part, sint, vp, made))?;
        push_flags(text, sint, &vp.flags(sint))?;
    }
    push_vectors(text, vp.pending())
}

fn push_vp_name(text: &mut Vec<u8>, by: Caller) -> Result<(), AllocError> {
    push(text, b"v")?;
    push_number(text, by.part)?;
    push(text, b"_")?;
    push_number(text, u64::from(by.vp))
}

// Returns the number of messages that a processor of this partition keeps at a SINT, counted by the ports
// that were created.
fn kept_at(part: u64, sint: u8, vp: &Vp<Global>, made: &[MadePort]) -> usize {
    let mut kept = 0usize;
    for one in made {
        if one.part == part && one.sint == u32::from(sint) {
            kept = kept.saturating_add(vp.of_port(one.port, one.born));
        }
    }
    kept
}

// Adds a row for the messages of a SINT, if it keeps any.
fn push_messages(
    text: &mut Vec<u8>,
    sint: u8,
    vp: &Vp<Global>,
    kept: usize,
) -> Result<(), AllocError>
    requires { sint < SINTS }
{
    if kept == 0 {
        return Ok(());
    }
    push(text, b"\\nSINT ")?;
    push_number(text, u64::from(sint))?;
    let slot = vp.slot(sint);
    let waiting = if is_shown(&slot) {
        push(text, b" shows a message of port ")?;
        push_number(text, u64::from(port_in(&slot)))?;
        push(text, b", ")?;
        kept.saturating_sub(1)
    } else {
        push(text, b" shows no message, ")?;
        kept
    };
    push_number(text, waiting as u64)?;
    push(text, b" waiting")
}

// Returns whether a slot shows a message, whose type isn't zero.
fn is_shown(slot: &[u8; 256]) -> bool {
    slot[0] != 0 || slot[1] != 0 || slot[2] != 0 || slot[3] != 0
}

// Returns the port of the message in a slot.
fn port_in(slot: &[u8; 256]) -> u32 {
    u32::from_le_bytes([slot[8], slot[9], slot[10], slot[11]])
}

// Adds a row for the event flags of a SINT, if any is set.
fn push_flags(text: &mut Vec<u8>, sint: u8, flags: &[u8; 256]) -> Result<(), AllocError> {
    if !flags.iter().any(|byte| *byte != 0) {
        return Ok(());
    }
    push(text, b"\\nSINT ")?;
    push_number(text, u64::from(sint))?;
    push(text, b" flags")?;
    push_set(text, flags, 0, 2048)
}

// Adds the numbers of the set flags in a range, given by its first flag and its length, or that none is set.
fn push_set(
    text: &mut Vec<u8>,
    flags: &[u8; 256],
    first: u16,
    count: u16,
) -> Result<(), AllocError> {
    let mut told = 0usize;
    for flag in 0..2048u16 {
        let within = first <= flag && flag - first < count;
        if within && is_set(flags, flag) {
            push_gap(text, told)?;
            push_number(text, u64::from(flag))?;
            told = told.saturating_add(1);
        }
    }
    if told == 0 {
        push(text, b" none")
    } else {
        Ok(())
    }
}

/// Adds what separates a number from those before it, of which there are so many.
pub(crate) fn push_gap(text: &mut Vec<u8>, told: usize) -> Result<(), AllocError> {
    if told == 0 {
        return push(text, b" ");
    }
    if told % IN_LINE == 0 {
        return push(text, b",\\n");
    }
    push(text, b", ")
}

/// Returns whether a flag below 2,048 is set.
pub(crate) fn is_set(flags: &[u8], flag: u16) -> bool {
    match flags.get(usize::from(flag / 8)) {
        Some(byte) => *byte >> (flag % 8) & 1 == 1,
        None => false,
    }
}

// Adds a row for the pending vectors, the highest first, if there are any.
fn push_vectors(text: &mut Vec<u8>, pending: [u64; 4]) -> Result<(), AllocError> {
    let mut told = 0usize;
    for below in 0..256usize {
        let vector = 255 - below;
        if pending[vector / 64] >> (vector % 64) & 1 == 1 {
            if told == 0 {
                push(text, b"\\npending")?;
            }
            push_gap(text, told)?;
            push_number(text, vector as u64)?;
            told = told.saturating_add(1);
        }
    }
    Ok(())
}

// Adds the nodes of a partition's ports.
fn push_ports(
    text: &mut Vec<u8>,
    id: u64,
    partition: &Partition<Global>,
) -> Result<(), AllocError> {
    let folded = are_folded(partition, false);
    for place in 0..partition.port_count() {
        if let Some((number, port)) = partition.port_at(place) {
            push_port(text, id, number, partition, &port, folded)?;
        }
    }
    Ok(())
}

/// Adds the node of a port, and the edge to the processor at which it aims. All processors have one node, or
/// each its own.
pub(crate) fn push_port(
    text: &mut Vec<u8>,
    id: u64,
    number: u32,
    partition: &Partition<Global>,
    port: &Port,
    folded: bool,
) -> Result<(), AllocError> {
    push_port_node(text, id, number, partition, port)?;
    match port.vp {
        Aim::One(vp) if partition.vp(vp).is_some() => {
            let at = Caller { part: id, vp };
            push_aim(text, at, number, folded)
        }
        Aim::One(_) | Aim::Any => Ok(()),
    }
}

/// Adds the node of a port.
pub(crate) fn push_port_node(
    text: &mut Vec<u8>,
    id: u64,
    number: u32,
    partition: &Partition<Global>,
    port: &Port,
) -> Result<(), AllocError> {
    push(text, b"    ")?;
    push_port_name(text, id, number)?;
    push(text, b" [label=\"port ")?;
    push_number(text, u64::from(number))?;
    push(text, b" for partition ")?;
    push_number(text, port.peer)?;
    match port.kind {
        PortKind::Message => push_message_port(text, number, partition, port)?,
        PortKind::Event => push_event_port(text, partition, port)?,
    }
    push(text, b"\" style=rounded];\n")
}

/// Adds the name of a port's node.
pub(crate) fn push_port_name(text: &mut Vec<u8>, id: u64, number: u32) -> Result<(), AllocError> {
    push(text, b"o")?;
    push_number(text, id)?;
    push(text, b"_")?;
    push_number(text, u64::from(number))
}

// Adds the edge from a port to a processor, or to the node for all of them.
fn push_aim(text: &mut Vec<u8>, at: Caller, number: u32, folded: bool) -> Result<(), AllocError> {
    push(text, b"    ")?;
    push_port_name(text, at.part, number)?;
    push(text, b" -> ")?;
    if folded {
        push_vps_name(text, at.part)?;
    } else {
        push_vp_name(text, at)?;
    }
    push(text, b" [style=dotted];\n")
}

// Adds the aim of a port.
fn push_target(text: &mut Vec<u8>, port: &Port) -> Result<(), AllocError> {
    push(text, b"SINT ")?;
    push_number(text, u64::from(port.sint))?;
    match port.vp {
        Aim::One(vp) => {
            push(text, b" of vp ")?;
            push_number(text, u64::from(vp))
        }
        Aim::Any => push(text, b" of any vp"),
    }
}

// Adds that a port takes messages, and the number of its messages that its partition keeps.
fn push_message_port(
    text: &mut Vec<u8>,
    number: u32,
    partition: &Partition<Global>,
    port: &Port,
) -> Result<(), AllocError> {
    push(text, b"\\nmessages to ")?;
    push_target(text, port)?;
    let mut kept = 0usize;
    for index in 0..VPS {
        if let Some(vp) = partition.vp(index) {
            kept = kept.saturating_add(vp.of_port(number, port.born));
        }
    }
    push(text, b"\\nkept: ")?;
    push_number(text, kept as u64)
}

// Adds the flags of a port, and which of them are set where it aims.
fn push_event_port(
    text: &mut Vec<u8>,
    partition: &Partition<Global>,
    port: &Port,
) -> Result<(), AllocError> {
    push(text, b"\\nevent flags ")?;
    push_number(text, u64::from(port.base))?;
    push(text, b" to ")?;
    push_number(
        text,
        (u64::from(port.base) + u64::from(port.count)).saturating_sub(1),
    )?;
    push(text, b" of ")?;
    push_target(text, port)?;
    push(text, b"\\nset:")?;
    push_set(text, &flags_of(partition, port), port.base, port.count)
}

// Returns the flags that are set at a port's SINT, at the processor at which it aims, or at any processor.
fn flags_of(partition: &Partition<Global>, port: &Port) -> [u8; 256] {
    let mut flags = [0; 256];
    for index in 0..VPS {
        let aims = match port.vp {
            Aim::One(vp) => vp == index,
            Aim::Any => true,
        };
        if let Some(vp) = partition.vp(index) {
            if aims && port.sint < u32::from(SINTS) {
                join(&mut flags, &vp.flags(port.sint as u8));
            }
        }
    }
    flags
}

// Adds the bits of `more` to `flags`.
fn join(flags: &mut [u8; 256], more: &[u8; 256]) {
    for at in 0..256 {
        flags[at] |= more[at];
    }
}
