// Ids of each kind, in each field of a block that has an id: 0, the caller's own, a child's, the id that
// stands for the caller, and the last id below that.

use crate::calls::{BY_0, Call, Told, answer};
use std::alloc::{AllocError, Global};
use std::process::Abort;
use std::test::Fail;

const IDS: [u64; 5] = [0, 1, 2, 0xFFFF_FFFF_FFFF_FFFF, 0xFFFF_FFFF_FFFF_FFFE];

// A call of the root, which has the child 2 in state Created: the block before an id and after it. Then, by
// the id, the number of the rule that refuses, or 0 if the call is served.
const CALLS: [(u64, &[u8], &[u8], [u8; 5]); 20] = [
    (0x41, &[], &[], [9, 10, 0, 10, 9]),
    (0x42, &[], &[], [9, 10, 0, 10, 9]),
    (0x43, &[], &[], [9, 10, 0, 10, 9]),
    // The privileges.
    (0x44, &[], &[0, 0, 1], [9, 0, 0, 0, 9]),
    (
        0x45,
        &[],
        &[0, 0, 1, 0, 0, 0, 0, 0, 0x44],
        [9, 10, 0, 10, 9],
    ),
    (0x47, &[], &[], [9, 0, 0, 0, 9]),
    // The previous child: 0 means none, and the id that stands for the caller is an id like any other.
    (0x47, &[1, 0, 0, 0, 0, 0, 0, 0], &[], [0, 15, 0, 15, 15]),
    // Page 12, and then a page of the partition itself, which the child lacks.
    (0x1_0000_0048, &[], &[12], [9, 0, 0, 0, 9]),
    (0x1_0000_0049, &[], &[], [9, 0, 24, 0, 9]),
    (0x4A, &[], &[], [9, 0, 0, 0, 9]),
    // Processor 1 is created, and processor 0 is deleted, read and written: RAX.
    (0x4E, &[], &[1], [9, 0, 12, 0, 9]),
    (0x4F, &[], &[], [9, 0, 12, 0, 9]),
    (
        0x1_0000_0050,
        &[],
        &[0, 0, 0, 0, 0, 0, 0, 0, 0, 0, 2],
        [9, 0, 12, 0, 9],
    ),
    (
        0x1_0000_0051,
        &[],
        &[0, 0, 0, 0, 0, 0, 0, 0, 0, 0, 2],
        [9, 0, 12, 0, 9],
    ),
    // Port 5 and connection 7 do not exist.
    (0x58, &[], &[5], [9, 17, 12, 17, 9]),
    (0x5B, &[], &[7], [9, 16, 12, 16, 9]),
    // A message port 5 at SINT 2 of processor 0, for the root.
    (
        0x95,
        &[],
        &[
            5, 0, 0, 0, 0, 0, 0, 0, 1, 0, 0, 0, 0, 0, 0, 0, 1, 0, 0, 0, 0, 0, 0, 0, 2,
        ],
        [9, 0, 12, 0, 9],
    ),
    // Such a port of the root, for each of the ids.
    (
        0x95,
        &[1, 0, 0, 0, 0, 0, 0, 0, 5, 0, 0, 0, 0, 0, 0, 0],
        &[1, 0, 0, 0, 0, 0, 0, 0, 2],
        [15, 0, 0, 0, 15],
    ),
    // Connection 7, to port 5 of the root.
    (
        0x96,
        &[],
        &[
            7, 0, 0, 0, 0, 0, 0, 0, 1, 0, 0, 0, 0, 0, 0, 0, 5, 0, 0, 0, 0, 0, 0, 0, 1,
        ],
        [9, 17, 12, 17, 9],
    ),
    // Connection 7 of the root, to port 5 of each of the ids.
    (
        0x96,
        &[1, 0, 0, 0, 0, 0, 0, 0, 7, 0, 0, 0, 0, 0, 0, 0],
        &[5, 0, 0, 0, 0, 0, 0, 0, 1],
        [15, 17, 17, 17, 15],
    ),
];

// The number of the rule that refuses, or 0 if the call is served. No call has a further element.
fn refused_by(told: Told) -> Option<u8> {
    match told {
        Told::Served => Some(0),
        Told::Denied(rule, _) => Some(rule.number()),
        Told::More(_) | Told::Fault => None,
    }
}

fn block_of(alloc: Global, before: &[u8], id: u64, behind: &[u8]) -> Result<Vec<u8>, AllocError> {
    let mut block = before.to_vec(alloc)?;
    block.extend_from_slice(&id.to_le_bytes())?;
    block.extend_from_slice(behind)?;
    Ok(block)
}

fn answer_of(
    rt: &impl Abort,
    alloc: Global,
    rcx: u64,
    before: &[u8],
    id: u64,
    behind: &[u8],
) -> Result<Told, Fail> {
    let block = block_of(alloc, before, id, behind)?;
    let input = block.as_slice();
    answer(rt, alloc, Call { rcx, input, ..BY_0 })
}

fn answer_each(
    rt: &impl Abort,
    alloc: Global,
    rcx: u64,
    before: &[u8],
    behind: &[u8],
    wanted: [u8; 5],
) -> Result<(), Fail> {
    for (id, number) in IDS.iter().zip(wanted.iter()) {
        let told = answer_of(rt, alloc, rcx, before, *id, behind)?;
        assert!(rt; refused_by(told) == Some(*number), "{rcx:#x} of {id:#x}");
    }
    Ok(())
}

#[test]
fn ids_are_told_apart(rt: HostRuntime) -> Result<(), Fail> {
    for (rcx, before, behind, wanted) in CALLS.iter() {
        answer_each(&rt, rt.alloc(), *rcx, before, behind, *wanted)?;
    }
    Ok(())
}
