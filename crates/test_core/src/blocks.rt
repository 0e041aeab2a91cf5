// Blocks at the edge of well-formedness, and an element within its list.

use crate::calls::{BY_0, Call, frame};
use hv_abi::Frame;
use hv_calls::{Call as Decoded, decode};
use std::alloc::Global;
use std::test::Fail;

// A call, its block, and whether its parameters are well formed.
const BLOCKS: [(u64, &[u8], bool); 8] = [
    // A message by connection 7, and by one with a bit above those of an id.
    (
        0x5c,
        &[7, 0, 0, 0, 0, 0, 0, 0, 1, 0, 0, 0, 0, 0, 0, 0],
        true,
    ),
    (
        0x5c,
        &[7, 0, 0, 1, 0, 0, 0, 0, 1, 0, 0, 0, 0, 0, 0, 0],
        false,
    ),
    // Of type 0, and of a type with bit 31.
    (
        0x5c,
        &[7, 0, 0, 0, 0, 0, 0, 0, 0, 0, 0, 0, 0, 0, 0, 0],
        false,
    ),
    (
        0x5c,
        &[7, 0, 0, 0, 0, 0, 0, 0, 1, 0, 0, 0x80, 0, 0, 0, 0],
        false,
    ),
    // A message port at SINT 2, and at SINT 16.
    (
        0x95,
        &[
            2, 0, 0, 0, 0, 0, 0, 0, 5, 0, 0, 0, 0, 0, 0, 0, 1, 0, 0, 0, 0, 0, 0, 0, 1, 0, 0, 0, 0,
            0, 0, 0, 2, 0, 0, 0, 0, 0, 0, 0, 0, 0, 0, 0, 0, 0, 0, 0,
        ],
        true,
    ),
    (
        0x95,
        &[
            2, 0, 0, 0, 0, 0, 0, 0, 5, 0, 0, 0, 0, 0, 0, 0, 1, 0, 0, 0, 0, 0, 0, 0, 1, 0, 0, 0, 0,
            0, 0, 0, 16, 0, 0, 0, 0, 0, 0, 0, 0, 0, 0, 0, 0, 0, 0, 0,
        ],
        false,
    ),
    // An event port of the flags 2,040 to 2,047, and of the flags from 2,041 on.
    (
        0x95,
        &[
            2, 0, 0, 0, 0, 0, 0, 0, 6, 0, 0, 0, 0, 0, 0, 0, 1, 0, 0, 0, 0, 0, 0, 0, 2, 0, 0, 0, 0,
            0, 0, 0, 3, 0, 0, 0, 0, 0, 0, 0, 0xf8, 0x07, 8, 0, 0, 0, 0, 0,
        ],
        true,
    ),
    (
        0x95,
        &[
            2, 0, 0, 0, 0, 0, 0, 0, 6, 0, 0, 0, 0, 0, 0, 0, 1, 0, 0, 0, 0, 0, 0, 0, 2, 0, 0, 0, 0,
            0, 0, 0, 3, 0, 0, 0, 0, 0, 0, 0, 0xf9, 0x07, 8, 0, 0, 0, 0, 0,
        ],
        false,
    ),
];

fn is_well_formed(frame: &Frame<Global>) -> Option<bool> {
    match frame.check() {
        Ok(shape) => Some(decode(frame, &shape).is_ok()),
        Err(_) => None,
    }
}

#[test]
fn parameters_are_refused_by_themselves(rt: HostRuntime) -> Result<(), Fail> {
    for (rcx, input, wanted) in BLOCKS.iter() {
        let rcx = *rcx;
        let told = is_well_formed(&frame(rt.alloc(), Call { rcx, input, ..BY_0 })?);
        assert!(rt; told == Some(*wanted), "{rcx:#x} of {input:?}");
    }
    Ok(())
}

// Pages 12, 13 and 14 for partition 2, starting at the second one.
const DEPOSIT: Call<'static> = Call {
    rcx: 0x1_0003_0000_0048,
    input: &[
        2, 0, 0, 0, 0, 0, 0, 0, 12, 0, 0, 0, 0, 0, 0, 0, 13, 0, 0, 0, 0, 0, 0, 0, 14, 0, 0, 0, 0,
        0, 0, 0,
    ],
    ..BY_0
};

// The partition and the page of a deposit.
fn deposited(frame: &Frame<Global>) -> Option<(u64, u64)> {
    let Ok(shape) = frame.check() else {
        return None;
    };
    match decode(frame, &shape) {
        Ok(Decoded::DepositMemory { partition, page }) => Some((partition, page)),
        _ => None,
    }
}

#[test]
fn an_element_is_read_at_its_index(rt: HostRuntime) -> Result<(), Fail> {
    let told = deposited(&frame(rt.alloc(), DEPOSIT)?);
    assert!(rt; told == Some((2, 13)));
    Ok(())
}
