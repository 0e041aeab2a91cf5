// The bytes of a frame's input: those of two registers for a fast call, else those of the list.

use hv_abi::{Bytes, Frame};
use std::alloc::{AllocError, Global};
use std::test::Fail;

// HvDeletePort, with a list and as a fast call.
const LISTED: u64 = 0x58;

const FAST: u64 = 0x1_0058;

const LIST: [u8; 18] = [
    0x10, 0x21, 0x32, 0x43, 0x54, 0x65, 0x76, 0x87, 0x98, 0xA9, 0xBA, 0xCB, 0xDC, 0xED, 0xFE, 0x1F,
    0xFF, 0x80,
];

// The bytes of RDX and of R8, lowest first.
const REGISTERS: [u8; 16] = [
    0x08, 0x34, 0x56, 0x78, 0x9A, 0xBC, 0xDE, 0xF0, 0xEF, 0xCD, 0xAB, 0x89, 0x67, 0x45, 0x23, 0x01,
];

fn frame(alloc: Global, rcx: u64) -> Result<Frame<Global>, AllocError> {
    let input = Bytes::from_vec(LIST.to_vec(alloc)?);
    Ok(Frame {
        rcx,
        rdx: 0xF0DE_BC9A_7856_3408,
        r8: 0x0123_4567_89AB_CDEF,
        input,
    })
}

// Whether the input has these bytes, followed by zeros.
fn has_bytes(frame: &Frame<Global>, bytes: &[u8]) -> bool {
    let Ok(shape) = frame.check() else {
        return false;
    };
    for at in 0..24usize {
        let wanted = bytes.get(at).copied().unwrap_or(0);
        if frame.byte(&shape, at) != wanted {
            return false;
        }
    }
    true
}

#[test]
fn bytes_are_those_of_the_input(rt: HostRuntime) -> Result<(), Fail> {
    let listed = frame(rt.alloc(), LISTED)?;
    let fast = frame(rt.alloc(), FAST)?;
    let are_told = has_bytes(&listed, &LIST) && has_bytes(&fast, &REGISTERS);
    assert!(rt; are_told);
    Ok(())
}
