// A copy of an event has its action, its frame and its input list. An input list becomes a vector again.

use hv_abi::{Bytes, Frame};
use hv_policy::{Action, Caller, Event};
use std::alloc::{AllocError, Global};
use std::test::Fail;

// Each bit is set in exactly one of the first two registers. The third register has all bits set.
const RCX: u64 = 0xFEDC_BA98_7654_3210;

const RDX: u64 = 0x0123_4567_89AB_CDEF;

const R8: u64 = 0xFFFF_FFFF_FFFF_FFFF;

// Every byte is over 0x0F.
const INPUT: [u8; 18] = [
    0x10, 0x21, 0x32, 0x43, 0x54, 0x65, 0x76, 0x87, 0x98, 0xA9, 0xBA, 0xCB, 0xDC, 0xED, 0xFE, 0x1F,
    0xFF, 0x80,
];

const BY: Caller = Caller {
    part: 0x8877_6655_4433_2211,
    vp: 0xFEDC_BA98,
};

fn event(alloc: Global) -> Result<Event<Global>, AllocError> {
    let input = Bytes::from_vec(INPUT.to_vec(alloc)?);
    let frame = Frame {
        rcx: RCX,
        rdx: RDX,
        r8: R8,
        input,
    };
    Ok(Event {
        by: BY,
        what: Action::Hypercall(frame),
    })
}

fn is_whole(event: &Event<Global>) -> bool {
    let Action::Hypercall(frame) = &event.what else {
        return false;
    };
    event.by == BY
        && frame.rcx == RCX
        && frame.rdx == RDX
        && frame.r8 == R8
        && frame.input.as_slice() == INPUT.as_slice()
}

// The copy is complete, and the original is unchanged.
#[test]
fn an_event_is_copied(rt: HostRuntime) -> Result<(), Fail> {
    let event = event(rt.alloc())?;
    let copied = event.copy()?;
    let are_whole = is_whole(&copied) && is_whole(&event);
    assert!(rt; are_whole);
    Ok(())
}

#[test]
fn an_input_list_is_a_vector_again(rt: HostRuntime) -> Result<(), Fail> {
    let vector = Bytes::from_vec(INPUT.to_vec(rt.alloc())?).into_vec();
    let is_again = vector.as_slice() == INPUT.as_slice();
    assert!(rt; is_again);
    Ok(())
}
