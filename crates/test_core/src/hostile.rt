// Hostile frames: inputs cut short, and input values with a bit flipped. Each gets an answer, and a refusal
// names a rule that applies to the call.

use crate::calls::{BY_0, Call, Told, answer, frame};
use hv_abi::{ALL_CALLS, CallKind, Frame};
use hv_calls::{Malformed, decode};
use std::alloc::{AllocError, Global};
use std::process::Abort;
use std::test::Fail;

// Calls after the root has the child 2: the input value, RDX and the input. No call has the last one's code.
const CALLS: [(u64, u64, &[u8]); 22] = [
    (0x40, 0, &[0; 8]),
    (0x10041, 2, &[]),
    (0x10042, 2, &[]),
    (0x43, 0, &[2, 0, 0, 0, 0, 0, 0, 0]),
    (0x44, 0, &[2, 0, 0, 0, 0, 0, 0, 0, 3, 0, 2, 0, 0, 0, 0, 0]),
    (
        0x45,
        0,
        &[
            2, 0, 0, 0, 0, 0, 0, 0, 0, 0, 1, 0, 0, 0, 0, 0, 0x44, 0, 0, 0, 0x30, 0, 0, 0,
        ],
    ),
    (0x46, 0, &[]),
    (0x47, 0, &[1, 0, 0, 0, 0, 0, 0, 0, 0, 0, 0, 0, 0, 0, 0, 0]),
    (
        0x2_0000_0048,
        0,
        &[
            2, 0, 0, 0, 0, 0, 0, 0, 12, 0, 0, 0, 0, 0, 0, 0, 13, 0, 0, 0, 0, 0, 0, 0,
        ],
    ),
    (0x1_0000_0049, 0, &[1, 0, 0, 0, 0, 0, 0, 0]),
    (0x4a, 0, &[2, 0, 0, 0, 0, 0, 0, 0]),
    (0x4e, 0, &[1, 0, 0, 0, 0, 0, 0, 0, 1, 0, 0, 0, 0, 0, 0, 0]),
    (0x4f, 0, &[1, 0, 0, 0, 0, 0, 0, 0, 0, 0, 0, 0, 0, 0, 0, 0]),
    (
        0x2_0000_0050,
        0,
        &[
            1, 0, 0, 0, 0, 0, 0, 0, 0, 0, 0, 0, 0, 0, 0, 0, 0x10, 0, 0x0a, 0, 0, 0, 2, 0,
        ],
    ),
    (
        0x1_0000_0051,
        0,
        &[
            1, 0, 0, 0, 0, 0, 0, 0, 0, 0, 0, 0, 0, 0, 0, 0, 2, 0, 0x0a, 0, 0, 0, 0, 0, 0, 0, 0, 0,
            0, 0, 0, 0, 0x30, 0, 1, 0, 0, 0, 0, 0, 0, 0, 0, 0, 0, 0, 0, 0,
        ],
    ),
    (0x58, 0, &[1, 0, 0, 0, 0, 0, 0, 0, 5, 0, 0, 0, 0, 0, 0, 0]),
    (0x5b, 0, &[1, 0, 0, 0, 0, 0, 0, 0, 7, 0, 0, 0, 0, 0, 0, 0]),
    (
        0x95,
        0,
        &[
            1, 0, 0, 0, 0, 0, 0, 0, 5, 0, 0, 0, 0, 0, 0, 0, 2, 0, 0, 0, 0, 0, 0, 0, 2, 0, 0, 0, 0,
            0, 0, 0, 3, 0, 0, 0, 0, 0, 0, 0, 8, 0, 4, 0, 0, 0, 0, 0,
        ],
    ),
    (
        0x96,
        0,
        &[
            1, 0, 0, 0, 0, 0, 0, 0, 7, 0, 0, 0, 0, 0, 0, 0, 1, 0, 0, 0, 0, 0, 0, 0, 5, 0, 0, 0, 0,
            0, 0, 0, 2, 0, 0, 0, 0, 0, 0, 0, 0, 0, 0, 0, 0, 0, 0, 0,
        ],
    ),
    (
        0x5c,
        0,
        &[7, 0, 0, 0, 0, 0, 0, 0, 1, 0, 0, 0, 1, 0, 0, 0, 0xaa],
    ),
    (0x1005d, 0x0003_0000_0007, &[]),
    (0x7fff, 0, &[]),
];

// The numbers of the rules beyond P10 that apply to each call, by its code. P4 refuses every other code.
const FURTHER: [(u64, &[u8]); 21] = [
    (0x40, &[14, 24]),
    (0x41, &[12]),
    (0x42, &[12, 13]),
    (0x43, &[12]),
    (0x44, &[11]),
    (0x45, &[11, 12, 18, 20]),
    (0x46, &[]),
    (0x47, &[15]),
    (0x48, &[12, 21]),
    (0x49, &[24]),
    (0x4a, &[]),
    (0x4e, &[12, 19, 24]),
    (0x4f, &[12, 19]),
    (0x50, &[12, 18, 19, 21]),
    (0x51, &[12, 18, 19, 21]),
    (0x58, &[12, 17]),
    (0x5b, &[12, 16]),
    (0x5c, &[16, 17, 19, 21, 22, 23]),
    (0x5d, &[16, 17, 19, 21, 22]),
    (0x95, &[12, 15, 17, 19, 24]),
    (0x96, &[12, 15, 16, 17, 18, 21, 24]),
];

// Whether the rule of this number applies to a call with this input value.
fn is_asked(rcx: u64, number: u8) -> bool {
    for (code, further) in FURTHER.iter() {
        if rcx & 0xffff == *code {
            return number <= 10 || further.contains(&number);
        }
    }
    number <= 4
}

// Whether a call with this input value is served, or refused by a rule that applies to it.
fn is_answer(rcx: u64, told: Told) -> bool {
    match told {
        Told::Served | Told::More(_) => true,
        Told::Denied(rule, _) => is_asked(rcx, rule.number()),
        Told::Fault => false,
    }
}

fn assert_answer(rt: &impl Abort, alloc: Global, call: Call<'_>) -> Result<(), Fail> {
    let told = answer(rt, alloc, call)?;
    assert!(rt; is_answer(call.rcx, told), "{:#x}", call.rcx);
    Ok(())
}

// Makes the call with its input cut after each byte, and with each bit of its input value flipped.
fn assert_each(rt: &impl Abort, alloc: Global, call: Call<'_>) -> Result<(), Fail> {
    for end in 0..call.input.len() + 1 {
        let input = &call.input[..end];
        assert_answer(rt, alloc, Call { input, ..call })?;
    }
    for bit in 0..64_u32 {
        let rcx = call.rcx ^ 1 << bit;
        assert_answer(rt, alloc, Call { rcx, ..call })?;
    }
    Ok(())
}

// Whether both tables have a row of this call.
fn has_rows(kind: CallKind) -> bool {
    let code = u64::from(kind.code());
    let mut framed = false;
    for (rcx, _, _) in CALLS.iter() {
        framed = framed || rcx & 0xffff == code;
    }
    let mut ruled = false;
    for (ruled_code, _) in FURTHER.iter() {
        ruled = ruled || *ruled_code == code;
    }
    framed && ruled
}

#[test]
fn hostile_frames_are_answered(rt: HostRuntime) -> Result<(), Fail> {
    for kind in ALL_CALLS.iter() {
        assert!(rt; has_rows(*kind), "{:#x}", kind.code());
    }
    for (rcx, rdx, input) in CALLS.iter() {
        let call = Call {
            rcx: *rcx,
            rdx: *rdx,
            input,
            ..BY_0
        };
        assert_each(&rt, rt.alloc(), call)?;
    }
    Ok(())
}

// A well-formed input value of a call: a rep call has 2 reps and starts at the second.
fn input_value(kind: CallKind) -> u64 {
    let reps = if kind.is_rep() {
        0x0001_0002_0000_0000
    } else {
        0
    };
    reps + u64::from(kind.code())
}

// A block that each call accepts, with a byte that is not zero in most of its fields.
const ANY_BLOCK: [u8; 80] = [
    0x07, 0, 0, 0, 0x08, 0, 0, 0, 0x06, 0, 0, 0, 0x05, 0, 0, 0, 0x08, 0x07, 0x06, 0x05, 0x04, 0x03,
    0x02, 0x01, 0x02, 0, 0, 0, 0, 0, 0, 0, 0x01, 0, 0, 0, 0x03, 0, 0, 0, 0x04, 0, 0x05, 0, 0, 0, 0,
    0, 0x0b, 0, 0, 0, 0, 0, 0, 0, 0x0c, 0, 0, 0, 0, 0, 0, 0, 0x0d, 0, 0, 0, 0, 0, 0, 0, 0, 0, 0, 0,
    0, 0, 0, 0,
];

// Whether a block of this call that is cut to this many bytes may be malformed: in some parameters, zeros
// are.
fn may_be_malformed(kind: CallKind, len: usize) -> bool {
    len < 43
        && matches!(
            kind,
            CallKind::PostMessage | CallKind::CreatePort | CallKind::ConnectPort
        )
}

// Whether the frame decodes to a call of this kind, or may be malformed.
fn is_decoded(frame: &Frame<Global>, kind: CallKind, len: usize) -> bool {
    let Ok(shape) = frame.check() else {
        return false;
    };
    match decode(frame, &shape) {
        Ok(call) => call.kind() == kind,
        Err(Malformed) => may_be_malformed(kind, len),
    }
}

// Whatever bytes are missing, a block decodes to a call of its frame's kind, or is malformed as zeros in a
// parameter can be.
fn assert_decoded(
    rt: &impl Abort,
    alloc: Global,
    rcx: u64,
    kind: CallKind,
) -> Result<(), AllocError> {
    for len in 0..ANY_BLOCK.len() + 1 {
        let input = &ANY_BLOCK[..len];
        let is_decoded = is_decoded(&frame(alloc, Call { rcx, input, ..BY_0 })?, kind, len);
        assert!(rt; is_decoded, "{rcx:#x} cut to {len}");
    }
    Ok(())
}

#[test]
fn cut_blocks_are_decoded(rt: HostRuntime) -> Result<(), Fail> {
    for kind in ALL_CALLS.iter() {
        assert_decoded(&rt, rt.alloc(), input_value(*kind), *kind)?;
    }
    Ok(())
}
