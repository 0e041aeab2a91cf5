// Input values with each of their bits changed, and the answers of `check`, `decode` and `step`.

use crate::calls::{
    BY_0, CONNECTION, CREATE, CREATE_VP, Call, DELETE_PORT, DEPOSIT, INITIALIZE, PORT, Told, boot,
    drive, frame, make_ready, step,
};
use hv_abi::{AbiFault, Frame};
use hv_calls::decode;
use hv_machine::{Machine, Rule};
use std::alloc::{AllocError, Global};
use std::process::Abort;
use std::test::Fail;

// A call that is driven to its end, its last answer, and a letter for each bit of its input value, lowest
// first: the answer to the call with that bit changed.
type Turn = (Call<'static>, Told, &'static str);

// The answer that a letter stands for. A denial counts the elements before the start index, but not if the
// input value itself is refused.
fn told_by(letter: u8, rcx: u64) -> Told {
    let start = ((rcx >> 48) % 4096) as u16;
    match letter {
        b's' => Told::Served,
        b'm' => Told::More(start + 1),
        b'u' => Told::Denied(Rule::CallCode, 0),
        b'i' => Told::Denied(Rule::InputValue, 0),
        b'a' => Told::Denied(Rule::Alignment, start),
        b'p' => Told::Denied(Rule::Privilege, start),
        b't' => Told::Denied(Rule::TargetExists, start),
        b'l' => Told::Denied(Rule::TargetState, start),
        b'o' => Told::Denied(Rule::Port, start),
        b'v' => Told::Denied(Rule::VpExists, start),
        b'y' => Told::Denied(Rule::Operand, start),
        b'g' => Told::Denied(Rule::Pages, start),
        _ => Told::Fault,
    }
}

// With a bit changed, 0x46 and 0x40 ask for partition 0, or for a list of no elements.
const FIRST: &[Turn] = &[
    // An unknown code takes precedence over every other fault.
    (
        Call {
            rcx: 0x1_0000_7fff,
            ..BY_0
        },
        Told::Denied(Rule::CallCode, 0),
        "uuuuuuuuuuuuuuuuuuuuuuuuuuuuuuuuuuuuuuuuuuuuuuuuuuuuuuuuuuuuuuuu",
    ),
    (
        Call { rcx: 0x46, ..BY_0 },
        Told::Served,
        "ttttuuuuuuuuuuuuiiiiiiiiiiiiiiiiiiiiiiiiiiiiiiiiiiiiiiiiiiiiiiii",
    ),
    // A deposit that starts after its three elements. With more elements, or an earlier start, it is for
    // partition 0.
    (
        Call {
            rcx: 0x3_0003_0000_0048,
            ..BY_0
        },
        Told::Denied(Rule::InputValue, 0),
        "iiuiiuuuuuuuuuuuiiiiiiiiiiiiiiiiiitttttttaaaiiiittiiiiiiiiiiiiii",
    ),
    (
        CREATE,
        Told::Served,
        "tttiiuuuuuuuuuuuiiiiiiiiiiiiiiiiiiiiiiiiiiiiiiiiiiiiiiiiiiiiiiii",
    ),
    // Page 12 twice. A list of 259 pages fits in a page, and one of 515 does not. If there is one page, the
    // first is the last. Partition 2 has no page to return.
    (
        Call {
            rcx: 0x3_0000_0048,
            input: &[
                2, 0, 0, 0, 0, 0, 0, 0, 12, 0, 0, 0, 0, 0, 0, 0, 13, 0, 0, 0, 0, 0, 0, 0, 12, 0, 0,
                0, 0, 0, 0, 0,
            ],
            ..BY_0
        },
        Told::Denied(Rule::Operand, 2),
        "giuiiuuuuuuuuuuuiiiiiiiiiiiiiiiimsmmmmmmmaaaiiiimsiiiiiiiiiiiiii",
    ),
    // Partition 2 is Created: it can be finalized, and gets no processor.
    (
        Call {
            rcx: 0x4a,
            input: &[2, 0, 0, 0, 0, 0, 0, 0],
            ..BY_0
        },
        Told::Served,
        "uilsuuuuuuuuuuuuiiiiiiiiiiiiiiiiiiiiiiiiiiiiiiiiiiiiiiiiiiiiiiii",
    ),
];

// A message port and a connection to it. If a fast call is not fast, its RDX is no address of a list.
const SETUP: &[Turn] = &[
    (
        CREATE,
        Told::Served,
        "tttiiuuuuuuuuuuuiiiiiiiiiiiiiiiiiiiiiiiiiiiiiiiiiiiiiiiiiiiiiiii",
    ),
    // Partition 2 is Created, and can be deleted.
    (
        INITIALIZE,
        Told::Served,
        "isiiiuuuuuuuuuuuaiiiiiiiiiiiiiiiiiiiiiiiiiiiiiiiiiiiiiiiiiiiiiii",
    ),
    (
        DEPOSIT,
        Told::Served,
        "giuiiuuuuuuuuuuuiiiiiiiiiiiiiiiimmmmmmmmmaaaiiiimmmiiiiiiiiiiiii",
    ),
    (
        CREATE_VP,
        Told::Served,
        "vuiiuuuuuuuuuuuuaiiiiiiiiiiiiiiiiiiiiiiiiiiiiiiiiiiiiiiiiiiiiiii",
    ),
    (
        PORT,
        Told::Served,
        "uuuuuuuuuuuuuuuuiiiiiiiiiiiiiiiiiiiiiiiiiiiiiiiiiiiiiiiiiiiiiiii",
    ),
    (
        CONNECTION,
        Told::Served,
        "uuuuuuuuuuuuuuuuiiiiiiiiiiiiiiiiiiiiiiiiiiiiiiiiiiiiiiiiiiiiiiii",
    ),
];

// The port is created again. The connection does not lead to the new one, neither for a message nor for a
// flag.
const MADE_AGAIN: &[Turn] = &[
    (
        DELETE_PORT,
        Told::Served,
        "uuiiiuuuuuuuuuuuaiiiiiiiiiiiiiiiiiiiiiiiiiiiiiiiiiiiiiiiiiiiiiii",
    ),
    (
        PORT,
        Told::Served,
        "uuuuuuuuuuuuuuuuiiiiiiiiiiiiiiiiiiiiiiiiiiiiiiiiiiiiiiiiiiiiiiii",
    ),
    (
        Call {
            rcx: 0x5c,
            input: &[7, 0, 0, 0, 0, 0, 0, 0, 1, 0, 0, 0, 0, 0, 0, 0],
            ..BY_0
        },
        Told::Denied(Rule::Port, 0),
        "outuuuuuuuuuuuuuiiiiiiiiiiiiiiiiiiiiiiiiiiiiiiiiiiiiiiiiiiiiiiii",
    ),
    // Partition 2 may neither ask for its id nor make partitions, nor reach pages.
    (
        Call {
            part: 2,
            rcx: 0x46,
            ..BY_0
        },
        Told::Denied(Rule::Privilege, 0),
        "ppppuuuuuuuuuuuuiiiiiiiiiiiiiiiiiiiiiiiiiiiiiiiiiiiiiiiiiiiiiiii",
    ),
    (
        Call {
            part: 2,
            rcx: 0x4a,
            input: &[99, 0, 0, 0, 0, 0, 0, 0],
            ..BY_0
        },
        Told::Denied(Rule::Privilege, 0),
        "uippuuuuuuuuuuuuiiiiiiiiiiiiiiiiiiiiiiiiiiiiiiiiiiiiiiiiiiiiiiii",
    ),
];

// A message with one byte too many, and one with the most bytes. The port takes no flags.
const POSTS: &[Turn] = &[
    (
        Call {
            rcx: 0x5c,
            input: &[7, 0, 0, 0, 0, 0, 0, 0, 1, 0, 0, 0, 241, 0, 0, 0],
            ..BY_0
        },
        Told::Denied(Rule::Parameters, 0),
        "yutuuuuuuuuuuuuuiiiiiiiiiiiiiiiiiiiiiiiiiiiiiiiiiiiiiiiiiiiiiiii",
    ),
    (
        Call {
            rcx: 0x5c,
            input: &[7, 0, 0, 0, 0, 0, 0, 0, 1, 0, 0, 0, 240, 0, 0, 0],
            ..BY_0
        },
        Told::Served,
        "yutuuuuuuuuuuuuuiiiiiiiiiiiiiiiiiiiiiiiiiiiiiiiiiiiiiiiiiiiiiiii",
    ),
];

// The turns before, whether processor 0 of partition 2 then takes messages, and the turns.
type Run = (&'static [Turn], bool, &'static [Turn]);

const RUNS: [Run; 4] = [
    (&[], false, FIRST),
    (&[], false, SETUP),
    (SETUP, false, MADE_AGAIN),
    (SETUP, true, POSTS),
];

// The result of `check` and `decode` for a frame: the letter of a fault, or one for a call with its code.
fn letter_of(frame: &Frame<Global>) -> u8 {
    match frame.check() {
        Err(AbiFault::UnknownCode) => b'u',
        Err(AbiFault::Input) => b'i',
        Err(AbiFault::Alignment) => b'a',
        Ok(shape) => match decode(frame, &shape) {
            Ok(call) if u64::from(call.kind().code()) == frame.rcx & 0xffff => b'c',
            _ => b'?',
        },
    }
}

fn assert_frame(
    rt: &impl Abort,
    alloc: Global,
    call: Call<'_>,
    letter: u8,
) -> Result<(), AllocError> {
    let wanted = if matches!(letter, b'u' | b'i' | b'a') {
        letter
    } else {
        b'c'
    };
    let told = letter_of(&frame(alloc, call)?);
    assert!(rt; told == wanted, "{:#x}", call.rcx);
    Ok(())
}

// Drives the calls to their ends.
fn take(
    rt: &impl Abort,
    alloc: Global,
    machine: &mut Machine<Global>,
    turns: &[Turn],
) -> Result<(), Fail> {
    for (call, wanted, _) in turns {
        let told = drive(rt, alloc, machine, *call)?;
        assert!(rt; told == *wanted, "{:#x}", call.rcx);
    }
    Ok(())
}

// Takes the turns that come before a run, and the first `made` turns of the run.
fn begin(
    rt: &impl Abort,
    alloc: Global,
    machine: &mut Machine<Global>,
    run: &Run,
    made: usize,
) -> Result<(), Fail> {
    let (before, is_ready, turns) = run;
    take(rt, alloc, machine, before)?;
    if *is_ready {
        make_ready(rt, machine)?;
    }
    take(rt, alloc, machine, &turns[..made.min(turns.len())])
}

// The answer to a call in place of a turn.
fn step_at(
    rt: &impl Abort,
    alloc: Global,
    machine: &mut Machine<Global>,
    run: &Run,
    made: usize,
    call: Call<'_>,
) -> Result<Told, Fail> {
    begin(rt, alloc, machine, run, made)?;
    step(rt, alloc, machine, call)
}

fn assert_step(
    rt: &impl Abort,
    alloc: Global,
    run: &Run,
    made: usize,
    call: Call<'_>,
    letter: u8,
) -> Result<(), Fail> {
    let mut machine = boot(alloc, 1)?;
    let told = step_at(rt, alloc, &mut machine, run, made, call)?;
    assert!(rt;
        told == told_by(letter, call.rcx),
        "{:#x} at {made}",
        call.rcx
    );
    Ok(())
}

// Makes the call of a turn in its place, with each bit of its input value changed.
fn assert_bits(
    rt: &impl Abort,
    alloc: Global,
    run: &Run,
    made: usize,
    turn: &Turn,
) -> Result<(), Fail> {
    let (call, _, letters) = turn;
    assert!(rt; letters.len() == 64, "{:#x}", call.rcx);
    for (bit, letter) in letters.bytes().enumerate() {
        let rcx = call.rcx ^ 1 << (bit % 64);
        let changed = Call { rcx, ..*call };
        assert_frame(rt, alloc, changed, letter)?;
        assert_step(rt, alloc, run, made, changed, letter)?;
    }
    Ok(())
}

fn assert_run(rt: &impl Abort, alloc: Global, run: &Run) -> Result<(), Fail> {
    for (made, turn) in run.2.iter().enumerate() {
        assert_bits(rt, alloc, run, made, turn)?;
    }
    let mut machine = boot(alloc, 1)?;
    begin(rt, alloc, &mut machine, run, run.2.len())
}

#[test]
fn changed_bits_are_told(rt: HostRuntime) -> Result<(), Fail> {
    for run in RUNS.iter() {
        assert_run(&rt, rt.alloc(), run)?;
    }
    Ok(())
}
