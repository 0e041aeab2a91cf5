// Calls by processors, and a machine's answers.

use hv_abi::{Bytes, Frame};
use hv_machine::{Action, BootRefused, Caller, Config, Event, Machine, Reply, Rule};
use hv_privs::Privileges;
use std::alloc::{AllocError, Global};
use std::process::Abort;
use std::test::Fail;

// The processor, RCX, RDX, R8 and the input.
#[derive(Clone, Copy)]
pub(crate) struct Call<'a> {
    pub(crate) part: u64,
    pub(crate) vp: u32,
    pub(crate) rcx: u64,
    pub(crate) rdx: u64,
    pub(crate) r8: u64,
    pub(crate) input: &'a [u8],
}

const NONE: &[u8] = &[];

// A call by processor 0 of the root.
pub(crate) const BY_0: Call<'static> = Call {
    part: 1,
    vp: 0,
    rcx: 0,
    rdx: 0,
    r8: 0,
    input: NONE,
};

// Creates partition 2.
pub(crate) const CREATE: Call<'static> = Call { rcx: 0x40, ..BY_0 };

pub(crate) const INITIALIZE: Call<'static> = Call {
    rcx: 0x10041,
    rdx: 2,
    ..BY_0
};

// Gives partition 2 the six pages 12 to 17.
pub(crate) const DEPOSIT: Call<'static> = Call {
    rcx: 0x6_0000_0048,
    input: PAGES,
    ..BY_0
};

const PAGES: &[u8] = &[
    2, 0, 0, 0, 0, 0, 0, 0, 12, 0, 0, 0, 0, 0, 0, 0, 13, 0, 0, 0, 0, 0, 0, 0, 14, 0, 0, 0, 0, 0, 0,
    0, 15, 0, 0, 0, 0, 0, 0, 0, 16, 0, 0, 0, 0, 0, 0, 0, 17, 0, 0, 0, 0, 0, 0, 0,
];

// Creates processor 0 of partition 2.
pub(crate) const CREATE_VP: Call<'static> = Call {
    rcx: 0x1004e,
    rdx: 2,
    ..BY_0
};

// A message port 5 of partition 2 for the root, at SINT 2 of processor 0, and the root's connection 7 to it.
pub(crate) const PORT: Call<'static> = Call {
    rcx: 0x95,
    input: &[
        2, 0, 0, 0, 0, 0, 0, 0, 5, 0, 0, 0, 0, 0, 0, 0, 1, 0, 0, 0, 0, 0, 0, 0, 1, 0, 0, 0, 0, 0,
        0, 0, 2, 0, 0, 0, 0, 0, 0, 0, 0, 0, 0, 0, 0, 0, 0, 0,
    ],
    ..BY_0
};

pub(crate) const CONNECTION: Call<'static> = Call {
    rcx: 0x96,
    input: &[
        1, 0, 0, 0, 0, 0, 0, 0, 7, 0, 0, 0, 0, 0, 0, 0, 2, 0, 0, 0, 0, 0, 0, 0, 5, 0, 0, 0, 0, 0,
        0, 0, 1, 0, 0, 0,
    ],
    ..BY_0
};

pub(crate) const DELETE_PORT: Call<'static> = Call {
    rcx: 0x10058,
    rdx: 2,
    r8: 5,
    ..BY_0
};

pub(crate) fn frame(alloc: Global, call: Call<'_>) -> Result<Frame<Global>, AllocError> {
    let input = Bytes::from_vec(call.input.to_vec(alloc)?);
    Ok(Frame {
        rcx: call.rcx,
        rdx: call.rdx,
        r8: call.r8,
        input,
    })
}

fn event(alloc: Global, call: Call<'_>) -> Result<Event<Global>, AllocError> {
    let what = Action::Hypercall(frame(alloc, call)?);
    let by = Caller {
        part: call.part,
        vp: call.vp,
    };
    Ok(Event { by, what })
}

// A machine whose root has this many processors.
pub(crate) fn boot(alloc: Global, vps: u32) -> Result<Machine<Global>, BootRefused> {
    let config = Config {
        pages: 32,
        pool: 12,
        vps,
        mask: Privileges::of(0x0000_00f7_0000_0044),
    };
    Machine::boot(alloc, config)
}

// What a reply says: the next element, or the rule that refuses and the number of elements done before.
#[derive(Clone, Copy, PartialEq, Eq)]
pub(crate) enum Told {
    Served,
    More(u16),
    Denied(Rule, u16),
    Fault,
}

fn said_by(reply: &Reply) -> Told {
    match reply {
        Reply::Served(_) => Told::Served,
        Reply::More { next, .. } => Told::More(*next),
        Reply::Denied { rule, reps, .. } => Told::Denied(*rule, *reps),
        Reply::Fault { .. } => Told::Fault,
    }
}

pub(crate) fn step(
    rt: &impl Abort,
    alloc: Global,
    machine: &mut Machine<Global>,
    call: Call<'_>,
) -> Result<Told, Fail> {
    assert!(rt; machine.served() < 20);
    let reply = machine.step(&event(alloc, call)?)?;
    Ok(said_by(&reply))
}

// Steps a call of at most eight elements until its last one, or until one is denied.
pub(crate) fn drive(
    rt: &impl Abort,
    alloc: Global,
    machine: &mut Machine<Global>,
    call: Call<'_>,
) -> Result<Told, Fail> {
    let mut start = 0u16;
    for _ in 0..8 {
        let rcx = call.rcx | u64::from(start) << 48;
        match step(rt, alloc, machine, Call { rcx, ..call })? {
            Told::More(next) => start = next,
            told => return Ok(told),
        }
    }
    Ok(Told::More(start))
}

// Processor 0 of partition 2 takes messages, with vector 0x30 at SINT 2.
pub(crate) fn make_ready(rt: &impl Abort, machine: &mut Machine<Global>) -> Result<(), Fail> {
    for (msr, value) in [(0x4000_0080, 1), (0x4000_0083, 1), (0x4000_0092, 0x30)] {
        assert!(rt; machine.served() < 20);
        let reply = machine.step(&Event {
            by: Caller { part: 2, vp: 0 },
            what: Action::WriteMsr(msr, value),
        })?;
        assert!(rt; said_by(&reply) == Told::Served, "{msr:#x}");
    }
    Ok(())
}

// Creates the root's child 2, and then makes the call.
fn step_second(
    rt: &impl Abort,
    alloc: Global,
    machine: &mut Machine<Global>,
    call: Call<'_>,
) -> Result<Told, Fail> {
    let created = step(rt, alloc, machine, CREATE)?;
    assert!(rt; created == Told::Served);
    step(rt, alloc, machine, call)
}

// The answer to a call on a machine of its own, in which the root has the child 2.
pub(crate) fn answer(rt: &impl Abort, alloc: Global, call: Call<'_>) -> Result<Told, Fail> {
    let mut machine = boot(alloc, 1)?;
    step_second(rt, alloc, &mut machine, call)
}
