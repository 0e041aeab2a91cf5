// Calls stepped one by one.

use crate::calls::{
    BY_0, CONNECTION, CREATE, CREATE_VP, Call, DELETE_PORT, DEPOSIT, INITIALIZE, PORT, Told, boot,
    step,
};
use hv_machine::{Machine, Rule};
use std::alloc::Global;
use std::process::Abort;
use std::test::Fail;

// Makes the calls one after another, and compares the answers.
fn run(
    rt: &impl Abort,
    alloc: Global,
    machine: &mut Machine<Global>,
    steps: &[(Call<'_>, Told)],
) -> Result<(), Fail> {
    for (call, wanted) in steps {
        let told = step(rt, alloc, machine, *call)?;
        assert!(rt; told == *wanted, "{:#x}", call.rcx);
    }
    Ok(())
}

// Forty reads of registers of processor 0 of partition 1, starting at the first element. The first four are
// RAX.
const READ: Call<'static> = Call {
    vp: 1,
    rcx: 0x28_0000_0050,
    input: &[
        1, 0, 0, 0, 0, 0, 0, 0, 0, 0, 0, 0, 0, 0, 0, 0, 0, 0, 2, 0, 0, 0, 2, 0, 0, 0, 2, 0, 0, 0,
        2, 0,
    ],
    ..BY_0
};

const DELETED: [(Call<'static>, Told); 5] = [
    (READ, Told::More(1)),
    (
        Call {
            rcx: 0x1_0028_0000_0050,
            ..READ
        },
        Told::More(2),
    ),
    (
        Call {
            rcx: 0x2_0028_0000_0050,
            ..READ
        },
        Told::More(3),
    ),
    (
        Call {
            rcx: 0x1004f,
            rdx: 1,
            r8: 1,
            ..BY_0
        },
        Told::Served,
    ),
    (
        Call {
            rcx: 0x3_0028_0000_0050,
            ..READ
        },
        Told::Denied(Rule::CallerVpExists, 3),
    ),
];

fn read_on(rt: &impl Abort, alloc: Global, machine: &mut Machine<Global>) -> Result<(), Fail> {
    run(rt, alloc, machine, &DELETED)
}

// Another processor deletes the one whose rep call continues. The next element is denied, and counts those
// before it.
#[test]
fn a_deleted_processor_reads_no_further(rt: HostRuntime) -> Result<(), Fail> {
    let mut machine = boot(rt.alloc(), 2)?;
    read_on(&rt, rt.alloc(), &mut machine)
}

const CREATED: [(Call<'static>, Told); 2] = [(CREATE, Told::Served), (INITIALIZE, Told::Served)];

const CONNECTED: [(Call<'static>, Told); 3] = [
    (CREATE_VP, Told::Served),
    (PORT, Told::Served),
    (CONNECTION, Told::Served),
];

const MADE_AGAIN: [(Call<'static>, Told); 2] = [(DELETE_PORT, Told::Served), (PORT, Told::Served)];

// The births of port 5 of partition 2, and of the port to which the root's connection 7 leads.
fn births(machine: &Machine<Global>) -> Option<[u64; 2]> {
    let port = machine.tree().get(2)?.port(5)?;
    let connection = machine.tree().get(1)?.conn(7)?;
    Some([port.born, connection.born])
}

// Deposits six pages, one after another.
fn deposit(rt: &impl Abort, alloc: Global, machine: &mut Machine<Global>) -> Result<(), Fail> {
    for start in 0..6u16 {
        let rcx = DEPOSIT.rcx | u64::from(start) << 48;
        let told = step(rt, alloc, machine, Call { rcx, ..DEPOSIT })?;
        let wanted = if start == 5 {
            Told::Served
        } else {
            Told::More(start + 1)
        };
        assert!(rt; told == wanted, "{rcx:#x}");
    }
    Ok(())
}

fn create(rt: &impl Abort, alloc: Global, machine: &mut Machine<Global>) -> Result<(), Fail> {
    run(rt, alloc, machine, &CREATED)
}

fn connect(rt: &impl Abort, alloc: Global, machine: &mut Machine<Global>) -> Result<(), Fail> {
    run(rt, alloc, machine, &CONNECTED)
}

fn make_again(rt: &impl Abort, alloc: Global, machine: &mut Machine<Global>) -> Result<(), Fail> {
    run(rt, alloc, machine, &MADE_AGAIN)
}

fn make_twice(rt: &impl Abort, alloc: Global, machine: &mut Machine<Global>) -> Result<(), Fail> {
    create(rt, alloc, machine)?;
    deposit(rt, alloc, machine)?;
    connect(rt, alloc, machine)?;
    let first = births(machine);
    make_again(rt, alloc, machine)?;
    assert!(rt; first == Some([10, 10]) && births(machine) == Some([13, 10]));
    assert!(rt; machine.next_id() == 3);
    Ok(())
}

// A port's birth is the count of served events after its creation. A connection keeps the birth of the port
// to which it was made, even if another port has the id later.
#[test]
fn a_connection_keeps_the_birth_of_its_port(rt: HostRuntime) -> Result<(), Fail> {
    let mut machine = boot(rt.alloc(), 2)?;
    make_twice(&rt, rt.alloc(), &mut machine)
}
