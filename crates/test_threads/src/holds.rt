// Rep calls of one processor alone and of two, which continue by sixteen elements at a time.
ghost use Rattle.std.specs.Prelude.{◌≡◌};

use crate::calls::{
    OWN_ID, assert_events, both, call, forty_reads, open, open_for, phase, root, settled, small,
};
use crate::gates::{Alternation, Names, Notes};
use hv_abi::Frame;
use hv_history::{Answer, History};
use hv_policy::{Action, Caller, Reply};
use hv_threads::{Pass, Receipts, Shared};
use std::alloc::Global;
use std::marker::Brand;
use std::process::Abort;
use std::sync::Wait;
use std::sync::ledger::{Blank, Ledger};
use std::test::Fail;
use std::thread::Threads;
use std::time::Clock;

// Turns 0, 16 and 32, as the gate records them.
const THREE_HOLDS: u64 = 1_17_33;

// Asserts that the forty elements have the numbers 1 to 40, and that each but the last names the next.
fn assert_forty(rt: &impl Abort, receipts: &Receipts) {
    assert_eq!(rt; receipts.len(), 40);
    for at in 0..receipts.len() {
        let wanted = if at == 39 {
            Answer::Served
        } else {
            Answer::More {
                next: (at % 40 + 1) as u16,
            }
        };
        assert_eq!(rt; receipts.number(at), (at % 40 + 1) as u64);
        assert_eq!(rt; receipts.get(at).entry.answer, wanted);
    }
}

// Reads forty times, and asserts that all is served.
fn read_forty<L: Ledger, R: Abort + Wait>(
    rt: &R,
    shared: &Shared<L>,
    pass: &mut Pass<L>,
    reads: Frame<Global>,
) -> Result<(), Fail> {
    let gate = Notes::new();
    let (value, reply) = shared.drive(rt, pass, &gate, reads)?;
    assert_eq!(rt; value.bits(), 0x0000_0028_0000_0000);
    assert!(rt; matches!(reply, Reply::Served(_)));
    gate.assert_told(rt, THREE_HOLDS);
    assert_forty(rt, pass.receipts());
    Ok(())
}

fn reads_alone_as<L: Ledger, R: Abort + Wait>(
    rt: &R,
    alloc: Global,
    blank: Blank,
) -> Result<(), Fail>
    requires { (blank.name ≡ L.name) × (blank.parts ≡ L.parts) × (blank.parts ≡ 2) }
{
    let reads = forty_reads(alloc, 1)?;
    let (shared, other, mut pass) = open::<L>(rt, alloc, blank, small(), 100)?;
    read_forty(rt, &shared, &mut pass, reads)?;
    let kept = settled(rt, shared, vec![in alloc; other, pass]?);
    assert_events(rt, &kept, 40);
    Ok(())
}

// A call of forty elements takes the lock three times, for 16, 16 and 8 of them.
#[test]
fn reads_alone(rt: HostRuntime) -> Result<(), Fail> {
    reads_alone_as::<Brand, HostRuntime>(&rt, rt.alloc(), Blank::new(2))
}

// The processor of the event at a place, counted from 0, if two calls of forty elements take turns.
fn processor_at(at: usize) -> u32 {
    if at < 64 {
        (at / 16 % 2) as u32
    } else if at < 72 {
        0
    } else {
        1
    }
}

fn assert_in_turns(rt: &impl Abort, history: &History<Global>) {
    assert_eq!(rt; history.len(), 80);
    for at in 0..history.len() {
        assert_eq!(rt; history.entry(at).by, root(processor_at(at)), "{at}");
    }
}

fn takes_turns_as<L: Ledger + Send + Sync, R: Abort + Clock + Threads + Wait + Sync>(
    rt: &R,
    alloc: Global,
    blank: Blank,
) -> Result<(), Fail>
    requires { (blank.name ≡ L.name) × (blank.parts ≡ L.parts) × (blank.parts ≡ 2) }
{
    let reads = (forty_reads(alloc, 0)?, forty_reads(alloc, 1)?);
    let (shared, first, second) = open::<L>(rt, alloc, blank, small(), 100)?;
    let works = both(alloc, (first, reads.0), (second, reads.1))?;
    let gate = Alternation::new(rt);
    let passes = phase(rt, alloc, &shared, &gate, works)?;
    gate.assert_in_time(rt);
    let kept = settled(rt, shared, passes);
    assert_in_turns(rt, kept.history());
    Ok(())
}

// The calls of two processors take turns hold by hold, and no event comes between the elements of a hold.
#[test]
fn takes_turns(rt: HostRuntime) -> Result<(), Fail> {
    takes_turns_as::<Brand, HostRuntime>(&rt, rt.alloc(), Blank::new(2))
}

// A processor of another partition than the root.
const STRANGER: Caller = Caller { part: 7, vp: 3 };

// The callers of a call and an access of the stranger, and of a call of processor 1 of the root, as the gate
// records them.
const THREE_CALLERS: u64 = 74_74_12;

// Asks for its own id.
fn ask<L: Ledger, R: Abort + Wait>(
    rt: &R,
    alloc: Global,
    shared: &Shared<L>,
    pass: &mut Pass<L>,
    gate: &Names,
) -> Result<(), Fail> {
    shared.drive(rt, pass, gate, call(OWN_ID, Vec::new(alloc)))?;
    Ok(())
}

fn tells_callers_as<L: Ledger, R: Abort + Wait>(
    rt: &R,
    alloc: Global,
    blank: Blank,
) -> Result<(), Fail>
    requires { (blank.name ≡ L.name) × (blank.parts ≡ L.parts) × (blank.parts ≡ 2) }
{
    let callers = [STRANGER, root(1)];
    let (shared, mut stranger, mut own) = open_for::<L>(rt, alloc, blank, small(), 9, callers)?;
    let gate = Names::new();
    ask(rt, alloc, &shared, &mut stranger, &gate)?;
    shared.call(rt, &mut stranger, &gate, Action::TakeInterrupt)?;
    ask(rt, alloc, &shared, &mut own, &gate)?;
    gate.assert_told(rt, THREE_CALLERS);
    let kept = settled(rt, shared, vec![in alloc; stranger, own]?);
    assert_events(rt, &kept, 3);
    Ok(())
}

// A gate is told which processor enters and leaves.
#[test]
fn tells_callers(rt: HostRuntime) -> Result<(), Fail> {
    tells_callers_as::<Brand, HostRuntime>(&rt, rt.alloc(), Blank::new(2))
}
