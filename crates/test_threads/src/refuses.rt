// Refusals by the host because the history is full.
ghost use Rattle.std.specs.Prelude.{◌≡◌};

use crate::calls::{
    OWN_ID, assert_events, assert_pooled, call, forty_reads, numbers, open, settled, small,
};
use crate::gates::Notes;
use hv_abi::{Frame, ResultValue};
use hv_history::{Answer, HostRefused};
use hv_policy::{Action, Reply};
use hv_threads::{DriveRefused, Open, Pass, Receipts, Shared};
use std::alloc::Global;
use std::marker::Brand;
use std::process::Abort;
use std::sync::Wait;
use std::sync::ledger::{Blank, Ledger};
use std::test::Fail;

// Asserts that the host refused the twenty-first element because the history was full.
fn assert_refused(rt: &impl Abort, answer: Result<(ResultValue, Reply), DriveRefused>) {
    let wanted = DriveRefused {
        why: HostRefused::HistoryFull,
        next: 20,
    };
    match answer {
        Ok(_) => panic!(rt; "the history has room for twenty elements"),
        Err(refused) => assert_eq!(rt; refused, wanted),
    }
}

// Asserts that there is one receipt for each of twenty elements.
fn assert_receipts(rt: &impl Abort, receipts: &Receipts) {
    assert_eq!(rt; receipts.len(), 20);
    assert_eq!(rt; receipts.get(19).entry.answer, Answer::More { next: 20 });
}

// Turns 0 and 16, and turns 0, 16 and 20, as the gate records them.
const TWO_HOLDS: u64 = 1_17;

const TWO_HOLDS_AND_A_CALL: u64 = 1_17_21;

// Reads forty times, while the history has room for twenty.
fn read_twenty<L: Ledger, R: Abort + Wait>(
    rt: &R,
    shared: &Shared<L>,
    gate: &Notes,
    pass: &mut Pass<L>,
    reads: Frame<Global>,
) {
    assert_refused(rt, shared.drive(rt, pass, gate, reads));
    gate.assert_told(rt, TWO_HOLDS);
    assert_receipts(rt, pass.receipts());
}

// Makes one more call, for which the history has no room.
fn ask_once<L: Ledger, R: Abort + Wait>(
    rt: &R,
    shared: &Shared<L>,
    gate: &Notes,
    pass: &mut Pass<L>,
    own_id: Frame<Global>,
) {
    let refused = shared.call(rt, pass, gate, Action::Hypercall(own_id));
    assert!(rt; matches!(refused, Err(HostRefused::HistoryFull)));
    gate.assert_told(rt, TWO_HOLDS_AND_A_CALL);
    assert_eq!(rt; pass.receipts().len(), 20);
}

fn refuses_as<L: Ledger, R: Abort + Wait>(rt: &R, alloc: Global, blank: Blank) -> Result<(), Fail>
    requires { (blank.name ≡ L.name) × (blank.parts ≡ L.parts) × (blank.parts ≡ 2) }
{
    let reads = forty_reads(alloc, 1)?;
    let (shared, other, mut pass) = open::<L>(rt, alloc, blank, small(), 20)?;
    let gate = Notes::new();
    read_twenty(rt, &shared, &gate, &mut pass, reads);
    ask_once(rt, &shared, &gate, &mut pass, call(OWN_ID, Vec::new(alloc)));
    let kept = settled(rt, shared, vec![in alloc; other, pass]?);
    assert_events(rt, &kept, 20);
    Ok(())
}

// The elements for which the history has room are served and have their receipts. The gate's `leave` is
// called even if the host refuses an event in a hold.
#[test]
fn refuses(rt: HostRuntime) -> Result<(), Fail> {
    refuses_as::<Brand, HostRuntime>(&rt, rt.alloc(), Blank::new(2))
}

// Partition 2 is created, and gets two of three pages. The history has no room for the third.
fn fill<L: Ledger, R: Abort + Wait>(
    rt: &R,
    alloc: Global,
    shared: &Shared<L>,
    pass: &mut Pass<L>,
) -> Result<(), Fail> {
    let create = call(0x40, numbers(alloc, 0, 0..0)?);
    let (made, _) = shared.drive(rt, pass, &Open, create)?;
    assert_eq!(rt; made.bits(), 0);
    let deposits = call(0x3_0000_0048, numbers(alloc, 2, 12..15)?);
    let wanted = DriveRefused {
        why: HostRefused::HistoryFull,
        next: 2,
    };
    match shared.drive(rt, pass, &Open, deposits) {
        Ok(_) => panic!(rt; "the history has room for two elements"),
        Err(refused) => assert_eq!(rt; refused, wanted),
    }
    Ok(())
}

fn fills_as<L: Ledger, R: Abort + Wait>(rt: &R, alloc: Global, blank: Blank) -> Result<(), Fail>
    requires { (blank.name ≡ L.name) × (blank.parts ≡ L.parts) × (blank.parts ≡ 2) }
{
    let (shared, mut pass, other) = open::<L>(rt, alloc, blank, small(), 3)?;
    fill(rt, alloc, &shared, &mut pass)?;
    assert_eq!(rt; pass.receipts().len(), 3);
    let kept = settled(rt, shared, vec![in alloc; pass, other]?);
    assert_events(rt, &kept, 3);
    assert_pooled(rt, &kept, 2, 12..14);
    Ok(())
}

// A call that creates a partition and one that deposits pages fill the history in mid-call.
#[test]
fn fills(rt: HostRuntime) -> Result<(), Fail> {
    fills_as::<Brand, HostRuntime>(&rt, rt.alloc(), Blank::new(2))
}
