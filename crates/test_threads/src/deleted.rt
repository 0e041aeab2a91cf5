// A processor that another one deletes while it makes a rep call.
ghost use Rattle.std.specs.Prelude.{◌≡◌};

use crate::calls::{
    assert_events, both, call, delete, forty_reads, open, phase, root, settled, small,
};
use crate::gates::Halt;
use hv_abi::Status;
use hv_history::{Answer, Request};
use hv_policy::{Reply, Rule, result_of};
use hv_threads::{Pass, Receipts};
use std::alloc::Global;
use std::marker::Brand;
use std::process::Abort;
use std::sync::Wait;
use std::sync::ledger::{Blank, Ledger};
use std::test::Fail;
use std::thread::Threads;
use std::time::Clock;

// Asserts that the deletion came after sixteen elements of the other processor's call.
fn assert_deleted(rt: &impl Abort, receipts: &Receipts) {
    assert_eq!(rt; receipts.len(), 1);
    assert_eq!(rt; receipts.number(0), 17);
    assert_eq!(rt; receipts.get(0).entry.answer, Answer::Served);
}

// The request of the element with the start index 16.
const SEVENTEENTH: u64 = 0x0010_0028_0000_0050;

// Asserts that sixteen elements were read and the next was denied, since the processor is gone.
fn assert_stopped(rt: &impl Abort, receipts: &Receipts) {
    assert_eq!(rt; receipts.len(), 17);
    assert_eq!(rt; receipts.get(15).entry.answer, Answer::More { next: 16 });
    let last = receipts.get(16);
    let denied = Answer::Denied {
        rule: Rule::CallerVpExists,
        status: Status::InvalidVpIndex,
        reps: 16,
    };
    assert_eq!(rt; last.entry.answer, denied);
    let element = Request::Hypercall {
        rcx: SEVENTEENTH,
        rdx: 0,
        r8: 0,
    };
    assert_eq!(rt; last.entry.asked, element);
    assert_eq!(rt; last.number, 18);
}

// The result value of the whole call, from its last element.
fn assert_result(rt: &impl Abort, alloc: Global) {
    let denied = Reply::Denied {
        rule: Rule::CallerVpExists,
        status: Status::InvalidVpIndex,
        reps: 16,
    };
    let value = result_of(&call(SEVENTEENTH, Vec::new(alloc)), &denied);
    assert_eq!(rt; value.bits(), 0x0000_0010_0000_000e);
}

// Asserts that processor 0 deleted processor 1, which was stopped.
fn assert_passes<L: Ledger>(rt: &impl Abort, passes: &[Pass<L>]) {
    assert_eq!(rt; passes.len(), 2);
    assert_eq!(rt; passes[1].caller(), root(1));
    assert_deleted(rt, passes[0].receipts());
    assert_stopped(rt, passes[1].receipts());
}

fn deleted_as<L: Ledger + Send + Sync, R: Abort + Clock + Threads + Wait + Sync>(
    rt: &R,
    alloc: Global,
    blank: Blank,
) -> Result<(), Fail>
    requires { (blank.name ≡ L.name) × (blank.parts ≡ L.parts) × (blank.parts ≡ 2) }
{
    let reads = forty_reads(alloc, 1)?;
    let (shared, first, second) = open::<L>(rt, alloc, blank, small(), 100)?;
    let works = both(alloc, (first, delete(alloc)), (second, reads))?;
    let gate = Halt::new(rt);
    let passes = phase(rt, alloc, &shared, &gate, works)?;
    gate.assert_in_time(rt);
    assert_passes(rt, &passes);
    let kept = settled(rt, shared, passes);
    assert_events(rt, &kept, 18);
    assert_result(rt, alloc);
    Ok(())
}

// The rules are checked again for each element. A rep call of a processor that is deleted between two holds
// ends with the next element.
#[test]
fn processor_deleted(rt: HostRuntime) -> Result<(), Fail> {
    deleted_as::<Brand, HostRuntime>(&rt, rt.alloc(), Blank::new(2))
}
