// Deposits of two processors at the same time, and the settlement of their receipts, with all passes and
// without one.
ghost use Rattle.std.specs.Prelude.{◌≡◌};

use crate::calls::{
    assert_pooled, both, call, last_of, numbers, open, phase, root, settled, small,
};
use hv_abi::Frame;
use hv_history::{Answer, EntryRef, Kept, Request};
use hv_policy::{Action, Config, Reply};
use hv_threads::{Open, Pass, SettleFault, SettleRefused, Shared, Work, settle};
use std::alloc::Global;
use std::marker::Brand;
use std::ops::Range;
use std::process::Abort;
use std::sync::Wait;
use std::sync::ledger::{Blank, Ledger};
use std::test::Fail;
use std::thread::Threads;

const CREATE: u64 = 0x40;

const DEPOSIT: u64 = 0x48;

const TEN_DEPOSITS: u64 = 0xa_0000_0048;

// Creates partitions 2 and 3.
fn make_two<L: Ledger, R: Abort + Wait>(
    rt: &R,
    alloc: Global,
    shared: &Shared<L>,
    pass: &mut Pass<L>,
) -> Result<(), Fail> {
    let create = Action::Hypercall(call(CREATE, Vec::new(alloc)));
    let made = shared.call(rt, pass, &Open, create)?;
    assert!(rt; matches!(made, Reply::Served(_)));
    let create = Action::Hypercall(call(CREATE, Vec::new(alloc)));
    shared.call(rt, pass, &Open, create)?;
    Ok(())
}

// Deposits pages into a partition.
fn deposits(alloc: Global, part: u64, pages: Range<u64>) -> Result<Frame<Global>, Fail> {
    Ok(call(TEN_DEPOSITS, numbers(alloc, part, pages)?))
}

// Each processor has ten pages to deposit, the first into partition 2, the second into partition 3.
fn works_of<L: Ledger>(
    alloc: Global,
    first: Pass<L>,
    second: Pass<L>,
) -> Result<Vec<Work<L>>, Fail> {
    let low = deposits(alloc, 2, 20..30)?;
    let high = deposits(alloc, 3, 30..40)?;
    both(alloc, (first, low), (second, high))
}

// Creates partitions 2 and 3, and makes each of the root's processors deposit ten pages into one of them.
fn fill<L: Ledger + Send + Sync, R: Abort + Threads + Wait + Sync>(
    rt: &R,
    alloc: Global,
    blank: Blank,
) -> Result<(Shared<L>, Vec<Pass<L>>), Fail>
    requires { (blank.name ≡ L.name) × (blank.parts ≡ L.parts) × (blank.parts ≡ 2) }
{
    let config = Config {
        pages: 60,
        pool: 20,
        ..small()
    };
    let (shared, mut first, second) = open::<L>(rt, alloc, blank, config, 1000)?;
    make_two(rt, alloc, &shared, &mut first)?;
    let works = works_of(alloc, first, second)?;
    let passes = phase(rt, alloc, &shared, &Open, works)?;
    Ok((shared, passes))
}

// Asserts that an event is a call with this code, and was served.
fn assert_served(rt: &impl Abort, entry: EntryRef<'_>, code: u64) {
    assert!(rt; matches!(entry.asked, Request::Hypercall { rcx, .. } if rcx & 0xffff == code));
    assert!(rt; matches!(entry.answer, Answer::Served | Answer::More { .. }));
}

// Asserts that the history has the creation of two partitions and then 20 deposits, and that all were served.
fn assert_filled(rt: &impl Abort, kept: &Kept<Global>) {
    let history = kept.history();
    assert_eq!(rt; history.len(), 22);
    for at in 0..history.len() {
        assert_served(rt, history.entry(at), if at < 2 { CREATE } else { DEPOSIT });
    }
}

fn settles_as<L: Ledger + Send + Sync, R: Abort + Threads + Wait + Sync>(
    rt: &R,
    alloc: Global,
    blank: Blank,
) -> Result<(), Fail>
    requires { (blank.name ≡ L.name) × (blank.parts ≡ L.parts) × (blank.parts ≡ 2) }
{
    let (shared, passes) = fill::<L, R>(rt, alloc, blank)?;
    let kept = settled(rt, shared, passes);
    assert_filled(rt, &kept);
    assert_pooled(rt, &kept, 2, 20..30);
    assert_pooled(rt, &kept, 3, 30..40);
    Ok(())
}

// Two processors deposit ten pages each, and the history is a merge of their receipts.
#[test]
fn settles(rt: HostRuntime) -> Result<(), Fail> {
    settles_as::<Brand, HostRuntime>(&rt, rt.alloc(), Blank::new(2))
}

// Asserts that the settlement reports events of no pass, and returns the history.
fn assert_missing(rt: &impl Abort, told: Result<Kept<Global>, SettleRefused>) {
    match told {
        Ok(_) => panic!(rt; "the events of a processor are no one's"),
        Err(refused) => {
            assert_eq!(rt; refused.fault, SettleFault::Missing);
            assert_filled(rt, &refused.kept);
        }
    }
}

fn misses_as<L: Ledger + Send + Sync, R: Abort + Threads + Wait + Sync>(
    rt: &R,
    alloc: Global,
    blank: Blank,
) -> Result<(), Fail>
    requires { (blank.name ≡ L.name) × (blank.parts ≡ L.parts) × (blank.parts ≡ 2) }
{
    let (shared, mut passes) = fill::<L, R>(rt, alloc, blank)?;
    let last = last_of(rt, &mut passes);
    assert_eq!(rt; last.caller(), root(1));
    assert_missing(rt, settle(shared, passes));
    Ok(())
}

// Without the pass of a processor, its events are missing, and the history is returned complete.
#[test]
fn misses_a_pass(rt: HostRuntime) -> Result<(), Fail> {
    misses_as::<Brand, HostRuntime>(&rt, rt.alloc(), Blank::new(2))
}
