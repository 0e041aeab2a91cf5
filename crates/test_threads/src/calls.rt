// Fixtures of the tests: calls of the root's processors 0 and 1, and passes for the two.
ghost use Rattle.std.specs.Prelude.{◌≡◌, ◌<◌, [], IfOk, vec_len};

use hv_abi::{Bytes, Frame};
use hv_history::Kept;
use hv_pages::PageSet;
use hv_partition::PageKind;
use hv_policy::{Action, Caller, Config};
use hv_privs::Privileges;
use hv_threads::{Done, End, Gate, Pass, Shared, Work, run_phase, settle};
use std::alloc::Global;
use std::ops::Range;
use std::process::Abort;
use std::sync::Wait;
use std::sync::ledger::{Blank, Ledger};
use std::test::Fail;
use std::thread::Threads;

// Asks for the caller's own id.
pub(crate) const OWN_ID: u64 = 0x46;

// A processor of the root.
pub(crate) fn root(vp: u32) -> Caller {
    Caller { part: 1, vp }
}

// A call whose input list has these bytes.
pub(crate) fn call(rcx: u64, input: Vec<u8>) -> Frame<Global> {
    Frame {
        rcx,
        rdx: 0,
        r8: 0,
        input: Bytes::from_vec(input),
    }
}

// A number and then these, 8 bytes each, as in the list of a call.
pub(crate) fn numbers(alloc: Global, first: u64, more: Range<u64>) -> Result<Vec<u8>, Fail> {
    let mut input = Vec::new(alloc);
    input.extend_from_slice(&first.to_le_bytes())?;
    for number in more {
        input.extend_from_slice(&number.to_le_bytes())?;
    }
    Ok(input)
}

// Reads RAX of a processor this many times.
pub(crate) fn reads(alloc: Global, part: u64, vp: u32, times: u16) -> Result<Frame<Global>, Fail> {
    let vp = u64::from(vp);
    let mut input = numbers(alloc, part, vp..vp + 1)?;
    for _ in 0..times {
        input.extend_from_slice(&0x2_0000u32.to_le_bytes())?;
    }
    Ok(call(u64::from(times) << 32 | 0x50, input))
}

// Reads RAX of a processor of the root forty times.
pub(crate) fn forty_reads(alloc: Global, vp: u32) -> Result<Frame<Global>, Fail> {
    reads(alloc, 1, vp, 40)
}

// A fast call.
pub(crate) fn fast(alloc: Global, rcx: u64, rdx: u64, r8: u64) -> Frame<Global> {
    Frame {
        rcx,
        rdx,
        r8,
        input: Bytes::from_vec(Vec::new(alloc)),
    }
}

// Deletes processor 1 of the root.
pub(crate) fn delete(alloc: Global) -> Frame<Global> {
    fast(alloc, 0x1_004f, 1, 1)
}

// 32 pages, 12 of them pooled, and two processors.
pub(crate) fn small() -> Config {
    Config {
        pages: 32,
        pool: 12,
        vps: 2,
        mask: Privileges::of(0x0000_00f7_0000_0044),
    }
}

pub(crate) fn boot(alloc: Global, config: Config, limit: u32) -> Result<Kept<Global>, Fail>
    ensures { IfOk result (λ kept. kept.history ≡ []) }
{
    let kept = Kept::boot(alloc, config, limit)?;
    Ok(kept)
}

// A lock around such a machine, and the passes of its processors, that of processor 0 first.
pub(crate) fn open<L: Ledger>(
    rt: &impl Abort,
    alloc: Global,
    blank: Blank,
    config: Config,
    limit: u32,
) -> Result<(Shared<L>, Pass<L>, Pass<L>), Fail>
    requires { (blank.name ≡ L.name) × (blank.parts ≡ L.parts) × (blank.parts ≡ 2) }
{
    open_for(rt, alloc, blank, config, limit, [root(0), root(1)])
}

// A lock around such a machine, and the passes of two processors.
pub(crate) fn open_for<L: Ledger>(
    rt: &impl Abort,
    alloc: Global,
    blank: Blank,
    config: Config,
    limit: u32,
    callers: [Caller; 2],
) -> Result<(Shared<L>, Pass<L>, Pass<L>), Fail>
    requires { (blank.name ≡ L.name) × (blank.parts ≡ L.parts) × (blank.parts ≡ 2) }
{
    let callers = vec![in alloc; callers[0], callers[1]]?;
    let kept = boot(alloc, config, limit)?;
    let (shared, mut passes) = lock(rt, kept, blank, callers);
    let second = last_of(rt, &mut passes);
    let first = last_of(rt, &mut passes);
    Ok((shared, first, second))
}

// A lock around a machine to which nothing has happened, and a pass for each processor.
pub(crate) fn lock<L: Ledger>(
    rt: &impl Abort,
    kept: Kept<Global>,
    blank: Blank,
    callers: Vec<Caller>,
) -> (Shared<L>, Vec<Pass<L>>)
    requires empty { kept.history ≡ [] }
    requires some { 0 < vec_len callers }
    requires ledger { (blank.name ≡ L.name) × (blank.parts ≡ L.parts) × (blank.parts ≡ vec_len callers) }
{
    match Shared::<L>::new(kept, blank, callers) {
        Ok(opened) => opened,
        Err(_) => panic!(rt; "no memory"),
    }
}

// Takes the last of the passes.
pub(crate) fn last_of<L: Ledger>(rt: &impl Abort, passes: &mut Vec<Pass<L>>) -> Pass<L> {
    match passes.pop() {
        Some(pass) => pass,
        None => panic!(rt; "a pass for each processor"),
    }
}

// The work of a processor with one action.
pub(crate) fn work<L: Ledger>(
    alloc: Global,
    pass: Pass<L>,
    what: Action<Global>,
) -> Result<Work<L>, Fail> {
    let actions = vec![in alloc; what]?;
    Ok(Work { pass, actions })
}

// A phase of two processors, each with one action.
pub(crate) fn pair<L: Ledger>(
    alloc: Global,
    first: (Pass<L>, Action<Global>),
    second: (Pass<L>, Action<Global>),
) -> Result<Vec<Work<L>>, Fail> {
    let first = work(alloc, first.0, first.1)?;
    let second = work(alloc, second.0, second.1)?;
    Ok(vec![in alloc; first, second]?)
}

// A phase of two processors, each with one call.
pub(crate) fn both<L: Ledger>(
    alloc: Global,
    first: (Pass<L>, Frame<Global>),
    second: (Pass<L>, Frame<Global>),
) -> Result<Vec<Work<L>>, Fail> {
    let first = (first.0, Action::Hypercall(first.1));
    let second = (second.0, Action::Hypercall(second.1));
    pair(alloc, first, second)
}

// Performs the works, each of which reaches its end, and returns the passes.
pub(crate) fn phase<L: Ledger + Send + Sync, R: Abort + Threads + Wait + Sync, G: Gate>(
    rt: &R,
    alloc: Global,
    shared: &Shared<L>,
    gate: &G,
    works: Vec<Work<L>>,
) -> Result<Vec<Pass<L>>, Fail> {
    match run_phase(rt, shared, gate, works) {
        Ok(dones) => passes_of(rt, alloc, dones),
        Err(_) => panic!(rt; "no memory"),
    }
}

fn assert_finished<L: Ledger>(rt: &impl Abort, done: &Done<L>) {
    assert_eq!(rt; done.end, End::Finished);
    assert_eq!(rt; done.done, 1);
}

// The passes after a phase in which each processor reaches the end of its one action.
fn passes_of<L: Ledger>(
    rt: &impl Abort,
    alloc: Global,
    dones: Vec<Done<L>>,
) -> Result<Vec<Pass<L>>, Fail> {
    let mut passes = Vec::new(alloc);
    for done in dones {
        assert_finished(rt, &done);
        passes.push(done.pass)?;
    }
    Ok(passes)
}

// The machine with its history, which is a merge of the passes' receipts.
pub(crate) fn settled<L: Ledger>(
    rt: &impl Abort,
    shared: Shared<L>,
    passes: Vec<Pass<L>>,
) -> Kept<Global> {
    match settle(shared, passes) {
        Ok(kept) => kept,
        Err(_) => panic!(rt; "the history is a merge"),
    }
}

// Asserts that the history has this many events.
pub(crate) fn assert_events(rt: &impl Abort, kept: &Kept<Global>, events: usize) {
    assert_eq!(rt; kept.history().len(), events);
}

// Returns the pages that are pooled in a partition.
fn pooled_in<'k>(rt: &impl Abort, kept: &'k Kept<Global>, part: u64) -> &'k PageSet<Global> {
    match kept.machine().tree().get(part) {
        Some(child) => child.pages(PageKind::Pooled),
        None => panic!(rt; "a partition was made"),
    }
}

// Asserts that exactly these pages are pooled in a partition.
pub(crate) fn assert_pooled(rt: &impl Abort, kept: &Kept<Global>, part: u64, pages: Range<u32>) {
    let pooled = pooled_in(rt, kept, part);
    assert_eq!(rt; pooled.count(), pages.len() as u64);
    for page in pages {
        assert!(rt; pooled.holds(page));
    }
}
