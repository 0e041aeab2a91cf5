// Processors that work at the same time, in a phase and in a script.
ghost use Rattle.std.specs.Prelude.{◌≡◌};

use crate::calls::{
    OWN_ID, assert_events, boot, call, lock, open, pair, phase, root, settled, small, work,
};
use crate::gates::{Crowd, Handover, Meeting};
use hv_options::Options;
use hv_policy::{Action, Caller, Config};
use hv_run::{Exit, run_gated};
use hv_threads::{Gate, Pass, Work};
use std::alloc::{AllocError, Global};
use std::marker::Brand;
use std::process::Abort;
use std::sync::Wait;
use std::sync::atomic::{AtomicU64, Ordering};
use std::sync::ledger::{Blank, Ledger};
use std::test::Fail;
use std::thread::Threads;
use std::time::Clock;

const SCRIPT: &[u8] =
    b"boot 32 12 2 0x000000f700000044 9\n1.0 call 0x46 0 0 -\n1.1 call 0x46 0 0 -\n";

// Either processor's event may be the first.
const ZERO_FIRST: &[u8] = b"1 1.0 call 0000000000000046 ok 0000000000000000 0100000000000000
2 1.1 call 0000000000000046 ok 0000000000000000 0100000000000000
events 2
";

const ONE_FIRST: &[u8] = b"1 1.1 call 0000000000000046 ok 0000000000000000 0100000000000000
2 1.0 call 0000000000000046 ok 0000000000000000 0100000000000000
events 2
";

const IN_THREADS: Options<'static> = Options {
    script: "",
    serial: false,
    table: false,
};

fn assert_done(rt: &impl Abort, exit: Exit, out: &[u8], err: &[u8]) {
    assert_eq!(rt; exit, Exit::Done);
    assert_eq!(rt; err, b"".as_slice());
    assert!(rt; out == ZERO_FIRST || out == ONE_FIRST);
}

#[test]
fn scripts_overlap(rt: HostRuntime) -> Result<(), Fail> {
    let alloc = rt.alloc();
    let gate = Meeting::new(&rt);
    let mut out: Vec<u8> = Vec::new(alloc);
    let mut err: Vec<u8> = Vec::new(alloc);
    let exit = run_gated(&rt, alloc, SCRIPT, &IN_THREADS, &gate, &mut out, &mut err);
    gate.assert_in_time(&rt);
    assert_done(&rt, exit, &out, &err);
    Ok(())
}

const IN_ORDER: Options<'static> = Options {
    script: "",
    serial: true,
    table: false,
};

// Counts the holds of the lock, before and after each.
#[derive(Drop)]
struct Holds {
    entered: AtomicU64,
    left: AtomicU64,
}

impl Gate for Holds {
    fn enter<R: Wait>(&self, _rt: &R, _by: Caller, _turn: u64) {
        self.entered.fetch_add(1, Ordering::SeqCst);
    }

    fn leave<R: Wait>(&self, _rt: &R, _by: Caller, _turn: u64) {
        self.left.fetch_add(1, Ordering::SeqCst);
    }
}

// A serial run calls the gate around each hold, too.
#[test]
fn a_serial_run_has_its_gate(rt: HostRuntime) -> Result<(), Fail> {
    let alloc = rt.alloc();
    let gate = Holds {
        entered: AtomicU64::new(0),
        left: AtomicU64::new(0),
    };
    let mut out: Vec<u8> = Vec::new(alloc);
    let mut err: Vec<u8> = Vec::new(alloc);
    let exit = run_gated(&rt, alloc, SCRIPT, &IN_ORDER, &gate, &mut out, &mut err);
    assert_eq!(rt;
        (exit, out.as_slice(), err.as_slice()),
        (Exit::Done, ZERO_FIRST, b"".as_slice())
    );
    assert_eq!(rt; gate.entered.load(Ordering::SeqCst), 2);
    assert_eq!(rt; gate.left.load(Ordering::SeqCst), 2);
    Ok(())
}

const ONE_EVENT: &[u8] =
    b"boot 32 12 2 0x000000f700000044 1\n1.0 call 0x46 0 0 -\n1.1 call 0x46 0 0 -\n";

const OF_ZERO: &[u8] = b"1 1.0 call 0000000000000046 ok 0000000000000000 0100000000000000
events 1
";

const OF_ONE: &[u8] = b"1 1.1 call 0000000000000046 ok 0000000000000000 0100000000000000
events 1
";

fn assert_full(rt: &impl Abort, exit: Exit, out: &[u8], err: &[u8]) {
    assert_eq!(rt; exit, Exit::Host);
    assert_eq!(rt; err, b"hvpm: history full\n".as_slice());
    assert!(rt; out == OF_ZERO || out == OF_ONE);
}

// Both processors ask at once, and the history has room for one event.
#[test]
fn scripts_fill(rt: HostRuntime) -> Result<(), Fail> {
    let alloc = rt.alloc();
    let gate = Meeting::new(&rt);
    let mut out: Vec<u8> = Vec::new(alloc);
    let mut err: Vec<u8> = Vec::new(alloc);
    let exit = run_gated(
        &rt,
        alloc,
        ONE_EVENT,
        &IN_THREADS,
        &gate,
        &mut out,
        &mut err,
    );
    gate.assert_in_time(&rt);
    assert_full(&rt, exit, &out, &err);
    Ok(())
}

// A phase in which each processor has one action.
fn ask_both<L: Ledger + Send + Sync, R: Abort + Threads + Wait + Sync, G: Gate>(
    rt: &R,
    alloc: Global,
    blank: Blank,
    gate: &G,
    actions: (Action<Global>, Action<Global>),
) -> Result<(), Fail>
    requires { (blank.name ≡ L.name) × (blank.parts ≡ L.parts) × (blank.parts ≡ 2) }
{
    let (shared, first, second) = open::<L>(rt, alloc, blank, small(), 9)?;
    let works = pair(alloc, (first, actions.0), (second, actions.1))?;
    let passes = phase(rt, alloc, &shared, gate, works)?;
    assert_events(rt, &settled(rt, shared, passes), 2);
    Ok(())
}

// Each asks for its own id.
fn own_ids(alloc: Global) -> (Action<Global>, Action<Global>) {
    (own_id(alloc), own_id(alloc))
}

fn own_id(alloc: Global) -> Action<Global> {
    Action::Hypercall(call(OWN_ID, Vec::new(alloc)))
}

#[test]
fn phases_overlap(rt: HostRuntime) -> Result<(), Fail> {
    let gate = Meeting::new(&rt);
    ask_both::<Brand, HostRuntime, Meeting<'_, HostRuntime>>(
        &rt,
        rt.alloc(),
        Blank::new(2),
        &gate,
        own_ids(rt.alloc()),
    )?;
    gate.assert_in_time(&rt);
    Ok(())
}

// The lock is free when a gate's `leave` is called.
#[test]
fn leaves_the_lock_first(rt: HostRuntime) -> Result<(), Fail> {
    let gate = Handover::new(&rt);
    ask_both::<Brand, HostRuntime, Handover<'_, HostRuntime>>(
        &rt,
        rt.alloc(),
        Blank::new(2),
        &gate,
        own_ids(rt.alloc()),
    )?;
    gate.assert_in_time(&rt);
    Ok(())
}

// Accesses take the lock in a different function from hypercalls.
#[test]
fn an_access_leaves_the_lock_first(rt: HostRuntime) -> Result<(), Fail> {
    let gate = Handover::new(&rt);
    ask_both::<Brand, HostRuntime, Handover<'_, HostRuntime>>(
        &rt,
        rt.alloc(),
        Blank::new(2),
        &gate,
        (Action::TakeInterrupt, Action::TakeInterrupt),
    )?;
    gate.assert_in_time(&rt);
    Ok(())
}

// The most processors that a phase of a script may have.
const MOST: u32 = 64;

fn all_callers(alloc: Global) -> Result<Vec<Caller>, AllocError> {
    let mut callers = Vec::new(alloc);
    for vp in 0..MOST {
        callers.push(root(vp))?;
    }
    Ok(callers)
}

// Each processor asks for its own id.
fn asks_of<L: Ledger>(alloc: Global, passes: Vec<Pass<L>>) -> Result<Vec<Work<L>>, Fail> {
    let mut works = Vec::new(alloc);
    for pass in passes {
        works.push(work(alloc, pass, own_id(alloc))?)?;
    }
    Ok(works)
}

fn ask_all<L: Ledger + Send + Sync, R: Abort + Clock + Threads + Wait + Sync>(
    rt: &R,
    alloc: Global,
    blank: Blank,
) -> Result<(), Fail>
    requires { (blank.name ≡ L.name) × (blank.parts ≡ L.parts) × (blank.parts ≡ 64) }
{
    let callers = all_callers(alloc)?;
    assert!(rt; callers.len() == 64);
    let config = Config {
        pages: 256,
        pool: 256,
        vps: MOST,
        ..small()
    };
    let kept = boot(alloc, config, MOST)?;
    let (shared, passes) = lock::<L>(rt, kept, blank, callers);
    let gate = Crowd::new(rt, 64);
    let passes = phase(rt, alloc, &shared, &gate, asks_of(alloc, passes)?)?;
    gate.assert_in_time(rt);
    assert_events(rt, &settled(rt, shared, passes), 64);
    Ok(())
}

// Each processor of a phase has its own thread: all of them wait at the gate at once.
#[test]
fn a_phase_has_a_thread_for_each(rt: HostRuntime) -> Result<(), Fail> {
    ask_all::<Brand, HostRuntime>(&rt, rt.alloc(), Blank::new(64))
}
