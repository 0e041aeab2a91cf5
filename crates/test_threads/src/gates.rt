// Gates: some make the root's processors wait for one another, up to a timeout, and one records its turns.

use hv_policy::Caller;
use hv_threads::Gate;
use std::process::Abort;
use std::sync::Wait;
use std::sync::atomic::{AtomicBool, AtomicU64, Ordering};
use std::thread;
use std::time::{Clock, Duration};

// The most looks of a thread that waits, and the pause after each look.
const MOST_LOOKS: u32 = 10_000;

const PAUSE_MILLIS: u64 = 1;

// Waits until the flag is raised. After about ten seconds, it gives up and records that it was late. If
// another thread was late, it does not wait.
fn wait_for(clock: &impl Clock, flag: &AtomicBool, late: &AtomicBool) {
    for _ in 0..MOST_LOOKS {
        if flag.load(Ordering::SeqCst) || late.load(Ordering::SeqCst) {
            return;
        }
        thread::sleep(clock, Duration::from_millis(PAUSE_MILLIS));
    }
    late.store(true, Ordering::SeqCst);
}

// Lets neither processor begin its first event before the other has arrived.
#[derive(Drop)]
pub(crate) struct Meeting<'a, C: Clock + Sync> {
    clock: &'a C,
    zero: AtomicBool,
    one: AtomicBool,
    late: AtomicBool,
}

impl<'a, C: Clock + Sync> Meeting<'a, C> {
    pub(crate) fn new(clock: &'a C) -> Meeting<'a, C> {
        Meeting {
            clock,
            zero: AtomicBool::new(false),
            one: AtomicBool::new(false),
            late: AtomicBool::new(false),
        }
    }

    // Asserts that each processor arrived in time.
    pub(crate) fn assert_in_time(&self, rt: &impl Abort) {
        assert!(rt; !self.late.load(Ordering::SeqCst));
    }
}

impl<'a, C: Clock + Sync> Gate for Meeting<'a, C> {
    fn enter<R: Wait>(&self, _rt: &R, by: Caller, turn: u64) {
        if turn == 0 {
            let (own, other) = if by.vp == 0 {
                (&self.zero, &self.one)
            } else {
                (&self.one, &self.zero)
            };
            own.store(true, Ordering::SeqCst);
            wait_for(self.clock, other, &self.late);
        }
    }

    fn leave<R: Wait>(&self, _rt: &R, _by: Caller, _turn: u64) {}
}

// Lets no processor begin its first event before all of them have arrived.
#[derive(Drop)]
pub(crate) struct Crowd<'a, C: Clock + Sync> {
    clock: &'a C,
    all: u64,
    there: AtomicU64,
    late: AtomicBool,
}

impl<'a, C: Clock + Sync> Crowd<'a, C> {
    pub(crate) fn new(clock: &'a C, all: u64) -> Crowd<'a, C> {
        Crowd {
            clock,
            all,
            there: AtomicU64::new(0),
            late: AtomicBool::new(false),
        }
    }

    // Asserts that each processor arrived in time.
    pub(crate) fn assert_in_time(&self, rt: &impl Abort) {
        assert!(rt; !self.late.load(Ordering::SeqCst));
    }
}

impl<'a, C: Clock + Sync> Gate for Crowd<'a, C> {
    fn enter<R: Wait>(&self, _rt: &R, _by: Caller, turn: u64) {
        if turn > 0 {
            return;
        }
        self.there.fetch_add(1, Ordering::SeqCst);
        for _ in 0..MOST_LOOKS {
            let are_there = self.there.load(Ordering::SeqCst) >= self.all;
            if are_there || self.late.load(Ordering::SeqCst) {
                return;
            }
            thread::sleep(self.clock, Duration::from_millis(PAUSE_MILLIS));
        }
        self.late.store(true, Ordering::SeqCst);
    }

    fn leave<R: Wait>(&self, _rt: &R, _by: Caller, _turn: u64) {}
}

// Delays processor 0 until processor 1 reaches its turn 16, and then processor 1 until processor 0 has a
// receipt.
#[derive(Drop)]
pub(crate) struct Halt<'a, C: Clock + Sync> {
    clock: &'a C,
    sixteen: AtomicBool,
    done: AtomicBool,
    late: AtomicBool,
}

impl<'a, C: Clock + Sync> Halt<'a, C> {
    pub(crate) fn new(clock: &'a C) -> Halt<'a, C> {
        Halt {
            clock,
            sixteen: AtomicBool::new(false),
            done: AtomicBool::new(false),
            late: AtomicBool::new(false),
        }
    }

    // Asserts that each processor came so far in time.
    pub(crate) fn assert_in_time(&self, rt: &impl Abort) {
        assert!(rt; !self.late.load(Ordering::SeqCst));
    }
}

impl<'a, C: Clock + Sync> Gate for Halt<'a, C> {
    fn enter<R: Wait>(&self, _rt: &R, by: Caller, turn: u64) {
        if by.vp == 0 {
            wait_for(self.clock, &self.sixteen, &self.late);
        } else if turn == 16 {
            self.sixteen.store(true, Ordering::SeqCst);
            wait_for(self.clock, &self.done, &self.late);
        }
    }

    fn leave<R: Wait>(&self, _rt: &R, by: Caller, _turn: u64) {
        if by.vp == 0 {
            self.done.store(true, Ordering::SeqCst);
        }
    }
}

// Delays processor 0 after its hold until processor 1 has had one. Processor 1 does not begin its own hold
// before that. So each arrives in time only if the lock is free when `leave` is called.
#[derive(Drop)]
pub(crate) struct Handover<'a, C: Clock + Sync> {
    clock: &'a C,
    zero: AtomicBool,
    one: AtomicBool,
    late: AtomicBool,
}

impl<'a, C: Clock + Sync> Handover<'a, C> {
    pub(crate) fn new(clock: &'a C) -> Handover<'a, C> {
        Handover {
            clock,
            zero: AtomicBool::new(false),
            one: AtomicBool::new(false),
            late: AtomicBool::new(false),
        }
    }

    // Asserts that each processor arrived in time.
    pub(crate) fn assert_in_time(&self, rt: &impl Abort) {
        assert!(rt; !self.late.load(Ordering::SeqCst));
    }
}

impl<'a, C: Clock + Sync> Gate for Handover<'a, C> {
    fn enter<R: Wait>(&self, _rt: &R, by: Caller, _turn: u64) {
        if by.vp == 1 {
            wait_for(self.clock, &self.zero, &self.late);
        }
    }

    fn leave<R: Wait>(&self, _rt: &R, by: Caller, _turn: u64) {
        if by.vp == 0 {
            self.zero.store(true, Ordering::SeqCst);
            wait_for(self.clock, &self.one, &self.late);
        } else {
            self.one.store(true, Ordering::SeqCst);
        }
    }
}

// Makes the processors' holds alternate, starting with processor 0.
#[derive(Drop)]
pub(crate) struct Alternation<'a, C: Clock + Sync> {
    clock: &'a C,
    // The number of holds that are over.
    over: AtomicU64,
    late: AtomicBool,
}

impl<'a, C: Clock + Sync> Alternation<'a, C> {
    pub(crate) fn new(clock: &'a C) -> Alternation<'a, C> {
        Alternation {
            clock,
            over: AtomicU64::new(0),
            late: AtomicBool::new(false),
        }
    }

    // Asserts that each processor arrived in time.
    pub(crate) fn assert_in_time(&self, rt: &impl Abort) {
        assert!(rt; !self.late.load(Ordering::SeqCst));
    }
}

impl<'a, C: Clock + Sync> Gate for Alternation<'a, C> {
    fn enter<R: Wait>(&self, _rt: &R, by: Caller, _turn: u64) {
        for _ in 0..MOST_LOOKS {
            let is_next = self.over.load(Ordering::SeqCst) % 2 == u64::from(by.vp);
            if is_next || self.late.load(Ordering::SeqCst) {
                return;
            }
            thread::sleep(self.clock, Duration::from_millis(PAUSE_MILLIS));
        }
        self.late.store(true, Ordering::SeqCst);
    }

    fn leave<R: Wait>(&self, _rt: &R, _by: Caller, _turn: u64) {
        self.over.fetch_add(1, Ordering::SeqCst);
    }
}

// Records the turns of its calls, each plus one as two decimal digits, latest last.
#[derive(Drop)]
pub(crate) struct Notes {
    entered: AtomicU64,
    left: AtomicU64,
}

impl Notes {
    pub(crate) fn new() -> Notes {
        Notes {
            entered: AtomicU64::new(0),
            left: AtomicU64::new(0),
        }
    }

    // Asserts that it was called for both ends of each of these holds.
    pub(crate) fn assert_told(&self, rt: &impl Abort, turns: u64) {
        assert_eq!(rt; self.entered.load(Ordering::SeqCst), turns);
        assert_eq!(rt; self.left.load(Ordering::SeqCst), turns);
    }
}

fn note(turns: &AtomicU64, turn: u64) {
    let before = turns.load(Ordering::SeqCst);
    let after = before.wrapping_mul(100).wrapping_add(turn).wrapping_add(1);
    turns.store(after, Ordering::SeqCst);
}

impl Gate for Notes {
    fn enter<R: Wait>(&self, _rt: &R, _by: Caller, turn: u64) {
        note(&self.entered, turn);
    }

    fn leave<R: Wait>(&self, _rt: &R, _by: Caller, turn: u64) {
        note(&self.left, turn);
    }
}

// Records the callers of its calls, each as ten times its partition plus its processor, as [`Notes`] records
// turns.
#[derive(Drop)]
pub(crate) struct Names {
    entered: AtomicU64,
    left: AtomicU64,
}

impl Names {
    pub(crate) fn new() -> Names {
        Names {
            entered: AtomicU64::new(0),
            left: AtomicU64::new(0),
        }
    }

    // Asserts that it was called for both ends of the holds of these callers.
    pub(crate) fn assert_told(&self, rt: &impl Abort, callers: u64) {
        assert_eq!(rt; self.entered.load(Ordering::SeqCst), callers);
        assert_eq!(rt; self.left.load(Ordering::SeqCst), callers);
    }
}

fn name(callers: &AtomicU64, by: Caller) {
    note(
        callers,
        by.part.wrapping_mul(10).wrapping_add(u64::from(by.vp)),
    );
}

impl Gate for Names {
    fn enter<R: Wait>(&self, _rt: &R, by: Caller, _turn: u64) {
        name(&self.entered, by);
    }

    fn leave<R: Wait>(&self, _rt: &R, by: Caller, _turn: u64) {
        name(&self.left, by);
    }
}
