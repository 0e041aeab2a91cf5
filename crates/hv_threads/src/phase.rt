// Many threads, each with a pass.
ghost use Rattle.std.specs.Prelude.{◌≡◌, ◌<◌, ◌≤◌, ◌+◌, [], ℕ, IfOk, IfErr, length, vec_len, vec_capacity};
ghost use Rattle.std.specs.Prelude.{slice_index_or, map, reverse};
ghost use Rattle.hv_threads.specs.Phase.{IsDoneAt, EachDone, done_of};
ghost use Rattle.hv_threads.specs.declared.phase.Task.{Task};

use crate::action::Driver;
use hv_history::HostRefused;
use hv_policy::Action;
use hv_shared::{Gate, Pass, Shared};
use std::alloc::Global;
use std::sync::Wait;
use std::sync::ledger::Ledger;
use std::thread;
use std::thread::Threads;

/// The work of one thread: its pass, and its actions in order.
#[derive(Drop)]
pub struct Work<L: Ledger> {
    pub pass: Pass<L>,
    pub actions: Vec<Action<Global>>,
}

/// How a thread's work ended.
#[derive(Clone, Copy, PartialEq, Eq, Debug)]
pub enum End {
    /// Every action was performed to its end.
    Finished,
    /// The host refused an event.
    Host(HostRefused),
}

/// The outcome of one thread: the pass with its receipts, and the number of actions that came to their end.
#[derive(Drop)]
pub struct Done<L: Ledger> {
    pub pass: Pass<L>,
    pub done: u64,
    pub end: End,
}

/// The work that was not begun, for lack of memory.
#[derive(Drop)]
pub struct PhaseRefused<L: Ledger> {
    pub work: Vec<Work<L>>,
}

// A work in progress. Threads work on a slice of tasks, which stay in place, so no pass can be lost.
#[derive(Drop)]
struct Task<L: Ledger> {
    work: Work<L>,
    // The number of actions that came to their end.
    done: u64,
    end: End,
}

// Performs the actions in order, up to the first that the host refuses.
#[tactic(auto, using(crate::proofs::WorkSteps::goes_on))]
fn run_work<L: Ledger, R: Wait, G: Gate>(rt: &R, shared: &Shared<L>, gate: &G, task: &mut Task<L>)
    ensures { IsDoneAt task.old task.new }
{
    let Task { work, done, end } = task;
    let Work { pass, actions } = work;
    let driver = Driver { rt, shared, gate };
    *done = 0;
    actions.reverse();
    while let Some(action) = actions.pop() {
        if let Err(why) = driver.drive(pass, action) {
            *end = End::Host(why);
            return;
        }
        *done += 1;
    }
    *end = End::Finished;
}

// A task for each work, the last work first.
fn tasks_of<L: Ledger>(works: Vec<Work<L>>, tasks: &mut Vec<Task<L>>)
    requires { (tasks.old.items ≡ []) × (vec_len works ≤ vec_capacity tasks.old) }
    ensures { works.items ≡ map (λ s. s.work) (reverse tasks.new.items) }
{
    let mut works = works;
    while let Some(work) = works.pop() {
        tasks.push_reserved(Task {
            work,
            done: 0,
            end: End::Finished,
        });
    }
}

// Adds the outcome of each task, the last one first.
fn dones_of<L: Ledger>(tasks: Vec<Task<L>>, dones: &mut Vec<Done<L>>)
    requires { (dones.old.items ≡ []) × (vec_len tasks ≤ vec_capacity dones.old) }
    ensures { dones.new.items ≡ map done_of (reverse tasks.items) }
{
    let mut tasks = tasks;
    while let Some(task) = tasks.pop() {
        let Task { work, done, end } = task;
        let pass = work.pass;
        dones.push_reserved(Done { pass, done, end });
    }
}

/// Runs each work in a thread of its own, and returns the outcomes in order.
///
/// If the system has no thread to give, a work runs after another. A thread stops at the first event that the
/// host refuses; the others continue. Out of memory, all work comes back, and no thread was started.
pub fn run_phase<L: Ledger + Send + Sync, R: Threads + Wait + Sync, G: Gate>(
    rt: &R,
    shared: &Shared<L>,
    gate: &G,
    works: Vec<Work<L>>,
) -> Result<Vec<Done<L>>, PhaseRefused<L>>
    ensures done { IfOk result (λ dones. EachDone works.items dones.items) }
    ensures refused { IfErr result (λ e. e.work ≡ works) }
{
    let alloc = *works.allocator();
    let mut tasks = Vec::new(alloc);
    let mut dones = Vec::new(alloc);
    if tasks.reserve(works.len()).is_err() || dones.reserve(works.len()).is_err() {
        return Err(PhaseRefused { work: works });
    }
    tasks_of(works, &mut tasks);
    run_tasks(rt, shared, gate, tasks.as_mut_slice());
    dones_of(tasks, &mut dones);
    Ok(dones)
}

// Runs the tasks, each in a thread of its own.
fn run_tasks<L: Ledger + Send + Sync, R: Threads + Wait + Sync, G: Gate>(
    rt: &R,
    shared: &Shared<L>,
    gate: &G,
    tasks: &mut [Task<L>],
)
    ensures { (i : ℕ) (d : Task L) → i < length tasks.old
        → IsDoneAt (slice_index_or tasks.old i d) (slice_index_or tasks.new i d) }
{
    let count = tasks.len().max(1);
    let one = |_: usize, task: &mut Task<L>|
        ensures { IsDoneAt task.entry.now task.exit.now }
    { run_work(rt, shared, gate, task) };
    thread::for_each_mut(rt, tasks, count, &one);
}
