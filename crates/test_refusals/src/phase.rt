// A phase of two threads.

use crate::actions::{are_the_two, told_at, two_actions};
use crate::ended::{Fault, Refusal, must};
use crate::gate::Count;
use hv_history::HostRefused;
use hv_policy::{Action, Answer};
use hv_threads::{Done, End, Open, Pass, Shared, Work, run_phase};
use std::alloc::Global;
use std::sync::Wait;
use std::sync::ledger::Ledger;
use std::thread::Threads;

// Where a work was stopped: the place of its pass, and the number of its actions that reached their end.
#[derive(Clone, Copy)]
struct Stop {
    place: usize,
    done: u64,
}

// Two actions for each pass.
pub(crate) fn works_of<L: Ledger>(
    alloc: Global,
    passes: Vec<Pass<L>>,
) -> Result<Vec<Work<L>>, Fault> {
    let mut works = Vec::new(alloc);
    for pass in passes {
        let actions = two_actions(alloc)?;
        works.push(Work { pass, actions })?;
    }
    Ok(works)
}

// Performs the works in threads. No pass has a receipt before, and each has two after. If there is no memory
// for the phase, all work is returned unchanged and performed in another phase. If there is none for an
// event, its work is stopped, and the other reaches its end.
pub(crate) fn try_phase<L: Ledger + Send + Sync, R: Threads + Wait + Sync>(
    rt: &R,
    alloc: Global,
    shared: &Shared<L>,
    works: Vec<Work<L>>,
) -> Result<(Vec<Pass<L>>, Option<Refusal>), Fault> {
    let gate = Count::new();
    match run_phase(rt, shared, &gate, works) {
        Ok(dones) => go_on(rt, alloc, shared, &gate, dones),
        Err(refused) => {
            are_untouched(&refused.work)?;
            gate.must_have(0)?;
            begin_again(rt, alloc, shared, refused.work)
        }
    }
}

fn begin_again<L: Ledger + Send + Sync, R: Threads + Wait + Sync>(
    rt: &R,
    alloc: Global,
    shared: &Shared<L>,
    works: Vec<Work<L>>,
) -> Result<(Vec<Pass<L>>, Option<Refusal>), Fault> {
    let gate = Count::new();
    match run_phase(rt, shared, &gate, works) {
        Ok(dones) => {
            must(stop_in(&dones)?.is_none(), Fault::Stops)?;
            gate.must_have(4)?;
            Ok((passes_of(alloc, dones)?, Some(Refusal::Phase)))
        }
        Err(_) => Err(Fault::Again),
    }
}

// Whether the pass is the one of its place: processor 2 is first, and processor 3 second.
fn is_at<L: Ledger>(pass: &Pass<L>, place: usize) -> bool {
    pass.caller().vp == if place == 0 { 2 } else { 3 }
}

// Checks that both works are unchanged, in their order.
fn are_untouched<L: Ledger>(works: &[Work<L>]) -> Result<(), Fault> {
    must(works.len() == 2, Fault::Works)?;
    for (place, work) in works.iter().enumerate() {
        must(is_at(&work.pass, place), Fault::Works)?;
        must(work.pass.receipts().len() == 0, Fault::Works)?;
        must(are_the_two(&work.actions), Fault::Works)?;
    }
    Ok(())
}

// Whether a work was stopped. Each action that reached its end has a receipt.
fn is_stopped<L: Ledger>(done: &Done<L>) -> Result<bool, Fault> {
    must(
        done.pass.receipts().len() as u64 == done.done,
        Fault::Receipts,
    )?;
    match done.end {
        End::Finished => {
            must(done.done == 2, Fault::Stops)?;
            Ok(false)
        }
        End::Host(HostRefused::Memory) => {
            must(done.done < 2, Fault::Stops)?;
            Ok(true)
        }
        End::Host(HostRefused::HistoryFull) => Err(Fault::Reason),
    }
}

// Which of the two works was stopped, if one was.
fn stop_in<L: Ledger>(dones: &[Done<L>]) -> Result<Option<Stop>, Fault> {
    must(dones.len() == 2, Fault::Passes)?;
    let mut stop = None;
    for (place, done) in dones.iter().enumerate() {
        must(is_at(&done.pass, place), Fault::Passes)?;
        if is_stopped(done)? {
            must(stop.is_none(), Fault::Again)?;
            stop = Some(Stop {
                place,
                done: done.done,
            });
        }
    }
    Ok(stop)
}

fn passes_of<L: Ledger>(alloc: Global, dones: Vec<Done<L>>) -> Result<Vec<Pass<L>>, Fault> {
    let mut passes = Vec::new(alloc);
    for done in dones {
        passes.push(done.pass)?;
    }
    Ok(passes)
}

// Brings the work that was stopped, if one was, to its end.
fn go_on<L: Ledger, R: Wait>(
    rt: &R,
    alloc: Global,
    shared: &Shared<L>,
    gate: &Count,
    dones: Vec<Done<L>>,
) -> Result<(Vec<Pass<L>>, Option<Refusal>), Fault> {
    let stop = stop_in(&dones)?;
    let mut passes = passes_of(alloc, dones)?;
    match stop {
        Some(stop) => {
            let refusal = finish(rt, alloc, shared, gate, &mut passes, stop)?;
            Ok((passes, Some(refusal)))
        }
        None => {
            gate.must_have(4)?;
            Ok((passes, None))
        }
    }
}

fn finish<L: Ledger, R: Wait>(
    rt: &R,
    alloc: Global,
    shared: &Shared<L>,
    gate: &Count,
    passes: &mut [Pass<L>],
    stop: Stop,
) -> Result<Refusal, Fault> {
    let Some(pass) = passes.get_mut(stop.place) else {
        return Err(Fault::Passes);
    };
    gate.side_after(if stop.done == 0 { 2 } else { 3 })?;
    for (at, action) in two_actions(alloc)?.into_iter().enumerate() {
        if at as u64 >= stop.done {
            let is_done = match action {
                Action::Hypercall(frame) => shared.drive(rt, pass, &Open, frame).is_ok(),
                access => shared.call(rt, pass, &Open, access).is_ok(),
            };
            must(is_done, Fault::Again)?;
        }
    }
    must(pass.receipts().len() == 2, Fault::Receipts)?;
    Ok(Refusal::Work)
}

// Checks that each of the two processors got its partition's id, and then the register's value. Their events
// are the last four.
pub(crate) fn must_be_told<L: Ledger>(passes: &[Pass<L>]) -> Result<(), Fault> {
    must(passes.len() == 2, Fault::Passes)?;
    for (place, pass) in passes.iter().enumerate() {
        must(is_at(pass, place), Fault::Passes)?;
        let first = told_at(pass, 0, Answer::Served, &1u64.to_le_bytes())?;
        let second = told_at(pass, 1, Answer::Served, &[0; 8])?;
        let are_last = 44 < first && first < second && second < 49;
        must(are_last && pass.receipts().len() == 2, Fault::Receipt)?;
    }
    Ok(())
}
