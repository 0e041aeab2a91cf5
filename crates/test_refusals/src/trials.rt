// All trials, one after another: those of the words of a command line, and then all others in one lock.
ghost use Rattle.std.specs.Prelude.{◌≡◌, [], IfErr, IfOk, vec_len};

use crate::elements::{try_drive, try_reserve};
use crate::ended::{Ended, Fault, Refusal, must};
use crate::phase::{must_be_told, try_phase, works_of};
use crate::single::{try_call, try_denials};
use crate::words::try_words;
use hv_history::Kept;
use hv_policy::{Caller, Config};
use hv_privs::Privileges;
use hv_threads::{Pass, Shared, settle};
use std::alloc::Global;
use std::marker::Brand;
use std::sync::Wait;
use std::sync::ledger::{Blank, Ledger};
use std::thread::Threads;

// Four processors for the root, and pages for one partition in its pool.
fn config() -> Config {
    Config {
        pages: 32,
        pool: 18,
        vps: 4,
        mask: Privileges::of(0xF7_0000_0044),
    }
}

const LIMIT: u32 = 1000;

// A processor of the root.
fn root(vp: u32) -> Caller {
    Caller { part: 1, vp }
}

pub(crate) fn try_all<R: Threads + Wait + Sync>(rt: &R, alloc: Global) -> Result<Ended, Fault> {
    let in_words = try_words(alloc)?;
    let ended = try_locks(rt, alloc)?;
    Ok(Ended {
        kept: ended.kept,
        refusal: in_words.or(ended.refusal),
    })
}

// Boots a machine and makes all trials. If there is no memory for a lock around it, the machine is returned
// unchanged, and goes into another lock.
fn try_locks<R: Threads + Wait + Sync>(rt: &R, alloc: Global) -> Result<Ended, Fault> {
    let kept = Kept::boot(alloc, config(), LIMIT)?;
    match in_a_lock(rt, alloc, kept)? {
        Ok(ended) => Ok(ended),
        Err(kept) => {
            is_as_booted(&kept)?;
            in_another_lock(rt, alloc, kept)
        }
    }
}

fn is_as_booted(kept: &Kept<Global>) -> Result<(), Fault> {
    let is_same = kept.config() == config() && kept.limit() == LIMIT;
    let machine = kept.machine();
    let is_new = machine.served() == 0 && machine.next_id() == 2 && kept.history().len() == 0;
    must(is_same && is_new, Fault::Machine)
}

fn in_another_lock<R: Threads + Wait + Sync>(
    rt: &R,
    alloc: Global,
    kept: Kept<Global>,
) -> Result<Ended, Fault>
    requires { kept.history ≡ [] }
{
    match in_a_lock(rt, alloc, kept)? {
        Ok(ended) => Ok(Ended {
            kept: ended.kept,
            refusal: Some(Refusal::New),
        }),
        Err(_) => Err(Fault::Again),
    }
}

// Makes all trials in a lock around this machine, which is returned if there is no memory for a lock.
fn in_a_lock<R: Threads + Wait + Sync>(
    rt: &R,
    alloc: Global,
    kept: Kept<Global>,
) -> Result<Result<Ended, Kept<Global>>, Fault>
    requires { kept.history ≡ [] }
    ensures { IfOk result (λ told. IfErr told (λ back. back ≡ kept)) }
{
    let callers = vec![in alloc; root(0), root(1), root(2), root(3)]?;
    in_lock_of::<Brand, R>(rt, alloc, kept, Blank::new(4), callers)
}

fn in_lock_of<L: Ledger + Send + Sync, R: Threads + Wait + Sync>(
    rt: &R,
    alloc: Global,
    kept: Kept<Global>,
    blank: Blank,
    callers: Vec<Caller>,
) -> Result<Result<Ended, Kept<Global>>, Fault>
    requires empty { kept.history ≡ [] }
    requires ledger { (blank.name ≡ L.name) × (blank.parts ≡ L.parts) × (blank.parts ≡ 4) }
    requires callers { vec_len callers ≡ 4 }
    ensures { IfOk result (λ told. IfErr told (λ back. back ≡ kept)) }
{
    match Shared::<L>::new(kept, blank, callers) {
        Ok((shared, passes)) => Ok(Ok(try_in(rt, alloc, shared, passes)?)),
        Err(kept) => Ok(Err(kept)),
    }
}

// Calls of processors 0 and 1, then a phase of processors 2 and 3, which have no receipts before, and the
// settlement of all.
fn try_in<L: Ledger + Send + Sync, R: Threads + Wait + Sync>(
    rt: &R,
    alloc: Global,
    shared: Shared<L>,
    passes: Vec<Pass<L>>,
) -> Result<Ended, Fault> {
    let mut passes = passes;
    let in_call = try_calls(rt, alloc, &shared, &mut passes)?;
    let works = works_of(alloc, later_two(&mut passes)?)?;
    let (mut later, in_phase) = try_phase(rt, alloc, &shared, works)?;
    must_be_told(&later)?;
    passes.append(&mut later)?;
    match settle(shared, passes) {
        Ok(kept) => Ok(Ended {
            kept,
            refusal: in_call.or(in_phase),
        }),
        Err(_) => Err(Fault::Merge),
    }
}

// Takes the passes of the third and the fourth caller.
fn later_two<L: Ledger>(passes: &mut Vec<Pass<L>>) -> Result<Vec<Pass<L>>, Fault> {
    if passes.len() != 4 {
        return Err(Fault::Passes);
    }
    Ok(passes.split_off(2)?)
}

fn try_calls<L: Ledger, R: Wait>(
    rt: &R,
    alloc: Global,
    shared: &Shared<L>,
    passes: &mut [Pass<L>],
) -> Result<Option<Refusal>, Fault> {
    let [first, second, ..] = passes else {
        return Err(Fault::Passes);
    };
    let call = try_call(rt, alloc, shared, first)?;
    let denial = try_denials(rt, alloc, shared, second)?;
    let drive = try_drive(rt, alloc, shared, first)?;
    let reserve = try_reserve(first)?;
    Ok(call.or(denial).or(drive).or(reserve))
}
