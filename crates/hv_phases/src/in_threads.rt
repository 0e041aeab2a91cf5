// The phases of a script, each processor of a phase in a thread of its own.
ghost use Rattle.std.specs.Prelude.{◌≡◌, ◌≤◌, ◌⊎◌, ℕ, All, Err, IfNone, IfOk, IfSome, OnErr, Some, false};
ghost use Rattle.std.specs.Prelude.{length, map, true, vec_len};
ghost use Rattle.hv_phases.specs.PassMap.{AreGoing, AreWithin, Each, HasBack, HasBegunBy, HasHanded, HasKey};
ghost use Rattle.hv_phases.specs.PassMap.{HasPass, HasRunAll, HasRunPart, HasRunWorks, HasWorkOf, HaveStayed};
ghost use Rattle.hv_phases.specs.PassMap.{IsAny, IsFresh, IsSame, IsWithin, back_of_done, back_of_work};
ghost use Rattle.hv_phases.specs.Turns.{AreNew};
ghost use Rattle.hv_phases.specs.declared.stop.Halt.TheVariants as halt;
ghost use Rattle.hv_policy.specs.declared.event.Caller.{Caller as CallerValue};
ghost use Rattle.hv_shared.specs.PassValue.{PassValue};
ghost use Rattle.hv_threads.specs.declared.phase.End.TheVariants.{Finished};

use crate::barrier::{counts_of, highest_above};
use crate::pass_map::{CallerMap, Runner, put_back, put_pass, take_pass};
use crate::schedule::turns_of;
use crate::stop::Halt;
use crate::turn::Turn;
use hv_script::Line;
use hv_threads::{Done, End, Gate, Shared, Work, run_phase};
use std::alloc::{AllocError, Global};
use std::sync::Wait;
use std::sync::ledger::Ledger;
use std::thread::Threads;

/// Runs the lines phase by phase, and returns why they didn't all run, if they didn't.
///
/// A thread that the host stops ends, and the others of its phase continue. No phase begins after one in
/// which a processor was stopped, or without memory for it.
pub fn run_in_threads<L: Ledger + Send + Sync, R: Threads + Wait + Sync, G: Gate>(
    rt: &R,
    gate: &G,
    shared: &Shared<L>,
    runners: &mut CallerMap<Runner<L>>,
    lines: Vec<Line<Global>>,
) -> Option<Halt>
    requires fresh { Each IsFresh runners.old }
    requires going { AreGoing runners.old }
    ensures whole { IfNone result (HasRunAll false lines.items runners.new) }
    ensures part { (result ≡ Some halt.Order → ⊥) → HasRunPart false lines.items runners.new }
    ensures begun { Each (HasBegunBy lines.items) runners.new }
    ensures stayed { HaveStayed runners.old runners.new }
{
    let mut left = lines;
    left.reverse();
    let mut last = 0;
    while let Some(first) = left.pop() {
        let Ok(turns) = turns_of(first, &mut left) else {
            return Some(Halt::Memory);
        };
        let Ok(works) = works_of(runners, turns) else {
            return Some(Halt::Memory);
        };
        match run_works(rt, gate, shared, runners, works, last) {
            Ok((now, true)) => last = now,
            Ok((_, false)) => return Some(Halt::Stopped),
            Err(halt) => return Some(halt),
        }
    }
    None
}

// Hands the turns of a phase to their processors, whose passes are taken out of the map. Returns their work,
// in order. It fails without memory, and for a processor without a pass; then all passes are back.
fn works_of<L: Ledger>(
    runners: &mut CallerMap<Runner<L>>,
    turns: Vec<Turn>,
) -> Result<Vec<Work<L>>, AllocError>
    requires own { Each (λ stop by pass. pass.caller ≡ by) runners.old }
    requires going { AreGoing runners.old }
    requires new { AreNew turns.items }
    ensures handed { IfOk result (λ works. HasHanded turns.items works.items runners.old runners.new) }
    ensures back { OnErr result ((by : CallerValue) → IsSame runners.old runners.new by) }
{
    let mut works = Vec::with_capacity(*turns.allocator(), turns.len())?;
    let mut left = turns;
    left.reverse();
    while let Some(turn) = left.pop() {
        let Turn { by, actions, .. } = turn;
        let Some(pass) = take_pass(runners, by) else {
            put_back(runners, works);
            return Err(AllocError);
        };
        works.push_reserved(Work { pass, actions });
    }
    Ok(works)
}

// Performs these works, each in a thread of its own. Returns the highest receipt number at the end of the
// phase, where `last` is the highest before it, and whether all processors go on. Otherwise there was no
// memory, or a receipt's number isn't above `last`.
fn run_works<L: Ledger + Send + Sync, R: Threads + Wait + Sync, G: Gate>(
    rt: &R,
    gate: &G,
    shared: &Shared<L>,
    runners: &mut CallerMap<Runner<L>>,
    works: Vec<Work<L>>,
    last: u64,
) -> Result<(u64, bool), Halt>
    requires keys { All (λ work. HasKey runners.old work.pass.caller) works.items }
    ensures rises { IfOk result (λ r. last ≤ r.0) }
    ensures ran { IfOk result (λ r. HasRunWorks (IsWithin last r.0) works.items runners.old runners.new) }
    ensures goes_on { IfOk result (λ r. r.1 ≡ true → AreGoing runners.old → AreGoing runners.new) }
    ensures any { result ≡ Err halt.Order → HasRunWorks IsAny works.items runners.old runners.new }
    ensures back { result ≡ Err halt.Memory → HasBack (map back_of_work works.items) runners.old runners.new }
    ensures stopped { result ≡ Err halt.Stopped → ⊥ }
    ensures stayed { (by : CallerValue) → HasPass runners.old by ⊎ HasWorkOf works.items by
        → HasPass runners.new by }
{
    let Ok(counts) = counts_of(*runners.allocator(), &works) else {
        put_back(runners, works);
        return Err(Halt::Memory);
    };
    match run_phase(rt, shared, gate, works) {
        Ok(dones) => match take_back(runners, dones, &counts, last) {
            Some(ended) => Ok(ended),
            None => Err(Halt::Order),
        },
        Err(refused) => {
            put_back(runners, refused.work);
            Err(Halt::Memory)
        }
    }
}

// Takes the outcomes back. Returns the highest receipt number after them, where `last` is the highest before
// them and `counts` has each pass's number of receipts then, and whether all of them finished. `None` means
// that a new number isn't above `last`.
fn take_back<L: Ledger>(
    runners: &mut CallerMap<Runner<L>>,
    dones: Vec<Done<L>>,
    counts: &[usize],
    last: u64,
) -> Option<(u64, bool)>
    requires counts { length counts.now ≡ vec_len dones }
    requires keys { All (λ done. HasKey runners.old done.pass.caller) dones.items }
    ensures back { HasBack (map back_of_done dones.items) runners.old runners.new }
    ensures rises { IfSome result (λ r. last ≤ r.0) }
    ensures within { IfSome result (λ r. AreWithin last r.0 counts.now dones.items) }
    ensures finished { IfSome result (λ r. r.1 ≡ true → All (λ done. done.end ≡ Finished) dones.items) }
{
    let mut left = dones;
    let mut now = last;
    let mut is_in_order = true;
    let mut goes_on = true;
    while let Some(done) = left.pop() {
        let Done { pass, end, .. } = done;
        match highest_above(pass.receipts(), counts[left.len()], last, now) {
            Some(number) => now = number,
            None => is_in_order = false,
        }
        let stop = match end {
            End::Finished => None,
            End::Host(why) => Some(why),
        };
        goes_on = goes_on && stop.is_none();
        put_pass(runners, pass, stop);
    }
    if is_in_order {
        Some((now, goes_on))
    } else {
        None
    }
}
