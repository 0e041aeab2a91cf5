// The processors of a script and their passes, while the lines run.
ghost use Rattle.std.specs.Prelude.{◌≡◌, ◌+◌, ◌<◌, ◌≤◌, [], ℕ, All, IfOk, OnErr, OnOk, length, None, vec_len};
ghost use Rattle.std.specs.Prelude.{map, vec_capacity};
ghost use Rattle.hv_phases.specs.PassMap.{AreGoing, Each, HasAdded, HasBack, HasKey, HasPass, HaveLeft};
ghost use Rattle.hv_phases.specs.PassMap.{IsFresh, IsSame, back_of_work, key_of, pass_at, stop_at};
ghost use Rattle.hv_policy.specs.declared.event.Caller.{Caller as CallerValue};
ghost use Rattle.hv_shared.specs.ByCaller.{AreDifferent};
ghost use Rattle.indexmap.specs.IndexMap.{spare};

use hv_history::HostRefused;
use hv_policy::Caller;
use hv_threads::{Pass, Work};
use indexmap::IndexMap;
use std::alloc::{AllocError, Global};
use std::sync::ledger::Ledger;

/// A processor of a script.
#[derive(Drop)]
pub struct Runner<L: Ledger> {
    /// Its pass, unless a thread has it.
    pub pass: Option<Pass<L>>,
    /// Why the host stopped it, if it did.
    pub stop: Option<HostRefused>,
}

/// What each processor has, by its partition and its index there.
pub type CallerMap<T> = IndexMap<(u64, u32), T>;

/// The key of a processor.
pub fn key_of(by: Caller) -> (u64, u32)
    ensures { result ≡ key_of by }
{
    (by.part, by.vp)
}

/// Moves these passes out of their list into a map, or leaves all of them there.
pub fn pass_map_of<L: Ledger>(passes: &mut Vec<Pass<L>>) -> Result<CallerMap<Runner<L>>, AllocError>
    requires empty { All (λ pass. pass.receipts ≡ []) passes.old.items }
    requires none { All (λ pass. pass.share ≡ 0) passes.old.items }
    ensures fresh { IfOk result (Each IsFresh) }
    ensures going { IfOk result AreGoing }
    ensures all { IfOk result (λ runners. All (λ pass. HasPass runners pass.caller) passes.old.items) }
    ensures moved { OnOk result (passes.new.items ≡ []) }
    ensures room { OnOk result (vec_len passes.old ≤ vec_capacity passes.new) }
    ensures kept { OnErr result (passes.new ≡ passes.old) }
{
    let mut runners = IndexMap::with_capacity(*passes.allocator(), passes.len())?;
    while let Some(pass) = passes.pop() {
        add(&mut runners, pass);
    }
    Ok(runners)
}

// Adds a processor with a new pass to the map, which has room for it.
fn add<L: Ledger>(runners: &mut CallerMap<Runner<L>>, pass: Pass<L>)
    requires { 0 < spare runners.old }
    ensures added { HasAdded pass runners.old runners.new }
    ensures room { spare runners.old ≤ spare runners.new + 1 }
{
    let key = key_of(pass.caller());
    let runner = Runner {
        pass: Some(pass),
        stop: None,
    };
    let Ok(_) = runners.insert(key, runner) else {
        unreachable!()
    };
}

/// Takes a processor's pass out of the map, if it is there.
pub fn take_pass<L: Ledger>(runners: &mut CallerMap<Runner<L>>, by: Caller) -> Option<Pass<L>>
    ensures value { result ≡ pass_at runners.old by }
    ensures out { pass_at runners.new by ≡ None }
    ensures others { (other : CallerValue) → (other ≡ by → ⊥)
        → pass_at runners.new other ≡ pass_at runners.old other }
    ensures stops { (other : CallerValue) → stop_at runners.new other ≡ stop_at runners.old other }
    ensures keys { (other : CallerValue) → HasKey runners.old other → HasKey runners.new other }
{
    match runners.get_mut(&key_of(by)) {
        Some(runner) => take_from(runner),
        None => None,
    }
}

// Takes the pass from its processor.
fn take_from<L: Ledger>(runner: &mut Runner<L>) -> Option<Pass<L>>
    ensures value { result ≡ runner.old.pass }
    ensures out { runner.new.pass ≡ None }
    ensures stop { runner.new.stop ≡ runner.old.stop }
{
    runner.pass.take()
}

/// Puts a pass back into the map, with why the host stopped its processor, if it did.
pub fn put_pass<L: Ledger>(
    runners: &mut CallerMap<Runner<L>>,
    pass: Pass<L>,
    stop: Option<HostRefused>,
)
    requires { HasKey runners.old pass.caller }
    ensures own { (pass_at runners.new pass.caller ≡ Some pass) × (stop_at runners.new pass.caller ≡ stop) }
    ensures others { (other : CallerValue) → (other ≡ pass.caller → ⊥)
        → IsSame runners.old runners.new other }
    ensures keys { (other : CallerValue) → HasKey runners.old other → HasKey runners.new other }
{
    let key = key_of(pass.caller());
    let Some(runner) = runners.get_mut(&key) else {
        unreachable!()
    };
    give_to(runner, pass, stop);
}

// Gives a pass to its processor.
fn give_to<L: Ledger>(runner: &mut Runner<L>, pass: Pass<L>, stop: Option<HostRefused>)
    ensures pass { runner.new.pass ≡ Some pass }
    ensures stop { runner.new.stop ≡ stop }
{
    runner.pass = Some(pass);
    runner.stop = stop;
}

/// Puts the passes of works that no thread has begun back into the map.
pub fn put_back<L: Ledger>(runners: &mut CallerMap<Runner<L>>, works: Vec<Work<L>>)
    requires { All (λ work. HasKey runners.old work.pass.caller) works.items }
    ensures { HasBack (map back_of_work works.items) runners.old runners.new }
{
    let mut left = works;
    while let Some(work) = left.pop() {
        put_pass(runners, work.pass, None);
    }
}

/// Moves the passes of these processors out of the map, in the processors' order.
pub fn leave<L: Ledger>(
    runners: CallerMap<Runner<L>>,
    callers: &[Caller],
    passes: &mut Vec<Pass<L>>,
)
    requires different { AreDifferent callers.now }
    requires there { All (HasPass runners) callers.now }
    requires empty { passes.old.items ≡ [] }
    requires room { length callers.now ≤ vec_capacity passes.old }
    ensures { HaveLeft runners callers.now passes.new.items }
{
    let mut runners = runners;
    for at in 0..callers.len() {
        let Some(pass) = take_pass(&mut runners, callers[at]) else {
            unreachable!()
        };
        passes.push_reserved(pass);
    }
}
