// A whole run of lines, from a machine without events to the settlement.
ghost use Rattle.std.specs.Prelude.{◌≡◌, ◌⊎◌, ◌<◌, [], All, IfNone, IfSome, IsNone, IsTrue, length, map, sum};
ghost use Rattle.std.specs.Prelude.{None, Option, Some, vec_len};
ghost use Rattle.hv_history.specs.Kept.{IsRun};
ghost use Rattle.hv_phases.specs.Begun.{HasBegun, IsFirstPart, IsUnsettled, error_of};
ghost use Rattle.hv_phases.specs.Lines.{AreInOrder, ArePhased, AreRun, callers_in};
ghost use Rattle.hv_phases.specs.PassMap.{AreCallersOf, AreGoing, Each, HasBegunBy, HasRunAll, HasRunPart};
ghost use Rattle.hv_phases.specs.PassMap.{HavePart, HaveRun, HaveStayed, IsFresh};
ghost use Rattle.hv_phases.specs.Stops.{IsToldOf};
ghost use Rattle.hv_shared.specs.Merge.{receipts_of, shares_of};
ghost use Rattle.hv_shared.specs.Settle.{IsFault, IsMadeOf};
ghost use Rattle.hv_shared.specs.Shared.{AreOpened};
ghost use Rattle.hv_shared.specs.declared.fault.SettleFault.TheVariants.{Differs};

use crate::callers::callers_of;
use crate::in_order::run_in_order;
use crate::in_threads::run_in_threads;
use crate::pass_map::{CallerMap, Runner, leave, pass_map_of};
use crate::stop::{Halt, first_stop};
use hv_history::{HostRefused, Kept};
use hv_policy::Caller;
use hv_script::Line;
use hv_threads::{Driver, Gate, Pass, SettleFault, Shared, settle};
use std::alloc::Global;
use std::marker::Brand;
use std::sync::Wait;
use std::sync::ledger::{Blank, Ledger};
use std::thread::Threads;

/// Why the lines didn't all run, or why the run doesn't count.
#[derive(Clone, Copy, PartialEq, Eq, Debug)]
pub enum RunError {
    /// The host refused an event, or had no memory for a phase or for the passes.
    ///
    /// Of several processors whose event it refused, this is the one with the first line.
    Host(HostRefused),
    /// The receipts don't make the history, or they are out of order.
    ///
    /// The receipts of a phase come after those of the phases before it. With `serial`, those of a line
    /// follow those of the line before it.
    Settlement(SettleFault),
}

/// What a run of lines left.
#[derive(Drop)]
pub struct LinesDone {
    /// The machine with its history.
    pub kept: Kept<Global>,
    /// Why the host stopped the run, if it did.
    ///
    /// Of several processors whose event it refused, this is the one with the first line.
    pub stop: Option<HostRefused>,
    /// The fault that the settlement found, or `Differs` if the receipts are out of order.
    pub fault: Option<SettleFault>,
}

impl LinesDone {
    /// Returns why it isn't a whole run, if it isn't: the host's refusal before the settlement's fault.
    pub fn error(&self) -> Option<RunError>
        ensures { result ≡ error_of self.now.stop self.now.fault }
    {
        match (self.stop, self.fault) {
            (Some(why), _) => Some(RunError::Host(why)),
            (None, Some(fault)) => Some(RunError::Settlement(fault)),
            (None, None) => None,
        }
    }
}

// How far the lines ran.
#[derive(Clone, Copy)]
struct Progress {
    // Why the host stopped the first processor that it stopped, or had no memory for a phase.
    stop: Option<HostRefused>,
    // Whether each phase's receipts, or with `serial` each line's, come after those before it.
    is_in_order: bool,
}

/// Runs the lines of a script on a machine without events, and settles.
///
/// Each processor of a phase has a thread of its own. With `serial`, one thread runs the lines in their
/// order. The gate's hooks run around each hold of the machine's lock.
///
/// Returns the machine with its history, why the host stopped the run, and the fault that the settlement
/// found. Without either, each processor's events are those that its lines ask for, in their order (`lines`),
/// phase by phase (`phases`), and with `serial` line by line (`order`). If the host alone stopped the run,
/// the phases that came to their end are whole, and of the last one each processor's events are a first part
/// of what its lines ask for (`part`). After a fault, the history is still a run (`run`), but is not shown to
/// be one of these lines (`unsettled`).
pub fn run_lines<R: Threads + Wait + Sync, G: Gate>(
    rt: &R,
    gate: &G,
    kept: Kept<Global>,
    lines: Vec<Line<Global>>,
    serial: bool,
) -> LinesDone
    requires empty { kept.history ≡ [] }
    ensures config { IfNone result.fault (result.kept.config ≡ kept.config) }
    ensures limit { IfNone result.fault (result.kept.limit ≡ kept.limit) }
    ensures lines { IsNone result.stop → IfNone result.fault (AreRun lines.items result.kept.history) }
    ensures phases { IsNone result.stop → IfNone result.fault (ArePhased lines.items result.kept.history) }
    ensures order { IsTrue serial → IsNone result.stop → IfNone result.fault
        (AreInOrder 1 lines.items result.kept.history) }
    ensures part { IfNone result.fault (IsFirstPart serial lines.items result.kept.history) }
    ensures unsettled { IfSome result.fault (λ fault.
        IsUnsettled kept.config kept.limit lines.items fault result.kept) }
    ensures run { IsRun result.kept }
{
    // proof: the kept history is a run.
    let _history = kept.history();
    let Ok(callers) = callers_of(*lines.allocator(), &lines) else {
        return not_begun(kept);
    };
    if callers.is_empty() {
        return LinesDone {
            kept,
            stop: None,
            fault: None,
        };
    }
    let parts = callers.len() as u64;
    run_under::<Brand, R, G>(rt, gate, kept, Blank::new(parts), callers, lines, serial)
}

// A run that had no memory to begin.
fn not_begun(kept: Kept<Global>) -> LinesDone
    ensures kept { result.kept ≡ kept }
    ensures stop { result.stop ≡ Some HostRefused.Memory }
    ensures fault { result.fault ≡ None }
{
    LinesDone {
        kept,
        stop: Some(HostRefused::Memory),
        fault: None,
    }
}

// Runs the lines under one ledger.
fn run_under<L: Ledger + Send + Sync, R: Threads + Wait + Sync, G: Gate>(
    rt: &R,
    gate: &G,
    kept: Kept<Global>,
    blank: Blank,
    callers: Vec<Caller>,
    lines: Vec<Line<Global>>,
    serial: bool,
) -> LinesDone
    requires empty { kept.history ≡ [] }
    requires run { IsRun kept }
    requires some { 0 < vec_len callers }
    requires ledger { (blank.name ≡ L.name) × (blank.parts ≡ L.parts) × (blank.parts ≡ vec_len callers) }
    requires callers { AreCallersOf lines.items callers.items }
    requires first { callers.items ≡ callers_in [] lines.items }
    ensures config { IfNone result.fault (result.kept.config ≡ kept.config) }
    ensures limit { IfNone result.fault (result.kept.limit ≡ kept.limit) }
    ensures lines { IsNone result.stop → IfNone result.fault (AreRun lines.items result.kept.history) }
    ensures phases { IsNone result.stop → IfNone result.fault (ArePhased lines.items result.kept.history) }
    ensures order { IsTrue serial → IsNone result.stop → IfNone result.fault
        (AreInOrder 1 lines.items result.kept.history) }
    ensures part { IfNone result.fault (IsFirstPart serial lines.items result.kept.history) }
    ensures unsettled { IfSome result.fault (λ fault.
        IsUnsettled kept.config kept.limit lines.items fault result.kept) }
    ensures run { IsRun result.kept }
{
    let Ok(order) = callers.clone() else {
        return not_begun(kept);
    };
    match Shared::<L>::new(kept, blank, callers) {
        Ok((shared, mut passes)) => {
            let progress = run_on(rt, gate, &shared, &order, &mut passes, lines, serial);
            settle_run(shared, passes, progress)
        }
        Err(kept) => not_begun(kept),
    }
}

// Runs the lines on fresh passes of these callers.
fn run_on<L: Ledger + Send + Sync, R: Threads + Wait + Sync, G: Gate>(
    rt: &R,
    gate: &G,
    shared: &Shared<L>,
    callers: &[Caller],
    passes: &mut Vec<Pass<L>>,
    lines: Vec<Line<Global>>,
    serial: bool,
) -> Progress
    requires callers { AreCallersOf lines.items callers.now }
    requires opened { AreOpened callers.now passes.old.items }
    ensures callers { map (λ pass. pass.caller) passes.new.items ≡ callers.now }
    ensures counted { All (λ pass. pass.share ≡ length pass.receipts) passes.new.items }
    ensures begun { All (HasBegun lines.items) passes.new.items }
    ensures whole { IsNone result.stop → IsTrue result.is_in_order → HaveRun serial lines.items [] []
        passes.new.items }
    ensures part { IsTrue result.is_in_order → HavePart serial lines.items passes.new.items }
{
    let Ok(mut runners) = pass_map_of(passes) else {
        return Progress {
            stop: Some(HostRefused::Memory),
            is_in_order: true,
        };
    };
    let progress = run_map(rt, gate, shared, callers, &mut runners, lines, serial);
    leave(runners, callers, passes);
    progress
}

// Runs the lines on the fresh passes in this map. Of several processors that the host stopped, the first in
// this order is told.
fn run_map<L: Ledger + Send + Sync, R: Threads + Wait + Sync, G: Gate>(
    rt: &R,
    gate: &G,
    shared: &Shared<L>,
    order: &[Caller],
    runners: &mut CallerMap<Runner<L>>,
    lines: Vec<Line<Global>>,
    serial: bool,
) -> Progress
    requires fresh { Each IsFresh runners.old }
    requires going { AreGoing runners.old }
    ensures whole { IsNone result.stop → IsTrue result.is_in_order
        → HasRunAll serial lines.items runners.new }
    ensures part { IsTrue result.is_in_order → HasRunPart serial lines.items runners.new }
    ensures begun { Each (HasBegunBy lines.items) runners.new }
    ensures stayed { HaveStayed runners.old runners.new }
    ensures told { IfSome result.stop (IsToldOf runners.new order.now) }
{
    let halt = if serial {
        run_in_order(&Driver { rt, shared, gate }, runners, lines)
    } else {
        run_in_threads(rt, gate, shared, runners, lines)
    };
    progress_of(first_stop(order, runners), halt)
}

// How far lines ran that halted so, where the host stopped a processor for this reason first.
fn progress_of(stop: Option<HostRefused>, halt: Option<Halt>) -> Progress
    ensures order { IsTrue result.is_in_order → halt ≡ Some Halt.Order → ⊥ }
    ensures whole { IsNone result.stop → IsTrue result.is_in_order → halt ≡ None }
    ensures told { IfSome result.stop (λ why. (stop ≡ Some why)
        ⊎ ((stop ≡ None) × (why ≡ HostRefused.Memory))) }
{
    let (stop, is_in_order) = match (stop, halt) {
        (None, None) => (None, true),
        (None, Some(Halt::Memory)) => (Some(HostRefused::Memory), true),
        (None, Some(Halt::Stopped)) => (None, false),
        (Some(why), None | Some(Halt::Stopped) | Some(Halt::Memory)) => (Some(why), true),
        (_, Some(Halt::Order)) => (stop, false),
    };
    Progress { stop, is_in_order }
}

// Settles the passes with the history.
fn settle_run<L: Ledger>(shared: Shared<L>, passes: Vec<Pass<L>>, progress: Progress) -> LinesDone
    ensures stop { result.stop ≡ progress.stop }
    ensures order { IfNone result.fault (IsTrue progress.is_in_order) }
    ensures made { IfNone result.fault (IsMadeOf shared.config shared.limit result.kept
        (receipts_of passes.items)) }
    ensures found { IfSome result.fault (λ fault. IsFault shared.config shared.limit result.kept
        (receipts_of passes.items) fault ⊎ (IsMadeOf shared.config shared.limit result.kept
        (receipts_of passes.items) × (fault ≡ Differs))) }
    ensures count { vec_len passes ≡ shared.passes → length result.kept.history
        ≡ sum (shares_of passes.items) }
    ensures run { IsRun result.kept }
{
    let Progress { stop, is_in_order } = progress;
    let (kept, fault) = match settle(shared, passes) {
        Ok(kept) if is_in_order => (kept, None),
        Ok(kept) => (kept, Some(SettleFault::Differs)),
        Err(refused) => (refused.kept, Some(refused.fault)),
    };
    LinesDone { kept, stop, fault }
}
