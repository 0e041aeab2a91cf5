// The lines of a script in its order, by one thread.
ghost use Rattle.std.specs.Prelude.{◌≡◌, ◌≤◌, IfNone, IfSome, None, Some, is_some, true};
ghost use Rattle.hv_phases.specs.PassMap.{AreGoing, Each, HasBegunBy, HasRunAll, HasRunLine, HasRunPart};
ghost use Rattle.hv_phases.specs.PassMap.{HasTaken, HaveStayed, IsAny, IsFresh, IsWithin, stop_at};
ghost use Rattle.hv_phases.specs.declared.stop.Halt.TheVariants as halt;
ghost use Rattle.hv_shared.specs.PassValue.{PassValue};

use crate::barrier::highest_above;
use crate::pass_map::{CallerMap, Runner, key_of};
use crate::stop::Halt;
use hv_history::HostRefused;
use hv_policy::Action;
use hv_script::Line;
use hv_threads::{Driver, Gate, Pass};
use std::alloc::Global;
use std::sync::Wait;
use std::sync::ledger::Ledger;

/// Runs the lines one after another, and returns why they didn't all run, if they didn't.
///
/// A processor that the host stops runs no further line, and the others of its phase continue. No phase
/// begins after one in which a processor was stopped. A pass doesn't know what other processors did, so the
/// numbers of receipts are compared: those of each line are above those of the lines before it.
pub fn run_in_order<L: Ledger, R: Wait, G: Gate>(
    driver: &Driver<'_, L, R, G>,
    runners: &mut CallerMap<Runner<L>>,
    lines: Vec<Line<Global>>,
) -> Option<Halt>
    requires fresh { Each IsFresh runners.old }
    requires going { AreGoing runners.old }
    ensures whole { IfNone result (HasRunAll true lines.items runners.new) }
    ensures part { (result ≡ Some halt.Order → ⊥) → HasRunPart true lines.items runners.new }
    ensures begun { Each (HasBegunBy lines.items) runners.new }
    ensures stayed { HaveStayed runners.old runners.new }
{
    let mut left = lines;
    left.reverse();
    let mut phase = 0;
    let mut last = 0;
    let mut is_stopped = false;
    while let Some(line) = left.pop() {
        if is_stopped && line.phase != phase {
            return Some(Halt::Stopped);
        }
        phase = line.phase;
        let Some((now, goes_on)) = run_line(driver, runners, line, last) else {
            return Some(Halt::Order);
        };
        last = now;
        is_stopped = is_stopped || !goes_on;
    }
    if is_stopped {
        Some(Halt::Stopped)
    } else {
        None
    }
}

// Runs a line. Returns the highest receipt number after it, where `last` is the highest before it, and
// whether its processor goes on. `None` means that a new receipt's number isn't above `last`.
fn run_line<L: Ledger, R: Wait, G: Gate>(
    driver: &Driver<'_, L, R, G>,
    runners: &mut CallerMap<Runner<L>>,
    line: Line<Global>,
    last: u64,
) -> Option<(u64, bool)>
    ensures rises { IfSome result (λ r. last ≤ r.0) }
    ensures ran { IfSome result (λ r. HasRunLine (IsWithin last r.0) line runners.old runners.new) }
    ensures goes_on { IfSome result (λ r. r.1 ≡ true → stop_at runners.new line.by ≡ None) }
    ensures any { HasRunLine IsAny line runners.old runners.new }
{
    let Line { by, action, .. } = line;
    match runners.get_mut(&key_of(by)) {
        Some(runner) => take_line(driver, runner, action, last),
        None => Some((last, true)),
    }
}

// Has a processor perform an action, unless the host stopped it before.
fn take_line<L: Ledger, R: Wait, G: Gate>(
    driver: &Driver<'_, L, R, G>,
    runner: &mut Runner<L>,
    action: Action<Global>,
    last: u64,
) -> Option<(u64, bool)>
    ensures rises { IfSome result (λ r. last ≤ r.0) }
    ensures took { (was pass : PassValue) → runner.old.pass ≡ Some was → runner.new.pass ≡ Some pass
        → IfSome result (λ r. HasTaken (IsWithin last r.0) action runner.old.stop runner.new.stop was pass) }
    ensures any { (was pass : PassValue) → runner.old.pass ≡ Some was → runner.new.pass ≡ Some pass
        → HasTaken IsAny action runner.old.stop runner.new.stop was pass }
    ensures there { is_some runner.new.pass ≡ is_some runner.old.pass }
    ensures goes_on { IfSome result (λ r. r.1 ≡ true → runner.new.stop ≡ None) }
{
    if runner.stop.is_some() {
        return Some((last, false));
    }
    let Some(pass) = &mut runner.pass else {
        return Some((last, true));
    };
    let (stop, now) = drive_line(driver, pass, action, last);
    runner.stop = stop;
    match now {
        Some(now) => Some((now, stop.is_none())),
        None => None,
    }
}

// Performs an action. Returns why the host stopped it, if it did, and the highest receipt number after it, if
// the numbers of the new receipts are above `last`.
fn drive_line<L: Ledger, R: Wait, G: Gate>(
    driver: &Driver<'_, L, R, G>,
    pass: &mut Pass<L>,
    action: Action<Global>,
    last: u64,
) -> (Option<HostRefused>, Option<u64>)
    ensures rises { IfSome result.1 (λ now. last ≤ now) }
    ensures took { IfSome result.1 (λ now.
        HasTaken (IsWithin last now) action None result.0 pass.old pass.new) }
    ensures any { HasTaken IsAny action None result.0 pass.old pass.new }
{
    let before = pass.receipts().len();
    let done = driver.drive(pass, action);
    let now = highest_above(pass.receipts(), before, last, last);
    match done {
        Ok(()) => (None, now),
        Err(why) => (Some(why), now),
    }
}
