// Running the lines of a script, one after another.
ghost use Rattle.std.specs.Prelude.{◌≡◌, ◌<◌, ◌-◌, [], IfErr, IfOk, None, OnOk, Some, min, ℕ};
ghost use Rattle.hv_history.specs.Kept.{IsRun};
ghost use Rattle.hv_policy.specs.declared.event.Action.TheVariants.{Hypercall};
ghost use Rattle.hv_run.specs.Failure.{exit_of};
ghost use Rattle.hv_explain.specs.Cut.{IsCut, IsCutLine};
ghost use Rattle.hv_explain.specs.Part.{HasPutUntil, TellsFirst};
ghost use Rattle.hv_explain.specs.Written.{HasWrittenElement, HasWrittenLines, HasWrittenUpTo};

use crate::event::explain_event;
use crate::teller::Teller;
use hv_abi::Frame;
use hv_history::{Kept, next_of};
use hv_policy::{Action, Caller};
use hv_run::{Exit, Failure};
use hv_script::Line;
use std::alloc::Global;
use std::io::Write;

/// Runs the lines of a script in order until this many events have happened, and lets the teller write about
/// each event. It stops at the first event that the host refuses, or whose text can't be written. The output
/// is then a first part of what is told of the first events.
pub fn explain_lines<T: Teller, W: Write>(
    alloc: Global,
    kept: &mut Kept<Global>,
    lines: &[Line<Global>],
    at: Option<u64>,
    teller: &mut T,
    out: &mut W,
) -> Result<(), Failure>
    requires { kept.old.history ≡ [] }
    ensures told { OnOk result (HasWrittenLines T.tells at lines.now kept.old kept.new (W.contents out.old)
        (W.contents out.new)) }
    ensures failed { IfErr result (λ failure. HasPutUntil failure
        (TellsFirst T.tells kept.old.config kept.old.limit lines.now) (W.contents out.old)
        (W.contents out.new)) }
    ensures run { IsRun kept.new }
    ensures host { IfErr result (λ failure. exit_of failure ≡ Exit.Host) }
{
    // Proof: the history is a run.
    let _history = kept.history();
    let mut room = Vec::new(alloc);
    for place in 0..lines.len() {
        let most = events_to(at, kept.history().len());
        if most == 0 {
            return Ok(());
        }
        explain_line(kept, &lines[place], most, teller, &mut room, out)?;
    }
    Ok(())
}

// Returns the most events that may follow after so many, or `u32::MAX` if there is no bound, or a higher one.
fn events_to(at: Option<u64>, before: usize) -> u32
    ensures none { at ≡ None → result ≡ u32.MAX }
    ensures some { (n : ℕ) → at ≡ Some n → result ≡ min (n - before) u32.MAX }
{
    match at {
        Some(at) => at.saturating_sub(before as u64).min(u64::from(u32::MAX)) as u32,
        None => u32::MAX,
    }
}

// Runs a line to its end, or up to so many events: the elements of a hypercall one after another, or an
// access.
fn explain_line<T: Teller, W: Write>(
    kept: &mut Kept<Global>,
    line: &Line<Global>,
    most: u32,
    teller: &mut T,
    room: &mut Vec<u8>,
    out: &mut W,
) -> Result<(), Failure>
    requires { 0 < most }
    ensures told { OnOk result (HasWrittenUpTo T.tells line.now.by line.now.action most kept.old kept.new
        (W.contents out.old)
        (W.contents out.new)) }
    ensures cut { IfErr result (λ failure. IsCutLine T.tells line.now.by line.now.action failure kept.old
        (W.contents out.old) (W.contents out.new)) }
    ensures run { IsRun kept.new }
    ensures host { IfErr result (λ failure. exit_of failure ≡ Exit.Host) }
{
    // Proof: the history is a run.
    let _history = kept.history();
    match line.action.as_access() {
        Ok(_) => match explain_event(kept, line.by, &line.action, teller, room, out) {
            Ok(_) => Ok(()),
            Err(failure) => Err(failure),
        },
        Err(frame) => explain_call(kept, line.by, frame, most, teller, room, out),
    }
}

// Runs a hypercall to its end, from the frame's start index on, or up to so many elements.
fn explain_call<T: Teller, W: Write>(
    kept: &mut Kept<Global>,
    by: Caller,
    frame: &Frame<Global>,
    most: u32,
    teller: &mut T,
    room: &mut Vec<u8>,
    out: &mut W,
) -> Result<(), Failure>
    requires { 0 < most }
    ensures told { OnOk result (HasWrittenUpTo T.tells by (Hypercall frame.now) most kept.old kept.new
        (W.contents out.old)
        (W.contents out.new)) }
    ensures cut { IfErr result (λ failure. IsCutLine T.tells by (Hypercall frame.now) failure kept.old
        (W.contents out.old) (W.contents out.new)) }
    ensures run { IsRun kept.new }
    ensures host { IfErr result (λ failure. exit_of failure ≡ Exit.Host) }
{
    // Proof: the history is a run.
    let _history = kept.history();
    let Ok(mut now) = frame.copy() else {
        return Err(Failure::Memory);
    };
    let mut left = most;
    loop {
        match explain_element(kept, by, &now, teller, room, out) {
            Ok(Some(next)) => now = now.with_start(next),
            Ok(None) => return Ok(()),
            Err(failure) => return Err(failure),
        }
        left -= 1;
        if left == 0 {
            return Ok(());
        }
    }
}

// Runs the element of a hypercall at the frame's start index. Returns the index of the next element, if the
// call continues.
fn explain_element<T: Teller, W: Write>(
    kept: &mut Kept<Global>,
    by: Caller,
    frame: &Frame<Global>,
    teller: &mut T,
    room: &mut Vec<u8>,
    out: &mut W,
) -> Result<Option<u16>, Failure>
    ensures told { IfOk result (λ next. HasWrittenElement T.tells by frame.now next kept.old kept.new
        (W.contents out.old) (W.contents out.new)) }
    ensures cut { IfErr result (λ failure. IsCut T.tells by (Hypercall frame.now) failure kept.old kept.new
        (W.contents out.old) (W.contents out.new)) }
    ensures run { IsRun kept.new }
    ensures host { IfErr result (λ failure. exit_of failure ≡ Exit.Host) }
{
    // Proof: the history is a run.
    let _history = kept.history();
    let Ok(own) = frame.copy() else {
        return Err(Failure::Memory);
    };
    match explain_event(kept, by, &Action::Hypercall(own), teller, room, out) {
        Ok(reply) => Ok(next_of(reply.parts().0)),
        Err(failure) => Err(failure),
    }
}
