// A script on a machine of its own.
ghost use Rattle.std.specs.Prelude.{◌≡◌, ◌<◌, IfOk, IfSome};
ghost use Rattle.hv_abi.specs.declared.frame.Frame.{Frame as CallFrame};
ghost use Rattle.hv_defs.specs.declared.sizes.TheConstants.{REPS_END};
ghost use Rattle.hv_policy.specs.declared.event.Action.TheVariants.{Hypercall};

use crate::failure::Failure;
use crate::line::put_line;
use hv_defs::{MAX_SERVED, REPS_END};
use hv_machine::{Action, Caller, Event, Machine, Reply};
use hv_script::{Line, Script, parse};
use hv_text::table_of;
use std::alloc::Global;
use std::io::Write;

// A machine, and the events that it took.
#[derive(Drop)]
struct Run {
    machine: Machine<Global>,
    events: u32,
    limit: u32,
}

/// Runs a script in the order of its lines, and writes its audit, and `with_table` the table.
///
/// A fault of the script or a refused boot writes nothing. Once the host refuses an event, no further line
/// runs.
pub fn run_text<W: Write>(
    alloc: Global,
    text: &[u8],
    with_table: bool,
    out: &mut W,
) -> Result<(), Failure> {
    let Script {
        config,
        limit,
        lines,
    } = parse(alloc, text)?;
    let mut run = Run {
        machine: Machine::boot(alloc, config)?,
        events: 0,
        limit,
    };
    let ended = run.step_lines(lines, out);
    writeln!(out, "events {}", run.events)?;
    if with_table {
        table_of(out, &run.machine)?;
    }
    ended
}

impl Run {
    fn step_lines<W: Write>(
        &mut self,
        lines: Vec<Line<Global>>,
        out: &mut W,
    ) -> Result<(), Failure> {
        for line in lines {
            let Line { by, action, .. } = line;
            self.step_line(by, action, out)?;
        }
        Ok(())
    }

    // Steps a line to its end: a rep call element by element, up to the last one or the first that is denied.
    fn step_line<W: Write>(
        &mut self,
        by: Caller,
        action: Action<Global>,
        out: &mut W,
    ) -> Result<(), Failure> {
        let mut what = action;
        // No call has more elements.
        for _ in 0..REPS_END {
            let event = Event { by, what };
            let Some(next) = self.step(&event, out)? else {
                return Ok(());
            };
            let Event { what: done, .. } = event;
            what = match done {
                Action::Hypercall(frame) => Action::Hypercall(frame.with_start(next)),
                access => access,
            };
        }
        Ok(())
    }

    // Steps one event, and writes its line. Returns the start index of the call's next element, if there is
    // one.
    fn step<W: Write>(&mut self, event: &Event<Global>, out: &mut W) -> Result<Option<u16>, Failure>
        ensures { (frame : CallFrame Global) → event.now.what ≡ Hypercall frame
            → IfOk result (λ next. IfSome next (λ start. start < REPS_END)) }
    {
        if self.events >= self.limit || self.machine.served() >= MAX_SERVED {
            return Err(Failure::LimitReached);
        }
        let reply = self.machine.step(event)?;
        self.events += 1;
        put_line(out, self.events, event, &reply)?;
        match reply {
            Reply::More { next, .. } => Ok(Some(next)),
            Reply::Served(_) => Ok(None),
            Reply::Denied { .. } => Ok(None),
            Reply::Fault { .. } => Ok(None),
        }
    }
}
