//! A test program for out of memory in the process's own allocator, where no allocator that refuses can be
//! passed in: at a new lock, at a phase of two threads, at calls, at room for receipts, and at the words of a
//! command line. It takes a few milliseconds.
//!
//! `.ci/growth` runs it again and again, and each time another block of its memory is refused. A trial that
//! is refused checks that nothing has changed, and continues with memory, so the final state does not depend
//! on the refusal. The output is the refusal, if a trial saw one, the number of events, and the table. The
//! status is 3 if a block outside a trial was refused, and 1 if something is not as expected.
#![tactic(auto)]

mod actions;
mod elements;
mod ended;
mod gate;
mod phase;
mod single;
mod trials;
mod words;

use crate::ended::{Ended, Fault};
use crate::trials::try_all;
use hv_text::{PrintFault, table};
use std::io::Write;
use std::process::ExitCode;

fn main(rt: HostRuntime) -> ExitCode {
    let told = match try_all(&rt, rt.alloc()) {
        Ok(ended) => print(&mut rt.stdout(), &ended),
        Err(fault) => Err(fault),
    };
    match told {
        Ok(()) => ExitCode::SUCCESS,
        Err(fault) => {
            let _ = writeln!(rt.stderr(), "{fault}");
            ExitCode::from(fault.status())
        }
    }
}

fn print<W: Write>(out: &mut W, ended: &Ended) -> Result<(), Fault> {
    if let Some(refusal) = ended.refusal {
        writeln!(out, "{refusal}").map_err(|_| Fault::Write)?;
    }
    let events = ended.kept.history().len();
    writeln!(out, "events {events}").map_err(|_| Fault::Write)?;
    table(out, &ended.kept).map_err(|fault| match fault {
        PrintFault::Memory => Fault::Memory,
        PrintFault::Write { .. } => Fault::Write,
    })
}
