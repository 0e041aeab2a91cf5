//! A test program that steps the machine alone: each event is one [`hv_machine::Machine::step`], and each
//! result value one [`hv_machine::result_of`]. There is no history, no lock and no thread.
//!
//! It runs scripts one after another, in the order of their lines, and prints the audit of each. Each line of
//! standard input names a script, after `--table ` if the table is wanted, too. After a script's output comes
//! a line `end STATUS`, with the error behind it if there is one. `conformance/run` drives it so with
//! `--batch`. Words of the command line are ignored.
#![tactic(auto)]

mod failure;
mod line;
mod run;

use crate::failure::Failure;
use crate::run::run_text;
use hv_script::MOST_BYTES;
use std::alloc::Global;
use std::fs::File;
use std::io;
use std::io::{BufRead, BufReader, BufWriter, ErrorKind, Read, Write};
use std::process::ExitCode;
use std::rt::Files;

// The exit status if the input can't be read, or the output can't be written.
const FAILED: u8 = 1;

fn main(rt: HostRuntime) -> ExitCode {
    match run_all(&rt, rt.alloc(), rt.stdout()) {
        Ok(()) => ExitCode::SUCCESS,
        Err(_) => ExitCode::from(FAILED),
    }
}

// Runs the scripts that standard input names.
fn run_all<R: Files + Input, W: Write + Drop>(rt: &R, alloc: Global, out: W) -> io::Result<()> {
    let mut out = BufWriter::new(alloc, out)?;
    for line in BufReader::new(alloc, rt.reader())?.lines(alloc) {
        let line = line?;
        match line.as_str().strip_prefix("--table ") {
            Some(name) => run_named(rt, alloc, name, true, &mut out)?,
            None => run_named(rt, alloc, line.as_str(), false, &mut out)?,
        }
        out.flush()?;
    }
    Ok(())
}

// Runs the script with this name, and writes how it ended.
fn run_named<R: Files, W: Write>(
    rt: &R,
    alloc: Global,
    name: &str,
    with_table: bool,
    out: &mut W,
) -> io::Result<()> {
    let ended = match read_named(rt, alloc, name) {
        Ok(script) => run_text(alloc, script.as_slice(), with_table, out),
        Err(failure) => Err(failure),
    };
    match ended {
        Ok(()) => writeln!(out, "end 0"),
        Err(failure) => writeln!(out, "end {} {failure}", failure.status()),
    }
}

// Returns the bytes of the script with this name, or one byte more than a script has if it is too long.
fn read_named<R: Files>(rt: &R, alloc: Global, name: &str) -> Result<Vec<u8>, Failure> {
    let mut script = Vec::new(alloc);
    let read = match File::open(rt, name) {
        Ok(file) => file.take(MOST_BYTES as u64 + 1).read_to_end(&mut script),
        Err(error) => Err(error),
    };
    match read {
        Ok(_) => Ok(script),
        Err(error) if error.kind() == ErrorKind::OutOfMemory => Err(Failure::Memory),
        Err(_) => Err(Failure::Unreadable),
    }
}
