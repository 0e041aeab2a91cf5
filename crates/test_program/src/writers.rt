// The text on standard output and standard error, also if writes fail.

use hv_options::{Options, Usage};
use hv_run::{Exit, Failure, run_text, tell, tell_usage};
use std::alloc::Global;
use std::io;
use std::io::{ErrorKind, Write};
use std::process::Abort;
use std::sync::Wait;
use std::test::Fail;
use std::thread::Threads;

/// The command line that runs a script.
pub const SERIAL: Options<'static> = Options {
    script: "first.hv",
    serial: true,
    table: false,
};

/// Returns the text that was written.
pub fn text_of(bytes: &[u8]) -> &str {
    str::from_utf8(bytes).unwrap_or("no UTF-8 text")
}

// How many bytes a failing writer takes at a time: less than a line of an audit.
const STEP: usize = 16;

// A writer that fails after some writes, or at a flush.
#[derive(Drop)]
struct Failing {
    writes: usize,
    flushes: bool,
    // Whether it takes 0 bytes instead of returning an error.
    takes_none: bool,
}

impl Write for Failing {
    fn write(&mut self, bytes: &[u8]) -> io::Result<usize> {
        if self.writes > 0 {
            self.writes -= 1;
            return Ok(bytes.len().min(STEP));
        }
        if self.takes_none {
            return Ok(0);
        }
        Err(io::Error::from(ErrorKind::BrokenPipe))
    }

    fn flush(&mut self) -> io::Result<()> {
        if self.flushes {
            return Ok(());
        }
        Err(io::Error::from(ErrorKind::BrokenPipe))
    }
}

fn failing_after(writes: usize) -> Failing {
    Failing {
        writes,
        flushes: true,
        takes_none: false,
    }
}

const ONE_EVENT: &[u8] = b"boot 32 12 1 0 9\n1.0 call 1 0 0 -\n";

const FULL: &[u8] = b"boot 32 12 1 0 0\n1.0 call 1 0 0 -\n";

// Runs a script on a writer that fails, and checks the line on standard error.
fn assert_fails(
    rt: &(impl Abort + Threads + Wait + Sync),
    alloc: Global,
    script: &[u8],
    mut out: Failing,
    line: &str,
) {
    let mut err: Vec<u8> = Vec::new(alloc);
    let exit = run_text(rt, alloc, script, &SERIAL, &mut out, &mut err);
    assert_eq!(rt; (exit, text_of(&err)), (Exit::Host, line));
}

#[test]
fn failed_output(rt: HostRuntime) {
    for writes in 0..2 {
        let out = failing_after(writes);
        assert_fails(&rt, rt.alloc(), ONE_EVENT, out, "hvpm: write\n");
    }
    for writes in 0..2 {
        let out = failing_after(writes);
        assert_fails(&rt, rt.alloc(), FULL, out, "hvpm: history full\n");
    }
    let none_taken = Failing {
        writes: 0,
        flushes: true,
        takes_none: true,
    };
    assert_fails(&rt, rt.alloc(), ONE_EVENT, none_taken, "hvpm: write\n");
    let not_flushed = Failing {
        writes: 1000,
        flushes: false,
        takes_none: false,
    };
    assert_fails(&rt, rt.alloc(), ONE_EVENT, not_flushed, "hvpm: write\n");
}

// A failed write on standard error changes neither the output nor the status.
#[test]
fn failed_error(rt: HostRuntime) {
    let alloc = rt.alloc();
    for (script, exit, text) in [
        (FULL, Exit::Host, b"events 0\n".as_slice()),
        (b"phase".as_slice(), Exit::Script, b"".as_slice()),
    ] {
        let mut out: Vec<u8> = Vec::new(alloc);
        let told = run_text(&rt, alloc, script, &SERIAL, &mut out, &mut failing_after(0));
        assert_eq!(rt; out.as_slice(), text);
        assert_eq!(rt; told, exit);
    }
}

fn assert_told(rt: &impl Abort, alloc: Global, usage: Usage, wanted: (Exit, &str, &str)) {
    let mut out: Vec<u8> = Vec::new(alloc);
    let mut err: Vec<u8> = Vec::new(alloc);
    let exit = tell_usage(usage, &mut out, &mut err);
    assert_eq!(rt; (exit, text_of(&out), text_of(&err)), wanted);
}

// Help goes to standard output and a mistake to standard error, both complete.
#[test]
fn usage_is_told(rt: HostRuntime) -> Result<(), Fail> {
    let alloc = rt.alloc();
    let help = Usage::Help(String::from_str(alloc, "Usage: hvpm\n\nhelp\n")?);
    assert_told(&rt, alloc, help, (Exit::Done, "Usage: hvpm\n\nhelp\n", ""));
    let mistake = Usage::Words(String::from_str(alloc, "error: a\n\nb\n")?);
    assert_told(&rt, alloc, mistake, (Exit::Usage, "", "error: a\n\nb\n"));
    assert_told(
        &rt,
        alloc,
        Usage::Memory,
        (Exit::Host, "", "hvpm: memory\n"),
    );
    Ok(())
}

// Help that cannot be written is a failed write.
#[test]
fn unwritten_help(rt: HostRuntime) -> Result<(), Fail> {
    let help = Usage::Help(String::from_str(rt.alloc(), "help\n")?);
    let mut err: Vec<u8> = Vec::new(rt.alloc());
    let exit = tell_usage(help, &mut failing_after(0), &mut err);
    assert_eq!(rt; (exit, text_of(&err)), (Exit::Host, "hvpm: write\n"));
    Ok(())
}

// An error of a settlement, which no script causes, is one line.
#[test]
fn settlements_are_told(rt: HostRuntime) {
    for (failure, line) in [
        (Failure::Missing, "hvpm: settlement missing\n"),
        (Failure::Differs, "hvpm: settlement differs\n"),
    ] {
        let mut err: Vec<u8> = Vec::new(rt.alloc());
        let exit = tell(failure, &mut err);
        assert_eq!(rt; (exit, text_of(&err)), (Exit::Host, line));
    }
}
