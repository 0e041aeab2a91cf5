// The lines of the audit, for events that differ in each bit, and writers that fail midway.

use crate::writers::text_of;
use hv_abi::{Bytes, Frame};
use hv_history::Kept;
use hv_phases::LinesDone;
use hv_policy::{Action, Caller, Config, Event};
use hv_privs::Privileges;
use hv_run::{Failure, print_run};
use hv_text::{PrintFault, audit, table};
use hv_threads::SettleFault;
use std::alloc::{AllocError, Global};
use std::io;
use std::io::{ErrorKind, Write};
use std::process::Abort;
use std::test::Fail;

// A processor of no partition, so each event of it is refused.
const STRANGER: Caller = Caller {
    part: 0xfedc_ba98_7654_3210,
    vp: 0xefcd_ab89,
};

const ROOT: Caller = Caller { part: 1, vp: 0 };

fn boot(alloc: Global, limit: u32) -> Result<Kept<Global>, Fail> {
    let config = Config {
        pages: 32,
        pool: 12,
        vps: 2,
        mask: Privileges::of(0x0000_00f7_0000_0044),
    };
    Ok(Kept::boot(alloc, config, limit)?)
}

const LINES: &str =
    "1 18364758544493064720.4023233417 call 0f1e2d3c4b5a6978 denied 000000000000000d P1
2 18364758544493064720.4023233417 call 0abc0fff00000048 denied 00000abc0000000d P1
3 18364758544493064720.4023233417 rdmsr fedcba98 fault P1
4 18364758544493064720.4023233417 wrmsr 89abcdef 8192a3b4c5d6e7f0 fault P1
5 18364758544493064720.4023233417 slot 255 fault P1
6 18364758544493064720.4023233417 clearslot 16 fault P1
7 18364758544493064720.4023233417 flags 240 fault P1
8 18364758544493064720.4023233417 clearflag 165 43981 fault P1
9 18364758544493064720.4023233417 interrupt fault P1
10 1.0 wrmsr 40000083 0f1e2d3c4b5a6978 ok -
11 1.0 rdmsr 40000083 ok 78695a4b3c2d1e0f
12 1.0 call 0abc0bad00000048 denied 00000abc00000004 P6
13 1.0 call 0000000000000046 ok 0000000000000000 0100000000000000
14 1.0 interrupt ok 00
15 1.0 clearflag 15 2047 ok -
events 15
";

const TABLE: &str =
    "partition 1 parent - Active mask 000000f700000044 loose 20 pooled 12 inuse 8 vps 2 ports 0 connections 0
pages 32
";

fn call(rcx: u64, alloc: Global) -> Action<Global> {
    Action::Hypercall(Frame {
        rcx,
        rdx: 0,
        r8: 0,
        input: Bytes::from_vec(Vec::new(alloc)),
    })
}

fn happens(kept: &mut Kept<Global>, by: Caller, what: Action<Global>) -> Result<(), Fail> {
    kept.apply(Event { by, what })?;
    Ok(())
}

// Events of the processor of no partition.
fn refused_events(kept: &mut Kept<Global>, alloc: Global) -> Result<(), Fail> {
    happens(kept, STRANGER, call(0x0f1e_2d3c_4b5a_6978, alloc))?;
    happens(kept, STRANGER, call(0x0abc_0fff_0000_0048, alloc))?;
    happens(kept, STRANGER, Action::ReadMsr(0xfedc_ba98))?;
    let write = Action::WriteMsr(0x89ab_cdef, 0x8192_a3b4_c5d6_e7f0);
    happens(kept, STRANGER, write)?;
    happens(kept, STRANGER, Action::ReadSlot(255))?;
    happens(kept, STRANGER, Action::ClearSlot(16))?;
    happens(kept, STRANGER, Action::ReadFlags(240))?;
    happens(kept, STRANGER, Action::ClearFlag(0xa5, 0xabcd))?;
    happens(kept, STRANGER, Action::TakeInterrupt)
}

// Events of processor 0 of the root.
fn roots_events(kept: &mut Kept<Global>, alloc: Global) -> Result<(), Fail> {
    let write = Action::WriteMsr(0x4000_0083, 0x0f1e_2d3c_4b5a_6978);
    happens(kept, ROOT, write)?;
    happens(kept, ROOT, Action::ReadMsr(0x4000_0083))?;
    happens(kept, ROOT, call(0x0abc_0bad_0000_0048, alloc))?;
    happens(kept, ROOT, call(0x46, alloc))?;
    happens(kept, ROOT, Action::TakeInterrupt)?;
    happens(kept, ROOT, Action::ClearFlag(15, 2047))
}

// Prints the audit and the table.
fn print<W: Write>(
    kept: &Kept<Global>,
    out: &mut W,
) -> (Result<(), PrintFault>, Result<(), PrintFault>) {
    (audit(out, kept), table(out, kept))
}

#[test]
fn lines(rt: HostRuntime) -> Result<(), Fail> {
    let alloc = rt.alloc();
    let mut kept = boot(alloc, 15)?;
    refused_events(&mut kept, alloc)?;
    roots_events(&mut kept, alloc)?;
    let mut out: Vec<u8> = Vec::new(alloc);
    assert_eq!(rt; print(&kept, &mut out), (Ok(()), Ok(())));
    let text = text_of(&out);
    assert_eq!(rt; text.strip_suffix(TABLE), Some(LINES));
    Ok(())
}

// A run whose settlement failed, which no script causes, prints nothing.
#[test]
fn unsettled_runs(rt: HostRuntime) -> Result<(), Fail> {
    let alloc = rt.alloc();
    for (fault, failure) in [
        (SettleFault::Missing, Failure::Missing),
        (SettleFault::Differs, Failure::Differs),
    ] {
        let mut kept = boot(alloc, 1)?;
        happens(&mut kept, ROOT, Action::TakeInterrupt)?;
        let done = LinesDone {
            kept,
            stop: None,
            fault: Some(fault),
        };
        let mut out: Vec<u8> = Vec::new(alloc);
        let told = print_run(&done, false, &mut out);
        assert_eq!(rt; (told, text_of(&out)), (Err(failure), ""));
    }
    Ok(())
}

// A writer that takes a few bytes at a time, and a limited number in all. Every second write is interrupted.
#[derive(Drop)]
struct Short {
    taken: Vec<u8>,
    is_interrupted: bool,
    step: usize,
    left: usize,
    // Whether it then takes 0 bytes instead of returning an error.
    takes_none: bool,
}

impl Write for Short {
    fn write(&mut self, bytes: &[u8]) -> io::Result<usize> {
        self.is_interrupted = !self.is_interrupted;
        if self.is_interrupted {
            return Err(io::Error::from(ErrorKind::Interrupted));
        }
        let len = bytes.len().min(self.step).min(self.left);
        if len == 0 {
            if self.takes_none {
                return Ok(0);
            }
            return Err(io::Error::from(ErrorKind::BrokenPipe));
        }
        self.left -= len;
        match self.taken.extend_from_slice(&bytes[..len]) {
            Ok(()) => Ok(len),
            Err(_) => Err(io::Error::from(ErrorKind::OutOfMemory)),
        }
    }

    fn flush(&mut self) -> io::Result<()> {
        Ok(())
    }
}

// Asserts that only the first bytes of a text were written, and that the fault says how many.
fn assert_cut(rt: &impl Abort, told: Result<(), PrintFault>, out: &Short, text: &str, left: usize) {
    let wanted = if left < text.len() {
        Err(PrintFault::Write {
            written: left as u64,
        })
    } else {
        Ok(())
    };
    assert_eq!(rt; told, wanted);
    let len = left.min(text.len());
    assert_eq!(rt; out.taken.as_slice(), &text.as_bytes()[..len]);
}

const TWO_LINES: &str = "1 18364758544493064720.4023233417 interrupt fault P1\nevents 1\n";

// Writes the audit and the table to writers that fail after each number of bytes.
fn assert_cuts(rt: &impl Abort, kept: &Kept<Global>, alloc: Global, step: usize) {
    for left in 0..130 {
        for takes_none in [false, true] {
            let mut out = taking(alloc, step, left, takes_none);
            let told = audit(&mut out, kept);
            assert_cut(rt, told, &out, TWO_LINES, left);
            let mut out = taking(alloc, step, left, takes_none);
            let told = table(&mut out, kept);
            assert_cut(rt, told, &out, TABLE, left);
        }
    }
}

fn taking(alloc: Global, step: usize, left: usize, takes_none: bool) -> Short {
    Short {
        taken: Vec::new(alloc),
        is_interrupted: false,
        step,
        left,
        takes_none,
    }
}

#[test]
fn cut_texts(rt: HostRuntime) -> Result<(), Fail> {
    let alloc = rt.alloc();
    let mut kept = boot(alloc, 1)?;
    happens(&mut kept, STRANGER, Action::TakeInterrupt)?;
    for step in [1, 7, 1000] {
        assert_cuts(&rt, &kept, alloc, step);
    }
    Ok(())
}

// The line of an empty slot, which has 512 digits.
fn slot_text(alloc: Global) -> Result<Vec<u8>, AllocError> {
    let mut text = Vec::from_slice(alloc, b"1 1.0 slot 2 ok ".as_slice())?;
    for _ in 0..512 {
        text.push(b'0')?;
    }
    text.extend_from_slice(b"\nevents 1\n")?;
    Ok(text)
}

// A line takes as many writes as it has bytes.
#[test]
fn slow_texts(rt: HostRuntime) -> Result<(), Fail> {
    let alloc = rt.alloc();
    let mut kept = boot(alloc, 1)?;
    happens(&mut kept, ROOT, Action::ReadSlot(2))?;
    let mut out = taking(alloc, 1, usize::MAX, false);
    assert_eq!(rt; audit(&mut out, &kept), Ok(()));
    assert_eq!(rt; out.taken.as_slice(), slot_text(alloc)?.as_slice());
    Ok(())
}
