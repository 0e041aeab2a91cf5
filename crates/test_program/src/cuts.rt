// A script cut after each byte: its output, or the first thing that is wrong with it.

use crate::writers::{SERIAL, text_of};
use hv_run::{Exit, run_text};
use std::alloc::Global;
use std::process::Abort;
use std::sync::Wait;
use std::test::Fail;
use std::thread::Threads;

const SCRIPT: &[u8] = b"boot 32 12 1 0x000000f700000044 1000
1.0 call 0x40 0 0 -
1.0 call 0x0001000300000048 0 0 02000000000000000c000000000000000d000000000000000e00000000000000
1.0 rdmsr 0x40000001";

// The output for the scripts of `from` to `to` bytes, or for every second one of them.
#[derive(Clone, Copy)]
struct Cut {
    from: usize,
    to: usize,
    step: usize,
    exit: Exit,
    // This many of the audit's first lines, followed by `last`.
    lines: usize,
    last: &'static str,
    err: &'static str,
}

fn fault(from: usize, to: usize, step: usize, err: &'static str) -> Cut {
    Cut {
        from,
        to,
        step,
        exit: Exit::Script,
        lines: 0,
        last: "",
        err,
    }
}

fn done(from: usize, to: usize, step: usize, lines: usize, last: &'static str) -> Cut {
    Cut {
        from,
        to,
        step,
        exit: Exit::Done,
        lines,
        last,
        err: "",
    }
}

const LINES: [&str; 3] = [
    "1 1.0 call 0000000000000040 ok 0000000000000000 0200000000000000\n",
    "2 1.0 call 0001000300000048 more 0000000200000000 -\n",
    "3 1.0 call 0002000300000048 ok 0000000300000000 -\n",
];

// The first line, and the line that creates a partition.
fn first_cuts() -> [Cut; 10] {
    [
        fault(0, 0, 1, "hvpm: line 0: no boot\n"),
        fault(1, 3, 1, "hvpm: line 1: no boot\n"),
        fault(4, 32, 1, "hvpm: line 1: word count\n"),
        done(33, 37, 1, 0, "events 0\n"),
        fault(38, 39, 1, "hvpm: line 2: bad processor\n"),
        fault(40, 44, 1, "hvpm: line 2: unknown word\n"),
        fault(45, 55, 1, "hvpm: line 2: word count\n"),
        done(56, 57, 1, 1, "events 1\n"),
        fault(58, 59, 1, "hvpm: line 3: bad processor\n"),
        fault(60, 64, 1, "hvpm: line 3: unknown word\n"),
    ]
}

// The rep call. A page that is missing at the end reads as page 0, which is pooled.
fn rep_cuts() -> [Cut; 6] {
    [
        fault(65, 89, 1, "hvpm: line 3: word count\n"),
        fault(90, 152, 2, "hvpm: line 3: bad hex\n"),
        done(
            91,
            121,
            2,
            1,
            "2 1.0 call 0001000300000048 denied 0000000100000005 P21\nevents 2\n",
        ),
        done(
            123,
            137,
            2,
            2,
            "3 1.0 call 0002000300000048 denied 0000000200000005 P21\nevents 3\n",
        ),
        done(139, 153, 2, 3, "events 3\n"),
        done(154, 154, 1, 3, "events 3\n"),
    ]
}

// The access.
fn last_cuts() -> [Cut; 13] {
    [
        fault(155, 156, 1, "hvpm: line 4: bad processor\n"),
        fault(157, 162, 1, "hvpm: line 4: unknown word\n"),
        fault(163, 164, 1, "hvpm: line 4: word count\n"),
        done(165, 165, 1, 3, "4 1.0 rdmsr 00000000 fault P25\nevents 4\n"),
        fault(166, 166, 1, "hvpm: line 4: bad number\n"),
        done(167, 167, 1, 3, "4 1.0 rdmsr 00000004 fault P25\nevents 4\n"),
        done(168, 168, 1, 3, "4 1.0 rdmsr 00000040 fault P25\nevents 4\n"),
        done(169, 169, 1, 3, "4 1.0 rdmsr 00000400 fault P25\nevents 4\n"),
        done(170, 170, 1, 3, "4 1.0 rdmsr 00004000 fault P25\nevents 4\n"),
        done(171, 171, 1, 3, "4 1.0 rdmsr 00040000 fault P25\nevents 4\n"),
        done(172, 172, 1, 3, "4 1.0 rdmsr 00400000 fault P25\nevents 4\n"),
        done(173, 173, 1, 3, "4 1.0 rdmsr 04000000 fault P25\nevents 4\n"),
        done(174, 174, 1, 3, "4 1.0 rdmsr 40000001 fault P25\nevents 4\n"),
    ]
}

// Runs the first bytes of the script, and compares the output.
fn assert_cut(
    rt: &(impl Abort + Threads + Wait + Sync),
    alloc: Global,
    len: usize,
    cut: &Cut,
) -> Result<(), Fail> {
    assert!(rt; len <= SCRIPT.len());
    let mut wanted: Vec<u8> = Vec::new(alloc);
    for line in LINES.iter().take(cut.lines) {
        wanted.extend_from_slice(line.as_bytes())?;
    }
    wanted.extend_from_slice(cut.last.as_bytes())?;
    let mut out: Vec<u8> = Vec::new(alloc);
    let mut err: Vec<u8> = Vec::new(alloc);
    let exit = run_text(rt, alloc, &SCRIPT[..len], &SERIAL, &mut out, &mut err);
    assert_eq!(rt;
        (exit, text_of(&out), text_of(&err)),
        (cut.exit, text_of(&wanted), cut.err)
    );
    Ok(())
}

// Asserts each of the cuts, and returns the number of scripts.
fn assert_cuts(
    rt: &(impl Abort + Threads + Wait + Sync),
    alloc: Global,
    cuts: &[Cut],
) -> Result<usize, Fail> {
    let mut count = 0usize;
    for cut in cuts {
        for len in cut.from..=cut.to {
            if cut.step == 1 || len % 2 == cut.from % 2 {
                assert_cut(rt, alloc, len, cut)?;
                count = count.saturating_add(1);
            }
        }
    }
    Ok(count)
}

#[test]
fn after_each_byte(rt: HostRuntime) -> Result<(), Fail> {
    let alloc = rt.alloc();
    let first = assert_cuts(&rt, alloc, &first_cuts())?;
    let rep = assert_cuts(&rt, alloc, &rep_cuts())?;
    let last = assert_cuts(&rt, alloc, &last_cuts())?;
    let all = first.saturating_add(rep).saturating_add(last);
    assert_eq!(rt; all, SCRIPT.len() + 1);
    Ok(())
}
