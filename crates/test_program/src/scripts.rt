// Whole scripts of a few lines, run with `--table`: their output, and the error of one that is wrong.

use crate::writers::text_of;
use hv_options::Options;
use hv_run::{Exit, run_text};
use std::alloc::Global;
use std::process::Abort;
use std::sync::Wait;
use std::test::Fail;
use std::thread::Threads;

const WITH_TABLE: Options<'static> = Options {
    script: "first.hv",
    serial: true,
    table: true,
};

// A script, the exit status, the output, and the line on standard error.
type Run = (&'static str, Exit, &'static str, &'static str);

const RUNS: [Run; 7] = [
    (
        "boot 32 12 1 0x000000f700000044 1000
1.0 call 0x46 0 0 -
",
        Exit::Done,
        "1 1.0 call 0000000000000046 ok 0000000000000000 0100000000000000
events 1
partition 1 parent - Active mask 000000f700000044 loose 20 pooled 12 inuse 4 vps 1 ports 0 connections 0
pages 32
",
        "",
    ),
    // The history has room for two of three events.
    (
        "boot 32 12 1 0x000000f700000044 2
1.0 call 0x46 0 0 -
1.0 call 0x46 0 0 -
1.0 call 0x46 0 0 -
",
        Exit::Host,
        "1 1.0 call 0000000000000046 ok 0000000000000000 0100000000000000
2 1.0 call 0000000000000046 ok 0000000000000000 0100000000000000
events 2
partition 1 parent - Active mask 000000f700000044 loose 20 pooled 12 inuse 4 vps 1 ports 0 connections 0
pages 32
",
        "hvpm: history full\n",
    ),
    // After a fault, neither is printed.
    (
        "boot 32 12 1 0x000000f700000044 1000
1.0 call 0x46 0 0
",
        Exit::Script,
        "",
        "hvpm: line 2: word count\n",
    ),
    (
        "boot 32 12 1 0x000000f700000044 1000
1.0 call 0x46 0 0 abc
",
        Exit::Script,
        "",
        "hvpm: line 2: bad hex\n",
    ),
    (
        "boot 32 12 1 0x000000f700000044 1000
1.0 rdmsr zz
",
        Exit::Script,
        "",
        "hvpm: line 2: bad number\n",
    ),
    (
        "boot 32 12 1 0x000000f700000044 1000
1 call
",
        Exit::Script,
        "",
        "hvpm: line 2: bad processor\n",
    ),
    (
        "boot 32 12 1 0x000000f700000044 1000
1.0 halt
",
        Exit::Script,
        "",
        "hvpm: line 2: unknown word\n",
    ),
];

fn assert_run(rt: &(impl Abort + Threads + Wait + Sync), alloc: Global, run: &Run) {
    let (script, exit, text, line) = run;
    let mut out: Vec<u8> = Vec::new(alloc);
    let mut err: Vec<u8> = Vec::new(alloc);
    let told = run_text(
        rt,
        alloc,
        script.as_bytes(),
        &WITH_TABLE,
        &mut out,
        &mut err,
    );
    assert_eq!(rt; (told, text_of(&out), text_of(&err)), (*exit, *text, *line));
}

#[test]
fn audits_and_tables(rt: HostRuntime) -> Result<(), Fail> {
    for run in RUNS.iter() {
        assert_run(&rt, rt.alloc(), run);
    }
    Ok(())
}
