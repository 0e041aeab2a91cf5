// A script of two phases beside audits of it, one for each answer.

use hv_check::{OwnLine, check_text};
use hv_run::Exit;
use std::alloc::Global;
use std::process::Abort;
use std::test::Fail;

// Two processors in each phase. Partition 2 does not exist.
const SCRIPT: &str = "boot 32 12 2 0x000000f700000044 5
1.0 call 0x46 0 0 -
1.0 interrupt
2.0 call 0x46 0 0 -
phase
1.1 rdmsr 0x40000083
2.0 interrupt
";

const WHOLE: &str = "1 1.0 call 0000000000000046 ok 0000000000000000 0100000000000000
2 2.0 call 0000000000000046 denied 000000000000000d P1
3 1.0 interrupt ok 00
4 2.0 interrupt fault P1
5 1.1 rdmsr 40000083 ok 0000000000000000
events 5
";

// Whether the audit may end early, whether rules are compared, the audit, the exit status, and the answer.
type Case = (bool, bool, &'static str, Exit, &'static str);

const WHOLE_AUDITS: [Case; 10] = [
    (false, true, WHOLE, Exit::Done, "legal, 5 events\n"),
    // The order of the script's lines.
    (
        false,
        true,
        "1 1.0 call 0000000000000046 ok 0000000000000000 0100000000000000
2 1.0 interrupt ok 00
3 2.0 call 0000000000000046 denied 000000000000000d P1
4 1.1 rdmsr 40000083 ok 0000000000000000
5 2.0 interrupt fault P1
events 5
",
        Exit::Done,
        "legal, 5 events\n",
    ),
    // Another reply.
    (
        false,
        true,
        "1 2.0 call 0000000000000046 ok 0000000000000000 0200000000000000
",
        Exit::Script,
        "line 1: 2.0 call 0000000000000046: wanted denied 000000000000000d P1, \
         found ok 0000000000000000 0200000000000000\n",
    ),
    // Another rule.
    (
        false,
        true,
        "1 2.0 call 0000000000000046 denied 000000000000000d P9
",
        Exit::Script,
        "line 1: 2.0 call 0000000000000046: wanted denied 000000000000000d P1, \
         found denied 000000000000000d P9\n",
    ),
    // Another event than the processor's next one.
    (
        false,
        true,
        "1 1.0 interrupt ok 00
",
        Exit::Script,
        "line 1: wanted 1.0 call 0000000000000046, found 1.0 interrupt\n",
    ),
    // Another number.
    (
        false,
        true,
        "1 1.0 call 0000000000000046 ok 0000000000000000 0100000000000000
3 1.0 interrupt ok 00
",
        Exit::Script,
        "line 2: wanted number 2, found 3\n",
    ),
    // A processor of the second phase before the first phase is over.
    (
        false,
        true,
        "1 1.0 call 0000000000000046 ok 0000000000000000 0100000000000000
2 1.1 rdmsr 40000083 ok 0000000000000000
",
        Exit::Script,
        "line 2: 1.1 has nothing left to do in this phase\n",
    ),
    // A line that is no event.
    (
        false,
        true,
        "1 1.0 call 0000000000000046 ok 0000000000000000 0100000000000000
2: \t
",
        Exit::Script,
        "line 2: wanted the line of an event, found 2: ?\n",
    ),
    // No line feed at the end.
    (
        false,
        true,
        "1 1.0 call 0000000000000046 ok 0000000000000000 0100000000000000",
        Exit::Script,
        "line 1: wanted a line feed, found the end\n",
    ),
    (true, true, "", Exit::Done, "legal, 0 events\n"),
];

// Audits that only end early, of which the hint tells.
const EARLY: [Case; 3] = [
    // The end before 1.0 has finished.
    (
        false,
        true,
        "1 1.0 call 0000000000000046 ok 0000000000000000 0100000000000000
",
        Exit::Script,
        "line 2: wanted an event of 1.0, found the end\n",
    ),
    (
        false,
        true,
        "1 1.0 call 0000000000000046 ok 0000000000000000 0100000000000000
2 1.0 interrupt ok 00
events 2
",
        Exit::Script,
        "line 3: wanted an event of 2.0, found events 2\n",
    ),
    // Without an audit.
    (
        false,
        true,
        "",
        Exit::Script,
        "line 1: wanted an event of 1.0, found the end\n",
    ),
];

// The lines after the events.
const LAST_LINES: [(&str, Exit, &str); 6] = [
    ("events 5\n", Exit::Done, "legal, 5 events\n"),
    ("", Exit::Script, "line 6: wanted events 5, found the end\n"),
    (
        "events 4\n",
        Exit::Script,
        "line 6: wanted events 5, found events 4\n",
    ),
    (
        "events 5",
        Exit::Script,
        "line 6: wanted a line feed, found the end\n",
    ),
    (
        "events 5\n\n",
        Exit::Script,
        "line 7: wanted the end, found an empty line\n",
    ),
    (
        "6 1.0 interrupt ok 00\nevents 6\n",
        Exit::Script,
        "line 6: 1.0 has nothing left to do in this phase\n",
    ),
];

// Audits compared without the names of rules, and audits that end early.
const FLAGS: [Case; 9] = [
    (
        false,
        false,
        "1 1.0 call 0000000000000046 ok 0000000000000000 0100000000000000
2 2.0 call 0000000000000046 denied 000000000000000d
3 1.0 interrupt ok 00
4 2.0 interrupt fault
5 1.1 rdmsr 40000083 ok 0000000000000000
events 5
",
        Exit::Done,
        "legal, 5 events\n",
    ),
    (false, false, WHOLE, Exit::Done, "legal, 5 events\n"),
    (
        true,
        false,
        "1 2.0 call 0000000000000046 denied 000000000000000d anything at all
",
        Exit::Done,
        "legal, 1 events\n",
    ),
    (
        true,
        false,
        "1 2.0 call 0000000000000046 denied 000000000000000d0
",
        Exit::Script,
        "line 1: 2.0 call 0000000000000046: wanted denied 000000000000000d P1, \
         found denied 000000000000000d0\n",
    ),
    (
        true,
        false,
        "1 2.0 call 0000000000000046 denied 000000000000000c P1
",
        Exit::Script,
        "line 1: 2.0 call 0000000000000046: wanted denied 000000000000000d P1, \
         found denied 000000000000000c P1\n",
    ),
    (
        true,
        false,
        "1 1.0 call 0000000000000046 ok 0000000000000000 0100000000000000 P1
",
        Exit::Script,
        "line 1: 1.0 call 0000000000000046: wanted ok 0000000000000000 0100000000000000, \
         found ok 0000000000000000 0100000000000000 P1\n",
    ),
    (
        true,
        true,
        "1 2.0 call 0000000000000046 denied 000000000000000d P1
2 1.0 call 0000000000000046 ok 0000000000000000 0100000000000000
",
        Exit::Done,
        "legal, 2 events\n",
    ),
    (
        true,
        true,
        "1 2.0 call 0000000000000046 denied 000000000000000d P1
events 1
",
        Exit::Done,
        "legal, 1 events\n",
    ),
    (
        true,
        true,
        "1 2.0 call 0000000000000046 denied 000000000000000d P1
events 2
",
        Exit::Script,
        "line 2: wanted events 1, found events 2\n",
    ),
];

fn text_of(bytes: &[u8]) -> &str {
    str::from_utf8(bytes).unwrap_or("no UTF-8 text")
}

// Checks an audit, and compares the exit status and both texts.
fn assert_answer(rt: &impl Abort, alloc: Global, script: &str, case: &Case, line: &str) {
    let (prefix, rules, audit, exit, text) = case;
    let mut out: Vec<u8> = Vec::new(alloc);
    let mut err: Vec<u8> = Vec::new(alloc);
    let told = check_text(
        alloc,
        script.as_bytes(),
        audit.as_bytes(),
        *prefix,
        *rules,
        &mut out,
        &mut err,
    );
    assert_eq!(rt; (told, text_of(&out), text_of(&err)), (*exit, *text, line));
}

#[test]
fn audits(rt: HostRuntime) {
    for case in WHOLE_AUDITS.iter() {
        assert_answer(&rt, rt.alloc(), SCRIPT, case, "");
    }
    for case in FLAGS.iter() {
        assert_answer(&rt, rt.alloc(), SCRIPT, case, "");
    }
    for case in EARLY.iter() {
        let hint = "hvpm: with --prefix, an audit may end early\n";
        assert_answer(&rt, rt.alloc(), SCRIPT, case, hint);
    }
}

#[test]
fn last_lines(rt: HostRuntime) -> Result<(), Fail> {
    let alloc = rt.alloc();
    let events = WHOLE.len() - 9;
    for (last, exit, text) in LAST_LINES.iter() {
        let mut audit: Vec<u8> = Vec::from_slice(alloc, &WHOLE.as_bytes()[..events])?;
        audit.extend_from_slice(last.as_bytes())?;
        let mut out: Vec<u8> = Vec::new(alloc);
        let mut err: Vec<u8> = Vec::new(alloc);
        let told = check_text(
            alloc,
            SCRIPT.as_bytes(),
            &audit,
            false,
            true,
            &mut out,
            &mut err,
        );
        assert_eq!(rt; (told, text_of(&out), text_of(&err)), (*exit, *text, ""));
    }
    Ok(())
}

// Before an event, the policy's line is empty.
#[test]
fn own_lines(rt: HostRuntime) {
    assert!(rt; OwnLine::new().as_slice().is_empty());
}

// A rep call of three pages, in a script with a limit of two events.
const ELEMENTS: &str = "boot 32 12 1 0x000000f700000044 2
1.0 call 0x300000048 0 0 01000000000000000c000000000000000d000000000000000e00000000000000
";

const ELEMENT_AUDITS: [Case; 3] = [
    (
        true,
        true,
        "1 1.0 call 0000000300000048 more 0000000100000000 -
2 1.0 call 0001000300000048 more 0000000200000000 -
",
        Exit::Done,
        "legal, 2 events\n",
    ),
    (
        true,
        true,
        "1 1.0 call 0000000300000048 more 0000000100000000 -
2 1.0 call 0002000300000048 ok 0000000300000000 -
",
        Exit::Script,
        "line 2: wanted 1.0 call 0001000300000048, found 1.0 call 0002000300000048\n",
    ),
    (
        true,
        true,
        "1 1.0 call 0000000300000048 more 0000000100000000 -
2 1.0 call 0001000300000048 more 0000000200000000 -
3 1.0 call 0002000300000048 ok 0000000300000000 -
",
        Exit::Script,
        "line 3: 1.0 has no event left, since the script's limit is reached\n",
    ),
];

#[test]
fn elements(rt: HostRuntime) {
    for case in ELEMENT_AUDITS.iter() {
        assert_answer(&rt, rt.alloc(), ELEMENTS, case, "");
    }
}

// The error in a script is reported as `run` reports it.
#[test]
fn scripts(rt: HostRuntime) {
    for (script, line) in [
        ("phase\n", "hvpm: line 1: no boot\n"),
        ("boot 0 0 1 0 9\n", "hvpm: boot refused: pages\n"),
    ] {
        let case = (false, true, "events 0\n", Exit::Script, "");
        assert_answer(&rt, rt.alloc(), script, &case, line);
    }
}
