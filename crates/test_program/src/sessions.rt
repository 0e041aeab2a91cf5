// Sessions line by line: the text of each answer, and that each is flushed before the next line is read.

use hv_run::Exit;
use hv_serve::{Form, serve};
use std::alloc::Global;
use std::io;
use std::io::{ErrorKind, Write};
use std::process::Abort;

/// A writer that records its length at each flush.
#[derive(Drop)]
pub struct Flushed {
    pub bytes: Vec<u8>,
    pub marks: Vec<usize>,
}

impl Flushed {
    pub fn new(alloc: Global) -> Flushed {
        Flushed {
            bytes: Vec::new(alloc),
            marks: Vec::new(alloc),
        }
    }
}

impl Write for Flushed {
    fn write(&mut self, bytes: &[u8]) -> io::Result<usize> {
        match self.bytes.extend_from_slice(bytes) {
            Ok(()) => Ok(bytes.len()),
            Err(_) => Err(io::Error::from(ErrorKind::OutOfMemory)),
        }
    }

    fn flush(&mut self) -> io::Result<()> {
        let len = self.bytes.len();
        match self.marks.push(len) {
            Ok(()) => Ok(()),
            Err(_) => Err(io::Error::from(ErrorKind::OutOfMemory)),
        }
    }
}

/// Returns the text that was written.
pub fn text_of(bytes: &[u8]) -> &str {
    str::from_utf8(bytes).unwrap_or("no UTF-8 text")
}

// The number of bytes written before a flush, counted from 0.
fn mark(out: &Flushed, at: usize) -> usize {
    match out.marks.get(at) {
        Some(len) => *len,
        None => 0,
    }
}

/// Returns the text written between the previous flush and this one, counted from 0.
pub fn answer_at(out: &Flushed, at: usize) -> &str {
    let from = if at == 0 { 0 } else { mark(out, at - 1) };
    text_between(&out.bytes, from, mark(out, at))
}

fn text_between(bytes: &[u8], from: usize, to: usize) -> &str {
    if from <= to && to <= bytes.len() {
        text_of(&bytes[from..to])
    } else {
        "no text"
    }
}

/// Serves the lines of these rows, each with a line feed, and returns what was written.
pub fn serve_rows(rt: &impl Abort, alloc: Global, form: Form, rows: &[(&str, &str)]) -> Flushed {
    let mut text: Vec<u8> = Vec::new(alloc);
    for (line, _) in rows {
        assert!(rt; text.extend_from_slice(line.as_bytes()).is_ok());
        assert!(rt; text.push(b'\n').is_ok());
    }
    let mut out = Flushed::new(alloc);
    let mut err: Vec<u8> = Vec::new(alloc);
    let exit = serve(alloc, text.as_slice(), form, false, &mut out, &mut err);
    assert_eq!(rt; (exit, text_of(&err)), (Exit::Done, ""));
    out
}

// Serves these lines, each with its answer. After the last line feed comes an empty line, which has no
// answer, and then the count.
fn assert_served(rt: &impl Abort, alloc: Global, lines: &[(&str, &str)], end: &str) {
    let out = serve_rows(rt, alloc, Form::Text, lines);
    assert_eq!(rt; out.marks.len(), lines.len() + 2);
    for at in 0..lines.len() {
        assert_eq!(rt; answer_at(&out, at), lines[at].1);
    }
    assert_eq!(rt; answer_at(&out, lines.len()), "");
    assert_eq!(rt; answer_at(&out, lines.len() + 1), end);
}

const BOOT: &str = "boot 32 12 1 0x000000f700000044 9";

const TABLE: &str =
    "partition 1 parent - Active mask 000000f700000044 loose 20 pooled 12 inuse 4 vps 1 ports 0 connections 0
pages 32
";

const ID: (&str, &str) = (
    "1.0 call 0x46 0 0 -",
    "1 1.0 call 0000000000000046 ok 0000000000000000 0100000000000000\n",
);

// Lines without an answer, faults in mid-session that change nothing, and tables before and after events.
#[test]
fn lines_and_faults(rt: HostRuntime) {
    let lines = [
        ("", ""),
        ("# \u{e9}", ""),
        ("table", "fault: line 3: no boot\n"),
        ("1.0 call 0x46 0 0 -", "fault: line 4: no boot\n"),
        ("boot 32 12 1", "fault: line 5: word count\n"),
        ("boot 0 12 1 0 9", "fault: line 6: boot refused: pages\n"),
        ("boot 32 33 1 0 9", "fault: line 7: boot refused: pool\n"),
        ("boot 32 12 0 0 9", "fault: line 8: boot refused: vps\n"),
        (BOOT, ""),
        (BOOT, "fault: line 10: second boot\n"),
        ("  table ", TABLE),
        ID,
        ("1.0 nothing", "fault: line 13: unknown word\n"),
        ("1.0 call 0x46 0 0 0", "fault: line 14: bad hex\n"),
        ("1.0 rdmsr x", "fault: line 15: bad number\n"),
        ("x rdmsr 1", "fault: line 16: bad processor\n"),
        ("phase 1", "fault: line 17: word count\n"),
        ("phase", ""),
        ("table 1", "fault: line 19: word count\n"),
        ("tabl\te", "fault: line 20: bad byte\n"),
        (
            "1.0 rdmsr 0x40000083",
            "2 1.0 rdmsr 40000083 ok 0000000000000000\n",
        ),
        ("1.1 interrupt", "3 1.1 interrupt fault P3\n"),
        ("table", TABLE),
    ];
    assert_served(&rt, rt.alloc(), &lines, "events 3\n");
}

// A rep call is driven to its end, and the audit has a line for each element. The table shows its effect.
#[test]
fn rep_calls(rt: HostRuntime) {
    let lines = [
        (BOOT, ""),
        (
            "1.0 call 0x40 0 0 -",
            "1 1.0 call 0000000000000040 ok 0000000000000000 0200000000000000\n",
        ),
        (
            "1.0 call 0x0000000300000048 0 0 \
             02000000000000000c000000000000000d000000000000000e00000000000000",
            "2 1.0 call 0000000300000048 more 0000000100000000 -
3 1.0 call 0001000300000048 more 0000000200000000 -
4 1.0 call 0002000300000048 ok 0000000300000000 -
",
        ),
        (
            "table",
            "partition 1 parent - Active mask 000000f700000044 \
             loose 17 pooled 12 inuse 6 vps 1 ports 0 connections 0
partition 2 parent 1 Created mask 0000003000000044 loose 0 pooled 3 inuse 0 vps 0 ports 0 connections 0
pages 32
",
        ),
    ];
    assert_served(&rt, rt.alloc(), &lines, "events 4\n");
}

// If the history is full, the answer has the elements that happened, and then why no more did. The session
// continues.
#[test]
fn full_history(rt: HostRuntime) {
    let lines = [
        ("boot 32 12 1 0x000000f700000044 3", ""),
        (
            "1.0 call 0x40 0 0 -",
            "1 1.0 call 0000000000000040 ok 0000000000000000 0200000000000000\n",
        ),
        (
            "1.0 call 0x0000000300000048 0 0 \
             02000000000000000c000000000000000d000000000000000e00000000000000",
            "2 1.0 call 0000000300000048 more 0000000100000000 -
3 1.0 call 0001000300000048 more 0000000200000000 -
fault: line 3: history full
",
        ),
        ("1.0 interrupt", "fault: line 4: history full\n"),
        ("1.0 x", "fault: line 5: unknown word\n"),
        ("1.0 call 0x46 0 0 -", "fault: line 6: history full\n"),
    ];
    assert_served(&rt, rt.alloc(), &lines, "events 3\n");
}

// Looks and explanations have a line each, which says so if there is nothing to show.
#[test]
fn looks_and_explanations(rt: HostRuntime) {
    let lines = [
        ("explain", "fault: line 1: no boot\n"),
        ("peek 1.0 pending", "fault: line 2: no boot\n"),
        (BOOT, ""),
        ("explain", "none\n"),
        ("peek 1.0 rdmsr 0x40000092", "0000010000000000\n"),
        ("peek 1.0 slot 16", "none\n"),
        ("peek 1.0 slot x", "fault: line 7: bad number\n"),
        ("explain 1", "fault: line 8: word count\n"),
        ("1.0 interrupt", "1 1.0 interrupt ok 00\n"),
        ("explain", "1 1.0 take an interrupt: ok, no vector\n"),
    ];
    assert_served(&rt, rt.alloc(), &lines, "events 1\n");
}

// A session without a boot line has no events.
#[test]
fn no_boot(rt: HostRuntime) {
    assert_served(&rt, rt.alloc(), &[], "events 0\n");
    let lines = [("phase", "fault: line 1: no boot\n")];
    assert_served(&rt, rt.alloc(), &lines, "events 0\n");
}
