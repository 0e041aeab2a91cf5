// Sessions at their edges: how lines end, lines that are too long, and streams that fail.

use crate::sessions::{Flushed, text_of};
use hv_run::Exit;
use hv_script::FaultKind;
use hv_serve::{Form, Outcome, serve};
use std::alloc::Global;
use std::io;
use std::io::{ErrorKind, Read, Write};
use std::process::Abort;
use std::test::Fail;

// The exit status, the output, and the line on standard error.
type Shown<'a> = (Exit, &'a str, &'a str);

fn assert_shown<R: Read + Drop>(rt: &impl Abort, alloc: Global, reader: R, wanted: Shown<'_>) {
    assert_shown_as(rt, alloc, reader, Form::Text, wanted);
}

fn assert_shown_as<R: Read + Drop>(
    rt: &impl Abort,
    alloc: Global,
    reader: R,
    form: Form,
    wanted: Shown<'_>,
) {
    let mut out = Flushed::new(alloc);
    let mut err: Vec<u8> = Vec::new(alloc);
    let exit = serve(alloc, reader, form, false, &mut out, &mut err);
    assert_eq!(rt; (exit, text_of(&out.bytes), text_of(&err)), wanted);
}

const SESSION: &[u8] = b"boot 32 12 1 0x000000f700000044 9\n1.0 call 0x46 0 0 -";

const ANSWERS: &str =
    "1 1.0 call 0000000000000046 ok 0000000000000000 0100000000000000\nevents 1\n";

// A session whose last line is cut off, and the answers to the lines before.
const CUT: &[u8] = b"boot 32 12 1 0x000000f700000044 9\n1.0 call 0x46 0 0 -\n1.0 int";

const FIRST_ANSWERS: &str = "1 1.0 call 0000000000000046 ok 0000000000000000 0100000000000000\n";

// The last line may lack its line feed. A carriage return is a bad byte.
#[test]
fn line_ends(rt: HostRuntime) {
    let alloc = rt.alloc();
    assert_shown(&rt, alloc, SESSION, (Exit::Done, ANSWERS, ""));
    assert_shown(
        &rt,
        alloc,
        b"boot 32 12 1 0 9\r\n# \r\nboot 32 12 1 0 9\nphase\r".as_slice(),
        (
            Exit::Done,
            "fault: line 1: bad byte\nfault: line 4: bad byte\nevents 0\n",
            "",
        ),
    );
}

// In JSON the bytes after the last line feed are a line, unless there are none.
#[test]
fn last_lines(rt: HostRuntime) {
    for (text, wanted) in [
        ("", JSON_NONE),
        ("\n", JSON_ONE),
        ("#", JSON_ONE),
        ("#\n", JSON_ONE),
        ("#\n\n", JSON_TWO),
        ("\n#", JSON_TWO),
    ] {
        let wanted = (Exit::Done, wanted, "");
        assert_shown_as(&rt, rt.alloc(), text.as_bytes(), Form::Json, wanted);
    }
}

const JSON_NONE: &str = r#"{"program":"hvpm","version":"0.1.0"}
{"end":true,"events":0}
"#;

const JSON_ONE: &str = r#"{"program":"hvpm","version":"0.1.0"}
{"line":1,"events":[],"trace":[],"fault":null}
{"end":true,"events":0}
"#;

const JSON_TWO: &str = r#"{"program":"hvpm","version":"0.1.0"}
{"line":1,"events":[],"trace":[],"fault":null}
{"line":2,"events":[],"trace":[],"fault":null}
{"end":true,"events":0}
"#;

// A line that is longer than the longest script is refused, and the next one is served. A line of that length
// is read.
#[test]
fn long_lines(rt: HostRuntime) -> Result<(), Fail> {
    let alloc = rt.alloc();
    for (bytes, wanted) in [
        (1_048_576, ANSWERS),
        (
            1_048_577,
            "fault: line 1: too long\n\
             1 1.0 call 0000000000000046 ok 0000000000000000 0100000000000000\nevents 1\n",
        ),
    ] {
        let mut text: Vec<u8> = Vec::new(alloc);
        text.resize(bytes, b'#')?;
        text.push(b'\n')?;
        text.extend_from_slice(SESSION)?;
        assert_shown(&rt, alloc, text.as_slice(), (Exit::Done, wanted, ""));
    }
    Ok(())
}

// A reader that gives a few bytes at a time, and then an error or the end.
#[derive(Drop)]
struct Pieces<'a> {
    left: &'a [u8],
    then: Option<ErrorKind>,
}

impl Read for Pieces<'_> {
    fn read(&mut self, buf: &mut [u8]) -> io::Result<usize> {
        let len = self.left.len().min(buf.len()).min(7);
        if len == 0 {
            return match self.then.take() {
                Some(kind) => Err(io::Error::from(kind)),
                None => Ok(0),
            };
        }
        let (piece, rest) = self.left.split_at(len);
        buf[..len].copy_from_slice(piece);
        self.left = rest;
        Ok(len)
    }
}

// An interrupted read is retried. What was read before another error is answered, except the last line.
#[test]
fn failed_input(rt: HostRuntime) {
    let alloc = rt.alloc();
    let unreadable = "hvpm: cannot read the script\n";
    for (left, then, wanted) in [
        (SESSION, None, (Exit::Done, ANSWERS, "")),
        (
            SESSION,
            Some(ErrorKind::Interrupted),
            (Exit::Done, ANSWERS, ""),
        ),
        (
            SESSION,
            Some(ErrorKind::BrokenPipe),
            (Exit::Script, "", unreadable),
        ),
        (
            CUT,
            Some(ErrorKind::BrokenPipe),
            (Exit::Script, FIRST_ANSWERS, unreadable),
        ),
        (
            CUT,
            Some(ErrorKind::OutOfMemory),
            (Exit::Host, FIRST_ANSWERS, "hvpm: memory\n"),
        ),
    ] {
        assert_shown(&rt, alloc, Pieces { left, then }, wanted);
    }
}

// A writer that fails after some writes.
#[derive(Drop)]
struct Failing {
    writes: usize,
}

impl Write for Failing {
    fn write(&mut self, bytes: &[u8]) -> io::Result<usize> {
        if self.writes == 0 {
            return Err(io::Error::from(ErrorKind::BrokenPipe));
        }
        self.writes -= 1;
        Ok(bytes.len())
    }

    fn flush(&mut self) -> io::Result<()> {
        Ok(())
    }
}

// An answer that cannot be written ends the session.
#[test]
fn failed_output(rt: HostRuntime) {
    for (form, most) in [(Form::Text, 2), (Form::Json, 4)] {
        for writes in 0..most {
            let mut out = Failing { writes };
            let mut err: Vec<u8> = Vec::new(rt.alloc());
            let exit = serve(rt.alloc(), SESSION, form, false, &mut out, &mut err);
            assert_eq!(rt; (exit, text_of(&err)), (Exit::Host, "hvpm: write\n"));
        }
    }
}

// A fault has the text that a run of a script has for it.
#[test]
fn fault_texts(rt: HostRuntime) {
    for kind in [
        FaultKind::Long,
        FaultKind::Byte,
        FaultKind::NoBoot,
        FaultKind::BootTwice,
        FaultKind::Processor,
        FaultKind::Word,
        FaultKind::Count,
        FaultKind::Number,
        FaultKind::Hex,
        FaultKind::TooMany,
        FaultKind::Memory,
    ] {
        assert_eq!(rt; Outcome::Fault(kind).text(), kind.text());
    }
}
