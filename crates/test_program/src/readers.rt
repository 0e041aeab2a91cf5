// Scripts as they are read: either all bytes are run or none.

use crate::writers::{SERIAL, text_of};
use hv_run::{Exit, read_script, run_text, tell, unread};
use std::alloc::Global;
use std::io;
use std::io::{ErrorKind, Read};
use std::process::Abort;
use std::sync::Wait;
use std::test::Fail;
use std::thread::Threads;

// The result of reading and running: the exit status, the output, and the line on standard error.
type Shown<'a> = (Exit, &'a str, &'a str);

const ONE_EVENT: &[u8] = b"boot 32 12 1 0x000000f700000044 9\n1.0 call 0x46 0 0 -\n";

const ONE_LINE: &str =
    "1 1.0 call 0000000000000046 ok 0000000000000000 0100000000000000\nevents 1\n";

fn assert_read<R: Read + Drop>(
    rt: &(impl Abort + Threads + Wait + Sync),
    alloc: Global,
    reader: R,
    wanted: Shown<'_>,
) {
    let mut out: Vec<u8> = Vec::new(alloc);
    let mut err: Vec<u8> = Vec::new(alloc);
    let exit = match read_script(alloc, reader) {
        Ok(script) => run_text(rt, alloc, script.as_slice(), &SERIAL, &mut out, &mut err),
        Err(error) => tell(unread(&error), &mut err),
    };
    assert_eq!(rt; (exit, text_of(&out), text_of(&err)), wanted);
}

// A script that is too long is refused and not cut, even if its beginning could be run.
#[test]
fn lengths(rt: HostRuntime) -> Result<(), Fail> {
    let alloc = rt.alloc();
    let too_long: Shown<'static> = (Exit::Script, "", "hvpm: line 0: too long\n");
    for (bytes, wanted) in [
        (1_048_576, (Exit::Done, ONE_LINE, "")),
        (1_048_577, too_long),
        (1_048_576 + 5000, too_long),
    ] {
        let mut script = Vec::from_slice(alloc, ONE_EVENT)?;
        script.resize(bytes, b'#')?;
        assert_read(&rt, alloc, script.as_slice(), wanted);
    }
    Ok(())
}

// A reader that gives a few bytes at a time, and then an error or the end.
#[derive(Drop)]
struct Pieces<'a> {
    left: &'a [u8],
    then: Option<ErrorKind>,
}

impl Read for Pieces<'_> {
    fn read(&mut self, buf: &mut [u8]) -> io::Result<usize> {
        let len = self.left.len().min(buf.len()).min(7);
        if len == 0 {
            return match self.then.take() {
                Some(kind) => Err(io::Error::from(kind)),
                None => Ok(0),
            };
        }
        let (piece, rest) = self.left.split_at(len);
        buf[..len].copy_from_slice(piece);
        self.left = rest;
        Ok(len)
    }
}

#[test]
fn failed_input(rt: HostRuntime) {
    let unreadable: Shown<'static> = (Exit::Script, "", "hvpm: cannot read the script\n");
    for (then, wanted) in [
        (None, (Exit::Done, ONE_LINE, "")),
        (Some(ErrorKind::Interrupted), (Exit::Done, ONE_LINE, "")),
        (Some(ErrorKind::BrokenPipe), unreadable),
        (Some(ErrorKind::UnexpectedEof), unreadable),
        (
            Some(ErrorKind::OutOfMemory),
            (Exit::Host, "", "hvpm: memory\n"),
        ),
    ] {
        let reader = Pieces {
            left: ONE_EVENT,
            then,
        };
        assert_read(&rt, rt.alloc(), reader, wanted);
    }
}
