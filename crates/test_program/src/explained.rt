// Explanations that fail: the exit status, and what is written until then.

use hv_explain::explain_text;
use hv_run::Exit;
use std::alloc::Global;
use std::io;
use std::io::{ErrorKind, Write};
use std::process::Abort;
use std::test::Fail;

// Explains a script, and compares the exit status and the text.
fn expect(rt: &impl Abort, alloc: Global, script: &str, exit: Exit, lines: &str, told: &str) {
    let mut out = Vec::new(alloc);
    let mut err = Vec::new(alloc);
    assert_eq!(rt;
        explain_text(alloc, script.as_bytes(), &mut out, &mut err),
        exit
    );
    assert_eq!(rt; str::from_utf8(&out).unwrap_or("no text"), lines);
    assert_eq!(rt; str::from_utf8(&err).unwrap_or("no text"), told);
}

#[test]
fn ends(rt: HostRuntime) -> Result<(), Fail> {
    let alloc = rt.alloc();
    let fault = "boot 64 32 1 0 9\n1.0 interrupt\n1.0 nothing\n";
    expect(
        &rt,
        alloc,
        fault,
        Exit::Script,
        "",
        "hvpm: line 3: unknown word\n",
    );
    expect(
        &rt,
        alloc,
        "boot 64 32 9 0 9\n",
        Exit::Script,
        "",
        "hvpm: boot refused: vps\n",
    );
    expect(&rt, alloc, "boot 64 32 1 0 9\n", Exit::Done, "", "");
    let limit = "boot 64 32 1 0 2\n1.0 interrupt\n1.0 clearslot 3\n1.0 interrupt\n";
    let two = "1 1.0 take an interrupt: ok, no vector\n2 1.0 clear the slot of SINT 3: ok\n";
    expect(&rt, alloc, limit, Exit::Host, two, "hvpm: history full\n");
    Ok(())
}

// A writer that fails after some writes, with an error of this kind.
#[derive(Drop)]
struct Failing {
    writes: usize,
    kind: ErrorKind,
}

impl Write for Failing {
    fn write(&mut self, bytes: &[u8]) -> io::Result<usize> {
        if self.writes == 0 {
            return Err(io::Error::from(self.kind));
        }
        self.writes -= 1;
        Ok(bytes.len())
    }

    fn flush(&mut self) -> io::Result<()> {
        Ok(())
    }
}

// Explains a script to a writer that fails after some writes, and compares the reason.
fn expect_failing(rt: &impl Abort, alloc: Global, writes: usize, kind: ErrorKind, told: &str) {
    let mut err = Vec::new(alloc);
    let mut out = Failing { writes, kind };
    let script = "boot 64 32 1 0 9\n1.0 interrupt\n1.0 interrupt\n";
    let exit = explain_text(alloc, script.as_bytes(), &mut out, &mut err);
    assert_eq!(rt; exit, Exit::Host);
    assert_eq!(rt; str::from_utf8(&err).unwrap_or("no text"), told);
}

#[test]
fn failing_writes(rt: HostRuntime) -> Result<(), Fail> {
    let alloc = rt.alloc();
    // Each line is one write.
    for writes in 0..2 {
        expect_failing(&rt, alloc, writes, ErrorKind::BrokenPipe, "hvpm: write\n");
        expect_failing(&rt, alloc, writes, ErrorKind::OutOfMemory, "hvpm: memory\n");
    }
    Ok(())
}
