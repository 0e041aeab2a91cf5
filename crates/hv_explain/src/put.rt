// Writing a text that was built.
ghost use Rattle.std.specs.Prelude.{◌≡◌, IfErr, OnOk};
ghost use Rattle.std.specs.Io.KnownBytes.{Appends};
ghost use Rattle.hv_run.specs.Failure.{exit_of};
ghost use Rattle.hv_run.specs.Written.{HasPart};
ghost use Rattle.hv_explain.specs.Cut.{IsCutText};

use hv_run::{Exit, Failure};
use hv_text::put_bytes;
use std::io::{ErrorKind, Write};

// Writes all of a text. After a failed write, the writer has a first part of it.
//
// It fails for memory where a writer in memory has none left, and then nothing was written.
pub(crate) fn put_text<W: Write>(out: &mut W, text: &[u8]) -> Result<(), Failure>
    ensures told { OnOk result (Appends (W.contents out.old) (W.contents out.new) text.now) }
    ensures cut { IfErr result (λ failure. IsCutText failure (λ bytes. bytes ≡ text.now)
        (W.contents out.old) (W.contents out.new)) }
    ensures host { IfErr result (λ failure. exit_of failure ≡ Exit.Host) }
{
    match out.write(text) {
        Ok(count) => put_rest(out, &text[count..]),
        Err(error) => match error.kind() {
            ErrorKind::OutOfMemory => Err(Failure::Memory),
            ErrorKind::Interrupted => put_rest(out, text),
            _ => Err(Failure::Write),
        },
    }
}

// Writes what is left of a text.
fn put_rest<W: Write>(out: &mut W, text: &[u8]) -> Result<(), Failure>
    ensures told { OnOk result (Appends (W.contents out.old) (W.contents out.new) text.now) }
    ensures cut { IfErr result (λ failure. (failure ≡ Failure.Write)
        × HasPart text.now (W.contents out.old) (W.contents out.new)) }
{
    match put_bytes(out, text) {
        Ok(()) => Ok(()),
        Err(_) => Err(Failure::Write),
    }
}
