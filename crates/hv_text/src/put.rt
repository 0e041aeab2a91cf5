// Writing bytes, with a count of those that went out.
ghost use Rattle.std.specs.Prelude.{◌≡◌, ◌≢◌, ℕ, ◌+◌, ◌^◌, ◌<◌, ◌≤◌, List, ◌++◌, Option, Err, OnOk, IfErr};
ghost use Rattle.std.specs.Prelude.{length};
ghost use Rattle.std.specs.Io.KnownBytes.{Appends};
ghost use Rattle.hv_text.specs.Fault.{HasSent, IsCut};
ghost use Rattle.hv_text.specs.declared.text.TheConstants.{LINE};

use crate::fault::PrintFault;
use crate::text::Text;
use std::io::{ErrorKind, Write};

/// Writes all of a text. After a failed write, the fault has the number of bytes that went out.
///
/// It doesn't flush. A write that takes nothing fails, and an interrupted write is tried again.
pub fn put_bytes<W: Write>(out: &mut W, text: &[u8]) -> Result<(), PrintFault>
    ensures ok { OnOk result (Appends (W.contents out.old) (W.contents out.new) text.now) }
    ensures cut { IfErr result (IsCut (W.contents out.old) (W.contents out.new) text.now) }
    ensures write { result ≢ Err PrintFault.Memory }
{
    let mut written = 0;
    put_counted(out, text, &mut written)
}

// Writes a line of a text of which the first `written` bytes went out, and counts its bytes too.
pub(crate) fn put<W: Write>(out: &mut W, line: &Text, written: &mut u64) -> Result<(), PrintFault>
    requires { written.old + LINE < 2 ^ 64 }
    ensures ok { (start : Option (List ℕ)) (text more : List ℕ)
        → HasSent start (W.contents out.old) text (line.now ++ more) written.old
        → OnOk result (HasSent start (W.contents out.new) text more written.new) }
    ensures cut { (start : Option (List ℕ)) (text more : List ℕ)
        → HasSent start (W.contents out.old) text (line.now ++ more) written.old
        → IfErr result (IsCut start (W.contents out.new) text) }
    ensures few { written.new ≤ written.old + LINE }
    ensures write { result ≢ Err PrintFault.Memory }
{
    put_counted(out, line.as_slice(), written)
}

// Writes the next bytes of a text of which the first `written` bytes went out, and counts them too. A write
// that takes nothing fails, and an interrupted write is tried again.
fn put_counted<W: Write>(out: &mut W, bytes: &[u8], written: &mut u64) -> Result<(), PrintFault>
    requires { written.old + length bytes.now < 2 ^ 64 }
    ensures ok { (start : Option (List ℕ)) (text more : List ℕ)
        → HasSent start (W.contents out.old) text (bytes.now ++ more) written.old
        → OnOk result (HasSent start (W.contents out.new) text more written.new) }
    ensures cut { (start : Option (List ℕ)) (text more : List ℕ)
        → HasSent start (W.contents out.old) text (bytes.now ++ more) written.old
        → IfErr result (IsCut start (W.contents out.new) text) }
    ensures few { written.new ≤ written.old + length bytes.now }
    ensures write { result ≢ Err PrintFault.Memory }
{
    let mut rest = bytes;
    for _ in 0..u64::MAX {
        if rest.is_empty() {
            break;
        }
        match out.write(rest) {
            Ok(0) => return Err(PrintFault::Write { written: *written }),
            Ok(count) => {
                *written += count as u64;
                rest = &rest[count..];
            }
            Err(error) => {
                if error.kind() != ErrorKind::Interrupted {
                    return Err(PrintFault::Write { written: *written });
                }
            }
        }
    }
    if rest.is_empty() {
        Ok(())
    } else {
        Err(PrintFault::Write { written: *written })
    }
}
