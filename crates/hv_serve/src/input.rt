// Reading lines, one at a time.
ghost use Rattle.std.specs.Prelude.{◌≡◌, ◌++◌, [], ◌∷◌, ℕ, List, IfOk};
ghost use Rattle.hv_serve.specs.Input.{AreKept, HasLine, IsNext};

use hv_run::{Failure, unread};
use hv_script::{FaultKind, MOST_BYTES};
use std::io::{ErrorKind, Read};

// How a line ended, and whether its bytes were kept.
#[derive(Clone, Copy)]
pub(crate) struct LineEnd {
    // The input ends after it, without a line feed.
    pub(crate) last: bool,
    // Why its bytes were lost: the line is longer than a whole script, or memory ran out.
    pub(crate) lost: Option<FaultKind>,
}

// Reads a line, and keeps its bytes without the line feed. Of a line that is too long, it keeps at most as
// many bytes as a script may have.
pub(crate) fn read_line<R: Read>(reader: &mut R, line: &mut Vec<u8>) -> Result<LineEnd, Failure>
    ensures { IfOk result (λ end. HasLine line.new.items end (R.remaining reader.old)
        (R.remaining reader.new)) }
{
    line.clear();
    let mut lost = None;
    for _ in 0..u64::MAX {
        match next_byte(reader)? {
            None => return Ok(LineEnd { last: true, lost }),
            Some(b'\n') => return Ok(LineEnd { last: false, lost }),
            Some(byte) => lost = keep_byte(line, byte, lost),
        }
    }
    Err(Failure::Unreadable)
}

// Keeps a byte of a line, unless one before it was lost.
fn keep_byte(line: &mut Vec<u8>, byte: u8, lost: Option<FaultKind>) -> Option<FaultKind>
    ensures { (bytes : List ℕ) → AreKept bytes line.old.items lost
        → AreKept (bytes ++ byte ∷ []) line.new.items result }
{
    if lost.is_some() {
        return lost;
    }
    if line.len() >= MOST_BYTES {
        return Some(FaultKind::Long);
    }
    match line.push(byte) {
        Ok(()) => None,
        Err(_) => Some(FaultKind::Memory),
    }
}

// Reads the next byte, or `None` at the end of the input. It retries a read that was interrupted.
fn next_byte<R: Read>(reader: &mut R) -> Result<Option<u8>, Failure>
    ensures { IfOk result (λ next. IsNext next (R.remaining reader.old) (R.remaining reader.new)) }
{
    let mut byte = [0; 1];
    for _ in 0..u64::MAX {
        match reader.read(&mut byte) {
            Ok(0) => return Ok(None),
            Ok(_) => return Ok(Some(byte[0])),
            Err(error) => {
                if error.kind() != ErrorKind::Interrupted {
                    return Err(unread(&error));
                }
            }
        }
    }
    Err(Failure::Unreadable)
}
