// Reading a script's bytes.
ghost use Rattle.std.specs.Prelude.{◌≡◌, ◌+◌, IfOk, IfSome, take};
ghost use Rattle.hv_script.specs.declared.script.TheConstants.{MOST_BYTES as MOST};
ghost use Rattle.hv_run.specs.Failure.{IsUnread};

use crate::failure::Failure;
use hv_script::MOST_BYTES;
use std::alloc::Global;
use std::io;
use std::io::{ErrorKind, Read};

/// Reads all bytes of a script, or the first 1,048,577 of one that is too long.
///
/// That is one byte too many, so a script that is too long is never taken for a shorter one.
pub fn read_script<R: Read + Drop>(alloc: Global, reader: R) -> io::Result<Vec<u8>>
    ensures { IfOk result (λ script. IfSome (R.remaining reader) (λ text. script.items
        ≡ take (MOST + 1) text)) }
{
    let mut script = Vec::new(alloc);
    reader.take(MOST_BYTES as u64 + 1).read_to_end(&mut script)?;
    Ok(script)
}

/// Why a script can't be read: out of memory, or anything else.
pub fn unread(error: &io::Error) -> Failure
    ensures { IsUnread result }
{
    match error.kind() {
        ErrorKind::OutOfMemory => Failure::Memory,
        _ => Failure::Unreadable,
    }
}
