// The head and the tail of a text about events.
ghost use Rattle.std.specs.Prelude.{◌≡◌, ◌⊎◌, Err, IfErr, IsOk, OnOk};
ghost use Rattle.std.specs.Io.KnownBytes.{Appends, Keeps};
ghost use Rattle.hv_run.specs.Failure.{exit_of};
ghost use Rattle.hv_run.specs.Written.{HasPart};

use hv_run::{Exit, Failure, tell};
use hv_text::put_bytes;
use std::io::Write;

/// Writes the head of a text. After a failed write, the writer has a first part of it.
pub(crate) fn open<W: Write>(head: &str, out: &mut W) -> Result<(), Failure>
    ensures told { OnOk result (Appends (W.contents out.old) (W.contents out.new) head.now) }
    ensures part { HasPart head.now (W.contents out.old) (W.contents out.new) }
    ensures host { IfErr result (λ failure. exit_of failure ≡ Exit.Host) }
{
    match put_bytes(out, head.as_bytes()) {
        Ok(()) => Ok(()),
        Err(_) => Err(Failure::Write),
    }
}

/// Writes the tail of a text whose events were told with this result, and returns the exit status.
///
/// The reason of a failure goes to `err`, in one line. After a failed write nothing more is written to `out`.
pub(crate) fn close<W: Write, E: Write>(
    told: Result<(), Failure>,
    tail: &str,
    out: &mut W,
    err: &mut E,
) -> Exit
    ensures done { result ≡ Exit.Done → IsOk told }
    ensures closes { result ≡ Exit.Done → Appends (W.contents out.old) (W.contents out.new) tail.now }
    ensures part { HasPart tail.now (W.contents out.old) (W.contents out.new) }
    ensures kept { told ≡ Err Failure.Write → Keeps (W.contents out.old) (W.contents out.new) }
    ensures host { IfErr told (λ failure. exit_of failure ≡ Exit.Host)
        → (result ≡ Exit.Done) ⊎ (result ≡ Exit.Host) }
{
    match told {
        Ok(()) => match put_last(tail, out) {
            Ok(()) => Exit::Done,
            Err(failure) => tell(failure, err),
        },
        Err(Failure::Write) => tell(Failure::Write, err),
        Err(failure) => {
            let _ = put_last(tail, out);
            tell(failure, err)
        }
    }
}

// Writes the end of all that is written. After a failed write, the writer has a first part of it.
fn put_last<W: Write>(tail: &str, out: &mut W) -> Result<(), Failure>
    ensures told { OnOk result (Appends (W.contents out.old) (W.contents out.new) tail.now) }
    ensures part { HasPart tail.now (W.contents out.old) (W.contents out.new) }
    ensures host { IfErr result (λ failure. exit_of failure ≡ Exit.Host) }
{
    open(tail, out)?;
    out.flush().map_err(|_| Failure::Write)
}
