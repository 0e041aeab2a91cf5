// The output for a command line that is refused.
ghost use Rattle.std.specs.Prelude.{◌≡◌};
ghost use Rattle.hv_run.specs.Usage.{IsExitOf};

use crate::failure::{Exit, Failure, tell};
use hv_options::Usage;
use std::io;
use std::io::Write;

/// Shows help on standard output, or the mistake on standard error, and returns the exit status.
pub fn tell_usage<W: Write, E: Write>(usage: Usage, out: &mut W, err: &mut E) -> Exit
    ensures status { IsExitOf usage result }
    ensures silent { result ≡ Exit.Usage → out.new ≡ out.old }
{
    match usage {
        Usage::Help(text) => match print(out, text.as_str()) {
            Ok(()) => Exit::Done,
            Err(_) => tell(Failure::Write, err),
        },
        Usage::Words(text) => {
            let _ = err.write_all(text.as_bytes());
            Exit::Usage
        }
        Usage::Memory => tell(Failure::Memory, err),
    }
}

fn print<W: Write>(out: &mut W, text: &str) -> io::Result<()> {
    out.write_all(text.as_bytes())?;
    out.flush()
}
