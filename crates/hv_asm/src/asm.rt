// Assembling a text, from its bytes to the exit status.
ghost use Rattle.std.specs.Prelude.{◌≡◌, ◌≢◌, ◌⊎◌, IfErr, IfOk, IsErr, IsOk, Ok, OnOk};
ghost use Rattle.std.specs.Io.KnownBytes.{Appends, Keeps};
ghost use Rattle.hv_asm.specs.Printed.{HasPrinted, HasPrintedPart};
ghost use Rattle.hv_asm.specs.Text.{script_meant};
ghost use Rattle.hv_asm.specs.declared.fault.AsmFault.TheVariants as asm;
ghost use Rattle.hv_run.specs.Failure.{exit_of};
ghost use Rattle.hv_run.specs.Written.{HasPart};
ghost use Rattle.hv_script.specs.Script.{script_of};
ghost use Rattle.std.specs.declared.alloc.Global.{Global as GlobalValue};

use crate::fault::{AsmError, AsmFault};
use crate::hint::Hint;
use crate::text::assemble;
use hv_run::{Exit, Failure, tell};
use hv_script::FaultKind;
use hv_text::put_bytes;
use std::alloc::Global;
use std::io;
use std::io::Write;

/// Writes the script that a text means to `out`.
///
/// If it can't, the reason goes to `err`, in one line. After a fault of the text, nothing is written to
/// `out`, and after a failed write, a first part of the script.
pub fn asm_text<W: Write, E: Write>(alloc: Global, text: &[u8], out: &mut W, err: &mut E) -> Exit
    ensures printed { result ≡ Exit.Done → HasPrinted text.now (W.contents out.old) (W.contents out.new) }
    ensures failed { result ≢ Exit.Done → HasPrintedPart text.now (W.contents out.old)
        (W.contents out.new) }
    ensures fault { result ≡ Exit.Script → IsErr (script_meant text.now) }
    ensures silent { result ≡ Exit.Script → out.new ≡ out.old }
    ensures no_usage { result ≢ Exit.Usage }
{
    match script_by_names(alloc, text, err) {
        Ok(script) => print(script.as_slice(), out, err),
        Err(exit) => exit,
    }
}

/// Returns the script that a text means, on which a command then runs.
///
/// If there is none, the reason goes to `err`, in one line, and the exit status is returned.
pub fn script_by_names<E: Write>(alloc: Global, text: &[u8], err: &mut E) -> Result<Vec<u8>, Exit>
    ensures meant { IfOk result (λ script. script_meant text.now ≡ Ok script.items) }
    ensures parses { IfOk result (λ script. IsOk (script_of {A = GlobalValue} script.items)) }
    ensures fault { IfErr result (λ exit. exit ≡ Exit.Script → IsErr (script_meant text.now)) }
    ensures status { IfErr result (λ exit. (exit ≡ Exit.Script) ⊎ (exit ≡ Exit.Host)) }
{
    match assemble(alloc, text) {
        Ok(script) => Ok(script),
        Err(error) => Err(tell_fault(alloc, text, error, err)),
    }
}

// Writes a whole script, or tells that it can't be written.
fn print<W: Write, E: Write>(script: &[u8], out: &mut W, err: &mut E) -> Exit
    ensures printed { result ≡ Exit.Done → Appends (W.contents out.old) (W.contents out.new) script.now }
    ensures part { HasPart script.now (W.contents out.old) (W.contents out.new) }
    ensures status { (result ≡ Exit.Done) ⊎ (result ≡ Exit.Host) }
{
    match put(script, out) {
        Ok(()) => Exit::Done,
        Err(failure) => tell(failure, err),
    }
}

// Writes a whole text. After a failed write, the writer has a first part of it.
fn put<W: Write>(text: &[u8], out: &mut W) -> Result<(), Failure>
    ensures told { OnOk result (Appends (W.contents out.old) (W.contents out.new) text.now) }
    ensures part { HasPart text.now (W.contents out.old) (W.contents out.new) }
    ensures host { IfErr result (λ failure. exit_of failure ≡ Exit.Host) }
{
    match put_bytes(out, text) {
        Ok(()) => flush(out),
        Err(_) => Err(Failure::Write),
    }
}

fn flush<W: Write>(out: &mut W) -> Result<(), Failure>
    ensures bytes { Keeps (W.contents out.old) (W.contents out.new) }
    ensures host { IfErr result (λ failure. exit_of failure ≡ Exit.Host) }
{
    match out.flush() {
        Ok(()) => Ok(()),
        Err(_) => Err(Failure::Write),
    }
}

// Writes a fault of a text to standard error with the word that it is about, and returns its exit status.
fn tell_fault<E: Write>(alloc: Global, text: &[u8], error: AsmError, err: &mut E) -> Exit
    ensures script { result ≡ Exit.Script → error.kind ≢ asm.Script FaultKind.Memory }
    ensures status { (result ≡ Exit.Script) ⊎ (result ≡ Exit.Host) }
{
    if matches!(error.kind, AsmFault::Script(FaultKind::Memory)) {
        return tell(Failure::Memory, err);
    }
    let hint = Hint::of(alloc, text, error);
    let _ = put_fault(error, hint, err);
    Exit::Script
}

// Writes a fault and a hint in a line.
fn put_fault<E: Write>(error: AsmError, hint: Hint<'_>, err: &mut E) -> io::Result<()> {
    write!(err, "hvpm: {error}")?;
    hint.put(err)?;
    err.write_all(b"\n")
}
