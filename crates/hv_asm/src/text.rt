// Whole texts.
ghost use Rattle.std.specs.Prelude.{◌≡◌, ◌≢◌, ◌+◌, ◌<◌, ◌≤◌, ℕ, Err, IfErr, IfOk, IsOk, Ok, [], length};
ghost use Rattle.std.specs.declared.alloc.Global.{Global};
ghost use Rattle.hv_asm.specs.Made.{IsPushed};
ghost use Rattle.hv_asm.specs.Text.{line_end, script_meant, with_lines};
ghost use Rattle.hv_asm.specs.declared.fault.AsmFault.TheVariants as asm;
ghost use Rattle.hv_script.specs.Script.{script_of};
ghost use Rattle.hv_script.specs.declared.script.TheConstants.{MOST_BYTES};

use crate::fault::{AsmError, AsmFault};
use crate::line::push_line;
use crate::push::push_bytes;
use hv_script::{FaultKind, MOST_BYTES, around, parse};
use std::alloc::Global;

/// Returns the script that a text means: a line for each line.
///
/// The first line by names with a fault decides. Where there is none, the first fault of the script does.
#[tactic(auto, unfolding(crate::specs::Text::script_meant))]
pub fn assemble(alloc: Global, text: &[u8]) -> Result<Vec<u8>, AsmError>
    ensures meant { IfOk result (λ script. script_meant text.now ≡ Ok script.items) }
    ensures fault { IfErr result (λ error. error.kind ≢ asm.Script FaultKind.Memory
        → script_meant text.now ≡ Err error) }
    ensures parses { IfOk result (λ script. IsOk (script_of {A = Global} script.items)) }
{
    if text.len() > MOST_BYTES {
        return Err(AsmError {
            line: 0,
            kind: AsmFault::Script(FaultKind::Long),
        });
    }
    let script = script_of_lines(alloc, text)?;
    match parse(alloc, script.as_slice()) {
        Ok(_) => Ok(script),
        Err(fault) => Err(AsmError {
            line: fault.line,
            kind: AsmFault::Script(fault.kind),
        }),
    }
}

// The lines that those of a text mean.
fn script_of_lines(alloc: Global, text: &[u8]) -> Result<Vec<u8>, AsmError>
    requires { length text.now ≤ MOST_BYTES }
    ensures meant { IfOk result (λ script. with_lines [] 1 text.now ≡ Ok script.items) }
    ensures fault { IfErr result (λ error. error.kind ≢ asm.Script FaultKind.Memory
        → with_lines [] 1 text.now ≡ Err error) }
{
    let mut script = Vec::new(alloc);
    let mut number = 0usize;
    let mut left = text;
    while !left.is_empty() {
        number += 1;
        left = push_next(&mut script, left).map_err(|kind| AsmError { line: number, kind })?;
    }
    Ok(script)
}

// Adds what the first line of a text means, and returns the text behind it.
fn push_next<'a>(script: &mut Vec<u8>, text: &'a [u8]) -> Result<&'a [u8], AsmFault>
    requires { 0 < length text.now }
    ensures next { IfOk result (λ rest. (number : ℕ) → with_lines script.old.items number text.now
        ≡ with_lines script.new.items (number + 1) rest.now) }
    ensures fault { IfErr result (λ fault. fault ≢ asm.Script FaultKind.Memory → (number : ℕ)
        → with_lines script.old.items number text.now ≡ Err (record { line = number; kind = fault })) }
    ensures shorter { IfOk result (λ rest. length rest.now < length text.now) }
{
    let (line, rest) = around(text, b'\n');
    push_line(script, line)?;
    push_end(script, line.len() < text.len())?;
    Ok(rest)
}

// Adds a line feed, if there is one.
fn push_end(script: &mut Vec<u8>, has_feed: bool) -> Result<(), AsmFault>
    ensures { IsPushed result script.old.items script.new.items (Ok (line_end has_feed)) }
{
    if has_feed {
        return push_bytes(script, b"\n".as_slice());
    }
    Ok(())
}
