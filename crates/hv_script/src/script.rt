// Scripts.
ghost use Rattle.std.specs.Prelude.{◌≡◌, ◌≢◌, ◌+◌, ◌<◌, ◌≤◌, ◌^◌, IfErr, IfOk, OnOk, length};
ghost use Rattle.hv_script.specs.Reading.{phase_by, read_by, said};
ghost use Rattle.hv_script.specs.Script.{read_lines, script_of};
ghost use Rattle.hv_script.specs.Cursor.{FailsBy, ReadsTo};
ghost use Rattle.hv_script.specs.Words.{lines_of};
ghost use Rattle.hv_script.specs.declared.script.TheConstants.{MOST_BYTES as MOST};

use crate::cut::CutLine;
use crate::fault::{FaultKind, ScriptFault};
use crate::line::Line;
use crate::reading::Reading;
use hv_policy::Config;
use std::alloc::Allocator;

/// The most bytes that a script has.
pub const MOST_BYTES: usize = 1_048_576;

/// A script that has no fault.
#[derive(Drop)]
pub struct Script<A: Allocator> {
    /// The configuration of the root partition, not yet checked for a boot.
    pub config: Config,
    /// The most events that the history keeps.
    pub limit: u32,
    /// The lines of its processors, in the text's order.
    pub lines: Vec<Line<A>, A>,
}

/// Reads a script, or finds its first fault.
///
/// The first line with a fault decides, and in a line the order of the kinds of faults. Out of memory is a
/// fault of its own, whatever faults come after it.
#[tactic(auto, unfolding(crate::specs::Script::script_of))]
pub fn parse<A: Allocator + Clone>(alloc: A, text: &[u8]) -> Result<Script<A>, ScriptFault>
    ensures script { IfOk result (λ script. script_of text.now ≡ Ok (said script)) }
    ensures fault { IfErr result (λ fault. fault.kind ≢ FaultKind.Memory → script_of {A = A} text.now
        ≡ Err fault) }
    ensures long { MOST < length text.now → result ≡ Err (record { line = 0; kind = FaultKind.Long }) }
{
    if text.len() > MOST_BYTES {
        return Err(ScriptFault {
            line: 0,
            kind: FaultKind::Long,
        });
    }
    let reading = read_lines(&alloc, text)?;
    let Some(Reading { boot, lines, .. }) = reading else {
        return Err(ScriptFault {
            line: 0,
            kind: FaultKind::NoBoot,
        });
    };
    Ok(Script {
        config: boot.config,
        limit: boot.limit,
        lines,
    })
}

// Reads the lines of a text, which end at a line feed or at the end of the text.
fn read_lines<A: Allocator + Clone>(
    alloc: &A,
    text: &[u8],
) -> Result<Option<Reading<A>>, ScriptFault>
    requires { length text.now ≤ MOST }
    ensures read { IfOk result (λ reading. read_lines 1 None (lines_of text.now) ≡ Ok (read_by reading)) }
    ensures fault { IfErr result (λ fault. fault.kind ≢ FaultKind.Memory
        → read_lines {A = A} 1 None (lines_of text.now) ≡ Err fault) }
{
    let mut reading = None;
    let mut number = 0usize;
    let mut line = CutLine::new();
    let mut left = text;
    while !left.is_empty() {
        number += 1;
        left = read_next(alloc, &mut reading, &mut line, left).map_err(|kind| ScriptFault {
            line: number,
            kind,
        })?;
    }
    Ok(reading)
}

// Reads the first line of a text, and returns the text after its line feed.
fn read_next<'a, A: Allocator + Clone>(
    alloc: &A,
    reading: &mut Option<Reading<A>>,
    line: &mut CutLine<'a>,
    text: &'a [u8],
) -> Result<&'a [u8], FaultKind>
    requires phases { phase_by reading.old + 1 < 2 ^ 32 }
    requires some { 0 < length text.now }
    ensures read { IfOk result (λ rest. ReadsTo text.now (read_by reading.old) rest.now
        (read_by reading.new)) }
    ensures fault { IfErr result (λ kind. kind ≢ FaultKind.Memory
        → FailsBy text.now (read_by reading.old) kind) }
    ensures shorter { IfOk result (λ rest. length rest.now < length text.now) }
    ensures phase { OnOk result (phase_by reading.new ≤ phase_by reading.old + 1) }
{
    let rest = line.cut(text)?;
    Reading::read_line(alloc, reading, line)?;
    Ok(rest)
}
