// Lines that are no lines of a script: they ask for something, and change nothing.
ghost use Rattle.std.specs.Prelude.{◌≡◌, ◌==◌, MatchResult, Option, Ok, Err, if◌then◌else◌};
ghost use Rattle.std.specs.Prelude.{is_some, length};
ghost use Rattle.hv_script.specs.Script.{SoFar};
ghost use Rattle.hv_script.specs.declared.fault.FaultKind.TheVariants.{Count};
ghost use Rattle.hv_serve.specs.Bench.{AsksFor};
ghost use Rattle.hv_serve.specs.Meant.{asked, needs_boot, request_line, request_of};

use crate::outcome::Outcome;
use crate::peek::read_peek;
use hv_script::{CutLine, FaultKind};
use std::alloc::Global;

// What a line asks for, by its first word.
#[derive(Clone, Copy)]
pub(crate) enum Request {
    Table,
    Peek,
    Explain,
    Help,
}

impl Request {
    // Returns what a line asks for, or `None` if it is a line of a script.
    pub(crate) fn of(line: &CutLine<'_>) -> Option<Request>
        ensures { result ≡ request_of line.now }
    {
        if line.begins_with(b"table".as_slice()) {
            return Some(Request::Table);
        }
        if line.begins_with(b"peek".as_slice()) {
            return Some(Request::Peek);
        }
        if line.begins_with(b"explain".as_slice()) {
            return Some(Request::Explain);
        }
        if line.begins_with(b"help".as_slice()) {
            return Some(Request::Help);
        }
        None
    }

    // Reads the line. But for help, it asks for something once a machine is booted.
    pub(crate) fn read(self, booted: bool, line: &CutLine<'_>) -> Result<Outcome, FaultKind>
        ensures { (before : Option (SoFar Global)) → booted ≡ is_some before → MatchResult result
            (λ outcome. AsksFor outcome (request_line self before line.now))
            (λ kind. request_line self before line.now ≡ Err kind) }
    {
        if !booted && self.needs_boot() {
            return Err(FaultKind::NoBoot);
        }
        self.read_words(line)
    }

    // Returns whether it is about a machine.
    fn needs_boot(self) -> bool
        ensures { result ≡ needs_boot self }
    {
        match self {
            Request::Table | Request::Peek | Request::Explain => true,
            Request::Help => false,
        }
    }

    fn read_words(self, line: &CutLine<'_>) -> Result<Outcome, FaultKind>
        ensures { MatchResult result (λ outcome. AsksFor outcome (asked self line.now))
            (λ kind. asked self line.now ≡ Err kind) }
    {
        match self {
            Request::Table => alone(line, Outcome::Table),
            Request::Peek => Ok(Outcome::Peek(read_peek(line)?)),
            Request::Explain => alone(line, Outcome::Explain),
            Request::Help => alone(line, Outcome::Help),
        }
    }
}

// Returns the outcome of a line that has no word but its first.
fn alone(line: &CutLine<'_>, outcome: Outcome) -> Result<Outcome, FaultKind>
    ensures { result ≡ (if length line.now == 1 then Ok outcome else Err Count) }
{
    if line.words() != 1 {
        return Err(FaultKind::Count);
    }
    Ok(outcome)
}
