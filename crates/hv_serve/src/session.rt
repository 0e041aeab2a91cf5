// A session, from its first line to its last.
ghost use Rattle.std.specs.Prelude.{◌≡◌, ◌≢◌, ℕ, List, Option, IfErr, IfOk, OnOk};
ghost use Rattle.hv_run.specs.Failure.{exit_of};
ghost use Rattle.hv_serve.specs.Bench.{StandsFor};
ghost use Rattle.hv_serve.specs.Input.{AreKept};
ghost use Rattle.hv_serve.specs.Session.{HasServed, HasServedPart, Served};
ghost use Rattle.hv_serve.specs.Turned.{HasFailed, HasTurned, is_silent};

use crate::answer::{events_of, put_answer, put_end, put_greeting};
use crate::bench::{Bench, take_line};
use crate::form::{Form, Place};
use crate::input::{LineEnd, read_line};
use hv_run::{Exit, Failure, tell};
use std::alloc::Global;
use std::io::{BufReader, Read, Write};

/// Serves the lines of a reader until it ends, with answers in this form. With `names` they may be by names.
///
/// For each line it does what the line asks for, writes the answer and flushes it, and only then reads the
/// next line. At the end it writes the number of events, as an audit ends. If it ends early, it writes the
/// reason to `err`, in one line: the input can't be read, the output can't be written, or there is no memory
/// at the start or for an answer. The output is then a first part of the answers to the first lines.
///
/// The answer to a line that has a fault, or that the host refuses, is `fault: line N: TEXT`, and serving
/// continues.
///
/// In JSON the program first names itself in one line. Then each line has an answer of one line, and so has
/// the number of events.
pub fn serve<R: Read + Drop, W: Write, E: Write>(
    alloc: Global,
    reader: R,
    form: Form,
    names: bool,
    out: &mut W,
    err: &mut E,
) -> Exit
    ensures served { result ≡ Exit.Done → HasServed form names (R.remaining reader) (W.contents out.old)
        (W.contents out.new) }
    ensures failed { result ≢ Exit.Done → HasServedPart form names result (R.remaining reader)
        (W.contents out.old) (W.contents out.new) }
    ensures no_usage { result ≢ Exit.Usage }
{
    match BufReader::new(alloc, reader) {
        Ok(mut reader) => match serve_lines(alloc, &mut reader, form, names, out) {
            Ok(()) => Exit::Done,
            Err(failure) => tell(failure, err),
        },
        Err(_) => tell(Failure::Memory, err),
    }
}

// Serves the lines of a reader until it ends.
fn serve_lines<R: Read, W: Write>(
    alloc: Global,
    reader: &mut R,
    form: Form,
    names: bool,
    out: &mut W,
) -> Result<(), Failure>
    ensures served { OnOk result (HasServed form names (R.remaining reader.old) (W.contents out.old)
        (W.contents out.new)) }
    ensures failed { IfErr result (λ failure. HasServedPart form names (exit_of failure)
        (R.remaining reader.old) (W.contents out.old) (W.contents out.new)) }
{
    put_greeting(out, form)?;
    let mut bench = None;
    let mut line = Vec::new(alloc);
    for number in 1..u64::MAX {
        if serve_line(
            alloc, &mut bench, &mut line, number, reader, form, names, out,
        )? {
            return put_end(alloc, out, form, &bench);
        }
    }
    Err(Failure::Unreadable)
}

// Reads a line and answers it. Returns whether it was the last one.
fn serve_line<R: Read, W: Write>(
    alloc: Global,
    bench: &mut Option<Bench>,
    line: &mut Vec<u8>,
    number: u64,
    reader: &mut R,
    form: Form,
    names: bool,
    out: &mut W,
) -> Result<bool, Failure>
    ensures turned { (before : Option Served) → StandsFor bench.old before → IfOk result (λ last.
        HasTurned form names number before last bench.new (R.remaining reader.old) (R.remaining reader.new)
        (W.contents out.old) (W.contents out.new)) }
    ensures failed { (before : Option Served) → StandsFor bench.old before → IfErr result (λ failure.
        HasFailed form names number before failure (R.remaining reader.old) (W.contents out.old)
        (W.contents out.new)) }
{
    let end = read_line(reader, line)?;
    let before = events_of(bench);
    let at = Place {
        form,
        names,
        number,
    };
    let outcome = take_line(alloc, at, bench, line, end.lost);
    if is_silent(form, end, line) {
        return Ok(end.last);
    }
    put_answer(alloc, form, out, bench, before, number, line, outcome)?;
    Ok(end.last)
}

// Returns whether a line has no answer: in JSON, the end of the input after a line feed.
fn is_silent(form: Form, end: LineEnd, line: &[u8]) -> bool
    ensures { (bytes : List ℕ) → AreKept bytes line.now end.lost → result ≡ is_silent form end.last bytes }
{
    match form {
        Form::Text => false,
        Form::Json => end.last && end.lost.is_none() && line.is_empty(),
    }
}
