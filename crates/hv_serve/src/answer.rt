// Writing the answer to a line.
ghost use Rattle.std.specs.Prelude.{◌≡◌, ◌+◌, ◌≤◌, ◌<◌, ◌++◌, [], IfOk, OnOk, Some, codes, decimal, drop};
ghost use Rattle.std.specs.Prelude.{IfErr, IfSome, OnErr, length, option_map, unwrap_or};
ghost use Rattle.std.specs.Io.KnownBytes.{Appends};
ghost use Rattle.hv_defs.specs.declared.sizes.TheConstants.{REPS_END};
ghost use Rattle.hv_history.specs.History.{entry_by};
ghost use Rattle.hv_policy.specs.Parts.{next_in, reply_of};
ghost use Rattle.hv_run.specs.Failure.{exit_of};
ghost use Rattle.hv_run.specs.Written.{HasPart};
ghost use Rattle.hv_text.specs.Audit.{entries_text, entry_text};
ghost use Rattle.hv_serve.specs.Bench.{HasAnswered, HasAnsweredPart, kept_in};
ghost use Rattle.hv_serve.specs.Outcome.{fault_text, named_fault_text};
ghost use Rattle.hv_serve.specs.Session.{AreTraced, answer_with, end_text, greeting, history_of, new_text};
ghost use Rattle.hv_serve.specs.Session.{told_of};
ghost use Rattle.hv_serve.specs.Traced.{IsTracedIn};
ghost use Rattle.hv_serve.specs.Turned.{closing};
ghost use Rattle.hv_serve.specs.declared.form.Form.TheVariants.{Json};

use crate::bench::Bench;
use crate::form::Form;
use crate::help::HELP;
use crate::json::put_object;
use crate::outcome::Outcome;
use crate::shown::take_shown;
use hv_history::{EntryRef, Kept};
use hv_run::{Exit, Failure};
use hv_text::{LINE, Scratch, audit_line};
use itoa::Buffer;
use std::alloc::Global;
use std::io::Write;

// Builds the answer to this line, which has this number, before which this number of events had happened, and
// then writes it and flushes it. Returns the outcome of the line, which is out of memory if there is no
// memory for what it shows.
pub(crate) fn put_answer<W: Write>(
    alloc: Global,
    form: Form,
    out: &mut W,
    bench: &Option<Bench>,
    before: usize,
    number: u64,
    line: &[u8],
    outcome: Outcome,
) -> Result<Outcome, Failure>
    ensures told { (form ≡ Json → IsTracedIn before bench.now) → IfOk result (λ told. HasAnswered form number
        before outcome told (kept_in bench.now) (W.contents out.old) (W.contents out.new)) }
    ensures part { (form ≡ Json → IsTracedIn before bench.now) → OnErr result (HasAnsweredPart form number
        before outcome (kept_in bench.now) (W.contents out.old) (W.contents out.new)) }
    ensures host { IfErr result (λ failure. exit_of failure ≡ Exit.Host) }
{
    let mut text = Vec::new(alloc);
    match put_in(alloc, form, &mut text, bench, before, number, line, outcome) {
        Ok(told) => match put_out(out, &text) {
            Ok(()) => Ok(told),
            Err(failure) => Err(failure),
        },
        Err(_) => Err(Failure::Memory),
    }
}

// Writes the answer. What it shows is built in memory first, since memory may run out for it. Returns the
// outcome of the line, which is out of memory if there is no memory for what it shows.
fn put_in<W: Write>(
    alloc: Global,
    form: Form,
    out: &mut W,
    bench: &Option<Bench>,
    before: usize,
    number: u64,
    line: &[u8],
    outcome: Outcome,
) -> Result<Outcome, Failure>
    ensures { (form ≡ Json → IsTracedIn before bench.now) → IfOk result (λ told. HasAnswered form number
        before outcome told (kept_in bench.now) (W.contents out.old) (W.contents out.new)) }
{
    let Some(objects) = objects_of(bench, before) else {
        return Err(Failure::Memory);
    };
    let (told, shown) = take_shown(alloc, bench, line, outcome);
    match put_by_form(form, out, bench, before, number, told, objects, &shown) {
        Ok(()) => Ok(told),
        Err(failure) => Err(failure),
    }
}

fn put_by_form<W: Write>(
    form: Form,
    out: &mut W,
    bench: &Option<Bench>,
    before: usize,
    number: u64,
    outcome: Outcome,
    objects: &[u8],
    shown: &Option<Vec<u8>>,
) -> Result<(), Failure>
    ensures { OnOk result (Appends (W.contents out.old) (W.contents out.new) (answer_with form number before
        outcome (kept_in bench.now) objects.now (option_map (λ text. text.items) shown.now))) }
{
    match form {
        Form::Text => put_text(out, bench, before, number, outcome, shown),
        Form::Json => put_object(out, bench, before, number, outcome, objects, shown),
    }
}

fn put_text<W: Write>(
    out: &mut W,
    bench: &Option<Bench>,
    before: usize,
    number: u64,
    outcome: Outcome,
    shown: &Option<Vec<u8>>,
) -> Result<(), Failure>
    ensures { OnOk result (Appends (W.contents out.old) (W.contents out.new)
        (new_text before (kept_in bench.now)
        ++ told_of number outcome (option_map (λ text. text.items) shown.now))) }
{
    put_new(out, bench, before)?;
    put_told(out, number, outcome, shown)
}

// Returns the objects of the events after the first `before`, each in a line. `None` if memory ran out.
fn objects_of(bench: &Option<Bench>, before: usize) -> Option<&[u8]>
    ensures { IsTracedIn before bench.now → IfSome result (λ objects. AreTraced before (kept_in bench.now)
        objects.now) }
{
    match bench {
        None => Some(b""),
        Some(bench) => bench.objects(before),
    }
}

// Returns the number of events.
pub(crate) fn events_of(bench: &Option<Bench>) -> usize
    ensures { result ≡ length (history_of (kept_in bench.now)) }
{
    match bench {
        None => 0,
        Some(bench) => bench.kept.history().len(),
    }
}

// Writes what comes before all answers, and flushes it.
pub(crate) fn put_greeting<W: Write>(out: &mut W, form: Form) -> Result<(), Failure>
    ensures told { OnOk result (Appends (W.contents out.old) (W.contents out.new) (greeting form)) }
    ensures part { HasPart (greeting form) (W.contents out.old) (W.contents out.new) }
    ensures host { IfErr result (λ failure. exit_of failure ≡ Exit.Host) }
{
    match form {
        Form::Text => Ok(()),
        Form::Json => put_out(out, b"{\"program\":\"hvpm\",\"version\":\"0.1.0\"}\n"),
    }
}

// Builds the number of events, and writes it after all answers and flushes it.
pub(crate) fn put_end<W: Write>(
    alloc: Global,
    out: &mut W,
    form: Form,
    bench: &Option<Bench>,
) -> Result<(), Failure>
    ensures told { OnOk result (Appends (W.contents out.old) (W.contents out.new)
        (closing form (length (history_of (kept_in bench.now))))) }
    ensures part { HasPart (closing form (length (history_of (kept_in bench.now)))) (W.contents out.old)
        (W.contents out.new) }
    ensures host { IfErr result (λ failure. exit_of failure ≡ Exit.Host) }
{
    let mut text = Vec::new(alloc);
    match put_count(&mut text, form, events_of(bench) as u64) {
        Ok(()) => put_out(out, &text),
        Err(_) => Err(Failure::Memory),
    }
}

// Writes a text that was built, and flushes it. After a failed write, the writer has a first part of it.
fn put_out<W: Write>(out: &mut W, text: &[u8]) -> Result<(), Failure>
    ensures told { OnOk result (Appends (W.contents out.old) (W.contents out.new) text.now) }
    ensures part { HasPart text.now (W.contents out.old) (W.contents out.new) }
    ensures host { IfErr result (λ failure. exit_of failure ≡ Exit.Host) }
{
    match hv_text::put_bytes(out, text) {
        Ok(()) => out.flush().map_err(|_| Failure::Write),
        Err(_) => Err(Failure::Write),
    }
}

#[tactic(auto, unfolding(crate::specs::Session::end_text, crate::specs::Json::end_object))]
fn put_count<W: Write>(out: &mut W, form: Form, count: u64) -> Result<(), Failure>
    ensures { OnOk result (Appends (W.contents out.old) (W.contents out.new) (closing form count)) }
{
    match form {
        Form::Text => put_number(out, b"events ", count, b"\n"),
        Form::Json => put_number(out, b"{\"end\":true,\"events\":", count, b"}\n"),
    }
}

// Writes the audit's lines of the events after the first `before`.
fn put_new<W: Write>(out: &mut W, bench: &Option<Bench>, before: usize) -> Result<(), Failure>
    ensures { OnOk result (Appends (W.contents out.old) (W.contents out.new)
        (new_text before (kept_in bench.now))) }
{
    match bench {
        None => Ok(()),
        Some(bench) => put_entries(out, &bench.kept, before),
    }
}

fn put_entries<W: Write>(out: &mut W, kept: &Kept<Global>, before: usize) -> Result<(), Failure>
    ensures { OnOk result (Appends (W.contents out.old) (W.contents out.new)
        (entries_text (before + 1) (drop before kept.now.history))) }
{
    // Proof: a history's length fits 32 bits.
    let _limit = kept.limit();
    let history = kept.history();
    for at in before..history.len() {
        put_entry(out, at as u64 + 1, &history.entry(at))?;
    }
    Ok(())
}

// Writes the audit's line of the event with this number.
fn put_entry<W: Write>(out: &mut W, number: u64, entry: &EntryRef<'_>) -> Result<(), Failure>
    requires most { length entry.now.output.now ≤ 256 }
    requires index { next_in (reply_of entry.now.answer []) < REPS_END }
    ensures { OnOk result (Appends (W.contents out.old) (W.contents out.new)
        (entry_text number (entry_by {A = Global} entry.now) ++ codes "\n")) }
{
    let mut scratch = Scratch::new();
    let mut buffer = [0; LINE];
    let len = audit_line::<Global>(&mut scratch, &mut buffer, number, entry);
    put_bytes(out, &buffer[..len])
}

// Writes what follows the lines of the audit: what the line asks for, or why it wasn't done.
fn put_told<W: Write>(
    out: &mut W,
    number: u64,
    outcome: Outcome,
    shown: &Option<Vec<u8>>,
) -> Result<(), Failure>
    ensures { OnOk result (Appends (W.contents out.old) (W.contents out.new) (told_of number outcome
        (option_map (λ text. text.items) shown.now))) }
{
    match outcome {
        Outcome::Done => Ok(()),
        Outcome::Table => put_shown(out, shown, b""),
        Outcome::Peek(_) | Outcome::Explain => put_line(out, shown),
        Outcome::Help => put_bytes(out, HELP.as_bytes()),
        Outcome::Named(_) => put_named(out, number, shown),
        Outcome::Fault(_) | Outcome::Boot(_) | Outcome::Host(_) => put_fault(out, number, outcome),
    }
}

// Writes what a line shows, in a line. If it shows nothing, that says so.
fn put_line<W: Write>(out: &mut W, shown: &Option<Vec<u8>>) -> Result<(), Failure>
    ensures { OnOk result (Appends (W.contents out.old) (W.contents out.new)
        (unwrap_or (option_map (λ text. text.items) shown.now) (codes "none") ++ codes "\n")) }
{
    put_shown(out, shown, b"none")?;
    put_bytes(out, b"\n")
}

// Writes what a line shows, or another text if it shows nothing.
fn put_shown<W: Write>(out: &mut W, shown: &Option<Vec<u8>>, none: &[u8]) -> Result<(), Failure>
    ensures { OnOk result (Appends (W.contents out.old) (W.contents out.new)
        (unwrap_or (option_map (λ text. text.items) shown.now) none.now)) }
{
    match shown {
        None => put_bytes(out, none),
        Some(text) => put_bytes(out, text),
    }
}

// Writes why the line by names with this number wasn't done.
#[tactic(auto, unfolding(crate::specs::Outcome::named_fault_text))]
fn put_named<W: Write>(out: &mut W, number: u64, shown: &Option<Vec<u8>>) -> Result<(), Failure>
    ensures { OnOk result (Appends (W.contents out.old) (W.contents out.new) (named_fault_text number
        (unwrap_or (option_map (λ text. text.items) shown.now) []))) }
{
    put_number(out, b"fault: line ", number, b": ")?;
    put_shown(out, shown, b"")?;
    put_bytes(out, b"\n")
}

// Writes why the line with this number wasn't done.
fn put_fault<W: Write>(out: &mut W, number: u64, outcome: Outcome) -> Result<(), Failure>
    ensures { OnOk result (Appends (W.contents out.old) (W.contents out.new)
        (fault_text number outcome)) }
{
    put_number(out, b"fault: line ", number, b": ")?;
    put_bytes(out, outcome.text().as_bytes())?;
    put_bytes(out, b"\n")
}

// Writes a number in decimal, between two texts.
pub(crate) fn put_number<W: Write>(
    out: &mut W,
    before: &[u8],
    number: u64,
    after: &[u8],
) -> Result<(), Failure>
    ensures { OnOk result (Appends (W.contents out.old) (W.contents out.new)
        (before.now ++ decimal number ++ after.now)) }
{
    let mut buffer = Buffer::new();
    put_bytes(out, before)?;
    put_bytes(out, buffer.format(number).as_bytes())?;
    put_bytes(out, after)
}

pub(crate) fn put_bytes<W: Write>(out: &mut W, bytes: &[u8]) -> Result<(), Failure>
    ensures { OnOk result (Appends (W.contents out.old) (W.contents out.new) bytes.now) }
{
    out.write_all(bytes).map_err(|_| Failure::Write)
}
