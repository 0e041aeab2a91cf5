// Writing the answer to a line in JSON.
ghost use Rattle.std.specs.Prelude.{◌≡◌, ◌+◌, ◌≤◌, ◌<◌, ◌++◌, [], OnOk, ℕ, List, codes, drop};
ghost use Rattle.std.specs.Prelude.{length, if◌then◌else◌, map, option_map};
ghost use Rattle.std.specs.Io.KnownBytes.{Appends};
ghost use Rattle.hv_defs.specs.declared.sizes.TheConstants.{REPS_END};
ghost use Rattle.hv_history.specs.History.{entry_by};
ghost use Rattle.hv_policy.specs.Parts.{next_in, reply_of};
ghost use Rattle.hv_text.specs.Audit.{entry_text};
ghost use Rattle.hv_serve.specs.Bench.{kept_in};
ghost use Rattle.hv_serve.specs.Json.{all_escaped, elements, escaped, events_value, fault_value, separated};
ghost use Rattle.hv_serve.specs.Json.{object_text, shown_member, string_of, text_value};
ghost use Rattle.hv_serve.specs.Session.{history_of};
ghost use Rattle.hv_serve.specs.declared.help.TheConstants.{HELP as HelpText};

use crate::answer::{put_bytes, put_number};
use crate::bench::Bench;
use crate::help::HELP;
use crate::outcome::Outcome;
use hv_history::{EntryRef, Kept};
use hv_run::Failure;
use hv_text::{LINE, Scratch, audit_line};
use std::alloc::Global;
use std::io::Write;

// Writes the object that answers a line with this outcome.
pub(crate) fn put_object<W: Write>(
    out: &mut W,
    bench: &Option<Bench>,
    before: usize,
    number: u64,
    outcome: Outcome,
    objects: &[u8],
    shown: &Option<Vec<u8>>,
) -> Result<(), Failure>
    ensures { OnOk result (Appends (W.contents out.old) (W.contents out.new) (object_text number
        (events_value (before + 1) (drop before (history_of (kept_in bench.now)))) objects.now outcome
        (option_map (λ text. text.items) shown.now))) }
{
    put_number(out, b"{\"line\":", number, b",\"events\":[")?;
    put_events(out, bench, before)?;
    put_trace(out, objects)?;
    put_bytes(out, b"],\"fault\":")?;
    put_why(out, outcome, shown)?;
    put_shown(out, outcome, shown)?;
    put_bytes(out, b"}\n")
}

// Writes the events after the first `before`.
fn put_events<W: Write>(out: &mut W, bench: &Option<Bench>, before: usize) -> Result<(), Failure>
    ensures { OnOk result (Appends (W.contents out.old) (W.contents out.new)
        (events_value (before + 1) (drop before (history_of (kept_in bench.now))))) }
{
    match bench {
        None => Ok(()),
        Some(bench) => put_entries(out, &bench.kept, before),
    }
}

fn put_entries<W: Write>(out: &mut W, kept: &Kept<Global>, before: usize) -> Result<(), Failure>
    ensures { OnOk result (Appends (W.contents out.old) (W.contents out.new)
        (events_value (before + 1) (drop before kept.now.history))) }
{
    // Proof: a history's length fits 32 bits.
    let _limit = kept.limit();
    let history = kept.history();
    for at in before..history.len() {
        put_entry(out, at == before, at as u64 + 1, &history.entry(at))?;
    }
    Ok(())
}

// Writes the audit's line of the event with this number, after a comma unless it is the first.
fn put_entry<W: Write>(
    out: &mut W,
    first: bool,
    number: u64,
    entry: &EntryRef<'_>,
) -> Result<(), Failure>
    requires most { length entry.now.output.now ≤ 256 }
    requires index { next_in (reply_of entry.now.answer []) < REPS_END }
    ensures { OnOk result (Appends (W.contents out.old) (W.contents out.new)
        ((if first then [] else codes ",")
        ++ string_of (entry_text number (entry_by {A = Global} entry.now)))) }
{
    let mut scratch = Scratch::new();
    let mut buffer = [0; LINE];
    let len = audit_line::<Global>(&mut scratch, &mut buffer, number, entry);
    put_bytes(out, comma(first).as_bytes())?;
    put_string(out, unended(&buffer[..len]))
}

// Returns a line without its line feed.
fn unended(line: &[u8]) -> &[u8]
    ensures { (text : List ℕ) → line.now ≡ text ++ codes "\n" → result.now ≡ text }
{
    &line[..line.len().saturating_sub(1)]
}

// Returns what stands before an element of a list.
fn comma(first: bool) -> &'static str
    ensures { result.now ≡ (if first then [] else codes ",") }
{
    if first { "" } else { "," }
}

// Writes the end of the events, and their objects, each of which stands in a line.
fn put_trace<W: Write>(out: &mut W, objects: &[u8]) -> Result<(), Failure>
    ensures { OnOk result (Appends (W.contents out.old) (W.contents out.new)
        (codes "],\"trace\":[" ++ elements objects.now)) }
{
    put_bytes(out, b"],\"trace\":[")?;
    put_separated(out, &objects[..objects.len().saturating_sub(1)])
}

fn put_separated<W: Write>(out: &mut W, text: &[u8]) -> Result<(), Failure>
    ensures { OnOk result (Appends (W.contents out.old) (W.contents out.new) (map separated text.now)) }
{
    for at in 0..text.len() {
        put_bytes(out, &[separated(text[at])])?;
    }
    Ok(())
}

// Returns a byte of an object, or a comma for the line feed behind one.
fn separated(byte: u8) -> u8
    ensures { result ≡ separated byte }
{
    if byte == b'\n' { b',' } else { byte }
}

// Writes why the line wasn't done, or `null`.
fn put_why<W: Write>(out: &mut W, outcome: Outcome, shown: &Option<Vec<u8>>) -> Result<(), Failure>
    ensures { OnOk result (Appends (W.contents out.old) (W.contents out.new) (fault_value outcome
        (option_map (λ text. text.items) shown.now))) }
{
    match outcome {
        Outcome::Done | Outcome::Table | Outcome::Peek(_) | Outcome::Explain | Outcome::Help =>
            put_bytes(out, b"null"),
        Outcome::Fault(_) | Outcome::Boot(_) | Outcome::Host(_) => {
            put_string(out, outcome.text().as_bytes())
        }
        Outcome::Named(_) => put_value(out, shown),
    }
}

// Writes the member for what the line asks for, if it asks for something.
fn put_shown<W: Write>(
    out: &mut W,
    outcome: Outcome,
    shown: &Option<Vec<u8>>,
) -> Result<(), Failure>
    ensures { OnOk result (Appends (W.contents out.old) (W.contents out.new)
        (shown_member outcome (option_map (λ text. text.items) shown.now))) }
{
    match outcome {
        Outcome::Done
        | Outcome::Fault(_)
        | Outcome::Named(_)
        | Outcome::Boot(_)
        | Outcome::Host(_) => Ok(()),
        Outcome::Table => put_member(out, b",\"table\":", shown),
        Outcome::Peek(_) => put_member(out, b",\"peek\":", shown),
        Outcome::Explain => put_member(out, b",\"explain\":", shown),
        Outcome::Help => put_help(out),
    }
}

// Writes a member's name, and a text as its value, which is `null` without a text.
fn put_member<W: Write>(out: &mut W, name: &[u8], shown: &Option<Vec<u8>>) -> Result<(), Failure>
    ensures { OnOk result (Appends (W.contents out.old) (W.contents out.new)
        (name.now ++ text_value (option_map (λ text. text.items) shown.now))) }
{
    put_bytes(out, name)?;
    put_value(out, shown)
}

// Writes a text as a value, which is `null` without a text.
fn put_value<W: Write>(out: &mut W, shown: &Option<Vec<u8>>) -> Result<(), Failure>
    ensures { OnOk result (Appends (W.contents out.old) (W.contents out.new)
        (text_value (option_map (λ text. text.items) shown.now))) }
{
    match shown {
        None => put_bytes(out, b"null"),
        Some(text) => put_string(out, text),
    }
}

// Writes the member for help.
fn put_help<W: Write>(out: &mut W) -> Result<(), Failure>
    ensures { OnOk result (Appends (W.contents out.old) (W.contents out.new)
        (codes ",\"help\":" ++ string_of HelpText.now)) }
{
    put_bytes(out, b",\"help\":")?;
    put_string(out, HELP.as_bytes())
}

// Writes a text as a string.
fn put_string<W: Write>(out: &mut W, text: &[u8]) -> Result<(), Failure>
    ensures { OnOk result (Appends (W.contents out.old) (W.contents out.new) (string_of text.now)) }
{
    put_bytes(out, b"\"")?;
    put_escaped(out, text)?;
    put_bytes(out, b"\"")
}

fn put_escaped<W: Write>(out: &mut W, text: &[u8]) -> Result<(), Failure>
    ensures { OnOk result (Appends (W.contents out.old) (W.contents out.new) (all_escaped text.now)) }
{
    for at in 0..text.len() {
        put_byte(out, text[at])?;
    }
    Ok(())
}

// Writes a byte of a string.
fn put_byte<W: Write>(out: &mut W, byte: u8) -> Result<(), Failure>
    ensures { OnOk result (Appends (W.contents out.old) (W.contents out.new) (escaped byte)) }
{
    match byte {
        b'\n' => put_bytes(out, b"\\n"),
        b'"' => put_bytes(out, b"\\\""),
        b'\\' => put_bytes(out, b"\\\\"),
        _ => put_bytes(out, &[byte]),
    }
}
