// Printing a verdict.
ghost use Rattle.std.specs.Prelude.{◌≤◌, length};

use crate::compare::behind;
use crate::verdict::{Verdict, Wrong};
use hv_policy::Caller;
use itoa::Buffer;
use std::io;
use std::io::Write;

// The most bytes printed of a line of the audit.
const SHOWN: usize = 800;

/// Prints a verdict in one line. `own` is the policy's line if the audit's differs from it.
///
/// With `rules` the names of rules were compared.
pub fn put_verdict<W: Write>(
    out: &mut W,
    verdict: Verdict<'_>,
    own: &[u8],
    rules: bool,
) -> io::Result<()> {
    match verdict {
        Verdict::Legal { events } => writeln!(out, "legal, {events} events")?,
        Verdict::Illegal { wrong, text } => {
            write!(out, "line {}: ", wrong.line())?;
            put_wrong(out, wrong, text, own, rules)?;
            out.write_all(b"\n")?;
        }
    }
    out.flush()
}

/// Prints what is wrong with a line, and what the policy answers there.
pub fn put_wrong<W: Write>(
    out: &mut W,
    wrong: Wrong,
    text: &[u8],
    own: &[u8],
    rules: bool,
) -> io::Result<()> {
    match wrong {
        Wrong::Unreadable { .. } => {
            write!(out, "wanted the line of an event, found ")?;
            put_found(out, text)
        }
        Wrong::Idle { by, .. } => {
            put_caller(out, by)?;
            write!(out, " has nothing left to do in this phase")
        }
        Wrong::Full { by, .. } => {
            put_caller(out, by)?;
            write!(
                out,
                " has no event left, since the script's limit is reached"
            )
        }
        Wrong::Differs { .. } => put_difference(
            out,
            Parts::of(first_line(own)),
            Parts::of(first_line(text)),
            rules,
        ),
        Wrong::Early { by, .. } => {
            write!(out, "wanted an event of ")?;
            put_caller(out, by)?;
            write!(out, ", found ")?;
            put_found(out, text)
        }
        Wrong::Count { events } if is_cut(text, events) => put_cut(out),
        Wrong::Count { events } => {
            write!(out, "wanted events {events}, found ")?;
            put_found(out, text)
        }
        Wrong::Behind { .. } => {
            write!(out, "wanted the end, found ")?;
            put_found(out, after_line(text))
        }
    }
}

// Whether a text is the last line of an audit with this number of events, without its line feed.
fn is_cut(text: &[u8], events: u64) -> bool {
    let mut buffer = Buffer::new();
    match behind(text, b"events ") {
        Some(count) => count == buffer.format(events).as_bytes(),
        None => false,
    }
}

// Prints that a line is cut off before its line feed.
fn put_cut<W: Write>(out: &mut W) -> io::Result<()> {
    write!(out, "wanted a line feed, found the end")
}

fn put_caller<W: Write>(out: &mut W, by: Caller) -> io::Result<()> {
    write!(out, "{}.{}", by.part, by.vp)
}

// The line of an event in three parts: its number, the processor with its request, and the answer.
#[derive(Clone, Copy)]
struct Parts<'a> {
    number: &'a [u8],
    asked: &'a [u8],
    reply: &'a [u8],
}

impl<'a> Parts<'a> {
    fn of(line: &'a [u8]) -> Parts<'a> {
        let (number, event) = cut(line, space_from(line, 0));
        let (asked, reply) = cut(event, reply_in(event));
        Parts {
            number,
            asked,
            reply,
        }
    }
}

// Returns what is compared of an answer: without `rules`, not what stands behind `fault`, or behind `denied`
// and the result value.
fn compared(reply: &[u8], rules: bool) -> &[u8] {
    if rules { reply } else { without_rule(reply) }
}

fn without_rule(reply: &[u8]) -> &[u8] {
    let (word, rest) = cut(reply, space_from(reply, 0));
    if word == b"fault".as_slice() {
        word
    } else if word == b"denied".as_slice() {
        let (value, _) = cut(rest, space_from(rest, 0));
        &reply[..reply.len().min(word.len() + 1 + value.len())]
    } else {
        reply
    }
}

// Splits a text at a space. If there is none, everything is before it.
fn cut(text: &[u8], space: usize) -> (&[u8], &[u8]) {
    if space < text.len() {
        (&text[..space], &text[space + 1..])
    } else {
        (text, &[])
    }
}

// Returns the place of the first space from a place on, or the length.
fn space_from(text: &[u8], from: usize) -> usize
    requires { from ≤ length text.now }
    ensures least { from ≤ result }
    ensures most { result ≤ length text.now }
{
    let mut at = from;
    while at < text.len() && text[at] != b' ' {
        at += 1;
    }
    at
}

// Returns the place of the space before the word that begins the answer to an event, or the length.
fn reply_in(event: &[u8]) -> usize {
    let mut at = space_from(event, 0);
    while at < event.len() {
        let end = space_from(event, at + 1);
        let word = &event[at + 1..end];
        if word == b"ok".as_slice()
            || word == b"more".as_slice()
            || word == b"denied".as_slice()
            || word == b"fault".as_slice()
        {
            return at;
        }
        at = end;
    }
    at
}

// Prints the first part in which a line differs from the policy's. With `rules` the names of rules count.
fn put_difference<W: Write>(
    out: &mut W,
    own: Parts<'_>,
    found: Parts<'_>,
    rules: bool,
) -> io::Result<()> {
    if own.number != found.number {
        write!(out, "wanted number ")?;
        put_shown(out, own.number)?;
        write!(out, ", found ")?;
        put_shown(out, found.number)
    } else if own.asked != found.asked {
        write!(out, "wanted ")?;
        put_shown(out, own.asked)?;
        write!(out, ", found ")?;
        put_shown(out, found.asked)
    } else if compared(own.reply, rules) != compared(found.reply, rules) {
        put_shown(out, own.asked)?;
        write!(out, ": wanted ")?;
        put_shown(out, own.reply)?;
        write!(out, ", found ")?;
        put_shown(out, found.reply)
    } else {
        put_cut(out)
    }
}

// Returns the first line of a text, without its line feed.
fn first_line(text: &[u8]) -> &[u8] {
    match text.iter().position(|byte| *byte == b'\n') {
        Some(at) => &text[..at],
        None => text,
    }
}

// Returns the text after the first line.
fn after_line(text: &[u8]) -> &[u8] {
    match text.iter().position(|byte| *byte == b'\n') {
        Some(at) => &text[at + 1..],
        None => &[],
    }
}

// Prints the first line of a text, or that the text is empty.
fn put_found<W: Write>(out: &mut W, text: &[u8]) -> io::Result<()> {
    if text.is_empty() {
        write!(out, "the end")
    } else if text[0] == b'\n' {
        write!(out, "an empty line")
    } else {
        put_shown(out, first_line(text))
    }
}

// Prints bytes, with `?` for each that is not printable, and at most `SHOWN` of them.
fn put_shown<W: Write>(out: &mut W, text: &[u8]) -> io::Result<()> {
    let mut line = [b'?'; SHOWN];
    let len = text.len().min(SHOWN);
    for at in 0..len {
        if matches!(text[at], 0x20..=0x7E) {
            line[at] = text[at];
        }
    }
    out.write_all(&line[..len])?;
    if len < text.len() {
        out.write_all(b"..")?;
    }
    Ok(())
}
