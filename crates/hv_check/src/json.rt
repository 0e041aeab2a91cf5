// Printing a verdict as a line of JSON.

use crate::tell::put_wrong;
use crate::verdict::{Verdict, Wrong};
use std::alloc::Global;
use std::io;
use std::io::Write;

/// Prints a verdict as one object in a line. `own` is the policy's line if the audit's differs from it.
///
/// With `rules` the names of rules were compared.
pub fn put_json<W: Write>(
    alloc: Global,
    out: &mut W,
    verdict: Verdict<'_>,
    own: &[u8],
    rules: bool,
) -> io::Result<()> {
    match verdict {
        Verdict::Legal { events } => writeln!(
            out,
            "{{\"legal\":true,\"events\":{events},\"line\":null,\"wrong\":null}}"
        )?,
        Verdict::Illegal { wrong, text } => put_illegal(alloc, out, wrong, text, own, rules)?,
    }
    out.flush()
}

// Prints the object of an audit that isn't legal.
fn put_illegal<W: Write>(
    alloc: Global,
    out: &mut W,
    wrong: Wrong,
    text: &[u8],
    own: &[u8],
    rules: bool,
) -> io::Result<()> {
    let mut words: Vec<u8> = Vec::new(alloc);
    put_wrong(&mut words, wrong, text, own, rules)?;
    write!(
        out,
        "{{\"legal\":false,\"events\":null,\"line\":{},\"wrong\":\"",
        wrong.line()
    )?;
    put_escaped(out, words.as_slice())?;
    out.write_all(b"\"}\n")
}

// Prints printable bytes as a part of a string.
fn put_escaped<W: Write>(out: &mut W, text: &[u8]) -> io::Result<()> {
    for byte in text {
        if matches!(*byte, b'"' | b'\\') {
            out.write_all(b"\\")?;
        }
        out.write_all(&[*byte])?;
    }
    Ok(())
}
