// The files that the command line names. A name is a path, or `-` for standard input.
ghost use Rattle.std.specs.Prelude.{◌≡◌, Err, IfOk, IsErr, IsTrue, Ok, false};
ghost use Rattle.hv_asm.specs.Text.{script_meant};

use hv_asm::script_by_names;
use hv_run::{Exit, Failure, read_script, tell, unread};
use std::alloc::Global;
use std::fs::File;
use std::io;
use std::io::{ErrorKind, Read, Write};
use std::rt::Files;

// The most bytes that an audit may have: over a million of the longest lines.
const MOST_AUDIT: u64 = 1_073_741_824;

/// A script that the command line names.
#[derive(Clone, Copy)]
pub struct Source<'a> {
    pub name: &'a str,
    /// Whether its lines may be by names.
    pub names: bool,
}

impl<'a> Source<'a> {
    pub fn new(name: &'a str, names: bool) -> Source<'a> {
        Source { name, names }
    }
}

/// Returns the bytes of a script. If there are none, the reason is written to `err`.
pub fn read_source<R: Files + Input + AllocGlobal, E: Write>(
    rt: &R,
    source: Source<'_>,
    err: &mut E,
) -> Result<Vec<u8>, Exit> {
    let text = read_text(rt, source.name, err)?;
    script_in(rt.alloc(), text, source.names, err)
}

/// Returns the bytes of a script and of the audit with this name.
///
/// At most one of them may be standard input. If there are none, the reason is written to `err`. If neither
/// can be read, the script's reason is.
pub fn read_both<R: Files + Input + AllocGlobal, E: Write>(
    rt: &R,
    source: Source<'_>,
    audit: &str,
    err: &mut E,
) -> Result<(Vec<u8>, Vec<u8>), Exit> {
    let text = read_text(rt, source.name, err)?;
    let audit = read_audit(rt, audit, err)?;
    let script = script_in(rt.alloc(), text, source.names, err)?;
    Ok((script, audit))
}

/// Returns the bytes of the file with this name, as those of a script.
///
/// If they cannot be read, the reason is written to `err`.
pub fn read_text<R: Files + Input + AllocGlobal, E: Write>(
    rt: &R,
    name: &str,
    err: &mut E,
) -> Result<Vec<u8>, Exit> {
    let read = if name == "-" {
        read_script(rt.alloc(), rt.reader())
    } else {
        match File::open(rt, name) {
            Ok(file) => read_script(rt.alloc(), file),
            Err(error) => Err(error),
        }
    };
    match read {
        Ok(text) => Ok(text),
        Err(error) => Err(tell_unread("script", name, &error, err)),
    }
}

// Returns the script that a text is, or with `names` the script that it means.
//
// If it means none, the reason is written to `err`.
fn script_in<E: Write>(
    alloc: Global,
    text: Vec<u8>,
    names: bool,
    err: &mut E,
) -> Result<Vec<u8>, Exit>
    ensures itself { names ≡ false → result ≡ Ok text }
    ensures meant { IsTrue names → IfOk result (λ script. script_meant text.items ≡ Ok script.items) }
    ensures fault { IsTrue names → result ≡ Err Exit.Script → IsErr (script_meant text.items) }
{
    if names {
        script_by_names(alloc, text.as_slice(), err)
    } else {
        Ok(text)
    }
}

// Returns the bytes of the audit with this name. If they cannot be read, the reason is written to `err`.
fn read_audit<R: Files + Input + AllocGlobal, E: Write>(
    rt: &R,
    name: &str,
    err: &mut E,
) -> Result<Vec<u8>, Exit> {
    let read = if name == "-" {
        read_all(rt.alloc(), rt.reader())
    } else {
        match File::open(rt, name) {
            Ok(file) => read_all(rt.alloc(), file),
            Err(error) => Err(error),
        }
    };
    match read {
        Ok(audit) if audit.len() as u64 <= MOST_AUDIT => Ok(audit),
        Ok(_) => {
            let _ = writeln!(err, "hvpm: the audit is too long");
            Err(Exit::Script)
        }
        Err(error) => Err(tell_unread("audit", name, &error, err)),
    }
}

// Reads all bytes of an audit, or one byte more than the most if it is too long.
fn read_all<R: Read + Drop>(alloc: Global, reader: R) -> io::Result<Vec<u8>> {
    let mut audit = Vec::new(alloc);
    reader.take(MOST_AUDIT + 1).read_to_end(&mut audit)?;
    Ok(audit)
}

// Tells that a file can't be read, and in a second line the file and the reason.
fn tell_unread<E: Write>(what: &str, name: &str, error: &io::Error, err: &mut E) -> Exit {
    if error.kind() == ErrorKind::OutOfMemory {
        return tell(Failure::Memory, err);
    }
    let name = if name == "-" { "standard input" } else { name };
    let _ = writeln!(err, "hvpm: cannot read the {what}\nhvpm: {name}: {error}");
    Exit::Script
}
