//! The program `hvpm`: runs scripts of hypercalls and accesses on the partition manager, and reports what
//! happened.
//!
//! [`hv_options::command`] parses the command line. Each command has its own crate, with an entry point that
//! takes the bytes of its files and two writers: `hv_run` runs a script and prints its audit, `hv_check`
//! compares an audit with a script, `hv_explain` describes the events in words, `hv_trace` writes them as
//! JSON or a page, `hv_serve` answers line by line, `hv_draw` draws a state or a sequence chart, and
//! `hv_asm` reads scripts by names. This crate only reads the command line and the files, and returns the
//! exit status.
#![tactic(auto)]

mod files;

use crate::files::{Source, read_both, read_source, read_text};
use hv_asm::{asm_text, assemble};
use hv_check::{check_json, check_text};
use hv_draw::{Choice, Only, sequence_text, state_text};
use hv_explain::{explain_text, follow_text};
use hv_options::{Command, Options, Usage, command};
use hv_run::{Exit, Failure, run_text, tell, tell_usage};
use hv_serve::{Form, serve};
use hv_trace::{perfetto_text, report_text, trace_text};
use std::alloc::{AllocError, Global};
use std::env;
use std::io::{BufWriter, ErrorKind, Write};
use std::process::ExitCode;
use std::rt::{Env, Files};
use std::sync::Wait;
use std::thread::Threads;

// The errors of words that don't go together.
const BOTH: &str = "error: SCRIPT and AUDIT can't both be standard input";

const NO_NUMBER: &str =
    "error: the N of --to or --from isn't a number from 0 to 18446744073709551615";

const NO_VP: &str = "error: the ID of --only is neither a partition's ID nor a processor's ID.VP";

const NO_ORDER: &str = "error: --perfetto takes no AUDIT";

const NO_CHART: &str = "error: --from needs --sequence";

// How `draw` is used.
const DRAW: &str = "draw [OPTIONS] <SCRIPT> [AUDIT]";

// The size of the output buffer in bytes, 16 times that of a block of an audit.
const GATHERED: usize = 32_768;

fn main(rt: HostRuntime) -> ExitCode {
    let mut err = rt.stderr();
    let exit = match BufWriter::with_capacity(rt.alloc(), GATHERED, rt.stdout()) {
        Ok(mut out) => start(&rt, &mut out, &mut err),
        Err(_) => tell(Failure::Memory, &mut err),
    };
    ExitCode::from(exit as u8)
}

fn start<R: Env + Files + Input + AllocGlobal + Threads + Wait + Sync, W: Write, E: Write>(
    rt: &R,
    out: &mut W,
    err: &mut E,
) -> Exit {
    let words = match read_words(rt) {
        Ok(words) => words,
        Err(usage) => return tell_usage(usage, out, err),
    };
    match command(rt.alloc(), words.as_slice()) {
        Ok(command) => perform(rt, &command, out, err),
        Err(usage) => tell_usage(with_whole_word(rt.alloc(), usage, &words), out, err),
    }
}

// Returns the words of the command line. The first is the program's name.
fn read_words<R: Env + AllocGlobal>(rt: &R) -> Result<Vec<String>, Usage> {
    match env::args(rt) {
        Ok(words) => words.collect(rt.alloc()).map_err(|_| Usage::Memory),
        Err(error) if error.kind() == ErrorKind::OutOfMemory => Err(Usage::Memory),
        Err(_) => Err(Usage::mistake(rt.alloc(), "error: a word is no UTF-8 text\n")),
    }
}

// Names the whole of a word where clap names its first letter, as at a file whose name begins with `-`.
fn with_whole_word(alloc: Global, usage: Usage, words: &[String]) -> Usage {
    match usage {
        Usage::Words(text) => match cluster_among(words) {
            Some(word) => match whole_in(alloc, text.as_str(), word) {
                Ok(text) => Usage::Words(text),
                Err(_) => Usage::Memory,
            },
            None => Usage::Words(text),
        },
        Usage::Help(text) => Usage::Help(text),
        Usage::Memory => Usage::Memory,
    }
}

// Returns the first word that is a cluster.
fn cluster_among(words: &[String]) -> Option<&str> {
    for word in words {
        if is_cluster(word.as_str()) {
            return Some(word.as_str());
        }
    }
    None
}

// Returns whether a word is one `-` and more than one letter.
fn is_cluster(word: &str) -> bool {
    match word.as_bytes() {
        [b'-', letter, _, ..] => *letter != b'-',
        _ => false,
    }
}

// Puts a word in the place of its first two letters, where a quote ends them.
fn whole_in(alloc: Global, text: &str, word: &str) -> Result<String, AllocError> {
    let mut quoted = String::from_str(alloc, word.get(..2).unwrap_or(word))?;
    quoted.push('\'')?;
    let mut whole = String::from_str(alloc, word)?;
    whole.push('\'')?;
    text.replace(alloc, quoted.as_str(), whole.as_str())
}

// Performs the command.
fn perform<R: Files + Input + AllocGlobal + Threads + Wait + Sync, W: Write, E: Write>(
    rt: &R,
    command: &Command<'_>,
    out: &mut W,
    err: &mut E,
) -> Exit {
    match command {
        Command::Run { options, names } => run_named(rt, options, *names, out, err),
        Command::Check {
            script,
            audit,
            prefix,
            rules,
            json,
            names,
        } => {
            let source = Source::new(script, *names);
            check_named(rt, source, audit, (*prefix, *rules), *json, out, err)
        }
        Command::Explain {
            script,
            audit,
            names,
        } => explain_named(rt, Source::new(script, *names), *audit, out, err),
        Command::Trace {
            script,
            audit,
            perfetto,
            names,
        } => {
            let source = Source::new(script, *names);
            match (audit, perfetto) {
                (Some(_), true) => refuse(NO_ORDER, "trace [OPTIONS] <SCRIPT> [AUDIT]", err),
                (None, true) => perfetto_named(rt, source, out, err),
                (audit, false) => trace_named(rt, source, *audit, out, err),
            }
        }
        Command::Report {
            script,
            audit,
            names,
        } => report_named(rt, Source::new(script, *names), *audit, out, err),
        Command::Serve { json, names } => {
            let form = if *json { Form::Json } else { Form::Text };
            serve(rt.alloc(), rt.reader(), form, *names, out, err)
        }
        Command::Draw {
            script,
            audit,
            sequence,
            to,
            from,
            only,
            names,
        } => {
            let source = Source::new(script, *names);
            if *sequence {
                chart_named(rt, source, *audit, (*from, *to, *only), out, err)
            } else if from.is_some() {
                refuse(NO_CHART, DRAW, err)
            } else {
                draw_named(rt, source, *audit, (*to, *only), out, err)
            }
        }
        Command::Asm { file } => asm_named(rt, file, out, err),
    }
}

// Tells that words are wrong, and how the command is used.
fn refuse<E: Write>(why: &str, usage: &str, err: &mut E) -> Exit {
    let _ = writeln!(
        err,
        "{why}\n\nUsage: hvpm {usage}\n\nFor more information, try '--help'."
    );
    Exit::Usage
}

// Tells of `--names` behind a fault, if the text is a script by names. It returns the exit status.
fn with_hint<E: Write>(
    alloc: Global,
    source: Source<'_>,
    text: &[u8],
    exit: Exit,
    err: &mut E,
) -> Exit {
    if exit == Exit::Script && !source.names {
        if let Ok(script) = assemble(alloc, text) {
            if script.as_slice() != text {
                let _ = writeln!(err, "hvpm: with --names, this is a script by names");
            }
        }
    }
    exit
}

// Runs a script.
fn run_named<R: Files + Input + AllocGlobal + Threads + Wait + Sync, W: Write, E: Write>(
    rt: &R,
    options: &Options<'_>,
    names: bool,
    out: &mut W,
    err: &mut E,
) -> Exit {
    let source = Source::new(options.script, names);
    match read_source(rt, source, err) {
        Ok(script) => {
            let exit = run_text(rt, rt.alloc(), &script, options, out, err);
            with_hint(rt.alloc(), source, &script, exit, err)
        }
        Err(exit) => exit,
    }
}

// Compares an audit with a script.
fn check_named<R: Files + Input + AllocGlobal, W: Write, E: Write>(
    rt: &R,
    source: Source<'_>,
    audit: &str,
    (prefix, rules): (bool, bool),
    json: bool,
    out: &mut W,
    err: &mut E,
) -> Exit {
    if source.name == "-" && audit == "-" {
        return refuse(BOTH, "check [OPTIONS] <SCRIPT> <AUDIT>", err);
    }
    match read_both(rt, source, audit, err) {
        Ok((script, audit)) => {
            let exit = if json {
                check_json(rt.alloc(), &script, &audit, prefix, rules, out, err)
            } else {
                check_text(rt.alloc(), &script, &audit, prefix, rules, out, err)
            };
            with_hint(rt.alloc(), source, &script, exit, err)
        }
        Err(exit) => exit,
    }
}

// Describes in words the events of a script, or of an audit of it.
fn explain_named<R: Files + Input + AllocGlobal, W: Write, E: Write>(
    rt: &R,
    source: Source<'_>,
    audit: Option<&str>,
    out: &mut W,
    err: &mut E,
) -> Exit {
    match read_some(rt, source, audit, "explain [OPTIONS] <SCRIPT> [AUDIT]", err) {
        Ok((script, audit)) => {
            let exit = match audit {
                Some(audit) => follow_text(rt.alloc(), &script, &audit, out, err),
                None => explain_text(rt.alloc(), &script, out, err),
            };
            with_hint(rt.alloc(), source, &script, exit, err)
        }
        Err(exit) => exit,
    }
}

// Writes as JSON the events of a script, or of an audit of it.
fn trace_named<R: Files + Input + AllocGlobal, W: Write, E: Write>(
    rt: &R,
    source: Source<'_>,
    audit: Option<&str>,
    out: &mut W,
    err: &mut E,
) -> Exit {
    match read_some(rt, source, audit, "trace [OPTIONS] <SCRIPT> [AUDIT]", err) {
        Ok((script, audit)) => {
            let exit = match audit {
                Some(audit) => trace_text(rt.alloc(), &script, Some(&audit), out, err),
                None => trace_text(rt.alloc(), &script, None, out, err),
            };
            with_hint(rt.alloc(), source, &script, exit, err)
        }
        Err(exit) => exit,
    }
}

// Writes a page of the events of a script, or of an audit of it.
fn report_named<R: Files + Input + AllocGlobal, W: Write, E: Write>(
    rt: &R,
    source: Source<'_>,
    audit: Option<&str>,
    out: &mut W,
    err: &mut E,
) -> Exit {
    match read_some(rt, source, audit, "report [OPTIONS] <SCRIPT> [AUDIT]", err) {
        Ok((script, audit)) => {
            let exit = match audit {
                Some(audit) => report_text(rt.alloc(), &script, Some(&audit), out, err),
                None => report_text(rt.alloc(), &script, None, out, err),
            };
            with_hint(rt.alloc(), source, &script, exit, err)
        }
        Err(exit) => exit,
    }
}

// Returns the bytes of a script, and of an audit if one is named. Its command is used in this way.
fn read_some<R: Files + Input + AllocGlobal, E: Write>(
    rt: &R,
    source: Source<'_>,
    audit: Option<&str>,
    usage: &str,
    err: &mut E,
) -> Result<(Vec<u8>, Option<Vec<u8>>), Exit> {
    match audit {
        Some("-") if source.name == "-" => Err(refuse(BOTH, usage, err)),
        Some(audit) => {
            let (script, audit) = read_both(rt, source, audit, err)?;
            Ok((script, Some(audit)))
        }
        None => {
            let script = read_source(rt, source, err)?;
            Ok((script, None))
        }
    }
}

// Writes the events of a script as one trace in the Chrome trace event form.
fn perfetto_named<R: Files + Input + AllocGlobal, W: Write, E: Write>(
    rt: &R,
    source: Source<'_>,
    out: &mut W,
    err: &mut E,
) -> Exit {
    match read_source(rt, source, err) {
        Ok(script) => {
            let exit = perfetto_text(rt.alloc(), &script, out, err);
            with_hint(rt.alloc(), source, &script, exit, err)
        }
        Err(exit) => exit,
    }
}

// Draws the messages and signals of a script, or of an audit of it: those that the words choose.
fn chart_named<R: Files + Input + AllocGlobal, W: Write, E: Write>(
    rt: &R,
    source: Source<'_>,
    audit: Option<&str>,
    words: (Option<&str>, Option<&str>, Option<&str>),
    out: &mut W,
    err: &mut E,
) -> Exit {
    match choice_in(words) {
        Ok(choice) => sequence_named(rt, source, audit, choice, out, err),
        Err(why) => refuse(why, DRAW, err),
    }
}

// Returns the choice of `--from`, `--to` and `--only`, or what is wrong with it.
fn choice_in(
    (from, to, only): (Option<&str>, Option<&str>, Option<&str>),
) -> Result<Choice, &'static str> {
    Ok(Choice {
        from: number_or(from, 0)?,
        to: number_or(to, u64::MAX)?,
        only: match only {
            Some(word) => Some(Only::read(word).ok_or(NO_VP)?),
            None => None,
        },
    })
}

// Returns the number that a word is, or this one if there is no word.
fn number_or(word: Option<&str>, none: u64) -> Result<u64, &'static str> {
    match word {
        Some(word) => number_in(word).ok_or(NO_NUMBER),
        None => Ok(none),
    }
}

// Draws the chosen messages and signals of a script, or of an audit of it.
fn sequence_named<R: Files + Input + AllocGlobal, W: Write, E: Write>(
    rt: &R,
    source: Source<'_>,
    audit: Option<&str>,
    choice: Choice,
    out: &mut W,
    err: &mut E,
) -> Exit {
    match read_some(rt, source, audit, DRAW, err) {
        Ok((script, audit)) => {
            let exit = match audit {
                Some(audit) => {
                    sequence_text(rt.alloc(), &script, Some(&audit), choice, out, err)
                }
                None => sequence_text(rt.alloc(), &script, None, choice, out, err),
            };
            with_hint(rt.alloc(), source, &script, exit, err)
        }
        Err(exit) => exit,
    }
}

// Prints the script that the text with this name means.
fn asm_named<R: Files + Input + AllocGlobal, W: Write, E: Write>(
    rt: &R,
    file: &str,
    out: &mut W,
    err: &mut E,
) -> Exit {
    match read_text(rt, file, err) {
        Ok(text) => asm_text(rt.alloc(), text.as_slice(), out, err),
        Err(exit) => exit,
    }
}

// Draws the final state of a script, or of an audit of it, or the state after this number of events: all of
// it, or what the words choose.
fn draw_named<R: Files + Input + AllocGlobal, W: Write, E: Write>(
    rt: &R,
    source: Source<'_>,
    audit: Option<&str>,
    (to, only): (Option<&str>, Option<&str>),
    out: &mut W,
    err: &mut E,
) -> Exit {
    match choice_in((None, to, only)) {
        Ok(Choice { to, only, .. }) => state_named(rt, source, audit, (to, only), out, err),
        Err(why) => refuse(why, DRAW, err),
    }
}

// Draws a state of a script, or of an audit of it, after at most this number of events.
fn state_named<R: Files + Input + AllocGlobal, W: Write, E: Write>(
    rt: &R,
    source: Source<'_>,
    audit: Option<&str>,
    (to, only): (u64, Option<Only>),
    out: &mut W,
    err: &mut E,
) -> Exit {
    match read_some(rt, source, audit, DRAW, err) {
        Ok((script, audit)) => {
            let to = Some(to);
            let exit = match audit {
                Some(audit) => state_text(rt.alloc(), &script, Some(&audit), to, only, out, err),
                None => state_text(rt.alloc(), &script, None, to, only, out, err),
            };
            with_hint(rt.alloc(), source, &script, exit, err)
        }
        Err(exit) => exit,
    }
}

// Returns the decimal number that a word is.
fn number_in(word: &str) -> Option<u64> {
    if word.starts_with('+') {
        return None;
    }
    word.parse::<u64>().ok()
}
