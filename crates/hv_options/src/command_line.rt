// The command line, and the options that its words ask for.
ghost use Rattle.std.specs.Prelude.{◌≡◌, [], Bool, List, ℕ, Some, true, false, codes, map, IfOk, IfErr, OnOk};
ghost use Rattle.clap.specs.Words.{HasKind, Kinds, app_of, found_of, kind_of, rows_of, rule_of};
ghost use Rattle.clap.specs.declared.builder.command.Command.TheViews.{out-Command as fields_of};
ghost use Rattle.hv_options.specs.Options.{Explains, command_line, faults_of, flag_rule, is_given};
ghost use Rattle.hv_options.specs.Options.{is_request, run_line, said_by, said_by_matches, script_rule};

use crate::usage::{Options, Usage};
use clap::error::ErrorKind;
use clap::{Arg, ArgAction, ArgMatches, Command, Error as ClapError};
use std::alloc::{AllocError, Global};
use std::convert::AsStr;

// What `run --help` shows last.
const RUN_NOTES: &str = "\
Exit status:
  0  the audit is complete
  1  the script has a fault or can't be read, or the boot is refused
  2  the command line is wrong
  3  out of memory, the history is full, or a write failed

Example: hvpm run examples/life.hv --serial --table";

// What `--version` shows after the program's name.
pub(crate) const VERSION: &str = "0.1.0";

/// Reads the words of the command line, the first of which is the program's name, as in `env::args`.
///
/// `--serial` and `--table` are optional.
pub fn options<'a, S: AsStr>(alloc: Global, words: &'a [S]) -> Result<Options<'a>, Usage>
    ensures said { IfOk result (λ o. said_by (map S.text words.entry.now)
        ≡ Some (o.script.now, o.serial, o.table)) }
    ensures faultless { OnOk result (faults_of (map S.text words.entry.now) ≡ []) }
    ensures refused { IfErr result (Explains (faults_of (map S.text words.entry.now))) }
    ensures accepted { (script : List ℕ) (serial table : Bool) → faults_of (map S.text words.entry.now) ≡ []
        → said_by (map S.text words.entry.now) ≡ Some (script, serial, table)
        → IfErr result (λ usage. usage ≡ Usage.Memory) }
{
    let command = command(alloc)?;
    match command.try_get_matches_from(words) {
        Ok(matches) => read(alloc, &matches),
        Err(error) => Err(refusal(alloc, &error)),
    }
}

// The whole command line, as clap takes it.
fn command<'a>(alloc: Global) -> Result<Command<'a>, AllocError>
    ensures { IfOk result (λ c. app_of c ≡ command_line) }
{
    let run = run_command(alloc)?;
    Command::new(alloc, "hvpm")
        .version(VERSION)
        .about("Runs a script of hypercalls and accesses on a model of Hyper-V's partition manager")
        .subcommand_required(true)
        .subcommand(run)
}

// The subcommand `run`, with its arguments.
pub(crate) fn run_command<'a>(alloc: Global) -> Result<Command<'a>, AllocError>
    ensures shape { IfOk result (λ c. app_of c ≡ run_line) }
    ensures local { IfOk result (λ c. (fields_of c).has_globals ≡ false) }
{
    Command::new(alloc, "run")
        .about("Runs a script of calls, accesses and phases, and prints its audit")
        .after_help(RUN_NOTES)
        .arg(script_argument(alloc))?
        .arg(serial_flag(alloc))?
        .arg(table_flag(alloc))
}

// The script, which can't be left out.
pub(crate) fn script_argument<'a>(alloc: Global) -> Arg<'a>
    ensures rule { rule_of result ≡ script_rule }
    ensures local { result.global ≡ false }
{
    Arg::new(alloc, "SCRIPT")
        .required(true)
        .help("The script's file, or - for standard input")
}

fn serial_flag<'a>(alloc: Global) -> Arg<'a>
    ensures rule { rule_of result ≡ flag_rule (codes "serial") }
    ensures local { result.global ≡ false }
{
    flag(
        alloc,
        "serial",
        "Run the lines in the script's order, and start no thread",
    )
}

fn table_flag<'a>(alloc: Global) -> Arg<'a>
    ensures rule { rule_of result ≡ flag_rule (codes "table") }
    ensures local { result.global ≡ false }
{
    flag(
        alloc,
        "table",
        "Print the table of partitions after the audit",
    )
}

pub(crate) fn flag<'a>(alloc: Global, name: &'a str, help: &'a str) -> Arg<'a>
    ensures rule { rule_of result ≡ flag_rule name.entry.now }
    ensures local { result.global ≡ false }
{
    Arg::new(alloc, name)
        .long(name)
        .action(ArgAction::SetTrue)
        .help(help)
}

// Reads the options from the matches of words that clap accepted.
fn read<'a>(alloc: Global, matches: &ArgMatches<'a>) -> Result<Options<'a>, Usage>
    ensures said { IfOk result (λ o. said_by_matches matches.now ≡ Some (o.script.now, o.serial, o.table)) }
    ensures refused { IfErr result (Explains []) }
    ensures accepted { (script : List ℕ) (serial table : Bool)
        → said_by_matches matches.now ≡ Some (script, serial, table)
        → IfErr result (λ usage. usage ≡ Usage.Memory) }
{
    let Some((_, run)) = matches.subcommand() else {
        return Err(Usage::mistake(alloc, "error: no subcommand\n"));
    };
    let Some(script) = run.get_str("SCRIPT") else {
        return Err(Usage::mistake(alloc, "error: no script\n"));
    };
    let serial = is_given(run, "serial");
    let table = is_given(run, "table");
    Ok(Options {
        script,
        serial,
        table,
    })
}

// Returns `true` if a flag was given: its value is `true` then.
pub(crate) fn is_given(matches: &ArgMatches<'_>, name: &str) -> bool
    ensures { result ≡ is_given name.now (rows_of (found_of matches.now)) }
{
    match matches.get_str(name) {
        Some(value) => value == "true",
        None => false,
    }
}

// Turns an error of clap's, with its text, into a refusal. Help and the version are shown and are no mistake.
pub(crate) fn refusal(alloc: Global, error: &ClapError) -> Usage
    ensures explains { (kinds : Kinds) → HasKind kinds error.now → Explains kinds result }
    ensures memory { kind_of error.now ≡ ErrorKind.OutOfMemory → result ≡ Usage.Memory }
{
    let kind = error.kind();
    if kind == ErrorKind::OutOfMemory {
        return Usage::Memory;
    }
    match error.to_string(alloc) {
        Ok(text) if is_request(kind) => Usage::Help(text),
        Ok(text) => Usage::Words(text),
        Err(_) => Usage::Memory,
    }
}

// Returns `true` if an error of this kind is no mistake: its text is what the words ask for.
fn is_request(kind: ErrorKind) -> bool
    ensures { result ≡ is_request kind }
{
    matches!(kind, ErrorKind::DisplayHelp | ErrorKind::DisplayVersion)
}
