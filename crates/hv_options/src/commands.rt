// The command line of the whole program, and the command that its words ask for.
ghost use Rattle.std.specs.Prelude.{◌≡◌, [], Some, codes, false, map, IfOk, IfErr, OnOk, option_map};
ghost use Rattle.clap.specs.Words.{app_of, first_of, found_of, rows_of, rule_of};
ghost use Rattle.clap.specs.declared.builder.command.Command.TheViews.{out-Command as fields_of};
ghost use Rattle.hv_options.specs.Options.{Explains, flag_rule};
ghost use Rattle.hv_options.specs.Commands.{Asked, asked_by, asked_by_matches, asked_by_rows, asked_for};
ghost use Rattle.hv_options.specs.Commands.{asm_by, asm_line, audit_rule, check_by, check_line};
ghost use Rattle.hv_options.specs.Commands.{comparing_line, drawing_line};
ghost use Rattle.hv_options.specs.Commands.{draw_by, draw_line, explain_by, explain_line, file_rule};
ghost use Rattle.hv_options.specs.Commands.{named_run_line, program_faults, program_line, report_by};
ghost use Rattle.hv_options.specs.Commands.{report_line, run_by, serve_by, serve_line, trace_by, trace_line};
ghost use Rattle.hv_options.specs.Commands.{value_rule, with_audits, with_others};

use crate::command_line::{VERSION, flag, is_given, refusal, run_command, script_argument};
use crate::usage::{Command, Options, Usage};
use clap::{Arg, ArgMatches, Command as Line};
use std::alloc::{AllocError, Global};
use std::convert::AsStr;

/// Reads the words of the program's command line, the first of which is the program's name, as in
/// `env::args`.
///
/// It doesn't check whether two of the files are standard input.
pub fn command<'a, S: AsStr>(alloc: Global, words: &'a [S]) -> Result<Command<'a>, Usage>
    ensures said { IfOk result (λ c. asked_by (map S.text words.entry.now) ≡ Some (asked_for c)) }
    ensures faultless { OnOk result (program_faults (map S.text words.entry.now) ≡ []) }
    ensures refused { IfErr result (Explains (program_faults (map S.text words.entry.now))) }
    ensures accepted { (asked : Asked) → program_faults (map S.text words.entry.now) ≡ []
        → asked_by (map S.text words.entry.now) ≡ Some asked
        → IfErr result (λ usage. usage ≡ Usage.Memory) }
{
    let line = program_line(alloc)?;
    match line.try_get_matches_from(words) {
        Ok(matches) => read(alloc, &matches),
        Err(error) => Err(refusal(alloc, &error)),
    }
}

// The whole command line, as clap takes it.
fn program_line<'a>(alloc: Global) -> Result<Line<'a>, AllocError>
    ensures { IfOk result (λ c. app_of c ≡ program_line) }
{
    let line = Line::new(alloc, "hvpm")
        .version(VERSION)
        .about("Runs a script of hypercalls and accesses on a model of Hyper-V's partition manager")
        .subcommand_required(true);
    let line = with_audits(alloc, line)?;
    with_others(alloc, line)
}

// Adds the commands that read a script, or an audit beside it.
fn with_audits<'a>(alloc: Global, line: Line<'a>) -> Result<Line<'a>, AllocError>
    ensures { IfOk result (λ c. app_of c ≡ with_audits (app_of line.entry)) }
{
    let run = named_run_command(alloc)?;
    let line = line.subcommand(run)?;
    let check = check_command(alloc)?;
    let line = line.subcommand(check)?;
    let explain = explain_command(alloc)?;
    let line = line.subcommand(explain)?;
    let trace = trace_command(alloc)?;
    let line = line.subcommand(trace)?;
    let report = report_command(alloc)?;
    line.subcommand(report)
}

// Adds the other commands.
fn with_others<'a>(alloc: Global, line: Line<'a>) -> Result<Line<'a>, AllocError>
    ensures { IfOk result (λ c. app_of c ≡ with_others (app_of line.entry)) }
{
    let serve = serve_command(alloc)?;
    let line = line.subcommand(serve)?;
    let draw = draw_command(alloc)?;
    let line = line.subcommand(draw)?;
    let asm = asm_command(alloc)?;
    line.subcommand(asm)
}

// The subcommand `run`, whose script may be by names.
fn named_run_command<'a>(alloc: Global) -> Result<Line<'a>, AllocError>
    ensures shape { IfOk result (λ c. app_of c ≡ named_run_line) }
    ensures local { IfOk result (λ c. (fields_of c).has_globals ≡ false) }
{
    let run = run_command(alloc)?;
    run.arg(names_flag(alloc))
}

fn check_command<'a>(alloc: Global) -> Result<Line<'a>, AllocError>
    ensures shape { IfOk result (λ c. app_of c ≡ check_line) }
    ensures local { IfOk result (λ c. (fields_of c).has_globals ≡ false) }
{
    let check = comparing_command(alloc)?;
    let check = check.arg(flag(alloc, "json", "Print the verdict as JSON"))?;
    check.arg(names_flag(alloc))
}

// The subcommand `check` with what it compares.
fn comparing_command<'a>(alloc: Global) -> Result<Line<'a>, AllocError>
    ensures shape { IfOk result (λ c. app_of c ≡ comparing_line) }
    ensures local { IfOk result (λ c. (fields_of c).has_globals ≡ false) }
{
    Line::new(alloc, "check")
        .about("Tells whether an audit is one that a run of the script may write")
        .arg(script_argument(alloc))?
        .arg(audit_argument(alloc, true, "The audit's file, or - for standard input"))?
        .arg(flag(alloc, "prefix", "Take an audit that ends early"))?
        .arg(flag(alloc, "no-rules", "Compare no names of rules"))
}

fn explain_command<'a>(alloc: Global) -> Result<Line<'a>, AllocError>
    ensures shape { IfOk result (λ c. app_of c ≡ explain_line) }
    ensures local { IfOk result (λ c. (fields_of c).has_globals ≡ false) }
{
    Line::new(alloc, "explain")
        .about("Runs a script, and tells each event and its answer in words")
        .arg(script_argument(alloc))?
        .arg(audit_argument(
            alloc,
            false,
            "An audit whose order the events take, or - for standard input",
        ))?
        .arg(names_flag(alloc))
}

fn trace_command<'a>(alloc: Global) -> Result<Line<'a>, AllocError>
    ensures shape { IfOk result (λ c. app_of c ≡ trace_line) }
    ensures local { IfOk result (λ c. (fields_of c).has_globals ≡ false) }
{
    Line::new(alloc, "trace")
        .about("Runs a script, and prints each event with its effect as JSON")
        .arg(script_argument(alloc))?
        .arg(audit_argument(
            alloc,
            false,
            "An audit whose order the events take, or - for standard input",
        ))?
        .arg(flag(
            alloc,
            "perfetto",
            "Print one trace for Perfetto or chrome://tracing",
        ))?
        .arg(names_flag(alloc))
}

fn report_command<'a>(alloc: Global) -> Result<Line<'a>, AllocError>
    ensures shape { IfOk result (λ c. app_of c ≡ report_line) }
    ensures local { IfOk result (λ c. (fields_of c).has_globals ≡ false) }
{
    Line::new(alloc, "report")
        .about("Runs a script, and prints its events as a page for a browser")
        .arg(script_argument(alloc))?
        .arg(audit_argument(
            alloc,
            false,
            "An audit whose order the events take, or - for standard input",
        ))?
        .arg(names_flag(alloc))
}

fn serve_command<'a>(alloc: Global) -> Result<Line<'a>, AllocError>
    ensures shape { IfOk result (λ c. app_of c ≡ serve_line) }
    ensures local { IfOk result (λ c. (fields_of c).has_globals ≡ false) }
{
    Line::new(alloc, "serve")
        .about("Answers each line of standard input at once")
        .arg(flag(alloc, "json", "Answer each line with one line of JSON"))?
        .arg(flag(
            alloc,
            "names",
            "Take lines that may be by names, as asm does",
        ))
}

fn draw_command<'a>(alloc: Global) -> Result<Line<'a>, AllocError>
    ensures shape { IfOk result (λ c. app_of c ≡ draw_line) }
    ensures local { IfOk result (λ c. (fields_of c).has_globals ≡ false) }
{
    let draw = drawing_command(alloc)?;
    let draw = draw.arg(to_option(alloc))?;
    let draw = draw.arg(from_option(alloc))?;
    let draw = draw.arg(only_option(alloc))?;
    draw.arg(names_flag(alloc))
}

// The subcommand `draw` with what it draws.
fn drawing_command<'a>(alloc: Global) -> Result<Line<'a>, AllocError>
    ensures shape { IfOk result (λ c. app_of c ≡ drawing_line) }
    ensures local { IfOk result (λ c. (fields_of c).has_globals ≡ false) }
{
    Line::new(alloc, "draw")
        .about("Runs a script, and prints the state at its end as a graph for Graphviz")
        .arg(script_argument(alloc))?
        .arg(audit_argument(
            alloc,
            false,
            "An audit whose order the events take, or - for standard input",
        ))?
        .arg(flag(
            alloc,
            "sequence",
            "Print the messages and signals as a sequence chart in SVG",
        ))
}

fn asm_command<'a>(alloc: Global) -> Result<Line<'a>, AllocError>
    ensures shape { IfOk result (λ c. app_of c ≡ asm_line) }
    ensures local { IfOk result (λ c. (fields_of c).has_globals ≡ false) }
{
    Line::new(alloc, "asm")
        .about("Prints the script that a text with names of calls, fields and registers means")
        .arg(file_argument(alloc))
}

// The flag `--names` of a command that takes a script.
fn names_flag<'a>(alloc: Global) -> Arg<'a>
    ensures rule { rule_of result ≡ flag_rule (codes "names") }
    ensures local { result.global ≡ false }
{
    flag(
        alloc,
        "names",
        "Take a script whose lines may be by names, as asm does",
    )
}

// The text of `asm`, which can't be left out.
fn file_argument<'a>(alloc: Global) -> Arg<'a>
    ensures rule { rule_of result ≡ file_rule }
    ensures local { result.global ≡ false }
{
    Arg::new(alloc, "FILE")
        .required(true)
        .help("The text's file, or - for standard input")
}

fn to_option<'a>(alloc: Global) -> Arg<'a>
    ensures rule { rule_of result ≡ value_rule (codes "to") }
    ensures local { result.global ≡ false }
{
    option(alloc, "to", "N", "Stop after N events")
}

fn from_option<'a>(alloc: Global) -> Arg<'a>
    ensures rule { rule_of result ≡ value_rule (codes "from") }
    ensures local { result.global ≡ false }
{
    option(alloc, "from", "N", "Begin the chart at event N")
}

fn only_option<'a>(alloc: Global) -> Arg<'a>
    ensures rule { rule_of result ≡ value_rule (codes "only") }
    ensures local { result.global ≡ false }
{
    option(
        alloc,
        "only",
        "ID",
        "Draw only what partition ID, or its processor ID.VP, has, does or gets",
    )
}

// An option `--name VALUE`. Its value may be any text.
fn option<'a>(alloc: Global, name: &'a str, value: &'a str, help: &'a str) -> Arg<'a>
    ensures rule { rule_of result ≡ value_rule name.entry.now }
    ensures local { result.global ≡ false }
{
    Arg::new(alloc, name)
        .long(name)
        .value_name(value)
        .help(help)
}

fn audit_argument<'a>(alloc: Global, required: bool, help: &'a str) -> Arg<'a>
    ensures rule { rule_of result ≡ audit_rule required }
    ensures local { result.global ≡ false }
{
    Arg::new(alloc, "AUDIT").required(required).help(help)
}

// Reads the command from the matches of words that clap accepted.
fn read<'a>(alloc: Global, matches: &ArgMatches<'a>) -> Result<Command<'a>, Usage>
    ensures said { IfOk result (λ c. asked_by_matches matches.now ≡ Some (asked_for c)) }
    ensures refused { IfErr result (Explains []) }
    ensures accepted { (asked : Asked) → asked_by_matches matches.now ≡ Some asked
        → IfErr result (λ usage. usage ≡ Usage.Memory) }
{
    let Some((name, own)) = matches.subcommand() else {
        return Err(Usage::mistake(alloc, "error: no subcommand\n"));
    };
    match read_named(name, own) {
        Some(command) => Ok(command),
        None => Err(Usage::mistake(alloc, "error: an argument is missing\n")),
    }
}

// Reads the command from the matches of the subcommand of this name.
fn read_named<'a>(name: &str, own: &ArgMatches<'a>) -> Option<Command<'a>>
    ensures { option_map asked_for result ≡ asked_by_rows name.now (rows_of (found_of own.now)) }
{
    match name {
        "run" => read_run(own),
        "check" => read_check(own),
        "explain" => read_explain(own),
        "trace" => read_trace(own),
        "report" => read_report(own),
        "serve" => Some(read_serve(own)),
        "draw" => read_draw(own),
        "asm" => read_asm(own),
        _ => None,
    }
}

fn read_run<'a>(own: &ArgMatches<'a>) -> Option<Command<'a>>
    ensures { option_map asked_for result ≡ run_by (rows_of (found_of own.now)) }
{
    let script = value_in(own, "SCRIPT")?;
    let serial = is_given(own, "serial");
    let table = is_given(own, "table");
    let names = is_given(own, "names");
    Some(Command::Run {
        options: Options {
            script,
            serial,
            table,
        },
        names,
    })
}

fn read_check<'a>(own: &ArgMatches<'a>) -> Option<Command<'a>>
    ensures { option_map asked_for result ≡ check_by (rows_of (found_of own.now)) }
{
    let script = value_in(own, "SCRIPT")?;
    let audit = value_in(own, "AUDIT")?;
    let prefix = is_given(own, "prefix");
    let rules = !is_given(own, "no-rules");
    let json = is_given(own, "json");
    let names = is_given(own, "names");
    Some(Command::Check {
        script,
        audit,
        prefix,
        rules,
        json,
        names,
    })
}

fn read_explain<'a>(own: &ArgMatches<'a>) -> Option<Command<'a>>
    ensures { option_map asked_for result ≡ explain_by (rows_of (found_of own.now)) }
{
    let script = value_in(own, "SCRIPT")?;
    let audit = value_in(own, "AUDIT");
    let names = is_given(own, "names");
    Some(Command::Explain {
        script,
        audit,
        names,
    })
}

fn read_trace<'a>(own: &ArgMatches<'a>) -> Option<Command<'a>>
    ensures { option_map asked_for result ≡ trace_by (rows_of (found_of own.now)) }
{
    let script = value_in(own, "SCRIPT")?;
    let audit = value_in(own, "AUDIT");
    let perfetto = is_given(own, "perfetto");
    let names = is_given(own, "names");
    Some(Command::Trace {
        script,
        audit,
        perfetto,
        names,
    })
}

fn read_report<'a>(own: &ArgMatches<'a>) -> Option<Command<'a>>
    ensures { option_map asked_for result ≡ report_by (rows_of (found_of own.now)) }
{
    let script = value_in(own, "SCRIPT")?;
    let audit = value_in(own, "AUDIT");
    let names = is_given(own, "names");
    Some(Command::Report {
        script,
        audit,
        names,
    })
}

fn read_serve<'a>(own: &ArgMatches<'a>) -> Command<'a>
    ensures { asked_for result ≡ serve_by (rows_of (found_of own.now)) }
{
    Command::Serve {
        json: is_given(own, "json"),
        names: is_given(own, "names"),
    }
}

fn read_draw<'a>(own: &ArgMatches<'a>) -> Option<Command<'a>>
    ensures { option_map asked_for result ≡ draw_by (rows_of (found_of own.now)) }
{
    let script = value_in(own, "SCRIPT")?;
    let audit = value_in(own, "AUDIT");
    let sequence = is_given(own, "sequence");
    let to = value_in(own, "to");
    let from = value_in(own, "from");
    let only = value_in(own, "only");
    let names = is_given(own, "names");
    Some(Command::Draw {
        script,
        audit,
        sequence,
        to,
        from,
        only,
        names,
    })
}

fn read_asm<'a>(own: &ArgMatches<'a>) -> Option<Command<'a>>
    ensures { option_map asked_for result ≡ asm_by (rows_of (found_of own.now)) }
{
    let file = value_in(own, "FILE")?;
    Some(Command::Asm { file })
}

// The value of an argument, if it has one.
fn value_in<'a>(own: &ArgMatches<'a>, name: &str) -> Option<&'a str>
    ensures { option_map (λ value. value.now) result ≡ first_of name.now (rows_of (found_of own.now)) }
{
    own.get_str(name)
}
