// What the command line asks for, and the text that is shown if it asks for no run: help, the version, or the
// mistake.

use hv_options::{Usage, options};

// Whether a refusal is help or the version, and its text.
fn shown(usage: &Usage) -> (bool, &str) {
    match usage {
        Usage::Help(text) => (true, text.as_str()),
        Usage::Words(text) => (false, text.as_str()),
        Usage::Memory => (false, "memory"),
    }
}

const HELP: &str =
    "Runs a script of hypercalls and accesses on a model of Hyper-V's partition manager

Usage: hvpm <COMMAND>

Commands:
  run   Runs a script of calls, accesses and phases, and prints its audit
  help  Print this message or the help of the given subcommand(s)

Options:
  -h, --help     Print help
  -V, --version  Print version
";

const VERSION: &str = "hvpm 0.1.0\n";

const RUN_HELP: &str = "Runs a script of calls, accesses and phases, and prints its audit

Usage: hvpm run [OPTIONS] <SCRIPT>

Arguments:
  <SCRIPT>  The script's file, or - for standard input

Options:
      --serial  Run the lines in the script's order, and start no thread
      --table   Print the table of partitions after the audit
  -h, --help    Print help

Exit status:
  0  the audit is complete
  1  the script has a fault or can't be read, or the boot is refused
  2  the command line is wrong
  3  out of memory, the history is full, or a write failed

Example: hvpm run examples/life.hv --serial --table
";

const NO_COMMAND: &str = "error: 'hvpm' requires a subcommand but one was not provided
  [subcommands: run, help]

Usage: hvpm <COMMAND>

For more information, try '--help'.
";

const NO_SCRIPT: &str = "error: the following required arguments were not provided:
  <SCRIPT>

Usage: hvpm run <SCRIPT>

For more information, try '--help'.
";

const REPEATED: &str = "error: the argument '--serial' cannot be used multiple times

Usage: hvpm run [OPTIONS] <SCRIPT>

For more information, try '--help'.
";

const TWO_SCRIPTS: &str = "error: unexpected argument 'b.hv' found

Usage: hvpm run [OPTIONS] <SCRIPT>

For more information, try '--help'.
";

const UNKNOWN: &str = "error: unrecognized subcommand 'walk'

Usage: hvpm <COMMAND>

For more information, try '--help'.
";

const NO_RUN_VERSION: &str = "error: unexpected argument '--version' found

  tip: to pass '--version' as a value, use '-- --version'

Usage: hvpm run [OPTIONS] <SCRIPT>

For more information, try '--help'.
";

#[test]
fn accepted(rt: HostRuntime) {
    for (words, serial, table) in [
        (["hvpm", "run", "a.hv"].as_slice(), false, false),
        (["hvpm", "run", "a.hv", "--serial"].as_slice(), true, false),
        (["hvpm", "run", "--table", "a.hv"].as_slice(), false, true),
        (
            ["hvpm", "run", "a.hv", "--serial", "--table"].as_slice(),
            true,
            true,
        ),
        (
            ["hvpm", "run", "--table", "--serial", "a.hv"].as_slice(),
            true,
            true,
        ),
    ] {
        match options(rt.alloc(), words) {
            Ok(options) => {
                let read = (options.script, options.serial, options.table);
                assert_eq!(rt; read, ("a.hv", serial, table));
            }
            Err(usage) => assert!(rt; false, "{words:?}: {usage:?}"),
        }
    }
}

#[test]
fn refusals(rt: HostRuntime) {
    for (words, is_help, text) in [
        (["hvpm", "--help"].as_slice(), true, HELP),
        (["hvpm", "-h"].as_slice(), true, HELP),
        (["hvpm", "--version"].as_slice(), true, VERSION),
        (["hvpm", "-V"].as_slice(), true, VERSION),
        (["hvpm", "help", "run"].as_slice(), true, RUN_HELP),
        (
            ["hvpm", "run", "a.hv", "--serial", "-h"].as_slice(),
            true,
            RUN_HELP,
        ),
        ([].as_slice(), false, NO_COMMAND),
        (["hvpm"].as_slice(), false, NO_COMMAND),
        (["hvpm", "run"].as_slice(), false, NO_SCRIPT),
        (
            ["hvpm", "run", "a.hv", "--serial", "--serial"].as_slice(),
            false,
            REPEATED,
        ),
        (
            ["hvpm", "run", "a.hv", "b.hv"].as_slice(),
            false,
            TWO_SCRIPTS,
        ),
        (["hvpm", "walk"].as_slice(), false, UNKNOWN),
        (
            ["hvpm", "run", "--version"].as_slice(),
            false,
            NO_RUN_VERSION,
        ),
    ] {
        match options(rt.alloc(), words) {
            Ok(_) => assert!(rt; false, "{words:?}"),
            Err(usage) => assert_eq!(rt; shown(&usage), (is_help, text)),
        }
    }
}
