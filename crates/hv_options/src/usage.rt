// The results of reading the command line.
ghost use Rattle.std.specs.Prelude.{[]};
ghost use Rattle.hv_options.specs.Options.{Explains};

use std::alloc::{AllocError, Global};
use thiserror::Error;

/// The options that the words of the command line ask for.
#[derive(Clone, Copy, Debug)]
pub struct Options<'a> {
    /// The word that names the script: the path of its file, or `-` for standard input.
    pub script: &'a str,
    /// Whether the lines run in the script's order, with no thread.
    pub serial: bool,
    /// Whether the table of partitions is printed after the audit.
    pub table: bool,
}

/// The command that the words of the command line ask for, of all that the program has.
///
/// The name of a script or an audit is the path of its file, or `-` for standard input. With `names`, the
/// lines of the script may be by names.
#[derive(Clone, Copy, Debug)]
pub enum Command<'a> {
    /// `run SCRIPT [--serial] [--table] [--names]`: runs a script, and prints its audit.
    Run {
        options: Options<'a>,
        names: bool,
    },
    /// `check SCRIPT AUDIT [--prefix] [--no-rules] [--json] [--names]`: checks whether a run of the script
    /// may write the audit.
    Check {
        script: &'a str,
        audit: &'a str,
        /// Whether the audit may end early.
        prefix: bool,
        /// Whether the names of rules are compared.
        rules: bool,
        /// Whether the verdict is a line of JSON.
        json: bool,
        names: bool,
    },
    /// `explain SCRIPT [AUDIT] [--names]`: describes the events of a script in words, in the order of an
    /// audit if one is named.
    Explain {
        script: &'a str,
        audit: Option<&'a str>,
        names: bool,
    },
    /// `trace SCRIPT [AUDIT] [--perfetto] [--names]`: prints the events of a script with their effects as
    /// JSON, in the order of an audit if one is named.
    Trace {
        script: &'a str,
        audit: Option<&'a str>,
        /// Whether it is one trace in the Chrome trace event form.
        perfetto: bool,
        names: bool,
    },
    /// `report SCRIPT [AUDIT] [--names]`: prints the events of a script as a page for a browser, in the order
    /// of an audit if one is named.
    Report {
        script: &'a str,
        audit: Option<&'a str>,
        names: bool,
    },
    /// `serve [--json] [--names]`: answers each line of standard input at once.
    Serve {
        /// Whether each answer is a line of JSON.
        json: bool,
        /// Whether the lines may be by names.
        names: bool,
    },
    /// `draw SCRIPT [AUDIT] [--sequence] [--to N] [--from N] [--only ID] [--names]`: prints a state of a
    /// script as a graph, or its run as a chart, in the order of an audit if one is named.
    Draw {
        script: &'a str,
        audit: Option<&'a str>,
        /// Whether the messages and signals are drawn in place of a state.
        sequence: bool,
        /// The number of events after which it ends, as it was written. Without one, it is the whole run.
        to: Option<&'a str>,
        /// The number of the first event of a chart, as it was written.
        from: Option<&'a str>,
        /// The partition or the processor that is drawn alone, as it was written.
        only: Option<&'a str>,
        names: bool,
    },
    /// `asm FILE`: prints the script that a text with names means.
    Asm {
        file: &'a str,
    },
}

/// Why there are no options.
#[derive(Debug, Drop, Error)]
pub enum Usage {
    /// Help or the version was asked for. The text is whole lines for standard output.
    #[error("{0}")]
    Help(String),
    /// The words are wrong. The text is whole lines for standard error.
    #[error("{0}")]
    Words(String),
    /// Out of memory.
    #[error("memory")]
    Memory,
}

impl From<AllocError> for Usage {
    ghost use Rattle.std.specs.Prelude.{◌≡◌};
    ghost use Rattle.hv_options.specs.declared.usage.Usage.TheVariants.{Memory};

    ghost from_gives = { λ _ usage. usage ≡ Memory };

    fn from(_error: AllocError) -> Usage {
        Usage::Memory
    }
}

impl Usage {
    /// Creates a refusal of the program's own, with a text that ends its line.
    ///
    /// It is `Words`, or `Memory` if there is no memory for the text.
    pub fn mistake(alloc: Global, text: &str) -> Usage
        ensures { Explains [] result }
    {
        match String::from_str(alloc, text) {
            Ok(text) => Usage::Words(text),
            Err(_) => Usage::Memory,
        }
    }
}
