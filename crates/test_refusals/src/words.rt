// The words of a command line.

use crate::ended::{Fault, Refusal, must};
use hv_options::{Options, Usage, options};
use std::alloc::Global;

// The expected result of words.
#[derive(Clone, Copy)]
enum Due {
    // A serial run of the script a.hv.
    Run,
    // A text that was requested.
    Shown(&'static str),
    // A text that describes a mistake.
    Wrong(&'static str),
}

const WORDS: [(&[&str], Due); 3] = [
    (&["hvpm", "run", "a.hv", "--serial"], Due::Run),
    (&["hvpm", "--version"], Due::Shown("hvpm 0.1.0\n")),
    (
        &["hvpm", "run"],
        Due::Wrong(
            "error: the following required arguments were not provided:
  <SCRIPT>

Usage: hvpm run <SCRIPT>

For more information, try '--help'.
",
        ),
    ),
];

fn is_due(told: &Result<Options<'_>, Usage>, due: Due) -> bool {
    match (told, due) {
        (Ok(asked), Due::Run) => asked.script == "a.hv" && asked.serial && !asked.table,
        (Err(Usage::Help(text)), Due::Shown(wanted)) => text.as_str() == wanted,
        (Err(Usage::Words(text)), Due::Wrong(wanted)) => text.as_str() == wanted,
        _ => false,
    }
}

// Reads the words and, if there is no memory for that, reads them again. Returns whether there was none.
fn read(alloc: Global, words: &[&str], due: Due) -> Result<bool, Fault> {
    let told = options(alloc, words);
    let is_refused = matches!(told, Err(Usage::Memory));
    if is_refused {
        must(is_due(&options(alloc, words), due), Fault::Words)?;
    } else {
        must(is_due(&told, due), Fault::Words)?;
    }
    Ok(is_refused)
}

// Reads all command lines.
pub(crate) fn try_words(alloc: Global) -> Result<Option<Refusal>, Fault> {
    let mut refusal = None;
    for (words, due) in WORDS {
        if read(alloc, words, due)? {
            refusal = Some(Refusal::Words);
        }
    }
    Ok(refusal)
}
