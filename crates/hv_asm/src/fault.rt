// The faults of lines by names.

use hv_script::FaultKind;
use std::fmt;
use std::fmt::{Display, Formatter, Write};
use thiserror::Error;

/// The first fault of a line by names.
#[derive(Clone, Copy, PartialEq, Eq, Debug)]
pub enum AsmFault {
    /// A fault that a line of a script has, too.
    Script(FaultKind),
    /// A word names no field of the call, or is no element of its list.
    UnknownField,
    /// A field of the call isn't given.
    MissingField,
    /// A field is given twice.
    FieldTwice,
    /// The call doesn't accept the fast form.
    NoFastForm,
}

impl AsmFault {
    /// The fault's text, which follows the number of its line.
    pub fn text(self) -> &'static str {
        match self {
            AsmFault::Script(kind) => kind.text(),
            AsmFault::UnknownField => "unknown field",
            AsmFault::MissingField => "missing field",
            AsmFault::FieldTwice => "field twice",
            AsmFault::NoFastForm => "no fast form",
        }
    }
}

impl Display for AsmFault {
    fn fmt<W: Write>(&self, f: &mut Formatter<W>) -> fmt::Result {
        f.write_str(self.text())
    }
}

/// The first fault of a text. Its `Display` is its line and the fault's text.
#[derive(Clone, Copy, PartialEq, Eq, Debug, Error)]
#[error("line {line}: {kind}")]
pub struct AsmError {
    /// The line. Lines count from 1; line 0 is the text as a whole.
    pub line: usize,
    pub kind: AsmFault,
}
