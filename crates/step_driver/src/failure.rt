// Why a script didn't run to its end.

use hv_machine::{BootRefused, HostRefused};
use hv_script::{FaultKind, ScriptFault};
use hv_text::PrintFault;
use std::io;
use thiserror::Error;

/// Why a script didn't run to its end. Its `Display` is the error that `hvpm` tells.
#[derive(Clone, Copy, PartialEq, Eq, Debug, Error)]
pub enum Failure {
    #[error("cannot read the script")]
    Unreadable,
    #[error("line {line}: {kind}")]
    Fault { line: usize, kind: FaultKind },
    #[error("boot refused: pages")]
    Pages,
    #[error("boot refused: pool")]
    Pool,
    #[error("boot refused: vps")]
    Vps,
    #[error("memory")]
    Memory,
    #[error("history full")]
    LimitReached,
    #[error("write")]
    Write,
}

impl Failure {
    /// The exit status that `hvpm` has.
    pub fn status(self) -> u8 {
        match self {
            Failure::Unreadable
            | Failure::Fault { .. }
            | Failure::Pages
            | Failure::Pool
            | Failure::Vps => 1,
            Failure::Memory | Failure::LimitReached | Failure::Write => 3,
        }
    }
}

impl From<ScriptFault> for Failure {
    fn from(fault: ScriptFault) -> Failure {
        let ScriptFault { line, kind } = fault;
        match kind {
            FaultKind::Memory => Failure::Memory,
            kind => Failure::Fault { line, kind },
        }
    }
}

impl From<BootRefused> for Failure {
    fn from(refused: BootRefused) -> Failure {
        match refused {
            BootRefused::Pages => Failure::Pages,
            BootRefused::Pool => Failure::Pool,
            BootRefused::Vps => Failure::Vps,
            BootRefused::Memory => Failure::Memory,
        }
    }
}

impl From<HostRefused> for Failure {
    fn from(refused: HostRefused) -> Failure {
        match refused {
            HostRefused::Memory => Failure::Memory,
        }
    }
}

impl From<PrintFault> for Failure {
    fn from(fault: PrintFault) -> Failure {
        match fault {
            PrintFault::Write { .. } => Failure::Write,
            PrintFault::Memory => Failure::Memory,
        }
    }
}

impl From<io::Error> for Failure {
    fn from(_error: io::Error) -> Failure {
        Failure::Write
    }
}
