// The failures of a run, and their exit statuses.
ghost use Rattle.std.specs.Prelude.{◌≡◌, ◌⊎◌};
ghost use Rattle.hv_run.specs.Failure.{exit_of, failure_of};

use hv_history::HostRefused;
use hv_machine::BootRefused;
use hv_phases::RunError;
use hv_script::{FaultKind, ScriptFault};
use hv_text::PrintFault;
use hv_threads::SettleFault;
use std::io::Write;
use thiserror::Error;

/// The exit statuses of the program.
#[derive(Clone, Copy, PartialEq, Eq, Debug)]
pub enum Exit {
    /// The whole script was run, or help was printed.
    Done = 0,
    /// The script can't be read, has a fault, or asks for a boot that is refused.
    Script = 1,
    /// The words of the command line are wrong.
    Usage = 2,
    /// The host was out of memory, the history was full, the settlement found a fault, or standard output
    /// took no more.
    Host = 3,
}

/// Why a run failed. Its `Display` is the line on standard error, after `hvpm: `.
#[derive(Clone, Copy, PartialEq, Eq, Debug, Error)]
pub enum Failure {
    /// The script can't be read.
    #[error("cannot read the script")]
    Unreadable,
    /// A line of the script has a fault. Lines count from 1; line 0 is the script as a whole.
    #[error("line {line}: {kind}")]
    Fault { line: usize, kind: FaultKind },
    /// The machine doesn't boot with these pages.
    #[error("boot refused: pages")]
    Pages,
    /// The machine doesn't boot with this pool.
    #[error("boot refused: pool")]
    Pool,
    /// The machine doesn't boot with these virtual processors.
    #[error("boot refused: vps")]
    Vps,
    /// The host is out of memory.
    #[error("memory")]
    Memory,
    /// The history has as many events as the script's boot line allows.
    #[error("history full")]
    HistoryFull,
    /// An event of the history is in no processor's account.
    #[error("settlement missing")]
    Missing,
    /// The processors' accounts and the history differ.
    #[error("settlement differs")]
    Differs,
    /// Standard output took no more.
    #[error("write")]
    Write,
}

impl Failure {
    /// The exit status.
    pub fn exit(self) -> Exit
        ensures value { result ≡ exit_of self }
        ensures failed { (result ≡ Exit.Script) ⊎ (result ≡ Exit.Host) }
    {
        match self {
            Failure::Unreadable
            | Failure::Fault { .. }
            | Failure::Pages
            | Failure::Pool
            | Failure::Vps => Exit::Script,
            Failure::Memory
            | Failure::HistoryFull
            | Failure::Missing
            | Failure::Differs
            | Failure::Write => Exit::Host,
        }
    }
}

impl From<BootRefused> for Failure {
    ghost use Rattle.hv_run.specs.Failure.{failure_of_boot};

    ghost from_gives = { λ refused failure. failure ≡ failure_of_boot refused };

    fn from(refused: BootRefused) -> Failure {
        match refused {
            BootRefused::Pages => Failure::Pages,
            BootRefused::Pool => Failure::Pool,
            BootRefused::Vps => Failure::Vps,
            BootRefused::Memory => Failure::Memory,
        }
    }
}

impl From<ScriptFault> for Failure {
    ghost from_gives = { λ fault failure. failure ≡ failure_of fault };

    fn from(fault: ScriptFault) -> Failure {
        let ScriptFault { line, kind } = fault;
        match kind {
            FaultKind::Memory => Failure::Memory,
            kind => Failure::Fault { line, kind },
        }
    }
}

impl From<RunError> for Failure {
    ghost use Rattle.hv_run.specs.Failure.{failure_by};

    ghost from_gives = { λ why failure. failure ≡ failure_by why };

    fn from(why: RunError) -> Failure {
        match why {
            RunError::Host(HostRefused::HistoryFull) => Failure::HistoryFull,
            RunError::Host(HostRefused::Memory) => Failure::Memory,
            RunError::Settlement(SettleFault::Missing) => Failure::Missing,
            RunError::Settlement(SettleFault::Differs) => Failure::Differs,
        }
    }
}

impl From<PrintFault> for Failure {
    ghost use Rattle.hv_run.specs.Failure.{failure_of_print};

    ghost from_gives = { λ fault failure. failure ≡ failure_of_print fault };

    fn from(fault: PrintFault) -> Failure {
        match fault {
            PrintFault::Write { .. } => Failure::Write,
            PrintFault::Memory => Failure::Memory,
        }
    }
}

/// Writes a failure to standard error, and returns its exit status, whether or not the write succeeds.
pub fn tell<E: Write>(failure: Failure, err: &mut E) -> Exit
    ensures status { result ≡ exit_of failure }
    ensures failed { (result ≡ Exit.Script) ⊎ (result ≡ Exit.Host) }
{
    let _ = writeln!(err, "hvpm: {failure}");
    failure.exit()
}
