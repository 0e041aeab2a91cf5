// The result of a check.

use hv_policy::Caller;

/// Options of a check.
#[derive(Clone, Copy, PartialEq, Eq, Debug)]
pub struct Ask {
    /// Whether an audit may end before all lines of the script are done.
    pub prefix: bool,
    /// Whether the names of rules are compared.
    pub rules: bool,
}

/// The result of a check.
#[derive(Clone, Copy, PartialEq, Eq, Debug)]
pub enum Verdict<'a> {
    /// The audit is a legal run of the script, with this number of events.
    Legal { events: u64 },
    /// The audit is not legal: the first fault, and the audit's bytes from that line on.
    Illegal { wrong: Wrong, text: &'a [u8] },
}

/// The fault of the first line that isn't legal. Lines count from 1.
#[derive(Clone, Copy, PartialEq, Eq, Debug)]
pub enum Wrong {
    /// The line doesn't begin with a number and a processor.
    Unreadable { line: u64 },
    /// The processor has no action left in this phase.
    Idle { line: u64, by: Caller },
    /// The history has as many events as the script allows.
    Full { line: u64, by: Caller },
    /// The line is not the policy's line of the processor's next event.
    Differs { line: u64 },
    /// The audit ends after this number of events, before this processor has done what its lines ask for.
    Early { events: u64, by: Caller },
    /// The last line doesn't give this number of events.
    Count { events: u64 },
    /// Bytes follow the last line, after this number of events.
    Behind { events: u64 },
}

impl Wrong {
    /// Returns the number of the line.
    pub fn line(self) -> u64 {
        match self {
            Wrong::Unreadable { line } => line,
            Wrong::Idle { line, .. } => line,
            Wrong::Full { line, .. } => line,
            Wrong::Differs { line } => line,
            Wrong::Early { events, .. } => events.saturating_add(1),
            Wrong::Count { events } => events.saturating_add(1),
            Wrong::Behind { events } => events.saturating_add(2),
        }
    }
}
