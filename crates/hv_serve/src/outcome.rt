// The outcome of a line.
ghost use Rattle.std.specs.Prelude.{◌≡◌, MatchResult};
ghost use Rattle.hv_serve.specs.Outcome.{kind_text, named_text, outcome_by, outcome_by_names};
ghost use Rattle.hv_serve.specs.Outcome.{outcome_of_boot, why_text};

use crate::peek::Peek;
use hv_asm::AsmFault;
use hv_history::HostRefused;
use hv_machine::BootRefused;
use hv_script::FaultKind;

/// The outcome of a line.
#[derive(Clone, Copy, PartialEq, Eq, Debug)]
pub enum Outcome {
    /// It was read and done to its end. A line that is skipped has this outcome, too.
    Done,
    /// It asked for the table.
    Table,
    /// It asked for a look at a processor.
    Peek(Peek),
    /// It asked for the explanation of the last event.
    Explain,
    /// It asked for help.
    Help,
    /// It has a fault. Nothing changed.
    Fault(FaultKind),
    /// It is by names, and has a fault. Nothing changed.
    Named(AsmFault),
    /// A machine with its configuration does not boot. Nothing changed.
    Boot(BootRefused),
    /// The host refused its action, or the rest of it.
    Host(HostRefused),
}

impl Outcome {
    /// Returns why the line wasn't done. For a line that was done, the text is empty.
    pub fn text(self) -> &'static str
        ensures { result.now ≡ why_text self }
    {
        match self {
            Outcome::Done | Outcome::Table | Outcome::Peek(_) | Outcome::Explain | Outcome::Help =>
                "",
            Outcome::Fault(kind) => fault_text(kind),
            Outcome::Named(fault) => named_text(fault),
            Outcome::Boot(BootRefused::Pages) => "boot refused: pages",
            Outcome::Boot(BootRefused::Pool) => "boot refused: pool",
            Outcome::Boot(BootRefused::Vps) => "boot refused: vps",
            Outcome::Boot(BootRefused::Memory) => "memory",
            Outcome::Host(HostRefused::HistoryFull) => "history full",
            Outcome::Host(HostRefused::Memory) => "memory",
        }
    }
}

// Returns the text of a fault, as for a fault of a script.
fn fault_text(kind: FaultKind) -> &'static str
    ensures { result.now ≡ kind_text kind }
{
    match kind {
        FaultKind::Long => "too long",
        FaultKind::Byte => "bad byte",
        FaultKind::NoBoot => "no boot",
        FaultKind::BootTwice => "second boot",
        FaultKind::Processor => "bad processor",
        FaultKind::Word => "unknown word",
        FaultKind::Count => "word count",
        FaultKind::Number => "bad number",
        FaultKind::Hex => "bad hex",
        FaultKind::TooMany => "too many processors",
        FaultKind::Memory => "memory",
    }
}

// Returns the text of a fault of a line by names, as `asm` tells it.
pub(crate) fn named_text(fault: AsmFault) -> &'static str
    ensures { result.now ≡ named_text fault }
{
    match fault {
        AsmFault::Script(kind) => fault_text(kind),
        AsmFault::UnknownField => "unknown field",
        AsmFault::MissingField => "missing field",
        AsmFault::FieldTwice => "field twice",
        AsmFault::NoFastForm => "no fast form",
    }
}

// Converts the result of a line to its outcome. Out of memory is the host's refusal, not the line's fault.
pub(crate) fn outcome_of(came: Result<Outcome, FaultKind>) -> Outcome
    ensures { MatchResult came (λ outcome. result ≡ outcome) (λ kind. result ≡ outcome_by kind) }
{
    match came {
        Ok(outcome) => outcome,
        Err(FaultKind::Memory) => Outcome::Host(HostRefused::Memory),
        Err(kind) => Outcome::Fault(kind),
    }
}

// Returns the outcome of a line by names that has a fault. Out of memory is the host's refusal.
pub(crate) fn misnamed(fault: AsmFault) -> Outcome
    ensures { result ≡ outcome_by_names fault }
{
    match fault {
        AsmFault::Script(FaultKind::Memory) => Outcome::Host(HostRefused::Memory),
        _ => Outcome::Named(fault),
    }
}

// Returns the outcome of a boot line that was refused.
pub(crate) fn refused_boot(refused: BootRefused) -> Outcome
    ensures { result ≡ outcome_of_boot refused }
{
    match refused {
        BootRefused::Pages | BootRefused::Pool | BootRefused::Vps => Outcome::Boot(refused),
        BootRefused::Memory => Outcome::Host(HostRefused::Memory),
    }
}
