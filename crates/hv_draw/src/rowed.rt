// Which events have a row of a sequence chart.
ghost use Rattle.std.specs.Prelude.{◌≡◌};
ghost use Rattle.hv_draw.specs.Sequence.{asks_row, has_row, is_call_drawn, is_eom, is_synic};

use hv_abi::{CallKind, InputValue};
use hv_admit::Effect;
use hv_defs::EOM;
use hv_policy::Action;
use hv_vp::name_of_msr;
use std::alloc::Global;

/// Returns whether an event has a row.
pub(crate) fn has_row(what: &Action<Global>, effect: &Effect) -> bool
    ensures { result ≡ has_row what.now effect.now }
{
    asks_row(what) || is_synic(effect)
}

// Returns whether an event that asks for this has a row, whatever its effect is.
fn asks_row(what: &Action<Global>) -> bool
    ensures { result ≡ asks_row what.now }
{
    match what {
        Action::Hypercall(frame) => match CallKind::of(InputValue::read(frame.rcx).call) {
            Some(kind) => is_call_drawn(kind),
            None => false,
        },
        Action::ReadMsr(_) => false,
        Action::WriteMsr(msr, _) => is_eom(*msr),
        Action::ReadSlot(_)
        | Action::ClearSlot(_)
        | Action::ReadFlags(_)
        | Action::ClearFlag(_, _)
        | Action::TakeInterrupt => true,
    }
}

/// Returns whether the model-specific register with this number is EOM.
pub(crate) fn is_eom(msr: u32) -> bool
    ensures { result ≡ is_eom msr }
{
    match name_of_msr(msr) {
        Some(name) => name == EOM,
        None => false,
    }
}

// Returns whether a call of this kind posts, signals, or makes or ends something.
fn is_call_drawn(kind: CallKind) -> bool
    ensures { result ≡ is_call_drawn kind }
{
    match kind {
        CallKind::CreatePartition
        | CallKind::InitializePartition
        | CallKind::FinalizePartition
        | CallKind::DeletePartition
        | CallKind::CreateVp
        | CallKind::DeleteVp
        | CallKind::CreatePort
        | CallKind::DeletePort
        | CallKind::ConnectPort
        | CallKind::DisconnectPort
        | CallKind::PostMessage
        | CallKind::SignalEvent => true,
        CallKind::GetPartitionProperty
        | CallKind::SetPartitionProperty
        | CallKind::GetPartitionId
        | CallKind::GetNextChildPartition
        | CallKind::DepositMemory
        | CallKind::WithdrawMemory
        | CallKind::GetMemoryBalance
        | CallKind::GetVpRegisters
        | CallKind::SetVpRegisters => false,
    }
}

// Returns whether an event changed a message, an event flag or a pending vector at one processor.
fn is_synic(effect: &Effect) -> bool
    ensures { result ≡ is_synic effect.now }
{
    match effect {
        Effect::Synic(_) => true,
        Effect::Nothing
        | Effect::Page { .. }
        | Effect::Pages { .. }
        | Effect::Processor { .. }
        | Effect::Partition { .. } => false,
    }
}
