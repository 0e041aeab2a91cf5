// What each call needs of its caller and its target, and what it costs.
ghost use Rattle.std.specs.Prelude.{◌≡◌, None, Some};
ghost use Rattle.hv_policy.specs.Needs.{needs_of, is_among, states_to_set as states_to_set_of};
ghost use Rattle.hv_policy.specs.Policy.{needs as needs_with};
ghost use Rattle.hv_policy.specs.declared.need.Kin.TheVariants as kin;
ghost use Rattle.hv_policy.specs.declared.need.States.TheVariants as states;
ghost use Rattle.hv_privs.specs.declared.TheConstants.Privileges as privilege;

use crate::property::Property;
use hv_calls::Call;
use hv_defs::{CONNECTION_CHARGE, Life, PARTITION_CHARGE, PORT_CHARGE, VP_CHARGE};
use hv_privs::Privileges;

/// Which partitions a call may name as its target.
#[derive(Clone, Copy, PartialEq, Eq, Debug)]
pub enum Kin {
    /// None: the target is the caller.
    Caller,
    /// The caller, or a child of the caller.
    CallerOrChild,
    /// A child of the caller.
    Child,
}

/// The life states that the target of a call may be in.
#[derive(Clone, Copy, PartialEq, Eq, Debug)]
pub enum States {
    /// Any state: P12 does not apply.
    Any,
    Created,
    Active,
    CreatedOrActive,
    CreatedOrFinalized,
}

impl States {
    /// Returns whether a target in this life state is allowed.
    pub fn allow(self, life: Life) -> bool
        ensures { result ≡ is_among life self }
    {
        match self {
            States::Any => true,
            States::Created => life == Life::Created,
            States::Active => life == Life::Active,
            States::CreatedOrActive => life == Life::Created || life == Life::Active,
            States::CreatedOrFinalized => life == Life::Created || life == Life::Finalized,
        }
    }
}

/// What a call needs of its caller and its target, and what it costs. This is this project's own.
#[derive(Clone, Copy, PartialEq, Eq, Debug)]
pub struct Need {
    /// The privilege that the caller's mask must have.
    pub privilege: Privileges,
    /// Which partitions may be the target.
    pub kin: Kin,
    /// The id that the call's input names first, or `None` if the target is the caller. `SELF_ID` means the
    /// caller.
    pub named: Option<u64>,
    /// The life states that the target may be in.
    pub states: States,
    /// The number of pages of the target's pool that serving the call uses.
    pub charge: u64,
}

/// Returns the row of a call in the table of needs.
///
/// One cell depends on the call's parameters: the life states in which a property may be set.
// Inlined: calls for the own id in bench/embed.sh.
#[inline(always)]
pub fn needs(call: &Call) -> Need
    ensures { result ≡ needs_of call.now }
{
    match call {
        Call::CreatePartition { .. } => of_caller(Privileges::CREATE_PARTITIONS, PARTITION_CHARGE),
        Call::InitializePartition { partition } => of_child(*partition, States::Created),
        Call::FinalizePartition { partition } => of_child(*partition, States::CreatedOrActive),
        Call::DeletePartition { partition } => of_child(*partition, States::CreatedOrFinalized),
        Call::SetPartitionProperty {
            partition,
            code,
            ..
        } => of_child(*partition, states_to_set(Property::of(*code))),
        Call::GetPartitionProperty { partition, .. }
        | Call::GetNextChildPartition { partition, .. } => of_either(
            *partition,
            Privileges::CREATE_PARTITIONS,
            States::Any,
            0,
        ),
        Call::GetPartitionId => of_caller(Privileges::ACCESS_PARTITION_ID, 0),
        Call::DepositMemory { partition, .. } => of_pool(*partition, States::CreatedOrActive, 0),
        Call::WithdrawMemory { partition } => of_pool(*partition, States::Any, 1),
        Call::GetMemoryBalance { partition } => of_pool(*partition, States::Any, 0),
        Call::CreateVp { partition, .. } => of_running(
            *partition,
            Privileges::CREATE_PARTITIONS,
            VP_CHARGE,
        ),
        Call::DeleteVp { partition, .. }
        | Call::GetVpRegisters { partition, .. }
        | Call::SetVpRegisters { partition, .. } => of_running(
            *partition,
            Privileges::CREATE_PARTITIONS,
            0,
        ),
        Call::DeletePort { partition, .. } => of_running(*partition, Privileges::CREATE_PORT, 0),
        Call::DisconnectPort { partition, .. } => of_running(
            *partition,
            Privileges::CONNECT_PORT,
            0,
        ),
        Call::PostMessage { .. } => of_caller(Privileges::POST_MESSAGES, 0),
        Call::SignalEvent { .. } => of_caller(Privileges::SIGNAL_EVENTS, 0),
        Call::CreatePort { partition, .. } => of_running(
            *partition,
            Privileges::CREATE_PORT,
            PORT_CHARGE,
        ),
        Call::ConnectPort { partition, .. } => of_running(
            *partition,
            Privileges::CONNECT_PORT,
            CONNECTION_CHARGE,
        ),
    }
}

// Returns the life states in which a property may be set: before the partition runs, and while it runs. P11
// refuses a code that no property has before the states matter.
fn states_to_set(property: Option<Property>) -> States
    ensures { result ≡ states_to_set_of property }
{
    match property {
        None => States::Created,
        Some(Property::PrivilegeFlags)
        | Some(Property::CpuReserve)
        | Some(Property::CpuCap)
        | Some(Property::CpuWeight) => States::CreatedOrActive,
    }
}

// Returns the need of a call about its caller, in any life state.
fn of_caller(privilege: Privileges, charge: u64) -> Need
    ensures { result ≡ needs_with privilege kin.Caller None states.Any charge }
{
    Need {
        privilege,
        kin: Kin::Caller,
        named: None,
        states: States::Any,
        charge,
    }
}

// Returns the need of a call about a child of its caller. Every such call needs CREATE_PARTITIONS, and none
// uses pages.
fn of_child(partition: u64, states: States) -> Need
    ensures { result ≡ needs_with privilege.CREATE_PARTITIONS kin.Child (Some partition) states 0 }
{
    Need {
        privilege: Privileges::CREATE_PARTITIONS,
        kin: Kin::Child,
        named: Some(partition),
        states,
        charge: 0,
    }
}

// Returns the need of a call about its caller or a child of its caller.
fn of_either(partition: u64, privilege: Privileges, states: States, charge: u64) -> Need
    ensures { result ≡ needs_with privilege kin.CallerOrChild (Some partition) states charge }
{
    Need {
        privilege,
        kin: Kin::CallerOrChild,
        named: Some(partition),
        states,
        charge,
    }
}

// Returns the need of a call about the pool of its caller or of a child of its caller.
fn of_pool(partition: u64, states: States, charge: u64) -> Need
    ensures { result ≡ needs_with privilege.ACCESS_MEMORY_POOL kin.CallerOrChild (Some partition) states
        charge }
{
    of_either(partition, Privileges::ACCESS_MEMORY_POOL, states, charge)
}

// Returns the need of a call about its caller or a child of its caller, where the target must be Active.
fn of_running(partition: u64, privilege: Privileges, charge: u64) -> Need
    ensures { result ≡ needs_with privilege kin.CallerOrChild (Some partition) states.Active charge }
{
    of_either(partition, privilege, States::Active, charge)
}
