// The rules.
ghost use Rattle.std.specs.Prelude.{◌≡◌};
ghost use Rattle.hv_policy.specs.Rule.{rule_number, rule_name, rule_status, pages_status as pages_status_of};

use hv_abi::{CallKind, Status};

/// A rule of the policy, P1 to P27.
///
/// Of the rules that apply to an event, the first that fails decides its answer. The rules and their order
/// are this project's own.
#[derive(Clone, Copy, PartialEq, Eq, Debug)]
pub enum Rule {
    /// P1: the caller's partition exists.
    CallerExists = 1,
    /// P2: the caller's partition is Active.
    CallerActive = 2,
    /// P3: the caller's virtual processor exists.
    CallerVpExists = 3,
    /// P4: the call code is one of the profile.
    CallCode = 4,
    /// P5: reserved bits are zero; the fast bit is set only where it is accepted; a simple call has neither
    /// rep count nor start; a rep call has a count of at least 1 and starts below it.
    InputValue = 5,
    /// P6: unless the call is fast, the address of each list that isn't empty is a multiple of 8,
    /// and the whole list stays in one page.
    Alignment = 6,
    /// P7: each parameter is well formed by itself.
    Parameters = 7,
    /// P8: the caller's mask has the call's privilege.
    Privilege = 8,
    /// P9: the target partition exists.
    TargetExists = 9,
    /// P10: the target is the caller or a child of the caller, as the call allows.
    TargetScope = 10,
    /// P11: the property code is known.
    PropertyKnown = 11,
    /// P12: the target's life state is one that the call allows.
    TargetState = 12,
    /// P13: the target has no children.
    NoChildren = 13,
    /// P14: the new partition's depth is at most 7.
    Depth = 14,
    /// P15: the other named partition exists, or the previous child is 0 or a child of the target.
    PeerExists = 15,
    /// P16: the connection id exists; on connecting, it is free.
    Connection = 16,
    /// P17: the port id exists; on creating a port, it is free; on posting and signalling, the port exists
    /// with the birth that the connection keeps.
    Port = 17,
    /// P18: the port's peer is the connecting partition; the new mask lies within the caller's; the
    /// caller has the register's privilege.
    Entitlement = 18,
    /// P19: the virtual processor exists; on creating one, its index is at most 63 and free.
    VpExists = 19,
    /// P20: the property value is in range.
    PropertyRange = 20,
    /// P21: the page is a loose page of the caller; the register is known and, on writing, writable
    /// with this value; the slot and flag numbers are in range; the port's type is the call's.
    Operand = 21,
    /// P22: the target virtual processor is ready for a message or a flag.
    VpReady = 22,
    /// P23: fewer than 8 messages of this port and birth are kept.
    PortRoom = 23,
    /// P24: the payer has enough available pages.
    Pages = 24,
    /// P25: the MSR is known.
    MsrKnown = 25,
    /// P26: the caller has the MSR's privilege.
    MsrPrivilege = 26,
    /// P27: on writing, the MSR is writable and takes this value.
    MsrWrite = 27,
}

impl Rule {
    /// Returns the rule's number, 1 to 27.
    pub fn number(self) -> u8
        ensures { result ≡ rule_number self }
    {
        self as u8
    }

    /// Returns the rule's name, such as `P1`.
    pub fn name(self) -> &'static str
        ensures { result.now ≡ rule_name self }
    {
        match self {
            Rule::CallerExists => "P1",
            Rule::CallerActive => "P2",
            Rule::CallerVpExists => "P3",
            Rule::CallCode => "P4",
            Rule::InputValue => "P5",
            Rule::Alignment => "P6",
            Rule::Parameters => "P7",
            Rule::Privilege => "P8",
            Rule::TargetExists => "P9",
            Rule::TargetScope => "P10",
            Rule::PropertyKnown => "P11",
            Rule::TargetState => "P12",
            Rule::NoChildren => "P13",
            Rule::Depth => "P14",
            Rule::PeerExists => "P15",
            Rule::Connection => "P16",
            Rule::Port => "P17",
            Rule::Entitlement => "P18",
            Rule::VpExists => "P19",
            Rule::PropertyRange => "P20",
            Rule::Operand => "P21",
            Rule::VpReady => "P22",
            Rule::PortRoom => "P23",
            Rule::Pages => "P24",
            Rule::MsrKnown => "P25",
            Rule::MsrPrivilege => "P26",
            Rule::MsrWrite => "P27",
        }
    }

    /// Returns the status of a hypercall that this rule refuses, or `None` if the rule applies only to other
    /// events.
    ///
    /// The call matters for P24 alone.
    pub fn status(self, call: Option<CallKind>) -> Option<Status>
        ensures { result ≡ rule_status self call }
    {
        match self {
            Rule::CallerExists | Rule::TargetExists | Rule::PeerExists => Some(
                Status::InvalidPartitionId,
            ),
            Rule::CallerActive | Rule::TargetState => Some(Status::InvalidPartitionState),
            Rule::CallerVpExists | Rule::VpExists => Some(Status::InvalidVpIndex),
            Rule::CallCode => Some(Status::InvalidHypercallCode),
            Rule::InputValue => Some(Status::InvalidHypercallInput),
            Rule::Alignment => Some(Status::InvalidAlignment),
            Rule::Parameters | Rule::Operand => Some(Status::InvalidParameter),
            Rule::Privilege | Rule::TargetScope | Rule::Entitlement => Some(Status::AccessDenied),
            Rule::PropertyKnown => Some(Status::UnknownProperty),
            Rule::NoChildren => Some(Status::ObjectInUse),
            Rule::Depth => Some(Status::PartitionTooDeep),
            Rule::Connection => Some(Status::InvalidConnectionId),
            Rule::Port => Some(Status::InvalidPortId),
            Rule::PropertyRange => Some(Status::PropertyValueOutOfRange),
            Rule::VpReady => Some(Status::InvalidSynicState),
            Rule::PortRoom => Some(Status::InsufficientBuffers),
            Rule::Pages => Some(pages_status(call)),
            Rule::MsrKnown | Rule::MsrPrivilege | Rule::MsrWrite => None,
        }
    }
}

// Returns the status of a call that lacks pages.
fn pages_status(call: Option<CallKind>) -> Status
    ensures { result ≡ pages_status_of call }
{
    match call {
        Some(CallKind::WithdrawMemory) => Status::NoResources,
        _ => Status::InsufficientMemory,
    }
}
