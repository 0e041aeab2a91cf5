// The fields of the calls' input lists.
ghost use Rattle.std.specs.Prelude.{◌≡◌};
ghost use Rattle.hv_asm.specs.Table.{field_name, parts_of, size_of};

use hv_abi::CallKind;

/// A field of a call's input list, under the TLFS's name.
#[derive(Clone, Copy, PartialEq, Eq, Debug)]
pub enum Field {
    PartitionId,
    Flags,
    PropertyCode,
    PropertyValue,
    ParentId,
    PreviousChildId,
    VpIndex,
    PortId,
    ConnectionId,
    MessageType,
    PayloadSize,
    FlagNumber,
    PortPartition,
    ConnectionPartition,
    PortType,
    TargetSint,
    TargetVp,
    BaseFlagNumber,
    FlagCount,
}

/// A part of an input list without its elements. The parts follow one another.
#[derive(Clone, Copy, PartialEq, Eq, Debug)]
pub enum Part {
    /// A field, little-endian.
    Field(Field),
    /// This many bytes that no field covers.
    Unused(u8),
    /// A message's payload, of at most 240 bytes, which ends the list.
    Payload,
}

impl Field {
    /// The TLFS's name.
    pub fn name(self) -> &'static str
        ensures { result.now ≡ field_name self }
    {
        match self {
            Field::PartitionId => "PartitionId",
            Field::Flags => "Flags",
            Field::PropertyCode => "PropertyCode",
            Field::PropertyValue => "PropertyValue",
            Field::ParentId => "ParentId",
            Field::PreviousChildId => "PreviousChildId",
            Field::VpIndex => "VpIndex",
            Field::PortId => "PortId",
            Field::ConnectionId => "ConnectionId",
            Field::MessageType => "MessageType",
            Field::PayloadSize => "PayloadSize",
            Field::FlagNumber => "FlagNumber",
            Field::PortPartition => "PortPartition",
            Field::ConnectionPartition => "ConnectionPartition",
            Field::PortType => "PortType",
            Field::TargetSint => "TargetSint",
            Field::TargetVp => "TargetVp",
            Field::BaseFlagNumber => "BaseFlagNumber",
            Field::FlagCount => "FlagCount",
        }
    }

    /// Its size in bytes.
    pub fn size(self) -> usize
        ensures { result ≡ size_of self }
    {
        match self {
            Field::PartitionId
            | Field::Flags
            | Field::PropertyValue
            | Field::ParentId
            | Field::PreviousChildId
            | Field::PortPartition
            | Field::ConnectionPartition => 8,
            Field::PropertyCode
            | Field::VpIndex
            | Field::PortId
            | Field::ConnectionId
            | Field::MessageType
            | Field::PayloadSize
            | Field::PortType
            | Field::TargetSint
            | Field::TargetVp => 4,
            Field::FlagNumber | Field::BaseFlagNumber | Field::FlagCount => 2,
        }
    }
}

impl Part {
    /// The TLFS's name of what it holds, if a line gives it.
    pub(crate) fn name(self) -> Option<&'static str> {
        match self {
            Part::Field(field) => Some(field.name()),
            Part::Unused(_) => None,
            Part::Payload => Some("Payload"),
        }
    }
}

/// The parts of a call's input list without its elements.
pub fn parts(call: CallKind) -> &'static [Part]
    ensures { result.now ≡ parts_of call }
{
    match call {
        CallKind::CreatePartition => &[Part::Field(Field::Flags)],
        CallKind::InitializePartition
        | CallKind::FinalizePartition
        | CallKind::DeletePartition
        | CallKind::DepositMemory
        | CallKind::WithdrawMemory
        | CallKind::GetMemoryBalance => &[Part::Field(Field::PartitionId)],
        CallKind::GetPartitionProperty => &[
            Part::Field(Field::PartitionId),
            Part::Field(Field::PropertyCode),
            Part::Unused(4),
        ],
        CallKind::SetPartitionProperty => &[
            Part::Field(Field::PartitionId),
            Part::Field(Field::PropertyCode),
            Part::Unused(4),
            Part::Field(Field::PropertyValue),
        ],
        CallKind::GetPartitionId => &[],
        CallKind::GetNextChildPartition => &[
            Part::Field(Field::ParentId),
            Part::Field(Field::PreviousChildId),
        ],
        CallKind::CreateVp
        | CallKind::DeleteVp
        | CallKind::GetVpRegisters
        | CallKind::SetVpRegisters => &[
            Part::Field(Field::PartitionId),
            Part::Field(Field::VpIndex),
            Part::Unused(4),
        ],
        CallKind::DeletePort => &[
            Part::Field(Field::PartitionId),
            Part::Field(Field::PortId),
            Part::Unused(4),
        ],
        CallKind::DisconnectPort => &[
            Part::Field(Field::PartitionId),
            Part::Field(Field::ConnectionId),
            Part::Unused(4),
        ],
        CallKind::PostMessage => &[
            Part::Field(Field::ConnectionId),
            Part::Unused(4),
            Part::Field(Field::MessageType),
            Part::Field(Field::PayloadSize),
            Part::Payload,
        ],
        CallKind::SignalEvent => &[
            Part::Field(Field::ConnectionId),
            Part::Field(Field::FlagNumber),
            Part::Unused(2),
        ],
        CallKind::CreatePort => &[
            Part::Field(Field::PortPartition),
            Part::Field(Field::PortId),
            Part::Unused(4),
            Part::Field(Field::ConnectionPartition),
            Part::Field(Field::PortType),
            Part::Unused(4),
            Part::Field(Field::TargetSint),
            Part::Field(Field::TargetVp),
            Part::Field(Field::BaseFlagNumber),
            Part::Field(Field::FlagCount),
            Part::Unused(4),
        ],
        CallKind::ConnectPort => &[
            Part::Field(Field::ConnectionPartition),
            Part::Field(Field::ConnectionId),
            Part::Unused(4),
            Part::Field(Field::PortPartition),
            Part::Field(Field::PortId),
            Part::Unused(4),
            Part::Field(Field::PortType),
            Part::Unused(12),
        ],
    }
}
