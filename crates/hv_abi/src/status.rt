// The status values.
ghost use Rattle.std.specs.Prelude.{◌≡◌};
ghost use Rattle.hv_abi.specs.Status.{status_code, status_name};

/// The status of a hypercall, HV_STATUS (TLFS 4.0, "Hypercall Status Codes").
#[derive(Clone, Copy, PartialEq, Eq, Debug)]
pub enum Status {
    Success = 0x0,
    InvalidHypercallCode = 0x2,
    InvalidHypercallInput = 0x3,
    InvalidAlignment = 0x4,
    InvalidParameter = 0x5,
    AccessDenied = 0x6,
    InvalidPartitionState = 0x7,
    UnknownProperty = 0x9,
    PropertyValueOutOfRange = 0xA,
    InsufficientMemory = 0xB,
    PartitionTooDeep = 0xC,
    InvalidPartitionId = 0xD,
    InvalidVpIndex = 0xE,
    InvalidPortId = 0x11,
    InvalidConnectionId = 0x12,
    InsufficientBuffers = 0x13,
    InvalidSynicState = 0x18,
    ObjectInUse = 0x19,
    NoResources = 0x1D,
}

impl Status {
    /// Returns the status's number, bits 15:0 of a result value.
    pub fn code(self) -> u16
        ensures { result ≡ status_code self }
    {
        self as u16
    }

    /// Returns the TLFS's name without its prefix `HV_STATUS_`, such as `SUCCESS`.
    pub fn name(self) -> &'static str
        ensures { result.now ≡ status_name self }
    {
        match self {
            Status::Success => "SUCCESS",
            Status::InvalidHypercallCode => "INVALID_HYPERCALL_CODE",
            Status::InvalidHypercallInput => "INVALID_HYPERCALL_INPUT",
            Status::InvalidAlignment => "INVALID_ALIGNMENT",
            Status::InvalidParameter => "INVALID_PARAMETER",
            Status::AccessDenied => "ACCESS_DENIED",
            Status::InvalidPartitionState => "INVALID_PARTITION_STATE",
            Status::UnknownProperty => "UNKNOWN_PROPERTY",
            Status::PropertyValueOutOfRange => "PROPERTY_VALUE_OUT_OF_RANGE",
            Status::InsufficientMemory => "INSUFFICIENT_MEMORY",
            Status::PartitionTooDeep => "PARTITION_TOO_DEEP",
            Status::InvalidPartitionId => "INVALID_PARTITION_ID",
            Status::InvalidVpIndex => "INVALID_VP_INDEX",
            Status::InvalidPortId => "INVALID_PORT_ID",
            Status::InvalidConnectionId => "INVALID_CONNECTION_ID",
            Status::InsufficientBuffers => "INSUFFICIENT_BUFFERS",
            Status::InvalidSynicState => "INVALID_SYNIC_STATE",
            Status::ObjectInUse => "OBJECT_IN_USE",
            Status::NoResources => "NO_RESOURCES",
        }
    }
}
