// The names of privileges, properties, life states and kinds of ports.

use hv_defs::{Life, PortKind};
use hv_policy::Property;

/// The TLFS's name of the privilege at this bit of a mask, or `None` if no call and no register needs it.
pub fn privilege_name(bit: u32) -> Option<&'static str> {
    match bit {
        2 => Some("AccessSynicRegs"),
        6 => Some("AccessVpIndex"),
        32 => Some("CreatePartitions"),
        33 => Some("AccessPartitionId"),
        34 => Some("AccessMemoryPool"),
        36 => Some("PostMessages"),
        37 => Some("SignalEvents"),
        38 => Some("CreatePort"),
        39 => Some("ConnectPort"),
        _ => None,
    }
}

/// The name of a property.
pub fn property_name(property: Property) -> &'static str {
    match property {
        Property::PrivilegeFlags => "PrivilegeFlags",
        Property::CpuReserve => "CpuReserve",
        Property::CpuCap => "CpuCap",
        Property::CpuWeight => "CpuWeight",
    }
}

/// The name of a life state.
pub fn life_name(life: Life) -> &'static str {
    match life {
        Life::Created => "Created",
        Life::Active => "Active",
        Life::Finalized => "Finalized",
    }
}

/// What a port of this kind takes.
pub fn kind_name(kind: PortKind) -> &'static str {
    match kind {
        PortKind::Message => "messages",
        PortKind::Event => "event flags",
    }
}
