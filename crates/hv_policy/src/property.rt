// The properties of a partition.
ghost use Rattle.std.specs.Prelude.{◌≡◌};
ghost use Rattle.hv_policy.specs.Property.{property_of, property_code, takes_value};

use hv_defs::{MAX_CPU_CAP, MAX_CPU_RESERVE, MAX_CPU_WEIGHT, MIN_CPU_WEIGHT};

/// A property of a partition, under the TLFS's name without its prefix `HvPartitionProperty` (TLFS 4.0,
/// "Partition Properties"). The discriminant is its property code. The ranges are this project's own.
#[derive(Clone, Copy, PartialEq, Eq, Debug)]
pub enum Property {
    /// The privilege mask. A new one lies within the mask of the partition that gives it.
    PrivilegeFlags = 0x0001_0000,
    /// The CPU reserve, 0 to 65,536.
    CpuReserve = 0x0002_0001,
    /// The CPU cap, 0 to 65,536.
    CpuCap = 0x0002_0002,
    /// The CPU weight, 1 to 10,000.
    CpuWeight = 0x0002_0003,
}

impl Property {
    /// Returns the property with this code, or `None` if the profile has none.
    pub fn of(code: u32) -> Option<Property>
        ensures { result ≡ property_of code }
    {
        if code == Property::PrivilegeFlags as u32 {
            Some(Property::PrivilegeFlags)
        } else if code == Property::CpuReserve as u32 {
            Some(Property::CpuReserve)
        } else if code == Property::CpuCap as u32 {
            Some(Property::CpuCap)
        } else if code == Property::CpuWeight as u32 {
            Some(Property::CpuWeight)
        } else {
            None
        }
    }

    /// Returns the property code.
    pub fn code(self) -> u32
        ensures { result ≡ property_code self }
    {
        self as u32
    }

    /// Returns whether a value is in the property's range.
    pub fn takes(self, value: u64) -> bool
        ensures { result ≡ takes_value self value }
    {
        match self {
            Property::PrivilegeFlags => true,
            Property::CpuReserve => value <= MAX_CPU_RESERVE,
            Property::CpuCap => value <= MAX_CPU_CAP,
            Property::CpuWeight => value >= MIN_CPU_WEIGHT && value <= MAX_CPU_WEIGHT,
        }
    }
}
