// What a guest may learn about the machine itself, and which exits the machine handles.
ghost use Rattle.std.specs.Prelude.{◌≡◌, is_some};
ghost use Rattle.hv_abi.specs.CallRow.{kind_of};
ghost use Rattle.hv_defs.specs.Registers.{name_of_msr as name_of};
ghost use Rattle.hv_machine.specs.IsFlat.{IsFlat};
ghost use Rattle.hv_policy.specs.Flat.{Flat};
ghost use Rattle.hv_looks.specs.Look.{features_seen, leaf_of};

use crate::tree::tree_of;
use hv_abi::CallKind;
use hv_machine::Machine;
use hv_privs::Privileges;
use hv_vp::name_of_msr;
use std::alloc::Allocator;

/// Returns EAX, EBX, ECX and EDX of CPUID leaf 0x40000003 for a partition.
///
/// They are the low and the high half of its privilege mask, then 0 and 0 (TLFS 4.0, "Feature Discovery").
/// `None` if there is no such partition.
pub fn features<A: Allocator>(machine: &Machine<A>, part: u64) -> Option<[u32; 4]>
    ensures { (f : Flat) → IsFlat machine.now f → result ≡ features_seen f part }
{
    match tree_of(machine).get(part) {
        Some(partition) => Some(leaf(partition.mask())),
        None => None,
    }
}

// Returns the CPUID leaf for a mask.
fn leaf(mask: Privileges) -> [u32; 4]
    ensures { result ≡ leaf_of mask }
{
    let bits = mask.bits();
    [(bits & 0xFFFF_FFFF) as u32, (bits >> 32) as u32, 0, 0]
}

/// Returns whether the machine keeps a model-specific register with this number, as P25 requires. All other
/// registers are left to the hypervisor.
pub fn is_msr(msr: u32) -> bool
    ensures { result ≡ is_some (name_of msr) }
{
    name_of_msr(msr).is_some()
}

/// Returns whether a hypercall has this code, as P4 requires. The code is bits 15:0 of the input value.
pub fn is_call(code: u16) -> bool
    ensures { result ≡ is_some (kind_of code) }
{
    CallKind::of(code).is_some()
}
