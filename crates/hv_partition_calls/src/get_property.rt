// HvGetPartitionProperty.
ghost use Rattle.std.specs.Prelude.{◌≡◌, ℕ, Some, [], IfOk};
ghost use Rattle.std.specs.FinMap.{get};
ghost use Rattle.std.specs.Result.{result_err};
ghost use Rattle.hv_calls.specs.declared.call.Call.TheVariants as call;
ghost use Rattle.hv_partition.specs.Partition.{PartitionState};
ghost use Rattle.hv_policy.specs.Answer.{value_of};
ghost use Rattle.hv_policy.specs.Flat.{Flat};
ghost use Rattle.hv_policy.specs.Needs.{target_of};
ghost use Rattle.hv_policy.specs.Property.{property_of};
ghost use Rattle.hv_admit.specs.Asked.{AreFound};
ghost use Rattle.hv_admit.specs.Done.{HasServed};
ghost use Rattle.hv_admit.specs.Served.{unmet_further};
ghost use Rattle.hv_admit.specs.Tie.{Refines};
ghost use Rattle.hv_tree.specs.Rows.{Rows, content};

use hv_admit::{Effect, Found};
use hv_partition::Partition;
use hv_policy::{Output, Property, Rule};
use std::alloc::Allocator;

/// Checks P11, and returns the value of the property with this code. It fails if the profile has none.
pub fn ask_get_property<A: Allocator>(found: Found<'_, A>, code: u32) -> Result<u64, Rule>
    ensures value { IfOk result (λ value. (tree : Rows PartitionState) (f : Flat) (by partition : ℕ)
        → AreFound tree by (call.GetPartitionProperty partition code) found.entry.need found.entry.caller.now
        found.entry.target.now found.entry.children → Refines tree f → value ≡ value_of (property_of code)
        (get f.part (target_of (call.GetPartitionProperty partition code) by))) }
    ensures unmet { (f : Flat) (by partition : ℕ)
        → result_err result ≡ unmet_further f by (call.GetPartitionProperty partition code) }
{
    match Property::of(code) {
        Some(property) => Ok(value(found.target, property)),
        None => Err(Rule::PropertyKnown),
    }
}

/// HvGetPartitionProperty: outputs the value of a property of the target, 8 bytes.
pub fn do_get_property(value: u64, output: &mut Output) -> Effect
    requires { output.old ≡ [] }
    ensures { (tree : Rows PartitionState) (f : Flat) (by partition code : ℕ) → Refines tree f → value
        ≡ value_of (property_of code) (get f.part (target_of (call.GetPartitionProperty partition code) by))
        → HasServed f by (call.GetPartitionProperty partition code) output.new result tree }
{
    output.push_number(value);
    Effect::Nothing
}

fn value<A: Allocator>(partition: &Partition<A>, property: Property) -> u64
    ensures { (tree : Rows PartitionState) (f : Flat) (id : ℕ) → content tree id ≡ Some partition.now
        → Refines tree f → result ≡ value_of (Some property) (get f.part id) }
{
    match property {
        Property::PrivilegeFlags => partition.mask().bits(),
        Property::CpuReserve => partition.cpu_reserve(),
        Property::CpuCap => partition.cpu_cap(),
        Property::CpuWeight => partition.cpu_weight(),
    }
}
