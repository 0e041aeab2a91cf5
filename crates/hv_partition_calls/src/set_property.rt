// HvSetPartitionProperty.
ghost use Rattle.std.specs.Prelude.{◌≡◌, ℕ, Some, [], IfOk};
ghost use Rattle.std.specs.Result.{result_err};
ghost use Rattle.hv_calls.specs.declared.call.Call.TheVariants as call;
ghost use Rattle.hv_partition.specs.Partition.{PartitionState};
ghost use Rattle.hv_policy.specs.Effect.{narrowed as narrowed_parts, narrows as narrows_of, property_set};
ghost use Rattle.hv_policy.specs.Flat.{Flat};
ghost use Rattle.hv_policy.specs.Met.{may_give as may_give_of};
ghost use Rattle.hv_admit.specs.Asked.{AreFound};
ghost use Rattle.hv_admit.specs.Done.{HasServed};
ghost use Rattle.hv_admit.specs.Served.{TreeInvariant, unmet_further};
ghost use Rattle.hv_admit.specs.Tie.{Refines};
ghost use Rattle.hv_partition_calls.specs.Given.{given};
ghost use Rattle.hv_partition_calls.specs.MaySet.{MaySet};
ghost use Rattle.hv_tree.specs.Rows.{Rows, change as changed, content};

use hv_admit::{Effect, Found, Partitions, resolve_partition_id};
use hv_defs::Life;
use hv_partition::Partition;
use hv_policy::{Property, Rule};
use hv_privs::Privileges;
use hv_tree::Edit;
use std::alloc::Allocator;

/// The property to set, and whether its new value narrows the target's subtree.
#[derive(Clone, Copy)]
pub struct Setting {
    pub property: Property,
    pub narrows: bool,
}

/// Checks P11, P12, P18 and P20, and returns what is to be set.
///
/// P11 fails if the profile has no property with this code, P18 if the value is a mask that is not within
/// the caller's, and P20 if the value is not in the property's range.
pub fn ask_set_property<A: Allocator>(
    found: Found<'_, A>,
    code: u32,
    value: u64,
) -> Result<Setting, Rule>
    ensures setting { IfOk result (λ setting. (tree : Rows PartitionState) (f : Flat) (by partition : ℕ)
        → AreFound tree by (call.SetPartitionProperty partition code value) found.entry.need
        found.entry.caller.now found.entry.target.now found.entry.children → Refines tree f
        → MaySet f by partition code value setting) }
    ensures unmet { (tree : Rows PartitionState) (f : Flat) (by partition : ℕ)
        → AreFound tree by (call.SetPartitionProperty partition code value) found.entry.need
        found.entry.caller.now found.entry.target.now found.entry.children → Refines tree f
        → result_err result ≡ unmet_further f by (call.SetPartitionProperty partition code value) }
{
    let Found {
        need,
        caller,
        target,
        ..
    } = found;
    let Some(property) = Property::of(code) else {
        return Err(Rule::PropertyKnown);
    };
    if !need.states.allow(target.life()) {
        return Err(Rule::TargetState);
    }
    if !may_give(caller, property, value) {
        return Err(Rule::Entitlement);
    }
    if !property.takes(value) {
        return Err(Rule::PropertyRange);
    }
    Ok(Setting {
        property,
        narrows: narrows(target, property),
    })
}

// P18: whether a partition may give a property this value: a mask must lie within its own.
fn may_give<A: Allocator>(giver: &Partition<A>, property: Property, value: u64) -> bool
    ensures { (tree : Rows PartitionState) (f : Flat) (id : ℕ) → content tree id ≡ Some giver.now
        → Refines tree f → result ≡ may_give_of (Some property) value f id }
{
    match property {
        Property::PrivilegeFlags => Privileges::of(value).is_within(giver.mask()),
        Property::CpuReserve | Property::CpuCap | Property::CpuWeight => true,
    }
}

// Whether a new value of a property narrows the subtree of a partition.
fn narrows<A: Allocator>(partition: &Partition<A>, property: Property) -> bool
    ensures { (tree : Rows PartitionState) (f : Flat) (id : ℕ) → content tree id ≡ Some partition.now
        → Refines tree f → result ≡ narrows_of (Some property) f id }
{
    match property {
        Property::PrivilegeFlags => partition.life() == Life::Active,
        Property::CpuReserve | Property::CpuCap | Property::CpuWeight => false,
    }
}

/// HvSetPartitionProperty: sets a property of the target to a new value.
///
/// It has no output. A new mask for an Active target narrows it and all partitions below it: each keeps only
/// the bits that the value also has.
pub fn do_set_property<A: Allocator>(
    tree: &mut Partitions<A>,
    caller: u64,
    partition: u64,
    setting: Setting,
    value: u64,
) -> Effect
    requires { TreeInvariant tree.old }
    ensures { (f : Flat) (code : ℕ) → Refines tree.old f → MaySet f caller partition code value setting
        → HasServed f caller (call.SetPartitionProperty partition code value) [] result tree.new }
{
    set_property(
        tree,
        resolve_partition_id(caller, partition),
        setting,
        value,
    );
    Effect::Nothing
}

// Sets a property of a partition to its new value, or narrows the partition's subtree by it.
fn set_property<A: Allocator>(tree: &mut Partitions<A>, id: u64, setting: Setting, value: u64)
    requires { TreeInvariant tree.old }
    ensures { (f : Flat) → Refines tree.old f → setting.narrows ≡ narrows_of (Some setting.property) f id
        → Refines tree.new (record f { part = property_set f id (Some setting.property) value }) }
{
    if setting.narrows {
        narrow(tree, id, Privileges::of(value));
    } else {
        give(tree, id, setting.property, value);
    }
}

// Restricts each mask in the subtree of a partition to a value.
fn narrow<A: Allocator>(tree: &mut Partitions<A>, id: u64, value: Privileges)
    requires { TreeInvariant tree.old }
    ensures { (f : Flat) → Refines tree.old f → Refines tree.new
        (record f { part = narrowed_parts f id value }) }
{
    tree.update_subtree(id, &Narrowing { to: value });
}

// Gives a property of a partition its new value.
#[tactic(auto, using(hv_tree::proofs::Laws::unchanged))]
fn give<A: Allocator>(tree: &mut Partitions<A>, id: u64, property: Property, value: u64)
    ensures { tree.new ≡ changed tree.old id (given property value) }
{
    if let Some(partition) = tree.get_mut(id) {
        match property {
            Property::PrivilegeFlags => partition.set_mask(Privileges::of(value)),
            Property::CpuReserve => partition.set_cpu_reserve(value),
            Property::CpuCap => partition.set_cpu_cap(value),
            Property::CpuWeight => partition.set_cpu_weight(value),
        }
    }
}

// The edit that restricts a partition's mask. It never adds a bit.
#[derive(Drop)]
struct Narrowing {
    to: Privileges,
}

impl<A: Allocator> Edit<Partition<A>> for Narrowing {
    ghost use Rattle.hv_partition_calls.specs.Given.{narrowed};

    ghost edited = { λ e p. narrowed e.to p };

    fn edit(&self, content: &mut Partition<A>) {
        content.set_mask(content.mask().restrict(self.to));
    }
}
