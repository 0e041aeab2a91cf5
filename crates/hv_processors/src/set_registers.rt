// HvSetVpRegisters.
ghost use Rattle.std.specs.Prelude.{◌≡◌, ℕ, []};
ghost use Rattle.std.specs.Result.{result_err};
ghost use Rattle.hv_calls.specs.declared.call.Call.TheVariants as call;
ghost use Rattle.hv_partition.specs.Partition.{PartitionState};
ghost use Rattle.hv_policy.specs.Flat.{Flat};
ghost use Rattle.hv_admit.specs.Asked.{AreFound, IsGranted};
ghost use Rattle.hv_admit.specs.Done.{HasServed};
ghost use Rattle.hv_admit.specs.Served.{unmet_further};
ghost use Rattle.hv_admit.specs.Tie.{Refines};
ghost use Rattle.hv_tree.specs.Rows.{Rows};

use crate::register_rules::may_access;
use crate::writes::write_register;
use hv_admit::{Effect, Found, Partitions, has_vp, resolve_partition_id};
use hv_policy::Rule;
use hv_vp::{kept, privilege_of};
use std::alloc::Allocator;

/// Checks P12, P18, P19 and P21.
pub fn ask_set_registers<A: Allocator>(
    found: Found<'_, A>,
    vp: u32,
    name: u32,
    value: u64,
) -> Result<(), Rule>
    ensures { (tree : Rows PartitionState) (f : Flat) (by partition : ℕ)
        → AreFound tree by (call.SetVpRegisters partition vp name value) found.entry.need
        found.entry.caller.now found.entry.target.now found.entry.children → Refines tree f
        → result_err result ≡ unmet_further f by (call.SetVpRegisters partition vp name value) }
{
    let Found {
        need,
        caller,
        target,
        ..
    } = found;
    if !need.states.allow(target.life()) {
        return Err(Rule::TargetState);
    }
    if !may_access(caller.mask(), privilege_of(name)) {
        return Err(Rule::Entitlement);
    }
    if !has_vp(target, vp) {
        return Err(Rule::VpExists);
    }
    if kept(name, value).is_err() {
        return Err(Rule::Operand);
    }
    Ok(())
}

/// HvSetVpRegisters, one element: writes a register of the target's processor.
///
/// The register determines which value it keeps. A write of EOM ends a message: if the processor takes
/// messages, each SINT that shows none then shows its oldest waiting message and raises its vector.
#[tactic(auto, using(hv_tree::proofs::Laws::unchanged))]
pub fn do_set_registers<A: Allocator>(
    tree: &mut Partitions<A>,
    caller: u64,
    partition: u64,
    vp: u32,
    name: u32,
    value: u64,
) -> Effect
    requires { IsGranted tree.old caller (call.SetVpRegisters partition vp name value) }
    ensures { (f : Flat) → Refines tree.old f
        → HasServed f caller (call.SetVpRegisters partition vp name value) [] result tree.new }
{
    let part = resolve_partition_id(caller, partition);
    let Some(target) = tree.get_mut(part) else {
        unreachable!()
    };
    let Some(processor) = target.vp_mut(vp) else {
        unreachable!()
    };
    match write_register(processor, part, vp, name, value) {
        Ok(effect) => effect,
        Err(_) => unreachable!(),
    }
}
