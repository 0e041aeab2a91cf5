// HvGetVpRegisters.
ghost use Rattle.std.specs.Prelude.{◌≡◌, ℕ, [], IfOk};
ghost use Rattle.std.specs.FinMap.{get};
ghost use Rattle.std.specs.Result.{result_err};
ghost use Rattle.hv_calls.specs.declared.call.Call.TheVariants as call;
ghost use Rattle.hv_partition.specs.Partition.{PartitionState};
ghost use Rattle.hv_policy.specs.Answer.{register_of};
ghost use Rattle.hv_policy.specs.Flat.{Flat};
ghost use Rattle.hv_policy.specs.Needs.{target_of};
ghost use Rattle.hv_admit.specs.Asked.{AreFound};
ghost use Rattle.hv_admit.specs.Done.{HasServed};
ghost use Rattle.hv_admit.specs.Served.{unmet_further};
ghost use Rattle.hv_admit.specs.Tie.{Refines};
ghost use Rattle.hv_tree.specs.Rows.{Rows};

use crate::register_rules::may_access;
use hv_admit::{Effect, Found};
use hv_policy::{Output, Rule};
use hv_vp::privilege_of;
use std::alloc::Allocator;

/// Checks P12, P18, P19 and P21, and returns the register's value.
pub fn ask_get_registers<A: Allocator>(found: Found<'_, A>, vp: u32, name: u32) -> Result<u64, Rule>
    ensures value { IfOk result (λ value. (tree : Rows PartitionState) (f : Flat) (by partition : ℕ)
        → AreFound tree by (call.GetVpRegisters partition vp name) found.entry.need found.entry.caller.now
        found.entry.target.now found.entry.children → Refines tree f
        → value ≡ register_of (get f.vp (target_of (call.GetVpRegisters partition vp name) by, vp)) name) }
    ensures unmet { (tree : Rows PartitionState) (f : Flat) (by partition : ℕ)
        → AreFound tree by (call.GetVpRegisters partition vp name) found.entry.need found.entry.caller.now
        found.entry.target.now found.entry.children → Refines tree f
        → result_err result ≡ unmet_further f by (call.GetVpRegisters partition vp name) }
{
    let Found {
        need,
        caller,
        target,
        ..
    } = found;
    if !need.states.allow(target.life()) {
        return Err(Rule::TargetState);
    }
    let privilege = privilege_of(name);
    if !may_access(caller.mask(), privilege) {
        return Err(Rule::Entitlement);
    }
    let Some(processor) = target.vp(vp) else {
        return Err(Rule::VpExists);
    };
    if privilege.is_none() {
        return Err(Rule::Operand);
    }
    Ok(processor.read_reg(name).unwrap_or(0))
}

/// HvGetVpRegisters, one element: outputs the value of a register of the target's processor.
///
/// The value is the lower half of 16 bytes of output. The upper half is 0.
pub fn do_get_registers(value: u64, output: &mut Output) -> Effect
    requires { output.old ≡ [] }
    ensures { (tree : Rows PartitionState) (f : Flat) (by partition vp name : ℕ) → Refines tree f
        → value ≡ register_of (get f.vp (target_of (call.GetVpRegisters partition vp name) by, vp)) name
        → HasServed f by (call.GetVpRegisters partition vp name) output.new result tree }
{
    output.push_number(value);
    output.push_number(0);
    Effect::Nothing
}
