// The accesses of this call group. Each one checks P1 to P3 as well.
ghost use Rattle.std.specs.Prelude.{◌≡◌, []};
ghost use Rattle.std.specs.Result.{result_map_both};
ghost use Rattle.hv_policy.specs.Flat.{Flat};
ghost use Rattle.hv_policy.specs.declared.event.Action.TheVariants as action;
ghost use Rattle.hv_admit.specs.Access.{IsAnswered};
ghost use Rattle.hv_admit.specs.Tie.{Refines};

use crate::own::own_vp;
use crate::writes::write_register;
use hv_admit::{Effect, Partitions};
use hv_policy::{Caller, Output, Rule};
use hv_vp::name_of_msr;
use std::alloc::Allocator;

/// Reads one of the caller's model-specific registers. The output is its value, in 8 bytes.
#[tactic(auto, using(hv_tree::proofs::Laws::unchanged))]
pub fn read_msr<A: Allocator>(
    tree: &mut Partitions<A>,
    by: Caller,
    msr: u32,
    output: &mut Output,
) -> Result<Effect, Rule>
    requires { output.old ≡ [] }
    ensures { (f : Flat) → Refines tree.old f → IsAnswered {A = A} f by (action.ReadMsr msr) tree.old
        (result_map_both (λ effect. (output.new, effect)) (λ rule. rule) result) tree.new }
{
    let name = name_of_msr(msr);
    let vp = own_vp(tree, by, name)?;
    let Some(name) = name else { unreachable!() };
    output.push_number(vp.read_reg(name).unwrap_or(0));
    Ok(Effect::Nothing)
}

/// Writes one of the caller's model-specific registers. The register determines which value it keeps. A write
/// of EOM ends a message.
///
/// The write itself decides P27: if the register rejects the value, nothing changes.
#[tactic(auto, using(hv_tree::proofs::Laws::unchanged))]
pub fn write_msr<A: Allocator>(
    tree: &mut Partitions<A>,
    by: Caller,
    msr: u32,
    value: u64,
) -> Result<Effect, Rule>
    ensures { (f : Flat) → Refines tree.old f → IsAnswered {A = A} f by (action.WriteMsr msr value) tree.old
        (result_map_both (λ effect. ([], effect)) (λ rule. rule) result) tree.new }
{
    let name = name_of_msr(msr);
    let vp = own_vp(tree, by, name)?;
    let Some(name) = name else { unreachable!() };
    match write_register(vp, by.part, by.vp, name, value) {
        Ok(effect) => Ok(effect),
        Err(_) => Err(Rule::MsrWrite),
    }
}
