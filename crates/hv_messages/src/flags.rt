// The accesses to the event flags. Each one checks P1 to P3 as well, and none requires a privilege.
ghost use Rattle.std.specs.Prelude.{◌≡◌, []};
ghost use Rattle.std.specs.Result.{result_map_both};
ghost use Rattle.hv_policy.specs.Flat.{Flat};
ghost use Rattle.hv_policy.specs.declared.event.Action.TheVariants as action;
ghost use Rattle.hv_admit.specs.Access.{IsAnswered};
ghost use Rattle.hv_admit.specs.Tie.{Refines};

use crate::effects::flag_cleared;
use hv_admit::{Effect, Partitions, caller_vp};
use hv_defs::{EVENT_FLAGS, SINTS};
use hv_policy::{Caller, Output, Rule};
use std::alloc::Allocator;

/// Reads the event flags of one of the caller's SINTs. The output is 256 bytes.
#[tactic(auto, using(hv_tree::proofs::Laws::unchanged))]
pub fn read_flags<A: Allocator>(
    tree: &mut Partitions<A>,
    by: Caller,
    sint: u8,
    output: &mut Output,
) -> Result<Effect, Rule>
    requires { output.old ≡ [] }
    ensures { (f : Flat) → Refines tree.old f → IsAnswered {A = A} f by (action.ReadFlags sint) tree.old
        (result_map_both (λ effect. (output.new, effect)) (λ rule. rule) result) tree.new }
{
    let vp = caller_vp(tree, by)?;
    if u32::from(sint) >= SINTS {
        return Err(Rule::Operand);
    }
    output.extend_from_slice(&vp.flags(sint));
    Ok(Effect::Nothing)
}

/// Clears an event flag of one of the caller's SINTs.
#[tactic(auto, using(hv_tree::proofs::Laws::unchanged))]
pub fn clear_flag<A: Allocator>(
    tree: &mut Partitions<A>,
    by: Caller,
    sint: u8,
    flag: u16,
) -> Result<Effect, Rule>
    ensures { (f : Flat) → Refines tree.old f → IsAnswered {A = A} f by (action.ClearFlag sint flag) tree.old
        (result_map_both (λ effect. ([], effect)) (λ rule. rule) result) tree.new }
{
    let vp = caller_vp(tree, by)?;
    if u32::from(sint) >= SINTS {
        return Err(Rule::Operand);
    }
    if u32::from(flag) >= EVENT_FLAGS {
        return Err(Rule::Operand);
    }
    let was_set = vp.has_flag(sint, flag);
    vp.clear_flag(sint, flag);
    Ok(flag_cleared(by.part, by.vp, sint, flag, was_set))
}
