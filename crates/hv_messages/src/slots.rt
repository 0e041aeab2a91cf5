// The accesses to a message slot. Each one checks P1 to P3 as well, and none requires a privilege.
ghost use Rattle.std.specs.Prelude.{◌≡◌, []};
ghost use Rattle.std.specs.Result.{result_map_both};
ghost use Rattle.hv_policy.specs.Flat.{Flat};
ghost use Rattle.hv_policy.specs.declared.event.Action.TheVariants as action;
ghost use Rattle.hv_admit.specs.Access.{IsAnswered};
ghost use Rattle.hv_admit.specs.Tie.{Refines};

use crate::effects::slot_cleared;
use hv_admit::{Effect, Partitions, caller_vp};
use hv_defs::SINTS;
use hv_policy::{Caller, Output, Rule};
use std::alloc::Allocator;

/// Reads the message slot of one of the caller's SINTs. The output is 256 bytes.
#[tactic(auto, using(hv_tree::proofs::Laws::unchanged))]
pub fn read_slot<A: Allocator>(
    tree: &mut Partitions<A>,
    by: Caller,
    sint: u8,
    output: &mut Output,
) -> Result<Effect, Rule>
    requires { output.old ≡ [] }
    ensures { (f : Flat) → Refines tree.old f → IsAnswered {A = A} f by (action.ReadSlot sint) tree.old
        (result_map_both (λ effect. (output.new, effect)) (λ rule. rule) result) tree.new }
{
    let vp = caller_vp(tree, by)?;
    if u32::from(sint) >= SINTS {
        return Err(Rule::Operand);
    }
    output.extend_from_slice(&vp.slot(sint));
    Ok(Effect::Nothing)
}

/// Removes the message that one of the caller's SINTs shows, if it shows one.
///
/// No other message is shown in its place.
#[tactic(auto, using(hv_tree::proofs::Laws::unchanged))]
pub fn clear_slot<A: Allocator>(
    tree: &mut Partitions<A>,
    by: Caller,
    sint: u8,
) -> Result<Effect, Rule>
    ensures { (f : Flat) → Refines tree.old f → IsAnswered {A = A} f by (action.ClearSlot sint) tree.old
        (result_map_both (λ effect. ([], effect)) (λ rule. rule) result) tree.new }
{
    let vp = caller_vp(tree, by)?;
    if u32::from(sint) >= SINTS {
        return Err(Rule::Operand);
    }
    let port = vp.shown(sint);
    vp.clear_slot(sint);
    Ok(slot_cleared(by.part, by.vp, sint, port))
}
