// The access to the pending interrupts. It checks P1 to P3 as well, and requires no privilege.
ghost use Rattle.std.specs.Prelude.{◌≡◌, []};
ghost use Rattle.std.specs.Result.{result_map_both};
ghost use Rattle.hv_policy.specs.Flat.{Flat};
ghost use Rattle.hv_policy.specs.declared.event.Action.TheVariants as action;
ghost use Rattle.hv_admit.specs.Access.{IsAnswered};
ghost use Rattle.hv_admit.specs.Tie.{Refines};

use crate::effects::taken;
use hv_admit::{Effect, Partitions, caller_vp};
use hv_policy::{Caller, Output, Rule};
use std::alloc::Allocator;

/// Takes the highest vector that is pending at the caller.
///
/// The output is 1 byte: the vector, or 0 if none is pending.
#[tactic(auto, using(hv_tree::proofs::Laws::unchanged))]
pub fn take_interrupt<A: Allocator>(
    tree: &mut Partitions<A>,
    by: Caller,
    output: &mut Output,
) -> Result<Effect, Rule>
    requires { output.old ≡ [] }
    ensures { (f : Flat) → Refines tree.old f → IsAnswered {A = A} f by action.TakeInterrupt tree.old
        (result_map_both (λ effect. (output.new, effect)) (λ rule. rule) result) tree.new }
{
    let vp = caller_vp(tree, by)?;
    let vector = vp.take_interrupt();
    output.extend_from_slice(&[vector.unwrap_or(0)]);
    Ok(taken(by.part, by.vp, vector))
}
