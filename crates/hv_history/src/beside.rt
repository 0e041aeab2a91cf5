// Two histories side by side.
ghost use Rattle.std.specs.Prelude.{◌≡◌, ℕ, Bool};
ghost use Rattle.hv_security.specs.Alike.{AreLowEquivalent};
ghost use Rattle.hv_machine.specs.IsFlat.{IsFlat};
ghost use Rattle.hv_policy.specs.Flat.{Flat};
ghost use Rattle.hv_history.specs.Beside.{AreSideBySide, replies_to};

use crate::kept::Kept;
use std::alloc::Allocator;

/// Members of a set of partitions get equal replies in two histories, whatever others do in each.
///
/// This holds if the members act alike in both and are acted on alike, and if their events see alike what
/// they look at outside. The machines are then alike for the members at the end. The function does nothing.
pub fn members_are_answered_alike<A: Allocator>(here: &Kept<A>, there: &Kept<A>)
    ensures replies { (members : ℕ → Bool) (both : AreSideBySide members here.now there.now)
        → replies_to members both.after ≡ replies_to members both.after_there }
    ensures left { (members : ℕ → Bool) → AreSideBySide members here.now there.now → (f g : Flat)
        → IsFlat here.now.machine f → IsFlat there.now.machine g → AreLowEquivalent members f g }
{
    // proof: opens both. Each is a run.
    let _here = here.machine();
    let _there = there.machine();
}
