// The partitions of a machine, and the processors among them.
ghost use Rattle.std.specs.Prelude.{◌≡◌, ◌<◌, ℕ, true, option_copied};
ghost use Rattle.std.specs.FinMap.{contains_key};
ghost use Rattle.hv_machine.specs.IsFlat.{IsFlat};
ghost use Rattle.hv_policy.specs.Flat.{Flat};
ghost use Rattle.hv_admit.specs.Served.{TreeInvariant};
ghost use Rattle.hv_admit.specs.Tie.{Refines};
ghost use Rattle.hv_looks.specs.Rows.{vp_there};

use hv_admit::Partitions;
use hv_machine::{Caller, Machine};
use hv_vp::Vp;
use std::alloc::Allocator;

// Returns the machine's partitions, which refine each flat state that the machine stands for. Their rows
// satisfy the tree's invariant, and their ids are below the next one.
pub(crate) fn tree_of<A: Allocator>(machine: &Machine<A>) -> &Partitions<A>
    ensures tied { (f : Flat) → IsFlat machine.now f → Refines result.now f }
    ensures lawful { TreeInvariant result.now }
    ensures below { (id : ℕ) → contains_key result.now id ≡ true → id < machine.now.next }
{
    // Proof: the contract of `served` says that a machine stands for a lawful state.
    let _ = machine.served();
    machine.tree()
}

// Returns a processor, if it exists.
pub(crate) fn vp_at<A: Allocator>(tree: &Partitions<A>, of: Caller) -> Option<&Vp<A>>
    ensures { option_copied result ≡ vp_there tree.now of }
{
    match tree.get(of.part) {
        Some(partition) => partition.vp(of.vp),
        None => None,
    }
}
