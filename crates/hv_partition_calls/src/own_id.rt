// HvGetPartitionId.
ghost use Rattle.std.specs.Prelude.{◌≡◌, []};
ghost use Rattle.hv_calls.specs.declared.call.Call.TheVariants as call;
ghost use Rattle.hv_partition.specs.Partition.{PartitionState};
ghost use Rattle.hv_policy.specs.Flat.{Flat};
ghost use Rattle.hv_admit.specs.Done.{HasServed};
ghost use Rattle.hv_admit.specs.Tie.{Refines};
ghost use Rattle.hv_tree.specs.Rows.{Rows};

use hv_admit::Effect;
use hv_policy::Output;

/// HvGetPartitionId: outputs the caller's id. It has no rules of its own.
pub fn do_own_id(caller: u64, output: &mut Output) -> Effect
    requires { output.old ≡ [] }
    ensures { (tree : Rows PartitionState) (f : Flat) → Refines tree f
        → HasServed f caller call.GetPartitionId output.new result tree }
{
    output.push_number(caller);
    Effect::Nothing
}
