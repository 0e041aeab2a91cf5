// HvGetMemoryBalance.
ghost use Rattle.std.specs.Prelude.{◌≡◌, ℕ, []};
ghost use Rattle.hv_calls.specs.declared.call.Call.TheVariants as call;
ghost use Rattle.hv_partition.specs.Partition.{PartitionState, available as may_use, in_use as uses};
ghost use Rattle.hv_policy.specs.Flat.{Flat};
ghost use Rattle.hv_policy.specs.declared.need.Need.{Need as NeedOf};
ghost use Rattle.hv_admit.specs.Asked.{AreFound};
ghost use Rattle.hv_admit.specs.Done.{HasServed};
ghost use Rattle.hv_admit.specs.Tie.{Refines};
ghost use Rattle.hv_tree.specs.Rows.{Rows};

use hv_admit::{Balance, Effect};
use hv_policy::Output;

/// HvGetMemoryBalance: outputs the numbers of the target's available pages and of its pages in use.
///
/// The output is the two numbers, 8 bytes each. The call has no rule of its own.
pub fn do_balance(balance: Balance, output: &mut Output) -> Effect
    requires { output.old ≡ [] }
    ensures { (tree : Rows PartitionState) (f : Flat) (by partition children : ℕ) (need : NeedOf)
        (caller target : PartitionState)
        → AreFound tree by (call.GetMemoryBalance partition) need caller target children
        → balance.available ≡ may_use children target → balance.in_use ≡ uses children target
        → Refines tree f → HasServed f by (call.GetMemoryBalance partition) output.new result tree }
{
    output.push_number(balance.available);
    output.push_number(balance.in_use);
    Effect::Nothing
}
