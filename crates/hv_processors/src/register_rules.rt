// The rule that applies to each access to a register, by a call or as a model-specific register.
ghost use Rattle.std.specs.Prelude.{◌≡◌, ℕ, Option, Some, option_map};
ghost use Rattle.hv_defs.specs.declared.registers.RegisterRow.{RegisterRow};
ghost use Rattle.hv_partition.specs.Partition.{PartitionState};
ghost use Rattle.hv_policy.specs.Flat.{Flat};
ghost use Rattle.hv_policy.specs.Met.{may_access as may_access_of};
ghost use Rattle.hv_admit.specs.Tie.{Refines};
ghost use Rattle.hv_tree.specs.Rows.{Rows, content};

use hv_privs::Privileges;

// P18 and P26: whether a partition with this mask has the privilege of a register. The rule holds if there is
// no such register.
pub fn may_access(mask: Privileges, privilege: Option<u64>) -> bool
    ensures { (tree : Rows PartitionState) (f : Flat) (id : ℕ) (p : PartitionState) (row : Option RegisterRow)
        → content tree id ≡ Some p → p.mask ≡ mask → privilege ≡ option_map (λ row. row.privilege) row
        → Refines tree f → result ≡ may_access_of f id row }
{
    match privilege {
        None => true,
        Some(privilege) => mask.contains(Privileges::of(privilege)),
    }
}
