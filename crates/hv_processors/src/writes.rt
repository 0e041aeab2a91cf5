// A write to a register of a processor, and what it changed.
ghost use Rattle.std.specs.Prelude.{◌≡◌, Some, IfOk, OnErr};
ghost use Rattle.std.specs.Result.{result_map_both};
ghost use Rattle.hv_defs.specs.Registers.{kept, row_of};
ghost use Rattle.hv_defs.specs.declared.sizes.TheConstants.{SINTS};
ghost use Rattle.hv_admit.specs.Effect.{Tells, has_bit};
ghost use Rattle.hv_admit.specs.Ended.{ended_effect, vectors_of};
ghost use Rattle.hv_partition.specs.Partition.{PartitionState};
ghost use Rattle.hv_policy.specs.Effect.{write_register as write_register_of};
ghost use Rattle.hv_policy.specs.Flat.{Flat};
ghost use Rattle.hv_admit.specs.Tie.{Refines};
ghost use Rattle.hv_tree.specs.Rows.{Rows};
ghost use Rattle.hv_vp.specs.Registers.{answer};
ghost use Rattle.hv_vp.specs.Vp.{written};
ghost use Rattle.hv_processors.specs.Place.{vp_at};

use hv_admit::{Effect, Synic};
use hv_defs::{EOM, RegFault, SINTS};
use hv_mail::Pending;
use hv_vp::Vp;
use std::alloc::Allocator;

// Writes a register of the processor with this index of the partition `part`. A fault changes nothing.
pub fn write_register<A: Allocator>(
    vp: &mut Vp<A>,
    part: u64,
    index: u32,
    name: u32,
    value: u64,
) -> Result<Effect, RegFault>
    ensures state { vp.new ≡ written name value vp.old }
    ensures answer { result_map_both (λ _. tt) (λ fault. fault) result ≡ answer (kept (row_of name) value) }
    ensures unchanged { OnErr result (vp.new ≡ vp.old) }
    ensures told { IfOk result (λ effect. (rows : Rows PartitionState) (f : Flat)
        → vp_at rows part index ≡ Some vp.old → Refines rows f
        → Tells effect f (write_register_of part index name value f)) }
{
    let due = if name == EOM { vp.due() } else { 0 };
    match vp.write_reg(name, value) {
        Ok(()) => Ok(ended(vp, part, index, due)),
        Err(fault) => Err(fault),
    }
}

// Returns the effect of an end of a message, after it. The bits of `due` are the SINTs that began to show
// another one. Each of them raised its vector.
fn ended<A: Allocator>(vp: &Vp<A>, part: u64, index: u32, due: u16) -> Effect
    ensures { result ≡ ended_effect part index due (vectors_of (has_bit due) vp.now.registers SINTS) }
{
    if due == 0 {
        return Effect::Nothing;
    }
    Effect::Synic(Synic {
        part,
        vp: index,
        shown: due,
        waiting: None,
        flag: None,
        raised: raised_by(vp, due),
        taken: None,
        freed: None,
    })
}

// The vectors of the SINTs whose bits are 1.
fn raised_by<A: Allocator>(vp: &Vp<A>, due: u16) -> Pending
    ensures { result ≡ vectors_of (has_bit due) vp.now.registers SINTS }
{
    let mut raised = Pending::new();
    for sint in 0..SINTS as u8 {
        // Most SINTs raise none.
        if due >> sint == 0 {
            return raised;
        }
        if due >> sint & 1 == 1 {
            vp.add_vector(sint, &mut raised);
        }
    }
    raised
}
