// Looks at a processor.
ghost use Rattle.std.specs.Prelude.{◌≡◌, option_map};
ghost use Rattle.std.specs.Int.{w64, to_le_bytes};
ghost use Rattle.hv_machine.specs.Access.{access_event};
ghost use Rattle.hv_machine.specs.IsFlat.{IsFlat};
ghost use Rattle.hv_mail.specs.Words.{numbers_of};
ghost use Rattle.hv_policy.specs.Flat.{Flat};
ghost use Rattle.hv_policy.specs.declared.event.Access.TheVariants.{ReadFlags, ReadMsr, ReadSlot};
ghost use Rattle.hv_policy.specs.declared.event.Access.TheVariants.{TakeInterrupt};
ghost use Rattle.hv_admit.specs.Tie.{Refines};
ghost use Rattle.hv_looks.specs.Look.{ShowsServed, flags_seen, highest_of, msr_seen, pending_seen, slot_seen};

use crate::tree::{tree_of, vp_at};
use hv_admit::Partitions;
use hv_defs::SINTS;
use hv_machine::{Caller, Machine};
use hv_vp::name_of_msr;
use std::alloc::Allocator;

/// Returns the 256 bytes of the message slot of a SINT, as a read of the slot does.
///
/// They are zeros if the slot shows no message (TLFS 4.0, "Messages"). `None` if there is no such processor,
/// or no such SINT.
pub fn slot<A: Allocator>(machine: &Machine<A>, of: Caller, sint: u8) -> Option<[u8; 256]>
    ensures look { (f : Flat) → IsFlat machine.now f → result ≡ slot_seen f of sint }
    ensures served { (f : Flat) → IsFlat machine.now f
        → ShowsServed {A = A} f (access_event of (ReadSlot sint)) result }
{
    slot_in(tree_of(machine), of, sint)
}

/// Returns the 256 bytes of the event flags of a SINT.
///
/// Flag f is bit f % 8 of byte f / 8 (TLFS 4.0, "Event Flags"). `None` if there is no such processor, or no
/// such SINT.
pub fn flags<A: Allocator>(machine: &Machine<A>, of: Caller, sint: u8) -> Option<[u8; 256]>
    ensures look { (f : Flat) → IsFlat machine.now f → result ≡ flags_seen f of sint }
    ensures served { (f : Flat) → IsFlat machine.now f
        → ShowsServed {A = A} f (access_event of (ReadFlags sint)) result }
{
    flags_in(tree_of(machine), of, sint)
}

/// Returns the value of a model-specific register of a processor.
///
/// `None` if there is no such processor, or no register has this number.
pub fn msr<A: Allocator>(machine: &Machine<A>, of: Caller, msr: u32) -> Option<u64>
    ensures look { (f : Flat) → IsFlat machine.now f → result ≡ msr_seen f of msr }
    ensures served { (f : Flat) → IsFlat machine.now f
        → ShowsServed {A = A} f (access_event of (ReadMsr msr)) (option_map (to_le_bytes w64) result) }
{
    msr_in(tree_of(machine), of, msr)
}

/// Returns the interrupt vectors that are pending at a processor, as bits.
///
/// Vector v is bit v % 64 of word v / 64. The processor takes the highest one next. `None` if there is no
/// such processor.
pub fn pending<A: Allocator>(machine: &Machine<A>, of: Caller) -> Option<[u64; 4]>
    ensures look { (f : Flat) → IsFlat machine.now f → option_map numbers_of result ≡ pending_seen f of }
    ensures served { (f : Flat) → IsFlat machine.now f → ShowsServed {A = A} f (access_event of TakeInterrupt)
        (option_map (λ words. highest_of (numbers_of words)) result) }
{
    pending_in(tree_of(machine), of)
}

fn slot_in<A: Allocator>(tree: &Partitions<A>, of: Caller, sint: u8) -> Option<[u8; 256]>
    ensures { (f : Flat) → Refines tree.now f → result ≡ slot_seen f of sint }
{
    if u32::from(sint) >= SINTS {
        return None;
    }
    match vp_at(tree, of) {
        Some(vp) => Some(vp.slot(sint)),
        None => None,
    }
}

fn flags_in<A: Allocator>(tree: &Partitions<A>, of: Caller, sint: u8) -> Option<[u8; 256]>
    ensures { (f : Flat) → Refines tree.now f → result ≡ flags_seen f of sint }
{
    if u32::from(sint) >= SINTS {
        return None;
    }
    match vp_at(tree, of) {
        Some(vp) => Some(vp.flags(sint)),
        None => None,
    }
}

fn pending_in<A: Allocator>(tree: &Partitions<A>, of: Caller) -> Option<[u64; 4]>
    ensures { (f : Flat) → Refines tree.now f → option_map numbers_of result ≡ pending_seen f of }
{
    match vp_at(tree, of) {
        Some(vp) => Some(vp.pending()),
        None => None,
    }
}

fn msr_in<A: Allocator>(tree: &Partitions<A>, of: Caller, msr: u32) -> Option<u64>
    ensures { (f : Flat) → Refines tree.now f → result ≡ msr_seen f of msr }
{
    let Some(vp) = vp_at(tree, of) else {
        return None;
    };
    let Some(name) = name_of_msr(msr) else {
        return None;
    };
    match vp.read_reg(name) {
        Ok(value) => Some(value),
        Err(_) => Some(0),
    }
}
