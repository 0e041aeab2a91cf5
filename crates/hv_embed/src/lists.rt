// The functions that C calls to list what a partition has. Each is a look, as those of looks.rt are.
ghost use Rattle.std.specs.Prelude.{◌≡◌};
ghost use Rattle.hv_machine.specs.IsFlat.{IsFlat};
ghost use Rattle.hv_policy.specs.Flat.{Flat};
ghost use Rattle.hv_admit.specs.Served.{TreeInvariant};
ghost use Rattle.hv_admit.specs.Tie.{Refines};
ghost use Rattle.hv_embed.specs.Held.{is_link, is_page, is_vp};
ghost use Rattle.hv_embed.specs.Looks.{IsLookFor};
ghost use Rattle.hv_embed.specs.Next.{IsNext, IsNextRun};
ghost use Rattle.hv_embed.specs.Taken.{IsAsBefore};
ghost use Rattle.hv_embed.specs.declared.next.Links.TheVariants.{Connections, Ports};

use crate::handle::{HvMachine, state_of};
use crate::layout::HvPageRun;
use crate::looks::put;
use crate::next::{Links, next_id, next_run, next_vp};
use hv_admit::Partitions;
use hv_machine::Machine;
use std::alloc::Global;

/// Looks up the least index above `previous` among the processors of a partition, or the least of all if
/// `previous` is [`FIRST`](crate::layout::FIRST).
#[unsafe(no_mangle)]
pub extern "C" fn hv_embed_vp_after(
    machine: &mut HvMachine,
    part: u64,
    previous: u32,
    vp: &mut u32,
) -> u32
    ensures look { IsLookFor machine.old (λ f. IsNext (is_vp f part) previous) result vp.old vp.new }
    ensures kept { IsAsBefore machine.old machine.new }
{
    put(vp_after(&state_of!(machine).machine, part, previous), vp)
}

/// Looks up the least id above `previous` among the ports of a partition, as [`hv_embed_vp_after`] does among
/// the processors.
#[unsafe(no_mangle)]
pub extern "C" fn hv_embed_port_after(
    machine: &mut HvMachine,
    part: u64,
    previous: u32,
    id: &mut u32,
) -> u32
    ensures look { IsLookFor machine.old (λ f. IsNext (is_link Ports f part) previous) result id.old id.new }
    ensures kept { IsAsBefore machine.old machine.new }
{
    let machine = &state_of!(machine).machine;
    put(id_after(machine, part, Links::Ports, previous), id)
}

/// Looks up the least id above `previous` among the connections of a partition, as [`hv_embed_vp_after`] does
/// among the processors.
#[unsafe(no_mangle)]
pub extern "C" fn hv_embed_connection_after(
    machine: &mut HvMachine,
    part: u64,
    previous: u32,
    id: &mut u32,
) -> u32
    ensures look { IsLookFor machine.old (λ f. IsNext (is_link Connections f part) previous) result id.old
        id.new }
    ensures kept { IsAsBefore machine.old machine.new }
{
    let machine = &state_of!(machine).machine;
    put(id_after(machine, part, Links::Connections, previous), id)
}

/// Looks up the longest run of pages that begins at the partition's least page above `previous`, or at the
/// least of all if `previous` is [`FIRST`](crate::layout::FIRST).
///
/// It takes logarithmic time.
#[unsafe(no_mangle)]
pub extern "C" fn hv_embed_page_after(
    machine: &mut HvMachine,
    part: u64,
    previous: u64,
    run: &mut HvPageRun,
) -> u32
    ensures look { IsLookFor machine.old (λ f. IsNextRun (is_page f part) previous) result run.old run.new }
    ensures kept { IsAsBefore machine.old machine.new }
{
    put(page_after(&state_of!(machine).machine, part, previous), run)
}

fn vp_after(machine: &Machine<Global>, part: u64, previous: u32) -> Option<u32>
    ensures { (f : Flat) → IsFlat machine.now f → IsNext (is_vp f part) previous result }
{
    match tree_of(machine).get(part) {
        Some(partition) => next_vp(partition, previous),
        None => None,
    }
}

fn id_after(machine: &Machine<Global>, part: u64, links: Links, previous: u32) -> Option<u32>
    ensures { (f : Flat) → IsFlat machine.now f → IsNext (is_link links f part) previous result }
{
    match tree_of(machine).get(part) {
        Some(partition) => next_id(partition, links, previous),
        None => None,
    }
}

fn page_after(machine: &Machine<Global>, part: u64, previous: u64) -> Option<HvPageRun>
    ensures { (f : Flat) → IsFlat machine.now f → IsNextRun (is_page f part) previous result }
{
    match tree_of(machine).get(part) {
        Some(partition) => next_run(partition, previous),
        None => None,
    }
}

// Returns the machine's partitions, which refine each flat state that the machine stands for, and satisfy the
// tree's invariant.
fn tree_of(machine: &Machine<Global>) -> &Partitions<Global>
    ensures tied { (f : Flat) → IsFlat machine.now f → Refines result.now f }
    ensures lawful { TreeInvariant result.now }
{
    // Proof: the contract of `served` says that a machine stands for a lawful state.
    let _ = machine.served();
    machine.tree()
}
