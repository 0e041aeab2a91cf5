// HvCreatePort.
ghost use Rattle.std.specs.Prelude.{◌≡◌, ◌<◌, ℕ, []};
ghost use Rattle.std.specs.Result.{result_err, result_map_both};
ghost use Rattle.hv_defs.specs.declared.sizes.TheConstants.{MAX_SERVED};
ghost use Rattle.hv_policy.specs.Effect.{flags_of as flags_kept};
ghost use Rattle.hv_policy.specs.Flat.{Flat};
ghost use Rattle.hv_admit.specs.Asked.{AreFound, IsGranted};
ghost use Rattle.hv_admit.specs.Done.{IsDone};
ghost use Rattle.hv_admit.specs.Served.{unmet_further};
ghost use Rattle.hv_admit.specs.Tie.{Refines};
ghost use Rattle.hv_port_calls.specs.Calls.{create_with};

use crate::rules::has_port;
use hv_admit::{Effect, Found, Partitions, balance_of, has_target, resolve_partition_id};
use hv_defs::{Aim, PortKind};
use hv_policy::Rule;
use hv_ports::Port;
use std::alloc::{AllocError, Allocator};

/// The parameters of a new port, as HvCreatePort has them.
#[derive(Clone, Copy)]
pub struct NewPort {
    /// The port's id, of 24 bits.
    pub port: u32,
    /// The partition that may connect.
    pub peer: u64,
    /// The type of the port: what it takes.
    pub kind: PortKind,
    /// The SINT at which the port aims, and the processor.
    pub sint: u32,
    pub vp: Aim,
    /// The first of an event port's flags, and their count. Both are ignored for a message port.
    pub base: u16,
    pub count: u16,
}

/// Checks P12, P15, P17, P19 and P24.
pub fn ask_create_port<A: Allocator>(
    tree: &Partitions<A>,
    by: u64,
    found: Found<'_, A>,
    new: NewPort,
) -> Result<(), Rule>
    ensures { (f : Flat) (partition : ℕ)
        → AreFound tree.now by (create_with partition new) found.entry.need found.entry.caller.now
        found.entry.target.now found.entry.children
        → Refines tree.now f → result_err result ≡ unmet_further f by (create_with partition new) }
{
    let Found {
        need,
        target,
        children,
        ..
    } = found;
    if !need.states.allow(target.life()) {
        return Err(Rule::TargetState);
    }
    if !tree.contains(resolve_partition_id(by, new.peer)) {
        return Err(Rule::PeerExists);
    }
    if has_port(target, new.port) {
        return Err(Rule::Port);
    }
    if !has_target(target, new.vp) {
        return Err(Rule::VpExists);
    }
    if balance_of(target, children).available < need.charge {
        return Err(Rule::Pages);
    }
    Ok(())
}

/// HvCreatePort: creates a port of the target.
///
/// The port's birth is the count of served events after this one; `served` is the count before it. The
/// port uses 1 page of the target's pool.
pub fn do_create_port<A: Allocator + Clone>(
    tree: &mut Partitions<A>,
    caller: u64,
    served: u64,
    partition: u64,
    new: NewPort,
) -> Result<Effect, AllocError>
    requires granted { IsGranted tree.old caller (create_with partition new) }
    requires count { served < MAX_SERVED }
    ensures { (f : Flat) → Refines tree.old f → f.served ≡ served
        → IsDone f caller (create_with partition new) tree.old
        (result_map_both (λ effect. ([], effect)) (λ why. why) result) tree.new }
{
    let row = Port {
        kind: new.kind,
        peer: resolve_partition_id(caller, new.peer),
        sint: new.sint,
        vp: new.vp,
        base: flags_of(new.kind, new.base),
        count: flags_of(new.kind, new.count),
        born: served + 1,
    };
    let Some(target) = tree.get_mut(resolve_partition_id(caller, partition)) else {
        unreachable!()
    };
    target.reserve_port()?;
    target.add_port(new.port, row);
    Ok(Effect::Nothing)
}

// The first flag of a port, or the count of its flags, as the port keeps it: 0 for a message port.
fn flags_of(kind: PortKind, number: u16) -> u16
    ensures { result ≡ flags_kept kind number }
{
    match kind {
        PortKind::Message => 0,
        PortKind::Event => number,
    }
}
