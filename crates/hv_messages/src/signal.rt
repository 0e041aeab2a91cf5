// HvSignalEvent.
ghost use Rattle.std.specs.Prelude.{◌≡◌, ◌&&◌, [], ℕ, nat_lt, None, Some, IfErr, IfOk};
ghost use Rattle.hv_calls.specs.declared.call.Call.TheVariants as call;
ghost use Rattle.hv_defs.specs.declared.port_kind.PortKind.TheVariants as port_type;
ghost use Rattle.hv_policy.specs.Flat.{Flat};
ghost use Rattle.hv_policy.specs.Met.{is_kind};
ghost use Rattle.hv_admit.specs.Done.{HasServed};
ghost use Rattle.hv_admit.specs.Served.{unmet_further};
ghost use Rattle.hv_admit.specs.Tie.{Refines};
ghost use Rattle.hv_tree.specs.Rows.{content};
ghost use Rattle.hv_messages.specs.ResolvedPort.{IsAimed, MayDeliver};

use crate::aims::{Aimed, resolve_connection, select_vp};
use crate::effects::signalled;
use hv_admit::{Effect, Partitions};
use hv_defs::PortKind;
use hv_partition::Partition;
use hv_policy::Rule;
use hv_ports::Port;
use std::alloc::Allocator;

/// Checks P16 to P22, and returns where the flag is.
pub fn ask_signal<A: Allocator>(
    tree: &Partitions<A>,
    caller: &Partition<A>,
    connection: u32,
    flag: u16,
) -> Result<Aimed, Rule>
    ensures aimed { IfOk result (λ aimed. (f : Flat) (by : ℕ) → content tree.now by ≡ Some caller.now
        → Refines tree.now f → (unmet_further f by (call.SignalEvent connection flag) ≡ None)
        × IsAimed f (by, connection) port_type.Event aimed) }
    ensures unmet { IfErr result (λ rule. (f : Flat) (by : ℕ) → content tree.now by ≡ Some caller.now
        → Refines tree.now f → unmet_further f by (call.SignalEvent connection flag) ≡ Some rule) }
{
    let (to, home) = resolve_connection(tree, caller, connection)?;
    if !has_flag(to.port, flag) {
        return Err(Rule::Operand);
    }
    let Some(vp) = select_vp(home, to, PortKind::Event) else {
        return Err(Rule::VpReady);
    };
    Ok(Aimed { to, vp })
}

// P21: whether the port takes event flags and has one with this number.
fn has_flag(port: Port, flag: u16) -> bool
    ensures { result ≡ is_kind port.kind port_type.Event && nat_lt flag port.count }
{
    match port.kind {
        PortKind::Message => false,
        PortKind::Event => flag < port.count,
    }
}

/// HvSignalEvent: sets an event flag of the SINT at which the connection's port aims.
///
/// `flag` counts from the port's first flag. The SINT is that of the processor at which the port aims, or
/// for `Aim::Any` of the lowest processor that is ready for event flags. If the flag was clear, the SINT
/// raises its vector.
#[tactic(auto, using(hv_tree::proofs::Laws::unchanged))]
pub fn do_signal<A: Allocator>(
    tree: &mut Partitions<A>,
    caller: u64,
    connection: u32,
    aimed: Aimed,
    flag: u16,
) -> Effect
    requires { MayDeliver tree.old caller connection port_type.Event (call.SignalEvent connection flag)
        aimed }
    ensures { (f : Flat) → Refines tree.old f
        → HasServed f caller (call.SignalEvent connection flag) [] result tree.new }
{
    let Aimed { to, vp: index } = aimed;
    let Some(home) = tree.get_mut(to.conn.part) else {
        unreachable!()
    };
    let Some(vp) = home.vp_mut(index) else {
        unreachable!()
    };
    let sint = to.port.sint as u8;
    let place = to.port.base + flag;
    let was_set = vp.has_flag(sint, place);
    vp.signal(sint, place);
    signalled(to.conn.part, index, sint, place, vp, was_set)
}
