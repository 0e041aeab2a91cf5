// HvPostMessage.
ghost use Rattle.std.specs.Prelude.{◌≡◌, [], ℕ, List, None, Some, IfErr, IfOk};
ghost use Rattle.std.specs.Result.{result_map_both};
ghost use Rattle.hv_calls.specs.declared.call.Call.TheVariants as call;
ghost use Rattle.hv_defs.specs.declared.port_kind.PortKind.TheVariants as port_type;
ghost use Rattle.hv_policy.specs.Flat.{Flat};
ghost use Rattle.hv_policy.specs.Met.{is_kind};
ghost use Rattle.hv_admit.specs.Done.{IsDone};
ghost use Rattle.hv_admit.specs.Served.{TreeInvariant, unmet_further};
ghost use Rattle.hv_admit.specs.Tie.{Refines};
ghost use Rattle.hv_tree.specs.Rows.{content};
ghost use Rattle.hv_messages.specs.ResolvedPort.{IsAimed, MayDeliver};

use crate::aims::{Aimed, has_message_room, resolve_connection, select_vp};
use crate::effects::posted;
use hv_admit::{Effect, Partitions};
use hv_calls::Payload;
use hv_defs::PortKind;
use hv_mail::Message;
use hv_partition::Partition;
use hv_policy::Rule;
use hv_ports::Port;
use std::alloc::{AllocError, Allocator};

/// Checks P16 to P23, and returns where the message goes.
pub fn ask_post<A: Allocator>(
    tree: &Partitions<A>,
    caller: &Partition<A>,
    connection: u32,
) -> Result<Aimed, Rule>
    ensures aimed { IfOk result (λ aimed. (f : Flat) (by type : ℕ) (payload : List ℕ)
        → content tree.now by ≡ Some caller.now → TreeInvariant tree.now → Refines tree.now f
        → (unmet_further f by (call.PostMessage connection type payload) ≡ None)
        × IsAimed f (by, connection) port_type.Message aimed) }
    ensures unmet { IfErr result (λ rule. (f : Flat) (by type : ℕ) (payload : List ℕ)
        → content tree.now by ≡ Some caller.now → TreeInvariant tree.now → Refines tree.now f
        → unmet_further f by (call.PostMessage connection type payload) ≡ Some rule) }
{
    let (to, home) = match resolve_connection(tree, caller, connection) {
        Ok(found) => found,
        Err(rule) => return Err(rule),
    };
    if !is_for_messages(to.port) {
        return Err(Rule::Operand);
    }
    let Some(vp) = select_vp(home, to, PortKind::Message) else {
        return Err(Rule::VpReady);
    };
    if !has_message_room(home, to) {
        return Err(Rule::PortRoom);
    }
    Ok(Aimed { to, vp })
}

// P21: whether the port takes messages.
fn is_for_messages(port: Port) -> bool
    ensures { result ≡ is_kind port.kind port_type.Message }
{
    match port.kind {
        PortKind::Message => true,
        PortKind::Event => false,
    }
}

/// HvPostMessage: posts a message at the SINT at which the connection's port aims.
///
/// The SINT is that of the processor at which the port aims, or for `Aim::Any` of the lowest processor
/// that is ready for messages. The message goes behind those already at the SINT. If the SINT shows none,
/// it then shows its oldest message and raises its vector.
#[tactic(auto, using(hv_tree::proofs::Laws::unchanged, hv_admit::proofs::UnchangedProcessor::same_vp))]
pub fn do_post<A: Allocator + Clone>(
    tree: &mut Partitions<A>,
    caller: u64,
    connection: u32,
    aimed: Aimed,
    message_type: u32,
    payload: &Payload<'_>,
) -> Result<Effect, AllocError>
    requires { MayDeliver tree.old caller connection port_type.Message
        (call.PostMessage connection message_type payload.now) aimed }
    ensures { (f : Flat) → Refines tree.old f
        → IsDone f caller (call.PostMessage connection message_type payload.now) tree.old
        (result_map_both (λ effect. ([], effect)) (λ why. why) result) tree.new }
{
    let Aimed { to, vp: index } = aimed;
    let Some(home) = tree.get_mut(to.conn.part) else {
        unreachable!()
    };
    let Some(vp) = home.vp_mut(index) else {
        unreachable!()
    };
    vp.reserve_message()?;
    let sint = to.port.sint as u8;
    let message = Message {
        port: to.conn.port,
        born: to.conn.born,
        kind: message_type,
        payload: payload.to_array(),
    };
    let shown = vp.post(sint, message);
    Ok(posted(to.conn.part, index, sint, vp, shown))
}
