// HvConnectPort.
ghost use Rattle.std.specs.Prelude.{◌≡◌, IfOk, []};
ghost use Rattle.std.specs.Result.{result_err, result_map_both};
ghost use Rattle.hv_policy.specs.Flat.{Flat};
ghost use Rattle.hv_admit.specs.Asked.{AreFound};
ghost use Rattle.hv_admit.specs.Done.{IsDone};
ghost use Rattle.hv_admit.specs.Served.{unmet_further};
ghost use Rattle.hv_admit.specs.Tie.{Refines};
ghost use Rattle.hv_port_calls.specs.Calls.{MayConnect, connect_with, port_birth};

use crate::rules::has_conn;
use hv_admit::{Effect, Found, Partitions, balance_of, resolve_partition_id};
use hv_defs::PortKind;
use hv_policy::Rule;
use hv_ports::Conn;
use std::alloc::{AllocError, Allocator};

/// The parameters of a new connection, as HvConnectPort has them.
#[derive(Clone, Copy)]
pub struct NewConnection {
    /// The connection's id.
    pub connection: u32,
    /// The port: its partition, its id there and its type.
    pub port_partition: u64,
    pub port: u32,
    pub kind: PortKind,
}

/// Checks P12, P15, P16, P17, P18, P21 and P24, and returns the port's birth.
pub fn ask_connect<A: Allocator>(
    tree: &Partitions<A>,
    by: u64,
    found: Found<'_, A>,
    partition: u64,
    new: NewConnection,
) -> Result<u64, Rule>
    ensures born { IfOk result (λ born. (f : Flat) → AreFound tree.now by (connect_with partition new)
        found.entry.need found.entry.caller.now found.entry.target.now found.entry.children
        → Refines tree.now f → born ≡ port_birth f by new) }
    ensures unmet { (f : Flat) → AreFound tree.now by (connect_with partition new) found.entry.need
        found.entry.caller.now found.entry.target.now found.entry.children
        → Refines tree.now f → result_err result ≡ unmet_further f by (connect_with partition new) }
{
    let Found {
        need,
        target,
        children,
        ..
    } = found;
    if !need.states.allow(target.life()) {
        return Err(Rule::TargetState);
    }
    let Some(home) = tree.get(resolve_partition_id(by, new.port_partition)) else {
        return Err(Rule::PeerExists);
    };
    if has_conn(target, new.connection) {
        return Err(Rule::Connection);
    }
    let Some(port) = home.port(new.port) else {
        return Err(Rule::Port);
    };
    if port.peer != resolve_partition_id(by, partition) {
        return Err(Rule::Entitlement);
    }
    if port.kind != new.kind {
        return Err(Rule::Operand);
    }
    if balance_of(target, children).available < need.charge {
        return Err(Rule::Pages);
    }
    Ok(port.born)
}

/// HvConnectPort: creates a connection of the target to a port, which has this birth.
///
/// The connection keeps the port's partition, id, type and birth. It uses 1 page of the target's pool.
pub fn do_connect<A: Allocator + Clone>(
    tree: &mut Partitions<A>,
    caller: u64,
    partition: u64,
    new: NewConnection,
    born: u64,
) -> Result<Effect, AllocError>
    requires { MayConnect tree.old caller partition new born }
    ensures { (f : Flat) → Refines tree.old f → IsDone f caller (connect_with partition new) tree.old
        (result_map_both (λ effect. ([], effect)) (λ why. why) result) tree.new }
{
    let row = Conn {
        part: resolve_partition_id(caller, new.port_partition),
        port: new.port,
        kind: new.kind,
        born,
    };
    let Some(target) = tree.get_mut(resolve_partition_id(caller, partition)) else {
        unreachable!()
    };
    target.reserve_conn()?;
    target.add_conn(new.connection, row);
    Ok(Effect::Nothing)
}
