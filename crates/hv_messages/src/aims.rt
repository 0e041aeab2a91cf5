// Resolving a connection to its port and target, and the rules that apply there.
ghost use Rattle.std.specs.Prelude.{◌≡◌, ℕ, option_map, IfOk, IfErr, IfSome, Some};
ghost use Rattle.std.specs.FinMap.{get};
ghost use Rattle.hv_partition.specs.Partition.{PartitionState};
ghost use Rattle.hv_policy.specs.Flat.{Flat};
ghost use Rattle.hv_policy.specs.Met.{has_message_room as has_message_room_of};
ghost use Rattle.hv_policy.specs.Rules.{first_unmet};
ghost use Rattle.hv_admit.specs.Served.{TreeInvariant};
ghost use Rattle.hv_admit.specs.Tie.{Refines, conn_row_of, port_row_of};
ghost use Rattle.hv_tree.specs.Rows.{Rows, content};
ghost use Rattle.hv_messages.specs.ResolvedPort.{IsReached, aim_row, reach_asks, taker_of};

use hv_admit::{Partitions, has_target};
use hv_defs::{Aim, MAX_MESSAGES, PortKind};
use hv_partition::Partition;
use hv_policy::Rule;
use hv_ports::{Conn, Port};
use std::alloc::Allocator;

/// A resolved connection: the connection itself, and the port with the id that it keeps.
#[derive(Clone, Copy)]
pub struct ResolvedPort {
    pub conn: Conn,
    pub port: Port,
}

/// Where a message or an event flag through a connection goes.
#[derive(Clone, Copy)]
pub struct Aimed {
    /// The connection, and the port with the id that it keeps.
    pub to: ResolvedPort,
    /// The processor that takes it, by its index in the port's partition.
    pub vp: u32,
}

// Checks P16, P17 and P19 for a post or a signal, and returns the caller's connection, its port and the
// port's partition. The error is the first of these rules that fails. The checks on the port's partition
// use the partition that the lookup found.
pub fn resolve_connection<'t, A: Allocator>(
    tree: &'t Partitions<A>,
    caller: &Partition<A>,
    connection: u32,
) -> Result<(ResolvedPort, &'t Partition<A>), Rule>
    ensures reached { IfOk result (λ found. (f : Flat) (by : ℕ) → content tree.now by ≡ Some caller.now
        → Refines tree.now f → IsReached f (by, connection) found.0.conn found.0.port) }
    ensures home { IfOk result (λ found. content tree.now found.0.conn.part ≡ Some found.1.now) }
    ensures first { IfErr result (λ rule. (f : Flat) (by : ℕ) → content tree.now by ≡ Some caller.now
        → Refines tree.now f → first_unmet (reach_asks f (by, connection)) ≡ Some rule) }
{
    let Some(conn) = conn_of(caller, connection) else {
        return Err(Rule::Connection);
    };
    let Some((port, home)) = port_of(tree, conn.part, conn.port) else {
        return Err(Rule::Port);
    };
    if port.born != conn.born {
        return Err(Rule::Port);
    }
    if !has_target(home, port.vp) {
        return Err(Rule::VpExists);
    }
    Ok((ResolvedPort { conn, port }, home))
}

// A partition's connection with this id, if it has one.
fn conn_of<A: Allocator>(partition: &Partition<A>, connection: u32) -> Option<Conn>
    ensures { (f : Flat) (rows : Rows PartitionState) (id : ℕ) → content rows id ≡ Some partition.now
        → Refines rows f → option_map conn_row_of result ≡ get f.conn (id, connection) }
{
    match partition.conn(connection) {
        None => None,
        Some(conn) => Some(conn),
    }
}

// A partition's port with this id, if it has one, together with the partition.
fn port_of<'t, A: Allocator>(
    tree: &'t Partitions<A>,
    id: u64,
    port: u32,
) -> Option<(Port, &'t Partition<A>)>
    ensures port { (f : Flat) → Refines tree.now f → option_map (λ found. port_row_of found.0) result
        ≡ get f.port (id, port) }
    ensures home { IfSome result (λ found. content tree.now id ≡ Some found.1.now) }
{
    let Some(partition) = tree.get(id) else {
        return None;
    };
    match partition.port(port) {
        None => None,
        Some(port) => Some((port, partition)),
    }
}

// P22: the processor of the port's partition to which a port of this kind delivers, if there is one: the one
// at which the port aims, if it is ready, or for `Aim::Any` the lowest that is ready.
#[tactic(auto, using(crate::proofs::Outcomes::taker_any))]
pub fn select_vp<A: Allocator>(
    home: &Partition<A>,
    aimed: ResolvedPort,
    kind: PortKind,
) -> Option<u32>
    ensures { (f : Flat) (rows : Rows PartitionState) → content rows aimed.conn.part ≡ Some home.now
        → Refines rows f → result ≡ taker_of kind f (aim_row aimed.conn aimed.port) }
{
    match aimed.port.vp {
        Aim::One(index) => {
            let Some(vp) = home.vp(index) else {
                return None;
            };
            if vp.is_ready(kind) { Some(index) } else { None }
        }
        Aim::Any => home.lowest_ready_vp(kind),
    }
}

// P23: whether fewer than `MAX_MESSAGES` messages of the port and its birth are kept. They are at the
// processor at which the port aims, or for `Aim::Any` at any processors of its partition.
pub fn has_message_room<A: Allocator>(home: &Partition<A>, aimed: ResolvedPort) -> bool
    ensures { (f : Flat) (rows : Rows PartitionState) (caller connection : ℕ)
        → content rows aimed.conn.part ≡ Some home.now → TreeInvariant rows
        → ((f : Flat) → Refines rows f → IsReached f (caller, connection) aimed.conn aimed.port)
        → Refines rows f → result ≡ has_message_room_of f (aim_row aimed.conn aimed.port) }
{
    let most = MAX_MESSAGES as usize;
    match aimed.port.vp {
        Aim::One(index) => match home.vp(index) {
            None => false,
            Some(vp) => vp.of_port(aimed.conn.port, aimed.conn.born) < most,
        },
        Aim::Any => home.keep_fewer(aimed.conn.port, aimed.conn.born, most),
    }
}
