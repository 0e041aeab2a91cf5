// The functions that C calls to look at a machine. A look is not an event: it is not counted, has no line,
// and takes no memory.
ghost use Rattle.std.specs.Prelude.{◌≡◌, ◌≢◌, is_some, option_map};
ghost use Rattle.std.specs.FinMap.{get};
ghost use Rattle.hv_abi.specs.CallRow.{kind_of};
ghost use Rattle.hv_defs.specs.Registers.{name_of_msr};
ghost use Rattle.hv_looks.specs.Look.{child_seen, features_seen, flags_seen, msr_seen, owner_seen};
ghost use Rattle.hv_looks.specs.Look.{partition_seen, pending_seen, slot_seen};
ghost use Rattle.hv_mail.specs.Words.{numbers_of};
ghost use Rattle.hv_admit.specs.Tie.{conn_row_of, port_row_of};
ghost use Rattle.hv_embed.specs.Answer.{caller_of as caller_by};
ghost use Rattle.hv_embed.specs.Looks.{IsLook, Shows, aim_number, conn_shown, life_number, partition_shown};
ghost use Rattle.hv_embed.specs.Looks.{port_shown, type_number};
ghost use Rattle.hv_embed.specs.Taken.{IsAsBefore};
ghost use Rattle.hv_embed.specs.declared.status.TheConstants.{DONE};

use crate::handle::{HvMachine, state_of};
use crate::layout::{
    HvCaller, HvConnection, HvPartition, HvPort, LIFE_ACTIVE, LIFE_CREATED, LIFE_FINALIZED,
    PORT_EVENTS, PORT_MESSAGES,
};
use crate::status::{DONE, NONE};
use crate::take::caller_of;
use hv_defs::{ANY_VP, Aim, Life, PortKind};
use hv_looks::{
    PartitionLook, child_after, connection, features, flags, is_call, is_msr, page_owner,
    partition, pending, port, slot,
};
use hv_ports::{Conn, Port};

/// Looks at the 256 bytes of the message slot of a SINT of a processor.
#[unsafe(no_mangle)]
pub extern "C" fn hv_embed_peek_slot(
    machine: &mut HvMachine,
    of: HvCaller,
    sint: u8,
    out: &mut [u8; 256],
) -> u32
    ensures look { IsLook machine.old (λ f. slot_seen f (caller_by of) sint) result out.old out.new }
    ensures kept { IsAsBefore machine.old machine.new }
{
    put(slot(&state_of!(machine).machine, caller_of(of), sint), out)
}

/// Looks at the 256 bytes of the event flags of a SINT of a processor.
#[unsafe(no_mangle)]
pub extern "C" fn hv_embed_peek_flags(
    machine: &mut HvMachine,
    of: HvCaller,
    sint: u8,
    out: &mut [u8; 256],
) -> u32
    ensures look { IsLook machine.old (λ f. flags_seen f (caller_by of) sint) result out.old out.new }
    ensures kept { IsAsBefore machine.old machine.new }
{
    put(flags(&state_of!(machine).machine, caller_of(of), sint), out)
}

/// Looks at an MSR of a processor.
#[unsafe(no_mangle)]
pub extern "C" fn hv_embed_peek_msr(
    machine: &mut HvMachine,
    of: HvCaller,
    msr: u32,
    value: &mut u64,
) -> u32
    ensures look { IsLook machine.old (λ f. msr_seen f (caller_by of) msr) result value.old value.new }
    ensures kept { IsAsBefore machine.old machine.new }
{
    put(
        hv_looks::msr(&state_of!(machine).machine, caller_of(of), msr),
        value,
    )
}

/// Looks at the vectors that are pending at a processor: vector v is bit v % 64 of word v / 64.
#[unsafe(no_mangle)]
pub extern "C" fn hv_embed_peek_pending(
    machine: &mut HvMachine,
    of: HvCaller,
    out: &mut [u64; 4],
) -> u32
    ensures look { IsLook machine.old (λ f. pending_seen f (caller_by of)) result (numbers_of out.old)
        (numbers_of out.new) }
    ensures kept { IsAsBefore machine.old machine.new }
    ensures unwritten { result ≢ DONE → out.new ≡ out.old }
{
    put(pending(&state_of!(machine).machine, caller_of(of)), out)
}

/// Looks at a partition.
#[unsafe(no_mangle)]
pub extern "C" fn hv_embed_peek_partition(
    machine: &mut HvMachine,
    id: u64,
    out: &mut HvPartition,
) -> u32
    ensures look { IsLook machine.old (λ f. option_map partition_shown (partition_seen f id)) result out.old
        out.new }
    ensures kept { IsAsBefore machine.old machine.new }
{
    let look = partition(&state_of!(machine).machine, id);
    put(look.map(show_partition), out)
}

/// Looks up the least id above `previous` among the children of a partition. If there is none, the child is
/// 0.
#[unsafe(no_mangle)]
pub extern "C" fn hv_embed_child_after(
    machine: &mut HvMachine,
    parent: u64,
    previous: u64,
    child: &mut u64,
) -> u32
    ensures look { IsLook machine.old (λ f. child_seen f parent previous) result child.old child.new }
    ensures kept { IsAsBefore machine.old machine.new }
{
    put(
        child_after(&state_of!(machine).machine, parent, previous),
        child,
    )
}

/// Looks up the partition that has a page.
#[unsafe(no_mangle)]
pub extern "C" fn hv_embed_page_owner(machine: &mut HvMachine, page: u64, owner: &mut u64) -> u32
    ensures look { IsLook machine.old (λ f. owner_seen f page) result owner.old owner.new }
    ensures kept { IsAsBefore machine.old machine.new }
{
    put(page_owner(&state_of!(machine).machine, page), owner)
}

/// Looks at a port of a partition.
#[unsafe(no_mangle)]
pub extern "C" fn hv_embed_peek_port(
    machine: &mut HvMachine,
    part: u64,
    id: u32,
    out: &mut HvPort,
) -> u32
    ensures look { IsLook machine.old (λ f. option_map (port_shown part id) (get f.port (part, id))) result
        out.old out.new }
    ensures kept { IsAsBefore machine.old machine.new }
{
    let row = port(&state_of!(machine).machine, part, id);
    put(row.map(|row| show_port(part, id, row)), out)
}

/// Looks at a connection of a partition.
#[unsafe(no_mangle)]
pub extern "C" fn hv_embed_peek_connection(
    machine: &mut HvMachine,
    part: u64,
    id: u32,
    out: &mut HvConnection,
) -> u32
    ensures look { IsLook machine.old (λ f. option_map (conn_shown part id) (get f.conn (part, id))) result
        out.old out.new }
    ensures kept { IsAsBefore machine.old machine.new }
{
    let row = connection(&state_of!(machine).machine, part, id);
    put(row.map(|row| show_connection(part, id, row)), out)
}

/// Looks at EAX, EBX, ECX and EDX of CPUID leaf 0x40000003 for a partition.
#[unsafe(no_mangle)]
pub extern "C" fn hv_embed_features(machine: &mut HvMachine, part: u64, out: &mut [u32; 4]) -> u32
    ensures look { IsLook machine.old (λ f. features_seen f part) result out.old out.new }
    ensures kept { IsAsBefore machine.old machine.new }
{
    put(features(&state_of!(machine).machine, part), out)
}

/// Returns whether a machine keeps an MSR with this number.
#[unsafe(no_mangle)]
pub extern "C" fn hv_embed_is_msr(msr: u32) -> bool
    ensures { result ≡ is_some (name_of_msr msr) }
{
    is_msr(msr)
}

/// Returns whether a hypercall has this code.
#[unsafe(no_mangle)]
pub extern "C" fn hv_embed_is_call(code: u16) -> bool
    ensures { result ≡ is_some (kind_of code) }
{
    is_call(code)
}

// Stores what a look showed, and returns the status.
pub(crate) fn put<T: Copy>(shown: Option<T>, place: &mut T) -> u32
    ensures shows { Shows shown result place.new }
    ensures unwritten { result ≢ DONE → place.new ≡ place.old }
{
    match shown {
        Some(seen) => {
            *place = seen;
            DONE
        }
        None => NONE,
    }
}

fn show_partition(look: PartitionLook) -> HvPartition
    ensures { result ≡ partition_shown look }
{
    HvPartition {
        mask: look.mask.bits(),
        parent: look.parent.unwrap_or(0),
        depth: look.depth,
        pooled: look.pooled,
        in_use: look.in_use,
        life: number_of_life(look.life),
        children: look.children,
        vps: look.vps,
        ports: look.ports,
        connections: look.conns,
    }
}

fn show_port(part: u64, id: u32, row: Port) -> HvPort
    ensures { result ≡ port_shown part id (port_row_of row) }
{
    HvPort {
        part,
        id,
        peer: row.peer,
        port_type: number_of_type(row.kind),
        sint: row.sint,
        vp: number_of_aim(row.vp),
        base_flag: row.base,
        flag_count: row.count,
    }
}

fn show_connection(part: u64, id: u32, row: Conn) -> HvConnection
    ensures { result ≡ conn_shown part id (conn_row_of row) }
{
    HvConnection {
        part,
        id,
        port_partition: row.part,
        port: row.port,
        port_type: number_of_type(row.kind),
    }
}

fn number_of_life(life: Life) -> u32
    ensures { result ≡ life_number life }
{
    match life {
        Life::Created => LIFE_CREATED,
        Life::Active => LIFE_ACTIVE,
        Life::Finalized => LIFE_FINALIZED,
    }
}

fn number_of_type(kind: PortKind) -> u32
    ensures { result ≡ type_number kind }
{
    match kind {
        PortKind::Message => PORT_MESSAGES,
        PortKind::Event => PORT_EVENTS,
    }
}

fn number_of_aim(aim: Aim) -> u32
    ensures { result ≡ aim_number aim }
{
    match aim {
        Aim::One(index) => index,
        Aim::Any => ANY_VP,
    }
}
