// The calls with their parameters, and the decoding of a frame into its call.
ghost use Rattle.std.specs.Prelude.{◌≡◌, ◌+◌, ◌*◌, ◌^◌, ◌<◌, Ok, false, IfOk, IfErr, Some, None};
ghost use Rattle.std.specs.Prelude.{if◌then◌else◌};
ghost use Rattle.hv_abi.specs.Check.{IsShape, input_of};
ghost use Rattle.hv_calls.specs.Call.{call_in, kind_of_call, port_aim as aim_of_port};
ghost use Rattle.hv_calls.specs.Call.{port_kind as kind_of_port};
ghost use Rattle.hv_calls.specs.Params.{Params, are_parameters_valid, decoded};
ghost use Rattle.hv_calls.specs.Params.{element_at as place_of_element};
ghost use Rattle.hv_calls.specs.Fields.{is_id as fits_id, is_message_type as fits_message, is_port_type};
ghost use Rattle.hv_calls.specs.Fields.{are_flags as fit_flags};
ghost use Rattle.hv_calls.specs.declared.call.Call.{Call as TypedCall};

use crate::fields::{first_u32, head_u32s, second_u16, u16_at, u32_at, u64_at};
use crate::payload::Payload;
use hv_abi::{CallKind, Frame, Shape};
use hv_defs::{
    ANY_VP, Aim, EVENT_FLAGS, MAX_MESSAGE_TYPE, MAX_PAYLOAD, MAX_PORT_ID, PortKind, SINTS,
};
use std::alloc::Allocator;

/// A hypercall with its parameters, under the TLFS's name without its prefix `Hv`.
///
/// For a rep call, it holds the header and the element at the frame's rep start index.
///
/// A `partition` is the id of the partition that the call is about. All ones means the caller's own
/// partition.
#[derive(Drop)]
pub enum Call<'f> {
    CreatePartition {
        /// Flags of any value, with no effect.
        flags: u64,
    },
    InitializePartition {
        partition: u64,
    },
    FinalizePartition {
        partition: u64,
    },
    DeletePartition {
        partition: u64,
    },
    GetPartitionProperty {
        partition: u64,
        code: u32,
    },
    SetPartitionProperty {
        partition: u64,
        code: u32,
        value: u64,
    },
    GetPartitionId,
    GetNextChildPartition {
        /// The parent's id.
        partition: u64,
        /// The child before the one that the call asks for, or 0 to ask for the first.
        previous: u64,
    },
    DepositMemory {
        partition: u64,
        /// The page's number, which need not be one that boot gave.
        page: u64,
    },
    WithdrawMemory {
        partition: u64,
    },
    GetMemoryBalance {
        partition: u64,
    },
    CreateVp {
        partition: u64,
        vp: u32,
    },
    DeleteVp {
        partition: u64,
        vp: u32,
    },
    GetVpRegisters {
        partition: u64,
        vp: u32,
        /// The register's name.
        name: u32,
    },
    SetVpRegisters {
        partition: u64,
        vp: u32,
        /// The register's name.
        name: u32,
        value: u64,
    },
    DeletePort {
        partition: u64,
        port: u32,
    },
    DisconnectPort {
        partition: u64,
        connection: u32,
    },
    PostMessage {
        connection: u32,
        message_type: u32,
        /// The payload, which stays in the frame.
        payload: Payload<'f>,
    },
    SignalEvent {
        connection: u32,
        /// The flag's number, counted from the port's first flag.
        flag: u16,
    },
    CreatePort {
        /// The port's partition.
        partition: u64,
        port: u32,
        /// The partition that may connect.
        peer: u64,
        kind: PortKind,
        sint: u32,
        /// The processor that the port aims at.
        vp: Aim,
        /// The first of an event port's flags, and their count. A message port has none, whatever these
        /// values are.
        base: u16,
        count: u16,
    },
    ConnectPort {
        /// The connecting partition.
        partition: u64,
        connection: u32,
        /// The port's partition and id.
        port_partition: u64,
        port: u32,
        kind: PortKind,
    },
}

impl<'f> Call<'f> {
    /// Returns which call this is, without its parameters.
    pub fn kind(&self) -> CallKind
        ensures { result ≡ kind_of_call self.now }
    {
        match self {
            Call::CreatePartition { .. } => CallKind::CreatePartition,
            Call::InitializePartition { .. } => CallKind::InitializePartition,
            Call::FinalizePartition { .. } => CallKind::FinalizePartition,
            Call::DeletePartition { .. } => CallKind::DeletePartition,
            Call::GetPartitionProperty { .. } => CallKind::GetPartitionProperty,
            Call::SetPartitionProperty { .. } => CallKind::SetPartitionProperty,
            Call::GetPartitionId => CallKind::GetPartitionId,
            Call::GetNextChildPartition { .. } => CallKind::GetNextChildPartition,
            Call::DepositMemory { .. } => CallKind::DepositMemory,
            Call::WithdrawMemory { .. } => CallKind::WithdrawMemory,
            Call::GetMemoryBalance { .. } => CallKind::GetMemoryBalance,
            Call::CreateVp { .. } => CallKind::CreateVp,
            Call::DeleteVp { .. } => CallKind::DeleteVp,
            Call::GetVpRegisters { .. } => CallKind::GetVpRegisters,
            Call::SetVpRegisters { .. } => CallKind::SetVpRegisters,
            Call::DeletePort { .. } => CallKind::DeletePort,
            Call::DisconnectPort { .. } => CallKind::DisconnectPort,
            Call::PostMessage { .. } => CallKind::PostMessage,
            Call::SignalEvent { .. } => CallKind::SignalEvent,
            Call::CreatePort { .. } => CallKind::CreatePort,
            Call::ConnectPort { .. } => CallKind::ConnectPort,
        }
    }
}

/// Rule P7: a parameter is malformed by itself.
#[derive(Clone, Copy, PartialEq, Eq, Debug)]
pub struct Malformed;

/// Decodes the call that a frame holds, with its parameters.
///
/// The error is [`Malformed`] if a parameter is malformed by itself. Bytes missing at the frame's end read as
/// zero. The shape must be this frame's, from [`Frame::check`].
// Inlined: calls for the own id in bench/embed.sh.
#[inline(always)]
pub fn decode<'f, A: Allocator>(frame: &'f Frame<A>, shape: &Shape) -> Result<Call<'f>, Malformed>
    requires { IsShape frame.now shape.now }
    ensures ok { IfOk result (Params frame.now shape.now.kind) }
    ensures only { (c : TypedCall) → Params frame.now shape.now.kind c → result ≡ Ok c }
    ensures malformed { IfErr result (λ _. are_parameters_valid shape.now.kind frame.now ≡ false) }
    ensures kind { IfOk result (λ c. kind_of_call c ≡ shape.now.kind) }
{
    decode_named(frame, shape)
}

// Returns the offset of the element at a start index, for a call of this kind.
fn element_at(kind: CallKind, start: u16) -> usize
    ensures place { result ≡ place_of_element kind start }
    ensures near { result < 2 ^ 32 }
{
    let row = kind.row();
    usize::from(row.input) + usize::from(start) * usize::from(row.input_element)
}

// Decodes the call of a frame, by the decoder of that call.
// Inlined: calls for the own id in bench/embed.sh.
#[inline(always)]
fn decode_named<'f, A: Allocator>(frame: &'f Frame<A>, shape: &Shape) -> Result<Call<'f>, Malformed>
    ensures { result ≡ decoded shape.now.kind (input_of frame.now shape.now.fast)
        (place_of_element shape.now.kind shape.now.start) }
{
    match shape.kind {
        CallKind::CreatePartition => Ok(Call::CreatePartition {
            flags: u64_at(frame, shape, 0),
        }),
        CallKind::InitializePartition => Ok(Call::InitializePartition {
            partition: u64_at(frame, shape, 0),
        }),
        CallKind::FinalizePartition => Ok(Call::FinalizePartition {
            partition: u64_at(frame, shape, 0),
        }),
        CallKind::DeletePartition => Ok(Call::DeletePartition {
            partition: u64_at(frame, shape, 0),
        }),
        CallKind::GetPartitionProperty => Ok(get_partition_property(frame, shape)),
        CallKind::SetPartitionProperty => Ok(set_partition_property(frame, shape)),
        CallKind::GetPartitionId => Ok(Call::GetPartitionId),
        CallKind::GetNextChildPartition => Ok(get_next_child_partition(frame, shape)),
        CallKind::DepositMemory => Ok(deposit_memory(frame, shape)),
        CallKind::WithdrawMemory => Ok(Call::WithdrawMemory {
            partition: u64_at(frame, shape, 0),
        }),
        CallKind::GetMemoryBalance => Ok(Call::GetMemoryBalance {
            partition: u64_at(frame, shape, 0),
        }),
        CallKind::CreateVp => Ok(create_vp(frame, shape)),
        CallKind::DeleteVp => Ok(delete_vp(frame, shape)),
        CallKind::GetVpRegisters => Ok(get_vp_registers(frame, shape)),
        CallKind::SetVpRegisters => set_vp_registers(frame, shape),
        CallKind::DeletePort => delete_port(frame, shape),
        CallKind::DisconnectPort => disconnect_port(frame, shape),
        CallKind::PostMessage => post_message(frame, shape),
        CallKind::SignalEvent => signal_event(frame, shape),
        CallKind::CreatePort => create_port(frame, shape),
        CallKind::ConnectPort => connect_port(frame, shape),
    }
}

fn get_partition_property<A: Allocator>(frame: &Frame<A>, shape: &Shape) -> Call<'static>
    ensures { result ≡ call_in CallKind.GetPartitionProperty (input_of frame.now shape.now.fast) 0 }
{
    Call::GetPartitionProperty {
        partition: u64_at(frame, shape, 0),
        code: u32_at(frame, shape, 8),
    }
}

fn set_partition_property<A: Allocator>(frame: &Frame<A>, shape: &Shape) -> Call<'static>
    ensures { result ≡ call_in CallKind.SetPartitionProperty (input_of frame.now shape.now.fast) 0 }
{
    Call::SetPartitionProperty {
        partition: u64_at(frame, shape, 0),
        code: u32_at(frame, shape, 8),
        value: u64_at(frame, shape, 16),
    }
}

fn get_next_child_partition<A: Allocator>(frame: &Frame<A>, shape: &Shape) -> Call<'static>
    ensures { result ≡ call_in CallKind.GetNextChildPartition (input_of frame.now shape.now.fast) 0 }
{
    Call::GetNextChildPartition {
        partition: u64_at(frame, shape, 0),
        previous: u64_at(frame, shape, 8),
    }
}

fn deposit_memory<A: Allocator>(frame: &Frame<A>, shape: &Shape) -> Call<'static>
    ensures { result ≡ call_in CallKind.DepositMemory (input_of frame.now shape.now.fast)
        (place_of_element CallKind.DepositMemory shape.now.start) }
{
    Call::DepositMemory {
        partition: u64_at(frame, shape, 0),
        page: u64_at(
            frame,
            shape,
            element_at(CallKind::DepositMemory, shape.start),
        ),
    }
}

fn create_vp<A: Allocator>(frame: &Frame<A>, shape: &Shape) -> Call<'static>
    ensures { result ≡ call_in CallKind.CreateVp (input_of frame.now shape.now.fast) 0 }
{
    Call::CreateVp {
        partition: u64_at(frame, shape, 0),
        vp: u32_at(frame, shape, 8),
    }
}

fn delete_vp<A: Allocator>(frame: &Frame<A>, shape: &Shape) -> Call<'static>
    ensures { result ≡ call_in CallKind.DeleteVp (input_of frame.now shape.now.fast) 0 }
{
    Call::DeleteVp {
        partition: u64_at(frame, shape, 0),
        vp: u32_at(frame, shape, 8),
    }
}

fn get_vp_registers<A: Allocator>(frame: &Frame<A>, shape: &Shape) -> Call<'static>
    ensures { result ≡ call_in CallKind.GetVpRegisters (input_of frame.now shape.now.fast)
        (place_of_element CallKind.GetVpRegisters shape.now.start) }
{
    Call::GetVpRegisters {
        partition: u64_at(frame, shape, 0),
        vp: u32_at(frame, shape, 8),
        name: u32_at(
            frame,
            shape,
            element_at(CallKind::GetVpRegisters, shape.start),
        ),
    }
}

fn set_vp_registers<A: Allocator>(
    frame: &Frame<A>,
    shape: &Shape,
) -> Result<Call<'static>, Malformed>
    ensures { result ≡ decoded CallKind.SetVpRegisters (input_of frame.now shape.now.fast)
        (place_of_element CallKind.SetVpRegisters shape.now.start) }
{
    let element = element_at(CallKind::SetVpRegisters, shape.start);
    // A register has 64 bits, and the upper half of its 16 bytes is reserved.
    if u64_at(frame, shape, element + 24) != 0 {
        return Err(Malformed);
    }
    Ok(Call::SetVpRegisters {
        partition: u64_at(frame, shape, 0),
        vp: u32_at(frame, shape, 8),
        name: u32_at(frame, shape, element),
        value: u64_at(frame, shape, element + 16),
    })
}

fn delete_port<A: Allocator>(frame: &Frame<A>, shape: &Shape) -> Result<Call<'static>, Malformed>
    ensures { result ≡ decoded CallKind.DeletePort (input_of frame.now shape.now.fast) 0 }
{
    let partition = u64_at(frame, shape, 0);
    let port = u32_at(frame, shape, 8);
    if !is_id(port) {
        return Err(Malformed);
    }
    Ok(Call::DeletePort { partition, port })
}

fn disconnect_port<A: Allocator>(
    frame: &Frame<A>,
    shape: &Shape,
) -> Result<Call<'static>, Malformed>
    ensures { result ≡ decoded CallKind.DisconnectPort (input_of frame.now shape.now.fast) 0 }
{
    let partition = u64_at(frame, shape, 0);
    let connection = u32_at(frame, shape, 8);
    if !is_id(connection) {
        return Err(Malformed);
    }
    Ok(Call::DisconnectPort {
        partition,
        connection,
    })
}

fn post_message<'f, A: Allocator>(frame: &'f Frame<A>, shape: &Shape) -> Result<Call<'f>, Malformed>
    ensures { result ≡ decoded CallKind.PostMessage (input_of frame.now shape.now.fast) 0 }
{
    let (connection, message_type, size) = head_u32s(frame, shape);
    if !is_id(connection) || !is_message_type(message_type) || size > MAX_PAYLOAD {
        return Err(Malformed);
    }
    Ok(Call::PostMessage {
        connection,
        message_type,
        payload: Payload::read(frame, shape, 16, size as usize),
    })
}

fn signal_event<A: Allocator>(frame: &Frame<A>, shape: &Shape) -> Result<Call<'static>, Malformed>
    ensures { result ≡ decoded CallKind.SignalEvent (input_of frame.now shape.now.fast) 0 }
{
    let connection = first_u32(frame, shape);
    let flag = second_u16(frame, shape);
    if !is_id(connection) {
        return Err(Malformed);
    }
    Ok(Call::SignalEvent { connection, flag })
}

fn create_port<A: Allocator>(frame: &Frame<A>, shape: &Shape) -> Result<Call<'static>, Malformed>
    ensures { result ≡ decoded CallKind.CreatePort (input_of frame.now shape.now.fast) 0 }
{
    let port = u32_at(frame, shape, 8);
    let port_type = u32_at(frame, shape, 24);
    let sint = u32_at(frame, shape, 32);
    let base = u16_at(frame, shape, 40);
    let count = u16_at(frame, shape, 42);
    let Some(kind) = port_kind(port_type) else {
        return Err(Malformed);
    };
    if !is_id(port) || sint >= SINTS || !are_flags(port_type, base, count) {
        return Err(Malformed);
    }
    Ok(Call::CreatePort {
        partition: u64_at(frame, shape, 0),
        port,
        peer: u64_at(frame, shape, 16),
        kind,
        sint,
        vp: port_aim(u32_at(frame, shape, 36)),
        base,
        count,
    })
}

fn connect_port<A: Allocator>(frame: &Frame<A>, shape: &Shape) -> Result<Call<'static>, Malformed>
    ensures { result ≡ decoded CallKind.ConnectPort (input_of frame.now shape.now.fast) 0 }
{
    let connection = u32_at(frame, shape, 8);
    let port = u32_at(frame, shape, 24);
    let Some(kind) = port_kind(u32_at(frame, shape, 32)) else {
        return Err(Malformed);
    };
    if !is_id(connection) || !is_id(port) {
        return Err(Malformed);
    }
    Ok(Call::ConnectPort {
        partition: u64_at(frame, shape, 0),
        connection,
        port_partition: u64_at(frame, shape, 16),
        port,
        kind,
    })
}

// Returns whether a number is the id of a port or of a connection.
fn is_id(number: u32) -> bool
    ensures { result ≡ fits_id number }
{
    number <= MAX_PORT_ID
}

// Returns whether a number is a MessageType that a guest may post.
fn is_message_type(number: u32) -> bool
    ensures { result ≡ fits_message number }
{
    (1..=MAX_MESSAGE_TYPE).contains(&number)
}

// Returns what a port of this PortType takes, or `None` if the profile has no such port.
fn port_kind(number: u32) -> Option<PortKind>
    ensures { result ≡ (if is_port_type number then Some (kind_of_port number) else None) }
{
    if number == PortKind::Message as u32 {
        Some(PortKind::Message)
    } else if number == PortKind::Event as u32 {
        Some(PortKind::Event)
    } else {
        None
    }
}

// Returns the aim of a port with this TargetVp.
fn port_aim(target: u32) -> Aim
    ensures { result ≡ aim_of_port target }
{
    if target == ANY_VP {
        Aim::Any
    } else {
        Aim::One(target)
    }
}

// Returns whether a port of this PortType may have these flags.
fn are_flags(port_type: u32, base: u16, count: u16) -> bool
    ensures { result ≡ fit_flags port_type base count }
{
    port_type != PortKind::Event as u32
        || count >= 1 && u32::from(base) + u32::from(count) <= EVENT_FLAGS
}
