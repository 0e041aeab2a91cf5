// The calls of the profile, without their parameters: their kinds, and the table of their rows.
ghost use Rattle.std.specs.Prelude.{◌≡◌};
ghost use Rattle.hv_abi.specs.CallRow.{row_of, kind_of, fits_registers, input_len, output_len};

use crate::input_value::InputValue;

/// A call's row: its code, its kind of call and the lengths of its lists, in bytes (TLFS 4.0, the pages
/// of the calls). The codes 0x95 and 0x96 are those of Linux' headers. The lengths are this project's own.
#[derive(Clone, Copy, PartialEq, Eq, Debug)]
pub struct CallRow {
    /// The call code, bits 15:0 of the input value.
    pub code: u16,
    /// Whether it is a rep call, which is served one element of its lists at a time.
    pub rep: bool,
    /// Whether it accepts the fast bit: a simple call with at most 16 bytes of input and no output.
    pub fast: bool,
    /// The length of the input list without its elements.
    pub input: u16,
    /// The length of one element of the input list, 0 for a simple call.
    pub input_element: u16,
    /// The length of the output list without its elements.
    pub output: u16,
    /// The length of one element of the output list, 0 for a simple call.
    pub output_element: u16,
}

// These contracts hold for any row, and so depend on no row of the table.
impl CallRow {
    ghost use Rattle.hv_abi.specs.CallRow.{input_len, output_len};
    ghost use Rattle.hv_abi.specs.Check.{is_input_valid};

    /// Returns the length of the input list in bytes, header and elements. A simple call's rep count is 0.
    pub fn input_len(self, reps: u16) -> u32
        ensures { result ≡ input_len self reps }
    {
        u32::from(self.input) + u32::from(self.input_element) * u32::from(reps)
    }

    /// Returns the length of the output list in bytes. A simple call's rep count is 0.
    pub fn output_len(self, reps: u16) -> u32
        ensures { result ≡ output_len self reps }
    {
        u32::from(self.output) + u32::from(self.output_element) * u32::from(reps)
    }

    /// Returns whether a call with this row takes the input value.
    ///
    /// It does if no reserved bit is set, the fast bit is set only where the row accepts it, a simple call
    /// has neither rep count nor start index, and a rep call starts below its count.
    pub fn takes(self, rcx: u64) -> bool
        ensures { result ≡ is_input_valid self rcx }
    {
        let value = InputValue::read(rcx);
        let reps_valid = if self.rep {
            value.reps >= 1 && value.start < value.reps
        } else {
            value.reps == 0 && value.start == 0
        };
        value.reserved_zero && (!value.fast || self.fast) && reps_valid
    }
}

// The row of a simple call: its code, whether it accepts the fast bit, and the lengths of its lists.
macro_rules! simple {
    ($code:expr, fast: $fast:expr, input: $input:expr, output: $output:expr) => {
        CallRow {
            code: $code,
            rep: false,
            fast: $fast,
            input: $input,
            input_element: 0,
            output: $output,
            output_element: 0,
        }
    };
}

// The row of a rep call: its code, the length of the input list without its elements, and the lengths of one
// element of each list. No rep call accepts the fast bit or has output before its elements.
macro_rules! rep {
    ($code:expr, input: $input:expr, of_input: $of_input:expr, of_output: $of_output:expr) => {
        CallRow {
            code: $code,
            rep: true,
            fast: false,
            input: $input,
            input_element: $of_input,
            output: 0,
            output_element: $of_output,
        }
    };
}

/// HvCreatePartition. Input: flags, of any value and with no effect. Output: the new partition's id.
pub const CREATE_PARTITION: CallRow = simple!(0x40, fast: false, input: 8, output: 8);

/// HvInitializePartition. Input: a partition's id. Output: none.
pub const INITIALIZE_PARTITION: CallRow = simple!(0x41, fast: true, input: 8, output: 0);

/// HvFinalizePartition. Input: a partition's id. Output: none.
pub const FINALIZE_PARTITION: CallRow = simple!(0x42, fast: true, input: 8, output: 0);

/// HvDeletePartition. Input: a partition's id. Output: none.
pub const DELETE_PARTITION: CallRow = simple!(0x43, fast: true, input: 8, output: 0);

/// HvGetPartitionProperty. Input: a partition's id and a property code. Output: the property's value.
pub const GET_PARTITION_PROPERTY: CallRow = simple!(0x44, fast: false, input: 16, output: 8);

/// HvSetPartitionProperty. Input: a partition's id, a property code and a value. Output: none.
pub const SET_PARTITION_PROPERTY: CallRow = simple!(0x45, fast: false, input: 24, output: 0);

/// HvGetPartitionId. Input: none. Output: the caller's id.
pub const GET_PARTITION_ID: CallRow = simple!(0x46, fast: false, input: 0, output: 8);

/// HvGetNextChildPartition. Input: the parent's id and the previous child's, 0 for the first child.
/// Output: the next child's id, 0 if there is none.
pub const GET_NEXT_CHILD_PARTITION: CallRow = simple!(0x47, fast: false, input: 16, output: 8);

/// HvDepositMemory. Input: a partition's id, then a page number per element. Output: none.
pub const DEPOSIT_MEMORY: CallRow = rep!(0x48, input: 8, of_input: 8, of_output: 0);

/// HvWithdrawMemory. Input: a partition's id. Output: a page number per element.
pub const WITHDRAW_MEMORY: CallRow = rep!(0x49, input: 8, of_input: 0, of_output: 8);

/// HvGetMemoryBalance. Input: a partition's id. Output: its available pages and those in use.
pub const GET_MEMORY_BALANCE: CallRow = simple!(0x4A, fast: false, input: 8, output: 16);

/// HvCreateVp. Input: a partition's id and a VP index. Output: none.
pub const CREATE_VP: CallRow = simple!(0x4E, fast: true, input: 16, output: 0);

/// HvDeleteVp. Input: a partition's id and a VP index. Output: none.
pub const DELETE_VP: CallRow = simple!(0x4F, fast: true, input: 16, output: 0);

/// HvGetVpRegisters. Input: a partition's id and a VP index, then a register name per element. Output: 16
/// bytes of value per element.
pub const GET_VP_REGISTERS: CallRow = rep!(0x50, input: 16, of_input: 4, of_output: 16);

/// HvSetVpRegisters. Input: a partition's id and a VP index, then a register name and its 16 bytes of value
/// per element. Output: none.
pub const SET_VP_REGISTERS: CallRow = rep!(0x51, input: 16, of_input: 32, of_output: 0);

/// HvDeletePort. Input: a partition's id and a port id. Output: none.
pub const DELETE_PORT: CallRow = simple!(0x58, fast: true, input: 16, output: 0);

/// HvDisconnectPort. Input: a partition's id and a connection id. Output: none.
pub const DISCONNECT_PORT: CallRow = simple!(0x5B, fast: true, input: 16, output: 0);

/// HvPostMessage. Input: a connection id, a message type, the payload's size and 240 bytes of payload.
/// Output: none.
pub const POST_MESSAGE: CallRow = simple!(0x5C, fast: false, input: 256, output: 0);

/// HvSignalEvent. Input: a connection id and a flag number. Output: none.
pub const SIGNAL_EVENT: CallRow = simple!(0x5D, fast: true, input: 8, output: 0);

/// HvCreatePort. Input: the port's partition, a port id, the connecting partition, a port type, a SINT,
/// a VP, a base flag number and a flag count. Output: none.
pub const CREATE_PORT: CallRow = simple!(0x95, fast: false, input: 48, output: 0);

/// HvConnectPort. Input: the connecting partition, a connection id, the port's partition, a port id and
/// a port type. Output: none.
pub const CONNECT_PORT: CallRow = simple!(0x96, fast: false, input: 48, output: 0);

/// A hypercall of the profile, under the TLFS's name without its prefix `Hv`.
#[derive(Clone, Copy, PartialEq, Eq, Debug)]
pub enum CallKind {
    CreatePartition,
    InitializePartition,
    FinalizePartition,
    DeletePartition,
    GetPartitionProperty,
    SetPartitionProperty,
    GetPartitionId,
    GetNextChildPartition,
    DepositMemory,
    WithdrawMemory,
    GetMemoryBalance,
    CreateVp,
    DeleteVp,
    GetVpRegisters,
    SetVpRegisters,
    DeletePort,
    DisconnectPort,
    PostMessage,
    SignalEvent,
    CreatePort,
    ConnectPort,
}

/// Every call of the profile, sorted by code.
pub const ALL_CALLS: [CallKind; 21] = [
    CallKind::CreatePartition,
    CallKind::InitializePartition,
    CallKind::FinalizePartition,
    CallKind::DeletePartition,
    CallKind::GetPartitionProperty,
    CallKind::SetPartitionProperty,
    CallKind::GetPartitionId,
    CallKind::GetNextChildPartition,
    CallKind::DepositMemory,
    CallKind::WithdrawMemory,
    CallKind::GetMemoryBalance,
    CallKind::CreateVp,
    CallKind::DeleteVp,
    CallKind::GetVpRegisters,
    CallKind::SetVpRegisters,
    CallKind::DeletePort,
    CallKind::DisconnectPort,
    CallKind::PostMessage,
    CallKind::SignalEvent,
    CallKind::CreatePort,
    CallKind::ConnectPort,
];

impl CallKind {
    /// Returns the call with this code, or `None` if the profile has none.
    // Inlined: calls for the own id in bench/embed.sh.
    #[inline(always)]
    pub fn of(code: u16) -> Option<CallKind>
        ensures kind { result ≡ kind_of code }
        ensures every { (call : CallKind) → (row_of call).code ≡ code → result ≡ Some call }
    {
        // A jump on the code, not a search of the table. The contract says that both agree.
        match code {
            0x40 => Some(CallKind::CreatePartition),
            0x41 => Some(CallKind::InitializePartition),
            0x42 => Some(CallKind::FinalizePartition),
            0x43 => Some(CallKind::DeletePartition),
            0x44 => Some(CallKind::GetPartitionProperty),
            0x45 => Some(CallKind::SetPartitionProperty),
            0x46 => Some(CallKind::GetPartitionId),
            0x47 => Some(CallKind::GetNextChildPartition),
            0x48 => Some(CallKind::DepositMemory),
            0x49 => Some(CallKind::WithdrawMemory),
            0x4A => Some(CallKind::GetMemoryBalance),
            0x4E => Some(CallKind::CreateVp),
            0x4F => Some(CallKind::DeleteVp),
            0x50 => Some(CallKind::GetVpRegisters),
            0x51 => Some(CallKind::SetVpRegisters),
            0x58 => Some(CallKind::DeletePort),
            0x5B => Some(CallKind::DisconnectPort),
            0x5C => Some(CallKind::PostMessage),
            0x5D => Some(CallKind::SignalEvent),
            0x95 => Some(CallKind::CreatePort),
            0x96 => Some(CallKind::ConnectPort),
            _ => None,
        }
    }

    /// Returns the call's row in the table.
    pub fn row(self) -> CallRow
        ensures { result ≡ row_of self }
    {
        match self {
            CallKind::CreatePartition => CREATE_PARTITION,
            CallKind::InitializePartition => INITIALIZE_PARTITION,
            CallKind::FinalizePartition => FINALIZE_PARTITION,
            CallKind::DeletePartition => DELETE_PARTITION,
            CallKind::GetPartitionProperty => GET_PARTITION_PROPERTY,
            CallKind::SetPartitionProperty => SET_PARTITION_PROPERTY,
            CallKind::GetPartitionId => GET_PARTITION_ID,
            CallKind::GetNextChildPartition => GET_NEXT_CHILD_PARTITION,
            CallKind::DepositMemory => DEPOSIT_MEMORY,
            CallKind::WithdrawMemory => WITHDRAW_MEMORY,
            CallKind::GetMemoryBalance => GET_MEMORY_BALANCE,
            CallKind::CreateVp => CREATE_VP,
            CallKind::DeleteVp => DELETE_VP,
            CallKind::GetVpRegisters => GET_VP_REGISTERS,
            CallKind::SetVpRegisters => SET_VP_REGISTERS,
            CallKind::DeletePort => DELETE_PORT,
            CallKind::DisconnectPort => DISCONNECT_PORT,
            CallKind::PostMessage => POST_MESSAGE,
            CallKind::SignalEvent => SIGNAL_EVENT,
            CallKind::CreatePort => CREATE_PORT,
            CallKind::ConnectPort => CONNECT_PORT,
        }
    }

    /// Returns the call code, bits 15:0 of an input value.
    pub fn code(self) -> u16
        ensures { result ≡ (row_of self).code }
    {
        self.row().code
    }

    /// Returns whether this is a rep call, which is served one element of its lists at a time.
    pub fn is_rep(self) -> bool
        ensures { result ≡ (row_of self).rep }
    {
        // A match on the calls, not a look-up in the table: inlining this would inline a table of all calls,
        // too. The contract says that both agree.
        match self {
            CallKind::DepositMemory
            | CallKind::WithdrawMemory
            | CallKind::GetVpRegisters
            | CallKind::SetVpRegisters => true,
            _ => false,
        }
    }

    /// Returns whether the call accepts the fast bit, with its input in RDX and R8.
    pub fn accepts_fast(self) -> bool
        ensures row { result ≡ (row_of self).fast }
        ensures rule { result ≡ fits_registers (row_of self) }
    {
        self.row().fast
    }

    /// Returns the length of the input list in bytes, header and elements. A simple call's rep count is 0.
    pub fn input_len(self, reps: u16) -> u32
        ensures { result ≡ input_len (row_of self) reps }
    {
        self.row().input_len(reps)
    }

    /// Returns the length of the output list in bytes. A simple call's rep count is 0.
    pub fn output_len(self, reps: u16) -> u32
        ensures { result ≡ output_len (row_of self) reps }
    {
        self.row().output_len(reps)
    }
}
