// The registers of a virtual processor.

/// Which values a register takes.
#[derive(Clone, Copy, PartialEq, Eq, Debug)]
pub enum Takes {
    /// None: it is read only.
    Nothing,
    /// Any value; the register keeps all 64 bits.
    Any,
    /// A vector of at least 16 in bits 7:0, or any vector if bit 16, the mask bit, is set. The register keeps
    /// all 64 bits.
    SintValue,
    /// Any value; the register keeps no bits, and reads as 0.
    EndOfMessage,
}

/// Why a register is not read or written. The faults are checked in the order of the variants.
#[derive(Clone, Copy, PartialEq, Eq, Debug)]
pub enum RegFault {
    /// No register has the name, or the number as a model-specific register.
    Unknown,
    /// The register takes no value.
    ReadOnly,
    /// The register doesn't take this value.
    Value,
}

/// A register of a virtual processor: its names, who may access it, what it takes, and its value in every new
/// processor.
#[derive(Clone, Copy, PartialEq, Eq, Debug)]
pub struct RegisterRow {
    /// The register's name in a call, HV_REGISTER_NAME.
    pub name: u32,
    /// Its number as a model-specific register, if it is one.
    pub msr: Option<u32>,
    /// The bits of a partition's privilege mask that its access needs, or 0 for none.
    pub privilege: u64,
    /// Which values it takes.
    pub takes: Takes,
    /// Its value in a new processor.
    pub start: u64,
}

/// The name of the register that reads as its processor's index, in place of a start value.
pub const VP_INDEX: u32 = 0x0009_0003;

/// The name of the register whose bit 0 turns on a processor's synthetic interrupt controller.
pub const SCONTROL: u32 = 0x000A_0010;

/// The name of the register whose bit 0 turns on a processor's event flags.
pub const SIEFP: u32 = 0x000A_0012;

/// The name of the register whose bit 0 turns on a processor's messages.
pub const SIMP: u32 = 0x000A_0013;

/// The name of the register whose write ends a message.
pub const EOM: u32 = 0x000A_0014;

/// The name of the register of SINT 0, which holds its vector and its mask bit. SINT s has this name plus s.
pub const SINT0: u32 = 0x000A_0000;

// The privilege AccessSynicRegs.
const SYNIC: u64 = 1 << 2;

// The privilege AccessVpIndex.
const INDEX: u64 = 1 << 6;

// A general register: it takes any value, and a call alone names it.
macro_rules! general {
    ($name:expr) => {
        RegisterRow {
            name: $name,
            msr: None,
            privilege: 0,
            takes: Takes::Any,
            start: 0,
        }
    };
}

// A synthetic register: its name, its number as a model-specific register, and the rest of its row.
macro_rules! synthetic {
    ($name:expr, $msr:expr, $privilege:expr, $takes:expr, $start:expr) => {
        RegisterRow {
            name: $name,
            msr: Some($msr),
            privilege: $privilege,
            takes: $takes,
            start: $start,
        }
    };
}

/// The number of registers.
pub const REGISTER_COUNT: usize = 40;

// The register of a SINT: its name, and its number as a model-specific register.
macro_rules! sint {
    ($name:expr, $msr:expr) => {
        synthetic!($name, $msr, SYNIC, Takes::SintValue, 0x0001_0000)
    };
}

/// The registers, sorted by name (TLFS 4.0, "Virtual Processor Register Formats"). All others are left out.
pub const REGISTERS: [RegisterRow; REGISTER_COUNT] = [
    general!(0x0002_0000), // RAX
    general!(0x0002_0001), // RCX
    general!(0x0002_0002), // RDX
    general!(0x0002_0003), // RBX
    general!(0x0002_0004), // RSP
    general!(0x0002_0005), // RBP
    general!(0x0002_0006), // RSI
    general!(0x0002_0007), // RDI
    general!(0x0002_0008), // R8
    general!(0x0002_0009), // R9
    general!(0x0002_000A), // R10
    general!(0x0002_000B), // R11
    general!(0x0002_000C), // R12
    general!(0x0002_000D), // R13
    general!(0x0002_000E), // R14
    general!(0x0002_000F), // R15
    general!(0x0002_0010), // RIP
    general!(0x0002_0011), // RFLAGS
    synthetic!(0x0009_0003, 0x4000_0002, INDEX, Takes::Nothing, 0), // VP_INDEX
    sint!(0x000A_0000, 0x4000_0090), // SINT0
    sint!(0x000A_0001, 0x4000_0091), // SINT1
    sint!(0x000A_0002, 0x4000_0092), // SINT2
    sint!(0x000A_0003, 0x4000_0093), // SINT3
    sint!(0x000A_0004, 0x4000_0094), // SINT4
    sint!(0x000A_0005, 0x4000_0095), // SINT5
    sint!(0x000A_0006, 0x4000_0096), // SINT6
    sint!(0x000A_0007, 0x4000_0097), // SINT7
    sint!(0x000A_0008, 0x4000_0098), // SINT8
    sint!(0x000A_0009, 0x4000_0099), // SINT9
    sint!(0x000A_000A, 0x4000_009A), // SINT10
    sint!(0x000A_000B, 0x4000_009B), // SINT11
    sint!(0x000A_000C, 0x4000_009C), // SINT12
    sint!(0x000A_000D, 0x4000_009D), // SINT13
    sint!(0x000A_000E, 0x4000_009E), // SINT14
    sint!(0x000A_000F, 0x4000_009F), // SINT15
    synthetic!(0x000A_0010, 0x4000_0080, SYNIC, Takes::Any, 0), // SCONTROL
    synthetic!(0x000A_0011, 0x4000_0081, SYNIC, Takes::Nothing, 1), // SVERSION
    synthetic!(0x000A_0012, 0x4000_0082, SYNIC, Takes::Any, 0), // SIEFP
    synthetic!(0x000A_0013, 0x4000_0083, SYNIC, Takes::Any, 0), // SIMP
    synthetic!(0x000A_0014, 0x4000_0084, SYNIC, Takes::EndOfMessage, 0), // EOM
];
