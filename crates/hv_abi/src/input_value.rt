// The input value.
ghost use Rattle.std.specs.Prelude.{◌≡◌, ◌<◌};
ghost use Rattle.hv_abi.specs.InputValue.{input_value, restarted};
ghost use Rattle.hv_defs.specs.Bits.{bits as bits_of};
ghost use Rattle.hv_defs.specs.declared.sizes.TheConstants.{REPS_END};

/// The input value of a hypercall, in RCX (TLFS 4.0, "Hypercall Inputs").
#[derive(Clone, Copy, PartialEq, Eq, Debug)]
pub struct InputValue {
    /// The call code, bits 15:0.
    pub call: u16,
    /// Whether the input is in RDX and R8, bit 16.
    pub fast: bool,
    /// The rep count, bits 43:32.
    pub reps: u16,
    /// The rep start index, bits 59:48.
    pub start: u16,
    /// Whether bits 26:17, 31:27, 47:44 and 63:60 are zero.
    pub reserved_zero: bool,
}

impl InputValue {
    /// Reads the fields of RCX.
    pub fn read(rcx: u64) -> InputValue
        ensures { result ≡ input_value rcx }
    {
        InputValue {
            call: bits(rcx, 0, 16) as u16,
            fast: bits(rcx, 16, 1) == 1,
            reps: bits(rcx, 32, 12) as u16,
            start: bits(rcx, 48, 12) as u16,
            reserved_zero: bits(rcx, 17, 10) == 0
                && bits(rcx, 27, 5) == 0
                && bits(rcx, 44, 4) == 0
                && bits(rcx, 60, 4) == 0,
        }
    }
}

/// Returns an input value with another rep start index, below 4,096.
pub fn restarted(rcx: u64, start: u16) -> u64
    requires { start < REPS_END }
    ensures { result ≡ restarted rcx start }
{
    (rcx & LOW_48_BITS) + (u64::from(start) << 48) + (rcx >> 60 << 60)
}

// The bits of an input value below its rep start index.
const LOW_48_BITS: u64 = 0xFFFF_FFFF_FFFF;

// Returns the number in `count` bits of `value`, from bit `low` up.
fn bits(value: u64, low: u32, count: u32) -> u64
    requires low { low < 64 }
    requires count { count < 64 }
    ensures { result ≡ bits_of value low count }
{
    value >> low & ((1 << count) - 1)
}
