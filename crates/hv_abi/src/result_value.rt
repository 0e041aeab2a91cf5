// The result value.
ghost use Rattle.std.specs.Prelude.{◌≡◌, ◌<◌};
ghost use Rattle.hv_defs.specs.declared.sizes.TheConstants.{REPS_END};
ghost use Rattle.hv_abi.specs.InputValue.{result_value};
ghost use Rattle.hv_abi.specs.Status.{status_code};

use crate::status::Status;
use std::marker::Model;

/// The result value of a hypercall, in RAX (TLFS 4.0, "Hypercall Outputs").
///
/// Bits 15:0 hold the status, and bits 43:32 the reps completed, counted from the first element of the list.
/// All other bits are zero.
#[derive(Clone, Copy, PartialEq, Eq, Debug)]
pub struct ResultValue {
    bits: u64,
}

impl Model for ResultValue {
    ghost use Rattle.std.specs.Prelude.{ℕ};

    ghost Value = { ℕ };

    ghost view = { λ v. v.bits };

    ghost inverse = { λ n. record { bits = n } };
}

impl ResultValue {
    /// Returns the result value of a call. `reps` is the number of reps completed, below 4,096, or 0 for a
    /// simple call.
    pub fn new(status: Status, reps: u16) -> ResultValue
        requires { reps < REPS_END }
        ensures { result ≡ result_value (status_code status) reps }
    {
        ResultValue {
            bits: u64::from(status.code()) | u64::from(reps) << 32,
        }
    }

    /// Returns the value that RAX holds.
    pub fn bits(self) -> u64
        ensures { result ≡ self }
    {
        self.bits
    }
}
