// The reasons for not serving a call.

use hv_policy::Rule;
use std::alloc::AllocError;

/// The reason that a call was not served.
#[derive(Clone, Copy, PartialEq, Eq, Debug)]
pub enum CallError {
    /// This rule is the first one that fails. Nothing changed.
    Unmet(Rule),
    /// The host is out of memory. Nothing changed, except that room may have been reserved.
    Memory,
}

impl From<Rule> for CallError {
    ghost use Rattle.std.specs.Prelude.{◌≡◌};
    ghost use Rattle.hv_admit.specs.declared.refused.CallError.TheVariants.{Unmet};

    ghost from_gives = { λ rule why. why ≡ Unmet rule };

    fn from(rule: Rule) -> CallError {
        CallError::Unmet(rule)
    }
}

impl From<AllocError> for CallError {
    ghost use Rattle.std.specs.Prelude.{◌≡◌};
    ghost use Rattle.hv_admit.specs.declared.refused.CallError.TheVariants.{Memory};

    ghost from_gives = { λ _ why. why ≡ Memory };

    fn from(_error: AllocError) -> CallError {
        CallError::Memory
    }
}
