// The rules that look at a frame alone.
ghost use Rattle.std.specs.Prelude.{◌≡◌, ℕ, None, Some, IfOk, IfErr};
ghost use Rattle.hv_abi.specs.Check.{IsShape, call_of};
ghost use Rattle.hv_policy.specs.Call.{IsCall};
ghost use Rattle.hv_policy.specs.Flat.{Flat};
ghost use Rattle.hv_policy.specs.Rules.{first_unmet, frame_asks, hypercall_asks};

use crate::rule::Rule;
use hv_abi::{AbiFault, CallKind, Frame, Shape};
use hv_calls::{Call, Malformed, decode};
use std::alloc::Allocator;

/// Checks P4 to P7, and returns what the frame's input value says and the call that the frame holds.
///
/// The error is the first of these rules that fails. `named` is the call that the frame names, if it names
/// one.
// Inlined: calls for the own id in bench/embed.sh.
#[inline(always)]
pub fn ask_frame<A: Allocator>(
    frame: &Frame<A>,
    named: Option<CallKind>,
) -> Result<(Shape, Call<'_>), Rule>
    requires { call_of frame.now ≡ named }
    ensures shape { IfOk result (λ asked. IsShape frame.now asked.0) }
    ensures call { IfOk result (λ asked. IsCall frame.now asked.0 asked.1) }
    ensures met { IfOk result (λ asked. first_unmet (frame_asks asked.0.kind frame.now) ≡ None) }
    ensures first { IfErr result (λ rule. (f : Flat) (caller : ℕ)
        → first_unmet (hypercall_asks f caller frame.now (call_of frame.now)) ≡ Some rule) }
{
    let shape = match frame.check_as(named) {
        Ok(shape) => shape,
        Err(AbiFault::UnknownCode) => return Err(Rule::CallCode),
        Err(AbiFault::Input) => return Err(Rule::InputValue),
        Err(AbiFault::Alignment) => return Err(Rule::Alignment),
    };
    match decode(frame, &shape) {
        Ok(call) => Ok((shape, call)),
        Err(Malformed) => Err(Rule::Parameters),
    }
}
