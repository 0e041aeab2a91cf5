// The reply to a call, and its result value.
ghost use Rattle.std.specs.Prelude.{◌≡◌, ◌<◌, [], ℕ, List, Some};
ghost use Rattle.hv_defs.specs.declared.sizes.TheConstants.{REPS_END};
ghost use Rattle.hv_abi.specs.Check.{IsShape, call_of};
ghost use Rattle.hv_abi.specs.declared.frame.Frame.{Frame as CallFrame};
ghost use Rattle.hv_policy.specs.Answer.{reply_with};
ghost use Rattle.hv_policy.specs.Parts.{next_in, reply_of};
ghost use Rattle.hv_policy.specs.Result.{HasResult, kind_in, refused_reps as refused_reps_of};
ghost use Rattle.hv_policy.specs.Result.{completed_reps as completed_reps_of, result_of as result_value_of};
ghost use Rattle.hv_policy.specs.Step.{refusal};
ghost use Rattle.hv_policy.specs.declared.event.Action.TheVariants.{Hypercall};

use crate::answer::Answer;
use crate::reply::Reply;
use crate::rule::Rule;
use hv_abi::{CallKind, Frame, InputValue, ResultValue, Shape, Status};
use std::alloc::Allocator;

/// Returns the result value of a hypercall with this reply, as RAX holds it.
///
/// It has the status and the reps completed, counted from the first element of the list.
pub fn result_of<A: Allocator>(frame: &Frame<A>, reply: &Reply) -> ResultValue
    requires { HasResult reply.now }
    ensures { result ≡ result_value_of frame.now reply.now }
{
    result_value::<A>(frame.rcx, reply.parts().0)
}

/// Returns the result value of a hypercall with input value `rcx` and this answer.
///
/// The output does not matter. A fault is no answer to a hypercall, and has the result value 0.
pub fn result_value<A: Allocator>(rcx: u64, answer: Answer) -> ResultValue
    requires { next_in (reply_of answer []) < REPS_END }
    ensures { (frame : CallFrame A) (output : List ℕ) → frame.rcx ≡ rcx
        → result ≡ result_value_of frame (reply_of answer output) }
{
    match answer {
        Answer::Served => ResultValue::new(Status::Success, completed_reps(rcx)),
        Answer::More { next } => ResultValue::new(Status::Success, next),
        Answer::Denied { status, .. } => ResultValue::new(status, refused_reps(rcx)),
        Answer::Fault { .. } => ResultValue::new(Status::Success, 0),
    }
}

/// Returns the answer to a served element, which says whether more follow. A simple call is its own last
/// element.
pub fn served_answer<A: Allocator>(frame: &Frame<A>, shape: Shape) -> Answer
    requires shape { IsShape frame.now shape }
    requires named { call_of frame.now ≡ Some shape.kind }
    ensures { (output : List ℕ) → reply_of result output ≡ reply_with frame.now output }
{
    if shape.kind.is_rep() && shape.start + 1 < shape.reps {
        Answer::More {
            next: shape.start + 1,
        }
    } else {
        Answer::Served
    }
}

/// Returns the answer to a call that this rule refuses.
pub fn refused_answer<A: Allocator>(frame: &Frame<A>, rule: Rule) -> Answer
    ensures { (output : List ℕ) → reply_of result output ≡ refusal (Hypercall frame.now) rule }
{
    match rule.status(kind_of(frame.rcx)) {
        None => Answer::Fault { rule },
        Some(status) => Answer::Denied {
            rule,
            status,
            reps: refused_reps(frame.rcx),
        },
    }
}

// Returns the call with the code of an input value, if there is one.
// Inlined: calls for the own id in bench/embed.sh.
#[inline(always)]
fn kind_of(rcx: u64) -> Option<CallKind>
    ensures { result ≡ kind_in rcx }
{
    CallKind::of(InputValue::read(rcx).call)
}

/// Returns the reps completed of a refused call with this input value: its start index if P4 and P5 hold,
/// else 0.
pub fn refused_reps(rcx: u64) -> u16
    ensures value { result ≡ refused_reps_of rcx }
    ensures fits { result < REPS_END }
{
    match kind_of(rcx) {
        Some(kind) if kind.row().takes(rcx) => InputValue::read(rcx).start,
        _ => 0,
    }
}

/// Returns the reps completed of a call with this input value whose last element was served: all of them, or
/// 0 for a simple call.
pub fn completed_reps(rcx: u64) -> u16
    ensures value { result ≡ completed_reps_of rcx }
    ensures fits { result < REPS_END }
{
    match kind_of(rcx) {
        Some(kind) if kind.is_rep() => InputValue::read(rcx).reps,
        _ => 0,
    }
}
