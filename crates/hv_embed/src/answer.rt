// The reply to an event, as C reads it.
ghost use Rattle.std.specs.Prelude.{◌≡◌, ◌<◌, ◌≤◌, ℕ, List, [], length, false};
ghost use Rattle.std.specs.Global.{Global};
ghost use Rattle.hv_defs.specs.declared.sizes.TheConstants.{REPS_END};
ghost use Rattle.hv_history.specs.History.{entry_by};
ghost use Rattle.hv_history.specs.Row.{action_of};
ghost use Rattle.hv_machine.specs.Access.{access_reply, effect_in};
ghost use Rattle.hv_policy.specs.Call.{action_of as action_by};
ghost use Rattle.hv_policy.specs.Parts.{next_in, reply_of};
ghost use Rattle.hv_policy.specs.declared.event.Action.TheVariants.{Hypercall};
ghost use Rattle.hv_embed.specs.Answer.{HasOutput, IsAnswer, line_text, result_in as result_by};
ghost use Rattle.hv_embed.specs.Taken.{HasLine, is_short as is_short_len};

use crate::layout::{DENIED, FAULT, HvReply, MORE, SERVED};
use hv_abi::Frame;
use hv_admit::Effect;
use hv_history::{EntryRef, Request};
use hv_machine::{Access, Answer};
use hv_policy::{Rule, result_value};
use hv_text::{LINE, Scratch, audit_line};
use std::alloc::Global;

// Fills the reply to an event, whose effect stays, and writes the audit's line with this number into `line`
// if that has bytes.
pub(crate) fn answer(
    entry: &EntryRef<'_>,
    number: u64,
    scratch: &mut Scratch,
    reply: &mut HvReply,
    line: &mut [u8],
)
    requires room { is_short_len (length line.old) ≡ false }
    requires most { length entry.now.output.now ≤ 256 }
    requires index { next_in (reply_of entry.now.answer []) < REPS_END }
    ensures answer { IsAnswer reply.new (action_of entry.now.asked entry.now.input.now)
        (reply_of entry.now.answer entry.now.output.now) }
    ensures line { HasLine line.new reply.new.line_len (line_text number
        (entry_by entry.now).event (entry_by {A = Global} entry.now).reply) }
    ensures effect { reply.new.effect ≡ reply.old.effect }
{
    fill_reply(entry.asked, entry.answer, entry.output, reply);
    if !line.is_empty() {
        reply.line_len = audit_line::<Global>(scratch, line, number, entry) as u32;
    }
}

// Fills the reply to an event that has no line. The effect stays.
// Inlined: calls for the own id in bench/embed.sh.
#[inline(always)]
pub(crate) fn fill_reply(asked: Request, answer: Answer, output: &[u8], reply: &mut HvReply)
    requires most { length output.now ≤ 256 }
    requires index { next_in (reply_of answer []) < REPS_END }
    ensures answer { (input : List ℕ)
        → IsAnswer reply.new (action_of asked input) (reply_of answer output.now) }
    ensures line { reply.new.line_len ≡ 0 }
    ensures effect { reply.new.effect ≡ reply.old.effect }
{
    reply.result = result_in(asked, answer);
    reply.line_len = 0;
    match answer {
        Answer::Served => put(SERVED, 0, 0, output, reply),
        Answer::More { next } => put(MORE, 0, u32::from(next), output, reply),
        Answer::Denied { rule, .. } => put(DENIED, u32::from(rule.number()), 0, &[], reply),
        Answer::Fault { rule } => put(FAULT, u32::from(rule.number()), 0, &[], reply),
    }
}

// Returns the answer and the effect of an access with this outcome. One that a rule refuses has no effect.
pub(crate) fn parted(became: Result<Effect, Rule>) -> (Answer, Effect)
    ensures reply { (output : List ℕ) → reply_of result.0 output ≡ access_reply became output }
    ensures effect { result.1 ≡ effect_in became }
    ensures index { next_in (reply_of result.0 []) < REPS_END }
{
    match became {
        Ok(effect) => (Answer::Served, effect),
        Err(rule) => (Answer::Fault { rule }, Effect::Nothing),
    }
}

// Returns the request of a call with this frame.
pub(crate) fn asked_in(frame: &Frame<Global>) -> Request
    ensures { action_of result frame.now.input ≡ Hypercall frame.now }
{
    Request::Hypercall {
        rcx: frame.rcx,
        rdx: frame.rdx,
        r8: frame.r8,
    }
}

// Returns the request of an access.
pub(crate) fn asked_of(access: Access) -> Request
    ensures { (input : List ℕ) → action_of {A = Global} result input ≡ action_by access }
{
    match access {
        Access::ReadMsr(msr) => Request::ReadMsr(msr),
        Access::WriteMsr(msr, value) => Request::WriteMsr(msr, value),
        Access::ReadSlot(sint) => Request::ReadSlot(sint),
        Access::ClearSlot(sint) => Request::ClearSlot(sint),
        Access::ReadFlags(sint) => Request::ReadFlags(sint),
        Access::ClearFlag(sint, flag) => Request::ClearFlag(sint, flag),
        Access::TakeInterrupt => Request::TakeInterrupt,
    }
}

// Writes these fields into a reply. The bytes of its output beyond `output` keep their values.
fn put(kind: u32, rule: u32, next: u32, output: &[u8], reply: &mut HvReply)
    requires { length output.now ≤ 256 }
    ensures kind { reply.new.kind ≡ kind }
    ensures rule { reply.new.rule ≡ rule }
    ensures next { reply.new.next ≡ next }
    ensures output { HasOutput reply.new output.now }
    ensures result { reply.new.result ≡ reply.old.result }
    ensures line { reply.new.line_len ≡ reply.old.line_len }
    ensures effect { reply.new.effect ≡ reply.old.effect }
{
    reply.kind = kind;
    reply.rule = rule;
    reply.next = next;
    reply.output[..output.len()].copy_from_slice(output);
    reply.output_len = output.len() as u32;
}

// Returns the result value of a call with this reply. An access has none.
fn result_in(asked: Request, answer: Answer) -> u64
    requires { next_in (reply_of answer []) < REPS_END }
    ensures { (input output : List ℕ)
        → result ≡ result_by (action_of asked input) (reply_of answer output) }
{
    match asked {
        Request::Hypercall { rcx, .. } => result_value::<Global>(rcx, answer).bits(),
        _ => 0,
    }
}

// Returns whether a buffer has bytes, but too few for the longest line.
pub(crate) fn is_short(line: &[u8]) -> bool
    ensures { result ≡ is_short_len (length line.now) }
{
    !line.is_empty() && line.len() < LINE
}
