// Events and their replies in words. An explanation is a look, but it takes memory for a call's input list.
ghost use Rattle.std.specs.Prelude.{◌≡◌, ◌≢◌, ◌<◌, ◌≤◌, ◌&&◌, true, false, is_some, IfSome, length};
ghost use Rattle.hv_policy.specs.Rule.{rule_number};
ghost use Rattle.hv_words.specs.Words.{IsQuotable};
ghost use Rattle.hv_embed.specs.Answer.{frame_of as frame_by};
ghost use Rattle.hv_embed.specs.Explained.{IsExplained, IsTold, is_access_reply, is_call_reply, is_rule};
ghost use Rattle.hv_embed.specs.Taken.{IsAsBefore};
ghost use Rattle.hv_embed.specs.Texts.{access_named, readable as readable_of};
ghost use Rattle.hv_embed.specs.declared.status.TheConstants.{DONE, SHORT};

use crate::handle::{HvMachine, state_of};
use crate::layout::{DENIED, FAULT, HvCaller, HvRegisters, HvReply, MORE, SERVED};
use crate::machine_state::{no_frame, refill};
use crate::status::{MEMORY, NONE};
use crate::take::caller_of;
use crate::texts::{access_of, put_bytes, readable};
use hv_abi::Frame;
use hv_machine::Machine;
use hv_policy::{Action, Answer, Reply, Rule, refused_answer};
use hv_words::{Words, push_event};
use std::alloc::Global;

// The most bytes of an explanation.
pub const EXPLANATION: usize = 2048;

/// Writes a hypercall and its reply in words: the call with its fields, the output, and for a refusal the
/// rule with the values that decided.
///
/// The machine is that after the event. The text goes into a buffer that has room for it, and its length in
/// bytes is reported.
#[unsafe(no_mangle)]
pub extern "C" fn hv_embed_explain(
    alloc: Global,
    machine: &mut HvMachine,
    by: HvCaller,
    registers: &HvRegisters,
    input: &[u8],
    reply: &HvReply,
    text: &mut [u8],
    len: &mut usize,
) -> u32
    ensures explained { IsExplained machine.old (is_call_reply reply.now) result text.old text.new len.old
        len.new }
    ensures kept { IsAsBefore machine.old machine.new }
    ensures unwritten { result ≢ DONE → text.new ≡ text.old }
    ensures untold { result ≢ DONE → result ≢ SHORT → len.new ≡ len.old }
{
    let machine = &state_of!(machine).machine;
    let mut frame = no_frame(alloc);
    frame.rcx = registers.rcx;
    let Some(answer) = call_answer(&frame, reply) else {
        return NONE;
    };
    let Ok(()) = refill(&mut frame, registers, readable(input)) else {
        return MEMORY;
    };
    tell(
        machine,
        by,
        &Action::Hypercall(frame),
        answer,
        reply,
        text,
        len,
    )
}

/// Writes an access and its reply in words, as [`hv_embed_explain`] does a hypercall.
///
/// `number` is that of the MSR or of the SINT. `value` is the value to write, or the number of the event
/// flag.
#[unsafe(no_mangle)]
pub extern "C" fn hv_embed_explain_access(
    machine: &mut HvMachine,
    by: HvCaller,
    access: u32,
    number: u32,
    value: u64,
    reply: &HvReply,
    text: &mut [u8],
    len: &mut usize,
) -> u32
    ensures explained { IsExplained machine.old
        (is_some (access_named access number value) && is_access_reply reply.now)
        result text.old text.new len.old len.new }
    ensures kept { IsAsBefore machine.old machine.new }
    ensures unwritten { result ≢ DONE → text.new ≡ text.old }
    ensures untold { result ≢ DONE → result ≢ SHORT → len.new ≡ len.old }
{
    let machine = &state_of!(machine).machine;
    let (Some(access), Some(answer)) = (access_of(access, number, value), access_answer(reply))
    else {
        return NONE;
    };
    tell(machine, by, &access, answer, reply, text, len)
}

// Writes an event and its reply in words. Bytes of output beyond those that a reply can have aren't read.
fn tell(
    machine: &Machine<Global>,
    by: HvCaller,
    what: &Action<Global>,
    answer: Answer,
    reply: &HvReply,
    text: &mut [u8],
    len: &mut usize,
) -> u32
    ensures told { IsTold result text.old text.new len.old len.new }
    ensures unwritten { result ≢ DONE → text.new ≡ text.old }
    ensures untold { result ≢ DONE → result ≢ SHORT → len.new ≡ len.old }
{
    let output = &reply.output[..reply.output.len().min(reply.output_len as usize)];
    let mut words = Words::new();
    let reply = Reply::of(answer, output);
    push_event(&mut words, machine.tree(), caller_of(by), what, &reply);
    put_bytes(within(&words), text, len)
}

// Returns a text's bytes.
// proof: no contract of `Words` says that they are few.
fn within(words: &Words) -> &[u8]
    ensures few { length result.now ≤ 2048 }
    ensures quotable { IsQuotable result.now }
{
    let text = words.as_slice();
    &text[..text.len().min(EXPLANATION)]
}

// Returns the answer that a reply to a call gives. Only its kind and its rule are read.
fn call_answer(frame: &Frame<Global>, reply: &HvReply) -> Option<Answer>
    ensures { is_some result ≡ is_call_reply reply.now }
{
    match reply.kind {
        SERVED => Some(Answer::Served),
        MORE => Some(Answer::More { next: 0 }),
        DENIED => match rule_of(reply.rule) {
            Some(rule) => Some(refused_answer(frame, rule)),
            None => None,
        },
        _ => None,
    }
}

// Returns the answer that a reply to an access gives.
fn access_answer(reply: &HvReply) -> Option<Answer>
    ensures { is_some result ≡ is_access_reply reply.now }
{
    match reply.kind {
        SERVED => Some(Answer::Served),
        FAULT => match rule_of(reply.rule) {
            Some(rule) => Some(Answer::Fault { rule }),
            None => None,
        },
        _ => None,
    }
}

// Returns the rule with a number, if there is one.
fn rule_of(number: u32) -> Option<Rule>
    ensures some { IfSome result (λ rule. rule_number rule ≡ number) }
    ensures is { is_some result ≡ is_rule number }
{
    if 0 < number && number <= 27 {
        Some(numbered(number))
    } else {
        None
    }
}

fn numbered(number: u32) -> Rule
    requires { (0 < number) × (number ≤ 27) }
    ensures { rule_number result ≡ number }
{
    match number {
        1 => Rule::CallerExists,
        2 => Rule::CallerActive,
        3 => Rule::CallerVpExists,
        4 => Rule::CallCode,
        5 => Rule::InputValue,
        6 => Rule::Alignment,
        7 => Rule::Parameters,
        8 => Rule::Privilege,
        9 => Rule::TargetExists,
        10 => Rule::TargetScope,
        11 => Rule::PropertyKnown,
        12 => Rule::TargetState,
        13 => Rule::NoChildren,
        14 => Rule::Depth,
        15 => Rule::PeerExists,
        16 => Rule::Connection,
        17 => Rule::Port,
        18 => Rule::Entitlement,
        19 => Rule::VpExists,
        20 => Rule::PropertyRange,
        21 => Rule::Operand,
        22 => Rule::VpReady,
        23 => Rule::PortRoom,
        24 => Rule::Pages,
        25 => Rule::MsrKnown,
        26 => Rule::MsrPrivilege,
        _ => Rule::MsrWrite,
    }
}
