// The audit.
ghost use Rattle.std.specs.Prelude.{◌≡◌, ◌≢◌, ◌+◌, ◌^◌, ◌≤◌, ◌<◌, ◌++◌, [], length, take, drop, codes, Err};
ghost use Rattle.std.specs.Prelude.{OnOk, IfErr};
ghost use Rattle.std.specs.Io.KnownBytes.{Appends};
ghost use Rattle.hv_defs.specs.declared.sizes.TheConstants.{REPS_END};
ghost use Rattle.hv_history.specs.History.{entries, entry_by};
ghost use Rattle.hv_history.specs.Row.{action_of};
ghost use Rattle.hv_policy.specs.Parts.{next_in, reply_of};
ghost use Rattle.hv_policy.specs.Rule.{rule_name};
ghost use Rattle.hv_text.specs.Audit.{audit_text, caller_text, entry_text, output_text, reply_text};
ghost use Rattle.hv_text.specs.Audit.{result_text, what_text};
ghost use Rattle.hv_text.specs.Fault.{IsCut};
ghost use Rattle.hv_text.specs.declared.audit_text.TheConstants.{OUTPUT, PART, REPLY};
ghost use Rattle.hv_text.specs.declared.text.TheConstants.{LINE, MOST_DIGITS};

use crate::fault::PrintFault;
use crate::put::put;
use crate::text::{MOST_DIGITS, Text};
use hv_history::{Answer, EntryRef, History, Kept, Request};
use hv_policy::{Caller, Rule, result_value};
use std::alloc::Allocator;
use std::io::Write;

// More bytes than a part of a line has, but for the output: the caller, the request, the result or the rule.
pub const PART: usize = 56;

// The most bytes of an event's output.
pub const OUTPUT: usize = 512;

// The most bytes of a reply: a word, a result value, and the event's output.
pub const REPLY: usize = 7 + PART + OUTPUT;

/// Writes the audit of a history: a line for each event, and then their number.
///
/// It takes no memory, and doesn't flush.
pub fn audit<W: Write, A: Allocator>(out: &mut W, kept: &Kept<A>) -> Result<(), PrintFault>
    ensures ok { OnOk result
        (Appends (W.contents out.old) (W.contents out.new) (audit_text kept.now.history)) }
    ensures cut { IfErr result
        (IsCut (W.contents out.old) (W.contents out.new) (audit_text kept.now.history)) }
    ensures write { result ≢ Err PrintFault.Memory }
{
    // proof: a history's length fits 32 bits.
    let _limit = kept.limit();
    let history = kept.history();
    let mut line = Text::new();
    let mut written = 0;
    for at in 0..history.len() {
        line.clear();
        push_entry::<A>(&mut line, at as u64 + 1, &history.entry(at));
        put(out, &line, &mut written)?;
    }
    line.clear();
    line.push_named(b"events ", history.len() as u64);
    line.push_text(b"\n");
    put(out, &line, &mut written)
}

/// A buffer in which lines are built, one after another.
#[derive(Drop)]
pub struct Scratch {
    line: Text,
}

impl Scratch {
    /// Creates room for any line.
    pub fn new() -> Scratch {
        Scratch { line: Text::new() }
    }
}

/// Writes an event's audit line, with its line feed, at the start of a buffer, and returns its length.
///
/// The line has the event's number and its reply. The buffer has [`LINE`] bytes or more. The function takes
/// no memory, and the contents of the scratch room don't matter.
pub fn audit_line<A: Allocator>(
    scratch: &mut Scratch,
    buffer: &mut [u8],
    number: u64,
    entry: &EntryRef<'_>,
) -> usize
    requires room { LINE ≤ length buffer.old }
    requires most { length entry.now.output.now ≤ 256 }
    requires index { next_in (reply_of entry.now.answer []) < REPS_END }
    ensures text { take result buffer.new
        ≡ entry_text number (entry_by {A = A} entry.now) ++ codes "\n" }
    ensures most { result ≤ LINE }
    ensures length { length buffer.new ≡ length buffer.old }
    ensures rest { drop result buffer.new ≡ drop result buffer.old }
{
    scratch.line.clear();
    push_entry::<A>(&mut scratch.line, number, entry);
    let bytes = scratch.line.as_slice();
    buffer[..bytes.len()].copy_from_slice(bytes);
    bytes.len()
}

// Adds the line of an event with its number, with its line feed.
#[tactic(auto, unfolding(crate::specs::Audit::entry_text))]
fn push_entry<A: Allocator>(line: &mut Text, number: u64, entry: &EntryRef<'_>)
    requires index { next_in (reply_of entry.now.answer []) < REPS_END }
    requires output { length entry.now.output.now ≤ 256 }
    requires empty { line.old ≡ [] }
    ensures text { line.new ≡ entry_text number (entry_by {A = A} entry.now) ++ codes "\n" }
    ensures most { length line.new ≤ LINE }
{
    line.push_decimal(number);
    line.push_text(b" ");
    push_caller(line, entry.by);
    line.push_text(b" ");
    push_asked::<A>(line, entry.asked, entry.input);
    line.push_text(b" ");
    push_reply::<A>(line, entry);
    line.push_text(b"\n");
}

fn push_caller(line: &mut Text, by: Caller)
    requires { length line.old + PART ≤ LINE }
    ensures text { line.new ≡ line.old ++ caller_text by }
    ensures most { length (caller_text by) ≤ PART }
{
    line.push_decimal(by.part);
    line.push_text(b".");
    line.push_decimal(u64::from(by.vp));
}

// Adds the request of an event. The bytes of its input aren't shown.
fn push_asked<A: Allocator>(line: &mut Text, asked: Request, input: &[u8])
    requires { length line.old + PART ≤ LINE }
    ensures text { line.new ≡ line.old ++ what_text (action_of {A = A} asked input.now) }
    ensures most { length (what_text (action_of {A = A} asked input.now)) ≤ PART }
{
    match asked {
        Request::Hypercall { rcx, .. } => {
            line.push_text(b"call ");
            line.push_bytes(&rcx.to_be_bytes());
        }
        Request::ReadMsr(msr) => {
            line.push_text(b"rdmsr ");
            line.push_bytes(&msr.to_be_bytes());
        }
        Request::WriteMsr(msr, value) => {
            line.push_text(b"wrmsr ");
            line.push_bytes(&msr.to_be_bytes());
            line.push_text(b" ");
            line.push_bytes(&value.to_be_bytes());
        }
        Request::ReadSlot(sint) => line.push_named(b"slot ", u64::from(sint)),
        Request::ClearSlot(sint) => line.push_named(b"clearslot ", u64::from(sint)),
        Request::ReadFlags(sint) => line.push_named(b"flags ", u64::from(sint)),
        Request::ClearFlag(sint, flag) => {
            line.push_named(b"clearflag ", u64::from(sint));
            line.push_named(b" ", u64::from(flag));
        }
        Request::TakeInterrupt => line.push_text(b"interrupt"),
    }
}

// Adds the reply to an event.
fn push_reply<A: Allocator>(line: &mut Text, entry: &EntryRef<'_>)
    requires index { next_in (reply_of entry.now.answer []) < REPS_END }
    requires output { length entry.now.output.now ≤ 256 }
    requires room { length line.old + REPLY ≤ LINE }
    ensures text { line.new ≡ line.old ++ reply_text (action_of {A = A} entry.now.asked entry.now.input.now)
        (reply_of entry.now.answer entry.now.output.now) }
    ensures most { length (reply_text (action_of {A = A} entry.now.asked entry.now.input.now)
        (reply_of entry.now.answer entry.now.output.now)) ≤ REPLY }
{
    match entry.answer {
        Answer::Served => {
            line.push_text(b"ok");
            push_result::<A>(line, entry);
            line.push_text(b" ");
            push_output(line, entry.output);
        }
        Answer::More { .. } => {
            line.push_text(b"more");
            push_result::<A>(line, entry);
            line.push_text(b" ");
            push_output(line, entry.output);
        }
        Answer::Denied { rule, .. } => {
            line.push_text(b"denied");
            push_result::<A>(line, entry);
            line.push_text(b" ");
            push_rule(line, rule);
        }
        Answer::Fault { rule } => {
            line.push_text(b"fault ");
            push_rule(line, rule);
        }
    }
}

// Adds a space and the result value, for a hypercall alone.
fn push_result<A: Allocator>(line: &mut Text, entry: &EntryRef<'_>)
    requires index { next_in (reply_of entry.now.answer []) < REPS_END }
    requires room { length line.old + PART ≤ LINE }
    ensures text { line.new ≡ line.old ++ result_text (action_of {A = A} entry.now.asked entry.now.input.now)
        (reply_of entry.now.answer entry.now.output.now) }
    ensures most { length (result_text (action_of {A = A} entry.now.asked entry.now.input.now)
        (reply_of entry.now.answer entry.now.output.now)) ≤ PART }
{
    if let Request::Hypercall { rcx, .. } = entry.asked {
        line.push_text(b" ");
        line.push_bytes(&result_value::<A>(rcx, entry.answer).bits().to_be_bytes());
    }
}

// Adds the output of an event, or a dash if there is none.
#[tactic(auto, using(crate::proofs::Outputs::shown_length))]
fn push_output(line: &mut Text, output: &[u8])
    requires most { length output.now ≤ 256 }
    requires room { length line.old + OUTPUT ≤ LINE }
    ensures text { line.new ≡ line.old ++ output_text output.now }
    ensures most { length (output_text output.now) ≤ OUTPUT }
{
    if output.is_empty() {
        line.push_text(b"-");
    } else {
        line.push_bytes(output);
    }
}

fn push_rule(line: &mut Text, rule: Rule)
    requires { length line.old + PART ≤ LINE }
    ensures text { line.new ≡ line.old ++ rule_name rule }
    ensures most { length (rule_name rule) ≤ PART }
{
    line.push_text(rule.name().as_bytes());
}
