// An event and its answer.

use crate::calls::{push_access, push_call_output};
use crate::outputs::push_access_output;
use crate::reasons::frames::{call_of, push_frame};
use crate::reasons::rules::push_reason;
use crate::reasons::tree::Tree;
use crate::words::Words;
use hv_abi::{Frame, Status};
use hv_policy::{Access, Action, Answer, Caller, Reply, Rule};
use std::alloc::Global;

// Adds an event and its answer. The partitions are those after the event.
pub fn push_event(
    words: &mut Words,
    tree: &Tree,
    by: Caller,
    what: &Action<Global>,
    reply: &Reply,
) {
    match what.as_access() {
        Ok(access) => push_access(words, access),
        Err(frame) => push_frame(words, frame),
    }
    words.text(": ");
    let (answer, output) = reply.parts();
    match answer {
        Answer::Served => {
            words.text("ok");
            push_output(words, what, output);
        }
        Answer::More { .. } => {
            words.text("more");
            push_output(words, what, output);
        }
        Answer::Denied { rule, status, .. } => {
            push_status(words, status);
            push_rule(words, tree, by, rule, what);
        }
        Answer::Fault { rule } => {
            words.text("fault, ");
            push_rule(words, tree, by, rule, what);
        }
    }
}

// Adds the name of the rule that refused an event, and the reason.
fn push_rule(words: &mut Words, tree: &Tree, by: Caller, rule: Rule, what: &Action<Global>) {
    words.text(rule.name());
    words.text(": ");
    push_reason(words, tree, by, rule, what);
}

fn push_status(words: &mut Words, status: Status) {
    words.text("denied HV_STATUS_");
    words.text(status.name());
    words.text(", ");
}

// Adds the output of an event that was served.
fn push_output(words: &mut Words, what: &Action<Global>, output: &[u8]) {
    match what.as_access() {
        Ok(access) => push_access_output(words, access, output),
        Err(frame) => match call_of(frame) {
            Some(call) => push_call_output(words, &call, output),
            None => {}
        },
    }
}
