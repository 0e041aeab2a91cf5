// The rule that failed, and the values that decided.

use crate::reasons::frames::call_of;
use crate::reasons::links::{
    push_connection, push_kept, push_other, push_port, push_right, push_taker, push_vp,
};
use crate::reasons::parameters::{push_input_value, push_lists, push_parameters};
use crate::reasons::registers::{push_msr_privilege, push_msr_value};
use crate::reasons::subjects::{push_access_subject, push_subject};
use crate::reasons::targets::{
    push_children, push_depth, push_kinship, push_life, push_pages, push_privilege, push_range,
    push_state,
};
use crate::reasons::tree::{Tree, target_of};
use crate::sentences::sentence;
use crate::words::Words;
use hv_abi::Frame;
use hv_calls::Call;
use hv_policy::{Access, Action, Caller, Rule};
use std::alloc::Global;

/// Adds the sentence of a rule that refused an event and, in brackets, the values that decided.
pub fn push_reason(words: &mut Words, tree: &Tree, by: Caller, rule: Rule, what: &Action<Global>) {
    words.text(sentence(rule));
    if has_values(rule) {
        words.text(" (");
        match what.as_access() {
            Ok(access) => push_access_values(words, tree, by, rule, access),
            Err(frame) => push_frame_values(words, tree, by, rule, frame),
        }
        words.text(")");
    }
}

// Returns whether a rule has values. For the others, the sentence and the event's fields say everything.
fn has_values(rule: Rule) -> bool {
    match rule {
        Rule::CallerExists
        | Rule::CallerVpExists
        | Rule::CallCode
        | Rule::TargetExists
        | Rule::PropertyKnown
        | Rule::MsrKnown => false,
        Rule::CallerActive
        | Rule::InputValue
        | Rule::Alignment
        | Rule::Parameters
        | Rule::Privilege
        | Rule::TargetScope
        | Rule::TargetState
        | Rule::NoChildren
        | Rule::Depth
        | Rule::PeerExists
        | Rule::Connection
        | Rule::Port
        | Rule::Entitlement
        | Rule::VpExists
        | Rule::PropertyRange
        | Rule::Operand
        | Rule::VpReady
        | Rule::PortRoom
        | Rule::Pages
        | Rule::MsrPrivilege
        | Rule::MsrWrite => true,
    }
}

// Adds the values of an access.
fn push_access_values(words: &mut Words, tree: &Tree, by: Caller, rule: Rule, access: Access) {
    match rule {
        Rule::CallerActive => push_life(words, tree, by.part),
        Rule::Operand => push_access_subject(words, access),
        Rule::MsrPrivilege => push_msr_privilege(words, tree, by.part, access),
        Rule::MsrWrite => push_msr_value(words, access),
        _ => {}
    }
}

// Adds the values of a hypercall.
fn push_frame_values(
    words: &mut Words,
    tree: &Tree,
    by: Caller,
    rule: Rule,
    frame: &Frame<Global>,
) {
    match rule {
        Rule::CallerActive => push_life(words, tree, by.part),
        Rule::InputValue => push_input_value(words, frame.rcx),
        Rule::Alignment => push_lists(words, frame),
        Rule::Parameters => push_parameters(words, frame),
        _ => match call_of(frame) {
            Some(call) => push_call_values(words, tree, by.part, rule, &call),
            None => {}
        },
    }
}

// Adds the values of a call whose parameters are well formed.
fn push_call_values(words: &mut Words, tree: &Tree, caller: u64, rule: Rule, call: &Call<'_>) {
    let target = target_of(caller, call);
    match rule {
        Rule::Privilege => push_privilege(words, tree, caller, call),
        Rule::TargetScope => push_kinship(words, tree, caller, target),
        Rule::TargetState => push_state(words, tree, target, call),
        Rule::NoChildren => push_children(words, tree, target),
        Rule::Depth => push_depth(words, tree, caller),
        Rule::PeerExists => push_other(words, caller, target, call),
        Rule::Connection => push_connection(words, target, call),
        Rule::Port => push_port(words, tree, caller, target, call),
        Rule::Entitlement => push_right(words, tree, caller, target, call),
        Rule::VpExists => push_vp(words, tree, target, call),
        Rule::PropertyRange => push_range(words, call),
        Rule::Operand => push_subject(words, tree, caller, call),
        Rule::VpReady => push_taker(words, tree, caller, call),
        Rule::PortRoom => push_kept(words, tree, caller, call),
        Rule::Pages => push_pages(words, tree, target, call),
        _ => {}
    }
}
