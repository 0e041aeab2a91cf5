// Names that are near a word which is none.
ghost use Rattle.std.specs.Prelude.{IfSome, IsTrue};
ghost use Rattle.hv_asm.specs.Near.{IsNear};

use crate::field::parts;
use hv_abi::{ALL_CALLS, CallKind};
use hv_defs::REGISTERS;
use hv_words::{call_name, register_name};
use std::alloc::Global;
use strsim::generic_levenshtein;

// The second words of lines of a script that aren't by names.
const VERBS: [&str; 8] = [
    "call",
    "rdmsr",
    "wrmsr",
    "slot",
    "clearslot",
    "flags",
    "clearflag",
    "interrupt",
];

/// A call's name that is near a word.
pub fn near_call(alloc: Global, word: &[u8]) -> Option<&'static str>
    ensures { IfSome result (λ name. IsNear word.now name.now) }
{
    for call in ALL_CALLS {
        let name = call_name(call);
        if is_near(alloc, word, name) {
            return Some(name);
        }
    }
    None
}

/// A second word of a line of a script that is near a word.
pub fn near_verb(alloc: Global, word: &[u8]) -> Option<&'static str>
    ensures { IfSome result (λ name. IsNear word.now name.now) }
{
    for name in VERBS {
        if is_near(alloc, word, name) {
            return Some(name);
        }
    }
    None
}

/// A register's name that is near a word.
pub fn near_register(alloc: Global, word: &[u8]) -> Option<&'static str>
    ensures { IfSome result (λ name. IsNear word.now name.now) }
{
    for row in REGISTERS {
        if let Some(name) = register_name(row.name) {
            if is_near(alloc, word, name) {
                return Some(name);
            }
        }
    }
    None
}

/// The name of a register that is an MSR, near a word.
pub fn near_msr(alloc: Global, word: &[u8]) -> Option<&'static str>
    ensures { IfSome result (λ name. IsNear word.now name.now) }
{
    for row in REGISTERS {
        if let Some(name) = register_name(row.name) {
            if row.msr.is_some() && is_near(alloc, word, name) {
                return Some(name);
            }
        }
    }
    None
}

/// A name of a call's field that is near a word.
pub fn near_field(alloc: Global, call: CallKind, word: &[u8]) -> Option<&'static str>
    ensures { IfSome result (λ name. IsNear word.now name.now) }
{
    for part in parts(call) {
        if let Some(name) = part.name() {
            if is_near(alloc, word, name) {
                return Some(name);
            }
        }
    }
    None
}

// Returns whether few edits lead from a word to a name. Out of memory, they don't.
fn is_near(alloc: Global, word: &[u8], name: &str) -> bool
    ensures { IsTrue result → IsNear word.now name.now }
{
    match generic_levenshtein(alloc, word, name.as_bytes()) {
        Ok(edits) => edits <= word.len() / 3,
        Err(_) => false,
    }
}
