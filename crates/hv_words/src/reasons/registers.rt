// The values of the rules that look at registers.

use crate::reasons::targets::push_missing;
use crate::reasons::tree::{Tree, mask_of};
use crate::registers::register_name;
use crate::words::Words;
use hv_policy::Access;
use hv_vp::{RegFault, kept, name_of_msr, privilege_of};

// Adds the values of P26: the caller's mask, and the privilege that it lacks.
pub fn push_msr_privilege(words: &mut Words, tree: &Tree, caller: u64, access: Access) {
    match access {
        Access::ReadMsr(msr) | Access::WriteMsr(msr, _) => match name_of_msr(msr) {
            Some(name) => push_register_privilege(words, tree, caller, name),
            None => {}
        },
        _ => {}
    }
}

// Adds the values of P18 for the register that a call names: the caller's mask, and the privilege that it
// lacks.
pub fn push_register_privilege(words: &mut Words, tree: &Tree, caller: u64, name: u32) {
    push_missing(
        words,
        mask_of(tree, caller),
        privilege_of(name).unwrap_or(0),
    );
}

// Adds the value of P27: why the register doesn't accept the value.
pub fn push_msr_value(words: &mut Words, access: Access) {
    match access {
        Access::WriteMsr(msr, value) => match name_of_msr(msr) {
            Some(name) => push_register_value(words, name, value),
            None => {}
        },
        _ => {}
    }
}

// Adds the value of P21 for the register that a call names: why it doesn't accept the value.
pub fn push_register_value(words: &mut Words, name: u32, value: u64) {
    match kept(name, value) {
        Ok(_) => {}
        Err(RegFault::Unknown) => push_unknown(words, name),
        Err(RegFault::ReadOnly) => {
            words.text(register_name(name).unwrap_or("the register"));
            words.text(" takes no value");
        }
        Err(RegFault::Value) => {
            words.hex("vector ", value & 0xff);
            words.text(" is below 0x10, and bit 16 is clear");
        }
    }
}

// Adds the value of P21 for an unknown register.
pub fn push_unknown(words: &mut Words, name: u32) {
    words.hex("no register ", u64::from(name));
}
