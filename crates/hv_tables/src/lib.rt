//! A second copy of the policy's tables. Each value is a literal, typed from the policy in words,
//! `docs/POLICY.md`, and not from the definitions. The crate also has worked frames, with the faults of input
//! values and addresses, and worked pages, with the bytes that slots and event flags show.
//!
//! The crate has no code. Code and definitions that read one constant or one table can be wrong together, and
//! no proof notices. Here each function's contract states a table, line by line. The prover computes these
//! lines from the definitions and constants that the other crates' contracts cite. `specs/` says which
//! definitions make a line.
#![tactic(auto)]

mod accesses;
mod calls;
mod frames;
mod links;
mod messages;
mod privileges;
mod properties;
mod registers;
mod rules;
mod sizes;
mod statuses;

pub use accesses::{
    each_access_has_its_edges, each_access_has_its_rules, each_msr_has_its_register,
    each_processor_has_its_index,
};
pub use calls::{
    each_block_has_its_fields, each_call_has_its_checks, each_call_has_its_frame,
    each_call_has_its_lists, each_call_has_its_needs, each_call_has_its_rules,
    each_call_has_its_target, each_check_has_its_edges, each_field_has_its_bytes,
    each_kin_has_its_partitions, each_policy_has_its_row, the_profile_has_its_calls,
};
pub use frames::{
    each_frame_has_its_fault, each_input_value_has_its_parts, each_result_has_its_value,
};
pub use links::{each_port_has_its_type, each_port_keeps_its_flags};
pub use messages::{
    each_flag_has_its_bit, each_page_is_on_by_its_bit, each_sint_raises_its_vector,
    each_slot_has_its_bytes,
};
pub use privileges::each_privilege_has_its_bit;
pub use properties::{
    each_mask_given_has_its_masks, each_property_has_its_code, each_property_has_its_range,
    each_property_has_its_start,
};
pub use registers::{
    each_register_has_its_access, each_register_has_its_start, each_register_takes_its_values,
};
pub use rules::each_rule_has_its_line;
pub use sizes::each_size_has_its_value;
pub use statuses::each_status_has_its_line;
