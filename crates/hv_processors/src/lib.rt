//! Virtual processors: creating and deleting them, and reading and writing their registers, by calls and as
//! model-specific registers (TLFS 4.0, "Virtual Processor Management").
//!
//! A call is asked, then done; for a rep call, one element at a time. `ask_x` checks the call's own rules on
//! the caller and the target that `hv_admit::admit` found, in the policy's order. `do_x` requires that all
//! rules hold. It reserves the room that it needs, changes the tree and returns the effect (`IsDone`). An
//! access has one public function, which checks P1 to P3 itself (`IsAnswered`).
#![tactic(auto)]

mod create;
mod delete;
mod get_registers;
mod msrs;
mod own;
mod register_rules;
mod set_registers;
mod writes;

pub use create::{ask_create_vp, do_create_vp};
pub use delete::{ask_delete_vp, do_delete_vp};
pub use get_registers::{ask_get_registers, do_get_registers};
pub use msrs::{read_msr, write_msr};
pub use set_registers::{ask_set_registers, do_set_registers};
