//! The machine for a hypervisor written in C or in Rust: a static library with C's calling convention.
//!
//! `include/hvpm.h` is its header. The caller owns a handle of fixed size, [`HvMachine`], which is empty when
//! it is all zeros. `hv_embed_boot` puts a machine into it, `hv_embed_hypercall` and one function per access
//! take one event each, and `hv_embed_destroy` destroys the machine. Each function promises of the machine in
//! the handle what `Machine::step` of `hv_machine` promises, and returns the audit's line of the event.
//! `hv_embed_run` takes the elements of a rep call one after another, each as one such event, and returns no
//! line. A status reports each refusal, after which nothing has changed.
//!
//! `hv_embed_peek_*` and the functions beside them look at a machine without an event, as `hv_looks`
//! promises. The functions of `lists.rt` list what a partition has. `hv_embed_table` writes the machine's
//! table into a buffer. `hv_embed_hypercall_line` and `hv_embed_access_line` write an event as a line of a
//! script, as `hv_script` does. `hv_embed_explain` and `hv_embed_explain_access` write an event and its reply
//! in words, as `hv_words` composes them.
#![tactic(auto)]

mod answer;
mod effect;
mod explain;
mod exports;
mod handle;
mod layout;
mod lists;
mod looks;
mod machine_state;
mod next;
mod parts;
mod raw_machine;
mod run;
mod status;
mod take;
mod texts;

pub use explain::{hv_embed_explain, hv_embed_explain_access};
pub use exports::{
    hv_embed_boot, hv_embed_clear_flag, hv_embed_clear_slot, hv_embed_destroy, hv_embed_hypercall,
    hv_embed_read_flags, hv_embed_read_msr, hv_embed_read_slot, hv_embed_run,
    hv_embed_take_interrupt, hv_embed_write_msr,
};
pub use handle::HvMachine;
pub use layout::{
    HvCaller, HvConfig, HvConnection, HvEffect, HvPageRun, HvPartition, HvPort, HvRegisters,
    HvReply, HvRun,
};
pub use lists::{
    hv_embed_connection_after, hv_embed_page_after, hv_embed_port_after, hv_embed_vp_after,
};
pub use looks::{
    hv_embed_child_after, hv_embed_features, hv_embed_is_call, hv_embed_is_msr,
    hv_embed_page_owner, hv_embed_peek_connection, hv_embed_peek_flags, hv_embed_peek_msr,
    hv_embed_peek_partition, hv_embed_peek_pending, hv_embed_peek_port, hv_embed_peek_slot,
};
pub use texts::{hv_embed_access_line, hv_embed_hypercall_line, hv_embed_table};
