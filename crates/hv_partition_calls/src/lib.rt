//! Partitions: their life cycle, properties and pools (TLFS 4.0, "Partition Management", "Partition
//! Properties" and "Resource Management").
//!
//! Each call has a file of its own, with what is asked and what is done. `ask_x` checks the call's own rules
//! on the caller and the target that `hv_admit::admit` found, in the policy's order, and returns what the
//! change needs. `do_x` requires that all rules hold. It reserves room, changes the tree and returns the
//! effect (`IsDone`). A rep call is served element by element. Setting the mask of an Active partition
//! changes all rows of its subtree at once.
#![tactic(auto)]

mod balance;
mod create;
mod delete;
mod deposit;
mod finalize;
mod get_property;
mod initialize;
mod next_child;
mod own_id;
mod pages;
mod set_property;
mod withdraw;

pub use balance::do_balance;
pub use create::{ask_create_partition, do_create_partition};
pub use delete::{ask_delete_partition, do_delete_partition};
pub use deposit::{ask_deposit, do_deposit};
pub use finalize::{ask_finalize, do_finalize};
pub use get_property::{ask_get_property, do_get_property};
pub use initialize::{ask_initialize, do_initialize};
pub use next_child::{ask_next_child, do_next_child};
pub use own_id::do_own_id;
pub use set_property::{Setting, ask_set_property, do_set_property};
pub use withdraw::{ask_withdraw, do_withdraw};
