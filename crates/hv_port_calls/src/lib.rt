//! Ports and connections: creating and deleting ports, and connecting to and disconnecting from them
//! (TLFS 4.0, "Inter-Partition Communication").
//!
//! A call is asked, then done. `ask_x` checks the call's own rules on the caller and the target that
//! `hv_admit::admit` found, in the policy's order, and returns what the change needs. `do_x` requires that
//! all rules hold. It reserves room, changes the target and returns the effect (`IsDone`), which names
//! nothing: an effect has no ports and no connections. No call of this group has output.
#![tactic(auto)]

mod port_connection;
mod port_creation;
mod port_deletion;
mod port_disconnection;
mod rules;

pub use port_connection::{NewConnection, ask_connect, do_connect};
pub use port_creation::{NewPort, ask_create_port, do_create_port};
pub use port_deletion::{ask_delete_port, do_delete_port};
pub use port_disconnection::{ask_disconnect, do_disconnect};
