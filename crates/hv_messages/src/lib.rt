//! Messages, event flags and interrupts (TLFS 4.0, "Inter-Partition Communication" and "Synthetic
//! Interrupt Controller"): posting and signalling through a connection, and a processor's accesses to
//! everything that arrived at its own SINTs.
//!
//! A call is asked, then done. `ask_x` checks the call's own rules on the caller that `hv_admit::admit`
//! found, in the policy's order, and returns where the message or the flag goes. `do_x` requires that all
//! rules hold. It reserves the room that it needs, changes the tree and returns the effect (`IsDone`). An
//! access has one public function, which checks P1 to P3 by `hv_admit::caller_vp` (`IsAnswered`).
#![tactic(auto)]

mod aims;
mod effects;
mod flags;
mod interrupts;
mod post;
mod signal;
mod slots;

pub use aims::{Aimed, ResolvedPort};
pub use flags::{clear_flag, read_flags};
pub use interrupts::take_interrupt;
pub use post::{ask_post, do_post};
pub use signal::{ask_signal, do_signal};
pub use slots::{clear_slot, read_slot};
