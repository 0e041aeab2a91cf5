//! What every call group stands on: the refinement of the flat state, admission, and the effect of an event.
//!
//! `Refines` in `specs/` relates the tree's rows to a flat state, key by key. [`admit`] looks the caller and
//! the target of a call up, once each, and checks the rules of every call, P1 to P3 and P8 to P10. A call
//! group then checks the call's own rules on the partitions that were found, and does the call (`IsGranted`
//! is the condition). `IsCalled` is the outcome of a call in the policy's terms, with its output and effect,
//! and `IsAnswered` that of an access. The contracts hold for every flat state that the tree refines.
//!
//! An [`Effect`] is what an event changed of messages, event flags, pending vectors and pages. `Tells` in
//! `specs/Effect.antt` says what it promises of the flat states before and after the event. What the effect
//! does not name is unchanged, at every processor of every partition (`LeavesUnnamed`). What it names is true
//! (`IsSo`) and is not as it was (`IsChange`).
#![tactic(auto)]

mod access;
mod effect;
mod law;
mod partitions;
mod refused;
mod rules;

pub use access::{Found, admit, caller_in, caller_vp, first_rule};
pub use effect::{Effect, FlagChange, Synic};
pub use law::{each_change_has_one_kind_of_effect, nothing_is_told_of_no_change};
pub use partitions::Partitions;
pub use refused::CallError;
pub use rules::{Balance, balance_of, has_target, has_vp, resolve_partition_id};
