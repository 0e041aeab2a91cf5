//! The events of a script or of an audit in words, one line for each: `hvpm explain SCRIPT [AUDIT]`.
//!
//! A line has the call or the access and its answer. For a refusal it also has the rule that failed, and the
//! values that decided.
//!
//! [`explain_text`] runs a script's lines in order and explains each event as it happens. Its contract says
//! that the events are those of a run, and that each has one line, which begins with its number and its
//! processor. After the processor comes free text, which `hv_words` composes.
//!
//! [`follow_text`] checks an audit beside its script, as `hv_check` does. It then takes the audit's events
//! once more, in the audit's order, and explains each in such a line. An audit of threads, or of another
//! program, is thus explained in the order in which its events happened. `HasFollowed` of
//! `specs/Followed.antt` says what is printed.
//!
//! A [`Teller`] decides what is written about an event. It gets the event's effect, which is that of its
//! step. This crate's own writes the words, and other crates have tellers of their own. [`explain_with`] runs
//! a script with any teller, and [`follow_with`] takes the events of an audit with any teller. So do
//! [`tell_script`] and [`tell_audit`], which return a failure. [`explain_lines`] runs a script's lines on a
//! machine, up to an event. [`explain_last`] explains the last event of a history that was taken before.
//! [`happen`] takes an event, and tells its effect.
//!
//! Each text is built before it is written. After a failure the output is a first part of what is told of the
//! first events: `specs/Part.antt`.
#![tactic(auto)]

mod audit;
mod event;
mod explainer;
mod follow;
mod last;
mod put;
mod run;
mod script;
mod teller;

pub use event::happen;
pub use follow::{follow_text, follow_with, tell_audit};
pub use last::explain_last;
pub use run::explain_lines;
pub use script::{explain_text, explain_with, tell_script};
pub use teller::Teller;
