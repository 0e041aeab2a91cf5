//! The names and texts of events: calls and accesses with their fields, a sentence for each rule, registers,
//! privileges, properties, and the outputs of calls and accesses.
//!
//! Calls, MSRs and privileges have the names of the TLFS 4.0. The sentences and the order of the fields are
//! this project's own; `docs/PROGRAM.md` describes the form. [`Words`] is the buffer that a text is built in.
//! It never has a line feed, or another byte that ends a string of JSON, or a text or an attribute of XML.
//!
//! [`push_event`] adds the text of one event with its answer, and [`push_reason`] says why an event was
//! refused: the rule that failed, and the values that decided. They read the values from the partitions after
//! the event. A refusal changes nothing, so these values are the ones that decided.
#![tactic(auto)]

mod calls;
mod names;
mod outputs;
mod reasons;
mod registers;
mod sentences;
mod words;

pub use calls::{call_name, push_access, push_call, push_call_output};
pub use names::{kind_name, life_name, privilege_name, property_name};
pub use outputs::push_access_output;
pub use reasons::{call_of, push_event, push_reason};
pub use registers::{push_msr, push_register, register_name};
pub use sentences::sentence;
pub use words::Words;
