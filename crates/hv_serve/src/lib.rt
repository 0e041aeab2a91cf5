//! A session: the lines of the script's language, each answered before the next is read.
//!
//! [`serve`] reads lines from a reader and writes the answers to a writer, flushed line by line. A line means
//! what it means in a script. If it is by names, it means what the line means that `hv_asm` makes of it. The
//! answer to an action is its lines of the audit. Four more lines ask for something: `table` for the table of
//! partitions, `peek` for a look at a processor, `explain` for the last event in words, and `help` for what a
//! session takes. The answer to a line that has a fault, or that the host refuses, is one line that says why.
//! In JSON each answer is one line, and has for each event also the object that a trace has.
//! `specs/Session.antt` and `specs/Json.antt` define the answers. [`a_session_is_a_serial_run`] says that the
//! answers to the lines without fault are the audit of a serial run of these lines as a script.
#![tactic(auto)]

mod answer;
mod bench;
mod form;
mod help;
mod input;
mod json;
mod laws;
mod outcome;
mod peek;
mod request;
mod session;
mod shown;
mod traced;

pub use form::Form;
pub use laws::{a_session_is_a_serial_run, an_answer_in_json_is_one_line};
pub use outcome::Outcome;
pub use peek::{Look, Peek};
pub use session::serve;
