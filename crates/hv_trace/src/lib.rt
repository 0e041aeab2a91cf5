//! The events of a script in JSON, one object for each: `hvpm trace SCRIPT [AUDIT]`.
//!
//! [`trace_text`] runs a script's lines in order, or takes the events of an audit in its order, and writes an
//! object about each event in a line. The object has the event's number, its processor, the line of the
//! script that asks for it, the call or the access by name with its fields, the reply, the reason of a
//! refusal, and the effect: what changed, and whom it reached. `IsObject` of `specs/Trace.antt` fixes each
//! byte of the text, except for the line's number, what the fields are, and the words of the reason. The
//! fields are members in any case, and the words end no string, so that the text is an object of JSON.
//! `docs/trace.schema.json` is the schema of an object. The form is this project's own. [`Object`] writes the
//! object of one event.
//!
//! [`perfetto_text`] runs a script's lines in order, and writes the run in the Chrome trace event form, which
//! ui.perfetto.dev and chrome://tracing open: a slice for each event in the lane of its processor, arrows
//! from posts and signals to what they reach, and counters of pages and waiting messages.
//! `specs/Perfetto.antt` has the texts.
//!
//! [`report_text`] takes the events as [`trace_text`] does, and writes them as a page: one file of HTML,
//! which a browser opens without a network. The page is a fixed head, two lines for each event, its words
//! and its object, and a fixed tail, whose program shows them. `specs/Report.antt` says so, and that the
//! lines of events have no `<`: no text of a script is read as HTML, and none ends the element that the lines
//! stand in.
//!
//! After a failure the output is a first part of what is written about the first events: `specs/Part.antt` of
//! `hv_explain`, and `specs/Framed.antt`.
#![tactic(auto)]

mod answer;
mod asked;
mod boots;
mod effect;
mod fields;
mod frame;
mod lines;
mod members;
mod object;
mod perfetto;
mod put;
mod report;
mod trace;

pub use object::Object;
pub use perfetto::perfetto_text;
pub use report::report_text;
pub use trace::trace_text;
