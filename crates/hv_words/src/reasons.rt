// An event with its answer in words: the call or the access, and its output. For a refusal the text has the
// rule that failed, and the values that decided. The functions here have no contract except that they are
// safe and terminate.

mod answer;
mod frames;
mod links;
mod parameters;
mod registers;
mod rules;
mod subjects;
mod targets;
mod tree;

pub use answer::push_event;
pub use frames::call_of;
pub use rules::push_reason;
