// The actions of one processor in a phase.
ghost use Rattle.std.specs.Prelude.{◌≤◌, vec_len};

use hv_policy::{Action, Caller};
use std::alloc::Global;

/// The actions of one processor in a phase, in order.
#[derive(Drop)]
pub struct Turn {
    /// The processor.
    pub(crate) by: Caller,
    /// What its lines of the phase ask for. A call that continues asks for its next element.
    pub(crate) actions: Vec<Action<Global>>,
    /// The number of actions that are done.
    pub(crate) done: usize,
    ghost within: { done ≤ vec_len actions },
}
