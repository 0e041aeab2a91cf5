// The reply to an event, without its output.

use crate::rule::Rule;
use hv_abi::Status;

/// The reply to an event, without its output.
#[derive(Clone, Copy, PartialEq, Eq, Debug)]
pub enum Answer {
    /// The event is done.
    Served,
    /// The element is done, and the call continues with the element `next`.
    More {
        next: u16,
    },
    /// The hypercall is refused: `rule` is the first rule that it breaks.
    Denied {
        rule: Rule,
        status: Status,
        /// The number of elements of a rep call that were done before, as its result value counts them.
        reps: u16,
    },
    /// The access is refused: `rule` is the first rule that it breaks.
    Fault {
        rule: Rule,
    },
}
