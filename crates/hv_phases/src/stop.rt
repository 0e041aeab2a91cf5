// The processors that the host stopped.
ghost use Rattle.std.specs.Prelude.{IfNone, IfSome};
ghost use Rattle.hv_phases.specs.Stops.{AreAllGoing, IsFirstStop};

use crate::pass_map::{CallerMap, Runner, key_of};
use hv_history::HostRefused;
use hv_policy::Caller;
use std::sync::ledger::Ledger;

/// Why lines didn't all run.
#[derive(Clone, Copy, PartialEq, Eq)]
pub enum Halt {
    /// The host stopped a processor, and the others of its phase came to their end.
    Stopped,
    /// There was no memory for the next phase.
    Memory,
    /// A receipt's number isn't above those of the phases or lines before it.
    Order,
}

/// Returns why the host stopped the first of these processors that it stopped.
pub fn first_stop<L: Ledger>(
    order: &[Caller],
    runners: &CallerMap<Runner<L>>,
) -> Option<HostRefused>
    ensures none { IfNone result (AreAllGoing runners.now order.now) }
    ensures some { IfSome result (IsFirstStop runners.now order.now) }
{
    for at in 0..order.len() {
        if let Some(
            Runner {
                stop: Some(why),
                ..
            },
        ) = runners.get(&key_of(order[at]))
        {
            return Some(*why);
        }
    }
    None
}
