// What is written about an event.
ghost use Rattle.std.specs.Prelude.{OnOk};
ghost use Rattle.hv_explain.specs.Written.{HasPut, Telling, entry_of};

use hv_admit::Effect;
use hv_history::Kept;
use hv_policy::{Action, Caller, Reply};
use std::alloc::Global;
use std::io;
use std::io::Write;

/// Writes about each event of a run, one after another.
pub trait Teller {
    /// Whether a text may be written about an event with this number, reply and effect.
    ghost tells: { Telling };

    /// Writes about the last event of a history.
    ///
    /// `number` counts events from 1. The event is that of `by` and `what`, with this reply and effect.
    fn tell<W: Write>(
        &mut self,
        kept: &Kept<Global>,
        number: u64,
        by: Caller,
        what: &Action<Global>,
        reply: &Reply,
        effect: &Effect,
        out: &mut W,
    ) -> io::Result<()>
        ensures { OnOk result (HasPut (tells number (entry_of by what.now reply.now) effect.now)
            (W.contents out.old)
            (W.contents out.new)) };
}
