// Taking one event and telling of it.
ghost use Rattle.std.specs.Prelude.{◌≡◌, ◌↔◌, IfErr, IfOk, IsErrOf, OnErr, OnOk, length};
ghost use Rattle.hv_history.specs.Kept.{IsRun};
ghost use Rattle.hv_policy.specs.Next.{GoesOn};
ghost use Rattle.hv_run.specs.Failure.{exit_of};
ghost use Rattle.hv_explain.specs.Cut.{IsCut, IsCutText};
ghost use Rattle.hv_explain.specs.Written.{HasHappened, HasPut, HasWrittenOne, entry_of};

use crate::put::put_text;
use crate::teller::Teller;
use hv_admit::Effect;
use hv_history::{HostRefused, Kept, global};
use hv_phases::RunError;
use hv_policy::{Action, Caller, Event, Output, Reply};
use hv_run::{Exit, Failure};
use std::alloc::Global;
use std::io::Write;

// Takes an event, lets the teller write about it, and returns its reply.
//
// `Err` if the host refuses the event, which then changes nothing, if there is no memory for the text, or if
// it can't be written.
pub(crate) fn explain_event<T: Teller, W: Write>(
    kept: &mut Kept<Global>,
    by: Caller,
    what: &Action<Global>,
    teller: &mut T,
    room: &mut Vec<u8>,
    out: &mut W,
) -> Result<Reply, Failure>
    ensures told { IfOk result (λ reply. HasWrittenOne T.tells by what.now reply kept.old kept.new
        (W.contents out.old)
        (W.contents out.new)) }
    ensures cut { IfErr result (λ failure. IsCut T.tells by what.now failure kept.old kept.new
        (W.contents out.old) (W.contents out.new)) }
    ensures next { IfOk result (GoesOn what.now) }
    ensures run { IsRun kept.new }
    ensures host { IfErr result (λ failure. exit_of failure ≡ Exit.Host) }
{
    let (reply, effect) = take_event(kept, by, what)?;
    match tell_event(kept, by, what, &reply, &effect, teller, room, out) {
        Ok(()) => Ok(reply),
        Err(failure) => Err(failure),
    }
}

// Takes an event as `happen` does. That the host refuses it is a failure.
pub(crate) fn take_event(
    kept: &mut Kept<Global>,
    by: Caller,
    what: &Action<Global>,
) -> Result<(Reply, Effect), Failure>
    ensures happened { IfOk result (λ r. HasHappened by what.now r.0 r.1 kept.old kept.new) }
    ensures next { IfOk result (λ r. GoesOn what.now r.0) }
    ensures run { IsRun kept.new }
    ensures host { IfErr result (λ failure. exit_of failure ≡ Exit.Host) }
{
    match happen(kept, by, what) {
        Ok(done) => Ok(done),
        Err(why) => Err(Failure::from(RunError::Host(why))),
    }
}

/// Takes an event, and returns its reply and its effect.
///
/// `Err` says why the host refused it. Nothing changed then.
pub fn happen(
    kept: &mut Kept<Global>,
    by: Caller,
    what: &Action<Global>,
) -> Result<(Reply, Effect), HostRefused>
    ensures happened { IfOk result (λ r. HasHappened by what.now r.0 r.1 kept.old kept.new) }
    ensures next { IfOk result (λ r. GoesOn what.now r.0) }
    ensures run { IsRun kept.new }
    ensures full { IsErrOf result HostRefused.HistoryFull ↔ (length kept.old.history ≡ kept.old.limit) }
    ensures refused { OnErr result (kept.new ≡ kept.old) }
{
    // Proof: the history is a run.
    let _history = kept.history();
    if kept.is_full() {
        return Err(HostRefused::HistoryFull);
    }
    let Ok(what) = what.copy() else {
        return Err(HostRefused::Memory);
    };
    let mut output = Output::new();
    match global::answer(kept, Event { by, what }, &mut output) {
        Ok((answer, effect)) => Ok((Reply::of(answer, output.as_slice()), effect)),
        Err(why) => Err(why),
    }
}

// Lets the teller build a text about the last event in `room`, and writes it.
//
// If there is no memory for the text, nothing is written. After a failed write, the writer has a first part
// of it.
pub(crate) fn tell_event<T: Teller, W: Write>(
    kept: &Kept<Global>,
    by: Caller,
    what: &Action<Global>,
    reply: &Reply,
    effect: &Effect,
    teller: &mut T,
    room: &mut Vec<u8>,
    out: &mut W,
) -> Result<(), Failure>
    ensures told { OnOk result (HasPut (T.tells (length kept.now.history)
        (entry_of by what.now reply.now) effect.now) (W.contents out.old) (W.contents out.new)) }
    ensures cut { IfErr result (λ failure. IsCutText failure (T.tells (length kept.now.history)
        (entry_of by what.now reply.now) effect.now) (W.contents out.old) (W.contents out.new)) }
    ensures host { IfErr result (λ failure. exit_of failure ≡ Exit.Host) }
{
    let number = kept.history().len() as u64;
    room.clear();
    match teller.tell(kept, number, by, what, reply, effect, room) {
        Ok(()) => put_text(out, room.as_slice()),
        Err(_) => Err(Failure::Memory),
    }
}
