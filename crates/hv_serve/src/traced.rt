// Running an action with an object for each of its events.
ghost use Rattle.std.specs.Prelude.{◌≡◌, ◌↔◌, ◌+◌, ◌<◌, ℕ, List, IfOk, IfSome, IsErrOf, OnErr, length, []};
ghost use Rattle.hv_defs.specs.declared.sizes.TheConstants.{REPS_END};
ghost use Rattle.hv_history.specs.Kept.{IsRun};
ghost use Rattle.hv_history.specs.Run.{start_of};
ghost use Rattle.hv_policy.specs.Next.{GoesOn};
ghost use Rattle.hv_policy.specs.declared.event.Action.TheVariants.{Hypercall};
ghost use Rattle.hv_serve.specs.Traced.{HasAdded, HasTakenOne, HasTakenElement, HasTraced, Holds};
ghost use Rattle.hv_threads.specs.Acted.{HasTried};

use hv_abi::Frame;
use hv_admit::Effect;
use hv_explain::happen;
use hv_history::{HostRefused, Kept, next_of};
use hv_policy::{Action, Caller, Reply};
use hv_trace::Object;
use std::alloc::Global;

// The objects of the events of a line, each in a line, as `hvpm trace` prints them.
#[derive(Drop)]
pub(crate) struct Trace {
    room: Object,
    objects: Vec<u8>,
    // Whether there was memory for all of them.
    is_whole: bool,
}

impl Trace {
    // Creates a trace without objects.
    pub(crate) fn new(alloc: Global) -> Trace {
        Trace {
            room: Object::new(),
            objects: Vec::new(alloc),
            is_whole: true,
        }
    }

    // The objects, or `None` if memory ran out for one of them.
    pub(crate) fn objects(&self) -> Option<&[u8]>
        ensures { (objects : List ℕ) → Holds self.now objects
            → IfSome result (λ text. text.now ≡ objects) }
    {
        if self.is_whole {
            Some(self.objects.as_slice())
        } else {
            None
        }
    }

    // Removes all objects.
    fn clear(&mut self)
        ensures { Holds self.new [] }
    {
        self.objects.clear();
        self.is_whole = true;
    }

    // Adds the object of the last event of a history. `line` is the number of the line that asks for it.
    fn add(
        &mut self,
        kept: &Kept<Global>,
        line: u64,
        by: Caller,
        what: &Action<Global>,
        reply: &Reply,
        effect: &Effect,
    )
        ensures { (objects : List ℕ) → Holds self.old objects
            → HasAdded (length kept.now.history) by what.now reply.now effect.now objects self.new }
    {
        let number = kept.history().len() as u64;
        let (room, objects) = (&mut self.room, &mut self.objects);
        match room.put(kept, number, line, by, what, reply, effect, objects) {
            Ok(()) => {}
            Err(_) => self.is_whole = false,
        }
    }
}

// Runs an action to its end, unless the host refuses it, and replaces the objects of a trace by those of its
// events. `line` is the number of the line that asks for it.
pub(crate) fn act_traced(
    kept: &mut Kept<Global>,
    line: u64,
    by: Caller,
    action: Action<Global>,
    trace: &mut Trace,
) -> Result<(), HostRefused>
    ensures acted { HasTried by action u32.MAX kept.old kept.new result }
    ensures traced { HasTraced [] kept.old kept.new trace.new }
{
    trace.clear();
    match action {
        Action::Hypercall(frame) => run_call(kept, line, by, frame, trace),
        Action::ReadMsr(_)
        | Action::WriteMsr(_, _)
        | Action::ReadSlot(_)
        | Action::ClearSlot(_)
        | Action::ReadFlags(_)
        | Action::ClearFlag(_, _)
        | Action::TakeInterrupt => match take_event(kept, line, by, &action, trace) {
            Ok(_) => Ok(()),
            Err(why) => Err(why),
        },
    }
}

// Runs a hypercall to its end, from the frame's start index on.
fn run_call(
    kept: &mut Kept<Global>,
    line: u64,
    by: Caller,
    frame: Frame<Global>,
    trace: &mut Trace,
) -> Result<(), HostRefused>
    requires { Holds trace.old [] }
    ensures acted { HasTried by (Hypercall frame) u32.MAX kept.old kept.new result }
    ensures traced { HasTraced [] kept.old kept.new trace.new }
{
    // Proof: the history is a run.
    let _history = kept.history();
    let mut now = frame;
    loop {
        match take_element(kept, line, by, &now, trace) {
            Ok(Some(next)) => now = now.with_start(next),
            Ok(None) => return Ok(()),
            Err(why) => return Err(why),
        }
    }
}

// Takes the element of a hypercall at the frame's start index. Returns the index of the next element, if the
// call continues.
fn take_element(
    kept: &mut Kept<Global>,
    line: u64,
    by: Caller,
    frame: &Frame<Global>,
    trace: &mut Trace,
) -> Result<Option<u16>, HostRefused>
    ensures taken { (objects : List ℕ) → Holds trace.old objects
        → IfOk result (λ next. HasTakenElement by frame.now next objects kept.old kept.new trace.new) }
    ensures next { IfOk result (λ next. IfSome next (λ n. (n ≡ start_of frame.now + 1) × (n < REPS_END))) }
    ensures run { IsRun kept.new }
    ensures full { IsErrOf result HostRefused.HistoryFull ↔ (length kept.old.history ≡ kept.old.limit) }
    ensures refused { OnErr result (kept.new ≡ kept.old) }
    ensures still { OnErr result (trace.new ≡ trace.old) }
{
    // Proof: the history is a run.
    let _history = kept.history();
    if kept.is_full() {
        return Err(HostRefused::HistoryFull);
    }
    let Ok(own) = frame.copy() else {
        return Err(HostRefused::Memory);
    };
    match take_event(kept, line, by, &Action::Hypercall(own), trace) {
        Ok(reply) => Ok(next_of(reply.parts().0)),
        Err(why) => Err(why),
    }
}

// Takes an event, adds its object, and returns its reply.
fn take_event(
    kept: &mut Kept<Global>,
    line: u64,
    by: Caller,
    what: &Action<Global>,
    trace: &mut Trace,
) -> Result<Reply, HostRefused>
    ensures taken { (objects : List ℕ) → Holds trace.old objects
        → IfOk result (λ reply. HasTakenOne by what.now reply objects kept.old kept.new trace.new) }
    ensures next { IfOk result (GoesOn what.now) }
    ensures run { IsRun kept.new }
    ensures full { IsErrOf result HostRefused.HistoryFull ↔ (length kept.old.history ≡ kept.old.limit) }
    ensures refused { OnErr result (kept.new ≡ kept.old) }
    ensures still { OnErr result (trace.new ≡ trace.old) }
{
    let (reply, effect) = happen(kept, by, what)?;
    trace.add(kept, line, by, what, &reply, &effect);
    Ok(reply)
}
