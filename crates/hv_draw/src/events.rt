// A teller that keeps events and writes nothing.
use hv_admit::Effect;
use hv_explain::Teller;
use hv_history::Kept;
use hv_policy::{Action, Caller, Event, Reply};
use std::alloc::Global;
use std::io;
use std::io::Write;

/// Keeps the first events of a run, and writes nothing about them.
#[derive(Drop)]
pub(crate) struct Events {
    most: u64,
    events: Vec<Event<Global>>,
}

impl Events {
    /// Keeps the first `at` events, or all.
    pub(crate) fn new(alloc: Global, at: Option<u64>) -> Events {
        Events {
            most: at.unwrap_or(u64::MAX),
            events: Vec::new(alloc),
        }
    }

    /// The events, in order.
    pub(crate) fn as_slice(&self) -> &[Event<Global>] {
        self.events.as_slice()
    }
}

impl Teller for Events {
    ghost use Rattle.hv_draw.specs.Drawn.{nothing};

    ghost tells = { nothing };

    fn tell<W: Write>(
        &mut self,
        _kept: &Kept<Global>,
        number: u64,
        by: Caller,
        what: &Action<Global>,
        _reply: &Reply,
        _effect: &Effect,
        _out: &mut W,
    ) -> io::Result<()> {
        if number <= self.most {
            let what = what.copy()?;
            self.events.push(Event { by, what })?;
        }
        Ok(())
    }
}
