// The rows of the events that a chart shows.
ghost use Rattle.std.specs.Prelude.{◌≡◌};
ghost use Rattle.hv_draw.specs.Sequence.{is_shown};

use crate::chart::Chart;
use crate::choice::{Choice, Chooses, is_chosen};
use crate::phases::Phases;
use crate::rowed::has_row;
use hv_admit::Effect;
use hv_explain::Teller;
use hv_history::Kept;
use hv_policy::{Action, Caller, Reply};
use std::alloc::{AllocError, Global};
use std::io;
use std::io::Write;
use std::marker::PhantomData;

/// Writes the row of each event that a chart shows, in a line.
#[derive(Drop)]
pub(crate) struct Chosen<K: Chooses> {
    choice: Choice,
    chart: Chart,
    chooses: PhantomData<K>,
    ghost chosen: { choice ≡ K.choice },
}

impl<K: Chooses> Chosen<K> {
    /// Creates a chart without rows, of a script with these phases.
    pub(crate) fn new(alloc: Global, choice: Choice, phases: Phases) -> Chosen<K>
        requires { choice ≡ K.choice }
    {
        Chosen {
            choice,
            chart: Chart::new(alloc, phases),
            chooses: PhantomData,
        }
    }

    /// Removes all rows, for the chart of the same run, and sorts the lanes.
    pub(crate) fn restart(&mut self) -> Result<(), AllocError> {
        self.chart.restart()
    }

    /// The chart.
    pub(crate) fn chart(&self) -> &Chart {
        &self.chart
    }
}

impl<K: Chooses> Teller for Chosen<K> {
    ghost use Rattle.hv_draw.specs.Sequence.{charts};

    ghost tells = { charts K.choice };

    fn tell<W: Write>(
        &mut self,
        kept: &Kept<Global>,
        number: u64,
        by: Caller,
        what: &Action<Global>,
        reply: &Reply,
        effect: &Effect,
        out: &mut W,
    ) -> io::Result<()> {
        let shown = is_shown(self.choice, number, by, what, effect);
        let told = if shown {
            self.chart.put(kept, number, by, what, reply, effect, out)
        } else {
            Ok(())
        };
        self.chart.take(reply);
        told
    }
}

// Returns whether a chart shows an event.
fn is_shown(choice: Choice, number: u64, by: Caller, what: &Action<Global>, effect: &Effect) -> bool
    ensures { result ≡ is_shown choice number by what.now effect.now }
{
    has_row(what, effect) && is_chosen(choice, number, by, effect)
}
