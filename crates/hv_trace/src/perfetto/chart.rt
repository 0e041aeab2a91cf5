// The teller of a chart.

use crate::perfetto::lanes::Lanes;
use crate::perfetto::note::{Moment, Note};
use crate::perfetto::slice::put_line;
use hv_admit::Effect;
use hv_explain::Teller;
use hv_history::Kept;
use hv_policy::{Action, Caller, Reply};
use hv_words::{Words, push_event};
use std::alloc::{AllocError, Global};
use std::io;
use std::io::Write;

/// Writes a line with a slice and notes for each event.
#[derive(Drop)]
pub(crate) struct Chart {
    lanes: Lanes,
    words: Words,
    notes: Vec<Note>,
    is_whole: bool,
}

impl Chart {
    /// Creates the teller of a run that has no event yet.
    pub(crate) fn new(alloc: Global) -> Result<Chart, AllocError> {
        let lanes = Lanes::new(alloc)?;
        Ok(Chart {
            lanes,
            words: Words::new(),
            notes: Vec::new(alloc),
            is_whole: true,
        })
    }

    /// Whether there was memory for all notes so far.
    pub(crate) fn is_whole(&self) -> bool {
        self.is_whole
    }
}

impl Teller for Chart {
    ghost use Rattle.hv_trace.specs.Perfetto.{charts};

    ghost tells = { charts };

    fn tell<W: Write>(
        &mut self,
        kept: &Kept<Global>,
        number: u64,
        by: Caller,
        what: &Action<Global>,
        reply: &Reply,
        effect: &Effect,
        out: &mut W,
    ) -> io::Result<()> {
        let tree = kept.machine().tree();
        self.words.clear();
        push_event(&mut self.words, tree, by, what, reply);
        self.notes.clear();
        let now = Moment { number, by };
        let noted = self
            .lanes
            .follow(tree, now, what, reply, effect, &mut self.notes);
        self.is_whole = self.is_whole && noted.is_ok();
        put_line(out, number, by, what, reply, &self.words, &self.notes)
    }
}
