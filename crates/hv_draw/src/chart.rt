// The rows of a sequence chart.
ghost use Rattle.std.specs.Prelude.{OnOk};
ghost use Rattle.std.specs.Io.KnownBytes.{Appends};
ghost use Rattle.hv_explain.specs.Written.{HasPut, entry_of};
ghost use Rattle.hv_words.specs.Words.{IsQuotable};
ghost use Rattle.hv_draw.specs.Sequence.{IsRow, class_text, opening_text, reach_text, row_text, waits_text};

use crate::arrows::{arrow_label, push_arrow};
use crate::lanes::Lanes;
use crate::layout::Layout;
use crate::notes::{note_label, push_note};
use crate::phases::Phases;
use crate::put::put_number;
use crate::shapes::{Mark, Place, Shapes, put_shapes};
use crate::ways::way_of;
use hv_admit::{Effect, Partitions};
use hv_history::Kept;
use hv_policy::{Action, Caller, Reply};
use hv_words::{Words, push_event};
use std::alloc::{AllocError, Global};
use std::io;
use std::io::Write;

/// Writes the rows of events, each in a line.
#[derive(Drop)]
pub(crate) struct Chart {
    lanes: Lanes,
    layout: Layout,
    phases: Phases,
    words: Words,
    text: Words,
}

impl Chart {
    /// Creates a chart without rows, of a script with these phases.
    pub(crate) fn new(alloc: Global, phases: Phases) -> Chart {
        Chart {
            lanes: Lanes::new(alloc),
            layout: Layout::new(alloc),
            phases,
            words: Words::new(),
            text: Words::new(),
        }
    }

    /// Removes all rows, for the chart of the same run. Its lanes are those of this one, by partition.
    pub(crate) fn restart(&mut self) -> Result<(), AllocError> {
        self.layout.restart();
        self.phases.restart();
        self.lanes.sort()
    }

    /// The processors that have a lane, each by its partition and its index there.
    pub(crate) fn lanes(&self) -> &[(u64, u32)] {
        self.lanes.as_slice()
    }

    /// Where the rows are.
    pub(crate) fn layout(&self) -> &Layout {
        &self.layout
    }

    /// Takes the reply to an event.
    pub(crate) fn take(&mut self, reply: &Reply) {
        self.phases.take(reply);
    }

    /// Writes the row of an event, the last one of a history.
    pub(crate) fn put<W: Write>(
        &mut self,
        kept: &Kept<Global>,
        number: u64,
        by: Caller,
        what: &Action<Global>,
        reply: &Reply,
        effect: &Effect,
        out: &mut W,
    ) -> io::Result<()>
        ensures { OnOk result (HasPut (IsRow number (entry_of by what.now reply.now) effect.now)
            (W.contents out.old)
            (W.contents out.new)) }
    {
        let tree = kept.machine().tree();
        self.words.clear();
        push_event(&mut self.words, tree, by, what, reply);
        let shapes = self.draw(tree, by, what, reply, effect)?;
        put_row(
            out,
            number,
            by,
            reply,
            effect,
            &self.words,
            shapes,
            &self.text,
        )
    }

    // Draws the next row, of this event, with its text. These are the partitions after it.
    fn draw(
        &mut self,
        tree: &Partitions<Global>,
        by: Caller,
        what: &Action<Global>,
        reply: &Reply,
        effect: &Effect,
    ) -> Result<Shapes, AllocError> {
        let way = way_of(tree, by, what, reply);
        let from = self.lanes.take(by)?;
        let to = match way {
            Some(way) => self.lanes.take(way.to)?,
            None => from,
        };
        let place = Place::new(self.layout.place(self.phases.past())?, from, to);
        self.text.clear();
        match way {
            Some(way) => {
                push_arrow(&mut self.text, way, effect);
                Ok(Shapes::new(place, Mark::Arrow, arrow_label(place)))
            }
            None => {
                let mark = push_note(&mut self.text, by, what, reply, effect);
                Ok(Shapes::new(place, mark, note_label(place)))
            }
        }
    }
}

// Writes the row of an event, with these words about it and these shapes, which have this text.
fn put_row<W: Write>(
    out: &mut W,
    number: u64,
    by: Caller,
    reply: &Reply,
    effect: &Effect,
    words: &Words,
    shapes: Shapes,
    text: &Words,
) -> io::Result<()>
    ensures row { OnOk result (Appends (W.contents out.old) (W.contents out.new)
        (row_text number by reply.now effect.now words.now shapes text.now)) }
    ensures words { IsQuotable words.now }
    ensures text { IsQuotable text.now }
{
    let (words, text) = (words.as_slice(), text.as_slice());
    put_opening(out, number, by)?;
    put_class(out, reply)?;
    put_reach(out, effect)?;
    out.write_all(b"\"><title>")?;
    out.write_all(words)?;
    out.write_all(b"</title>")?;
    put_shapes(out, number, shapes, text)?;
    out.write_all(b"</g>\n")
}

// Writes the beginning of a row, up to its class.
fn put_opening<W: Write>(out: &mut W, number: u64, by: Caller) -> io::Result<()>
    ensures { OnOk result (Appends (W.contents out.old) (W.contents out.new) (opening_text number by)) }
{
    put_number(out, b"<g id=\"e", number)?;
    put_number(out, b"\" data-vp=\"", by.part)?;
    put_number(out, b".", u64::from(by.vp))?;
    out.write_all(b"\" class=\"")
}

// Writes the class of a row: whether the event was served, or refused by which rule.
fn put_class<W: Write>(out: &mut W, reply: &Reply) -> io::Result<()>
    ensures { OnOk result (Appends (W.contents out.old) (W.contents out.new) (class_text reply.now)) }
{
    match reply {
        Reply::Served(_) | Reply::More { .. } => out.write_all(b"served"),
        Reply::Denied { rule, .. } | Reply::Fault { rule } => {
            out.write_all(b"refused ")?;
            out.write_all(rule.name().as_bytes())
        }
    }
}

// Writes at which processor a row's event changed something, and whether one more message waits there.
fn put_reach<W: Write>(out: &mut W, effect: &Effect) -> io::Result<()>
    ensures { OnOk result (Appends (W.contents out.old) (W.contents out.new) (reach_text effect.now)) }
{
    match effect {
        Effect::Synic(synic) => {
            put_waits(out, synic.waiting)?;
            put_number(out, b"\" data-at=\"", synic.part)?;
            put_number(out, b".", u64::from(synic.vp))
        }
        Effect::Nothing
        | Effect::Page { .. }
        | Effect::Pages { .. }
        | Effect::Processor { .. }
        | Effect::Partition { .. } => Ok(()),
    }
}

// Writes a class more if one more message waits.
fn put_waits<W: Write>(out: &mut W, waiting: Option<u8>) -> io::Result<()>
    ensures { OnOk result (Appends (W.contents out.old) (W.contents out.new) (waits_text waiting)) }
{
    match waiting {
        Some(_) => out.write_all(b" waits"),
        None => Ok(()),
    }
}
