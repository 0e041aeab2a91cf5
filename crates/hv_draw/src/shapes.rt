// The shapes of a row: its number, the mark on the lane of its processor, an arrow, a text.
ghost use Rattle.std.specs.Prelude.{◌≡◌, ◌++◌, OnOk};
ghost use Rattle.std.specs.Io.KnownBytes.{Appends};
ghost use Rattle.hv_draw.specs.Shapes.{class_text, cross_text, dot_text, guide_text, label_text, mark_text};
ghost use Rattle.hv_draw.specs.Shapes.{number_text, place_text, shaft_text, shapes_text, tip_text};

use crate::put::{put_number, put_text};
use std::io;
use std::io::Write;

// The x of the first lane, and the distance between lanes.
const FIRST: u64 = 80;

const LANE: u64 = 240;

/// The place of a row: the height of its middle, and the lanes at its ends. Without an arrow they are one.
#[derive(Clone, Copy)]
pub(crate) struct Place {
    pub(crate) y: u64,
    pub(crate) from: u64,
    pub(crate) to: u64,
}

impl Place {
    /// The place of a row at this height, between these lanes, which count from 0.
    pub(crate) fn new(y: u64, from: usize, to: usize) -> Place {
        Place {
            y,
            from: x_of(from as u64),
            to: x_of(to as u64),
        }
    }
}

/// How a row is marked on the lane of its processor.
#[derive(Clone, Copy)]
pub(crate) enum Mark {
    /// A dot, and an arrow from it.
    Arrow,
    Dot,
    Cross,
}

/// The class of a text: a row's number, or a text that ends or begins at its x.
#[derive(Clone, Copy)]
pub(crate) enum Class {
    Number,
    Left,
    Right,
}

/// The class and the place of a text.
#[derive(Clone, Copy)]
pub(crate) struct Label {
    pub(crate) class: Class,
    pub(crate) x: u64,
    pub(crate) y: u64,
}

/// The shapes of a row: where it is, its mark, and where its number and its text are.
#[derive(Clone, Copy)]
pub(crate) struct Shapes {
    pub(crate) place: Place,
    pub(crate) mark: Mark,
    pub(crate) number: Label,
    pub(crate) label: Label,
}

impl Shapes {
    /// The shapes of a row at this place, with this mark and its text there.
    pub(crate) fn new(place: Place, mark: Mark, label: Label) -> Shapes {
        Shapes {
            place,
            mark,
            number: Label {
                class: Class::Number,
                x: 40,
                y: place.y.saturating_add(4),
            },
            label,
        }
    }
}

/// Returns the x of a lane.
pub(crate) fn x_of(lane: u64) -> u64 {
    lane.saturating_mul(LANE).saturating_add(FIRST)
}

/// Writes the shapes of the row of the event with this number, with this text.
#[tactic(auto, unfolding(crate::specs::Shapes::shapes_text))]
pub(crate) fn put_shapes<W: Write>(
    out: &mut W,
    number: u64,
    shapes: Shapes,
    text: &[u8],
) -> io::Result<()>
    ensures { OnOk result (Appends (W.contents out.old) (W.contents out.new)
        (shapes_text number shapes text.now)) }
{
    put_guide(out, shapes.place)?;
    put_event(out, shapes.number, number)?;
    put_mark(out, shapes.place, shapes.mark)?;
    put_label(out, shapes.label, text)
}

// Writes a thin line from the number of a row's event to the lane of its processor.
#[tactic(auto, unfolding(crate::specs::Shapes::guide_text))]
fn put_guide<W: Write>(out: &mut W, place: Place) -> io::Result<()>
    ensures { OnOk result (Appends (W.contents out.old) (W.contents out.new) (guide_text place)) }
{
    put_number(out, b"<path class=\"guide\" d=\"M44 ", place.y)?;
    put_number(out, b"H", place.from)?;
    out.write_all(b"\"/>")
}

// Writes the number of a row's event.
#[tactic(auto, unfolding(crate::specs::Shapes::number_text))]
fn put_event<W: Write>(out: &mut W, label: Label, number: u64) -> io::Result<()>
    ensures { OnOk result (Appends (W.contents out.old) (W.contents out.new) (number_text label number)) }
{
    put_place(out, label)?;
    put_number(out, b"", number)?;
    out.write_all(b"</text>")
}

// Writes the mark of a row.
fn put_mark<W: Write>(out: &mut W, place: Place, mark: Mark) -> io::Result<()>
    ensures { OnOk result (Appends (W.contents out.old) (W.contents out.new) (mark_text place mark)) }
{
    match mark {
        Mark::Arrow => {
            put_shaft(out, place)?;
            put_dot(out, place)
        }
        Mark::Dot => put_dot(out, place),
        Mark::Cross => put_cross(out, place),
    }
}

// Writes an arrow from one lane of a row to the other.
#[tactic(auto, unfolding(crate::specs::Shapes::shaft_text))]
fn put_shaft<W: Write>(out: &mut W, place: Place) -> io::Result<()>
    ensures { OnOk result (Appends (W.contents out.old) (W.contents out.new) (shaft_text place)) }
{
    put_number(out, b"<path class=\"arrow\" d=\"M", place.from)?;
    put_number(out, b" ", place.y)?;
    put_tip(out, place)
}

// Writes the end of an arrow.
#[tactic(auto, unfolding(crate::specs::Shapes::tip_text))]
fn put_tip<W: Write>(out: &mut W, place: Place) -> io::Result<()>
    ensures { OnOk result (Appends (W.contents out.old) (W.contents out.new) (tip_text place)) }
{
    if place.from == place.to {
        out.write_all(b"h24v8h-20\"/>")
    } else {
        put_number(out, b"H", place.to)?;
        out.write_all(b"\"/>")
    }
}

// Writes a dot on the lane of a row's processor.
#[tactic(auto, unfolding(crate::specs::Shapes::dot_text))]
fn put_dot<W: Write>(out: &mut W, place: Place) -> io::Result<()>
    ensures { OnOk result (Appends (W.contents out.old) (W.contents out.new) (dot_text place)) }
{
    put_number(out, b"<circle cx=\"", place.from)?;
    put_number(out, b"\" cy=\"", place.y)?;
    out.write_all(b"\" r=\"3\"/>")
}

// Writes a cross on the lane of a row's processor.
#[tactic(auto, unfolding(crate::specs::Shapes::cross_text))]
fn put_cross<W: Write>(out: &mut W, place: Place) -> io::Result<()>
    ensures { OnOk result (Appends (W.contents out.old) (W.contents out.new) (cross_text place)) }
{
    put_number(
        out,
        b"<path class=\"cross\" d=\"M",
        place.from.saturating_sub(4),
    )?;
    put_number(out, b" ", place.y.saturating_sub(4))?;
    out.write_all(b"l8 8m0-8l-8 8\"/>")
}

// Writes the text of a row.
#[tactic(auto, unfolding(crate::specs::Shapes::label_text))]
fn put_label<W: Write>(out: &mut W, label: Label, text: &[u8]) -> io::Result<()>
    ensures { OnOk result (Appends (W.contents out.old) (W.contents out.new) (label_text label text.now)) }
{
    put_place(out, label)?;
    out.write_all(text)?;
    out.write_all(b"</text>")
}

// Writes the beginning of a text.
#[tactic(auto, unfolding(crate::specs::Shapes::place_text))]
fn put_place<W: Write>(out: &mut W, label: Label) -> io::Result<()>
    ensures { OnOk result (Appends (W.contents out.old) (W.contents out.new) (place_text label)) }
{
    put_text(out, b"<text class=\"", class_of(label.class), b"\"")?;
    put_number(out, b" x=\"", label.x)?;
    put_number(out, b"\" y=\"", label.y)?;
    out.write_all(b"\">")
}

// Returns the name of a class.
fn class_of(class: Class) -> &'static [u8]
    ensures { result.now ≡ class_text class }
{
    match class {
        Class::Number => b"number",
        Class::Left => b"left",
        Class::Right => b"right",
    }
}
