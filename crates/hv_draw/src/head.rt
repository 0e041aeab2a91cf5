// The head of a sequence chart: its size, its style and its lanes.
ghost use Rattle.std.specs.Prelude.{◌≡◌, ◌++◌, codes, IfOk, OnOk};
ghost use Rattle.hv_draw.specs.Head.{HasOne, HasSome, IsEnd, IsHead, IsLane, IsName, end_text, ground_text};
ghost use Rattle.hv_draw.specs.Head.{index_text, line_text, marked, name_text, partition_text, size_text};
ghost use Rattle.hv_draw.specs.Head.{style_text, text_at};

use crate::layout::Layout;
use crate::shapes::x_of;
use crate::text::{push, push_number};
use hv_policy::Caller;
use std::alloc::{AllocError, Global};

// The width behind the last lane, for the texts beside it, and the height below the last row.
const RIGHT: u64 = 160;

const BELOW: u64 = 40;

// The style of each class of shapes. A text has a white edge, so that it can be read across a lane.
const STYLE: &[u8] = b"\
<style>\
text{font:11px Helvetica,Arial,sans-serif;fill:#222;stroke:#fff;stroke-width:3px;paint-order:stroke}\
.vp{font-size:14px;font-weight:bold}\
.vp,.of,.left,.number{text-anchor:middle}\
.left,.number{text-anchor:end}\
.of,.number{fill:#777}\
.lane{stroke:#bbb}\
.guide{stroke:#eee}\
.arrow{stroke:#05a;fill:none;marker-end:url(#head)}\
.waits .arrow{stroke-dasharray:6 4}\
.cross{stroke:#c00;stroke-width:2;fill:none}\
.refused text{fill:#c00}\
</style>\n";

// The white ground, and the head of an arrow.
const GROUND: &[u8] = b"\
<rect width=\"100%\" height=\"100%\" fill=\"#fff\"/>\
<marker id=\"head\" viewBox=\"0 0 8 8\" refX=\"8\" refY=\"4\" markerWidth=\"8\" markerHeight=\"8\" \
orient=\"auto\"><path d=\"M0 0 8 4 0 8z\" fill=\"#05a\"/></marker>\n";

/// Returns the head of a chart with these lanes and this layout.
pub(crate) fn head(
    alloc: Global,
    lanes: &[(u64, u32)],
    layout: &Layout,
) -> Result<Vec<u8>, AllocError>
    ensures { IfOk result (λ text. IsHead text.items) }
{
    let mut text = Vec::new(alloc);
    let end = layout.end();
    let right = x_of(lanes.len() as u64);
    push_size(
        &mut text,
        right.saturating_add(RIGHT),
        end.saturating_add(BELOW),
    )?;
    push(&mut text, STYLE)?;
    push(&mut text, GROUND)?;
    push_lanes(&mut text, lanes, end, layout.names())?;
    push_ends(&mut text, layout.ends(), right)?;
    Ok(text)
}

// Adds the beginning of a chart of this size.
#[tactic(auto, unfolding(crate::specs::Head::size_text))]
fn push_size(text: &mut Vec<u8>, width: u64, height: u64) -> Result<(), AllocError>
    ensures { OnOk result (text.new.items ≡ text.old.items ++ size_text width height) }
{
    push_marked(
        text,
        b"<svg xmlns=\"http://www.w3.org/2000/svg\" width=\"",
        width,
    )?;
    push_marked(text, b"\" height=\"", height)?;
    push(text, b"\">\n")
}

// Adds lanes, which end at this y, with their names at these heights.
fn push_lanes(
    text: &mut Vec<u8>,
    lanes: &[(u64, u32)],
    end: u64,
    names: &[u64],
) -> Result<(), AllocError>
    ensures { OnOk result (HasSome IsLane text.old.items text.new.items) }
{
    for at in 0..lanes.len() {
        let (part, vp) = lanes[at];
        push_lane(text, x_of(at as u64), Caller { part, vp }, end, names)?;
    }
    Ok(())
}

// Adds a lane at this x, with its name above and below it, and at these heights. It ends at this y.
fn push_lane(
    text: &mut Vec<u8>,
    x: u64,
    vp: Caller,
    end: u64,
    names: &[u64],
) -> Result<(), AllocError>
    ensures { OnOk result (HasOne IsLane text.old.items text.new.items) }
{
    push_line(text, x, end)?;
    push_name(text, vp, x, 36, 50)?;
    push_name(text, vp, x, end.saturating_add(16), end.saturating_add(30))?;
    push_names(text, vp, x, names)?;
    push(text, b"\n")
}

// Adds the name of a processor at this x and these heights.
fn push_names(text: &mut Vec<u8>, vp: Caller, x: u64, names: &[u64]) -> Result<(), AllocError>
    ensures { OnOk result (HasSome (IsName vp x) text.old.items text.new.items) }
{
    for at in 0..names.len() {
        let y = names[at];
        push_name(text, vp, x, y.saturating_add(2), y.saturating_add(16))?;
    }
    Ok(())
}

// Adds the ends of phases, each at its height up to this x.
fn push_ends(text: &mut Vec<u8>, ends: &[(u64, u64)], right: u64) -> Result<(), AllocError>
    ensures { OnOk result (HasSome IsEnd text.old.items text.new.items) }
{
    for at in 0..ends.len() {
        let (y, phase) = ends[at];
        push_end(text, y, right, phase)?;
    }
    Ok(())
}

// Adds the end of a phase at this y: a dashed line up to this x, and a text above it.
fn push_end(text: &mut Vec<u8>, y: u64, right: u64, phase: u64) -> Result<(), AllocError>
    ensures { OnOk result (HasOne IsEnd text.old.items text.new.items) }
{
    push_end_at(text, y, right, y.saturating_sub(4), phase)
}

// Adds the end of a phase at this y, whose text has its foot there.
#[tactic(auto, unfolding(crate::specs::Head::end_text))]
fn push_end_at(
    text: &mut Vec<u8>,
    y: u64,
    right: u64,
    foot: u64,
    phase: u64,
) -> Result<(), AllocError>
    ensures { OnOk result (text.new.items ≡ text.old.items ++ end_text y right foot phase) }
{
    push_marked(
        text,
        b"<path class=\"lane\" stroke-dasharray=\"2 4\" d=\"M44 ",
        y,
    )?;
    push_marked(text, b"H", right)?;
    push_marked(text, b"\"/><text x=\"48\" y=\"", foot)?;
    push_marked(text, b"\">phase ", phase)?;
    push(text, b" ends</text>\n")
}

// Adds the line of a lane.
#[tactic(auto, unfolding(crate::specs::Head::line_text))]
fn push_line(text: &mut Vec<u8>, x: u64, end: u64) -> Result<(), AllocError>
    ensures { OnOk result (text.new.items ≡ text.old.items ++ line_text x end) }
{
    push_marked(text, b"<path class=\"lane\" d=\"M", x)?;
    push_marked(text, b" 58V", end)?;
    push(text, b"\"/>")
}

// Adds the name of a processor with its foot at this x and y, and below it that of its partition.
#[tactic(auto, unfolding(crate::specs::Head::name_text))]
fn push_name(text: &mut Vec<u8>, vp: Caller, x: u64, y: u64, foot: u64) -> Result<(), AllocError>
    ensures { OnOk result (text.new.items ≡ text.old.items ++ name_text vp x y foot) }
{
    push_text(text, b"<text class=\"vp\" x=\"", x, y)?;
    push_index(text, vp)?;
    push_text(text, b"<text class=\"of\" x=\"", x, foot)?;
    push_partition(text, vp.part)
}

// Adds the name of a processor, and the end of its text.
#[tactic(auto, unfolding(crate::specs::Head::index_text))]
fn push_index(text: &mut Vec<u8>, vp: Caller) -> Result<(), AllocError>
    ensures { OnOk result (text.new.items ≡ text.old.items ++ index_text vp) }
{
    push_number(text, vp.part)?;
    push(text, b".")?;
    push_number(text, u64::from(vp.vp))?;
    push(text, b"</text>")
}

// Adds the name of a partition, and the end of its text.
#[tactic(auto, unfolding(crate::specs::Head::partition_text))]
fn push_partition(text: &mut Vec<u8>, part: u64) -> Result<(), AllocError>
    ensures { OnOk result (text.new.items ≡ text.old.items ++ partition_text part) }
{
    push(text, b"partition ")?;
    push_number(text, part)?;
    push(text, b"</text>")
}

// Adds the beginning of a text at this x and y.
#[tactic(auto, unfolding(crate::specs::Head::text_at))]
fn push_text(text: &mut Vec<u8>, mark: &[u8], x: u64, y: u64) -> Result<(), AllocError>
    ensures { OnOk result (text.new.items ≡ text.old.items ++ text_at mark.now x y) }
{
    push_marked(text, mark, x)?;
    push_marked(text, b"\" y=\"", y)?;
    push(text, b"\">")
}

// Adds a mark and a number.
fn push_marked(text: &mut Vec<u8>, mark: &[u8], number: u64) -> Result<(), AllocError>
    ensures { OnOk result (text.new.items ≡ text.old.items ++ marked mark.now number) }
{
    push(text, mark)?;
    push_number(text, number)
}
