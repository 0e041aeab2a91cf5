// The text of a row with an arrow: a message or a signal that was accepted.

use crate::notes::push_raised;
use crate::shapes::{Class, Label, Place};
use crate::ways::Way;
use hv_admit::{Effect, Synic};
use hv_words::Words;

// The distance of a text from its lane, and from an arrow whose ends are on one lane.
const GAP: u64 = 8;

const LOOP: u64 = 32;

/// Adds the text of a message or a signal: its port and its SINT, and for a signal its flag.
pub(crate) fn push_arrow(words: &mut Words, way: Way, effect: &Effect) {
    match way.flag {
        Some(flag) => words.decimal("flag ", flag),
        None => words.text("message"),
    }
    words.decimal(", port ", u64::from(way.port));
    words.decimal(", SINT ", u64::from(way.sint));
    match effect {
        Effect::Synic(synic) => push_arrival(words, synic),
        Effect::Nothing
        | Effect::Page { .. }
        | Effect::Pages { .. }
        | Effect::Processor { .. }
        | Effect::Partition { .. } => words.text(", already set"),
    }
}

/// Returns where an arrow's text is: above it, beside the lane where it begins.
pub(crate) fn arrow_label(place: Place) -> Label {
    let above = place.y.saturating_sub(5);
    if place.to < place.from {
        Label {
            class: Class::Left,
            x: place.from.saturating_sub(GAP),
            y: above,
        }
    } else if place.to > place.from {
        Label {
            class: Class::Right,
            x: place.from.saturating_add(GAP),
            y: above,
        }
    } else {
        Label {
            class: Class::Right,
            x: place.from.saturating_add(LOOP),
            y: place.y.saturating_add(8),
        }
    }
}

// Adds whether a message waits, and the vector that was raised.
fn push_arrival(words: &mut Words, synic: &Synic) {
    if synic.waiting.is_some() {
        words.text(", waits");
    }
    push_raised(words, ", raises ", synic);
}
