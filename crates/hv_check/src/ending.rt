// Checking the end of an audit.
ghost use Rattle.std.specs.Prelude.{◌≡◌, ◌++◌, ℕ, List, IfNone, IfSome};
ghost use Rattle.hv_check.specs.From.{IsEnding, IsLastLine};
ghost use Rattle.hv_check.specs.Legal.{end_text};
ghost use Rattle.hv_phases.specs.Schedule.{IsBegun};

use crate::compare::behind;
use crate::verdict::Wrong;
use hv_phases::Schedule;
use itoa::Buffer;

/// Whether the end of an audit is legal.
#[derive(Clone, Copy)]
pub enum Ending {
    Good,
    Bad(Wrong),
}

/// Checks whether an audit may end with this text after this number of events.
pub fn end_of(schedule: &Schedule, text: &[u8], events: u64, prefix: bool) -> Ending
    requires { IsBegun schedule.now }
    ensures { IsEnding prefix schedule.now events text.now result }
{
    if prefix {
        return if text.is_empty() {
            Ending::Good
        } else {
            last_line(text, events)
        };
    }
    match schedule.waiting() {
        Some(by) => Ending::Bad(Wrong::Early { by, events }),
        None => last_line(text, events),
    }
}

// Checks whether a text is the last line of an audit with this number of events.
fn last_line(text: &[u8], events: u64) -> Ending
    ensures { IsLastLine events text.now result }
{
    match behind_end(text, events) {
        Some(rest) if rest.is_empty() => Ending::Good,
        Some(_) => Ending::Bad(Wrong::Behind { events }),
        None => Ending::Bad(Wrong::Count { events }),
    }
}

/// Returns whether a text is the last line of an audit with this number of events.
pub fn is_last_line(text: &[u8], events: u64) -> bool {
    matches!(behind_end(text, events), Some([]))
}

// Returns the text after the last line of an audit, if the text begins with that line.
fn behind_end(text: &[u8], events: u64) -> Option<&[u8]>
    ensures some { IfSome result (λ rest. text.now ≡ end_text events ++ rest.now) }
    ensures none { IfNone result ((rest : List ℕ) → text.now ≡ end_text events ++ rest → ⊥) }
{
    let mut buffer = Buffer::new();
    let count = behind(text, b"events ")?;
    let feed = behind(count, buffer.format(events).as_bytes())?;
    behind(feed, b"\n")
}
