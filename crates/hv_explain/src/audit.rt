// The policy's lines of an audit.
ghost use Rattle.std.specs.Prelude.{◌≡◌, ◌<◌, ◌∷◌, ◌++◌, [], IfSome, IsTrue, List, codes, length, true};
ghost use Rattle.std.specs.declared.alloc.Global.{Global as GlobalValue};
ghost use Rattle.hv_check.specs.Legal.{IsEnd, end_text};
ghost use Rattle.hv_history.specs.declared.entry.Entry.{Entry};
ghost use Rattle.hv_text.specs.Audit.{entry_text};

use hv_history::Kept;
use hv_text::{LINE, Scratch, audit_line};
use itoa::Buffer;
use std::alloc::Global;

/// Returns the text after the policy's line of the last event of a history, if the text begins with that
/// line.
pub fn behind_last<'a>(kept: &Kept<Global>, text: &'a [u8]) -> Option<&'a [u8]>
    requires { 0 < length kept.now.history }
    ensures { IfSome result (λ rest. (before : List (Entry GlobalValue)) (last : Entry GlobalValue)
        → kept.now.history ≡ before ++ last ∷ [] → text.now
        ≡ entry_text (length kept.now.history) last ++ (codes "\n" ++ rest.now)) }
{
    let history = kept.history();
    let count = history.len();
    let entry = history.entry(count - 1);
    let mut scratch = Scratch::new();
    let mut line = [0; LINE];
    let len = audit_line::<Global>(&mut scratch, &mut line, count as u64, &entry);
    behind(text, &line[..len])
}

/// Returns whether an audit may end with this text after this number of events.
///
/// That is with nothing, or with the line that counts the events.
pub fn is_end(text: &[u8], events: u64) -> bool
    ensures { IsTrue result → IsEnd true events text.now }
{
    text.is_empty() || is_last(text, events)
}

// Returns whether a text is the last line of an audit with this number of events.
fn is_last(text: &[u8], events: u64) -> bool
    ensures { IsTrue result → text.now ≡ end_text events }
{
    let mut buffer = Buffer::new();
    let Some(count) = behind(text, b"events ") else {
        return false;
    };
    match behind(count, buffer.format(events).as_bytes()) {
        Some(feed) => feed == b"\n".as_slice(),
        None => false,
    }
}

// Returns the text after these bytes, if the text begins with them.
fn behind<'a>(text: &'a [u8], bytes: &[u8]) -> Option<&'a [u8]>
    ensures { IfSome result (λ rest. text.now ≡ bytes.now ++ rest.now) }
{
    if bytes.len() > text.len() {
        return None;
    }
    let (front, rest) = text.split_at(bytes.len());
    if front == bytes { Some(rest) } else { None }
}
