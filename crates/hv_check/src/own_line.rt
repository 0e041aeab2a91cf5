// The policy's line of an event.
ghost use Rattle.std.specs.Prelude.{◌≡◌, ◌<◌, ◌∷◌, ◌++◌, List, [], codes, length};
ghost use Rattle.std.specs.declared.alloc.Global.{Global as GlobalValue};
ghost use Rattle.hv_history.specs.declared.entry.Entry.{Entry};
ghost use Rattle.hv_text.specs.Audit.{entry_text};

use hv_history::Kept;
use hv_text::{LINE, Scratch, audit_line};
use std::alloc::Global;
use std::marker::Model;

/// The policy's line of an event, with its line feed.
#[derive(Drop)]
pub struct OwnLine {
    scratch: Scratch,
    bytes: [u8; LINE],
    len: usize,
}

impl Model for OwnLine {
    ghost use Rattle.std.specs.Prelude.{◌≤◌, List, ℕ, take};
    ghost use Rattle.hv_text.specs.declared.text.TheConstants.{LINE};

    ghost Value = { List ℕ };

    ghost view = { λ l. take l.len l.bytes };

    ghost invariant = { λ l. l.len ≤ LINE };
}

impl OwnLine {
    /// Returns an empty line.
    pub fn new() -> OwnLine
        ensures { result ≡ [] }
    {
        OwnLine {
            scratch: Scratch::new(),
            bytes: [0; LINE],
            len: 0,
        }
    }

    /// Returns the bytes of the line.
    pub fn as_slice(&self) -> &[u8]
        ensures { result.now ≡ self.now }
    {
        &self.bytes[..self.len]
    }

    /// Writes the line of the last event of a history.
    pub(crate) fn put_last(&mut self, kept: &Kept<Global>)
        requires { 0 < length kept.now.history }
        ensures { (before : List (Entry GlobalValue)) (last : Entry GlobalValue) → kept.now.history ≡ before
            ++ last ∷ []
            → self.new ≡ entry_text (length kept.now.history) last ++ codes "\n" }
    {
        let history = kept.history();
        let count = history.len();
        let entry = history.entry(count - 1);
        self.len = audit_line::<Global>(&mut self.scratch, &mut self.bytes, count as u64, &entry);
    }
}
