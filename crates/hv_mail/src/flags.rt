// The event flags of a processor's SINTs.
ghost use Rattle.std.specs.Prelude.{◌≡◌, ◌+◌, ◌*◌, ◌<◌, not};
ghost use Rattle.std.specs.FinSet as set;
ghost use Rattle.hv_defs.specs.Flags.{flag_bytes};
ghost use Rattle.hv_defs.specs.declared.sizes.TheConstants.{EVENT_FLAGS, SINTS};

use crate::words::{clear_bit, copy_words, is_bit_set, set_bit};
use hv_defs::EVENT_FLAGS;
use std::marker::Model;

// The number of words of a SINT's flags.
const FLAG_WORDS: usize = EVENT_FLAGS as usize / 64;

/// The event flags at the 16 SINTs of a virtual processor, 2,048 at each (TLFS 4.0, "Event Flags").
///
/// They take 4 KB in place.
#[derive(Drop)]
pub struct Flags {
    // Flag f of SINT s is bit 2,048 s + f, and bit k is bit k % 64 of word k / 64.
    words: [u64; 512],
}

impl Model for Flags {
    ghost use Rattle.hv_defs.specs.Flags.{FlagSet, flags_code};
    ghost use Rattle.hv_mail.specs.Flags.{flags_of};

    ghost Value = { FlagSet };

    ghost coded = { flags_code };

    ghost view = { λ f. flags_of f.words };
}

impl Flags {
    /// Creates the flags with none set.
    pub fn new() -> Flags
        ensures { result ≡ set.empty }
    {
        Flags { words: [0; 512] }
    }

    /// Sets a flag below 2,048 of a SINT below 16. Returns `true` if it was clear.
    pub fn set(&mut self, sint: u8, flag: u16) -> bool
        requires sint { sint < SINTS }
        requires flag { flag < EVENT_FLAGS }
        ensures was_clear { result ≡ not (set.contains self.old (sint, flag)) }
        ensures flags { self.new ≡ set.insert self.old (sint, flag) }
    {
        let at = place(sint, flag);
        set_bit(&mut self.words, at)
    }

    /// Clears a flag below 2,048 of a SINT below 16.
    pub fn clear(&mut self, sint: u8, flag: u16)
        requires sint { sint < SINTS }
        requires flag { flag < EVENT_FLAGS }
        ensures { self.new ≡ set.remove self.old (sint, flag) }
    {
        let at = place(sint, flag);
        clear_bit(&mut self.words, at);
    }

    /// Whether a flag below 2,048 of a SINT below 16 is set.
    pub fn has_flag(&self, sint: u8, flag: u16) -> bool
        requires sint { sint < SINTS }
        requires flag { flag < EVENT_FLAGS }
        ensures { result ≡ set.contains self.now (sint, flag) }
    {
        let at = place(sint, flag);
        is_bit_set(&self.words, at)
    }

    /// The 256 bytes of the flags of a SINT below 16: flag f is bit f % 8 of byte f / 8.
    pub fn read(&self, sint: u8) -> [u8; 256]
        requires { sint < SINTS }
        ensures { result ≡ flag_bytes self.now sint }
    {
        let mut bytes = [0; 256];
        copy_words(&self.words, usize::from(sint) * FLAG_WORDS, &mut bytes);
        bytes
    }
}

// The number of a flag's bit.
fn place(sint: u8, flag: u16) -> usize
    requires sint { sint < SINTS }
    requires flag { flag < EVENT_FLAGS }
    ensures { result ≡ sint * EVENT_FLAGS + flag }
{
    usize::from(sint) * EVENT_FLAGS as usize + usize::from(flag)
}
