// The JSON text of an effect.
ghost use Rattle.std.specs.Prelude.{◌≡◌, ◌*◌, ◌/◌, ◌<◌, ◌≤◌, ◌++◌, codes, decimal, length, OnOk};
ghost use Rattle.std.specs.FinSet as set;
ghost use Rattle.std.specs.Io.KnownBytes.{Appends};
ghost use Rattle.hv_admit.specs.Effect.{has_bit as is_shown};
ghost use Rattle.hv_mail.specs.Words.{has_bit};
ghost use Rattle.hv_trace.specs.Effect.{array_text, change_text, effect_text, flag_text, gained_text, joined};
ghost use Rattle.hv_trace.specs.Effect.{lost_text, picked, synic_text};

use crate::put::{put_bool, put_maybe, put_number, put_processor};
use hv_admit::{Effect, FlagChange, Synic};
use hv_mail::Pending;
use std::io;
use std::io::Write;

/// Writes an effect.
#[tactic(auto, unfolding(crate::specs::Effect::effect_text))]
pub(crate) fn put_effect<W: Write>(out: &mut W, effect: &Effect) -> io::Result<()>
    ensures { OnOk result (Appends (W.contents out.old) (W.contents out.new) (effect_text effect.now)) }
{
    match effect {
        Effect::Nothing => out.write_all(b"{\"kind\":\"nothing\"}"),
        Effect::Synic(synic) => put_synic(out, synic),
        Effect::Page {
            page,
            owner,
            pooled,
        } => {
            put_number(out, b"{\"kind\":\"page\",\"page\":", *page)?;
            put_number(out, b",\"owner\":", *owner)?;
            put_bool(out, b",\"pooled\":", *pooled)?;
            out.write_all(b"}")
        }
        Effect::Pages { from, to } => {
            put_number(out, b"{\"kind\":\"pages\",\"from\":", *from)?;
            put_number(out, b",\"to\":", *to)?;
            out.write_all(b"}")
        }
        Effect::Processor { part, vp } => {
            put_processor(out, b"{\"kind\":\"processor\",\"vp\":", *part, *vp)?;
            out.write_all(b"}")
        }
        Effect::Partition { part } => {
            put_number(out, b"{\"kind\":\"partition\",\"partition\":", *part)?;
            out.write_all(b"}")
        }
    }
}

// Writes what changed at one processor.
fn put_synic<W: Write>(out: &mut W, synic: &Synic) -> io::Result<()>
    ensures { OnOk result (Appends (W.contents out.old) (W.contents out.new) (synic_text synic.now)) }
{
    put_processor(out, b"{\"kind\":\"synic\",\"vp\":", synic.part, synic.vp)?;
    put_gained(out, synic)?;
    put_lost(out, synic)
}

// Writes what a processor got: messages, an event flag and vectors. A flag may have been cleared instead.
#[tactic(auto, unfolding(crate::specs::Effect::gained_text))]
fn put_gained<W: Write>(out: &mut W, synic: &Synic) -> io::Result<()>
    ensures { OnOk result (Appends (W.contents out.old) (W.contents out.new) (gained_text synic.now)) }
{
    put_shown(out, synic.shown)?;
    put_maybe(out, b",\"waiting\":", widened(synic.waiting))?;
    put_flag(out, b",\"flag\":", synic.flag)?;
    put_raised(out, &synic.raised)
}

// Writes what a processor took, and what that freed.
#[tactic(auto, unfolding(crate::specs::Effect::lost_text))]
fn put_lost<W: Write>(out: &mut W, synic: &Synic) -> io::Result<()>
    ensures { OnOk result (Appends (W.contents out.old) (W.contents out.new) (lost_text synic.now)) }
{
    put_maybe(out, b",\"taken\":", widened(synic.taken))?;
    put_maybe(out, b",\"freed\":", synic.freed)?;
    out.write_all(b"}")
}

// Returns a number that may be missing, with more bits.
fn widened(number: Option<u8>) -> Option<u32>
    ensures { result ≡ number }
{
    match number {
        Some(number) => Some(u32::from(number)),
        None => None,
    }
}

// Writes the SINTs whose slot shows another message, or none.
fn put_shown<W: Write>(out: &mut W, shown: u16) -> io::Result<()>
    ensures { OnOk result (Appends (W.contents out.old) (W.contents out.new)
        (codes ",\"shown\":" ++ array_text (picked (is_shown shown) 16))) }
{
    put_bits(out, b",\"shown\":", &[u64::from(shown)], 16)
}

// Writes the vectors that were raised.
fn put_raised<W: Write>(out: &mut W, raised: &Pending) -> io::Result<()>
    ensures { OnOk result (Appends (W.contents out.old) (W.contents out.new)
        (codes ",\"raised\":" ++ array_text (picked (set.contains raised.now) 256))) }
{
    let words = raised.words();
    put_bits(out, b",\"raised\":", &words, 256)
}

// Writes a mark and the event flag that changed, or null.
fn put_flag<W: Write>(out: &mut W, mark: &[u8], flag: Option<FlagChange>) -> io::Result<()>
    ensures { OnOk result (Appends (W.contents out.old) (W.contents out.new) (mark.now ++ flag_text flag)) }
{
    out.write_all(mark)?;
    match flag {
        Some(change) => put_change(out, change),
        None => out.write_all(b"null"),
    }
}

// Writes an event flag that changed.
fn put_change<W: Write>(out: &mut W, change: FlagChange) -> io::Result<()>
    ensures { OnOk result (Appends (W.contents out.old) (W.contents out.new) (change_text change)) }
{
    put_number(out, b"{\"sint\":", u64::from(change.sint))?;
    put_number(out, b",\"flag\":", u64::from(change.flag))?;
    put_bool(out, b",\"set\":", change.is_set)?;
    out.write_all(b"}")
}

// Writes a mark and the numbers of the bits of words that are 1, below an end.
#[tactic(auto, unfolding(crate::specs::Effect::array_text))]
fn put_bits<W: Write>(out: &mut W, mark: &[u8], words: &[u64], end: usize) -> io::Result<()>
    requires { end ≤ 64 * length words.now }
    ensures { OnOk result (Appends (W.contents out.old) (W.contents out.new)
        (mark.now ++ array_text (picked (has_bit words.now) end))) }
{
    out.write_all(mark)?;
    out.write_all(b"[")?;
    put_items(out, words, end)?;
    out.write_all(b"]")
}

// Writes the numbers of the bits of words that are 1, below an end, with commas between.
fn put_items<W: Write>(out: &mut W, words: &[u64], end: usize) -> io::Result<()>
    requires { end ≤ 64 * length words.now }
    ensures { OnOk result (Appends (W.contents out.old) (W.contents out.new)
        (joined (picked (has_bit words.now) end))) }
{
    let mut comma: &[u8] = b"";
    for at in 0..end {
        if !is_bit_set(words, at) {
            continue;
        }
        put_number(out, comma, at as u64)?;
        comma = b",";
    }
    Ok(())
}

// Returns whether the bit is 1.
#[tactic(auto, using(hv_mail::proofs::WordBits::clear_tested))]
fn is_bit_set(words: &[u64], at: usize) -> bool
    requires { at / 64 < length words.now }
    ensures { result ≡ has_bit words.now at }
{
    words[at / 64] & 1u64 << (at % 64) != 0
}
