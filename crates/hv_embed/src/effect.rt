// The effect of an event, as C reads it.
ghost use Rattle.std.specs.Prelude.{◌≡◌, ◌<◌, ℕ};
ghost use Rattle.hv_defs.specs.declared.sizes.TheConstants.{SINTS as MOST_SINTS};
ghost use Rattle.hv_admit.specs.Effect.{has_bit, is_number};
ghost use Rattle.hv_embed.specs.Effect.{IsFlag, IsShown, IsSynicShown, is_quiet_kind};

use crate::layout::{
    EFFECT_NOTHING, EFFECT_PAGE, EFFECT_PAGES, EFFECT_PARTITION, EFFECT_PROCESSOR, EFFECT_SYNIC,
    FLAG_CLEARED, FLAG_SET, HvEffect,
};
use hv_admit::{Effect, FlagChange, Synic};
use hv_defs::SINTS;

// Writes an effect for C. Only the fields that its kind has are written.
pub(crate) fn show(effect: Effect, told: &mut HvEffect)
    ensures { IsShown effect told.new }
{
    match effect {
        Effect::Nothing => told.kind = EFFECT_NOTHING,
        Effect::Synic(synic) => show_synic(&synic, told),
        Effect::Page {
            page,
            owner,
            pooled,
        } => {
            told.kind = EFFECT_PAGE;
            told.page = page;
            told.part = owner;
            told.pooled = u8::from(pooled);
        }
        Effect::Pages { from, to } => {
            told.kind = EFFECT_PAGES;
            told.page = from;
            told.part = to;
        }
        Effect::Processor { part, vp } => {
            told.kind = EFFECT_PROCESSOR;
            told.part = part;
            told.vp = vp;
        }
        Effect::Partition { part } => {
            told.kind = EFFECT_PARTITION;
            told.part = part;
        }
    }
}

// Writes the effect at one processor for C.
fn show_synic(synic: &Synic, told: &mut HvEffect)
    ensures { IsSynicShown synic.now told.new }
{
    let (flag, flag_sint, flag_is) = flag_parts(synic.flag);
    told.kind = EFFECT_SYNIC;
    told.part = synic.part;
    told.vp = synic.vp;
    told.raised = synic.raised.words();
    told.shown = synic.shown;
    told.waiting = waiting_bits(synic.waiting);
    told.flag = flag;
    told.flag_sint = flag_sint;
    told.flag_is = flag_is;
    told.port = synic.freed.unwrap_or(0);
    told.freed = u8::from(synic.freed.is_some());
}

// Returns the event flag that changed, its SINT, and how it changed.
fn flag_parts(flag: Option<FlagChange>) -> (u16, u8, u8)
    ensures { IsFlag flag result.0 result.1 result.2 }
{
    match flag {
        None => (0, 0, 0),
        Some(change) if change.is_set => (change.flag, change.sint, FLAG_SET),
        Some(change) => (change.flag, change.sint, FLAG_CLEARED),
    }
}

// Returns the SINT at which one more message waits, as a bit.
#[tactic(auto, using(hv_admit::proofs::ProcessorChange::mask_bit))]
fn waiting_bits(waiting: Option<u8>) -> u16
    ensures { (k : ℕ) → k < MOST_SINTS → has_bit result k ≡ is_number waiting k }
{
    match waiting {
        Some(sint) if u32::from(sint) < SINTS => 1 << sint,
        _ => 0,
    }
}

// Returns whether an effect names at most a page.
pub(crate) fn is_quiet(told: &HvEffect) -> bool
    ensures { result ≡ is_quiet_kind told.now.kind }
{
    told.kind == EFFECT_NOTHING || told.kind == EFFECT_PAGE
}
