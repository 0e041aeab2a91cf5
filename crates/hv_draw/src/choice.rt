// Which events a sequence chart shows.
ghost use Rattle.std.specs.Prelude.{◌≡◌};
ghost use Rattle.hv_draw.specs.Choice.{concerns, is_at, is_chosen, reaches};
ghost use Rattle.hv_draw.specs.declared.choice.Choice.{Choice as ChoiceValue};

use hv_admit::Effect;
use hv_policy::Caller;
use hv_script::processor;
use std::marker::Brand;

/// Which events a sequence chart shows, of those that have a row.
#[derive(Clone, Copy, Debug)]
pub struct Choice {
    /// The number of the first event.
    pub from: u64,
    /// The number of the last event.
    pub to: u64,
    /// Whose events, if not all.
    pub only: Option<Only>,
}

/// A partition, or one of its processors.
#[derive(Clone, Copy, Debug)]
pub struct Only {
    pub part: u64,
    pub vp: Option<u32>,
}

impl Only {
    /// Reads a partition's id, or a processor `ID.VP`. The numbers are decimal.
    pub fn read(word: &str) -> Option<Only> {
        match processor(word.as_bytes()) {
            Ok(by) => Some(Only {
                part: by.part,
                vp: Some(by.vp),
            }),
            Err(_) => match word.parse::<u64>() {
                Ok(part) if !word.starts_with('+') => Some(Only { part, vp: None }),
                Ok(_) | Err(_) => None,
            },
        }
    }
}

/// The choice of a chart, which is known at run time.
pub(crate) trait Chooses {
    ghost choice: { ChoiceValue };
}

impl Chooses for Brand {
    ghost use Rattle.std.specs.Prelude.{None};

    ghost choice = { record { from = 0; to = 0; only = None } };
}

/// Returns whether a chart shows the event with this number, by this processor, with this effect.
pub(crate) fn is_chosen(choice: Choice, number: u64, by: Caller, effect: &Effect) -> bool
    ensures { result ≡ is_chosen choice number by effect.now }
{
    choice.from <= number && number <= choice.to && concerns(choice.only, by, effect)
}

// Returns whether an event is the chosen processor's, or changed something there.
fn concerns(only: Option<Only>, by: Caller, effect: &Effect) -> bool
    ensures { result ≡ concerns only by effect.now }
{
    match only {
        Some(only) => is_at(only, by.part, by.vp) || reaches(only, effect),
        None => true,
    }
}

// Returns whether this is the chosen processor, or one of the chosen partition.
fn is_at(only: Only, part: u64, vp: u32) -> bool
    ensures { result ≡ is_at only part vp }
{
    match only.vp {
        Some(own) => only.part == part && own == vp,
        None => only.part == part,
    }
}

// Returns whether an effect is at the chosen processor, or at one of the chosen partition.
fn reaches(only: Only, effect: &Effect) -> bool
    ensures { result ≡ reaches only effect.now }
{
    match effect {
        Effect::Synic(synic) => is_at(only, synic.part, synic.vp),
        Effect::Processor { part, vp } => is_at(only, *part, *vp),
        Effect::Partition { part } => only.part == *part,
        Effect::Pages { from, .. } => only.part == *from,
        Effect::Nothing | Effect::Page { .. } => false,
    }
}
