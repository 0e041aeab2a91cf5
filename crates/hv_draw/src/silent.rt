// A teller that writes nothing.
use hv_admit::Effect;
use hv_explain::Teller;
use hv_history::Kept;
use hv_policy::{Action, Caller, Reply};
use std::alloc::Global;
use std::io;
use std::io::Write;

/// Writes nothing about an event.
#[derive(Drop)]
pub(crate) struct Silent {}

impl Teller for Silent {
    ghost use Rattle.hv_draw.specs.Drawn.{nothing};

    ghost tells = { nothing };

    fn tell<W: Write>(
        &mut self,
        _kept: &Kept<Global>,
        _number: u64,
        _by: Caller,
        _what: &Action<Global>,
        _reply: &Reply,
        _effect: &Effect,
        _out: &mut W,
    ) -> io::Result<()> {
        Ok(())
    }
}
