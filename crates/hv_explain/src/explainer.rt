// Explanations in words.
ghost use Rattle.std.specs.Prelude.{◌++◌, codes, decimal, OnOk};
ghost use Rattle.std.specs.Io.KnownBytes.{Appends};
ghost use Rattle.hv_words.specs.Words.{IsPlain};
ghost use Rattle.hv_explain.specs.Written.{HasPut, IsExplanation, entry_of, explains, head_text};

use crate::teller::Teller;
use hv_admit::Effect;
use hv_history::Kept;
use hv_policy::{Action, Caller, Reply};
use hv_words::{Words, push_event};
use itoa::Buffer;
use std::alloc::Global;
use std::io;
use std::io::Write;

// Writes a line about each event: its number and its processor as in the audit, and in words what happened.
#[derive(Drop)]
pub(crate) struct Explainer {
    room: Words,
}

impl Explainer {
    // Creates a teller of explanations.
    pub(crate) fn new() -> Explainer {
        Explainer { room: Words::new() }
    }
}

impl Teller for Explainer {
    ghost use Rattle.hv_explain.specs.Written.{explains};

    ghost tells = { explains };

    fn tell<W: Write>(
        &mut self,
        kept: &Kept<Global>,
        number: u64,
        by: Caller,
        what: &Action<Global>,
        reply: &Reply,
        _effect: &Effect,
        out: &mut W,
    ) -> io::Result<()> {
        put_event(&mut self.room, kept, number, by, what, reply, out)
    }
}

// Writes the line of an event. The machine is that after the event. The words are built in `room`.
pub(crate) fn put_event<W: Write>(
    room: &mut Words,
    kept: &Kept<Global>,
    number: u64,
    by: Caller,
    what: &Action<Global>,
    reply: &Reply,
    out: &mut W,
) -> io::Result<()>
    ensures { OnOk result (HasPut (IsExplanation number by) (W.contents out.old) (W.contents out.new)) }
{
    room.clear();
    push_event(room, kept.machine().tree(), by, what, reply);
    put_line(out, number, by, room)
}

// Writes the line of an event: its number, its processor and these words.
fn put_line<W: Write>(out: &mut W, number: u64, by: Caller, words: &Words) -> io::Result<()>
    ensures line { OnOk result (Appends (W.contents out.old) (W.contents out.new)
        (head_text number by ++ words.now ++ codes "\n")) }
    ensures plain { IsPlain words.now }
{
    let text = words.as_slice();
    put_head(out, number, by)?;
    out.write_all(text)?;
    out.write_all(b"\n")
}

// Writes the start of an event's line: its number and its processor.
fn put_head<W: Write>(out: &mut W, number: u64, by: Caller) -> io::Result<()>
    ensures { OnOk result (Appends (W.contents out.old) (W.contents out.new) (head_text number by)) }
{
    put_number(out, number, b" ")?;
    put_number(out, by.part, b".")?;
    put_number(out, u64::from(by.vp), b" ")
}

// Writes a number in decimal, followed by a mark.
fn put_number<W: Write>(out: &mut W, number: u64, mark: &[u8]) -> io::Result<()>
    ensures { OnOk result (Appends (W.contents out.old) (W.contents out.new) (decimal number ++ mark.now)) }
{
    let mut buffer = Buffer::new();
    out.write_all(buffer.format(number).as_bytes())?;
    out.write_all(mark)
}
