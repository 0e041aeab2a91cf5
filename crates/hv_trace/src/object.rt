// The object of an event.
ghost use Rattle.std.specs.Prelude.{◌++◌, codes, OnOk};
ghost use Rattle.std.specs.Io.KnownBytes.{Appends};
ghost use Rattle.hv_explain.specs.Written.{HasPut, entry_of};
ghost use Rattle.hv_trace.specs.Trace.{event_text, place_text, traces};
ghost use Rattle.hv_trace.specs.Effect.{effect_text};

use crate::answer::put_reply;
use crate::asked::put_asked;
use crate::effect::put_effect;
use crate::fields::push_fields;
use crate::lines::Lines;
use crate::members::Members;
use crate::put::{put_number, put_processor, put_text};
use hv_admit::Effect;
use hv_explain::Teller;
use hv_history::Kept;
use hv_policy::{Action, Answer, Caller, Reply};
use hv_words::{Words, push_reason};
use std::alloc::Global;
use std::io;
use std::io::Write;

/// The room in which the object of an event is built.
#[derive(Drop)]
pub struct Object {
    fields: Members,
    reason: Words,
}

impl Object {
    /// Creates room for one object at a time. It takes no memory.
    pub fn new() -> Object {
        Object {
            fields: Members::new(),
            reason: Words::new(),
        }
    }

    /// Writes the object of the last event of a history, in a line.
    ///
    /// `number` counts events from 1, and `line` is the line that asks for the event, which is that of `by`
    /// and `what`, with this reply and effect.
    pub fn put<W: Write>(
        &mut self,
        kept: &Kept<Global>,
        number: u64,
        line: u64,
        by: Caller,
        what: &Action<Global>,
        reply: &Reply,
        effect: &Effect,
        out: &mut W,
    ) -> io::Result<()>
        ensures { OnOk result (HasPut (traces number (entry_of by what.now reply.now) effect.now)
            (W.contents out.old) (W.contents out.new)) }
    {
        self.fields.clear();
        push_fields(&mut self.fields, what);
        self.reason.clear();
        push_refusal(&mut self.reason, kept, by, what, reply);
        put_place(out, number, by, line)?;
        let (fields, reason) = (self.fields.as_slice(), self.reason.as_slice());
        put_event(out, what, reply, effect, fields, reason)
    }
}

/// Writes an object for each event of a script.
#[derive(Drop)]
pub(crate) struct Tracer {
    lines: Lines,
    object: Object,
}

impl Tracer {
    /// Creates a tracer of the script with these lines.
    pub(crate) fn new(lines: Lines) -> Tracer {
        Tracer {
            lines,
            object: Object::new(),
        }
    }
}

impl Teller for Tracer {
    ghost use Rattle.hv_trace.specs.Trace.{traces};

    ghost tells = { traces };

    fn tell<W: Write>(
        &mut self,
        kept: &Kept<Global>,
        number: u64,
        by: Caller,
        what: &Action<Global>,
        reply: &Reply,
        effect: &Effect,
        out: &mut W,
    ) -> io::Result<()> {
        let line = self.lines.take(by, reply);
        self.object
            .put(kept, number, line, by, what, reply, effect, out)
    }
}

// Writes the object's start: the event's number, its processor and the line that asks for it.
#[tactic(auto, unfolding(crate::specs::Trace::place_text))]
fn put_place<W: Write>(out: &mut W, number: u64, by: Caller, line: u64) -> io::Result<()>
    ensures { OnOk result (Appends (W.contents out.old) (W.contents out.new) (place_text number by line)) }
{
    put_number(out, b"{\"event\":", number)?;
    put_processor(out, b",\"vp\":", by.part, by.vp)?;
    put_number(out, b",\"line\":", line)
}

// Writes the rest: what the event asks for, with these fields, the reply, with this reason, and the effect.
#[tactic(auto, unfolding(crate::specs::Trace::event_text))]
fn put_event<W: Write>(
    out: &mut W,
    what: &Action<Global>,
    reply: &Reply,
    effect: &Effect,
    fields: &[u8],
    reason: &[u8],
) -> io::Result<()>
    ensures { OnOk result (Appends (W.contents out.old) (W.contents out.new)
        (event_text what.now reply.now effect.now fields.now reason.now)) }
{
    put_asked(out, what)?;
    put_text(out, b",\"fields\":{", fields, b"}")?;
    put_reply(out, what, reply, reason)?;
    put_end(out, effect)
}

// Writes the effect, and the object's end.
fn put_end<W: Write>(out: &mut W, effect: &Effect) -> io::Result<()>
    ensures { OnOk result (Appends (W.contents out.old) (W.contents out.new)
        (codes ",\"effect\":" ++ effect_text effect.now ++ codes "}\n")) }
{
    out.write_all(b",\"effect\":")?;
    put_effect(out, effect)?;
    out.write_all(b"}\n")
}

// Adds the reason of a refusal.
fn push_refusal(
    words: &mut Words,
    kept: &Kept<Global>,
    by: Caller,
    what: &Action<Global>,
    reply: &Reply,
) {
    match reply.parts().0 {
        Answer::Served | Answer::More { .. } => {}
        Answer::Denied { rule, .. } | Answer::Fault { rule } => {
            push_reason(words, kept.machine().tree(), by, rule, what);
        }
    }
}
