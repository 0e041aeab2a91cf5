// The teller of a page.

use crate::lines::Lines;
use crate::object::Tracer;
use hv_admit::Effect;
use hv_explain::Teller;
use hv_history::Kept;
use hv_policy::{Action, Caller, Reply};
use hv_words::{Words, push_event};
use std::alloc::Global;
use std::io;
use std::io::Write;

/// Writes the words and the object of each event of a script.
#[derive(Drop)]
pub(crate) struct Reporter {
    words: Words,
    tracer: Tracer,
}

impl Reporter {
    /// Creates a teller of the script with these lines.
    pub(crate) fn new(lines: Lines) -> Reporter {
        Reporter {
            words: Words::new(),
            tracer: Tracer::new(lines),
        }
    }
}

impl Teller for Reporter {
    ghost use Rattle.hv_trace.specs.Report.{reports};

    ghost tells = { reports };

    fn tell<W: Write>(
        &mut self,
        kept: &Kept<Global>,
        number: u64,
        by: Caller,
        what: &Action<Global>,
        reply: &Reply,
        effect: &Effect,
        out: &mut W,
    ) -> io::Result<()> {
        self.words.clear();
        push_event(&mut self.words, kept.machine().tree(), by, what, reply);
        out.write_all(self.words.as_slice())?;
        out.write_all(b"\n")?;
        self.tracer.tell(kept, number, by, what, reply, effect, out)
    }
}
