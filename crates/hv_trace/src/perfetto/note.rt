// What a chart has beside the slices.
ghost use Rattle.std.specs.Prelude.{OnOk};
ghost use Rattle.std.specs.Io.KnownBytes.{Appends};
ghost use Rattle.hv_trace.specs.Perfetto.{counter_text, end_text, id_text, lane_text, note_text};
ghost use Rattle.hv_trace.specs.Perfetto.{number_text, pages_text, process_text, thread_text, time_text};
ghost use Rattle.hv_trace.specs.Perfetto.{notes_text, waiting_text};

use crate::put::put_number;
use hv_policy::Caller;
use std::io;
use std::io::Write;

/// An event, by its number, and its processor.
#[derive(Clone, Copy)]
pub(crate) struct Moment {
    pub(crate) number: u64,
    pub(crate) by: Caller,
}

/// An entry of the array that isn't a slice.
#[derive(Clone, Copy)]
pub(crate) enum Note {
    /// The name of a partition's process.
    Process {
        part: u64,
    },
    /// The name of a processor's thread.
    Thread {
        by: Caller,
    },
    /// An arrow from an event to the one that it reaches.
    Arrow {
        id: u64,
        from: Moment,
        to: Moment,
    },
    /// The pages of a partition after an event.
    Pages {
        at: u64,
        part: u64,
        loose: u64,
        pooled: u64,
    },
    /// The messages that wait at a processor after an event.
    Waiting {
        at: u64,
        by: Caller,
        messages: u64,
    },
}

/// Writes notes.
pub(crate) fn put_notes<W: Write>(out: &mut W, notes: &[Note]) -> io::Result<()>
    ensures { OnOk result (Appends (W.contents out.old) (W.contents out.new) (notes_text notes.now)) }
{
    for at in 0..notes.len() {
        put_note(out, &notes[at])?;
    }
    Ok(())
}

// Writes a note.
fn put_note<W: Write>(out: &mut W, note: &Note) -> io::Result<()>
    ensures { OnOk result (Appends (W.contents out.old) (W.contents out.new) (note_text note.now)) }
{
    match note {
        Note::Process { part } => put_process(out, *part),
        Note::Thread { by } => put_thread(out, *by),
        Note::Arrow { id, from, to } => {
            put_end(out, b",{\"ph\":\"s\"", *id, *from)?;
            put_end(out, b",{\"ph\":\"f\",\"bp\":\"e\"", *id, *to)
        }
        Note::Pages {
            at,
            part,
            loose,
            pooled,
        } => put_pages(out, *at, *part, *loose, *pooled),
        Note::Waiting { at, by, messages } => put_waiting(out, *at, *by, *messages),
    }
}

// Writes the name of a partition's process.
#[tactic(auto, unfolding(crate::specs::Perfetto::process_text))]
fn put_process<W: Write>(out: &mut W, part: u64) -> io::Result<()>
    ensures { OnOk result (Appends (W.contents out.old) (W.contents out.new) (process_text part)) }
{
    put_number(
        out,
        b",{\"ph\":\"M\",\"name\":\"process_name\",\"pid\":",
        part,
    )?;
    put_number(out, b",\"args\":{\"name\":\"partition ", part)?;
    out.write_all(b"\"}}")
}

// Writes the name of a processor's thread.
#[tactic(auto, unfolding(crate::specs::Perfetto::thread_text))]
fn put_thread<W: Write>(out: &mut W, by: Caller) -> io::Result<()>
    ensures { OnOk result (Appends (W.contents out.old) (W.contents out.new) (thread_text by)) }
{
    out.write_all(b",{\"ph\":\"M\",\"name\":\"thread_name\"")?;
    put_lane(out, by)?;
    put_index(out, b",\"args\":{\"name\":\"vp ", by.vp)?;
    out.write_all(b"\"}}")
}

// Writes the start of a counter of a partition.
#[tactic(auto, unfolding(crate::specs::Perfetto::counter_text))]
fn put_counter<W: Write>(out: &mut W, at: u64, part: u64) -> io::Result<()>
    ensures { OnOk result (Appends (W.contents out.old) (W.contents out.new) (counter_text at part)) }
{
    put_time(out, b",{\"ph\":\"C\",\"ts\":", at)?;
    put_number(out, b",\"pid\":", part)
}

// Writes the pages of a partition after an event.
#[tactic(auto, unfolding(crate::specs::Perfetto::pages_text))]
fn put_pages<W: Write>(out: &mut W, at: u64, part: u64, loose: u64, pooled: u64) -> io::Result<()>
    ensures { OnOk result (Appends (W.contents out.old) (W.contents out.new)
        (pages_text at part loose pooled)) }
{
    put_counter(out, at, part)?;
    put_number(out, b",\"name\":\"pages\",\"args\":{\"loose\":", loose)?;
    put_number(out, b",\"pooled\":", pooled)?;
    out.write_all(b"}}")
}

// Writes the messages that wait at a processor after an event.
#[tactic(auto, unfolding(crate::specs::Perfetto::waiting_text))]
fn put_waiting<W: Write>(out: &mut W, at: u64, by: Caller, messages: u64) -> io::Result<()>
    ensures { OnOk result (Appends (W.contents out.old) (W.contents out.new) (waiting_text at by messages)) }
{
    put_counter(out, at, by.part)?;
    put_index(out, b",\"name\":\"messages waiting at vp ", by.vp)?;
    put_number(out, b"\",\"args\":{\"messages\":", messages)?;
    out.write_all(b"}}")
}

// Writes a mark and a processor's index.
fn put_index<W: Write>(out: &mut W, mark: &[u8], vp: u32) -> io::Result<()>
    ensures { OnOk result (Appends (W.contents out.old) (W.contents out.new) (number_text mark.now vp)) }
{
    put_number(out, mark, u64::from(vp))
}

// Writes an end of an arrow.
#[tactic(auto, unfolding(crate::specs::Perfetto::end_text))]
fn put_end<W: Write>(out: &mut W, head: &[u8], id: u64, at: Moment) -> io::Result<()>
    ensures { OnOk result (Appends (W.contents out.old) (W.contents out.new) (end_text head.now id at)) }
{
    put_id(out, head, id)?;
    put_time(out, b",\"ts\":", at.number)?;
    put_lane(out, at.by)?;
    out.write_all(b",\"cat\":\"hvpm\",\"name\":\"reaches\"}")
}

// Writes the start of an arrow's end, with the arrow's number.
#[tactic(auto, unfolding(crate::specs::Perfetto::id_text))]
fn put_id<W: Write>(out: &mut W, head: &[u8], id: u64) -> io::Result<()>
    ensures { OnOk result (Appends (W.contents out.old) (W.contents out.new) (id_text head.now id)) }
{
    out.write_all(head)?;
    put_number(out, b",\"id\":", id)
}

/// Writes a mark and the time of an event.
#[tactic(auto, unfolding(crate::specs::Perfetto::time_text))]
pub(crate) fn put_time<W: Write>(out: &mut W, mark: &[u8], number: u64) -> io::Result<()>
    ensures { OnOk result (Appends (W.contents out.old) (W.contents out.new) (time_text mark.now number)) }
{
    put_number(out, mark, number)?;
    out.write_all(b"000")
}

/// Writes the process and the thread of a processor.
#[tactic(auto, unfolding(crate::specs::Perfetto::lane_text))]
pub(crate) fn put_lane<W: Write>(out: &mut W, by: Caller) -> io::Result<()>
    ensures { OnOk result (Appends (W.contents out.old) (W.contents out.new) (lane_text by)) }
{
    put_number(out, b",\"pid\":", by.part)?;
    put_number(out, b",\"tid\":", u64::from(by.vp))
}
