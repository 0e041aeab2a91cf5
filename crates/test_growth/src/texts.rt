// Scripts that are read, and the texts of a run.

use crate::rationed::Heap;
use hv_history::{EntryRef, Kept};
use hv_policy::{Config, Event, Reply};
use hv_script::{Line, Script, parse};
use hv_text::{PrintFault, audit, table};
use std::alloc::{AllocError, Global};
use std::test::Fail;

// The events that lines ask for.
fn events_of<'h>(
    alloc: Global,
    lines: Vec<Line<&'h Heap>, &'h Heap>,
) -> Result<Vec<Event<&'h Heap>>, AllocError> {
    let mut events = Vec::with_capacity(alloc, lines.len())?;
    for line in lines {
        events.push(Event {
            by: line.by,
            what: line.action,
        })?;
    }
    Ok(events)
}

// Returns a script's boot configuration, the most events that its history may hold, and its events.
pub(crate) fn read<'h>(
    heap: &'h Heap,
    text: &[u8],
) -> Result<(Config, u32, Vec<Event<&'h Heap>>), Fail> {
    let Script {
        config,
        limit,
        lines,
    } = parse(heap, text)?;
    Ok((config, limit, events_of(heap.inner(), lines)?))
}

// What is visible of a machine with its history, in another allocator's memory.
#[derive(Drop)]
pub(crate) struct Texts {
    audit: Vec<u8>,
    table: Vec<u8>,
    served: u64,
    next_id: u64,
}

pub(crate) fn texts_of(alloc: Global, kept: &Kept<&Heap>) -> Result<Texts, PrintFault> {
    let mut texts = Texts {
        audit: Vec::new(alloc),
        table: Vec::new(alloc),
        served: kept.machine().served(),
        next_id: kept.machine().next_id(),
    };
    audit(&mut texts.audit, kept)?;
    table(&mut texts.table, kept)?;
    Ok(texts)
}

// Whether exactly that is visible.
pub(crate) fn has_texts(alloc: Global, kept: &Kept<&Heap>, texts: &Texts) -> bool {
    let machine = kept.machine();
    let are_counts = machine.served() == texts.served && machine.next_id() == texts.next_id;
    let is_audit = has_audit(alloc, kept, texts.audit.as_slice());
    are_counts && is_audit && has_table(alloc, kept, texts.table.as_slice())
}

// Whether the audit, or below the table, can be written and is this text.
pub(crate) fn has_audit(alloc: Global, kept: &Kept<&Heap>, text: &[u8]) -> bool {
    let mut out: Vec<u8> = Vec::new(alloc);
    audit(&mut out, kept).is_ok() && out.as_slice() == text
}

pub(crate) fn has_table(alloc: Global, kept: &Kept<&Heap>, text: &[u8]) -> bool {
    let mut out: Vec<u8> = Vec::new(alloc);
    table(&mut out, kept).is_ok() && out.as_slice() == text
}

// Whether the entry has this reply.
pub(crate) fn is_told(entry: &EntryRef<'_>, reply: &Reply) -> bool {
    let (answer, output) = reply.parts();
    entry.answer == answer && entry.output == output
}
