// Events of a script, applied with few blocks.

use crate::rationed::Heap;
use crate::rows::Row;
use crate::texts::{Texts, has_audit, has_table, has_texts, is_told, texts_of};
use hv_history::{HostRefused, Kept};
use hv_policy::{Config, Event, Reply};
use std::process::Abort;
use std::test::Fail;

// Whether an answer is that of the last entry, with its number.
fn is_last(kept: &Kept<&Heap>, (number, reply): &(u64, Reply)) -> bool {
    let history = kept.history();
    let length = history.len();
    if length == 0 || *number != length as u64 {
        return false;
    }
    is_told(&history.entry(length - 1), reply)
}

// Applies an event with this many blocks and, if it is refused, its copy with all. In between, everything is
// as before. Returns whether the event was refused.
fn apply_again<'h>(
    rt: &impl Abort,
    heap: &Heap,
    kept: &mut Kept<&'h Heap>,
    (event, again): (Event<&'h Heap>, Event<&'h Heap>),
    blocks: u64,
    before: &Texts,
) -> Result<bool, HostRefused> {
    heap.ration(blocks);
    let told = kept.apply(event);
    heap.lift();
    match told {
        Ok(told) => {
            assert!(rt; is_last(kept, &told));
            Ok(false)
        }
        Err(why) => {
            assert!(rt; why == HostRefused::Memory && has_texts(heap.inner(), kept, before));
            let told = kept.apply(again)?;
            assert!(rt; is_last(kept, &told));
            Ok(true)
        }
    }
}

fn apply<'h>(
    rt: &impl Abort,
    heap: &Heap,
    kept: &mut Kept<&'h Heap>,
    event: &Event<&'h Heap>,
    blocks: u64,
) -> Result<bool, Fail> {
    let before = texts_of(heap.inner(), kept)?;
    let both = (event.copy()?, event.copy()?);
    Ok(apply_again(rt, heap, kept, both, blocks, &before)?)
}

// Applies all events, the one at a place with this many blocks. Either way, the whole script has the expected
// texts.
fn apply_all<'h>(
    rt: &impl Abort,
    heap: &Heap,
    kept: &mut Kept<&'h Heap>,
    events: &[Event<&'h Heap>],
    row: &Row,
    (place, blocks): (usize, u64),
) -> Result<bool, Fail> {
    let mut refused = false;
    for (at, event) in events.iter().enumerate() {
        if at == place {
            refused = apply(rt, heap, kept, event, blocks)?;
        } else {
            kept.apply(event.copy()?)?;
        }
    }
    let is_audit = has_audit(heap.inner(), kept, row.audit.as_bytes());
    assert!(rt; is_audit && has_table(heap.inner(), kept, row.table.as_bytes()));
    Ok(refused)
}

fn is_refused<'h>(
    rt: &impl Abort,
    heap: &'h Heap,
    booted: (Config, u32),
    events: &[Event<&'h Heap>],
    row: &Row,
    at: (usize, u64),
) -> Result<bool, Fail> {
    let mut kept = Kept::boot(heap, booted.0, booted.1)?;
    apply_all(rt, heap, &mut kept, events, row, at)
}

// No event is refused with as many blocks as its row says, and each is refused with every lower number.
pub(crate) fn assert_refusals<'h>(
    rt: &impl Abort,
    heap: &'h Heap,
    booted: (Config, u32),
    events: &[Event<&'h Heap>],
    row: &Row,
) -> Result<(), Fail> {
    for (place, wanted) in row.blocks.iter().enumerate() {
        for blocks in 0..*wanted.min(&100) + 1 {
            let refused = is_refused(rt, heap, booted, events, row, (place, blocks))?;
            assert!(rt;
                refused == (blocks < *wanted),
                "event {place} with {blocks}"
            );
        }
    }
    Ok(())
}
