// Steps of a machine that gets no memory. Rules refuse as ever, and only a served event needs memory. Beside
// it, a machine with memory records the history of its events.

use crate::partitions::look;
use crate::rationed::Heap;
use crate::rows::Row;
use crate::texts::{has_audit, has_table, is_told};
use hv_history::Kept;
use hv_machine::Machine;
use hv_policy::{Config, Event, Reply};
use std::alloc::AllocError;
use std::process::Abort;
use std::test::Fail;

// Whether both machines have the same partition with this id, or neither has one.
fn has_alike(machine: &Machine<&Heap>, due: &Machine<&Heap>, id: u64) -> bool {
    let are_below = machine.tree().parent_of(id) == due.tree().parent_of(id);
    match (machine.tree().get(id), due.tree().get(id)) {
        (Some(here), Some(there)) => are_below && look(here) == look(there),
        (None, None) => are_below,
        _ => false,
    }
}

// Whether both machines have served the same number of events and have the same partitions.
fn are_alike(machine: &Machine<&Heap>, due: &Machine<&Heap>) -> Result<bool, AllocError> {
    let (ids, due_ids) = (machine.tree().ids()?, due.tree().ids()?);
    let mut are_alike = ids.as_slice() == due_ids.as_slice();
    for id in ids.as_slice() {
        are_alike = are_alike && has_alike(machine, due, *id);
    }
    let counts = (machine.served(), machine.next_id());
    Ok(are_alike && counts == (due.served(), due.next_id()))
}

// Steps with no block and, if the host refuses, as it must if the step needs memory, again with all. In
// between, the machine must be unchanged. Returns the reply if all of that holds.
fn step<'h>(
    heap: &Heap,
    machine: &mut Machine<&'h Heap>,
    due: &Machine<&'h Heap>,
    event: &Event<&'h Heap>,
    wants: bool,
) -> Result<Option<Reply>, AllocError> {
    if machine.served() >= 100 {
        return Ok(None);
    }
    heap.ration(0);
    let told = machine.step(event);
    heap.lift();
    match told {
        Ok(reply) if !wants => Ok(Some(reply)),
        Err(_) if wants && are_alike(machine, due)? => Ok(machine.step(event).ok()),
        _ => Ok(None),
    }
}

// Steps, and applies the event to the machine with memory. Returns whether the replies and the changes agree.
fn is_answered<'h>(
    heap: &Heap,
    machine: &mut Machine<&'h Heap>,
    kept: &mut Kept<&'h Heap>,
    event: &Event<&'h Heap>,
    wants: bool,
) -> Result<bool, Fail> {
    let Some(reply) = step(heap, machine, kept.machine(), event, wants)? else {
        return Ok(false);
    };
    kept.apply(event.copy()?)?;
    let history = kept.history();
    let last = history.len();
    let is_told = last > 0 && is_told(&history.entry(last - 1), &reply);
    Ok(is_told && are_alike(machine, kept.machine())?)
}

fn step_all<'h>(
    rt: &impl Abort,
    heap: &Heap,
    machine: &mut Machine<&'h Heap>,
    kept: &mut Kept<&'h Heap>,
    events: &[Event<&'h Heap>],
    row: &Row,
) -> Result<(), Fail> {
    for (at, event) in events.iter().enumerate() {
        let wants = row.wants.contains(&at);
        let is_answered = is_answered(heap, machine, kept, event, wants)?;
        assert!(rt; is_answered, "event {at}");
    }
    let is_audit = has_audit(heap.inner(), kept, row.audit.as_bytes());
    assert!(rt; is_audit && has_table(heap.inner(), kept, row.table.as_bytes()));
    Ok(())
}

pub(crate) fn assert_denials<'h>(
    rt: &impl Abort,
    heap: &'h Heap,
    (config, limit): (Config, u32),
    events: &[Event<&'h Heap>],
    row: &Row,
) -> Result<(), Fail> {
    let mut machine = Machine::boot(heap, config)?;
    let mut kept = Kept::boot(heap, config, limit)?;
    step_all(rt, heap, &mut machine, &mut kept, events, row)
}
