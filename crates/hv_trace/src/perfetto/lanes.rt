// The partitions and processors of a chart: their names, their counters, and what is on its way to them.

use crate::perfetto::lane::Lane;
use crate::perfetto::note::{Moment, Note};
use hv_abi::{CallKind, InputValue};
use hv_admit::{Effect, FlagChange, Partitions, Synic, resolve_partition_id};
use hv_calls::Call;
use hv_defs::ROOT_ID;
use hv_mail::Pending;
use hv_partition::PageKind;
use hv_policy::{Action, Answer, Caller, Reply};
use hv_words::call_of;
use indexmap::IndexMap;
use std::alloc::{AllocError, Global};

// The number of SINTs of a processor.
const SINTS: u8 = 16;

/// The partitions and processors that a chart has told of.
#[derive(Drop)]
pub(crate) struct Lanes {
    alloc: Global,
    // The pages of each partition that has a name, loose and pooled, when they were last told.
    pages: IndexMap<u64, (u64, u64)>,
    // The processors of each partition, by their index there.
    processors: IndexMap<u64, IndexMap<u32, Lane>>,
    // The number of arrows so far.
    arrows: u64,
}

impl Lanes {
    /// Creates the lanes of which the root's process alone has a name.
    pub(crate) fn new(alloc: Global) -> Result<Lanes, AllocError> {
        let mut pages = IndexMap::new(alloc);
        match pages.insert(ROOT_ID, (0, 0)) {
            Ok(_) => {}
            Err(_) => return Err(AllocError),
        }
        Ok(Lanes {
            alloc,
            pages,
            processors: IndexMap::new(alloc),
            arrows: 0,
        })
    }

    /// Adds the notes on an event with this effect. The partitions are those after the event.
    pub(crate) fn follow(
        &mut self,
        tree: &Partitions<Global>,
        now: Moment,
        what: &Action<Global>,
        reply: &Reply,
        effect: &Effect,
        notes: &mut Vec<Note>,
    ) -> Result<(), AllocError> {
        if now.number == 1 {
            self.count_pages(tree, now, ROOT_ID, notes)?;
        }
        self.name_thread(now.by, notes)?;
        match reply.parts().0 {
            Answer::Served | Answer::More { .. } => {
                self.read(now, what, notes)?;
                self.change(tree, now, what, effect, notes)
            }
            Answer::Denied { .. } | Answer::Fault { .. } => Ok(()),
        }
    }

    // Names the partition's process, unless it has a name.
    fn name_process(&mut self, part: u64, notes: &mut Vec<Note>) -> Result<(), AllocError> {
        if self.pages.contains_key(&part) {
            return Ok(());
        }
        match self.pages.insert(part, (0, 0)) {
            Ok(_) => add_note(notes, Note::Process { part }),
            Err(_) => Err(AllocError),
        }
    }

    // Names the processor's thread, unless it has a name.
    fn name_thread(&mut self, by: Caller, notes: &mut Vec<Note>) -> Result<(), AllocError> {
        self.name_process(by.part, notes)?;
        let lane = self.lane(by)?;
        if lane.is_named {
            return Ok(());
        }
        lane.is_named = true;
        add_note(notes, Note::Thread { by })
    }

    // Returns a processor.
    fn lane(&mut self, by: Caller) -> Result<&mut Lane, AllocError> {
        let alloc = self.alloc;
        match self.lanes_of(by.part)?.entry(by.vp) {
            Ok(entry) => Ok(entry.or_insert(Lane::new(alloc))),
            Err(_) => Err(AllocError),
        }
    }

    // Returns the processors of a partition.
    fn lanes_of(&mut self, part: u64) -> Result<&mut IndexMap<u32, Lane>, AllocError> {
        let alloc = self.alloc;
        match self.processors.entry(part) {
            Ok(entry) => Ok(entry.or_insert(IndexMap::new(alloc))),
            Err(_) => Err(AllocError),
        }
    }

    // Adds the arrows to an access that reads a slot or flags.
    fn read(
        &mut self,
        now: Moment,
        what: &Action<Global>,
        notes: &mut Vec<Note>,
    ) -> Result<(), AllocError> {
        match what {
            Action::ReadSlot(sint) => {
                let from = self.lane(now.by)?.take_slot(*sint);
                self.point(from, now, notes)
            }
            Action::ReadFlags(sint) => self.read_flags(now, *sint, notes),
            Action::Hypercall(_)
            | Action::ReadMsr(_)
            | Action::WriteMsr(_, _)
            | Action::ClearSlot(_)
            | Action::ClearFlag(_, _)
            | Action::TakeInterrupt => Ok(()),
        }
    }

    // Adds an arrow for each flag of a SINT that wasn't read yet.
    fn read_flags(
        &mut self,
        now: Moment,
        sint: u8,
        notes: &mut Vec<Note>,
    ) -> Result<(), AllocError> {
        for _ in 0..2048u32 {
            match self.lane(now.by)?.take_flag(sint) {
                Some(from) => self.point(Some(from), now, notes)?,
                None => break,
            }
        }
        Ok(())
    }

    // Adds an arrow from an event, if there is one, to this one.
    fn point(
        &mut self,
        from: Option<Moment>,
        to: Moment,
        notes: &mut Vec<Note>,
    ) -> Result<(), AllocError> {
        let Some(from) = from else {
            return Ok(());
        };
        let id = self.arrows;
        self.arrows = id.wrapping_add(1);
        add_note(notes, Note::Arrow { id, from, to })
    }

    // Adds the notes on an effect.
    fn change(
        &mut self,
        tree: &Partitions<Global>,
        now: Moment,
        what: &Action<Global>,
        effect: &Effect,
        notes: &mut Vec<Note>,
    ) -> Result<(), AllocError> {
        match effect {
            Effect::Nothing => Ok(()),
            Effect::Synic(synic) => self.reach(tree, now, what, synic, notes),
            Effect::Page { owner, .. } => {
                self.count_pages(tree, now, *owner, notes)?;
                self.count_pages(tree, now, giver_of(now.by.part, what), notes)
            }
            Effect::Pages { from, to } => {
                self.count_pages(tree, now, *from, notes)?;
                self.count_pages(tree, now, *to, notes)
            }
            Effect::Processor { part, vp } => {
                let by = Caller {
                    part: *part,
                    vp: *vp,
                };
                self.lane(by)?.clear();
                self.count_waiting(now, by, notes)
            }
            Effect::Partition { part } => self.clear_partition(now, *part, notes),
        }
    }

    // Removes what is at the processors of a partition.
    fn clear_partition(
        &mut self,
        now: Moment,
        part: u64,
        notes: &mut Vec<Note>,
    ) -> Result<(), AllocError> {
        for at in 0..self.lanes_of(part)?.len() {
            let vp = match self.lanes_of(part)?.get_index(at) {
                Some((vp, _)) => *vp,
                None => break,
            };
            let by = Caller { part, vp };
            self.lane(by)?.clear();
            self.count_waiting(now, by, notes)?;
        }
        Ok(())
    }

    // Adds the notes on what changed at a processor.
    fn reach(
        &mut self,
        tree: &Partitions<Global>,
        now: Moment,
        what: &Action<Global>,
        synic: &Synic,
        notes: &mut Vec<Note>,
    ) -> Result<(), AllocError> {
        let by = Caller {
            part: synic.part,
            vp: synic.vp,
        };
        let lane = self.lane(by)?;
        move_messages(lane, tree, now, by, what, synic)?;
        if let Some(change) = synic.flag {
            move_flag(lane, tree, now, by, change)?;
        }
        let from = match synic.taken {
            Some(vector) => lane.take_vector(vector),
            None => None,
        };
        self.point(from, now, notes)?;
        self.count_waiting(now, by, notes)
    }

    // Adds the number of messages that wait at a processor, if it changed.
    fn count_waiting(
        &mut self,
        now: Moment,
        by: Caller,
        notes: &mut Vec<Note>,
    ) -> Result<(), AllocError> {
        let lane = self.lane(by)?;
        let messages = lane.waiting();
        if lane.told == messages {
            return Ok(());
        }
        lane.told = messages;
        self.name_process(by.part, notes)?;
        let at = now.number;
        add_note(notes, Note::Waiting { at, by, messages })
    }

    // Adds the pages of a partition, if they changed. A partition that doesn't exist has none.
    fn count_pages(
        &mut self,
        tree: &Partitions<Global>,
        now: Moment,
        part: u64,
        notes: &mut Vec<Note>,
    ) -> Result<(), AllocError> {
        self.name_process(part, notes)?;
        let (loose, pooled) = pages_of(tree, part);
        let at = now.number;
        match self.pages.insert(part, (loose, pooled)) {
            Ok(Some(told)) if told == (loose, pooled) => Ok(()),
            Ok(_) => add_note(
                notes,
                Note::Pages {
                    at,
                    part,
                    loose,
                    pooled,
                },
            ),
            Err(_) => Err(AllocError),
        }
    }
}

// Adds a note.
fn add_note(notes: &mut Vec<Note>, note: Note) -> Result<(), AllocError> {
    notes.push(note)?;
    Ok(())
}

// Returns the numbers of a partition's loose and pooled pages.
fn pages_of(tree: &Partitions<Global>, part: u64) -> (u64, u64) {
    match tree.get(part) {
        Some(partition) => (
            partition.pages(PageKind::Loose).count(),
            partition.pages(PageKind::Pooled).count(),
        ),
        None => (0, 0),
    }
}

// Returns the partition that gives a page: the target of a withdrawal, or the caller.
fn giver_of(caller: u64, what: &Action<Global>) -> u64 {
    let Err(frame) = what.as_access() else {
        return caller;
    };
    let Some(Call::WithdrawMemory { partition }) = call_of(frame) else {
        return caller;
    };
    resolve_partition_id(caller, partition)
}

// Returns whether an event posts a message.
fn is_post(what: &Action<Global>) -> bool {
    match what.as_access() {
        Ok(_) => false,
        Err(frame) => {
            CallKind::of(InputValue::read(frame.rcx).call) == Some(CallKind::PostMessage)
        }
    }
}

// Moves the messages of a processor as an event did. A message that is shown raises its SINT's vector.
fn move_messages(
    lane: &mut Lane,
    tree: &Partitions<Global>,
    now: Moment,
    by: Caller,
    what: &Action<Global>,
    synic: &Synic,
) -> Result<(), AllocError> {
    if let Some(sint) = synic.waiting {
        lane.queue(now, sint)?;
    }
    for sint in 0..SINTS {
        if synic.shown >> sint & 1 == 0 {
            continue;
        }
        let _ = lane.take_slot(sint);
        if synic.freed.is_none() {
            if is_post(what) {
                lane.queue(now, sint)?;
            }
            show(lane, tree, by, sint)?;
        }
    }
    Ok(())
}

// Moves the oldest waiting message of a SINT to its slot.
fn show(
    lane: &mut Lane,
    tree: &Partitions<Global>,
    by: Caller,
    sint: u8,
) -> Result<(), AllocError> {
    match lane.show(sint) {
        Some(from) => raise(lane, tree, by, sint, from),
        None => Ok(()),
    }
}

// Sets or clears a flag as an event did. A flag that is set raises its SINT's vector.
fn move_flag(
    lane: &mut Lane,
    tree: &Partitions<Global>,
    now: Moment,
    by: Caller,
    change: FlagChange,
) -> Result<(), AllocError> {
    if !change.is_set {
        lane.clear_flag(change.sint, change.flag);
        return Ok(());
    }
    lane.set_flag(now, change.sint, change.flag)?;
    raise(lane, tree, by, change.sint, now)
}

// Raises the vector of a SINT, unless the SINT is masked.
fn raise(
    lane: &mut Lane,
    tree: &Partitions<Global>,
    by: Caller,
    sint: u8,
    from: Moment,
) -> Result<(), AllocError> {
    match vector_of(tree, by, sint) {
        Some(vector) => lane.raise(from, vector),
        None => Ok(()),
    }
}

// Returns the vector that a SINT raises.
fn vector_of(tree: &Partitions<Global>, by: Caller, sint: u8) -> Option<u8> {
    let vp = tree.get(by.part)?.vp(by.vp)?;
    if sint >= SINTS {
        return None;
    }
    let mut vectors = Pending::new();
    vp.add_vector(sint, &mut vectors);
    vectors.take_highest()
}
