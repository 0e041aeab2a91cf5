// What reached a processor, and from which event.

use crate::perfetto::note::Moment;
use indexmap::IndexMap;
use std::alloc::{AllocError, Global};
use std::collections::VecDeque;

// A flag that is set.
#[derive(Clone, Copy)]
struct Flag {
    number: u16,
    from: Moment,
}

// What reached a SINT and was neither read nor taken: each thing by the event that it comes from.
#[derive(Drop)]
struct Sint {
    // The message in the slot.
    slot: Option<Moment>,
    // The messages behind the slot, from the oldest to the newest.
    queue: VecDeque<Moment>,
    // The flags, from the oldest to the newest.
    flags: VecDeque<Flag>,
}

impl Sint {
    fn new(alloc: Global) -> Sint {
        Sint {
            slot: None,
            queue: VecDeque::new(alloc),
            flags: VecDeque::new(alloc),
        }
    }
}

/// A processor.
#[derive(Drop)]
pub(crate) struct Lane {
    /// Whether its thread has a name.
    pub(crate) is_named: bool,
    /// How many messages waited when that was last told.
    pub(crate) told: u64,
    alloc: Global,
    // The number of messages behind slots.
    waiting: u64,
    sints: IndexMap<u8, Sint>,
    // The pending vectors, each with the first event that raised it.
    vectors: IndexMap<u8, Moment>,
}

impl Lane {
    /// Creates a processor that nothing has reached.
    pub(crate) fn new(alloc: Global) -> Lane {
        Lane {
            is_named: false,
            told: 0,
            alloc,
            waiting: 0,
            sints: IndexMap::new(alloc),
            vectors: IndexMap::new(alloc),
        }
    }

    // Returns what is at a SINT.
    fn sint(&mut self, sint: u8) -> Result<&mut Sint, AllocError> {
        let alloc = self.alloc;
        match self.sints.entry(sint) {
            Ok(entry) => Ok(entry.or_insert(Sint::new(alloc))),
            Err(_) => Err(AllocError),
        }
    }

    /// Notes that a message waits behind the slot of a SINT. It comes from this event.
    pub(crate) fn queue(&mut self, from: Moment, sint: u8) -> Result<(), AllocError> {
        self.sint(sint)?.queue.push_back(from)?;
        self.waiting = self.waiting.saturating_add(1);
        Ok(())
    }

    /// Moves the oldest message behind the slot of a SINT into it, and returns the event that it comes from.
    pub(crate) fn show(&mut self, sint: u8) -> Option<Moment> {
        let at = self.sints.get_mut(&sint)?;
        let from = at.queue.pop_front()?;
        at.slot = Some(from);
        self.waiting = self.waiting.saturating_sub(1);
        Some(from)
    }

    /// Removes the message in the slot of a SINT, and returns the event that it comes from.
    pub(crate) fn take_slot(&mut self, sint: u8) -> Option<Moment> {
        self.sints.get_mut(&sint)?.slot.take()
    }

    /// Notes that a flag of a SINT is set. It comes from this event.
    pub(crate) fn set_flag(
        &mut self,
        from: Moment,
        sint: u8,
        number: u16,
    ) -> Result<(), AllocError> {
        self.sint(sint)?.flags.push_back(Flag { number, from })?;
        Ok(())
    }

    /// Removes a flag of a SINT.
    pub(crate) fn clear_flag(&mut self, sint: u8, number: u16) {
        if let Some(at) = self.sints.get_mut(&sint) {
            at.flags.retain(|flag| flag.number != number);
        }
    }

    /// Removes the oldest flag of a SINT, and returns the event that it comes from.
    pub(crate) fn take_flag(&mut self, sint: u8) -> Option<Moment> {
        Some(self.sints.get_mut(&sint)?.flags.pop_front()?.from)
    }

    /// Notes that a vector is pending. The first event that raised it is its cause.
    pub(crate) fn raise(&mut self, from: Moment, vector: u8) -> Result<(), AllocError> {
        match self.vectors.entry(vector) {
            Ok(entry) => {
                let _ = entry.or_insert(from);
                Ok(())
            }
            Err(_) => Err(AllocError),
        }
    }

    /// Removes a pending vector, and returns the event that it comes from.
    pub(crate) fn take_vector(&mut self, vector: u8) -> Option<Moment> {
        self.vectors.swap_remove(&vector)
    }

    /// Removes everything.
    pub(crate) fn clear(&mut self) {
        self.waiting = 0;
        self.sints.clear();
        self.vectors.clear();
    }

    /// The number of messages that wait.
    pub(crate) fn waiting(&self) -> u64 {
        self.waiting
    }
}
