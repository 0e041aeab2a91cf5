// The part of an event's changes that processors other than its caller may need to know.

use hv_mail::Pending;

/// What an event changed of messages, event flags, pending interrupt vectors, pages and processors, of all
/// partitions.
///
/// Whatever it does not name is as it was before the event. What it names is not, but for raised vectors that
/// were pending.
#[derive(Drop)]
pub enum Effect {
    /// None of them changed. Each event that a rule refuses has this effect.
    Nothing,
    /// A message, an event flag or a pending vector changed at one processor.
    Synic(Synic),
    /// The page belongs to this partition after the event, in its pool or as a loose page. The partition that
    /// owned it before still exists.
    Page { page: u64, owner: u64, pooled: bool },
    /// The partition `from` was deleted: it does not exist. Each page that it had, at least one, is a loose
    /// page of `to`.
    Pages { from: u64, to: u64 },
    /// The processor was created or deleted. It has no message, no event flag and no pending vector. Its
    /// partition is Active.
    Processor { part: u64, vp: u32 },
    /// The partition was finalized: it is Finalized. Its processors, at least one, were removed with all
    /// their messages, event flags and pending vectors.
    Partition { part: u64 },
}

/// What an event changed at one processor, whether it reached the processor or the processor issued it.
#[derive(Drop)]
pub struct Synic {
    /// The processor: its partition, and its index there.
    pub part: u64,
    pub vp: u32,
    /// Bit s is 1 if the slot of SINT s shows another message, or none where it showed one.
    pub shown: u16,
    /// The SINT at which one more message waits behind the one that is shown.
    pub waiting: Option<u8>,
    /// The event flag that the event set or cleared.
    pub flag: Option<FlagChange>,
    /// The vectors that SINTs raised: those of the SINTs that show a message and showed none, and of the SINT
    /// whose flag the event set, unless masked. Each of them is pending, and may have been pending before.
    pub raised: Pending,
    /// The vector that the processor took.
    pub taken: Option<u8>,
    /// The id of the port, in the processor's own partition, whose message left its slot. This port has room
    /// for one more message, if it still exists.
    pub freed: Option<u32>,
}

/// An event flag that changed.
#[derive(Clone, Copy, PartialEq, Eq, Debug)]
pub struct FlagChange {
    /// The SINT, below 16.
    pub sint: u8,
    /// The flag's number, below 2,048.
    pub flag: u16,
    /// Whether the event set it.
    pub is_set: bool,
}
