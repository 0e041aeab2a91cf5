// The plain structs that C and this crate share.

/// The configuration with which a machine boots.
#[repr(C)]
#[derive(Drop)]
pub struct HvConfig {
    /// The root's privilege mask.
    pub mask: u64,
    /// The number of pages, 1 to 65,536.
    pub pages: u32,
    /// The number of pages in the root's pool, from page 0 on.
    pub pool: u32,
    /// The number of the root's virtual processors, 1 to 64.
    pub vps: u32,
}

/// A virtual processor: its partition's id, and its index there.
#[repr(C)]
#[derive(Clone, Copy)]
pub struct HvCaller {
    pub part: u64,
    pub vp: u32,
}

/// The registers of a hypercall.
#[repr(C)]
#[derive(Clone, Copy)]
pub struct HvRegisters {
    pub rcx: u64,
    pub rdx: u64,
    pub r8: u64,
}

/// The reply to an event.
#[repr(C)]
#[derive(Drop)]
pub struct HvReply {
    /// [`SERVED`], [`MORE`], [`DENIED`] or [`FAULT`].
    pub kind: u32,
    /// The number of the rule that refuses, 1 to 27, or 0 where the event was served.
    pub rule: u32,
    /// The result value of a hypercall, for RAX; 0 for an access.
    pub result: u64,
    /// The element at which a rep call continues if the kind is [`MORE`], else 0.
    pub next: u32,
    /// The number of bytes of `output` that the event wrote.
    pub output_len: u32,
    /// The number of bytes in the audit's line, with its line feed; 0 if none was asked for.
    pub line_len: u32,
    pub output: [u8; 256],
    /// What the event changed for others.
    pub effect: HvEffect,
}

/// What an event changed of messages, event flags, pending vectors and pages.
///
/// Only the fields of its kind have a meaning.
#[repr(C)]
#[derive(Clone, Copy)]
pub struct HvEffect {
    /// [`EFFECT_NOTHING`], [`EFFECT_SYNIC`], [`EFFECT_PAGE`], [`EFFECT_PAGES`], [`EFFECT_PROCESSOR`] or
    /// [`EFFECT_PARTITION`].
    pub kind: u32,
    /// The index of a processor.
    pub vp: u32,
    /// The partition of that processor, the one that was finalized, or the one that has the pages after the
    /// event.
    pub part: u64,
    /// The page, or the id of the deleted partition that had the pages.
    pub page: u64,
    /// The vectors that SINTs raised: vector v is bit v % 64 of word v / 64.
    pub raised: [u64; 4],
    /// Bit s is 1 if the slot of SINT s shows another message, or none where it showed one.
    pub shown: u16,
    /// Bit s is 1 if one more message waits at SINT s.
    pub waiting: u16,
    /// The event flag that changed, and its SINT.
    pub flag: u16,
    pub flag_sint: u8,
    /// [`FLAG_SET`], [`FLAG_CLEARED`], or 0 if no event flag changed.
    pub flag_is: u8,
    /// The port whose message left its slot.
    pub port: u32,
    /// 1 if a message left its slot.
    pub freed: u8,
    /// 1 if the page is in the partition's pool, 0 if it is loose.
    pub pooled: u8,
}

/// The progress of a call's elements.
#[repr(C)]
#[derive(Clone, Copy)]
pub struct HvRun {
    /// The number of elements that were taken.
    pub events: u32,
    /// The number of bytes that they output, one after another.
    pub output_len: u32,
}

/// What a look at a partition shows.
#[repr(C)]
#[derive(Clone, Copy)]
pub struct HvPartition {
    /// Its privilege mask.
    pub mask: u64,
    /// Its parent's id, or 0 for the root.
    pub parent: u64,
    /// The number of partitions above it.
    pub depth: u64,
    /// The number of pages in its pool.
    pub pooled: u64,
    /// The number of pooled pages that pay for its children, processors, ports and connections.
    pub in_use: u64,
    /// [`LIFE_CREATED`], [`LIFE_ACTIVE`] or [`LIFE_FINALIZED`].
    pub life: u32,
    /// The number of children.
    pub children: u32,
    /// The number of virtual processors.
    pub vps: u32,
    /// The number of ports.
    pub ports: u32,
    /// The number of connections.
    pub connections: u32,
}

/// A port, as a look shows it.
#[repr(C)]
#[derive(Clone, Copy)]
pub struct HvPort {
    pub part: u64,
    pub id: u32,
    /// The partition that may connect to it.
    pub peer: u64,
    /// [`PORT_MESSAGES`] or [`PORT_EVENTS`].
    pub port_type: u32,
    /// The SINT to which it delivers.
    pub sint: u32,
    /// The processor of that SINT, or all ones for any processor.
    pub vp: u32,
    /// The first of its flags, and the number of flags.
    pub base_flag: u16,
    pub flag_count: u16,
}

/// A connection, as a look shows it.
#[repr(C)]
#[derive(Clone, Copy)]
pub struct HvConnection {
    pub part: u64,
    pub id: u32,
    /// The partition that has the port, and the port's id there.
    pub port_partition: u64,
    pub port: u32,
    /// The type of the port when the connection was made: [`PORT_MESSAGES`] or [`PORT_EVENTS`].
    pub port_type: u32,
}

/// Pages of a partition whose numbers follow each other. All are in its pool, or all are loose.
#[repr(C)]
#[derive(Clone, Copy)]
pub struct HvPageRun {
    /// The first page.
    pub page: u64,
    /// The number of pages.
    pub count: u32,
    /// 1 if the pages are in the partition's pool, 0 if they are loose.
    pub pooled: u8,
}

/// The number before every page, and every id or index that a partition has.
///
/// No page, processor, port or connection has this number.
pub const FIRST: u32 = 0xFFFF_FFFF;

/// The most bytes that an element of a call outputs.
pub const ELEMENT_OUTPUT: usize = 16;

/// The event is served. For a rep call, this was the last element.
pub const SERVED: u32 = 0;

/// The element is served, and the call continues with the next one.
pub const MORE: u32 = 1;

/// A rule refuses the hypercall. Nothing changed.
pub const DENIED: u32 = 2;

/// A rule refuses the access. Nothing changed.
pub const FAULT: u32 = 3;

/// No message, event flag, pending vector or page changed.
pub const EFFECT_NOTHING: u32 = 0;

/// Something changed at one processor.
pub const EFFECT_SYNIC: u32 = 1;

/// A page moved to another partition, or into or out of a pool.
pub const EFFECT_PAGE: u32 = 2;

/// A partition was deleted, and another one has its pages.
pub const EFFECT_PAGES: u32 = 3;

/// A processor was created or deleted.
pub const EFFECT_PROCESSOR: u32 = 4;

/// A partition was finalized.
pub const EFFECT_PARTITION: u32 = 5;

/// The event set the event flag.
pub const FLAG_SET: u8 = 1;

/// The event cleared the event flag.
pub const FLAG_CLEARED: u8 = 2;

/// The partition was created and is not initialized.
pub const LIFE_CREATED: u32 = 0;

/// The partition runs.
pub const LIFE_ACTIVE: u32 = 1;

/// The partition is finalized.
pub const LIFE_FINALIZED: u32 = 2;

/// The port takes messages.
pub const PORT_MESSAGES: u32 = 1;

/// The port takes event flags.
pub const PORT_EVENTS: u32 = 2;

/// The kinds of accesses, as a script's line names them.
pub const READ_MSR: u32 = 0;

pub const WRITE_MSR: u32 = 1;

pub const READ_SLOT: u32 = 2;

pub const CLEAR_SLOT: u32 = 3;

pub const READ_FLAGS: u32 = 4;

pub const CLEAR_FLAG: u32 = 5;

pub const TAKE_INTERRUPT: u32 = 6;
