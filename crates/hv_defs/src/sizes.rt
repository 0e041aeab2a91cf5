// The numbers of the profile.

/// The number of bytes of a page. Pages are named by their numbers, from 0 up.
pub const PAGE_SIZE: u64 = 4096;

/// The most pages that boot may give.
pub const MAX_PAGES: u32 = 65_536;

/// The most virtual processors of a partition. Their indexes are below this.
pub const MAX_VPS: u32 = 64;

/// The id by which a caller names its own partition (HV_PARTITION_ID_SELF).
pub const SELF_ID: u64 = u64::MAX;

/// The root partition's id.
pub const ROOT_ID: u64 = 1;

/// The greatest depth of a partition: the most ancestors that it may have. The root's depth is 0.
pub const MAX_DEPTH: u64 = 7;

/// The id of the first partition created after boot. Ids rise by 1 and are never reused.
pub const FIRST_CHILD_ID: u64 = 2;

/// The pages of its parent's pool that a partition uses. The charges are this project's own.
pub const PARTITION_CHARGE: u64 = 2;

/// The pages of its partition's pool that a virtual processor uses.
pub const VP_CHARGE: u64 = 4;

/// The pages of its partition's pool that a port uses.
pub const PORT_CHARGE: u64 = 1;

/// The pages of its partition's pool that a connection uses.
pub const CONNECTION_CHARGE: u64 = 1;

/// The CPU reserve that a partition starts with, out of 65,536.
pub const CPU_RESERVE_START: u64 = 0;

/// The CPU cap that a partition starts with, out of 65,536.
pub const CPU_CAP_START: u64 = 65_536;

/// The CPU weight that a partition starts with, from 1 to 10,000.
pub const CPU_WEIGHT_START: u64 = 100;

/// The highest CPU reserve.
pub const MAX_CPU_RESERVE: u64 = 65_536;

/// The highest CPU cap.
pub const MAX_CPU_CAP: u64 = 65_536;

/// The lowest CPU weight.
pub const MIN_CPU_WEIGHT: u64 = 1;

/// The highest CPU weight.
pub const MAX_CPU_WEIGHT: u64 = 10_000;

/// The number of synthetic interrupt sources of a virtual processor (HV_SYNIC_SINT_COUNT). Their indexes are
/// below this.
pub const SINTS: u32 = 16;

/// The number of event flags of a SINT (HV_EVENT_FLAGS_COUNT). Their numbers are below this.
pub const EVENT_FLAGS: u32 = 2048;

/// The most bytes of a message's payload (HV_MESSAGE_PAYLOAD_BYTE_COUNT).
pub const MAX_PAYLOAD: u32 = 240;

/// The most kept messages of a port, shown or waiting. This limit is this project's own.
pub const MAX_MESSAGES: u32 = 8;

/// The highest id of a port or of a connection: ids have 24 bits.
pub const MAX_PORT_ID: u32 = 0x00FF_FFFF;

/// The highest type of a message that a guest may post: bit 31 marks those of the hypervisor.
pub const MAX_MESSAGE_TYPE: u32 = 0x7FFF_FFFF;

/// The exclusive bound of a rep call's number of elements: rep count and start index have 12 bits.
pub const REPS_END: u16 = 4096;

/// The highest count of served events.
///
/// A machine takes an event only below this count: each event may take an id, ids begin at 2, and all ones is
/// not an id.
pub const MAX_SERVED: u64 = u64::MAX - 2;

/// The VP index that names any processor of a partition (HV_ANY_VP), as a port's target. Elsewhere, no
/// processor has this index.
pub const ANY_VP: u32 = u32::MAX;

// The start values of a partition are in range.
const _: () = prove!(CPU_RESERVE_START <= MAX_CPU_RESERVE && CPU_CAP_START <= MAX_CPU_CAP);

const _: () = prove!(MIN_CPU_WEIGHT <= CPU_WEIGHT_START && CPU_WEIGHT_START <= MAX_CPU_WEIGHT);
