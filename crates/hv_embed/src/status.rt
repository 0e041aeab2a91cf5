// The statuses that functions return to C.
ghost use Rattle.std.specs.Prelude.{◌≡◌};
ghost use Rattle.hv_embed.specs.Answer.{refusal_status};

use hv_machine::BootRefused;

/// The function succeeded.
pub const DONE: u32 = 0;

/// The handle has no machine.
pub const EMPTY: u32 = 1;

/// The handle already has a machine.
pub const OCCUPIED: u32 = 2;

/// A buffer is too short.
///
/// The buffer for the audit's line has bytes, but too few for the longest line; or the buffer for outputs is
/// too short for one element.
pub const SHORT: u32 = 3;

/// The machine has served, or the handle has counted, as many events as can be counted.
pub const USED_UP: u32 = 4;

/// The host is out of memory.
pub const MEMORY: u32 = 5;

/// The configuration has no pages, or more than 65,536.
pub const PAGES: u32 = 6;

/// The configuration has more pooled pages than pages.
pub const POOL: u32 = 7;

/// The configuration has no virtual processors, more than 64, or more than the pool pays for at 4 pages each.
pub const VPS: u32 = 8;

/// A look found no such partition, processor, SINT, MSR, port, connection or page. Status 9, for a null
/// pointer, is returned only by `include/hvpm.h`.
pub const NONE: u32 = 10;

/// The most events that a handle counts.
pub const MAX_EVENTS: u64 = u64::MAX;

// Converts the reason for which a boot was refused to its status.
pub(crate) fn status_of(why: BootRefused) -> u32
    ensures { result ≡ refusal_status why }
{
    match why {
        BootRefused::Pages => PAGES,
        BootRefused::Pool => POOL,
        BootRefused::Vps => VPS,
        BootRefused::Memory => MEMORY,
    }
}
