// The configuration of a boot, and why boot refuses one.

use hv_privs::Privileges;

/// The configuration of the root partition at boot.
#[derive(Clone, Copy, PartialEq, Eq, Debug)]
pub struct Config {
    /// The number of pages, 1 to 65,536. Pages are numbered from 0.
    pub pages: u32,
    /// The number of pages in the root's pool, from page 0 on. The others are its loose pages.
    pub pool: u32,
    /// The number of the root's virtual processors, 1 to 64. Their indexes start at 0.
    pub vps: u32,
    /// The root's privilege mask.
    pub mask: Privileges,
}

/// Why boot refuses a configuration. The causes are checked in the order of the variants.
#[derive(Clone, Copy, PartialEq, Eq, Debug)]
pub enum BootRefused {
    /// No pages, or more than 65,536.
    Pages,
    /// More pooled pages than pages.
    Pool,
    /// No virtual processors, more than 64, or more than the pool pays for at 4 pages each.
    Vps,
    /// The host is out of memory.
    Memory,
}
