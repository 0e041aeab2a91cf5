// The partition, seen as the record of its parts.
ghost use Rattle.std.specs.Prelude.{◌≡◌, ℕ, ◌+◌, ◌^◌, ◌<◌, ◌≤◌, ◌↔◌, ◌||◌, ◌&&◌, nat_le, nat_lt, false, IsOk};
ghost use Rattle.std.specs.Prelude.{IsNone, IfOk, IfSome, IfNone, OnOk, OnErr, option_copied};
ghost use Rattle.std.specs.Borrow.{LendsIf, sem};
ghost use Rattle.std.specs.FinMap as map;
ghost use Rattle.std.specs.FinSet as set;
ghost use Rattle.std.specs.Option.{option_copied_mut};
ghost use Rattle.hv_pages.specs.PageSet.{IsDisjoint, IsLowest, runs_of};
ghost use Rattle.hv_partition.specs.Partition.{new_partition, in_use, available, finalized, pages_in};
ghost use Rattle.hv_partition.specs.Partition.{with_pages, with_vp_of};
ghost use Rattle.hv_partition.specs.contracts.partition.Partition.{the_row};
ghost use Rattle.hv_vp.specs.Vps.{is_ready, kept_by_all, lowest};
ghost use Rattle.hv_vp.specs.contracts.vp.Vp.{the_row as vp_row};

use crate::PageKind;
use hv_defs::{
    CONNECTION_CHARGE, CPU_CAP_START, CPU_RESERVE_START, CPU_WEIGHT_START, Life, PARTITION_CHARGE,
    PORT_CHARGE, PortKind, VP_CHARGE,
};
use hv_pages::PageSet;
use hv_ports::{ConnTable, PortTable};
use hv_privs::Privileges;
use hv_vp::{Vp, Vps};
use std::alloc::{AllocError, Allocator};
use std::marker::Model;

/// A partition, in memory of an allocator `A`.
///
/// Its pages are loose, or pooled for the hypervisor's own use. Each of its processors has an index, and each
/// of its ports and connections has an id. Dropping a partition gives its memory back.
#[derive(Drop)]
pub struct Partition<A: Allocator> {
    // Boxed, so that a partition is small to move, as when a map grows.
    pub(crate) parts: Box<Parts<A>, A>,
}

// The parts of a partition.
#[derive(Drop)]
pub(crate) struct Parts<A: Allocator> {
    life: Life,
    mask: Privileges,
    reserve: u64,
    cap: u64,
    weight: u64,
    loose: PageSet<A>,
    pooled: PageSet<A>,
    vps: Vps<A>,
    pub(crate) ports: PortTable<A>,
    pub(crate) conns: ConnTable<A>,
}

impl<A: Allocator> Model for Partition<A> {
    ghost use Rattle.hv_partition.specs.Partition.{PartitionState, partition_code};

    ghost Value = { PartitionState };

    ghost coded = { partition_code };

    ghost view = { λ p. record {
      life = p.parts.value.life;
      mask = p.parts.value.mask;
      reserve = p.parts.value.reserve;
      cap = p.parts.value.cap;
      weight = p.parts.value.weight;
      loose = p.parts.value.loose;
      pooled = p.parts.value.pooled;
      vps = p.parts.value.vps;
      ports = p.parts.value.ports;
      conns = p.parts.value.conns;
    } };
}

impl<A: Allocator + Clone> Partition<A> {
    /// Creates a partition without pages, processors, ports and connections, and with the initial CPU
    /// properties.
    ///
    /// Returns `Err` if there is no memory for it, or if the allocator can't be cloned.
    pub fn new(alloc: A, life: Life, mask: Privileges) -> Result<Partition<A>, AllocError>
        ensures { IfOk result (λ p. p ≡ new_partition life mask) }
    {
        let own = alloc.clone()?;
        let parts = Parts {
            life,
            mask,
            reserve: CPU_RESERVE_START,
            cap: CPU_CAP_START,
            weight: CPU_WEIGHT_START,
            loose: PageSet::new(alloc.clone()?),
            pooled: PageSet::new(alloc.clone()?),
            vps: Vps::new(alloc.clone()?),
            ports: PortTable::new(alloc.clone()?),
            conns: ConnTable::new(alloc),
        };
        match Box::new(own, parts) {
            Ok(parts) => Ok(Partition { parts }),
            Err(_) => Err(AllocError),
        }
    }
}

impl<A: Allocator> Partition<A> {
    /// The life state.
    pub fn life(&self) -> Life
        ensures { result ≡ self.now.life }
    {
        self.parts.life
    }

    /// The privilege mask.
    pub fn mask(&self) -> Privileges
        ensures { result ≡ self.now.mask }
    {
        self.parts.mask
    }

    /// The CPU reserve, out of 65,536.
    pub fn cpu_reserve(&self) -> u64
        ensures { result ≡ self.now.reserve }
    {
        self.parts.reserve
    }

    /// The CPU cap, out of 65,536.
    pub fn cpu_cap(&self) -> u64
        ensures { result ≡ self.now.cap }
    {
        self.parts.cap
    }

    /// The CPU weight, from 1 to 10,000.
    pub fn cpu_weight(&self) -> u64
        ensures { result ≡ self.now.weight }
    {
        self.parts.weight
    }

    /// The pages of a kind.
    pub fn pages(&self, kind: PageKind) -> &PageSet<A>
        ensures { result.now ≡ pages_in kind self.now }
    {
        match kind {
            PageKind::Loose => &self.parts.loose,
            PageKind::Pooled => &self.parts.pooled,
        }
    }

    /// Writes the life state.
    pub fn set_life(&mut self, life: Life)
        ensures { self.new ≡ record self.old { life = life } }
    {
        self.parts.life = life;
    }

    /// Writes the privilege mask.
    pub fn set_mask(&mut self, mask: Privileges)
        ensures { self.new ≡ record self.old { mask = mask } }
    {
        self.parts.mask = mask;
    }

    /// Writes the CPU reserve. It accepts any number.
    pub fn set_cpu_reserve(&mut self, reserve: u64)
        ensures { self.new ≡ record self.old { reserve = reserve } }
    {
        self.parts.reserve = reserve;
    }

    /// Writes the CPU cap. It accepts any number.
    pub fn set_cpu_cap(&mut self, cap: u64)
        ensures { self.new ≡ record self.old { cap = cap } }
    {
        self.parts.cap = cap;
    }

    /// Writes the CPU weight. It accepts any number.
    pub fn set_cpu_weight(&mut self, weight: u64)
        ensures { self.new ≡ record self.old { weight = weight } }
    {
        self.parts.weight = weight;
    }

    /// Finalizes the partition: removes its processors, ports and connections, and keeps its pages.
    pub fn finalize(&mut self)
        ensures { self.new ≡ finalized self.old }
    {
        self.parts.life = Life::Finalized;
        self.parts.vps.clear();
        self.parts.ports.clear();
        self.parts.conns.clear();
    }

    /// The number of pooled pages that `children` children and its processors, ports and connections use.
    ///
    /// The charges are this project's own.
    pub fn in_use(&self, children: u32) -> u64
        ensures { result ≡ in_use children self.now }
    {
        PARTITION_CHARGE * u64::from(children)
            + VP_CHARGE * u64::from(self.vp_count())
            + PORT_CHARGE * u64::from(self.port_count())
            + CONNECTION_CHARGE * u64::from(self.conn_count())
    }

    /// The number of pooled pages that are still available.
    ///
    /// The other pooled pages are in use by `children` children and its processors, ports and connections.
    pub fn available(&self, children: u32) -> u64
        requires { in_use children self.now ≤ set.len self.now.pooled.pages }
        ensures { result ≡ available children self.now }
    {
        self.parts.pooled.count() - self.in_use(children)
    }
}

// The processors. Each call requires and promises what the call of `Vps` does.
impl<A: Allocator> Partition<A> {
    /// The processor with this index, or `None` if the partition has none.
    pub fn vp(&self, index: u32) -> Option<&Vp<A>>
        ensures { option_copied result ≡ map.get self.now.vps.vps index }
    {
        self.parts.vps.get(index)
    }

    /// Returns a mutable reference to the processor with this index.
    pub fn vp_mut(&mut self, index: u32) -> Option<&mut Vp<A>>
        ensures* writes_back { sem 𝓛 (LendsIf (the_row A.row A.Allocator) (vp_row A.row A.Allocator)
            self.entry result
            (λ w. with_vp_of self.old index w) self.old) }
        ensures value { option_copied_mut result ≡ map.get self.old.vps.vps index }
    {
        self.parts.vps.get_mut(index)
    }

    /// The lowest index of a processor that is ready for what a port of this kind takes, if there is one.
    pub fn lowest_ready_vp(&self, kind: PortKind) -> Option<u32>
        ensures { result ≡ lowest (is_ready kind) self.now.vps.vps }
    {
        self.parts.vps.lowest_ready_vp(kind)
    }

    /// Returns `true` if its processors together have fewer than `most` messages of this port and birth.
    ///
    /// Both shown and waiting messages count.
    pub fn keep_fewer(&self, port: u32, born: u64, most: usize) -> bool
        ensures { result ≡ nat_lt (kept_by_all port born self.now.vps.vps) most }
    {
        self.parts.vps.keep_fewer(port, born, most)
    }

    /// The number of the partition's processors.
    pub fn vp_count(&self) -> u32
        ensures { result ≡ map.len self.now.vps.vps }
    {
        self.parts.vps.count()
    }

    /// Makes room for one more processor. Existing room always suffices.
    ///
    /// Returns `Err` if there is no memory for it, or if the partition has 2^32 - 1 processors. The partition
    /// is then as it was.
    pub fn reserve_vp(&mut self) -> Result<(), AllocError>
        ensures ok { OnOk result (1 ≤ self.new.vps.room) }
        ensures enough { 1 ≤ self.old.vps.room → IsOk result }
        ensures unchanged { OnErr result (self.new ≡ self.old) }

        // In either case.
        ensures vps { self.new.vps.vps ≡ self.old.vps.vps }
        ensures room { self.old.vps.room ≤ self.new.vps.room }
        ensures rest { self.new ≡ record self.old { vps = self.new.vps } }
    {
        self.parts.vps.reserve_one()
    }

    /// Adds a processor with an index that is free. There must be room for it.
    pub fn add_vp(&mut self, index: u32, vp: Vp<A>)
        requires room { 1 ≤ self.old.vps.room }
        requires free { map.contains_key self.old.vps.vps index ≡ false }
        ensures vps { self.new.vps.vps ≡ map.insert self.old.vps.vps index vp }
        ensures room { self.old.vps.room ≤ self.new.vps.room + 1 }
        ensures rest { self.new ≡ record self.old { vps = self.new.vps } }
    {
        self.parts.vps.put(index, vp);
    }

    /// Removes the processor with this index. Returns `true` if there was one.
    pub fn remove_vp(&mut self, index: u32) -> bool
        ensures held { result ≡ map.contains_key self.old.vps.vps index }
        ensures vps { self.new.vps.vps ≡ map.remove self.old.vps.vps index }
        ensures room { self.old.vps.room ≤ self.new.vps.room }
        ensures rest { self.new ≡ record self.old { vps = self.new.vps } }
    {
        self.parts.vps.remove(index)
    }
}

// The pages. Each call requires and promises what the call of `PageSet` does.
impl<A: Allocator> Partition<A> {
    /// Makes room for at least `more` changes of the pages of a kind. Existing room always suffices.
    ///
    /// Returns `Err` if there is no memory for it. The partition is then as it was.
    pub fn reserve(&mut self, kind: PageKind, more: usize) -> Result<(), AllocError>
        ensures ok { OnOk result (more ≤ (pages_in kind self.new).room) }
        ensures enough { more ≤ (pages_in kind self.old).room → IsOk result }
        ensures unchanged { OnErr result (self.new ≡ self.old) }

        // In either case.
        ensures pages { (pages_in kind self.new).pages ≡ (pages_in kind self.old).pages }
        ensures room { (pages_in kind self.old).room ≤ (pages_in kind self.new).room }
        ensures rest { self.new ≡ with_pages kind (pages_in kind self.new) self.old }
    {
        match kind {
            PageKind::Loose => self.parts.loose.reserve(more),
            PageKind::Pooled => self.parts.pooled.reserve(more),
        }
    }

    /// Inserts a page of a kind that is not among them. There must be room for it.
    pub fn put(&mut self, kind: PageKind, page: u32)
        requires room { 1 ≤ (pages_in kind self.old).room }
        requires new { set.contains (pages_in kind self.old).pages page ≡ false }
        ensures pages { (pages_in kind self.new).pages ≡ set.insert (pages_in kind self.old).pages page }
        ensures room { (pages_in kind self.old).room ≤ (pages_in kind self.new).room + 1 }
        ensures rest { self.new ≡ with_pages kind (pages_in kind self.new) self.old }
    {
        match kind {
            PageKind::Loose => self.parts.loose.put(page),
            PageKind::Pooled => self.parts.pooled.put(page),
        }
    }

    /// Inserts `length` pages of a kind from `start` on, none of which is among them. It takes no memory.
    ///
    /// There must be room for one change, however many pages they are.
    pub fn put_run(&mut self, kind: PageKind, start: u32, length: u64)
        requires room { 1 ≤ (pages_in kind self.old).room }
        requires some { 1 ≤ length }
        requires fits { start + length ≤ 2 ^ 32 }
        requires new { (page : ℕ) → start ≤ page → page < start + length
            → set.contains (pages_in kind self.old).pages page ≡ false }
        ensures pages { (page : ℕ) → set.contains (pages_in kind self.new).pages page
            ≡ (set.contains (pages_in kind self.old).pages page
            || (nat_le start page && nat_lt page (start + length))) }
        ensures count { set.len (pages_in kind self.new).pages
            ≡ set.len (pages_in kind self.old).pages + length }
        ensures room { (pages_in kind self.old).room ≤ (pages_in kind self.new).room + 1 }
        ensures rest { self.new ≡ with_pages kind (pages_in kind self.new) self.old }
    {
        match kind {
            PageKind::Loose => self.parts.loose.put_run(start, length),
            PageKind::Pooled => self.parts.pooled.put_run(start, length),
        }
    }

    /// Removes a page from those of a kind. Returns `true` if it was among them.
    ///
    /// There must be room for one change.
    pub fn take(&mut self, kind: PageKind, page: u32) -> bool
        requires { 1 ≤ (pages_in kind self.old).room }
        ensures held { result ≡ set.contains (pages_in kind self.old).pages page }
        ensures pages { (pages_in kind self.new).pages ≡ set.remove (pages_in kind self.old).pages page }
        ensures room { (pages_in kind self.old).room ≤ (pages_in kind self.new).room + 1 }
        ensures rest { self.new ≡ with_pages kind (pages_in kind self.new) self.old }
    {
        match kind {
            PageKind::Loose => self.parts.loose.take(page),
            PageKind::Pooled => self.parts.pooled.take(page),
        }
    }

    /// Removes and returns the lowest page of a kind, or returns `None` if there are none. It takes constant
    /// time.
    pub fn take_lowest(&mut self, kind: PageKind) -> Option<u32>
        ensures none { IsNone result ↔ ((pages_in kind self.old).pages ≡ set.empty) }
        ensures empty { IfNone result ((pages_in kind self.new).pages ≡ (pages_in kind self.old).pages) }
        ensures lowest { IfSome result (IsLowest (pages_in kind self.old).pages) }
        ensures taken { IfSome result (λ page.
            (pages_in kind self.new).pages ≡ set.remove (pages_in kind self.old).pages page) }
        ensures room { (pages_in kind self.old).room ≤ (pages_in kind self.new).room }
        ensures rest { self.new ≡ with_pages kind (pages_in kind self.new) self.old }
    {
        match kind {
            PageKind::Loose => self.parts.loose.take_lowest(),
            PageKind::Pooled => self.parts.pooled.take_lowest(),
        }
    }

    /// Takes over all pages of a partition that is gone, and gives that partition's memory back.
    ///
    /// Its loose and its pooled pages become loose pages. There must be room for each of its runs of pages,
    /// and each costs as much as one `put`.
    pub fn take_over(&mut self, gone: Partition<A>)
        requires room { runs_of gone.loose.pages + runs_of gone.pooled.pages ≤ self.old.loose.room }
        requires loose { IsDisjoint self.old.loose.pages gone.loose.pages }
        requires pooled { IsDisjoint self.old.loose.pages gone.pooled.pages }
        requires apart { IsDisjoint gone.loose.pages gone.pooled.pages }
        ensures pages { self.new.loose.pages
            ≡ set.union (set.union self.old.loose.pages gone.loose.pages) gone.pooled.pages }
        ensures room { self.old.loose.room
            ≤ self.new.loose.room + runs_of gone.loose.pages + runs_of gone.pooled.pages }
        ensures rest { self.new ≡ record self.old { loose = self.new.loose } }
    {
        let Parts { loose, pooled, .. } = Box::into_inner(gone.parts);
        absorb_both(&mut self.parts.loose, loose, pooled);
    }
}

// Takes over the pages of two sets that share no page with each other.
fn absorb_both<A: Allocator>(all: &mut PageSet<A>, one: PageSet<A>, other: PageSet<A>)
    requires room { runs_of one.pages + runs_of other.pages ≤ all.old.room }
    requires one { IsDisjoint all.old.pages one.pages }
    requires other { IsDisjoint all.old.pages other.pages }
    requires apart { IsDisjoint one.pages other.pages }
    ensures pages { all.new.pages ≡ set.union (set.union all.old.pages one.pages) other.pages }
    ensures room { all.old.room ≤ all.new.room + runs_of one.pages + runs_of other.pages }
{
    all.absorb(one);
    all.absorb(other);
}
