// The processors of a partition.
ghost use Rattle.std.specs.Prelude.{◌≡◌, ◌+◌, ◌≤◌, ◌<◌, ◌==◌, IsOk, OnOk, OnErr, IfSome, false, length};
ghost use Rattle.std.specs.Prelude.{map as list_map, min, nat_lt, option_copied, filter, sum_by};
ghost use Rattle.std.specs.Borrow.{LendsIf, sem};
ghost use Rattle.std.specs.FinMap as map;
ghost use Rattle.std.specs.List.{position_from, reduce};
ghost use Rattle.std.specs.Option.{option_copied_mut};
ghost use Rattle.hv_mail.specs.Mail.{count_of};
ghost use Rattle.hv_vp.specs.Vps.{AreDistinct, cleared, is_ready, kept_by_all, lowest, no_vps, with_vp};
ghost use Rattle.hv_vp.specs.contracts.vp.Vp.{the_row as vp_row};
ghost use Rattle.hv_vp.specs.contracts.vps.Vps.{the_row};

use crate::vp::Vp;
use hv_defs::PortKind;
use std::alloc::{AllocError, Allocator};
use std::marker::Model;

// As many processors as a `u32` counts.
const MOST: usize = 0xFFFF_FFFF;

// A processor with its index.
#[derive(Drop)]
struct Slot<A: Allocator> {
    index: u32,
    vp: Vp<A>,
}

/// The processors of a partition, by their indexes.
#[derive(Drop)]
pub struct Vps<A: Allocator> {
    slots: Vec<Slot<A>, A>,
}

impl<A: Allocator> Model for Vps<A> {
    ghost use Rattle.std.specs.Prelude.{vec_capacity};
    ghost use Rattle.hv_vp.specs.Vps.{AreSlots, VpsState, seen_of, vps_code};

    ghost Value = { VpsState };

    ghost coded = { vps_code };

    ghost view = { λ v. seen_of v.slots.items (vec_capacity v.slots) };

    ghost invariant = { λ v. AreSlots v.slots.items };
}

impl<A: Allocator> Vps<A> {
    /// Creates a set of no processors, without memory for any.
    pub fn new(alloc: A) -> Vps<A>
        ensures { result ≡ no_vps }
    {
        Vps {
            slots: Vec::new(alloc),
        }
    }

    /// The processor with this index.
    pub fn get(&self, index: u32) -> Option<&Vp<A>>
        ensures { option_copied result ≡ map.get self.now.vps index }
    {
        match place_of(self.slots.as_slice(), index) {
            Some(place) => Some(&self.slots[place].vp),
            None => None,
        }
    }

    /// Returns a mutable reference to the processor with this index.
    pub fn get_mut(&mut self, index: u32) -> Option<&mut Vp<A>>
        ensures* writes_back { sem 𝓛 (LendsIf (the_row A.row A.Allocator)
            (vp_row A.row A.Allocator) self.entry result
            (λ w. with_vp self.old index w) self.old) }
        ensures value { option_copied_mut result ≡ map.get self.old.vps index }
    {
        match place_of(self.slots.as_slice(), index) {
            Some(place) => Some(&mut self.slots[place].vp),
            None => None,
        }
    }

    /// The number of processors.
    pub fn count(&self) -> u32
        ensures { result ≡ map.len self.now.vps }
    {
        self.slots.len() as u32
    }

    /// The lowest index of a processor that is ready for what a port of this kind takes, if there is one.
    pub fn lowest_ready_vp(&self, kind: PortKind) -> Option<u32>
        ensures { result ≡ lowest (is_ready kind) self.now.vps }
    {
        lowest_of(self.slots.as_slice(), kind)
    }

    /// Returns `true` if all processors together have fewer than `most` messages of this port and birth.
    ///
    /// Both shown and waiting messages count.
    pub fn keep_fewer(&self, port: u32, born: u64, most: usize) -> bool
        ensures { result ≡ nat_lt (kept_by_all port born self.now.vps) most }
    {
        keep_fewer(self.slots.as_slice(), port, born, most)
    }

    /// Makes room for one more processor. Existing room always suffices.
    ///
    /// Returns `Err` if there is no memory for it, or if there are 2^32 - 1 processors already. Nothing has
    /// changed then.
    pub fn reserve_one(&mut self) -> Result<(), AllocError>
        ensures room { OnOk result (1 ≤ self.new.room) }
        ensures enough { 1 ≤ self.old.room → IsOk result }
        ensures unchanged { OnErr result (self.new ≡ self.old) }
        ensures vps { self.new.vps ≡ self.old.vps }
        ensures kept { self.old.room ≤ self.new.room }
    {
        if self.slots.len() == MOST {
            return Err(AllocError);
        }
        self.slots.reserve(1)
    }

    /// Adds a processor with an index that is free. There must be room for it.
    pub fn put(&mut self, index: u32, vp: Vp<A>)
        requires room { 1 ≤ self.old.room }
        requires free { map.contains_key self.old.vps index ≡ false }
        ensures vps { self.new.vps ≡ map.insert self.old.vps index vp }
        ensures room { self.old.room ≤ self.new.room + 1 }
    {
        self.slots.push(Slot { index, vp }).unwrap();
    }

    /// Removes the processor with this index. Returns `true` if there was one.
    pub fn remove(&mut self, index: u32) -> bool
        ensures held { result ≡ map.contains_key self.old.vps index }
        ensures vps { self.new.vps ≡ map.remove self.old.vps index }
        ensures room { self.old.room ≤ self.new.room }
    {
        let Some(place) = place_of(self.slots.as_slice(), index) else {
            return false;
        };
        drop(self.slots.remove(place));
        true
    }

    /// Removes all processors. The room that they leave is kept.
    pub fn clear(&mut self)
        ensures { self.new ≡ cleared self.old }
    {
        self.slots.clear();
    }
}

// The place of a processor. Looks first at the place with the number of the index. The processor is there if
// all were made in the order of their indexes and none was removed. Among 64 processors the look saves a
// twentieth of an event (docs/SPEED.md).
fn place_of<A: Allocator>(slots: &[Slot<A>], index: u32) -> Option<usize>
    requires { AreDistinct slots.now }
    ensures place { result ≡ position_from (λ slot. slot.index == index) 0 slots.now }
    ensures within { IfSome result (λ place. place < length slots.now) }
{
    let guess = index as usize;
    if guess < slots.len() && slots[guess].index == index {
        return Some(guess);
    }
    scan(slots, index)
}

// The place of a processor, by a look at each.
fn scan<A: Allocator>(slots: &[Slot<A>], index: u32) -> Option<usize>
    ensures { result ≡ position_from (λ slot. slot.index == index) 0 slots.now }
{
    slots.iter().position(|slot| slot.index == index)
}

// The lowest index of the processors that are ready.
fn lowest_of<A: Allocator>(slots: &[Slot<A>], kind: PortKind) -> Option<u32>
    ensures { result ≡ reduce min (list_map (λ slot. slot.index)
        (filter (λ slot. is_ready kind slot.vp) slots.now)) }
{
    slots
        .iter()
        .filter(|slot| slot.vp.is_ready(kind))
        .map(|slot| slot.index)
        .min()
}

// Returns `true` if the processors have fewer than `most` messages of a port and birth. It counts no further.
fn keep_fewer<A: Allocator>(slots: &[Slot<A>], port: u32, born: u64, most: usize) -> bool
    ensures { result ≡ nat_lt (sum_by (λ slot. count_of port born slot.vp.mail) slots.now) most }
{
    let mut left = most;
    for slot in slots {
        let kept = slot.vp.of_port(port, born);
        if kept >= left {
            return false;
        }
        left -= kept;
    }
    left > 0
}
