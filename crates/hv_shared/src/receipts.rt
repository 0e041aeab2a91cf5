// The receipts of a thread, packed as a history is, with a number beside each entry.
ghost use Rattle.std.specs.Prelude.{◌≡◌, ◌+◌, ◌<◌, ◌≤◌, ◌^◌, ◌++◌, [], ◌∷◌, ℕ, OnOk, Some, drop, true};
ghost use Rattle.std.specs.Prelude.{◌-◌, length, option_map, slice_get, vec_len, vec_capacity};
ghost use Rattle.std.specs.List.{range_with_len};
ghost use Rattle.hv_defs.specs.declared.sizes.TheConstants.{REPS_END};
ghost use Rattle.hv_policy.specs.Parts.{next_in, reply_of};
ghost use Rattle.hv_history.specs.History.{entries};
ghost use Rattle.hv_history.specs.Row.{DifferInRcx};
ghost use Rattle.hv_history.specs.declared.entry.Entry.{Entry};

use hv_history::{Answer, EntryRef, History};
use hv_policy::{Event, Reply};
use std::alloc::{AllocError, Global};

/// A receipt, as contracts see it: the history has this event and reply at this number, counted from 1.
#[derive(Drop)]
pub struct Receipt {
    pub number: u64,
    pub event: Event<Global>,
    pub reply: Reply,
}

/// A receipt, borrowed from a pass.
#[derive(Clone, Copy)]
pub struct ReceiptRef<'p> {
    pub number: u64,
    pub entry: EntryRef<'p>,
}

/// The receipts of one thread's events, in the order in which they happened.
#[derive(Drop)]
pub struct Receipts {
    // A history has at most as many events as its limit, which is a u32.
    pub(crate) numbers: Vec<u32>,
    pub(crate) packed: History<Global>,
    ghost each: { vec_len numbers ≡ length (entries packed) },
}

impl Receipts {
    ghost use Rattle.hv_shared.specs.Merge.{IsOf, next_is};
    ghost use Rattle.hv_shared.specs.Due.{AreOf};
    ghost use Rattle.hv_shared.specs.declared.held.settlement.TheConstants.{NEVER};
    ghost use Rattle.hv_shared.specs.Pass.{receipt};
    ghost use Rattle.hv_shared.specs.Receipts.{list_of, numbered, receipt_by, room_in};

    // Creates an empty list.
    pub(crate) fn new(alloc: Global) -> Receipts
        ensures { list_of result ≡ [] }
    {
        Receipts {
            numbers: Vec::new(alloc),
            packed: History::new(alloc),
        }
    }

    /// The number of receipts.
    pub fn len(&self) -> usize
        ensures { result ≡ length (list_of self.now) }
    {
        self.numbers.len()
    }

    /// The number of the receipt at a place, counted from 0.
    pub fn number(&self, at: usize) -> u64
        requires { at < length (list_of self.now) }
        ensures { option_map (λ r. r.number) (slice_get (list_of self.now) at) ≡ Some result }
    {
        u64::from(self.numbers[at])
    }

    /// The receipt at a place, counted from 0.
    pub fn get(&self, at: usize) -> ReceiptRef<'_>
        requires { at < length (list_of self.now) }
        ensures receipt { slice_get (list_of self.now) at ≡ Some (receipt_by result) }
        ensures most { length result.entry.output.now ≤ 256 }
    {
        ReceiptRef {
            number: u64::from(self.numbers[at]),
            entry: self.packed.entry(at),
        }
    }

    // Returns how many receipts from a place on are of the events of a history from `place` on, in order,
    // under their numbers, which are below `until`.
    pub(crate) fn run_of(
        &self,
        at: usize,
        history: &History<Global>,
        place: usize,
        until: u64,
    ) -> usize
        requires there { place ≤ length (entries history.now) }
        requires never { length (entries history.now) < NEVER }
        ensures here { at + result < 2 ^ 64 }
        ensures there { place + result ≤ length (entries history.now) }
        ensures until { 0 < result → place + result < until }
        ensures same { AreOf (place + 1) (drop place (entries history.now)) (drop at (list_of self.now))
            result }
        ensures none { (entry : Entry Global) → slice_get (entries history.now) place ≡ Some entry
            → result ≡ 0 → place + 1 < until → next_is (place + 1) (drop at (list_of self.now)) ≡ true
            → IsOf entry (drop at (list_of self.now)) → ⊥ }
    {
        if self.numbers.len() <= at {
            return 0;
        }
        let end = until.min(history.len() as u64 + 1);
        let most = self.count_from(at, place as u64 + 1, end);
        self.packed.common(at, history, place, most)
    }

    // Returns how many receipts from a place on have the numbers from this one on, in order, below `end`.
    fn count_from(&self, at: usize, from: u64, end: u64) -> usize
        requires here { at ≤ vec_len self.now.numbers }
        ensures here { at + result ≤ vec_len self.now.numbers }
        ensures end { 0 < result → from + result ≤ end }
        ensures same { (i : ℕ) → i < result → slice_get self.now.numbers.items (at + i) ≡ Some (from + i) }
        ensures none { result ≡ 0 → from < end → slice_get self.now.numbers.items at ≡ Some from → ⊥ }
    {
        let mut number = from;
        for i in at..self.numbers.len() {
            if end <= number || u64::from(self.numbers[i]) != number {
                return i - at;
            }
            number += 1;
        }
        self.numbers.len() - at
    }

    // The allocator of the receipts.
    pub(crate) fn allocator(&self) -> Global {
        *self.numbers.allocator()
    }

    // The number of further receipts for which there is room.
    pub(crate) fn room(&self) -> usize
        ensures { result ≡ room_in self.now }
    {
        let numbers = self.numbers.capacity() - self.numbers.len();
        numbers.min(self.packed.room())
    }

    // Makes room for `more` further receipts.
    pub(crate) fn reserve(&mut self, more: usize) -> Result<(), AllocError>
        ensures same { list_of self.new ≡ list_of self.old }
        ensures room { OnOk result (more ≤ room_in self.new) }
    {
        self.numbers.reserve(more)?;
        self.packed.reserve(more)
    }

    // Adds a receipt, for which there is room.
    pub(crate) fn push(&mut self, number: u32, event: Event<Global>, answer: Answer, output: &[u8])
        requires room { 1 ≤ room_in self.old }
        requires most { length output.now ≤ 256 }
        requires index { next_in (reply_of answer []) < REPS_END }
        ensures pushed { list_of self.new ≡ list_of self.old
            ++ receipt number event (reply_of answer output.now) ∷ [] }
        ensures room { room_in self.old ≤ room_in self.new + 1 }
    {
        self.numbers.push_reserved(number);
        self.packed.push(event, answer, output);
    }

    // Adds a receipt of each event of a history from a place on. There is room for them, and `copy` differs
    // from each of them in RCX alone. It stays as it is, or becomes the receipts'.
    pub(crate) fn push_all(
        &mut self,
        history: &History<Global>,
        from: usize,
        copy: &mut Event<Global>,
    )
        requires alike { DifferInRcx copy.old (drop from (entries history.now)) }
        requires from { from ≤ length (entries history.now) }
        requires few { length (entries history.now) < 2 ^ 32 }
        requires room { length (entries history.now) ≤ from + room_in self.old }
        ensures { list_of self.new ≡ list_of self.old
            ++ numbered (from + 1) (drop from (entries history.now)) }
    {
        push_numbers(&mut self.numbers, from, history.len());
        self.packed.push_all(copy, history, from);
    }
}

// Adds the numbers above `from` up to `to`, for which there is room.
fn push_numbers(numbers: &mut Vec<u32>, from: usize, to: usize)
    requires order { from ≤ to }
    requires few { to < 2 ^ 32 }
    requires room { vec_len numbers.old + (to - from) ≤ vec_capacity numbers.old }
    ensures len { vec_len numbers.new ≡ vec_len numbers.old + (to - from) }
    ensures items { numbers.new.items ≡ numbers.old.items ++ range_with_len (from + 1) (to - from) }
{
    for at in from..to {
        numbers.push_reserved(at as u32 + 1);
    }
}
