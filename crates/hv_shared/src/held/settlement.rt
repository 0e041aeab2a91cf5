// The settlement of a history with the passes' receipts.
ghost use Rattle.std.specs.Prelude.{◌≡◌, ◌<◌, ◌≤◌, ◌+◌, [], IsTrue, true, ◌↔◌, IfErr, IfNone, IfOk};
ghost use Rattle.std.specs.Prelude.{ℕ, IfSome, None, OnOk, Option, Some, drop, length, reverse, slice_get};
ghost use Rattle.std.specs.Prelude.{slice_index_or, vec_len, vec_capacity, sum, All};
ghost use Rattle.std.specs.BinaryHeap.{heap_items};
ghost use Rattle.hv_history.specs.History.{entries};
ghost use Rattle.hv_history.specs.Kept.{IsRun};
ghost use Rattle.hv_history.specs.declared.entry.Entry.{Entry};
ghost use Rattle.hv_shared.specs.Due.{AreHeap, AreOf, IsDue, IsDueAfter, left_of, lefts_of};
ghost use Rattle.hv_shared.specs.Merge.{AreDone, IsOf, SettlesAs, next_is, receipts_of, shares_of};
ghost use Rattle.hv_shared.specs.Receipts.{list_of};
ghost use Rattle.hv_shared.specs.Settle.{IsFault, IsMadeOf, kept_of};

use super::Pass;
use crate::fault::{SettleFault, SettleRefused};
use crate::receipts::Receipts;
use crate::shared::Shared;
use hv_history::{History, Kept};
use hv_policy::Config;
use std::alloc::Global;
use std::cmp::Reverse;
use std::collections::BinaryHeap;
use std::sync::ledger::{Book, Ledger};

// The number of no event.
pub(crate) const NEVER: u64 = u64::MAX;

// The receipts of a pass, of which the settlement has found the first. Of two, the one that is due first is
// the greater, so it comes first out of a heap.
#[derive(Drop)]
#[derive_where(PartialEq, Eq, PartialOrd, Ord)]
pub(crate) struct Unsettled {
    // The number of the next receipt, or `NEVER`.
    due: Reverse<u64>,
    #[derive_where(skip(EqHashOrd))]
    receipts: Box<Receipts>,
    // The number of receipts that were found.
    #[derive_where(skip(EqHashOrd))]
    found: usize,
}

impl Unsettled {
    // Returns a pass's receipts, of which none was found.
    fn new(receipts: Box<Receipts>) -> Unsettled
        ensures left { left_of result ≡ list_of receipts.value }
        ensures due { IsDueAfter 0 result }
    {
        let due = Reverse(due_after(&receipts, 0, 0));
        Unsettled {
            due,
            receipts,
            found: 0,
        }
    }

    // Whether no receipt is left.
    fn is_empty(&self) -> bool
        ensures { IsTrue result ↔ (left_of self.now ≡ []) }
    {
        self.receipts.len() <= self.found
    }

    // Passes the next receipts that are of the events of a history from a place on, under their numbers,
    // which are below `until`. Returns how many.
    fn advance(&mut self, history: &History<Global>, at: usize, until: u64) -> usize
        requires place { at ≤ length (entries history.now) }
        requires never { length (entries history.now) < NEVER }
        ensures place { at + result ≤ length (entries history.now) }
        ensures until { 0 < result → at + result < until }
        ensures same { AreOf (at + 1) (drop at (entries history.now)) (left_of self.old) result }
        ensures left { left_of self.new ≡ drop result (left_of self.old) }
        ensures due { IsDueAfter (at + result) self.new }
        ensures none { (entry : Entry Global) → slice_get (entries history.now) at ≡ Some entry → result ≡ 0
            → at + 1 < until → next_is (at + 1) (left_of self.old) ≡ true → IsOf entry (left_of self.old)
            → ⊥ }
    {
        let count = self.receipts.run_of(self.found, history, at, until);
        self.found += count;
        self.due = Reverse(due_after(&self.receipts, self.found, (at + count) as u64));
        count
    }
}

// Returns the number of the receipt at a place if it is above this one, and otherwise `NEVER`: the settlement
// doesn't return to a lower number.
fn due_after(receipts: &Receipts, at: usize, number: u64) -> u64
    requires { number < NEVER }
    ensures { IsDue number result (drop at (list_of receipts.now)) }
{
    if at < receipts.len() {
        let next = receipts.number(at);
        if number < next { next } else { NEVER }
    } else {
        NEVER
    }
}

// Takes the passes apart: adds the receipts of each, the last pass first, and audits the book. With every
// pass present, its total is the sum of their shares.
fn take_apart<L: Ledger>(book: Book<L>, passes: Vec<Pass<L>>, rests: &mut Vec<Unsettled>)
    requires some { 0 < L.parts }
    requires empty { rests.old.items ≡ [] }
    requires room { L.parts ≤ vec_capacity rests.old }
    ensures lists { lefts_of (reverse rests.new.items) ≡ receipts_of passes.items }
    ensures due { All (IsDueAfter 0) rests.new.items }
    ensures total { vec_len passes ≡ L.parts → book.total ≡ sum (shares_of passes.items) }
{
    let mut book = book;
    let mut passes = passes;
    let Some(first) = passes.pop() else {
        return;
    };
    let (mut all, receipts) = first.into_parts();
    rests.push_reserved(Unsettled::new(receipts));
    while let Some(pass) = passes.pop() {
        let (share, receipts) = pass.into_parts();
        all.merge(share);
        rests.push_reserved(Unsettled::new(receipts));
    }
    book.audit(&mut all);
}

// Finds the receipts of the events from this place of a history on, as many as one rest has next, and returns
// the place behind them. That rest alone has their numbers, with the events and the replies. What is left
// then decides.
fn find_next(
    heap: &mut BinaryHeap<Unsettled>,
    history: &History<Global>,
    at: usize,
) -> Result<usize, SettleFault>
    requires place { at < length (entries history.now) }
    requires never { length (entries history.now) < NEVER }
    requires heap { AreHeap (heap_items heap.old) }
    requires due { All (IsDueAfter at) (heap_items heap.old) }
    ensures next { IfOk result (λ n. (at < n) × (n ≤ length (entries history.now))) }
    ensures heap { OnOk result (AreHeap (heap_items heap.new)) }
    ensures due { IfOk result (λ n. All (IsDueAfter n) (heap_items heap.new)) }
    ensures found { IfOk result (λ n. (fault : Option SettleFault)
        → SettlesAs (n + 1) (drop n (entries history.now)) (lefts_of (heap_items heap.new)) fault
        → SettlesAs (at + 1) (drop at (entries history.now)) (lefts_of (heap_items heap.old)) fault) }
    ensures fault { IfErr result (λ f. SettlesAs (at + 1) (drop at (entries history.now))
        (lefts_of (heap_items heap.old)) (Some f)) }
{
    let number = at as u64 + 1;
    let Some(mut rest) = heap.pop() else {
        return Err(SettleFault::Missing);
    };
    if rest.due.0 != number {
        return Err(SettleFault::Missing);
    }
    let until = first_due(heap);
    if until == number {
        return Err(SettleFault::Differs);
    }
    let count = rest.advance(history, at, until);
    if count == 0 {
        return Err(SettleFault::Differs);
    }
    let Ok(()) = heap.push(rest) else {
        unreachable!()
    };
    Ok(at + count)
}

// Returns the number at which the first of the heap is due, or `NEVER`.
fn first_due(heap: &BinaryHeap<Unsettled>) -> u64
    requires { AreHeap (heap_items heap.now) }
    ensures all { All (λ rest. result ≤ rest.due.0) (heap_items heap.now) }
    ensures least { (n : ℕ) → n ≤ NEVER → All (λ rest. n ≤ rest.due.0) (heap_items heap.now) → n ≤ result }
    ensures first { result < NEVER → (0 < length (heap_items heap.now))
        × ((d : Unsettled) → (slice_index_or (heap_items heap.now) 0 d).due.0 ≡ result) }
{
    match heap.peek() {
        Some(rest) => rest.due.0,
        None => NEVER,
    }
}

// Returns the first fault of the receipts against the history, if there is one.
fn first_fault(history: &History<Global>, rests: Vec<Unsettled>) -> Option<SettleFault>
    requires never { length (entries history.now) < NEVER }
    requires due { All (IsDueAfter 0) rests.items }
    ensures none { IfNone result (SettlesAs 1 (entries history.now) (lefts_of (reverse rests.items)) None) }
    ensures some { IfSome result (λ f. SettlesAs 1 (entries history.now) (lefts_of (reverse rests.items))
        (Some f)) }
{
    let mut heap = BinaryHeap::from(rests);
    let mut at = 0;
    while at < history.len() {
        match find_next(&mut heap, history, at) {
            Ok(next) => at = next,
            Err(fault) => return Some(fault),
        }
    }
    if are_empty(heap.as_slice()) {
        None
    } else {
        Some(SettleFault::Differs)
    }
}

// Whether no receipt is left to find.
fn are_empty(rests: &[Unsettled]) -> bool
    ensures { IsTrue result ↔ AreDone (lefts_of rests.now) }
{
    for rest in rests {
        if !rest.is_empty() {
            return false;
        }
    }
    true
}

// Returns the first fault of a history and these receipts, if there is one.
#[tactic(auto, using(crate::proofs::MergedHistory::fault_not_made))]
fn fault_of(
    kept: &Kept<Global>,
    config: Config,
    limit: u32,
    rests: Vec<Unsettled>,
) -> Option<SettleFault>
    requires { All (IsDueAfter 0) rests.items }
    ensures none { IfNone result (IsMadeOf config limit kept.now (lefts_of (reverse rests.items))) }
    ensures only { IfSome result (λ _. IsMadeOf config limit kept.now (lefts_of (reverse rests.items)) → ⊥) }
    ensures some { IfSome result (λ f. IsFault config limit kept.now (lefts_of (reverse rests.items)) f) }
{
    if kept.config() != config || kept.limit() != limit {
        return Some(SettleFault::Differs);
    }
    first_fault(kept.history(), rests)
}

/// Checks that the history is a merge of the passes' receipts, and was begun as `shared` says.
///
/// Hands back the machine with its history either way. It takes no memory.
pub fn settle<L: Ledger>(
    shared: Shared<L>,
    passes: Vec<Pass<L>>,
) -> Result<Kept<Global>, SettleRefused>
    ensures ok { IfOk result (λ k. IsMadeOf shared.config shared.limit k (receipts_of passes.items)) }
    ensures only { IfErr result (λ e. IsMadeOf shared.config shared.limit e.kept (receipts_of passes.items)
        → ⊥) }
    ensures fault { IfErr result (λ e. IsFault shared.config shared.limit e.kept (receipts_of passes.items)
        e.fault) }
    ensures count { vec_len passes ≡ shared.passes → length (kept_of result).history
        ≡ sum (shares_of passes.items) }
    ensures run { IsRun (kept_of result) }
{
    let (held, room, config, limit) = shared.into_parts();
    let (kept, book) = held.into_parts();
    let _history = kept.history();
    let mut rests = room;
    take_apart(book, passes, &mut rests);
    match fault_of(&kept, config, limit, rests) {
        None => Ok(kept),
        Some(fault) => Err(SettleRefused { fault, kept }),
    }
}
