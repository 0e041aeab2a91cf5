// The laws of the definitions in `specs/`. The functions have no code: the contract of each is a theorem.
ghost use Rattle.std.specs.Prelude.{◌≡◌, ◌<◌, ℕ, List, [], length, slice_index_or, Contains};
ghost use Rattle.hv_history.specs.declared.entry.Entry.{Entry};
ghost use Rattle.hv_policy.specs.declared.event.Caller.{Caller};
ghost use Rattle.hv_shared.specs.ByCaller.{AreDifferent, AreTheirs, receipts_by};
ghost use Rattle.hv_shared.specs.Counted.{IsCounted};
ghost use Rattle.hv_shared.specs.Merge.{IsMerge};
ghost use Rattle.hv_shared.specs.declared.receipts.Receipt.{Receipt};

use std::alloc::Global;

/// A history is a merge of lists of receipts exactly if they agree number by number.
///
/// That is: every number from 1 to the history's length is in one list, once, and no other number is in any.
/// The numbers of each list rise. The event and the reply of each receipt are the history's at its number.
pub fn a_merge_counts_each_number_once()
    ensures counted { (history : List (Entry Global)) (lists : List (List Receipt)) → IsMerge history lists
        → IsCounted history lists }
    ensures merge { (history : List (Entry Global)) (lists : List (List Receipt)) → IsCounted history lists
        → IsMerge history lists }
{}

/// If a history merges passes with different callers, each pass has exactly the receipts of its caller's
/// events.
///
/// They are in order and have the events' numbers. Nobody else made an event happen.
pub fn each_caller_did_what_its_pass_has()
    ensures did { (callers : List Caller) (lists : List (List Receipt)) (history : List (Entry Global))
        → length lists ≡ length callers → AreDifferent callers → AreTheirs callers lists
        → IsMerge history lists → (i : ℕ) (c : Caller) → i < length callers → c ≡ slice_index_or callers i c
        → receipts_by c 1 history ≡ slice_index_or lists i [] }
    ensures nobody { (callers : List Caller) (lists : List (List Receipt)) (history : List (Entry Global))
        → length lists ≡ length callers → AreTheirs callers lists → IsMerge history lists → (c : Caller)
        → (Contains callers c → ⊥) → receipts_by c 1 history ≡ [] }
{}
