// Numbers of receipts, which show that a phase or a line began after the one before it had ended.
ghost use Rattle.std.specs.Prelude.{◌≡◌, ◌≤◌, All, IfOk, IfSome, drop, length, map};
ghost use Rattle.hv_phases.specs.PassMap.{IsWithin};
ghost use Rattle.hv_shared.specs.Receipts.{list_of};

use hv_threads::{Receipts, Work};
use std::alloc::{AllocError, Global};
use std::sync::ledger::Ledger;

/// Returns the number of receipts that each pass has before its thread.
pub fn counts_of<L: Ledger>(alloc: Global, works: &[Work<L>]) -> Result<Vec<usize>, AllocError>
    ensures { IfOk result (λ counts. counts.items ≡ map (λ work. length work.pass.receipts) works.now) }
{
    let mut counts = Vec::with_capacity(alloc, works.len())?;
    for at in 0..works.len() {
        counts.push(works[at].pass.receipts().len())?;
    }
    Ok(counts)
}

/// Returns the highest of `highest` and the receipts' numbers from a place on, if each of those is above
/// `last`.
pub fn highest_above(receipts: &Receipts, from: usize, last: u64, highest: u64) -> Option<u64>
    ensures { IfSome result (λ now. (highest ≤ now) × All (IsWithin last now) (drop from
        (list_of receipts.now))) }
{
    let mut highest = highest;
    for at in from..receipts.len() {
        let number = receipts.number(at);
        if number <= last {
            return None;
        }
        highest = highest.max(number);
    }
    Some(highest)
}
