// Hooks around the lock.

use hv_policy::Caller;
use std::sync::Wait;

/// Hooks around each hold of the lock: before the lock is taken, and after the receipts are kept.
///
/// In a hold one event happens, or up to 16 elements of one call. The turn is the number of receipts that the
/// caller's pass had before. Without memory for the receipts there is no hold, and neither hook is called.
pub trait Gate: Sync {
    /// Called before the lock is taken. A hook that waits here holds the events back.
    fn enter<R: Wait>(&self, rt: &R, by: Caller, turn: u64);

    /// Called once the receipts are kept, with the same turn, even if the host refused an event.
    fn leave<R: Wait>(&self, rt: &R, by: Caller, turn: u64);
}

/// A gate that does nothing.
#[derive(Clone, Copy, Debug)]
pub struct Open;

impl Gate for Open {
    fn enter<R: Wait>(&self, _rt: &R, _by: Caller, _turn: u64) {}

    fn leave<R: Wait>(&self, _rt: &R, _by: Caller, _turn: u64) {}
}
