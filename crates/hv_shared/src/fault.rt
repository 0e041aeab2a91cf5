// The faults that a settlement finds.

use hv_history::Kept;
use std::alloc::Global;

/// Why the history is not a merge of the receipts.
///
/// The least number of the history that fails decides. At each number the checks have the order of the
/// variants.
#[derive(Clone, Copy, PartialEq, Eq, Debug)]
pub enum SettleFault {
    /// A number of the history is not the number of any pass's next receipt.
    Missing,
    /// Two passes claim a number, an event or reply differs, receipts are left over, or the history was
    /// begun with another configuration or limit.
    Differs,
}

/// The fault that a settlement found, with the machine and its history.
#[derive(Drop)]
pub struct SettleRefused {
    pub fault: SettleFault,
    pub kept: Kept<Global>,
}
