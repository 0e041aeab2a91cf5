// The actions of the processors, and what they must have.

use crate::ended::{Fault, must};
use hv_abi::{Bytes, Frame};
use hv_policy::{Action, Answer, Reply};
use hv_threads::Pass;
use std::alloc::Global;
use std::sync::ledger::Ledger;

// A call whose input list has these bytes.
fn call(rcx: u64, input: Vec<u8>) -> Frame<Global> {
    Frame {
        rcx,
        rdx: 0,
        r8: 0,
        input: Bytes::from_vec(input),
    }
}

// Two actions: asks for the caller's own id, and reads a register.
pub(crate) fn two_actions(alloc: Global) -> Result<Vec<Action<Global>>, Fault> {
    let own_id = Action::Hypercall(call(0x46, Vec::new(alloc)));
    let actions = vec![in alloc; own_id, Action::ReadMsr(0x4000_0084)]?;
    Ok(actions)
}

// Whether the actions are these two.
pub(crate) fn are_the_two(actions: &[Action<Global>]) -> bool {
    match actions {
        [Action::Hypercall(frame), Action::ReadMsr(0x4000_0084)] => {
            let registers = [frame.rcx, frame.rdx, frame.r8];
            registers == [0x46, 0, 0] && frame.input.as_slice().is_empty()
        }
        _ => false,
    }
}

// Creates a partition.
pub(crate) fn create(alloc: Global) -> Result<Action<Global>, Fault> {
    let input = vec![in alloc; 0u8; 8]?;
    Ok(Action::Hypercall(call(0x40, input)))
}

// The number of elements of `forty_reads`.
pub(crate) const FORTY: u16 = 40;

// Reads RAX of processor 1 of the root forty times.
pub(crate) fn forty_reads(alloc: Global) -> Result<Frame<Global>, Fault> {
    let mut input = Vec::with_capacity(alloc, 16 + 4 * usize::from(FORTY))?;
    input.extend_from_slice(&1u64.to_le_bytes())?;
    input.extend_from_slice(&1u64.to_le_bytes())?;
    for _ in 0..FORTY {
        input.extend_from_slice(&0x2_0000u32.to_le_bytes())?;
    }
    Ok(call(0x28_0000_0050, input))
}

// Checks that the pass has this many receipts, and `more` besides.
pub(crate) fn must_have<L: Ledger>(
    pass: &Pass<L>,
    receipts: usize,
    more: u16,
) -> Result<(), Fault> {
    let gained = pass.receipts().len().checked_sub(receipts);
    must(gained == Some(usize::from(more)), Fault::Receipts)
}

// Checks that there is room for a receipt.
pub(crate) fn must_have_room<L: Ledger>(pass: &Pass<L>) -> Result<(), Fault> {
    must(pass.room() > 0, Fault::Room)
}

// Checks that the reply has this answer and this output.
pub(crate) fn must_be(reply: &Reply, answer: Answer, output: &[u8]) -> Result<(), Fault> {
    let (told, bytes) = reply.parts();
    must(told == answer && bytes == output, Fault::Reply)
}

// Checks that the receipt at a place has this answer and this output. Returns its number.
pub(crate) fn told_at<L: Ledger>(
    pass: &Pass<L>,
    place: usize,
    answer: Answer,
    output: &[u8],
) -> Result<u64, Fault> {
    let receipts = pass.receipts();
    if place >= receipts.len() {
        return Err(Fault::Receipts);
    }
    let receipt = receipts.get(place);
    let is_told = receipt.entry.answer == answer && receipt.entry.output == output;
    must(is_told, Fault::Receipt)?;
    Ok(receipt.number)
}
