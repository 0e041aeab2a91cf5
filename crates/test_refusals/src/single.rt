// One call, which is served or denied.

use crate::actions::{create, must_be, must_have, must_have_room, told_at};
use crate::ended::{Fault, Refusal, Side, must};
use crate::gate::Count;
use hv_abi::Status;
use hv_history::HostRefused;
use hv_policy::{Answer, Reply, Rule};
use hv_threads::{Open, Pass, Shared};
use std::alloc::Global;
use std::sync::Wait;
use std::sync::ledger::Ledger;

// Creates a partition, or requests one. If there is no memory, the call leaves no receipt and is made again.
// Returns the reply and, if the call was refused, the side of the gate.
fn make<L: Ledger, R: Wait>(
    rt: &R,
    alloc: Global,
    shared: &Shared<L>,
    pass: &mut Pass<L>,
) -> Result<(Reply, Option<Side>), Fault> {
    let gate = Count::new();
    let before = pass.receipts().len();
    match shared.call(rt, pass, &gate, create(alloc)?) {
        Ok(reply) => {
            gate.must_have(1)?;
            must_have(pass, before, 1)?;
            Ok((reply, None))
        }
        Err(why) => {
            must_have(pass, before, 0)?;
            let side = refused_at(&gate, pass, why)?;
            let reply = make_again(rt, alloc, shared, pass)?;
            must_have(pass, before, 1)?;
            Ok((reply, Some(side)))
        }
    }
}

// The side of the gate on which the call was refused for lack of memory. Before the gate, room for a receipt
// is made.
fn refused_at<L: Ledger>(gate: &Count, pass: &Pass<L>, why: HostRefused) -> Result<Side, Fault> {
    must(why == HostRefused::Memory, Fault::Reason)?;
    let side = gate.side_after(0)?;
    if side == Side::Behind {
        must_have_room(pass)?;
    }
    Ok(side)
}

fn make_again<L: Ledger, R: Wait>(
    rt: &R,
    alloc: Global,
    shared: &Shared<L>,
    pass: &mut Pass<L>,
) -> Result<Reply, Fault> {
    match shared.call(rt, pass, &Open, create(alloc)?) {
        Ok(reply) => Ok(reply),
        Err(_) => Err(Fault::Again),
    }
}

// Creates a partition.
pub(crate) fn try_call<L: Ledger, R: Wait>(
    rt: &R,
    alloc: Global,
    shared: &Shared<L>,
    pass: &mut Pass<L>,
) -> Result<Option<Refusal>, Fault> {
    let (reply, side) = make(rt, alloc, shared, pass)?;
    let id = 2u64.to_le_bytes();
    must_be(&reply, Answer::Served, &id)?;
    must(told_at(pass, 0, Answer::Served, &id)? == 1, Fault::Receipt)?;
    Ok(side.map(Refusal::Call))
}

// The number of denials until there is room for another receipt and another entry.
const TIMES: u32 = 2;

// The answer that denies it.
const DENIED: Answer = Answer::Denied {
    rule: Rule::Pages,
    status: Status::InsufficientMemory,
    reps: 0,
};

// Requests another partition, for which there are no pages. The machine itself needs no memory for that. Once
// there is room for its receipt and its entry, the call can only be refused for lack of memory for its copy,
// before the gate.
pub(crate) fn try_denials<L: Ledger, R: Wait>(
    rt: &R,
    alloc: Global,
    shared: &Shared<L>,
    pass: &mut Pass<L>,
) -> Result<Option<Refusal>, Fault> {
    let mut refusal = None;
    for _ in 0..TIMES {
        let (reply, side) = make(rt, alloc, shared, pass)?;
        must_be(&reply, DENIED, &[])?;
        refusal = refusal.or(side);
    }
    let (reply, side) = make(rt, alloc, shared, pass)?;
    must_be(&reply, DENIED, &[])?;
    must(side != Some(Side::Behind), Fault::Denial)?;
    are_denied(pass)?;
    Ok(refusal.or(side).map(Refusal::Denial))
}

// Checks that the second to the fourth event were denied.
fn are_denied<L: Ledger>(pass: &Pass<L>) -> Result<(), Fault> {
    for (place, number) in [2, 3, 4].iter().enumerate() {
        must(
            told_at(pass, place, DENIED, &[])? == *number,
            Fault::Receipt,
        )?;
    }
    Ok(())
}
