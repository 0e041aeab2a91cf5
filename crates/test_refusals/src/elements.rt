// A call of forty elements, with one critical section for each 16 of them, and room for the receipts of many
// more.

use crate::actions::{FORTY, forty_reads, must_have_room, told_at};
use crate::ended::{Fault, Refusal, Side, must};
use crate::gate::Count;
use hv_abi::{Frame, ResultValue};
use hv_history::HostRefused;
use hv_policy::{Answer, Reply};
use hv_threads::{DriveRefused, Open, Pass, Shared};
use std::alloc::Global;
use std::sync::Wait;
use std::sync::ledger::Ledger;

// The number of holds of forty elements, and the number of elements in one of them.
const HOLDS: u64 = 3;

const IN_A_HOLD: u16 = 16;

// The output of an element: RAX, which has never been written, and zeros.
const READ: [u8; 16] = [0; 16];

// Whether all forty elements were served.
fn is_whole(told: &Result<(ResultValue, Reply), DriveRefused>) -> bool {
    match told {
        Ok((value, Reply::Served(output))) => {
            value.bits() == 0x28_0000_0000 && output.as_slice() == READ.as_slice()
        }
        _ => false,
    }
}

// Checks that the pass has the receipts of this many elements, after the one of the partition that was
// created. They start at the fifth event.
fn must_tell_reads<L: Ledger>(pass: &Pass<L>, elements: u16) -> Result<(), Fault> {
    must(
        pass.receipts().len() == 1 + usize::from(elements),
        Fault::Receipts,
    )?;
    let id = 2u64.to_le_bytes();
    must(told_at(pass, 0, Answer::Served, &id)? == 1, Fault::Receipt)?;
    for next in 1..elements.min(FORTY) + 1 {
        let answer = if next < FORTY {
            Answer::More { next }
        } else {
            Answer::Served
        };
        let number = told_at(pass, usize::from(next), answer, &READ)?;
        must(number == 4 + u64::from(next), Fault::Receipt)?;
    }
    Ok(())
}

// The side of the gate on which an element was refused. Room for a hold is made before the gate, so an
// element in the middle of a hold is refused behind it.
fn refused_at<L: Ledger>(gate: &Count, pass: &Pass<L>, element: u16) -> Result<Side, Fault> {
    let side = gate.side_after(u64::from(element / IN_A_HOLD))?;
    match side {
        Side::Before => must(element % IN_A_HOLD == 0, Fault::Element)?,
        Side::Behind => must_have_room(pass)?,
    }
    Ok(side)
}

// The rest of the call, starting at this element.
fn rest_from(alloc: Global, element: u16) -> Result<Frame<Global>, Fault> {
    if element >= FORTY {
        return Err(Fault::Element);
    }
    Ok(forty_reads(alloc)?.with_start(element))
}

// Drives the call to its end. If an element is refused, the ones before it have their receipts, and the call
// continues with the refused one.
pub(crate) fn try_drive<L: Ledger, R: Wait>(
    rt: &R,
    alloc: Global,
    shared: &Shared<L>,
    pass: &mut Pass<L>,
) -> Result<Option<Refusal>, Fault> {
    let gate = Count::new();
    let told = shared.drive(rt, pass, &gate, forty_reads(alloc)?);
    let refusal = match &told {
        Ok(_) => {
            must(is_whole(&told), Fault::Reply)?;
            gate.must_have(HOLDS)?;
            None
        }
        Err(refused) => {
            must(refused.why == HostRefused::Memory, Fault::Reason)?;
            let element = refused.next;
            must_tell_reads(pass, element)?;
            let side = refused_at(&gate, pass, element)?;
            drive_on(rt, alloc, shared, pass, element)?;
            Some(Refusal::Drive { element, side })
        }
    };
    must_tell_reads(pass, FORTY)?;
    Ok(refusal)
}

fn drive_on<L: Ledger, R: Wait>(
    rt: &R,
    alloc: Global,
    shared: &Shared<L>,
    pass: &mut Pass<L>,
    element: u16,
) -> Result<(), Fault> {
    let told = shared.drive(rt, pass, &Open, rest_from(alloc, element)?);
    must(is_whole(&told), Fault::Again)
}

// More receipts than any call makes room for.
const MANY: usize = 1000;

fn has_made_room<L: Ledger>(pass: &mut Pass<L>) -> bool {
    pass.reserve(MANY).is_ok() && pass.room() >= MANY
}

// Makes room for many receipts. If there is no memory for it, the forty-one receipts remain, and room is made
// again.
pub(crate) fn try_reserve<L: Ledger>(pass: &mut Pass<L>) -> Result<Option<Refusal>, Fault> {
    must(pass.room() < MANY, Fault::Room)?;
    let refusal = match pass.reserve(MANY) {
        Ok(()) => None,
        Err(_) => {
            must_tell_reads(pass, FORTY)?;
            must(pass.room() < MANY, Fault::Room)?;
            Some(Refusal::Reserve)
        }
    };
    must(has_made_room(pass), Fault::Again)?;
    must_tell_reads(pass, FORTY)?;
    Ok(refusal)
}
