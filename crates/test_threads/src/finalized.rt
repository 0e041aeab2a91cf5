// A partition that ends during a rep call of its processor.
ghost use Rattle.std.specs.Prelude.{◌≡◌};

use crate::calls::{assert_events, call, fast, numbers, open_for, reads, root, settled, small};
use hv_abi::Frame;
use hv_policy::{Action, Caller, Config, Reply, Rule};
use hv_threads::{Open, Pass, Shared};
use std::alloc::Global;
use std::marker::Brand;
use std::process::Abort;
use std::sync::Wait;
use std::sync::ledger::{Blank, Ledger};
use std::test::Fail;

// Serves a call of the root to its end, with this result value.
fn serve<L: Ledger, R: Abort + Wait>(
    rt: &R,
    shared: &Shared<L>,
    root: &mut Pass<L>,
    frame: Frame<Global>,
    bits: u64,
) -> Result<(), Fail> {
    let (value, reply) = shared.drive(rt, root, &Open, frame)?;
    assert_eq!(rt; value.bits(), bits);
    assert!(rt; matches!(reply, Reply::Served(_)));
    Ok(())
}

// Gives partition 2 all privileges of the root.
fn privileges(alloc: Global) -> Result<Frame<Global>, Fail> {
    let mut input = numbers(alloc, 2, 0x1_0000..0x1_0001)?;
    input.extend_from_slice(&0x0000_00f7_0000_0044u64.to_le_bytes())?;
    Ok(call(0x45, input))
}

// Creates partition 2, which has all privileges of the root, and its processor 0.
fn make_second<L: Ledger, R: Abort + Wait>(
    rt: &R,
    alloc: Global,
    shared: &Shared<L>,
    root: &mut Pass<L>,
) -> Result<(), Fail> {
    serve(rt, shared, root, call(0x40, numbers(alloc, 0, 0..0)?), 0)?;
    serve(rt, shared, root, privileges(alloc)?, 0)?;
    serve(rt, shared, root, fast(alloc, 0x1_0041, 2, 0), 0)?;
    let deposits = call(0x6_0000_0048, numbers(alloc, 2, 12..18)?);
    serve(rt, shared, root, deposits, 0x6_0000_0000)?;
    serve(rt, shared, root, fast(alloc, 0x1_004e, 2, 0), 0)
}

// Four reads of RAX of processor 0 of the partition itself, starting at an element.
fn four_reads(alloc: Global, start: u16) -> Result<Frame<Global>, Fail> {
    Ok(reads(alloc, u64::MAX, 0, 4)?.with_start(start % 4))
}

// The first two elements are read, one after another.
fn read_two<L: Ledger, R: Abort + Wait>(
    rt: &R,
    alloc: Global,
    shared: &Shared<L>,
    reader: &mut Pass<L>,
) -> Result<(), Fail> {
    for start in 0..2u16 {
        let element = Action::Hypercall(four_reads(alloc, start)?);
        match shared.call(rt, reader, &Open, element)? {
            Reply::More { next, output } => {
                assert_eq!(rt; next, start + 1);
                assert_eq!(rt; output.as_slice(), [0; 16].as_slice());
            }
            _ => panic!(rt; "there are four elements"),
        }
    }
    Ok(())
}

// The third element is denied by a rule, and the call ends with this result value.
fn deny_third<L: Ledger, R: Abort + Wait>(
    rt: &R,
    alloc: Global,
    shared: &Shared<L>,
    reader: &mut Pass<L>,
    bits: u64,
    wanted: Rule,
) -> Result<(), Fail> {
    let (value, reply) = shared.drive(rt, reader, &Open, four_reads(alloc, 2)?)?;
    assert_eq!(rt; value.bits(), bits);
    assert!(rt; matches!(reply, Reply::Denied { rule, .. } if rule == wanted));
    Ok(())
}

// The root finalizes partition 2 and deletes it. The call continues after neither.
fn end_second<L: Ledger, R: Abort + Wait>(
    rt: &R,
    alloc: Global,
    shared: &Shared<L>,
    root: &mut Pass<L>,
    reader: &mut Pass<L>,
) -> Result<(), Fail> {
    read_two(rt, alloc, shared, reader)?;
    serve(rt, shared, root, fast(alloc, 0x1_0042, 2, 0), 0)?;
    let finalized = Rule::CallerActive;
    deny_third(rt, alloc, shared, reader, 0x2_0000_0007, finalized)?;
    serve(rt, shared, root, fast(alloc, 0x1_0043, 2, 0), 0)?;
    let deleted = Rule::CallerExists;
    deny_third(rt, alloc, shared, reader, 0x2_0000_000d, deleted)
}

fn ends_as<L: Ledger, R: Abort + Wait>(rt: &R, alloc: Global, blank: Blank) -> Result<(), Fail>
    requires { (blank.name ≡ L.name) × (blank.parts ≡ L.parts) × (blank.parts ≡ 2) }
{
    let config = Config { vps: 1, ..small() };
    let callers = [root(0), Caller { part: 2, vp: 0 }];
    let (shared, mut first, mut second) = open_for::<L>(rt, alloc, blank, config, 1000, callers)?;
    make_second(rt, alloc, &shared, &mut first)?;
    end_second(rt, alloc, &shared, &mut first, &mut second)?;
    assert_eq!(rt; first.receipts().len(), 12);
    assert_eq!(rt; second.receipts().len(), 4);
    let kept = settled(rt, shared, vec![in alloc; first, second]?);
    assert_events(rt, &kept, 16);
    Ok(())
}

// A rep call's next element is denied after the caller's partition was finalized, and by another rule after
// it is gone.
#[test]
fn partition_ends(rt: HostRuntime) -> Result<(), Fail> {
    ends_as::<Brand, HostRuntime>(&rt, rt.alloc(), Blank::new(2))
}
