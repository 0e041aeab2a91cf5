// Events without a lock, and room for receipts.
ghost use Rattle.std.specs.Prelude.{◌≡◌};

use crate::calls::{OWN_ID, assert_events, boot, call, forty_reads, open, root, small};
use hv_history::{HostRefused, Kept, RunDone};
use hv_policy::{Action, Event, Reply};
use hv_threads::Pass;
use std::alloc::Global;
use std::marker::Brand;
use std::process::Abort;
use std::sync::ledger::{Blank, Ledger};
use std::test::Fail;

fn assert_sixteen(rt: &impl Abort, done: RunDone) {
    assert_eq!(rt; done.events, 16);
    assert!(rt; matches!(done.last, Ok(Reply::More { next: 16, .. })));
}

// The first sixteen elements of a call happen, and then the others, up to the last.
#[test]
fn runs_on(rt: HostRuntime) -> Result<(), Fail> {
    let alloc = rt.alloc();
    let mut kept = boot(alloc, small(), 100)?;
    assert_sixteen(&rt, kept.apply_run(root(1), forty_reads(alloc, 1)?, 16));
    let rest = kept.apply_run(root(1), forty_reads(alloc, 1)?.with_start(16), 100);
    assert_eq!(rt; rest.events, 24);
    assert!(rt; matches!(rest.last, Ok(Reply::Served(_))));
    assert_eq!(rt; kept.history().len(), 40);
    Ok(())
}

// Asks for the root's own id.
fn ask(kept: &mut Kept<Global>, alloc: Global) -> Result<(u64, Reply), HostRefused> {
    kept.apply(Event {
        by: root(0),
        what: Action::Hypercall(call(OWN_ID, Vec::new(alloc))),
    })
}

fn assert_asked(rt: &impl Abort, told: Result<(u64, Reply), HostRefused>, number: u64) {
    match told {
        Ok((at, Reply::Served(id))) => {
            assert_eq!(rt; at, number);
            assert_eq!(rt; id.as_slice(), 1u64.to_le_bytes().as_slice());
        }
        _ => panic!(rt; "a call for one's own id is served"),
    }
}

// A history holds as many events as its limit says, and the next event changes nothing.
#[test]
fn fills(rt: HostRuntime) -> Result<(), Fail> {
    let alloc = rt.alloc();
    let mut kept = boot(alloc, small(), 2)?;
    assert_asked(&rt, ask(&mut kept, alloc), 1);
    assert!(rt; !kept.is_full());
    assert_asked(&rt, ask(&mut kept, alloc), 2);
    assert!(rt; kept.is_full());
    let refused = ask(&mut kept, alloc);
    assert!(rt; matches!(refused, Err(HostRefused::HistoryFull)));
    assert_events(&rt, &kept, 2);
    assert_eq!(rt; kept.machine().served(), 2);
    Ok(())
}

// A new pass has no room. After room is made, it has as much as was requested.
fn make_room<L: Ledger>(rt: &impl Abort, pass: &mut Pass<L>) -> Result<(), Fail> {
    assert_eq!(rt; pass.room(), 0);
    pass.reserve(16)?;
    assert!(rt; pass.room() >= 16);
    assert_eq!(rt; pass.receipts().len(), 0);
    Ok(())
}

fn reserves_as<L: Ledger>(rt: &impl Abort, alloc: Global, blank: Blank) -> Result<(), Fail>
    requires { (blank.name ≡ L.name) × (blank.parts ≡ L.parts) × (blank.parts ≡ 2) }
{
    let (_, _, mut pass) = open::<L>(rt, alloc, blank, small(), 100)?;
    make_room(rt, &mut pass)
}

#[test]
fn reserves(rt: HostRuntime) -> Result<(), Fail> {
    reserves_as::<Brand>(&rt, rt.alloc(), Blank::new(2))
}
