// Elements of a rep call, one after another, until there is no memory for the next.

use crate::events::{ROOT, call, frame};
use crate::rationed::{Heap, Rationed};
use crate::texts::{has_audit, has_table};
use crate::wholes::boot;
use hv_abi::Frame;
use hv_history::{HostRefused, Kept};
use hv_partition::PageKind;
use hv_policy::Reply;
use hv_text::{PrintFault, audit};
use std::alloc::AllocError;
use std::process::Abort;
use std::test::Fail;

// A partition is created, and the root asks for its own id and deposits three pages. The history grows for
// the fifth event, which is the third page.
const AUDIT: &str = "1 1.0 call 0000000000000040 ok 0000000000000000 0200000000000000
2 1.0 call 0000000000000046 ok 0000000000000000 0100000000000000
3 1.0 call 0000000300000048 more 0000000100000000 -
4 1.0 call 0001000300000048 more 0000000200000000 -
5 1.0 call 0002000300000048 ok 0000000300000000 -
events 5
";

const TABLE: &str = "\
partition 1 parent - Active mask 000000f700000044 loose 17 pooled 12 inuse 6 vps 1 ports 0 connections 0
partition 2 parent 1 Created mask 0000003000000044 loose 0 pooled 3 inuse 0 vps 0 ports 0 connections 0
pages 32
";

// Pages 12 to 14 for partition 2.
const DEPOSITED: [u8; 32] = [
    2, 0, 0, 0, 0, 0, 0, 0, 12, 0, 0, 0, 0, 0, 0, 0, 13, 0, 0, 0, 0, 0, 0, 0, 14, 0, 0, 0, 0, 0, 0,
    0,
];

// The deposit, starting at one of its elements.
fn deposit(heap: &Heap, start: u32) -> Result<Frame<&Heap>, AllocError> {
    frame(heap, u64::from(start) << 48 | 0x3_0000_0048, &DEPOSITED)
}

// Whether exactly this many pages moved, and the audit has the first two events and one for each page.
fn has_gone(heap: &Heap, kept: &Kept<&Heap>, events: u32) -> Result<bool, PrintFault> {
    let mut told: Vec<u8> = Vec::new(heap.inner());
    audit(&mut told, kept)?;
    let tree = kept.machine().tree();
    let (Some(root), Some(child)) = (tree.get(1), tree.get(2)) else {
        return Ok(false);
    };
    let pages = [
        root.pages(PageKind::Loose).count(),
        child.pages(PageKind::Pooled).count(),
    ];
    let gone = u64::from(events);
    let length = kept.history().len();
    let entries = told.len().saturating_sub("events 2\n".len());
    let is_cut = AUDIT.as_bytes().starts_with(&told[..entries]);
    Ok(is_cut && length == 2 + events as usize && pages == [20u64.saturating_sub(gone), gone])
}

// Runs the deposit with this many blocks and, if an element is refused, continues from it with all. Returns
// the number of elements before the refused one, if there was one.
fn run_on<'h>(
    rt: &impl Abort,
    heap: &'h Heap,
    kept: &mut Kept<&'h Heap>,
    blocks: u64,
) -> Result<Option<u32>, Fail> {
    let frame = deposit(heap, 0)?;
    heap.ration(blocks);
    let done = kept.apply_run(ROOT, frame, 16);
    heap.lift();
    let Some(why) = refusal_of(&done.last) else {
        return Ok(None);
    };
    let has_gone = has_gone(heap, kept, done.events)?;
    assert!(rt; why == HostRefused::Memory && done.events < 3 && has_gone);
    let rest = kept.apply_run(ROOT, deposit(heap, done.events)?, 16);
    assert!(rt; is_served(&rest.last) && rest.events == 3 - done.events);
    Ok(Some(done.events))
}

fn refusal_of(last: &Result<Reply, HostRefused>) -> Option<HostRefused> {
    match last {
        Ok(_) => None,
        Err(why) => Some(*why),
    }
}

// Whether the last element is served and has no output.
fn is_served(last: &Result<Reply, HostRefused>) -> bool {
    match last {
        Ok(Reply::Served(output)) => output.as_slice().is_empty(),
        _ => false,
    }
}

fn is_applied<'h>(heap: &'h Heap, kept: &mut Kept<&'h Heap>, rcx: u64, input: &[u8]) -> bool {
    match call(heap, rcx, input) {
        Ok(event) => kept.apply(event).is_ok(),
        Err(_) => false,
    }
}

fn run_all<'h>(
    rt: &impl Abort,
    heap: &'h Heap,
    kept: &mut Kept<&'h Heap>,
    blocks: u64,
) -> Result<Option<u32>, Fail> {
    let are_made = is_applied(heap, kept, 0x40, &[0; 8]) && is_applied(heap, kept, 0x46, &[]);
    let refused = run_on(rt, heap, kept, blocks)?;
    let is_audit = has_audit(heap.inner(), kept, AUDIT.as_bytes());
    assert!(rt; are_made && is_audit && has_table(heap.inner(), kept, TABLE.as_bytes()));
    Ok(refused)
}

fn refused_after(rt: &impl Abort, heap: &Heap, blocks: u64) -> Result<Option<u32>, Fail> {
    let mut kept = boot(heap)?;
    run_all(rt, heap, &mut kept, blocks)
}

// Each element may take blocks of its own. If the third is refused, the two entries before it remain.
#[test]
fn a_third_element_is_refused(rt: HostRuntime) -> Result<(), Fail> {
    let heap = Rationed::new(rt.alloc());
    let wanted = [Some(2), None];
    for (blocks, told) in wanted.iter().enumerate() {
        let refused = refused_after(&rt, &heap, blocks as u64)?;
        assert!(rt; refused == *told, "{blocks}");
    }
    Ok(())
}
