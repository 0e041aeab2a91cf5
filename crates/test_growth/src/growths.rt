// The calls that may take memory, and how many blocks each takes from the beginning of its trial. Each trial
// compares the visible values before the call, after a refusal, and after the call was served.

use crate::events::Copied;
use crate::partitions::Room;
use crate::rationed::{Heap, Rationed};
use crate::trees::Wanted;
use crate::trial::Told;
use crate::wholes::Whole;
use crate::{events, links, mail, pages, partitions, trees, wholes};
use hv_partition::PageKind;
use std::alloc::AllocError;
use std::process::Abort;
use std::test::Fail;

#[derive(Clone, Copy)]
enum Growth {
    Pages,
    // A control, which takes none.
    Run,
    Mail,
    ThirdMessage,
    Ports,
    Connections,
    Processor,
    Message,
    Partition,
    Room(Room),
    Root,
    // The root of the tree has this many children.
    Tree(Wanted, u64),
    Copy(Copied),
    Entries,
    Whole(Whole),
}

// Makes the call with this many blocks and, if it is refused, again with all.
fn ask(heap: &Heap, growth: Growth, blocks: u64) -> Result<Told, AllocError> {
    match growth {
        Growth::Pages => pages::reserve(heap, blocks),
        Growth::Run => pages::put_run(heap, blocks),
        Growth::Mail => Ok(mail::reserve(heap, blocks)),
        Growth::ThirdMessage => mail::reserve_third(heap, blocks),
        Growth::Ports => links::reserve(heap, &links::ports(), blocks),
        Growth::Connections => links::reserve(heap, &links::conns(), blocks),
        Growth::Processor => Ok(mail::make_processor(heap, blocks)),
        Growth::Message => mail::reserve_message(heap, blocks),
        Growth::Partition => Ok(partitions::make(heap, blocks)),
        Growth::Room(room) => partitions::reserve(heap, room, blocks),
        Growth::Root => Ok(trees::make(heap, blocks)),
        Growth::Tree(wanted, count) => trees::ask(heap, wanted, count, blocks),
        Growth::Copy(copied) => events::copy(heap, copied, blocks),
        Growth::Entries => events::reserve(heap, blocks),
        Growth::Whole(whole) => wholes::ask(heap, whole, blocks),
    }
}

// The call is not refused with this many blocks, and is refused with each lower number.
fn assert_blocks(
    rt: &impl Abort,
    heap: &Heap,
    growth: Growth,
    wanted: u64,
    place: usize,
) -> Result<(), AllocError> {
    for blocks in 0..wanted.min(100) + 1 {
        let told = ask(heap, growth, blocks)?;
        let refused = blocks < wanted;
        assert!(rt;
            told.refused == refused && told.is_right,
            "call {place} with {blocks}"
        );
    }
    Ok(())
}

const GROWTHS: [(Growth, u64); 28] = [
    (Growth::Pages, 1),
    (Growth::Run, 0),
    // The list of queues grows to 16, and each queue gets its room. Then come a message and a count.
    (Growth::Mail, 21),
    // A message. The ring has room since its second one.
    (Growth::ThirdMessage, 1),
    (Growth::Ports, 1),
    (Growth::Connections, 1),
    (Growth::Processor, 1),
    (Growth::Message, 21),
    (Growth::Partition, 1),
    (Growth::Room(Room::Processors), 1),
    (Growth::Room(Room::Pages(PageKind::Loose)), 1),
    (Growth::Room(Room::Pages(PageKind::Pooled)), 1),
    (Growth::Room(Room::Ports), 1),
    (Growth::Room(Room::Connections), 1),
    // A tree of one node has neither a list of children nor an index yet.
    (Growth::Root, 0),
    (Growth::Tree(Wanted::Room, 1), 1),
    // The node, the list of children, and the tables of the index.
    (Growth::Tree(Wanted::Child, 0), 6),
    // Four children fill the first block of their list.
    (Growth::Tree(Wanted::Child, 4), 2),
    (Growth::Tree(Wanted::Ids, 2), 1),
    (Growth::Copy(Copied::Bytes), 1),
    (Growth::Copy(Copied::Frame), 1),
    (Growth::Copy(Copied::Action), 1),
    (Growth::Copy(Copied::Event), 1),
    // Its rows, heads and outputs.
    (Growth::Entries, 3),
    // The root's own, the flags of a processor, and the list of processors.
    (Growth::Whole(Whole::Machine), 3),
    (Growth::Whole(Whole::Kept), 3),
    // A call's bytes, its processor and its line.
    (Growth::Whole(Whole::Script), 3),
    (Growth::Whole(Whole::Table), 1),
];

#[test]
fn each_growth_is_refused(rt: HostRuntime) -> Result<(), Fail> {
    let heap = Rationed::new(rt.alloc());
    for (place, (growth, blocks)) in GROWTHS.iter().enumerate() {
        assert_blocks(&rt, &heap, *growth, *blocks, place)?;
    }
    Ok(())
}
