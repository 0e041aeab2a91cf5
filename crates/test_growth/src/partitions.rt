// Partitions, and the room in them.

use crate::links::{conn, conns, port, ports};
use crate::rationed::Heap;
use crate::trial::{Answer, Told, Trial, answer_of, attempt};
use hv_defs::Life;
use hv_partition::{PageKind, Partition};
use hv_ports::{Conn, Port};
use hv_privs::Privileges;
use hv_vp::Vp;
use std::alloc::AllocError;
use std::ops::Range;

fn new_partition(heap: &Heap) -> Result<Partition<&Heap>, AllocError> {
    Partition::new(heap, Life::Active, Privileges::of(0xF7_0000_0044))
}

// What is visible of a partition: its life, mask and CPU weight, the lowest page of each kind, and the
// numbers of its pages of each kind, processors, ports and connections.
#[derive(Clone, Copy, PartialEq, Eq)]
pub(crate) struct Seen {
    life: Life,
    mask: u64,
    weight: u64,
    lowest: [Option<u32>; 2],
    pages: [u64; 2],
    vps: u32,
    ports: u32,
    conns: u32,
}

pub(crate) fn look(made: &Partition<&Heap>) -> Seen {
    let loose = made.pages(PageKind::Loose);
    let pooled = made.pages(PageKind::Pooled);
    Seen {
        life: made.life(),
        mask: made.mask().bits(),
        weight: made.cpu_weight(),
        lowest: [loose.lowest(), pooled.lowest()],
        pages: [loose.count(), pooled.count()],
        vps: made.vp_count(),
        ports: made.port_count(),
        conns: made.conn_count(),
    }
}

const AS_NEW: Seen = Seen {
    life: Life::Active,
    mask: 0xF7_0000_0044,
    weight: 100,
    lowest: [None, None],
    pages: [0, 0],
    vps: 0,
    ports: 0,
    conns: 0,
};

// No partition yet.
#[derive(Drop)]
struct Making<'h> {
    heap: &'h Heap,
    made: Option<Partition<&'h Heap>>,
}

impl<'h> Trial for Making<'h> {
    fn call(&mut self) -> Answer {
        match new_partition(self.heap) {
            Ok(made) => {
                self.made = Some(made);
                Answer::Served
            }
            Err(_) => Answer::Memory,
        }
    }

    fn is_before(&mut self) -> bool {
        self.made.is_none()
    }

    fn is_after(&mut self) -> bool {
        match &self.made {
            Some(made) => look(made) == AS_NEW,
            None => false,
        }
    }
}

pub(crate) fn make(heap: &Heap, blocks: u64) -> Told {
    attempt(heap, &mut Making { heap, made: None }, blocks)
}

// What a partition makes room for.
#[derive(Clone, Copy)]
pub(crate) enum Room {
    Processors,
    Pages(PageKind),
    Ports,
    Connections,
}

// A partition with no room for another processor, port or connection, and a request for room for more changes
// of its pages than there is.
#[derive(Drop)]
struct Full<'h> {
    heap: &'h Heap,
    made: Partition<&'h Heap>,
    room: Room,
    changes: usize,
}

const AS_FILLED: Seen = Seen {
    life: Life::Active,
    mask: 0xF7_0000_0044,
    weight: 500,
    lowest: [Some(12), Some(0)],
    pages: [20, 12],
    vps: 4,
    ports: 1,
    conns: 1,
};

impl<'h> Trial for Full<'h> {
    fn call(&mut self) -> Answer {
        answer_of(match self.room {
            Room::Processors => self.made.reserve_vp(),
            Room::Pages(kind) => self.made.reserve(kind, self.changes),
            Room::Ports => self.made.reserve_port(),
            Room::Connections => self.made.reserve_conn(),
        })
    }

    fn is_before(&mut self) -> bool {
        look(&self.made) == AS_FILLED && has_links(&self.made) && has_processors(&self.made)
    }

    fn is_after(&mut self) -> bool {
        let is_added = add_last(self.heap, &mut self.made, self.room).is_ok();
        let (due, has_room) = match self.room {
            Room::Processors => (with_counts(5, 1, 1), true),
            Room::Pages(kind) => (AS_FILLED, self.made.pages(kind).room() >= self.changes),
            Room::Ports => (with_counts(4, 2, 1), true),
            Room::Connections => (with_counts(4, 1, 2), true),
        };
        let are_there = has_links(&self.made) && has_processors(&self.made);
        is_added && has_room && look(&self.made) == due && are_there
    }
}

fn with_counts(vps: u32, ports: u32, conns: u32) -> Seen {
    Seen {
        vps,
        ports,
        conns,
        ..AS_FILLED
    }
}

// Adds one more, for which there is room but no block.
fn add_last<'h>(
    heap: &'h Heap,
    made: &mut Partition<&'h Heap>,
    room: Room,
) -> Result<(), AllocError> {
    let vp = Vp::new(heap, 4)?;
    heap.ration(0);
    let told = match room {
        Room::Processors => add_processor(made, 4, vp),
        Room::Pages(_) => Ok(()),
        Room::Ports => add_port(made, 5, port(15)),
        Room::Connections => add_conn(made, 5, conn(25)),
    };
    heap.lift();
    told
}

fn has_links(made: &Partition<&Heap>) -> bool {
    for (id, port) in &ports()[..1] {
        if made.port(*id) != Some(*port) {
            return false;
        }
    }
    for (id, conn) in &conns()[..1] {
        if made.conn(*id) != Some(*conn) {
            return false;
        }
    }
    true
}

// Whether processors 0 to 3 exist, each with its index.
fn has_processors(made: &Partition<&Heap>) -> bool {
    for index in 0..4u32 {
        let Some(vp) = made.vp(index) else {
            return false;
        };
        if vp.read_msr(0x4000_0002) != Ok(u64::from(index)) {
            return false;
        }
    }
    true
}

fn put_pages(
    made: &mut Partition<&Heap>,
    kind: PageKind,
    pages: Range<u32>,
) -> Result<(), AllocError> {
    for page in pages {
        made.reserve(kind, 1)?;
        if !made.pages(kind).holds(page) {
            made.put(kind, page);
        }
    }
    Ok(())
}

fn add_processor<'h>(
    made: &mut Partition<&'h Heap>,
    index: u32,
    vp: Vp<&'h Heap>,
) -> Result<(), AllocError> {
    made.reserve_vp()?;
    if made.vp(index).is_none() {
        made.add_vp(index, vp);
    }
    Ok(())
}

fn add_port(made: &mut Partition<&Heap>, id: u32, port: Port) -> Result<(), AllocError> {
    made.reserve_port()?;
    if made.port(id).is_none() {
        made.add_port(id, port);
    }
    Ok(())
}

fn add_conn(made: &mut Partition<&Heap>, id: u32, conn: Conn) -> Result<(), AllocError> {
    made.reserve_conn()?;
    if made.conn(id).is_none() {
        made.add_conn(id, conn);
    }
    Ok(())
}

// Four processors, a port and a connection.
fn fill<'h>(heap: &'h Heap, made: &mut Partition<&'h Heap>) -> Result<(), AllocError> {
    for index in 0..4u32 {
        add_processor(made, index, Vp::new(heap, index)?)?;
    }
    for (id, port) in &ports()[..1] {
        add_port(made, *id, *port)?;
    }
    for (id, conn) in &conns()[..1] {
        add_conn(made, *id, *conn)?;
    }
    Ok(())
}

pub(crate) fn reserve(heap: &Heap, room: Room, blocks: u64) -> Result<Told, AllocError> {
    let mut made = new_partition(heap)?;
    made.set_cpu_weight(500);
    put_pages(&mut made, PageKind::Loose, 12..32)?;
    put_pages(&mut made, PageKind::Pooled, 0..12)?;
    fill(heap, &mut made)?;
    let changes = match room {
        Room::Pages(kind) => made.pages(kind).room().saturating_add(1),
        _ => 0,
    };
    let mut full = Full {
        heap,
        made,
        room,
        changes,
    };
    Ok(attempt(heap, &mut full, blocks))
}
