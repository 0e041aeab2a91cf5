// Tables of ports and of connections.

use crate::rationed::Heap;
use crate::trial::{Answer, Told, Trial, answer_of, attempt};
use hv_defs::{Aim, PortKind};
use hv_ports::{Conn, Port, Table};
use std::alloc::AllocError;

pub(crate) fn port(born: u64) -> Port {
    Port {
        kind: PortKind::Event,
        peer: 0xFEDC_BA98_7654_3210,
        sint: 15,
        vp: Aim::One(63),
        base: 2040,
        count: 8,
        born,
    }
}

pub(crate) fn conn(port: u32) -> Conn {
    Conn {
        part: 0xFEDC_BA98_7654_3210,
        port,
        kind: PortKind::Message,
        born: 0x0123_4567_89AB_CDEF,
    }
}

// A row that takes the block of a table, and one more.
pub(crate) fn ports() -> [(u32, Port); 2] {
    [(4, port(10)), (3, port(14))]
}

pub(crate) fn conns() -> [(u32, Conn); 2] {
    [(4, conn(20)), (3, conn(24))]
}

// All rows but the last are in the table, which has no further block.
#[derive(Drop)]
struct Full<'r, 'h, R: Copy> {
    table: Table<R, &'h Heap>,
    rows: &'r [(u32, R)],
    last: (u32, R),
}

// Whether the table has exactly these rows.
fn has<R: Copy + PartialEq>(table: &Table<R, &Heap>, rows: &[(u32, R)]) -> bool {
    for (id, row) in rows {
        if table.find(*id) != Some(*row) {
            return false;
        }
    }
    table.count() as usize == rows.len()
}

fn insert<R: Copy>(table: &mut Table<R, &Heap>, (id, row): (u32, R)) -> bool {
    if !table.has_room() || table.find(id).is_some() {
        return false;
    }
    table.insert(id, row);
    true
}

impl<'r, 'h, R: Copy + PartialEq> Trial for Full<'r, 'h, R> {
    fn call(&mut self) -> Answer {
        answer_of(self.table.reserve_one())
    }

    fn is_before(&mut self) -> bool {
        has(&self.table, self.rows) && !self.table.has_room()
    }

    // The last row is inserted and removed.
    fn is_after(&mut self) -> bool {
        let is_in = insert(&mut self.table, self.last);
        let removed = self.table.remove(self.last.0);
        is_in && removed == Some(self.last.1) && has(&self.table, self.rows)
    }
}

pub(crate) fn reserve<R: Copy + PartialEq>(
    heap: &Heap,
    rows: &[(u32, R)],
    blocks: u64,
) -> Result<Told, AllocError> {
    let Some((last, rows)) = rows.split_last() else {
        return Err(AllocError);
    };
    let mut table = Table::new(heap);
    for row in rows {
        table.reserve_one()?;
        insert(&mut table, *row);
    }
    let last = *last;
    Ok(attempt(heap, &mut Full { table, rows, last }, blocks))
}
