// The tables of ports and connections, and their room for one row more.

use hv_defs::{Aim, PortKind};
use hv_ports::{Conn, ConnTable, Port, PortTable};
use std::alloc::{AllocError, Global};
use std::test::Fail;

const PORT: Port = Port {
    kind: PortKind::Event,
    peer: 0xFEDC_BA98_7654_3210,
    sint: 15,
    vp: Aim::One(63),
    base: 2040,
    count: 8,
    born: 0x0123_4567_89AB_CDEF,
};

const CONN: Conn = Conn {
    part: 0xFEDC_BA98_7654_3210,
    port: 0x00FE_DCBA,
    kind: PortKind::Message,
    born: 0x0123_4567_89AB_CDEF,
};

fn put_port(ports: &mut PortTable<Global>) -> Result<bool, AllocError> {
    let before = ports.has_room();
    ports.reserve_one()?;
    if before || !ports.has_room() || ports.find(0x0065_4321).is_some() {
        return Ok(false);
    }
    ports.insert(0x0065_4321, PORT);
    Ok(ports.find(0x0065_4321) == Some(PORT) && ports.count() == 1)
}

fn put_connection(conns: &mut ConnTable<Global>) -> Result<bool, AllocError> {
    let before = conns.has_room();
    conns.reserve_one()?;
    if before || !conns.has_room() || conns.find(0x00FE_DCBA).is_some() {
        return Ok(false);
    }
    conns.insert(0x00FE_DCBA, CONN);
    let removed = [conns.remove(0x00FE_DCBA), conns.remove(0x00FE_DCBA)];
    Ok(removed == [Some(CONN), None] && conns.count() == 0)
}

#[test]
fn tables_have_room(rt: HostRuntime) -> Result<(), Fail> {
    let put = put_port(&mut PortTable::new(rt.alloc()))?;
    let removed = put_connection(&mut ConnTable::new(rt.alloc()))?;
    assert!(rt; put && removed);
    Ok(())
}
