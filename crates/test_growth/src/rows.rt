// Scripts in which each event is refused its first block, then its second, and so on until it succeeds.

use crate::denials::assert_denials;
use crate::rationed::{Heap, Rationed};
use crate::refusals::assert_refusals;
use crate::texts::read;
use std::process::Abort;
use std::test::Fail;

// A script of events, where each element of a rep call is one, with its audit and the table at its end.
#[derive(Clone, Copy)]
pub(crate) struct Row {
    script: &'static [u8],
    pub(crate) audit: &'static str,
    pub(crate) table: &'static str,
    // The number of blocks that each event takes, including those of its history.
    pub(crate) blocks: &'static [u64],
    // The places of the events that take blocks for the machine itself.
    pub(crate) wants: &'static [usize],
}

// A simple call has a rep count.
const REPS: Row = Row {
    script: b"\
boot 32 12 1 0x000000f700000044 1000
1.0 call 0x0000000100000046 0 0 -
",
    audit: "\
1 1.0 call 0000000100000046 denied 0000000000000003 P5
events 1
",
    table: "\
partition 1 parent - Active mask 000000f700000044 loose 20 pooled 12 inuse 4 vps 1 ports 0 connections 0
pages 32
",
    blocks: &[3],
    wants: &[],
};

// A privilege is given that the giver lacks.
const PRIVILEGE: Row = Row {
    script: b"\
boot 32 12 1 0x000000f700000044 1000
1.0 call 0x40 0 0 0000000000000000
1.0 call 0x45 0 0 020000000000000000000100000000004400000030010000
1.0 call 0x44 0 0 02000000000000000000010000000000
",
    audit: "\
1 1.0 call 0000000000000040 ok 0000000000000000 0200000000000000
2 1.0 call 0000000000000045 denied 0000000000000006 P18
3 1.0 call 0000000000000044 ok 0000000000000000 4400000030000000
events 3
",
    table: "\
partition 1 parent - Active mask 000000f700000044 loose 20 pooled 12 inuse 6 vps 1 ports 0 connections 0
partition 2 parent 1 Created mask 0000003000000044 loose 0 pooled 0 inuse 0 vps 0 ports 0 connections 0
pages 32
",
    blocks: &[10, 3, 0],
    wants: &[0],
};

// Four partitions are created, and the pool is too small for a fifth.
const MADE: Row = Row {
    script: b"\
boot 32 12 1 0x000000f700000044 1000
1.0 call 0x40 0 0 0000000000000000
1.0 call 0x40 0 0 0000000000000000
1.0 call 0x40 0 0 0000000000000000
1.0 call 0x40 0 0 0000000000000000
1.0 call 0x40 0 0 0000000000000000
",
    audit: "\
1 1.0 call 0000000000000040 ok 0000000000000000 0200000000000000
2 1.0 call 0000000000000040 ok 0000000000000000 0300000000000000
3 1.0 call 0000000000000040 ok 0000000000000000 0400000000000000
4 1.0 call 0000000000000040 ok 0000000000000000 0500000000000000
5 1.0 call 0000000000000040 denied 000000000000000b P24
events 5
",
    table: "\
partition 1 parent - Active mask 000000f700000044 loose 20 pooled 12 inuse 12 vps 1 ports 0 connections 0
partition 2 parent 1 Created mask 0000003000000044 loose 0 pooled 0 inuse 0 vps 0 ports 0 connections 0
partition 3 parent 1 Created mask 0000003000000044 loose 0 pooled 0 inuse 0 vps 0 ports 0 connections 0
partition 4 parent 1 Created mask 0000003000000044 loose 0 pooled 0 inuse 0 vps 0 ports 0 connections 0
partition 5 parent 1 Created mask 0000003000000044 loose 0 pooled 0 inuse 0 vps 0 ports 0 connections 0
pages 32
",
    blocks: &[10, 5, 2, 2, 1],
    wants: &[0, 1, 2, 3],
};

// Two pages are deposited, and a page that is already gone is denied. The partition is deleted, and its pages
// are loose again.
const DEPOSITED: Row = Row {
    script: b"\
boot 32 12 1 0x000000f700000044 1000
1.0 call 0x40 0 0 0000000000000000
1.0 call 0x0000000300000048 0 0 02000000000000000c000000000000000d000000000000000c00000000000000
1.0 call 0x0001000300000048 0 0 02000000000000000c000000000000000d000000000000000c00000000000000
1.0 call 0x0002000300000048 0 0 02000000000000000c000000000000000d000000000000000c00000000000000
1.0 call 0x4a 0 0 0200000000000000
1.0 call 0x10043 2 0 -
1.0 call 0x4a 0 0 0200000000000000
1.0 call 0x4a 0 0 0100000000000000
",
    audit: "\
1 1.0 call 0000000000000040 ok 0000000000000000 0200000000000000
2 1.0 call 0000000300000048 more 0000000100000000 -
3 1.0 call 0001000300000048 more 0000000200000000 -
4 1.0 call 0002000300000048 denied 0000000200000005 P21
5 1.0 call 000000000000004a ok 0000000000000000 02000000000000000000000000000000
6 1.0 call 0000000000010043 ok 0000000000000000 -
7 1.0 call 000000000000004a denied 000000000000000d P9
8 1.0 call 000000000000004a ok 0000000000000000 08000000000000000400000000000000
events 8
",
    table: "\
partition 1 parent - Active mask 000000f700000044 loose 20 pooled 12 inuse 4 vps 1 ports 0 connections 0
pages 32
",
    blocks: &[10, 3, 0, 0, 1, 0, 1, 0],
    wants: &[0],
};

// A page is deposited and withdrawn, and there is no second.
const WITHDRAWN: Row = Row {
    script: b"\
boot 32 12 1 0x000000f700000044 1000
1.0 call 0x40 0 0 0000000000000000
1.0 call 0x0000000100000048 0 0 02000000000000000c00000000000000
1.0 call 0x0000000100000049 0 0 0200000000000000
1.0 call 0x0000000100000049 0 0 0200000000000000
",
    audit: "\
1 1.0 call 0000000000000040 ok 0000000000000000 0200000000000000
2 1.0 call 0000000100000048 ok 0000000100000000 -
3 1.0 call 0000000100000049 ok 0000000100000000 0c00000000000000
4 1.0 call 0000000100000049 denied 000000000000001d P24
events 4
",
    table: "\
partition 1 parent - Active mask 000000f700000044 loose 20 pooled 12 inuse 6 vps 1 ports 0 connections 0
partition 2 parent 1 Created mask 0000003000000044 loose 0 pooled 0 inuse 0 vps 0 ports 0 connections 0
pages 32
",
    blocks: &[10, 3, 0, 0],
    wants: &[0],
};

// All pages are pooled, so the first page that is withdrawn needs memory. It goes to a partition that is then
// deleted, and returns to where it was.
const POOLED: Row = Row {
    script: b"\
boot 12 12 1 0x000000f700000044 1000
1.0 call 0x0000000100000049 0 0 0100000000000000
1.0 call 0x40 0 0 0000000000000000
1.0 call 0x0000000100000048 0 0 02000000000000000000000000000000
1.0 call 0x10043 2 0 -
1.0 call 0x4a 0 0 0100000000000000
",
    audit: "\
1 1.0 call 0000000100000049 ok 0000000100000000 0000000000000000
2 1.0 call 0000000000000040 ok 0000000000000000 0200000000000000
3 1.0 call 0000000100000048 ok 0000000100000000 -
4 1.0 call 0000000000010043 ok 0000000000000000 -
5 1.0 call 000000000000004a ok 0000000000000000 07000000000000000400000000000000
events 5
",
    table: "\
partition 1 parent - Active mask 000000f700000044 loose 1 pooled 11 inuse 4 vps 1 ports 0 connections 0
pages 12
",
    blocks: &[3, 10, 0, 0, 2],
    wants: &[1],
};

// A partition gets all that it needs to create a partition of its own, which is no kin of the root.
const GRANDCHILD: Row = Row {
    script: b"\
boot 32 12 1 0x000000f700000044 1000
1.0 call 0x40 0 0 0000000000000000
1.0 call 0x45 0 0 0200000000000000000001000000000044000000f7000000
1.0 call 0x10041 2 0 -
1.0 call 0x0000000100000048 0 0 02000000000000000c00000000000000
1.0 call 0x0000000100000048 0 0 02000000000000000d00000000000000
1.0 call 0x0000000100000048 0 0 02000000000000000e00000000000000
1.0 call 0x0000000100000048 0 0 02000000000000000f00000000000000
1.0 call 0x0000000100000048 0 0 02000000000000001000000000000000
1.0 call 0x0000000100000048 0 0 02000000000000001100000000000000
1.0 call 0x1004e 2 0 -
2.0 call 0x40 0 0 0000000000000000
1.0 call 0x4a 0 0 0300000000000000
1.0 call 0x4a 0 0 6300000000000000
",
    audit: "\
1 1.0 call 0000000000000040 ok 0000000000000000 0200000000000000
2 1.0 call 0000000000000045 ok 0000000000000000 -
3 1.0 call 0000000000010041 ok 0000000000000000 -
4 1.0 call 0000000100000048 ok 0000000100000000 -
5 1.0 call 0000000100000048 ok 0000000100000000 -
6 1.0 call 0000000100000048 ok 0000000100000000 -
7 1.0 call 0000000100000048 ok 0000000100000000 -
8 1.0 call 0000000100000048 ok 0000000100000000 -
9 1.0 call 0000000100000048 ok 0000000100000000 -
10 1.0 call 000000000001004e ok 0000000000000000 -
11 2.0 call 0000000000000040 ok 0000000000000000 0300000000000000
12 1.0 call 000000000000004a denied 0000000000000006 P10
13 1.0 call 000000000000004a denied 000000000000000d P9
events 13
",
    table: "\
partition 1 parent - Active mask 000000f700000044 loose 14 pooled 12 inuse 6 vps 1 ports 0 connections 0
partition 2 parent 1 Active mask 000000f700000044 loose 0 pooled 6 inuse 6 vps 1 ports 0 connections 0
partition 3 parent 2 Created mask 0000003000000044 loose 0 pooled 0 inuse 0 vps 0 ports 0 connections 0
pages 32
",
    blocks: &[10, 3, 0, 0, 2, 0, 0, 0, 2, 2, 3, 0, 0],
    wants: &[0, 9, 10],
};

// A message port and a connection to it are created, and the port is created again. The connection leads to
// no port.
const REMADE: Row = Row {
    script: b"\
boot 32 12 1 0x000000f700000044 1000
1.0 call 0x40 0 0 0000000000000000
1.0 call 0x10041 2 0 -
1.0 call 0x0000000100000048 0 0 02000000000000000c00000000000000
1.0 call 0x0000000100000048 0 0 02000000000000000d00000000000000
1.0 call 0x0000000100000048 0 0 02000000000000000e00000000000000
1.0 call 0x0000000100000048 0 0 02000000000000000f00000000000000
1.0 call 0x0000000100000048 0 0 02000000000000001000000000000000
1.0 call 0x0000000100000048 0 0 02000000000000001100000000000000
1.0 call 0x1004e 2 0 -
1.0 call 0x95 0 0 020000000000000005000000000000000100000000000000010000000000000002000000
1.0 call 0x96 0 0 010000000000000007000000000000000200000000000000050000000000000001000000
1.0 call 0x10058 2 5 -
1.0 call 0x95 0 0 020000000000000005000000000000000100000000000000010000000000000002000000
1.0 call 0x5c 0 0 07000000000000000100000000000000
2.0 call 0x46 0 0 -
2.0 call 0x4a 0 0 6300000000000000
",
    audit: "\
1 1.0 call 0000000000000040 ok 0000000000000000 0200000000000000
2 1.0 call 0000000000010041 ok 0000000000000000 -
3 1.0 call 0000000100000048 ok 0000000100000000 -
4 1.0 call 0000000100000048 ok 0000000100000000 -
5 1.0 call 0000000100000048 ok 0000000100000000 -
6 1.0 call 0000000100000048 ok 0000000100000000 -
7 1.0 call 0000000100000048 ok 0000000100000000 -
8 1.0 call 0000000100000048 ok 0000000100000000 -
9 1.0 call 000000000001004e ok 0000000000000000 -
10 1.0 call 0000000000000095 ok 0000000000000000 -
11 1.0 call 0000000000000096 ok 0000000000000000 -
12 1.0 call 0000000000010058 ok 0000000000000000 -
13 1.0 call 0000000000000095 ok 0000000000000000 -
14 1.0 call 000000000000005c denied 0000000000000011 P17
15 2.0 call 0000000000000046 denied 0000000000000006 P8
16 2.0 call 000000000000004a denied 0000000000000006 P8
events 16
",
    table: "\
partition 1 parent - Active mask 000000f700000044 loose 14 pooled 12 inuse 7 vps 1 ports 0 connections 1
partition 2 parent 1 Active mask 0000003000000044 loose 0 pooled 6 inuse 5 vps 1 ports 1 connections 0
pages 32
",
    blocks: &[10, 3, 0, 0, 2, 0, 0, 0, 4, 2, 2, 0, 1, 0, 0, 0],
    wants: &[0, 8, 9, 10, 12],
};

// A message of 240 bytes is posted, after one of 241.
const POSTED: Row = Row {
    script: b"\
boot 32 12 1 0x000000f700000044 1000
1.0 call 0x40 0 0 0000000000000000
1.0 call 0x10041 2 0 -
1.0 call 0x0000000100000048 0 0 02000000000000000c00000000000000
1.0 call 0x0000000100000048 0 0 02000000000000000d00000000000000
1.0 call 0x0000000100000048 0 0 02000000000000000e00000000000000
1.0 call 0x0000000100000048 0 0 02000000000000000f00000000000000
1.0 call 0x0000000100000048 0 0 02000000000000001000000000000000
1.0 call 0x0000000100000048 0 0 02000000000000001100000000000000
1.0 call 0x1004e 2 0 -
1.0 call 0x95 0 0 020000000000000005000000000000000100000000000000010000000000000002000000
1.0 call 0x96 0 0 010000000000000007000000000000000200000000000000050000000000000001000000
2.0 wrmsr 0x40000080 1
2.0 wrmsr 0x40000083 1
2.0 wrmsr 0x40000092 0x30
1.0 call 0x5c 0 0 070000000000000001000000f1000000
1.0 call 0x5c 0 0 \
070000000000000001000000f0000000abababababababababababababababababababababababababababababababab\
abababababababababababababababababababababababababababababababababababababababababababababababab\
abababababababababababababababababababababababababababababababababababababababababababababababab\
abababababababababababababababababababababababababababababababababababababababababababababababab\
abababababababababababababababababababababababababababababababababababababababababababababababab\
abababababababababababababababab
2.0 slot 2
2.0 interrupt
2.0 interrupt
",
    audit: "\
1 1.0 call 0000000000000040 ok 0000000000000000 0200000000000000
2 1.0 call 0000000000010041 ok 0000000000000000 -
3 1.0 call 0000000100000048 ok 0000000100000000 -
4 1.0 call 0000000100000048 ok 0000000100000000 -
5 1.0 call 0000000100000048 ok 0000000100000000 -
6 1.0 call 0000000100000048 ok 0000000100000000 -
7 1.0 call 0000000100000048 ok 0000000100000000 -
8 1.0 call 0000000100000048 ok 0000000100000000 -
9 1.0 call 000000000001004e ok 0000000000000000 -
10 1.0 call 0000000000000095 ok 0000000000000000 -
11 1.0 call 0000000000000096 ok 0000000000000000 -
12 2.0 wrmsr 40000080 0000000000000001 ok -
13 2.0 wrmsr 40000083 0000000000000001 ok -
14 2.0 wrmsr 40000092 0000000000000030 ok -
15 1.0 call 000000000000005c denied 0000000000000005 P7
16 1.0 call 000000000000005c ok 0000000000000000 -
17 2.0 slot 2 ok \
01000000f00000000500000000000000abababababababababababababababababababababababababababababababab\
abababababababababababababababababababababababababababababababababababababababababababababababab\
abababababababababababababababababababababababababababababababababababababababababababababababab\
abababababababababababababababababababababababababababababababababababababababababababababababab\
abababababababababababababababababababababababababababababababababababababababababababababababab\
abababababababababababababababab
18 2.0 interrupt ok 30
19 2.0 interrupt ok 00
events 19
",
    table: "\
partition 1 parent - Active mask 000000f700000044 loose 14 pooled 12 inuse 7 vps 1 ports 0 connections 1
partition 2 parent 1 Active mask 0000003000000044 loose 0 pooled 6 inuse 5 vps 1 ports 1 connections 0
pages 32
",
    blocks: &[10, 3, 0, 0, 2, 0, 0, 0, 4, 2, 2, 0, 0, 0, 0, 21, 2, 1, 0],
    wants: &[0, 8, 9, 10, 15],
};

const ROWS: [Row; 9] = [
    REPS, PRIVILEGE, MADE, DEPOSITED, WITHDRAWN, POOLED, GRANDCHILD, REMADE, POSTED,
];

fn assert_row(rt: &impl Abort, heap: &Heap, row: &Row) -> Result<(), Fail> {
    let (config, limit, events) = read(heap, row.script)?;
    assert!(rt; events.len() == row.blocks.len());
    assert_refusals(rt, heap, (config, limit), &events, row)?;
    assert_denials(rt, heap, (config, limit), &events, row)?;
    Ok(())
}

#[test]
fn each_event_is_refused(rt: HostRuntime) -> Result<(), Fail> {
    let heap = Rationed::new(rt.alloc());
    for row in ROWS.iter() {
        assert_row(&rt, &heap, row)?;
    }
    Ok(())
}
