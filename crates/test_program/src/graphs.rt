// Graphs of small scripts, typed by hand, and the error if there is no graph.

use hv_draw::draw_text;
use hv_run::Exit;
use std::alloc::Global;
use std::io;
use std::io::{ErrorKind, Write};
use std::process::Abort;

// Partition 2 below the root, with a processor and 8 pages. Port 5 of the root takes messages for SINT 2 of
// processor 0, and keeps two. Port 6 takes event flags 8 to 15 for SINT 3 of any processor; the second and
// the fifth of these are set. Port 9 takes messages for SINT 4: one was cleared, another waits, and the port
// is deleted. Vectors 0x30 and 0x33 are pending.
const LIFE: &[u8] = b"\
boot 64 32 1 0x000000f700000044 100\n\
1.0 call 0x40 0 0 -\n\
1.0 call 0x45 0 0 0200000000000000000001000000000000000000b2000000\n\
1.0 call 0x10041 2 0 -\n\
1.0 call 0x0000000800000048 0 0 02000000000000002000000000000000210000000000000022000000000000002300\
0000000000002400000000000000250000000000000026000000000000002700000000000000\n\
1.0 call 0x1004e 2 0 -\n\
1.0 call 0x95 0 0 0100000000000000050000000000000002000000000000000100000000000000020000000000000000\
00000000000000\n\
1.0 call 0x95 0 0 010000000000000006000000000000000200000000000000020000000000000003000000ffffffff08\
00080000000000\n\
1.0 call 0x95 0 0 0100000000000000090000000000000002000000000000000100000000000000040000000000000000\
00000000000000\n\
1.0 wrmsr 0x40000080 1\n\
1.0 wrmsr 0x40000082 1\n\
1.0 wrmsr 0x40000083 1\n\
1.0 wrmsr 0x40000092 0x30\n\
1.0 wrmsr 0x40000093 0x33\n\
2.0 call 0x96 0 0 02000000000000000a00000000000000010000000000000006000000000000000200000000000000\n\
2.0 call 0x96 0 0 02000000000000000700000000000000010000000000000005000000000000000100000000000000\n\
2.0 call 0x96 0 0 02000000000000000800000000000000010000000000000009000000000000000100000000000000\n\
2.0 call 0x5c 0 0 0700000000000000010000000500000068656c6c6f\n\
2.0 call 0x5c 0 0 070000000000000001000000020000006869\n\
2.0 call 0x5c 0 0 08000000000000000100000000000000\n\
2.0 call 0x5c 0 0 08000000000000000200000000000000\n\
2.0 call 0x5d 0 0 0a00000001000000\n\
2.0 call 0x5d 0 0 0a00000004000000\n\
1.0 clearslot 4\n\
1.0 call 0x10058 1 9 -\n\
";

const LIFE_GRAPH: &str = "\
digraph hvpm {\n\
\x20 graph [newrank=true style=rounded color=gray];\n\
\x20 node [fontname=\"Helvetica\" fontsize=10 shape=box];\n\
\x20 edge [fontname=\"Helvetica\" fontsize=9];\n\
\x20 subgraph cluster_1 {\n\
\x20   p1 [label=\"partition 1\\nActive, depth 0\\nmask 0x000000f700000044\\n\
pages: 24 loose, 32 pooled, 8 in use\" style=filled fillcolor=palegreen];\n\
\x20   v1_0 [label=\"vp 0\\nSINT 2 shows a message of port 5, 1 waiting\\nSINT 3 flags 9, 12\\n\
SINT 4 shows no message, 1 waiting\\npending 51, 48\"];\n\
\x20   p1 -> v1_0 [arrowhead=none];\n\
\x20   o1_5 [label=\"port 5 for partition 2\\nmessages to SINT 2 of vp 0\\nkept: 2\" style=rounded];\n\
\x20   o1_5 -> v1_0 [style=dotted];\n\
\x20   o1_6 [label=\"port 6 for partition 2\\nevent flags 8 to 15 of SINT 3 of any vp\\n\
set: 9, 12\" style=rounded];\n\
\x20 }\n\
\x20 p1 -> p2;\n\
\x20 subgraph cluster_2 {\n\
\x20   p2 [label=\"partition 2\\nActive, depth 1\\nmask 0x000000b200000000\\n\
pages: 0 loose, 8 pooled, 7 in use\" style=filled fillcolor=palegreen];\n\
\x20   v2_0 [label=\"vp 0\"];\n\
\x20   p2 -> v2_0 [arrowhead=none];\n\
\x20 }\n\
\x20 p2 -> o1_5 [label=\"connection 7: messages\" style=dashed];\n\
\x20 g2_8 [label=\"port 9 of partition 1 is gone\" shape=plaintext];\n\
\x20 p2 -> g2_8 [label=\"connection 8: messages\" style=dashed];\n\
\x20 p2 -> o1_6 [label=\"connection 10: event flags\" style=dashed];\n\
\x20 label=\"after 31 events\" labelloc=t fontname=\"Helvetica\";\n\
}\n\
";

// After four of the eight elements of the call that gives partition 2 its pages.
const MIDWAY_GRAPH: &str = "\
digraph hvpm {\n\
\x20 graph [newrank=true style=rounded color=gray];\n\
\x20 node [fontname=\"Helvetica\" fontsize=10 shape=box];\n\
\x20 edge [fontname=\"Helvetica\" fontsize=9];\n\
\x20 subgraph cluster_1 {\n\
\x20   p1 [label=\"partition 1\\nActive, depth 0\\nmask 0x000000f700000044\\n\
pages: 28 loose, 32 pooled, 6 in use\" style=filled fillcolor=palegreen];\n\
\x20   v1_0 [label=\"vp 0\"];\n\
\x20   p1 -> v1_0 [arrowhead=none];\n\
\x20 }\n\
\x20 p1 -> p2;\n\
\x20 subgraph cluster_2 {\n\
\x20   p2 [label=\"partition 2\\nActive, depth 1\\nmask 0x000000b200000000\\n\
pages: 0 loose, 4 pooled, 0 in use\" style=filled fillcolor=palegreen];\n\
\x20 }\n\
\x20 label=\"after 7 events\" labelloc=t fontname=\"Helvetica\";\n\
}\n\
";

// Before the first event.
const BOOT_GRAPH: &str = "\
digraph hvpm {\n\
\x20 graph [newrank=true style=rounded color=gray];\n\
\x20 node [fontname=\"Helvetica\" fontsize=10 shape=box];\n\
\x20 edge [fontname=\"Helvetica\" fontsize=9];\n\
\x20 subgraph cluster_1 {\n\
\x20   p1 [label=\"partition 1\\nActive, depth 0\\nmask 0x000000f700000044\\n\
pages: 32 loose, 32 pooled, 4 in use\" style=filled fillcolor=palegreen];\n\
\x20   v1_0 [label=\"vp 0\"];\n\
\x20   p1 -> v1_0 [arrowhead=none];\n\
\x20 }\n\
\x20 label=\"after 0 events\" labelloc=t fontname=\"Helvetica\";\n\
}\n\
";

// A partition that is Created, and a machine that takes no third event.
const FULL: &[u8] = b"\
boot 32 12 1 0x000000f700000044 2\n\
1.0 call 0x40 0 0 -\n\
1.0 call 0x46 0 0 -\n\
1.0 call 0x46 0 0 -\n\
";

const FULL_GRAPH: &str = "\
digraph hvpm {\n\
\x20 graph [newrank=true style=rounded color=gray];\n\
\x20 node [fontname=\"Helvetica\" fontsize=10 shape=box];\n\
\x20 edge [fontname=\"Helvetica\" fontsize=9];\n\
\x20 subgraph cluster_1 {\n\
\x20   p1 [label=\"partition 1\\nActive, depth 0\\nmask 0x000000f700000044\\n\
pages: 20 loose, 12 pooled, 6 in use\" style=filled fillcolor=palegreen];\n\
\x20   v1_0 [label=\"vp 0\"];\n\
\x20   p1 -> v1_0 [arrowhead=none];\n\
\x20 }\n\
\x20 p1 -> p2;\n\
\x20 subgraph cluster_2 {\n\
\x20   p2 [label=\"partition 2\\nCreated, depth 1\\nmask 0x0000003000000044\\n\
pages: 0 loose, 0 pooled, 0 in use\" style=filled fillcolor=lightyellow];\n\
\x20 }\n\
\x20 label=\"after 2 events\" labelloc=t fontname=\"Helvetica\";\n\
}\n\
";

// A writer that takes nothing.
#[derive(Drop)]
struct Closed;

impl Write for Closed {
    fn write(&mut self, _bytes: &[u8]) -> io::Result<usize> {
        Err(io::Error::from(ErrorKind::BrokenPipe))
    }

    fn flush(&mut self) -> io::Result<()> {
        Err(io::Error::from(ErrorKind::BrokenPipe))
    }
}

fn text_of(bytes: &[u8]) -> &str {
    str::from_utf8(bytes).unwrap_or("no UTF-8 text")
}

// Draws the state of a script after so many events, or after all, and compares the output.
fn assert_draws(
    rt: &impl Abort,
    alloc: Global,
    script: &[u8],
    at: Option<u64>,
    exit: Exit,
    graph: &str,
    line: &str,
) {
    let mut out: Vec<u8> = Vec::new(alloc);
    let mut err: Vec<u8> = Vec::new(alloc);
    let drawn = draw_text(alloc, script, at, &mut out, &mut err);
    assert_eq!(rt; (drawn, text_of(&out), text_of(&err)), (exit, graph, line));
}

#[test]
fn draws_all_that_there_is(rt: HostRuntime) {
    assert_draws(&rt, rt.alloc(), LIFE, None, Exit::Done, LIFE_GRAPH, "");
}

#[test]
fn draws_the_state_after_some_events(rt: HostRuntime) {
    let alloc = rt.alloc();
    assert_draws(&rt, alloc, LIFE, Some(0), Exit::Done, BOOT_GRAPH, "");
    assert_draws(&rt, alloc, LIFE, Some(7), Exit::Done, MIDWAY_GRAPH, "");
    assert_draws(&rt, alloc, LIFE, Some(u64::MAX), Exit::Done, LIFE_GRAPH, "");
    assert_draws(&rt, alloc, FULL, Some(2), Exit::Done, FULL_GRAPH, "");
}

#[test]
fn draws_what_a_full_history_left(rt: HostRuntime) {
    assert_draws(
        &rt,
        rt.alloc(),
        FULL,
        None,
        Exit::Host,
        FULL_GRAPH,
        "hvpm: history full\n",
    );
}

#[test]
fn draws_nothing_after_a_fault(rt: HostRuntime) {
    let alloc = rt.alloc();
    assert_draws(
        &rt,
        alloc,
        b"phase\n",
        None,
        Exit::Script,
        "",
        "hvpm: line 1: no boot\n",
    );
    assert_draws(
        &rt,
        alloc,
        b"boot 0 0 1 0 9\n",
        Some(0),
        Exit::Script,
        "",
        "hvpm: boot refused: pages\n",
    );
}

#[test]
fn tells_that_nothing_was_written(rt: HostRuntime) {
    let mut err: Vec<u8> = Vec::new(rt.alloc());
    let exit = draw_text(rt.alloc(), LIFE, None, &mut Closed, &mut err);
    assert_eq!(rt; (exit, text_of(&err)), (Exit::Host, "hvpm: write\n"));
}
