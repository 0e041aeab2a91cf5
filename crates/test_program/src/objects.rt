// Sessions in JSON: the text of each answer, one line for each line of input.

use crate::sessions::{Flushed, answer_at, serve_rows};
use hv_serve::Form;
use std::alloc::Global;
use std::process::Abort;

const GREETING: &str = r#"{"program":"hvpm","version":"0.1.0"}"#;

// Serves these lines, each with its answer without the line feed. The greeting comes first, and then each
// answer, flushed one by one.
fn assert_json(rt: &impl Abort, alloc: Global, rows: &[(&str, &str)], end: &str) {
    let out = serve_rows(rt, alloc, Form::Json, rows);
    assert_eq!(rt; out.marks.len(), rows.len() + 2);
    assert_line(rt, &out, 0, GREETING);
    for at in 0..rows.len() {
        assert_line(rt, &out, at + 1, rows[at].1);
    }
    assert_line(rt, &out, rows.len() + 1, end);
}

// What was written before this flush is one line, with this text.
fn assert_line(rt: &impl Abort, out: &Flushed, at: usize, wanted: &str) {
    assert_eq!(rt; answer_at(out, at).strip_suffix('\n'), Some(wanted));
}

// Each line has one answer: lines that do nothing, faults, tables, and events.
#[test]
fn one_answer_for_each_line(rt: HostRuntime) {
    let rows = [
        ("", r#"{"line":1,"events":[],"trace":[],"fault":null}"#),
        (
            "# \u{e9} \"",
            r#"{"line":2,"events":[],"trace":[],"fault":null}"#,
        ),
        (
            "table",
            r#"{"line":3,"events":[],"trace":[],"fault":"no boot"}"#,
        ),
        (
            "boot 32 33 1 0 9",
            r#"{"line":4,"events":[],"trace":[],"fault":"boot refused: pool"}"#,
        ),
        (
            "boot 32 12 1 0x000000f700000044 9",
            r#"{"line":5,"events":[],"trace":[],"fault":null}"#,
        ),
        ("phase", r#"{"line":6,"events":[],"trace":[],"fault":null}"#),
        (
            "1.0 call 0x46 0 0 -",
            "{\"line\":7,\"events\":[\"1 1.0 call 0000000000000046 ok 0000000000000000 0100000000000000\
             \"],\"trace\":[{\"event\":1,\"vp\":\"1.0\",\"line\":7,\"kind\":\"hypercall\",\"name\":\"Hv\
             GetPartitionId\",\"fields\":{},\"reply\":\"served\",\"status\":\"HV_STATUS_SUCCESS\",\"rep\
             s\":0,\"rule\":null,\"reason\":null,\"output\":\"0100000000000000\",\"effect\":{\"kind\":\
             \"nothing\"}}],\"fault\":null}",
        ),
        (
            "1.0 call 0x46 0 0",
            r#"{"line":8,"events":[],"trace":[],"fault":"word count"}"#,
        ),
        (
            "1.1 interrupt",
            "{\"line\":9,\"events\":[\"2 1.1 interrupt fault P3\"],\"trace\":[{\"event\":2,\"vp\":\"1.1\
             \",\"line\":9,\"kind\":\"access\",\"name\":\"TakeInterrupt\",\"fields\":{},\"reply\":\"fau\
             lt\",\"status\":null,\"reps\":null,\"rule\":\"P3\",\"reason\":\"the caller's virtual proce\
             ssor doesn't exist\",\"output\":\"\",\"effect\":{\"kind\":\"nothing\"}}],\"fault\":null}",
        ),
        (
            "\"",
            r#"{"line":10,"events":[],"trace":[],"fault":"bad processor"}"#,
        ),
        (
            "table",
            "{\"line\":11,\"events\":[],\"trace\":[],\"fault\":null,\"table\":\"partition 1 parent - \
             Active mask 000000f700000044 loose 20 pooled 12 inuse 4 vps 1 ports 0 connections \
             0\\npages 32\\n\"}",
        ),
        (
            "table 1",
            r#"{"line":12,"events":[],"trace":[],"fault":"word count"}"#,
        ),
    ];
    assert_json(&rt, rt.alloc(), &rows, r#"{"end":true,"events":2}"#);
}

// The elements of a rep call are in one answer, also those before the history is full.
#[test]
fn rep_calls(rt: HostRuntime) {
    let rows = [
        (
            "boot 32 12 1 0x000000f700000044 6",
            r#"{"line":1,"events":[],"trace":[],"fault":null}"#,
        ),
        (
            "1.0 call 0x40 0 0 -",
            "{\"line\":2,\"events\":[\"1 1.0 call 0000000000000040 ok 0000000000000000 0200000000000000\
             \"],\"trace\":[{\"event\":1,\"vp\":\"1.0\",\"line\":2,\"kind\":\"hypercall\",\"name\":\"Hv\
             CreatePartition\",\"fields\":{\"flags\":\"0x0\"},\"reply\":\"served\",\"status\":\"HV_STAT\
             US_SUCCESS\",\"reps\":0,\"rule\":null,\"reason\":null,\"output\":\"0200000000000000\",\"ef\
             fect\":{\"kind\":\"nothing\"}}],\"fault\":null}",
        ),
        (
            "1.0 call 0x0000000300000048 0 0 02000000000000000c000000000000000d000000000000000e000000000000\
             00",
            "{\"line\":3,\"events\":[\"2 1.0 call 0000000300000048 more 0000000100000000 -\",\"3 1.0 ca\
             ll 0001000300000048 more 0000000200000000 -\",\"4 1.0 call 0002000300000048 ok 00000003000\
             00000 -\"],\"trace\":[{\"event\":2,\"vp\":\"1.0\",\"line\":3,\"kind\":\"hypercall\",\"name\
             \":\"HvDepositMemory\",\"fields\":{\"partition\":2,\"page\":12,\"element\":0,\"elements\":\
             3},\"reply\":\"more\",\"status\":\"HV_STATUS_SUCCESS\",\"reps\":1,\"rule\":null,\"reason\"\
             :null,\"output\":\"\",\"effect\":{\"kind\":\"page\",\"page\":12,\"owner\":2,\"pooled\":tru\
             e}},{\"event\":3,\"vp\":\"1.0\",\"line\":3,\"kind\":\"hypercall\",\"name\":\"HvDepositMemo\
             ry\",\"fields\":{\"partition\":2,\"page\":13,\"element\":1,\"elements\":3},\"reply\":\"mor\
             e\",\"status\":\"HV_STATUS_SUCCESS\",\"reps\":2,\"rule\":null,\"reason\":null,\"output\":\
             \"\",\"effect\":{\"kind\":\"page\",\"page\":13,\"owner\":2,\"pooled\":true}},{\"event\":4,\
             \"vp\":\"1.0\",\"line\":3,\"kind\":\"hypercall\",\"name\":\"HvDepositMemory\",\"fields\":{\
             \"partition\":2,\"page\":14,\"element\":2,\"elements\":3},\"reply\":\"served\",\"status\":\
             \"HV_STATUS_SUCCESS\",\"reps\":3,\"rule\":null,\"reason\":null,\"output\":\"\",\"effect\":\
             {\"kind\":\"page\",\"page\":14,\"owner\":2,\"pooled\":true}}],\"fault\":null}",
        ),
        (
            "1.0 call 0x0000000300000049 0 0 0200000000000000",
            "{\"line\":4,\"events\":[\"5 1.0 call 0000000300000049 more 0000000100000000 0c000000000000\
             00\",\"6 1.0 call 0001000300000049 more 0000000200000000 0d00000000000000\"],\"trace\":[{\
             \"event\":5,\"vp\":\"1.0\",\"line\":4,\"kind\":\"hypercall\",\"name\":\"HvWithdrawMemory\"\
             ,\"fields\":{\"partition\":2,\"element\":0,\"elements\":3},\"reply\":\"more\",\"status\":\
             \"HV_STATUS_SUCCESS\",\"reps\":1,\"rule\":null,\"reason\":null,\"output\":\"0c000000000000\
             00\",\"effect\":{\"kind\":\"page\",\"page\":12,\"owner\":1,\"pooled\":false}},{\"event\":6\
             ,\"vp\":\"1.0\",\"line\":4,\"kind\":\"hypercall\",\"name\":\"HvWithdrawMemory\",\"fields\"\
             :{\"partition\":2,\"element\":1,\"elements\":3},\"reply\":\"more\",\"status\":\"HV_STATUS_\
             SUCCESS\",\"reps\":2,\"rule\":null,\"reason\":null,\"output\":\"0d00000000000000\",\"effec\
             t\":{\"kind\":\"page\",\"page\":13,\"owner\":1,\"pooled\":false}}],\"fault\":\"history ful\
             l\"}",
        ),
        (
            "1.0 interrupt",
            r#"{"line":5,"events":[],"trace":[],"fault":"history full"}"#,
        ),
    ];
    assert_json(&rt, rt.alloc(), &rows, r#"{"end":true,"events":6}"#);
}

// Looks at what there is and at what there isn't, their faults, and the last event in words.
#[test]
fn looks_and_explanations(rt: HostRuntime) {
    let rows = [
        (
            "peek 1.0 pending",
            r#"{"line":1,"events":[],"trace":[],"fault":"no boot"}"#,
        ),
        (
            "explain",
            r#"{"line":2,"events":[],"trace":[],"fault":"no boot"}"#,
        ),
        (
            "boot 32 12 1 0x000000f700000044 9",
            r#"{"line":3,"events":[],"trace":[],"fault":null}"#,
        ),
        (
            "explain",
            r#"{"line":4,"events":[],"trace":[],"fault":null,"explain":null}"#,
        ),
        (
            "peek 1.0 rdmsr 0x40000092",
            r#"{"line":5,"events":[],"trace":[],"fault":null,"peek":"0000010000000000"}"#,
        ),
        (
            "peek 1.0 pending",
            "{\"line\":6,\"events\":[],\"trace\":[],\"fault\":null,\"peek\":\"0000000000000000\
             000000000000000000000000000000000000000000000000\"}",
        ),
        (
            "peek 1.0 slot 16",
            r#"{"line":7,"events":[],"trace":[],"fault":null,"peek":null}"#,
        ),
        (
            "peek 1.1 flags 2",
            r#"{"line":8,"events":[],"trace":[],"fault":null,"peek":null}"#,
        ),
        (
            "peek 1 msr",
            r#"{"line":9,"events":[],"trace":[],"fault":"bad processor"}"#,
        ),
        (
            "peek 1.0 msr",
            r#"{"line":10,"events":[],"trace":[],"fault":"unknown word"}"#,
        ),
        (
            "peek 1.0 slot",
            r#"{"line":11,"events":[],"trace":[],"fault":"word count"}"#,
        ),
        (
            "peek 1.0 slot x",
            r#"{"line":12,"events":[],"trace":[],"fault":"bad number"}"#,
        ),
        (
            "explain 1",
            r#"{"line":13,"events":[],"trace":[],"fault":"word count"}"#,
        ),
        (
            "1.0 interrupt",
            "{\"line\":14,\"events\":[\"1 1.0 interrupt ok 00\"],\"trace\":[{\"event\":1,\"vp\":\"1.0\"\
             ,\"line\":14,\"kind\":\"access\",\"name\":\"TakeInterrupt\",\"fields\":{},\"reply\":\"serv\
             ed\",\"status\":null,\"reps\":null,\"rule\":null,\"reason\":null,\"output\":\"00\",\"effec\
             t\":{\"kind\":\"nothing\"}}],\"fault\":null}",
        ),
        (
            "explain",
            "{\"line\":15,\"events\":[],\"trace\":[],\"fault\":null,\"explain\":\"1 1.0 take an interru\
             pt: ok, no vector\"}",
        ),
    ];
    assert_json(&rt, rt.alloc(), &rows, r#"{"end":true,"events":1}"#);
}

// A session without a boot line has no events.
#[test]
fn no_boot(rt: HostRuntime) {
    assert_json(&rt, rt.alloc(), &[], r#"{"end":true,"events":0}"#);
}
