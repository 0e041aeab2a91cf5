// SINTs that show their next messages, one after another.

use arrayvec::ArrayVec;
use hv_mail::{Mailbox, Message};
use std::alloc::{AllocError, Global};
use std::test::Fail;

// A message of port 0x654321, with two bytes of payload.
fn message(kind: u32) -> Message {
    let mut payload = ArrayVec::new();
    payload.push(0xA5);
    payload.push(0xC3);
    Message {
        port: 0x0065_4321,
        born: 0xFEDC_BA98_7654_3210,
        kind,
        payload,
    }
}

// Posts a message at each of the SINTs, and returns whether each is shown as expected.
fn post_all(mailbox: &mut Mailbox<Global>, posts: &[(u8, u32, bool)]) -> Result<bool, AllocError> {
    let mut are_right = true;
    for (sint, kind, shown) in posts {
        mailbox.reserve_one()?;
        let posted = *sint < 16 && mailbox.post(*sint, message(*kind)) == *shown;
        are_right = are_right && posted;
    }
    Ok(are_right)
}

// Two messages at SINT 2 and at SINT 15, and one at SINT 7.
const POSTS: [(u8, u32, bool); 5] = [
    (2, 0x7654_3210, true),
    (2, 0x1234_5678, false),
    (7, 0x7654_3210, true),
    (15, 0x7654_3210, true),
    (15, 0x7FED_CBA9, false),
];

fn clear_all(mailbox: &mut Mailbox<Global>) {
    for sint in 0..16u8 {
        mailbox.clear(sint);
    }
}

// The type, the payload's size, whether another message waits, and the port, each little-endian, and then the
// payload.
const SHOWN_AT_2: [u8; 18] = [
    0x78, 0x56, 0x34, 0x12, 2, 0, 0, 0, 0x21, 0x43, 0x65, 0, 0, 0, 0, 0, 0xA5, 0xC3,
];

const SHOWN_AT_15: [u8; 18] = [
    0xA9, 0xCB, 0xED, 0x7F, 2, 0, 0, 0, 0x21, 0x43, 0x65, 0, 0, 0, 0, 0, 0xA5, 0xC3,
];

fn are_shown(mailbox: &Mailbox<Global>) -> bool {
    &mailbox.slot(2)[..18] == SHOWN_AT_2.as_slice()
        && &mailbox.slot(15)[..18] == SHOWN_AT_15.as_slice()
        && mailbox.slot(7)[0] == 0
}

#[test]
fn each_sint_shows_its_next_message(rt: HostRuntime) -> Result<(), Fail> {
    let mut mailbox = Mailbox::new(rt.alloc());
    let are_posted = post_all(&mut mailbox, &POSTS)?;
    let early = mailbox.advance_all();
    clear_all(&mut mailbox);
    let shown = mailbox.advance_all();
    let is_right = early == 0 && shown == 0x8004 && are_shown(&mailbox);
    assert!(rt; are_posted && is_right);
    Ok(())
}
