// The frame of a call by names.
ghost use Rattle.std.specs.Prelude.{◌≡◌, ◌<◌, IfOk, length, map};
ghost use Rattle.hv_asm.specs.Frame.{fast_frame, frame_of, listed_frame, rcx_of, twelve_bits};
ghost use Rattle.hv_asm.specs.List.{elements_of, list_of};
ghost use Rattle.hv_asm.specs.Made.{IsMade};

use crate::elements::push_elements;
use crate::fault::AsmFault;
use crate::list::push_header;
use crate::push::{push_bytes, push_zeros};
use crate::values::option_value;
use byteorder::{ByteOrder, LittleEndian};
use hv_abi::{Bytes, CallKind, Frame};
use hv_defs::REPS_END;
use hv_script::FaultKind;
use std::alloc::Global;

// The most bytes that a script's line has for an input list.
const MOST_INPUT: usize = 4096;

/// The frame of a call, by the words behind its name.
pub fn frame_of(alloc: Global, call: CallKind, words: &[&[u8]]) -> Result<Frame<Global>, AsmFault>
    ensures { IsMade result (λ frame. frame) (frame_of call (map (λ word. word.now) words.now)) }
{
    match words {
        [b"fast", fields @ ..] => fast_frame(alloc, call, fields),
        _ => listed_frame(alloc, call, words),
    }
}

#[tactic(auto, unfolding(crate::specs::Frame::fast_frame))]
fn fast_frame(alloc: Global, call: CallKind, words: &[&[u8]]) -> Result<Frame<Global>, AsmFault>
    ensures { IsMade result (λ frame. frame) (fast_frame call (map (λ word. word.now) words.now)) }
{
    if !call.accepts_fast() {
        return Err(AsmFault::NoFastForm);
    }
    let (mut list, count) = list_of(alloc, call, true, words)?;
    let rcx = rcx_of(call, true, count, words)?;
    push_zeros(&mut list, 16)?;
    Ok(Frame {
        rcx,
        rdx: LittleEndian::read_u64(&list[..8]),
        r8: LittleEndian::read_u64(&list[8..16]),
        input: Bytes::from_vec(Vec::new(alloc)),
    })
}

#[tactic(auto, unfolding(crate::specs::Frame::listed_frame))]
fn listed_frame(alloc: Global, call: CallKind, words: &[&[u8]]) -> Result<Frame<Global>, AsmFault>
    ensures { IsMade result (λ frame. frame) (listed_frame call (map (λ word. word.now) words.now)) }
{
    let (list, count) = list_of(alloc, call, false, words)?;
    let rcx = rcx_of(call, false, count, words)?;
    let rdx = option_value(words, b"input", 0)?;
    let r8 = option_value(words, b"output", 0)?;
    Ok(Frame {
        rcx,
        rdx,
        r8,
        input: Bytes::from_vec(list),
    })
}

// The input list of a call, and the number of its elements.
#[tactic(auto, unfolding(crate::specs::List::list_of))]
fn list_of(
    alloc: Global,
    call: CallKind,
    fast: bool,
    words: &[&[u8]],
) -> Result<(Vec<u8>, u64), AsmFault>
    ensures list { IsMade result (λ made. made.0.items) (list_of call fast
        (map (λ word. word.now) words.now)) }
    ensures count { IfOk result (λ made. made.1 ≡ length (elements_of call fast
        (map (λ word. word.now) words.now))) }
{
    let mut elements = Vec::new(alloc);
    let count = push_elements(&mut elements, call, fast, words)?;
    let mut list = Vec::new(alloc);
    push_header(&mut list, call, words)?;
    push_bytes(&mut list, elements.as_slice())?;
    if list.len() > MOST_INPUT {
        return Err(AsmFault::Script(FaultKind::Hex));
    }
    Ok((list, count))
}

// The input value.
#[tactic(auto, unfolding(crate::specs::Frame::rcx_of))]
fn rcx_of(call: CallKind, fast: bool, count: u64, words: &[&[u8]]) -> Result<u64, AsmFault>
    requires { count ≡ length (elements_of call fast (map (λ word. word.now) words.now)) }
    ensures { IsMade result (λ rcx. rcx) (rcx_of call fast (map (λ word. word.now) words.now)) }
{
    let reps = twelve_bits(option_value(words, b"reps", count)?)?;
    let start = twelve_bits(option_value(words, b"start", 0)?)?;
    Ok(u64::from(call.code()) + (u64::from(fast) << 16) + (reps << 32) + (start << 48))
}

/// A rep count or start index.
pub fn twelve_bits(number: u64) -> Result<u64, AsmFault>
    ensures number { result ≡ twelve_bits number }
    ensures fits { IfOk result (λ number. number < 4096) }
{
    if number < u64::from(REPS_END) {
        Ok(number)
    } else {
        Err(AsmFault::Script(FaultKind::Number))
    }
}
