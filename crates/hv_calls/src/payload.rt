// The payload of a message.
ghost use Rattle.std.specs.Prelude.{◌≡◌, ◌≤◌, drop, length};
ghost use Rattle.hv_abi.specs.Check.{input_of};
ghost use Rattle.hv_calls.specs.Bytes.{bytes_at};

use arrayvec::ArrayVec;
use hv_abi::{Frame, Shape};
use std::alloc::Allocator;
use std::marker::Model;

/// The bytes of a message, at most 240, borrowed from its frame.
#[derive(Drop)]
pub struct Payload<'f> {
    // The input from the payload's first byte on, which may end before the payload does.
    rest: &'f [u8],
    len: usize,
}

impl<'f> Model for Payload<'f> {
    ghost use Rattle.std.specs.Prelude.{List, ℕ, ◌≤◌};
    ghost use Rattle.hv_calls.specs.Bytes.{bytes_at};

    ghost Value = { List ℕ };

    ghost view = { λ p. bytes_at p.rest.now 0 p.len };

    ghost invariant = { λ p. p.len ≤ 240 };
}

impl<'f> Payload<'f> {
    // Returns the bytes of a call's input from an offset on, where bytes past the input's end are zero.
    pub(crate) fn read<A: Allocator>(
        frame: &'f Frame<A>,
        shape: &Shape,
        at: usize,
        len: usize,
    ) -> Payload<'f>
        requires registers { 16 ≤ at }
        requires fits { len ≤ 240 }
        ensures { result ≡ bytes_at (input_of frame.now shape.now.fast) at len }
    {
        Payload {
            rest: rest(frame, shape, at),
            len,
        }
    }

    /// Returns a copy of the bytes.
    pub fn to_array(&self) -> ArrayVec<u8, 240>
        ensures { result.items ≡ self.now }
    {
        let rest = self.rest;
        let mut bytes = ArrayVec::new();
        if self.len <= rest.len() {
            let Ok(()) = bytes.try_extend_from_slice(&rest[..self.len]) else {
                unreachable!()
            };
            return bytes;
        }
        let Ok(()) = bytes.try_extend_from_slice(rest) else {
            unreachable!()
        };
        let Ok(()) = bytes.try_extend_from_slice(&[0; 240][..self.len - rest.len()]) else {
            unreachable!()
        };
        bytes
    }
}

// Returns the input from an offset on, which is past the registers of a fast call.
fn rest<'f, A: Allocator>(frame: &'f Frame<A>, shape: &Shape, at: usize) -> &'f [u8]
    requires { 16 ≤ at }
    ensures { result.now ≡ drop at (input_of frame.now shape.now.fast) }
{
    let input = frame.input.as_slice();
    if shape.fast || input.len() < at {
        &[]
    } else {
        &input[at..]
    }
}
