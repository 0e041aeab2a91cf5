// The fields of a call's input, which are little-endian. Bytes past the input's end read as zero.
ghost use Rattle.std.specs.Prelude.{◌≡◌, ◌+◌, ◌*◌, ◌/◌, ◌%◌, ◌^◌, ◌<◌, ◌≤◌, ◌++◌};
ghost use Rattle.std.specs.Int.{w64, to_le_bytes};
ghost use Rattle.hv_abi.specs.Check.{input_of};
ghost use Rattle.hv_defs.specs.Field.{field};

use byteorder::{ByteOrder, LittleEndian};
use hv_abi::{Frame, Shape};
use std::alloc::Allocator;

// Reads the 8 bytes at an offset as a number.
pub fn u64_at<A: Allocator>(frame: &Frame<A>, shape: &Shape, at: usize) -> u64
    requires { at < 2 ^ 33 }
    ensures { result ≡ field (input_of frame.now shape.now.fast) at 8 }
{
    let input = frame.input.as_slice();
    if shape.fast {
        return fast_number(frame.rdx, frame.r8, at, 8);
    }
    if at + 8 > input.len() {
        return last_number(input, at, 8);
    }
    LittleEndian::read_u64(&input[at..at + 8])
}

// Reads the 4 bytes at an offset as a number.
pub fn u32_at<A: Allocator>(frame: &Frame<A>, shape: &Shape, at: usize) -> u32
    requires { at < 2 ^ 33 }
    ensures { result ≡ field (input_of frame.now shape.now.fast) at 4 }
{
    let input = frame.input.as_slice();
    if shape.fast {
        return fast_number(frame.rdx, frame.r8, at, 4) as u32;
    }
    if at + 4 > input.len() {
        return last_number(input, at, 4) as u32;
    }
    LittleEndian::read_u32(&input[at..at + 4])
}

// Reads the 2 bytes at an offset as a number.
pub fn u16_at<A: Allocator>(frame: &Frame<A>, shape: &Shape, at: usize) -> u16
    requires { at < 2 ^ 33 }
    ensures { result ≡ field (input_of frame.now shape.now.fast) at 2 }
{
    let input = frame.input.as_slice();
    if shape.fast {
        return fast_number(frame.rdx, frame.r8, at, 2) as u16;
    }
    if at + 2 > input.len() {
        return last_number(input, at, 2) as u16;
    }
    LittleEndian::read_u16(&input[at..at + 2])
}

// Reads the first 4 bytes as a number. For a fast call, they are in RDX.
pub fn first_u32<A: Allocator>(frame: &Frame<A>, shape: &Shape) -> u32
    ensures { result ≡ field (input_of frame.now shape.now.fast) 0 4 }
{
    if !shape.fast {
        return u32_at(frame, shape, 0);
    }
    (frame.rdx % 0x1_0000_0000) as u32
}

// Reads the 2 bytes after the first 4 as a number. For a fast call, they are in RDX.
pub fn second_u16<A: Allocator>(frame: &Frame<A>, shape: &Shape) -> u16
    ensures { result ≡ field (input_of frame.now shape.now.fast) 4 2 }
{
    if !shape.fast {
        return u16_at(frame, shape, 4);
    }
    (frame.rdx / 0x1_0000_0000 % 0x1_0000) as u16
}

// Reads the 4 bytes at each of the offsets 0, 8 and 12 as numbers, with one look-up if the list has them all.
pub fn head_u32s<A: Allocator>(frame: &Frame<A>, shape: &Shape) -> (u32, u32, u32)
    ensures first { result.0 ≡ field (input_of frame.now shape.now.fast) 0 4 }
    ensures second { result.1 ≡ field (input_of frame.now shape.now.fast) 8 4 }
    ensures third { result.2 ≡ field (input_of frame.now shape.now.fast) 12 4 }
{
    let input = frame.input.as_slice();
    if shape.fast || input.len() < 16 {
        return (
            u32_at(frame, shape, 0),
            u32_at(frame, shape, 8),
            u32_at(frame, shape, 12),
        );
    }
    (
        LittleEndian::read_u32(&input[..4]),
        LittleEndian::read_u32(&input[8..12]),
        LittleEndian::read_u32(&input[12..16]),
    )
}

// Reads `size` bytes at an offset of RDX and then R8 as a number, by shifts. No field of a fast call spans
// both registers.
fn fast_number(rdx: u64, r8: u64, at: usize, size: usize) -> u64
    requires place { at < 2 ^ 33 }
    requires few { size ≤ 8 }
    ensures number { result ≡ field (to_le_bytes w64 rdx ++ to_le_bytes w64 r8) at size }
    ensures fits { result < 2 ^ (8 * size) }
{
    if at + size <= 8 {
        return low_bytes(rdx, at, size);
    }
    if at >= 8 && at + size <= 16 {
        return low_bytes(r8, at - 8, size);
    }
    last_number(&both(rdx, r8), at, size)
}

// Returns the bytes of two numbers.
fn both(first: u64, second: u64) -> [u8; 16]
    ensures { result ≡ to_le_bytes w64 first ++ to_le_bytes w64 second }
{
    let mut bytes = [0; 16];
    bytes[..8].copy_from_slice(&first.to_le_bytes());
    bytes[8..].copy_from_slice(&second.to_le_bytes());
    bytes
}

// Returns the number in `size` bytes of `number`, from byte `at` on.
fn low_bytes(number: u64, at: usize, size: usize) -> u64
    requires { at + size ≤ 8 }
    ensures { result ≡ number / 256 ^ at % 256 ^ size }
{
    if size == 8 {
        return number;
    }
    if at == 8 {
        return 0;
    }
    (number >> (8 * at as u32)) % (1 << (8 * size as u32))
}

// Reads `size` bytes at an offset of a list as a number, where bytes past the list's end are 0. It starts at
// the last of them that the list has, and builds the number in a register: writing bytes to memory and
// reading them back as a number would stall.
fn last_number(input: &[u8], at: usize, size: usize) -> u64
    requires { size ≤ 8 }
    ensures number { result ≡ field input.now at size }
    ensures fits { result < 2 ^ (8 * size) }
{
    if at >= input.len() {
        return 0;
    }
    let mut end = at + size;
    if end > input.len() {
        end = input.len();
    }
    let mut number = 0;
    while end > at {
        end -= 1;
        number = number * 256 + u64::from(input[end]);
    }
    number
}
