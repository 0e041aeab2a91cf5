// Frames and their check.
ghost use Rattle.std.specs.Prelude.{◌≡◌, ◌<◌, IfOk, IfErr, slice_index};
ghost use Rattle.hv_defs.specs.declared.sizes.TheConstants.{REPS_END};
ghost use Rattle.hv_abi.specs.Check.{is_placed};
ghost use Rattle.hv_abi.specs.InputValue.{input_value, restarted};

use crate::bytes::Bytes;
use crate::call_kind::{CallKind, CallRow};
use crate::input_value::{InputValue, restarted};
use hv_defs::PAGE_SIZE;
use std::alloc::{AllocError, Allocator};

/// What a guest passes with one hypercall: three registers and the bytes of its input list (TLFS 4.0,
/// "Hypercall Interface").
#[derive(Drop)]
pub struct Frame<A: Allocator> {
    /// The input value.
    pub rcx: u64,
    /// The guest physical address of the input list; for a fast call, the first 8 bytes of input.
    pub rdx: u64,
    /// The guest physical address of the output list; for a fast call, the second 8 bytes of input.
    pub r8: u64,
    /// The bytes at the input list's address. Bytes missing at the end read as zero. A fast call ignores
    /// these bytes.
    pub input: Bytes<A>,
}

/// What the input value of an accepted frame says.
#[derive(Clone, Copy, PartialEq, Eq, Debug)]
pub struct Shape {
    pub kind: CallKind,
    /// Whether the input is in RDX and R8.
    pub fast: bool,
    /// The rep count, from 1 to 4,095, or 0 for a simple call.
    pub reps: u16,
    /// The rep start index, below the rep count, or 0 for a simple call.
    pub start: u16,
}

/// The first fault of a frame. The faults are checked in the order of the variants.
#[derive(Clone, Copy, PartialEq, Eq, Debug)]
pub enum AbiFault {
    /// Rule P4: no call of the profile has this code.
    UnknownCode,
    /// Rule P5: a reserved bit is set, the fast bit is set on a call that doesn't accept it, a simple call
    /// has a rep count or start index, or a rep call has no reps or starts at or past their count.
    Input,
    /// Rule P6: the call is not fast, and a list that is not empty has an address that is not a multiple of
    /// 8, or crosses a page.
    Alignment,
}

impl<A: Allocator> Frame<A> {
    ghost use Rattle.hv_defs.specs.declared.sizes.TheConstants.{REPS_END};
    ghost use Rattle.hv_abi.specs.Check.{IsShape, are_lists_placed, call_of, first_fault, input_of};

    /// Checks that the frame is that of a call, and returns its shape, or its first fault.
    pub fn check(&self) -> Result<Shape, AbiFault>
        ensures shape { IfOk result (IsShape self.now) }
        ensures only { (s : Shape) → IsShape self.now s → result ≡ Ok s }
        ensures fault { IfErr result (λ e. first_fault self.now ≡ Some e) }
    {
        self.check_as(CallKind::of(InputValue::read(self.rcx).call))
    }

    /// Does what [`Frame::check`] does, given the call that the frame names, if it names one.
    // Inlined: calls for the own id in bench/embed.sh.
    #[inline(always)]
    pub fn check_as(&self, named: Option<CallKind>) -> Result<Shape, AbiFault>
        requires { call_of self.now ≡ named }
        ensures shape { IfOk result (IsShape self.now) }
        ensures only { (s : Shape) → IsShape self.now s → result ≡ Ok s }
        ensures fault { IfErr result (λ e. first_fault self.now ≡ Some e) }
    {
        let Some(kind) = named else {
            return Err(AbiFault::UnknownCode);
        };
        let row = kind.row();
        if !row.takes(self.rcx) {
            return Err(AbiFault::Input);
        }
        if !self.places_lists(row) {
            return Err(AbiFault::Alignment);
        }
        let InputValue {
            fast,
            reps,
            start,
            ..
        } = InputValue::read(self.rcx);
        Ok(Shape {
            kind,
            fast,
            reps,
            start,
        })
    }

    // Returns whether the lists of a call with this row may be at their addresses.
    // Inlined: calls for the own id in bench/embed.sh.
    #[inline(always)]
    fn places_lists(&self, row: CallRow) -> bool
        ensures { result ≡ are_lists_placed row self.now }
    {
        let InputValue { fast, reps, .. } = InputValue::read(self.rcx);
        fast || may_stand(self.rdx, row.input_len(reps)) && may_stand(self.r8, row.output_len(reps))
    }

    /// Returns the input's byte at an offset, or 0 past the input's end.
    ///
    /// The input of a fast frame is RDX and then R8, little-endian. The shape must be this frame's, from
    /// [`Frame::check`].
    pub fn byte(&self, shape: &Shape, at: usize) -> u8
        ensures { result ≡ slice_index (input_of self.now shape.now.fast) at }
    {
        if !shape.fast {
            return self.input.as_slice().get(at).copied().unwrap_or(0);
        }
        match at {
            0..8 => self.rdx.to_le_bytes()[at],
            8..16 => self.r8.to_le_bytes()[at - 8],
            _ => 0,
        }
    }

    /// Returns the frame with another rep start index, below 4,096.
    pub fn with_start(self, start: u16) -> Frame<A>
        requires { start < REPS_END }
        ensures frame { result ≡ record self { rcx = restarted self.rcx start } }
        ensures fields { input_value result.rcx ≡ record (input_value self.rcx) { start = start } }
    {
        Frame {
            rcx: restarted(self.rcx, start),
            rdx: self.rdx,
            r8: self.r8,
            input: self.input,
        }
    }
}

impl<A: Allocator + Clone> Frame<A> {
    /// Copies the frame, on the same allocator.
    pub fn copy(&self) -> Result<Frame<A>, AllocError>
        ensures { IfOk result (λ f. f ≡ self.now) }
    {
        let input = self.input.copy()?;
        Ok(Frame {
            rcx: self.rcx,
            rdx: self.rdx,
            r8: self.r8,
            input,
        })
    }
}

// Returns whether a list of `len` bytes may be at an address. An empty list may be anywhere.
fn may_stand(address: u64, len: u32) -> bool
    ensures { result ≡ is_placed address len }
{
    len == 0 || address % 8 == 0 && address % PAGE_SIZE + u64::from(len) <= PAGE_SIZE
}
