// The contents of a handle's block: a machine, and memory that its events reuse.
ghost use Rattle.std.specs.Prelude.{◌≡◌, ◌≢◌, [], OnErr, OnOk, take};
ghost use Rattle.hv_embed.specs.Answer.{frame_of as frame_by, list_len};

use crate::layout::HvRegisters;
use hv_abi::{Bytes, CallKind, Frame, InputValue};
use hv_machine::{Machine, Output};
use hv_text::Scratch;
use std::alloc::{AllocError, Global};
use std::marker::Model;

// The most bytes of memory kept for input lists: twice a page. No list is longer than a page, and memory that
// grows may double.
const MOST_SPARE: usize = 8192;

/// A machine, and the memory that its events reuse.
///
/// The memory holds a call's frame, an event's output, and the audit's next line. Contracts see the machine
/// alone.
#[derive(Drop)]
pub struct MachineState {
    pub(crate) machine: Machine<Global>,
    pub(crate) frame: Frame<Global>,
    pub(crate) output: Output,
    pub(crate) scratch: Scratch,
}

impl Model for MachineState {
    ghost use Rattle.hv_machine.specs.State.{State, state_code};

    ghost Value = { State };

    ghost coded = { state_code };

    ghost view = { λ h. h.machine };
}

impl MachineState {
    // Wraps a machine before its first event.
    pub(crate) fn of(machine: Machine<Global>, alloc: Global) -> MachineState
        ensures { result ≡ machine }
    {
        MachineState {
            machine,
            frame: no_frame(alloc),
            output: Output::new(),
            scratch: Scratch::new(),
        }
    }

    // Keeps the frame's memory for the next call, unless that is more than `MOST_SPARE`.
    pub(crate) fn trim(&mut self, alloc: Global)
        ensures { self.new ≡ self.old }
    {
        if self.frame.input.capacity() > MOST_SPARE {
            self.frame = no_frame(alloc);
        }
    }
}

// Returns a frame without memory.
pub(crate) fn no_frame(alloc: Global) -> Frame<Global> {
    Frame {
        rcx: 0,
        rdx: 0,
        r8: 0,
        input: Bytes::from_vec(Vec::new(alloc)),
    }
}

// Fills a frame with these registers and the input list at the start of these bytes, in the memory that it
// has if that is enough. An empty list takes none.
pub(crate) fn refill(
    frame: &mut Frame<Global>,
    registers: &HvRegisters,
    input: &[u8],
) -> Result<(), AllocError>
    ensures filled { OnOk result (frame.new ≡ frame_by registers.now input.now) }
    ensures some { OnErr result ((frame_by registers.now input.now).input ≢ []) }
{
    frame.rcx = registers.rcx;
    frame.rdx = registers.rdx;
    frame.r8 = registers.r8;
    let list = list_in(registers.rcx, input);
    match frame.input.refill(list) {
        Err(AllocError) if !list.is_empty() => Err(AllocError),
        Ok(()) | Err(AllocError) => Ok(()),
    }
}

// Returns the input list of a call, which is at the start of these bytes. Bytes behind it aren't read.
#[tactic(auto, using(std::proofs::lemmas::List::take_min))]
fn list_in(rcx: u64, input: &[u8]) -> &[u8]
    ensures { result.now ≡ take (list_len rcx) input.now }
{
    let value = InputValue::read(rcx);
    let len = match CallKind::of(value.call) {
        Some(kind) if !value.fast => kind.input_len(value.reps) as usize,
        Some(_) | None => 0,
    };
    &input[..len.min(input.len())]
}
