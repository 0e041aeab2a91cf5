// Taking one event of a handle's machine.
ghost use Rattle.std.specs.Prelude.{◌≡◌, ◌≢◌, ◌+◌, [], length, false, if◌then◌else◌};
ghost use Rattle.hv_machine.specs.MachineInvariant.{MachineInvariant};
ghost use Rattle.hv_policy.specs.Call.{action_of, call_event};
ghost use Rattle.hv_embed.specs.Answer.{caller_of as caller_by, event_of as event_by, frame_of as frame_by};
ghost use Rattle.hv_embed.specs.Taken.{IsAsBefore, IsStepped, IsTaken, MayLackMemory};
ghost use Rattle.hv_embed.specs.Taken.{is_short as is_short_len};
ghost use Rattle.hv_embed.specs.Taken.{is_used_up as is_used_up_at, readiness};
ghost use Rattle.hv_embed.specs.declared.status.TheConstants.{DONE, USED_UP, MEMORY};

use crate::answer::{answer, asked_in, asked_of, is_short, parted};
use crate::effect::show;
use crate::handle::{HvMachine, state_of};
use crate::layout::{HvCaller, HvRegisters, HvReply};
use crate::machine_state::{MachineState, refill};
use crate::status::{DONE, MAX_EVENTS, MEMORY, SHORT, USED_UP};
use hv_defs::MAX_SERVED;
use hv_history::EntryRef;
use hv_machine::{Access, Caller, Machine};
use std::alloc::Global;

// Takes an access with the machine of a handle, and counts it.
pub(crate) fn take_access(
    machine: &mut HvMachine,
    by: HvCaller,
    access: Access,
    reply: &mut HvReply,
    line: &mut [u8],
) -> u32
    ensures taken { result ≡ DONE
        → IsTaken (event_by by (action_of access)) machine.old machine.new reply.new line.new }
    ensures kept { result ≢ DONE → IsAsBefore machine.old machine.new }
    ensures unwritten { result ≢ DONE → (reply.new ≡ reply.old) × (line.new ≡ line.old) }
    ensures status { result ≡ readiness machine.old (length line.old) }
{
    let state = state_of!(machine);
    if is_short(line) {
        return SHORT;
    }
    if is_used_up(&state.machine, machine.events) {
        return USED_UP;
    }
    let by = caller_of(by);
    state.output.clear();
    let (told, effect) = parted(state.machine.access(by, access, &mut state.output));
    machine.events += 1;
    show(effect, &mut reply.effect);
    let entry = EntryRef {
        by,
        asked: asked_of(access),
        input: &[],
        answer: told,
        output: state.output.as_slice(),
    };
    answer(&entry, machine.events, &mut state.scratch, reply, line);
    DONE
}

// Takes a call with these registers and the bytes of its input list, and counts it.
pub(crate) fn step_call(
    state: &mut MachineState,
    events: &mut u64,
    by: Caller,
    registers: &HvRegisters,
    input: &[u8],
    reply: &mut HvReply,
    line: &mut [u8],
) -> u32
    requires { is_short_len (length line.old) ≡ false }
    ensures taken { result ≡ DONE → IsStepped (call_event by (frame_by registers.now input.now)) events.new
        state.old state.new reply.new line.new }
    ensures count { result ≡ DONE → events.new ≡ events.old + 1 }
    ensures kept { result ≢ DONE → (state.new ≡ state.old) × (events.new ≡ events.old) }
    ensures unwritten { result ≢ DONE → (reply.new ≡ reply.old) × (line.new ≡ line.old) }
    ensures ready { result ≢ MEMORY
        → result ≡ if is_used_up_at state.old.served events.old then USED_UP else DONE }
    ensures free { result ≡ MEMORY → is_used_up_at state.old.served events.old ≡ false }
    ensures memory { result ≡ MEMORY → (frame_by registers.now input.now).input ≡ []
        → MayLackMemory state.old by (frame_by registers.now input.now) }
{
    if is_used_up(&state.machine, *events) {
        return USED_UP;
    }
    let Ok(()) = refill(&mut state.frame, registers, input) else {
        return MEMORY;
    };
    state.output.clear();
    let Ok((told, effect)) = state.machine.hypercall(by, &state.frame, &mut state.output) else {
        return MEMORY;
    };
    *events += 1;
    show(effect, &mut reply.effect);
    let entry = EntryRef {
        by,
        asked: asked_in(&state.frame),
        input: state.frame.input.as_slice(),
        answer: told,
        output: state.output.as_slice(),
    };
    answer(&entry, *events, &mut state.scratch, reply, line);
    DONE
}

// Returns whether the machine has served, or the handle has counted, as many events as can be counted.
pub(crate) fn is_used_up(machine: &Machine<Global>, events: u64) -> bool
    ensures used { result ≡ is_used_up_at machine.now.served events }
    ensures lasting { MachineInvariant machine.now }
{
    machine.served() >= MAX_SERVED || events >= MAX_EVENTS
}

// Returns the processor that C names.
pub(crate) fn caller_of(by: HvCaller) -> Caller
    ensures { result ≡ caller_by by }
{
    Caller {
        part: by.part,
        vp: by.vp,
    }
}
