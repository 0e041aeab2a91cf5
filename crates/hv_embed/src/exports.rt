// The functions that C calls to boot a machine, to take events, and to destroy it.
ghost use Rattle.std.specs.Prelude.{◌≡◌, ◌≢◌, [], length, false, true};
ghost use Rattle.hv_policy.specs.declared.event.Action.TheVariants.{ClearFlag, ClearSlot, Hypercall};
ghost use Rattle.hv_policy.specs.declared.event.Action.TheVariants.{ReadFlags, ReadMsr, ReadSlot};
ghost use Rattle.hv_policy.specs.declared.event.Action.TheVariants.{TakeInterrupt, WriteMsr};
ghost use Rattle.hv_embed.specs.Answer.{caller_of, config_of, event_of as event_by, frame_of};
ghost use Rattle.hv_embed.specs.Run.{IsRunTaken, run_readiness};
ghost use Rattle.hv_embed.specs.Taken.{IsAsBefore, IsBooted, IsRefused, IsTaken, MayLackMemory, readiness};
ghost use Rattle.hv_embed.specs.declared.status.TheConstants.{DONE, MEMORY, OCCUPIED};

use crate::answer::is_short;
use crate::handle::{HvMachine, state_of};
use crate::layout::{ELEMENT_OUTPUT, HvCaller, HvConfig, HvRegisters, HvReply, HvRun};
use crate::machine_state::MachineState;
use crate::parts::Parts;
use crate::raw_machine::RawMachine;
use crate::run::step_run;
use crate::status::{DONE, OCCUPIED, SHORT, status_of};
use crate::take::{caller_of, step_call, take_access};
use hv_machine::{Access, BootRefused, Config, Machine};
use hv_privs::Privileges;
use std::alloc::Global;
use std::mem::replace;

/// Boots a machine into an empty handle.
///
/// On any other status the handle is unchanged: it was not empty, the configuration is refused, or memory ran
/// out.
#[unsafe(no_mangle)]
pub extern "C" fn hv_embed_boot(alloc: Global, machine: &mut HvMachine, config: &HvConfig) -> u32
    ensures booted { result ≡ DONE → IsBooted (config_of config.now) machine.new }
    ensures kept { result ≢ DONE → machine.new ≡ machine.old }
    ensures occupied { machine.old.live ≡ true → result ≡ OCCUPIED }
    ensures refused { machine.old.live ≡ false → result ≢ DONE → IsRefused (config_of config.now) result }
{
    if machine.live {
        return OCCUPIED;
    }
    let wanted = Config {
        pages: config.pages,
        pool: config.pool,
        vps: config.vps,
        mask: Privileges::of(config.mask),
    };
    let booted = match Machine::boot(alloc, wanted) {
        Ok(booted) => booted,
        Err(why) => return status_of(why),
    };
    let Ok(boxed) = Box::new(alloc, MachineState::of(booted, alloc)) else {
        return status_of(BootRefused::Memory);
    };
    let full = RawMachine::of_parts(Parts::of(boxed));
    replace(&mut machine.raw_machine, full).let_go();
    machine.live = true;
    machine.events = 0;
    DONE
}

/// Takes a hypercall of a processor with the bytes of its input list.
///
/// For a rep call it takes one element, the one at the start index in RCX. Memory may run out if the call has
/// an input list, which is copied, or if it is served and may take memory.
#[unsafe(no_mangle)]
pub extern "C" fn hv_embed_hypercall(
    alloc: Global,
    machine: &mut HvMachine,
    by: HvCaller,
    registers: &HvRegisters,
    input: &[u8],
    reply: &mut HvReply,
    line: &mut [u8],
) -> u32
    ensures taken { result ≡ DONE
        → IsTaken (event_by by (Hypercall (frame_of registers.now input.now))) machine.old machine.new
        reply.new line.new }
    ensures kept { result ≢ DONE → IsAsBefore machine.old machine.new }
    ensures unwritten { result ≢ DONE → (reply.new ≡ reply.old) × (line.new ≡ line.old) }
    ensures status { result ≢ MEMORY → result ≡ readiness machine.old (length line.old) }
    ensures free { result ≡ MEMORY → readiness machine.old (length line.old) ≡ DONE }
    ensures memory { result ≡ MEMORY → (frame_of registers.now input.now).input ≡ []
        → MayLackMemory machine.old.raw_machine.machine (caller_of by) (frame_of registers.now input.now) }
{
    let state = state_of!(machine);
    if is_short(line) {
        return SHORT;
    }
    let by = caller_of(by);
    let events = &mut machine.events;
    let status = step_call(state, events, by, registers, input, reply, line);
    state.trim(alloc);
    status
}

/// Takes a hypercall as [`hv_embed_hypercall`] does, and the further elements of a rep call one after
/// another, at most `most` in all. At least one element is taken, so `most` isn't 0.
///
/// It stops after the last element, or after one that isn't served or whose effect names more than a page. It
/// also stops when fewer than 16 bytes are left of the buffer for outputs, when the handle or the machine
/// takes no more events, or when memory runs out. The reply and its effect are those of the last element
/// taken, so the caller may call again from the next element on. Bytes of the buffer beyond the outputs may
/// be overwritten. No line is written.
#[unsafe(no_mangle)]
pub extern "C" fn hv_embed_run(
    alloc: Global,
    machine: &mut HvMachine,
    by: HvCaller,
    registers: &HvRegisters,
    input: &[u8],
    most: u32,
    reply: &mut HvReply,
    outputs: &mut [u8],
    done: &mut HvRun,
) -> u32
    ensures taken { result ≡ DONE
        → IsRunTaken (caller_of by) (frame_of registers.now input.now) most machine.old machine.new
        reply.new outputs.new done.new }
    ensures kept { result ≢ DONE → IsAsBefore machine.old machine.new }
    ensures unwritten { result ≢ DONE → (reply.new ≡ reply.old) × (outputs.new ≡ outputs.old)
        × (done.new ≡ done.old) }
    ensures status { result ≢ MEMORY → result ≡ run_readiness machine.old (length outputs.old) most }
    ensures free { result ≡ MEMORY → run_readiness machine.old (length outputs.old) most ≡ DONE }
    ensures memory { result ≡ MEMORY → (frame_of registers.now input.now).input ≡ []
        → MayLackMemory machine.old.raw_machine.machine (caller_of by) (frame_of registers.now input.now) }
{
    let state = state_of!(machine);
    if outputs.len() < ELEMENT_OUTPUT || most == 0 {
        return SHORT;
    }
    let by = caller_of(by);
    let events = &mut machine.events;
    let status = step_run(
        alloc, state, events, by, registers, input, most, reply, outputs, done,
    );
    state.trim(alloc);
    status
}

/// Reads an MSR of a processor. The output has 8 bytes.
#[unsafe(no_mangle)]
pub extern "C" fn hv_embed_read_msr(
    machine: &mut HvMachine,
    by: HvCaller,
    msr: u32,
    reply: &mut HvReply,
    line: &mut [u8],
) -> u32
    ensures taken { result ≡ DONE
        → IsTaken (event_by by (ReadMsr msr)) machine.old machine.new reply.new line.new }
    ensures kept { result ≢ DONE → IsAsBefore machine.old machine.new }
    ensures unwritten { result ≢ DONE → (reply.new ≡ reply.old) × (line.new ≡ line.old) }
    ensures status { result ≡ readiness machine.old (length line.old) }
{
    take_access(machine, by, Access::ReadMsr(msr), reply, line)
}

/// Writes a value to an MSR of a processor.
#[unsafe(no_mangle)]
pub extern "C" fn hv_embed_write_msr(
    machine: &mut HvMachine,
    by: HvCaller,
    msr: u32,
    value: u64,
    reply: &mut HvReply,
    line: &mut [u8],
) -> u32
    ensures taken { result ≡ DONE
        → IsTaken (event_by by (WriteMsr msr value)) machine.old machine.new reply.new line.new }
    ensures kept { result ≢ DONE → IsAsBefore machine.old machine.new }
    ensures unwritten { result ≢ DONE → (reply.new ≡ reply.old) × (line.new ≡ line.old) }
    ensures status { result ≡ readiness machine.old (length line.old) }
{
    take_access(machine, by, Access::WriteMsr(msr, value), reply, line)
}

/// Reads the message slot of a SINT of a processor. The output has 256 bytes.
#[unsafe(no_mangle)]
pub extern "C" fn hv_embed_read_slot(
    machine: &mut HvMachine,
    by: HvCaller,
    sint: u8,
    reply: &mut HvReply,
    line: &mut [u8],
) -> u32
    ensures taken { result ≡ DONE
        → IsTaken (event_by by (ReadSlot sint)) machine.old machine.new reply.new line.new }
    ensures kept { result ≢ DONE → IsAsBefore machine.old machine.new }
    ensures unwritten { result ≢ DONE → (reply.new ≡ reply.old) × (line.new ≡ line.old) }
    ensures status { result ≡ readiness machine.old (length line.old) }
{
    take_access(machine, by, Access::ReadSlot(sint), reply, line)
}

/// Removes the message that a SINT of a processor shows.
#[unsafe(no_mangle)]
pub extern "C" fn hv_embed_clear_slot(
    machine: &mut HvMachine,
    by: HvCaller,
    sint: u8,
    reply: &mut HvReply,
    line: &mut [u8],
) -> u32
    ensures taken { result ≡ DONE
        → IsTaken (event_by by (ClearSlot sint)) machine.old machine.new reply.new line.new }
    ensures kept { result ≢ DONE → IsAsBefore machine.old machine.new }
    ensures unwritten { result ≢ DONE → (reply.new ≡ reply.old) × (line.new ≡ line.old) }
    ensures status { result ≡ readiness machine.old (length line.old) }
{
    take_access(machine, by, Access::ClearSlot(sint), reply, line)
}

/// Reads the event flags of a SINT of a processor. The output has 256 bytes.
#[unsafe(no_mangle)]
pub extern "C" fn hv_embed_read_flags(
    machine: &mut HvMachine,
    by: HvCaller,
    sint: u8,
    reply: &mut HvReply,
    line: &mut [u8],
) -> u32
    ensures taken { result ≡ DONE
        → IsTaken (event_by by (ReadFlags sint)) machine.old machine.new reply.new line.new }
    ensures kept { result ≢ DONE → IsAsBefore machine.old machine.new }
    ensures unwritten { result ≢ DONE → (reply.new ≡ reply.old) × (line.new ≡ line.old) }
    ensures status { result ≡ readiness machine.old (length line.old) }
{
    take_access(machine, by, Access::ReadFlags(sint), reply, line)
}

/// Clears an event flag of a SINT of a processor.
#[unsafe(no_mangle)]
pub extern "C" fn hv_embed_clear_flag(
    machine: &mut HvMachine,
    by: HvCaller,
    sint: u8,
    flag: u16,
    reply: &mut HvReply,
    line: &mut [u8],
) -> u32
    ensures taken { result ≡ DONE
        → IsTaken (event_by by (ClearFlag sint flag)) machine.old machine.new reply.new line.new }
    ensures kept { result ≢ DONE → IsAsBefore machine.old machine.new }
    ensures unwritten { result ≢ DONE → (reply.new ≡ reply.old) × (line.new ≡ line.old) }
    ensures status { result ≡ readiness machine.old (length line.old) }
{
    take_access(machine, by, Access::ClearFlag(sint, flag), reply, line)
}

/// Takes the highest interrupt vector that is pending at a processor. The output is one byte, 0 if none is
/// pending.
#[unsafe(no_mangle)]
pub extern "C" fn hv_embed_take_interrupt(
    machine: &mut HvMachine,
    by: HvCaller,
    reply: &mut HvReply,
    line: &mut [u8],
) -> u32
    ensures taken { result ≡ DONE
        → IsTaken (event_by by TakeInterrupt) machine.old machine.new reply.new line.new }
    ensures kept { result ≢ DONE → IsAsBefore machine.old machine.new }
    ensures unwritten { result ≢ DONE → (reply.new ≡ reply.old) × (line.new ≡ line.old) }
    ensures status { result ≡ readiness machine.old (length line.old) }
{
    take_access(machine, by, Access::TakeInterrupt, reply, line)
}

/// Destroys the machine of a handle, if there is one, and leaves the handle empty.
#[unsafe(no_mangle)]
pub extern "C" fn hv_embed_destroy(alloc: Global, machine: &mut HvMachine)
    ensures live { machine.new.live ≡ false }
    ensures events { machine.new.events ≡ 0 }
{
    let old = replace(&mut machine.raw_machine, RawMachine::none(alloc));
    if machine.live {
        drop(old.into_parts().into_box());
    } else {
        old.let_go();
    }
    machine.live = false;
    machine.events = 0;
}
