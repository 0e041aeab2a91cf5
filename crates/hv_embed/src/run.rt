// Taking the elements of one call of a handle's machine.
ghost use Rattle.std.specs.Prelude.{◌≡◌, ◌≢◌, ◌+◌, ◌*◌, ◌<◌, ◌≤◌, ◌++◌, length, take, false, true, []};
ghost use Rattle.std.specs.Prelude.{if◌then◌else◌};
ghost use Rattle.hv_defs.specs.declared.sizes.TheConstants.{REPS_END};
ghost use Rattle.hv_policy.specs.Parts.{next_in, reply_of};
ghost use Rattle.hv_history.specs.Run.{IsMore, restart as restarted_at};
ghost use Rattle.hv_machine.specs.IsFlat.{IsFlat};
ghost use Rattle.hv_machine.specs.MachineInvariant.{MachineInvariant};
ghost use Rattle.hv_machine.specs.Sound.{IsSound};
ghost use Rattle.hv_policy.specs.Flat.{Flat};
ghost use Rattle.hv_policy.specs.Result.{HasResult};
ghost use Rattle.hv_embed.specs.Answer.{frame_of as frame_by};
ghost use Rattle.hv_embed.specs.Effect.{is_quiet_kind};
ghost use Rattle.hv_embed.specs.Run.{HasRun, IsAt, IsAtMore, IsLastEffect, IsRunEffect, Ran, first};
ghost use Rattle.hv_embed.specs.Run.{output_in};
ghost use Rattle.hv_embed.specs.Taken.{MayLackMemory, is_used_up as is_used_up_at};
ghost use Rattle.hv_embed.specs.declared.layout.TheConstants.{ELEMENT_OUTPUT};
ghost use Rattle.hv_embed.specs.declared.status.TheConstants.{DONE, USED_UP, MEMORY};

use crate::answer::{asked_in, fill_reply};
use crate::effect::{is_quiet, show};
use crate::layout::{ELEMENT_OUTPUT, HvEffect, HvRegisters, HvReply, HvRun};
use crate::machine_state::{MachineState, no_frame, refill};
use crate::status::{DONE, MEMORY, USED_UP};
use crate::take::is_used_up;
use hv_abi::Frame;
use hv_defs::REPS_END;
use hv_history::next_of;
use hv_machine::{Answer, Caller, Machine, Output};
use std::alloc::Global;
use std::mem::replace;

// Takes a call with these registers and the bytes of its input list, then its further elements, and counts
// each of them: at most `most` in all.
pub(crate) fn step_run(
    alloc: Global,
    state: &mut MachineState,
    events: &mut u64,
    by: Caller,
    registers: &HvRegisters,
    input: &[u8],
    most: u32,
    reply: &mut HvReply,
    outputs: &mut [u8],
    done: &mut HvRun,
) -> u32
    requires room { ELEMENT_OUTPUT ≤ length outputs.old }
    requires one { 0 < most }
    ensures ran { (f : Flat) → IsFlat state.old f → result ≡ DONE → HasRun by
        (first f by (frame_by registers.now input.now)) most events.old state.new reply.new outputs.new
        done.new }
    ensures effect { (f : Flat) → IsFlat state.old f → result ≡ DONE → IsRunEffect done.new.events f by
        (first f by (frame_by registers.now input.now)) reply.new.effect }
    ensures line { result ≡ DONE → reply.new.line_len ≡ 0 }
    ensures pages { state.new.pages ≡ state.old.pages }
    ensures lasting { MachineInvariant state.new }
    ensures sound { result ≡ DONE → IsSound state.new }
    ensures some { result ≡ DONE → 0 < done.new.events }
    ensures most { result ≡ DONE → done.new.events ≤ most }
    ensures count { result ≡ DONE → events.new ≡ events.old + done.new.events }
    ensures kept { result ≢ DONE → (state.new ≡ state.old) × (events.new ≡ events.old) }
    ensures unwritten { result ≢ DONE → (reply.new ≡ reply.old) × (outputs.new ≡ outputs.old)
        × (done.new ≡ done.old) }
    ensures ready { result ≢ MEMORY
        → result ≡ if is_used_up_at state.old.served events.old then USED_UP else DONE }
    ensures free { result ≡ MEMORY → is_used_up_at state.old.served events.old ≡ false }
    ensures memory { result ≡ MEMORY → (frame_by registers.now input.now).input ≡ []
        → MayLackMemory state.old by (frame_by registers.now input.now) }
{
    if is_used_up(&state.machine, *events) {
        return USED_UP;
    }
    let Ok(()) = refill(&mut state.frame, registers, input) else {
        return MEMORY;
    };
    state.output.clear();
    let Ok((mut last, effect)) = state.machine.hypercall(by, &state.frame, &mut state.output) else {
        return MEMORY;
    };
    *events += 1;
    show(effect, &mut reply.effect);
    let mut at = append_output(last, &state.output, outputs, 0);
    let more = run_on(
        alloc,
        &mut state.machine,
        events,
        by,
        most - 1,
        &mut state.frame,
        &mut last,
        &mut state.output,
        &mut reply.effect,
        outputs,
        &mut at,
    );
    fill_reply(asked_in(&state.frame), last, state.output.as_slice(), reply);
    *done = HvRun {
        events: more + 1,
        output_len: at as u32,
    };
    DONE
}

// Takes the elements after the last one, one after another, and returns how many it took: at most `further`.
// It stops after the call's last element, or after one that isn't served or whose effect names more than a
// page. It also stops when the buffer has no room for an output, or no more events are counted. Each element
// writes its output in place of the last one's. An element that the host refuses didn't happen, so `output`
// gets the last one's back from the caller's buffer, which begins with the output of the first element.
fn run_on(
    alloc: Global,
    machine: &mut Machine<Global>,
    events: &mut u64,
    by: Caller,
    further: u32,
    frame: &mut Frame<Global>,
    last: &mut Answer,
    output: &mut Output,
    effect: &mut HvEffect,
    outputs: &mut [u8],
    at: &mut usize,
) -> u32
    requires place { at.old ≤ length outputs.old }
    requires first { take at.old outputs.old ≡ output_in (reply_of last.old output.old) }
    requires most { at.old ≤ ELEMENT_OUTPUT }
    requires index { HasResult (reply_of last.old output.old) }
    requires lasting { MachineInvariant machine.old }
    requires sound { IsSound machine.old }
    ensures ran { (ran : Ran) → IsAt ran machine.old frame.old (reply_of last.old output.old)
        (take at.old outputs.old)
        → IsAtMore result by ran machine.new frame.new (reply_of last.new output.new)
        (take at.new outputs.new) }
    ensures effect { (ran : Ran) (f : Flat) → IsAt ran machine.old frame.old (reply_of last.old output.old)
        (take at.old outputs.old)
        → IsLastEffect 0 f by ran effect.old → IsLastEffect result f by ran effect.new }
    ensures most { result ≤ REPS_END }
    ensures bound { result ≤ further }
    ensures count { events.new ≡ events.old + result }
    ensures stopped { IsMore (reply_of last.new output.new) → is_quiet_kind effect.new.kind ≡ true
        → at.new + ELEMENT_OUTPUT ≤ length outputs.new → is_used_up_at machine.new.served events.new ≡ false
        → result < REPS_END → result < further
        → MayLackMemory machine.new by (restarted_at frame.new (next_in (reply_of last.new output.new))) }
    ensures place { at.new ≤ length outputs.old }
    ensures few { at.new ≤ at.old + ELEMENT_OUTPUT * result }
    ensures index { HasResult (reply_of last.new output.new) }
    ensures pages { machine.new.pages ≡ machine.old.pages }
    ensures lasting { MachineInvariant machine.new }
    ensures sound { IsSound machine.new }
{
    let mut from = 0;
    let end = further.min(u32::from(REPS_END));
    for more in 0..end {
        let Some(next) = next_of(*last) else {
            return more;
        };
        let is_full = outputs.len() - *at < ELEMENT_OUTPUT || is_used_up(machine, *events);
        if is_full || !is_quiet(effect) {
            return more;
        }
        let rcx = frame.rcx;
        restart(alloc, frame, next);
        output.clear();
        let Ok((told, change)) = machine.hypercall(by, frame, output) else {
            frame.rcx = rcx;
            output.clear();
            output.extend_from_slice(&outputs[from..*at]);
            return more;
        };
        *events += 1;
        from = *at;
        *at = append_output(told, output, outputs, from);
        *last = told;
        show(change, effect);
    }
    end
}

// Points a frame at another element of its call.
fn restart(alloc: Global, frame: &mut Frame<Global>, start: u16)
    requires { start < REPS_END }
    ensures { frame.new ≡ restarted_at frame.old start }
{
    *frame = replace(frame, no_frame(alloc)).with_start(start);
}

// Appends the output of a reply to a buffer at a place, and returns the place after it.
fn append_output(answer: Answer, output: &Output, outputs: &mut [u8], at: usize) -> usize
    requires place { at + ELEMENT_OUTPUT ≤ length outputs.old }
    requires most { length (output_in (reply_of answer output.now)) ≤ ELEMENT_OUTPUT }
    ensures bytes { take result outputs.new ≡ take at outputs.old ++ output_in (reply_of answer output.now) }
    ensures most { result ≤ at + ELEMENT_OUTPUT }
{
    match answer {
        Answer::Served | Answer::More { .. } => {
            let output = output.as_slice();
            let end = at + output.len();
            outputs[at..end].copy_from_slice(output);
            end
        }
        Answer::Denied { .. } | Answer::Fault { .. } => at,
    }
}
