// Reading a script line by line.
ghost use Rattle.std.specs.Prelude.{◌≡◌, ◌≢◌, ◌≤◌, All, IfErr, OnErr, OnOk, false, true};
ghost use Rattle.hv_script.specs.Callers.{callers_of, have_room, is_among, with_caller};

use crate::boot::{Boot, read_boot};
use crate::cut::CutLine;
use crate::fault::FaultKind;
use crate::line::{Line, action, processor};
use hv_policy::{Action, Caller};
use std::alloc::Allocator;

/// The most processors that a phase has.
pub const MOST_PROCESSORS: usize = 64;

/// The part of a script that was read, from its first line on.
#[derive(Drop)]
pub struct Reading<A: Allocator> {
    pub(crate) boot: Boot,
    /// The number of phases that began after the boot line.
    pub(crate) phase: u32,
    /// The processors of the phase.
    pub(crate) callers: Vec<Caller, A>,
    pub(crate) lines: Vec<Line<A>, A>,
    ghost named: { callers.items ≡ callers_of phase lines.items },
    ghost phases: { All (λ line. line.phase ≤ phase) lines.items },
}

impl<A: Allocator + Clone> Reading<A> {
    ghost use Rattle.std.specs.Prelude.{◌≡◌, ◌+◌, ◌<◌, ◌≤◌, ◌^◌, IfOk, OnOk, length};
    ghost use Rattle.hv_script.specs.Fault.{IsRead};
    ghost use Rattle.hv_script.specs.Reading.{phase_by, read_by, so_far};
    ghost use Rattle.hv_script.specs.Cursor.{read_cut};
    ghost use Rattle.hv_script.specs.Script.{first_line, later_line, phase_line, processor_line, taken};

    /// Reads the next line, with what was read before it.
    pub fn read_line(
        alloc: &A,
        reading: &mut Option<Reading<A>>,
        line: &CutLine<'_>,
    ) -> Result<(), FaultKind>
        requires { phase_by reading.old + 1 < 2 ^ 32 }
        ensures read { IsRead result (λ _. read_by reading.new) (read_cut (read_by reading.old) line.now) }
        ensures phase { OnOk result (phase_by reading.new ≤ phase_by reading.old + 1) }
    {
        if line.words() == 0 {
            return Ok(());
        }
        match reading {
            None => *reading = Some(Reading::first_line(alloc, line)?),
            Some(reading) => reading.later_line(alloc, line)?,
        }
        Ok(())
    }

    // Reads the first line, which is a `boot` line.
    fn first_line(alloc: &A, line: &CutLine<'_>) -> Result<Reading<A>, FaultKind>
        ensures read { IsRead result so_far (first_line line.now) }
        ensures phase { IfOk result (λ reading. reading.phase ≡ 0) }
    {
        if !line.begins_with(b"boot".as_slice()) {
            return Err(FaultKind::NoBoot);
        }
        let boot = read_boot(line)?;
        let callers = alloc.clone().map_err(|_| FaultKind::Memory)?;
        let lines = alloc.clone().map_err(|_| FaultKind::Memory)?;
        Ok(Reading {
            boot,
            phase: 0,
            callers: Vec::new(callers),
            lines: Vec::new(lines),
        })
    }

    // Reads any line after the first.
    #[tactic(auto, unfolding(crate::specs::Script::later_line))]
    fn later_line(&mut self, alloc: &A, line: &CutLine<'_>) -> Result<(), FaultKind>
        requires { self.old.phase + 1 < 2 ^ 32 }
        ensures read { IsRead result (λ _. so_far self.new) (later_line (so_far self.old)
            line.now) }
        ensures phase { OnOk result (self.new.phase ≤ self.old.phase + 1) }
    {
        if line.begins_with(b"boot".as_slice()) {
            return Err(FaultKind::BootTwice);
        }
        if line.begins_with(b"phase".as_slice()) {
            return self.phase_line(line);
        }
        self.processor_line(alloc, line)
    }

    // Reads a `phase` line.
    #[tactic(auto, using(crate::proofs::CallerLemmas::no_callers))]
    fn phase_line(&mut self, line: &CutLine<'_>) -> Result<(), FaultKind>
        requires { self.old.phase + 1 < 2 ^ 32 }
        ensures read { IsRead result (λ _. so_far self.new) (phase_line (so_far self.old)
            line.now) }
        ensures phase { OnOk result (self.new.phase ≤ self.old.phase + 1) }
    {
        if line.words() != 1 {
            return Err(FaultKind::Count);
        }
        self.callers.clear();
        self.phase += 1;
        Ok(())
    }

    // Reads a line of a processor, and takes it if the phase has room for it.
    #[tactic(auto, unfolding(crate::specs::Script::processor_line))]
    fn processor_line(&mut self, alloc: &A, line: &CutLine<'_>) -> Result<(), FaultKind>
        ensures read { IsRead result (λ _. so_far self.new) (processor_line (so_far self.old)
            line.now) }
        ensures phase { self.new.phase ≡ self.old.phase }
    {
        let by = processor(line.word(0))?;
        let action = action(alloc, line)?;
        self.take_line(by, action)
    }

    // Takes a line of a processor, if the phase has room for it.
    fn take_line(&mut self, by: Caller, action: Action<A>) -> Result<(), FaultKind>
        ensures read { IsRead result (λ _. so_far self.new) (taken (so_far self.old) by action) }
        ensures phase { self.new.phase ≡ self.old.phase }
    {
        // Room for the line comes first, so nothing fails after the processor is added.
        self.lines.reserve(1).map_err(|_| FaultKind::Memory)?;
        admit(&mut self.callers, by)?;
        self.lines.push_reserved(Line {
            phase: self.phase,
            by,
            action,
        });
        Ok(())
    }
}

/// Counts a processor among those of a phase, if there is room for it: `TooMany` where 64 others are
/// there, `Memory` where their list can't grow. On an error the list is unchanged.
pub fn admit<A: Allocator>(callers: &mut Vec<Caller, A>, by: Caller) -> Result<(), FaultKind>
    ensures room { OnOk result (have_room callers.old.items by ≡ true) }
    ensures counted { OnOk result (callers.new.items ≡ with_caller callers.old.items by) }
    ensures many { IfErr result (λ kind. kind ≢ FaultKind.Memory
        → (kind ≡ FaultKind.TooMany) × (have_room callers.old.items by ≡ false)) }
    ensures same { OnErr result (callers.new.items ≡ callers.old.items) }
{
    if is_among(callers, by) {
        return Ok(());
    }
    if callers.len() >= MOST_PROCESSORS {
        return Err(FaultKind::TooMany);
    }
    callers.push(by).map_err(|_| FaultKind::Memory)
}

// Returns whether a processor is one of these.
#[tactic(auto, using(std::proofs::lemmas::List::Folds::list_any_at))]
fn is_among(callers: &[Caller], by: Caller) -> bool
    ensures { result ≡ is_among callers.now by }
{
    for at in 0..callers.len() {
        if callers[at] == by {
            return true;
        }
    }
    false
}
