// A script's schedule: whose turn it may be, and when a phase ends.
ghost use Rattle.std.specs.Prelude.{◌≡◌, ◌≢◌, ◌<◌, ◌++◌, ◌∷◌, [], IfNone, IfOk, IfSome, OnOk, List};
ghost use Rattle.std.specs.Prelude.{option_copied, reverse};
ghost use Rattle.hv_defs.specs.declared.sizes.TheConstants.{REPS_END};
ghost use Rattle.hv_phases.specs.Lines.{asked_by};
ghost use Rattle.hv_phases.specs.Read.{AreRead};
ghost use Rattle.hv_phases.specs.Schedule.{IsBegun, IsIdle, StandsFor, after_reply, first_of, later_of};
ghost use Rattle.hv_phases.specs.Schedule.{left_by};
ghost use Rattle.hv_phases.specs.Turns.{AreNew, HasGiven, IsAt, IsLast, IsPastAtEnd, todo, todo_of};
ghost use Rattle.hv_policy.specs.Parts.{next_in};
ghost use Rattle.hv_policy.specs.declared.event.Caller.{Caller as CallerValue};
ghost use Rattle.hv_script.specs.declared.line.Line.{Line as LineValue};
ghost use Rattle.std.specs.declared.alloc.Global.{Global as GlobalValue};

use crate::turn::Turn;
use hv_policy::{Action, Caller, Reply};
use hv_script::Line;
use std::alloc::{AllocError, Global};

/// The lines of a script, taken one event after another in any order that the script allows.
#[derive(Drop)]
pub struct Schedule {
    // The processors of the phase.
    pub(crate) turns: Vec<Turn>,
    // The lines of the later phases, the next one last.
    pub(crate) later: Vec<Line<Global>>,
}

impl Schedule {
    /// Returns a schedule of these lines, of which none is taken. No phase has begun.
    pub fn new(alloc: Global, lines: Vec<Line<Global>>) -> Schedule
        ensures { AreRead lines.items → StandsFor result lines.items }
    {
        let mut later = lines;
        later.reverse();
        Schedule {
            turns: Vec::new(alloc),
            later,
        }
    }

    /// Begins the next phase if the one before it is over. After an error the schedule must not be used.
    pub fn begin(&mut self) -> Result<(), AllocError>
        ensures lines { OnOk result ((lines : List (LineValue GlobalValue)) → StandsFor self.old lines
            → StandsFor self.new lines) }
        ensures begun { OnOk result (IsBegun self.new) }
    {
        if self.waiting().is_some() {
            return Ok(());
        }
        if let Some(first) = self.later.pop() {
            self.turns = turns_of(first, &mut self.later)?;
        }
        Ok(())
    }

    /// Returns the next action of this processor in the phase, if it has one left.
    pub fn next(&self, by: Caller) -> Option<&Action<Global>>
        ensures { option_copied result ≡ first_of (left_by by self.now) }
    {
        match find(&self.turns, by) {
            Some(at) => self.turns[at].next(),
            None => None,
        }
    }

    /// Takes the next event of this processor, which got this reply.
    pub fn go_on(&mut self, by: Caller, reply: &Reply)
        requires { next_in reply.now < REPS_END }
        ensures own { left_by by self.new ≡ after_reply (left_by by self.old) reply.now }
        ensures others { (other : CallerValue) → other ≢ by
            → left_by other self.new ≡ left_by other self.old }
        ensures later { later_of self.new ≡ later_of self.old }
    {
        if let Some(at) = find(&self.turns, by) {
            self.turns[at].go_on(reply);
        }
    }

    /// Returns a processor that has an action left in the phase.
    pub fn waiting(&self) -> Option<Caller>
        ensures some { IfSome result (λ by. left_by by self.now ≢ []) }
        ensures none { IfNone result (IsIdle self.now) }
    {
        for at in 0..self.turns.len() {
            if !self.turns[at].is_over() {
                return Some(self.turns[at].by);
            }
        }
        None
    }
}

// Returns the place of a processor's turn that isn't over, if it has one.
fn find(turns: &[Turn], by: Caller) -> Option<usize>
    ensures some { IfSome result (IsAt by turns.now) }
    ensures none { IfNone result (todo_of by turns.now ≡ []) }
{
    for at in 0..turns.len() {
        if turns[at].by == by && !turns[at].is_over() {
            return Some(at);
        }
    }
    None
}

// Returns the place of a processor's last turn, if it has one.
fn find_last(turns: &[Turn], by: Caller) -> Option<usize>
    ensures { IfSome result (IsLast by turns.now) }
{
    for at in (0..turns.len()).rev() {
        if turns[at].by == by {
            return Some(at);
        }
    }
    None
}

/// Takes out the lines of a phase, which begins with this one, and returns what each of its processors has to
/// do, in the order of their first lines. `later` holds the lines that are left, the next one last.
pub fn turns_of(first: Line<Global>, later: &mut Vec<Line<Global>>) -> Result<Vec<Turn>, AllocError>
    ensures { IfOk result (λ turns.
        HasGiven first (reverse later.old.items) turns.items (reverse later.new.items)) }
{
    let phase = first.phase;
    let mut turns = Vec::new(*later.allocator());
    give_line(&mut turns, first)?;
    while let Some(line) = next_of(later, phase) {
        give_line(&mut turns, line)?;
    }
    Ok(turns)
}

// Gives a line to its processor.
fn give_line(turns: &mut Vec<Turn>, line: Line<Global>) -> Result<(), AllocError>
    ensures asked { OnOk result ((by : CallerValue) → todo_of by turns.new.items
        ≡ todo_of by turns.old.items ++ asked_by by (line ∷ [])) }
    ensures new { AreNew turns.old.items → OnOk result (AreNew turns.new.items) }
{
    let Line { by, action, .. } = line;
    match find_last(turns, by) {
        Some(at) => add_action(&mut turns[at], action),
        None => {
            let turn = turn_of(*turns.allocator(), by, action)?;
            turns.push(turn)?;
            Ok(())
        }
    }
}

// Adds an action to a turn.
fn add_action(turn: &mut Turn, action: Action<Global>) -> Result<(), AllocError>
    ensures todo { OnOk result (todo turn.new ≡ todo turn.old ++ action ∷ []) }
    ensures by { turn.new.by ≡ turn.old.by }
    ensures done { turn.new.done ≡ turn.old.done }
{
    turn.actions.push(action)?;
    Ok(())
}

// Returns a turn with one action.
fn turn_of(alloc: Global, by: Caller, action: Action<Global>) -> Result<Turn, AllocError>
    ensures todo { IfOk result (λ turn. todo turn ≡ action ∷ []) }
    ensures by { IfOk result (λ turn. turn.by ≡ by) }
    ensures done { IfOk result (λ turn. turn.done ≡ 0) }
{
    let mut actions = Vec::new(alloc);
    actions.push(action)?;
    Ok(Turn {
        by,
        actions,
        done: 0,
    })
}

// Removes the next line, if there is one and it belongs to this phase.
fn next_of(later: &mut Vec<Line<Global>>, phase: u32) -> Option<Line<Global>>
    ensures some { IfSome result (λ line. (later.old.items ≡ later.new.items ++ line ∷ []) ×
        (line.phase ≡ phase)) }
    ensures same { IfNone result (later.new ≡ later.old) }
    ensures none { IfNone result (IsPastAtEnd phase later.new.items) }
{
    match later.last() {
        Some(line) if line.phase == phase => later.pop(),
        _ => None,
    }
}
