// The progress of a processor in a phase.
ghost use Rattle.std.specs.Prelude.{◌≡◌, ◌<◌, ◌↔◌, [], IsTrue, option_copied};
ghost use Rattle.hv_defs.specs.declared.sizes.TheConstants.{REPS_END};
ghost use Rattle.hv_policy.specs.Parts.{next_in};
ghost use Rattle.hv_phases.specs.Schedule.{after_reply, at_element, first_of};
ghost use Rattle.hv_phases.specs.Turns.{todo};

use crate::turn::Turn;
use hv_policy::{Action, Reply};
use std::alloc::Global;
use std::mem;

impl Turn {
    /// Returns its next action.
    pub fn next(&self) -> Option<&Action<Global>>
        ensures { option_copied result ≡ first_of (todo self.now) }
    {
        if self.done < self.actions.len() {
            Some(&self.actions[self.done])
        } else {
            None
        }
    }

    // Returns whether no action is left.
    pub(crate) fn is_over(&self) -> bool
        ensures { IsTrue result ↔ (todo self.now ≡ []) }
    {
        self.done >= self.actions.len()
    }

    // Records the reply to its next action.
    pub(crate) fn go_on(&mut self, reply: &Reply)
        requires { next_in reply.now < REPS_END }
        ensures todo { todo self.new ≡ after_reply (todo self.old) reply.now }
        ensures by { self.new.by ≡ self.old.by }
    {
        if self.is_over() {
            return;
        }
        match reply {
            Reply::More { next, .. } => restart(&mut self.actions[self.done], *next),
            Reply::Served(_) => self.done += 1,
            Reply::Denied { .. } => self.done += 1,
            Reply::Fault { .. } => self.done += 1,
        }
    }
}

// Points a call at another element.
fn restart(action: &mut Action<Global>, next: u16)
    requires { next < REPS_END }
    ensures { action.new ≡ at_element action.old next }
{
    match mem::replace(action, Action::TakeInterrupt) {
        Action::Hypercall(frame) => *action = Action::Hypercall(frame.with_start(next)),
        access => *action = access,
    }
}
