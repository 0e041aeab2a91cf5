// A call that is made with few blocks and, if it is refused, again with all.

use crate::rationed::Heap;
use std::alloc::AllocError;

// The answer to a call.
#[derive(Clone, Copy, PartialEq, Eq)]
pub(crate) enum Answer {
    Served,
    Memory,
    // An answer that must never come.
    Wrong,
}

pub(crate) fn answer_of(told: Result<(), AllocError>) -> Answer {
    match told {
        Ok(()) => Answer::Served,
        Err(_) => Answer::Memory,
    }
}

// A call that may take memory, and what it is made on.
pub(crate) trait Trial {
    fn call(&mut self) -> Answer;

    // Whether everything has the values that it has before the call.
    fn is_before(&mut self) -> bool;

    // Whether everything has the expected values after the served call, and then works.
    fn is_after(&mut self) -> bool;
}

// The outcome of a trial.
#[derive(Clone, Copy, PartialEq, Eq)]
pub(crate) struct Told {
    // Whether the call was refused memory.
    pub(crate) refused: bool,
    // Whether the call was served in the end, and everything was as expected before it, after the refusal and
    // at the end.
    pub(crate) is_right: bool,
}

// Makes the call again with memory. Returns whether everything was as before, and the call is served.
fn is_served_again<T: Trial>(trial: &mut T) -> bool {
    trial.is_before() && trial.call() == Answer::Served
}

pub(crate) fn attempt<T: Trial>(heap: &Heap, trial: &mut T, blocks: u64) -> Told {
    let was_before = trial.is_before();
    heap.ration(blocks);
    let answer = trial.call();
    heap.lift();
    let refused = answer == Answer::Memory;
    let is_served = answer == Answer::Served || (refused && is_served_again(trial));
    let is_right = was_before && is_served && trial.is_after();
    Told { refused, is_right }
}
