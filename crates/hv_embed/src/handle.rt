// The handle that C owns.
ghost use Rattle.std.specs.Prelude.{◌≡◌};

use crate::raw_machine::RawMachine;

/// A machine, or nothing. C initializes it to zeros, which is an empty handle.
#[repr(C)]
pub struct HvMachine {
    pub(crate) live: bool,
    // The number of events that it took, served or not.
    pub(crate) events: u64,
    pub(crate) raw_machine: RawMachine,
    ghost tied: { raw_machine.full ≡ live },
}

// The machine state of a handle. An empty handle ends the function with its status.
macro_rules! state_of {
    ($handle:ident) => {{
        if !$handle.live {
            return crate::status::EMPTY;
        }
        $handle.raw_machine.look()
    }};
}

pub(crate) use state_of;

// Requires a type whose values may move to another thread.
fn may_cross<T: Send>() {}

// Shows that a handle may move to another thread, as a handle behind a lock does.
fn handles_may_cross() {
    may_cross::<HvMachine>();
}
