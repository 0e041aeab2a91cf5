// A machine state in a block of its own, behind a pointer that C accepts because its type names no other
// type.
ghost use Rattle.std.specs.Prelude.{◌≡◌, Bool, true, false};
ghost use Rattle.hv_machine.specs.State.{State, state_code};
ghost use Rattle.hv_embed.specs.Holds.{machine_owns};

use crate::machine_state::MachineState;
use crate::parts::Parts;
use std::alloc::Global;
use std::marker::Model;

#[repr(C)]
pub struct RawMachine {
    at: *mut u8,
    alloc: Global,
    pub ghost full: { Bool },
    pub ghost machine: { State } by { state_code },
}

impl Model for RawMachine {
    ghost also_owns = { λ h. machine_owns h.full h.alloc h.at h.machine };
}

unsafe impl Send for RawMachine {}

impl RawMachine {
    ghost use Rattle.std.specs.Borrow.{sem};
    ghost use Rattle.hv_embed.specs.Lent.{LendsMachine};

    /// Returns an empty one.
    pub fn none(alloc: Global) -> RawMachine
        ensures { result.full ≡ false }
    {
        RawMachine {
            at: std::ptr::null_mut(),
            alloc,
        }
    }

    pub fn of_parts(parts: Parts<MachineState, Global>) -> RawMachine
        ensures { (result.full ≡ true) × (result.machine ≡ parts.value) }
    {
        let Parts { ptr, alloc } = parts;
        RawMachine {
            at: ptr as *mut u8,
            alloc,
        }
    }

    pub fn into_parts(self) -> Parts<MachineState, Global>
        requires { self.full ≡ true }
        ensures { result.value ≡ self.machine }
    {
        let RawMachine { at, alloc } = self;
        Parts {
            ptr: at as *mut MachineState,
            alloc,
        }
    }

    // Borrows the machine. There is one.
    pub fn look(&mut self) -> &mut MachineState
        requires { self.old.full ≡ true }
        ensures* writes_back { sem 𝓛 (LendsMachine self.entry result) }
        ensures value { result.now ≡ self.old.machine }
    {
        unsafe { &mut *(self.at as *mut MachineState) }
    }

    // Drops one that is empty, and returns its allocator.
    pub fn let_go(self) -> Global
        requires { self.full ≡ false }
        ensures { result ≡ self.alloc }
    {
        let RawMachine { at: _, alloc } = self;
        alloc
    }
}
