// The registers of a virtual processor.
ghost use Rattle.std.specs.Prelude.{◌≡◌};
ghost use Rattle.std.specs.FinMap as map;
ghost use Rattle.hv_defs.specs.Registers.{after_write, kept, row_of, start_registers};
ghost use Rattle.hv_vp.specs.Registers.{answer};

use crate::table::{VP_INDEX_PLACE, place_of, start_values, take, takes_at};
use hv_defs::{REGISTER_COUNT, RegFault};
use std::marker::Model;

/// One value for each row of the table.
#[derive(Drop)]
pub struct Registers {
    values: [u64; REGISTER_COUNT],
}

impl Model for Registers {
    ghost use Rattle.std.specs.Prelude.{ℕ};
    ghost use Rattle.std.specs.Ordering.{nat_cmp};
    ghost use Rattle.std.specs.FinMap as map;
    ghost use Rattle.std.specs.Coded.{coded_ℕ};
    ghost use Rattle.hv_vp.specs.Registers.{registers_of};

    ghost Value = { map.FinMap nat_cmp ℕ };

    ghost coded = { map.code coded_ℕ coded_ℕ };

    ghost view = { λ r. registers_of r.values };
}

impl Registers {
    /// The registers of a new processor with this index.
    pub fn new(index: u32) -> Registers
        ensures { result ≡ start_registers index }
    {
        let mut values = start_values();
        values[VP_INDEX_PLACE] = u64::from(index);
        Registers { values }
    }

    /// The value of a register, or `None` if no register has the name.
    pub fn read(&self, name: u32) -> Option<u64>
        ensures { result ≡ map.get self.now name }
    {
        match place_of(name) {
            Some(place) => Some(self.values[place]),
            None => None,
        }
    }

    /// Writes a register. A fault changes nothing.
    pub fn write(&mut self, name: u32, value: u64) -> Result<(), RegFault>
        ensures answer { result ≡ answer (kept (row_of name) value) }
        ensures registers { self.new ≡ after_write self.old name (kept (row_of name) value) }
    {
        let Some(place) = place_of(name) else {
            return Err(RegFault::Unknown);
        };
        let kept = take(takes_at(place), value)?;
        self.values[place] = kept;
        Ok(())
    }
}
