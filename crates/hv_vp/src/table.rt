// The table of registers, by places.
ghost use Rattle.std.specs.Prelude.{◌≡◌, ◌<◌, IfSome, map, option_map};
ghost use Rattle.hv_defs.specs.declared.registers.TheConstants as rows;
ghost use Rattle.hv_defs.specs.declared.registers.TheConstants.{REGISTER_COUNT};
ghost use Rattle.hv_defs.specs.Registers.{is_sint_value, kept, name_of_msr, row_of, take};
ghost use Rattle.hv_vp.specs.Registers.{msr_place, place_of, takes_at};

use hv_defs::{REGISTER_COUNT, REGISTERS, RegFault, Takes, VP_INDEX};

// The place of VP_INDEX.
pub const VP_INDEX_PLACE: usize = 18;

const _: () = prove!(REGISTERS[VP_INDEX_PLACE].name == VP_INDEX);

// The values of the rows in a new processor.
pub fn start_values() -> [u64; REGISTER_COUNT]
    ensures { result ≡ map (λ row. row.start) rows.REGISTERS }
{
    REGISTERS.map(|row| row.start)
}

// The place of a register in the table.
#[tactic(auto, unfolding(crate::specs::Registers::place_of))]
pub fn place_of(name: u32) -> Option<usize>
    ensures place { result ≡ place_of name }
    ensures within { IfSome result (λ place. place < REGISTER_COUNT) }
{
    REGISTERS.iter().position(|row| row.name == name)
}

// Which values the register at a place of the table takes.
#[tactic(auto, unfolding(crate::specs::Registers::takes_at))]
pub fn takes_at(place: usize) -> Takes
    requires { place < REGISTER_COUNT }
    ensures { result ≡ takes_at place }
{
    let rows = &REGISTERS;
    rows[place].takes
}

/// The privilege bits that an access to the register with this name needs, if there is one.
///
/// The bits are those of a partition's privilege mask. The name is an HV_REGISTER_NAME.
pub fn privilege_of(name: u32) -> Option<u64>
    ensures { result ≡ option_map (λ row. row.privilege) (row_of name) }
{
    match place_of(name) {
        Some(place) => {
            let rows = &REGISTERS;
            Some(rows[place].privilege)
        }
        None => None,
    }
}

/// The value that the register with this name keeps after a write, or why it refuses the value.
pub fn kept(name: u32, value: u64) -> Result<u64, RegFault>
    ensures { result ≡ kept (row_of name) value }
{
    match place_of(name) {
        Some(place) => take(takes_at(place), value),
        None => Err(RegFault::Unknown),
    }
}

// The value that is kept after a write, or why there is none.
pub fn take(takes: Takes, value: u64) -> Result<u64, RegFault>
    ensures { result ≡ take takes value }
{
    match takes {
        Takes::Nothing => Err(RegFault::ReadOnly),
        Takes::Any => Ok(value),
        Takes::SintValue if is_sint_value(value) => Ok(value),
        Takes::SintValue => Err(RegFault::Value),
        Takes::EndOfMessage => Ok(0),
    }
}

// Whether the value has a vector from 16 up, or is masked.
fn is_sint_value(value: u64) -> bool
    ensures { result ≡ is_sint_value value }
{
    value & 0xff >= 16 || value >> 16 & 1 == 1
}

/// The HV_REGISTER_NAME of the model-specific register with this number, if there is one.
pub fn name_of_msr(msr: u32) -> Option<u32>
    ensures { result ≡ name_of_msr msr }
{
    match msr_place(msr) {
        Some(place) => {
            let rows = &REGISTERS;
            Some(rows[place].name)
        }
        None => None,
    }
}

// The place of a model-specific register in the table.
#[tactic(auto, unfolding(crate::specs::Registers::msr_place))]
fn msr_place(msr: u32) -> Option<usize>
    ensures place { result ≡ msr_place msr }
    ensures within { IfSome result (λ place. place < REGISTER_COUNT) }
{
    REGISTERS.iter().position(|row| row.msr == Some(msr))
}
