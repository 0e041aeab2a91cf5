// Bytes added to a list.
ghost use Rattle.std.specs.Prelude.{◌≤◌, Ok, replicate};
ghost use Rattle.byteorder.specs.Endian.{little_bytes};
ghost use Rattle.hv_asm.specs.Made.{IsPushed};

use crate::fault::AsmFault;
use hv_script::FaultKind;

/// Adds bytes.
pub fn push_bytes(list: &mut Vec<u8>, bytes: &[u8]) -> Result<(), AsmFault>
    ensures { IsPushed result list.old.items list.new.items (Ok bytes.now) }
{
    list.extend_from_slice(bytes)
        .map_err(|_| AsmFault::Script(FaultKind::Memory))
}

/// Adds the lowest bytes of a number, the lowest first.
pub fn push_number(list: &mut Vec<u8>, number: u64, size: usize) -> Result<(), AsmFault>
    requires { size ≤ 8 }
    ensures { IsPushed result list.old.items list.new.items (Ok (little_bytes size number)) }
{
    push_bytes(list, &number.to_le_bytes()[..size])
}

/// Adds this many zeros.
pub fn push_zeros(list: &mut Vec<u8>, count: u8) -> Result<(), AsmFault>
    ensures { IsPushed result list.old.items list.new.items (Ok (replicate count 0)) }
{
    push_bytes(list, &[0; 255][..usize::from(count)])
}
