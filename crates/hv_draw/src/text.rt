// Adding to a text.
ghost use Rattle.std.specs.Prelude.{◌≡◌, ◌++◌, OnOk, decimal};
ghost use Rattle.hv_text.specs.Audit.{hex_64};

use hex::encode_to_slice;
use itoa::Buffer;
use std::alloc::AllocError;

// Adds these bytes.
pub(crate) fn push(text: &mut Vec<u8>, bytes: &[u8]) -> Result<(), AllocError>
    ensures { OnOk result (text.new.items ≡ text.old.items ++ bytes.now) }
{
    text.extend_from_slice(bytes)
}

// Adds a number in decimal.
pub(crate) fn push_number(text: &mut Vec<u8>, number: u64) -> Result<(), AllocError>
    ensures { OnOk result (text.new.items ≡ text.old.items ++ decimal number) }
{
    let mut buffer = Buffer::new();
    push(text, buffer.format(number).as_bytes())
}

// Adds a number in 16 hexadecimal digits.
pub(crate) fn push_hex_64(text: &mut Vec<u8>, number: u64) -> Result<(), AllocError>
    ensures { OnOk result (text.new.items ≡ text.old.items ++ hex_64 number) }
{
    let mut digits = [0; 16];
    let Ok(()) = encode_to_slice(number.to_be_bytes(), &mut digits) else {
        unreachable!()
    };
    push(text, &digits)
}
