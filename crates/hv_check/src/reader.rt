// Reading the processor that a line of an audit names.
ghost use Rattle.std.specs.Prelude.{◌≡◌, ◌<◌, ◌^◌, ◌==◌, IfNone, IfSome, Some, decimal};
ghost use Rattle.std.specs.Prelude.{SomeIff};
ghost use Rattle.std.specs.Str.Parse.{IsNumeral, digits_value};
ghost use Rattle.hv_policy.specs.declared.event.Caller.{Caller as CallerValue};
ghost use Rattle.hv_check.specs.From.{IsNamedIn};
ghost use Rattle.hv_check.specs.Parted.{IsAround, IsNowhere};

use hv_policy::Caller;

/// Returns the processor of the line at the start of a text, which is `NUMBER ID.VP` and a space.
pub fn processor(text: &[u8]) -> Option<Caller>
    ensures { (by : CallerValue) → IsNamedIn text.now by → result ≡ Some by }
{
    let (_, behind) = around(text, b' ')?;
    let (part, behind) = around(behind, b'.')?;
    let (vp, _) = around(behind, b' ')?;
    caller_of(decimal(part)?, decimal(vp)?)
}

// Returns the processor with these numbers, if they fit.
fn caller_of(part: u64, vp: u64) -> Option<Caller>
    ensures { vp < 2 ^ 32 → result ≡ Some (record { part = part; vp = vp }) }
{
    if vp >> 32 == 0 {
        Some(Caller {
            part,
            vp: vp as u32,
        })
    } else {
        None
    }
}

/// Splits a text at the first byte of this value into the bytes before and after it, if there is one.
pub fn around(text: &[u8], byte: u8) -> Option<(&[u8], &[u8])>
    ensures some { IfSome result (λ both. IsAround byte text.now both.0.now both.1.now) }
    ensures none { IfNone result (IsNowhere byte text.now) }
{
    match text.iter().position(|it| *it == byte) {
        Some(at) => Some((&text[..at], &text[at + 1..])),
        None => None,
    }
}

// Returns the number that decimal digits write, if it fits 64 bits.
fn decimal(word: &[u8]) -> Option<u64>
    ensures { SomeIff result (IsNumeral 10 word.now × (digits_value 10 word.now < 2 ^ 64))
        (digits_value 10 word.now) }
{
    if word.is_empty() {
        return None;
    }
    let mut value = 0u64;
    for byte in word {
        let digit = char::from(*byte).to_digit(10)?;
        value = value.checked_mul(10)?.checked_add(u64::from(digit))?;
    }
    Some(value)
}
