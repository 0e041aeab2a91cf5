// The bytes of a message slot.
ghost use Rattle.std.specs.Prelude.{◌≡◌, Some, if◌then◌else◌};
ghost use Rattle.hv_mail.specs.Slot.{bytes_of};

use crate::message::Message;

// The slot that shows a message: type, payload size, whether another message waits, two zeros, port,
// payload, zeros.
pub(crate) fn shown_slot(message: &Message, is_pending: bool) -> [u8; 256]
    ensures { result ≡ bytes_of (Some message.now) is_pending }
{
    let payload = message.payload.as_slice();
    let mut bytes = [0; 256];
    bytes[..4].copy_from_slice(&message.kind.to_le_bytes());
    bytes[4] = payload.len() as u8;
    bytes[5] = flags(is_pending);
    bytes[8..16].copy_from_slice(&u64::from(message.port).to_le_bytes());
    bytes[16..16 + payload.len()].copy_from_slice(payload);
    bytes
}

// Bit 0: another message waits.
fn flags(is_pending: bool) -> u8
    ensures { result ≡ (if is_pending then 1 else 0) }
{
    if is_pending { 1 } else { 0 }
}
