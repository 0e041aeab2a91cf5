// A message.
use arrayvec::ArrayVec;

/// A message as it was posted (TLFS 4.0, "Messages"), with the port through which it came.
#[derive(Debug, Drop)]
pub struct Message {
    /// The id of the port.
    pub port: u32,
    /// That port's birth, which tells it from an earlier port with the same id.
    pub born: u64,
    /// The message's type.
    pub kind: u32,
    /// The payload, of at most 240 bytes.
    pub payload: ArrayVec<u8, 240>,
}
