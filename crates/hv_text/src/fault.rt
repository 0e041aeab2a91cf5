// Why a text wasn't written to its end.

/// Why a text wasn't written to its end.
#[derive(Clone, Copy, PartialEq, Eq, Debug)]
pub enum PrintFault {
    /// A write failed, or took nothing. Exactly the first `written` bytes of the text went out.
    Write { written: u64 },
    /// Out of memory. Nothing went out.
    Memory,
}
