// The ports that were created in a history. A processor counts its kept messages by port and birth, and keeps
// messages of a port that is gone, which its partition does not list.

use hv_abi::{Bytes, Frame};
use hv_admit::resolve_partition_id;
use hv_calls::{Call, decode};
use hv_history::{Answer, EntryRef, Kept, Request};
use std::alloc::{AllocError, Global};

/// A port that an event created. It may be gone.
#[derive(Clone, Copy)]
pub(crate) struct MadePort {
    /// The partition to which it belongs, and its id there.
    pub(crate) part: u64,
    pub(crate) port: u32,
    /// The count of served events at its creation, that event included.
    pub(crate) born: u64,
    /// The SINT at which it aims.
    pub(crate) sint: u32,
}

/// Returns the ports that were created in a history, in its order.
pub(crate) fn made_ports(alloc: Global, kept: &Kept<Global>) -> Result<Vec<MadePort>, AllocError> {
    let mut made = Vec::new(alloc);
    let mut served = 0u64;
    let history = kept.history();
    for at in 0..history.len() {
        let entry = history.entry(at);
        if is_served(entry.answer) {
            served = served.saturating_add(1);
            if let Some(port) = port_of(alloc, &entry, served)? {
                made.push(port)?;
            }
        }
    }
    Ok(made)
}

// Returns whether this is the answer to a served event.
fn is_served(answer: Answer) -> bool {
    match answer {
        Answer::Served | Answer::More { .. } => true,
        Answer::Denied { .. } | Answer::Fault { .. } => false,
    }
}

// Returns the port that a served event created, if it created one. `served` counts the served events, this
// one included.
fn port_of(
    alloc: Global,
    entry: &EntryRef<'_>,
    served: u64,
) -> Result<Option<MadePort>, AllocError> {
    let Request::Hypercall { rcx, rdx, r8 } = entry.asked else {
        return Ok(None);
    };
    let mut bytes = Vec::new(alloc);
    bytes.extend_from_slice(entry.input)?;
    let input = Bytes::from_vec(bytes);
    let frame = Frame {
        rcx,
        rdx,
        r8,
        input,
    };
    let Ok(shape) = frame.check() else {
        return Ok(None);
    };
    match decode(&frame, &shape) {
        Ok(
            Call::CreatePort {
                partition,
                port,
                sint,
                ..
            },
        ) => Ok(Some(MadePort {
            part: resolve_partition_id(entry.by.part, partition),
            port,
            born: served,
            sint,
        })),
        Ok(_) | Err(_) => Ok(None),
    }
}
