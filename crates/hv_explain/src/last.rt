// The last event of a history.
ghost use Rattle.std.specs.Prelude.{◌≡◌, ◌<◌, length, IfOk, IfSome, OnOk};
ghost use Rattle.hv_history.specs.History.{entry_by};
ghost use Rattle.hv_explain.specs.Written.{HasPut, IsExplanation, last_of};

use crate::explainer::put_event;
use hv_abi::{Bytes, Frame};
use hv_history::{EntryRef, Kept, Request};
use hv_policy::{Action, Reply};
use hv_words::Words;
use std::alloc::{AllocError, Global};
use std::io;
use std::io::Write;

/// Explains the last event of a history in a line on `out`, as an explainer does after the event.
///
/// `Err` if the line can't be written, or with the kind `OutOfMemory` if there is no memory.
pub fn explain_last<W: Write>(alloc: Global, kept: &Kept<Global>, out: &mut W) -> io::Result<()>
    requires { 0 < length kept.now.history }
    ensures { OnOk result (IfSome (last_of kept.now.history)
        (λ last. HasPut (IsExplanation (length kept.now.history) last.event.by) (W.contents out.old)
        (W.contents out.new))) }
{
    let history = kept.history();
    let number = history.len();
    let entry = history.entry(number - 1);
    let what = action_of(alloc, &entry)?;
    let reply = Reply::of(entry.answer, entry.output);
    put_event(
        &mut Words::new(),
        kept,
        number as u64,
        entry.by,
        &what,
        &reply,
        out,
    )
}

// Returns what an event asks for.
fn action_of(alloc: Global, entry: &EntryRef<'_>) -> Result<Action<Global>, AllocError>
    ensures { IfOk result (λ what. what ≡ (entry_by {A = Global} entry.now).event.what) }
{
    match entry.asked {
        Request::Hypercall { rcx, rdx, r8 } => {
            let input = Bytes::from_vec(Vec::from_slice(alloc, entry.input)?);
            Ok(Action::Hypercall(Frame {
                rcx,
                rdx,
                r8,
                input,
            }))
        }
        Request::ReadMsr(msr) => Ok(Action::ReadMsr(msr)),
        Request::WriteMsr(msr, value) => Ok(Action::WriteMsr(msr, value)),
        Request::ReadSlot(sint) => Ok(Action::ReadSlot(sint)),
        Request::ClearSlot(sint) => Ok(Action::ClearSlot(sint)),
        Request::ReadFlags(sint) => Ok(Action::ReadFlags(sint)),
        Request::ClearFlag(sint, flag) => Ok(Action::ClearFlag(sint, flag)),
        Request::TakeInterrupt => Ok(Action::TakeInterrupt),
    }
}
