//! Scripts whose lines may be written by names.
//!
//! [`asm_text`] prints the script that a text means: one line for each line. A line by names has the TLFS's
//! names of calls, registers and fields, and becomes the line of numbers that the script's language has. All
//! other lines stay as they are. `docs/PROGRAM.md` describes the form. [`script_by_names`] gives that script
//! to a command. [`push_line`] reads one line, and [`Hint`] tells of its fault.
#![tactic(auto)]

ghost use Rattle.std.specs.Prelude.{◌≡◌, ℕ, Bool, List, Ok};
ghost use Rattle.hv_abi.specs.declared.call_kind.CallKind.{CallKind};
ghost use Rattle.hv_abi.specs.declared.frame.Frame.{Frame};
ghost use Rattle.hv_asm.specs.Frame.{frame_of};
ghost use Rattle.hv_asm.specs.List.{elements_of, list_of};
ghost use Rattle.hv_asm.specs.Meaning.{Holds, call_with};
ghost use Rattle.hv_calls.specs.Call.{call_in};
ghost use Rattle.hv_calls.specs.Params.{element_at};
ghost use Rattle.hv_script.specs.Words.{word_at};

mod asm;
mod elements;
mod fault;
mod field;
mod frame;
mod hint;
mod line;
mod list;
mod names;
mod near;
mod push;
mod text;
mod values;

pub use asm::{asm_text, script_by_names};
pub use fault::{AsmError, AsmFault};
pub use field::{Field, Part, parts};
pub use hint::Hint;
pub use line::push_line;
pub use text::assemble;

/// The frame of a line by names decodes to the call with the fields that the line gives.
///
/// For a rep call this is the element at the frame's start index. The frame is fast where the line says so.
pub fn frame_is_held<A>()
    ensures { (call : CallKind) (words : List (List ℕ)) (frame : Frame A) → frame_of call words ≡ Ok frame
        → Holds frame call words }
{}

/// The input list of a line by names holds the call with the fields that the line gives.
///
/// For a rep call, the element at each index is the one that the word at this index gives.
pub fn fields_are_held()
    ensures { (call : CallKind) (fast : Bool) (words : List (List ℕ)) (list : List ℕ) (start : ℕ)
        → list_of call fast words ≡ Ok list → call_in call list (element_at call start)
        ≡ call_with call words (word_at (elements_of call fast words) start) }
{}
