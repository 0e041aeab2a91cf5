// A look at a processor, and the line that asks for it.
ghost use Rattle.std.specs.Prelude.{◌≡◌, option_map};
ghost use Rattle.std.specs.Int.{w64, to_le_bytes};
ghost use Rattle.hv_machine.specs.IsFlat.{IsFlat};
ghost use Rattle.hv_mail.specs.Words.{numbers_of};
ghost use Rattle.hv_policy.specs.Flat.{Flat};
ghost use Rattle.hv_serve.specs.Peek.{count_of, fields_of, kind_of, look_of, peek_of, seen_of};
ghost use Rattle.hv_serve.specs.Peek.{vector_bytes};

use hv_looks::{flags, msr, pending, slot};
use hv_machine::Machine;
use hv_policy::{Caller, Output};
use hv_script::{CutLine, FaultKind, processor};
use std::alloc::Global;

/// A look at a processor.
#[derive(Clone, Copy, PartialEq, Eq, Debug)]
pub struct Peek {
    /// The processor.
    pub of: Caller,
    pub look: Look,
}

/// What a look at a processor shows.
#[derive(Clone, Copy, PartialEq, Eq, Debug)]
pub enum Look {
    /// The message slot of a SINT.
    Slot(u8),
    /// The event flags of a SINT.
    Flags(u8),
    /// A model-specific register.
    Msr(u32),
    /// The pending interrupt vectors.
    Pending,
}

// What a look shows, without its SINT or its register.
#[derive(Clone, Copy)]
pub(crate) enum LookKind {
    Slot,
    Flags,
    Msr,
    Pending,
}

impl LookKind {
    // Returns the kind that this word names, or `None` if it is unknown.
    fn of(word: &[u8]) -> Option<LookKind>
        ensures { result ≡ kind_of word.now }
    {
        if word == "slot".as_bytes() {
            Some(LookKind::Slot)
        } else if word == "flags".as_bytes() {
            Some(LookKind::Flags)
        } else if word == "rdmsr".as_bytes() {
            Some(LookKind::Msr)
        } else if word == "pending".as_bytes() {
            Some(LookKind::Pending)
        } else {
            None
        }
    }

    // The number of words of its line, with `peek` and the processor.
    fn words(self) -> usize
        ensures { result ≡ count_of self }
    {
        match self {
            LookKind::Slot | LookKind::Flags | LookKind::Msr => 4,
            LookKind::Pending => 3,
        }
    }
}

// Reads the look for which a line asks.
pub(crate) fn read_peek(line: &CutLine<'_>) -> Result<Peek, FaultKind>
    ensures { result ≡ peek_of line.now }
{
    let of = processor(line.word(1))?;
    let look = read_look(line)?;
    Ok(Peek { of, look })
}

// Reads the words after the processor.
#[tactic(auto, unfolding(crate::specs::Peek::look_of))]
fn read_look(line: &CutLine<'_>) -> Result<Look, FaultKind>
    ensures { result ≡ look_of line.now }
{
    let kind = LookKind::of(line.word(2)).ok_or(FaultKind::Word)?;
    if line.words() != kind.words() {
        return Err(FaultKind::Count);
    }
    read_fields(kind, line)
}

// Reads the SINT, or the number of the register.
fn read_fields(kind: LookKind, line: &CutLine<'_>) -> Result<Look, FaultKind>
    ensures { result ≡ fields_of kind line.now }
{
    match kind {
        LookKind::Slot => Ok(Look::Slot(line.number_in(8, 3)? as u8)),
        LookKind::Flags => Ok(Look::Flags(line.number_in(8, 3)? as u8)),
        LookKind::Msr => Ok(Look::Msr(line.number_in(32, 3)? as u32)),
        LookKind::Pending => Ok(Look::Pending),
    }
}

// Returns the bytes that a look shows. `None` if there is no such processor, SINT or register.
pub(crate) fn seen(machine: &Machine<Global>, peek: Peek) -> Option<Output>
    ensures { (f : Flat) → IsFlat machine.now f → result ≡ seen_of f peek }
{
    match peek.look {
        Look::Slot(sint) => bytes_output(slot(machine, peek.of, sint)),
        Look::Flags(sint) => bytes_output(flags(machine, peek.of, sint)),
        Look::Msr(number) => number_output(msr(machine, peek.of, number)),
        Look::Pending => vectors_output(pending(machine, peek.of)),
    }
}

fn bytes_output(bytes: Option<[u8; 256]>) -> Option<Output>
    ensures { result ≡ bytes }
{
    let bytes = bytes?;
    let mut output = Output::new();
    output.extend_from_slice(&bytes);
    Some(output)
}

fn number_output(number: Option<u64>) -> Option<Output>
    ensures { result ≡ option_map (to_le_bytes w64) number }
{
    let number = number?;
    let mut output = Output::new();
    output.push_number(number);
    Some(output)
}

fn vectors_output(words: Option<[u64; 4]>) -> Option<Output>
    ensures { result ≡ option_map (λ words. vector_bytes (numbers_of words)) words }
{
    match words {
        Some(words) => Some(bits_output(&words)),
        None => None,
    }
}

// Returns the bytes of these words, the lowest first.
fn bits_output(words: &[u64; 4]) -> Output
    ensures { result ≡ vector_bytes (numbers_of words.now) }
{
    let mut output = Output::new();
    output.push_number(words[0]);
    output.push_number(words[1]);
    output.push_number(words[2]);
    output.push_number(words[3]);
    output
}
