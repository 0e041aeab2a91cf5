// Numbers, truth values and processors in JSON.
ghost use Rattle.std.specs.Prelude.{◌++◌, codes, decimal, OnOk};
ghost use Rattle.std.specs.Io.KnownBytes.{Appends};
ghost use Rattle.hv_trace.specs.Effect.{bool_text, maybe_text, processor_text};

use itoa::Buffer;
use std::io;
use std::io::Write;

/// Writes a mark and a number.
pub(crate) fn put_number<W: Write>(out: &mut W, mark: &[u8], number: u64) -> io::Result<()>
    ensures { OnOk result (Appends (W.contents out.old) (W.contents out.new) (mark.now ++ decimal number)) }
{
    let mut buffer = Buffer::new();
    out.write_all(mark)?;
    out.write_all(buffer.format(number).as_bytes())
}

/// Writes a mark and a number, or null.
pub(crate) fn put_maybe<W: Write>(out: &mut W, mark: &[u8], number: Option<u32>) -> io::Result<()>
    ensures { OnOk result (Appends (W.contents out.old) (W.contents out.new)
        (mark.now ++ maybe_text number)) }
{
    match number {
        Some(number) => put_number(out, mark, u64::from(number)),
        None => {
            out.write_all(mark)?;
            out.write_all(b"null")
        }
    }
}

/// Writes a mark and a truth value.
pub(crate) fn put_bool<W: Write>(out: &mut W, mark: &[u8], is: bool) -> io::Result<()>
    ensures { OnOk result (Appends (W.contents out.old) (W.contents out.new) (mark.now ++ bool_text is)) }
{
    out.write_all(mark)?;
    out.write_all(if is { b"true" } else { b"false" })
}

/// Writes a mark and a processor.
#[tactic(auto, unfolding(crate::specs::Effect::processor_text))]
pub(crate) fn put_processor<W: Write>(
    out: &mut W,
    mark: &[u8],
    part: u64,
    vp: u32,
) -> io::Result<()>
    ensures { OnOk result (Appends (W.contents out.old) (W.contents out.new)
        (mark.now ++ processor_text part vp)) }
{
    out.write_all(mark)?;
    put_number(out, b"\"", part)?;
    put_number(out, b".", u64::from(vp))?;
    out.write_all(b"\"")
}

/// Writes three texts, one after another.
pub(crate) fn put_text<W: Write>(
    out: &mut W,
    before: &[u8],
    text: &[u8],
    after: &[u8],
) -> io::Result<()>
    ensures { OnOk result (Appends (W.contents out.old) (W.contents out.new)
        (before.now ++ text.now ++ after.now)) }
{
    out.write_all(before)?;
    out.write_all(text)?;
    out.write_all(after)
}
