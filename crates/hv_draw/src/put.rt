// Writing texts and numbers.
ghost use Rattle.std.specs.Prelude.{◌++◌, decimal, OnOk};
ghost use Rattle.std.specs.Io.KnownBytes.{Appends};

use itoa::Buffer;
use std::io;
use std::io::Write;

/// Writes a mark and a number.
pub(crate) fn put_number<W: Write>(out: &mut W, mark: &[u8], number: u64) -> io::Result<()>
    ensures { OnOk result (Appends (W.contents out.old) (W.contents out.new) (mark.now ++ decimal number)) }
{
    let mut buffer = Buffer::new();
    out.write_all(mark)?;
    out.write_all(buffer.format(number).as_bytes())
}

/// Writes three texts, one after another.
pub(crate) fn put_text<W: Write>(
    out: &mut W,
    before: &[u8],
    text: &[u8],
    after: &[u8],
) -> io::Result<()>
    ensures { OnOk result (Appends (W.contents out.old) (W.contents out.new)
        (before.now ++ text.now ++ after.now)) }
{
    out.write_all(before)?;
    out.write_all(text)?;
    out.write_all(after)
}
