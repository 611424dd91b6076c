//! Pieces of text at the end of what is written already.

ghost use Rattle.std.specs.Prelude.{◌≡◌, ◌++◌, OnOk};
ghost use Rattle.mh_top.specs.Pieces.{line};

use mh_text::Memory;

/// Writes a name between a front and an end, as one line.
pub(crate) fn write_line(
    out: &mut Vec<u8>,
    front: &[u8],
    name: &[u8],
    end: &[u8],
) -> Result<(), Memory>
    ensures { OnOk result (out.new.items ≡ out.old.items ++ line (front.now ++ name.now ++ end.now)) }
{
    out.extend_from_slice(front)?;
    out.extend_from_slice(name)?;
    out.extend_from_slice(end)?;
    out.push(b'\n')?;
    Ok(())
}

/// Writes two pieces as one line.
pub(crate) fn write_short_line(out: &mut Vec<u8>, first: &[u8], second: &[u8]) -> Result<(), Memory>
    ensures { OnOk result (out.new.items ≡ out.old.items ++ line (first.now ++ second.now)) }
{
    out.extend_from_slice(first)?;
    out.extend_from_slice(second)?;
    out.push(b'\n')?;
    Ok(())
}
