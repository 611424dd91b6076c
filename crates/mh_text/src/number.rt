ghost use Rattle.std.specs.Prelude.{◌≡◌, ◌++◌, OnOk, OnErr};
ghost use Rattle.mh_text.specs.Decimal.{decimal_text};

use crate::memory::Memory;
use itoa::Buffer;

/// Appends the decimal digits of `v`, with `-` in front where `v` is negative.
pub fn put_number(out: &mut Vec<u8>, v: i128) -> Result<(), Memory>
    ensures ok { OnOk result (out.new.items ≡ out.old.items ++ decimal_text v) }
    ensures err { OnErr result (out.new.items ≡ out.old.items) }
{
    let mut buffer = Buffer::new();
    out.extend_from_slice(buffer.format(v).as_bytes())?;
    Ok(())
}
