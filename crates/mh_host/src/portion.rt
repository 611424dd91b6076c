ghost use Rattle.std.specs.Prelude.{◌≡◌, [], length, min, IfOk, OnErr};
ghost use Rattle.mh_host.specs.Shelf.{IsFront, IsPortion};

use crate::shelf::Fetched;
use mh_text::Memory;

/// The first `taken` of the bytes, or all where they are fewer.
pub(crate) fn front(bytes: &[u8], taken: usize) -> &[u8]
    ensures front { IsFront result.now bytes.now }
    ensures len { length result.now ≡ min taken (length bytes.now) }
{
    if taken < bytes.len() {
        &bytes[..taken]
    } else {
        bytes
    }
}

/// Puts the bytes in the place of what `into` has, but at most `limit + 1` of them.
pub(crate) fn copy_portion(bytes: &[u8], limit: u64, into: &mut Vec<u8>) -> Result<Fetched, Memory>
    ensures found { IfOk result (λ found. IsPortion found bytes.now limit into.new.items) }
    ensures err { OnErr result (into.new.items ≡ []) }
{
    into.clear();
    if bytes.len() as u64 <= limit {
        into.extend_from_slice(bytes)?;
        Ok(Fetched::Whole)
    } else {
        into.extend_from_slice(front(bytes, limit as usize + 1))?;
        Ok(Fetched::TooLong)
    }
}
