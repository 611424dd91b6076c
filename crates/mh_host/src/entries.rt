ghost use Rattle.std.specs.Prelude.{◌≡◌, OnOk, OnErr};
ghost use Rattle.std.specs.Option.{option_copied};
ghost use Rattle.std.specs.Str.{bytes_eq};
ghost use Rattle.mh_host.specs.Entries.{held_under, Puts};

use mh_text::{Memory, Text};

/// A name and the bytes that it holds.
#[derive(Debug, Drop)]
pub struct Entry {
    pub name: Text,
    pub bytes: Text,
}

impl Entry {
    fn is_named(&self, name: &[u8]) -> bool
        ensures { result ≡ bytes_eq self.now.name name.now }
    {
        self.name.bytes() == name
    }
}

/// The bytes of the first entry of that name.
pub(crate) fn find<'a>(entries: &'a [Entry], name: &[u8]) -> Option<&'a [u8]>
    ensures { option_copied result ≡ held_under entries.now name.now }
{
    for entry in entries {
        if entry.is_named(name) {
            return Some(entry.bytes.bytes());
        }
    }
    None
}

/// Puts an entry in the place of the first of its name, or at the end.
pub(crate) fn place(entries: &mut Vec<Entry>, entry: Entry) -> Result<(), Memory>
    ensures ok { OnOk result (Puts entries.old.items entry.name entry.bytes entries.new.items) }
    ensures err { OnErr result (entries.new.items ≡ entries.old.items) }
{
    for at in 0..entries.len() {
        if entries[at].is_named(entry.name.bytes()) {
            entries[at] = entry;
            return Ok(());
        }
    }
    entries.push(entry)?;
    Ok(())
}
