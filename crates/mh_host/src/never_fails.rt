ghost use Rattle.std.specs.Prelude.{◌≡◌, [], false, true, is_ok, IfOk, OnErr};
ghost use Rattle.mh_host.specs.OtherShelves.{bytes_given};
ghost use Rattle.mh_host.specs.Shelf.{is_failed, IsPortion, IsWithin};

use crate::portion::copy_portion;
use crate::shelf::{Failed, Fetched, Shelf, ShelfError};
use mh_text::{Memory, Text};
use std::alloc::Global;

/// A shelf without faults: it gives each fetch the bytes that it was made with, drops what it is
/// given, and tells nothing. Its counts are 0 for good, so by the contract of `Shelf` no call on it
/// answers a fault.
#[derive(Debug, Drop)]
pub struct NeverFails {
    bytes: Text,
}

impl NeverFails {
    /// A shelf each of whose names gives these bytes.
    pub fn new(alloc: Global, bytes: &[u8]) -> Result<NeverFails, Memory>
        ensures { IfOk result (λ shelf. bytes_given shelf ≡ bytes.now) }
    {
        Ok(NeverFails {
            bytes: Text::new(alloc, bytes)?,
        })
    }
}

impl Shelf for NeverFails {
    ghost use Rattle.std.specs.Prelude.{None};

    ghost seen = { λ _. None };

    ghost counts = { λ _. record { fetch = 0; store = 0; print = 0; complain = 0 } };

    ghost may_fetch = { λ _. Unit {0} };

    ghost may_store = { λ _. Unit {0} };

    fn fetch(&mut self, _name: &Text, limit: u64, into: &mut Vec<u8>) -> Result<Fetched, ShelfError>
        ensures portion { IfOk result (λ found. IsPortion found (bytes_given self.old) limit into.new.items) }
        ensures found { IfOk result (λ found. IsWithin found limit into.new.items) }
        ensures err { OnErr result (into.new.items ≡ []) }
        ensures memory { is_failed result ≡ false }
        ensures stays { bytes_given self.new ≡ bytes_given self.old }
    {
        copy_portion(self.bytes.bytes(), limit, into).map_err(|_| ShelfError::Memory)
    }

    fn store(&mut self, _name: &Text, _bytes: &[u8]) -> Result<(), Failed>
        ensures done { is_ok result ≡ true }
        ensures stays { bytes_given self.new ≡ bytes_given self.old }
    {
        Ok(())
    }

    fn print(&mut self, _bytes: &[u8]) -> Result<(), Failed>
        ensures done { is_ok result ≡ true }
        ensures stays { bytes_given self.new ≡ bytes_given self.old }
    {
        Ok(())
    }

    fn complain(&mut self, _bytes: &[u8]) -> Result<(), Failed>
        ensures done { is_ok result ≡ true }
        ensures stays { bytes_given self.new ≡ bytes_given self.old }
    {
        Ok(())
    }
}
