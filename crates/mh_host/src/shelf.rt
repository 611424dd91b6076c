ghost use Rattle.std.specs.Prelude.{◌≡◌, [], ℕ, List, Option, IfOk, OnErr, is_ok, is_err};
ghost use Rattle.mh_host.specs.Shelf.{Seen, Counts, Counted, is_failed, Told, Finds, Stores, Prints, Complains};

use mh_text::Text;
use thiserror::Error;

/// How much of a name's bytes a fetch has taken.
#[derive(Clone, Copy, Debug, PartialEq, Eq)]
pub enum Fetched {
    /// All of them, and they are within the limit.
    Whole,
    /// The first of them, one byte more than the limit.
    TooLong,
}

/// Why a fetch gave nothing.
#[derive(Clone, Copy, Debug, PartialEq, Eq, Error)]
pub enum ShelfError {
    /// The outside failed, as where the name isn't held.
    #[error("the shelf failed")]
    Failed,
    /// Want of memory for the bytes.
    #[error("out of memory")]
    Memory,
}

/// The outside took not all of what it was to take.
#[derive(Clone, Copy, Debug, PartialEq, Eq, Error)]
#[error("the shelf failed")]
pub struct Failed;

/// The outside, as the program sees it: names that hold bytes, and two outputs. A shelf tells what
/// its names hold and what went out where it can; every shelf counts its own faults, so that a
/// caller can't answer a fault that didn't come.
pub trait Shelf {
    /// What the shelf tells; None where it can't.
    ghost seen: { Self → Option Seen };

    /// How many faults each call has answered so far, up to 2^64 - 1.
    ghost counts: { Self → Counts };

    /// A name may be fetched. That never changes.
    ghost may_fetch: { List ℕ → Type 0 };

    /// A name may be stored. That never changes.
    ghost may_store: { List ℕ → Type 0 };

    /// Puts what a name holds in the place of what `into` has, but at most `limit + 1` bytes. A name
    /// that isn't held is a fault.
    fn fetch(&mut self, name: &Text, limit: u64, into: &mut Vec<u8>) -> Result<Fetched, ShelfError>
        requires { may_fetch name.now }
        ensures found { IfOk result (λ found. Finds found (seen self.old) name.now limit into.new.items) }
        ensures err { OnErr result (into.new.items ≡ []) }
        ensures seen { seen self.new ≡ seen self.old }
        ensures count { Counted (is_failed result) (counts self.old).fetch (counts self.new).fetch }
        ensures others { counts self.new ≡ record (counts self.old) { fetch = (counts self.new).fetch } };

    /// Puts bytes in the place of what a name holds. After a fault the name holds what it held, or
    /// the first of the bytes.
    fn store(&mut self, name: &Text, bytes: &[u8]) -> Result<(), Failed>
        requires { may_store name.now }
        ensures seen { Told (Stores (is_ok result) name.now bytes.now) (seen self.old) (seen self.new) }
        ensures count { Counted (is_err result) (counts self.old).store (counts self.new).store }
        ensures others { counts self.new ≡ record (counts self.old) { store = (counts self.new).store } };

    /// Appends to the standard output: after a fault, the first of the bytes.
    fn print(&mut self, bytes: &[u8]) -> Result<(), Failed>
        ensures seen { Told (Prints (is_ok result) bytes.now) (seen self.old) (seen self.new) }
        ensures count { Counted (is_err result) (counts self.old).print (counts self.new).print }
        ensures others { counts self.new ≡ record (counts self.old) { print = (counts self.new).print } };

    /// Appends to the standard error: after a fault, the first of the bytes.
    fn complain(&mut self, bytes: &[u8]) -> Result<(), Failed>
        ensures seen { Told (Complains (is_ok result) bytes.now) (seen self.old) (seen self.new) }
        ensures count { Counted (is_err result) (counts self.old).complain (counts self.new).complain }
        ensures others { counts self.new ≡ record (counts self.old) { complain = (counts self.new).complain } };
}
