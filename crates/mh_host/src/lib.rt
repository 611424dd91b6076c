//! The outside: a shelf holds bytes under names and takes what is printed and complained. The trait
//! `Shelf` says what each call may change and counts the faults; `MemShelf` is a shelf in memory,
//! `NeverFails` one without faults, and `FileShelf` the real files and standard streams.
//! Its main promise: a call changes what it names and nothing else, and fails only where its count rose.
#![tactic(auto)]

mod count;
mod entries;
mod file;
mod mem;
mod never_fails;
mod portion;
mod shelf;

pub use entries::Entry;
pub use file::FileShelf;
pub use mem::{Fault, MemShelf};
pub use never_fails::NeverFails;
pub use shelf::{Failed, Fetched, Shelf, ShelfError};
