// Why something isn't answered.
ghost use Rattle.std.specs.Prelude.{◌≡◌};
ghost use Rattle.mh_text.specs.declared.fault.Fault.TheVariants as fault;

use crate::code::Code;
use crate::memory::Memory;
use std::alloc::AllocError;
use std::fmt::Debug;
use thiserror::Error;

/// A rule, and the line of the statement that breaks it.
pub type CodeAt = (Code, u32);

/// Why a layer that refuses by rules answers nothing. `Rule` is a `Code`, or a `CodeAt` where the place
/// is known.
#[derive(Clone, Copy, Debug, PartialEq, Eq, Error)]
pub enum Fault<Rule: Debug> {
    /// The rule that is broken.
    #[error("{0:?}")]
    Broken(Rule),
    /// Want of memory.
    #[error("out of memory")]
    Memory,
}

impl<Rule: Debug> From<Memory> for Fault<Rule> {
    ghost from_gives = { λ _ e. e ≡ fault.Memory };

    fn from(_want: Memory) -> Fault<Rule> {
        Fault::Memory
    }
}

impl<Rule: Debug> From<AllocError> for Fault<Rule> {
    ghost from_gives = { λ _ e. e ≡ fault.Memory };

    fn from(_want: AllocError) -> Fault<Rule> {
        Fault::Memory
    }
}

impl From<Code> for Fault<Code> {
    ghost from_gives = { λ code e. e ≡ fault.Broken code };

    fn from(code: Code) -> Fault<Code> {
        Fault::Broken(code)
    }
}
