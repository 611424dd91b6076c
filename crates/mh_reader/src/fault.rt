ghost use Rattle.std.specs.Prelude.{◌≡◌};
ghost use Rattle.mh_reader.specs.declared.fault.Fault.TheVariants as fault;

use mh_text::Memory;
use std::alloc::{AllocError, AllocFailed};
use thiserror::Error;

/// Why a function that reads tokens answers nothing.
#[derive(Clone, Copy, Debug, PartialEq, Eq, Error)]
pub enum Fault {
    /// Want of memory.
    #[error("out of memory")]
    Memory,
    /// The token at which the reader stands does not fit.
    #[error("a token that does not fit")]
    Syntax,
}

impl From<AllocError> for Fault {
    ghost from_gives = { λ _ e. e ≡ fault.Memory };

    fn from(_refused: AllocError) -> Fault {
        Fault::Memory
    }
}

impl<T: Drop> From<AllocFailed<T>> for Fault {
    ghost from_gives = { λ _ e. e ≡ fault.Memory };

    fn from(_refused: AllocFailed<T>) -> Fault {
        Fault::Memory
    }
}

impl From<Memory> for Fault {
    ghost from_gives = { λ _ e. e ≡ fault.Memory };

    fn from(_want: Memory) -> Fault {
        Fault::Memory
    }
}
