ghost use Rattle.std.specs.Prelude.{◌≡◌};
ghost use Rattle.mh_text.specs.declared.refusal.Refusal.TheVariants as refusal;

use crate::code::Code;
use crate::memory::Memory;
use crate::text::Text;
use sqlite_items::Items;
use thiserror::Error;

/// Why a source was refused.
#[derive(Debug, Drop, Error)]
pub enum Refusal {
    /// The rule that the source breaks, the line of the place, counted from 1 (0 where the rule has
    /// no place), and the names that the error line shows, in its order.
    #[error("{code:?} at line {line}")]
    At {
        code: Code,
        line: u32,
        names: Items<Text>,
    },
    /// Want of memory.
    #[error("out of memory")]
    Memory,
}

impl From<Memory> for Refusal {
    ghost from_gives = { λ _ e. e ≡ refusal.Memory };

    fn from(_want: Memory) -> Refusal {
        Refusal::Memory
    }
}
