//! Vectors bit by bit.
ghost use Rattle.std.specs.Prelude.{◌≡◌, ◌+◌, ◌<◌};
ghost use Rattle.mh_bits.specs.Operators.{bit_of_answer};
ghost use Rattle.mh_bits.specs.Vector.{bit, appended};
ghost use Rattle.mh_bits.specs.View.{vector_of};

use crate::moves::cat;
use crate::values::Bits;
use crate::vectors::single;

/// Bit `k`, the least significant one being bit 0; `None` where it is x.
pub fn bit(v: Bits, k: u8) -> Option<bool>
    requires { k < v.width }
    ensures { bit_of_answer result ≡ bit (vector_of v) k }
{
    if (v.unk >> k) % 2 == 1 {
        None
    } else {
        Some((v.val >> k) % 2 == 1)
    }
}

/// The vector with one bit more, below the others; `None` is x.
pub fn appended(v: Bits, b: Option<bool>) -> Bits
    requires { v.width < 128 }
    ensures { vector_of result ≡ appended (vector_of v) (bit_of_answer b) }
{
    cat(v, single(b))
}
