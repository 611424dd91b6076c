//! Vectors of known bits and of x, and the choice between them.
ghost use Rattle.std.specs.Prelude.{◌≡◌, ◌^◌, ◌<◌, ◌≤◌};
ghost use Rattle.mh_bits.specs.Vector.{known, all_unknown};
ghost use Rattle.mh_bits.specs.Operators.{single, where_known, bit_of_answer};
ghost use Rattle.mh_bits.specs.View.{vector_of};

use crate::values::Bits;
use crate::words;

/// The vector without x whose word is given.
pub fn known(width: u8, word: u128) -> Bits
    requires some { 1 ≤ width }
    requires most { width ≤ 128 }
    requires within { word < 2 ^ width }
    ensures { vector_of result ≡ known width word }
{
    Bits {
        width,
        val: word,
        unk: 0,
    }
}

/// The vector with x in every bit.
pub fn all_unknown(width: u8) -> Bits
    requires some { 1 ≤ width }
    requires most { width ≤ 128 }
    ensures { vector_of result ≡ all_unknown width }
{
    Bits {
        width,
        val: 0,
        unk: words::mask(width),
    }
}

/// The vector itself, or x in every bit of it where its operands weren't known.
pub fn where_known(is_known: bool, v: Bits) -> Bits
    ensures { vector_of result ≡ where_known is_known (vector_of v) }
{
    if is_known { v } else { all_unknown(v.width) }
}

/// The vector of one bit: 0, 1 or, for `None`, x.
pub fn single(answer: Option<bool>) -> Bits
    ensures { vector_of result ≡ single (bit_of_answer answer) }
{
    match answer {
        Some(bit) => known(1, u128::from(bit)),
        None => all_unknown(1),
    }
}
