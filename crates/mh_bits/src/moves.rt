//! The operators that move bits, each word of a vector alike.
ghost use Rattle.std.specs.Prelude.{◌≡◌, ◌+◌, ◌<◌, ◌≤◌};
ghost use Rattle.mh_bits.specs.Operators.{shifted_left, shifted_right, fill, extended, selected, joined};
ghost use Rattle.mh_bits.specs.View.{vector_of};

use crate::values::Bits;
use crate::words;

/// `a << amount`.
pub fn shift_left(a: Bits, amount: u128) -> Bits
    ensures { vector_of result ≡ shifted_left (vector_of a) amount }
{
    Bits {
        width: a.width,
        val: words::shifted_left(a.val, amount, a.width),
        unk: words::shifted_left(a.unk, amount, a.width),
    }
}

/// `a >>> amount` where `signed`, and else `a >> amount`.
pub fn shift_right(a: Bits, amount: u128, signed: bool) -> Bits
    ensures { vector_of result ≡ shifted_right (fill signed (vector_of a)) (vector_of a) amount }
{
    let one = words::is_below_zero(a.val, a.width, signed);
    let x = words::is_below_zero(a.unk, a.width, signed);
    Bits {
        width: a.width,
        val: words::shifted_right(a.val, amount, a.width, one),
        unk: words::shifted_right(a.unk, amount, a.width, x),
    }
}

/// The vector at the width `w`: above its bits stands its top bit, also where that is x, if it is
/// `signed`, and else 0 (IEEE 1364-2005, 5.4 and 5.5.4).
pub fn extend(a: Bits, w: u8, signed: bool) -> Bits
    requires upto { a.width ≤ w }
    requires most { w ≤ 128 }
    ensures { vector_of result ≡ extended (vector_of a) w signed }
{
    let one = words::is_below_zero(a.val, a.width, signed);
    let x = words::is_below_zero(a.unk, a.width, signed);
    Bits {
        width: w,
        val: words::extended(a.val, a.width, w, one),
        unk: words::extended(a.unk, a.width, w, x),
    }
}

/// The bits from `hi` down to `lo`, as the part-select `a[hi:lo]` (IEEE 1364-2005, 5.2.1).
pub fn select(a: Bits, hi: u8, lo: u8) -> Bits
    requires order { lo ≤ hi }
    requires within { hi < a.width }
    ensures { vector_of result ≡ selected (vector_of a) hi lo }
{
    let width = hi - lo + 1;
    Bits {
        width,
        val: words::part(a.val, lo, width),
        unk: words::part(a.unk, lo, width),
    }
}

/// The bits of `a` above those of `b`, as `{a, b}` (IEEE 1364-2005, 5.1.14).
pub fn cat(a: Bits, b: Bits) -> Bits
    requires { a.width + b.width ≤ 128 }
    ensures { vector_of result ≡ joined (vector_of a) (vector_of b) }
{
    Bits {
        width: a.width + b.width,
        val: words::joined(a.val, b.val, b.width, a.width),
        unk: words::joined(a.unk, b.unk, b.width, a.width),
    }
}
