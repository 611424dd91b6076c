// Operators on the bits of numbers, in two's complement without end.
ghost use Rattle.std.specs.Prelude.{◌≡◌, ◌≤◌, ◌<◌, ◌-◌, ◌^◌, ◌↔◌, IsTrue, true, false, pos};
ghost use Rattle.mh_codes.specs.Integers.{bit_of, integer_and, integer_or, integer_xor, inverse_of, slice_of};
ghost use Rattle.mh_codes.specs.Codes.{code, number, Fits};

use crate::arithmetic::power;

/// The number whose `width` low bits are 1, and no others.
fn mask(width: u8) -> i128
    requires { width ≤ 127 }
    ensures { result ≡ pos (2 ^ width - 1) }
{
    i128::MAX >> (127 - width)
}

/// `a & b` of MyHDL 0.11: bit by bit, where a negative number has 1 in each of its high bits.
pub fn and(a: i128, b: i128) -> i128
    ensures { result ≡ integer_and a b }
{
    a & b
}

/// `a | b` of MyHDL 0.11: bit by bit, where a negative number has 1 in each of its high bits.
pub fn or(a: i128, b: i128) -> i128
    ensures { result ≡ integer_or a b }
{
    a | b
}

/// `a ^ b` of MyHDL 0.11: bit by bit, where a negative number has 1 in each of its high bits.
pub fn xor(a: i128, b: i128) -> i128
    ensures { result ≡ integer_xor a b }
{
    a ^ b
}

/// `~a` of MyHDL 0.11, for an `intbv` of `w` bits whose least value is 0 or more: `a` with each of
/// its `w` bits inverted.
pub fn not(a: i128, w: u8) -> i128
    requires width { w ≤ 127 }
    requires fits { Fits false w a }
    ensures value { result ≡ inverse_of w a }
    ensures fits { Fits false w result }
{
    mask(w) - a
}

/// `a[i:j]` of MyHDL 0.11: the bits of `a` from `j` up to and without `i`, as a number of 0 or more.
pub fn slice(a: i128, i: u8, j: u8) -> i128
    requires some { j < i }
    requires places { i ≤ 127 }
    ensures { result ≡ pos (slice_of i j a) }
{
    (a >> j) & mask(i - j)
}

/// `a[i]` of MyHDL 0.11: whether bit `i` of `a` is 1, bit 0 being the lowest.
pub fn bit(a: i128, i: u8) -> bool
    requires { i ≤ 126 }
    ensures { IsTrue result ↔ (bit_of i a ≡ 1) }
{
    (a >> i) & 1 == 1
}

/// `a.signed()` of MyHDL 0.11, for an `intbv` of `w` bits whose least value is 0 or more: the `w` low
/// bits of `a`, read as a signed number in two's complement.
pub fn signed_of(a: i128, w: u8) -> i128
    requires some { 1 ≤ w }
    requires places { w ≤ 127 }
    ensures { result ≡ number true w (code w a) }
{
    let low = slice(a, w, 0);
    let half = power(w - 1);
    if low < half { low } else { low - half - half }
}
