//! The operators that compute with the numbers that two known vectors of one width stand for.
ghost use Rattle.std.specs.Prelude.{◌≡◌, ◌+ℤ◌, ◌-ℤ◌, ◌*ℤ◌, neg_ℤ, int_div, int_rem, int_lt, Bool, false};
ghost use Rattle.mh_bits.specs.Operators.{number_of, coded, divided};
ghost use Rattle.mh_bits.specs.View.{vector_of};

use crate::values::Bits;
use crate::vectors::{all_unknown, known};
use crate::words;

/// `a + b`, however the two are read.
pub fn sum(a: Bits, b: Bits) -> Bits
    requires { a.width ≡ b.width }
    ensures { (s : Bool) → vector_of result
        ≡ coded a.width (number_of s (vector_of a) +ℤ number_of s (vector_of b)) }
{
    known(a.width, words::sum(a.val, b.val, a.width))
}

/// `a - b`, however the two are read.
pub fn difference(a: Bits, b: Bits) -> Bits
    requires { a.width ≡ b.width }
    ensures { (s : Bool) → vector_of result
        ≡ coded a.width (number_of s (vector_of a) -ℤ number_of s (vector_of b)) }
{
    known(a.width, words::difference(a.val, b.val, a.width))
}

/// `a * b`, however the two are read.
pub fn product(a: Bits, b: Bits) -> Bits
    requires { a.width ≡ b.width }
    ensures { (s : Bool) → vector_of result
        ≡ coded a.width (number_of s (vector_of a) *ℤ number_of s (vector_of b)) }
{
    known(a.width, words::product(a.val, b.val, a.width))
}

/// `a / b`.
pub fn quotient(a: Bits, b: Bits, signed: bool) -> Bits
    requires { a.width ≡ b.width }
    ensures { vector_of result ≡ divided int_div a.width
        (number_of signed (vector_of a)) (number_of signed (vector_of b)) }
{
    if b.val == 0 {
        all_unknown(a.width)
    } else {
        known(a.width, words::quotient(a.val, b.val, a.width, signed))
    }
}

/// `a % b`.
pub fn remainder(a: Bits, b: Bits, signed: bool) -> Bits
    requires { a.width ≡ b.width }
    ensures { vector_of result ≡ divided int_rem a.width
        (number_of signed (vector_of a)) (number_of signed (vector_of b)) }
{
    if b.val == 0 {
        all_unknown(a.width)
    } else {
        known(a.width, words::remainder(a.val, b.val, a.width, signed))
    }
}

/// `-a`.
pub fn negation(a: Bits) -> Bits
    ensures { vector_of result ≡ coded a.width (neg_ℤ (number_of false (vector_of a))) }
{
    known(a.width, words::with_sign(a.val, true, a.width))
}

/// Whether `a < b`.
pub fn is_less(a: Bits, b: Bits, signed: bool) -> bool
    requires { a.width ≡ b.width }
    ensures { result ≡ int_lt (number_of signed (vector_of a)) (number_of signed (vector_of b)) }
{
    words::is_less(a.val, b.val, a.width, signed)
}
