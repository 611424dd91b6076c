//! The operators that work bit by bit.
ghost use Rattle.std.specs.Prelude.{◌≡◌};
ghost use Rattle.mh_bits.specs.Operators.{bitwise, and_bit, or_bit, xor_bit, not_bit, equality, bit_of_answer, inverted, truth_of};
ghost use Rattle.mh_bits.specs.View.{vector_of};

use crate::values::Bits;
use crate::words;

/// `a & b`: x where neither bit is 0 and not both are 1.
pub fn and(a: Bits, b: Bits) -> Bits
    requires { a.width ≡ b.width }
    ensures { vector_of result ≡ bitwise and_bit (vector_of a) (vector_of b) }
{
    Bits {
        width: a.width,
        val: a.val & b.val,
        unk: (a.unk | b.unk) & (a.val | a.unk) & (b.val | b.unk),
    }
}

/// `a | b`: x where neither bit is 1 and not both are 0.
pub fn or(a: Bits, b: Bits) -> Bits
    requires { a.width ≡ b.width }
    ensures { vector_of result ≡ bitwise or_bit (vector_of a) (vector_of b) }
{
    Bits {
        width: a.width,
        val: a.val | b.val,
        unk: (a.unk | b.unk) & !(a.val | b.val),
    }
}

/// `a ^ b`: x where either bit is x.
pub fn xor(a: Bits, b: Bits) -> Bits
    requires { a.width ≡ b.width }
    ensures { vector_of result ≡ bitwise xor_bit (vector_of a) (vector_of b) }
{
    Bits {
        width: a.width,
        val: (a.val ^ b.val) & !(a.unk | b.unk),
        unk: a.unk | b.unk,
    }
}

/// `~a`: x where the bit is x.
pub fn not(a: Bits) -> Bits
    ensures { vector_of result ≡ inverted (vector_of a) }
{
    Bits {
        width: a.width,
        val: words::mask(a.width) & !(a.val | a.unk),
        unk: a.unk,
    }
}

/// `a == b`, `None` where only x bits are in the way.
pub fn equality(a: Bits, b: Bits) -> Option<bool>
    requires { a.width ≡ b.width }
    ensures { bit_of_answer result ≡ equality (vector_of a) (vector_of b) }
{
    let either = a.unk | b.unk;
    if (a.val ^ b.val) & !either != 0 {
        Some(false)
    } else if either == 0 {
        Some(true)
    } else {
        None
    }
}

/// Whether some bit is 1, as `if`, `while` and `?:` test a condition (IEEE 1364-2005, 9.4).
pub fn truth(a: Bits) -> bool
    ensures { result ≡ truth_of (vector_of a) }
{
    a.val != 0
}
