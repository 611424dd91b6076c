// Operators on values.
ghost use Rattle.std.specs.Prelude.{◌≡◌, ◌≤◌, ◌<◌, ◌≤ℤ◌, ◌-◌, ◌^◌, pos, true, Ok, Err, is_some, int_lt, int_le};
ghost use Rattle.std.specs.Ordering.{int_eq};
ghost use Rattle.mh_codes.specs.Codes.{code, number};
ghost use Rattle.mh_codes.specs.Integers.{inverse_of};
ghost use Rattle.mh_num.specs.Results.{amount_of, in_i128};
ghost use Rattle.mh_design.specs.Values as spec;

use crate::fault::Fault;
use crate::form::Form;
use crate::operand::{Operand, integer_within};
use mh_design::{BinaryOp, UnaryOp};
use mh_num::{add, and, mul, or, quot, rem, shl, shr, signed_of, sub, xor};

/// The greatest number of `width` bits, `2 ** width - 1`.
pub fn greatest(width: u8) -> i128
    requires { width ≤ 127 }
    ensures { result ≡ pos (2 ^ width - 1) }
{
    i128::MAX >> (127 - width)
}

/// `~z` at a width.
fn inverse(z: i128, width: u8) -> Option<i128>
    requires narrow { width ≤ 128 }
    ensures { result ≡ in_i128 (inverse_of width z) }
{
    if width == 128 {
        None
    } else {
        sub(greatest(width), z)
    }
}

/// `~a`
fn inverted(a: &Operand) -> Result<Operand, Fault>
    ensures { result ≡ spec.within (spec.as_bits (spec.bits_of a.now.form)) (inverse_of (spec.bits_of a.now.form) a.now.value) }
{
    let width = a.width();
    match inverse(a.value(), width) {
        Some(z) => Ok(Operand::bits(z, width)),
        None => Err(Fault::too_wide()),
    }
}

/// An operator with one operand.
pub fn unary(op: UnaryOp, a: &Operand) -> Result<Operand, Fault>
    ensures { result ≡ spec.unary_value op a.now }
{
    match op {
        UnaryOp::Minus => integer_within(sub(0, a.value())),
        UnaryOp::Plus => Ok(Operand::integer(a.value())),
        UnaryOp::Invert => inverted(a),
        UnaryOp::Not => Ok(Operand::truth(!a.is_true())),
    }
}

/// The result of a division, which there is none of where the divisor isn't positive.
fn divided(b: i128, quotient: Option<i128>) -> Result<Operand, Fault>
    ensures { result ≡ spec.divided b quotient }
{
    match quotient {
        Some(z) => Ok(Operand::integer(z)),
        None => Err(Fault::divide(b)),
    }
}

/// `b` is the amount of a shift.
fn is_amount(b: i128) -> bool
    ensures { result ≡ is_some (amount_of b) }
{
    0 <= b && b <= 127
}

/// The result of a shift, whose amount is looked at first.
fn shifted(b: i128, moved: Option<i128>) -> Result<Operand, Fault>
    ensures { result ≡ spec.shifted b moved }
{
    if is_amount(b) {
        integer_within(moved)
    } else {
        Err(Fault::shift(b))
    }
}

/// Two numbers are equal.
fn is_same(a: i128, b: i128) -> bool
    ensures { result ≡ int_eq a b }
{
    a == b
}

/// The first number is less.
fn is_less(a: i128, b: i128) -> bool
    ensures { result ≡ int_lt a b }
{
    a < b
}

/// The first number isn't greater.
fn is_at_most(a: i128, b: i128) -> bool
    ensures { result ≡ int_le a b }
{
    a <= b
}

/// An operator with two operands.
pub fn binary(op: BinaryOp, a: &Operand, b: &Operand) -> Result<Operand, Fault>
    ensures { result ≡ spec.binary_value op a.now b.now }
{
    let x = a.value();
    let y = b.value();
    match op {
        BinaryOp::Add => integer_within(add(x, y)),
        BinaryOp::Subtract => integer_within(sub(x, y)),
        BinaryOp::Multiply => integer_within(mul(x, y)),
        BinaryOp::Divide => divided(y, quot(x, y)),
        BinaryOp::Remainder => divided(y, rem(x, y)),
        BinaryOp::ShiftLeft => shifted(y, shl(x, y)),
        BinaryOp::ShiftRight => shifted(y, shr(x, y)),
        BinaryOp::BitAnd => Ok(Operand::joint(and(x, y), a, b)),
        BinaryOp::BitOr => Ok(Operand::joint(or(x, y), a, b)),
        BinaryOp::BitXor => Ok(Operand::joint(xor(x, y), a, b)),
        BinaryOp::Equal => Ok(Operand::truth(is_same(x, y))),
        BinaryOp::NotEqual => Ok(Operand::truth(!is_same(x, y))),
        BinaryOp::Less => Ok(Operand::truth(is_less(x, y))),
        BinaryOp::LessEqual => Ok(Operand::truth(is_at_most(x, y))),
        BinaryOp::Greater => Ok(Operand::truth(is_less(y, x))),
        BinaryOp::GreaterEqual => Ok(Operand::truth(is_at_most(y, x))),
    }
}

/// The low bits of `z`, read in two's complement.
fn signed_low(z: i128, width: u8) -> i128
    requires narrow { width ≤ 128 }
    requires wide { width ≡ 128 → pos 0 ≤ℤ z }
    ensures { result ≡ number true width (code width z) }
{
    if width == 0 {
        0
    } else if width == 128 {
        z
    } else {
        signed_of(z, width)
    }
}

/// `a.signed()`
pub fn signed(a: &Operand) -> Operand
    ensures { result ≡ spec.signed_value a.now }
{
    match a.form() {
        Form::Integer | Form::Truth => Operand::integer(a.value()),
        Form::Bits(_, true) => Operand::integer(a.value()),
        Form::Bits(_, false) => Operand::integer(signed_low(a.value(), a.width())),
    }
}
