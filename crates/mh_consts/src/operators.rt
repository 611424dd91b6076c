// Operators on constants.
ghost use Rattle.std.specs.Prelude.{◌≡◌, ◌≤◌, ◌-◌, ◌^◌, pos};
ghost use Rattle.mh_consts.specs.declared.kinds.Const.{out-Const};
ghost use Rattle.mh_consts.specs.Outcome as outcome;
ghost use Rattle.mh_consts.specs.Numbers as number;
ghost use Rattle.mh_consts.specs.Operators as spec;

use crate::kinds::Const;
use crate::numbers::{bounds, operand, truth};
use mh_num::{Bounds, add, and, mul, not, or, quot, rem, shl, shr, sub, width, xor};
use mh_pytree::{Operator, Sign};
use mh_text::{Code, Text};

/// An integer that may have left `i128`.
pub(crate) fn integer(n: Option<i128>) -> Result<Const, Code>
    ensures { result ≡ outcome.integer n }
{
    match n {
        Some(n) => Ok(Const::Int(n)),
        None => Err(Code::E5TooWide),
    }
}

/// The greatest number of `w` bits, `2 ** w - 1`.
fn greatest(w: u8) -> i128
    requires { w ≤ 127 }
    ensures { result ≡ pos (2 ^ w - 1) }
{
    i128::MAX >> (127 - w)
}

/// A bounded number of `w` bits, 0 to `2 ** w - 1`.
pub(crate) fn bits(w: u8, wraps: bool, v: i128) -> Result<Const, Code>
    requires { w ≤ 127 }
    ensures { result ≡ spec.bits w wraps v }
{
    let top = greatest(w);
    match bounds(0, top, wraps) {
        Some(bounds) => Ok(Const::Bounded(v, bounds)),
        None => Err(Code::E5TooWide),
    }
}

/// `~v` of a number within bounds.
fn inverted_bits(v: i128, b: &Bounds) -> Result<Const, Code>
    ensures { result ≡ spec.inverted_bits v b.now }
{
    if b.lo < 0 {
        return Err(Code::E10KindClash);
    }
    let w = width(b);
    match sub(greatest(w), v) {
        Some(inverse) => bits(w, false, inverse),
        None => Err(Code::E5TooWide),
    }
}

/// `~v`
#[tactic(auto, using(crate::proofs::Values::values))]
fn inverted(v: &Const) -> Result<Const, Code>
    ensures { result ≡ spec.inverted_step (out-Const v.now) }
{
    match v {
        Const::Bounded(v, b) => inverted_bits(*v, b),
        Const::Signal(_, _) => Err(Code::E2NotElaborable),
        _ => Err(Code::E10KindClash),
    }
}

/// `-v`, `+v` or `~v`
pub(crate) fn signed(sign: Sign, v: &Const) -> Result<Const, Code>
    ensures { result ≡ spec.signed sign v.now }
{
    match sign {
        Sign::Minus => {
            let n = operand(v)?;
            integer(sub(0, n))
        }
        Sign::Plus => {
            let n = operand(v)?;
            Ok(Const::Int(n))
        }
        Sign::Invert => inverted(v),
    }
}

/// `not v`
pub(crate) fn negated(v: &Const) -> Result<Const, Code>
    ensures { result ≡ spec.negated v.now }
{
    let b = truth(v)?;
    Ok(Const::Truth(!b))
}

/// Whether a value is this item of an enum.
#[tactic(auto, using(crate::proofs::Values::values))]
fn is_item(n: u32, place: u32, v: &Const) -> Result<bool, Code>
    ensures { result ≡ spec.same_item n place (out-Const v.now) }
{
    match v {
        Const::Item(m, other) => {
            if n == *m {
                Ok(place == *other)
            } else {
                Err(Code::E10KindClash)
            }
        }
        Const::Signal(_, _) => Err(Code::E2NotElaborable),
        _ => Err(Code::E10KindClash),
    }
}

/// Whether a value is this string.
#[tactic(auto, using(crate::proofs::Values::values))]
fn is_text(bytes: &Text, v: &Const) -> Result<bool, Code>
    ensures { result ≡ spec.same_text bytes.now (out-Const v.now) }
{
    match v {
        Const::Str(other) => Ok(bytes.bytes() == other.bytes()),
        Const::Signal(_, _) => Err(Code::E2NotElaborable),
        _ => Err(Code::E10KindClash),
    }
}

/// Whether two numbers are equal.
fn is_number(a: &Const, b: &Const) -> Result<bool, Code>
    ensures { result ≡ spec.same_number (number.operand a.now) b.now }
{
    let n = operand(a)?;
    let m = operand(b)?;
    Ok(n == m)
}

/// `a == b`
#[tactic(auto, using(crate::proofs::Values::values))]
fn equal(a: &Const, b: &Const) -> Result<bool, Code>
    ensures { result ≡ spec.equal a.now b.now }
{
    match a {
        Const::Item(n, place) => is_item(*n, *place, b),
        Const::Str(bytes) => is_text(bytes, b),
        _ => is_number(a, b),
    }
}

/// `n << m`
fn shifted_left(n: i128, m: i128) -> Result<Const, Code>
    ensures { result ≡ spec.shifted_left n m }
{
    if m < 0 || m > 127 {
        return Err(Code::E4BadRange);
    }
    integer(shl(n, m))
}

/// `n >> m`
fn shifted_right(n: i128, m: i128) -> Result<Const, Code>
    ensures { result ≡ spec.shifted_right n m }
{
    if m < 0 || m > 127 {
        return Err(Code::E4BadRange);
    }
    integer(shr(n, m))
}

/// A quotient or a remainder, which wants a positive divisor.
fn divided(n: Option<i128>) -> Result<Const, Code>
    ensures { result ≡ spec.divided n }
{
    match n {
        Some(n) => Ok(Const::Int(n)),
        None => Err(Code::E4BadRange),
    }
}

/// The result of an operator on two numbers.
fn computed(op: Operator, n: i128, m: i128) -> Result<Const, Code>
    ensures { result ≡ spec.computed op n m }
{
    match op {
        Operator::Less => Ok(Const::Truth(n < m)),
        Operator::LessEqual => Ok(Const::Truth(n <= m)),
        Operator::Greater => Ok(Const::Truth(n > m)),
        Operator::GreaterEqual => Ok(Const::Truth(n >= m)),
        Operator::BitOr => Ok(Const::Int(or(n, m))),
        Operator::BitXor => Ok(Const::Int(xor(n, m))),
        Operator::BitAnd => Ok(Const::Int(and(n, m))),
        Operator::ShiftLeft => shifted_left(n, m),
        Operator::ShiftRight => shifted_right(n, m),
        Operator::Add => integer(add(n, m)),
        Operator::Subtract => integer(sub(n, m)),
        Operator::Multiply => integer(mul(n, m)),
        Operator::Divide => divided(quot(n, m)),
        Operator::Remainder => divided(rem(n, m)),
        _ => Err(Code::E10KindClash),
    }
}

/// The result of `& | ^` on two truth values.
fn combined(op: Operator, a: bool, b: bool) -> Result<Const, Code>
    ensures { result ≡ spec.combined op a b }
{
    match op {
        Operator::BitAnd => Ok(Const::Truth(if a { b } else { false })),
        Operator::BitOr => Ok(Const::Truth(if a { true } else { b })),
        Operator::BitXor => Ok(Const::Truth(if a { !b } else { b })),
        _ => Err(Code::E10KindClash),
    }
}

/// An operator on two numbers.
fn numbers(op: Operator, a: &Const, b: &Const) -> Result<Const, Code>
    ensures { result ≡ spec.numbers op a.now b.now }
{
    let n = operand(a)?;
    let m = operand(b)?;
    computed(op, n, m)
}

/// A truth value that is no number.
#[tactic(auto, using(crate::proofs::Values::values))]
fn truth_in(v: &Const) -> Option<bool>
    ensures { result ≡ spec.truth_in (out-Const v.now) }
{
    match v {
        Const::Truth(b) => Some(*b),
        _ => None,
    }
}

/// `& | ^` on two truth values, or else on two numbers.
fn bitwise(op: Operator, a: &Const, b: &Const) -> Result<Const, Code>
    ensures { result ≡ spec.bitwise op a.now b.now }
{
    match (truth_in(a), truth_in(b)) {
        (Some(x), Some(y)) => combined(op, x, y),
        _ => numbers(op, a, b),
    }
}

/// An operator between two values that were both evaluated.
pub fn operated(op: Operator, a: &Const, b: &Const) -> Result<Const, Code>
    ensures { result ≡ spec.operated op a.now b.now }
{
    match op {
        Operator::Or | Operator::And => Err(Code::E10KindClash),
        Operator::Equal => {
            let same = equal(a, b)?;
            Ok(Const::Truth(same))
        }
        Operator::NotEqual => {
            let same = equal(a, b)?;
            Ok(Const::Truth(!same))
        }
        Operator::BitOr | Operator::BitXor | Operator::BitAnd => bitwise(op, a, b),
        _ => numbers(op, a, b),
    }
}
