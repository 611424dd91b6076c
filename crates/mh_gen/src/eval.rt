// The values of expressions.
ghost use Rattle.std.specs.Prelude.{◌≡◌, ◌≤◌, ◌≤ℤ◌, ◌+◌, ◌*◌, ◌^◌, min, pos, unsigned_abs, Ok, Some, IfSome};
ghost use Rattle.mh_codes.specs.Codes.{code};
ghost use Rattle.mh_num.specs.Results.{in_i128, left_shift_of};
ghost use Rattle.mh_design.specs.Tree.{expression_of};
ghost use Rattle.mh_design.specs.Values as spec;
ghost use Rattle.mh_design.specs.Assignments.{FitsExpression};
ghost use Rattle.mh_gen.specs.Total as total;
ghost use Rattle.mh_gen.specs.Joined as joined;

use crate::fault::Fault;
use crate::held::low_bits;
use crate::indices::{bit_at, slice_at};
use crate::operand::Operand;
use crate::operators::{binary, signed, unary};
use crate::store::{Store, cell, item_or_zero, table_element};
use mh_design::{BinaryOp, GExpr, UnaryOp};
use mh_num::{add, shl};

/// The element of a memory at an index.
fn element(s: &Store, mem: u32, i: &Operand) -> Result<Operand, Fault>
    ensures { result ≡ spec.element_of s.now mem i.now.value }
{
    let n = cell(s.design(), mem, i.value())?;
    Ok(s.signal_operand(n))
}

/// `table[i]`
#[tactic(auto, unfolding(crate::specs::Total::table_given))]
fn table_at(s: &Store, table: u32, i: &Operand) -> Result<Operand, Fault>
    ensures { result ≡ total.table_given s.now table i.now }
{
    table_element(s.design(), table, i.value())
}

/// `a[i]`
#[tactic(auto, unfolding(crate::specs::Total::bit_given))]
fn bit_of(a: &Operand, i: &Operand) -> Result<Operand, Fault>
    ensures { result ≡ total.bit_given a.now i.now }
{
    bit_at(a, i.value())
}

/// `a[i:j]`
#[tactic(auto, unfolding(crate::specs::Total::slice_given))]
fn slice_of(a: &Operand, i: &Operand, j: &Operand) -> Result<Operand, Fault>
    ensures { result ≡ total.slice_given a.now i.now j.now }
{
    slice_at(a, i.value(), j.value())
}

/// `z << width`
fn moved(z: i128, width: u8) -> Option<i128>
    requires { width ≤ 127 }
    ensures { result ≡ left_shift_of z (pos width) }
{
    shl(z, width as i128)
}

/// The number `z` with the `width` low bits of a part below it, or `None` where it leaves 128 signed
/// bits.
fn appended(z: i128, width: u8, part: i128) -> Option<i128>
    requires natural { pos 0 ≤ℤ z }
    requires narrow { width ≤ 127 }
    ensures { result ≡ in_i128 (pos (unsigned_abs z * 2 ^ width + code width part)) }
{
    match moved(z, width) {
        Some(high) => add(high, low_bits(part, width)),
        None => None,
    }
}

/// The number with one more part below it, or `None` where it leaves 128 signed bits.
fn one_more(before: Option<i128>, a: &Operand) -> Option<i128>
    requires { IfSome before (λ z. pos 0 ≤ℤ z) }
    ensures exact { result ≡ joined.one_more before a.now }
    ensures natural { IfSome result (λ z. pos 0 ≤ℤ z) }
{
    let z = before?;
    let width = a.width();
    if width == 128 {
        if z == 0 { Some(a.value()) } else { None }
    } else {
        appended(z, width, a.value())
    }
}

/// The width with one more part, of which no more than 128 bits are told apart.
fn wider(width: u8, more: u8) -> u8
    requires one { width ≤ 128 }
    requires two { more ≤ 128 }
    ensures { result ≡ min 128 (width + more) }
{
    let sum = width as u16 + more as u16;
    if sum < 128 { sum as u8 } else { 128 }
}

/// The element of a memory at an index, or the fault of the index.
fn element_given(s: &Store, mem: u32, i: Result<Operand, Fault>) -> Result<Operand, Fault>
    ensures { result ≡ spec.with_value i (λ i. spec.element_of s.now mem i.value) }
{
    element(s, mem, &i?)
}

/// The element of a table at an index, or the fault of the index.
fn table_given(s: &Store, table: u32, i: Result<Operand, Fault>) -> Result<Operand, Fault>
    ensures { result ≡ spec.with_value i (total.table_given s.now table) }
{
    table_at(s, table, &i?)
}

/// A bit of a value, or the first fault of the parts.
fn bit_given(a: Result<Operand, Fault>, i: Result<Operand, Fault>) -> Result<Operand, Fault>
    ensures { result ≡ spec.with_value a (λ a. spec.with_value i (total.bit_given a)) }
{
    bit_of(&a?, &i?)
}

/// A slice of a value, or the first fault of the parts.
fn slice_given(
    a: Result<Operand, Fault>,
    i: Result<Operand, Fault>,
    j: Result<Operand, Fault>,
) -> Result<Operand, Fault>
    ensures { result ≡ spec.with_value a (λ a. spec.with_value i (λ i. spec.with_value j (total.slice_given a i))) }
{
    slice_of(&a?, &i?, &j?)
}

/// An operator on a value, or the fault of the part.
fn unary_given(op: UnaryOp, a: Result<Operand, Fault>) -> Result<Operand, Fault>
    ensures { result ≡ spec.with_value a (spec.unary_value op) }
{
    unary(op, &a?)
}

/// An operator on two values, or the first fault of the parts.
fn binary_given(
    op: BinaryOp,
    a: Result<Operand, Fault>,
    b: Result<Operand, Fault>,
) -> Result<Operand, Fault>
    ensures { result ≡ spec.with_value a (λ a. spec.with_value b (spec.binary_value op a)) }
{
    binary(op, &a?, &b?)
}

/// `a.signed()`, or the fault of the part.
fn signed_given(a: Result<Operand, Fault>) -> Result<Operand, Fault>
    ensures { result ≡ spec.with_value a (λ a. Ok (spec.signed_value a)) }
{
    Ok(signed(&a?))
}

/// A value as an integer, or the fault of the part.
fn integer_given(a: Result<Operand, Fault>) -> Result<Operand, Fault>
    ensures { result ≡ spec.with_value a (λ a. Ok (spec.integer a.value)) }
{
    Ok(Operand::integer(a?.value()))
}

/// A value as a truth value, or the fault of the part.
fn truth_given(a: Result<Operand, Fault>) -> Result<Operand, Fault>
    ensures { result ≡ spec.truth_of a }
{
    Ok(Operand::truth(a?.is_true()))
}

/// The value of an expression, with its width at the moment if it has one, or its first fault. Goes
/// down the tree by recursion, so the caller knows that it is at most as deep as a body may be.
#[cycle(values)]
#[tactic(auto, using(crate::proofs::Operands::shapes, crate::proofs::Operands::operands))]
pub fn operand(s: &Store, e: &GExpr) -> Result<Operand, Fault>
    ensures { result ≡ total.total s.now (expression_of e.now) }
{
    match e {
        GExpr::Integer(z) => Ok(Operand::integer(*z)),
        GExpr::Truth(b) => Ok(Operand::truth(*b)),
        GExpr::Item(of, item) => Ok(Operand::integer(item_or_zero(s.design(), *of, *item))),
        GExpr::Fixed(z, b) => Ok(Operand::bounded(*z, b)),
        GExpr::Signal(n) => Ok(s.signal_operand(*n)),
        GExpr::Local(n) => Ok(s.local_operand(*n)),
        GExpr::Now => Ok(Operand::integer(s.time() as i128)),
        GExpr::Element(m, i) => element_given(s, *m, operand(s, i.get())),
        GExpr::TableElement(t, i) => table_given(s, *t, operand(s, i.get())),
        GExpr::Bit(a, i) => bit_given(operand(s, a.get()), operand(s, i.get())),
        GExpr::Slice(a, i, j) => {
            slice_given(
                operand(s, a.get()),
                operand(s, i.get()),
                operand(s, j.get()),
            )
        }
        GExpr::Unary(op, a) => unary_given(*op, operand(s, a.get())),
        GExpr::Binary(op, a, b) => binary_given(*op, operand(s, a.get()), operand(s, b.get())),
        GExpr::And(a, b) => {
            let a = operand(s, a.get())?;
            if a.is_true() {
                let b = operand(s, b.get())?;
                Ok(Operand::truth(b.is_true()))
            } else {
                Ok(Operand::truth(false))
            }
        }
        GExpr::Or(a, b) => {
            let a = operand(s, a.get())?;
            if a.is_true() {
                Ok(Operand::truth(true))
            } else {
                let b = operand(s, b.get())?;
                Ok(Operand::truth(b.is_true()))
            }
        }
        GExpr::Concat(parts) => joined(s, parts.as_slice()),
        GExpr::Signed(a) => signed_given(operand(s, a.get())),
        GExpr::Int(a) => integer_given(operand(s, a.get())),
        GExpr::Bool(a) => truth_given(operand(s, a.get())),
    }
}

/// The number whose bits are those of these parts, the highest part first.
#[cycle(values)]
fn joined(s: &Store, parts: &[GExpr]) -> Result<Operand, Fault>
    ensures { result ≡ total.left_of_joined s.now parts.now (Some (pos 0)) 0 }
{
    let mut number = Some(0);
    let mut width = 0;
    for part in parts {
        match operand(s, part) {
            Ok(a) => {
                number = one_more(number, &a);
                width = wider(width, a.width());
            }
            Err(fault) => return Err(fault),
        }
    }
    match number {
        Some(z) => Ok(Operand::bits(z, width)),
        None => Err(Fault::too_wide()),
    }
}

/// The value of an expression, or its first fault.
#[tactic(auto, using(crate::proofs::Operands::values))]
pub fn value(s: &Store, e: &GExpr) -> Result<i128, Fault>
    requires { FitsExpression (expression_of e.now) s.now }
    ensures { result ≡ spec.value_of (expression_of e.now) s.now }
{
    let a = operand(s, e)?;
    Ok(a.value())
}
