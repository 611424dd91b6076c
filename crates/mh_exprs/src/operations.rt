// What the operators of a generator give on parts that were read.
ghost use Rattle.std.specs.Prelude.{◌≡◌, bytes_eq, Ok};
ghost use Rattle.mh_text.specs.Faults.{Gives};
ghost use Rattle.mh_text.specs.declared.code.Code.TheVariants as code;
ghost use Rattle.mh_design.specs.Kinds as kinds;
ghost use Rattle.mh_design.specs.declared.expression.GExpr.TheVariants as e;
ghost use Rattle.mh_consts.specs.Outcome as outcome;
ghost use Rattle.mh_exprs.specs.Leaves as leaves;
ghost use Rattle.mh_exprs.specs.Operations as spec;

use crate::leaves::{integer, truth};
use crate::typed::{Row, Typed};
use mh_design::{
    BinaryOp, GExpr, Kind, UnaryOp, ValueKind, binary_kind, constant_of, ends_keep, index_keeps,
    is_bits, is_number, is_part, unary_kind,
};
use mh_num::{Bounds, add, sub, width};
use mh_pytree::{Operator, Sign};
use mh_text::{Code, Fault, Text};
use sqlite_items::{Boxed, Items};
use std::alloc::Global;

/// An expression of a kind that its parts give, if they fit.
fn of_kind(expr: GExpr, width: Option<i128>, kind: Option<ValueKind>) -> Result<Typed, Code>
    ensures { result ≡ spec.of_kind expr width kind }
{
    match kind {
        None => Err(Code::E10KindClash),
        Some(kind) => Ok(Typed {
            expr,
            kind,
            width,
            base: None,
        }),
    }
}

/// An operator on one operand.
fn unary(alloc: Global, op: UnaryOp, width: Option<i128>, t: Typed) -> Result<Typed, Fault<Code>>
    ensures { Gives (spec.of_kind (e.Unary op t.expr) width (kinds.unary_kind op t.kind)) result }
{
    let kind = unary_kind(op, t.kind);
    let expr = GExpr::Unary(op, Boxed::new(alloc, t.expr)?);
    Ok(of_kind(expr, width, kind)?)
}

/// `-t`, `+t` or `~t`
pub(crate) fn signed(alloc: Global, sign: Sign, t: Typed) -> Result<Typed, Fault<Code>>
    ensures { Gives (spec.signed sign t) result }
{
    match sign {
        Sign::Minus => unary(alloc, UnaryOp::Minus, None, t),
        Sign::Plus => unary(alloc, UnaryOp::Plus, None, t),
        Sign::Invert => {
            let width = t.width;
            unary(alloc, UnaryOp::Invert, width, t)
        }
    }
}

/// `not t`
pub(crate) fn negated(alloc: Global, t: Typed) -> Result<Typed, Fault<Code>>
    ensures { Gives (spec.negated t) result }
{
    unary(alloc, UnaryOp::Not, None, t)
}

/// An operator on two operands.
fn both(alloc: Global, op: BinaryOp, t: Typed, u: Typed) -> Result<Typed, Fault<Code>>
    ensures { Gives (spec.both op t u) result }
{
    let kind = binary_kind(op, t.kind, u.kind);
    let expr = GExpr::Binary(op, Boxed::new(alloc, t.expr)?, Boxed::new(alloc, u.expr)?);
    Ok(of_kind(expr, None, kind)?)
}

/// `t and u`
fn conjunction(alloc: Global, t: Typed, u: Typed) -> Result<Typed, Fault<Code>>
    ensures { Gives (spec.logical (e.And t.expr u.expr) t u) result }
{
    if !(is_number(t.kind) && is_number(u.kind)) {
        return Err(Fault::Broken(Code::E10KindClash));
    }
    Ok(truth(GExpr::And(Boxed::new(alloc, t.expr)?, Boxed::new(alloc, u.expr)?)))
}

/// `t or u`
fn disjunction(alloc: Global, t: Typed, u: Typed) -> Result<Typed, Fault<Code>>
    ensures { Gives (spec.logical (e.Or t.expr u.expr) t u) result }
{
    if !(is_number(t.kind) && is_number(u.kind)) {
        return Err(Fault::Broken(Code::E10KindClash));
    }
    Ok(truth(GExpr::Or(Boxed::new(alloc, t.expr)?, Boxed::new(alloc, u.expr)?)))
}

/// An operator between two parts.
pub fn operated(alloc: Global, op: Operator, t: Typed, u: Typed) -> Result<Typed, Fault<Code>>
    ensures { Gives (spec.operated op t u) result }
{
    match op {
        Operator::Or => disjunction(alloc, t, u),
        Operator::And => conjunction(alloc, t, u),
        Operator::Equal => both(alloc, BinaryOp::Equal, t, u),
        Operator::NotEqual => both(alloc, BinaryOp::NotEqual, t, u),
        Operator::Less => both(alloc, BinaryOp::Less, t, u),
        Operator::LessEqual => both(alloc, BinaryOp::LessEqual, t, u),
        Operator::Greater => both(alloc, BinaryOp::Greater, t, u),
        Operator::GreaterEqual => both(alloc, BinaryOp::GreaterEqual, t, u),
        Operator::BitOr => both(alloc, BinaryOp::BitOr, t, u),
        Operator::BitXor => both(alloc, BinaryOp::BitXor, t, u),
        Operator::BitAnd => both(alloc, BinaryOp::BitAnd, t, u),
        Operator::ShiftLeft => both(alloc, BinaryOp::ShiftLeft, t, u),
        Operator::ShiftRight => both(alloc, BinaryOp::ShiftRight, t, u),
        Operator::Add => both(alloc, BinaryOp::Add, t, u),
        Operator::Subtract => both(alloc, BinaryOp::Subtract, t, u),
        Operator::Multiply => both(alloc, BinaryOp::Multiply, t, u),
        Operator::Divide => both(alloc, BinaryOp::Divide, t, u),
        Operator::Remainder => both(alloc, BinaryOp::Remainder, t, u),
    }
}

/// The bounds of what is declared with bounds.
pub fn bounds_in(base: Option<Kind>) -> Result<Bounds, Code>
    ensures { result ≡ outcome.given (spec.bounds_in base) code.E10KindClash }
{
    match base {
        Some(Kind::Bits(b)) => Ok(b),
        _ => Err(Code::E10KindClash),
    }
}

/// An index is a number, and a constant one lies within the width.
pub fn bit_fits(b: &Bounds, i: &Typed) -> Result<(), Code>
    ensures { result ≡ spec.bit_fits b.now i.now }
{
    if !is_number(i.kind) {
        return Err(Code::E10KindClash);
    }
    if index_keeps(&i.expr, usize::from(width(b))) {
        Ok(())
    } else {
        Err(Code::E4BadRange)
    }
}

/// `t[i]`, where it fits.
fn one_bit(alloc: Global, t: Typed, i: Typed) -> Result<Typed, Fault<Code>>
    ensures { Gives (Ok (leaves.truth (e.Bit t.expr i.expr))) result }
{
    Ok(truth(GExpr::Bit(Boxed::new(alloc, t.expr)?, Boxed::new(alloc, i.expr)?)))
}

/// `t[i]`
pub(crate) fn bit(alloc: Global, t: Typed, i: Typed) -> Result<Typed, Fault<Code>>
    ensures { Gives (spec.bit t i) result }
{
    let b = bounds_in(t.base)?;
    bit_fits(&b, &i)?;
    one_bit(alloc, t, i)
}

/// The width between two ends, if both are constants.
fn width_between(i: Option<i128>, j: Option<i128>) -> Option<i128>
    ensures { result ≡ spec.width_between i j }
{
    match (i, j) {
        (Some(i), Some(j)) => sub(i, j),
        _ => None,
    }
}

/// The ends of a slice are numbers, and constant ones lie within the width.
pub fn slice_fits(b: &Bounds, i: &Typed, j: &Typed) -> Result<(), Code>
    ensures { result ≡ spec.slice_fits b.now i.now j.now }
{
    if !(is_number(i.kind) && is_number(j.kind)) {
        return Err(Code::E10KindClash);
    }
    if ends_keep(constant_of(&i.expr), constant_of(&j.expr), width(b)) {
        Ok(())
    } else {
        Err(Code::E4BadRange)
    }
}

/// `t[i:j]`, where it fits.
fn sliced(alloc: Global, t: Typed, i: Typed, j: Typed) -> Result<Typed, Fault<Code>>
    ensures { Gives (Ok (spec.sliced_as t i j)) result }
{
    let width = width_between(constant_of(&i.expr), constant_of(&j.expr));
    let expr = GExpr::Slice(
        Boxed::new(alloc, t.expr)?,
        Boxed::new(alloc, i.expr)?,
        Boxed::new(alloc, j.expr)?,
    );
    Ok(Typed {
        expr,
        kind: ValueKind::Bits(false),
        width,
        base: None,
    })
}

/// `t[i:j]`
pub(crate) fn slice(alloc: Global, t: Typed, i: Typed, j: Typed) -> Result<Typed, Fault<Code>>
    ensures { Gives (spec.slice t i j) result }
{
    let b = bounds_in(t.base)?;
    slice_fits(&b, &i, &j)?;
    sliced(alloc, t, i, j)
}

/// The lower end of `t[i:]`.
pub fn zero_end() -> Typed
    ensures { result ≡ spec.zero_end }
{
    integer(GExpr::Integer(0))
}

/// Whether a name is this word.
pub fn is_word(name: &Text, word: &[u8]) -> bool
    ensures { result ≡ bytes_eq name.now word.now }
{
    name.bytes() == word
}

/// `min` or `max` of bounds.
fn end_named(name: &Text, b: &Bounds) -> Result<Typed, Code>
    ensures { result ≡ spec.end_named name.now b.now }
{
    if is_word(name, b"min") {
        Ok(integer(GExpr::Integer(b.lo)))
    } else if is_word(name, b"max") {
        match add(b.top, 1) {
            Some(n) => Ok(integer(GExpr::Integer(n))),
            None => Err(Code::E5TooWide),
        }
    } else {
        Err(Code::E10KindClash)
    }
}

/// `t.name`
pub(crate) fn attribute(name: &Text, t: &Typed) -> Result<Typed, Code>
    ensures { result ≡ spec.attribute name.now t.now }
{
    if is_word(name, b"next") || is_word(name, b"posedge") || is_word(name, b"negedge") {
        return Err(Code::E2NotElaborable);
    }
    let b = bounds_in(t.base)?;
    end_named(name, &b)
}

/// `len(t)`
pub(crate) fn length(t: &Typed) -> Result<Typed, Code>
    ensures { result ≡ spec.length t.now }
{
    match t.width {
        Some(n) => Ok(integer(GExpr::Integer(n))),
        None => Err(Code::E3BadArguments),
    }
}

/// `int(t)`
pub(crate) fn to_integer(alloc: Global, t: Typed) -> Result<Typed, Fault<Code>>
    ensures { Gives (spec.to_integer t) result }
{
    if !is_number(t.kind) {
        return Err(Fault::Broken(Code::E10KindClash));
    }
    Ok(integer(GExpr::Int(Boxed::new(alloc, t.expr)?)))
}

/// `bool(t)`
pub(crate) fn to_truth(alloc: Global, t: Typed) -> Result<Typed, Fault<Code>>
    ensures { Gives (spec.to_truth t) result }
{
    if !is_number(t.kind) {
        return Err(Fault::Broken(Code::E10KindClash));
    }
    Ok(truth(GExpr::Bool(Boxed::new(alloc, t.expr)?)))
}

/// `intbv(t)` or `modbv(t)`
pub(crate) fn unbounded(alloc: Global, t: Typed) -> Result<Typed, Fault<Code>>
    ensures { Gives (spec.unbounded t) result }
{
    if !is_number(t.kind) {
        return Err(Fault::Broken(Code::E3BadArguments));
    }
    Ok(integer(GExpr::Int(Boxed::new(alloc, t.expr)?)))
}

/// `t.signed()`
pub(crate) fn read_signed(alloc: Global, t: Typed) -> Result<Typed, Fault<Code>>
    ensures { Gives (spec.read_signed t) result }
{
    if !is_bits(t.kind) {
        return Err(Fault::Broken(Code::E10KindClash));
    }
    Ok(integer(GExpr::Signed(Boxed::new(alloc, t.expr)?)))
}

/// The width of a part of a `concat`, where it is known.
fn part_width(kind: ValueKind, width: Option<i128>) -> Option<i128>
    ensures { result ≡ spec.part_width kind width }
{
    match kind {
        ValueKind::Bool => Some(1),
        _ => width,
    }
}

/// The width of two parts, where both are known.
fn sum_width(a: Option<i128>, b: Option<i128>) -> Result<Option<i128>, Code>
    ensures { result ≡ spec.sum_width a b }
{
    match (a, b) {
        (Some(a), Some(b)) => match add(a, b) {
            Some(n) => Ok(Some(n)),
            None => Err(Code::E5TooWide),
        },
        _ => Ok(None),
    }
}

/// A `concat` without parts.
pub(crate) fn empty_row(alloc: Global) -> Row
    ensures { result ≡ spec.empty_row }
{
    Row {
        parts: Items::new(alloc),
        width: Some(0),
    }
}

/// One more part of a `concat`.
pub(crate) fn joined(r: Row, t: Typed) -> Result<Row, Fault<Code>>
    ensures { Gives (spec.joined r t) result }
{
    if !is_part(t.kind) {
        return Err(Fault::Broken(Code::E10KindClash));
    }
    let width = sum_width(r.width, part_width(t.kind, t.width))?;
    let mut parts = r.parts;
    parts.push(t.expr)?;
    Ok(Row { parts, width })
}

/// A `concat` of these parts.
pub(crate) fn concatenated(r: Row) -> Typed
    ensures { result ≡ spec.concatenated r }
{
    Typed {
        expr: GExpr::Concat(r.parts),
        kind: ValueKind::Bits(false),
        width: r.width,
        base: None,
    }
}
