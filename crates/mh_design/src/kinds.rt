ghost use Rattle.std.specs.Prelude.{◌≡◌, map, false, pos, int_lt, is_some};
ghost use Rattle.std.specs.Option.{option_and_then, option_map_or};
ghost use Rattle.std.specs.List.{list_all};
ghost use Rattle.mh_design.specs.Tree.{expression_of, row};
ghost use Rattle.mh_design.specs.Kinds as spec;

use crate::design::{Design, Kind, Local};
use crate::expression::{BinaryOp, GExpr, UnaryOp};

/// What the values of an expression are.
#[derive(Clone, Copy, Debug, PartialEq, Eq)]
pub enum ValueKind {
    /// A truth value.
    Bool,
    /// An integer without bounds.
    Int,
    /// A number with a width; true where it may be negative.
    Bits(bool),
    /// An item of the enum with this number.
    Item(u32),
}

/// The kind of a signal.
pub fn signal_kind(d: &Design, signal: u32) -> Option<Kind>
    ensures { result ≡ spec.signal_kind d.now signal }
{
    match d.signals.get(signal as usize) {
        Some(x) => Some(x.kind),
        None => None,
    }
}

/// The kind of the elements of a memory.
pub fn mem_kind(d: &Design, mem: u32) -> Option<Kind>
    ensures { result ≡ spec.mem_kind d.now mem }
{
    match d.mems.get(mem as usize) {
        Some(x) => Some(x.kind),
        None => None,
    }
}

/// The kind of a local.
pub fn local_kind(locals: &[Local], local: u32) -> Option<Kind>
    ensures { result ≡ spec.local_kind locals.now local }
{
    match locals.get(local as usize) {
        Some(x) => Some(x.kind),
        None => None,
    }
}

/// How many items an enum has.
pub fn item_count(d: &Design, of: u32) -> usize
    ensures { result ≡ spec.item_count d.now of }
{
    match d.enums.get(of as usize) {
        Some(x) => x.names.len(),
        None => 0,
    }
}

/// What the values of a declared kind are.
pub fn read_as(kind: Kind) -> ValueKind
    ensures { result ≡ spec.read_as kind }
{
    match kind {
        Kind::Bool => ValueKind::Bool,
        Kind::Int => ValueKind::Int,
        Kind::Bits(b) => ValueKind::Bits(b.lo < 0),
        Kind::Item(e) => ValueKind::Item(e),
    }
}

/// What the values of a declared kind are, if it is there.
fn read_some(kind: Option<Kind>) -> Option<ValueKind>
    ensures { result ≡ spec.read_some kind }
{
    match kind {
        Some(k) => Some(read_as(k)),
        None => None,
    }
}

/// Truth values, integers and bounded numbers are numbers.
pub fn is_number(a: ValueKind) -> bool
    ensures { result ≡ spec.is_number a }
{
    match a {
        ValueKind::Bool => true,
        ValueKind::Int => true,
        ValueKind::Bits(_) => true,
        ValueKind::Item(_) => false,
    }
}

/// A number with a width.
pub fn is_bits(a: ValueKind) -> bool
    ensures { result ≡ spec.is_bits a }
{
    match a {
        ValueKind::Bool => false,
        ValueKind::Int => false,
        ValueKind::Bits(_) => true,
        ValueKind::Item(_) => false,
    }
}

/// What may be a part of `concat`.
pub fn is_part(a: ValueKind) -> bool
    ensures { result ≡ spec.is_part a }
{
    match a {
        ValueKind::Bool => true,
        ValueKind::Int => false,
        ValueKind::Bits(_) => true,
        ValueKind::Item(_) => false,
    }
}

/// One kind where a test holds.
pub fn given(test: bool, kind: ValueKind) -> Option<ValueKind>
    ensures { result ≡ spec.given test kind }
{
    if test { Some(kind) } else { None }
}

/// The kind of an operator on one operand.
pub fn unary_kind(op: UnaryOp, a: ValueKind) -> Option<ValueKind>
    ensures { result ≡ spec.unary_kind op a }
{
    match op {
        UnaryOp::Minus => given(is_number(a), ValueKind::Int),
        UnaryOp::Plus => given(is_number(a), ValueKind::Int),
        UnaryOp::Invert => match a {
            ValueKind::Bool => None,
            ValueKind::Int => None,
            ValueKind::Bits(signed) => given(!signed, ValueKind::Bits(false)),
            ValueKind::Item(_) => None,
        },
        UnaryOp::Not => given(is_number(a), ValueKind::Bool),
    }
}

/// One kind where both operands are numbers.
pub fn numeric(a: ValueKind, b: ValueKind, kind: ValueKind) -> Option<ValueKind>
    ensures { result ≡ spec.numeric a b kind }
{
    given(is_number(a) && is_number(b), kind)
}

/// The kind of `&`, `|` and `^`.
pub fn bitwise(a: ValueKind, b: ValueKind) -> Option<ValueKind>
    ensures { result ≡ spec.bitwise a b }
{
    match (a, b) {
        (ValueKind::Bool, ValueKind::Bool) => Some(ValueKind::Bool),
        _ => numeric(a, b, ValueKind::Int),
    }
}

/// The kind of `==` and `!=`.
pub fn equality(a: ValueKind, b: ValueKind) -> Option<ValueKind>
    ensures { result ≡ spec.equality a b }
{
    match (a, b) {
        (ValueKind::Item(e), ValueKind::Item(f)) => given(e == f, ValueKind::Bool),
        _ => numeric(a, b, ValueKind::Bool),
    }
}

/// The kind of an operator on two operands.
pub fn binary_kind(op: BinaryOp, a: ValueKind, b: ValueKind) -> Option<ValueKind>
    ensures { result ≡ spec.binary_kind op a b }
{
    match op {
        BinaryOp::Add
        | BinaryOp::Subtract
        | BinaryOp::Multiply
        | BinaryOp::Divide
        | BinaryOp::Remainder
        | BinaryOp::ShiftLeft
        | BinaryOp::ShiftRight => numeric(a, b, ValueKind::Int),
        BinaryOp::BitAnd | BinaryOp::BitOr | BinaryOp::BitXor => bitwise(a, b),
        BinaryOp::Equal | BinaryOp::NotEqual => equality(a, b),
        BinaryOp::Less | BinaryOp::LessEqual | BinaryOp::Greater | BinaryOp::GreaterEqual => {
            numeric(a, b, ValueKind::Bool)
        }
    }
}

/// The kind of one bit of a base.
fn bit_kind(a: ValueKind, i: ValueKind) -> Option<ValueKind>
    ensures { result ≡ spec.bit_kind a i }
{
    given(is_bits(a) && is_number(i), ValueKind::Bool)
}

/// The kind of a slice of a base.
fn slice_kind(a: ValueKind, i: ValueKind, j: ValueKind) -> Option<ValueKind>
    ensures { result ≡ spec.slice_kind a i j }
{
    given(
        is_bits(a) && is_number(i) && is_number(j),
        ValueKind::Bits(false),
    )
}

/// The kind of an element of a memory at an index.
fn element_kind(d: &Design, mem: u32, i: ValueKind) -> Option<ValueKind>
    ensures { result ≡ spec.element_kind d.now mem i }
{
    if is_number(i) {
        read_some(mem_kind(d, mem))
    } else {
        None
    }
}

/// The kind of an element of a table at an index.
fn table_kind(d: &Design, table: u32, i: ValueKind) -> Option<ValueKind>
    ensures { result ≡ spec.table_kind d.now table i }
{
    given(
        is_number(i) && (table as usize) < d.tables.len(),
        ValueKind::Int,
    )
}

/// What is declared with a width, so that it may be indexed and sliced.
#[tactic(auto, using(crate::proofs::Shapes::shapes))]
fn is_base(e: &GExpr) -> bool
    ensures { result ≡ spec.is_base (expression_of e.now) }
{
    match e {
        GExpr::Signal(_) | GExpr::Local(_) | GExpr::Fixed(_, _) | GExpr::Element(_, _) => true,
        GExpr::Integer(_) | GExpr::Truth(_) | GExpr::Item(_, _) | GExpr::Now => false,
        GExpr::TableElement(_, _) | GExpr::Bit(_, _) | GExpr::Slice(_, _, _) => false,
        GExpr::Unary(_, _) | GExpr::Binary(_, _, _) | GExpr::And(_, _) | GExpr::Or(_, _) => false,
        GExpr::Concat(_) | GExpr::Signed(_) | GExpr::Int(_) | GExpr::Bool(_) => false,
    }
}

/// The kind of an expression, or `None` where its parts don't fit it or a number names nothing. Goes
/// down the tree by recursion, so the caller knows that it is at most as deep as a body may be.
#[cycle(kinds)]
#[tactic(auto, using(crate::proofs::Shapes::shapes, crate::proofs::KindLaws::concat_laws))]
pub fn kind_of(d: &Design, locals: &[Local], e: &GExpr) -> Option<ValueKind>
    ensures { result ≡ spec.kind_of d.now locals.now (expression_of e.now) }
{
    match e {
        GExpr::Integer(_) => Some(ValueKind::Int),
        GExpr::Truth(_) => Some(ValueKind::Bool),
        GExpr::Item(of, item) => given((*item as usize) < item_count(d, *of), ValueKind::Item(*of)),
        GExpr::Fixed(z, b) => given(b.lo <= *z && *z <= b.top, ValueKind::Bits(b.lo < 0)),
        GExpr::Signal(s) => read_some(signal_kind(d, *s)),
        GExpr::Local(v) => read_some(local_kind(locals, *v)),
        GExpr::Now => Some(ValueKind::Int),
        GExpr::Element(m, i) => element_kind(d, *m, kind_of(d, locals, i.get())?),
        GExpr::TableElement(t, i) => table_kind(d, *t, kind_of(d, locals, i.get())?),
        GExpr::Bit(a, i) => {
            if is_base(a.get()) {
                bit_kind(kind_of(d, locals, a.get())?, kind_of(d, locals, i.get())?)
            } else {
                None
            }
        }
        GExpr::Slice(a, i, j) => {
            if is_base(a.get()) {
                slice_kind(
                    kind_of(d, locals, a.get())?,
                    kind_of(d, locals, i.get())?,
                    kind_of(d, locals, j.get())?,
                )
            } else {
                None
            }
        }
        GExpr::Unary(op, a) => unary_kind(*op, kind_of(d, locals, a.get())?),
        GExpr::Binary(op, a, b) => binary_kind(
            *op,
            kind_of(d, locals, a.get())?,
            kind_of(d, locals, b.get())?,
        ),
        GExpr::And(a, b) | GExpr::Or(a, b) => numeric(
            kind_of(d, locals, a.get())?,
            kind_of(d, locals, b.get())?,
            ValueKind::Bool,
        ),
        GExpr::Concat(parts) => concat_kind(d, locals, parts.as_slice()),
        GExpr::Signed(a) => given(is_bits(kind_of(d, locals, a.get())?), ValueKind::Int),
        GExpr::Int(a) => given(is_number(kind_of(d, locals, a.get())?), ValueKind::Int),
        GExpr::Bool(a) => given(is_number(kind_of(d, locals, a.get())?), ValueKind::Bool),
    }
}

/// The kind of `concat`, which takes one part or more.
#[cycle(kinds)]
#[tactic(auto, using(crate::proofs::KindLaws::concat_laws))]
fn concat_kind(d: &Design, locals: &[Local], parts: &[GExpr]) -> Option<ValueKind>
    ensures { result ≡ option_and_then spec.concat_kind (spec.kinds_of d.now locals.now (row (map expression_of parts.now))) }
{
    if parts.len() == 0 {
        return None;
    }
    given(parts_fit(d, locals, parts), ValueKind::Bits(false))
}

/// Each of the expressions may be a part of `concat`.
#[cycle(kinds)]
#[tactic(auto, using(crate::proofs::Shapes::shapes, crate::proofs::KindLaws::concat_laws))]
fn parts_fit(d: &Design, locals: &[Local], parts: &[GExpr]) -> bool
    ensures { result ≡ option_map_or (list_all spec.is_part) (spec.kinds_of d.now locals.now (row (map expression_of parts.now))) false }
{
    for part in parts {
        match kind_of(d, locals, part) {
            Some(k) => {
                if !is_part(k) {
                    return false;
                }
            }
            None => return false,
        }
    }
    true
}
