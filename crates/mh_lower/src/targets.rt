// The left sides of assignments.
ghost use Rattle.std.specs.Prelude.{false, ◌≡◌, Some};
ghost use Rattle.mh_consts.specs.Names.{lookup};
ghost use Rattle.mh_consts.specs.Expression.{ex_of};
ghost use Rattle.mh_consts.specs.Expression as plain;
ghost use Rattle.mh_exprs.specs.Calls as calls;
ghost use Rattle.mh_exprs.specs.Calls.{Listed, Tupled};
ghost use Rattle.mh_exprs.specs.Constant.{is_local as local_name};
ghost use Rattle.mh_exprs.specs.Expression as expressions;
ghost use Rattle.mh_lower.specs.Targets as spec;
ghost use Rattle.mh_lower.specs.Views.{Attributed, Indexed, Ranged, RangedFrom, view};
ghost use Rattle.mh_exprs.specs.Step.{Grows};

use crate::typed::Left;
use mh_consts::{Const, Scope, name_in};
use mh_design::{
    Design, Kind, Place, Target, ValueKind, constant_of, is_number, signal_kind, takes,
};
use mh_exprs::{
    Locals, Typed, Work, bit_fits, bounds_in, cell, is_assigned, is_local, is_named_call, is_word,
    kind_at, outside_in, part, place_in, slice_fits, zero_end,
};
use mh_pytree::PyExpr;
use mh_text::{Code, Fault, Text};
use sqlite_items::Boxed;
use std::alloc::Global;

/// A signal as what is assigned.
fn signal_place(d: &Design, n: u32) -> Result<(Place, Kind), Code>
    ensures { result ≡ spec.signal_place d.now n }
{
    match signal_kind(d, n) {
        Some(kind) => Ok((Place::Signal(n), kind)),
        None => Err(Code::E10KindClash),
    }
}

/// A value of elaboration as what is assigned.
#[tactic(auto, using(mh_consts::proofs::Values::values))]
fn held_place(v: &Const, d: &Design) -> Result<(Place, Kind), Code>
    ensures { result ≡ spec.held_place v.now d.now }
{
    match v {
        Const::Signal(n, _) => signal_place(d, *n),
        _ => Err(Code::E10KindClash),
    }
}

/// A name before `.next`.
fn named_place(s: &Scope, locals: &Locals, t: &Text, d: &Design) -> Result<(Place, Kind), Code>
    ensures { result ≡ spec.named_place (local_name locals.now t.now) (lookup s.now.names t.now) d.now }
{
    if is_local(locals, t) {
        return Err(Code::E10KindClash);
    }
    match s.find(t) {
        Some(v) => held_place(v, d),
        None => Err(Code::E1UnknownName),
    }
}

/// An element of a list before `.next`.
fn listed_place(
    alloc: Global,
    s: &Scope,
    locals: &Locals,
    w: &Work,
    n: u32,
    i: &PyExpr,
    d: &mut Design,
) -> Result<(Place, Kind), Fault<Code>>
    ensures { Grows (spec.element_place s.now (Listed n) (expressions.read s.now locals.now w.now false (ex_of i.now)) d.old) result d.new }
{
    let t = part(alloc, s, locals, w, false, i, d)?;
    let m = cell(alloc, s, n, t.get(), d)?;
    Ok((Place::Element(m.0, t.into_inner().expr), m.1))
}

/// An item of a tuple before `.next`.
fn tupled_place(
    alloc: Global,
    s: &Scope,
    locals: &Locals,
    w: &Work,
    items: &[Const],
    i: &PyExpr,
    d: &mut Design,
) -> Result<(Place, Kind), Fault<Code>>
    ensures { Grows (spec.element_place s.now (Tupled items.now) (expressions.read s.now locals.now w.now false (ex_of i.now)) d.old) result d.new }
{
    let t = part(alloc, s, locals, w, false, i, d)?;
    let v = place_in(items, constant_of(&t.get().expr))?;
    Ok(held_place(v, d)?)
}

/// An item of a list or tuple from outside before `.next`.
#[tactic(auto, using(mh_consts::proofs::Values::values))]
fn element_place(
    alloc: Global,
    s: &Scope,
    locals: &Locals,
    w: &Work,
    a: &PyExpr,
    i: &PyExpr,
    d: &mut Design,
) -> Result<(Place, Kind), Fault<Code>>
    ensures { Grows (spec.element_place s.now (calls.collection_of s.now locals.now (ex_of a.now)) (expressions.read s.now locals.now w.now false (ex_of i.now)) d.old) result d.new }
{
    match outside_in(s, locals, a) {
        Some(Const::List(n)) => listed_place(alloc, s, locals, w, *n, i, d),
        Some(Const::Tuple(items)) => {
            tupled_place(alloc, s, locals, w, items.get().as_slice(), i, d)
        }
        _ => Err(Fault::Broken(Code::E10KindClash)),
    }
}

/// What stands before `.next`.
#[tactic(auto, using(crate::proofs::ViewForms::views))]
fn next_place(
    alloc: Global,
    s: &Scope,
    locals: &Locals,
    w: &Work,
    e: &PyExpr,
    d: &mut Design,
) -> Result<(Place, Kind), Fault<Code>>
    ensures { Grows (spec.next_place s.now locals.now w.now (ex_of e.now) d.old) result d.new }
{
    match e {
        PyExpr::Group(a) => next_place(alloc, s, locals, w, a.get(), d),
        PyExpr::Name(t) => Ok(named_place(s, locals, t, d)?),
        PyExpr::Index(a, i) => element_place(alloc, s, locals, w, a.get(), i.get(), d),
        PyExpr::Number(_)
        | PyExpr::Str(_)
        | PyExpr::True
        | PyExpr::False
        | PyExpr::None
        | PyExpr::Bracketed(_)
        | PyExpr::Tuple(_)
        | PyExpr::List(_)
        | PyExpr::Comprehension(_, _, _)
        | PyExpr::Not(_)
        | PyExpr::Unary(_, _)
        | PyExpr::Binary(_, _, _)
        | PyExpr::Attribute(_, _)
        | PyExpr::Call(_, _)
        | PyExpr::Slice(_, _, _)
        | PyExpr::Whole(_) => Err(Fault::Broken(Code::E10KindClash)),
    }
}

/// A local of which a part is assigned.
fn local_place(w: &Work, v: u32) -> Result<(Place, Kind), Code>
    ensures { result ≡ spec.local_place w.now v }
{
    if !is_assigned(&w.here, v) {
        return Err(Code::E1UnknownName);
    }
    match kind_at(w, v) {
        Some(kind) => Ok((Place::Local(v), kind)),
        None => Err(Code::E1UnknownName),
    }
}

/// A name of which a part is assigned.
fn own_named(s: &Scope, locals: &Locals, w: &Work, t: &Text) -> Result<(Place, Kind), Code>
    ensures { result ≡ spec.own_named s.now locals.now w.now t.now }
{
    match locals.numbers.find(t) {
        Some(v) => local_place(w, *v),
        None => match s.find(t) {
            Some(_) => Err(Code::E2NotElaborable),
            None => Err(Code::E1UnknownName),
        },
    }
}

/// What a part is assigned of.
#[tactic(auto, using(crate::proofs::ViewForms::views))]
fn part_place(
    alloc: Global,
    s: &Scope,
    locals: &Locals,
    w: &Work,
    e: &PyExpr,
    d: &mut Design,
) -> Result<(Place, Kind), Fault<Code>>
    ensures { Grows (spec.part_place s.now locals.now w.now (ex_of e.now) d.old) result d.new }
{
    match e {
        PyExpr::Group(a) => part_place(alloc, s, locals, w, a.get(), d),
        PyExpr::Name(t) => Ok(own_named(s, locals, w, t)?),
        PyExpr::Attribute(a, name) => {
            if is_word(name, b"next") {
                next_place(alloc, s, locals, w, a.get(), d)
            } else {
                Err(Fault::Broken(Code::E2NotElaborable))
            }
        }
        PyExpr::Number(_)
        | PyExpr::Str(_)
        | PyExpr::True
        | PyExpr::False
        | PyExpr::None
        | PyExpr::Bracketed(_)
        | PyExpr::Tuple(_)
        | PyExpr::List(_)
        | PyExpr::Comprehension(_, _, _)
        | PyExpr::Not(_)
        | PyExpr::Unary(_, _)
        | PyExpr::Binary(_, _, _)
        | PyExpr::Call(_, _)
        | PyExpr::Index(_, _)
        | PyExpr::Slice(_, _, _)
        | PyExpr::Whole(_) => Err(Fault::Broken(Code::E2NotElaborable)),
    }
}

/// A whole left side.
fn whole_left(p: (Place, Kind)) -> Left
    ensures { result ≡ spec.whole_left p }
{
    Left {
        target: Target::Whole(p.0),
        kind: Some(p.1),
    }
}

/// What a part is assigned of, in a box.
fn boxed_place(
    alloc: Global,
    s: &Scope,
    locals: &Locals,
    w: &Work,
    e: &PyExpr,
    d: &mut Design,
) -> Result<Boxed<(Place, Kind)>, Fault<Code>>
    ensures { Grows (spec.part_place s.now locals.now w.now (ex_of e.now) d.old) result d.new }
{
    Ok(Boxed::new(alloc, part_place(alloc, s, locals, w, e, d)?)?)
}

/// One bit as a left side.
fn bit_left(p: Boxed<(Place, Kind)>, i: Boxed<Typed>) -> Result<Left, Code>
    ensures { result ≡ spec.bit_left p i }
{
    let b = bounds_in(Some(p.get().1))?;
    bit_fits(&b, i.get())?;
    Ok(Left {
        target: Target::Bit(p.into_inner().0, i.into_inner().expr),
        kind: None,
    })
}

/// A slice as a left side.
fn slice_left(p: Boxed<(Place, Kind)>, i: Boxed<Typed>, j: Boxed<Typed>) -> Result<Left, Code>
    ensures { result ≡ spec.slice_left p i j }
{
    let b = bounds_in(Some(p.get().1))?;
    slice_fits(&b, i.get(), j.get())?;
    Ok(Left {
        target: Target::Slice(p.into_inner().0, i.into_inner().expr, j.into_inner().expr),
        kind: None,
    })
}

/// `place.next`
fn next_left(
    alloc: Global,
    s: &Scope,
    locals: &Locals,
    w: &Work,
    a: &PyExpr,
    name: &Text,
    d: &mut Design,
) -> Result<Left, Fault<Code>>
    ensures { Grows (spec.left_view s.now locals.now w.now (Attributed (ex_of a.now) name.now) d.old) result d.new }
{
    if !is_word(name, b"next") {
        return Err(Fault::Broken(Code::E2NotElaborable));
    }
    let p = next_place(alloc, s, locals, w, a, d)?;
    Ok(whole_left(p))
}

/// `place[i]`
fn indexed_left(
    alloc: Global,
    s: &Scope,
    locals: &Locals,
    w: &Work,
    a: &PyExpr,
    i: &PyExpr,
    d: &mut Design,
) -> Result<Left, Fault<Code>>
    ensures { Grows (spec.left_view s.now locals.now w.now (Indexed (ex_of a.now) (ex_of i.now)) d.old) result d.new }
{
    let p = boxed_place(alloc, s, locals, w, a, d)?;
    let t = part(alloc, s, locals, w, false, i, d)?;
    Ok(bit_left(p, t)?)
}

/// `place[i:j]`
fn ranged_left(
    alloc: Global,
    s: &Scope,
    locals: &Locals,
    w: &Work,
    a: &PyExpr,
    i: &PyExpr,
    j: &PyExpr,
    d: &mut Design,
) -> Result<Left, Fault<Code>>
    ensures { Grows (spec.left_view s.now locals.now w.now (Ranged (ex_of a.now) (ex_of i.now) (ex_of j.now)) d.old) result d.new }
{
    let p = boxed_place(alloc, s, locals, w, a, d)?;
    let t = part(alloc, s, locals, w, false, i, d)?;
    let u = part(alloc, s, locals, w, false, j, d)?;
    Ok(slice_left(p, t, u)?)
}

/// `place[i:]`
fn ranged_from_left(
    alloc: Global,
    s: &Scope,
    locals: &Locals,
    w: &Work,
    a: &PyExpr,
    i: &PyExpr,
    d: &mut Design,
) -> Result<Left, Fault<Code>>
    ensures { Grows (spec.left_view s.now locals.now w.now (RangedFrom (ex_of a.now) (ex_of i.now)) d.old) result d.new }
{
    let p = boxed_place(alloc, s, locals, w, a, d)?;
    let t = part(alloc, s, locals, w, false, i, d)?;
    let u = Boxed::new(alloc, zero_end())?;
    Ok(slice_left(p, t, u)?)
}

/// `place[i:]`, where what stands before the index may be a call.
#[tactic(auto, using(crate::proofs::ViewForms::views))]
fn resized_left(
    alloc: Global,
    s: &Scope,
    locals: &Locals,
    w: &Work,
    a: &PyExpr,
    i: &PyExpr,
    d: &mut Design,
) -> Result<Left, Fault<Code>>
    ensures { Grows (spec.left_view s.now locals.now w.now (view (plain.slice_from (plain.maker (ex_of a.now)) (ex_of a.now) (ex_of i.now))) d.old) result d.new }
{
    if is_named_call(a) {
        return Err(Fault::Broken(Code::E2NotElaborable));
    }
    ranged_from_left(alloc, s, locals, w, a, i, d)
}

/// `v[:]`
fn entire(s: &Scope, locals: &Locals, w: &Work, a: &PyExpr) -> Result<Left, Code>
    ensures { result ≡ spec.entire_of s.now locals.now w.now (plain.name_in (ex_of a.now)) }
{
    match name_in(a) {
        None => Err(Code::E2NotElaborable),
        Some(t) => {
            let p = own_named(s, locals, w, t)?;
            bounds_in(Some(p.1))?;
            Ok(whole_left(p))
        }
    }
}

/// The left side of an assignment other than `v = ..`.
#[tactic(auto, using(crate::proofs::ViewForms::views))]
pub(crate) fn left(
    alloc: Global,
    s: &Scope,
    locals: &Locals,
    w: &Work,
    e: &PyExpr,
    d: &mut Design,
) -> Result<Left, Fault<Code>>
    ensures { Grows (spec.left s.now locals.now w.now (ex_of e.now) d.old) result d.new }
{
    match e {
        PyExpr::Group(a) => left(alloc, s, locals, w, a.get(), d),
        PyExpr::Attribute(a, name) => next_left(alloc, s, locals, w, a.get(), name, d),
        PyExpr::Index(a, i) => indexed_left(alloc, s, locals, w, a.get(), i.get(), d),
        PyExpr::Slice(a, i, j) => match j {
            None => resized_left(alloc, s, locals, w, a.get(), i.get(), d),
            Some(j) => ranged_left(alloc, s, locals, w, a.get(), i.get(), j.get(), d),
        },
        PyExpr::Whole(a) => Ok(entire(s, locals, w, a.get())?),
        PyExpr::Name(_)
        | PyExpr::Number(_)
        | PyExpr::Str(_)
        | PyExpr::True
        | PyExpr::False
        | PyExpr::None
        | PyExpr::Bracketed(_)
        | PyExpr::Tuple(_)
        | PyExpr::List(_)
        | PyExpr::Comprehension(_, _, _)
        | PyExpr::Not(_)
        | PyExpr::Unary(_, _)
        | PyExpr::Binary(_, _, _)
        | PyExpr::Call(_, _) => Err(Fault::Broken(Code::E2NotElaborable)),
    }
}

/// Whether a left side takes values of a kind.
pub(crate) fn left_takes(kind: Option<Kind>, value: ValueKind) -> bool
    ensures { result ≡ spec.left_takes kind value }
{
    match kind {
        None => is_number(value),
        Some(declared) => takes(declared, value),
    }
}
