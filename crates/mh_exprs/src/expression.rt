// How an expression of a generator is read.
ghost use Rattle.std.specs.Prelude.{true, false, ◌≡◌, ◌<◌, map, Some, None, IfSome, MatchOption};
ghost use Rattle.mh_text.specs.Faults.{Gives};
ghost use Rattle.mh_pytree.specs.Depth.{expr_depth};
ghost use Rattle.mh_exprs.specs.Operations.{empty_row as empty};
ghost use Rattle.mh_consts.specs.Expression.{ex_of, given_of, keys_of, parts_of};
ghost use Rattle.mh_consts.specs.Expression as plain;
ghost use Rattle.mh_exprs.specs.Calls as calls;
ghost use Rattle.mh_exprs.specs.Expression as spec;
ghost use Rattle.mh_exprs.specs.Leaves as leaves;
ghost use Rattle.mh_exprs.specs.Operations as operations;
ghost use Rattle.mh_exprs.specs.Step.{Grows};

use crate::calls::{callee_named, callee_of, collection, is_maker, plan_of};
use crate::constant::{folds, known};
use crate::leaves::{integer, leaf, name};
use crate::locals::Locals;
use crate::memories::{element, tuple_element};
use crate::names::{Found, Plan};
use crate::operations::{
    attribute, bit, concatenated, empty_row, is_word, joined, length, negated, operated,
    read_signed, signed, slice, to_integer, to_truth, unbounded, zero_end,
};
use crate::typed::{Row, Typed, Work};
use mh_consts::{Scope, maker};
use mh_design::{Design, GExpr};
use mh_pytree::{Argument, Operator, PyExpr, Sign};
use mh_text::{Code, Fault, Text};
use sqlite_items::Boxed;
use std::alloc::Global;

/// Whether an operator counts the width of its operand.
fn is_wide(sign: Sign) -> bool
    ensures { result ≡ spec.is_wide sign }
{
    match sign {
        Sign::Invert => true,
        Sign::Minus | Sign::Plus => false,
    }
}

/// `t.name(..)`
fn method(
    alloc: Global,
    name: &Text,
    arguments: &[Argument],
    t: Typed,
) -> Result<Typed, Fault<Code>>
    ensures { Gives (spec.method name.now (keys_of (map given_of arguments.now)) t) result }
{
    if !is_word(name, b"signed") {
        return Err(Fault::Broken(Code::E10KindClash));
    }
    let n = read_signed(alloc, t)?;
    if arguments.is_empty() {
        Ok(n)
    } else {
        Err(Fault::Broken(Code::E3BadArguments))
    }
}

/// An expression. Where the width counts, a constant bounded number keeps it.
pub fn read(
    alloc: Global,
    s: &Scope,
    locals: &Locals,
    w: &Work,
    wide: bool,
    e: &PyExpr,
    d: &mut Design,
) -> Result<Typed, Fault<Code>>
    ensures { Grows (spec.read s.now locals.now w.now wide (ex_of e.now) d.old) result d.new }
{
    Ok(part(alloc, s, locals, w, wide, e, d)?.into_inner())
}

/// The one constant that an expression is.
fn folded(
    alloc: Global,
    s: &Scope,
    wide: bool,
    e: &PyExpr,
    d: &mut Design,
) -> Result<Boxed<Typed>, Fault<Code>>
    ensures { Grows (spec.folded s.now wide (ex_of e.now) d.old) result d.new }
{
    let v = known(alloc, e, s)?;
    Ok(Boxed::new(alloc, leaf(wide, &v, d)?)?)
}

/// An expression as `read` gives it, in a box: for what reads further before it takes it out.
#[cycle(read)]
#[tactic(auto, using(crate::proofs::Forms::reading))]
pub fn part(
    alloc: Global,
    s: &Scope,
    locals: &Locals,
    w: &Work,
    wide: bool,
    e: &PyExpr,
    d: &mut Design,
) -> Result<Boxed<Typed>, Fault<Code>>
    ensures { Grows (spec.read s.now locals.now w.now wide (ex_of e.now) d.old) result d.new }
{
    if folds(alloc, s, locals, e)? {
        return folded(alloc, s, wide, e, d);
    }
    Ok(Boxed::new(alloc, form(alloc, s, locals, w, e, d)?)?)
}

/// What a name is.
fn named(
    s: &Scope,
    locals: &Locals,
    w: &Work,
    t: &Text,
    d: &mut Design,
) -> Result<Typed, Fault<Code>>
    ensures { Grows (leaves.name s.now locals.now w.now t.now d.old) result d.new }
{
    Ok(name(s, locals, w, t, d)?)
}

/// An expression that isn't one constant.
#[cycle(read)]
#[tactic(auto, using(crate::proofs::Forms::forms, mh_pytree::proofs::Depths::expr_depths))]
fn form(
    alloc: Global,
    s: &Scope,
    locals: &Locals,
    w: &Work,
    e: &PyExpr,
    d: &mut Design,
) -> Result<Typed, Fault<Code>>
    ensures { Grows (spec.read_form s.now locals.now w.now (ex_of e.now) d.old) result d.new }
{
    match e {
        PyExpr::Name(t) => named(s, locals, w, t, d),
        PyExpr::Group(a) => form(alloc, s, locals, w, a.get(), d),
        PyExpr::Not(a) => negation(alloc, s, locals, w, a.get(), d),
        PyExpr::Unary(sign, a) => unary(alloc, s, locals, w, *sign, a.get(), d),
        PyExpr::Binary(op, a, b) => binary(alloc, s, locals, w, *op, a.get(), b.get(), d),
        PyExpr::Attribute(a, name) => member(alloc, s, locals, w, a.get(), name, d),
        PyExpr::Call(f, arguments) => call(alloc, s, locals, w, f.get(), arguments.as_slice(), d),
        PyExpr::Index(a, i) => index(alloc, s, locals, w, a.get(), i.get(), d),
        PyExpr::Slice(a, i, j) => match j {
            None => slice_from(alloc, s, locals, w, a.get(), i.get(), d),
            Some(j) => slice_to(alloc, s, locals, w, a.get(), i.get(), j.get(), d),
        },
        PyExpr::Whole(_) => Err(Fault::Broken(Code::E2NotElaborable)),
        PyExpr::Number(_)
        | PyExpr::Str(_)
        | PyExpr::True
        | PyExpr::False
        | PyExpr::None
        | PyExpr::Bracketed(_)
        | PyExpr::Tuple(_)
        | PyExpr::List(_)
        | PyExpr::Comprehension(_, _, _) => Err(Fault::Broken(Code::E10KindClash)),
    }
}

/// `not a`
#[cycle(read)]
fn negation(
    alloc: Global,
    s: &Scope,
    locals: &Locals,
    w: &Work,
    a: &PyExpr,
    d: &mut Design,
) -> Result<Typed, Fault<Code>>
    ensures { Grows (spec.on_one (spec.read s.now locals.now w.now false (ex_of a.now)) operations.negated d.old) result d.new }
{
    let t = part(alloc, s, locals, w, false, a, d)?;
    negated(alloc, t.into_inner())
}

/// `-a`, `+a` or `~a`
#[cycle(read)]
fn unary(
    alloc: Global,
    s: &Scope,
    locals: &Locals,
    w: &Work,
    sign: Sign,
    a: &PyExpr,
    d: &mut Design,
) -> Result<Typed, Fault<Code>>
    ensures { Grows (spec.on_one (spec.read s.now locals.now w.now (spec.is_wide sign) (ex_of a.now)) (operations.signed sign) d.old) result d.new }
{
    let t = part(alloc, s, locals, w, is_wide(sign), a, d)?;
    signed(alloc, sign, t.into_inner())
}

/// An operator between two expressions.
#[cycle(read)]
fn binary(
    alloc: Global,
    s: &Scope,
    locals: &Locals,
    w: &Work,
    op: Operator,
    a: &PyExpr,
    b: &PyExpr,
    d: &mut Design,
) -> Result<Typed, Fault<Code>>
    ensures { Grows (spec.on_two (spec.read s.now locals.now w.now false (ex_of a.now)) (spec.read s.now locals.now w.now false (ex_of b.now)) (operations.operated op) d.old) result d.new }
{
    let t = part(alloc, s, locals, w, false, a, d)?;
    let u = part(alloc, s, locals, w, false, b, d)?;
    operated(alloc, op, t.into_inner(), u.into_inner())
}

/// `a.name`
#[cycle(read)]
fn member(
    alloc: Global,
    s: &Scope,
    locals: &Locals,
    w: &Work,
    a: &PyExpr,
    name: &Text,
    d: &mut Design,
) -> Result<Typed, Fault<Code>>
    ensures { Grows (spec.on_one (spec.read s.now locals.now w.now true (ex_of a.now)) (operations.attribute name.now) d.old) result d.new }
{
    let t = part(alloc, s, locals, w, true, a, d)?;
    Ok(attribute(name, t.get())?)
}

/// `a[i:j]`
#[cycle(read)]
fn slice_to(
    alloc: Global,
    s: &Scope,
    locals: &Locals,
    w: &Work,
    a: &PyExpr,
    i: &PyExpr,
    j: &PyExpr,
    d: &mut Design,
) -> Result<Typed, Fault<Code>>
    ensures { Grows (spec.on_three (spec.read s.now locals.now w.now true (ex_of a.now)) (spec.read s.now locals.now w.now false (ex_of i.now)) (spec.read s.now locals.now w.now false (ex_of j.now)) operations.slice d.old) result d.new }
{
    let t = part(alloc, s, locals, w, true, a, d)?;
    let u = part(alloc, s, locals, w, false, i, d)?;
    let v = part(alloc, s, locals, w, false, j, d)?;
    slice(alloc, t.into_inner(), u.into_inner(), v.into_inner())
}

/// An index: of a list, of a tuple, or of what has a width.
#[cycle(read)]
fn index(
    alloc: Global,
    s: &Scope,
    locals: &Locals,
    w: &Work,
    a: &PyExpr,
    i: &PyExpr,
    d: &mut Design,
) -> Result<Typed, Fault<Code>>
    ensures { Grows (spec.indexed s.now (calls.collection_of s.now locals.now (ex_of a.now)) (spec.read s.now locals.now w.now true (ex_of a.now)) (spec.read s.now locals.now w.now false (ex_of i.now)) d.old) result d.new }
{
    match collection(s, locals, a) {
        Found::List(n) => {
            let t = part(alloc, s, locals, w, false, i, d)?;
            element(alloc, s, n, t.into_inner(), d)
        }
        Found::Tuple(items) => {
            let t = part(alloc, s, locals, w, false, i, d)?;
            tuple_element(alloc, items, t.into_inner(), d)
        }
        Found::Neither => {
            let t = part(alloc, s, locals, w, true, a, d)?;
            let u = part(alloc, s, locals, w, false, i, d)?;
            bit(alloc, t.into_inner(), u.into_inner())
        }
    }
}

/// Whether an expression is a call of `intbv` or `modbv`.
fn is_made(s: &Scope, locals: &Locals, e: &PyExpr) -> bool
    ensures { result ≡ spec.is_made_by s.now locals.now (plain.maker (ex_of e.now)) }
{
    match maker(e) {
        None => false,
        Some(t) => is_maker(callee_named(s, locals, t)),
    }
}

/// `a[i:]`, which is no right side of a local here.
#[cycle(read)]
#[tactic(auto, using(crate::proofs::Forms::forms))]
fn slice_from(
    alloc: Global,
    s: &Scope,
    locals: &Locals,
    w: &Work,
    a: &PyExpr,
    i: &PyExpr,
    d: &mut Design,
) -> Result<Typed, Fault<Code>>
    ensures { Grows (spec.read_form s.now locals.now w.now (plain.slice_from (plain.maker (ex_of a.now)) (ex_of a.now) (ex_of i.now)) d.old) result d.new }
{
    if is_made(s, locals, a) {
        return Err(Fault::Broken(Code::E2NotElaborable));
    }
    let t = part(alloc, s, locals, w, true, a, d)?;
    let u = part(alloc, s, locals, w, false, i, d)?;
    slice(alloc, t.into_inner(), u.into_inner(), zero_end())
}

/// The base and the name of the attribute that an expression is, brackets left out.
#[tactic(auto, using(crate::proofs::Forms::forms, mh_pytree::proofs::Depths::expr_depths))]
fn method_of(f: &PyExpr) -> Option<(&PyExpr, &Text)>
    ensures found { MatchOption result (plain.attribute_in (ex_of f.now) ≡ None) (λ p. plain.attribute_in (ex_of f.now) ≡ Some (p.1.now, plain.one (ex_of p.0.now))) }
    ensures inside { IfSome result (λ p. expr_depth p.0.now < expr_depth f.now) }
{
    match f {
        PyExpr::Group(a) => method_of(a.get()),
        PyExpr::Attribute(a, name) => Some((a.get(), name)),
        PyExpr::Name(_)
        | PyExpr::Number(_)
        | PyExpr::Str(_)
        | PyExpr::True
        | PyExpr::False
        | PyExpr::None
        | PyExpr::Bracketed(_)
        | PyExpr::Tuple(_)
        | PyExpr::List(_)
        | PyExpr::Comprehension(_, _, _)
        | PyExpr::Not(_)
        | PyExpr::Unary(_, _)
        | PyExpr::Binary(_, _, _)
        | PyExpr::Call(_, _)
        | PyExpr::Index(_, _)
        | PyExpr::Slice(_, _, _)
        | PyExpr::Whole(_) => None,
    }
}

/// A call: of a method where an attribute is called.
#[cycle(read)]
#[tactic(auto, using(crate::proofs::Forms::forms))]
fn call(
    alloc: Global,
    s: &Scope,
    locals: &Locals,
    w: &Work,
    f: &PyExpr,
    arguments: &[Argument],
    d: &mut Design,
) -> Result<Typed, Fault<Code>>
    ensures { Grows (spec.read_form s.now locals.now w.now (plain.called (ex_of f.now) (keys_of (map given_of arguments.now)) (parts_of (map given_of arguments.now))) d.old) result d.new }
{
    match method_of(f) {
        Some((a, name)) => {
            let t = part(alloc, s, locals, w, true, a, d)?;
            method(alloc, name, arguments, t.into_inner())
        }
        None => called(alloc, s, locals, w, f, arguments, d),
    }
}

/// A call of what is no attribute, by what it reads.
#[cycle(read)]
fn called(
    alloc: Global,
    s: &Scope,
    locals: &Locals,
    w: &Work,
    f: &PyExpr,
    arguments: &[Argument],
    d: &mut Design,
) -> Result<Typed, Fault<Code>>
    ensures { Grows (spec.called_with s.now locals.now w.now (calls.plan_of (calls.callee_of s.now locals.now (ex_of f.now)) (keys_of (map given_of arguments.now))) (parts_of (map given_of arguments.now)) d.old) result d.new }
{
    match plan_of(callee_of(s, locals, f), arguments) {
        Plan::Refused(code) => Err(Fault::Broken(code)),
        Plan::Now => Ok(integer(GExpr::Now)),
        Plan::Length => length_of(alloc, s, locals, w, arguments, d),
        Plan::Integer => integer_of(alloc, s, locals, w, arguments, d),
        Plan::Truth => truth_of(alloc, s, locals, w, arguments, d),
        Plan::Unbounded => unbounded_of(alloc, s, locals, w, arguments, d),
        Plan::Row => row_of(alloc, s, locals, w, arguments, d),
        Plan::Misfit => misfit(alloc, s, locals, w, arguments, d),
    }
}

/// `len(..)`
#[cycle(read)]
fn length_of(
    alloc: Global,
    s: &Scope,
    locals: &Locals,
    w: &Work,
    arguments: &[Argument],
    d: &mut Design,
) -> Result<Typed, Fault<Code>>
    ensures { Grows (spec.on_one (spec.first s.now locals.now w.now true (parts_of (map given_of arguments.now))) operations.length d.old) result d.new }
{
    let t = first(alloc, s, locals, w, true, arguments, d)?;
    Ok(length(t.get())?)
}

/// `int(..)`
#[cycle(read)]
fn integer_of(
    alloc: Global,
    s: &Scope,
    locals: &Locals,
    w: &Work,
    arguments: &[Argument],
    d: &mut Design,
) -> Result<Typed, Fault<Code>>
    ensures { Grows (spec.on_one (spec.first s.now locals.now w.now false (parts_of (map given_of arguments.now))) operations.to_integer d.old) result d.new }
{
    let t = first(alloc, s, locals, w, false, arguments, d)?;
    to_integer(alloc, t.into_inner())
}

/// `bool(..)`
#[cycle(read)]
fn truth_of(
    alloc: Global,
    s: &Scope,
    locals: &Locals,
    w: &Work,
    arguments: &[Argument],
    d: &mut Design,
) -> Result<Typed, Fault<Code>>
    ensures { Grows (spec.on_one (spec.first s.now locals.now w.now false (parts_of (map given_of arguments.now))) operations.to_truth d.old) result d.new }
{
    let t = first(alloc, s, locals, w, false, arguments, d)?;
    to_truth(alloc, t.into_inner())
}

/// `intbv(..)` or `modbv(..)` without bounds
#[cycle(read)]
fn unbounded_of(
    alloc: Global,
    s: &Scope,
    locals: &Locals,
    w: &Work,
    arguments: &[Argument],
    d: &mut Design,
) -> Result<Typed, Fault<Code>>
    ensures { Grows (spec.on_one (spec.first s.now locals.now w.now false (parts_of (map given_of arguments.now))) operations.unbounded d.old) result d.new }
{
    let t = first(alloc, s, locals, w, false, arguments, d)?;
    unbounded(alloc, t.into_inner())
}

/// `concat(..)`
#[cycle(read)]
fn row_of(
    alloc: Global,
    s: &Scope,
    locals: &Locals,
    w: &Work,
    arguments: &[Argument],
    d: &mut Design,
) -> Result<Typed, Fault<Code>>
    ensures { Grows (spec.joined_row (spec.row s.now locals.now w.now empty (parts_of (map given_of arguments.now))) d.old) result d.new }
{
    let r = row(alloc, s, locals, w, arguments, d)?;
    Ok(concatenated(r))
}

/// The first argument.
#[cycle(read)]
fn first(
    alloc: Global,
    s: &Scope,
    locals: &Locals,
    w: &Work,
    wide: bool,
    arguments: &[Argument],
    d: &mut Design,
) -> Result<Boxed<Typed>, Fault<Code>>
    ensures { Grows (spec.first s.now locals.now w.now wide (parts_of (map given_of arguments.now)) d.old) result d.new }
{
    for part in arguments {
        return argument(alloc, s, locals, w, wide, part, d);
    }
    Err(Fault::Broken(Code::E10KindClash))
}

/// An argument.
#[cycle(read)]
#[tactic(auto, using(mh_consts::proofs::Shapes::shapes, mh_pytree::proofs::Depths::expr_depths))]
fn argument(
    alloc: Global,
    s: &Scope,
    locals: &Locals,
    w: &Work,
    wide: bool,
    a: &Argument,
    d: &mut Design,
) -> Result<Boxed<Typed>, Fault<Code>>
    ensures { Grows (spec.read s.now locals.now w.now wide (plain.part_of (given_of a.now)) d.old) result d.new }
{
    part(alloc, s, locals, w, wide, &a.value, d)
}

/// The parts of a `concat`.
#[cycle(read)]
#[tactic(auto, using(crate::proofs::Rows::rows))]
fn row(
    alloc: Global,
    s: &Scope,
    locals: &Locals,
    w: &Work,
    arguments: &[Argument],
    d: &mut Design,
) -> Result<Row, Fault<Code>>
    ensures { Grows (spec.row s.now locals.now w.now empty (parts_of (map given_of arguments.now)) d.old) result d.new }
{
    let mut r = empty_row(alloc);
    for part in arguments {
        let t = argument(alloc, s, locals, w, true, part, d)?;
        r = joined(r, t.into_inner())?;
    }
    Ok(r)
}

/// Arguments that don't fit, which are read before they are refused.
#[cycle(read)]
#[tactic(auto, using(crate::proofs::Rows::alls))]
fn misfit(
    alloc: Global,
    s: &Scope,
    locals: &Locals,
    w: &Work,
    arguments: &[Argument],
    d: &mut Design,
) -> Result<Typed, Fault<Code>>
    ensures { Grows (spec.misfit (spec.all s.now locals.now w.now (parts_of (map given_of arguments.now))) d.old) result d.new }
{
    for part in arguments {
        argument(alloc, s, locals, w, false, part, d)?;
    }
    Err(Fault::Broken(Code::E3BadArguments))
}
