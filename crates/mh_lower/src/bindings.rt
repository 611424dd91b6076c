// What `v = e` gives a local.
ghost use Rattle.std.specs.Prelude.{false, ◌≡◌, ◌≤◌, ◌-◌, ◌^◌, ◌&&◌, is_some, map, pos};
ghost use Rattle.mh_text.specs.Faults.{Gives};
ghost use Rattle.mh_consts.specs.Expression.{ex_of, given_of, keys_of, maker, one, part_of, parts_of, slice_from, three};
ghost use Rattle.mh_consts.specs.Numbers.{bounds_of, content as content_of};
ghost use Rattle.mh_exprs.specs.Calls as calls;
ghost use Rattle.mh_exprs.specs.Expression.{read as reading};
ghost use Rattle.mh_lower.specs.Views.{view, Called};
ghost use Rattle.mh_lower.specs.Bindings as spec;
ghost use Rattle.mh_exprs.specs.Step.{Changes, Grows};

use crate::given::{given_number, part_given};
use crate::paths::assigns;
use crate::typed::Bound;
use mh_consts::{Builtin, Const, Scope, is_method};
use mh_design::{Binding, Design, GExpr, Kind, ValueKind, binding_takes, is_number};
use mh_exprs::{
    Callee, Form, Locals, Typed, Work, callee_of, folds, form_of, integer, is_maker, is_named_call,
    kind_at, known, leaf, read,
};
use mh_num::Bounds;
use mh_pytree::{Argument, PyExpr};
use mh_text::{Code, Fault};
use sqlite_items::Boxed;
use std::alloc::Global;

/// A value of another kind than a bounded number.
pub(crate) fn plain_bound(t: Typed) -> Bound
    ensures { result ≡ spec.plain t }
{
    Bound {
        value: t,
        binding: Binding::Plain,
    }
}

/// A constant as a right side.
#[tactic(auto, using(mh_consts::proofs::Values::values))]
fn constant_right(v: &Const, d: &Design) -> Result<Bound, Code>
    ensures { result ≡ spec.constant_right v.now d.now }
{
    match v {
        Const::Bounded(n, b) => Ok(Bound {
            value: integer(GExpr::Integer(*n)),
            binding: Binding::Bounded(*b),
        }),
        _ => {
            let t = leaf(false, v, d)?;
            Ok(plain_bound(t))
        }
    }
}

/// The number of an argument of `intbv` or `modbv`.
#[tactic(auto, using(mh_consts::proofs::Values::values))]
fn content(v: &Const) -> Result<i128, Code>
    ensures { result ≡ content_of v.now }
{
    match v {
        Const::Int(n) => Ok(*n),
        Const::Truth(b) => Ok(if *b { 1 } else { 0 }),
        Const::Bounded(v, _) => Ok(*v),
        _ => Err(Code::E3BadArguments),
    }
}

/// The number of an argument that has to be a constant.
pub(crate) fn constant_number(
    alloc: Global,
    s: &Scope,
    locals: &Locals,
    e: &PyExpr,
) -> Result<i128, Fault<Code>>
    ensures { Gives (spec.constant_number s.now locals.now (ex_of e.now)) result }
{
    if !folds(alloc, s, locals, e)? {
        return Err(Fault::Broken(Code::E2NotElaborable));
    }
    let v = known(alloc, e, s)?;
    Ok(content(&v)?)
}

/// A number that gets these bounds.
fn number_in(t: Boxed<Typed>, binding: Binding) -> Result<Bound, Code>
    ensures { result ≡ spec.number_in t binding }
{
    if is_number(t.get().kind) {
        Ok(Bound {
            value: t.into_inner(),
            binding,
        })
    } else {
        Err(Code::E3BadArguments)
    }
}

/// The bounds from `lo` to `top`, if there is a number between them and they need at most 127 bits.
fn bounds(lo: i128, top: i128, wraps: bool) -> Option<Bounds>
    ensures { result ≡ bounds_of lo top wraps }
{
    Bounds::new(lo, top, wraps)
}

/// The greatest number of `n` bits.
fn greatest(n: u8) -> i128
    requires { n ≤ 127 }
    ensures { result ≡ pos (2 ^ n - 1) }
{
    i128::MAX >> (127 - n)
}

/// The bounds from `low` up to and without `high`.
fn bounds_between(wraps: bool, low: i128, high: i128) -> Result<Bounds, Code>
    ensures { result ≡ spec.bounds_between wraps low high }
{
    if low < high {
        match bounds(low, high - 1, wraps) {
            Some(b) => Ok(b),
            None => Err(Code::E5TooWide),
        }
    } else {
        Err(Code::E4BadRange)
    }
}

/// A number between bounds.
fn between(wraps: bool, t: Boxed<Typed>, low: i128, high: i128) -> Result<Bound, Code>
    ensures { result ≡ spec.between wraps t low high }
{
    let b = bounds_between(wraps, low, high)?;
    number_in(t, Binding::Bounded(b))
}

/// The `n` low bits of a number.
fn low_bits(wraps: bool, t: Boxed<Typed>, n: i128) -> Result<Bound, Code>
    ensures { result ≡ spec.low_bits wraps t n }
{
    if n < 1 {
        Err(Code::E4BadRange)
    } else if n > 127 {
        Err(Code::E5TooWide)
    } else {
        number_in(t, Binding::LowBits(n as u8, wraps))
    }
}

/// Whether what a call makes wraps.
fn wraps(c: Callee) -> bool
    ensures { result ≡ spec.wraps c }
{
    matches!(c, Callee::Known(Builtin::Modbv))
}

/// A right side that makes no bounded number.
fn any_right(
    alloc: Global,
    s: &Scope,
    locals: &Locals,
    w: &Work,
    e: &PyExpr,
    d: &mut Design,
) -> Result<Bound, Fault<Code>>
    ensures { Grows (spec.any_right s.now locals.now w.now (ex_of e.now) d.old) result d.new }
{
    let t = read(alloc, s, locals, w, false, e, d)?;
    Ok(plain_bound(t))
}

/// `maker(v, min=low, max=high)`
fn made_between(
    alloc: Global,
    s: &Scope,
    locals: &Locals,
    w: &Work,
    wraps: bool,
    v: &Argument,
    low: &Argument,
    high: &Argument,
    d: &mut Design,
) -> Result<Bound, Fault<Code>>
    ensures { Grows (spec.made_between s.now locals.now wraps (reading s.now locals.now w.now false (part_of (given_of v.now))) (part_of (given_of low.now)) (part_of (given_of high.now)) d.old) result d.new }
{
    let t = part_given(alloc, s, locals, w, v, d)?;
    let a = given_number(alloc, s, locals, low)?;
    let b = given_number(alloc, s, locals, high)?;
    Ok(between(wraps, t, a, b)?)
}

/// `maker(v, max=high, min=low)`
fn made_between_turned(
    alloc: Global,
    s: &Scope,
    locals: &Locals,
    w: &Work,
    wraps: bool,
    v: &Argument,
    high: &Argument,
    low: &Argument,
    d: &mut Design,
) -> Result<Bound, Fault<Code>>
    ensures { Grows (spec.made_between_turned s.now locals.now wraps (reading s.now locals.now w.now false (part_of (given_of v.now))) (part_of (given_of high.now)) (part_of (given_of low.now)) d.old) result d.new }
{
    let t = part_given(alloc, s, locals, w, v, d)?;
    let b = given_number(alloc, s, locals, high)?;
    let a = given_number(alloc, s, locals, low)?;
    Ok(between(wraps, t, a, b)?)
}

/// A call of `intbv` or `modbv` with three arguments that isn't a constant.
fn made_of_three(
    alloc: Global,
    s: &Scope,
    locals: &Locals,
    w: &Work,
    wraps: bool,
    form: Form,
    e: &PyExpr,
    first: &Argument,
    second: &Argument,
    third: &Argument,
    d: &mut Design,
) -> Result<Bound, Fault<Code>>
    ensures { Grows (spec.made_right s.now locals.now w.now wraps form (ex_of e.now) (three (part_of (given_of first.now)) (part_of (given_of second.now)) (part_of (given_of third.now))) d.old) result d.new }
{
    match form {
        Form::LowHigh => made_between(alloc, s, locals, w, wraps, first, second, third, d),
        Form::HighLow => made_between_turned(alloc, s, locals, w, wraps, first, second, third, d),
        Form::Single | Form::Other => any_right(alloc, s, locals, w, e, d),
    }
}

/// A call of `intbv` or `modbv` that isn't a constant.
#[tactic(auto, using(crate::proofs::Counts::counts))]
fn made_right(
    alloc: Global,
    s: &Scope,
    locals: &Locals,
    w: &Work,
    wraps: bool,
    e: &PyExpr,
    arguments: &[Argument],
    d: &mut Design,
) -> Result<Bound, Fault<Code>>
    ensures { Grows (spec.made_right s.now locals.now w.now wraps (calls.form_of (keys_of (map given_of arguments.now))) (ex_of e.now) (parts_of (map given_of arguments.now)) d.old) result d.new }
{
    match arguments {
        [] => any_right(alloc, s, locals, w, e, d),
        [_] => any_right(alloc, s, locals, w, e, d),
        [_, _] => any_right(alloc, s, locals, w, e, d),
        [v, a, b] => {
            let form = form_of(arguments);
            made_of_three(alloc, s, locals, w, wraps, form, e, v, a, b, d)
        }
        [_, _, _, _, ..] => any_right(alloc, s, locals, w, e, d),
    }
}

/// `maker(v)[n:]`
fn made_low_bits(
    alloc: Global,
    s: &Scope,
    locals: &Locals,
    w: &Work,
    wraps: bool,
    v: &Argument,
    n: &PyExpr,
    d: &mut Design,
) -> Result<Bound, Fault<Code>>
    ensures { Grows (spec.made_low_bits s.now locals.now wraps (reading s.now locals.now w.now false (part_of (given_of v.now))) (ex_of n.now) d.old) result d.new }
{
    let t = part_given(alloc, s, locals, w, v, d)?;
    let k = constant_number(alloc, s, locals, n)?;
    Ok(low_bits(wraps, t, k)?)
}

/// `maker(v)[n:]`, by how the argument is given.
fn resized_one(
    alloc: Global,
    s: &Scope,
    locals: &Locals,
    w: &Work,
    wraps: bool,
    form: Form,
    v: &Argument,
    n: &PyExpr,
    d: &mut Design,
) -> Result<Bound, Fault<Code>>
    ensures { Grows (spec.resized_right s.now locals.now w.now wraps form (one (part_of (given_of v.now))) (ex_of n.now) d.old) result d.new }
{
    match form {
        Form::Single => made_low_bits(alloc, s, locals, w, wraps, v, n, d),
        Form::LowHigh | Form::HighLow | Form::Other => Err(Fault::Broken(Code::E2NotElaborable)),
    }
}

/// `maker(..)[n:]`, where it isn't a constant.
#[tactic(auto, using(crate::proofs::Counts::counts))]
fn resized_right(
    alloc: Global,
    s: &Scope,
    locals: &Locals,
    w: &Work,
    wraps: bool,
    arguments: &[Argument],
    n: &PyExpr,
    d: &mut Design,
) -> Result<Bound, Fault<Code>>
    ensures { Grows (spec.resized_right s.now locals.now w.now wraps (calls.form_of (keys_of (map given_of arguments.now))) (parts_of (map given_of arguments.now)) (ex_of n.now) d.old) result d.new }
{
    match arguments {
        [] => Err(Fault::Broken(Code::E2NotElaborable)),
        [v] => {
            let form = form_of(arguments);
            resized_one(alloc, s, locals, w, wraps, form, v, n, d)
        }
        [_, _, ..] => Err(Fault::Broken(Code::E2NotElaborable)),
    }
}

/// A call before `[n:]`, by whether it makes a bounded number.
fn sliced_right(
    alloc: Global,
    s: &Scope,
    locals: &Locals,
    w: &Work,
    e: &PyExpr,
    f: &PyExpr,
    arguments: &[Argument],
    n: &PyExpr,
    d: &mut Design,
) -> Result<Bound, Fault<Code>>
    ensures { Grows (spec.resized_view s.now locals.now w.now (ex_of e.now) (Called (keys_of (map given_of arguments.now)) (ex_of f.now) (parts_of (map given_of arguments.now))) (ex_of n.now) d.old) result d.new }
{
    let c = callee_of(s, locals, f);
    if is_maker(c) {
        resized_right(alloc, s, locals, w, wraps(c), arguments, n, d)
    } else {
        any_right(alloc, s, locals, w, e, d)
    }
}

/// A call as a right side, by whether it makes a bounded number.
fn called_right(
    alloc: Global,
    s: &Scope,
    locals: &Locals,
    w: &Work,
    e: &PyExpr,
    f: &PyExpr,
    arguments: &[Argument],
    d: &mut Design,
) -> Result<Bound, Fault<Code>>
    ensures { Grows (spec.call_view s.now locals.now w.now (ex_of e.now) (Called (keys_of (map given_of arguments.now)) (ex_of f.now) (parts_of (map given_of arguments.now))) d.old) result d.new }
{
    let c = callee_of(s, locals, f);
    if is_maker(c) {
        made_right(alloc, s, locals, w, wraps(c), e, arguments, d)
    } else {
        any_right(alloc, s, locals, w, e, d)
    }
}

/// A call by its name, `a`, before `[n:]`.
#[tactic(auto, using(crate::proofs::ViewForms::views))]
fn base_right(
    alloc: Global,
    s: &Scope,
    locals: &Locals,
    w: &Work,
    e: &PyExpr,
    a: &PyExpr,
    n: &PyExpr,
    d: &mut Design,
) -> Result<Bound, Fault<Code>>
    ensures { Grows (spec.resized_view s.now locals.now w.now (ex_of e.now) (view (ex_of a.now)) (ex_of n.now) d.old) result d.new }
{
    match a {
        PyExpr::Group(inner) => base_right(alloc, s, locals, w, e, inner.get(), n, d),
        PyExpr::Call(f, arguments) => {
            if is_method(f.get()) {
                any_right(alloc, s, locals, w, e, d)
            } else {
                sliced_right(alloc, s, locals, w, e, f.get(), arguments.as_slice(), n, d)
            }
        }
        PyExpr::Name(_)
        | PyExpr::Number(_)
        | PyExpr::Str(_)
        | PyExpr::True
        | PyExpr::False
        | PyExpr::None => any_right(alloc, s, locals, w, e, d),
        PyExpr::Bracketed(_)
        | PyExpr::Tuple(_)
        | PyExpr::List(_)
        | PyExpr::Comprehension(_, _, _) => any_right(alloc, s, locals, w, e, d),
        PyExpr::Not(_)
        | PyExpr::Unary(_, _)
        | PyExpr::Binary(_, _, _)
        | PyExpr::Attribute(_, _)
        | PyExpr::Index(_, _)
        | PyExpr::Slice(_, _, _)
        | PyExpr::Whole(_) => any_right(alloc, s, locals, w, e, d),
    }
}

/// `a[n:]` as a right side, where `a` may be a call of a maker.
#[tactic(auto, using(crate::proofs::ViewForms::views))]
fn range_right(
    alloc: Global,
    s: &Scope,
    locals: &Locals,
    w: &Work,
    e: &PyExpr,
    a: &PyExpr,
    n: &PyExpr,
    d: &mut Design,
) -> Result<Bound, Fault<Code>>
    ensures { Grows (spec.call_view s.now locals.now w.now (ex_of e.now) (view (slice_from (maker (ex_of a.now)) (ex_of a.now) (ex_of n.now))) d.old) result d.new }
{
    if is_named_call(a) {
        base_right(alloc, s, locals, w, e, a, n, d)
    } else {
        any_right(alloc, s, locals, w, e, d)
    }
}

/// A right side that isn't a constant. The whole expression is `e`, of which `inner` is what stands in
/// its brackets.
#[tactic(auto, using(crate::proofs::ViewForms::views))]
fn call_right(
    alloc: Global,
    s: &Scope,
    locals: &Locals,
    w: &Work,
    e: &PyExpr,
    inner: &PyExpr,
    d: &mut Design,
) -> Result<Bound, Fault<Code>>
    ensures { Grows (spec.call_view s.now locals.now w.now (ex_of e.now) (view (ex_of inner.now)) d.old) result d.new }
{
    match inner {
        PyExpr::Group(a) => call_right(alloc, s, locals, w, e, a.get(), d),
        PyExpr::Call(f, arguments) => {
            if is_method(f.get()) {
                any_right(alloc, s, locals, w, e, d)
            } else {
                called_right(alloc, s, locals, w, e, f.get(), arguments.as_slice(), d)
            }
        }
        PyExpr::Slice(a, n, lower) => match lower {
            None => range_right(alloc, s, locals, w, e, a.get(), n.get(), d),
            Some(_) => any_right(alloc, s, locals, w, e, d),
        },
        PyExpr::Name(_)
        | PyExpr::Number(_)
        | PyExpr::Str(_)
        | PyExpr::True
        | PyExpr::False
        | PyExpr::None
        | PyExpr::Bracketed(_)
        | PyExpr::Tuple(_)
        | PyExpr::List(_)
        | PyExpr::Comprehension(_, _, _)
        | PyExpr::Not(_)
        | PyExpr::Unary(_, _)
        | PyExpr::Binary(_, _, _)
        | PyExpr::Attribute(_, _)
        | PyExpr::Index(_, _)
        | PyExpr::Whole(_) => any_right(alloc, s, locals, w, e, d),
    }
}

/// Whether an expression is a call of `intbv` or `modbv`.
#[tactic(auto, using(crate::proofs::ViewForms::views))]
fn is_made_call(s: &Scope, locals: &Locals, e: &PyExpr) -> bool
    ensures { result ≡ spec.is_made_view s.now locals.now (view (ex_of e.now)) }
{
    match e {
        PyExpr::Group(a) => is_made_call(s, locals, a.get()),
        PyExpr::Call(f, _) => !is_method(f.get()) && is_maker(callee_of(s, locals, f.get())),
        PyExpr::Name(_)
        | PyExpr::Number(_)
        | PyExpr::Str(_)
        | PyExpr::True
        | PyExpr::False
        | PyExpr::None
        | PyExpr::Bracketed(_)
        | PyExpr::Tuple(_)
        | PyExpr::List(_)
        | PyExpr::Comprehension(_, _, _)
        | PyExpr::Not(_)
        | PyExpr::Unary(_, _)
        | PyExpr::Binary(_, _, _)
        | PyExpr::Attribute(_, _)
        | PyExpr::Index(_, _)
        | PyExpr::Slice(_, _, _)
        | PyExpr::Whole(_) => false,
    }
}

/// Whether what stands before `[n:]` is a call of `intbv` or `modbv` by its name.
fn is_made_base(s: &Scope, locals: &Locals, a: &PyExpr) -> bool
    ensures { result ≡ (is_some (maker (ex_of a.now)) && spec.is_made_view s.now locals.now (view (ex_of a.now))) }
{
    is_named_call(a) && is_made_call(s, locals, a)
}

/// Whether a constant makes a bounded number: by its name, or by `intbv` or `modbv`.
#[tactic(auto, using(crate::proofs::Makers::makers))]
fn is_made(s: &Scope, locals: &Locals, e: &PyExpr) -> bool
    ensures { result ≡ spec.is_made s.now locals.now (ex_of e.now) }
{
    match e {
        PyExpr::Group(a) => is_made(s, locals, a.get()),
        PyExpr::Name(_) => true,
        PyExpr::Call(_, _) => is_made_call(s, locals, e),
        PyExpr::Slice(a, _, lower) => match lower {
            None => is_made_base(s, locals, a.get()),
            Some(_) => false,
        },
        PyExpr::Number(_)
        | PyExpr::Str(_)
        | PyExpr::True
        | PyExpr::False
        | PyExpr::None
        | PyExpr::Bracketed(_)
        | PyExpr::Tuple(_)
        | PyExpr::List(_)
        | PyExpr::Comprehension(_, _, _)
        | PyExpr::Not(_)
        | PyExpr::Unary(_, _)
        | PyExpr::Binary(_, _, _)
        | PyExpr::Attribute(_, _)
        | PyExpr::Index(_, _)
        | PyExpr::Whole(_) => false,
    }
}

/// The one constant that a right side is.
fn folded_right(alloc: Global, s: &Scope, e: &PyExpr, d: &mut Design) -> Result<Bound, Fault<Code>>
    ensures { Grows (spec.folded_right s.now (ex_of e.now) d.old) result d.new }
{
    let v = known(alloc, e, s)?;
    Ok(constant_right(&v, d)?)
}

/// The right side of `v = e`.
pub(crate) fn right(
    alloc: Global,
    s: &Scope,
    locals: &Locals,
    w: &Work,
    e: &PyExpr,
    d: &mut Design,
) -> Result<Bound, Fault<Code>>
    ensures { Grows (spec.right s.now locals.now w.now (ex_of e.now) d.old) result d.new }
{
    if !is_made(s, locals, e) {
        return call_right(alloc, s, locals, w, e, e, d);
    }
    if folds(alloc, s, locals, e)? {
        folded_right(alloc, s, e, d)
    } else {
        call_right(alloc, s, locals, w, e, e, d)
    }
}

/// The kind that a first assignment gives a local.
fn first_kind(binding: Binding, value: ValueKind) -> Result<Kind, Code>
    ensures { result ≡ spec.first_kind binding value }
{
    match binding {
        Binding::Plain => Ok(match value {
            ValueKind::Bool => Kind::Bool,
            ValueKind::Int => Kind::Int,
            ValueKind::Bits(_) => Kind::Int,
            ValueKind::Item(n) => Kind::Item(n),
        }),
        Binding::Bounded(b) => Ok(Kind::Bits(b)),
        Binding::LowBits(n, wraps) => match low_bounds(n, wraps) {
            Some(b) => Ok(Kind::Bits(b)),
            None => Err(Code::E5TooWide),
        },
    }
}

/// The bounds of `n` bits.
fn low_bounds(n: u8, wraps: bool) -> Option<Bounds>
    ensures { result ≡ spec.low_bounds n wraps }
{
    if n > 127 {
        None
    } else {
        bounds(0, greatest(n), wraps)
    }
}

/// The kind of a local, from now on.
pub(crate) fn set_kind(w: &mut Work, v: u32, kind: Kind)
    ensures { w.new ≡ spec.with_kind w.old v kind }
{
    if (v as usize) < w.kinds.len() {
        w.kinds.set(v as usize, Some(kind));
    }
}

/// A local gets a value.
pub(crate) fn bound(w: &mut Work, v: u32, binding: Binding, value: ValueKind) -> Result<(), Code>
    ensures { Changes (spec.bound w.old v binding value) result w.new }
{
    match kind_at(w, v) {
        None => {
            let kind = first_kind(binding, value)?;
            set_kind(w, v, kind);
        }
        Some(declared) => {
            if !binding_takes(binding, declared, value) {
                return Err(Code::E10KindClash);
            }
        }
    }
    assigns(w, v);
    Ok(())
}
