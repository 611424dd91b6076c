// The statements of a generator that hold no others.
ghost use Rattle.std.specs.Prelude.{false, ◌≡◌, [], map, option_copied, Some};
ghost use Rattle.mh_text.specs.Faults.{Tells};
ghost use Rattle.mh_consts.specs.declared.kinds.Const.{out-Const};
ghost use Rattle.mh_consts.specs.Expression.{ex_of, given_of, keys_of, part_of, parts_of};
ghost use Rattle.mh_consts.specs.Names.{lookup};
ghost use Rattle.mh_exprs.specs.Expression.{read as reading};
ghost use Rattle.mh_exprs.specs.Leaves.{kind_at as kind_of_local};
ghost use Rattle.mh_lower.specs.Statements as spec;
ghost use Rattle.mh_lower.specs.Views.{Called, view};
ghost use Rattle.mh_lower.specs.Bindings.{constant_number};
ghost use Rattle.mh_lower.specs.Run.{Does, Leaves, Reads, Becomes};
ghost use Rattle.mh_exprs.specs.Step.{Grows};
ghost use Rattle.mh_design.specs.Tree.{statement_of};
ghost use Rattle.std.specs.Option.{option_map};

use crate::bindings::{bound, plain_bound, right};
use crate::given::{given_number, part_given};
use crate::targets::{left, left_takes};
use crate::typed::{Bound, Ends, Left};
use crate::waits::yielded;
use mh_consts::{Builtin, Const, Scope, all_positional, is_method, name_in};
use mh_design::{
    Design, GExpr, GStmt, Kind, Place, PrintPart, Target, ValueKind, is_number, takes,
};
use mh_exprs::{
    Callee, Locals, Typed, Work, callee_of, integer, kind_at, local, operated, outside, part,
};
use mh_pytree::{Argument, Operator, PyExpr};
use mh_text::{Code, Fault, Text};
use sqlite_items::{Boxed, Items};
use std::alloc::Global;

/// An assignment to this left side.
#[tactic(auto, using(mh_design::proofs::Shapes::statements))]
fn set(line: u32, t: Boxed<Typed>, place: Boxed<Left>) -> Result<GStmt, Code>
    ensures { Becomes statement_of (spec.set line t place) result }
{
    if left_takes(place.get().kind, t.get().kind) {
        Ok(GStmt::Set {
            line,
            target: place.into_inner().target,
            value: t.into_inner().expr,
        })
    } else {
        Err(Code::E10KindClash)
    }
}

/// An assignment that makes a local, or gives it a new value.
#[tactic(auto, using(mh_design::proofs::Shapes::statements))]
fn bind(line: u32, w: &mut Work, v: u32, b: Bound) -> Result<GStmt, Code>
    ensures { Leaves statement_of (spec.bind line w.old v b) result w.new }
{
    bound(w, v, b.binding, b.value.kind)?;
    Ok(GStmt::Set {
        line,
        target: Target::Bind(v, b.binding),
        value: b.value.expr,
    })
}

/// `v = e`, where `v` is the local of this number.
fn assign_local(
    alloc: Global,
    s: &Scope,
    locals: &Locals,
    w: &mut Work,
    line: u32,
    v: u32,
    e: &PyExpr,
    d: &mut Design,
) -> Result<GStmt, Fault<Code>>
    ensures { Does statement_of (spec.assign_name s.now locals.now w.old line (Some v) (ex_of e.now) d.old) result w.new d.new }
{
    let b = right(alloc, s, locals, w, e, d)?;
    Ok(bind(line, w, v, b)?)
}

/// `v = e`
fn assign_name(
    alloc: Global,
    s: &Scope,
    locals: &Locals,
    w: &mut Work,
    line: u32,
    t: &Text,
    e: &PyExpr,
    d: &mut Design,
) -> Result<GStmt, Fault<Code>>
    ensures { Does statement_of (spec.assign_name s.now locals.now w.old line (lookup locals.now.numbers t.now) (ex_of e.now) d.old) result w.new d.new }
{
    match locals.numbers.find(t) {
        None => Err(Fault::Broken(Code::E10KindClash)),
        Some(v) => assign_local(alloc, s, locals, w, line, *v, e, d),
    }
}

/// `target = e`, where the target isn't a name.
fn assign_part(
    alloc: Global,
    s: &Scope,
    locals: &Locals,
    w: &Work,
    line: u32,
    target: &PyExpr,
    e: &PyExpr,
    d: &mut Design,
) -> Result<GStmt, Fault<Code>>
    ensures { Reads statement_of (spec.assign_part s.now locals.now w.now line (ex_of target.now) (ex_of e.now) d.old) result d.new }
{
    let t = part(alloc, s, locals, w, false, e, d)?;
    let place = Boxed::new(alloc, left(alloc, s, locals, w, target, d)?)?;
    Ok(set(line, t, place)?)
}

/// `target = e`
#[tactic(auto, unfolding(crate::specs::Statements::assign))]
pub(crate) fn assign(
    alloc: Global,
    s: &Scope,
    locals: &Locals,
    w: &mut Work,
    line: u32,
    target: &PyExpr,
    e: &PyExpr,
    d: &mut Design,
) -> Result<GStmt, Fault<Code>>
    ensures { Does statement_of (spec.assign s.now locals.now w.old line (ex_of target.now) (ex_of e.now) d.old) result w.new d.new }
{
    match name_in(target) {
        Some(t) => assign_name(alloc, s, locals, w, line, t, e, d),
        None => assign_part(alloc, s, locals, w, line, target, e, d),
    }
}

/// A local gets a new value by an augmented assignment; one that is a bounded number keeps its bounds.
#[tactic(auto, using(mh_design::proofs::Shapes::statements))]
fn update(line: u32, w: &mut Work, v: u32, t: Boxed<Typed>) -> Result<GStmt, Code>
    ensures { Leaves statement_of (spec.update line w.old v t (kind_of_local w.old v)) result w.new }
{
    match kind_at(w, v) {
        Some(Kind::Bits(b)) => {
            if !takes(Kind::Bits(b), t.get().kind) {
                return Err(Code::E10KindClash);
            }
            Ok(GStmt::Set {
                line,
                target: Target::Whole(Place::Local(v)),
                value: t.into_inner().expr,
            })
        }
        _ => bind(line, w, v, plain_bound(t.into_inner())),
    }
}

/// `v op= e`, where `v` is the local of this number.
fn augment_local(
    alloc: Global,
    s: &Scope,
    locals: &Locals,
    w: &mut Work,
    line: u32,
    op: Operator,
    v: u32,
    e: &PyExpr,
    d: &mut Design,
) -> Result<GStmt, Fault<Code>>
    ensures { Does statement_of (spec.augment_name s.now locals.now w.old line op (Some v) (ex_of e.now) d.old) result w.new d.new }
{
    let a = Boxed::new(alloc, local(w, v)?)?;
    let b = part(alloc, s, locals, w, false, e, d)?;
    let both = Boxed::new(alloc, operated(alloc, op, a.into_inner(), b.into_inner())?)?;
    Ok(update(line, w, v, both)?)
}

/// `v op= e`
fn augment_name(
    alloc: Global,
    s: &Scope,
    locals: &Locals,
    w: &mut Work,
    line: u32,
    op: Operator,
    t: &Text,
    e: &PyExpr,
    d: &mut Design,
) -> Result<GStmt, Fault<Code>>
    ensures { Does statement_of (spec.augment_name s.now locals.now w.old line op (lookup locals.now.numbers t.now) (ex_of e.now) d.old) result w.new d.new }
{
    match locals.numbers.find(t) {
        None => Err(Fault::Broken(Code::E10KindClash)),
        Some(v) => augment_local(alloc, s, locals, w, line, op, *v, e, d),
    }
}

/// `target op= e`, where the target isn't a name.
fn augment_part(
    alloc: Global,
    s: &Scope,
    locals: &Locals,
    w: &Work,
    line: u32,
    op: Operator,
    target: &PyExpr,
    e: &PyExpr,
    d: &mut Design,
) -> Result<GStmt, Fault<Code>>
    ensures { Reads statement_of (spec.augment_part s.now locals.now w.now line op (ex_of target.now) (ex_of e.now) d.old) result d.new }
{
    let a = part(alloc, s, locals, w, false, target, d)?;
    let b = part(alloc, s, locals, w, false, e, d)?;
    let both = Boxed::new(alloc, operated(alloc, op, a.into_inner(), b.into_inner())?)?;
    let place = Boxed::new(alloc, left(alloc, s, locals, w, target, d)?)?;
    Ok(set(line, both, place)?)
}

/// `target op= e`
#[tactic(auto, unfolding(crate::specs::Statements::augment))]
pub(crate) fn augment(
    alloc: Global,
    s: &Scope,
    locals: &Locals,
    w: &mut Work,
    line: u32,
    op: Operator,
    target: &PyExpr,
    e: &PyExpr,
    d: &mut Design,
) -> Result<GStmt, Fault<Code>>
    ensures { Does statement_of (spec.augment s.now locals.now w.old line op (ex_of target.now) (ex_of e.now) d.old) result w.new d.new }
{
    match name_in(target) {
        Some(t) => augment_name(alloc, s, locals, w, line, op, t, e, d),
        None => augment_part(alloc, s, locals, w, line, op, target, e, d),
    }
}

/// What is a number.
fn number(t: Boxed<Typed>) -> Result<Typed, Code>
    ensures { result ≡ spec.number t }
{
    if is_number(t.get().kind) {
        Ok(t.into_inner())
    } else {
        Err(Code::E10KindClash)
    }
}

/// A condition, which is a number.
#[tactic(auto, unfolding(crate::specs::Statements::condition))]
pub(crate) fn condition(
    alloc: Global,
    s: &Scope,
    locals: &Locals,
    w: &Work,
    e: &PyExpr,
    d: &mut Design,
) -> Result<Typed, Fault<Code>>
    ensures { Grows (spec.condition s.now locals.now w.now (ex_of e.now) d.old) result d.new }
{
    let t = part(alloc, s, locals, w, false, e, d)?;
    Ok(number(t)?)
}

/// `assert e`
#[tactic(auto, using(mh_design::proofs::Shapes::statements), unfolding(crate::specs::Statements::claim))]
pub(crate) fn claim(
    alloc: Global,
    s: &Scope,
    locals: &Locals,
    w: &Work,
    line: u32,
    e: &PyExpr,
    d: &mut Design,
) -> Result<GStmt, Fault<Code>>
    ensures { Reads statement_of (spec.claim s.now locals.now w.now line (ex_of e.now) d.old) result d.new }
{
    let t = condition(alloc, s, locals, w, e, d)?;
    Ok(GStmt::Assert { line, test: t.expr })
}

/// The bytes of a string.
#[tactic(auto, using(mh_consts::proofs::Values::values))]
fn text_of(v: &Const) -> Option<&Text>
    ensures { option_copied result ≡ spec.text_step (out-Const v.now) }
{
    match v {
        Const::Str(bytes) => Some(bytes),
        _ => None,
    }
}

/// The bytes of a string, or of a name of one.
#[tactic(auto, using(crate::proofs::ViewForms::views))]
fn text_in<'a>(s: &'a Scope, locals: &Locals, e: &'a PyExpr) -> Option<&'a Text>
    ensures { option_copied result ≡ spec.text_in s.now locals.now (ex_of e.now) }
{
    match e {
        PyExpr::Group(a) => text_in(s, locals, a.get()),
        PyExpr::Str(bytes) => Some(bytes),
        PyExpr::Name(t) => match outside(s, locals, t) {
            Some(v) => text_of(v),
            None => None,
        },
        PyExpr::Number(_)
        | PyExpr::True
        | PyExpr::False
        | PyExpr::None
        | PyExpr::Bracketed(_)
        | PyExpr::Tuple(_)
        | PyExpr::List(_)
        | PyExpr::Comprehension(_, _, _)
        | PyExpr::Not(_)
        | PyExpr::Unary(_, _)
        | PyExpr::Binary(_, _, _)
        | PyExpr::Attribute(_, _)
        | PyExpr::Call(_, _)
        | PyExpr::Index(_, _)
        | PyExpr::Slice(_, _, _)
        | PyExpr::Whole(_) => None,
    }
}

/// A number as a part of what is printed.
fn printed_number(t: Boxed<Typed>) -> Result<PrintPart, Code>
    ensures { result ≡ spec.printed_number t }
{
    match t.get().kind {
        ValueKind::Int => Ok(PrintPart::Number(t.into_inner().expr)),
        ValueKind::Bool | ValueKind::Bits(_) | ValueKind::Item(_) => Err(Code::E3BadArguments),
    }
}

/// A part of what is printed.
#[tactic(auto, using(mh_consts::proofs::Shapes::shapes))]
fn printed(
    alloc: Global,
    s: &Scope,
    locals: &Locals,
    w: &Work,
    a: &Argument,
    d: &mut Design,
) -> Result<PrintPart, Fault<Code>>
    ensures { Grows (spec.printed_as (spec.text_in s.now locals.now (part_of (given_of a.now))) (reading s.now locals.now w.now false (part_of (given_of a.now))) d.old) result d.new }
{
    match text_in(s, locals, &a.value) {
        Some(bytes) => Ok(PrintPart::Text(bytes.copy(alloc)?)),
        None => {
            let t = part(alloc, s, locals, w, false, &a.value, d)?;
            Ok(printed_number(t)?)
        }
    }
}

/// What is printed.
#[tactic(auto, using(crate::proofs::Rows::printing))]
fn all_printed(
    alloc: Global,
    s: &Scope,
    locals: &Locals,
    w: &Work,
    arguments: &[Argument],
    d: &mut Design,
) -> Result<Items<PrintPart>, Fault<Code>>
    ensures { Grows (spec.printed_onto s.now locals.now w.now [] (parts_of (map given_of arguments.now)) d.old) result d.new }
{
    let mut all = Items::new(alloc);
    for argument in arguments {
        let part = printed(alloc, s, locals, w, argument, d)?;
        all.push(part)?;
    }
    Ok(all)
}

/// A `print` of these parts, by whether all arguments are given by position.
#[tactic(auto, using(mh_design::proofs::Shapes::statements))]
fn print_of(line: u32, positional: bool, parts: Items<PrintPart>) -> Result<GStmt, Code>
    ensures { Becomes statement_of (spec.print_of line positional parts) result }
{
    if positional {
        Ok(GStmt::Print { line, parts })
    } else {
        Err(Code::E3BadArguments)
    }
}

/// `print(..)`
fn show(
    alloc: Global,
    s: &Scope,
    locals: &Locals,
    w: &Work,
    line: u32,
    arguments: &[Argument],
    d: &mut Design,
) -> Result<GStmt, Fault<Code>>
    ensures { Reads statement_of (spec.show s.now locals.now w.now line (keys_of (map given_of arguments.now)) (parts_of (map given_of arguments.now)) d.old) result d.new }
{
    let parts = all_printed(alloc, s, locals, w, arguments, d)?;
    Ok(print_of(line, all_positional(arguments), parts)?)
}

/// Whether a call is one of `print`.
fn is_print(c: Callee) -> bool
    ensures { result ≡ spec.is_print c }
{
    matches!(c, Callee::Known(Builtin::Print))
}

/// A call, by whether it is one of `print`.
fn show_if(
    alloc: Global,
    s: &Scope,
    locals: &Locals,
    w: &Work,
    line: u32,
    prints: bool,
    arguments: &[Argument],
    d: &mut Design,
) -> Result<Option<GStmt>, Fault<Code>>
    ensures { Reads (option_map statement_of) (spec.printing prints (spec.show s.now locals.now w.now line (keys_of (map given_of arguments.now)) (parts_of (map given_of arguments.now))) d.old) result d.new }
{
    if !prints {
        return Err(Fault::Broken(Code::E2NotElaborable));
    }
    let shown = show(alloc, s, locals, w, line, arguments, d)?;
    Ok(Some(shown))
}

/// A call by itself.
fn called_by_itself(
    alloc: Global,
    s: &Scope,
    locals: &Locals,
    w: &Work,
    line: u32,
    f: &PyExpr,
    arguments: &[Argument],
    d: &mut Design,
) -> Result<Option<GStmt>, Fault<Code>>
    ensures { Reads (option_map statement_of) (spec.by_itself_view s.now locals.now w.now line (Called (keys_of (map given_of arguments.now)) (ex_of f.now) (parts_of (map given_of arguments.now))) d.old) result d.new }
{
    let prints = is_print(callee_of(s, locals, f));
    show_if(alloc, s, locals, w, line, prints, arguments, d)
}

/// An expression by itself, by its form.
#[tactic(auto, using(crate::proofs::ViewForms::views))]
fn viewed_by_itself(
    alloc: Global,
    s: &Scope,
    locals: &Locals,
    w: &Work,
    line: u32,
    e: &PyExpr,
    d: &mut Design,
) -> Result<Option<GStmt>, Fault<Code>>
    ensures { Reads (option_map statement_of) (spec.by_itself_view s.now locals.now w.now line (view (ex_of e.now)) d.old) result d.new }
{
    match e {
        PyExpr::Group(a) => viewed_by_itself(alloc, s, locals, w, line, a.get(), d),
        PyExpr::Str(_) => Ok(None),
        PyExpr::Call(f, arguments) => {
            if is_method(f.get()) {
                Err(Fault::Broken(Code::E2NotElaborable))
            } else {
                called_by_itself(alloc, s, locals, w, line, f.get(), arguments.as_slice(), d)
            }
        }
        PyExpr::Name(_)
        | PyExpr::Number(_)
        | PyExpr::True
        | PyExpr::False
        | PyExpr::None
        | PyExpr::Bracketed(_)
        | PyExpr::Tuple(_)
        | PyExpr::List(_)
        | PyExpr::Comprehension(_, _, _)
        | PyExpr::Not(_)
        | PyExpr::Unary(_, _)
        | PyExpr::Binary(_, _, _)
        | PyExpr::Attribute(_, _)
        | PyExpr::Index(_, _)
        | PyExpr::Slice(_, _, _)
        | PyExpr::Whole(_) => Err(Fault::Broken(Code::E2NotElaborable)),
    }
}

/// An expression by itself.
#[tactic(auto, unfolding(crate::specs::Statements::by_itself))]
pub(crate) fn by_itself(
    alloc: Global,
    s: &Scope,
    locals: &Locals,
    w: &Work,
    line: u32,
    e: &PyExpr,
    d: &mut Design,
) -> Result<Option<GStmt>, Fault<Code>>
    ensures { Reads (option_map statement_of) (spec.by_itself s.now locals.now w.now line (ex_of e.now) d.old) result d.new }
{
    viewed_by_itself(alloc, s, locals, w, line, e, d)
}

/// `yield e`
#[tactic(auto, using(mh_design::proofs::Shapes::statements), unfolding(crate::specs::Statements::yields))]
pub(crate) fn yields(
    alloc: Global,
    s: &Scope,
    locals: &Locals,
    instance: bool,
    line: u32,
    e: &PyExpr,
) -> Result<GStmt, Fault<Code>>
    ensures { Tells statement_of (spec.yields s.now locals.now instance line (ex_of e.now)) result }
{
    if !instance {
        return Err(Fault::Broken(Code::E2NotElaborable));
    }
    let waits = yielded(alloc, s, locals, e)?;
    Ok(GStmt::Yield { line, waits })
}

/// Whether a call is one of `StopSimulation`.
fn is_stop(c: Callee) -> bool
    ensures { result ≡ spec.is_stop c }
{
    matches!(c, Callee::Known(Builtin::StopSimulation))
}

/// Whether there are no arguments.
fn has_none(arguments: &[Argument]) -> bool
    ensures { result ≡ spec.has_none (keys_of (map given_of arguments.now)) }
{
    match arguments {
        [] => true,
        [_, ..] => false,
    }
}

/// Whether an expression is `StopSimulation()`.
#[tactic(auto, using(crate::proofs::ViewForms::views))]
pub(crate) fn is_stop_call(s: &Scope, locals: &Locals, e: &PyExpr) -> bool
    ensures { result ≡ spec.is_stop_call s.now locals.now (ex_of e.now) }
{
    match e {
        PyExpr::Group(a) => is_stop_call(s, locals, a.get()),
        PyExpr::Call(f, arguments) => {
            !is_method(f.get())
                && has_none(arguments.as_slice())
                && is_stop(callee_of(s, locals, f.get()))
        }
        PyExpr::Name(_)
        | PyExpr::Number(_)
        | PyExpr::Str(_)
        | PyExpr::True
        | PyExpr::False
        | PyExpr::None
        | PyExpr::Bracketed(_)
        | PyExpr::Tuple(_)
        | PyExpr::List(_)
        | PyExpr::Comprehension(_, _, _)
        | PyExpr::Not(_)
        | PyExpr::Unary(_, _)
        | PyExpr::Binary(_, _, _)
        | PyExpr::Attribute(_, _)
        | PyExpr::Index(_, _)
        | PyExpr::Slice(_, _, _)
        | PyExpr::Whole(_) => false,
    }
}

/// Which way the numbers of a call go: none where it is no `range` and no `downrange`.
fn is_range(c: Callee) -> Option<bool>
    ensures { result ≡ spec.is_range c }
{
    match c {
        Callee::Known(Builtin::Range) => Some(false),
        Callee::Known(Builtin::Downrange) => Some(true),
        _ => None,
    }
}

/// The ends of a loop.
fn ends_of(down: bool, a: Boxed<Typed>, b: Boxed<Typed>, step: i128) -> Result<Ends, Code>
    ensures { result ≡ spec.ends_of down a b step }
{
    if !(is_number(a.get().kind) && is_number(b.get().kind)) {
        return Err(Code::E3BadArguments);
    }
    if step == 0 {
        return Err(Code::E4BadRange);
    }
    Ok(Ends {
        down,
        from: a.into_inner().expr,
        to: b.into_inner().expr,
        step,
    })
}

/// One end: up from 0, or down to 0.
fn one_end(
    alloc: Global,
    s: &Scope,
    locals: &Locals,
    w: &Work,
    down: bool,
    a: &Argument,
    d: &mut Design,
) -> Result<Ends, Fault<Code>>
    ensures { Grows (spec.one_end down (reading s.now locals.now w.now false (part_of (given_of a.now))) d.old) result d.new }
{
    let t = part_given(alloc, s, locals, w, a, d)?;
    let zero = Boxed::new(alloc, integer(GExpr::Integer(0)))?;
    if down {
        Ok(ends_of(down, t, zero, 1)?)
    } else {
        Ok(ends_of(down, zero, t, 1)?)
    }
}

/// Two ends.
fn two_ends(
    alloc: Global,
    s: &Scope,
    locals: &Locals,
    w: &Work,
    down: bool,
    a: &Argument,
    b: &Argument,
    d: &mut Design,
) -> Result<Ends, Fault<Code>>
    ensures { Grows (spec.two_ends down (reading s.now locals.now w.now false (part_of (given_of a.now))) (reading s.now locals.now w.now false (part_of (given_of b.now))) d.old) result d.new }
{
    let t = part_given(alloc, s, locals, w, a, d)?;
    let u = part_given(alloc, s, locals, w, b, d)?;
    Ok(ends_of(down, t, u, 1)?)
}

/// Two ends and a step, which is a constant.
fn ends_and_step(
    alloc: Global,
    s: &Scope,
    locals: &Locals,
    w: &Work,
    down: bool,
    a: &Argument,
    b: &Argument,
    step: &Argument,
    d: &mut Design,
) -> Result<Ends, Fault<Code>>
    ensures { Grows (spec.ends_and_step down (reading s.now locals.now w.now false (part_of (given_of a.now))) (reading s.now locals.now w.now false (part_of (given_of b.now))) (constant_number s.now locals.now (part_of (given_of step.now))) d.old) result d.new }
{
    let t = part_given(alloc, s, locals, w, a, d)?;
    let u = part_given(alloc, s, locals, w, b, d)?;
    let n = given_number(alloc, s, locals, step)?;
    Ok(ends_of(down, t, u, n)?)
}

/// Arguments of a `range` that don't fit, which are read before they are refused.
#[tactic(auto, using(crate::proofs::Rows::reading))]
fn misfit(
    alloc: Global,
    s: &Scope,
    locals: &Locals,
    w: &Work,
    arguments: &[Argument],
    d: &mut Design,
) -> Result<Ends, Fault<Code>>
    ensures { Grows (spec.misfit s.now locals.now w.now (parts_of (map given_of arguments.now)) d.old) result d.new }
{
    for argument in arguments {
        part_given(alloc, s, locals, w, argument, d)?;
    }
    Err(Fault::Broken(Code::E3BadArguments))
}

/// The ends that the arguments of a `range` or `downrange` give.
#[tactic(auto, using(crate::proofs::Counts::counts))]
fn ends_in(
    alloc: Global,
    s: &Scope,
    locals: &Locals,
    w: &Work,
    down: bool,
    arguments: &[Argument],
    d: &mut Design,
) -> Result<Ends, Fault<Code>>
    ensures { Grows (spec.ends_in s.now locals.now w.now down (parts_of (map given_of arguments.now)) d.old) result d.new }
{
    match arguments {
        [] => misfit(alloc, s, locals, w, arguments, d),
        [a] => one_end(alloc, s, locals, w, down, a, d),
        [a, b] => two_ends(alloc, s, locals, w, down, a, b, d),
        [from, to, step] => ends_and_step(alloc, s, locals, w, down, from, to, step, d),
        [_, _, _, _, ..] => misfit(alloc, s, locals, w, arguments, d),
    }
}

/// What a `for` goes over.
#[tactic(auto, using(crate::proofs::ViewForms::views))]
pub(crate) fn ends(
    alloc: Global,
    s: &Scope,
    locals: &Locals,
    w: &Work,
    e: &PyExpr,
    d: &mut Design,
) -> Result<Ends, Fault<Code>>
    ensures { Grows (spec.ends s.now locals.now w.now (ex_of e.now) d.old) result d.new }
{
    match e {
        PyExpr::Group(a) => ends(alloc, s, locals, w, a.get(), d),
        PyExpr::Call(f, arguments) => {
            if is_method(f.get()) {
                return Err(Fault::Broken(Code::E2NotElaborable));
            }
            match is_range(callee_of(s, locals, f.get())) {
                None => Err(Fault::Broken(Code::E2NotElaborable)),
                Some(down) => {
                    if all_positional(arguments.as_slice()) {
                        ends_in(alloc, s, locals, w, down, arguments.as_slice(), d)
                    } else {
                        misfit(alloc, s, locals, w, arguments.as_slice(), d)
                    }
                }
            }
        }
        PyExpr::Name(_)
        | PyExpr::Number(_)
        | PyExpr::Str(_)
        | PyExpr::True
        | PyExpr::False
        | PyExpr::None
        | PyExpr::Bracketed(_)
        | PyExpr::Tuple(_)
        | PyExpr::List(_)
        | PyExpr::Comprehension(_, _, _)
        | PyExpr::Not(_)
        | PyExpr::Unary(_, _)
        | PyExpr::Binary(_, _, _)
        | PyExpr::Attribute(_, _)
        | PyExpr::Index(_, _)
        | PyExpr::Slice(_, _, _)
        | PyExpr::Whole(_) => Err(Fault::Broken(Code::E2NotElaborable)),
    }
}
