// What a `yield` and an `@always` wait for.
ghost use Rattle.std.specs.Prelude.{◌≡◌, [], map};
ghost use Rattle.mh_text.specs.Faults.{Gives};
ghost use Rattle.mh_consts.specs.declared.kinds.Const.{out-Const};
ghost use Rattle.mh_consts.specs.Expression.{ex_of, given_of, keys_of, part_of, parts_of, exs};
ghost use Rattle.mh_exprs.specs.Calls as calls;
ghost use Rattle.mh_lower.specs.Waits as spec;

use crate::given::given_number;
use mh_consts::{Builtin, Const, Scope, is_method, is_plain};
use mh_design::Wait;
use mh_exprs::{Callee, Form, Locals, callee_of, form_of, known, names_local};
use mh_pytree::{Argument, PyExpr};
use mh_text::{Code, Fault};
use sqlite_items::Items;
use std::alloc::Global;

/// A delay of 1 to 2^31 - 1.
fn delay(n: i128) -> Result<Wait, Code>
    ensures { result ≡ spec.delay n }
{
    if 1 <= n && n <= 2147483647 {
        Ok(Wait::Delay(n as u32))
    } else {
        Err(Code::E4BadRange)
    }
}

/// `delay(..)`
#[tactic(auto, using(mh_consts::proofs::Shapes::shapes))]
fn delay_call(
    alloc: Global,
    s: &Scope,
    locals: &Locals,
    arguments: &[Argument],
) -> Result<Wait, Fault<Code>>
    ensures { Gives (spec.delay_call s.now locals.now (calls.form_of (keys_of (map given_of arguments.now))) (parts_of (map given_of arguments.now))) result }
{
    match (form_of(arguments), arguments) {
        (Form::Single, [a]) => {
            let n = given_number(alloc, s, locals, a)?;
            Ok(delay(n)?)
        }
        _ => Err(Fault::Broken(Code::E3BadArguments)),
    }
}

/// A value of elaboration as what is waited for.
#[tactic(auto, using(mh_consts::proofs::Values::values))]
fn wait_of(v: &Const) -> Result<Wait, Code>
    ensures { result ≡ spec.held_wait_step (out-Const v.now) }
{
    match v {
        Const::Edge(n, rising) => Ok(Wait::Edge(*n, *rising)),
        Const::Signal(n, _) => Ok(Wait::Change(*n)),
        Const::Delay(n) => Ok(Wait::Delay(*n)),
        _ => Err(Code::E10KindClash),
    }
}

/// What elaboration knows as what is waited for.
fn held_wait(alloc: Global, s: &Scope, locals: &Locals, e: &PyExpr) -> Result<Wait, Fault<Code>>
    ensures { Gives (spec.held_wait s.now locals.now (ex_of e.now)) result }
{
    if names_local(locals, e) || !is_plain(e, s) {
        return Err(Fault::Broken(Code::E2NotElaborable));
    }
    let v = known(alloc, e, s)?;
    Ok(wait_of(&v)?)
}

/// Whether a call is one of `delay`.
fn is_delay(c: Callee) -> bool
    ensures { result ≡ spec.is_delay c }
{
    matches!(c, Callee::Known(Builtin::Delay))
}

/// What one expression waits for.
#[tactic(auto, using(crate::proofs::ViewForms::views))]
pub(crate) fn wait_for(
    alloc: Global,
    s: &Scope,
    locals: &Locals,
    e: &PyExpr,
) -> Result<Wait, Fault<Code>>
    ensures { Gives (spec.wait_for s.now locals.now (ex_of e.now)) result }
{
    match e {
        PyExpr::Group(a) => wait_for(alloc, s, locals, a.get()),
        PyExpr::Bracketed(_) | PyExpr::Tuple(_) => Err(Fault::Broken(Code::E2NotElaborable)),
        PyExpr::Call(f, arguments) => {
            if !is_method(f.get()) && is_delay(callee_of(s, locals, f.get())) {
                delay_call(alloc, s, locals, arguments.as_slice())
            } else {
                held_wait(alloc, s, locals, e)
            }
        }
        PyExpr::Name(_)
        | PyExpr::Number(_)
        | PyExpr::Str(_)
        | PyExpr::True
        | PyExpr::False
        | PyExpr::None
        | PyExpr::List(_)
        | PyExpr::Comprehension(_, _, _)
        | PyExpr::Not(_)
        | PyExpr::Unary(_, _)
        | PyExpr::Binary(_, _, _)
        | PyExpr::Attribute(_, _)
        | PyExpr::Index(_, _)
        | PyExpr::Slice(_, _, _)
        | PyExpr::Whole(_) => held_wait(alloc, s, locals, e),
    }
}

/// What several expressions wait for.
#[tactic(auto, using(crate::proofs::Rows::waiting))]
fn waits_for(
    alloc: Global,
    s: &Scope,
    locals: &Locals,
    xs: &[PyExpr],
) -> Result<Items<Wait>, Fault<Code>>
    ensures { Gives (spec.waits_onto s.now locals.now [] (exs (map ex_of xs.now))) result }
{
    let mut all = Items::new(alloc);
    for e in xs {
        let wait = wait_for(alloc, s, locals, e)?;
        all.push(wait)?;
    }
    Ok(all)
}

/// What an argument waits for.
#[tactic(auto, using(mh_consts::proofs::Shapes::shapes))]
pub(crate) fn wait_given(
    alloc: Global,
    s: &Scope,
    locals: &Locals,
    a: &Argument,
) -> Result<Wait, Fault<Code>>
    ensures { Gives (spec.wait_for s.now locals.now (part_of (given_of a.now))) result }
{
    wait_for(alloc, s, locals, &a.value)
}

/// What arguments wait for.
#[tactic(auto, using(crate::proofs::Rows::waiting))]
pub(crate) fn arguments_wait_for(
    alloc: Global,
    s: &Scope,
    locals: &Locals,
    xs: &[Argument],
) -> Result<Items<Wait>, Fault<Code>>
    ensures { Gives (spec.waits_onto s.now locals.now [] (parts_of (map given_of xs.now))) result }
{
    let mut all = Items::new(alloc);
    for argument in xs {
        let wait = wait_given(alloc, s, locals, argument)?;
        all.push(wait)?;
    }
    Ok(all)
}

/// What a tuple of a `yield` waits for, which isn't empty.
fn tuple_waits_for(
    alloc: Global,
    s: &Scope,
    locals: &Locals,
    xs: &[PyExpr],
) -> Result<Items<Wait>, Fault<Code>>
    ensures { Gives (spec.yielded_items s.now locals.now (exs (map ex_of xs.now))) result }
{
    if xs.is_empty() {
        return Err(Fault::Broken(Code::E2NotElaborable));
    }
    waits_for(alloc, s, locals, xs)
}

/// What a `yield` waits for.
#[tactic(auto, using(crate::proofs::ViewForms::views))]
pub(crate) fn yielded(
    alloc: Global,
    s: &Scope,
    locals: &Locals,
    e: &PyExpr,
) -> Result<Items<Wait>, Fault<Code>>
    ensures { Gives (spec.yielded s.now locals.now (ex_of e.now)) result }
{
    match e {
        PyExpr::Group(a) => yielded(alloc, s, locals, a.get()),
        PyExpr::Bracketed(items) => tuple_waits_for(alloc, s, locals, items.as_slice()),
        PyExpr::Tuple(items) => tuple_waits_for(alloc, s, locals, items.as_slice()),
        PyExpr::Name(_)
        | PyExpr::Number(_)
        | PyExpr::Str(_)
        | PyExpr::True
        | PyExpr::False
        | PyExpr::None
        | PyExpr::List(_)
        | PyExpr::Comprehension(_, _, _)
        | PyExpr::Not(_)
        | PyExpr::Unary(_, _)
        | PyExpr::Binary(_, _, _)
        | PyExpr::Attribute(_, _)
        | PyExpr::Call(_, _)
        | PyExpr::Index(_, _)
        | PyExpr::Slice(_, _, _)
        | PyExpr::Whole(_) => {
            let mut all = Items::new(alloc);
            all.push(wait_for(alloc, s, locals, e)?)?;
            Ok(all)
        }
    }
}
