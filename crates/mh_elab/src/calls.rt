// Calls: of functions of the source, and of those that MyHDL or Python has.
ghost use Rattle.std.specs.Prelude.{◌≡◌, Some, map, slice_get, drop};
ghost use Rattle.mh_consts.specs.Expression as x;
ghost use Rattle.mh_consts.specs.Expression.{ex_of, given_of, keys_of};
ghost use Rattle.mh_consts.specs.declared.kinds.Const.{out-Const};
ghost use Rattle.mh_elab.specs.Frames.{kept, Leads};
ghost use Rattle.mh_elab.specs.Machine as spec;
ghost use Rattle.mh_world.specs.Heads as heads;
ghost use Rattle.mh_world.specs.View.{called_of, world};

use crate::waiting::{Control, Machine, Waiting, push};
use mh_consts::{Builtin, Const};
use mh_pytree::{Argument, PyExpr};
use mh_text::{Code, CodeAt, Fault};
use mh_world::{Called, refuse};
use sqlite_items::at;
use std::alloc::Global;

/// The values of the arguments: what comes after the function.
fn behind(values: &[Const]) -> &[Const]
    ensures { result.now ≡ drop 1 values.now }
{
    match values {
        [] => values,
        [_, rest @ ..] => rest,
    }
}

/// A call begins, if one more may be open.
#[tactic(auto, using(crate::proofs::TurnLaws::turns))]
fn enter_call<'a>(
    alloc: Global,
    m: &mut Machine<'a>,
    d: Called<'a>,
) -> Result<Control<'a>, Fault<CodeAt>>
    ensures { Leads (spec.enter_call m.old.line m.old.calls (called_of d.entry) (kept m.old) (world m.old.state)) result m.new }
{
    if m.calls == 0 {
        return refuse(Code::E8DepthLimit, m.line);
    }
    let caller = m.state.enter(alloc, &d)?;
    push(
        &mut m.frames,
        Waiting::Back(d.line, caller, m.line, m.calls),
    )?;
    m.calls -= 1;
    Ok(Control::Exec(false, d.body))
}

/// A function of the source is called.
fn call_function<'a>(
    alloc: Global,
    m: &mut Machine<'a>,
    i: u32,
    arguments: &[Argument],
    values: &[Const],
) -> Result<Control<'a>, Fault<CodeAt>>
    ensures { Leads (spec.call_function m.old.line m.old.calls i (keys_of (map given_of arguments.now)) values.now (kept m.old) (world m.old.state)) result m.new }
{
    let d = m.state.callee(alloc, m.line, i, arguments, values)?;
    enter_call(alloc, m, d)
}

/// A function that MyHDL or Python has is called.
fn call_builtin<'a>(
    alloc: Global,
    m: &mut Machine<'a>,
    e: &'a PyExpr,
    builtin: Builtin,
    arguments: &[Argument],
    values: &[Const],
) -> Result<Control<'a>, Fault<CodeAt>>
    requires { heads.head_in (ex_of e.now) ≡ Some (x.Call (keys_of (map given_of arguments.now))) }
    ensures { Leads (spec.to (heads.call_builtin m.old.line builtin (keys_of (map given_of arguments.now)) values.now (world m.old.state)) (λ v w. spec.Give m.old.line m.old.calls v (kept m.old) w)) result m.new }
{
    let v = m
        .state
        .call_builtin(alloc, m.line, e, builtin, arguments, values)?;
    Ok(Control::Give(v))
}

/// What is called: a function of the source, or one that MyHDL or Python has.
#[tactic(auto, using(crate::proofs::OperationLaws::called_values))]
fn call_value<'a>(
    alloc: Global,
    m: &mut Machine<'a>,
    e: &'a PyExpr,
    f: &Const,
    arguments: &[Argument],
    values: &[Const],
) -> Result<Control<'a>, Fault<CodeAt>>
    requires { heads.head_in (ex_of e.now) ≡ Some (x.Call (keys_of (map given_of arguments.now))) }
    ensures { Leads (spec.call_value m.old.line m.old.calls (keys_of (map given_of arguments.now)) values.now (out-Const f.now) (kept m.old) (world m.old.state)) result m.new }
{
    match f {
        Const::Function(i) => call_function(alloc, m, *i, arguments, behind(values)),
        Const::Builtin(b) => call_builtin(alloc, m, e, *b, arguments, values),
        Const::None
        | Const::Int(_)
        | Const::Truth(_)
        | Const::Str(_)
        | Const::Delay(_)
        | Const::EnumType(_, _)
        | Const::Item(_, _)
        | Const::Bounded(_, _)
        | Const::Signal(_, _)
        | Const::Edge(_, _)
        | Const::Range(_, _, _)
        | Const::List(_)
        | Const::Tuple(_)
        | Const::Instance(_)
        | Const::Generator(_) => refuse(Code::E10KindClash, m.line),
    }
}

/// A call: its first value is what is called.
pub(crate) fn call_first<'a>(
    alloc: Global,
    m: &mut Machine<'a>,
    e: &'a PyExpr,
    arguments: &[Argument],
    values: &[Const],
) -> Result<Control<'a>, Fault<CodeAt>>
    requires { heads.head_in (ex_of e.now) ≡ Some (x.Call (keys_of (map given_of arguments.now))) }
    ensures { Leads (spec.call_first m.old.line m.old.calls (keys_of (map given_of arguments.now)) values.now (slice_get values.now 0) (kept m.old) (world m.old.state)) result m.new }
{
    match at(values, 0) {
        None => refuse(Code::E10KindClash, m.line),
        Some(f) => call_value(alloc, m, e, f, arguments, values),
    }
}
