// Which expressions of a generator are one constant.
ghost use Rattle.std.specs.Prelude.{◌≡◌, IfOk, map, option_copied};
ghost use Rattle.mh_text.specs.Faults.{Gives};
ghost use Rattle.mh_consts.specs.declared.kinds.Const.{out-Const};
ghost use Rattle.mh_consts.specs.Constant.{value as value_of};
ghost use Rattle.mh_consts.specs.Expression.{ex_of, given_of, parts_of, exs};
ghost use Rattle.mh_consts.specs.Expression as plain;
ghost use Rattle.mh_exprs.specs.Constant as spec;

use crate::locals::Locals;
use mh_consts::{Builtin, Const, Scope, is_method, is_plain, name_in, value};
use mh_pytree::{Argument, PyExpr};
use mh_text::{Code, Fault, Memory, Refusal, Text};
use std::alloc::Global;

/// Whether a name is that of a local.
pub fn is_local(locals: &Locals, t: &Text) -> bool
    ensures { result ≡ spec.is_local locals.now t.now }
{
    locals.numbers.find(t).is_some()
}

/// What a name that isn't that of a local is bound to.
pub fn outside<'a>(s: &'a Scope, locals: &Locals, t: &Text) -> Option<&'a Const>
    ensures { option_copied result ≡ spec.outside s.now locals.now t.now }
{
    if is_local(locals, t) { None } else { s.find(t) }
}

/// Whether a local stands in an expression.
#[cycle(locals)]
#[tactic(auto, using(crate::proofs::ConstantForms::local_forms))]
pub fn names_local(locals: &Locals, e: &PyExpr) -> bool
    ensures { result ≡ spec.names_local locals.now (ex_of e.now) }
{
    match e {
        PyExpr::Name(t) => is_local(locals, t),
        PyExpr::Number(_) | PyExpr::Str(_) | PyExpr::True | PyExpr::False | PyExpr::None => false,
        PyExpr::Group(a) => names_local(locals, a.get()),
        PyExpr::Bracketed(items) => name_locals(locals, items.as_slice()),
        PyExpr::Tuple(items) => name_locals(locals, items.as_slice()),
        PyExpr::List(items) => name_locals(locals, items.as_slice()),
        PyExpr::Comprehension(a, _, b) => {
            names_local(locals, a.get()) || names_local(locals, b.get())
        }
        PyExpr::Not(a) => names_local(locals, a.get()),
        PyExpr::Unary(_, a) => names_local(locals, a.get()),
        PyExpr::Binary(_, a, b) => names_local(locals, a.get()) || names_local(locals, b.get()),
        PyExpr::Attribute(a, _) => names_local(locals, a.get()),
        PyExpr::Call(f, arguments) => {
            names_local(locals, f.get()) || arguments_name_locals(locals, arguments.as_slice())
        }
        PyExpr::Index(a, b) => names_local(locals, a.get()) || names_local(locals, b.get()),
        PyExpr::Slice(a, b, c) => match c {
            None => names_local(locals, a.get()) || names_local(locals, b.get()),
            Some(c) => {
                names_local(locals, a.get())
                    || names_local(locals, b.get())
                    || names_local(locals, c.get())
            }
        },
        PyExpr::Whole(a) => names_local(locals, a.get()),
    }
}

/// Whether a local stands in one of these.
#[cycle(locals)]
#[tactic(auto, using(crate::proofs::ConstantForms::local_forms))]
fn name_locals(locals: &Locals, xs: &[PyExpr]) -> bool
    ensures { result ≡ spec.name_locals locals.now (exs (map ex_of xs.now)) }
{
    for e in xs {
        if names_local(locals, e) {
            return true;
        }
    }
    false
}

/// Whether a local stands in one of these arguments.
#[cycle(locals)]
fn arguments_name_locals(locals: &Locals, xs: &[Argument]) -> bool
    ensures { result ≡ spec.name_locals locals.now (parts_of (map given_of xs.now)) }
{
    for argument in xs {
        if argument_names_local(locals, argument) {
            return true;
        }
    }
    false
}

/// Whether a local stands in an argument.
#[cycle(locals)]
#[tactic(auto, using(mh_consts::proofs::Shapes::shapes))]
fn argument_names_local(locals: &Locals, argument: &Argument) -> bool
    ensures { result ≡ spec.names_local locals.now (plain.part_of (given_of argument.now)) }
{
    names_local(locals, &argument.value)
}

/// Whether a value is a constant of a generator.
#[tactic(auto, using(mh_consts::proofs::Values::values))]
fn is_constant_value(v: &Const) -> bool
    ensures { result ≡ spec.is_constant_step (out-Const v.now) }
{
    match v {
        Const::Int(_) | Const::Truth(_) | Const::Item(_, _) | Const::Bounded(_, _) => true,
        _ => false,
    }
}

/// Whether a name is that of such a constant.
fn names_constant(s: &Scope, locals: &Locals, t: &Text) -> bool
    ensures { result ≡ spec.is_constant_value (spec.outside s.now locals.now t.now) }
{
    match outside(s, locals, t) {
        Some(v) => is_constant_value(v),
        None => false,
    }
}

/// Whether a value is the function `len`.
#[tactic(auto, using(mh_consts::proofs::Values::values))]
fn is_len_value(v: &Const) -> bool
    ensures { result ≡ spec.is_len_step (out-Const v.now) }
{
    match v {
        Const::Builtin(Builtin::Len) => true,
        _ => false,
    }
}

/// Whether an expression is the name of the function `len`.
fn is_len(s: &Scope, f: &PyExpr) -> bool
    ensures { result ≡ spec.is_len s.now (ex_of f.now) }
{
    match name_in(f) {
        Some(t) => match s.find(t) {
            Some(v) => is_len_value(v),
            None => false,
        },
        None => false,
    }
}

/// The value of an expression, or why it has none.
pub fn known(alloc: Global, e: &PyExpr, s: &Scope) -> Result<Const, Fault<Code>>
    ensures { Gives (value_of s.now (ex_of e.now)) result }
{
    match value(alloc, e, s) {
        Ok(v) => Ok(v),
        Err(Refusal::At { code, .. }) => Err(Fault::Broken(code)),
        Err(Refusal::Memory) => Err(Fault::Memory),
    }
}

/// Whether only what elaboration knows is asked of something outside.
fn is_known(alloc: Global, s: &Scope, locals: &Locals, e: &PyExpr) -> Result<bool, Memory>
    ensures { IfOk result (λ b. b ≡ spec.is_known s.now locals.now (ex_of e.now)) }
{
    if names_local(locals, e) {
        return Ok(false);
    }
    match known(alloc, e, s) {
        Ok(v) => Ok(is_constant_value(&v)),
        Err(Fault::Broken(_)) => Ok(false),
        Err(Fault::Memory) => Err(Memory),
    }
}

/// Whether an expression is made of constants.
#[cycle(constant)]
#[tactic(auto, using(crate::proofs::ConstantForms::constant_forms))]
fn is_constant(alloc: Global, s: &Scope, locals: &Locals, e: &PyExpr) -> Result<bool, Memory>
    ensures { IfOk result (λ b. b ≡ spec.is_constant s.now locals.now (ex_of e.now)) }
{
    match e {
        PyExpr::Name(t) => Ok(names_constant(s, locals, t)),
        PyExpr::Number(_) | PyExpr::True | PyExpr::False => Ok(true),
        PyExpr::Str(_) | PyExpr::None => Ok(false),
        PyExpr::Group(a) => is_constant(alloc, s, locals, a.get()),
        PyExpr::Bracketed(_) | PyExpr::Tuple(_) | PyExpr::List(_) => Ok(false),
        PyExpr::Comprehension(_, _, _) => Ok(false),
        PyExpr::Not(a) => is_constant(alloc, s, locals, a.get()),
        PyExpr::Unary(_, a) => is_constant(alloc, s, locals, a.get()),
        PyExpr::Binary(_, a, b) => {
            if is_constant(alloc, s, locals, a.get())? {
                is_constant(alloc, s, locals, b.get())
            } else {
                Ok(false)
            }
        }
        PyExpr::Attribute(_, _) => is_known(alloc, s, locals, e),
        PyExpr::Call(f, arguments) => {
            if is_method(f.get()) {
                Ok(false)
            } else if is_len(s, f.get()) {
                is_known(alloc, s, locals, e)
            } else if names_local(locals, f.get()) {
                Ok(false)
            } else {
                are_constant(alloc, s, locals, arguments.as_slice())
            }
        }
        PyExpr::Index(a, b) => {
            if is_constant(alloc, s, locals, a.get())? {
                is_constant(alloc, s, locals, b.get())
            } else {
                Ok(false)
            }
        }
        PyExpr::Slice(a, b, c) => {
            if !is_constant(alloc, s, locals, a.get())? {
                return Ok(false);
            }
            match c {
                None => is_constant(alloc, s, locals, b.get()),
                Some(c) => {
                    if is_constant(alloc, s, locals, b.get())? {
                        is_constant(alloc, s, locals, c.get())
                    } else {
                        Ok(false)
                    }
                }
            }
        }
        PyExpr::Whole(_) => Ok(false),
    }
}

/// Whether all arguments are made of constants.
#[cycle(constant)]
fn are_constant(alloc: Global, s: &Scope, locals: &Locals, xs: &[Argument]) -> Result<bool, Memory>
    ensures { IfOk result (λ b. b ≡ spec.are_constant s.now locals.now (parts_of (map given_of xs.now))) }
{
    for argument in xs {
        if !is_constant_argument(alloc, s, locals, argument)? {
            return Ok(false);
        }
    }
    Ok(true)
}

/// Whether an argument is made of constants.
#[cycle(constant)]
#[tactic(auto, using(mh_consts::proofs::Shapes::shapes))]
fn is_constant_argument(
    alloc: Global,
    s: &Scope,
    locals: &Locals,
    argument: &Argument,
) -> Result<bool, Memory>
    ensures { IfOk result (λ b. b ≡ spec.is_constant s.now locals.now (plain.part_of (given_of argument.now))) }
{
    is_constant(alloc, s, locals, &argument.value)
}

/// Whether a whole expression is one constant.
pub fn folds(alloc: Global, s: &Scope, locals: &Locals, e: &PyExpr) -> Result<bool, Memory>
    ensures { IfOk result (λ b. b ≡ spec.folds s.now locals.now (ex_of e.now)) }
{
    if is_plain(e, s) {
        is_constant(alloc, s, locals, e)
    } else {
        Ok(false)
    }
}
