// Which expressions are constant expressions.
ghost use Rattle.std.specs.Prelude.{◌≡◌, map};
ghost use Rattle.mh_consts.specs.declared.kinds.Const.{out-Const};
ghost use Rattle.mh_consts.specs.Expression.{ex_of, given_of, parts_of, exs};
ghost use Rattle.mh_consts.specs.Expression as plain;
ghost use Rattle.mh_consts.specs.Constant as spec;

use crate::evaluate::{attribute_in, name_in};
use crate::kinds::{Builtin, Const};
use crate::scope::Scope;
use mh_pytree::{Argument, PyExpr};

/// Whether a call of a function stands in constant expressions.
fn is_plain_builtin(b: Builtin) -> bool
    ensures { result ≡ spec.is_plain_builtin b }
{
    matches!(
        b,
        Builtin::Range
            | Builtin::Downrange
            | Builtin::Len
            | Builtin::Int
            | Builtin::Bool
            | Builtin::Intbv
            | Builtin::Modbv
    )
}

/// Whether a value is such a function.
#[tactic(auto, using(crate::proofs::Values::values))]
fn is_plain_function(v: &Const) -> bool
    ensures { result ≡ spec.is_plain_step (out-Const v.now) }
{
    match v {
        Const::Builtin(b) => is_plain_builtin(*b),
        _ => false,
    }
}

/// Whether an expression is a name that is bound to such a function.
fn names_plain(s: &Scope, f: &PyExpr) -> bool
    ensures { result ≡ spec.plain_name s.now (plain.name_in (ex_of f.now)) }
{
    match name_in(f) {
        None => false,
        Some(name) => match s.find(name) {
            None => false,
            Some(v) => is_plain_function(v),
        },
    }
}

/// Whether an expression is a constant expression: it makes no list, and each call in it is one of
/// `range`, `downrange`, `len`, `int`, `bool`, `intbv` and `modbv`, by a name that is bound to it.
/// Takes no memory.
#[cycle(plain)]
#[tactic(auto, using(crate::proofs::PlainForms::plain_forms))]
pub fn is_plain(e: &PyExpr, s: &Scope) -> bool
    ensures { result ≡ spec.is_plain s.now (ex_of e.now) }
{
    match e {
        PyExpr::Name(_)
        | PyExpr::Number(_)
        | PyExpr::Str(_)
        | PyExpr::True
        | PyExpr::False
        | PyExpr::None => true,
        PyExpr::Group(a) => is_plain(a.get(), s),
        PyExpr::Bracketed(items) => are_plain(items.as_slice(), s),
        PyExpr::Tuple(items) => are_plain(items.as_slice(), s),
        PyExpr::List(_) => false,
        PyExpr::Comprehension(_, _, _) => false,
        PyExpr::Not(a) => is_plain(a.get(), s),
        PyExpr::Unary(_, a) => is_plain(a.get(), s),
        PyExpr::Binary(_, a, b) => is_plain(a.get(), s) && is_plain(b.get(), s),
        PyExpr::Attribute(a, _) => is_plain(a.get(), s),
        PyExpr::Call(f, arguments) => {
            names_plain(s, f.get()) && are_plain_arguments(arguments.as_slice(), s)
        }
        PyExpr::Index(a, b) => is_plain(a.get(), s) && is_plain(b.get(), s),
        PyExpr::Slice(a, b, c) => {
            is_plain(a.get(), s)
                && is_plain(b.get(), s)
                && match c {
                    None => true,
                    Some(c) => is_plain(c.get(), s),
                }
        }
        PyExpr::Whole(a) => is_plain(a.get(), s),
    }
}

/// Whether all expressions are constant expressions.
#[cycle(plain)]
fn are_plain(xs: &[PyExpr], s: &Scope) -> bool
    ensures { result ≡ spec.are_plain s.now (exs (map ex_of xs.now)) }
{
    for e in xs {
        if !is_plain(e, s) {
            return false;
        }
    }
    true
}

/// Whether all arguments are constant expressions.
#[cycle(plain)]
fn are_plain_arguments(xs: &[Argument], s: &Scope) -> bool
    ensures { result ≡ spec.are_plain s.now (parts_of (map given_of xs.now)) }
{
    for argument in xs {
        if !is_plain_argument(argument, s) {
            return false;
        }
    }
    true
}

/// Whether an argument is a constant expression.
#[cycle(plain)]
#[tactic(auto, using(crate::proofs::Shapes::shapes))]
fn is_plain_argument(argument: &Argument, s: &Scope) -> bool
    ensures { result ≡ spec.is_plain s.now (plain.part_of (given_of argument.now)) }
{
    is_plain(&argument.value, s)
}
