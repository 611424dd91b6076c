// What is called, and how, and what is indexed, in a generator.
ghost use Rattle.std.specs.Prelude.{◌≡◌, map, option_copied, Some, is_some};
ghost use Rattle.mh_consts.specs.Expression as plain;
ghost use Rattle.mh_consts.specs.declared.kinds.Const.{out-Const};
ghost use Rattle.mh_consts.specs.Expression.{ex_of, given_of, keys_of};
ghost use Rattle.mh_exprs.specs.Calls as spec;

use crate::constant::{is_local, outside};
use crate::locals::Locals;
use crate::names::{Callee, Form, Found, Plan};
use crate::operations::is_word;
use mh_consts::{Builtin, Const, Scope, all_positional, key_at, maker, name_in};
use mh_pytree::{Argument, PyExpr};
use mh_text::{Code, Text};

/// What a value is as what is called.
#[tactic(auto, using(mh_consts::proofs::Values::values))]
fn callee_in(v: &Const) -> Callee
    ensures { result ≡ spec.callee_step (out-Const v.now) }
{
    match v {
        Const::Builtin(b) => Callee::Known(*b),
        Const::Function(_) | Const::Signal(_, _) => Callee::Refused(Code::E2NotElaborable),
        _ => Callee::Refused(Code::E10KindClash),
    }
}

/// What a name is as what is called.
pub fn callee_named(s: &Scope, locals: &Locals, t: &Text) -> Callee
    ensures { result ≡ spec.callee_by s.now locals.now (Some t.now) }
{
    if is_local(locals, t) {
        return Callee::Refused(Code::E10KindClash);
    }
    match s.find(t) {
        Some(v) => callee_in(v),
        None => Callee::Refused(Code::E1UnknownName),
    }
}

/// What an expression is as what is called.
pub fn callee_of(s: &Scope, locals: &Locals, f: &PyExpr) -> Callee
    ensures { result ≡ spec.callee_of s.now locals.now (ex_of f.now) }
{
    match name_in(f) {
        Some(t) => callee_named(s, locals, t),
        None => Callee::Refused(Code::E10KindClash),
    }
}

/// Whether a call makes a bounded number.
pub fn is_maker(c: Callee) -> bool
    ensures { result ≡ spec.is_maker c }
{
    matches!(
        c,
        Callee::Known(Builtin::Intbv) | Callee::Known(Builtin::Modbv)
    )
}

/// The form of two names of arguments.
fn pair_form(a: &Text, b: &Text) -> Form
    ensures { result ≡ spec.pair_form a.now b.now }
{
    if is_word(a, b"min") && is_word(b, b"max") {
        Form::LowHigh
    } else if is_word(a, b"max") && is_word(b, b"min") {
        Form::HighLow
    } else {
        Form::Other
    }
}

/// The form of one argument.
fn one_form(first: Option<&Text>) -> Form
    ensures { result ≡ spec.one_form (option_copied first.entry) }
{
    match first {
        None => Form::Single,
        Some(_) => Form::Other,
    }
}

/// The form of three arguments.
fn three_form(first: Option<&Text>, second: Option<&Text>, third: Option<&Text>) -> Form
    ensures { result ≡ spec.three_form (option_copied first.entry) (option_copied second.entry) (option_copied third.entry) }
{
    match (first, second, third) {
        (None, Some(a), Some(b)) => pair_form(a, b),
        _ => Form::Other,
    }
}

/// How the arguments of a call are given.
pub fn form_of(arguments: &[Argument]) -> Form
    ensures { result ≡ spec.form_of (keys_of (map given_of arguments.now)) }
{
    if arguments.len() == 1 {
        return one_form(key_at(arguments, 0));
    }
    if arguments.len() != 3 {
        return Form::Other;
    }
    three_form(
        key_at(arguments, 0),
        key_at(arguments, 1),
        key_at(arguments, 2),
    )
}

/// Whether these are the arguments of a `concat`: one or more, by position.
fn is_row(arguments: &[Argument]) -> bool
    ensures { result ≡ spec.is_row (keys_of (map given_of arguments.now)) }
{
    if arguments.is_empty() {
        false
    } else {
        all_positional(arguments)
    }
}

/// The plan of a call that takes one argument.
fn once(plan: Plan, form: Form) -> Plan
    ensures { result ≡ spec.once plan form }
{
    match form {
        Form::Single => plan,
        Form::LowHigh | Form::HighLow | Form::Other => Plan::Misfit,
    }
}

/// The plan of `intbv` or `modbv`, of which those with bounds are no expressions here.
fn made(form: Form) -> Plan
    ensures { result ≡ spec.made form }
{
    match form {
        Form::Single => Plan::Unbounded,
        Form::LowHigh | Form::HighLow => Plan::Refused(Code::E2NotElaborable),
        Form::Other => Plan::Misfit,
    }
}

/// The plan of `concat`.
fn joins(arguments: &[Argument]) -> Plan
    ensures { result ≡ spec.joins (spec.is_row (keys_of (map given_of arguments.now))) }
{
    if is_row(arguments) {
        Plan::Row
    } else {
        Plan::Misfit
    }
}

/// The plan of `now`.
fn now(arguments: &[Argument]) -> Plan
    ensures { result ≡ spec.now (keys_of (map given_of arguments.now)) }
{
    if arguments.is_empty() {
        Plan::Now
    } else {
        Plan::Misfit
    }
}

/// What a call of a function that MyHDL or Python has reads.
fn plan_named(b: Builtin, arguments: &[Argument]) -> Plan
    ensures { result ≡ spec.plan_named b (keys_of (map given_of arguments.now)) }
{
    match b {
        Builtin::Len => once(Plan::Length, form_of(arguments)),
        Builtin::Int => once(Plan::Integer, form_of(arguments)),
        Builtin::Bool => once(Plan::Truth, form_of(arguments)),
        Builtin::Intbv => made(form_of(arguments)),
        Builtin::Modbv => made(form_of(arguments)),
        Builtin::Concat => joins(arguments),
        Builtin::Now => now(arguments),
        Builtin::Range => Plan::Refused(Code::E10KindClash),
        Builtin::Downrange => Plan::Refused(Code::E10KindClash),
        Builtin::Block
        | Builtin::Instance
        | Builtin::Instances
        | Builtin::Always
        | Builtin::AlwaysComb
        | Builtin::AlwaysSeq
        | Builtin::Signal
        | Builtin::ResetSignal
        | Builtin::Enum
        | Builtin::Delay
        | Builtin::StopSimulation
        | Builtin::Print => Plan::Refused(Code::E2NotElaborable),
    }
}

/// What a call reads, by what is called and how its arguments are given.
pub(crate) fn plan_of(c: Callee, arguments: &[Argument]) -> Plan
    ensures { result ≡ spec.plan_of c (keys_of (map given_of arguments.now)) }
{
    match c {
        Callee::Refused(code) => Plan::Refused(code),
        Callee::Known(b) => plan_named(b, arguments),
    }
}

/// What a name that isn't that of a local is bound to, of the expression that is a name.
pub fn outside_in<'a>(s: &'a Scope, locals: &Locals, a: &PyExpr) -> Option<&'a Const>
    ensures { option_copied result ≡ spec.outside_in s.now locals.now (ex_of a.now) }
{
    match name_in(a) {
        None => None,
        Some(t) => outside(s, locals, t),
    }
}

/// A list or a tuple that a value is.
#[tactic(auto, using(mh_consts::proofs::Values::values))]
fn collection_in(v: &Const) -> Found<'_>
    ensures { spec.found result ≡ spec.collection_step (out-Const v.now) }
{
    match v {
        Const::List(n) => Found::List(*n),
        Const::Tuple(items) => Found::Tuple(items.get().as_slice()),
        _ => Found::Neither,
    }
}

/// A list or a tuple from outside that an expression names.
pub(crate) fn collection<'a>(s: &'a Scope, locals: &Locals, a: &PyExpr) -> Found<'a>
    ensures { spec.found result ≡ spec.collection_of s.now locals.now (ex_of a.now) }
{
    match outside_in(s, locals, a) {
        None => Found::Neither,
        Some(v) => collection_in(v),
    }
}

/// Whether an expression is a call by a name, brackets left out.
pub fn is_named_call(e: &PyExpr) -> bool
    ensures { result ≡ is_some (plain.maker (ex_of e.now)) }
{
    maker(e).is_some()
}
