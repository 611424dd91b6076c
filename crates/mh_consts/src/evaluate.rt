// The value of an expression, and of its outermost operation.
ghost use Rattle.std.specs.Prelude.{◌≡◌, [], ◌∷◌, ◌++◌, Ok, IfOk, is_some, map, option_copied};
ghost use Rattle.mh_text.specs.Faults.{Gives};
ghost use Rattle.mh_consts.specs.declared.kinds.Const.TheVariants as c;
ghost use Rattle.mh_consts.specs.Expression.{ex_of, given_of, parts_of, exs};
ghost use Rattle.mh_consts.specs.Expression as plain;
ghost use Rattle.mh_consts.specs.Outcome.{Answers, lent};
ghost use Rattle.mh_consts.specs.Outcome as outcome;
ghost use Rattle.mh_consts.specs.Constant as spec;
ghost use Rattle.mh_consts.specs.Operators as operators;
ghost use Rattle.mh_consts.specs.Places as places;
ghost use Rattle.mh_consts.specs.Steps as steps;

use crate::builtins::{called, form_of, read_signed};
use crate::kinds::{Builtin, Const};
use crate::numbers::truth;
use crate::operators::{negated, operated, signed};
use crate::places::{attribute, indexed, is, resized_by, sliced, sliced_from};
use crate::scope::Scope;
use crate::shared::Shared;
use mh_pytree::{Argument, Operator, PyExpr, Sign};
use mh_text::{Code, Fault, Memory, Refusal, Text};
use sqlite_items::{Items, at};
use std::alloc::Global;

/// The value of a part.
fn part(parts: &[Const], i: usize) -> Result<&Const, Code>
    ensures { lent result ≡ outcome.part parts.now i }
{
    match at(parts, i) {
        Some(v) => Ok(v),
        None => Err(Code::E10KindClash),
    }
}

/// A tuple of these items, which are moved into it.
fn tuple_of(alloc: Global, items: Items<Const>) -> Result<Const, Memory>
    ensures { IfOk result (λ v. v ≡ c.Tuple items) }
{
    Ok(Const::Tuple(Shared::new(alloc, items)?))
}

/// The same values once more.
fn copies(alloc: Global, parts: &[Const]) -> Result<Items<Const>, Memory>
    ensures { IfOk result (λ items. items ≡ parts.now) }
{
    let mut items = Items::new(alloc);
    for v in parts {
        items.push(v.copy(alloc)?)?;
    }
    Ok(items)
}

/// The name that an expression is, brackets left out.
#[tactic(auto, using(crate::proofs::Forms::forms))]
pub fn name_in(e: &PyExpr) -> Option<&Text>
    ensures { option_copied result ≡ plain.name_in (ex_of e.now) }
{
    match e {
        PyExpr::Name(name) => Some(name),
        PyExpr::Group(a) => name_in(a.get()),
        PyExpr::Number(_)
        | PyExpr::Str(_)
        | PyExpr::True
        | PyExpr::False
        | PyExpr::None
        | PyExpr::Bracketed(_)
        | PyExpr::Tuple(_)
        | PyExpr::List(_)
        | PyExpr::Comprehension(_, _, _)
        | PyExpr::Not(_)
        | PyExpr::Unary(_, _)
        | PyExpr::Binary(_, _, _)
        | PyExpr::Attribute(_, _)
        | PyExpr::Call(_, _)
        | PyExpr::Index(_, _)
        | PyExpr::Slice(_, _, _)
        | PyExpr::Whole(_) => None,
    }
}

/// The name of the attribute that an expression is, brackets left out.
#[tactic(auto, using(crate::proofs::Forms::forms))]
pub fn attribute_in(e: &PyExpr) -> Option<&Text>
    ensures { option_copied result ≡ plain.attribute_name (plain.attribute_in (ex_of e.now)) }
{
    match e {
        PyExpr::Attribute(_, name) => Some(name),
        PyExpr::Group(a) => attribute_in(a.get()),
        PyExpr::Name(_)
        | PyExpr::Number(_)
        | PyExpr::Str(_)
        | PyExpr::True
        | PyExpr::False
        | PyExpr::None
        | PyExpr::Bracketed(_)
        | PyExpr::Tuple(_)
        | PyExpr::List(_)
        | PyExpr::Comprehension(_, _, _)
        | PyExpr::Not(_)
        | PyExpr::Unary(_, _)
        | PyExpr::Binary(_, _, _)
        | PyExpr::Call(_, _)
        | PyExpr::Index(_, _)
        | PyExpr::Slice(_, _, _)
        | PyExpr::Whole(_) => None,
    }
}

/// Whether an expression is an attribute, brackets left out, so that a call of it is one of a method.
pub fn is_method(f: &PyExpr) -> bool
    ensures { result ≡ is_some (plain.attribute_in (ex_of f.now)) }
{
    attribute_in(f).is_some()
}

/// The name that an expression calls, brackets left out.
#[tactic(auto, using(crate::proofs::Forms::forms))]
pub fn maker(e: &PyExpr) -> Option<&Text>
    ensures { option_copied result ≡ plain.maker (ex_of e.now) }
{
    match e {
        PyExpr::Call(f, _) => match attribute_in(f.get()) {
            Some(_) => None,
            None => name_in(f.get()),
        },
        PyExpr::Group(a) => maker(a.get()),
        PyExpr::Name(_)
        | PyExpr::Number(_)
        | PyExpr::Str(_)
        | PyExpr::True
        | PyExpr::False
        | PyExpr::None
        | PyExpr::Bracketed(_)
        | PyExpr::Tuple(_)
        | PyExpr::List(_)
        | PyExpr::Comprehension(_, _, _)
        | PyExpr::Not(_)
        | PyExpr::Unary(_, _)
        | PyExpr::Binary(_, _, _)
        | PyExpr::Attribute(_, _)
        | PyExpr::Index(_, _)
        | PyExpr::Slice(_, _, _)
        | PyExpr::Whole(_) => None,
    }
}

/// `base.name(..)` of a constant.
fn method(name: &Text, arguments: &[Argument], v: &Const) -> Result<Const, Code>
    ensures { result ≡ spec.method name.now (plain.keys_of (map given_of arguments.now)) v.now }
{
    if !is(name, b"signed") {
        return Err(Code::E10KindClash);
    }
    let n = read_signed(v)?;
    if arguments.is_empty() {
        Ok(n)
    } else {
        Err(Code::E3BadArguments)
    }
}

/// An operator at the values of its parts. `and` and `or` have one part where the second isn't needed.
fn between(op: Operator, parts: &[Const]) -> Result<Const, Code>
    ensures { result ≡ spec.between op (outcome.part parts.now 0) (outcome.part parts.now 1) }
{
    let a = part(parts, 0)?;
    match op {
        Operator::And => if truth(a)? {
            truth_at(parts)
        } else {
            Ok(Const::Truth(false))
        },
        Operator::Or => if truth(a)? {
            Ok(Const::Truth(true))
        } else {
            truth_at(parts)
        },
        _ => operated(op, a, part(parts, 1)?),
    }
}

/// The truth of the second part.
fn truth_at(parts: &[Const]) -> Result<Const, Code>
    ensures { result ≡ outcome.after (outcome.part parts.now 1) spec.truth_value }
{
    let b = part(parts, 1)?;
    let u = truth(b)?;
    Ok(Const::Truth(u))
}

/// A call at the values of its parts.
fn call_at(s: &Scope, f: &PyExpr, arguments: &[Argument], parts: &[Const]) -> Result<Const, Code>
    ensures { result ≡ spec.called_at s.now (plain.attribute_in (ex_of f.now)) (plain.keys_of (map given_of arguments.now)) parts.now }
{
    let v = part(parts, 0)?;
    match attribute_in(f) {
        Some(name) => method(name, arguments, v),
        None => called(s, v, form_of(arguments), &parts[1..]),
    }
}

/// `base[upper:]` at the values of its parts.
fn slice_from_at(s: &Scope, base: &PyExpr, parts: &[Const]) -> Result<Const, Code>
    ensures { result ≡ spec.sliced_at s.now (plain.maker (ex_of base.now)) parts.now }
{
    let v = part(parts, 0)?;
    let upper = part(parts, 1)?;
    match maker(base) {
        Some(name) => resized_by(s.find(name), v, upper),
        None => sliced_from(v, upper),
    }
}

/// What is refused by a rule alone, as what may want memory too.
fn faulted(r: Result<Const, Code>) -> Result<Const, Fault<Code>>
    ensures { Gives r result }
{
    match r {
        Ok(v) => Ok(v),
        Err(code) => Err(Fault::Broken(code)),
    }
}

/// A tuple of the values of the parts.
fn tuple_at(alloc: Global, parts: &[Const]) -> Result<Const, Fault<Code>>
    ensures { Gives (Ok (c.Tuple parts.now)) result }
{
    Ok(tuple_of(alloc, copies(alloc, parts)?)?)
}

/// `not a` at the value of its part.
fn negated_at(parts: &[Const]) -> Result<Const, Code>
    ensures { result ≡ spec.with_one parts.now operators.negated }
{
    negated(part(parts, 0)?)
}

/// `-a`, `+a` or `~a` at the value of its part.
fn signed_at(sign: Sign, parts: &[Const]) -> Result<Const, Code>
    ensures { result ≡ spec.with_one parts.now (operators.signed sign) }
{
    signed(sign, part(parts, 0)?)
}

/// `a.name` at the value of its part.
fn attribute_at(name: &Text, parts: &[Const]) -> Result<Const, Code>
    ensures { result ≡ spec.with_one parts.now (places.attribute name.now) }
{
    attribute(name, part(parts, 0)?)
}

/// `base[i]` at the values of its parts.
fn index_at(alloc: Global, s: &Scope, parts: &[Const]) -> Result<Const, Fault<Code>>
    ensures { Gives (spec.with_two parts.now (places.indexed s.now)) result }
{
    indexed(alloc, s, part(parts, 0)?, part(parts, 1)?)
}

/// The outermost operation of an expression at the values of its parts.
#[tactic(auto, using(crate::proofs::Forms::operations))]
fn operate_at(alloc: Global, e: &PyExpr, parts: &[Const], s: &Scope) -> Result<Const, Fault<Code>>
    ensures { Gives (spec.operate s.now (ex_of e.now) parts.now) result }
{
    match e {
        PyExpr::Group(a) => operate_at(alloc, a.get(), parts, s),
        PyExpr::Bracketed(_) | PyExpr::Tuple(_) => tuple_at(alloc, parts),
        PyExpr::Not(_) => faulted(negated_at(parts)),
        PyExpr::Unary(sign, _) => faulted(signed_at(*sign, parts)),
        PyExpr::Binary(op, _, _) => faulted(between(*op, parts)),
        PyExpr::Attribute(_, name) => faulted(attribute_at(name, parts)),
        PyExpr::Call(f, arguments) => faulted(call_at(s, f.get(), arguments.as_slice(), parts)),
        PyExpr::Index(_, _) => index_at(alloc, s, parts),
        PyExpr::Slice(base, _, lower) => faulted(slice_at(s, base.get(), lower.is_some(), parts)),
        PyExpr::Whole(_) => Err(Fault::Broken(Code::E2NotElaborable)),
        PyExpr::Name(_)
        | PyExpr::Number(_)
        | PyExpr::Str(_)
        | PyExpr::True
        | PyExpr::False
        | PyExpr::None
        | PyExpr::List(_)
        | PyExpr::Comprehension(_, _, _) => Err(Fault::Broken(Code::E10KindClash)),
    }
}

/// `base[upper:lower]`, or `base[upper:]`, at the values of its parts.
fn slice_at(s: &Scope, base: &PyExpr, bounded: bool, parts: &[Const]) -> Result<Const, Code>
    ensures { result ≡ spec.slice_parts s.now (plain.maker (ex_of base.now)) bounded parts.now }
{
    if !bounded {
        return slice_from_at(s, base, parts);
    }
    let v = part(parts, 0)?;
    let upper = part(parts, 1)?;
    let lower = part(parts, 2)?;
    sliced(v, upper, lower)
}

/// What a name is bound to.
fn name_value(alloc: Global, s: &Scope, name: &Text) -> Result<Const, Fault<Code>>
    ensures { Gives (spec.name_value s.now name.now) result }
{
    match s.find(name) {
        Some(v) => Ok(v.copy(alloc)?),
        None => Err(Fault::Broken(Code::E1UnknownName)),
    }
}

/// A string.
fn text_value(alloc: Global, bytes: &Text) -> Result<Const, Fault<Code>>
    ensures { Gives (Ok (c.Str bytes.now)) result }
{
    Ok(Const::Str(bytes.copy(alloc)?))
}

/// One value as a list.
fn listed(alloc: Global, v: Const) -> Result<Items<Const>, Fault<Code>>
    ensures { Gives (Ok (v ∷ [])) result }
{
    let mut items = Items::new(alloc);
    items.push(v)?;
    Ok(items)
}

/// A list with one value more.
fn followed(items: Items<Const>, v: Const) -> Result<Items<Const>, Fault<Code>>
    ensures { Gives (Ok (items ++ v ∷ [])) result }
{
    let mut all = items;
    all.push(v)?;
    Ok(all)
}

/// A call at the values of its parts, as a value may fail.
fn call_value(
    s: &Scope,
    f: &PyExpr,
    arguments: &[Argument],
    parts: &[Const],
) -> Result<Const, Fault<Code>>
    ensures { Gives (spec.called_at s.now (plain.attribute_in (ex_of f.now)) (plain.keys_of (map given_of arguments.now)) parts.now) result }
{
    faulted(call_at(s, f, arguments, parts))
}

/// The value of an expression.
#[cycle(value)]
#[tactic(auto, using(crate::proofs::Forms::evaluations))]
fn value_at(alloc: Global, e: &PyExpr, s: &Scope) -> Result<Const, Fault<Code>>
    ensures { Gives (spec.value s.now (ex_of e.now)) result }
{
    match e {
        PyExpr::Name(name) => name_value(alloc, s, name),
        PyExpr::Number(n) => Ok(Const::Int(*n)),
        PyExpr::Str(bytes) => text_value(alloc, bytes),
        PyExpr::True => Ok(Const::Truth(true)),
        PyExpr::False => Ok(Const::Truth(false)),
        PyExpr::None => Ok(Const::None),
        PyExpr::Group(a) => value_at(alloc, a.get(), s),
        PyExpr::Bracketed(_) => operation_at(alloc, e, s),
        PyExpr::Tuple(_) => operation_at(alloc, e, s),
        PyExpr::List(_) => Err(Fault::Broken(Code::E10KindClash)),
        PyExpr::Comprehension(_, _, _) => Err(Fault::Broken(Code::E10KindClash)),
        PyExpr::Not(_) => operation_at(alloc, e, s),
        PyExpr::Unary(_, _) => operation_at(alloc, e, s),
        PyExpr::Binary(op, a, b) => {
            let first = listed(alloc, value_at(alloc, a.get(), s)?)?;
            match left_side(*op, first.as_slice())? {
                Some(all) => Ok(all),
                None => {
                    let both = followed(first, value_at(alloc, b.get(), s)?)?;
                    Ok(between(*op, both.as_slice())?)
                }
            }
        }
        PyExpr::Attribute(_, _) => operation_at(alloc, e, s),
        PyExpr::Call(f, arguments) => {
            if is_method(f.get()) {
                return Err(Fault::Broken(Code::E10KindClash));
            }
            let first = listed(alloc, value_at(alloc, f.get(), s)?)?;
            let parts = argument_values(alloc, arguments.as_slice(), first, s)?;
            call_value(s, f.get(), arguments.as_slice(), parts.as_slice())
        }
        PyExpr::Index(_, _) => operation_at(alloc, e, s),
        PyExpr::Slice(_, _, _) => operation_at(alloc, e, s),
        PyExpr::Whole(_) => operation_at(alloc, e, s),
    }
}

/// The value of an operation whose parts are all evaluated.
#[cycle(value)]
fn operation_at(alloc: Global, e: &PyExpr, s: &Scope) -> Result<Const, Fault<Code>>
    ensures { Gives (steps.operation s.now (ex_of e.now)) result }
{
    let parts = parts_at(alloc, e, s)?;
    operate_at(alloc, e, parts.as_slice(), s)
}

/// The values of the parts of an operation, from left to right.
#[cycle(value)]
#[tactic(auto, using(crate::proofs::Forms::parts))]
fn parts_at(alloc: Global, e: &PyExpr, s: &Scope) -> Result<Items<Const>, Fault<Code>>
    ensures { Gives (steps.parts_values s.now (steps.all_parts (ex_of e.now))) result }
{
    match e {
        PyExpr::Group(a) => parts_at(alloc, a.get(), s),
        PyExpr::Bracketed(items) => values(alloc, items.as_slice(), s),
        PyExpr::Tuple(items) => values(alloc, items.as_slice(), s),
        PyExpr::Not(a) => listed(alloc, value_at(alloc, a.get(), s)?),
        PyExpr::Unary(_, a) => listed(alloc, value_at(alloc, a.get(), s)?),
        PyExpr::Attribute(a, _) => listed(alloc, value_at(alloc, a.get(), s)?),
        PyExpr::Whole(a) => listed(alloc, value_at(alloc, a.get(), s)?),
        PyExpr::Index(a, b) => {
            let first = listed(alloc, value_at(alloc, a.get(), s)?)?;
            followed(first, value_at(alloc, b.get(), s)?)
        }
        PyExpr::Slice(a, b, c) => {
            let first = listed(alloc, value_at(alloc, a.get(), s)?)?;
            let both = followed(first, value_at(alloc, b.get(), s)?)?;
            match c {
                None => Ok(both),
                Some(c) => followed(both, value_at(alloc, c.get(), s)?),
            }
        }
        PyExpr::Name(_)
        | PyExpr::Number(_)
        | PyExpr::Str(_)
        | PyExpr::True
        | PyExpr::False
        | PyExpr::None
        | PyExpr::List(_)
        | PyExpr::Comprehension(_, _, _)
        | PyExpr::Binary(_, _, _)
        | PyExpr::Call(_, _) => Err(Fault::Broken(Code::E10KindClash)),
    }
}

/// The values of expressions, from left to right.
#[cycle(value)]
#[tactic(auto, using(crate::proofs::Rows::rows))]
fn values(alloc: Global, xs: &[PyExpr], s: &Scope) -> Result<Items<Const>, Fault<Code>>
    ensures { Gives (spec.values s.now (exs (map ex_of xs.now))) result }
{
    let mut items = Items::new(alloc);
    for e in xs {
        let v = value_at(alloc, e, s)?;
        items.push(v)?;
    }
    Ok(items)
}

/// These values, and then the values of arguments, from left to right.
#[cycle(value)]
#[tactic(auto, using(crate::proofs::Rows::given_rows))]
fn argument_values(
    alloc: Global,
    xs: &[Argument],
    first: Items<Const>,
    s: &Scope,
) -> Result<Items<Const>, Fault<Code>>
    ensures { Gives (steps.onto first (spec.values s.now (parts_of (map given_of xs.now)))) result }
{
    let mut items = first;
    for argument in xs {
        let v = argument_value(alloc, argument, s)?;
        items.push(v)?;
    }
    Ok(items)
}

/// The value of an argument.
#[cycle(value)]
#[tactic(auto, using(crate::proofs::Shapes::shapes))]
fn argument_value(alloc: Global, argument: &Argument, s: &Scope) -> Result<Const, Fault<Code>>
    ensures { Gives (spec.value s.now (plain.part_of (given_of argument.now))) result }
{
    value_at(alloc, &argument.value, s)
}

/// What an operator gives where its left side, the first part, decides it alone.
fn left_side(op: Operator, parts: &[Const]) -> Result<Option<Const>, Code>
    ensures { result ≡ steps.left_side op (outcome.part parts.now 0) }
{
    let v = part(parts, 0)?;
    match op {
        Operator::And => {
            let t = truth(v)?;
            Ok(if t { None } else { Some(Const::Truth(false)) })
        }
        Operator::Or => {
            let t = truth(v)?;
            Ok(if t { Some(Const::Truth(true)) } else { None })
        }
        _ => Ok(None),
    }
}

/// The value of a constant expression in a scope. Without a value the answer is the first rule that is
/// broken, parts taken from left to right, with line 0 and no names: the statement's line is put in by
/// the caller, who alone knows it. The expression is meant to be plain; of another the answer says
/// nothing of use, since what makes a list or calls a function of the source has no constant value.
pub fn value(alloc: Global, e: &PyExpr, s: &Scope) -> Result<Const, Refusal>
    ensures { Answers (spec.value s.now (ex_of e.now)) result }
{
    match value_at(alloc, e, s) {
        Ok(v) => Ok(v),
        Err(Fault::Broken(code)) => Err(Refusal::At {
            code,
            line: 0,
            names: Items::new(alloc),
        }),
        Err(Fault::Memory) => Err(Refusal::Memory),
    }
}

/// The value of the outermost operation of an expression (an operator, an attribute, an index, a slice,
/// a tuple, or a call of `range`, `downrange`, `len`, `int`, `bool`, `intbv`, `modbv`, `concat` or
/// `.signed()`) where its evaluated parts have these values, in order of text. `and` and `or` have one
/// part where the second isn't needed. What has no such operation, or lacks a part, is E10. Refusals
/// are as those of `value`.
pub fn operate(alloc: Global, e: &PyExpr, parts: &[Const], s: &Scope) -> Result<Const, Refusal>
    ensures { Answers (spec.operate s.now (ex_of e.now) parts.now) result }
{
    match operate_at(alloc, e, parts, s) {
        Ok(v) => Ok(v),
        Err(Fault::Broken(code)) => Err(Refusal::At {
            code,
            line: 0,
            names: Items::new(alloc),
        }),
        Err(Fault::Memory) => Err(Refusal::Memory),
    }
}
