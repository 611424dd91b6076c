// The parts of what is evaluated, in order of text.
ghost use Rattle.std.specs.Prelude.{◌≡◌, IfOk, OnOk, map, option_copied};
ghost use Rattle.std.specs.Option.{option_map};
ghost use Rattle.mh_consts.specs.Expression as x;
ghost use Rattle.mh_consts.specs.Expression.{Exs, Keys, binary, called, ex_of, given_of, parts_of};
ghost use Rattle.mh_elab.specs.Elaboration.{read_parts, target_parts};
ghost use Rattle.mh_elab.specs.Machine.{part};
ghost use Rattle.mh_elab.specs.Views.{expression_at, exs_of, parts_in};
ghost use Rattle.mh_world.specs.Functions.{default_onto, defaults};
ghost use Rattle.mh_world.specs.Statements.{parameter_of, slice_parts, target_of};

use mh_pytree::{Argument, Operator, Param, PyExpr};
use mh_text::Memory;
use sqlite_items::{Boxed, at};
use std::alloc::Global;

/// Parts that are evaluated from left to right.
#[derive(Drop)]
pub(crate) enum Kids<'a> {
    Nothing,
    One(&'a PyExpr),
    Two(&'a PyExpr, &'a PyExpr),
    Three(&'a PyExpr, &'a PyExpr, &'a PyExpr),
    All(&'a [PyExpr]),
    /// What is called, or the base of a method, and the arguments.
    Behind(&'a PyExpr, &'a [Argument]),
    /// The default values of parameters.
    Defaults(Vec<&'a PyExpr>),
}

/// The parts of a slice.
fn of_slice<'a>(
    a: &'a Boxed<PyExpr>,
    b: &'a Boxed<PyExpr>,
    c: &'a Option<Boxed<PyExpr>>,
) -> Kids<'a>
    ensures { exs_of result ≡ slice_parts (ex_of a.now) (ex_of b.now) c.now }
{
    match c {
        Some(c) => Kids::Three(a.get(), b.get(), c.get()),
        None => Kids::Two(a.get(), b.get()),
    }
}

/// What is evaluated first of what is called: the base of a method, or the function.
#[tactic(auto, using(mh_consts::proofs::Forms::forms))]
fn base_of(f: &PyExpr) -> &PyExpr
    ensures { (keys : Keys) (args : Exs) → parts_in (called (ex_of f.now) keys args) ≡ x.More (ex_of result.now) args }
{
    match f {
        PyExpr::Attribute(a, _) => a.get(),
        PyExpr::Group(a) => base_of(a.get()),
        PyExpr::Slice(_, _, c) => match c {
            Some(_) => f,
            None => f,
        },
        PyExpr::Name(_)
        | PyExpr::Number(_)
        | PyExpr::Str(_)
        | PyExpr::True
        | PyExpr::False
        | PyExpr::None
        | PyExpr::Bracketed(_)
        | PyExpr::Tuple(_)
        | PyExpr::List(_)
        | PyExpr::Comprehension(_, _, _)
        | PyExpr::Not(_)
        | PyExpr::Unary(_, _)
        | PyExpr::Binary(_, _, _)
        | PyExpr::Call(_, _)
        | PyExpr::Index(_, _)
        | PyExpr::Whole(_) => f,
    }
}

/// The parts of an operation of two; `and` and `or` are none.
fn of_binary<'a>(operator: Operator, a: &'a PyExpr, b: &'a PyExpr) -> Kids<'a>
    ensures { exs_of result ≡ parts_in (binary operator (ex_of a.now) (ex_of b.now)) }
{
    match operator {
        Operator::Or | Operator::And => Kids::Nothing,
        Operator::Equal
        | Operator::NotEqual
        | Operator::Less
        | Operator::LessEqual
        | Operator::Greater
        | Operator::GreaterEqual
        | Operator::BitOr
        | Operator::BitXor
        | Operator::BitAnd
        | Operator::ShiftLeft
        | Operator::ShiftRight
        | Operator::Add
        | Operator::Subtract
        | Operator::Multiply
        | Operator::Divide
        | Operator::Remainder => Kids::Two(a, b),
    }
}

/// The parts of an operation; none of what is no operation.
#[tactic(auto, using(mh_consts::proofs::Forms::forms, crate::proofs::PartLaws::part_laws))]
pub(crate) fn of_expression<'a>(e: &'a PyExpr) -> Kids<'a>
    ensures { exs_of result ≡ parts_in (ex_of e.now) }
{
    match e {
        PyExpr::Name(_)
        | PyExpr::Number(_)
        | PyExpr::Str(_)
        | PyExpr::True
        | PyExpr::False
        | PyExpr::None
        | PyExpr::Comprehension(_, _, _) => Kids::Nothing,
        PyExpr::Group(a) => of_expression(a.get()),
        PyExpr::Bracketed(xs) | PyExpr::Tuple(xs) | PyExpr::List(xs) => Kids::All(xs.as_slice()),
        PyExpr::Not(a) | PyExpr::Unary(_, a) | PyExpr::Attribute(a, _) | PyExpr::Whole(a) => {
            Kids::One(a.get())
        }
        PyExpr::Binary(operator, a, b) => of_binary(*operator, a.get(), b.get()),
        PyExpr::Index(a, b) => Kids::Two(a.get(), b.get()),
        PyExpr::Call(f, arguments) => Kids::Behind(base_of(f.get()), arguments.as_slice()),
        PyExpr::Slice(a, b, c) => match c {
            Some(c) => Kids::Three(a.get(), b.get(), c.get()),
            None => Kids::Two(a.get(), b.get()),
        },
    }
}

/// The parts of a target, which are evaluated after the right side.
#[tactic(auto, using(crate::proofs::OutForms::target_forms))]
pub(crate) fn of_target<'a>(target: &'a PyExpr) -> Kids<'a>
    ensures { exs_of result ≡ target_parts (target_of target.now) }
{
    match target {
        PyExpr::Index(a, b) => Kids::Two(a.get(), b.get()),
        PyExpr::Slice(a, b, c) => of_slice(a, b, c),
        PyExpr::Whole(a) => Kids::One(a.get()),
        PyExpr::Attribute(a, name) => {
            if name.bytes() == b"next".as_slice() {
                Kids::One(a.get())
            } else {
                Kids::Nothing
            }
        }
        PyExpr::Name(_)
        | PyExpr::Number(_)
        | PyExpr::Str(_)
        | PyExpr::True
        | PyExpr::False
        | PyExpr::None
        | PyExpr::Group(_)
        | PyExpr::Bracketed(_)
        | PyExpr::Tuple(_)
        | PyExpr::List(_)
        | PyExpr::Comprehension(_, _, _)
        | PyExpr::Not(_)
        | PyExpr::Unary(_, _)
        | PyExpr::Binary(_, _, _)
        | PyExpr::Call(_, _) => Kids::Nothing,
    }
}

/// What is evaluated to read a target before an augmented assignment.
#[tactic(auto, using(crate::proofs::OutForms::target_forms))]
pub(crate) fn of_read<'a>(target: &'a PyExpr) -> Kids<'a>
    ensures { exs_of result ≡ read_parts (target_of target.now) (ex_of target.now) }
{
    match target {
        PyExpr::Name(_) => Kids::Nothing,
        PyExpr::Index(a, b) => Kids::Two(a.get(), b.get()),
        PyExpr::Number(_)
        | PyExpr::Str(_)
        | PyExpr::True
        | PyExpr::False
        | PyExpr::None
        | PyExpr::Group(_)
        | PyExpr::Bracketed(_)
        | PyExpr::Tuple(_)
        | PyExpr::List(_)
        | PyExpr::Comprehension(_, _, _)
        | PyExpr::Not(_)
        | PyExpr::Unary(_, _)
        | PyExpr::Binary(_, _, _)
        | PyExpr::Attribute(_, _)
        | PyExpr::Call(_, _)
        | PyExpr::Slice(_, _, _)
        | PyExpr::Whole(_) => Kids::One(target),
    }
}

/// The default value of a parameter, if it has one, after those of the parameters before it.
#[tactic(auto, using(crate::proofs::PartLaws::part_laws))]
fn add_default<'a>(values: &mut Vec<&'a PyExpr>, param: &'a Param) -> Result<(), Memory>
    ensures { OnOk result ((rest : Exs) → x.join (x.exs (map expression_at values.new.items)) rest ≡ x.join (x.exs (map expression_at values.old.items)) (default_onto (parameter_of param.now).1 rest)) }
{
    match &param.value {
        Some(e) => Ok(values.push(e)?),
        None => Ok(()),
    }
}

/// The default values of parameters.
#[tactic(auto, using(crate::proofs::PartLaws::part_laws))]
pub(crate) fn of_params<'a>(alloc: Global, params: &'a [Param]) -> Result<Kids<'a>, Memory>
    ensures { IfOk result (λ kids. exs_of kids ≡ defaults (map parameter_of params.now)) }
{
    let mut values = Vec::new(alloc);
    for param in params {
        add_default(&mut values, param)?;
    }
    Ok(Kids::Defaults(values))
}

/// The value of an argument at a place.
#[tactic(auto, using(crate::proofs::PartLaws::part_laws))]
fn argument_at(arguments: &[Argument], i: usize) -> Option<&PyExpr>
    ensures { option_map ex_of (option_copied result) ≡ part (parts_of (map given_of arguments.now)) i }
{
    match at(arguments, i) {
        Some(argument) => Some(&argument.value),
        None => None,
    }
}

/// The part at a place.
#[tactic(auto, using(crate::proofs::PartLaws::part_laws))]
pub(crate) fn part_at<'a>(kids: &Kids<'a>, i: usize) -> Option<&'a PyExpr>
    ensures { option_map ex_of (option_copied result) ≡ part (exs_of kids.now) i }
{
    match kids {
        Kids::Nothing => None,
        Kids::One(a) => if i == 0 { Some(*a) } else { None },
        Kids::Two(a, b) => if i == 0 {
            Some(*a)
        } else if i == 1 {
            Some(*b)
        } else {
            None
        },
        Kids::Three(a, b, c) => {
            if i == 0 {
                Some(*a)
            } else if i == 1 {
                Some(*b)
            } else if i == 2 {
                Some(*c)
            } else {
                None
            }
        }
        Kids::All(xs) => at(xs, i),
        Kids::Behind(f, arguments) => {
            if i == 0 {
                Some(*f)
            } else {
                argument_at(arguments, i - 1)
            }
        }
        Kids::Defaults(values) => match at(values.as_slice(), i) {
            Some(e) => Some(*e),
            None => None,
        },
    }
}
