// The names that stand in the definition of a generator.
ghost use Rattle.std.specs.Prelude.{◌≡◌, ◌++◌, OnOk, map};
ghost use Rattle.mh_consts.specs.Expression.{ex_of, exs, given_of, parts_of};
ghost use Rattle.mh_elab.specs.Reads as spec;
ghost use Rattle.mh_elab.specs.Views.{texts};
ghost use Rattle.mh_lower.specs.Body as line;

use mh_pytree::{Argument, Branch, PyExpr, PyStmt};
use mh_text::{Memory, Text};

/// Adds the names in an expression, in order of text.
#[cycle(naming)]
#[tactic(auto, using(mh_consts::proofs::Forms::forms, crate::proofs::NameLaws::name_laws))]
fn name_expression<'t>(found: &mut Vec<&'t Text>, e: &'t PyExpr) -> Result<(), Memory>
    ensures { OnOk result (texts found.new.items ≡ texts found.old.items ++ spec.in_ex (ex_of e.now)) }
{
    match e {
        PyExpr::Name(t) => Ok(found.push(t)?),
        PyExpr::Number(_) | PyExpr::Str(_) | PyExpr::True | PyExpr::False | PyExpr::None => Ok(()),
        PyExpr::Group(a)
        | PyExpr::Not(a)
        | PyExpr::Unary(_, a)
        | PyExpr::Attribute(a, _)
        | PyExpr::Whole(a) => name_expression(found, a.get()),
        PyExpr::Bracketed(xs) | PyExpr::Tuple(xs) | PyExpr::List(xs) => {
            name_expressions(found, xs.as_slice())
        }
        PyExpr::Comprehension(a, _, b) | PyExpr::Binary(_, a, b) | PyExpr::Index(a, b) => {
            name_expression(found, a.get())?;
            name_expression(found, b.get())
        }
        PyExpr::Call(f, arguments) => {
            name_expression(found, f.get())?;
            name_arguments(found, arguments.as_slice())
        }
        PyExpr::Slice(a, b, c) => {
            name_expression(found, a.get())?;
            name_expression(found, b.get())?;
            match c {
                Some(c) => name_expression(found, c.get()),
                None => Ok(()),
            }
        }
    }
}

/// Adds the names in expressions, in order of text.
#[cycle(naming)]
#[tactic(auto, using(crate::proofs::NameLaws::name_laws))]
pub(crate) fn name_expressions<'t>(
    found: &mut Vec<&'t Text>,
    xs: &'t [PyExpr],
) -> Result<(), Memory>
    ensures { OnOk result (texts found.new.items ≡ texts found.old.items ++ spec.in_exs (exs (map ex_of xs.now))) }
{
    for e in xs {
        name_expression(found, e)?;
    }
    Ok(())
}

/// Adds the names in arguments, in order of text.
#[cycle(naming)]
#[tactic(auto, using(crate::proofs::NameLaws::name_laws))]
fn name_arguments<'t>(found: &mut Vec<&'t Text>, arguments: &'t [Argument]) -> Result<(), Memory>
    ensures { OnOk result (texts found.new.items ≡ texts found.old.items ++ spec.in_exs (parts_of (map given_of arguments.now))) }
{
    for argument in arguments {
        name_argument(found, argument)?;
    }
    Ok(())
}

/// Adds the names in an argument.
#[cycle(naming)]
#[tactic(auto, using(mh_consts::proofs::Shapes::shapes, crate::proofs::NameLaws::name_laws))]
fn name_argument<'t>(found: &mut Vec<&'t Text>, argument: &'t Argument) -> Result<(), Memory>
    ensures { OnOk result (texts found.new.items ≡ texts found.old.items ++ spec.in_ex (given_of argument.now).1) }
{
    name_expression(found, &argument.value)
}

/// Adds the names on both sides of an assignment.
#[tactic(auto, using(crate::proofs::NameLaws::name_laws))]
fn name_both<'t>(
    found: &mut Vec<&'t Text>,
    target: &'t PyExpr,
    value: &'t PyExpr,
) -> Result<(), Memory>
    ensures { OnOk result (texts found.new.items ≡ texts found.old.items ++ (spec.in_ex (ex_of target.now) ++ spec.in_ex (ex_of value.now))) }
{
    name_expression(found, target)?;
    name_expression(found, value)
}

/// Adds the names in a statement of a generator, in order of text.
#[cycle(body_naming)]
#[tactic(auto, using(mh_lower::proofs::BodyForms::bodies, crate::proofs::NameLaws::name_laws))]
fn name_statement<'t>(found: &mut Vec<&'t Text>, s: &'t PyStmt) -> Result<(), Memory>
    ensures { OnOk result (texts found.new.items ≡ texts found.old.items ++ spec.in_line (line.line_of s.now)) }
{
    match s {
        PyStmt::Value(_, e) | PyStmt::Yield(_, e) | PyStmt::Raise(_, e) | PyStmt::Assert(_, e, _) =>
            name_expression(found, e),
        PyStmt::Assign(_, target, e) | PyStmt::Augment(_, _, target, e) => {
            name_both(found, target, e)
        }
        PyStmt::If(_, branches, other) => {
            name_branches(found, branches.as_slice())?;
            match other {
                Some(body) => name_statements(found, body.as_slice()),
                None => Ok(()),
            }
        }
        PyStmt::For(_, _, e, body) | PyStmt::While(_, e, body) => {
            name_expression(found, e)?;
            name_statements(found, body.as_slice())
        }
        PyStmt::Pass(_)
        | PyStmt::Break(_)
        | PyStmt::Continue(_)
        | PyStmt::Return(_, _)
        | PyStmt::ImportAll(_)
        | PyStmt::Import(_, _)
        | PyStmt::Def(_) => Ok(()),
    }
}

/// Adds the names in statements of a generator, in order of text.
#[cycle(body_naming)]
#[tactic(auto, using(crate::proofs::NameLaws::name_laws))]
pub(crate) fn name_statements<'t>(
    found: &mut Vec<&'t Text>,
    body: &'t [PyStmt],
) -> Result<(), Memory>
    ensures { OnOk result (texts found.new.items ≡ texts found.old.items ++ spec.in_lines (line.lines (map line.line_of body.now))) }
{
    for s in body {
        name_statement(found, s)?;
    }
    Ok(())
}

/// Adds the names in the branches of an `if`, in order of text.
#[cycle(body_naming)]
#[tactic(auto, using(crate::proofs::NameLaws::name_laws))]
fn name_branches<'t>(found: &mut Vec<&'t Text>, branches: &'t [Branch]) -> Result<(), Memory>
    ensures { OnOk result (texts found.new.items ≡ texts found.old.items ++ spec.in_choices (line.choices (map line.choice_of branches.now))) }
{
    for branch in branches {
        name_branch(found, branch)?;
    }
    Ok(())
}

/// Adds the names in a branch.
#[cycle(body_naming)]
#[tactic(auto, using(mh_lower::proofs::BodyForms::bodies, crate::proofs::NameLaws::name_laws))]
fn name_branch<'t>(found: &mut Vec<&'t Text>, branch: &'t Branch) -> Result<(), Memory>
    ensures { OnOk result (texts found.new.items ≡ texts found.old.items ++ spec.in_choice (line.choice_of branch.now)) }
{
    name_expression(found, &branch.test)?;
    name_statements(found, branch.body.as_slice())
}
