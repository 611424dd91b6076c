// The locals of a body: the names that are assigned in it.
ghost use Rattle.std.specs.Prelude.{◌≡◌, map, OnOk};
ghost use Rattle.mh_consts.specs.Expression.{ex_of, exs};
ghost use Rattle.mh_consts.specs.Expression.{name_in as name_in_plain};
ghost use Rattle.std.specs.Option.{option_map};
ghost use Rattle.mh_lower.specs.Body.{line_of, lines, lines_if_any, choice_of};
ghost use Rattle.mh_lower.specs.Body.{choices as spec_choices};
ghost use Rattle.mh_lower.specs.Generators as spec;

use mh_consts::{Names, name_in};
use mh_exprs::Locals;
use mh_pytree::{Branch as Choice, PyExpr, PyStmt};
use mh_text::{Memory, Text};
use sqlite_items::Items;
use std::alloc::Global;

/// No locals.
pub fn no_locals(alloc: Global) -> Locals
    ensures { result ≡ spec.no_locals }
{
    Locals {
        names: Items::new(alloc),
        numbers: Names::new(alloc),
    }
}

/// A local more, where the name isn't one yet.
fn add(alloc: Global, locals: &mut Locals, t: &Text) -> Result<(), Memory>
    ensures { OnOk result (locals.new ≡ spec.with_local locals.old t.now) }
{
    if locals.numbers.find(t).is_some() {
        return Ok(());
    }
    let number = locals.names.len();
    if number >= 1 << 32 {
        return Err(Memory);
    }
    locals.numbers.bind(t.copy(alloc)?, number as u32)?;
    locals.names.push(t.copy(alloc)?)?;
    Ok(())
}

/// A local more, where an expression is a name.
fn add_name(alloc: Global, locals: &mut Locals, e: &PyExpr) -> Result<(), Memory>
    ensures { OnOk result (locals.new ≡ spec.with_name locals.old (name_in_plain (ex_of e.now))) }
{
    match name_in(e) {
        Some(t) => add(alloc, locals, t),
        None => Ok(()),
    }
}

/// The names among the items of a target.
fn add_names(alloc: Global, locals: &mut Locals, xs: &[PyExpr]) -> Result<(), Memory>
    ensures { OnOk result (locals.new ≡ spec.names_onto locals.old (exs (map ex_of xs.now))) }
{
    for e in xs {
        add_name(alloc, locals, e)?;
    }
    Ok(())
}

/// The names of a target: a name, or several in a tuple.
#[tactic(auto, using(crate::proofs::ViewForms::views))]
fn collect_target(alloc: Global, locals: &mut Locals, e: &PyExpr) -> Result<(), Memory>
    ensures { OnOk result (locals.new ≡ spec.target_onto locals.old (ex_of e.now)) }
{
    match e {
        PyExpr::Group(a) => collect_target(alloc, locals, a.get()),
        PyExpr::Name(t) => add(alloc, locals, t),
        PyExpr::Bracketed(items) => add_names(alloc, locals, items.as_slice()),
        PyExpr::Tuple(items) => add_names(alloc, locals, items.as_slice()),
        PyExpr::Number(_)
        | PyExpr::Str(_)
        | PyExpr::True
        | PyExpr::False
        | PyExpr::None
        | PyExpr::List(_)
        | PyExpr::Comprehension(_, _, _)
        | PyExpr::Not(_)
        | PyExpr::Unary(_, _)
        | PyExpr::Binary(_, _, _)
        | PyExpr::Attribute(_, _)
        | PyExpr::Call(_, _)
        | PyExpr::Index(_, _)
        | PyExpr::Slice(_, _, _)
        | PyExpr::Whole(_) => Ok(()),
    }
}

/// The statements of an `else`.
pub(crate) fn others(other: &Option<Items<PyStmt>>) -> &[PyStmt]
    ensures { lines (map line_of result.now) ≡ lines_if_any (option_map (map line_of) other.now) }
{
    match other {
        None => &[],
        Some(body) => body.as_slice(),
    }
}

/// The locals of a statement more.
#[cycle(collecting)]
#[tactic(auto, using(crate::proofs::BodyForms::bodies))]
fn collect(alloc: Global, locals: &mut Locals, x: &PyStmt) -> Result<(), Memory>
    ensures { OnOk result (locals.new ≡ spec.locals_in locals.old (line_of x.now)) }
{
    match x {
        PyStmt::Assign(_, target, _) => collect_target(alloc, locals, target),
        PyStmt::Augment(_, _, target, _) => add_name(alloc, locals, target),
        PyStmt::If(_, branches, other) => {
            collect_branches(alloc, locals, branches.as_slice())?;
            match other {
                None => Ok(()),
                Some(body) => collect_all(alloc, locals, body.as_slice()),
            }
        }
        PyStmt::For(_, t, _, body) => {
            add(alloc, locals, t)?;
            collect_all(alloc, locals, body.as_slice())
        }
        PyStmt::While(_, _, body) => collect_all(alloc, locals, body.as_slice()),
        PyStmt::Value(_, _)
        | PyStmt::Pass(_)
        | PyStmt::Break(_)
        | PyStmt::Continue(_)
        | PyStmt::Return(_, _)
        | PyStmt::Yield(_, _)
        | PyStmt::Raise(_, _)
        | PyStmt::Assert(_, _, _)
        | PyStmt::ImportAll(_)
        | PyStmt::Import(_, _)
        | PyStmt::Def(_) => Ok(()),
    }
}

/// The locals of statements more.
#[cycle(collecting)]
#[tactic(auto, using(crate::proofs::BodyForms::bodies))]
pub fn collect_all(alloc: Global, locals: &mut Locals, xs: &[PyStmt]) -> Result<(), Memory>
    ensures { OnOk result (locals.new ≡ spec.locals_in_lines locals.old (lines (map line_of xs.now))) }
{
    for x in xs {
        collect(alloc, locals, x)?;
    }
    Ok(())
}

/// The locals of a branch more.
#[cycle(collecting)]
#[tactic(auto, using(crate::proofs::BodyForms::bodies))]
fn collect_branch(alloc: Global, locals: &mut Locals, x: &Choice) -> Result<(), Memory>
    ensures { OnOk result (locals.new ≡ spec.locals_in_choice locals.old (choice_of x.now)) }
{
    collect_all(alloc, locals, x.body.as_slice())
}

/// The locals of the branches of an `if` more.
#[cycle(collecting)]
#[tactic(auto, using(crate::proofs::BodyForms::bodies))]
fn collect_branches(alloc: Global, locals: &mut Locals, xs: &[Choice]) -> Result<(), Memory>
    ensures { OnOk result (locals.new ≡ spec.locals_in_choices locals.old (spec_choices (map choice_of xs.now))) }
{
    for x in xs {
        collect_branch(alloc, locals, x)?;
    }
    Ok(())
}
