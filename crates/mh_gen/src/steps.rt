// The statements of bodies as statements of flow.
ghost use Rattle.std.specs.Prelude.{◌≡◌, ◌+◌, map, IfOk, OnOk};
ghost use Rattle.mh_flow.specs.Flow as flow;
ghost use Rattle.mh_flat.specs.Body.{statement_of as flowing_step, block_of};
ghost use Rattle.mh_design.specs.Tree.{expression_of, left_of, statement_of, arm_of, block, arms};
ghost use Rattle.mh_design.specs.Tree as tree;
ghost use Rattle.mh_design.specs.declared.statement.Binding.TheVariants as binding;
ghost use Rattle.mh_design.specs.Bodies as spec;
ghost use Rattle.mh_gen.specs.Steps.{Puts, Makes, chain_of};

use crate::language::{Expression, LeftSide, MyHdl};
use mh_design::{Branch, GExpr, GStmt, Target};
use mh_flat::Step;
use mh_text::Memory;
use std::alloc::Global;

/// How far a body is made: the number of the next statement of the source, and how many statements
/// of flow there are.
#[derive(Clone, Copy)]
pub struct Reached {
    pub number: u32,
    pub count: u32,
}

/// A branch of an `if` that is made.
#[derive(Drop)]
pub struct Made<'a> {
    pub test: Expression<'a>,
    pub body: Vec<Step<MyHdl<'a>>>,
}

/// The next number. A body with 2^32 statements wants more memory than there is.
pub fn next(n: u32) -> Result<u32, Memory>
    ensures { IfOk result (λ m. m ≡ n + 1) }
{
    match n.checked_add(1) {
        Some(m) => Ok(m),
        None => Err(Memory),
    }
}

/// A choice between two blocks.
pub fn if_step<'a>(
    test: Expression<'a>,
    yes: Vec<Step<MyHdl<'a>>>,
    no: Vec<Step<MyHdl<'a>>>,
) -> Step<MyHdl<'a>>
    ensures { flowing_step result ≡ flow.IfStatement test.entry (block_of yes.entry.items) (block_of no.entry.items) }
{
    Step::If(test, yes, no)
}

/// A loop over a condition.
pub fn while_step<'a>(test: Expression<'a>, body: Vec<Step<MyHdl<'a>>>) -> Step<MyHdl<'a>>
    ensures { flowing_step result ≡ flow.WhileStatement test.entry (block_of body.entry.items) }
{
    Step::While(test, body)
}

/// A loop over numbers.
fn count_step<'a>(
    variable: LeftSide<'a>,
    from: Expression<'a>,
    to: Expression<'a>,
    by: Expression<'a>,
    body: Vec<Step<MyHdl<'a>>>,
) -> Step<MyHdl<'a>>
    ensures { flowing_step result ≡ flow.CountStatement variable.entry from.entry to.entry by.entry (block_of body.entry.items) }
{
    Step::Count(variable, from, to, by, body)
}

/// An assignment of the source.
fn set_step<'a>(target: &'a Target, value: &'a GExpr) -> Step<MyHdl<'a>>
    ensures { flowing_step result ≡ flow.SetStatement (left_of target.now) (expression_of value.now) }
{
    Step::Set(LeftSide::source(target), Expression::source(value))
}

/// An `assert` of the source.
fn check_step<'a>(test: &'a GExpr) -> Step<MyHdl<'a>>
    ensures { flowing_step result ≡ flow.CheckStatement (expression_of test.now) }
{
    Step::Check(Expression::source(test))
}

/// A `while` of the source.
fn while_of<'a>(test: &'a GExpr, body: Vec<Step<MyHdl<'a>>>) -> Step<MyHdl<'a>>
    ensures { flowing_step result ≡ flow.WhileStatement (expression_of test.now) (block_of body.entry.items) }
{
    while_step(Expression::source(test), body)
}

/// The head of a `for` of the source.
#[derive(Clone, Copy)]
pub struct Range<'a> {
    pub variable: u32,
    pub down: bool,
    pub from: &'a GExpr,
    pub to: &'a GExpr,
    pub step: &'a i128,
}

/// A `for` of the source.
fn count_of<'a>(range: Range<'a>, body: Vec<Step<MyHdl<'a>>>) -> Step<MyHdl<'a>>
    ensures { flowing_step result ≡ flow.CountStatement (tree.Bind range.entry.variable binding.Plain) (spec.end_of range.entry.down (expression_of range.entry.from.now)) (spec.end_of range.entry.down (expression_of range.entry.to.now)) (spec.step_of range.entry.down range.entry.step.now) (block_of body.entry.items) }
{
    let variable = LeftSide::variable(range.variable);
    let from = Expression::end(range.down, range.from);
    let to = Expression::end(range.down, range.to);
    let by = Expression::step(range.down, *range.step);
    count_step(variable, from, to, by, body)
}

/// Adds a statement of flow.
#[tactic(auto, using(crate::proofs::Making::push_laws))]
pub fn push<'a>(out: &mut Vec<Step<MyHdl<'a>>>, step: Step<MyHdl<'a>>) -> Result<(), Memory>
    ensures { OnOk result (block_of out.new.items ≡ spec.followed_by (block_of out.old.items) (spec.only (flowing_step step.entry))) }
{
    out.push(step)?;
    Ok(())
}

/// Adds statements of flow.
#[tactic(auto, using(crate::proofs::Making::push_laws))]
fn append<'a>(out: &mut Vec<Step<MyHdl<'a>>>, mut more: Vec<Step<MyHdl<'a>>>) -> Result<(), Memory>
    ensures { OnOk result (block_of out.new.items ≡ spec.followed_by (block_of out.old.items) (block_of more.entry.items)) }
{
    out.append(&mut more)?;
    Ok(())
}

/// Adds a statement that holds no others.
#[tactic(auto, using(crate::proofs::Making::size_laws))]
fn put_one<'a>(
    step: Step<MyHdl<'a>>,
    at: Reached,
    out: &mut Vec<Step<MyHdl<'a>>>,
) -> Result<Reached, Memory>
    requires { flow.size (flowing_step step) ≡ 1 }
    ensures { IfOk result (λ r. Puts out.old.items out.new.items at r (spec.only (flowing_step step.entry)) 1) }
{
    let number = next(at.number)?;
    let count = next(at.count)?;
    push(out, step)?;
    Ok(Reached { number, count })
}

/// Adds a statement that is none of the source and holds no others.
#[tactic(auto, using(crate::proofs::Making::size_laws))]
pub fn put_same<'a>(
    step: Step<MyHdl<'a>>,
    at: Reached,
    out: &mut Vec<Step<MyHdl<'a>>>,
) -> Result<Reached, Memory>
    requires { flow.size (flowing_step step) ≡ 1 }
    ensures { IfOk result (λ r. Puts out.old.items out.new.items at r (spec.only (flowing_step step.entry)) 0) }
{
    let count = next(at.count)?;
    push(out, step)?;
    Ok(Reached {
        number: at.number,
        count,
    })
}

/// Adds a statement of the source.
#[cycle(making)]
fn put_statement<'a>(
    alloc: Global,
    s: &'a GStmt,
    at: Reached,
    out: &mut Vec<Step<MyHdl<'a>>>,
) -> Result<Reached, Memory>
    ensures { IfOk result (λ r. Puts out.old.items out.new.items at r (spec.flowing at.number (statement_of s.now)) (spec.extent (statement_of s.now))) }
{
    match s {
        GStmt::Set { target, value, .. } => put_one(set_step(target, value), at, out),
        GStmt::If {
            branches,
            other,
            ..
        } => put_if(alloc, branches.as_slice(), other.as_slice(), at, out),
        GStmt::While { test, body, .. } => put_while(alloc, test, body.as_slice(), at, out),
        GStmt::For {
            variable,
            down,
            from,
            to,
            step,
            body,
            ..
        } => {
            let range = Range {
                variable: *variable,
                down: *down,
                from,
                to,
                step,
            };
            put_for(alloc, range, body.as_slice(), at, out)
        }
        GStmt::Break { .. } => put_one(Step::Break, at, out),
        GStmt::Continue { .. } => put_one(Step::Continue, at, out),
        GStmt::Yield { .. } => put_one(Step::Wait(at.number), at, out),
        GStmt::Print { .. } => put_one(Step::Say(at.number), at, out),
        GStmt::Assert { test, .. } => put_one(check_step(test), at, out),
        GStmt::Stop { .. } => put_one(Step::Stop, at, out),
    }
}

/// Adds a `while`.
#[cycle(making)]
fn put_while<'a>(
    alloc: Global,
    test: &'a GExpr,
    body: &'a [GStmt],
    at: Reached,
    out: &mut Vec<Step<MyHdl<'a>>>,
) -> Result<Reached, Memory>
    ensures { IfOk result (λ r. Puts out.old.items out.new.items at r (spec.only (flow.WhileStatement (expression_of test.now) (spec.block_flowing (at.number + 1) (block (map statement_of body.now))))) (1 + spec.block_extent (block (map statement_of body.now)))) }
{
    let number = next(at.number)?;
    let count = next(at.count)?;
    let mut inner = Vec::new(alloc);
    let end = put_block(alloc, body, Reached { number, count }, &mut inner)?;
    push(out, while_of(test, inner))?;
    Ok(end)
}

/// Adds a `for`.
#[cycle(making)]
fn put_for<'a>(
    alloc: Global,
    range: Range<'a>,
    body: &'a [GStmt],
    at: Reached,
    out: &mut Vec<Step<MyHdl<'a>>>,
) -> Result<Reached, Memory>
    ensures { IfOk result (λ r. Puts out.old.items out.new.items at r (spec.only (flow.CountStatement (tree.Bind range.entry.variable binding.Plain) (spec.end_of range.entry.down (expression_of range.entry.from.now)) (spec.end_of range.entry.down (expression_of range.entry.to.now)) (spec.step_of range.entry.down range.entry.step.now) (spec.block_flowing (at.number + 1) (block (map statement_of body.now))))) (1 + spec.block_extent (block (map statement_of body.now)))) }
{
    let number = next(at.number)?;
    let count = next(at.count)?;
    let mut inner = Vec::new(alloc);
    let end = put_block(alloc, body, Reached { number, count }, &mut inner)?;
    push(out, count_of(range, inner))?;
    Ok(end)
}

/// Adds an `if` with its `elif`s and its `else`.
#[cycle(making)]
fn put_if<'a>(
    alloc: Global,
    branches: &'a [Branch],
    other: &'a [GStmt],
    at: Reached,
    out: &mut Vec<Step<MyHdl<'a>>>,
) -> Result<Reached, Memory>
    ensures { IfOk result (λ r. Puts out.old.items out.new.items at r (spec.arms_flowing (at.number + 1) (arms (map arm_of branches.now)) (spec.block_flowing (at.number + 1 + spec.arms_extent (arms (map arm_of branches.now))) (block (map statement_of other.now)))) (1 + spec.arms_extent (arms (map arm_of branches.now)) + spec.block_extent (block (map statement_of other.now)))) }
{
    let number = next(at.number)?;
    let first = Reached {
        number,
        count: at.count,
    };
    let arms = make_arms(alloc, branches, first)?;
    let mut rest = Vec::new(alloc);
    let end = put_block(alloc, other, arms.reached, &mut rest)?;
    let chain = chained(alloc, arms.made, rest)?;
    append(out, chain)?;
    Ok(end)
}

/// The branches in a row, each in the other part of the one before it.
#[tactic(auto, using(crate::proofs::Making::chain_laws))]
fn chained<'a>(
    alloc: Global,
    mut made: Vec<Made<'a>>,
    mut rest: Vec<Step<MyHdl<'a>>>,
) -> Result<Vec<Step<MyHdl<'a>>>, Memory>
    ensures { IfOk result (λ v. block_of v.items ≡ chain_of made.entry.items (block_of rest.entry.items)) }
{
    while let Some(Made { test, body }) = made.pop() {
        let mut only = Vec::new(alloc);
        push(&mut only, if_step(test, body, rest))?;
        rest = only;
    }
    Ok(rest)
}

/// The branches of an `if` that are made, and how far the body is.
#[derive(Drop)]
pub struct AllMade<'a> {
    pub made: Vec<Made<'a>>,
    pub reached: Reached,
}

/// Makes the branches of an `if`.
#[cycle(making)]
fn make_arms<'a>(
    alloc: Global,
    branches: &'a [Branch],
    first: Reached,
) -> Result<AllMade<'a>, Memory>
    ensures { IfOk result (λ a. Makes a.made.items first a.reached (arms (map arm_of branches.now))) }
{
    let mut made = Vec::new(alloc);
    let mut at = first;
    for branch in branches {
        let count = next(at.count)?;
        let start = Reached {
            number: at.number,
            count,
        };
        let mut body = Vec::new(alloc);
        at = put_block(alloc, branch.body.as_slice(), start, &mut body)?;
        let test = Expression::source(&branch.test);
        made.push(Made { test, body })?;
    }
    Ok(AllMade { made, reached: at })
}

/// Adds statements of the source.
#[cycle(making)]
pub fn put_block<'a>(
    alloc: Global,
    body: &'a [GStmt],
    first: Reached,
    out: &mut Vec<Step<MyHdl<'a>>>,
) -> Result<Reached, Memory>
    ensures { IfOk result (λ r. Puts out.old.items out.new.items first r (spec.block_flowing first.number (block (map statement_of body.now))) (spec.block_extent (block (map statement_of body.now)))) }
{
    let mut at = first;
    for s in body {
        at = put_statement(alloc, s, at, out)?;
    }
    Ok(at)
}
