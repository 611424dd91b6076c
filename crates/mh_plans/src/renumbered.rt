// A generator with the numbers of its design.
ghost use Rattle.std.specs.Prelude.{◌≡◌, map, IfOk};
ghost use Rattle.mh_design.specs.Tree.{Assert, LeftBit, LeftSlice, Print, Set, Yield, arm_of, arms, base_of, block, expression_of, left_of, printed_of, row, statement_of};
ghost use Rattle.mh_plans.specs.Renumbered as spec;
ghost use Rattle.mh_plans.specs.View.{chosen_of};

use crate::chosen::Chosen;
use mh_design::{Branch, GExpr, GStmt, GenKind, Place, PrintPart, Target, Wait};
use mh_text::Memory;
use sqlite_items::{Boxed, Items};
use std::alloc::Global;

/// The number of a signal in the design.
pub(crate) fn signal_in(k: &Chosen, n: u32) -> u32
    ensures { result ≡ spec.number_in (chosen_of k.now).signals n }
{
    k.signals.place(n)
}

/// The number of a memory in the design.
fn mem_in(k: &Chosen, m: u32) -> u32
    ensures { result ≡ spec.number_in (chosen_of k.now).mems m }
{
    k.mems.place(m)
}

/// The number of a table in the design.
fn table_in(k: &Chosen, t: u32) -> u32
    ensures { result ≡ spec.number_in (chosen_of k.now).tables t }
{
    k.tables.place(t)
}

/// A part of an expression.
#[cycle(expressions)]
fn part_in(alloc: Global, k: &Chosen, e: &GExpr) -> Result<Boxed<GExpr>, Memory>
    ensures { IfOk result (λ x. expression_of x ≡ spec.expression_in (chosen_of k.now) (expression_of e.now)) }
{
    Ok(Boxed::new(alloc, expression_in(alloc, k, e)?)?)
}

/// An expression.
#[cycle(expressions)]
#[tactic(auto, using(mh_design::proofs::Shapes::shapes))]
pub(crate) fn expression_in(alloc: Global, k: &Chosen, e: &GExpr) -> Result<GExpr, Memory>
    ensures { IfOk result (λ x. expression_of x ≡ spec.expression_in (chosen_of k.now) (expression_of e.now)) }
{
    match e {
        GExpr::Integer(z) => Ok(GExpr::Integer(*z)),
        GExpr::Truth(b) => Ok(GExpr::Truth(*b)),
        GExpr::Item(n, i) => Ok(GExpr::Item(*n, *i)),
        GExpr::Fixed(z, b) => Ok(GExpr::Fixed(*z, *b)),
        GExpr::Signal(n) => Ok(GExpr::Signal(signal_in(k, *n))),
        GExpr::Local(v) => Ok(GExpr::Local(*v)),
        GExpr::Element(m, i) => Ok(GExpr::Element(mem_in(k, *m), part_in(alloc, k, i.get())?)),
        GExpr::TableElement(t, i) => Ok(GExpr::TableElement(
            table_in(k, *t),
            part_in(alloc, k, i.get())?,
        )),
        GExpr::Bit(a, i) => {
            let x = part_in(alloc, k, a.get())?;
            Ok(GExpr::Bit(x, part_in(alloc, k, i.get())?))
        }
        GExpr::Slice(a, i, j) => {
            let x = part_in(alloc, k, a.get())?;
            let y = part_in(alloc, k, i.get())?;
            Ok(GExpr::Slice(x, y, part_in(alloc, k, j.get())?))
        }
        GExpr::Unary(op, a) => Ok(GExpr::Unary(*op, part_in(alloc, k, a.get())?)),
        GExpr::Binary(op, a, b) => {
            let x = part_in(alloc, k, a.get())?;
            Ok(GExpr::Binary(*op, x, part_in(alloc, k, b.get())?))
        }
        GExpr::And(a, b) => {
            let x = part_in(alloc, k, a.get())?;
            Ok(GExpr::And(x, part_in(alloc, k, b.get())?))
        }
        GExpr::Or(a, b) => {
            let x = part_in(alloc, k, a.get())?;
            Ok(GExpr::Or(x, part_in(alloc, k, b.get())?))
        }
        GExpr::Concat(parts) => Ok(GExpr::Concat(parts_in(alloc, k, parts.as_slice())?)),
        GExpr::Signed(a) => Ok(GExpr::Signed(part_in(alloc, k, a.get())?)),
        GExpr::Int(a) => Ok(GExpr::Int(part_in(alloc, k, a.get())?)),
        GExpr::Bool(a) => Ok(GExpr::Bool(part_in(alloc, k, a.get())?)),
        GExpr::Now => Ok(GExpr::Now),
    }
}

/// Expressions.
#[cycle(expressions)]
#[tactic(auto, using(crate::proofs::RowLaws::row_laws))]
fn parts_in(alloc: Global, k: &Chosen, parts: &[GExpr]) -> Result<Items<GExpr>, Memory>
    ensures { IfOk result (λ xs. row (map expression_of xs) ≡ spec.expressions_in (chosen_of k.now) (row (map expression_of parts.now))) }
{
    let mut all = Items::new(alloc);
    for part in parts {
        all.push(expression_in(alloc, k, part)?)?;
    }
    Ok(all)
}

/// What an assignment assigns.
#[tactic(auto, using(mh_design::proofs::Shapes::shapes))]
fn place_of(alloc: Global, k: &Chosen, p: &Place) -> Result<Place, Memory>
    ensures { IfOk result (λ x. base_of x ≡ spec.base_in (chosen_of k.now) (base_of p.now)) }
{
    match p {
        Place::Signal(n) => Ok(Place::Signal(signal_in(k, *n))),
        Place::Element(m, i) => Ok(Place::Element(mem_in(k, *m), expression_in(alloc, k, i)?)),
        Place::Local(v) => Ok(Place::Local(*v)),
    }
}

/// A bit of what an assignment assigns.
#[tactic(auto, using(mh_design::proofs::Shapes::shapes))]
fn bit_in(alloc: Global, k: &Chosen, p: &Place, i: &GExpr) -> Result<Target, Memory>
    ensures { IfOk result (λ x. left_of x ≡ LeftBit (spec.base_in (chosen_of k.now) (base_of p.now)) (spec.expression_in (chosen_of k.now) (expression_of i.now))) }
{
    let base = place_of(alloc, k, p)?;
    let index = expression_in(alloc, k, i)?;
    Ok(Target::Bit(base, index))
}

/// A slice of what an assignment assigns.
#[tactic(auto, using(mh_design::proofs::Shapes::shapes))]
fn slice_in(alloc: Global, k: &Chosen, p: &Place, i: &GExpr, j: &GExpr) -> Result<Target, Memory>
    ensures { IfOk result (λ x. left_of x ≡ LeftSlice (spec.base_in (chosen_of k.now) (base_of p.now)) (spec.expression_in (chosen_of k.now) (expression_of i.now)) (spec.expression_in (chosen_of k.now) (expression_of j.now))) }
{
    let base = place_of(alloc, k, p)?;
    let upper = expression_in(alloc, k, i)?;
    let lower = expression_in(alloc, k, j)?;
    Ok(Target::Slice(base, upper, lower))
}

/// The left side of an assignment.
fn target_in(alloc: Global, k: &Chosen, t: &Target) -> Result<Target, Memory>
    ensures { IfOk result (λ x. left_of x ≡ spec.left_in (chosen_of k.now) (left_of t.now)) }
{
    match t {
        Target::Whole(p) => Ok(Target::Whole(place_of(alloc, k, p)?)),
        Target::Bit(p, i) => bit_in(alloc, k, p, i),
        Target::Slice(p, i, j) => slice_in(alloc, k, p, i, j),
        Target::Bind(v, binding) => Ok(Target::Bind(*v, *binding)),
    }
}

/// A part of what is printed.
#[tactic(auto, using(mh_design::proofs::Shapes::shapes))]
fn printed_in(alloc: Global, k: &Chosen, part: &PrintPart) -> Result<PrintPart, Memory>
    ensures { IfOk result (λ x. printed_of x ≡ spec.printed_in (chosen_of k.now) (printed_of part.now)) }
{
    match part {
        PrintPart::Text(t) => Ok(PrintPart::Text(t.copy(alloc)?)),
        PrintPart::Number(e) => Ok(PrintPart::Number(expression_in(alloc, k, e)?)),
    }
}

/// What is printed.
#[tactic(auto, using(crate::proofs::RowLaws::row_laws))]
fn all_printed_in(
    alloc: Global,
    k: &Chosen,
    parts: &[PrintPart],
) -> Result<Items<PrintPart>, Memory>
    ensures { IfOk result (λ xs. map printed_of xs ≡ map (spec.printed_in (chosen_of k.now)) (map printed_of parts.now)) }
{
    let mut all = Items::new(alloc);
    for part in parts {
        all.push(printed_in(alloc, k, part)?)?;
    }
    Ok(all)
}

/// What is waited for.
fn wait_in(k: &Chosen, w: Wait) -> Wait
    ensures { result ≡ spec.wait_in (chosen_of k.now) w }
{
    match w {
        Wait::Change(n) => Wait::Change(signal_in(k, n)),
        Wait::Edge(n, up) => Wait::Edge(signal_in(k, n), up),
        Wait::Delay(n) => Wait::Delay(n),
    }
}

/// All that is waited for.
#[tactic(auto, using(crate::proofs::RowLaws::row_laws))]
fn waits_in(alloc: Global, k: &Chosen, ws: &[Wait]) -> Result<Items<Wait>, Memory>
    ensures { IfOk result (λ xs. xs ≡ map (spec.wait_in (chosen_of k.now)) ws.now) }
{
    let mut all = Items::new(alloc);
    for w in ws {
        all.push(wait_in(k, *w))?;
    }
    Ok(all)
}

/// An assignment.
#[tactic(auto, using(mh_design::proofs::Shapes::statements))]
fn set_in(alloc: Global, k: &Chosen, line: u32, t: &Target, e: &GExpr) -> Result<GStmt, Memory>
    ensures { IfOk result (λ x. statement_of x ≡ spec.statement_in (chosen_of k.now) (Set line (left_of t.now) (expression_of e.now))) }
{
    let target = target_in(alloc, k, t)?;
    let value = expression_in(alloc, k, e)?;
    Ok(GStmt::Set {
        line,
        target,
        value,
    })
}

/// A `yield`.
#[tactic(auto, using(mh_design::proofs::Shapes::statements))]
fn yield_in(alloc: Global, k: &Chosen, line: u32, ws: &[Wait]) -> Result<GStmt, Memory>
    ensures { IfOk result (λ x. statement_of x ≡ spec.statement_in (chosen_of k.now) (Yield line ws.now)) }
{
    let waits = waits_in(alloc, k, ws)?;
    Ok(GStmt::Yield { line, waits })
}

/// A `print`.
#[tactic(auto, using(mh_design::proofs::Shapes::statements))]
fn print_in(alloc: Global, k: &Chosen, line: u32, printed: &[PrintPart]) -> Result<GStmt, Memory>
    ensures { IfOk result (λ x. statement_of x ≡ spec.statement_in (chosen_of k.now) (Print line (map printed_of printed.now))) }
{
    let parts = all_printed_in(alloc, k, printed)?;
    Ok(GStmt::Print { line, parts })
}

/// An `assert`.
#[tactic(auto, using(mh_design::proofs::Shapes::statements))]
fn assert_in(alloc: Global, k: &Chosen, line: u32, e: &GExpr) -> Result<GStmt, Memory>
    ensures { IfOk result (λ x. statement_of x ≡ spec.statement_in (chosen_of k.now) (Assert line (expression_of e.now))) }
{
    let test = expression_in(alloc, k, e)?;
    Ok(GStmt::Assert { line, test })
}

/// A statement.
#[cycle(statements)]
#[tactic(auto, using(mh_design::proofs::Shapes::statements))]
fn statement_in(alloc: Global, k: &Chosen, s: &GStmt) -> Result<GStmt, Memory>
    ensures { IfOk result (λ x. statement_of x ≡ spec.statement_in (chosen_of k.now) (statement_of s.now)) }
{
    match s {
        GStmt::Set {
            line,
            target,
            value,
        } => set_in(alloc, k, *line, target, value),
        GStmt::If {
            line,
            branches,
            other,
        } => {
            let branches = branches_in(alloc, k, branches.as_slice())?;
            let other = block_in(alloc, k, other.as_slice())?;
            Ok(GStmt::If {
                line: *line,
                branches,
                other,
            })
        }
        GStmt::While { line, test, body } => {
            let test = expression_in(alloc, k, test)?;
            let body = block_in(alloc, k, body.as_slice())?;
            Ok(GStmt::While {
                line: *line,
                test,
                body,
            })
        }
        GStmt::For {
            line,
            variable,
            down,
            from,
            to,
            step,
            body,
        } => {
            let from = expression_in(alloc, k, from)?;
            let to = expression_in(alloc, k, to)?;
            Ok(GStmt::For {
                line: *line,
                variable: *variable,
                down: *down,
                from,
                to,
                step: *step,
                body: block_in(alloc, k, body.as_slice())?,
            })
        }
        GStmt::Break { line } => Ok(GStmt::Break { line: *line }),
        GStmt::Continue { line } => Ok(GStmt::Continue { line: *line }),
        GStmt::Yield { line, waits } => yield_in(alloc, k, *line, waits.as_slice()),
        GStmt::Print { line, parts } => print_in(alloc, k, *line, parts.as_slice()),
        GStmt::Assert { line, test } => assert_in(alloc, k, *line, test),
        GStmt::Stop { line } => Ok(GStmt::Stop { line: *line }),
    }
}

/// Statements.
#[cycle(statements)]
#[tactic(auto, using(crate::proofs::RowLaws::row_laws))]
pub(crate) fn block_in(alloc: Global, k: &Chosen, body: &[GStmt]) -> Result<Items<GStmt>, Memory>
    ensures { IfOk result (λ xs. block (map statement_of xs) ≡ spec.block_in (chosen_of k.now) (block (map statement_of body.now))) }
{
    let mut all = Items::new(alloc);
    for s in body {
        all.push(statement_in(alloc, k, s)?)?;
    }
    Ok(all)
}

/// A branch of an `if`.
#[cycle(statements)]
#[tactic(auto, using(mh_design::proofs::Shapes::statements))]
fn branch_in(alloc: Global, k: &Chosen, branch: &Branch) -> Result<Branch, Memory>
    ensures { IfOk result (λ x. arm_of x ≡ spec.arm_in (chosen_of k.now) (arm_of branch.now)) }
{
    let test = expression_in(alloc, k, &branch.test)?;
    Ok(Branch {
        test,
        body: block_in(alloc, k, branch.body.as_slice())?,
    })
}

/// The branches of an `if`.
#[cycle(statements)]
#[tactic(auto, using(crate::proofs::RowLaws::row_laws))]
fn branches_in(alloc: Global, k: &Chosen, branches: &[Branch]) -> Result<Items<Branch>, Memory>
    ensures { IfOk result (λ xs. arms (map arm_of xs) ≡ spec.arms_in (chosen_of k.now) (arms (map arm_of branches.now))) }
{
    let mut all = Items::new(alloc);
    for branch in branches {
        all.push(branch_in(alloc, k, branch)?)?;
    }
    Ok(all)
}

/// When a generator runs.
pub(crate) fn kind_in(alloc: Global, k: &Chosen, kind: &GenKind) -> Result<GenKind, Memory>
    ensures { IfOk result (λ x. x ≡ spec.kind_in (chosen_of k.now) kind.now) }
{
    match kind {
        GenKind::Comb => Ok(GenKind::Comb),
        GenKind::Always(waits) => Ok(GenKind::Always(waits_in(alloc, k, waits.as_slice())?)),
        GenKind::Seq(edge, None) => Ok(GenKind::Seq(wait_in(k, *edge), None)),
        GenKind::Seq(edge, Some(n)) => Ok(GenKind::Seq(wait_in(k, *edge), Some(signal_in(k, *n)))),
        GenKind::Instance => Ok(GenKind::Instance),
    }
}
