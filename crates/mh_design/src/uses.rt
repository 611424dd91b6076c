// What a generator reads, drives and waits for.
ghost use Rattle.std.specs.Prelude.{◌≡◌, ◌++◌, map, OnOk, IfOk};
ghost use Rattle.std.specs.List.{flat_map};
ghost use Rattle.mh_design.specs.Numbering as numbering;
ghost use Rattle.mh_design.specs.Tree.{arm_of, arms, base_of, block, expression_of, left_of, printed_of, row, statement_of};
ghost use Rattle.mh_design.specs.Uses as spec;
ghost use Rattle.mh_design.specs.declared.design.Wait.TheVariants as wait;

use crate::design::{Design, GenKind, Generator, Wait};
use crate::expression::GExpr;
use crate::statement::{Branch, GStmt, Place, PrintPart, Target};
use mh_text::Memory;
use sqlite_items::Items;
use std::alloc::Global;

/// The elements of a memory.
fn cells_of(d: &Design, mem: u32) -> &[u32]
    ensures { result.now ≡ spec.cells_of d.now mem }
{
    match d.mems.get(mem as usize) {
        Some(m) => m.cells.as_slice(),
        None => &[],
    }
}

/// Adds signals.
fn add_all(found: &mut Items<u32>, signals: &[u32]) -> Result<(), Memory>
    ensures { OnOk result (found.new ≡ found.old ++ signals.now) }
{
    for signal in signals {
        found.push(*signal)?;
    }
    Ok(())
}

/// Adds what an expression reads, with its parts.
#[cycle(reading)]
#[tactic(auto, using(crate::proofs::Shapes::shapes, crate::proofs::UseLaws::use_laws))]
fn read_in(found: &mut Items<u32>, d: &Design, e: &GExpr) -> Result<(), Memory>
    ensures { OnOk result (found.new ≡ found.old ++ flat_map (spec.read_by d.now) (numbering.expressions (expression_of e.now))) }
{
    match e {
        GExpr::Integer(_)
        | GExpr::Truth(_)
        | GExpr::Item(_, _)
        | GExpr::Fixed(_, _)
        | GExpr::Local(_)
        | GExpr::Now => Ok(()),
        GExpr::Signal(s) => Ok(found.push(*s)?),
        GExpr::Element(m, i) => {
            add_all(found, cells_of(d, *m))?;
            read_in(found, d, i.get())
        }
        GExpr::TableElement(_, a)
        | GExpr::Unary(_, a)
        | GExpr::Signed(a)
        | GExpr::Int(a)
        | GExpr::Bool(a) => read_in(found, d, a.get()),
        GExpr::Bit(a, b) | GExpr::Binary(_, a, b) | GExpr::And(a, b) | GExpr::Or(a, b) => {
            read_in(found, d, a.get())?;
            read_in(found, d, b.get())
        }
        GExpr::Slice(a, i, j) => {
            read_in(found, d, a.get())?;
            read_in(found, d, i.get())?;
            read_in(found, d, j.get())
        }
        GExpr::Concat(parts) => read_in_all(found, d, parts.as_slice()),
    }
}

/// Adds what expressions read, with their parts.
#[cycle(reading)]
#[tactic(auto, using(crate::proofs::UseLaws::use_laws))]
fn read_in_all(found: &mut Items<u32>, d: &Design, parts: &[GExpr]) -> Result<(), Memory>
    ensures { OnOk result (found.new ≡ found.old ++ flat_map (spec.read_by d.now) (numbering.all_expressions (row (map expression_of parts.now)))) }
{
    for part in parts {
        read_in(found, d, part)?;
    }
    Ok(())
}

/// Adds what the index of a place reads.
fn read_in_place(found: &mut Items<u32>, d: &Design, p: &Place) -> Result<(), Memory>
    ensures { OnOk result (found.new ≡ found.old ++ flat_map (spec.read_by d.now) (flat_map numbering.expressions (numbering.base_indices (base_of p.now)))) }
{
    match p {
        Place::Signal(_) | Place::Local(_) => Ok(()),
        Place::Element(_, i) => read_in(found, d, i),
    }
}

/// Adds what the indices on the left of an assignment read.
#[tactic(auto, using(crate::proofs::UseLaws::use_laws))]
fn read_in_left(found: &mut Items<u32>, d: &Design, t: &Target) -> Result<(), Memory>
    ensures { OnOk result (found.new ≡ found.old ++ flat_map (spec.read_by d.now) (flat_map numbering.expressions (numbering.left_indices (left_of t.now)))) }
{
    match t {
        Target::Whole(p) => read_in_place(found, d, p),
        Target::Bit(p, i) => {
            read_in_place(found, d, p)?;
            read_in(found, d, i)
        }
        Target::Slice(p, i, j) => {
            read_in_place(found, d, p)?;
            read_in(found, d, i)?;
            read_in(found, d, j)
        }
        Target::Bind(_, _) => Ok(()),
    }
}

/// Adds what the parts of a `print` read.
#[tactic(auto, using(crate::proofs::UseLaws::use_laws))]
fn read_in_print(found: &mut Items<u32>, d: &Design, parts: &[PrintPart]) -> Result<(), Memory>
    ensures { OnOk result (found.new ≡ found.old ++ flat_map (spec.read_by d.now) (flat_map numbering.expressions (flat_map numbering.printed_numbers (map printed_of parts.now)))) }
{
    for part in parts {
        match part {
            PrintPart::Text(_) => (),
            PrintPart::Number(e) => read_in(found, d, e)?,
        }
    }
    Ok(())
}

/// Adds what a statement reads, with all that it holds.
#[cycle(statement_reading)]
#[tactic(auto, using(crate::proofs::Shapes::statements, crate::proofs::UseLaws::use_laws))]
fn read_in_statement(found: &mut Items<u32>, d: &Design, s: &GStmt) -> Result<(), Memory>
    ensures { OnOk result (found.new ≡ found.old ++ flat_map (spec.read_by d.now) (numbering.statement_expressions (statement_of s.now))) }
{
    match s {
        GStmt::Set {
            target: t,
            value: e,
            ..
        } => {
            read_in_left(found, d, t)?;
            read_in(found, d, e)
        }
        GStmt::If {
            branches,
            other,
            ..
        } => {
            read_in_branches(found, d, branches.as_slice())?;
            read_in_block(found, d, other.as_slice())
        }
        GStmt::While { test: e, body, .. } => {
            read_in(found, d, e)?;
            read_in_block(found, d, body.as_slice())
        }
        GStmt::For {
            from: a,
            to: z,
            body,
            ..
        } => {
            read_in(found, d, a)?;
            read_in(found, d, z)?;
            read_in_block(found, d, body.as_slice())
        }
        GStmt::Print { parts, .. } => read_in_print(found, d, parts.as_slice()),
        GStmt::Assert { test: e, .. } => read_in(found, d, e),
        GStmt::Break { .. } | GStmt::Continue { .. } | GStmt::Yield { .. } | GStmt::Stop { .. } =>
            Ok(()),
    }
}

/// Adds what statements read, with all that they hold.
#[cycle(statement_reading)]
#[tactic(auto, using(crate::proofs::UseLaws::use_laws))]
fn read_in_block(found: &mut Items<u32>, d: &Design, body: &[GStmt]) -> Result<(), Memory>
    ensures { OnOk result (found.new ≡ found.old ++ flat_map (spec.read_by d.now) (numbering.block_expressions (block (map statement_of body.now)))) }
{
    for s in body {
        read_in_statement(found, d, s)?;
    }
    Ok(())
}

/// Adds what the branches of an `if` read, with all that they hold.
#[cycle(statement_reading)]
#[tactic(auto, using(crate::proofs::UseLaws::use_laws))]
fn read_in_branches(found: &mut Items<u32>, d: &Design, branches: &[Branch]) -> Result<(), Memory>
    ensures { OnOk result (found.new ≡ found.old ++ flat_map (spec.read_by d.now) (numbering.arms_expressions (arms (map arm_of branches.now)))) }
{
    for branch in branches {
        read_in_branch(found, d, branch)?;
    }
    Ok(())
}

/// Adds what a branch reads, with all that it holds.
#[cycle(statement_reading)]
#[tactic(auto, using(crate::proofs::Shapes::statements, crate::proofs::UseLaws::use_laws))]
fn read_in_branch(found: &mut Items<u32>, d: &Design, branch: &Branch) -> Result<(), Memory>
    ensures { OnOk result (found.new ≡ found.old ++ flat_map (spec.read_by d.now) (numbering.arm_expressions (arm_of branch.now))) }
{
    read_in(found, d, &branch.test)?;
    read_in_block(found, d, branch.body.as_slice())
}

/// The signals that a generator reads, in order of text, some more than once: each time that one
/// stands in an expression, and all elements of a memory where one of them is named.
pub fn reads(alloc: Global, d: &Design, g: &Generator) -> Result<Items<u32>, Memory>
    ensures { IfOk result (λ found. found ≡ spec.reads d.now g.now) }
{
    let mut found = Items::new(alloc);
    read_in_block(&mut found, d, g.body.as_slice())?;
    Ok(found)
}

/// Adds the signals that a place drives.
fn driven_in_place(found: &mut Items<u32>, d: &Design, p: &Place) -> Result<(), Memory>
    ensures { OnOk result (found.new ≡ found.old ++ spec.driven_base d.now (base_of p.now)) }
{
    match p {
        Place::Signal(s) => Ok(found.push(*s)?),
        Place::Element(m, _) => add_all(found, cells_of(d, *m)),
        Place::Local(_) => Ok(()),
    }
}

/// Adds the signals that an assignment drives.
fn driven_in_left(found: &mut Items<u32>, d: &Design, t: &Target) -> Result<(), Memory>
    ensures { OnOk result (found.new ≡ found.old ++ spec.driven_left d.now (left_of t.now)) }
{
    match t {
        Target::Whole(p) | Target::Bit(p, _) | Target::Slice(p, _, _) => {
            driven_in_place(found, d, p)
        }
        Target::Bind(_, _) => Ok(()),
    }
}

/// Adds what a statement drives, with all that it holds.
#[cycle(driving)]
#[tactic(auto, using(crate::proofs::Shapes::statements, crate::proofs::UseLaws::use_laws))]
fn driven_in_statement(found: &mut Items<u32>, d: &Design, s: &GStmt) -> Result<(), Memory>
    ensures { OnOk result (found.new ≡ found.old ++ flat_map (spec.driven_by d.now) (numbering.statements (statement_of s.now))) }
{
    match s {
        GStmt::Set { target, .. } => driven_in_left(found, d, target),
        GStmt::If {
            branches,
            other,
            ..
        } => {
            driven_in_branches(found, d, branches.as_slice())?;
            driven_in_block(found, d, other.as_slice())
        }
        GStmt::While { body, .. } | GStmt::For { body, .. } => {
            driven_in_block(found, d, body.as_slice())
        }
        GStmt::Break { .. }
        | GStmt::Continue { .. }
        | GStmt::Yield { .. }
        | GStmt::Print { .. }
        | GStmt::Assert { .. }
        | GStmt::Stop { .. } => Ok(()),
    }
}

/// Adds what statements drive, with all that they hold.
#[cycle(driving)]
#[tactic(auto, using(crate::proofs::UseLaws::use_laws))]
fn driven_in_block(found: &mut Items<u32>, d: &Design, body: &[GStmt]) -> Result<(), Memory>
    ensures { OnOk result (found.new ≡ found.old ++ flat_map (spec.driven_by d.now) (numbering.block_statements (block (map statement_of body.now)))) }
{
    for s in body {
        driven_in_statement(found, d, s)?;
    }
    Ok(())
}

/// Adds what the branches of an `if` drive, with all that they hold.
#[cycle(driving)]
#[tactic(auto, using(crate::proofs::UseLaws::use_laws))]
fn driven_in_branches(found: &mut Items<u32>, d: &Design, branches: &[Branch]) -> Result<(), Memory>
    ensures { OnOk result (found.new ≡ found.old ++ flat_map (spec.driven_by d.now) (numbering.arms_statements (arms (map arm_of branches.now)))) }
{
    for branch in branches {
        driven_in_branch(found, d, branch)?;
    }
    Ok(())
}

/// Adds what a branch drives, with all that it holds.
#[cycle(driving)]
#[tactic(auto, using(crate::proofs::Shapes::statements, crate::proofs::UseLaws::use_laws))]
fn driven_in_branch(found: &mut Items<u32>, d: &Design, branch: &Branch) -> Result<(), Memory>
    ensures { OnOk result (found.new ≡ found.old ++ flat_map (spec.driven_by d.now) (numbering.arm_statements (arm_of branch.now))) }
{
    driven_in_block(found, d, branch.body.as_slice())
}

/// The signals that a generator drives, in order of text, some more than once: each time that one is
/// assigned, as a whole or in part, and all elements of a memory where one of them is assigned.
pub fn drives(alloc: Global, d: &Design, g: &Generator) -> Result<Items<u32>, Memory>
    ensures { IfOk result (λ found. found ≡ spec.drives d.now g.now) }
{
    let mut found = Items::new(alloc);
    driven_in_block(&mut found, d, g.body.as_slice())?;
    Ok(found)
}

/// Adds waits.
fn add_waits(found: &mut Items<Wait>, waits: &[Wait]) -> Result<(), Memory>
    ensures { OnOk result (found.new ≡ found.old ++ waits.now) }
{
    for wait in waits {
        found.push(*wait)?;
    }
    Ok(())
}

/// Adds what a statement waits for, with all that it holds.
#[cycle(waiting)]
#[tactic(auto, using(crate::proofs::Shapes::statements, crate::proofs::UseLaws::use_laws))]
fn waited_in_statement(found: &mut Items<Wait>, s: &GStmt) -> Result<(), Memory>
    ensures { OnOk result (found.new ≡ found.old ++ flat_map spec.waited_by (numbering.statements (statement_of s.now))) }
{
    match s {
        GStmt::Yield { waits, .. } => add_waits(found, waits.as_slice()),
        GStmt::If {
            branches,
            other,
            ..
        } => {
            waited_in_branches(found, branches.as_slice())?;
            waited_in_block(found, other.as_slice())
        }
        GStmt::While { body, .. } | GStmt::For { body, .. } => {
            waited_in_block(found, body.as_slice())
        }
        GStmt::Set { .. }
        | GStmt::Break { .. }
        | GStmt::Continue { .. }
        | GStmt::Print { .. }
        | GStmt::Assert { .. }
        | GStmt::Stop { .. } => Ok(()),
    }
}

/// Adds what statements wait for, with all that they hold.
#[cycle(waiting)]
#[tactic(auto, using(crate::proofs::UseLaws::use_laws))]
fn waited_in_block(found: &mut Items<Wait>, body: &[GStmt]) -> Result<(), Memory>
    ensures { OnOk result (found.new ≡ found.old ++ flat_map spec.waited_by (numbering.block_statements (block (map statement_of body.now)))) }
{
    for s in body {
        waited_in_statement(found, s)?;
    }
    Ok(())
}

/// Adds what the branches of an `if` wait for, with all that they hold.
#[cycle(waiting)]
#[tactic(auto, using(crate::proofs::UseLaws::use_laws))]
fn waited_in_branches(found: &mut Items<Wait>, branches: &[Branch]) -> Result<(), Memory>
    ensures { OnOk result (found.new ≡ found.old ++ flat_map spec.waited_by (numbering.arms_statements (arms (map arm_of branches.now)))) }
{
    for branch in branches {
        waited_in_branch(found, branch)?;
    }
    Ok(())
}

/// Adds what a branch waits for, with all that it holds.
#[cycle(waiting)]
#[tactic(auto, using(crate::proofs::Shapes::statements, crate::proofs::UseLaws::use_laws))]
fn waited_in_branch(found: &mut Items<Wait>, branch: &Branch) -> Result<(), Memory>
    ensures { OnOk result (found.new ≡ found.old ++ flat_map spec.waited_by (numbering.arm_statements (arm_of branch.now))) }
{
    waited_in_block(found, branch.body.as_slice())
}

/// Adds changes of signals.
fn add_changes(found: &mut Items<Wait>, signals: &[u32]) -> Result<(), Memory>
    ensures { OnOk result (found.new ≡ found.old ++ map wait.Change signals.now) }
{
    for signal in signals {
        found.push(Wait::Change(*signal))?;
    }
    Ok(())
}

/// Adds the edge at which an asynchronous reset gets active.
fn add_reset(found: &mut Items<Wait>, d: &Design, reset: Option<u32>) -> Result<(), Memory>
    ensures { OnOk result (found.new ≡ found.old ++ spec.reset_waits d.now reset) }
{
    let Some(r) = reset else { return Ok(()) };
    match d.signals.get(r as usize) {
        Some(s) => match s.reset {
            Some(x) => {
                if x.asynchronous {
                    found.push(Wait::Edge(r, x.active))?;
                }
                Ok(())
            }
            None => Ok(()),
        },
        None => Ok(()),
    }
}

/// What a generator waits for: an `@always_comb` for changes of all that it reads, in that order; an
/// `@always_seq` for its edge, and for its reset where that is asynchronous; an `@instance` for what
/// its `yield`s name, in order of text.
pub fn waits(alloc: Global, d: &Design, g: &Generator) -> Result<Items<Wait>, Memory>
    ensures { IfOk result (λ found. found ≡ spec.waits d.now g.now) }
{
    let mut found = Items::new(alloc);
    match &g.kind {
        GenKind::Comb => {
            let signals = reads(alloc, d, g)?;
            add_changes(&mut found, signals.as_slice())?;
        }
        GenKind::Always(waits) => add_waits(&mut found, waits.as_slice())?,
        GenKind::Seq(edge, reset) => {
            found.push(*edge)?;
            add_reset(&mut found, d, *reset)?;
        }
        GenKind::Instance => waited_in_block(&mut found, g.body.as_slice())?,
    }
    Ok(found)
}
