// Which signals, memories and tables a generator uses.
ghost use Rattle.std.specs.Prelude.{◌≡◌, ◌++◌, map, OnOk, IfOk};
ghost use Rattle.std.specs.List.{flat_map};
ghost use Rattle.mh_design.specs.Numbering as numbering;
ghost use Rattle.mh_design.specs.Tree.{arm_of, arms, base_of, block, expression_of, left_of, printed_of, row, statement_of};
ghost use Rattle.mh_design.specs.Uses.{waited_by};
ghost use Rattle.mh_plans.specs.Plans as spec;

use mh_design::{Branch, GExpr, GStmt, GenKind, Place, PrintPart, Target, Wait};
use mh_text::Memory;
use sqlite_items::Items;
use std::alloc::Global;

/// The memories and tables that expressions index, in order of text, some more than once.
#[derive(Drop)]
pub(crate) struct Indexed {
    pub mems: Items<u32>,
    pub tables: Items<u32>,
}

/// Adds what an expression indexes, with its parts.
#[cycle(indexing)]
#[tactic(auto, using(mh_design::proofs::Shapes::shapes, crate::proofs::UseLaws::use_laws))]
fn index_in(found: &mut Indexed, e: &GExpr) -> Result<(), Memory>
    ensures mems { OnOk result (found.new.mems ≡ found.old.mems ++ flat_map spec.mem_read (numbering.expressions (expression_of e.now))) }
    ensures tables { OnOk result (found.new.tables ≡ found.old.tables ++ flat_map spec.table_read (numbering.expressions (expression_of e.now))) }
{
    match e {
        GExpr::Integer(_)
        | GExpr::Truth(_)
        | GExpr::Item(_, _)
        | GExpr::Fixed(_, _)
        | GExpr::Signal(_)
        | GExpr::Local(_)
        | GExpr::Now => Ok(()),
        GExpr::Element(m, i) => {
            found.mems.push(*m)?;
            index_in(found, i.get())
        }
        GExpr::TableElement(t, i) => {
            found.tables.push(*t)?;
            index_in(found, i.get())
        }
        GExpr::Unary(_, a) | GExpr::Signed(a) | GExpr::Int(a) | GExpr::Bool(a) => {
            index_in(found, a.get())
        }
        GExpr::Bit(a, b) | GExpr::Binary(_, a, b) | GExpr::And(a, b) | GExpr::Or(a, b) => {
            index_in(found, a.get())?;
            index_in(found, b.get())
        }
        GExpr::Slice(a, i, j) => {
            index_in(found, a.get())?;
            index_in(found, i.get())?;
            index_in(found, j.get())
        }
        GExpr::Concat(parts) => index_in_all(found, parts.as_slice()),
    }
}

/// Adds what expressions index, with their parts.
#[cycle(indexing)]
#[tactic(auto, using(crate::proofs::UseLaws::use_laws))]
fn index_in_all(found: &mut Indexed, parts: &[GExpr]) -> Result<(), Memory>
    ensures mems { OnOk result (found.new.mems ≡ found.old.mems ++ flat_map spec.mem_read (numbering.all_expressions (row (map expression_of parts.now)))) }
    ensures tables { OnOk result (found.new.tables ≡ found.old.tables ++ flat_map spec.table_read (numbering.all_expressions (row (map expression_of parts.now)))) }
{
    for part in parts {
        index_in(found, part)?;
    }
    Ok(())
}

/// Adds what the index of a place indexes.
fn index_in_place(found: &mut Indexed, p: &Place) -> Result<(), Memory>
    ensures mems { OnOk result (found.new.mems ≡ found.old.mems ++ flat_map spec.mem_read (flat_map numbering.expressions (numbering.base_indices (base_of p.now)))) }
    ensures tables { OnOk result (found.new.tables ≡ found.old.tables ++ flat_map spec.table_read (flat_map numbering.expressions (numbering.base_indices (base_of p.now)))) }
{
    match p {
        Place::Signal(_) | Place::Local(_) => Ok(()),
        Place::Element(_, i) => index_in(found, i),
    }
}

/// Adds what the indices on the left of an assignment index.
#[tactic(auto, using(crate::proofs::UseLaws::use_laws))]
fn index_in_left(found: &mut Indexed, t: &Target) -> Result<(), Memory>
    ensures mems { OnOk result (found.new.mems ≡ found.old.mems ++ flat_map spec.mem_read (flat_map numbering.expressions (numbering.left_indices (left_of t.now)))) }
    ensures tables { OnOk result (found.new.tables ≡ found.old.tables ++ flat_map spec.table_read (flat_map numbering.expressions (numbering.left_indices (left_of t.now)))) }
{
    match t {
        Target::Whole(p) => index_in_place(found, p),
        Target::Bit(p, i) => {
            index_in_place(found, p)?;
            index_in(found, i)
        }
        Target::Slice(p, i, j) => {
            index_in_place(found, p)?;
            index_in(found, i)?;
            index_in(found, j)
        }
        Target::Bind(_, _) => Ok(()),
    }
}

/// Adds what the parts of a `print` index.
#[tactic(auto, using(crate::proofs::UseLaws::use_laws))]
fn index_in_print(found: &mut Indexed, parts: &[PrintPart]) -> Result<(), Memory>
    ensures mems { OnOk result (found.new.mems ≡ found.old.mems ++ flat_map spec.mem_read (flat_map numbering.expressions (flat_map numbering.printed_numbers (map printed_of parts.now)))) }
    ensures tables { OnOk result (found.new.tables ≡ found.old.tables ++ flat_map spec.table_read (flat_map numbering.expressions (flat_map numbering.printed_numbers (map printed_of parts.now)))) }
{
    for part in parts {
        match part {
            PrintPart::Text(_) => (),
            PrintPart::Number(e) => index_in(found, e)?,
        }
    }
    Ok(())
}

/// Adds what a statement indexes, with all that it holds.
#[cycle(statement_indexing)]
#[tactic(auto, using(mh_design::proofs::Shapes::statements, crate::proofs::UseLaws::use_laws))]
fn index_in_statement(found: &mut Indexed, s: &GStmt) -> Result<(), Memory>
    ensures mems { OnOk result (found.new.mems ≡ found.old.mems ++ flat_map spec.mem_read (numbering.statement_expressions (statement_of s.now))) }
    ensures tables { OnOk result (found.new.tables ≡ found.old.tables ++ flat_map spec.table_read (numbering.statement_expressions (statement_of s.now))) }
{
    match s {
        GStmt::Set {
            target: t,
            value: e,
            ..
        } => {
            index_in_left(found, t)?;
            index_in(found, e)
        }
        GStmt::If {
            branches,
            other,
            ..
        } => {
            index_in_branches(found, branches.as_slice())?;
            index_in_block(found, other.as_slice())
        }
        GStmt::While { test: e, body, .. } => {
            index_in(found, e)?;
            index_in_block(found, body.as_slice())
        }
        GStmt::For {
            from: a,
            to: z,
            body,
            ..
        } => {
            index_in(found, a)?;
            index_in(found, z)?;
            index_in_block(found, body.as_slice())
        }
        GStmt::Print { parts, .. } => index_in_print(found, parts.as_slice()),
        GStmt::Assert { test: e, .. } => index_in(found, e),
        GStmt::Break { .. } | GStmt::Continue { .. } | GStmt::Yield { .. } | GStmt::Stop { .. } =>
            Ok(()),
    }
}

/// Adds what statements index, with all that they hold.
#[cycle(statement_indexing)]
#[tactic(auto, using(crate::proofs::UseLaws::use_laws))]
fn index_in_block(found: &mut Indexed, body: &[GStmt]) -> Result<(), Memory>
    ensures mems { OnOk result (found.new.mems ≡ found.old.mems ++ flat_map spec.mem_read (numbering.block_expressions (block (map statement_of body.now)))) }
    ensures tables { OnOk result (found.new.tables ≡ found.old.tables ++ flat_map spec.table_read (numbering.block_expressions (block (map statement_of body.now)))) }
{
    for s in body {
        index_in_statement(found, s)?;
    }
    Ok(())
}

/// Adds what the branches of an `if` index, with all that they hold.
#[cycle(statement_indexing)]
#[tactic(auto, using(crate::proofs::UseLaws::use_laws))]
fn index_in_branches(found: &mut Indexed, branches: &[Branch]) -> Result<(), Memory>
    ensures mems { OnOk result (found.new.mems ≡ found.old.mems ++ flat_map spec.mem_read (numbering.arms_expressions (arms (map arm_of branches.now)))) }
    ensures tables { OnOk result (found.new.tables ≡ found.old.tables ++ flat_map spec.table_read (numbering.arms_expressions (arms (map arm_of branches.now)))) }
{
    for branch in branches {
        index_in_branch(found, branch)?;
    }
    Ok(())
}

/// Adds what a branch indexes, with all that it holds.
#[cycle(statement_indexing)]
#[tactic(auto, using(mh_design::proofs::Shapes::statements, crate::proofs::UseLaws::use_laws))]
fn index_in_branch(found: &mut Indexed, branch: &Branch) -> Result<(), Memory>
    ensures mems { OnOk result (found.new.mems ≡ found.old.mems ++ flat_map spec.mem_read (numbering.arm_expressions (arm_of branch.now))) }
    ensures tables { OnOk result (found.new.tables ≡ found.old.tables ++ flat_map spec.table_read (numbering.arm_expressions (arm_of branch.now))) }
{
    index_in(found, &branch.test)?;
    index_in_block(found, branch.body.as_slice())
}

/// What statements index, with all that they hold.
pub(crate) fn indexed_in(alloc: Global, body: &[GStmt]) -> Result<Indexed, Memory>
    ensures mems { IfOk result (λ found. found.mems ≡ flat_map spec.mem_read (numbering.block_expressions (block (map statement_of body.now)))) }
    ensures tables { IfOk result (λ found. found.tables ≡ flat_map spec.table_read (numbering.block_expressions (block (map statement_of body.now)))) }
{
    let mut found = Indexed {
        mems: Items::new(alloc),
        tables: Items::new(alloc),
    };
    index_in_block(&mut found, body)?;
    Ok(found)
}

/// The memories that statements drive, and the signals that they wait for, in order of text, some more
/// than once.
#[derive(Drop)]
pub(crate) struct Stated {
    pub mems: Items<u32>,
    pub signals: Items<u32>,
}

/// Adds the memory of a place.
fn drive_place(found: &mut Stated, p: &Place) -> Result<(), Memory>
    ensures mems { OnOk result (found.new.mems ≡ found.old.mems ++ spec.base_mem (base_of p.now)) }
    ensures signals { OnOk result (found.new.signals ≡ found.old.signals) }
{
    match p {
        Place::Signal(_) | Place::Local(_) => Ok(()),
        Place::Element(m, _) => Ok(found.mems.push(*m)?),
    }
}

/// Adds the memory that an assignment drives.
fn drive_left(found: &mut Stated, t: &Target) -> Result<(), Memory>
    ensures mems { OnOk result (found.new.mems ≡ found.old.mems ++ spec.left_mem (left_of t.now)) }
    ensures signals { OnOk result (found.new.signals ≡ found.old.signals) }
{
    match t {
        Target::Whole(p) | Target::Bit(p, _) | Target::Slice(p, _, _) => drive_place(found, p),
        Target::Bind(_, _) => Ok(()),
    }
}

/// Adds the signal of a wait.
fn wait_for(signals: &mut Items<u32>, wait: Wait) -> Result<(), Memory>
    ensures { OnOk result (signals.new ≡ signals.old ++ spec.waited_signals wait) }
{
    match wait {
        Wait::Change(n) => Ok(signals.push(n)?),
        Wait::Edge(n, _) => Ok(signals.push(n)?),
        Wait::Delay(_) => Ok(()),
    }
}

/// Adds the signals of waits.
#[tactic(auto, using(crate::proofs::UseLaws::use_laws))]
fn wait_for_all(signals: &mut Items<u32>, waits: &[Wait]) -> Result<(), Memory>
    ensures { OnOk result (signals.new ≡ signals.old ++ flat_map spec.waited_signals waits.now) }
{
    for wait in waits {
        wait_for(signals, *wait)?;
    }
    Ok(())
}

/// Adds what a statement drives and waits for, with all that it holds.
#[cycle(stating)]
#[tactic(auto, using(mh_design::proofs::Shapes::statements, crate::proofs::UseLaws::use_laws))]
fn state_statement(found: &mut Stated, s: &GStmt) -> Result<(), Memory>
    ensures mems { OnOk result (found.new.mems ≡ found.old.mems ++ flat_map spec.mem_driven (numbering.statements (statement_of s.now))) }
    ensures signals { OnOk result (found.new.signals ≡ found.old.signals ++ flat_map spec.waited_signals (flat_map waited_by (numbering.statements (statement_of s.now)))) }
{
    match s {
        GStmt::Set { target, .. } => drive_left(found, target),
        GStmt::If {
            branches,
            other,
            ..
        } => {
            state_branches(found, branches.as_slice())?;
            state_block(found, other.as_slice())
        }
        GStmt::While { body, .. } | GStmt::For { body, .. } => state_block(found, body.as_slice()),
        GStmt::Yield { waits, .. } => wait_for_all(&mut found.signals, waits.as_slice()),
        GStmt::Break { .. }
        | GStmt::Continue { .. }
        | GStmt::Print { .. }
        | GStmt::Assert { .. }
        | GStmt::Stop { .. } => Ok(()),
    }
}

/// Adds what statements drive and wait for, with all that they hold.
#[cycle(stating)]
#[tactic(auto, using(crate::proofs::UseLaws::use_laws))]
fn state_block(found: &mut Stated, body: &[GStmt]) -> Result<(), Memory>
    ensures mems { OnOk result (found.new.mems ≡ found.old.mems ++ flat_map spec.mem_driven (numbering.block_statements (block (map statement_of body.now)))) }
    ensures signals { OnOk result (found.new.signals ≡ found.old.signals ++ flat_map spec.waited_signals (flat_map waited_by (numbering.block_statements (block (map statement_of body.now))))) }
{
    for s in body {
        state_statement(found, s)?;
    }
    Ok(())
}

/// Adds what the branches of an `if` drive and wait for, with all that they hold.
#[cycle(stating)]
#[tactic(auto, using(crate::proofs::UseLaws::use_laws))]
fn state_branches(found: &mut Stated, branches: &[Branch]) -> Result<(), Memory>
    ensures mems { OnOk result (found.new.mems ≡ found.old.mems ++ flat_map spec.mem_driven (numbering.arms_statements (arms (map arm_of branches.now)))) }
    ensures signals { OnOk result (found.new.signals ≡ found.old.signals ++ flat_map spec.waited_signals (flat_map waited_by (numbering.arms_statements (arms (map arm_of branches.now))))) }
{
    for branch in branches {
        state_branch(found, branch)?;
    }
    Ok(())
}

/// Adds what a branch drives and waits for, with all that it holds.
#[cycle(stating)]
#[tactic(auto, using(mh_design::proofs::Shapes::statements, crate::proofs::UseLaws::use_laws))]
fn state_branch(found: &mut Stated, branch: &Branch) -> Result<(), Memory>
    ensures mems { OnOk result (found.new.mems ≡ found.old.mems ++ flat_map spec.mem_driven (numbering.arm_statements (arm_of branch.now))) }
    ensures signals { OnOk result (found.new.signals ≡ found.old.signals ++ flat_map spec.waited_signals (flat_map waited_by (numbering.arm_statements (arm_of branch.now)))) }
{
    state_block(found, branch.body.as_slice())
}

/// What statements drive and wait for, with all that they hold.
pub(crate) fn stated_in(alloc: Global, body: &[GStmt]) -> Result<Stated, Memory>
    ensures mems { IfOk result (λ found. found.mems ≡ flat_map spec.mem_driven (numbering.block_statements (block (map statement_of body.now)))) }
    ensures signals { IfOk result (λ found. found.signals ≡ flat_map spec.waited_signals (flat_map waited_by (numbering.block_statements (block (map statement_of body.now))))) }
{
    let mut found = Stated {
        mems: Items::new(alloc),
        signals: Items::new(alloc),
    };
    state_block(&mut found, body)?;
    Ok(found)
}

/// The signals that a decorator names.
#[tactic(auto, using(crate::proofs::UseLaws::use_laws))]
pub(crate) fn start_signals(alloc: Global, kind: &GenKind) -> Result<Items<u32>, Memory>
    ensures { IfOk result (λ signals. signals ≡ spec.start_signals kind.now) }
{
    let mut signals = Items::new(alloc);
    match kind {
        GenKind::Comb | GenKind::Instance => (),
        GenKind::Always(waits) => wait_for_all(&mut signals, waits.as_slice())?,
        GenKind::Seq(edge, reset) => {
            wait_for(&mut signals, *edge)?;
            if let Some(n) = reset {
                signals.push(*n)?;
            }
        }
    }
    Ok(signals)
}
