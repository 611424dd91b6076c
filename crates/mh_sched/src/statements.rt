// The statements of a body in order of text, with their lines.
ghost use Rattle.std.specs.Prelude.{◌≡◌, [], ◌∷◌, ◌++◌, map, OnOk};
ghost use Rattle.mh_design.specs.Bodies as bodies;
ghost use Rattle.mh_design.specs.Numbering as numbering;
ghost use Rattle.mh_design.specs.Tree.{arm_of, arms, block, statement_of};
ghost use Rattle.mh_sched.specs.Notes as notes;
ghost use Rattle.mh_sched.specs.Notes.{seen_statements};

use mh_design::{Branch, GStmt};
use mh_text::Memory;

/// Adds a statement.
#[tactic(auto, using(crate::proofs::NoteLaws::note_laws))]
fn put_one<'a>(s: &'a GStmt, out: &mut Vec<&'a GStmt>) -> Result<(), Memory>
    ensures { OnOk result (seen_statements out.new.items ≡ seen_statements out.old.items ++ statement_of s.now ∷ []) }
{
    out.push(s)?;
    Ok(())
}

/// Adds a statement and all that it holds.
#[cycle(noting)]
#[tactic(auto, using(mh_design::proofs::Shapes::statements, crate::proofs::NoteLaws::note_laws))]
fn put_statement<'a>(s: &'a GStmt, out: &mut Vec<&'a GStmt>) -> Result<(), Memory>
    ensures { OnOk result (seen_statements out.new.items ≡ seen_statements out.old.items ++ numbering.statements (statement_of s.now)) }
{
    put_one(s, out)?;
    match s {
        GStmt::If {
            branches,
            other,
            ..
        } => {
            put_branches(branches.as_slice(), out)?;
            put_statements(other.as_slice(), out)
        }
        GStmt::While { body, .. } | GStmt::For { body, .. } => put_statements(body.as_slice(), out),
        GStmt::Set { .. }
        | GStmt::Break { .. }
        | GStmt::Continue { .. }
        | GStmt::Yield { .. }
        | GStmt::Print { .. }
        | GStmt::Assert { .. }
        | GStmt::Stop { .. } => Ok(()),
    }
}

/// Adds statements and all that they hold, each before those that it holds.
#[cycle(noting)]
#[tactic(auto, using(crate::proofs::NoteLaws::note_laws))]
pub fn put_statements<'a>(body: &'a [GStmt], out: &mut Vec<&'a GStmt>) -> Result<(), Memory>
    ensures { OnOk result (seen_statements out.new.items ≡ seen_statements out.old.items ++ numbering.block_statements (block (map statement_of body.now))) }
{
    for s in body {
        put_statement(s, out)?;
    }
    Ok(())
}

/// Adds the statements of the branches of an `if`.
#[cycle(noting)]
#[tactic(auto, using(crate::proofs::NoteLaws::note_laws))]
fn put_branches<'a>(branches: &'a [Branch], out: &mut Vec<&'a GStmt>) -> Result<(), Memory>
    ensures { OnOk result (seen_statements out.new.items ≡ seen_statements out.old.items ++ numbering.arms_statements (arms (map arm_of branches.now))) }
{
    for branch in branches {
        put_branch(branch, out)?;
    }
    Ok(())
}

/// Adds the statements of a branch of an `if`.
#[cycle(noting)]
#[tactic(auto, using(mh_design::proofs::Shapes::statements, crate::proofs::NoteLaws::note_laws))]
fn put_branch<'a>(branch: &'a Branch, out: &mut Vec<&'a GStmt>) -> Result<(), Memory>
    ensures { OnOk result (seen_statements out.new.items ≡ seen_statements out.old.items ++ numbering.arm_statements (arm_of branch.now)) }
{
    put_statements(branch.body.as_slice(), out)
}

/// Adds the line of a statement, once for each branch of an `if`, and those of all that it holds.
#[cycle(lining)]
#[tactic(auto, using(mh_design::proofs::Shapes::statements, crate::proofs::NoteLaws::note_laws))]
fn put_line(s: &GStmt, out: &mut Vec<u32>) -> Result<(), Memory>
    ensures { OnOk result (out.new.items ≡ out.old.items ++ bodies.lines (statement_of s.now)) }
{
    match s {
        GStmt::If {
            line,
            branches,
            other,
        } => {
            put_branch_lines(*line, branches.as_slice(), out)?;
            put_lines(other.as_slice(), out)
        }
        GStmt::While { line, body, .. } | GStmt::For { line, body, .. } => {
            out.push(*line)?;
            put_lines(body.as_slice(), out)
        }
        GStmt::Set { line, .. }
        | GStmt::Break { line }
        | GStmt::Continue { line }
        | GStmt::Yield { line, .. }
        | GStmt::Print { line, .. }
        | GStmt::Assert { line, .. }
        | GStmt::Stop { line } => {
            out.push(*line)?;
            Ok(())
        }
    }
}

/// Adds the lines of statements, with those of all that they hold.
#[cycle(lining)]
#[tactic(auto, using(crate::proofs::NoteLaws::note_laws))]
pub fn put_lines(body: &[GStmt], out: &mut Vec<u32>) -> Result<(), Memory>
    ensures { OnOk result (out.new.items ≡ out.old.items ++ bodies.block_lines (block (map statement_of body.now))) }
{
    for s in body {
        put_line(s, out)?;
    }
    Ok(())
}

/// Adds the line of an `if` for each of its branches, with those of the statements of the branch.
#[cycle(lining)]
#[tactic(auto, using(crate::proofs::NoteLaws::note_laws))]
fn put_branch_lines(line: u32, branches: &[Branch], out: &mut Vec<u32>) -> Result<(), Memory>
    ensures { OnOk result (out.new.items ≡ out.old.items ++ bodies.arms_lines line (arms (map arm_of branches.now))) }
{
    for branch in branches {
        put_branch_line(line, branch, out)?;
    }
    Ok(())
}

/// Adds the line of an `if` for a branch, with those of the statements of the branch.
#[cycle(lining)]
#[tactic(auto, using(mh_design::proofs::Shapes::statements, crate::proofs::NoteLaws::note_laws))]
fn put_branch_line(line: u32, branch: &Branch, out: &mut Vec<u32>) -> Result<(), Memory>
    ensures { OnOk result (out.new.items ≡ out.old.items ++ notes.arm_lines line (arm_of branch.now)) }
{
    out.push(line)?;
    put_lines(branch.body.as_slice(), out)
}
