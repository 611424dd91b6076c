// Where `break` and `continue` stand.
ghost use Rattle.std.specs.Prelude.{◌≡◌, map};
ghost use Rattle.mh_design.specs.Tree.{statement_of, arm_of, block, arms};
ghost use Rattle.mh_design.specs.Statements as spec;

use crate::statement::{Branch, GStmt};

/// Each `break` and `continue` of the statement stands in a loop.
#[cycle(exits)]
#[tactic(auto, using(crate::proofs::Shapes::statements))]
fn exits_fit(in_loop: bool, s: &GStmt) -> bool
    ensures { result ≡ spec.exits_fit in_loop (statement_of s.now) }
{
    match s {
        GStmt::If {
            branches,
            other,
            ..
        } => {
            branches_exits_fit(in_loop, branches.as_slice())
                && block_exits_fit(in_loop, other.as_slice())
        }
        GStmt::While { body, .. } => block_exits_fit(true, body.as_slice()),
        GStmt::For { body, .. } => block_exits_fit(true, body.as_slice()),
        GStmt::Break { .. } => in_loop,
        GStmt::Continue { .. } => in_loop,
        GStmt::Set { .. } => true,
        GStmt::Yield { .. } => true,
        GStmt::Print { .. } => true,
        GStmt::Assert { .. } => true,
        GStmt::Stop { .. } => true,
    }
}

/// Each `break` and `continue` of the statements stands in a loop.
#[cycle(exits)]
#[tactic(auto, using(crate::proofs::Shapes::statements))]
pub fn block_exits_fit(in_loop: bool, body: &[GStmt]) -> bool
    ensures { result ≡ spec.block_exits_fit in_loop (block (map statement_of body.now)) }
{
    for s in body {
        if !exits_fit(in_loop, s) {
            return false;
        }
    }
    true
}

/// Each `break` and `continue` of a branch stands in a loop.
#[cycle(exits)]
#[tactic(auto, using(crate::proofs::Shapes::statements))]
fn branch_exits_fit(in_loop: bool, branch: &Branch) -> bool
    ensures { result ≡ spec.arm_exits_fit in_loop (arm_of branch.now) }
{
    block_exits_fit(in_loop, branch.body.as_slice())
}

/// Each `break` and `continue` of the branches stands in a loop.
#[cycle(exits)]
#[tactic(auto, using(crate::proofs::Shapes::statements))]
fn branches_exits_fit(in_loop: bool, branches: &[Branch]) -> bool
    ensures { result ≡ spec.arms_exits_fit in_loop (arms (map arm_of branches.now)) }
{
    for branch in branches {
        if !branch_exits_fit(in_loop, branch) {
            return false;
        }
    }
    true
}
