// How deep bodies are. These functions go down at most as many levels as they are asked for.
ghost use Rattle.std.specs.Prelude.{◌≡◌, map};
ghost use Rattle.mh_design.specs.Tree.{expression_of, row, base_of, left_of, printed_of, statement_of, arm_of, block, arms};
ghost use Rattle.std.specs.List.{list_all};
ghost use Rattle.mh_design.specs.Depth as spec;

use crate::expression::GExpr;
use crate::statement::{Branch, GStmt, Place, PrintPart, Target};

/// The expression has at most `levels` levels.
#[cycle(expression_depth)]
#[tactic(auto, using(crate::proofs::Shapes::shapes))]
fn is_within(e: &GExpr, levels: u32) -> bool
    ensures { result ≡ spec.is_within (expression_of e.now) levels }
{
    if levels == 0 {
        return false;
    }
    let rest = levels - 1;
    match e {
        GExpr::Integer(_) => true,
        GExpr::Truth(_) => true,
        GExpr::Item(_, _) => true,
        GExpr::Fixed(_, _) => true,
        GExpr::Signal(_) => true,
        GExpr::Local(_) => true,
        GExpr::Now => true,
        GExpr::Element(_, i) => is_within(i.get(), rest),
        GExpr::TableElement(_, i) => is_within(i.get(), rest),
        GExpr::Bit(a, i) => is_within(a.get(), rest) && is_within(i.get(), rest),
        GExpr::Slice(a, i, j) => {
            is_within(a.get(), rest) && is_within(i.get(), rest) && is_within(j.get(), rest)
        }
        GExpr::Unary(_, a) => is_within(a.get(), rest),
        GExpr::Binary(_, a, b) => is_within(a.get(), rest) && is_within(b.get(), rest),
        GExpr::And(a, b) => is_within(a.get(), rest) && is_within(b.get(), rest),
        GExpr::Or(a, b) => is_within(a.get(), rest) && is_within(b.get(), rest),
        GExpr::Concat(parts) => are_within(parts.as_slice(), rest),
        GExpr::Signed(a) => is_within(a.get(), rest),
        GExpr::Int(a) => is_within(a.get(), rest),
        GExpr::Bool(a) => is_within(a.get(), rest),
    }
}

/// Each of the expressions has at most `levels` levels.
#[cycle(expression_depth)]
#[tactic(auto, using(crate::proofs::Shapes::shapes))]
fn are_within(parts: &[GExpr], levels: u32) -> bool
    ensures { result ≡ spec.are_within (row (map expression_of parts.now)) levels }
{
    for part in parts {
        if !is_within(part, levels) {
            return false;
        }
    }
    true
}

/// The index of an element has at most `levels` levels.
fn place_is_within(place: &Place, levels: u32) -> bool
    ensures { result ≡ spec.base_is_within (base_of place.now) levels }
{
    match place {
        Place::Signal(_) => true,
        Place::Element(_, index) => is_within(index, levels),
        Place::Local(_) => true,
    }
}

/// The indices on the left have at most `levels` levels.
fn target_is_within(target: &Target, levels: u32) -> bool
    ensures { result ≡ spec.left_is_within (left_of target.now) levels }
{
    match target {
        Target::Whole(place) => place_is_within(place, levels),
        Target::Bit(place, index) => place_is_within(place, levels) && is_within(index, levels),
        Target::Slice(place, upper, lower) => {
            place_is_within(place, levels) && is_within(upper, levels) && is_within(lower, levels)
        }
        Target::Bind(_, _) => true,
    }
}

/// What is printed has at most `levels` levels.
fn printed_is_within(part: &PrintPart, levels: u32) -> bool
    ensures { result ≡ spec.printed_is_within levels (printed_of part.now) }
{
    match part {
        PrintPart::Text(_) => true,
        PrintPart::Number(e) => is_within(e, levels),
    }
}

/// Each part of a `print` has at most `levels` levels.
fn all_printed_are_within(parts: &[PrintPart], levels: u32) -> bool
    ensures { result ≡ list_all (spec.printed_is_within levels) (map printed_of parts.now) }
{
    for part in parts {
        if !printed_is_within(part, levels) {
            return false;
        }
    }
    true
}

/// The statement has at most `levels` levels.
#[cycle(statement_depth)]
#[tactic(auto, using(crate::proofs::Shapes::statements))]
fn statement_is_within(s: &GStmt, levels: u32) -> bool
    ensures { result ≡ spec.statement_is_within (statement_of s.now) levels }
{
    if levels == 0 {
        return false;
    }
    let rest = levels - 1;
    match s {
        GStmt::Set { target, value, .. } => {
            target_is_within(target, rest) && is_within(value, rest)
        }
        GStmt::If {
            branches,
            other,
            ..
        } => {
            branches_are_within(branches.as_slice(), rest)
                && block_is_within(other.as_slice(), rest)
        }
        GStmt::While { test, body, .. } => {
            is_within(test, rest) && block_is_within(body.as_slice(), rest)
        }
        GStmt::For { from, to, body, .. } => {
            is_within(from, rest) && is_within(to, rest) && block_is_within(body.as_slice(), rest)
        }
        GStmt::Break { .. } => true,
        GStmt::Continue { .. } => true,
        GStmt::Yield { .. } => true,
        GStmt::Print { parts, .. } => all_printed_are_within(parts.as_slice(), rest),
        GStmt::Assert { test, .. } => is_within(test, rest),
        GStmt::Stop { .. } => true,
    }
}

/// The statements have at most `levels` levels.
#[cycle(statement_depth)]
#[tactic(auto, using(crate::proofs::Shapes::statements))]
pub fn block_is_within(body: &[GStmt], levels: u32) -> bool
    ensures { result ≡ spec.block_is_within (block (map statement_of body.now)) levels }
{
    for s in body {
        if !statement_is_within(s, levels) {
            return false;
        }
    }
    true
}

/// A branch of an `if` has at most `levels` levels.
#[cycle(statement_depth)]
#[tactic(auto, using(crate::proofs::Shapes::statements))]
fn branch_is_within(branch: &Branch, levels: u32) -> bool
    ensures { result ≡ spec.arm_is_within (arm_of branch.now) levels }
{
    is_within(&branch.test, levels) && block_is_within(branch.body.as_slice(), levels)
}

/// The branches of an `if` have at most `levels` levels.
#[cycle(statement_depth)]
#[tactic(auto, using(crate::proofs::Shapes::statements))]
fn branches_are_within(branches: &[Branch], levels: u32) -> bool
    ensures { result ≡ spec.arms_are_within (arms (map arm_of branches.now)) levels }
{
    for branch in branches {
        if !branch_is_within(branch, levels) {
            return false;
        }
    }
    true
}
