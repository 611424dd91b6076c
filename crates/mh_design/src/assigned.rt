// Whether a local is read only where each path has assigned it.
ghost use Rattle.std.specs.Prelude.{◌≡◌, map, Bool, Option, None};
ghost use Rattle.std.specs.List.{list_any, flat_map};
ghost use Rattle.mh_design.specs.Tree.{expression_of, row, base_of, left_of, printed_of, statement_of, arm_of, block, arms};
ghost use Rattle.mh_design.specs.Numbering.{all_expressions, base_indices, left_indices, printed_numbers};
ghost use Rattle.mh_design.specs.Assigned as spec;

use crate::constants::constant_of;
use crate::expression::GExpr;
use crate::statement::{Branch, GStmt, Place, PrintPart, Target};

/// Where the paths through statements lead, and whether each of them has assigned a local on the way.
#[derive(Clone, Copy, Debug, PartialEq, Eq)]
pub struct Flow {
    /// The local was read only where it was assigned.
    pub sound: bool,
    /// No path leads to what follows, or whether each that does has assigned the local.
    pub falls: Option<bool>,
    /// The same of a `break` of the loop around.
    pub breaks: Option<bool>,
    /// The same of a `continue` of the loop around.
    pub continues: Option<bool>,
}

/// The paths that go two ways.
fn both(a: Option<bool>, b: Option<bool>) -> Option<bool>
    ensures { result ≡ spec.both a b }
{
    match (a, b) {
        (None, b) => b,
        (Some(a), None) => Some(a),
        (Some(a), Some(b)) => Some(a && b),
    }
}

/// Two ways beside one another.
fn joined(p: Flow, q: Flow) -> Flow
    ensures { result ≡ spec.joined p q }
{
    Flow {
        sound: p.sound && q.sound,
        falls: both(p.falls, q.falls),
        breaks: both(p.breaks, q.breaks),
        continues: both(p.continues, q.continues),
    }
}

/// What goes on to what follows, with the local assigned or not.
fn passes(sound: bool, assigned: bool) -> Flow
    ensures { result ≡ spec.passes sound assigned }
{
    Flow {
        sound,
        falls: Some(assigned),
        breaks: None,
        continues: None,
    }
}

/// What goes on where the first part falls through.
fn followed(p: Flow, q: Flow) -> Flow
    ensures { result ≡ spec.followed p q }
{
    Flow {
        sound: p.sound && q.sound,
        falls: q.falls,
        breaks: both(p.breaks, q.breaks),
        continues: both(p.continues, q.continues),
    }
}

/// A reading of the local, if there is one, is sound where the local is assigned.
fn is_sound(assigned: bool, reads: bool) -> bool
    ensures { result ≡ spec.is_sound assigned reads }
{
    assigned || !reads
}

/// Something is read before as well.
fn after_reading(sound: bool, p: Flow) -> Flow
    ensures { result ≡ spec.after_reading sound p }
{
    Flow {
        sound: sound && p.sound,
        falls: p.falls,
        breaks: p.breaks,
        continues: p.continues,
    }
}

/// The local is read in the expression.
#[cycle(reading)]
#[tactic(auto, using(crate::proofs::Shapes::shapes, crate::proofs::ListLaws::any_laws))]
fn reads_local(local: usize, e: &GExpr) -> bool
    ensures { result ≡ spec.reads_local local (expression_of e.now) }
{
    match e {
        GExpr::Local(v) => *v as usize == local,
        GExpr::Integer(_) | GExpr::Truth(_) | GExpr::Item(_, _) | GExpr::Fixed(_, _) => false,
        GExpr::Signal(_) | GExpr::Now => false,
        GExpr::Element(_, i) => reads_local(local, i.get()),
        GExpr::TableElement(_, i) => reads_local(local, i.get()),
        GExpr::Bit(a, i) => reads_local(local, a.get()) || reads_local(local, i.get()),
        GExpr::Slice(a, i, j) => {
            reads_local(local, a.get())
                || reads_local(local, i.get())
                || reads_local(local, j.get())
        }
        GExpr::Unary(_, a) => reads_local(local, a.get()),
        GExpr::Binary(_, a, b) => reads_local(local, a.get()) || reads_local(local, b.get()),
        GExpr::And(a, b) => reads_local(local, a.get()) || reads_local(local, b.get()),
        GExpr::Or(a, b) => reads_local(local, a.get()) || reads_local(local, b.get()),
        GExpr::Concat(parts) => some_reads(local, parts.as_slice()),
        GExpr::Signed(a) => reads_local(local, a.get()),
        GExpr::Int(a) => reads_local(local, a.get()),
        GExpr::Bool(a) => reads_local(local, a.get()),
    }
}

/// The local is read in one of the expressions.
#[cycle(reading)]
#[tactic(auto, using(crate::proofs::Shapes::shapes, crate::proofs::ListLaws::any_laws))]
fn some_reads(local: usize, parts: &[GExpr]) -> bool
    ensures { result ≡ list_any (spec.is_local local) (all_expressions (row (map expression_of parts.now))) }
{
    for part in parts {
        if reads_local(local, part) {
            return true;
        }
    }
    false
}

/// What is assigned, or a part of which is, is the local.
fn is_place_of(local: usize, place: &Place) -> bool
    ensures { result ≡ spec.is_left_local local (base_of place.now) }
{
    match place {
        Place::Signal(_) => false,
        Place::Element(_, _) => false,
        Place::Local(v) => *v as usize == local,
    }
}

/// The left side changes the local, which has to be there.
fn changes(local: usize, target: &Target) -> bool
    ensures { result ≡ spec.changes local (left_of target.now) }
{
    match target {
        Target::Whole(p) => is_place_of(local, p),
        Target::Bit(p, _) => is_place_of(local, p),
        Target::Slice(p, _, _) => is_place_of(local, p),
        Target::Bind(_, _) => false,
    }
}

/// The left side makes the local.
fn binds(local: usize, target: &Target) -> bool
    ensures { result ≡ spec.binds local (left_of target.now) }
{
    match target {
        Target::Whole(_) => false,
        Target::Bit(_, _) => false,
        Target::Slice(_, _, _) => false,
        Target::Bind(v, _) => *v as usize == local,
    }
}

/// The index of an element reads the local.
fn place_reads(local: usize, place: &Place) -> bool
    ensures { result ≡ list_any (spec.reads_local local) (base_indices (base_of place.now)) }
{
    match place {
        Place::Signal(_) => false,
        Place::Element(_, i) => reads_local(local, i),
        Place::Local(_) => false,
    }
}

/// An index on the left reads the local.
#[tactic(auto, using(crate::proofs::ListLaws::any_laws))]
fn indices_read(local: usize, target: &Target) -> bool
    ensures { result ≡ list_any (spec.reads_local local) (left_indices (left_of target.now)) }
{
    match target {
        Target::Whole(p) => place_reads(local, p),
        Target::Bit(p, i) => place_reads(local, p) || reads_local(local, i),
        Target::Slice(p, i, j) => {
            place_reads(local, p) || reads_local(local, i) || reads_local(local, j)
        }
        Target::Bind(_, _) => false,
    }
}

/// A part of a `print` reads the local.
fn printed_reads(local: usize, part: &PrintPart) -> bool
    ensures { result ≡ list_any (spec.reads_local local) (printed_numbers (printed_of part.now)) }
{
    match part {
        PrintPart::Text(_) => false,
        PrintPart::Number(e) => reads_local(local, e),
    }
}

/// A `print` reads the local.
#[tactic(auto, using(crate::proofs::ListLaws::any_laws))]
fn some_printed_reads(local: usize, parts: &[PrintPart]) -> bool
    ensures { result ≡ list_any (spec.reads_local local) (flat_map printed_numbers (map printed_of parts.now)) }
{
    for part in parts {
        if printed_reads(local, part) {
            return true;
        }
    }
    false
}

/// The numbers of a `range` or `downrange` with this step go up.
pub fn rises(down: bool, step: i128) -> bool
    ensures { result ≡ spec.rises down step }
{
    if down { step < 0 } else { 0 < step }
}

/// Whether a loop has a turn, where its ends are constants.
pub fn ends_give_turn(down: bool, step: i128, from: Option<i128>, to: Option<i128>) -> Option<bool>
    ensures { result ≡ spec.ends_give_turn down step from to }
{
    match (from, to) {
        (Some(a), Some(z)) => Some(if rises(down, step) { a < z } else { z < a }),
        _ => None,
    }
}

/// An end of a loop reads the local.
fn ends_read(local: usize, from: &GExpr, to: &GExpr) -> bool
    ensures { result ≡ spec.ends_read local (expression_of from.now) (expression_of to.now) }
{
    reads_local(local, from) || reads_local(local, to)
}

/// A turn of a loop with this variable begins.
#[tactic(auto, unfolding(crate::specs::Assigned::turn_begins))]
fn turn_begins(local: usize, variable: u32, assigned: bool) -> Flow
    ensures { result ≡ spec.turn_begins local variable assigned }
{
    passes(true, assigned || variable as usize == local)
}

/// Whether a loop has a turn, where its ends are constants.
#[tactic(auto, unfolding(crate::specs::Assigned::has_turn))]
fn has_turn(down: bool, step: &i128, from: &GExpr, to: &GExpr) -> Option<bool>
    ensures { result ≡ spec.has_turn down step.now (expression_of from.now) (expression_of to.now) }
{
    ends_give_turn(down, *step, constant_of(from), constant_of(to))
}

/// A loop, by whether it has a turn, whether the local is assigned before it, and what its body does.
fn looped(turn: Option<bool>, assigned: bool, body: Flow) -> Flow
    ensures { result ≡ spec.looped turn assigned body }
{
    match turn {
        None => passes(body.sound, assigned),
        Some(false) => passes(true, assigned),
        Some(true) => Flow {
            sound: body.sound,
            falls: both(both(body.falls, body.continues), body.breaks),
            breaks: None,
            continues: None,
        },
    }
}

/// A `while` with this turn.
fn while_flow(local: usize, test: &GExpr, assigned: bool, turn: Flow) -> Flow
    ensures { result ≡ spec.while_flow local (expression_of test.now) assigned turn }
{
    let sound = is_sound(assigned, reads_local(local, test));
    after_reading(sound, looped(None, assigned, turn))
}

/// A `for` with this turn.
fn for_flow(
    local: usize,
    has: Option<bool>,
    from: &GExpr,
    to: &GExpr,
    assigned: bool,
    turn: Flow,
) -> Flow
    ensures { result ≡ spec.for_flow local has (expression_of from.now) (expression_of to.now) assigned turn }
{
    let sound = is_sound(assigned, ends_read(local, from, to));
    after_reading(sound, looped(has, assigned, turn))
}

/// What an assignment does.
fn walk_set(local: usize, target: &Target, value: &GExpr, assigned: bool) -> Flow
    ensures { result ≡ spec.walk_set local (left_of target.now) (expression_of value.now) assigned }
{
    let reads = changes(local, target) || indices_read(local, target) || reads_local(local, value);
    passes(is_sound(assigned, reads), assigned || binds(local, target))
}

/// What a statement does where the local is assigned before it, or isn't.
#[cycle(walking)]
#[tactic(auto, using(crate::proofs::Shapes::statements))]
fn walk(local: usize, s: &GStmt, assigned: bool) -> Flow
    ensures { result ≡ spec.walk local (statement_of s.now) assigned }
{
    match s {
        GStmt::Set { target, value, .. } => walk_set(local, target, value, assigned),
        GStmt::If {
            branches,
            other,
            ..
        } => {
            let otherwise = walk_block(local, other.as_slice(), passes(true, assigned));
            walk_branches(local, branches.as_slice(), assigned, otherwise)
        }
        GStmt::While { test, body, .. } => {
            let turn = walk_block(local, body.as_slice(), passes(true, assigned));
            while_flow(local, test, assigned, turn)
        }
        GStmt::For {
            variable,
            down,
            from,
            to,
            step,
            body,
            ..
        } => {
            let begins = turn_begins(local, *variable, assigned);
            let turn = walk_block(local, body.as_slice(), begins);
            let has = has_turn(*down, step, from, to);
            for_flow(local, has, from, to, assigned, turn)
        }
        GStmt::Break { .. } => Flow {
            sound: true,
            falls: None,
            breaks: Some(assigned),
            continues: None,
        },
        GStmt::Continue { .. } => Flow {
            sound: true,
            falls: None,
            breaks: None,
            continues: Some(assigned),
        },
        GStmt::Yield { .. } => passes(true, assigned),
        GStmt::Print { parts, .. } => {
            let reads = some_printed_reads(local, parts.as_slice());
            passes(is_sound(assigned, reads), assigned)
        }
        GStmt::Assert { test, .. } => {
            passes(is_sound(assigned, reads_local(local, test)), assigned)
        }
        GStmt::Stop { .. } => Flow {
            sound: true,
            falls: None,
            breaks: None,
            continues: None,
        },
    }
}

/// What a statement does after a flow that may fall through.
#[cycle(walking)]
#[tactic(auto, using(crate::proofs::Shapes::statements))]
fn walk_next(local: usize, s: &GStmt, before: Flow) -> Flow
    ensures { result ≡ spec.next before before.falls (λ a. spec.walk local (statement_of s.now) a) }
{
    match before.falls {
        None => before,
        Some(assigned) => followed(before, walk(local, s, assigned)),
    }
}

/// What statements do after a flow.
#[cycle(walking)]
#[tactic(auto, using(crate::proofs::Shapes::statements))]
fn walk_block(local: usize, body: &[GStmt], before: Flow) -> Flow
    ensures { result ≡ spec.walk_block local (block (map statement_of body.now)) before }
{
    let mut flow = before;
    for s in body {
        flow = walk_next(local, s, flow);
    }
    flow
}

/// What a branch of an `if` does.
#[cycle(walking)]
#[tactic(auto, using(crate::proofs::Shapes::statements))]
fn walk_branch(local: usize, branch: &Branch, assigned: bool) -> Flow
    ensures { result ≡ spec.walk_arm local (arm_of branch.now) assigned }
{
    let body = walk_block(local, branch.body.as_slice(), passes(true, assigned));
    after_reading(is_sound(assigned, reads_local(local, &branch.test)), body)
}

/// What branches do, beside another flow.
#[cycle(walking)]
#[tactic(auto, using(crate::proofs::Shapes::statements))]
fn walk_branches(local: usize, branches: &[Branch], assigned: bool, beside: Flow) -> Flow
    ensures { result ≡ spec.walk_arms local (arms (map arm_of branches.now)) assigned beside }
{
    let mut flow = beside;
    for branch in branches {
        flow = joined(flow, walk_branch(local, branch, assigned));
    }
    flow
}

/// The local is read in the body only where each path has assigned it.
pub fn is_assigned_first(body: &[GStmt], local: usize) -> bool
    ensures { result ≡ spec.is_assigned_first (block (map statement_of body.now)) local }
{
    walk_block(local, body, passes(true, false)).sound
}
