// How much room the waits of a generator need.
ghost use Rattle.std.specs.Prelude.{◌≡◌, ◌≤◌, length, map, max, IfOk};
ghost use Rattle.mh_design.specs.Bodies.{waits_room};
ghost use Rattle.mh_design.specs.Tree.{statement_of, arm_of, block, arms};
ghost use Rattle.mh_design.specs.Uses.{reset_waits};
ghost use Rattle.mh_signals.specs.Rooms as spec;

use mh_design::{Branch, Design, GStmt, GenKind, Generator, reads};
use mh_text::Memory;
use std::alloc::Global;

/// The greater number.
fn greater(a: usize, b: usize) -> usize
    ensures { result ≡ max a b }
{
    a.max(b)
}

/// The longest list of waits of a `yield` in a statement.
#[cycle(room)]
#[tactic(auto, using(crate::proofs::RoomLaws::statement_shapes))]
fn statement_room(s: &GStmt) -> usize
    ensures { result ≡ spec.yield_room (statement_of s.now) }
{
    match s {
        GStmt::If {
            branches,
            other,
            ..
        } => greater(
            branches_room(branches.as_slice()),
            block_room(other.as_slice()),
        ),
        GStmt::While { body, .. } => block_room(body.as_slice()),
        GStmt::For { body, .. } => block_room(body.as_slice()),
        GStmt::Yield { waits, .. } => waits.len(),
        GStmt::Set { .. } => 0,
        GStmt::Break { .. } => 0,
        GStmt::Continue { .. } => 0,
        GStmt::Print { .. } => 0,
        GStmt::Assert { .. } => 0,
        GStmt::Stop { .. } => 0,
    }
}

/// The longest list of waits of a `yield` in these statements.
#[cycle(room)]
#[tactic(auto, using(crate::proofs::RoomLaws::statement_shapes))]
fn block_room(body: &[GStmt]) -> usize
    ensures { result ≡ spec.block_room (block (map statement_of body.now)) }
{
    let mut most = 0;
    for s in body {
        most = greater(most, statement_room(s));
    }
    most
}

/// The longest list of waits of a `yield` in a branch.
#[cycle(room)]
#[tactic(auto, using(crate::proofs::RoomLaws::statement_shapes))]
fn branch_room(branch: &Branch) -> usize
    ensures { result ≡ spec.arm_room (arm_of branch.now) }
{
    block_room(branch.body.as_slice())
}

/// The longest list of waits of a `yield` in these branches.
#[cycle(room)]
#[tactic(auto, using(crate::proofs::RoomLaws::statement_shapes))]
fn branches_room(branches: &[Branch]) -> usize
    ensures { result ≡ spec.arms_room (arms (map arm_of branches.now)) }
{
    let mut most = 0;
    for branch in branches {
        most = greater(most, branch_room(branch));
    }
    most
}

/// How many waits the reset of an `@always_seq` adds.
fn reset_room(d: &Design, reset: Option<u32>) -> usize
    ensures exact { result ≡ length (reset_waits d.now reset) }
    ensures small { result ≤ 1 }
{
    match reset {
        None => 0,
        Some(r) => match d.signals.get(r as usize) {
            None => 0,
            Some(x) => match x.reset {
                None => 0,
                Some(y) => { if y.asynchronous { 1 } else { 0 } }
            },
        },
    }
}

/// How many waits a generator has at most at one time.
fn room_of(alloc: Global, d: &Design, g: &Generator) -> Result<usize, Memory>
    ensures { IfOk result (λ n. n ≡ waits_room d.now g.now g.now.kind) }
{
    match &g.kind {
        GenKind::Comb => {
            let read = reads(alloc, d, g)?;
            Ok(read.len())
        }
        GenKind::Always(waits) => Ok(waits.len()),
        GenKind::Seq(_, reset) => Ok(1 + reset_room(d, *reset)),
        GenKind::Instance => Ok(block_room(g.body.as_slice())),
    }
}

/// The room of each generator.
pub fn rooms(alloc: Global, d: &Design) -> Result<Vec<usize>, Memory>
    ensures { IfOk result (λ v. v.items ≡ map (λ g. waits_room d.now g g.kind) d.now.generators) }
{
    let mut all = Vec::new(alloc);
    for g in d.generators.as_slice() {
        all.push(room_of(alloc, d, g)?)?;
    }
    Ok(all)
}
