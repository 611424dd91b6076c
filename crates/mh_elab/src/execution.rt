// The one answer to a source.
ghost use Rattle.std.specs.Prelude.{◌≡◌, ◌≤◌, IfOk, map, true};
ghost use Rattle.mh_pytree.specs.Depth.{text_depth};
ghost use Rattle.mh_pytree.specs.Names.{are_names};
ghost use Rattle.mh_elab.specs.Answer as answer;
ghost use Rattle.mh_elab.specs.Answer.{Answers};
ghost use Rattle.mh_elab.specs.Elaboration as spec;
ghost use Rattle.mh_world.specs.Statements.{block, st_of};
ghost use Rattle.mh_elab.specs.Frames.{Executes};
ghost use Rattle.mh_plans.specs.Planned.{Plans};

use crate::machine::step;
use crate::waiting::{Control, Machine};
use mh_plans::{Elaborated, plans};
use mh_pytree::{Module, PyStmt};
use mh_text::{CodeAt, Fault, Refusal};
use mh_world::State;
use sqlite_items::Items;
use std::alloc::Global;

/// So many statements may be executed.
const MOST_STATEMENTS: u32 = 1000000;

/// So many calls may be open at once.
const MOST_CALLS: u32 = 64;

/// What the statements of a source make, or the first rule that is broken.
fn execute<'a>(
    alloc: Global,
    body: &'a [PyStmt],
    limit: u32,
    most: u32,
) -> Result<State<'a>, Fault<CodeAt>>
    ensures { Executes (spec.executed limit most (block (map st_of body.now))) result }
{
    let mut m = Machine {
        frames: Vec::new(alloc),
        line: 0,
        calls: most,
        state: State::new(alloc, limit)?,
    };
    let mut c = Control::Exec(false, body);
    'steps: loop {
        match step(alloc, &mut m, c) {
            Err(e) => return Err(e),
            Ok(None) => {
                let Machine { state, .. } = m;
                return Ok(state);
            }
            Ok(Some(next)) => c = next,
        }
    }
}

/// The designs and requests of a source, or the first rule that is broken.
fn planned(
    alloc: Global,
    body: &[PyStmt],
    limit: u32,
    most: u32,
) -> Result<Elaborated, Fault<CodeAt>>
    ensures { Plans (answer.elaborated_within limit most (block (map st_of body.now))) result }
{
    let state = execute(alloc, body, limit, most)?;
    plans(alloc, &state)
}

/// The designs and requests of a source, where so many statements may be executed and so many calls may
/// be open at once.
pub fn elaborate_within(
    alloc: Global,
    m: &Module,
    limit: u32,
    most: u32,
) -> Result<Elaborated, Refusal>
    ensures { Answers (answer.elaborated_within limit most (block (map st_of m.now.stmts))) result }
{
    match planned(alloc, m.stmts.as_slice(), limit, most) {
        Ok(x) => Ok(x),
        Err(Fault::Broken((code, line))) => Err(Refusal::At {
            code,
            line,
            names: Items::new(alloc),
        }),
        Err(Fault::Memory) => Err(Refusal::Memory),
    }
}

/// The designs and requests of a source, where 1,000,000 statements may be executed and 64 calls may be
/// open at once: one design for each instance that a request names, in order of first request. Or the
/// first rule that a statement breaks, with its line; a design that is too large has none. Refusals name
/// nothing. Each design of a source that is no deeper than the grammar allows, and whose names are names, is well
/// formed.
pub fn elaborate(alloc: Global, m: &Module) -> Result<Elaborated, Refusal>
    ensures answer { Answers (answer.elaborated m.now.stmts) result }
    ensures well_formed { text_depth m.now.stmts ≤ 200 → are_names m.now.stmts ≡ true → IfOk result (λ x. answer.are_well_formed x.tops ≡ true) }
{
    elaborate_within(alloc, m, MOST_STATEMENTS, MOST_CALLS)
}
