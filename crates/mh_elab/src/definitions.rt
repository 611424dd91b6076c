// The definition of a generator: its body is read as the definition is executed.
ghost use Rattle.std.specs.Prelude.{◌≡◌, IfOk, OnOk, filter, length, map, not};
ghost use Rattle.mh_consts.specs.Expression.{ex_of};
ghost use Rattle.mh_elab.specs.Definitions as spec;
ghost use Rattle.mh_design.specs.Numbering.{body_of};
ghost use Rattle.mh_elab.specs.Reads.{in_lines, reads_of};
ghost use Rattle.mh_elab.specs.Views.{texts, ReadsAs};
ghost use Rattle.mh_lower.specs.Generators.{def_of};
ghost use Rattle.mh_world.specs.Frozen.{freeze};
ghost use Rattle.mh_world.specs.Functions as functions;
ghost use Rattle.mh_exprs.specs.Constant.{is_local};
ghost use Rattle.mh_lower.specs.Body.{line_of, lines};
ghost use Rattle.mh_pytree.specs.declared.statement.FuncDef.{out-FuncDef};
ghost use Rattle.mh_world.specs.Seen.{known_onto, scope_of};
ghost use Rattle.mh_world.specs.Statements.{block, parameter_of, st_of};
ghost use Rattle.mh_world.specs.View.{world, Does, same};

use crate::naming::{name_expressions, name_statements};
use mh_consts::{Const, Names};
use mh_design::Generator;
use mh_exprs::{Locals, is_local};
use mh_lower::{collect_all, lower, no_locals};
use mh_pytree::FuncDef;
use mh_text::{CodeAt, Fault, Memory, Refusal, Text};
use mh_world::{Made, State, refuse};
use std::alloc::Global;

/// Adds what these names are bound to.
fn know_all(
    alloc: Global,
    state: &State,
    names: &mut Names<Const>,
    ts: &[&Text],
) -> Result<(), Memory>
    ensures { OnOk result (names.new ≡ known_onto (world state.now) names.old (texts ts.now)) }
{
    for t in ts {
        state.know(alloc, names, t)?;
    }
    Ok(())
}

/// The names that aren't local.
fn outer_names<'t>(alloc: Global, locals: &Locals, ts: &[&'t Text]) -> Result<Vec<&'t Text>, Memory>
    ensures { IfOk result (λ outer. texts outer.items ≡ filter (λ t. not (is_local locals.now t)) (texts ts.now)) }
{
    let mut outer = Vec::new(alloc);
    for t in ts {
        if !is_local(locals, t) {
            outer.push(*t)?;
        }
    }
    Ok(outer)
}

/// What the definition may speak of: the names in its decorators and in its body.
#[tactic(auto, using(crate::proofs::DefinitionLaws::speaking))]
fn speak_of<'a>(
    alloc: Global,
    state: &mut State<'a>,
    f: &FuncDef,
    names: &[&Text],
) -> Result<(), Memory>
    requires { texts names.now ≡ in_lines (lines (map line_of (out-FuncDef f.now).body)) }
    ensures kept { world state.new ≡ world state.old }
    ensures scope { OnOk result (state.new.scope ≡ scope_of (world state.old) (spec.names_in_def (map ex_of (out-FuncDef f.now).marks) (lines (map line_of (out-FuncDef f.now).body)))) }
{
    let mut marks = Vec::new(alloc);
    name_expressions(&mut marks, f.marks.as_slice())?;
    let mut known = Names::new(alloc);
    know_all(alloc, state, &mut known, marks.as_slice())?;
    know_all(alloc, state, &mut known, names)?;
    state.scope.names = known;
    Ok(())
}

/// Reads the definition, in a state that holds what it may speak of.
fn lowered<'a>(
    alloc: Global,
    state: &mut State<'a>,
    f: &FuncDef,
) -> Result<Generator, Fault<CodeAt>>
    ensures kept { world state.new ≡ spec.with_design state.new.design (world state.old) }
    ensures value { ReadsAs (def_of state.old.scope state.old.design f.now) f.now result state.new.design }
{
    match lower(alloc, f, &state.scope, &mut state.design) {
        Ok(g) => Ok(g),
        Err(Refusal::At { code, line, .. }) => refuse(code, line),
        Err(Refusal::Memory) => Err(Fault::Memory),
    }
}

/// A generator more.
fn add_generator<'a>(state: &mut State<'a>, generator: Generator) -> Result<(), Memory>
    ensures { OnOk result (world state.new ≡ functions.add_generator generator.path generator.line generator.kind generator.locals (body_of generator) (world state.old)) }
{
    let inside = state.inside();
    state.generators.push(Made { generator, inside })?;
    Ok(())
}

/// What the body reads from outside isn't changed any more.
fn freeze_reads<'a>(
    alloc: Global,
    state: &mut State<'a>,
    f: &FuncDef,
    names: &[&Text],
) -> Result<(), Memory>
    requires { texts names.now ≡ in_lines (lines (map line_of (out-FuncDef f.now).body)) }
    ensures { OnOk result (world state.new ≡ freeze (reads_of (lines (map line_of (out-FuncDef f.now).body))) (world state.old)) }
{
    let mut locals = no_locals(alloc);
    collect_all(alloc, &mut locals, f.body.as_slice())?;
    let outer = outer_names(alloc, &locals, names)?;
    state.freeze(alloc, outer.as_slice())
}

/// The body of a generator is read.
fn read_def<'a>(alloc: Global, state: &mut State<'a>, f: &FuncDef) -> Result<(), Fault<CodeAt>>
    ensures { Does same (spec.read_def (out-FuncDef f.now).line (out-FuncDef f.now).name (map ex_of (out-FuncDef f.now).marks) (map parameter_of (out-FuncDef f.now).params) (lines (map line_of (out-FuncDef f.now).body)) (world state.old)) result (world state.new) }
{
    let mut names = Vec::new(alloc);
    name_statements(&mut names, f.body.as_slice())?;
    speak_of(alloc, state, f, names.as_slice())?;
    let known = state.design.mems.len();
    let generator = lowered(alloc, state, f)?;
    add_generator(state, generator)?;
    state.freeze_mems(alloc, known)?;
    freeze_reads(alloc, state, f, names.as_slice())?;
    Ok(())
}

/// The definition of a generator is executed.
#[tactic(auto, using(crate::proofs::DefinitionLaws::defining))]
pub(crate) fn new_generator<'a>(
    alloc: Global,
    state: &mut State<'a>,
    f: &FuncDef,
) -> Result<(), Fault<CodeAt>>
    ensures { Does same (spec.new_generator (out-FuncDef f.now).line (out-FuncDef f.now).name (map ex_of (out-FuncDef f.now).marks) (map parameter_of (out-FuncDef f.now).params) (block (map st_of (out-FuncDef f.now).body)) (world state.old)) result (world state.new) }
{
    let n = state.generators.len();
    if n > 4294967295 {
        return Err(Fault::Memory);
    }
    read_def(alloc, state, f)?;
    state.bind_name(alloc, f.line, &f.name, Const::Generator(n as u32))
}
