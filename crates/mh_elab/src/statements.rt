// The execution of statements, one step at a time.
ghost use Rattle.std.specs.Prelude.{◌≡◌, ◌∷◌, Some, map};
ghost use Rattle.mh_consts.specs.Expression.{ex_of};
ghost use Rattle.mh_elab.specs.Elaboration as elaboration;
ghost use Rattle.mh_pytree.specs.declared.statement.FuncDef.{out-FuncDef};
ghost use Rattle.mh_elab.specs.Frames.{frame_of, kept, Leads};
ghost use Rattle.mh_elab.specs.Machine as spec;
ghost use Rattle.mh_world.specs.Statements.{block, block_if_any, choice_of, choices, fn_of, parameter_of, returned_of, st_of, target_of};
ghost use Rattle.mh_world.specs.View.{world};
ghost use Rattle.std.specs.Option.{option_map};

use crate::imports::{import_all, import_names};
use crate::kids::{Kids, of_params, of_read};
use crate::machine::parts;
use crate::waiting::{Around, Control, Job, Machine, Waiting, push};
use mh_consts::Const;
use mh_pytree::{Branch, FuncDef, Operator, PyExpr, PyStmt};
use mh_text::{Code, CodeAt, Fault, Text};
use mh_world::{Flow, Mark, parameters_fit, refuse};
use sqlite_items::Items;
use std::alloc::Global;

/// The next turn of a `while`.
#[tactic(auto, using(crate::proofs::TurnLaws::turns))]
pub(crate) fn test_turn<'a>(
    m: &mut Machine<'a>,
    left: u64,
    line: u32,
    test: &'a PyExpr,
    body: &'a [PyStmt],
) -> Result<Control<'a>, Fault<CodeAt>>
    ensures { Leads (spec.test_turn left line m.old.calls (ex_of test.now) (block (map st_of body.now)) (kept m.old) (world m.old.state)) result m.new }
{
    if left == 0 {
        return refuse(Code::E7ElabLimit, line);
    }
    push(
        &mut m.frames,
        Waiting::Statements(Around::Tests(left - 1, line, test), body),
    )?;
    m.line = line;
    Ok(Control::Eval(test))
}

/// A turn of a `for` with this item.
fn each_turn<'a>(
    alloc: Global,
    m: &mut Machine<'a>,
    left: u64,
    line: u32,
    name: &'a Text,
    item: Const,
    over: Const,
    at: u64,
    body: &'a [PyStmt],
) -> Result<Control<'a>, Fault<CodeAt>>
    ensures { Leads (spec.each_turn (Some item) left line m.old.calls name.now over at (block (map st_of body.now)) (kept m.old) (world m.old.state)) result m.new }
{
    let Some(next) = at.checked_add(1) else {
        return Err(Fault::Memory);
    };
    m.state.bind_name(alloc, line, name, item)?;
    let around = Around::GoesOver(left, line, name, over, next);
    push(&mut m.frames, Waiting::Statements(around, body))?;
    Ok(Control::Exec(true, body))
}

/// The next turn of a `for`.
#[tactic(auto, using(crate::proofs::TurnLaws::turns))]
pub(crate) fn over_turn<'a>(
    alloc: Global,
    m: &mut Machine<'a>,
    left: u64,
    line: u32,
    name: &'a Text,
    over: Const,
    at: u64,
    body: &'a [PyStmt],
) -> Result<Control<'a>, Fault<CodeAt>>
    ensures { Leads (spec.over_turn left line m.old.calls name.now over at (block (map st_of body.now)) (kept m.old) (world m.old.state)) result m.new }
{
    if left == 0 {
        return refuse(Code::E7ElabLimit, line);
    }
    match m.state.item(alloc, line, &over, at)? {
        None => Ok(Control::Ends(Flow::Goes)),
        Some(item) => each_turn(alloc, m, left - 1, line, name, item, over, at, body),
    }
}

/// A condition of an `if`, before other branches and the rest.
#[tactic(auto, using(mh_world::proofs::Shapes::forms))]
fn choice_turn<'a>(
    m: &mut Machine<'a>,
    line: u32,
    in_loop: bool,
    branch: &'a Branch,
    rest: &'a [Branch],
    other: &'a [PyStmt],
) -> Result<Control<'a>, Fault<CodeAt>>
    ensures { Leads (spec.choice_turn line m.old.calls in_loop (choice_of branch.now) (choices (map choice_of rest.now)) (block (map st_of other.now)) (kept m.old) (world m.old.state)) result m.new }
{
    let around = Around::Chooses(in_loop, rest, other);
    push(
        &mut m.frames,
        Waiting::Statements(around, branch.body.as_slice()),
    )?;
    m.line = line;
    Ok(Control::Eval(&branch.test))
}

/// The next condition of an `if`, or the rest.
pub(crate) fn choose_turn<'a>(
    m: &mut Machine<'a>,
    line: u32,
    in_loop: bool,
    branches: &'a [Branch],
    other: &'a [PyStmt],
) -> Result<Control<'a>, Fault<CodeAt>>
    ensures { Leads (spec.choose_turn line m.old.calls in_loop (choices (map choice_of branches.now)) (block (map st_of other.now)) (kept m.old) (world m.old.state)) result m.new }
{
    match branches {
        [] => Ok(Control::Exec(in_loop, other)),
        [branch, rest @ ..] => choice_turn(m, line, in_loop, branch, rest, other),
    }
}

/// The statements of an `else`.
fn others(other: &Option<Items<PyStmt>>) -> &[PyStmt]
    ensures { block (map st_of result.now) ≡ block_if_any (option_map (map st_of) other.now) }
{
    match other {
        None => &[],
        Some(body) => body.as_slice(),
    }
}

/// A definition whose decorators mean this. Where it isn't a generator, its parameters are to fit, and
/// their default values are evaluated first.
fn define_as<'a>(
    alloc: Global,
    m: &mut Machine<'a>,
    mark: Mark,
    f: &'a FuncDef,
) -> Result<Control<'a>, Fault<CodeAt>>
    ensures { Leads (spec.to (elaboration.def_fits mark m.old.line (map parameter_of (out-FuncDef f.now).params) (world m.old.state)) (λ u w. spec.parts m.old.line m.old.calls (spec.Defines mark (fn_of f.now)) (elaboration.def_parts mark (map parameter_of (out-FuncDef f.now).params)) (kept m.old) w)) result m.new }
{
    match mark {
        Mark::Generates => parts(alloc, m, Job::Defines(mark, f), Kids::Nothing),
        Mark::Blocked | Mark::Plain => {
            parameters_fit(alloc, m.line, f.params.as_slice())?;
            let kids = of_params(alloc, f.params.as_slice())?;
            parts(alloc, m, Job::Defines(mark, f), kids)
        }
    }
}

/// A definition.
#[tactic(auto, using(mh_world::proofs::Shapes::forms))]
fn define_turn<'a>(
    alloc: Global,
    m: &mut Machine<'a>,
    f: &'a FuncDef,
) -> Result<Control<'a>, Fault<CodeAt>>
    ensures { Leads (spec.define_turn m.old.calls (fn_of f.now) (kept m.old) (world m.old.state)) result m.new }
{
    let mark = m.state.marked(f.line, f.marks.as_slice())?;
    m.line = f.line;
    define_as(alloc, m, mark, f)
}

/// An expression is evaluated for a statement at a line.
fn awaits<'a>(
    m: &mut Machine<'a>,
    line: u32,
    e: &'a PyExpr,
    f: Waiting<'a>,
) -> Result<Control<'a>, Fault<CodeAt>>
    ensures { Leads (spec.Eval line m.old.calls (ex_of e.now) (frame_of f.entry ∷ kept m.old) (world m.old.state)) result m.new }
{
    m.line = line;
    push(&mut m.frames, f)?;
    Ok(Control::Eval(e))
}

/// A `return`.
fn returns<'a>(
    m: &mut Machine<'a>,
    line: u32,
    e: &'a Option<PyExpr>,
) -> Result<Control<'a>, Fault<CodeAt>>
    ensures { Leads (spec.Eval line m.old.calls (returned_of e.now) (spec.Returning ∷ kept m.old) (world m.old.state)) result m.new }
{
    match e {
        Some(e) => awaits(m, line, e, Waiting::Returning),
        None => {
            m.line = line;
            push(&mut m.frames, Waiting::Returning)?;
            Ok(Control::Nothing)
        }
    }
}

/// An augmented assignment.
fn augments<'a>(
    alloc: Global,
    m: &mut Machine<'a>,
    line: u32,
    op: Operator,
    target: &'a PyExpr,
    e: &'a PyExpr,
) -> Result<Control<'a>, Fault<CodeAt>>
    ensures { Leads (spec.parts line m.old.calls (spec.Reads op (target_of target.now) (ex_of e.now)) (elaboration.read_parts (target_of target.now) (ex_of target.now)) (kept m.old) (world m.old.state)) result m.new }
{
    m.line = line;
    parts(alloc, m, Job::Reads(op, target, e), of_read(target))
}

/// A `break` or a `continue`, which stands in a loop.
fn leave_loop<'a>(
    m: &Machine<'a>,
    in_loop: bool,
    line: u32,
    flow: Flow,
) -> Result<Control<'a>, Fault<CodeAt>>
    ensures { Leads (spec.to (elaboration.leave_loop in_loop line flow (world m.now.state)) (λ f w. spec.Ends m.now.calls f (kept m.now) w)) result m.now }
{
    if in_loop {
        Ok(Control::Ends(flow))
    } else {
        refuse(Code::E2NotElaborable, line)
    }
}

/// A statement. The first argument after the machine tells whether a loop is around.
#[tactic(auto, using(mh_world::proofs::Shapes::forms))]
pub(crate) fn begin<'a>(
    alloc: Global,
    m: &mut Machine<'a>,
    in_loop: bool,
    s: &'a PyStmt,
) -> Result<Control<'a>, Fault<CodeAt>>
    ensures { Leads (spec.begin m.old.calls in_loop (st_of s.now) (kept m.old) (world m.old.state)) result m.new }
{
    match s {
        PyStmt::Value(line, e) => awaits(m, *line, e, Waiting::Drops),
        PyStmt::Assign(line, target, e) => awaits(m, *line, e, Waiting::Assigns(target)),
        PyStmt::Augment(line, op, target, e) => augments(alloc, m, *line, *op, target, e),
        PyStmt::Pass(_) => Ok(Control::Ends(Flow::Goes)),
        PyStmt::Break(line) => leave_loop(m, in_loop, *line, Flow::Leaves),
        PyStmt::Continue(line) => leave_loop(m, in_loop, *line, Flow::Again),
        PyStmt::Return(line, e) => returns(m, *line, e),
        PyStmt::Yield(line, _) | PyStmt::Raise(line, _) | PyStmt::Assert(line, _, _) => {
            refuse(Code::E2NotElaborable, *line)
        }
        PyStmt::ImportAll(line) => {
            import_all(alloc, &mut m.state, *line)?;
            Ok(Control::Ends(Flow::Goes))
        }
        PyStmt::Import(line, names) => {
            import_names(alloc, &mut m.state, *line, names.as_slice())?;
            Ok(Control::Ends(Flow::Goes))
        }
        PyStmt::Def(f) => define_turn(alloc, m, f),
        PyStmt::If(line, branches, other) => {
            choose_turn(m, *line, in_loop, branches.as_slice(), others(other))
        }
        PyStmt::For(line, name, e, body) => {
            awaits(
                m,
                *line,
                e,
                Waiting::Statements(Around::Begins(name), body.as_slice()),
            )
        }
        PyStmt::While(line, test, body) => {
            let turns = m.state.turns();
            test_turn(m, turns, *line, test, body.as_slice())
        }
    }
}
