// How a body is read: its statements in order of text.
ghost use Rattle.std.specs.Prelude.{true, ◌≡◌, [], None, OnOk, map};
ghost use Rattle.std.specs.Option.{option_map};
ghost use Rattle.mh_consts.specs.Expression.{ex_of};
ghost use Rattle.mh_consts.specs.Names.{lookup};
ghost use Rattle.mh_design.specs.declared.design.Design.{Design as AnyDesign};
ghost use Rattle.mh_design.specs.Tree.{statement_of, arm_of};
ghost use Rattle.mh_design.specs.Tree as tree;
ghost use Rattle.mh_exprs.specs.declared.typed.Work.{Work as AnyWork};
ghost use Rattle.mh_lower.specs.Body.{line_of, lines, lines_if_any, choice_of};
ghost use Rattle.mh_lower.specs.Body.{choices as spec_choices};
ghost use Rattle.mh_lower.specs.Bodies as spec;
ghost use Rattle.mh_lower.specs.Paths as ways;
ghost use Rattle.mh_lower.specs.Run.{Does, Runs, placed, placed_with};
ghost use Rattle.mh_lower.specs.Statements as statement;
ghost use Rattle.mh_exprs.specs.Step.{Changes, Grows, just};

use crate::bindings::set_kind;
use crate::paths::{breaks, continues, copy, enters, leaves, leaves_turns, meet, turn};
use crate::statements::{assign, augment, by_itself, claim, condition, ends, is_stop_call, yields};
use crate::typed::Ends;
use mh_consts::Scope;
use mh_design::{Branch, Design, GStmt, Kind, constant_of, ends_give_turn, is_int_kind};
use mh_exprs::{Locals, Typed, Work, kind_at};
use mh_pytree::{Branch as Choice, Operator, PyExpr, PyStmt};
use mh_text::{Code, CodeAt, Fault, Memory, Text};
use sqlite_items::{Boxed, Items};
use std::alloc::Global;

// What was read, or the refusal of the statement at this line.
macro_rules! placed {
    ($line:expr, $read:expr) => {
        match $read {
            Ok(x) => x,
            Err(Fault::Broken(code)) => return Err(Fault::Broken((code, $line))),
            Err(Fault::Memory) => return Err(Fault::Memory),
        }
    };
}

/// The variable of a `for` is an integer.
fn variable(w: &mut Work, v: u32) -> Result<(), Code>
    ensures { Changes (spec.variable w.old v) result w.new }
{
    match kind_at(w, v) {
        None => set_kind(w, v, Kind::Int),
        Some(kind) => {
            if !is_int_kind(kind) {
                return Err(Code::E10KindClash);
            }
        }
    }
    Ok(())
}

/// Whether a loop has a turn, where its ends are constants.
#[tactic(auto, unfolding(mh_design::specs::Assigned::has_turn))]
fn has_turns(x: &Ends) -> Option<bool>
    ensures { result ≡ spec.has_turns x.now }
{
    ends_give_turn(x.down, x.step, constant_of(&x.from), constant_of(&x.to))
}

/// What a `for` goes over.
fn goes_over(
    alloc: Global,
    s: &Scope,
    locals: &Locals,
    w: &Work,
    over: &PyExpr,
    d: &mut Design,
) -> Result<Boxed<Ends>, Fault<Code>>
    ensures { Grows (statement.ends s.now locals.now w.now (ex_of over.now) d.old) result d.new }
{
    Ok(Boxed::new(alloc, ends(alloc, s, locals, w, over, d)?)?)
}

/// The number of the variable of a `for`, and what it goes over.
#[tactic(auto, unfolding(crate::specs::Bodies::begins))]
fn begins(
    alloc: Global,
    s: &Scope,
    locals: &Locals,
    w: &mut Work,
    t: &Text,
    over: &PyExpr,
    d: &mut Design,
) -> Result<(u32, Boxed<Ends>), Fault<Code>>
    ensures { Does (λ x. x) (spec.begins s.now locals.now (lookup locals.now.numbers t.now) (ex_of over.now) w.old d.old) result w.new d.new }
{
    match locals.numbers.find(t) {
        None => Err(Fault::Broken(Code::E10KindClash)),
        Some(v) => {
            let x = goes_over(alloc, s, locals, w, over, d)?;
            variable(w, *v)?;
            Ok((*v, x))
        }
    }
}

/// The same for the `for` at this line.
fn begins_at(
    alloc: Global,
    s: &Scope,
    locals: &Locals,
    line: u32,
    t: &Text,
    over: &PyExpr,
    w: &mut Work,
    d: &mut Design,
) -> Result<(u32, Boxed<Ends>), Fault<CodeAt>>
    ensures { Runs (λ x. x) (placed_with line (spec.begins s.now locals.now (lookup locals.now.numbers t.now) (ex_of over.now) w.old d.old)) result w.new d.new }
{
    Ok(placed!(line, begins(alloc, s, locals, w, t, over, d)))
}

/// The condition of the statement at this line.
fn test_at(
    alloc: Global,
    s: &Scope,
    locals: &Locals,
    line: u32,
    e: &PyExpr,
    w: &Work,
    d: &mut Design,
) -> Result<Boxed<Typed>, Fault<CodeAt>>
    ensures { Runs (λ t. t) (placed line w.now (statement.condition s.now locals.now w.now (ex_of e.now) d.old)) result w.now d.new }
{
    let t = placed!(line, condition(alloc, s, locals, w, e, d));
    Ok(Boxed::new(alloc, t)?)
}

/// An expression by itself.
fn value_line(
    alloc: Global,
    s: &Scope,
    locals: &Locals,
    line: u32,
    e: &PyExpr,
    w: &Work,
    d: &mut Design,
) -> Result<Option<GStmt>, Fault<CodeAt>>
    ensures { Runs (option_map statement_of) (placed line w.now (statement.by_itself s.now locals.now w.now line (ex_of e.now) d.old)) result w.now d.new }
{
    Ok(placed!(line, by_itself(alloc, s, locals, w, line, e, d)))
}

/// `target = e`
fn assign_line(
    alloc: Global,
    s: &Scope,
    locals: &Locals,
    line: u32,
    target: &PyExpr,
    e: &PyExpr,
    w: &mut Work,
    d: &mut Design,
) -> Result<Option<GStmt>, Fault<CodeAt>>
    ensures { Runs (option_map statement_of) (spec.some (placed_with line (statement.assign s.now locals.now w.old line (ex_of target.now) (ex_of e.now) d.old))) result w.new d.new }
{
    Ok(Some(placed!(line, assign(alloc, s, locals, w, line, target, e, d))))
}

/// `target += e` and the like.
fn augment_line(
    alloc: Global,
    s: &Scope,
    locals: &Locals,
    line: u32,
    op: Operator,
    target: &PyExpr,
    e: &PyExpr,
    w: &mut Work,
    d: &mut Design,
) -> Result<Option<GStmt>, Fault<CodeAt>>
    ensures { Runs (option_map statement_of) (spec.some (placed_with line (statement.augment s.now locals.now w.old line op (ex_of target.now) (ex_of e.now) d.old))) result w.new d.new }
{
    Ok(Some(placed!(line, augment(alloc, s, locals, w, line, op, target, e, d))))
}

/// `break`
fn break_line(
    alloc: Global,
    in_loop: bool,
    line: u32,
    w: &mut Work,
) -> Result<Option<GStmt>, Fault<CodeAt>>
    ensures { (c : AnyDesign) → Runs (option_map statement_of) (spec.leave in_loop line (tree.Break line) ways.breaks w.old c) result w.new c }
{
    if !in_loop {
        return Err(Fault::Broken((Code::E2NotElaborable, line)));
    }
    breaks(alloc, w)?;
    Ok(Some(GStmt::Break { line }))
}

/// `continue`
fn continue_line(
    alloc: Global,
    in_loop: bool,
    line: u32,
    w: &mut Work,
) -> Result<Option<GStmt>, Fault<CodeAt>>
    ensures { (c : AnyDesign) → Runs (option_map statement_of) (spec.leave in_loop line (tree.Continue line) ways.continues w.old c) result w.new c }
{
    if !in_loop {
        return Err(Fault::Broken((Code::E2NotElaborable, line)));
    }
    continues(alloc, w)?;
    Ok(Some(GStmt::Continue { line }))
}

/// `raise StopSimulation()`
fn raise_line(
    s: &Scope,
    locals: &Locals,
    line: u32,
    e: &PyExpr,
    w: &mut Work,
) -> Result<Option<GStmt>, Fault<CodeAt>>
    ensures { (c : AnyDesign) → Runs (option_map statement_of) (spec.leave (statement.is_stop_call s.now locals.now (ex_of e.now)) line (tree.Stop line) ways.stops w.old c) result w.new c }
{
    if !is_stop_call(s, locals, e) {
        return Err(Fault::Broken((Code::E2NotElaborable, line)));
    }
    w.here = None;
    Ok(Some(GStmt::Stop { line }))
}

/// `yield`
fn yield_line(
    alloc: Global,
    s: &Scope,
    locals: &Locals,
    instance: bool,
    line: u32,
    e: &PyExpr,
) -> Result<Option<GStmt>, Fault<CodeAt>>
    ensures { (u : AnyWork) (c : AnyDesign) → Runs (option_map statement_of) (spec.some (placed line u (just (statement.yields s.now locals.now instance line (ex_of e.now)) c))) result u c }
{
    Ok(Some(placed!(line, yields(alloc, s, locals, instance, line, e))))
}

/// `assert e`
fn assert_line(
    alloc: Global,
    s: &Scope,
    locals: &Locals,
    line: u32,
    e: &PyExpr,
    w: &Work,
    d: &mut Design,
) -> Result<Option<GStmt>, Fault<CodeAt>>
    ensures { Runs (option_map statement_of) (spec.some (placed line w.now (statement.claim s.now locals.now w.now line (ex_of e.now) d.old))) result w.now d.new }
{
    Ok(Some(placed!(line, claim(alloc, s, locals, w, line, e, d))))
}

/// One statement, or none.
#[cycle(bodies)]
#[tactic(auto, using(crate::proofs::Lines::statements))]
fn read_line(
    alloc: Global,
    s: &Scope,
    locals: &Locals,
    instance: bool,
    in_loop: bool,
    x: &PyStmt,
    w: &mut Work,
    d: &mut Design,
) -> Result<Option<GStmt>, Fault<CodeAt>>
    ensures { Runs (option_map statement_of) (spec.read_line s.now locals.now instance in_loop (line_of x.now) w.old d.old) result w.new d.new }
{
    match x {
        PyStmt::Value(l, e) => value_line(alloc, s, locals, *l, e, w, d),
        PyStmt::Assign(l, target, e) => assign_line(alloc, s, locals, *l, target, e, w, d),
        PyStmt::Augment(l, op, target, e) => {
            augment_line(alloc, s, locals, *l, *op, target, e, w, d)
        }
        PyStmt::Pass(_) => Ok(None),
        PyStmt::Break(l) => break_line(alloc, in_loop, *l, w),
        PyStmt::Continue(l) => continue_line(alloc, in_loop, *l, w),
        PyStmt::Yield(l, e) => yield_line(alloc, s, locals, instance, *l, e),
        PyStmt::Raise(l, e) => raise_line(s, locals, *l, e, w),
        PyStmt::Assert(l, e, _) => assert_line(alloc, s, locals, *l, e, w, d),
        PyStmt::If(l, branches, other) => {
            let choices = branches.as_slice();
            read_if(
                alloc, s, locals, instance, in_loop, *l, choices, other, w, d,
            )
        }
        PyStmt::For(l, t, over, body) => {
            let turns = body.as_slice();
            read_for(alloc, s, locals, instance, *l, t, over, turns, w, d)
        }
        PyStmt::While(l, e, body) => {
            let again = body.as_slice();
            read_while(alloc, s, locals, instance, *l, e, again, w, d)
        }
        PyStmt::Return(l, _) => Err(Fault::Broken((Code::E2NotElaborable, *l))),
        PyStmt::ImportAll(l) => Err(Fault::Broken((Code::E2NotElaborable, *l))),
        PyStmt::Import(l, _) => Err(Fault::Broken((Code::E2NotElaborable, *l))),
        PyStmt::Def(f) => Err(Fault::Broken((Code::E2NotElaborable, f.line))),
    }
}

/// The statements so far, with one more, or with none.
fn add(out: &mut Items<GStmt>, made: Option<GStmt>) -> Result<(), Memory>
    ensures { OnOk result (map statement_of out.new ≡ spec.with_any (map statement_of out.old) (option_map statement_of made)) }
{
    match made {
        None => Ok(()),
        Some(x) => Ok(out.push(x)?),
    }
}

/// Statements in order.
#[cycle(bodies)]
#[tactic(auto, using(crate::proofs::Lines::blocks))]
pub(crate) fn read_lines(
    alloc: Global,
    s: &Scope,
    locals: &Locals,
    instance: bool,
    in_loop: bool,
    xs: &[PyStmt],
    w: &mut Work,
    d: &mut Design,
) -> Result<Items<GStmt>, Fault<CodeAt>>
    ensures { Runs (map statement_of) (spec.read_lines s.now locals.now instance in_loop [] (lines (map line_of xs.now)) w.old d.old) result w.new d.new }
{
    let mut out = Items::new(alloc);
    for x in xs {
        let made = read_line(alloc, s, locals, instance, in_loop, x, w, d)?;
        add(&mut out, made)?;
    }
    Ok(out)
}

/// A `while`.
#[cycle(bodies)]
#[tactic(auto, using(crate::proofs::Lines::blocks), unfolding(crate::specs::Bodies::while_line))]
fn read_while(
    alloc: Global,
    s: &Scope,
    locals: &Locals,
    instance: bool,
    line: u32,
    e: &PyExpr,
    body: &[PyStmt],
    w: &mut Work,
    d: &mut Design,
) -> Result<Option<GStmt>, Fault<CodeAt>>
    ensures { Runs (option_map statement_of) (spec.some (spec.while_line s.now locals.now line (ex_of e.now) (spec.read_lines s.now locals.now instance true [] (lines (map line_of body.now))) w.old d.old)) result w.new d.new }
{
    let t = test_at(alloc, s, locals, line, e, w, d)?;
    let before = copy(alloc, &w.here)?;
    let here = w.here.take();
    let around = enters(w, here);
    let ss = read_lines(alloc, s, locals, instance, true, body, w, d)?;
    leaves(w, around, before);
    Ok(Some(GStmt::While {
        line,
        test: t.into_inner().expr,
        body: ss,
    }))
}

/// A `for`.
#[cycle(bodies)]
#[tactic(auto, using(crate::proofs::Lines::blocks), unfolding(crate::specs::Bodies::for_line))]
fn read_for(
    alloc: Global,
    s: &Scope,
    locals: &Locals,
    instance: bool,
    line: u32,
    t: &Text,
    over: &PyExpr,
    body: &[PyStmt],
    w: &mut Work,
    d: &mut Design,
) -> Result<Option<GStmt>, Fault<CodeAt>>
    ensures { Runs (option_map statement_of) (spec.some (spec.for_line s.now locals.now line (lookup locals.now.numbers t.now) (ex_of over.now) (spec.read_lines s.now locals.now instance true [] (lines (map line_of body.now))) w.old d.old)) result w.new d.new }
{
    let (v, x) = begins_at(alloc, s, locals, line, t, over, w, d)?;
    let has = has_turns(x.get());
    let before = w.here.take();
    let inside = turn(alloc, has, v, &before)?;
    let around = enters(w, inside);
    let ss = read_lines(alloc, s, locals, instance, true, body, w, d)?;
    leaves_turns(alloc, has, w, around, before)?;
    let x = x.into_inner();
    Ok(Some(GStmt::For {
        line,
        variable: v,
        down: x.down,
        from: x.from,
        to: x.to,
        step: x.step,
        body: ss,
    }))
}

/// A branch of an `if`.
#[cycle(bodies)]
#[tactic(auto, using(crate::proofs::Lines::blocks), unfolding(crate::specs::Bodies::branch_line))]
fn read_branch(
    alloc: Global,
    s: &Scope,
    locals: &Locals,
    instance: bool,
    in_loop: bool,
    line: u32,
    choice: &Choice,
    w: &mut Work,
    d: &mut Design,
) -> Result<Branch, Fault<CodeAt>>
    ensures { Runs arm_of (spec.read_choice s.now locals.now instance in_loop line (choice_of choice.now) w.old d.old) result w.new d.new }
{
    let t = test_at(alloc, s, locals, line, &choice.test, w, d)?;
    let body = choice.body.as_slice();
    let ss = read_lines(alloc, s, locals, instance, in_loop, body, w, d)?;
    Ok(Branch {
        test: t.into_inner().expr,
        body: ss,
    })
}

/// The branches of an `if`, each from the paths that lead to it, with the paths that leave them.
#[cycle(bodies)]
#[tactic(auto, using(crate::proofs::Lines::blocks))]
fn read_branches(
    alloc: Global,
    s: &Scope,
    locals: &Locals,
    instance: bool,
    in_loop: bool,
    line: u32,
    choices: &[Choice],
    before: &Option<Items<bool>>,
    w: &mut Work,
    d: &mut Design,
) -> Result<(Items<Branch>, Option<Items<bool>>), Fault<CodeAt>>
    ensures { Runs spec.branches_of (spec.read_choices s.now locals.now instance in_loop line before.now ([], None) (spec_choices (map choice_of choices.now)) w.old d.old) result w.new d.new }
{
    let mut branches = Items::new(alloc);
    let mut after = None;
    for choice in choices {
        w.here = copy(alloc, before)?;
        let branch = read_branch(alloc, s, locals, instance, in_loop, line, choice, w, d)?;
        branches.push(branch)?;
        after = meet(alloc, after, &w.here)?;
    }
    Ok((branches, after))
}

/// The statements of an `else`, if there is one.
#[cycle(bodies)]
#[tactic(auto, using(crate::proofs::Lines::blocks))]
fn read_other(
    alloc: Global,
    s: &Scope,
    locals: &Locals,
    instance: bool,
    in_loop: bool,
    other: &Option<Items<PyStmt>>,
    w: &mut Work,
    d: &mut Design,
) -> Result<Items<GStmt>, Fault<CodeAt>>
    ensures { Runs (map statement_of) (spec.read_lines s.now locals.now instance in_loop [] (lines_if_any (option_map (map line_of) other.now)) w.old d.old) result w.new d.new }
{
    match other {
        None => Ok(Items::new(alloc)),
        Some(xs) => read_lines(alloc, s, locals, instance, in_loop, xs.as_slice(), w, d),
    }
}

/// An `if` with its `elif`s and its `else`.
#[cycle(bodies)]
#[tactic(auto, using(crate::proofs::Lines::blocks), unfolding(crate::specs::Bodies::if_line))]
fn read_if(
    alloc: Global,
    s: &Scope,
    locals: &Locals,
    instance: bool,
    in_loop: bool,
    line: u32,
    choices: &[Choice],
    other: &Option<Items<PyStmt>>,
    w: &mut Work,
    d: &mut Design,
) -> Result<Option<GStmt>, Fault<CodeAt>>
    ensures { Runs (option_map statement_of) (spec.some (spec.if_line line (λ p. spec.read_choices s.now locals.now instance in_loop line p ([], None) (spec_choices (map choice_of choices.now))) (spec.read_lines s.now locals.now instance in_loop [] (lines_if_any (option_map (map line_of) other.now))) w.old d.old)) result w.new d.new }
{
    let before = copy(alloc, &w.here)?;
    let (branches, after) = read_branches(
        alloc, s, locals, instance, in_loop, line, choices, &before, w, d,
    )?;
    w.here = before;
    let rest = read_other(alloc, s, locals, instance, in_loop, other, w, d)?;
    w.here = meet(alloc, after, &w.here)?;
    Ok(Some(GStmt::If {
        line,
        branches,
        other: rest,
    }))
}
