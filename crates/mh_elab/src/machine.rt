// The execution of expressions, one step at a time, and of what waits for their values.
ghost use Rattle.std.specs.Prelude.{◌≡◌, ◌≢◌, ◌∷◌, ◌+◌, Some, false, map, length, true};
ghost use Rattle.mh_consts.specs.Expression as x;
ghost use Rattle.mh_consts.specs.Expression.{ex_of, given_of, keys_of};
ghost use Rattle.mh_elab.specs.Frames.{around_of, config, frame_of, job_of, kept, statements, Leads, Steps};
ghost use Rattle.mh_elab.specs.Machine as spec;
ghost use Rattle.mh_elab.specs.Views.{exs_of};
ghost use Rattle.mh_world.specs.Statements.{block, choice_of, choices, fn_of, st_of, target_of};
ghost use Rattle.mh_world.specs.Seen as seen;
ghost use Rattle.mh_world.specs.View.{world};

use crate::calls::call_first;
use crate::definitions::new_generator;
use crate::kids::{Kids, of_expression, of_target, part_at};
use crate::statements::{begin, choose_turn, over_turn, test_turn};
use crate::targets::{held, put, update};
use crate::waiting::{Around, Control, Job, Machine, Waiting, pop, push};
use mh_consts::{Const, attribute_in, truth};
use mh_pytree::{Argument, Branch, FuncDef, Operator, PyExpr, PyStmt};
use mh_text::{Code, CodeAt, Fault, Text};
use mh_world::{Flow, Mark, at_line, refuse};
use sqlite_items::Items;
use std::alloc::Global;

// ---- parts

/// An operation that is no call of a function.
#[tactic(auto, using(crate::proofs::OperationLaws::operates_other))]
fn operated<'a>(
    alloc: Global,
    m: &mut Machine<'a>,
    e: &'a PyExpr,
    done: Items<Const>,
) -> Result<Control<'a>, Fault<CodeAt>>
    requires { spec.is_call (ex_of e.now) ≡ false }
    ensures { Leads (spec.operates_in m.old.line m.old.calls (ex_of e.now) done (kept m.old) (world m.old.state)) result m.new }
{
    let v = m.state.operate(alloc, m.line, e, done)?;
    Ok(Control::Give(v))
}

/// A call: of a method, or of what is evaluated first.
#[tactic(auto, using(crate::proofs::OperationLaws::call_laws))]
fn operates_call<'a>(
    alloc: Global,
    m: &mut Machine<'a>,
    e: &'a PyExpr,
    f: &'a PyExpr,
    arguments: &'a [Argument],
    done: Items<Const>,
) -> Result<Control<'a>, Fault<CodeAt>>
    requires { ex_of e.now ≡ x.called (ex_of f.now) (keys_of (map given_of arguments.now)) (x.parts_of (map given_of arguments.now)) }
    ensures { Leads (spec.operates_in m.old.line m.old.calls (ex_of e.now) done (kept m.old) (world m.old.state)) result m.new }
{
    match attribute_in(f) {
        Some(_) => operated(alloc, m, e, done),
        None => call_first(alloc, m, e, arguments, done.as_slice()),
    }
}

/// An operation at the values of its parts.
#[tactic(auto, using(crate::proofs::OperationLaws::call_forms))]
fn operates<'a>(
    alloc: Global,
    m: &mut Machine<'a>,
    e: &'a PyExpr,
    done: Items<Const>,
) -> Result<Control<'a>, Fault<CodeAt>>
    ensures { Leads (spec.operates_in m.old.line m.old.calls (ex_of e.now) done (kept m.old) (world m.old.state)) result m.new }
{
    match e {
        PyExpr::Group(a) => operates(alloc, m, a.get(), done),
        PyExpr::Call(f, arguments) => operates_call(
            alloc,
            m,
            e,
            f.get(),
            arguments.as_slice(),
            done,
        ),
        PyExpr::Name(_)
        | PyExpr::Number(_)
        | PyExpr::Str(_)
        | PyExpr::True
        | PyExpr::False
        | PyExpr::None
        | PyExpr::Bracketed(_)
        | PyExpr::Tuple(_)
        | PyExpr::List(_)
        | PyExpr::Comprehension(_, _, _)
        | PyExpr::Not(_)
        | PyExpr::Unary(_, _)
        | PyExpr::Binary(_, _, _)
        | PyExpr::Attribute(_, _)
        | PyExpr::Index(_, _)
        | PyExpr::Whole(_) => operated(alloc, m, e, done),
        PyExpr::Slice(_, _, lower) => match lower {
            Some(_) => operated(alloc, m, e, done),
            None => operated(alloc, m, e, done),
        },
    }
}

/// A value gets to a target.
fn puts<'a>(
    alloc: Global,
    m: &mut Machine<'a>,
    target: &'a PyExpr,
    v: Const,
    done: Items<Const>,
) -> Result<Control<'a>, Fault<CodeAt>>
    ensures { Leads (spec.finish m.old.line m.old.calls (spec.Puts (target_of target.now) v) done (kept m.old) (world m.old.state)) result m.new }
{
    put(alloc, &mut m.state, m.line, target, v, done.as_slice())?;
    Ok(Control::Ends(Flow::Goes))
}

/// A target is read, before the right side of an augmented assignment.
fn reads<'a>(
    alloc: Global,
    m: &mut Machine<'a>,
    op: Operator,
    target: &'a PyExpr,
    right: &'a PyExpr,
    done: Items<Const>,
) -> Result<Control<'a>, Fault<CodeAt>>
    ensures { Leads (spec.finish m.old.line m.old.calls (spec.Reads op (target_of target.now) (ex_of right.now)) done (kept m.old) (world m.old.state)) result m.new }
{
    let v = held(alloc, &mut m.state, m.line, target, done.as_slice())?;
    push(&mut m.frames, Waiting::Updates(op, target, done, v))?;
    Ok(Control::Eval(right))
}

/// A definition, with its default values.
#[tactic(auto, using(mh_world::proofs::Shapes::forms))]
fn defines<'a>(
    alloc: Global,
    m: &mut Machine<'a>,
    mark: Mark,
    f: &'a FuncDef,
    done: Items<Const>,
) -> Result<Control<'a>, Fault<CodeAt>>
    ensures { Leads (spec.finish m.old.line m.old.calls (spec.Defines mark (fn_of f.now)) done (kept m.old) (world m.old.state)) result m.new }
{
    match mark {
        Mark::Generates => {
            new_generator(alloc, &mut m.state, f)?;
            Ok(Control::Ends(Flow::Goes))
        }
        Mark::Blocked => {
            m.state.new_function(alloc, f, true, done.as_slice())?;
            Ok(Control::Ends(Flow::Goes))
        }
        Mark::Plain => {
            m.state.new_function(alloc, f, false, done.as_slice())?;
            Ok(Control::Ends(Flow::Goes))
        }
    }
}

/// All parts have their values.
fn finish<'a>(
    alloc: Global,
    m: &mut Machine<'a>,
    job: Job<'a>,
    done: Items<Const>,
) -> Result<Control<'a>, Fault<CodeAt>>
    ensures { Leads (spec.finish m.old.line m.old.calls (job_of job.entry) done (kept m.old) (world m.old.state)) result m.new }
{
    match job {
        Job::Operates(e) => operates(alloc, m, e, done),
        Job::Puts(target, v) => puts(alloc, m, target, v, done),
        Job::Reads(op, target, right) => reads(alloc, m, op, target, right, done),
        Job::Defines(mark, f) => defines(alloc, m, mark, f, done),
    }
}

/// The next part, or what is done once there are no more.
pub(crate) fn next_part<'a>(
    alloc: Global,
    m: &mut Machine<'a>,
    job: Job<'a>,
    kids: Kids<'a>,
    done: Items<Const>,
) -> Result<Control<'a>, Fault<CodeAt>>
    ensures { Leads (spec.next_part m.old.line m.old.calls (job_of job.entry) (exs_of kids.entry) done (spec.part (exs_of kids.entry) (length done)) (kept m.old) (world m.old.state)) result m.new }
{
    match part_at(&kids, done.len()) {
        None => finish(alloc, m, job, done),
        Some(e) => {
            push(&mut m.frames, Waiting::Parts(job, kids, done))?;
            Ok(Control::Eval(e))
        }
    }
}

/// Parts, from the first on.
pub(crate) fn parts<'a>(
    alloc: Global,
    m: &mut Machine<'a>,
    job: Job<'a>,
    kids: Kids<'a>,
) -> Result<Control<'a>, Fault<CodeAt>>
    ensures { Leads (spec.parts m.old.line m.old.calls (job_of job.entry) (exs_of kids.entry) (kept m.old) (world m.old.state)) result m.new }
{
    next_part(alloc, m, job, kids, Items::new(alloc))
}

// ---- lists with `for`

/// The item of a turn is made.
fn gather<'a>(
    m: &mut Machine<'a>,
    left: u64,
    item: &'a PyExpr,
    name: &'a Text,
    over: Const,
    at: u64,
    done: Items<Const>,
) -> Result<Control<'a>, Fault<CodeAt>>
    ensures { Leads (spec.Eval m.old.line m.old.calls (ex_of item.now) (spec.Collects left (ex_of item.now) name.now over (at + 1) done ∷ kept m.old) (world m.old.state)) result m.new }
{
    let Some(next) = at.checked_add(1) else {
        return Err(Fault::Memory);
    };
    push(
        &mut m.frames,
        Waiting::Collects(left, item, name, over, next, done),
    )?;
    Ok(Control::Eval(item))
}

/// A turn of a list with `for`.
#[tactic(auto, using(crate::proofs::TurnLaws::turns))]
fn collect_turn<'a>(
    alloc: Global,
    m: &mut Machine<'a>,
    left: u64,
    item: &'a PyExpr,
    name: &'a Text,
    over: Const,
    at: u64,
    done: Items<Const>,
) -> Result<Control<'a>, Fault<CodeAt>>
    ensures { Leads (spec.collect_turn left m.old.line m.old.calls (ex_of item.now) name.now over at done (kept m.old) (world m.old.state)) result m.new }
{
    if left == 0 {
        return refuse(Code::E7ElabLimit, m.line);
    }
    match m.state.item(alloc, m.line, &over, at)? {
        None => {
            let v = m.state.new_list(m.line, done)?;
            Ok(Control::Give(v))
        }
        Some(v) => {
            m.state.counted(m.line)?;
            m.state.push_inner(name.copy(alloc)?, v)?;
            gather(m, left - 1, item, name, over, at, done)
        }
    }
}

// ---- expressions

/// The right side of `and` and `or` waits.
fn eval_left<'a>(
    m: &mut Machine<'a>,
    left: &'a PyExpr,
    right: Waiting<'a>,
) -> Result<Control<'a>, Fault<CodeAt>>
    ensures { Leads (spec.Eval m.old.line m.old.calls (ex_of left.now) (frame_of right.entry ∷ kept m.old) (world m.old.state)) result m.new }
{
    push(&mut m.frames, right)?;
    Ok(Control::Eval(left))
}

/// An operation, whose parts are evaluated first.
#[tactic(auto, using(crate::proofs::OperationLaws::eval_operation))]
fn eval_parts<'a>(
    alloc: Global,
    m: &mut Machine<'a>,
    e: &'a PyExpr,
) -> Result<Control<'a>, Fault<CodeAt>>
    requires { spec.is_operation (ex_of e.now) ≡ true }
    ensures { Leads (spec.eval m.old.line m.old.calls (ex_of e.now) (kept m.old) (world m.old.state)) result m.new }
{
    parts(alloc, m, Job::Operates(e), of_expression(e))
}

/// An operation of two. The right side of `and` and `or` waits.
fn eval_binary<'a>(
    alloc: Global,
    m: &mut Machine<'a>,
    e: &'a PyExpr,
    operator: Operator,
    left: &'a PyExpr,
    right: &'a PyExpr,
) -> Result<Control<'a>, Fault<CodeAt>>
    requires { ex_of e.now ≡ x.binary operator (ex_of left.now) (ex_of right.now) }
    ensures { Leads (spec.eval m.old.line m.old.calls (ex_of e.now) (kept m.old) (world m.old.state)) result m.new }
{
    match operator {
        Operator::And => eval_left(m, left, Waiting::AndRight(right)),
        Operator::Or => eval_left(m, left, Waiting::OrRight(right)),
        Operator::Equal
        | Operator::NotEqual
        | Operator::Less
        | Operator::LessEqual
        | Operator::Greater
        | Operator::GreaterEqual
        | Operator::BitOr
        | Operator::BitXor
        | Operator::BitAnd
        | Operator::ShiftLeft
        | Operator::ShiftRight
        | Operator::Add
        | Operator::Subtract
        | Operator::Multiply
        | Operator::Divide
        | Operator::Remainder => eval_parts(alloc, m, e),
    }
}

/// The value of a name.
fn eval_name<'a>(alloc: Global, m: &mut Machine<'a>, t: &Text) -> Result<Control<'a>, Fault<CodeAt>>
    ensures { Leads (spec.to (seen.name m.old.line t.now (world m.old.state)) (λ v w. spec.Give m.old.line m.old.calls v (kept m.old) w)) result m.new }
{
    let v = m.state.name(alloc, m.line, t)?;
    Ok(Control::Give(v))
}

/// An expression.
#[tactic(auto, using(crate::proofs::OperationLaws::operation_forms))]
fn eval<'a>(alloc: Global, m: &mut Machine<'a>, e: &'a PyExpr) -> Result<Control<'a>, Fault<CodeAt>>
    ensures { Leads (spec.eval m.old.line m.old.calls (ex_of e.now) (kept m.old) (world m.old.state)) result m.new }
{
    match e {
        PyExpr::Name(t) => eval_name(alloc, m, t),
        PyExpr::Number(n) => Ok(Control::Give(Const::Int(*n))),
        PyExpr::Str(bytes) => Ok(Control::Give(Const::Str(bytes.copy(alloc)?))),
        PyExpr::True => Ok(Control::Give(Const::Truth(true))),
        PyExpr::False => Ok(Control::Give(Const::Truth(false))),
        PyExpr::None => Ok(Control::Give(Const::None)),
        PyExpr::Group(a) => eval(alloc, m, a.get()),
        PyExpr::Comprehension(item, name, over) => {
            eval_left(m, over.get(), Waiting::Collecting(item.get(), name))
        }
        PyExpr::Binary(operator, a, b) => { eval_binary(alloc, m, e, *operator, a.get(), b.get()) }
        PyExpr::Bracketed(_)
        | PyExpr::Tuple(_)
        | PyExpr::List(_)
        | PyExpr::Not(_)
        | PyExpr::Unary(_, _)
        | PyExpr::Attribute(_, _)
        | PyExpr::Call(_, _)
        | PyExpr::Index(_, _)
        | PyExpr::Whole(_) => eval_parts(alloc, m, e),
        PyExpr::Slice(_, _, lower) => match lower {
            Some(_) => eval_parts(alloc, m, e),
            None => eval_parts(alloc, m, e),
        },
    }
}

// ---- what waits for a value

/// The left side of an `and` has a value.
fn and_given<'a>(
    m: &mut Machine<'a>,
    v: &Const,
    right: &'a PyExpr,
) -> Result<Control<'a>, Fault<CodeAt>>
    ensures { Leads (spec.give m.old.line m.old.calls v.now (spec.AndRight (ex_of right.now) ∷ kept m.old) (world m.old.state)) result m.new }
{
    if at_line(truth(v), m.line)? {
        push(&mut m.frames, Waiting::AsTruth)?;
        Ok(Control::Eval(right))
    } else {
        Ok(Control::Give(Const::Truth(false)))
    }
}

/// The left side of an `or` has a value.
fn or_given<'a>(
    m: &mut Machine<'a>,
    v: &Const,
    right: &'a PyExpr,
) -> Result<Control<'a>, Fault<CodeAt>>
    ensures { Leads (spec.give m.old.line m.old.calls v.now (spec.OrRight (ex_of right.now) ∷ kept m.old) (world m.old.state)) result m.new }
{
    if at_line(truth(v), m.line)? {
        Ok(Control::Give(Const::Truth(true)))
    } else {
        push(&mut m.frames, Waiting::AsTruth)?;
        Ok(Control::Eval(right))
    }
}

/// A value as a truth value.
fn as_truth<'a>(m: &Machine<'a>, v: &Const) -> Result<Control<'a>, Fault<CodeAt>>
    ensures { Leads (spec.give m.now.line m.now.calls v.now (spec.AsTruth ∷ kept m.now) (world m.now.state)) result m.now }
{
    let t = at_line(truth(v), m.line)?;
    Ok(Control::Give(Const::Truth(t)))
}

/// The condition of an `if` or `elif` has a value.
fn chooses<'a>(
    m: &mut Machine<'a>,
    v: &Const,
    in_loop: bool,
    body: &'a [PyStmt],
    rest: &'a [Branch],
    other: &'a [PyStmt],
) -> Result<Control<'a>, Fault<CodeAt>>
    ensures { Leads (spec.give m.old.line m.old.calls v.now (spec.Chooses in_loop (statements body.now) (choices (map choice_of rest.now)) (statements other.now) ∷ kept m.old) (world m.old.state)) result m.new }
{
    let line = m.line;
    if at_line(truth(v), line)? {
        Ok(Control::Exec(in_loop, body))
    } else {
        choose_turn(m, line, in_loop, rest, other)
    }
}

/// The condition of a `while` has a value.
fn tests<'a>(
    m: &mut Machine<'a>,
    v: &Const,
    left: u64,
    line: u32,
    test: &'a PyExpr,
    body: &'a [PyStmt],
) -> Result<Control<'a>, Fault<CodeAt>>
    ensures { Leads (spec.give m.old.line m.old.calls v.now (spec.Tests left line (ex_of test.now) (statements body.now) ∷ kept m.old) (world m.old.state)) result m.new }
{
    if at_line(truth(v), line)? {
        push(
            &mut m.frames,
            Waiting::Statements(Around::Turns(left, line, test), body),
        )?;
        Ok(Control::Exec(true, body))
    } else {
        Ok(Control::Ends(Flow::Goes))
    }
}

/// The right side of an augmented assignment has a value.
fn updates<'a>(
    alloc: Global,
    m: &mut Machine<'a>,
    op: Operator,
    target: &'a PyExpr,
    done: Items<Const>,
    left: &Const,
    right: &Const,
) -> Result<Control<'a>, Fault<CodeAt>>
    ensures { Leads (spec.give m.old.line m.old.calls right.now (spec.Updates op (target_of target.now) done left.now ∷ kept m.old) (world m.old.state)) result m.new }
{
    update(
        alloc,
        &mut m.state,
        m.line,
        op,
        target,
        done.as_slice(),
        left,
        right,
    )?;
    Ok(Control::Ends(Flow::Goes))
}

/// A part has its value.
fn part_given<'a>(
    alloc: Global,
    m: &mut Machine<'a>,
    job: Job<'a>,
    kids: Kids<'a>,
    mut done: Items<Const>,
    v: Const,
) -> Result<Control<'a>, Fault<CodeAt>>
    ensures { Leads (spec.give m.old.line m.old.calls v (spec.Parts (job_of job.entry) (exs_of kids.entry) done ∷ kept m.old) (world m.old.state)) result m.new }
{
    done.push(v)?;
    next_part(alloc, m, job, kids, done)
}

/// What a list with `for` goes over has its value.
fn collects_over<'a>(
    alloc: Global,
    m: &mut Machine<'a>,
    item: &'a PyExpr,
    name: &'a Text,
    over: Const,
) -> Result<Control<'a>, Fault<CodeAt>>
    ensures { Leads (spec.give m.old.line m.old.calls over (spec.Collecting (ex_of item.now) name.now ∷ kept m.old) (world m.old.state)) result m.new }
{
    let turns = m.state.turns();
    collect_turn(alloc, m, turns, item, name, over, 0, Items::new(alloc))
}

/// An item of a list with `for` has its value.
fn collected<'a>(
    alloc: Global,
    m: &mut Machine<'a>,
    left: u64,
    item: &'a PyExpr,
    name: &'a Text,
    over: Const,
    at: u64,
    mut done: Items<Const>,
    v: Const,
) -> Result<Control<'a>, Fault<CodeAt>>
    ensures { Leads (spec.give m.old.line m.old.calls v (spec.Collects left (ex_of item.now) name.now over at done ∷ kept m.old) (world m.old.state)) result m.new }
{
    done.push(v)?;
    m.state.pop_inner();
    collect_turn(alloc, m, left, item, name, over, at, done)
}

/// A value is returned.
fn returned<'a>(m: &Machine<'a>, v: Const) -> Result<Control<'a>, Fault<CodeAt>>
    ensures { Leads (spec.give m.now.line m.now.calls v (spec.Returning ∷ kept m.now) (world m.now.state)) result m.now }
{
    let flow = m.state.returned(m.line, v)?;
    Ok(Control::Ends(flow))
}

/// What waits has a value.
fn given<'a>(
    alloc: Global,
    m: &mut Machine<'a>,
    f: Waiting<'a>,
    v: Const,
) -> Result<Control<'a>, Fault<CodeAt>>
    requires { spec.give m.old.line m.old.calls v (frame_of f ∷ kept m.old) (world m.old.state) ≢ spec.Stuck }
    ensures { Leads (spec.give m.old.line m.old.calls v (frame_of f.entry ∷ kept m.old) (world m.old.state)) result m.new }
{
    match f {
        Waiting::Parts(job, kids, done) => part_given(alloc, m, job, kids, done, v),
        Waiting::AndRight(b) => and_given(m, &v, b),
        Waiting::OrRight(b) => or_given(m, &v, b),
        Waiting::AsTruth => as_truth(m, &v),
        Waiting::Collecting(item, name) => collects_over(alloc, m, item, name, v),
        Waiting::Collects(left, item, name, over, at, done) => {
            collected(alloc, m, left, item, name, over, at, done, v)
        }
        Waiting::Drops => Ok(Control::Ends(Flow::Goes)),
        Waiting::Assigns(target) => parts(alloc, m, Job::Puts(target, v), of_target(target)),
        Waiting::Updates(op, target, done, left) => {
            updates(alloc, m, op, target, done, &left, &v)
        }
        Waiting::Returning => returned(m, v),
        Waiting::Statements(around, body) => given_around(alloc, m, around, body, v),
        Waiting::Back(_, _, _, _) => unreachable!(),
    }
}

/// What waits around statements has a value.
fn given_around<'a>(
    alloc: Global,
    m: &mut Machine<'a>,
    around: Around<'a>,
    body: &'a [PyStmt],
    v: Const,
) -> Result<Control<'a>, Fault<CodeAt>>
    requires { spec.give m.old.line m.old.calls v (around_of around body.now ∷ kept m.old) (world m.old.state) ≢ spec.Stuck }
    ensures { Leads (spec.give m.old.line m.old.calls v (around_of around.entry body.now ∷ kept m.old) (world m.old.state)) result m.new }
{
    match around {
        Around::Chooses(in_loop, rest, other) => chooses(m, &v, in_loop, body, rest, other),
        Around::Begins(name) => {
            let turns = m.state.turns();
            let line = m.line;
            over_turn(alloc, m, turns, line, name, v, 0, body)
        }
        Around::Tests(left, line, test) => tests(m, &v, left, line, test, body),
        Around::Turns(_, _, _) | Around::GoesOver(_, _, _, _, _) | Around::Rest(_) => {
            unreachable!()
        }
    }
}

// ---- what waits for statements to end

/// A call ends, and the caller goes on at its line, where so many more calls may be opened.
fn leaves<'a>(
    alloc: Global,
    m: &mut Machine<'a>,
    def: u32,
    caller: (u32, Option<u32>),
    line: u32,
    calls: u32,
    flow: Flow,
) -> Result<Control<'a>, Fault<CodeAt>>
    ensures { Leads (spec.ended m.old.calls flow (spec.Back def caller line calls ∷ kept m.old) (world m.old.state)) result m.new }
{
    let v = m.state.leave(alloc, def, caller, flow)?;
    m.line = line;
    m.calls = calls;
    Ok(Control::Give(v))
}

/// What waits for statements has their end.
fn ended<'a>(
    alloc: Global,
    m: &mut Machine<'a>,
    f: Waiting<'a>,
    flow: Flow,
) -> Result<Control<'a>, Fault<CodeAt>>
    requires { spec.ended m.old.calls flow (frame_of f ∷ kept m.old) (world m.old.state) ≢ spec.Stuck }
    ensures { Leads (spec.ended m.old.calls flow (frame_of f.entry ∷ kept m.old) (world m.old.state)) result m.new }
{
    match f {
        Waiting::Back(def, caller, line, calls) => {
            leaves(alloc, m, def, caller, line, calls, flow)
        }
        Waiting::Statements(around, body) => ended_around(alloc, m, around, body, flow),
        Waiting::Parts(_, _, _)
        | Waiting::AndRight(_)
        | Waiting::OrRight(_)
        | Waiting::AsTruth
        | Waiting::Collecting(_, _)
        | Waiting::Collects(_, _, _, _, _, _)
        | Waiting::Drops
        | Waiting::Assigns(_)
        | Waiting::Updates(_, _, _, _)
        | Waiting::Returning => unreachable!(),
    }
}

/// What waits around statements has their end.
fn ended_around<'a>(
    alloc: Global,
    m: &mut Machine<'a>,
    around: Around<'a>,
    body: &'a [PyStmt],
    flow: Flow,
) -> Result<Control<'a>, Fault<CodeAt>>
    requires { spec.ended m.old.calls flow (around_of around body.now ∷ kept m.old) (world m.old.state) ≢ spec.Stuck }
    ensures { Leads (spec.ended m.old.calls flow (around_of around.entry body.now ∷ kept m.old) (world m.old.state)) result m.new }
{
    match around {
        Around::Rest(in_loop) => match flow {
            Flow::Goes => Ok(Control::Exec(in_loop, body)),
            Flow::Leaves | Flow::Again | Flow::Returns(_, _) => Ok(Control::Ends(flow)),
        },
        Around::Turns(left, line, test) => match flow {
            Flow::Goes | Flow::Again => test_turn(m, left, line, test, body),
            Flow::Leaves => Ok(Control::Ends(Flow::Goes)),
            Flow::Returns(_, _) => Ok(Control::Ends(flow)),
        },
        Around::GoesOver(left, line, name, over, at) => match flow {
            Flow::Goes | Flow::Again => over_turn(alloc, m, left, line, name, over, at, body),
            Flow::Leaves => Ok(Control::Ends(Flow::Goes)),
            Flow::Returns(_, _) => Ok(Control::Ends(flow)),
        },
        Around::Chooses(_, _, _) | Around::Begins(_) | Around::Tests(_, _, _) => unreachable!(),
    }
}

/// Statements, from the first on.
#[tactic(auto, using(crate::proofs::LineLaws::line_of_stmt))]
fn exec<'a>(
    alloc: Global,
    m: &mut Machine<'a>,
    in_loop: bool,
    body: &'a [PyStmt],
) -> Result<Control<'a>, Fault<CodeAt>>
    ensures { Leads (spec.exec m.old.calls in_loop (block (map st_of body.now)) (kept m.old) (world m.old.state)) result m.new }
{
    match body {
        [] => Ok(Control::Ends(Flow::Goes)),
        [s, rest @ ..] => {
            m.state.counted(s.line())?;
            push(
                &mut m.frames,
                Waiting::Statements(Around::Rest(in_loop), rest),
            )?;
            begin(alloc, m, in_loop, s)
        }
    }
}

/// One step, or the end.
pub(crate) fn step<'a>(
    alloc: Global,
    m: &mut Machine<'a>,
    c: Control<'a>,
) -> Result<Option<Control<'a>>, Fault<CodeAt>>
    requires { spec.step (config c m.old) ≢ spec.Stuck }
    ensures { Steps (spec.step (config c.entry m.old)) result m.new }
{
    match c {
        Control::Eval(e) => Ok(Some(eval(alloc, m, e)?)),
        Control::Nothing => Ok(Some(Control::Give(Const::None))),
        Control::Exec(in_loop, body) => Ok(Some(exec(alloc, m, in_loop, body)?)),
        Control::Give(v) => match pop(&mut m.frames) {
            None => unreachable!(),
            Some(f) => Ok(Some(given(alloc, m, f, v)?)),
        },
        Control::Ends(flow) => match pop(&mut m.frames) {
            None => Ok(None),
            Some(f) => Ok(Some(ended(alloc, m, f, flow)?)),
        },
    }
}
