ghost use Rattle.std.specs.Prelude.{◌≡◌, ℕ, ℤ, ◌+◌, ◌<◌, ◌≤◌, ◌^◌, ◌+ℤ◌, ◌↔◌, true, false, IsTrue, List, Option, MatchOption, IfOk, length, slice_get};
ghost use Rattle.mh_flow.specs.Flow.{Block, Item, is_before};
ghost use Rattle.mh_flat.specs.Machine.{action_at, operation_action, action_counts, IsNext, counter_turn, number_turn, number_before, operation_counts, OnInstruction, Does, FitsOperation, HasRoom, configuration_of};
ghost use Rattle.mh_flat.specs.Fits.{FitsItems};
ghost use Rattle.mh_flat.specs.Stands.{StandsFor, Resumes};
ghost use Rattle.mh_flat.specs.Flat.{IsCodeOf, Starts};

use crate::code::{Code, Counter, Instruction, Operation, Position, State};
use mh_flow::{Lang, Resumed};
use mh_text::Memory;
use std::alloc::Global;

/// Whether a number stands before a limit in the direction of a step.
fn stands_before(number: i128, limit: i128, step: i128) -> bool
    ensures { result ≡ is_before number limit step }
{
    if step > 0 {
        number < limit
    } else if step < 0 {
        limit < number
    } else {
        false
    }
}

/// The number that follows another by a step, if it fits 128 signed bits. Where it doesn't, it can't
/// stand before the limit, which does.
fn next_number(number: i128, limit: i128, step: i128) -> Option<i128>
    requires { is_before number limit step ≡ true }
    ensures { IsNext result (number +ℤ step) limit step }
{
    number.checked_add(step)
}

/// Carries out an assignment.
fn run_assign<L: Lang>(
    place: &L::Place,
    expression: &L::Expr,
    after: Position,
    state: &mut State,
    store: &mut L::Store,
    budget: u64,
) -> Option<Resumed<L::Fault>>
    requires fits { FitsOperation L.Lang (Operation.Assign place.now expression.now) false store.old }
    requires small { state.old.position.at < 2 ^ 32 }
    requires below { state.old.count < budget }
    ensures { Does L.Lang budget (operation_action L.Lang (Operation.Assign place.now expression.now) after state.old.position state.old.counters.items store.old) result (configuration_of state.old) store.old (configuration_of state.new) store.new }
{
    match L::eval(expression, store) {
        Err(fault) => Some(Resumed::Fault(state.position.at as u32, fault)),
        Ok(value) => match L::assign(place, value, store) {
            Err(fault) => Some(Resumed::Fault(state.position.at as u32, fault)),
            Ok(()) => {
                state.position = after;
                state.count += 1;
                None
            }
        },
    }
}

/// Goes to one of two positions by a test.
fn run_branch<L: Lang>(
    expression: &L::Expr,
    one: Position,
    two: Position,
    after: Position,
    state: &mut State,
    store: &L::Store,
    budget: u64,
) -> Option<Resumed<L::Fault>>
    requires fits { FitsOperation L.Lang (Operation.Branch expression.now one two) false store.now }
    requires small { state.old.position.at < 2 ^ 32 }
    requires below { state.old.count < budget }
    ensures { Does L.Lang budget (operation_action L.Lang (Operation.Branch expression.now one two) after state.old.position state.old.counters.items store.now) result (configuration_of state.old) store.now (configuration_of state.new) store.now }
{
    match L::eval(expression, store) {
        Err(fault) => Some(Resumed::Fault(state.position.at as u32, fault)),
        Ok(value) => {
            state.position = if L::truth(&value) { one } else { two };
            state.count += 1;
            None
        }
    }
}

/// Goes to the body of a loop where its test holds, and else on.
fn run_repeat<L: Lang>(
    expression: &L::Expr,
    body: Position,
    after: Position,
    state: &mut State,
    store: &L::Store,
    budget: u64,
) -> Option<Resumed<L::Fault>>
    requires fits { FitsOperation L.Lang (Operation.Repeat expression.now body) false store.now }
    requires small { state.old.position.at < 2 ^ 32 }
    requires below { state.old.count < budget }
    ensures { Does L.Lang budget (operation_action L.Lang (Operation.Repeat expression.now body) after state.old.position state.old.counters.items store.now) result (configuration_of state.old) store.now (configuration_of state.new) store.now }
{
    match L::eval(expression, store) {
        Err(fault) => Some(Resumed::Fault(state.position.at as u32, fault)),
        Ok(value) => {
            state.position = if L::truth(&value) { body } else { after };
            state.count += 1;
            None
        }
    }
}

/// Checks that a test holds.
fn run_assert<L: Lang>(
    expression: &L::Expr,
    after: Position,
    state: &mut State,
    store: &L::Store,
    budget: u64,
) -> Option<Resumed<L::Fault>>
    requires fits { FitsOperation L.Lang (Operation.Assert expression.now) false store.now }
    requires small { state.old.position.at < 2 ^ 32 }
    requires below { state.old.count < budget }
    ensures { Does L.Lang budget (operation_action L.Lang (Operation.Assert expression.now) after state.old.position state.old.counters.items store.now) result (configuration_of state.old) store.now (configuration_of state.new) store.now }
{
    let at = state.position.at as u32;
    match L::eval(expression, store) {
        Err(fault) => Some(Resumed::Fault(at, fault)),
        Ok(value) => {
            state.position = after;
            state.count += 1;
            if L::truth(&value) {
                None
            } else {
                Some(Resumed::CheckFailed(at))
            }
        }
    }
}

/// Enters a counted loop: evaluates from, to and step, and keeps their numbers.
fn run_entry<L: Lang>(
    place: &L::Place,
    from: &L::Expr,
    to: &L::Expr,
    step: &L::Expr,
    depth: usize,
    body: Position,
    after: Position,
    state: &mut State,
    store: &L::Store,
    budget: u64,
) -> Option<Resumed<L::Fault>>
    requires fits { FitsOperation L.Lang (Operation.Iterate place.now from.now to.now step.now depth body) false store.now }
    requires small { state.old.position.at < 2 ^ 32 }
    requires below { state.old.count < budget }
    requires room { depth < length state.old.counters.items }
    requires fresh { state.old.position.begun ≡ false }
    ensures { Does L.Lang budget (operation_action L.Lang (Operation.Iterate place.now from.now to.now step.now depth body) after state.old.position state.old.counters.items store.now) result (configuration_of state.old) store.now (configuration_of state.new) store.now }
{
    let at = state.position.at;
    let next = match L::eval(from, store) {
        Err(fault) => return Some(Resumed::Fault(at as u32, fault)),
        Ok(value) => L::number(&value),
    };
    let to = match L::eval(to, store) {
        Err(fault) => return Some(Resumed::Fault(at as u32, fault)),
        Ok(value) => L::number(&value),
    };
    let step = match L::eval(step, store) {
        Err(fault) => return Some(Resumed::Fault(at as u32, fault)),
        Ok(value) => L::number(&value),
    };
    state.counters[depth] = Counter {
        next: Some(next),
        to,
        step,
    };
    state.position = Position { at, begun: true };
    state.count += 1;
    None
}

/// A turn of a counted loop that has begun, if there is a next number, and else goes on.
fn run_turn<L: Lang>(
    place: &L::Place,
    depth: usize,
    body: Position,
    after: Position,
    counter: Counter,
    state: &mut State,
    store: &mut L::Store,
    budget: u64,
) -> Option<Resumed<L::Fault>>
    requires fits { L.fits_count place.now store.old }
    requires below { action_counts {E = L.Expr} {V = L.Value} {S = L.Store} {F = L.Fault} (number_turn depth place.now body after counter.next counter.to counter.step) ≡ 1 → state.old.count < budget }
    requires room { depth < length state.old.counters.items }
    ensures { Does L.Lang budget (number_turn depth place.now body after counter.next counter.to counter.step) result (configuration_of state.old) store.old (configuration_of state.new) store.new }
{
    match counter.next {
        None => {
            state.position = after;
            None
        }
        Some(number) => {
            if stands_before(number, counter.to, counter.step) {
                L::count(place, number, store);
                state.counters[depth] = Counter {
                    next: next_number(number, counter.to, counter.step),
                    to: counter.to,
                    step: counter.step,
                };
                state.position = body;
                state.count += 1;
                None
            } else {
                state.position = after;
                None
            }
        }
    }
}

/// Whether what an instruction does here is a counted statement.
fn is_counted<L: Lang>(operation: &Operation<L>, state: &State) -> bool
    requires { HasRoom operation.now (length state.now.counters.items) }
    ensures { result ≡ operation_counts operation.now state.now.position.begun state.now.counters.items }
{
    match operation {
        Operation::Suspend(_) => false,
        Operation::Iterate(_, _, _, _, depth, _) => {
            if state.position.begun {
                is_unfinished(state.counters[*depth])
            } else {
                true
            }
        }
        _ => true,
    }
}

/// Whether a counted loop has another turn.
fn is_unfinished(counter: Counter) -> bool
    ensures { result ≡ number_before counter.next counter.to counter.step }
{
    match counter.next {
        None => false,
        Some(number) => stands_before(number, counter.to, counter.step),
    }
}

/// Carries out an instruction, with the answer where it stops.
fn run_instruction<L: Lang>(
    instruction: &Instruction<L>,
    state: &mut State,
    store: &mut L::Store,
    budget: u64,
) -> Option<Resumed<L::Fault>>
    requires fits { FitsOperation L.Lang instruction.now.operation state.old.position.begun store.old }
    requires room { HasRoom instruction.now.operation (length state.old.counters.items) }
    requires small { state.old.position.at < 2 ^ 32 }
    requires below { operation_counts instruction.now.operation state.old.position.begun state.old.counters.items ≡ true → state.old.count < budget }
    ensures { Does L.Lang budget (operation_action L.Lang instruction.now.operation instruction.now.after state.old.position state.old.counters.items store.old) result (configuration_of state.old) store.old (configuration_of state.new) store.new }
{
    let after = instruction.after;
    match &instruction.operation {
        Operation::Assign(place, expression) => run_assign::<L>(
            place, expression, after, state, store, budget,
        ),
        Operation::Branch(expression, one, two) => run_branch::<L>(
            expression, *one, *two, after, state, store, budget,
        ),
        Operation::Repeat(expression, body) => run_repeat::<L>(
            expression, *body, after, state, store, budget,
        ),
        Operation::Iterate(place, from, to, step, depth, body) => {
            if state.position.begun {
                run_turn::<L>(
                    place,
                    *depth,
                    *body,
                    after,
                    state.counters[*depth],
                    state,
                    store,
                    budget,
                )
            } else {
                run_entry::<L>(
                    place, from, to, step, *depth, *body, after, state, store, budget,
                )
            }
        }
        Operation::Suspend(what) => {
            state.position = after;
            state.count = 0;
            Some(Resumed::Waits(*what))
        }
        Operation::Report(what) => {
            state.position = after;
            state.count += 1;
            Some(Resumed::Says(*what))
        }
        Operation::Assert(expression) => run_assert::<L>(expression, after, state, store, budget),
        Operation::Finish => {
            state.position = after;
            state.count += 1;
            Some(Resumed::Stopped)
        }
        Operation::Jump => {
            state.position = after;
            state.count += 1;
            None
        }
    }
}

/// Carries out what stands at the state's position: one rewriting, or an answer.
fn advance<L: Lang>(
    code: &Code<L>,
    state: &mut State,
    store: &mut L::Store,
    budget: u64,
) -> Option<Resumed<L::Fault>>
    requires fits { OnInstruction (slice_get code.now.instructions.items state.old.position.at) (λ operation. FitsOperation L.Lang operation state.old.position.begun store.old) }
    requires room { OnInstruction (slice_get code.now.instructions.items state.old.position.at) (λ operation. HasRoom operation (length state.old.counters.items)) }
    requires small { length code.now.instructions.items < 2 ^ 32 }
    ensures { Does L.Lang budget (action_at L.Lang (slice_get code.now.instructions.items state.old.position.at) state.old.position state.old.counters.items store.old) result (configuration_of state.old) store.old (configuration_of state.new) store.new }
{
    let at = state.position.at;
    if at >= code.instructions.len() {
        return Some(Resumed::Ended);
    }
    let instruction = &code.instructions[at];
    if state.count >= budget && is_counted(&instruction.operation, state) {
        return Some(Resumed::TurnLimit);
    }
    run_instruction(instruction, state, store, budget)
}

/// Resumes a body: carries it out from where the state stands up to the next stop, and leaves the
/// state there. The answer, the store, the count of executed statements and what is left are those of
/// the rewritings. `budget` is the number of statements that may be executed between two waits.
/// Takes no memory but what `assign` of the language takes, and time in proportion to the executed
/// statements, whatever the size of the body and its nesting.
pub fn resume<L: Lang>(
    code: &Code<L>,
    state: &mut State,
    store: &mut L::Store,
    budget: u64,
) -> Resumed<L::Fault>
    requires { (xs : List (Item L.Expr L.Place)) × StandsFor code.now xs state.old × FitsItems L.Lang xs store.old }
    ensures { (xs : List (Item L.Expr L.Place)) → StandsFor code.now xs state.old → FitsItems L.Lang xs store.old → Resumes L.Lang budget code.now xs state.old store.old result state.new store.new }
{
    loop {
        if let Some(answer) = advance(code, state, store, budget) {
            return answer;
        }
    }
}

/// The state before a body's first statement, with exactly the room for the numbers of its counted
/// loops as deep as they are nested. Nothing is counted yet.
pub fn start<L: Lang>(alloc: Global, code: &Code<L>) -> Result<State, Memory>
    requires { (b : Block L.Expr L.Place) × IsCodeOf b code.now }
    ensures { IfOk result (λ state. Starts code.now state) }
{
    let unused = Counter {
        next: None,
        to: 0,
        step: 0,
    };
    Ok(State {
        position: Position {
            at: 0,
            begun: false,
        },
        counters: vec![in alloc; unused; code.depth]?,
        count: 0,
    })
}
