ghost use Rattle.std.specs.Prelude.{◌≡◌, ℕ, ◌+◌, ◌-◌, ◌<◌, ◌≤◌, ◌^◌, max, List, [], ◌∷◌, ◌++◌, length, IfOk, OnOk, MatchOption, cond, false, take, drop, slice_get, slice_set, Some};
ghost use Rattle.mh_flow.specs.Flow.{Block, size, block_size};
ghost use Rattle.mh_flat.specs.Body.{statement_of, block_of};
ghost use Rattle.mh_flat.specs.Stands.{first};
ghost use Rattle.mh_flat.specs.Flat.{nesting, block_nesting, instructions_of, block_instructions, IsCodeOf};
ghost use Rattle.mh_flat.specs.Extents.{HasAt, extent, extents_of, block_extents, else_extents};
ghost use Rattle.mh_flat.specs.Parts.{statement_of_parts, IsNoIf};

use crate::code::{Code, Exits, Extent, Instruction, Operation, Position};
use crate::step::{Parts, Step};
use mh_flow::Lang;
use mh_text::Memory;
use std::alloc::Global;

/// Adds an extent of which nothing is known yet.
fn reserve(extents: &mut Vec<Extent>) -> Result<(), Memory>
    ensures { OnOk result (extents.new.items ≡ extents.old.items ++ extent 1 0 ∷ []) }
{
    extents.push(Extent { front: 1, whole: 0 })?;
    Ok(())
}

/// Sets how far the statement at a place reaches without its `else` part: up to here.
fn set_front(extents: &mut Vec<Extent>, at: usize)
    requires { at < length extents.old.items }
    ensures { extents.new.items ≡ slice_set extents.old.items at (extent (length extents.old.items - at) 0) }
{
    let front = extents.len() - at;
    extents[at] = Extent { front, whole: 0 };
}

/// Sets how far the statement at a place reaches in all: up to here.
fn set_whole(extents: &mut Vec<Extent>, at: usize)
    requires { at < length extents.old.items }
    ensures { (e : Extent) → slice_get extents.old.items at ≡ Some e → extents.new.items ≡ slice_set extents.old.items at (extent e.front (length extents.old.items - at)) }
{
    let front = extents[at].front;
    let whole = extents.len() - at;
    extents[at] = Extent { front, whole };
}

/// Adds the extents of a block's statements.
#[cycle(measure)]
fn measure_block<L: Lang>(extents: &mut Vec<Extent>, block: &[Step<L>]) -> Result<(), Memory>
    requires small { length extents.old.items + block_size (block_of block.now) < 2 ^ 32 }
    ensures { OnOk result (extents.new.items ≡ extents.old.items ++ block_extents (block_of block.now)) }
{
    for step in block {
        let at = extents.len();
        measure_step(extents, step)?;
        set_whole(extents, at);
    }
    Ok(())
}

/// Adds the extents of a statement and of those that it holds; its own size is left open. Where an
/// `else` part is one statement, the loop goes on with that one.
#[cycle(measure)]
fn measure_step<L: Lang>(extents: &mut Vec<Extent>, step: &Step<L>) -> Result<(), Memory>
    requires small { length extents.old.items + size (statement_of step.now) < 2 ^ 32 }
    ensures { OnOk result (extents.new.items ≡ extents.old.items ++ extents_of (statement_of step.now) 0) }
{
    let mut current = step;
    loop {
        let at = extents.len();
        reserve(extents)?;
        match current {
            Step::If(_, then_part, else_part) => {
                measure_block(extents, then_part)?;
                set_front(extents, at);
                if else_part.len() != 1 {
                    measure_block(extents, else_part)?;
                    return Ok(());
                }
                current = &else_part[0];
            }
            Step::While(_, body) => {
                measure_block(extents, body)?;
                set_front(extents, at);
                return Ok(());
            }
            Step::Count(_, _, _, _, body) => {
                measure_block(extents, body)?;
                set_front(extents, at);
                return Ok(());
            }
            _ => return Ok(()),
        }
    }
}

/// Adds a statement's instruction.
fn push_instruction<L: Lang>(
    instructions: &mut Vec<Instruction<L>>,
    operation: Operation<L>,
    after: Position,
) -> Result<(), Memory>
    ensures { OnOk result (instructions.new.items ≡ instructions.old.items ++ record { operation = operation; after = after } ∷ []) }
{
    instructions.push(Instruction { operation, after })?;
    Ok(())
}

/// The position where a block at a place begins, or what follows it where it is empty.
fn start_of<L: Lang>(block: &[Step<L>], place: usize, after: Position) -> Position
    ensures { result ≡ first place (block_of block.now) after }
{
    if block.is_empty() {
        after
    } else {
        Position {
            at: place,
            begun: false,
        }
    }
}

/// The position of the next statement of a block, or what follows the block after its last one.
fn next_position(last: bool, at: usize, after: Position) -> Position
    ensures { result ≡ cond last after (record { at = at; begun = false }) }
{
    if last {
        after
    } else {
        Position { at, begun: false }
    }
}

/// Takes out the statement of a block that has exactly one, and leaves any other block.
fn take_only<L: Lang>(block: &mut Vec<Step<L>>) -> Option<Step<L>>
    ensures { MatchOption result ((block.new.items ≡ block.old.items) × (length block.old.items ≡ 1 → ⊥)) (λ step. block.old.items ≡ step ∷ []) }
{
    if block.len() == 1 { block.pop() } else { None }
}

/// Adds the instructions of a block, and answers how deep its counted loops are nested. `depth`
/// says how many counted loops are around it.
#[cycle(emit)]
fn emit_block<L: Lang>(
    instructions: &mut Vec<Instruction<L>>,
    extents: &[Extent],
    body: Vec<Step<L>>,
    exits: Exits,
    depth: usize,
) -> Result<usize, Memory>
    requires small { length instructions.old.items + block_size (block_of body.items) < 2 ^ 32 }
    requires deep { depth ≤ length instructions.old.items }
    requires has { HasAt extents.now (length instructions.old.items) (block_extents (block_of body.items)) }
    ensures items { IfOk result (λ m. instructions.new.items ≡ instructions.old.items ++ block_instructions (block_of body.items) (length instructions.old.items) exits.after exits.leave exits.again depth) }
    ensures depth { IfOk result (λ m. m ≡ block_nesting (block_of body.items)) }
{
    let mut rest = body;
    rest.reverse();
    let mut most: usize = 0;
    while let Some(step) = rest.pop() {
        let place = instructions.len();
        let at = place + extents[place].whole;
        let after = next_position(rest.is_empty(), at, exits.after);
        let inner = emit_step(
            instructions,
            extents,
            step,
            Exits {
                after,
                leave: exits.leave,
                again: exits.again,
            },
            depth,
        )?;
        most = most.max(inner);
    }
    Ok(most)
}

/// Adds the instructions of a statement. Where an `else` part is one statement, the loop goes on with
/// that one, so that a chain of `If`s needs no recursion.
#[cycle(emit)]
fn emit_step<L: Lang>(
    instructions: &mut Vec<Instruction<L>>,
    extents: &[Extent],
    step: Step<L>,
    exits: Exits,
    depth: usize,
) -> Result<usize, Memory>
    requires small { length instructions.old.items + size (statement_of step) < 2 ^ 32 }
    requires deep { depth ≤ length instructions.old.items }
    requires has { (whole : ℕ) × HasAt extents.now (length instructions.old.items) (extents_of (statement_of step) whole) }
    ensures items { IfOk result (λ m. instructions.new.items ≡ instructions.old.items ++ instructions_of (statement_of step) (length instructions.old.items) exits.after exits.leave exits.again depth) }
    ensures depth { IfOk result (λ m. m ≡ nesting (statement_of step)) }
{
    let mut most: usize = 0;
    let mut current = step;
    loop {
        match current.into_parts() {
            Parts::If(test, then_part, mut else_part) => {
                let place = instructions.len();
                let then_start = start_of(&then_part, place + 1, exits.after);
                let else_start = start_of(&else_part, place + extents[place].front, exits.after);
                push_instruction(
                    instructions,
                    Operation::Branch(test, then_start, else_start),
                    exits.after,
                )?;
                let then_depth = emit_block(instructions, extents, then_part, exits, depth)?;
                most = most.max(then_depth);
                match take_only(&mut else_part) {
                    Some(only) => current = only,
                    None => {
                        let else_depth = emit_block(
                            instructions,
                            extents,
                            else_part,
                            exits,
                            depth,
                        )?;
                        return Ok(most.max(else_depth));
                    }
                }
            }
            other => {
                let inner = emit_other(instructions, extents, other, exits, depth)?;
                return Ok(most.max(inner));
            }
        }
    }
}

/// Adds the instructions of a statement that is no `If`.
#[cycle(emit)]
fn emit_other<L: Lang>(
    instructions: &mut Vec<Instruction<L>>,
    extents: &[Extent],
    parts: Parts<L>,
    exits: Exits,
    depth: usize,
) -> Result<usize, Memory>
    requires other { IsNoIf parts }
    requires small { length instructions.old.items + size (statement_of_parts parts) < 2 ^ 32 }
    requires deep { depth ≤ length instructions.old.items }
    requires has { (whole : ℕ) × HasAt extents.now (length instructions.old.items) (extents_of (statement_of_parts parts) whole) }
    ensures items { IfOk result (λ m. instructions.new.items ≡ instructions.old.items ++ instructions_of (statement_of_parts parts) (length instructions.old.items) exits.after exits.leave exits.again depth) }
    ensures depth { IfOk result (λ m. m ≡ nesting (statement_of_parts parts)) }
{
    let place = instructions.len();
    let here = Position {
        at: place,
        begun: true,
    };
    let inside = Exits {
        after: here,
        leave: exits.after,
        again: here,
    };
    match parts {
        Parts::Set(target, value) => {
            push_instruction(instructions, Operation::Assign(target, value), exits.after)?;
            Ok(0)
        }
        Parts::If(_, _, _) => unreachable!(),
        Parts::While(test, body) => {
            let first = start_of(&body, place + 1, here);
            push_instruction(instructions, Operation::Repeat(test, first), exits.after)?;
            let inner = emit_block(instructions, extents, body, inside, depth)?;
            Ok(inner)
        }
        Parts::Count(target, from, to, step, body) => {
            let first = start_of(&body, place + 1, here);
            push_instruction(
                instructions,
                Operation::Iterate(target, from, to, step, depth, first),
                exits.after,
            )?;
            let inner = emit_block(instructions, extents, body, inside, depth + 1)?;
            Ok(inner + 1)
        }
        Parts::Wait(what) => {
            push_instruction(instructions, Operation::Suspend(what), exits.after)?;
            Ok(0)
        }
        Parts::Say(what) => {
            push_instruction(instructions, Operation::Report(what), exits.after)?;
            Ok(0)
        }
        Parts::Check(test) => {
            push_instruction(instructions, Operation::Assert(test), exits.after)?;
            Ok(0)
        }
        Parts::Stop => {
            push_instruction(instructions, Operation::Finish, exits.after)?;
            Ok(0)
        }
        Parts::Break => {
            push_instruction(instructions, Operation::Jump, exits.leave)?;
            Ok(0)
        }
        Parts::Continue => {
            push_instruction(instructions, Operation::Jump, exits.again)?;
            Ok(0)
        }
    }
}

/// Makes the code of a body, which it takes over. The body has fewer than 2^32 statements. The time is
/// in proportion to their number, and a chain of `If`s, each in the `else` part of the one before, is
/// taken apart by a loop. After want of memory the body is dropped.
pub fn flatten<L: Lang>(alloc: Global, body: Vec<Step<L>>) -> Result<Code<L>, Memory>
    requires { block_size (block_of body.items) < 2 ^ 32 }
    ensures { IfOk result (λ c. IsCodeOf (block_of body.items) c) }
{
    let mut extents = Vec::new(alloc);
    measure_block(&mut extents, &body)?;
    let end = Position {
        at: extents.len(),
        begun: false,
    };
    let exits = Exits {
        after: end,
        leave: end,
        again: end,
    };
    let mut instructions = Vec::new(alloc);
    let depth = emit_block(&mut instructions, &extents, body, exits, 0)?;
    Ok(Code {
        instructions,
        depth,
    })
}
