//! Statements that hold others. `fuel` is how deep what stands inside may be.

ghost use Rattle.std.specs.Prelude.{◌≡◌, ◌<◌, ◌≤◌, ◌+◌, ◌^◌, [], ◌∷◌, max, IfOk};
ghost use Rattle.mh_reader.specs.Reader.{Reads, chain, expect, many, pure};
ghost use Rattle.mh_pytree.specs.declared.statement.PyStmt.TheVariants as tree;
ghost use Rattle.mh_pyparse.specs.Signs.{colon, rparen};
ghost use Rattle.mh_pyparse.specs.Statements.{definition};
ghost use Rattle.mh_pyparse.specs.Reading.{is, closing};
ghost use Rattle.mh_pyparse.specs.ReadingStatements as spec;

use crate::cursor::Tokens;
use crate::expr::expr;
use crate::signs::{AT, COLON, COMMA, DEF, ELIF, ELSE, EQUALS, FOR, IF, IN, LPAREN, RPAREN, WHILE};
use crate::small::simple;
use mh_pytok::Tok;
use mh_pytree::{Branch, FuncDef, Param, PyExpr, PyStmt};
use mh_reader::Fault;
use mh_text::Text;
use sqlite_items::Items;
use std::alloc::{AllocError, Global};

/// The statement alone.
fn alone(alloc: Global, statement: PyStmt) -> Result<Items<PyStmt>, AllocError>
    ensures { IfOk result (λ body. body ≡ statement ∷ []) }
{
    let mut body = Items::new(alloc);
    body.push(statement)?;
    Ok(body)
}

/// One statement of a block, or one line of them; whether more follow.
#[cycle(statements)]
#[tactic(auto, unfolding(mh_reader::specs::Reader::chain, crate::specs::ReadingStatements::block_turn))]
fn block_turn(
    alloc: Global,
    tokens: &mut Tokens<'_>,
    fuel: usize,
    mut found: Items<PyStmt>,
    deepest: usize,
) -> Result<((Items<PyStmt>, usize), bool), Fault>
    requires small { fuel < 2 ^ 32 }
    requires depth { deepest ≤ fuel }
    ensures reads { Reads (spec.block_turn (spec.stmt fuel) (found, deepest) tokens.old) result tokens.new }
    ensures depth { IfOk result (λ x. x.0.1 ≤ fuel) }
{
    let (more, depth) = stmt(alloc, tokens, fuel)?;
    found.append(more)?;
    let is_closed = tokens.eat(Tok::Dedent);
    Ok(((found, deepest.max(depth)), !is_closed))
}

/// The statements of a block, and its end.
#[cycle(statements)]
fn block(
    alloc: Global,
    tokens: &mut Tokens<'_>,
    fuel: usize,
) -> Result<(Items<PyStmt>, usize), Fault>
    requires small { fuel < 2 ^ 32 }
    ensures reads { Reads (many (spec.block_turn (spec.stmt fuel)) ([], 0) tokens.old) result tokens.new }
    ensures depth { IfOk result (λ x. x.1 ≤ fuel) }
{
    let mut found = Items::new(alloc);
    let mut deepest = 0;
    'more: loop {
        let ((longer, depth), goes_on) = block_turn(alloc, tokens, fuel, found, deepest)?;
        found = longer;
        deepest = depth;
        if !goes_on {
            return Ok((found, deepest));
        }
    }
}

/// What a statement holds: a line, or a block.
#[cycle(statements)]
#[tactic(auto, unfolding(mh_reader::specs::Reader::chain, crate::specs::ReadingStatements::suite))]
fn suite(
    alloc: Global,
    tokens: &mut Tokens<'_>,
    fuel: usize,
) -> Result<(Items<PyStmt>, usize), Fault>
    requires small { fuel < 2 ^ 32 }
    ensures reads { Reads (spec.suite (spec.stmt fuel) fuel tokens.old) result tokens.new }
    ensures depth { IfOk result (λ x. x.1 ≤ fuel) }
{
    if tokens.eat(Tok::Newline) {
        tokens.expect(Tok::Indent)?;
        return block(alloc, tokens, fuel);
    }
    simple(alloc, tokens, fuel)
}

/// A condition of an `if` and what it leads to; whether an `elif` follows.
#[cycle(statements)]
#[tactic(auto, unfolding(mh_reader::specs::Reader::chain, crate::specs::ReadingStatements::branch_turn))]
fn branch_turn(
    alloc: Global,
    tokens: &mut Tokens<'_>,
    fuel: usize,
    mut found: Items<Branch>,
    deepest: usize,
) -> Result<((Items<Branch>, usize), bool), Fault>
    requires small { fuel < 2 ^ 32 }
    requires depth { deepest ≤ fuel }
    ensures reads { Reads (spec.branch_turn (spec.stmt fuel) fuel (found, deepest) tokens.old) result tokens.new }
    ensures depth { IfOk result (λ x. x.0.1 ≤ fuel) }
{
    let (test, depth) = expr(alloc, tokens, fuel, 1)?;
    tokens.expect(COLON)?;
    let (body, inner) = suite(alloc, tokens, fuel)?;
    found.push(Branch { test, body })?;
    let goes_on = tokens.eat(ELIF);
    Ok(((found, deepest.max(depth.max(inner))), goes_on))
}

/// The branches of an `if`, after it.
#[cycle(statements)]
fn branches(
    alloc: Global,
    tokens: &mut Tokens<'_>,
    fuel: usize,
) -> Result<(Items<Branch>, usize), Fault>
    requires small { fuel < 2 ^ 32 }
    ensures reads { Reads (many (spec.branch_turn (spec.stmt fuel) fuel) ([], 0) tokens.old) result tokens.new }
    ensures depth { IfOk result (λ x. x.1 ≤ fuel) }
{
    let mut found = Items::new(alloc);
    let mut deepest = 0;
    'more: loop {
        let ((longer, depth), goes_on) = branch_turn(alloc, tokens, fuel, found, deepest)?;
        found = longer;
        deepest = depth;
        if !goes_on {
            return Ok((found, deepest));
        }
    }
}

/// After `else`.
#[cycle(statements)]
#[tactic(auto, unfolding(mh_reader::specs::Reader::chain, crate::specs::ReadingStatements::otherwise))]
fn otherwise(
    alloc: Global,
    tokens: &mut Tokens<'_>,
    fuel: usize,
    line: u32,
    found: Items<Branch>,
    depth: usize,
) -> Result<(Items<PyStmt>, usize), Fault>
    requires small { fuel < 2 ^ 32 }
    requires depth { depth ≤ fuel }
    ensures reads { Reads (spec.alone (spec.stmt fuel) (spec.otherwise (spec.stmt fuel) fuel line (found, depth)) tokens.old) result tokens.new }
    ensures depth { IfOk result (λ x. x.1 ≤ fuel + 1) }
{
    tokens.expect(COLON)?;
    let (body, inner) = suite(alloc, tokens, fuel)?;
    Ok((
        alone(alloc, PyStmt::If(line, found, Some(body)))?,
        depth.max(inner) + 1,
    ))
}

/// After `if`.
#[cycle(statements)]
#[tactic(auto, unfolding(mh_reader::specs::Reader::chain, crate::specs::ReadingStatements::conditional))]
fn conditional(
    alloc: Global,
    tokens: &mut Tokens<'_>,
    fuel: usize,
    line: u32,
) -> Result<(Items<PyStmt>, usize), Fault>
    requires small { fuel < 2 ^ 32 }
    ensures reads { Reads (spec.alone (spec.stmt fuel) (spec.conditional (spec.stmt fuel) fuel line) tokens.old) result tokens.new }
    ensures depth { IfOk result (λ x. x.1 ≤ fuel + 1) }
{
    let (found, depth) = branches(alloc, tokens, fuel)?;
    if tokens.eat(ELSE) {
        return otherwise(alloc, tokens, fuel, line, found, depth);
    }
    Ok((alone(alloc, PyStmt::If(line, found, None))?, depth + 1))
}

/// After `for`.
#[cycle(statements)]
#[tactic(auto, unfolding(mh_reader::specs::Reader::chain, crate::specs::ReadingStatements::for_each))]
fn for_each(
    alloc: Global,
    tokens: &mut Tokens<'_>,
    fuel: usize,
    line: u32,
) -> Result<(Items<PyStmt>, usize), Fault>
    requires small { fuel < 2 ^ 32 }
    ensures reads { Reads (spec.alone (spec.stmt fuel) (spec.for_each (spec.stmt fuel) fuel line) tokens.old) result tokens.new }
    ensures depth { IfOk result (λ x. x.1 ≤ fuel + 1) }
{
    let name = tokens.take_name(alloc)?;
    tokens.expect(IN)?;
    let (over, depth) = expr(alloc, tokens, fuel, 1)?;
    tokens.expect(COLON)?;
    let (body, inner) = suite(alloc, tokens, fuel)?;
    Ok((
        alone(alloc, PyStmt::For(line, name, over, body))?,
        depth.max(inner) + 1,
    ))
}

/// After `while`.
#[cycle(statements)]
#[tactic(auto, unfolding(mh_reader::specs::Reader::chain, crate::specs::ReadingStatements::as_long))]
fn as_long(
    alloc: Global,
    tokens: &mut Tokens<'_>,
    fuel: usize,
    line: u32,
) -> Result<(Items<PyStmt>, usize), Fault>
    requires small { fuel < 2 ^ 32 }
    ensures reads { Reads (spec.alone (spec.stmt fuel) (spec.as_long (spec.stmt fuel) fuel line) tokens.old) result tokens.new }
    ensures depth { IfOk result (λ x. x.1 ≤ fuel + 1) }
{
    let (test, depth) = expr(alloc, tokens, fuel, 1)?;
    tokens.expect(COLON)?;
    let (body, inner) = suite(alloc, tokens, fuel)?;
    Ok((
        alone(alloc, PyStmt::While(line, test, body))?,
        depth.max(inner) + 1,
    ))
}

/// After a parameter: a comma, or the bracket that closes; whether more may follow.
#[tactic(auto, unfolding(mh_reader::specs::Reader::chain, crate::specs::Reading::closing))]
fn param_end(
    tokens: &mut Tokens<'_>,
    found: Items<Param>,
    deepest: usize,
) -> Result<((Items<Param>, usize), bool), Fault>
    ensures reads { Reads (closing rparen (found, deepest) tokens.old) result tokens.new }
    ensures depth { IfOk result (λ x. x.0.1 ≡ deepest) }
{
    if tokens.eat(COMMA) {
        return Ok(((found, deepest), true));
    }
    tokens.expect(RPAREN)?;
    Ok(((found, deepest), false))
}

/// One parameter, or the bracket that closes.
#[tactic(auto, unfolding(mh_reader::specs::Reader::chain, crate::specs::ReadingStatements::param_turn))]
fn param_turn(
    alloc: Global,
    tokens: &mut Tokens<'_>,
    fuel: usize,
    mut found: Items<Param>,
    deepest: usize,
) -> Result<((Items<Param>, usize), bool), Fault>
    requires small { fuel < 2 ^ 32 }
    requires depth { deepest ≤ fuel }
    ensures reads { Reads (spec.param_turn (spec.stmt fuel) fuel (found, deepest) tokens.old) result tokens.new }
    ensures depth { IfOk result (λ x. x.0.1 ≤ fuel) }
{
    if tokens.eat(RPAREN) {
        return Ok(((found, deepest), false));
    }
    let name = tokens.take_name(alloc)?;
    if tokens.eat(EQUALS) {
        let (a, depth) = expr(alloc, tokens, fuel, 1)?;
        found.push(Param {
            name,
            value: Some(a),
        })?;
        return param_end(tokens, found, deepest.max(depth));
    }
    found.push(Param { name, value: None })?;
    param_end(tokens, found, deepest)
}

/// The parameters of a definition, after `(`.
fn params(
    alloc: Global,
    tokens: &mut Tokens<'_>,
    fuel: usize,
) -> Result<(Items<Param>, usize), Fault>
    requires small { fuel < 2 ^ 32 }
    ensures reads { Reads (many (spec.param_turn (spec.stmt fuel) fuel) ([], 0) tokens.old) result tokens.new }
    ensures depth { IfOk result (λ x. x.1 ≤ fuel) }
{
    let mut found = Items::new(alloc);
    let mut deepest = 0;
    'more: loop {
        let ((longer, depth), goes_on) = param_turn(alloc, tokens, fuel, found, deepest)?;
        found = longer;
        deepest = depth;
        if !goes_on {
            return Ok((found, deepest));
        }
    }
}

/// The rest of a definition, after its parameters.
#[cycle(statements)]
#[tactic(auto, unfolding(mh_reader::specs::Reader::chain))]
fn body_of(
    alloc: Global,
    tokens: &mut Tokens<'_>,
    fuel: usize,
    marks: Items<PyExpr>,
    marks_depth: usize,
    line: u32,
    name: Text,
    params: Items<Param>,
    depth: usize,
) -> Result<(Items<PyStmt>, usize), Fault>
    requires small { fuel < 2 ^ 32 }
    requires marks { marks_depth ≤ fuel }
    requires depth { depth ≤ fuel }
    ensures reads { Reads (chain (expect (is colon)) (λ _. chain (spec.suite (spec.stmt fuel) fuel) (λ body. pure (tree.Def (definition marks name params body.0 line) ∷ [], max marks_depth (max depth body.1) + 1))) tokens.old) result tokens.new }
    ensures depth { IfOk result (λ x. x.1 ≤ fuel + 1) }
{
    tokens.expect(COLON)?;
    let (body, inner) = suite(alloc, tokens, fuel)?;
    let statement = PyStmt::Def(FuncDef {
        marks,
        name,
        params,
        body,
        line,
    });
    Ok((
        alone(alloc, statement)?,
        marks_depth.max(depth.max(inner)) + 1,
    ))
}

/// A definition, after its marks and `def`.
#[cycle(statements)]
#[tactic(auto, unfolding(mh_reader::specs::Reader::chain, crate::specs::ReadingStatements::defined))]
fn defined(
    alloc: Global,
    tokens: &mut Tokens<'_>,
    fuel: usize,
    marks: Items<PyExpr>,
    marks_depth: usize,
    line: u32,
) -> Result<(Items<PyStmt>, usize), Fault>
    requires small { fuel < 2 ^ 32 }
    requires depth { marks_depth ≤ fuel }
    ensures reads { Reads (spec.alone (spec.stmt fuel) (spec.defined (spec.stmt fuel) fuel (marks, marks_depth) line) tokens.old) result tokens.new }
    ensures depth { IfOk result (λ x. x.1 ≤ fuel + 1) }
{
    let name = tokens.take_name(alloc)?;
    tokens.expect(LPAREN)?;
    let (params, depth) = params(alloc, tokens, fuel)?;
    body_of(
        alloc,
        tokens,
        fuel,
        marks,
        marks_depth,
        line,
        name,
        params,
        depth,
    )
}

/// One mark, after `@`; whether another follows.
#[tactic(auto, unfolding(mh_reader::specs::Reader::chain, crate::specs::ReadingStatements::mark_turn))]
fn mark_turn(
    alloc: Global,
    tokens: &mut Tokens<'_>,
    fuel: usize,
    mut found: Items<PyExpr>,
    deepest: usize,
) -> Result<((Items<PyExpr>, usize), bool), Fault>
    requires small { fuel < 2 ^ 32 }
    requires depth { deepest ≤ fuel }
    ensures reads { Reads (spec.mark_turn (spec.stmt fuel) fuel (found, deepest) tokens.old) result tokens.new }
    ensures depth { IfOk result (λ x. x.0.1 ≤ fuel) }
{
    let (a, depth) = expr(alloc, tokens, fuel, 12)?;
    tokens.expect(Tok::Newline)?;
    found.push(a)?;
    let goes_on = tokens.eat(AT);
    Ok(((found, deepest.max(depth)), goes_on))
}

/// The marks of a definition, after the first `@`.
fn marks(
    alloc: Global,
    tokens: &mut Tokens<'_>,
    fuel: usize,
) -> Result<(Items<PyExpr>, usize), Fault>
    requires small { fuel < 2 ^ 32 }
    ensures reads { Reads (many (spec.mark_turn (spec.stmt fuel) fuel) ([], 0) tokens.old) result tokens.new }
    ensures depth { IfOk result (λ x. x.1 ≤ fuel) }
{
    let mut found = Items::new(alloc);
    let mut deepest = 0;
    'more: loop {
        let ((longer, depth), goes_on) = mark_turn(alloc, tokens, fuel, found, deepest)?;
        found = longer;
        deepest = depth;
        if !goes_on {
            return Ok((found, deepest));
        }
    }
}

/// A definition with marks, after the first `@`.
#[cycle(statements)]
#[tactic(auto, unfolding(mh_reader::specs::Reader::chain, crate::specs::ReadingStatements::marked))]
fn marked(
    alloc: Global,
    tokens: &mut Tokens<'_>,
    fuel: usize,
) -> Result<(Items<PyStmt>, usize), Fault>
    requires small { fuel < 2 ^ 32 }
    ensures reads { Reads (spec.alone (spec.stmt fuel) (spec.marked (spec.stmt fuel) fuel) tokens.old) result tokens.new }
    ensures depth { IfOk result (λ x. x.1 ≤ fuel + 1) }
{
    let (marks, depth) = marks(alloc, tokens, fuel)?;
    let line = tokens.line();
    tokens.expect(DEF)?;
    defined(alloc, tokens, fuel, marks, depth, line)
}

/// A statement that holds others, or a line.
#[cycle(statements)]
#[tactic(auto, unfolding(mh_reader::specs::Reader::chain, crate::specs::ReadingStatements::compound))]
fn compound(
    alloc: Global,
    tokens: &mut Tokens<'_>,
    fuel: usize,
    line: u32,
) -> Result<(Items<PyStmt>, usize), Fault>
    requires small { fuel < 2 ^ 32 }
    ensures reads { Reads (spec.compound (spec.stmt fuel) fuel line tokens.old) result tokens.new }
    ensures depth { IfOk result (λ x. x.1 ≤ fuel + 1) }
{
    if tokens.eat(IF) {
        return conditional(alloc, tokens, fuel, line);
    }
    if tokens.eat(FOR) {
        return for_each(alloc, tokens, fuel, line);
    }
    if tokens.eat(WHILE) {
        return as_long(alloc, tokens, fuel, line);
    }
    if tokens.eat(DEF) {
        return defined(alloc, tokens, fuel, Items::new(alloc), 0, line);
    }
    if tokens.eat(AT) {
        return marked(alloc, tokens, fuel);
    }
    simple(alloc, tokens, fuel + 1)
}

/// A line, or a statement that holds others, where a level is left for these.
#[cycle(statements)]
#[tactic(auto, unfolding(mh_reader::specs::Reader::chain, crate::specs::ReadingStatements::stmt_by))]
fn stmt_by(
    alloc: Global,
    tokens: &mut Tokens<'_>,
    fuel: usize,
) -> Result<(Items<PyStmt>, usize), Fault>
    requires small { fuel < 2 ^ 32 }
    ensures reads { Reads (spec.stmt_by (spec.stmt fuel) fuel tokens.old) result tokens.new }
    ensures depth { IfOk result (λ x. x.1 ≤ fuel + 1) }
{
    if fuel == 0 {
        return simple(alloc, tokens, fuel + 1);
    }
    let line = tokens.line();
    compound(alloc, tokens, fuel, line)
}

/// A line of small statements, or one that holds others, no deeper than `fuel`.
#[cycle(statements)]
#[tactic(auto, unfolding(crate::specs::ReadingStatements::stmt))]
pub fn stmt(
    alloc: Global,
    tokens: &mut Tokens<'_>,
    fuel: usize,
) -> Result<(Items<PyStmt>, usize), Fault>
    requires small { fuel ≤ 2 ^ 32 }
    ensures reads { Reads (spec.stmt fuel tokens.old) result tokens.new }
    ensures depth { IfOk result (λ x. x.1 ≤ fuel) }
{
    if fuel == 0 {
        return Err(Fault::Syntax);
    }
    stmt_by(alloc, tokens, fuel - 1)
}
