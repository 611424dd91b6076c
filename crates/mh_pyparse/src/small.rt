//! Statements that hold no others, and lines of them. `fuel` is how deep what stands inside may be.

ghost use Rattle.std.specs.Prelude.{◌≡◌, ◌<◌, ◌≤◌, ◌+◌, ◌^◌, [], ◌∷◌, IfOk};
ghost use Rattle.mh_reader.specs.Reader.{Reads, many};
ghost use Rattle.mh_pyparse.specs.ReadingStatements as spec;

use crate::cursor::Tokens;
use crate::expr::{expr, exprs};
use crate::infix::level;
use crate::signs::{
    ASSERT, BREAK, COMMA, CONTINUE, EQUALS, FROM, IMPORT, LPAREN, PASS, RAISE, RETURN, RPAREN,
    SEMICOLON, STAR, YIELD,
};
use mh_pytok::Tok;
use mh_pytree::{PyExpr, PyStmt};
use mh_reader::Fault;
use mh_text::Text;
use sqlite_items::Items;
use std::alloc::Global;

/// A name of an import, and whether a comma follows it.
#[tactic(auto, unfolding(mh_reader::specs::Reader::chain, crate::specs::ReadingStatements::names_turn))]
fn names_turn(
    alloc: Global,
    tokens: &mut Tokens<'_>,
    mut found: Items<Text>,
) -> Result<(Items<Text>, bool), Fault>
    ensures { Reads (spec.names_turn found tokens.old) result tokens.new }
{
    let name = tokens.take_name(alloc)?;
    let goes_on = tokens.eat(COMMA);
    found.push(name)?;
    Ok((found, goes_on))
}

/// The names of an import.
fn names(alloc: Global, tokens: &mut Tokens<'_>) -> Result<Items<Text>, Fault>
    ensures { Reads (many spec.names_turn [] tokens.old) result tokens.new }
{
    let mut found = Items::new(alloc);
    'more: loop {
        let (longer, goes_on) = names_turn(alloc, tokens, found)?;
        found = longer;
        if !goes_on {
            return Ok(found);
        }
    }
}

/// A name of an import in brackets, where the last comma may have no name after it.
#[tactic(auto, unfolding(mh_reader::specs::Reader::chain, crate::specs::ReadingStatements::bracketed_names_turn))]
fn bracketed_names_turn(
    alloc: Global,
    tokens: &mut Tokens<'_>,
    mut found: Items<Text>,
) -> Result<(Items<Text>, bool), Fault>
    ensures { Reads (spec.bracketed_names_turn found tokens.old) result tokens.new }
{
    let name = tokens.take_name(alloc)?;
    found.push(name)?;
    if tokens.eat(COMMA) {
        let is_closed = tokens.eat(RPAREN);
        return Ok((found, !is_closed));
    }
    tokens.expect(RPAREN)?;
    Ok((found, false))
}

/// The names of an import in brackets, and the bracket that closes.
fn bracketed_names(alloc: Global, tokens: &mut Tokens<'_>) -> Result<Items<Text>, Fault>
    ensures { Reads (many spec.bracketed_names_turn [] tokens.old) result tokens.new }
{
    let mut found = Items::new(alloc);
    'more: loop {
        let (longer, goes_on) = bracketed_names_turn(alloc, tokens, found)?;
        found = longer;
        if !goes_on {
            return Ok(found);
        }
    }
}

/// The names of an import, with brackets or without.
#[tactic(auto, unfolding(mh_reader::specs::Reader::chain, crate::specs::ReadingStatements::imported_names))]
fn imported_names(
    alloc: Global,
    tokens: &mut Tokens<'_>,
    line: u32,
) -> Result<(PyStmt, usize), Fault>
    ensures reads { Reads (spec.imported_names line tokens.old) result tokens.new }
    ensures depth { IfOk result (λ x. x.1 ≤ 1) }
{
    if tokens.eat(LPAREN) {
        let names = bracketed_names(alloc, tokens)?;
        return Ok((PyStmt::Import(line, names), 1));
    }
    let names = names(alloc, tokens)?;
    Ok((PyStmt::Import(line, names), 1))
}

/// An import, after `from`.
#[tactic(auto, unfolding(mh_reader::specs::Reader::chain, crate::specs::ReadingStatements::imported))]
fn imported(alloc: Global, tokens: &mut Tokens<'_>, line: u32) -> Result<(PyStmt, usize), Fault>
    ensures reads { Reads (spec.imported line tokens.old) result tokens.new }
    ensures depth { IfOk result (λ x. x.1 ≤ 1) }
{
    tokens.expect_module()?;
    tokens.expect(IMPORT)?;
    if tokens.eat(STAR) {
        return Ok((PyStmt::ImportAll(line), 1));
    }
    imported_names(alloc, tokens, line)
}

/// After an expression that `=` does not follow: an assignment that operates on it, or it alone.
#[tactic(auto, unfolding(mh_reader::specs::Reader::chain, crate::specs::ReadingStatements::valued, crate::specs::ReadingStatements::augmented))]
fn valued(
    alloc: Global,
    tokens: &mut Tokens<'_>,
    fuel: usize,
    line: u32,
    a: PyExpr,
    depth: usize,
) -> Result<(PyStmt, usize), Fault>
    requires small { fuel < 2 ^ 32 }
    requires depth { depth ≤ fuel }
    ensures reads { Reads (spec.valued fuel line (a, depth) tokens.old) result tokens.new }
    ensures depth { IfOk result (λ x. x.1 ≤ fuel + 1) }
{
    if level(&a) < 12 {
        return Ok((PyStmt::Value(line, a), depth + 1));
    }
    let Some(op) = tokens.augment() else {
        return Ok((PyStmt::Value(line, a), depth + 1));
    };
    tokens.take();
    let (b, other) = expr(alloc, tokens, fuel, 1)?;
    Ok((PyStmt::Augment(line, op, a, b), depth.max(other) + 1))
}

/// A statement that begins with an expression.
#[tactic(auto, unfolding(mh_reader::specs::Reader::chain, crate::specs::ReadingStatements::expressed))]
fn expressed(
    alloc: Global,
    tokens: &mut Tokens<'_>,
    fuel: usize,
    line: u32,
) -> Result<(PyStmt, usize), Fault>
    requires small { fuel < 2 ^ 32 }
    ensures reads { Reads (spec.expressed fuel line tokens.old) result tokens.new }
    ensures depth { IfOk result (λ x. x.1 ≤ fuel + 1) }
{
    let (a, depth) = exprs(alloc, tokens, fuel)?;
    if tokens.eat(EQUALS) {
        let (b, other) = exprs(alloc, tokens, fuel)?;
        return Ok((PyStmt::Assign(line, a, b), depth.max(other) + 1));
    }
    valued(alloc, tokens, fuel, line, a, depth)
}

/// After `return`.
#[tactic(auto, unfolding(mh_reader::specs::Reader::chain, crate::specs::ReadingStatements::returned))]
fn returned(
    alloc: Global,
    tokens: &mut Tokens<'_>,
    fuel: usize,
    line: u32,
) -> Result<(PyStmt, usize), Fault>
    requires small { fuel < 2 ^ 32 }
    ensures reads { Reads (spec.returned fuel line tokens.old) result tokens.new }
    ensures depth { IfOk result (λ x. x.1 ≤ fuel + 1) }
{
    if !tokens.begins() {
        return Ok((PyStmt::Return(line, None), 1));
    }
    let (a, depth) = exprs(alloc, tokens, fuel)?;
    Ok((PyStmt::Return(line, Some(a)), depth + 1))
}

/// After `yield`.
#[tactic(auto, unfolding(mh_reader::specs::Reader::chain, crate::specs::ReadingStatements::yielded))]
fn yielded(
    alloc: Global,
    tokens: &mut Tokens<'_>,
    fuel: usize,
    line: u32,
) -> Result<(PyStmt, usize), Fault>
    requires small { fuel < 2 ^ 32 }
    ensures reads { Reads (spec.yielded fuel line tokens.old) result tokens.new }
    ensures depth { IfOk result (λ x. x.1 ≤ fuel + 1) }
{
    let (a, depth) = exprs(alloc, tokens, fuel)?;
    Ok((PyStmt::Yield(line, a), depth + 1))
}

/// After `raise`.
#[tactic(auto, unfolding(mh_reader::specs::Reader::chain, crate::specs::ReadingStatements::raised))]
fn raised(
    alloc: Global,
    tokens: &mut Tokens<'_>,
    fuel: usize,
    line: u32,
) -> Result<(PyStmt, usize), Fault>
    requires small { fuel < 2 ^ 32 }
    ensures reads { Reads (spec.raised fuel line tokens.old) result tokens.new }
    ensures depth { IfOk result (λ x. x.1 ≤ fuel + 1) }
{
    let (a, depth) = expr(alloc, tokens, fuel, 1)?;
    Ok((PyStmt::Raise(line, a), depth + 1))
}

/// After `assert`.
#[tactic(auto, unfolding(mh_reader::specs::Reader::chain, crate::specs::ReadingStatements::asserted))]
fn asserted(
    alloc: Global,
    tokens: &mut Tokens<'_>,
    fuel: usize,
    line: u32,
) -> Result<(PyStmt, usize), Fault>
    requires small { fuel < 2 ^ 32 }
    ensures reads { Reads (spec.asserted fuel line tokens.old) result tokens.new }
    ensures depth { IfOk result (λ x. x.1 ≤ fuel + 1) }
{
    let (a, depth) = expr(alloc, tokens, fuel, 1)?;
    if tokens.eat(COMMA) {
        let text = tokens.take_string(alloc)?;
        return Ok((PyStmt::Assert(line, a, Some(text)), depth + 1));
    }
    Ok((PyStmt::Assert(line, a, None), depth + 1))
}

/// A statement that holds an expression.
#[tactic(auto, unfolding(mh_reader::specs::Reader::chain, crate::specs::ReadingStatements::holding))]
fn holding(
    alloc: Global,
    tokens: &mut Tokens<'_>,
    fuel: usize,
    line: u32,
) -> Result<(PyStmt, usize), Fault>
    requires small { fuel < 2 ^ 32 }
    ensures reads { Reads (spec.holding fuel line tokens.old) result tokens.new }
    ensures depth { IfOk result (λ x. x.1 ≤ fuel + 1) }
{
    if tokens.eat(YIELD) {
        return yielded(alloc, tokens, fuel, line);
    }
    if tokens.eat(RAISE) {
        return raised(alloc, tokens, fuel, line);
    }
    if tokens.eat(ASSERT) {
        return asserted(alloc, tokens, fuel, line);
    }
    expressed(alloc, tokens, fuel, line)
}

/// A statement that holds no other, which begins on the line.
#[tactic(auto, unfolding(mh_reader::specs::Reader::chain, crate::specs::ReadingStatements::small_by))]
fn small_by(
    alloc: Global,
    tokens: &mut Tokens<'_>,
    fuel: usize,
    line: u32,
) -> Result<(PyStmt, usize), Fault>
    requires small { fuel < 2 ^ 32 }
    ensures reads { Reads (spec.small_by fuel line tokens.old) result tokens.new }
    ensures depth { IfOk result (λ x. x.1 ≤ fuel + 1) }
{
    if tokens.eat(PASS) {
        return Ok((PyStmt::Pass(line), 1));
    }
    if tokens.eat(BREAK) {
        return Ok((PyStmt::Break(line), 1));
    }
    if tokens.eat(CONTINUE) {
        return Ok((PyStmt::Continue(line), 1));
    }
    if tokens.eat(RETURN) {
        return returned(alloc, tokens, fuel, line);
    }
    if tokens.eat(FROM) {
        return imported(alloc, tokens, line);
    }
    if fuel == 0 {
        return Err(Fault::Syntax);
    }
    holding(alloc, tokens, fuel, line)
}

/// A statement that holds no other.
#[tactic(auto, unfolding(mh_reader::specs::Reader::chain, crate::specs::ReadingStatements::small))]
fn small(alloc: Global, tokens: &mut Tokens<'_>, fuel: usize) -> Result<(PyStmt, usize), Fault>
    requires small { fuel < 2 ^ 32 }
    ensures reads { Reads (spec.small fuel tokens.old) result tokens.new }
    ensures depth { IfOk result (λ x. x.1 ≤ fuel + 1) }
{
    let line = tokens.line();
    small_by(alloc, tokens, fuel, line)
}

/// One statement of a line; whether more follow.
#[tactic(auto, unfolding(mh_reader::specs::Reader::chain, crate::specs::ReadingStatements::line_turn))]
fn line_turn(
    alloc: Global,
    tokens: &mut Tokens<'_>,
    fuel: usize,
    mut found: Items<PyStmt>,
    deepest: usize,
) -> Result<((Items<PyStmt>, usize), bool), Fault>
    requires small { fuel < 2 ^ 32 }
    requires depth { deepest ≤ fuel + 1 }
    ensures reads { Reads (spec.line_turn fuel (found, deepest) tokens.old) result tokens.new }
    ensures depth { IfOk result (λ x. x.0.1 ≤ fuel + 1) }
{
    let (x, depth) = small(alloc, tokens, fuel)?;
    found.push(x)?;
    let deepest = deepest.max(depth);
    if tokens.eat(SEMICOLON) {
        let is_ended = tokens.eat(Tok::Newline);
        return Ok(((found, deepest), !is_ended));
    }
    tokens.expect(Tok::Newline)?;
    Ok(((found, deepest), false))
}

/// The statements of a line, up to its end.
fn line_rest(
    alloc: Global,
    tokens: &mut Tokens<'_>,
    fuel: usize,
) -> Result<(Items<PyStmt>, usize), Fault>
    requires small { fuel < 2 ^ 32 }
    ensures reads { Reads (many (spec.line_turn fuel) ([], 0) tokens.old) result tokens.new }
    ensures depth { IfOk result (λ x. x.1 ≤ fuel + 1) }
{
    let mut found = Items::new(alloc);
    let mut deepest = 0;
    'more: loop {
        let ((longer, depth), goes_on) = line_turn(alloc, tokens, fuel, found, deepest)?;
        found = longer;
        deepest = depth;
        if !goes_on {
            return Ok((found, deepest));
        }
    }
}

/// A line of small statements, no deeper than `fuel`.
#[tactic(auto, unfolding(mh_reader::specs::Reader::chain, crate::specs::ReadingStatements::simple))]
pub fn simple(
    alloc: Global,
    tokens: &mut Tokens<'_>,
    fuel: usize,
) -> Result<(Items<PyStmt>, usize), Fault>
    requires small { fuel ≤ 2 ^ 32 }
    ensures reads { Reads (spec.simple fuel tokens.old) result tokens.new }
    ensures depth { IfOk result (λ x. x.1 ≤ fuel) }
{
    if fuel == 0 {
        return Err(Fault::Syntax);
    }
    line_rest(alloc, tokens, fuel - 1)
}
