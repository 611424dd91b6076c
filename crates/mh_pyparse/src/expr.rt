//! Expressions, by how tightly operators bind. With each tree goes how deep it is, and `fuel` is how deep
//! what stands inside may be.

ghost use Rattle.std.specs.Prelude.{◌≡◌, ◌<◌, ◌≤◌, ◌+◌, ◌^◌, [], ◌∷◌, max, IfOk};
ghost use Rattle.mh_reader.specs.Reader.{Reads, behind, chain, expect, many, pure};
ghost use Rattle.mh_pytree.specs.declared.expression.PyExpr.TheVariants as tree;
ghost use Rattle.mh_pyparse.specs.Signs.{rbracket};
ghost use Rattle.mh_pyparse.specs.Reading as spec;
ghost use Rattle.mh_pyparse.specs.Operators.{name_of};

use crate::cursor::Tokens;
use crate::infix::{Infix, Prefix, admits, op_level, prefix_level};
use crate::signs::{COLON, COMMA, EQUALS, FOR, IN, LBRACKET, LPAREN, RBRACKET, RPAREN};
use mh_pytok::Tok;
use mh_pytree::{Argument, PyExpr};
use mh_reader::Fault;
use mh_text::Text;
use sqlite_items::{Boxed, Items};
use std::alloc::Global;

/// A tree of one token, which is taken.
fn taken(tokens: &mut Tokens<'_>, tree: PyExpr) -> (PyExpr, usize)
    ensures tree { result ≡ (tree, 1) }
    ensures token { tokens.new ≡ behind tokens.old }
{
    tokens.take();
    (tree, 1)
}

/// What a token is by itself.
#[tactic(auto, unfolding(mh_reader::specs::Reader::chain, mh_reader::specs::Reader::want, crate::specs::Reading::leaf, crate::specs::Reading::leaf_of, crate::specs::Reading::word_leaf))]
fn leaf(alloc: Global, tokens: &mut Tokens<'_>) -> Result<(PyExpr, usize), Fault>
    ensures reads { Reads (spec.leaf tokens.old) result tokens.new }
    ensures depth { IfOk result (λ x. x.1 ≤ 1) }
{
    let Some(kind) = tokens.peek() else {
        return Err(Fault::Syntax);
    };
    match kind {
        Tok::Name => {
            let name = Text::new(alloc, tokens.text())?;
            Ok(taken(tokens, PyExpr::Name(name)))
        }
        Tok::Number => {
            let number = tokens.number();
            Ok(taken(tokens, PyExpr::Number(number)))
        }
        Tok::Str => {
            let text = tokens.string(alloc)?;
            Ok(taken(tokens, PyExpr::Str(text)))
        }
        Tok::Keyword(1) => Ok(taken(tokens, PyExpr::False)),
        Tok::Keyword(2) => Ok(taken(tokens, PyExpr::None)),
        Tok::Keyword(3) => Ok(taken(tokens, PyExpr::True)),
        _ => Err(Fault::Syntax),
    }
}

/// One item of a list, or its closing sign.
#[cycle(expressions)]
#[tactic(auto, unfolding(mh_reader::specs::Reader::chain, crate::specs::Reading::items_turn, crate::specs::Reading::closing))]
fn items_turn(
    alloc: Global,
    tokens: &mut Tokens<'_>,
    fuel: usize,
    close: Tok,
    mut found: Items<PyExpr>,
    deepest: usize,
) -> Result<((Items<PyExpr>, usize), bool), Fault>
    requires small { fuel < 2 ^ 32 }
    requires depth { deepest ≤ fuel }
    ensures reads { Reads (spec.items_turn (spec.expr fuel) close (found, deepest) tokens.old) result tokens.new }
    ensures depth { IfOk result (λ x. x.0.1 ≤ fuel) }
{
    if tokens.eat(close) {
        return Ok(((found, deepest), false));
    }
    let (x, depth) = expr(alloc, tokens, fuel, 1)?;
    found.push(x)?;
    let deepest = deepest.max(depth);
    if tokens.eat(COMMA) {
        return Ok(((found, deepest), true));
    }
    tokens.expect(close)?;
    Ok(((found, deepest), false))
}

/// Expressions up to the closing sign, after those that were found.
#[cycle(expressions)]
fn items(
    alloc: Global,
    tokens: &mut Tokens<'_>,
    fuel: usize,
    close: Tok,
    mut found: Items<PyExpr>,
    mut deepest: usize,
) -> Result<(Items<PyExpr>, usize), Fault>
    requires small { fuel < 2 ^ 32 }
    requires depth { deepest ≤ fuel }
    ensures reads { Reads (many (spec.items_turn (spec.expr fuel) close) (found, deepest) tokens.old) result tokens.new }
    ensures depth { IfOk result (λ x. x.1 ≤ fuel) }
{
    'more: loop {
        let ((longer, depth), goes_on) = items_turn(alloc, tokens, fuel, close, found, deepest)?;
        found = longer;
        deepest = depth;
        if !goes_on {
            return Ok((found, deepest));
        }
    }
}

/// A tuple in brackets, after `(`, an expression and a comma.
#[cycle(expressions)]
#[tactic(auto, unfolding(mh_reader::specs::Reader::chain, crate::specs::Reading::bracketed, crate::specs::Reading::items))]
fn bracketed(
    alloc: Global,
    tokens: &mut Tokens<'_>,
    fuel: usize,
    a: PyExpr,
    depth: usize,
) -> Result<(PyExpr, usize), Fault>
    requires small { fuel < 2 ^ 32 }
    requires depth { depth ≤ fuel }
    ensures reads { Reads (spec.bracketed (spec.expr fuel) (a, depth) tokens.old) result tokens.new }
    ensures depth { IfOk result (λ x. x.1 ≤ fuel + 1) }
{
    let mut found = Items::new(alloc);
    found.push(a)?;
    let (xs, deepest) = items(alloc, tokens, fuel, RPAREN, found, depth)?;
    Ok((PyExpr::Bracketed(xs), deepest + 1))
}

/// What stands in round brackets, after `(`.
#[cycle(expressions)]
#[tactic(auto, unfolding(mh_reader::specs::Reader::chain, crate::specs::Reading::round))]
fn round(alloc: Global, tokens: &mut Tokens<'_>, fuel: usize) -> Result<(PyExpr, usize), Fault>
    requires small { fuel < 2 ^ 32 }
    ensures reads { Reads (spec.round (spec.expr fuel) tokens.old) result tokens.new }
    ensures depth { IfOk result (λ x. x.1 ≤ fuel + 1) }
{
    if tokens.eat(RPAREN) {
        return Ok((PyExpr::Bracketed(Items::new(alloc)), 1));
    }
    let (a, depth) = expr(alloc, tokens, fuel, 1)?;
    if tokens.eat(COMMA) {
        return bracketed(alloc, tokens, fuel, a, depth);
    }
    tokens.expect(RPAREN)?;
    Ok((PyExpr::Group(Boxed::new(alloc, a)?), depth + 1))
}

/// The rest of a comprehension, after `in`.
#[cycle(expressions)]
#[tactic(auto, unfolding(mh_reader::specs::Reader::chain))]
fn comprehended(
    alloc: Global,
    tokens: &mut Tokens<'_>,
    fuel: usize,
    a: PyExpr,
    depth: usize,
    name: Text,
) -> Result<(PyExpr, usize), Fault>
    requires small { fuel < 2 ^ 32 }
    requires depth { depth ≤ fuel }
    ensures reads { Reads (chain (spec.expr fuel 1) (λ b. chain (expect (spec.is rbracket)) (λ _. pure (tree.Comprehension a name b.0, max depth b.1 + 1))) tokens.old) result tokens.new }
    ensures depth { IfOk result (λ x. x.1 ≤ fuel + 1) }
{
    let item = Boxed::new(alloc, a)?;
    let (b, other) = expr(alloc, tokens, fuel, 1)?;
    tokens.expect(RBRACKET)?;
    let over = Boxed::new(alloc, b)?;
    Ok((
        PyExpr::Comprehension(item, name, over),
        depth.max(other) + 1,
    ))
}

/// A comprehension, after `[`, an expression and `for`.
#[cycle(expressions)]
#[tactic(auto, unfolding(mh_reader::specs::Reader::chain, crate::specs::Reading::comprehension))]
fn comprehension(
    alloc: Global,
    tokens: &mut Tokens<'_>,
    fuel: usize,
    a: PyExpr,
    depth: usize,
) -> Result<(PyExpr, usize), Fault>
    requires small { fuel < 2 ^ 32 }
    requires depth { depth ≤ fuel }
    ensures reads { Reads (spec.comprehension (spec.expr fuel) (a, depth) tokens.old) result tokens.new }
    ensures depth { IfOk result (λ x. x.1 ≤ fuel + 1) }
{
    let name = tokens.take_name(alloc)?;
    tokens.expect(IN)?;
    comprehended(alloc, tokens, fuel, a, depth, name)
}

/// A list, after `[` and an expression.
#[cycle(expressions)]
#[tactic(auto, unfolding(mh_reader::specs::Reader::chain, crate::specs::Reading::list, crate::specs::Reading::items))]
fn list(
    alloc: Global,
    tokens: &mut Tokens<'_>,
    fuel: usize,
    a: PyExpr,
    depth: usize,
) -> Result<(PyExpr, usize), Fault>
    requires small { fuel < 2 ^ 32 }
    requires depth { depth ≤ fuel }
    ensures reads { Reads (spec.list (spec.expr fuel) (a, depth) tokens.old) result tokens.new }
    ensures depth { IfOk result (λ x. x.1 ≤ fuel + 1) }
{
    let mut found = Items::new(alloc);
    found.push(a)?;
    if tokens.eat(COMMA) {
        let (xs, deepest) = items(alloc, tokens, fuel, RBRACKET, found, depth)?;
        return Ok((PyExpr::List(xs), deepest + 1));
    }
    tokens.expect(RBRACKET)?;
    Ok((PyExpr::List(found), depth + 1))
}

/// What stands in square brackets, after `[`.
#[cycle(expressions)]
#[tactic(auto, unfolding(mh_reader::specs::Reader::chain, crate::specs::Reading::square))]
fn square(alloc: Global, tokens: &mut Tokens<'_>, fuel: usize) -> Result<(PyExpr, usize), Fault>
    requires small { fuel < 2 ^ 32 }
    ensures reads { Reads (spec.square (spec.expr fuel) tokens.old) result tokens.new }
    ensures depth { IfOk result (λ x. x.1 ≤ fuel + 1) }
{
    if tokens.eat(RBRACKET) {
        return Ok((PyExpr::List(Items::new(alloc)), 1));
    }
    let (a, depth) = expr(alloc, tokens, fuel, 1)?;
    if tokens.eat(FOR) {
        comprehension(alloc, tokens, fuel, a, depth)
    } else {
        list(alloc, tokens, fuel, a, depth)
    }
}

/// The operand of an operator that stands in front.
#[cycle(expressions)]
#[tactic(auto, unfolding(mh_reader::specs::Reader::chain, crate::specs::Reading::operand))]
fn operand(
    alloc: Global,
    tokens: &mut Tokens<'_>,
    fuel: usize,
    operator: Prefix,
) -> Result<(PyExpr, usize), Fault>
    requires small { fuel < 2 ^ 32 }
    ensures reads { Reads (spec.operand (spec.expr fuel) operator tokens.old) result tokens.new }
    ensures depth { IfOk result (λ x. x.1 ≤ fuel + 1) }
{
    let (a, depth) = expr(alloc, tokens, fuel, prefix_level(operator))?;
    let a = Boxed::new(alloc, a)?;
    let found = match operator {
        Prefix::Not => PyExpr::Not(a),
        Prefix::Unary(sign) => PyExpr::Unary(sign, a),
    };
    Ok((found, depth + 1))
}

/// What begins an expression.
#[cycle(expressions)]
#[tactic(auto, unfolding(mh_reader::specs::Reader::chain, crate::specs::Reading::prefix))]
fn prefix(
    alloc: Global,
    tokens: &mut Tokens<'_>,
    fuel: usize,
    least: u8,
) -> Result<(PyExpr, usize), Fault>
    requires small { fuel < 2 ^ 32 }
    ensures reads { Reads (spec.prefix (spec.expr fuel) fuel least tokens.old) result tokens.new }
    ensures depth { IfOk result (λ x. x.1 ≤ fuel + 1) }
{
    if tokens.eat(LPAREN) {
        return round(alloc, tokens, fuel);
    }
    if tokens.eat(LBRACKET) {
        return square(alloc, tokens, fuel);
    }
    let Some(operator) = tokens.prefix() else {
        return leaf(alloc, tokens);
    };
    if fuel > 0 && least <= prefix_level(operator) {
        tokens.take();
        return operand(alloc, tokens, fuel, operator);
    }
    Err(Fault::Syntax)
}

/// An argument of a call that begins with this expression.
#[cycle(expressions)]
#[tactic(auto, unfolding(mh_reader::specs::Reader::chain))]
fn argument(
    alloc: Global,
    tokens: &mut Tokens<'_>,
    fuel: usize,
    x: PyExpr,
    depth: usize,
) -> Result<(Argument, usize), Fault>
    requires small { fuel < 2 ^ 32 }
    requires depth { depth ≤ fuel }
    ensures reads { Reads (spec.argument_by (spec.expr fuel) (x, depth) (name_of x) tokens.old) result tokens.new }
    ensures depth { IfOk result (λ x. x.1 ≤ fuel) }
{
    match x {
        PyExpr::Name(name) => {
            if tokens.eat(EQUALS) {
                let (value, depth) = expr(alloc, tokens, fuel, 1)?;
                return Ok((
                    Argument {
                        name: Some(name),
                        value,
                    },
                    depth,
                ));
            }
            Ok((
                Argument {
                    name: None,
                    value: PyExpr::Name(name),
                },
                depth,
            ))
        }
        value => Ok((Argument { name: None, value }, depth)),
    }
}

/// One argument of a call, or its closing bracket.
#[cycle(expressions)]
#[tactic(auto, unfolding(mh_reader::specs::Reader::chain, crate::specs::Reading::arguments_turn, crate::specs::Reading::closing))]
fn arguments_turn(
    alloc: Global,
    tokens: &mut Tokens<'_>,
    fuel: usize,
    mut found: Items<Argument>,
    deepest: usize,
) -> Result<((Items<Argument>, usize), bool), Fault>
    requires small { fuel < 2 ^ 32 }
    requires depth { deepest ≤ fuel }
    ensures reads { Reads (spec.arguments_turn (spec.expr fuel) (found, deepest) tokens.old) result tokens.new }
    ensures depth { IfOk result (λ x. x.0.1 ≤ fuel) }
{
    if tokens.eat(RPAREN) {
        return Ok(((found, deepest), false));
    }
    let (x, depth) = expr(alloc, tokens, fuel, 1)?;
    let (a, depth) = argument(alloc, tokens, fuel, x, depth)?;
    found.push(a)?;
    let deepest = deepest.max(depth);
    if tokens.eat(COMMA) {
        return Ok(((found, deepest), true));
    }
    tokens.expect(RPAREN)?;
    Ok(((found, deepest), false))
}

/// The arguments of a call, after `(`.
#[cycle(expressions)]
fn arguments(
    alloc: Global,
    tokens: &mut Tokens<'_>,
    fuel: usize,
) -> Result<(Items<Argument>, usize), Fault>
    requires small { fuel < 2 ^ 32 }
    ensures reads { Reads (many (spec.arguments_turn (spec.expr fuel)) ([], 0) tokens.old) result tokens.new }
    ensures depth { IfOk result (λ x. x.1 ≤ fuel) }
{
    let mut found = Items::new(alloc);
    let mut deepest = 0;
    'more: loop {
        let ((longer, depth), goes_on) = arguments_turn(alloc, tokens, fuel, found, deepest)?;
        found = longer;
        deepest = depth;
        if !goes_on {
            return Ok((found, deepest));
        }
    }
}

/// A slice, after `[`, an expression and `:`.
#[cycle(expressions)]
#[tactic(auto, unfolding(mh_reader::specs::Reader::chain, crate::specs::Reading::sliced))]
fn sliced(
    alloc: Global,
    tokens: &mut Tokens<'_>,
    fuel: usize,
    left: PyExpr,
    left_depth: usize,
    b: PyExpr,
    depth: usize,
) -> Result<(PyExpr, usize), Fault>
    requires small { fuel < 2 ^ 32 }
    requires left { left_depth ≤ fuel }
    requires depth { depth ≤ fuel }
    ensures reads { Reads (spec.sliced (spec.expr fuel) (left, left_depth) (b, depth) tokens.old) result tokens.new }
    ensures depth { IfOk result (λ x. x.1 ≤ fuel + 1) }
{
    let left = Boxed::new(alloc, left)?;
    let b = Boxed::new(alloc, b)?;
    if tokens.eat(RBRACKET) {
        return Ok((PyExpr::Slice(left, b, None), left_depth.max(depth) + 1));
    }
    let (c, other) = expr(alloc, tokens, fuel, 1)?;
    tokens.expect(RBRACKET)?;
    let c = Boxed::new(alloc, c)?;
    Ok((
        PyExpr::Slice(left, b, Some(c)),
        left_depth.max(depth.max(other)) + 1,
    ))
}

/// An index or a slice, after `[`.
#[cycle(expressions)]
#[tactic(auto, unfolding(mh_reader::specs::Reader::chain, crate::specs::Reading::indexed))]
fn indexed(
    alloc: Global,
    tokens: &mut Tokens<'_>,
    fuel: usize,
    left: PyExpr,
    left_depth: usize,
) -> Result<(PyExpr, usize), Fault>
    requires small { fuel < 2 ^ 32 }
    requires left { left_depth ≤ fuel }
    ensures reads { Reads (spec.indexed (spec.expr fuel) (left, left_depth) tokens.old) result tokens.new }
    ensures depth { IfOk result (λ x. x.1 ≤ fuel + 1) }
{
    if tokens.eat(COLON) {
        tokens.expect(RBRACKET)?;
        return Ok((PyExpr::Whole(Boxed::new(alloc, left)?), left_depth + 1));
    }
    let (b, depth) = expr(alloc, tokens, fuel, 1)?;
    if tokens.eat(COLON) {
        return sliced(alloc, tokens, fuel, left, left_depth, b, depth);
    }
    tokens.expect(RBRACKET)?;
    let left = Boxed::new(alloc, left)?;
    let b = Boxed::new(alloc, b)?;
    Ok((PyExpr::Index(left, b), left_depth.max(depth) + 1))
}

/// What follows an operator.
#[cycle(expressions)]
#[tactic(auto, unfolding(mh_reader::specs::Reader::chain, crate::specs::Reading::apply))]
fn apply(
    alloc: Global,
    tokens: &mut Tokens<'_>,
    fuel: usize,
    left: PyExpr,
    left_depth: usize,
    operator: Infix,
) -> Result<(PyExpr, usize), Fault>
    requires small { fuel < 2 ^ 32 }
    requires left { left_depth ≤ fuel }
    ensures reads { Reads (spec.apply (spec.expr fuel) (left, left_depth) operator tokens.old) result tokens.new }
    ensures depth { IfOk result (λ x. x.1 ≤ fuel + 1) }
{
    match operator {
        Infix::Binary(op) => {
            let (b, depth) = expr(alloc, tokens, fuel, op_level(op) + 1)?;
            let left = Boxed::new(alloc, left)?;
            let b = Boxed::new(alloc, b)?;
            Ok((PyExpr::Binary(op, left, b), left_depth.max(depth) + 1))
        }
        Infix::Attribute => {
            let name = tokens.take_name(alloc)?;
            Ok((
                PyExpr::Attribute(Boxed::new(alloc, left)?, name),
                left_depth + 1,
            ))
        }
        Infix::Call => {
            let (xs, depth) = arguments(alloc, tokens, fuel)?;
            Ok((
                PyExpr::Call(Boxed::new(alloc, left)?, xs),
                left_depth.max(depth) + 1,
            ))
        }
        Infix::Index => indexed(alloc, tokens, fuel, left, left_depth),
    }
}

/// The operator and what follows it, where it fits; whether it did.
#[cycle(expressions)]
#[tactic(auto, unfolding(mh_reader::specs::Reader::chain, crate::specs::Reading::operate_turn, crate::specs::Reading::applied))]
fn operate_turn(
    alloc: Global,
    tokens: &mut Tokens<'_>,
    fuel: usize,
    least: u8,
    left: PyExpr,
    left_depth: usize,
) -> Result<((PyExpr, usize), bool), Fault>
    requires small { fuel < 2 ^ 32 }
    requires left { left_depth ≤ fuel + 1 }
    ensures reads { Reads (spec.operate_turn (spec.expr fuel) fuel least (left, left_depth) tokens.old) result tokens.new }
    ensures depth { IfOk result (λ x. x.0.1 ≤ fuel + 1) }
{
    let Some(operator) = tokens.infix() else {
        return Ok(((left, left_depth), false));
    };
    if !admits(least, &left, operator) {
        return Ok(((left, left_depth), false));
    }
    if fuel < left_depth {
        return Err(Fault::Syntax);
    }
    tokens.take();
    let longer = apply(alloc, tokens, fuel, left, left_depth, operator)?;
    Ok((longer, true))
}

/// The operators that follow, each with what follows it.
#[cycle(expressions)]
fn operate(
    alloc: Global,
    tokens: &mut Tokens<'_>,
    fuel: usize,
    least: u8,
    mut left: PyExpr,
    mut left_depth: usize,
) -> Result<(PyExpr, usize), Fault>
    requires small { fuel < 2 ^ 32 }
    requires left { left_depth ≤ fuel + 1 }
    ensures reads { Reads (many (spec.operate_turn (spec.expr fuel) fuel least) (left, left_depth) tokens.old) result tokens.new }
    ensures depth { IfOk result (λ x. x.1 ≤ fuel + 1) }
{
    'more: loop {
        let ((longer, depth), goes_on) = operate_turn(
            alloc, tokens, fuel, least, left, left_depth,
        )?;
        left = longer;
        left_depth = depth;
        if !goes_on {
            return Ok((left, left_depth));
        }
    }
}

/// An expression of the level at least, whose parts have `fuel` levels.
#[cycle(expressions)]
#[tactic(auto, unfolding(mh_reader::specs::Reader::chain, crate::specs::Reading::whole, crate::specs::Reading::operate))]
fn whole(
    alloc: Global,
    tokens: &mut Tokens<'_>,
    fuel: usize,
    least: u8,
) -> Result<(PyExpr, usize), Fault>
    requires small { fuel < 2 ^ 32 }
    ensures reads { Reads (spec.whole (spec.expr fuel) fuel least tokens.old) result tokens.new }
    ensures depth { IfOk result (λ x. x.1 ≤ fuel + 1) }
{
    let (left, depth) = prefix(alloc, tokens, fuel, least)?;
    operate(alloc, tokens, fuel, least, left, depth)
}

/// An expression of the level at least, no deeper than `fuel`.
#[cycle(expressions)]
#[tactic(auto, unfolding(crate::specs::Reading::expr))]
pub fn expr(
    alloc: Global,
    tokens: &mut Tokens<'_>,
    fuel: usize,
    least: u8,
) -> Result<(PyExpr, usize), Fault>
    requires small { fuel ≤ 2 ^ 32 }
    ensures reads { Reads (spec.expr fuel least tokens.old) result tokens.new }
    ensures depth { IfOk result (λ x. x.1 ≤ fuel) }
{
    if fuel == 0 {
        return Err(Fault::Syntax);
    }
    whole(alloc, tokens, fuel - 1, least)
}

/// One item of a tuple without brackets.
#[tactic(auto, unfolding(mh_reader::specs::Reader::chain, crate::specs::Reading::tuple_turn))]
fn tuple_turn(
    alloc: Global,
    tokens: &mut Tokens<'_>,
    fuel: usize,
    mut found: Items<PyExpr>,
    deepest: usize,
) -> Result<((Items<PyExpr>, usize), bool), Fault>
    requires small { fuel < 2 ^ 32 }
    requires depth { deepest ≤ fuel }
    ensures reads { Reads (spec.tuple_turn (spec.expr fuel) (found, deepest) tokens.old) result tokens.new }
    ensures depth { IfOk result (λ x. x.0.1 ≤ fuel) }
{
    if !tokens.begins() {
        return Ok(((found, deepest), false));
    }
    let (x, depth) = expr(alloc, tokens, fuel, 1)?;
    let is_more = tokens.eat(COMMA);
    found.push(x)?;
    Ok(((found, deepest.max(depth)), is_more))
}

/// The items of a tuple without brackets, after the first and its comma.
fn tuple_items(
    alloc: Global,
    tokens: &mut Tokens<'_>,
    fuel: usize,
    mut found: Items<PyExpr>,
    mut deepest: usize,
) -> Result<(Items<PyExpr>, usize), Fault>
    requires small { fuel < 2 ^ 32 }
    requires depth { deepest ≤ fuel }
    ensures reads { Reads (many (spec.tuple_turn (spec.expr fuel)) (found, deepest) tokens.old) result tokens.new }
    ensures depth { IfOk result (λ x. x.1 ≤ fuel) }
{
    'more: loop {
        let ((longer, depth), goes_on) = tuple_turn(alloc, tokens, fuel, found, deepest)?;
        found = longer;
        deepest = depth;
        if !goes_on {
            return Ok((found, deepest));
        }
    }
}

/// A tuple, where a comma follows the expression.
#[tactic(auto, unfolding(mh_reader::specs::Reader::chain, crate::specs::Reading::tuple))]
fn tuple(
    alloc: Global,
    tokens: &mut Tokens<'_>,
    fuel: usize,
    a: PyExpr,
    depth: usize,
) -> Result<(PyExpr, usize), Fault>
    requires small { fuel < 2 ^ 32 }
    requires depth { depth ≤ fuel + 1 }
    ensures reads { Reads (spec.tuple (spec.expr fuel) fuel (a, depth) tokens.old) result tokens.new }
    ensures depth { IfOk result (λ x. x.1 ≤ fuel + 1) }
{
    if fuel < depth || !tokens.eat(COMMA) {
        return Ok((a, depth));
    }
    let mut found = Items::new(alloc);
    found.push(a)?;
    let (xs, deepest) = tuple_items(alloc, tokens, fuel, found, depth)?;
    Ok((PyExpr::Tuple(xs), deepest + 1))
}

/// An expression, or a tuple without brackets, no deeper than `fuel`.
#[tactic(auto, unfolding(mh_reader::specs::Reader::chain, crate::specs::Reading::exprs))]
pub fn exprs(alloc: Global, tokens: &mut Tokens<'_>, fuel: usize) -> Result<(PyExpr, usize), Fault>
    requires small { fuel ≤ 2 ^ 32 }
    ensures reads { Reads (spec.exprs fuel tokens.old) result tokens.new }
    ensures depth { IfOk result (λ x. x.1 ≤ fuel) }
{
    if fuel == 0 {
        return Err(Fault::Syntax);
    }
    let (a, depth) = expr(alloc, tokens, fuel, 1)?;
    tuple(alloc, tokens, fuel - 1, a, depth)
}
