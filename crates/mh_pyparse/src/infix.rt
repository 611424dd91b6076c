ghost use Rattle.std.specs.Prelude.{◌≡◌, ◌≤◌};
ghost use Rattle.mh_pyparse.specs.Signs as signs;
ghost use Rattle.mh_pyparse.specs.Operators as spec;
ghost use Rattle.mh_pyparse.specs.Reading as reading;

use mh_pytok::{Tok, level_of};
use mh_pytree::{Operator, PyExpr, Sign};

/// What stands after its first operand: a binary operator, `.`, `(` of a call, or `[` of an index.
#[derive(Clone, Copy, Debug, PartialEq, Eq)]
pub enum Infix {
    Binary(Operator),
    Attribute,
    Call,
    Index,
}

/// What stands in front of its operand.
#[derive(Clone, Copy, Debug, PartialEq, Eq)]
pub enum Prefix {
    Not,
    Unary(Sign),
}

#[tactic(auto, unfolding(crate::specs::Operators::infix_sign))]
fn infix_sign(tag: u16) -> Option<Infix>
    ensures { result ≡ spec.infix_sign tag }
{
    match tag {
        1 => Some(Infix::Binary(Operator::Add)),
        2 => Some(Infix::Binary(Operator::Subtract)),
        3 => Some(Infix::Binary(Operator::Multiply)),
        4 => Some(Infix::Binary(Operator::Divide)),
        5 => Some(Infix::Binary(Operator::Remainder)),
        6 => Some(Infix::Binary(Operator::BitAnd)),
        7 => Some(Infix::Binary(Operator::BitOr)),
        8 => Some(Infix::Binary(Operator::BitXor)),
        10 => Some(Infix::Binary(Operator::ShiftLeft)),
        11 => Some(Infix::Binary(Operator::ShiftRight)),
        12 => Some(Infix::Binary(Operator::Equal)),
        13 => Some(Infix::Binary(Operator::NotEqual)),
        14 => Some(Infix::Binary(Operator::Less)),
        15 => Some(Infix::Binary(Operator::LessEqual)),
        16 => Some(Infix::Binary(Operator::Greater)),
        17 => Some(Infix::Binary(Operator::GreaterEqual)),
        29 => Some(Infix::Call),
        31 => Some(Infix::Index),
        35 => Some(Infix::Attribute),
        _ => None,
    }
}

#[tactic(auto, unfolding(crate::specs::Operators::infix_word))]
fn infix_word(tag: u16) -> Option<Infix>
    ensures { result ≡ spec.infix_word tag }
{
    match tag {
        4 => Some(Infix::Binary(Operator::And)),
        28 => Some(Infix::Binary(Operator::Or)),
        _ => None,
    }
}

/// The operator that a sign or word is after a first operand.
pub fn infix_of(kind: Tok) -> Option<Infix>
    ensures { result ≡ spec.infix_of kind }
{
    match kind {
        Tok::Sign(tag) => infix_sign(tag),
        Tok::Keyword(tag) => infix_word(tag),
        _ => None,
    }
}

/// The sign or word between the operands of an operator.
fn spelled(op: Operator) -> Tok
    ensures { result ≡ signs.spelled op }
{
    match op {
        Operator::Or => Tok::Keyword(28),
        Operator::And => Tok::Keyword(4),
        Operator::Equal => Tok::Sign(12),
        Operator::NotEqual => Tok::Sign(13),
        Operator::Less => Tok::Sign(14),
        Operator::LessEqual => Tok::Sign(15),
        Operator::Greater => Tok::Sign(16),
        Operator::GreaterEqual => Tok::Sign(17),
        Operator::BitOr => Tok::Sign(7),
        Operator::BitXor => Tok::Sign(8),
        Operator::BitAnd => Tok::Sign(6),
        Operator::ShiftLeft => Tok::Sign(10),
        Operator::ShiftRight => Tok::Sign(11),
        Operator::Add => Tok::Sign(1),
        Operator::Subtract => Tok::Sign(2),
        Operator::Multiply => Tok::Sign(3),
        Operator::Divide => Tok::Sign(4),
        Operator::Remainder => Tok::Sign(5),
    }
}

/// How tightly an operator binds: the level in the row of its sign or word.
pub fn op_level(op: Operator) -> u8
    ensures value { result ≡ signs.op_level op }
    ensures small { result ≤ 10 }
{
    level_of(spelled(op))
}

/// How tightly the operator binds, other than a binary one too.
pub fn binds(operator: Infix) -> u8
    ensures { result ≡ spec.binds operator }
{
    match operator {
        Infix::Binary(op) => op_level(op),
        Infix::Attribute | Infix::Call | Infix::Index => 12,
    }
}

/// The least level of a binary operator's left operand: a comparison takes no other.
fn left_level(op: Operator) -> u8
    ensures { result ≡ signs.left_level op }
{
    let level = op_level(op);
    if level == op_level(Operator::Less) {
        level + 1
    } else {
        level
    }
}

/// The least level of what stands in front.
pub fn needs(operator: Infix) -> u8
    ensures { result ≡ spec.needs operator }
{
    match operator {
        Infix::Binary(op) => left_level(op),
        Infix::Attribute | Infix::Call | Infix::Index => 12,
    }
}

/// The operator that a sign or word is in front of an operand.
#[tactic(auto, unfolding(crate::specs::Operators::prefix_of))]
pub fn prefix_of(kind: Tok) -> Option<Prefix>
    ensures { result ≡ spec.prefix_of kind }
{
    match kind {
        Tok::Sign(1) => Some(Prefix::Unary(Sign::Plus)),
        Tok::Sign(2) => Some(Prefix::Unary(Sign::Minus)),
        Tok::Sign(9) => Some(Prefix::Unary(Sign::Invert)),
        Tok::Keyword(27) => Some(Prefix::Not),
        _ => None,
    }
}

/// The least level of the operand.
pub fn prefix_level(operator: Prefix) -> u8
    ensures value { result ≡ spec.prefix_level operator }
    ensures small { result ≤ 11 }
{
    match operator {
        Prefix::Not => 3,
        Prefix::Unary(_) => 11,
    }
}

#[tactic(auto, unfolding(crate::specs::Operators::augment_sign))]
fn augment_sign(tag: u16) -> Option<Operator>
    ensures { result ≡ spec.augment_sign tag }
{
    match tag {
        19 => Some(Operator::Add),
        20 => Some(Operator::Subtract),
        21 => Some(Operator::Multiply),
        22 => Some(Operator::Divide),
        23 => Some(Operator::Remainder),
        24 => Some(Operator::BitAnd),
        25 => Some(Operator::BitOr),
        26 => Some(Operator::BitXor),
        27 => Some(Operator::ShiftLeft),
        28 => Some(Operator::ShiftRight),
        _ => None,
    }
}

/// The operator of an assignment that operates on its target.
pub fn augment_of(kind: Tok) -> Option<Operator>
    ensures { result ≡ spec.augment_of kind }
{
    match kind {
        Tok::Sign(tag) => augment_sign(tag),
        _ => None,
    }
}

/// The level of a tree: that of its outermost operator.
pub fn level(e: &PyExpr) -> u8
    ensures { result ≡ spec.level e.now }
{
    match e {
        PyExpr::Tuple(_) => 0,
        PyExpr::Not(_) => 3,
        PyExpr::Unary(_, _) => 11,
        PyExpr::Binary(op, _, _) => op_level(*op),
        _ => 12,
    }
}

/// Whether the operator may stand after this tree, where one of the level at least is read.
#[tactic(auto, unfolding(crate::specs::Reading::admits))]
pub fn admits(least: u8, left: &PyExpr, operator: Infix) -> bool
    ensures { result ≡ reading.admits least left.now operator }
{
    least <= binds(operator) && needs(operator) <= level(left)
}

#[tactic(auto, unfolding(crate::specs::Operators::begins_sign))]
fn begins_sign(tag: u16) -> bool
    ensures { result ≡ spec.begins_sign tag }
{
    match tag {
        1 | 2 | 9 | 29 | 31 => true,
        _ => false,
    }
}

#[tactic(auto, unfolding(crate::specs::Operators::begins_word))]
fn begins_word(tag: u16) -> bool
    ensures { result ≡ spec.begins_word tag }
{
    match tag {
        1 | 2 | 3 | 27 => true,
        _ => false,
    }
}

/// Whether an expression may begin with a token of this kind.
pub fn begins(kind: Tok) -> bool
    ensures { result ≡ spec.begins kind }
{
    match kind {
        Tok::Name | Tok::Number | Tok::Str => true,
        Tok::Sign(tag) => begins_sign(tag),
        Tok::Keyword(tag) => begins_word(tag),
        _ => false,
    }
}
