//! Vectors of 1 to 128 bits that are 0, 1 or x, and the operators of IEEE 1364-2005 on them.
//! Each call's result is exactly the vector that the definitions in `specs/` give: by the
//! standard's table of one bit, by number, or by moving bits. No call takes memory.
#![tactic(auto)]

ghost use Rattle.std.specs.Prelude.{◌≡◌};
ghost use Rattle.mh_bits.specs.Operators.{binary_of, unary_of, WidthsFit};
ghost use Rattle.mh_bits.specs.View.{vector_of};

mod digits;
mod laws;
mod moves;
mod numbers;
mod tables;
mod values;
mod vectors;
mod words;

pub use digits::{appended, bit};
pub use laws::{
    absorption_laws, arithmetic_laws, bit_laws, known_laws, number_laws, part_laws, truth_laws,
    width_laws,
};
pub use moves::{cat, extend, select};
pub use tables::truth;
pub use values::{BinOp, Bits, UnOp};
use vectors::where_known;
pub use vectors::{all_unknown, known, single};

/// The value of `a op b` for operands of one width, a shift's amount `b` excepted: it has a width
/// of its own, and is never read as signed. A comparison has one bit, and every other result has
/// the width of `a`. `signed` says how `Div`, `Rem`, `Sar` and the orderings read their operands.
pub fn binary(op: BinOp, a: Bits, b: Bits, signed: bool) -> Bits
    requires { WidthsFit op a.width b.width }
    ensures { vector_of result ≡ binary_of op (vector_of a) (vector_of b) signed }
{
    let all_known = a.unk == 0 && b.unk == 0;
    match op {
        BinOp::Add => where_known(all_known, numbers::sum(a, b)),
        BinOp::Sub => where_known(all_known, numbers::difference(a, b)),
        BinOp::Mul => where_known(all_known, numbers::product(a, b)),
        BinOp::Div => where_known(all_known, numbers::quotient(a, b, signed)),
        BinOp::Rem => where_known(all_known, numbers::remainder(a, b, signed)),
        BinOp::And => tables::and(a, b),
        BinOp::Or => tables::or(a, b),
        BinOp::Xor => tables::xor(a, b),
        BinOp::Shl => where_known(b.unk == 0, moves::shift_left(a, b.val)),
        BinOp::Shr => where_known(b.unk == 0, moves::shift_right(a, b.val, false)),
        BinOp::Sar => where_known(b.unk == 0, moves::shift_right(a, b.val, signed)),
        BinOp::Eq => single(tables::equality(a, b)),
        BinOp::Ne => tables::not(single(tables::equality(a, b))),
        BinOp::Lt => where_known(all_known, single(Some(numbers::is_less(a, b, signed)))),
        BinOp::Le => where_known(all_known, single(Some(!numbers::is_less(b, a, signed)))),
        BinOp::Gt => where_known(all_known, single(Some(numbers::is_less(b, a, signed)))),
        BinOp::Ge => where_known(all_known, single(Some(!numbers::is_less(a, b, signed)))),
    }
}

/// The value of `op a`, of the width of `a`.
pub fn unary(op: UnOp, a: Bits) -> Bits
    ensures { vector_of result ≡ unary_of op (vector_of a) }
{
    match op {
        UnOp::Neg => where_known(a.unk == 0, numbers::negation(a)),
        UnOp::Not => tables::not(a),
    }
}

#[cfg(test)]
mod tests;
