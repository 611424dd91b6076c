//! Values from outside: the tables of IEEE 1364-2005 by hand, and Icarus Verilog 11.0.
ghost use Rattle.std.specs.Prelude.{◌≡◌};

use crate::{BinOp, Bits, UnOp, binary, cat, extend, select, truth, unary, words};
use std::process::Abort;

/// A width, the 1 bits and the x bits.
type Row = (u8, u128, u128);

fn vector(rt: &impl Abort, row: Row) -> Bits {
    let (width, val, unk) = row;
    assert!(rt; 1 <= width && width <= 128, "width {width}");
    let mask = words::mask(width);
    assert!(rt;
        val <= mask && unk <= mask && val & unk == 0,
        "words {val} {unk}"
    );
    Bits { width, val, unk }
}

fn row(v: Bits) -> Row {
    (v.width, v.val, v.unk)
}

/// The row with a digit some times more below its bits.
fn pushed(rt: &impl Abort, row: Row, digit: u8, times: u8) -> Row {
    let (mut width, mut val, mut unk) = row;
    for _ in 0..times {
        assert!(rt; width < 128);
        width += 1;
        val = val << 1 | u128::from(digit == b'1');
        unk = unk << 1 | u128::from(digit == b'x');
    }
    (width, val, unk)
}

/// The vector that a text of digits shows. The digit before `*` is repeated to fill `width`.
fn shown(rt: &impl Abort, width: u8, text: &str) -> Bits {
    assert!(rt; 1 <= text.len() && text.len() <= 128, "{text}");
    let others = text.len() as u8 - 1;
    let mut row = (0, 0, 0);
    let mut last = b'0';
    for digit in text.bytes() {
        if digit == b'*' {
            row = pushed(rt, row, last, width.saturating_sub(others));
        } else {
            row = pushed(rt, row, digit, 1);
            last = digit;
        }
    }
    vector(rt, row)
}

/// The result of an operator, whose operands have the widths that it asks for.
fn applied(rt: &impl Abort, op: BinOp, a: Bits, b: Bits, signed: bool) -> Bits {
    if !matches!(op, BinOp::Shl | BinOp::Shr | BinOp::Sar) {
        assert_eq!(rt; a.width, b.width);
    }
    binary(op, a, b, signed)
}

#[test]
fn binary_operators(rt: HostRuntime) {
    for (op, signed, width, a, b, want) in &BINARY {
        let a = shown(&rt, *width, a);
        let b = shown(&rt, *width, b);
        let want = shown(&rt, *width, want);
        assert_eq!(rt;
            applied(&rt, *op, a, b, *signed),
            want,
            "{op:?} {signed} {a:?} {b:?}"
        );
    }
}

#[test]
fn unary_operators(rt: HostRuntime) {
    for (op, a, want) in [
        (UnOp::Neg, (1, 1, 0), (1, 1, 0)),
        (UnOp::Neg, (8, 0, 0), (8, 0, 0)),
        (UnOp::Neg, (8, 0x80, 0), (8, 0x80, 0)),
        (UnOp::Neg, (8, 5, 0), (8, 0xfb, 0)),
        (UnOp::Neg, (8, 5, 8), (8, 0, 0xff)),
        (UnOp::Neg, (128, 1, 0), (128, u128::MAX, 0)),
        (UnOp::Not, (1, 0, 1), (1, 0, 1)),
        (
            UnOp::Not,
            (8, 0b1100_0011, 0b0011_0000),
            (8, 0b0000_1100, 0b0011_0000),
        ),
        (UnOp::Not, (128, 0, 1), (128, u128::MAX - 1, 1)),
    ] {
        assert_eq!(rt; row(unary(op, vector(&rt, a))), want, "{op:?} {a:?}");
    }
}

#[test]
fn extensions(rt: HostRuntime) {
    for (a, width, signed, want) in [
        ((4, 0b0001, 0b1000), 8, true, (8, 0b0000_0001, 0b1111_1000)),
        ((4, 0b0001, 0b1000), 8, false, (8, 0b0000_0001, 0b0000_1000)),
        ((4, 0b1001, 0b0010), 8, true, (8, 0b1111_1001, 0b0000_0010)),
        ((4, 0b0110, 0b0001), 8, true, (8, 0b0000_0110, 0b0000_0001)),
        ((1, 1, 0), 128, true, (128, u128::MAX, 0)),
        ((128, 5, 2), 128, true, (128, 5, 2)),
    ] {
        let a = vector(&rt, a);
        assert!(rt; a.width <= width && width <= 128);
        assert_eq!(rt;
            row(extend(a, width, signed)),
            want,
            "{a:?} {width} {signed}"
        );
    }
}

#[test]
fn selections(rt: HostRuntime) {
    for (a, hi, lo, want) in [
        (
            (8, 0b1100_0011, 0b0001_1000),
            7,
            0,
            (8, 0b1100_0011, 0b0001_1000),
        ),
        ((8, 0b1100_0011, 0b0001_1000), 6, 3, (4, 0b1000, 0b0011)),
        ((8, 0b1100_0011, 0b0001_1000), 4, 4, (1, 0, 1)),
        ((128, 1 << 127, 1), 127, 127, (1, 1, 0)),
        ((128, 1 << 127, 1), 126, 0, (127, 0, 1)),
    ] {
        let a = vector(&rt, a);
        assert!(rt; lo <= hi && hi < a.width);
        assert_eq!(rt; row(select(a, hi, lo)), want, "{a:?} {hi} {lo}");
    }
}

#[test]
fn concatenations(rt: HostRuntime) {
    for (a, b, want) in [
        ((1, 1, 0), (3, 0b010, 0b100), (4, 0b1010, 0b0100)),
        ((3, 0b010, 0b100), (1, 1, 0), (4, 0b0101, 0b1000)),
        ((1, 0, 1), (127, 1, 0), (128, 1, 1 << 127)),
        ((127, 1, 0), (1, 0, 1), (128, 2, 1)),
    ] {
        let a = vector(&rt, a);
        let b = vector(&rt, b);
        assert!(rt; a.width <= 128 - b.width);
        assert_eq!(rt; row(cat(a, b)), want, "{a:?} {b:?}");
    }
}

#[test]
fn truths(rt: HostRuntime) {
    for (a, want) in [
        ((1, 0, 0), false),
        ((1, 0, 1), false),
        ((8, 0, 0xff), false),
        ((8, 4, 0xf0), true),
        ((128, 1 << 127, 1), true),
    ] {
        assert_eq!(rt; truth(vector(&rt, a)), want, "{a:?}");
    }
}

const BINARY: [(BinOp, bool, u8, &str, &str, &str); 299] = [
    (BinOp::Add, false, 1, "1", "1", "0"),
    // one x bit makes every bit of a sum x
    (BinOp::Add, false, 4, "0101", "0x11", "xxxx"),
    (BinOp::Add, true, 1, "1", "1", "0"),
    (BinOp::Add, false, 1, "1", "x", "x"),
    (BinOp::Add, false, 8, "11111111", "11111111", "11111110"),
    (BinOp::Add, true, 8, "00000101", "11111001", "11111110"),
    (BinOp::Add, false, 8, "10000000", "10000000", "00000000"),
    (BinOp::Add, false, 8, "11111111", "0000000x", "xxxxxxxx"),
    (BinOp::Add, false, 127, "1*", "1*", "1*0"),
    (BinOp::Add, true, 127, "0*101", "1*001", "1*0"),
    (BinOp::Add, false, 128, "1*", "1*", "1*0"),
    (BinOp::Add, true, 128, "0*101", "1*001", "1*0"),
    (BinOp::Add, false, 128, "10*", "10*", "0*"),
    (BinOp::Add, false, 128, "1*", "0*x", "x*"),
    (BinOp::Sub, false, 1, "1", "1", "0"),
    (BinOp::Sub, true, 1, "1", "1", "0"),
    (BinOp::Sub, false, 1, "1", "x", "x"),
    (BinOp::Sub, false, 8, "11111111", "11111111", "00000000"),
    (BinOp::Sub, true, 8, "00000101", "11111001", "00001100"),
    (BinOp::Sub, false, 8, "10000000", "10000000", "00000000"),
    (BinOp::Sub, false, 8, "11111111", "0000000x", "xxxxxxxx"),
    (BinOp::Sub, false, 127, "1*", "1*", "0*"),
    (BinOp::Sub, true, 127, "0*101", "1*001", "0*1100"),
    (BinOp::Sub, false, 128, "1*", "1*", "0*"),
    (BinOp::Sub, true, 128, "0*101", "1*001", "0*1100"),
    (BinOp::Sub, false, 128, "10*", "10*", "0*"),
    (BinOp::Sub, false, 128, "1*", "0*x", "x*"),
    (BinOp::Mul, false, 1, "1", "1", "1"),
    (BinOp::Mul, true, 1, "1", "1", "1"),
    (BinOp::Mul, false, 1, "x", "0", "x"),
    (BinOp::Mul, false, 8, "11111111", "11111111", "00000001"),
    (BinOp::Mul, true, 8, "00000101", "11111001", "11011101"),
    (BinOp::Mul, false, 8, "10000000", "00000011", "10000000"),
    (BinOp::Mul, false, 8, "0000000x", "00000000", "xxxxxxxx"),
    (BinOp::Mul, false, 127, "1*", "1*", "0*1"),
    (BinOp::Mul, true, 127, "0*101", "1*001", "1*011101"),
    (BinOp::Mul, false, 128, "1*", "1*", "0*1"),
    (BinOp::Mul, true, 128, "0*101", "1*001", "1*011101"),
    (BinOp::Mul, false, 128, "10*", "0*11", "10*"),
    (BinOp::Mul, false, 128, "0*x", "0*", "x*"),
    (BinOp::Div, true, 1, "1", "0", "x"),
    (BinOp::Div, false, 1, "1", "1", "1"),
    (BinOp::Div, true, 1, "1", "1", "1"),
    (BinOp::Div, false, 1, "x", "1", "x"),
    (BinOp::Div, true, 8, "11111001", "00000010", "11111101"),
    (BinOp::Div, true, 8, "00000111", "11111110", "11111101"),
    (BinOp::Div, true, 8, "11111001", "11111110", "00000011"),
    (BinOp::Div, false, 8, "11111001", "10000000", "00000001"),
    (BinOp::Div, true, 8, "10000000", "11111111", "10000000"),
    (BinOp::Div, true, 8, "00000101", "00000000", "xxxxxxxx"),
    (BinOp::Div, false, 8, "x1111111", "00000001", "xxxxxxxx"),
    (BinOp::Div, true, 127, "1*001", "0*10", "1*01"),
    (BinOp::Div, true, 127, "0*111", "1*0", "1*01"),
    (BinOp::Div, true, 128, "1*001", "0*10", "1*01"),
    (BinOp::Div, true, 128, "0*111", "1*0", "1*01"),
    (BinOp::Div, true, 128, "1*001", "1*0", "0*11"),
    (BinOp::Div, false, 128, "1*001", "10*", "0*1"),
    (BinOp::Div, true, 128, "10*", "1*", "10*"),
    (BinOp::Div, true, 128, "0*101", "0*", "x*"),
    (BinOp::Div, false, 128, "x1*", "0*1", "x*"),
    (BinOp::Rem, true, 1, "1", "0", "x"),
    (BinOp::Rem, false, 1, "1", "1", "0"),
    (BinOp::Rem, true, 1, "1", "1", "0"),
    (BinOp::Rem, false, 1, "x", "1", "x"),
    (BinOp::Rem, true, 8, "11111001", "00000010", "11111111"),
    (BinOp::Rem, true, 8, "00000111", "11111110", "00000001"),
    (BinOp::Rem, true, 8, "11111001", "11111110", "11111111"),
    (BinOp::Rem, false, 8, "11111001", "10000000", "01111001"),
    (BinOp::Rem, true, 8, "10000000", "11111111", "00000000"),
    (BinOp::Rem, true, 8, "00000101", "00000000", "xxxxxxxx"),
    (BinOp::Rem, false, 8, "x1111111", "00000001", "xxxxxxxx"),
    (BinOp::Rem, true, 127, "1*001", "0*10", "1*"),
    (BinOp::Rem, true, 127, "0*111", "1*0", "0*1"),
    (BinOp::Rem, true, 128, "1*001", "0*10", "1*"),
    (BinOp::Rem, true, 128, "0*111", "1*0", "0*1"),
    (BinOp::Rem, true, 128, "1*001", "1*0", "1*"),
    (BinOp::Rem, false, 128, "1*001", "10*", "01*001"),
    (BinOp::Rem, true, 128, "10*", "1*", "0*"),
    (BinOp::Rem, true, 128, "0*101", "0*", "x*"),
    (BinOp::Rem, false, 128, "x1*", "0*1", "x*"),
    (BinOp::And, false, 1, "0", "0", "0"),
    (BinOp::And, false, 1, "0", "1", "0"),
    (BinOp::And, false, 1, "0", "x", "0"),
    (BinOp::And, false, 1, "1", "0", "0"),
    (BinOp::And, false, 1, "1", "1", "1"),
    (BinOp::And, false, 1, "1", "x", "x"),
    (BinOp::And, false, 1, "x", "0", "0"),
    (BinOp::And, false, 1, "x", "1", "x"),
    (BinOp::And, false, 1, "x", "x", "x"),
    (BinOp::And, false, 8, "00111xxx", "1x01x01x", "0001x0xx"),
    (
        BinOp::And,
        false,
        128,
        "000111xxx0*111xxx",
        "01x01x01x1*01x01x01x",
        "00001x0xx0*1x0xx",
    ),
    (BinOp::Or, false, 1, "0", "0", "0"),
    (BinOp::Or, false, 1, "0", "1", "1"),
    (BinOp::Or, false, 1, "0", "x", "x"),
    (BinOp::Or, false, 1, "1", "0", "1"),
    (BinOp::Or, false, 1, "1", "1", "1"),
    (BinOp::Or, false, 1, "1", "x", "1"),
    (BinOp::Or, false, 1, "x", "0", "x"),
    (BinOp::Or, false, 1, "x", "1", "1"),
    (BinOp::Or, false, 1, "x", "x", "x"),
    (BinOp::Or, false, 8, "00111xxx", "1x01x01x", "1x111x1x"),
    (
        BinOp::Or,
        false,
        128,
        "000111xxx0*111xxx",
        "01x01x01x1*01x01x01x",
        "01x111x1x1*01x111x1x",
    ),
    (BinOp::Xor, false, 1, "0", "0", "0"),
    (BinOp::Xor, false, 1, "0", "1", "1"),
    (BinOp::Xor, false, 1, "0", "x", "x"),
    (BinOp::Xor, false, 1, "1", "0", "1"),
    (BinOp::Xor, false, 1, "1", "1", "0"),
    (BinOp::Xor, false, 1, "1", "x", "x"),
    (BinOp::Xor, false, 1, "x", "0", "x"),
    (BinOp::Xor, false, 1, "x", "1", "x"),
    (BinOp::Xor, false, 1, "x", "x", "x"),
    (BinOp::Xor, false, 8, "00111xxx", "1x01x01x", "1x10xxxx"),
    (
        BinOp::Xor,
        false,
        128,
        "000111xxx0*111xxx",
        "01x01x01x1*01x01x01x",
        "01x10xxxx1*01x10xxxx",
    ),
    (BinOp::Shl, true, 1, "1", "00000000", "1"),
    (BinOp::Shl, true, 1, "1", "00000001", "0"),
    (BinOp::Shl, true, 1, "1", "11111111", "0"),
    (BinOp::Shl, false, 1, "1", "00000001", "0"),
    (BinOp::Shl, true, 1, "1", "0000000x", "x"),
    (BinOp::Shl, true, 1, "x", "00000010", "0"),
    (BinOp::Shl, true, 1, "1", "1", "0"),
    (BinOp::Shl, true, 8, "1x0010x1", "00000000", "1x0010x1"),
    (BinOp::Shl, true, 8, "1x0010x1", "00000001", "x0010x10"),
    (BinOp::Shl, true, 8, "1x0010x1", "00000111", "10000000"),
    (BinOp::Shl, true, 8, "1x0010x1", "00001000", "00000000"),
    (BinOp::Shl, true, 8, "1x0010x1", "11111111", "00000000"),
    (BinOp::Shl, false, 8, "1x0010x1", "00000001", "x0010x10"),
    (BinOp::Shl, true, 8, "1x0010x1", "0000000x", "xxxxxxxx"),
    (BinOp::Shl, true, 8, "xx0010x1", "00000010", "0010x100"),
    (
        BinOp::Shl,
        true,
        127,
        "1x0010*1x001",
        "00000000",
        "1x0010*1x001",
    ),
    (
        BinOp::Shl,
        true,
        127,
        "1x0010*1x001",
        "00000001",
        "x0010*1x0010",
    ),
    (BinOp::Shl, true, 127, "1x0010*1x001", "01111110", "10*"),
    (BinOp::Shl, true, 127, "1x0010*1x001", "01111111", "0*"),
    (
        BinOp::Shl,
        true,
        128,
        "1x0010*1x001",
        "00000000",
        "1x0010*1x001",
    ),
    (
        BinOp::Shl,
        true,
        128,
        "1x0010*1x001",
        "00000001",
        "x0010*1x0010",
    ),
    (BinOp::Shl, true, 128, "1x0010*1x001", "01111111", "10*"),
    (BinOp::Shl, true, 128, "1x0010*1x001", "10000000", "0*"),
    (BinOp::Shl, true, 128, "1x0010*1x001", "11111111", "0*"),
    (
        BinOp::Shl,
        false,
        128,
        "1x0010*1x001",
        "00000001",
        "x0010*1x0010",
    ),
    (BinOp::Shl, true, 128, "1x0010*1x001", "0000000x", "x*"),
    (
        BinOp::Shl,
        true,
        128,
        "xx0010*1x001",
        "00000010",
        "0010*1x00100",
    ),
    (BinOp::Shl, true, 128, "1x0010*1x001", "1*", "0*"),
    (BinOp::Shr, true, 1, "1", "00000000", "1"),
    (BinOp::Shr, true, 1, "1", "00000001", "0"),
    (BinOp::Shr, true, 1, "1", "11111111", "0"),
    (BinOp::Shr, false, 1, "1", "00000001", "0"),
    (BinOp::Shr, true, 1, "1", "0000000x", "x"),
    (BinOp::Shr, true, 1, "x", "00000010", "0"),
    (BinOp::Shr, true, 1, "1", "1", "0"),
    (BinOp::Shr, true, 8, "1x0010x1", "00000000", "1x0010x1"),
    (BinOp::Shr, true, 8, "1x0010x1", "00000001", "01x0010x"),
    (BinOp::Shr, true, 8, "1x0010x1", "00000111", "00000001"),
    (BinOp::Shr, true, 8, "1x0010x1", "00001000", "00000000"),
    (BinOp::Shr, true, 8, "1x0010x1", "11111111", "00000000"),
    (BinOp::Shr, false, 8, "1x0010x1", "00000001", "01x0010x"),
    (BinOp::Shr, true, 8, "1x0010x1", "0000000x", "xxxxxxxx"),
    (BinOp::Shr, true, 8, "xx0010x1", "00000010", "00xx0010"),
    (
        BinOp::Shr,
        true,
        127,
        "1x0010*1x001",
        "00000000",
        "1x0010*1x001",
    ),
    (
        BinOp::Shr,
        true,
        127,
        "1x0010*1x001",
        "00000001",
        "01x0010*1x00",
    ),
    (BinOp::Shr, true, 127, "1x0010*1x001", "01111110", "0*1"),
    (BinOp::Shr, true, 127, "1x0010*1x001", "01111111", "0*"),
    (
        BinOp::Shr,
        true,
        128,
        "1x0010*1x001",
        "00000000",
        "1x0010*1x001",
    ),
    (
        BinOp::Shr,
        true,
        128,
        "1x0010*1x001",
        "00000001",
        "01x0010*1x00",
    ),
    (BinOp::Shr, true, 128, "1x0010*1x001", "01111111", "0*1"),
    (BinOp::Shr, true, 128, "1x0010*1x001", "10000000", "0*"),
    (BinOp::Shr, true, 128, "1x0010*1x001", "11111111", "0*"),
    (
        BinOp::Shr,
        false,
        128,
        "1x0010*1x001",
        "00000001",
        "01x0010*1x00",
    ),
    (BinOp::Shr, true, 128, "1x0010*1x001", "0000000x", "x*"),
    (
        BinOp::Shr,
        true,
        128,
        "xx0010*1x001",
        "00000010",
        "00xx0010*1x0",
    ),
    (BinOp::Shr, true, 128, "1x0010*1x001", "1*", "0*"),
    (BinOp::Sar, true, 1, "1", "00000000", "1"),
    (BinOp::Sar, true, 1, "1", "00000001", "1"),
    (BinOp::Sar, true, 1, "1", "11111111", "1"),
    (BinOp::Sar, false, 1, "1", "00000001", "0"),
    (BinOp::Sar, true, 1, "1", "0000000x", "x"),
    (BinOp::Sar, true, 1, "x", "00000010", "x"),
    (BinOp::Sar, true, 1, "1", "1", "1"),
    (BinOp::Sar, true, 8, "1x0010x1", "00000000", "1x0010x1"),
    (BinOp::Sar, true, 8, "1x0010x1", "00000001", "11x0010x"),
    (BinOp::Sar, true, 8, "1x0010x1", "00000111", "11111111"),
    (BinOp::Sar, true, 8, "1x0010x1", "00001000", "11111111"),
    (BinOp::Sar, true, 8, "1x0010x1", "11111111", "11111111"),
    (BinOp::Sar, false, 8, "1x0010x1", "00000001", "01x0010x"),
    (BinOp::Sar, true, 8, "1x0010x1", "0000000x", "xxxxxxxx"),
    (BinOp::Sar, true, 8, "xx0010x1", "00000010", "xxxx0010"),
    (
        BinOp::Sar,
        true,
        127,
        "1x0010*1x001",
        "00000000",
        "1x0010*1x001",
    ),
    (
        BinOp::Sar,
        true,
        127,
        "1x0010*1x001",
        "00000001",
        "11x0010*1x00",
    ),
    (BinOp::Sar, true, 127, "1x0010*1x001", "01111110", "1*"),
    (BinOp::Sar, true, 127, "1x0010*1x001", "01111111", "1*"),
    (
        BinOp::Sar,
        true,
        128,
        "1x0010*1x001",
        "00000000",
        "1x0010*1x001",
    ),
    (
        BinOp::Sar,
        true,
        128,
        "1x0010*1x001",
        "00000001",
        "11x0010*1x00",
    ),
    (BinOp::Sar, true, 128, "1x0010*1x001", "01111111", "1*"),
    (BinOp::Sar, true, 128, "1x0010*1x001", "10000000", "1*"),
    (BinOp::Sar, true, 128, "1x0010*1x001", "11111111", "1*"),
    (
        BinOp::Sar,
        false,
        128,
        "1x0010*1x001",
        "00000001",
        "01x0010*1x00",
    ),
    (BinOp::Sar, true, 128, "1x0010*1x001", "0000000x", "x*"),
    (
        BinOp::Sar,
        true,
        128,
        "xx0010*1x001",
        "00000010",
        "xxxx0010*1x0",
    ),
    (BinOp::Sar, true, 128, "1x0010*1x001", "1*", "1*"),
    (BinOp::Eq, false, 1, "1", "1", "1"),
    (BinOp::Eq, true, 1, "1", "0", "0"),
    (BinOp::Eq, false, 1, "x", "1", "x"),
    (BinOp::Eq, false, 1, "x", "0", "x"),
    (BinOp::Eq, false, 1, "x", "x", "x"),
    (BinOp::Eq, false, 8, "00000101", "00000101", "1"),
    (BinOp::Eq, true, 8, "00000101", "00000100", "0"),
    (BinOp::Eq, false, 8, "x1111111", "11111111", "x"),
    (BinOp::Eq, false, 8, "x1111111", "00000000", "0"),
    (BinOp::Eq, false, 8, "xxxxxxxx", "xxxxxxxx", "x"),
    (BinOp::Eq, false, 127, "0*101", "0*101", "1"),
    (BinOp::Eq, true, 127, "0*101", "0*100", "0"),
    (BinOp::Eq, false, 128, "0*101", "0*101", "1"),
    (BinOp::Eq, true, 128, "0*101", "0*100", "0"),
    (BinOp::Eq, false, 128, "x1*", "1*", "x"),
    (BinOp::Eq, false, 128, "x1*", "0*", "0"),
    (BinOp::Eq, false, 128, "x*", "x*", "x"),
    (BinOp::Ne, false, 1, "1", "1", "0"),
    (BinOp::Ne, true, 1, "1", "0", "1"),
    (BinOp::Ne, false, 1, "x", "1", "x"),
    (BinOp::Ne, false, 1, "x", "0", "x"),
    (BinOp::Ne, false, 1, "x", "x", "x"),
    (BinOp::Ne, false, 8, "00000101", "00000101", "0"),
    (BinOp::Ne, true, 8, "00000101", "00000100", "1"),
    (BinOp::Ne, false, 8, "x1111111", "11111111", "x"),
    (BinOp::Ne, false, 8, "x1111111", "00000000", "1"),
    (BinOp::Ne, false, 8, "xxxxxxxx", "xxxxxxxx", "x"),
    (BinOp::Ne, false, 127, "0*101", "0*101", "0"),
    (BinOp::Ne, true, 127, "0*101", "0*100", "1"),
    (BinOp::Ne, false, 128, "0*101", "0*101", "0"),
    (BinOp::Ne, true, 128, "0*101", "0*100", "1"),
    (BinOp::Ne, false, 128, "x1*", "1*", "x"),
    (BinOp::Ne, false, 128, "x1*", "0*", "1"),
    (BinOp::Ne, false, 128, "x*", "x*", "x"),
    (BinOp::Lt, true, 1, "1", "0", "1"),
    (BinOp::Lt, false, 1, "1", "0", "0"),
    (BinOp::Lt, true, 1, "1", "1", "0"),
    (BinOp::Lt, true, 1, "0", "1", "0"),
    (BinOp::Lt, false, 1, "x", "1", "x"),
    (BinOp::Lt, true, 8, "11111111", "00000000", "1"),
    (BinOp::Lt, false, 8, "11111111", "00000000", "0"),
    (BinOp::Lt, true, 8, "10000000", "10000000", "0"),
    (BinOp::Lt, true, 8, "00000000", "10000000", "0"),
    (BinOp::Lt, false, 8, "0000000x", "11111111", "x"),
    (BinOp::Lt, true, 127, "1*", "0*", "1"),
    (BinOp::Lt, false, 127, "1*", "0*", "0"),
    (BinOp::Lt, true, 128, "1*", "0*", "1"),
    (BinOp::Lt, false, 128, "1*", "0*", "0"),
    (BinOp::Lt, true, 128, "10*", "10*", "0"),
    (BinOp::Lt, true, 128, "0*", "10*", "0"),
    (BinOp::Lt, false, 128, "0*x", "1*", "x"),
    (BinOp::Le, true, 1, "1", "0", "1"),
    (BinOp::Le, false, 1, "1", "0", "0"),
    (BinOp::Le, true, 1, "1", "1", "1"),
    (BinOp::Le, true, 1, "0", "1", "0"),
    (BinOp::Le, false, 1, "x", "1", "x"),
    (BinOp::Le, true, 8, "11111111", "00000000", "1"),
    (BinOp::Le, false, 8, "11111111", "00000000", "0"),
    (BinOp::Le, true, 8, "10000000", "10000000", "1"),
    (BinOp::Le, true, 8, "00000000", "10000000", "0"),
    (BinOp::Le, false, 8, "0000000x", "11111111", "x"),
    (BinOp::Le, true, 127, "1*", "0*", "1"),
    (BinOp::Le, false, 127, "1*", "0*", "0"),
    (BinOp::Le, true, 128, "1*", "0*", "1"),
    (BinOp::Le, false, 128, "1*", "0*", "0"),
    (BinOp::Le, true, 128, "10*", "10*", "1"),
    (BinOp::Le, true, 128, "0*", "10*", "0"),
    (BinOp::Le, false, 128, "0*x", "1*", "x"),
    (BinOp::Gt, true, 1, "1", "0", "0"),
    (BinOp::Gt, false, 1, "1", "0", "1"),
    (BinOp::Gt, true, 1, "1", "1", "0"),
    (BinOp::Gt, true, 1, "0", "1", "1"),
    (BinOp::Gt, false, 1, "x", "1", "x"),
    (BinOp::Gt, true, 8, "11111111", "00000000", "0"),
    (BinOp::Gt, false, 8, "11111111", "00000000", "1"),
    (BinOp::Gt, true, 8, "10000000", "10000000", "0"),
    (BinOp::Gt, true, 8, "00000000", "10000000", "1"),
    (BinOp::Gt, false, 8, "0000000x", "11111111", "x"),
    (BinOp::Gt, true, 127, "1*", "0*", "0"),
    (BinOp::Gt, false, 127, "1*", "0*", "1"),
    (BinOp::Gt, true, 128, "1*", "0*", "0"),
    (BinOp::Gt, false, 128, "1*", "0*", "1"),
    (BinOp::Gt, true, 128, "10*", "10*", "0"),
    (BinOp::Gt, true, 128, "0*", "10*", "1"),
    (BinOp::Gt, false, 128, "0*x", "1*", "x"),
    (BinOp::Ge, true, 1, "1", "0", "0"),
    (BinOp::Ge, false, 1, "1", "0", "1"),
    (BinOp::Ge, true, 1, "1", "1", "1"),
    (BinOp::Ge, true, 1, "0", "1", "1"),
    (BinOp::Ge, false, 1, "x", "1", "x"),
    (BinOp::Ge, true, 8, "11111111", "00000000", "0"),
    (BinOp::Ge, false, 8, "11111111", "00000000", "1"),
    (BinOp::Ge, true, 8, "10000000", "10000000", "1"),
    (BinOp::Ge, true, 8, "00000000", "10000000", "1"),
    (BinOp::Ge, false, 8, "0000000x", "11111111", "x"),
    (BinOp::Ge, true, 127, "1*", "0*", "0"),
    (BinOp::Ge, false, 127, "1*", "0*", "1"),
    (BinOp::Ge, true, 128, "1*", "0*", "0"),
    (BinOp::Ge, false, 128, "1*", "0*", "1"),
    (BinOp::Ge, true, 128, "10*", "10*", "1"),
    (BinOp::Ge, true, 128, "0*", "10*", "1"),
    (BinOp::Ge, false, 128, "0*x", "1*", "x"),
];
