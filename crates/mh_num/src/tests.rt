// Answers as Python 3 and MyHDL 0.11 give them.
use super::*;
use std::test::Fail;

const LEAST: i128 = i128::MIN;

const GREATEST: i128 = i128::MAX;

const TWO_TO_126: i128 = 1 << 126;

#[test]
fn arithmetic_leaves_i128_exactly_at_its_ends(rt: HostRuntime) {
    let rows = [
        ("add(-3, 5)", add(-3, 5), Some(2)),
        ("add(MAX, 1)", add(GREATEST, 1), None),
        ("add(MAX, MIN)", add(GREATEST, LEAST), Some(-1)),
        ("add(MIN, -1)", add(LEAST, -1), None),
        ("sub(3, -5)", sub(3, -5), Some(8)),
        ("sub(MIN, 1)", sub(LEAST, 1), None),
        ("sub(0, MIN)", sub(0, LEAST), None),
        ("sub(-1, MIN)", sub(-1, LEAST), Some(GREATEST)),
        ("mul(-3, -5)", mul(-3, -5), Some(15)),
        ("mul(MIN, -1)", mul(LEAST, -1), None),
        ("mul(MIN, 1)", mul(LEAST, 1), Some(LEAST)),
        ("mul(2 ** 126, -2)", mul(TWO_TO_126, -2), Some(LEAST)),
        ("mul(2 ** 126, 2)", mul(TWO_TO_126, 2), None),
        ("shl(1, 127)", shl(1, 127), None),
        ("shl(0, 127)", shl(0, 127), Some(0)),
        ("shl(0, 128)", shl(0, 128), None),
        ("shl(0, -1)", shl(0, -1), None),
        ("shl(-1, 127)", shl(-1, 127), Some(LEAST)),
        ("shl(-2, 127)", shl(-2, 127), None),
        ("shl(1, 126)", shl(1, 126), Some(TWO_TO_126)),
        ("shl(-5, 3)", shl(-5, 3), Some(-40)),
        ("shr(-1, 127)", shr(-1, 127), Some(-1)),
        ("shr(MAX, 126)", shr(GREATEST, 126), Some(1)),
        ("shr(-7, 1)", shr(-7, 1), Some(-4)),
        ("shr(7, 1)", shr(7, 1), Some(3)),
        ("shr(7, 128)", shr(7, 128), None),
        ("shr(7, -1)", shr(7, -1), None),
        ("shr(7, 2 ** 126)", shr(7, TWO_TO_126), None),
        ("quot(-7, 2)", quot(-7, 2), Some(-4)),
        ("quot(7, 2)", quot(7, 2), Some(3)),
        ("quot(1, 0)", quot(1, 0), None),
        ("quot(7, -2)", quot(7, -2), None),
        ("quot(MIN, 1)", quot(LEAST, 1), Some(LEAST)),
        ("quot(MIN, MAX)", quot(LEAST, GREATEST), Some(-2)),
        ("rem(-7, 2)", rem(-7, 2), Some(1)),
        ("rem(-8, 2)", rem(-8, 2), Some(0)),
        ("rem(1, 0)", rem(1, 0), None),
        ("rem(7, -2)", rem(7, -2), None),
        ("rem(MIN, MAX)", rem(LEAST, GREATEST), Some(GREATEST - 1)),
    ];
    for (call, got, want) in rows {
        assert_eq!(rt; got, want, "{call}");
    }
}

#[test]
fn bits_are_those_of_two_s_complement(rt: HostRuntime) {
    let rows = [
        ("and(-1, 6)", and(-1, 6), 6),
        ("and(-4, -6)", and(-4, -6), -8),
        ("and(MIN, MAX)", and(LEAST, GREATEST), 0),
        ("or(-8, 3)", or(-8, 3), -5),
        ("or(12, 10)", or(12, 10), 14),
        ("xor(-1, 6)", xor(-1, 6), -7),
        ("xor(-4, -6)", xor(-4, -6), 6),
        ("not(5, 4)", not(5, 4), 10),
        ("not(0, 127)", not(0, 127), GREATEST),
        ("slice(54, 5, 1)", slice(54, 5, 1), 11),
        ("slice(-8, 4, 2)", slice(-8, 4, 2), 2),
        ("slice(-1, 127, 0)", slice(-1, 127, 0), GREATEST),
        ("slice(MIN, 127, 126)", slice(LEAST, 127, 126), 0),
        ("signed_of(11, 4)", signed_of(11, 4), -5),
        ("signed_of(7, 4)", signed_of(7, 4), 7),
        ("signed_of(-9, 4)", signed_of(-9, 4), 7),
        ("signed_of(1, 1)", signed_of(1, 1), -1),
        ("signed_of(MAX, 127)", signed_of(GREATEST, 127), -1),
        (
            "signed_of(2 ** 126, 127)",
            signed_of(TWO_TO_126, 127),
            -TWO_TO_126,
        ),
    ];
    for (call, got, want) in rows {
        assert_eq!(rt; got, want, "{call}");
    }
    let bits = [
        (5, 1, false),
        (5, 2, true),
        (-2, 0, false),
        (-2, 126, true),
        (LEAST, 126, false),
    ];
    for (number, place, want) in bits {
        assert_eq!(rt; bit(number, place), want, "bit {place} of {number}");
    }
}

#[test]
fn widths_change_at_powers_of_two(rt: HostRuntime) {
    let rows = [
        (0, 0, Some(1)),
        (0, 1, Some(1)),
        (0, 2, Some(2)),
        (0, 7, Some(3)),
        (0, 8, Some(4)),
        (0, GREATEST, Some(127)),
        (5, 5, Some(3)),
        (-1, -1, Some(1)),
        (-1, 0, Some(1)),
        (-1, 1, Some(2)),
        (-4, 3, Some(3)),
        (-5, 3, Some(4)),
        (-4, 4, Some(4)),
        (-8, 262, Some(10)),
        (-TWO_TO_126, TWO_TO_126 - 1, Some(127)),
        (-TWO_TO_126 - 1, 0, None),
        (-1, TWO_TO_126, None),
        (LEAST, GREATEST, None),
        (1, 0, None),
    ];
    for (lo, top, want) in rows {
        let got = Bounds::new(lo, top, false).map(|b| width(&b));
        assert_eq!(rt; got, want, "width of {lo} .. {top}");
    }
}

#[test]
fn numbers_outside_wrap_or_are_errors(rt: HostRuntime) -> Result<(), Fail> {
    let rows = [
        (0, 7, 7, 7),
        (0, 7, 8, 0),
        (0, 7, 9, 1),
        (0, 7, -1, 7),
        (-4, 3, 4, -4),
        (-4, 3, -5, 3),
        (3, 7, 10, 5),
        (3, 7, 2, 7),
        (0, GREATEST, LEAST, 0),
        (-TWO_TO_126, TWO_TO_126 - 1, GREATEST, -1),
        (-1, -1, LEAST, -1),
        (GREATEST, GREATEST, LEAST, GREATEST),
    ];
    for (low, high, value, want) in rows {
        let wrapping = Bounds::new(low, high, true).ok_or("a range")?;
        assert_eq!(rt;
            fit(value, &wrapping),
            Ok(want),
            "{value} in {low} .. {high}"
        );
        let strict = Bounds::new(low, high, false).ok_or("a range")?;
        let inside = if value == want {
            Ok(want)
        } else {
            Err(OutOfBounds { value, low, high })
        };
        assert_eq!(rt; fit(value, &strict), inside, "{value} in {low} .. {high}");
    }
    Ok(())
}

#[test]
fn an_error_names_the_value_and_the_bounds(rt: HostRuntime) -> Result<(), Fail> {
    let strict = Bounds {
        lo: 0,
        top: 7,
        wraps: false,
    };
    let error = fit(9, &strict).err().ok_or("9 is outside")?;
    assert_eq!(rt;
        format!(in rt.alloc(); "{error}")?.as_str(),
        "9 is outside 0 to 7"
    );
    Ok(())
}
