// Declarations that no source gives, and numbers that no command shows.
use crate::sources::first;
use mh_design::{Design, Encoding, TableDecl, item_code, well_formed};
use mh_num::OutOfBounds;
use mh_signals::{Codes, Limits};
use mh_text::{Memory, Text};
use sqlite_items::Items;
use std::alloc::Global;
use std::test::Fail;

/// A design with a port.
const GATE: &[u8] =
    b"from myhdl import *\n@block\ndef top(a, b):\n    @always_comb\n    def g():\n        a.next = b\n    return g\ntop(Signal(bool(0)), Signal(bool(0))).run_sim()\n";

/// Breaks one rule of declarations, or none in the last case.
fn change(alloc: Global, d: &mut Design, case: u32) -> Result<(), Memory> {
    match case {
        0 => d.name = Text::new(alloc, b"top 1")?,
        1 => d.ports.push(9)?,
        2 => d.listed.push(Text::new(alloc, b"Z:")?)?,
        3 => d.tables.push(TableDecl {
            path: Text::new(alloc, b"t")?,
            values: Items::new(alloc),
        })?,
        _ => d.ports.push(0)?,
    }
    Ok(())
}

/// Whether a design is well formed after this change.
fn fits(alloc: Global, case: u32) -> Result<bool, Fail> {
    let mut d = first(alloc, GATE)?;
    change(alloc, &mut d, case)?;
    Ok(well_formed(&d))
}

/// Elaboration gives none of these designs.
#[test]
fn declarations_are_tested(rt: HostRuntime) -> Result<(), Fail> {
    for case in 0..5 {
        assert_eq!(rt; fits(rt.alloc(), case)?, case == 4, "case {case}");
    }
    Ok(())
}

/// No command shows the code of an item.
#[test]
fn items_have_their_codes(rt: HostRuntime) {
    for (encoding, codes) in [
        (Encoding::Binary, [0, 1, 2]),
        (Encoding::OneHot, [1, 2, 4]),
        (Encoding::OneCold, [6, 5, 3]),
    ] {
        for (place, code) in codes.iter().enumerate() {
            assert_eq!(rt; code_among_three(encoding, place), *code);
        }
    }
}

fn code_among_three(encoding: Encoding, place: usize) -> i128 {
    let place = place.min(2);
    match encoding {
        Encoding::Binary => item_code(Encoding::Binary, 3, place),
        Encoding::OneHot => item_code(Encoding::OneHot, 3, place),
        Encoding::OneCold => item_code(Encoding::OneCold, 3, place),
    }
}

/// No source gives an item's code to a signal of another count of items.
#[test]
fn codes_of_items_are_taken_alone(rt: HostRuntime) {
    let codes = Limits::Items(Codes {
        encoding: Encoding::OneCold,
        count: 3,
    });
    let outside = OutOfBounds {
        value: 7,
        low: 3,
        high: 6,
    };
    assert_eq!(rt; codes.take(6), Ok(6));
    assert_eq!(rt; codes.take(7), Err(outside));
}
