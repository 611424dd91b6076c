// Commands over texts of which no case has the size, or over a shelf that no case has.
use mh_gate::GExpr;
use mh_host::{MemShelf, NeverFails};
use mh_text::{Memory, Text};
use mh_top::run;
use std::alloc::Global;
use std::process::Abort;
use std::test::Fail;

fn put_words(alloc: Global, words: &mut Vec<Text>, given: &[&str]) -> Result<(), Memory> {
    for word in given {
        words.push(Text::new(alloc, word.as_bytes())?)?;
    }
    Ok(())
}

/// These words.
fn words(alloc: Global, given: &[&str]) -> Result<Vec<Text>, Memory> {
    let mut words = Vec::new(alloc);
    put_words(alloc, &mut words, given)?;
    Ok(words)
}

/// The status of `sim a.py` over a shelf that holds this source, and what is complained.
fn comes_to(
    rt: &impl Abort,
    alloc: Global,
    source: &[u8],
    status: u8,
    line: &[u8],
) -> Result<(), Memory> {
    let mut shelf = MemShelf::new(alloc);
    shelf.hold(b"a.py", source)?;
    let words = words(alloc, &["sim", "a.py"])?;
    let code = run(alloc, words.as_slice(), &mut shelf).code;
    assert_eq!(rt; code, status);
    assert_eq!(rt; shelf.complained(), line);
    Ok(())
}

/// A text of a megabyte is no case.
#[test]
fn a_source_has_a_limit(rt: HostRuntime) -> Result<(), Fail> {
    let alloc = rt.alloc();
    let mut long = vec![in alloc; b'x'; 1 << 20]?;
    let unknown = b"error E1 UnknownName line 1\n".as_slice();
    comes_to(&rt, alloc, long.as_slice(), 1, unknown)?;
    long.push(b'x')?;
    let too_long = b"error TooLong a.py\n".as_slice();
    comes_to(&rt, alloc, long.as_slice(), 7, too_long)?;
    Ok(())
}

/// The lines before a body of an `@instance`, in a block.
const BEFORE: &[u8] =
    b"from myhdl import *\n@block\ndef top():\n  s = Signal(bool(0))\n  @instance\n  def g():\n";

/// The lines behind it.
const AFTER: &[u8] = b"  return g\ntop().run_sim(1)\n";

/// `if s:` with so many `elif`s, each of which assigns the same local, and an `else`.
fn put_chain(src: &mut Vec<u8>, count: usize) -> Result<(), Memory> {
    src.extend_from_slice(BEFORE)?;
    src.extend_from_slice(b"   if s: v = 1\n")?;
    for _ in 0..count {
        src.extend_from_slice(b"   elif s: v = 1\n")?;
    }
    src.extend_from_slice(b"   else: v = 2\n   yield delay(1)\n   assert v == 2\n")?;
    src.extend_from_slice(AFTER)?;
    Ok(())
}

/// So many statements.
fn put_statements(src: &mut Vec<u8>, count: usize) -> Result<(), Memory> {
    src.extend_from_slice(BEFORE)?;
    for _ in 0..count {
        src.extend_from_slice(b"   s.next = 1\n")?;
    }
    src.extend_from_slice(AFTER)?;
    Ok(())
}

/// Texts of thousands of lines are no cases.
#[test]
fn long_bodies_are_run(rt: HostRuntime) -> Result<(), Fail> {
    let alloc = rt.alloc();
    let mut chain = Vec::new(alloc);
    put_chain(&mut chain, 20_000)?;
    comes_to(&rt, alloc, chain.as_slice(), 0, b"".as_slice())?;
    let mut statements = Vec::new(alloc);
    put_statements(&mut statements, 20_000)?;
    comes_to(&rt, alloc, statements.as_slice(), 0, b"".as_slice())?;
    Ok(())
}

/// A source that prints.
const PRINTS: &[u8] =
    b"from myhdl import *\n@block\ndef top():\n    @instance\n    def g():\n        print(1)\n        yield delay(1)\n    return g\ntop().run_sim(1)\n";

/// The status of a run over a shelf without faults.
fn status_without_faults(alloc: Global) -> Result<u8, Memory> {
    let words = words(alloc, &["sim", "a.py"])?;
    let mut shelf = NeverFails::new(alloc, PRINTS)?;
    Ok(run(alloc, words.as_slice(), &mut shelf).code)
}

/// The cases run over another shelf.
#[test]
fn a_shelf_without_faults_is_run_over(rt: HostRuntime) -> Result<(), Fail> {
    assert_eq!(rt; status_without_faults(rt.alloc())?, 0);
    Ok(())
}

/// No command values a gate.
#[test]
fn expressions_have_the_values_of_the_source(rt: HostRuntime) {
    // The values of the expression where (a, b) is (0, 0), (0, 1), (1, 0) and (1, 1).
    for (expression, wanted) in [
        (GExpr::Signal(0), [false, false, true, true]),
        (GExpr::Not(0), [true, true, false, false]),
        (GExpr::And(0, 1), [false, false, false, true]),
        (GExpr::Or(0, 1), [false, true, true, true]),
        (GExpr::Xor(0, 1), [false, true, true, false]),
    ] {
        for (row, value) in wanted.iter().enumerate() {
            let signals = [row / 2 == 1, row % 2 == 1];
            assert_eq!(rt;
                expression.value(&signals),
                *value,
                "{expression:?} at {row}"
            );
        }
    }
}
