// How deep and how long a source may be: sizes of texts that no case holds.
use crate::sources::{Want, made, read, seen};
use mh_text::{Code, Refusal};
use std::alloc::{AllocError, Global};
use std::test::Fail;

/// The number of statements, or the line that is refused, as its negative.
fn answer(alloc: Global, src: &[u8]) -> i64 {
    match read(alloc, src) {
        Ok(module) => i64::try_from(module.stmts.len()).unwrap_or(1_000_000),
        Err(
            Refusal::At {
                code: Code::S1Syntax,
                line,
                names: _,
            },
        ) => -i64::from(line),
        Err(_) => 2_000_000,
    }
}

/// `open` a number of times, `middle`, `close` as many times.
fn nested(
    alloc: Global,
    open: &[u8],
    middle: &[u8],
    close: &[u8],
    count: usize,
) -> Result<Vec<u8>, AllocError> {
    let mut src = Vec::new(alloc);
    for _ in 0..count {
        src.extend_from_slice(open)?;
    }
    src.extend_from_slice(middle)?;
    for _ in 0..count {
        src.extend_from_slice(close)?;
    }
    Ok(src)
}

#[test]
fn bounds_the_depth(rt: HostRuntime) -> Result<(), Fail> {
    let alloc = rt.alloc();
    // A statement, 198 levels and a name are 200 deep; each kind of nesting, with how often it may stand.
    let cases: [(&[u8], &[u8], &[u8], usize); 14] = [
        (b"(", b"a", b")", 198),
        (b"[", b"a", b"]", 198),
        (b"(", b"a", b",)", 198),
        (b"not ", b"a", b"", 198),
        (b"-", b"a", b"", 198),
        (b"", b"a", b" + a", 198),
        (b"", b"a", b".a", 198),
        (b"", b"a", b"()", 198),
        (b"", b"a", b"[0]", 198),
        (b"", b"a", b"[:]", 198),
        (b"f(", b"a", b")", 198),
        (b"f(x=", b"a", b")", 198),
        (b"a[", b"a", b":]", 198),
        (b"[", b"a", b" for i in a]", 198),
    ];
    for (open, middle, close, most) in cases {
        for (count, want) in [(most, 1), (most + 1, -1)] {
            let mut src = nested(alloc, open, middle, close, count)?;
            src.push(b'\n')?;
            assert_eq!(rt; answer(alloc, src.as_slice()), want);
        }
    }
    Ok(())
}

/// Adds blanks to a source.
fn put_blanks(out: &mut Vec<u8>, count: usize) -> Result<(), AllocError> {
    for _ in 0..count {
        out.push(b' ')?;
    }
    Ok(())
}

/// `if a:` on `count` lines, each set in further, and `pass`.
fn blocks(alloc: Global, count: usize) -> Result<Vec<u8>, AllocError> {
    let mut src = Vec::new(alloc);
    for n in 0..count {
        put_blanks(&mut src, n)?;
        src.extend_from_slice(b"if a:\n")?;
    }
    put_blanks(&mut src, count)?;
    src.extend_from_slice(b"pass\n")?;
    Ok(src)
}

#[test]
fn goes_on_for_long(rt: HostRuntime) -> Result<(), Fail> {
    let alloc = rt.alloc();
    let src = blocks(alloc, 199)?;
    assert_eq!(rt; answer(alloc, src.as_slice()), 1);
    let src = blocks(alloc, 200)?;
    assert_eq!(rt; answer(alloc, src.as_slice()), -200);
    // A long row is refused at the sign that makes it too deep.
    let src = nested(alloc, b"", b"(a", b"\n+ a", 10_000)?;
    assert_eq!(rt; answer(alloc, src.as_slice()), -199);
    // Many branches are one level.
    let mut src = nested(alloc, b"", b"if a: pass\n", b"elif a: pass\n", 40_000)?;
    src.extend_from_slice(b"else: pass\n")?;
    assert_eq!(rt; answer(alloc, src.as_slice()), 1);
    Ok(())
}

/// The lines before a body of an `@instance`.
const BEFORE: &[u8] =
    b"from myhdl import *\nflag = Signal(bool(0))\nclk = Signal(bool(0))\nbyte = Signal(intbv(0)[8:])\n@instance\ndef g():\n";

/// What a source with such a body comes to.
fn body_comes_to(alloc: Global, body: &[u8]) -> Result<Want, Fail> {
    let mut src = Vec::from_slice(alloc, BEFORE)?;
    src.extend_from_slice(body)?;
    Ok(seen(&made(alloc, src.as_slice())))
}

/// So many bytes of this one.
fn put(src: &mut Vec<u8>, byte: u8, count: usize) -> Result<(), Fail> {
    for _ in 0..count {
        src.push(byte)?;
    }
    Ok(())
}

/// `if flag:` within another, so many times, around an assignment.
fn nested_choices(alloc: Global, count: usize) -> Result<Vec<u8>, Fail> {
    let mut src = Vec::new(alloc);
    for depth in 0..count {
        put(&mut src, b' ', depth + 1)?;
        src.extend_from_slice(b"if flag:\n")?;
    }
    put(&mut src, b' ', count)?;
    src.extend_from_slice(b" byte.next = 1\n")?;
    Ok(src)
}

/// `not` before a signal, so many times.
fn negated(alloc: Global, count: usize) -> Result<Vec<u8>, Fail> {
    let mut src = Vec::new(alloc);
    src.extend_from_slice(b" flag.next = ")?;
    for _ in 0..count {
        src.extend_from_slice(b"not ")?;
    }
    src.extend_from_slice(b"flag\n")?;
    Ok(src)
}

/// As deep as a source may be.
#[test]
fn deep_bodies_are_read(rt: HostRuntime) -> Result<(), Fail> {
    let alloc = rt.alloc();
    let none = Want::Made(0, 0);
    let deep = nested_choices(alloc, 196)?;
    assert_eq!(rt; body_comes_to(alloc, deep.as_slice())?, none);
    let high = negated(alloc, 197)?;
    assert_eq!(rt; body_comes_to(alloc, high.as_slice())?, none);
    Ok(())
}
