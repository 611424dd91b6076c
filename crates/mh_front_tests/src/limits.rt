// Limits of elaboration that are lower than those of the commands, so that their ends are reached soon.
use crate::sources::{Want, read, seen};
use mh_elab::*;
use mh_text::Code;
use std::alloc::Global;
use std::process::Abort;
use std::test::Fail;

/// Where 60 statements may be executed and 4 calls may be open.
const FEW: &[(&str, Want)] = &[
    (
        "while True:\n    pass\n",
        Want::Refused(Code::E7ElabLimit, 2),
    ),
    (
        "a = [i for i in range(60)]\n",
        Want::Refused(Code::E7ElabLimit, 1),
    ),
    (
        "for i in range(60):\n    pass\n",
        Want::Refused(Code::E7ElabLimit, 2),
    ),
    (
        "def f(a):\n    if a < 4:\n        return f(a + 1)\nf(1)\nf(0)\n",
        Want::Refused(Code::E8DepthLimit, 3),
    ),
];

/// Where 20,000 statements may be executed and 64 calls may be open.
const LIMITS: &[(&str, Want)] = &[
    (
        "x = 0\nwhile True: x = (x,)\n",
        Want::Refused(Code::E7ElabLimit, 2),
    ),
    (
        "x = 0\nwhile True: x = (x, x)\n",
        Want::Refused(Code::E7ElabLimit, 2),
    ),
    (
        "x = [0]\nwhile True: x[0] = (x[0], x[0])\n",
        Want::Refused(Code::E7ElabLimit, 2),
    ),
    (
        "w = []\nwhile True: w.append(w)\n",
        Want::Refused(Code::E7ElabLimit, 2),
    ),
    ("for i in range(19999): pass\n", Want::Made(0, 0)),
    (
        "for i in range(20000): pass\n",
        Want::Refused(Code::E7ElabLimit, 1),
    ),
    (
        "a = [i for i in range(20000)]\n",
        Want::Refused(Code::E7ElabLimit, 1),
    ),
    (
        "def f(n):\n    if n < 64:\n        return f(n + 1)\nf(1)\nf(0)\n",
        Want::Refused(Code::E8DepthLimit, 3),
    ),
    ("for i in range(1 << 100):\n    break\n", Want::Made(0, 0)),
    (
        "def f():\n    pass\nwhile True:\n    f()\n",
        Want::Refused(Code::E7ElabLimit, 4),
    ),
];

/// Each source comes to this within so many statements and open calls.
fn come_to(
    rt: &impl Abort,
    alloc: Global,
    rows: &[(&str, Want)],
    statements: u32,
    calls: u32,
) -> Result<(), Fail> {
    for (source, want) in rows {
        let module = read(alloc, source.as_bytes())?;
        let r = elaborate_within(alloc, &module, statements, calls);
        assert_eq!(rt; seen(&r), *want, "{source}");
    }
    Ok(())
}

/// So many statements that tuples nest as deep as any list of frames. How the compiled program takes the
/// full limit apart is shown where the program is tested.
const DEEP: &[(&str, Want)] = &[(
    "x = 0\nwhile True: x = (x,)\n",
    Want::Refused(Code::E7ElabLimit, 2),
)];

/// No command has these limits.
#[test]
fn limits_are_met(rt: HostRuntime) -> Result<(), Fail> {
    come_to(&rt, rt.alloc(), FEW, 60, 4)?;
    come_to(&rt, rt.alloc(), LIMITS, 20000, 64)?;
    come_to(&rt, rt.alloc(), DEEP, 40000, 64)
}

/// A function that calls itself below many operators, and then all calls that may be open.
fn deep_source(alloc: Global) -> Result<Vec<u8>, Fail> {
    let mut src = Vec::new(alloc);
    src.extend_from_slice(b"def f(n):\n    return ")?;
    for _ in 0..180 {
        src.extend_from_slice(b"not ")?;
    }
    src.extend_from_slice(b"f(n + 1)\nf(0)\n")?;
    Ok(src)
}

/// No command has these limits.
#[test]
fn calls_below_operators_take_no_stack(rt: HostRuntime) -> Result<(), Fail> {
    let alloc = rt.alloc();
    let src = deep_source(alloc)?;
    let module = read(alloc, src.as_slice())?;
    let r = elaborate_within(alloc, &module, 1000000, 64);
    assert_eq!(rt; seen(&r), Want::Refused(Code::E8DepthLimit, 2));
    let r = elaborate_within(alloc, &module, 2000, 4000);
    assert_eq!(rt; seen(&r), Want::Refused(Code::E7ElabLimit, 2));
    Ok(())
}
