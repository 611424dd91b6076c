// Values as numbers and as truth values.
ghost use Rattle.std.specs.Prelude.{◌≡◌};
ghost use Rattle.mh_consts.specs.declared.kinds.Const.{out-Const};
ghost use Rattle.mh_consts.specs.Numbers as spec;

use crate::kinds::Const;
use mh_num::Bounds;
use mh_text::Code;

/// The number that a value is, or the code for a signal, or for what else is no number.
#[tactic(auto, using(crate::proofs::Values::values))]
fn number(v: &Const, signal: Code, other: Code) -> Result<i128, Code>
    ensures { result ≡ spec.number_step signal other (out-Const v.now) }
{
    match v {
        Const::Int(n) => Ok(*n),
        Const::Truth(b) => Ok(if *b { 1 } else { 0 }),
        Const::Bounded(v, _) => Ok(*v),
        Const::Signal(_, _) => Err(signal),
        _ => Err(other),
    }
}

/// The number of an operand, of an index, or of an end of a slice. A signal's would be read, which
/// elaboration doesn't allow.
pub fn operand(v: &Const) -> Result<i128, Code>
    ensures { result ≡ spec.operand v.now }
{
    number(v, Code::E2NotElaborable, Code::E10KindClash)
}

/// The number of an argument of `range` or `downrange`.
pub(crate) fn argument(v: &Const) -> Result<i128, Code>
    ensures { result ≡ spec.argument v.now }
{
    number(v, Code::E2NotElaborable, Code::E3BadArguments)
}

/// The number of an argument of `intbv` or `modbv`.
pub fn content(v: &Const) -> Result<i128, Code>
    ensures { result ≡ spec.content v.now }
{
    number(v, Code::E3BadArguments, Code::E3BadArguments)
}

/// The number of an argument of `int` or `bool`.
#[tactic(auto, using(crate::proofs::Values::values))]
pub(crate) fn converted(v: &Const) -> Result<i128, Code>
    ensures { result ≡ spec.converted v.now }
{
    match v {
        Const::Item(_, _) => Err(Code::E10KindClash),
        _ => number(v, Code::E2NotElaborable, Code::E3BadArguments),
    }
}

/// The truth of a condition: whether a number isn't 0. Other values have none.
pub fn truth(v: &Const) -> Result<bool, Code>
    ensures { result ≡ spec.truth v.now }
{
    let n = operand(v)?;
    Ok(n != 0)
}

/// The bounds from `lo` to `top`, or `None` where there is no number between them or where they need
/// more than 127 bits.
pub(crate) fn bounds(lo: i128, top: i128, wraps: bool) -> Option<Bounds>
    ensures { result ≡ spec.bounds_of lo top wraps }
{
    Bounds::new(lo, top, wraps)
}
