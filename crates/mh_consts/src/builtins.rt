// Calls of the functions that MyHDL and Python have, on constants.
ghost use Rattle.std.specs.Prelude.{◌≡◌, ◌≤◌, map, option_copied, is_none, IfOk, pos};
ghost use Rattle.mh_consts.specs.declared.kinds.Const.{out-Const};
ghost use Rattle.mh_consts.specs.Expression.{given_of, key_of, keys_of};
ghost use Rattle.mh_text.specs.declared.code.Code.TheVariants as code;
ghost use Rattle.mh_consts.specs.Outcome as outcome;
ghost use Rattle.mh_consts.specs.Builtins as spec;

use crate::kinds::{Builtin, Const, SignalKind};
use crate::numbers::{argument, bounds, content, converted};
use crate::operators::bits;
use crate::places::is;
use crate::scope::Scope;
use mh_num::{Bounds, add, shl, signed_of, slice, sub, width};
use mh_pytree::Argument;
use mh_text::{Code, Text};
use sqlite_items::at;

/// How the arguments of a call are given.
#[derive(Clone, Copy, Debug, PartialEq, Eq)]
pub(crate) enum Form {
    /// All by position.
    Positional,
    /// One by position, then `min=`, then `max=`.
    LowHigh,
    /// One by position, then `max=`, then `min=`.
    HighLow,
    /// Otherwise.
    Other,
}

/// The name of an argument, if it has one.
#[tactic(auto, using(crate::proofs::Shapes::shapes))]
fn key(argument: &Argument) -> Option<&Text>
    ensures { option_copied result ≡ key_of (given_of argument.now) }
{
    argument.name.as_ref()
}

/// Whether an argument is given by position.
fn is_positional(argument: &Argument) -> bool
    ensures { result ≡ is_none (key_of (given_of argument.now)) }
{
    key(argument).is_none()
}

/// Whether all arguments are given by position.
pub fn all_positional(arguments: &[Argument]) -> bool
    ensures { result ≡ spec.all_positional (keys_of (map given_of arguments.now)) }
{
    for argument in arguments {
        if !is_positional(argument) {
            return false;
        }
    }
    true
}

/// The name of the argument at a place, if it has one.
#[tactic(auto, using(crate::proofs::Keys::keys))]
pub fn key_at(arguments: &[Argument], i: usize) -> Option<&Text>
    ensures { option_copied result ≡ spec.key_at (keys_of (map given_of arguments.now)) i }
{
    match at(arguments, i) {
        None => None,
        Some(argument) => key(argument),
    }
}

/// The form of two names.
fn pair_form(a: &Text, b: &Text) -> Form
    ensures { result ≡ spec.pair_form a.now b.now }
{
    if is(a, b"min") && is(b, b"max") {
        Form::LowHigh
    } else if is(a, b"max") && is(b, b"min") {
        Form::HighLow
    } else {
        Form::Other
    }
}

/// How the arguments of a call are given.
pub(crate) fn form_of(arguments: &[Argument]) -> Form
    ensures { result ≡ spec.form_of (keys_of (map given_of arguments.now)) }
{
    if all_positional(arguments) {
        return Form::Positional;
    }
    if arguments.len() != 3 {
        return Form::Other;
    }
    match (
        key_at(arguments, 0),
        key_at(arguments, 1),
        key_at(arguments, 2),
    ) {
        (None, Some(a), Some(b)) => pair_form(a, b),
        _ => Form::Other,
    }
}

/// A range whose step isn't 0.
fn stepped(from: i128, to: i128, step: i128) -> Result<Const, Code>
    ensures { result ≡ spec.stepped from to step }
{
    if step == 0 {
        Err(Code::E4BadRange)
    } else {
        Ok(Const::Range(from, to, step))
    }
}

/// A range of three arguments.
fn range_at(
    from: Result<i128, Code>,
    to: Result<i128, Code>,
    step: Result<i128, Code>,
) -> Result<Const, Code>
    ensures { result ≡ spec.range_step from to step }
{
    let a = from?;
    let b = to?;
    let d = step?;
    stepped(a, b, d)
}

/// `range(..)`
fn range(parts: &[Const]) -> Result<Const, Code>
    ensures { result ≡ spec.range parts.now }
{
    match parts {
        [b] => range_at(Ok(0), argument(b), Ok(1)),
        [a, b] => range_at(argument(a), argument(b), Ok(1)),
        [a, b, d] => range_at(argument(a), argument(b), argument(d)),
        _ => Err(Code::E3BadArguments),
    }
}

/// An integer that may have left `i128`.
fn held(n: Option<i128>) -> Result<i128, Code>
    ensures { result ≡ outcome.given n code.E5TooWide }
{
    match n {
        Some(n) => Ok(n),
        None => Err(Code::E5TooWide),
    }
}

/// The range that `downrange(a, b, d)` means.
fn down(a: i128, b: i128, d: i128) -> Result<Const, Code>
    ensures { result ≡ spec.down a b d }
{
    let from = held(sub(a, 1))?;
    let to = held(sub(b, 1))?;
    let step = held(sub(0, d))?;
    stepped(from, to, step)
}

/// A range downwards of three arguments.
fn downrange_at(
    from: Result<i128, Code>,
    to: Result<i128, Code>,
    step: Result<i128, Code>,
) -> Result<Const, Code>
    ensures { result ≡ spec.downrange_step from to step }
{
    let a = from?;
    let b = to?;
    let d = step?;
    down(a, b, d)
}

/// `downrange(..)`
fn downrange(parts: &[Const]) -> Result<Const, Code>
    ensures { result ≡ spec.downrange parts.now }
{
    match parts {
        [a] => downrange_at(argument(a), Ok(0), Ok(1)),
        [a, b] => downrange_at(argument(a), argument(b), Ok(1)),
        [a, b, d] => downrange_at(argument(a), argument(b), argument(d)),
        _ => Err(Code::E3BadArguments),
    }
}

/// The length of a signal: its number of bits.
fn signal_length(kind: &SignalKind) -> Result<Const, Code>
    ensures { result ≡ spec.signal_length kind.now }
{
    match kind {
        SignalKind::Truth => Ok(Const::Int(1)),
        SignalKind::Bounded(b) => Ok(Const::Int(i128::from(width(b)))),
        _ => Err(Code::E3BadArguments),
    }
}

/// The length of a value: of a list or tuple its number of items, of a number its number of bits.
#[tactic(auto, using(crate::proofs::Values::values))]
fn length_at(s: &Scope, v: &Const) -> Result<Const, Code>
    ensures { result ≡ spec.length_step s.now (out-Const v.now) }
{
    match v {
        Const::List(n) => match s.list(*n) {
            Some(items) => Ok(Const::Int(items.len() as i128)),
            None => Err(Code::E10KindClash),
        },
        Const::Tuple(items) => Ok(Const::Int(items.get().len() as i128)),
        Const::Bounded(_, b) => Ok(Const::Int(i128::from(width(b)))),
        Const::Signal(_, kind) => signal_length(kind),
        _ => Err(Code::E3BadArguments),
    }
}

/// `len(v)`
fn length_of(s: &Scope, parts: &[Const]) -> Result<Const, Code>
    ensures { result ≡ spec.length_of s.now parts.now }
{
    match parts {
        [v] => length_at(s, v),
        _ => Err(Code::E3BadArguments),
    }
}

/// `int(v)`
fn integer_of(parts: &[Const]) -> Result<Const, Code>
    ensures { result ≡ spec.integer_of parts.now }
{
    match parts {
        [v] => {
            let n = converted(v)?;
            Ok(Const::Int(n))
        }
        _ => Err(Code::E3BadArguments),
    }
}

/// `bool(v)`
fn truth_of(parts: &[Const]) -> Result<Const, Code>
    ensures { result ≡ spec.truth_of parts.now }
{
    match parts {
        [v] => {
            let n = converted(v)?;
            Ok(Const::Truth(n != 0))
        }
        _ => Err(Code::E3BadArguments),
    }
}

/// A number from `low` up to and without `high`.
fn bounded(wraps: bool, v: i128, low: i128, high: i128) -> Result<Const, Code>
    ensures { result ≡ spec.bounded wraps v low high }
{
    if low <= v && v < high {
        match bounds(low, high - 1, wraps) {
            Some(b) => Ok(Const::Bounded(v, b)),
            None => Err(Code::E5TooWide),
        }
    } else {
        Err(Code::E4BadRange)
    }
}

/// `intbv(v)`
fn made_of(parts: &[Const]) -> Result<Const, Code>
    ensures { result ≡ spec.made_of parts.now }
{
    match parts {
        [v] => {
            let n = content(v)?;
            Ok(Const::Int(n))
        }
        _ => Err(Code::E3BadArguments),
    }
}

/// `intbv(v, min=low, max=high)`
fn made_between(wraps: bool, parts: &[Const]) -> Result<Const, Code>
    ensures { result ≡ spec.made_between wraps parts.now }
{
    match parts {
        [v, low, high] => {
            let n = content(v)?;
            let a = content(low)?;
            let b = content(high)?;
            bounded(wraps, n, a, b)
        }
        _ => Err(Code::E3BadArguments),
    }
}

/// `intbv(v, max=high, min=low)`
fn made_between_turned(wraps: bool, parts: &[Const]) -> Result<Const, Code>
    ensures { result ≡ spec.made_between_turned wraps parts.now }
{
    match parts {
        [v, high, low] => {
            let n = content(v)?;
            let b = content(high)?;
            let a = content(low)?;
            bounded(wraps, n, a, b)
        }
        _ => Err(Code::E3BadArguments),
    }
}

/// `intbv(..)`, or with `wraps` `modbv(..)`
fn made(wraps: bool, form: Form, parts: &[Const]) -> Result<Const, Code>
    ensures { result ≡ spec.made wraps form parts.now }
{
    match form {
        Form::Positional => made_of(parts),
        Form::LowHigh => made_between(wraps, parts),
        Form::HighLow => made_between_turned(wraps, parts),
        Form::Other => Err(Code::E3BadArguments),
    }
}

/// The width of a part of `concat`, and its bits as a number.
#[tactic(auto, using(crate::proofs::Values::values))]
fn bits_in(v: &Const) -> Result<(u8, i128), Code>
    ensures value { result ≡ spec.bits_step (out-Const v.now) }
    ensures at_most { IfOk result (λ p. p.0 ≤ 127) }
{
    match v {
        Const::Truth(b) => Ok((1, if *b { 1 } else { 0 })),
        Const::Bounded(v, b) => {
            let w = width(b);
            Ok((w, slice(*v, w, 0)))
        }
        Const::Signal(_, _) => Err(Code::E2NotElaborable),
        _ => Err(Code::E10KindClash),
    }
}

/// The bits of `n`, and below them those of a part.
fn shifted_up(n: i128, part: (u8, i128)) -> Result<i128, Code>
    ensures { result ≡ spec.shifted_up n part }
{
    let m = held(shl(n, i128::from(part.0)))?;
    held(add(m, part.1))
}

/// The `w` bits of `n`, and below them those of a part.
fn joined_with(w: u8, n: i128, part: (u8, i128)) -> Result<(u8, i128), Code>
    requires below { w ≤ 127 }
    requires part_below { part.0 ≤ 127 }
    ensures value { result ≡ spec.joined_with w n part }
    ensures at_most { IfOk result (λ p. p.0 ≤ 127) }
{
    if w + part.0 <= 127 {
        let m = shifted_up(n, part)?;
        Ok((w + part.0, m))
    } else {
        Err(Code::E5TooWide)
    }
}

/// The `w` bits of `n`, and below them those of a value.
fn joined_step(w: u8, n: i128, v: &Const) -> Result<(u8, i128), Code>
    requires { w ≤ 127 }
    ensures value { result ≡ spec.joined_step w n v.now }
    ensures at_most { IfOk result (λ p. p.0 ≤ 127) }
{
    let part = bits_in(v)?;
    joined_with(w, n, part)
}

/// The width of all parts together, and their bits as a number, the first part's highest.
fn joined(parts: &[Const]) -> Result<(u8, i128), Code>
    ensures value { result ≡ spec.joined 0 (pos 0) parts.now }
    ensures at_most { IfOk result (λ p. p.0 ≤ 127) }
{
    let mut all: (u8, i128) = (0, 0);
    for v in parts {
        all = joined_step(all.0, all.1, v)?;
    }
    Ok(all)
}

/// `concat(..)`
fn concatenated(parts: &[Const]) -> Result<Const, Code>
    ensures { result ≡ spec.concatenated parts.now }
{
    if parts.is_empty() {
        return Err(Code::E3BadArguments);
    }
    let (w, n) = joined(parts)?;
    bits(w, false, n)
}

/// The width's bits of a number in two's complement, where its least value isn't negative.
fn signed_value(v: i128, b: &Bounds) -> i128
    ensures { result ≡ spec.signed_value v b.now }
{
    if b.lo < 0 { v } else { signed_of(v, width(b)) }
}

/// `v.signed()`
#[tactic(auto, using(crate::proofs::Values::values))]
pub(crate) fn read_signed(v: &Const) -> Result<Const, Code>
    ensures { result ≡ spec.read_signed (out-Const v.now) }
{
    match v {
        Const::Bounded(v, b) => Ok(Const::Int(signed_value(*v, b))),
        Const::Signal(_, _) => Err(Code::E2NotElaborable),
        _ => Err(Code::E10KindClash),
    }
}

/// A call of a function that takes its arguments by position.
fn called_by_position(s: &Scope, builtin: Builtin, parts: &[Const]) -> Result<Const, Code>
    ensures { result ≡ spec.called_by_position s.now builtin parts.now }
{
    match builtin {
        Builtin::Range => range(parts),
        Builtin::Downrange => downrange(parts),
        Builtin::Len => length_of(s, parts),
        Builtin::Int => integer_of(parts),
        Builtin::Bool => truth_of(parts),
        Builtin::Concat => concatenated(parts),
        _ => Err(Code::E10KindClash),
    }
}

/// A call of a function that MyHDL or Python has.
fn called_builtin(s: &Scope, builtin: Builtin, form: Form, parts: &[Const]) -> Result<Const, Code>
    ensures { result ≡ spec.called_builtin s.now builtin form parts.now }
{
    match builtin {
        Builtin::Intbv => made(false, form, parts),
        Builtin::Modbv => made(true, form, parts),
        Builtin::Range
        | Builtin::Downrange
        | Builtin::Len
        | Builtin::Int
        | Builtin::Bool
        | Builtin::Concat => match form {
            Form::Positional => called_by_position(s, builtin, parts),
            _ => Err(Code::E3BadArguments),
        },
        _ => Err(Code::E10KindClash),
    }
}

/// A call of a value.
#[tactic(auto, using(crate::proofs::Values::values))]
pub(crate) fn called(s: &Scope, f: &Const, form: Form, parts: &[Const]) -> Result<Const, Code>
    ensures { result ≡ spec.call_step s.now (out-Const f.now) form parts.now }
{
    match f {
        Const::Builtin(builtin) => called_builtin(s, *builtin, form, parts),
        _ => Err(Code::E10KindClash),
    }
}
