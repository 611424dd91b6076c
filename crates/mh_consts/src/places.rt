// Attributes, indices and slices of constants.
ghost use Rattle.std.specs.Prelude.{◌≡◌, ◌≤◌, bytes_eq, position, option_copied};
ghost use Rattle.mh_text.specs.Faults.{Gives};
ghost use Rattle.mh_consts.specs.declared.kinds.Const.{out-Const};
ghost use Rattle.mh_consts.specs.Places as spec;

use crate::kinds::{Builtin, Const, SignalKind};
use crate::numbers::operand;
use crate::operators::{bits, integer};
use crate::scope::Scope;
use mh_num::{Bounds, add, bit, slice, width};
use mh_text::{Code, Fault, Text};
use sqlite_items::Items;
use std::alloc::Global;

/// Whether a name is this word.
pub(crate) fn is(name: &Text, word: &[u8]) -> bool
    ensures { result ≡ bytes_eq name.now word.now }
{
    name.bytes() == word
}

/// The place of a name among names.
fn position_of(names: &[Text], name: &Text) -> Option<usize>
    ensures { result ≡ position (bytes_eq name.now) names.now }
{
    names.iter().position(|other| name.bytes() == other.bytes())
}

/// An item of an enum, by its place among the names.
fn item_at(n: u32, place: Option<usize>) -> Result<Const, Code>
    ensures { result ≡ spec.item_at n place }
{
    match place {
        None => Err(Code::E10KindClash),
        Some(place) => {
            if place < 1 << 32 {
                Ok(Const::Item(n, place as u32))
            } else {
                Err(Code::E5TooWide)
            }
        }
    }
}

/// `min` or `max` of bounds.
fn bound_named(name: &Text, b: &Bounds) -> Result<Const, Code>
    ensures { result ≡ spec.bound_named name.now b.now }
{
    if is(name, b"min") {
        Ok(Const::Int(b.lo))
    } else if is(name, b"max") {
        integer(add(b.top, 1))
    } else {
        Err(Code::E10KindClash)
    }
}

/// An edge of a signal.
fn edge(n: u32, kind: &SignalKind, rising: bool) -> Result<Const, Code>
    ensures { result ≡ spec.edge n kind.now rising }
{
    match kind {
        SignalKind::Truth => Ok(Const::Edge(n, rising)),
        _ => Err(Code::E10KindClash),
    }
}

/// `min` or `max` of a signal.
fn signal_bound(name: &Text, kind: &SignalKind) -> Result<Const, Code>
    ensures { result ≡ spec.signal_bound name.now kind.now }
{
    match kind {
        SignalKind::Bounded(b) => bound_named(name, b),
        _ => Err(Code::E10KindClash),
    }
}

/// An attribute of a signal.
fn of_signal(name: &Text, n: u32, kind: &SignalKind) -> Result<Const, Code>
    ensures { result ≡ spec.of_signal name.now n kind.now }
{
    if is(name, b"next") {
        Err(Code::E2NotElaborable)
    } else if is(name, b"posedge") {
        edge(n, kind, true)
    } else if is(name, b"negedge") {
        edge(n, kind, false)
    } else {
        signal_bound(name, kind)
    }
}

/// `v.name`
#[tactic(auto, using(crate::proofs::Values::values))]
pub(crate) fn attribute(name: &Text, v: &Const) -> Result<Const, Code>
    ensures { result ≡ spec.attribute name.now v.now }
{
    match v {
        Const::EnumType(n, names) => item_at(*n, position_of(names.get().as_slice(), name)),
        Const::Bounded(_, b) => bound_named(name, b),
        Const::Signal(n, kind) => of_signal(name, *n, kind),
        _ => Err(Code::E10KindClash),
    }
}

/// `i` as a place below `n`.
fn place_below(n: usize, i: i128) -> Result<usize, Code>
    ensures { result ≡ spec.place_below n i }
{
    if i < 0 || i >= n as i128 {
        Err(Code::E4BadRange)
    } else {
        Ok(i as usize)
    }
}

/// A value as a place below `n`.
pub fn place(n: usize, v: &Const) -> Result<usize, Code>
    ensures { result ≡ spec.place n v.now }
{
    let i = operand(v)?;
    place_below(n, i)
}

/// The item at a place.
fn item_of(alloc: Global, items: &Items<Const>, at: &Const) -> Result<Const, Fault<Code>>
    ensures { Gives (spec.item_of items.now at.now) result }
{
    let i = place(items.len(), at)?;
    match items.get(i) {
        Some(v) => Ok(v.copy(alloc)?),
        None => Err(Fault::Broken(Code::E4BadRange)),
    }
}

/// A bit of a number within bounds.
fn bit_of(v: i128, b: &Bounds, at: &Const) -> Result<Const, Code>
    ensures { result ≡ spec.bit_at v b.now at.now }
{
    let i = place(usize::from(width(b)), at)?;
    Ok(Const::Truth(bit(v, i as u8)))
}

/// `base[at]`
#[tactic(auto, using(crate::proofs::Values::values))]
pub(crate) fn indexed(
    alloc: Global,
    s: &Scope,
    base: &Const,
    at: &Const,
) -> Result<Const, Fault<Code>>
    ensures { Gives (spec.indexed s.now base.now at.now) result }
{
    match base {
        Const::List(n) => match s.list(*n) {
            Some(items) => item_of(alloc, items, at),
            None => Err(Fault::Broken(Code::E10KindClash)),
        },
        Const::Tuple(items) => item_of(alloc, items.get(), at),
        Const::Bounded(v, b) => Ok(bit_of(*v, b, at)?),
        Const::Signal(_, _) => Err(Fault::Broken(Code::E2NotElaborable)),
        _ => Err(Fault::Broken(Code::E10KindClash)),
    }
}

/// The bits from `j` up to and without `i` of `v`, which has `w` bits.
fn slice_within(w: u8, wraps: bool, v: i128, i: i128, j: i128) -> Result<Const, Code>
    requires { w ≤ 127 }
    ensures { result ≡ spec.slice_within w wraps v i j }
{
    if j < 0 || i <= j || i > i128::from(w) {
        return Err(Code::E4BadRange);
    }
    let upper = i as u8;
    let lower = j as u8;
    bits(upper - lower, wraps, slice(v, upper, lower))
}

/// A slice of a value, at the number of its lower end.
#[tactic(auto, using(crate::proofs::Values::values))]
fn slice_at(base: &Const, upper: &Const, lower: Result<i128, Code>) -> Result<Const, Code>
    ensures { result ≡ spec.slice_step (out-Const base.now) upper.now lower }
{
    match base {
        Const::Bounded(v, b) => {
            let i = operand(upper)?;
            let j = lower?;
            slice_within(width(b), b.wraps, *v, i, j)
        }
        Const::Signal(_, _) => Err(Code::E2NotElaborable),
        _ => Err(Code::E10KindClash),
    }
}

/// `base[upper:lower]`
pub(crate) fn sliced(base: &Const, upper: &Const, lower: &Const) -> Result<Const, Code>
    ensures { result ≡ spec.sliced base.now upper.now lower.now }
{
    slice_at(base, upper, operand(lower))
}

/// `base[upper:]`
pub(crate) fn sliced_from(base: &Const, upper: &Const) -> Result<Const, Code>
    ensures { result ≡ spec.sliced_from base.now upper.now }
{
    slice_at(base, upper, Ok(0))
}

/// The `n` low bits of `v`.
fn low_bits(wraps: bool, v: i128, n: i128) -> Result<Const, Code>
    ensures { result ≡ spec.low_bits wraps v n }
{
    if n < 1 {
        Err(Code::E4BadRange)
    } else if n > 127 {
        Err(Code::E5TooWide)
    } else {
        slice_within(127, wraps, v, n, 0)
    }
}

/// `intbv(..)[n:]` or `modbv(..)[n:]`
fn resized(wraps: bool, base: &Const, n: &Const) -> Result<Const, Code>
    ensures { result ≡ spec.resized wraps base.now n.now }
{
    let v = operand(base)?;
    let k = operand(n)?;
    low_bits(wraps, v, k)
}

/// `maker(..)[n:]`, where `maker` has this value.
#[tactic(auto, using(crate::proofs::Values::values))]
pub(crate) fn resized_by(maker: Option<&Const>, base: &Const, n: &Const) -> Result<Const, Code>
    ensures { result ≡ spec.resized_by (option_copied maker.entry) base.now n.now }
{
    match maker {
        Some(Const::Builtin(Builtin::Intbv)) => resized(false, base, n),
        Some(Const::Builtin(Builtin::Modbv)) => resized(true, base, n),
        _ => sliced_from(base, n),
    }
}
