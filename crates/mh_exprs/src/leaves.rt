// What names and constants are in a generator.
ghost use Rattle.std.specs.Prelude.{◌≡◌};
ghost use Rattle.mh_consts.specs.Names.{lookup};
ghost use Rattle.std.specs.Prelude.{option_copied};
ghost use Rattle.mh_exprs.specs.Leaves as spec;

use crate::locals::Locals;
use crate::typed::{Typed, Work};
use mh_consts::{Const, Scope};
use mh_design::{Design, GExpr, Kind, ValueKind, item_count, read_as, signal_kind};
use mh_num::{Bounds, width};
use mh_text::{Code, Text};
use sqlite_items::Items;

/// The width of a declared kind that has one.
fn width_of(kind: Kind) -> Option<i128>
    ensures { result ≡ spec.width_in kind }
{
    match kind {
        Kind::Bits(b) => Some(i128::from(width(&b))),
        Kind::Bool => None,
        Kind::Int => None,
        Kind::Item(_) => None,
    }
}

/// An expression of a declared kind.
pub(crate) fn declared(expr: GExpr, kind: Kind) -> Typed
    ensures { result ≡ spec.declared expr kind }
{
    Typed {
        expr,
        kind: read_as(kind),
        width: width_of(kind),
        base: Some(kind),
    }
}

/// An integer expression.
pub fn integer(expr: GExpr) -> Typed
    ensures { result ≡ spec.integer expr }
{
    Typed {
        expr,
        kind: ValueKind::Int,
        width: None,
        base: None,
    }
}

/// An expression whose values are truth values.
pub(crate) fn truth(expr: GExpr) -> Typed
    ensures { result ≡ spec.truth expr }
{
    Typed {
        expr,
        kind: ValueKind::Bool,
        width: None,
        base: None,
    }
}

/// An item of an enum.
fn item(d: &Design, n: u32, place: u32) -> Result<Typed, Code>
    ensures { result ≡ spec.item d.now n place }
{
    if (place as usize) < item_count(d, n) {
        Ok(Typed {
            expr: GExpr::Item(n, place),
            kind: ValueKind::Item(n),
            width: None,
            base: None,
        })
    } else {
        Err(Code::E10KindClash)
    }
}

/// A constant bounded number.
fn bounded(wide: bool, v: i128, b: Bounds) -> Typed
    ensures { result ≡ spec.bounded wide v b }
{
    if wide {
        declared(GExpr::Fixed(v, b), Kind::Bits(b))
    } else {
        integer(GExpr::Integer(v))
    }
}

/// The reading of a signal.
fn signal(d: &Design, n: u32) -> Result<Typed, Code>
    ensures { result ≡ spec.signal d.now n }
{
    match signal_kind(d, n) {
        Some(kind) => Ok(declared(GExpr::Signal(n), kind)),
        None => Err(Code::E10KindClash),
    }
}

/// What a value of elaboration is in an expression: a constant, or the reading of a signal.
#[tactic(auto, using(mh_consts::proofs::Values::values))]
pub fn leaf(wide: bool, v: &Const, d: &Design) -> Result<Typed, Code>
    ensures { result ≡ spec.leaf wide v.now d.now }
{
    match v {
        Const::Int(n) => Ok(integer(GExpr::Integer(*n))),
        Const::Truth(b) => Ok(truth(GExpr::Truth(*b))),
        Const::Item(n, place) => item(d, *n, *place),
        Const::Bounded(v, b) => Ok(bounded(wide, *v, *b)),
        Const::Signal(n, _) => signal(d, *n),
        _ => Err(Code::E10KindClash),
    }
}

/// Whether every path that leads here has assigned a local.
pub fn is_assigned(here: &Option<Items<bool>>, v: u32) -> bool
    ensures { result ≡ spec.is_assigned here.now v }
{
    match here {
        None => true,
        Some(assigned) => match assigned.get(v as usize) {
            Some(b) => *b,
            None => false,
        },
    }
}

/// The kind of a local, once it was assigned in the text.
pub fn kind_at(w: &Work, v: u32) -> Option<Kind>
    ensures { result ≡ spec.kind_at w.now v }
{
    match w.kinds.get(v as usize) {
        Some(kind) => *kind,
        None => None,
    }
}

/// The reading of a local.
pub fn local(w: &Work, v: u32) -> Result<Typed, Code>
    ensures { result ≡ spec.local w.now v }
{
    if !is_assigned(&w.here, v) {
        return Err(Code::E1UnknownName);
    }
    match kind_at(w, v) {
        Some(kind) => Ok(declared(GExpr::Local(v), kind)),
        None => Err(Code::E1UnknownName),
    }
}

/// What a name that isn't a local is in an expression.
fn held(v: Option<&Const>, d: &Design) -> Result<Typed, Code>
    ensures { result ≡ spec.held (option_copied v.entry) d.now }
{
    match v {
        Some(v) => leaf(false, v, d),
        None => Err(Code::E1UnknownName),
    }
}

/// What a name is in an expression.
pub(crate) fn name(
    s: &Scope,
    locals: &Locals,
    w: &Work,
    t: &Text,
    d: &Design,
) -> Result<Typed, Code>
    ensures { result ≡ spec.name_or (lookup locals.now.numbers t.now) (lookup s.now.names t.now) w.now d.now }
{
    match locals.numbers.find(t) {
        Some(v) => local(w, *v),
        None => held(s.find(t), d),
    }
}
