// The rule of constant indices and slices.
ghost use Rattle.std.specs.Prelude.{◌≡◌, map, true, ℕ, ℤ, Option};
ghost use Rattle.std.specs.Option.{option_and_then, option_map_or};
ghost use Rattle.std.specs.List.{list_all};
ghost use Rattle.mh_design.specs.Tree.{expression_of, row, base_of, left_of};
ghost use Rattle.mh_design.specs.Numbering.{expressions, all_expressions};
ghost use Rattle.mh_design.specs.Constants as spec;

use crate::design::{Design, Kind, Local};
use crate::expression::GExpr;
use crate::kinds::{local_kind, mem_kind, signal_kind};
use crate::statement::{Place, Target};
use mh_num::width;

/// A truth value is the integer 0 or 1.
fn number_of_truth(b: bool) -> i128
    ensures { result ≡ spec.number_of_truth b }
{
    if b { 1 } else { 0 }
}

/// The value of a constant.
#[tactic(auto, using(crate::proofs::Shapes::shapes))]
pub fn constant_of(e: &GExpr) -> Option<i128>
    ensures { result ≡ spec.constant_of (expression_of e.now) }
{
    match e {
        GExpr::Integer(z) => Some(*z),
        GExpr::Truth(b) => Some(number_of_truth(*b)),
        GExpr::Fixed(z, _) => Some(*z),
        GExpr::Item(_, _) | GExpr::Signal(_) | GExpr::Local(_) | GExpr::Now => None,
        GExpr::Element(_, _) | GExpr::TableElement(_, _) => None,
        GExpr::Bit(_, _) | GExpr::Slice(_, _, _) => None,
        GExpr::Unary(_, _) | GExpr::Binary(_, _, _) | GExpr::And(_, _) | GExpr::Or(_, _) => None,
        GExpr::Concat(_) | GExpr::Signed(_) | GExpr::Int(_) | GExpr::Bool(_) => None,
    }
}

/// The width of a declared kind that has one.
fn kind_width(kind: Option<Kind>) -> Option<u8>
    ensures { result ≡ option_and_then spec.kind_width kind }
{
    match kind {
        Some(Kind::Bits(b)) => Some(width(&b)),
        Some(Kind::Bool) => None,
        Some(Kind::Int) => None,
        Some(Kind::Item(_)) => None,
        None => None,
    }
}

/// The width of a base.
#[tactic(auto, using(crate::proofs::Shapes::shapes))]
fn base_width(d: &Design, locals: &[Local], e: &GExpr) -> Option<u8>
    ensures { result ≡ spec.base_width d.now locals.now (expression_of e.now) }
{
    match e {
        GExpr::Signal(s) => kind_width(signal_kind(d, *s)),
        GExpr::Local(v) => kind_width(local_kind(locals, *v)),
        GExpr::Fixed(_, b) => Some(width(b)),
        GExpr::Element(m, _) => kind_width(mem_kind(d, *m)),
        GExpr::Integer(_) | GExpr::Truth(_) | GExpr::Item(_, _) | GExpr::Now => None,
        GExpr::TableElement(_, _) | GExpr::Bit(_, _) | GExpr::Slice(_, _, _) => None,
        GExpr::Unary(_, _) | GExpr::Binary(_, _, _) | GExpr::And(_, _) | GExpr::Or(_, _) => None,
        GExpr::Concat(_) | GExpr::Signed(_) | GExpr::Int(_) | GExpr::Bool(_) => None,
    }
}

/// The width of what is assigned a part.
fn left_width(d: &Design, locals: &[Local], place: &Place) -> Option<u8>
    ensures { result ≡ spec.left_width d.now locals.now (base_of place.now) }
{
    match place {
        Place::Signal(s) => kind_width(signal_kind(d, *s)),
        Place::Element(m, _) => kind_width(mem_kind(d, *m)),
        Place::Local(v) => kind_width(local_kind(locals, *v)),
    }
}

/// How many elements a memory has.
fn cell_count(d: &Design, mem: u32) -> usize
    ensures { result ≡ spec.cell_count d.now mem }
{
    match d.mems.get(mem as usize) {
        Some(x) => x.cells.len(),
        None => 0,
    }
}

/// How many elements a table has.
fn table_length(d: &Design, table: u32) -> usize
    ensures { result ≡ spec.table_length d.now table }
{
    match d.tables.get(table as usize) {
        Some(x) => x.values.len(),
        None => 0,
    }
}

/// An index is below `n`, if it is a constant.
pub fn index_keeps(i: &GExpr, n: usize) -> bool
    ensures { result ≡ spec.index_keeps (expression_of i.now) n }
{
    match constant_of(i) {
        Some(z) => 0 <= z && z < n as i128,
        None => true,
    }
}

/// An index lies within the width of its base.
fn bit_keeps(i: &GExpr, width: Option<u8>) -> bool
    ensures { result ≡ option_map_or (spec.index_keeps (expression_of i.now)) width true }
{
    match width {
        Some(w) => index_keeps(i, w as usize),
        None => true,
    }
}

/// The ends of a slice, if both are constants.
pub fn ends_keep(i: Option<i128>, j: Option<i128>, w: u8) -> bool
    ensures { result ≡ spec.ends_keep i j w }
{
    match (i, j) {
        (Some(i), Some(j)) => 0 <= j && j < i && i <= w as i128,
        _ => true,
    }
}

/// A slice lies within the width of its base.
fn slice_keeps(i: &GExpr, j: &GExpr, width: Option<u8>) -> bool
    ensures { result ≡ option_map_or (spec.slice_keeps (expression_of i.now) (expression_of j.now)) width true }
{
    match width {
        Some(w) => ends_keep(constant_of(i), constant_of(j), w),
        None => true,
    }
}

/// What is assigned keeps the rule at its index.
fn place_keeps(d: &Design, place: &Place) -> bool
    ensures { result ≡ spec.base_keeps d.now (base_of place.now) }
{
    match place {
        Place::Signal(_) => true,
        Place::Element(m, i) => index_keeps(i, cell_count(d, *m)),
        Place::Local(_) => true,
    }
}

/// The left side of an assignment keeps the rule itself, its indices aside.
pub fn target_keeps(d: &Design, locals: &[Local], target: &Target) -> bool
    ensures { result ≡ spec.left_keeps d.now locals.now (left_of target.now) }
{
    match target {
        Target::Whole(p) => place_keeps(d, p),
        Target::Bit(p, i) => place_keeps(d, p) && bit_keeps(i, left_width(d, locals, p)),
        Target::Slice(p, i, j) => {
            place_keeps(d, p) && slice_keeps(i, j, left_width(d, locals, p))
        }
        Target::Bind(_, _) => true,
    }
}

/// An expression and all its parts keep the rule.
#[cycle(constants)]
#[tactic(auto, using(crate::proofs::Shapes::shapes, crate::proofs::ListLaws::all_laws))]
pub fn constants_keep(d: &Design, locals: &[Local], e: &GExpr) -> bool
    ensures { result ≡ spec.constants_keep d.now locals.now (expression_of e.now) }
{
    match e {
        GExpr::Integer(_) | GExpr::Truth(_) | GExpr::Item(_, _) | GExpr::Fixed(_, _) => true,
        GExpr::Signal(_) | GExpr::Local(_) | GExpr::Now => true,
        GExpr::Element(m, i) => {
            index_keeps(i.get(), cell_count(d, *m)) && constants_keep(d, locals, i.get())
        }
        GExpr::TableElement(t, i) => {
            index_keeps(i.get(), table_length(d, *t)) && constants_keep(d, locals, i.get())
        }
        GExpr::Bit(a, i) => {
            bit_keeps(i.get(), base_width(d, locals, a.get()))
                && constants_keep(d, locals, a.get())
                && constants_keep(d, locals, i.get())
        }
        GExpr::Slice(a, i, j) => {
            slice_keeps(i.get(), j.get(), base_width(d, locals, a.get()))
                && constants_keep(d, locals, a.get())
                && constants_keep(d, locals, i.get())
                && constants_keep(d, locals, j.get())
        }
        GExpr::Unary(_, a) => constants_keep(d, locals, a.get()),
        GExpr::Binary(_, a, b) => {
            constants_keep(d, locals, a.get()) && constants_keep(d, locals, b.get())
        }
        GExpr::And(a, b) => {
            constants_keep(d, locals, a.get()) && constants_keep(d, locals, b.get())
        }
        GExpr::Or(a, b) => {
            constants_keep(d, locals, a.get()) && constants_keep(d, locals, b.get())
        }
        GExpr::Concat(parts) => all_keep(d, locals, parts.as_slice()),
        GExpr::Signed(a) => constants_keep(d, locals, a.get()),
        GExpr::Int(a) => constants_keep(d, locals, a.get()),
        GExpr::Bool(a) => constants_keep(d, locals, a.get()),
    }
}

/// The expressions and all their parts keep the rule.
#[cycle(constants)]
#[tactic(auto, using(crate::proofs::Shapes::shapes, crate::proofs::ListLaws::all_laws))]
fn all_keep(d: &Design, locals: &[Local], parts: &[GExpr]) -> bool
    ensures { result ≡ list_all (spec.keeps_rule d.now locals.now) (all_expressions (row (map expression_of parts.now))) }
{
    for part in parts {
        if !constants_keep(d, locals, part) {
            return false;
        }
    }
    true
}
