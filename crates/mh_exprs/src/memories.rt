// The memories and tables that bodies index.
ghost use Rattle.std.specs.Prelude.{false, ◌≡◌, [], IfOk, Ok, length, position, nat_eq};
ghost use Rattle.mh_consts.specs.declared.kinds.Const.{out-Const};
ghost use Rattle.mh_consts.specs.Outcome.{lent};
ghost use Rattle.mh_exprs.specs.Leaves as spec;
ghost use Rattle.mh_exprs.specs.Step.{Grows};

use crate::leaves::{declared, integer, leaf};
use crate::typed::Typed;
use mh_consts::{Const, Scope};
use mh_design::{
    Design, GExpr, Kind, MemDecl, TableDecl, cells_kind, constant_of, index_keeps, is_number,
};
use mh_text::{Code, Fault, Memory, Text};
use sqlite_items::{Boxed, Items, at};
use std::alloc::Global;

/// The number of a signal.
#[tactic(auto, using(mh_consts::proofs::Values::values))]
fn signal_in(v: &Const) -> Option<u32>
    ensures { result ≡ spec.signal_step (out-Const v.now) }
{
    match v {
        Const::Signal(n, _) => Some(*n),
        _ => None,
    }
}

/// The signals of a list, if it holds nothing else.
fn signals_of(alloc: Global, vs: &[Const]) -> Result<Option<Items<u32>>, Memory>
    ensures { IfOk result (λ ns. ns ≡ spec.signals_onto [] vs.now) }
{
    let mut all = Items::new(alloc);
    for v in vs {
        match signal_in(v) {
            Some(n) => all.push(n)?,
            None => return Ok(None),
        }
    }
    Ok(Some(all))
}

/// A memory more.
fn new_mem(
    alloc: Global,
    d: &mut Design,
    list: u32,
    cells: Items<u32>,
    kind: Kind,
) -> Result<(u32, Kind), Fault<Code>>
    ensures { Grows (Ok ((length d.old.mems, kind), spec.new_mem d.old list cells kind)) result d.new }
{
    let number = d.mems.len();
    if number >= 1 << 32 {
        return Err(Fault::Memory);
    }
    d.mems.push(MemDecl {
        list,
        path: Text::new(alloc, b"")?,
        kind,
        cells,
        line: 0,
    })?;
    Ok((number as u32, kind))
}

/// The memory of a list that wasn't met before.
fn cells_met(
    alloc: Global,
    list: u32,
    cells: Option<Items<u32>>,
    d: &mut Design,
) -> Result<(u32, Kind), Fault<Code>>
    ensures { Grows (spec.cells_met list cells d.old) result d.new }
{
    match cells {
        None => Err(Fault::Broken(Code::E10KindClash)),
        Some(cells) => match cells_kind(d, cells.as_slice()) {
            None => Err(Fault::Broken(Code::E10KindClash)),
            Some(kind) => new_mem(alloc, d, list, cells, kind),
        },
    }
}

/// The place of a list's memory among all.
fn mem_of(mems: &[MemDecl], list: u32) -> Option<usize>
    ensures { result ≡ position (λ x. nat_eq x.list list) mems.now }
{
    mems.iter().position(|m| m.list == list)
}

/// The number and the kind of a list's memory.
fn memory(
    alloc: Global,
    list: u32,
    vs: &[Const],
    d: &mut Design,
) -> Result<(u32, Kind), Fault<Code>>
    ensures { Grows (spec.memory list vs.now d.old) result d.new }
{
    match mem_of(d.mems.as_slice(), list) {
        Some(m) => match d.mems.get(m) {
            Some(x) if m < 1 << 32 => Ok((m as u32, x.kind)),
            Some(_) => Err(Fault::Memory),
            None => Err(Fault::Broken(Code::E10KindClash)),
        },
        None => {
            let cells = signals_of(alloc, vs)?;
            cells_met(alloc, list, cells, d)
        }
    }
}

/// An index is a number, and where it is a constant it lies below `n`.
fn index_at(n: usize, t: &Typed) -> Result<(), Code>
    ensures { result ≡ spec.index_at n t.now }
{
    if !is_number(t.kind) {
        return Err(Code::E10KindClash);
    }
    if index_keeps(&t.expr, n) {
        Ok(())
    } else {
        Err(Code::E4BadRange)
    }
}

/// The memory of a list's items, where there is an item at this index.
fn cell_in(
    alloc: Global,
    list: u32,
    t: &Typed,
    vs: &[Const],
    d: &mut Design,
) -> Result<(u32, Kind), Fault<Code>>
    ensures { Grows (spec.cell_in list t.now vs.now d.old) result d.new }
{
    match vs {
        [] => Err(Fault::Broken(Code::E4BadRange)),
        _ => {
            let m = memory(alloc, list, vs, d)?;
            index_at(vs.len(), t)?;
            Ok(m)
        }
    }
}

/// The memory of a list, and its kind, where the list has an element at this index.
pub fn cell(
    alloc: Global,
    s: &Scope,
    list: u32,
    t: &Typed,
    d: &mut Design,
) -> Result<(u32, Kind), Fault<Code>>
    ensures { Grows (spec.cell s.now list t.now d.old) result d.new }
{
    match s.list(list) {
        Some(items) => cell_in(alloc, list, t, items.as_slice(), d),
        None => Err(Fault::Broken(Code::E10KindClash)),
    }
}

/// The element of a list at an index.
pub(crate) fn element(
    alloc: Global,
    s: &Scope,
    list: u32,
    t: Typed,
    d: &mut Design,
) -> Result<Typed, Fault<Code>>
    ensures { Grows (spec.element s.now list t d.old) result d.new }
{
    let m = cell(alloc, s, list, &t, d)?;
    Ok(declared(GExpr::Element(m.0, Boxed::new(alloc, t.expr)?), m.1))
}

/// An integer of a tuple.
#[tactic(auto, using(mh_consts::proofs::Values::values))]
fn integer_in(v: &Const) -> Option<i128>
    ensures { result ≡ spec.integer_step (out-Const v.now) }
{
    match v {
        Const::Int(n) => Some(*n),
        _ => None,
    }
}

/// The integers of a tuple, if it holds nothing else.
fn integers_of(alloc: Global, vs: &[Const]) -> Result<Option<Items<i128>>, Memory>
    ensures { IfOk result (λ zs. zs ≡ spec.integers_onto [] vs.now) }
{
    let mut all = Items::new(alloc);
    for v in vs {
        match integer_in(v) {
            Some(n) => all.push(n)?,
            None => return Ok(None),
        }
    }
    Ok(Some(all))
}

/// Whether two lists of integers are equal.
#[tactic(auto, using(crate::proofs::Integers::integers))]
fn same_integers(a: &[i128], b: &[i128]) -> bool
    ensures { result ≡ spec.same_integers a.now b.now }
{
    let mut rest = b;
    for x in a {
        match rest {
            [y, more @ ..] => {
                if *x != *y {
                    return false;
                }
                rest = more;
            }
            [] => return false,
        }
    }
    rest.is_empty()
}

/// The place of the table with these elements among all.
fn table_of(tables: &[TableDecl], values: &[i128]) -> Option<usize>
    ensures { result ≡ position (λ x. spec.same_integers x.values values.now) tables.now }
{
    tables
        .iter()
        .position(|t| same_integers(t.values.as_slice(), values))
}

/// A table more.
fn new_table(alloc: Global, d: &mut Design, values: Items<i128>) -> Result<u32, Fault<Code>>
    ensures { Grows (Ok (length d.old.tables, spec.new_table d.old values)) result d.new }
{
    let number = d.tables.len();
    if number >= 1 << 32 {
        return Err(Fault::Memory);
    }
    d.tables.push(TableDecl {
        path: Text::new(alloc, b"")?,
        values,
    })?;
    Ok(number as u32)
}

/// The number of the table with these elements.
fn table(alloc: Global, values: Items<i128>, d: &mut Design) -> Result<u32, Fault<Code>>
    ensures { Grows (spec.table values d.old) result d.new }
{
    match table_of(d.tables.as_slice(), values.as_slice()) {
        Some(n) => {
            if n < 1 << 32 {
                Ok(n as u32)
            } else {
                Err(Fault::Memory)
            }
        }
        None => new_table(alloc, d, values),
    }
}

/// The element of a table at an index.
fn table_element(
    alloc: Global,
    values: Items<i128>,
    t: Typed,
    d: &mut Design,
) -> Result<Typed, Fault<Code>>
    ensures { Grows (spec.table_element values t d.old) result d.new }
{
    index_at(values.len(), &t)?;
    let n = table(alloc, values, d)?;
    Ok(integer(GExpr::TableElement(n, Boxed::new(alloc, t.expr)?)))
}

/// The item of a tuple at a constant place.
pub fn place_in(vs: &[Const], i: Option<i128>) -> Result<&Const, Code>
    ensures { lent result ≡ spec.place_in vs.now i }
{
    match i {
        None => Err(Code::E10KindClash),
        Some(i) => {
            if i < 0 || i >= vs.len() as i128 {
                return Err(Code::E4BadRange);
            }
            match at(vs, i as usize) {
                Some(v) => Ok(v),
                None => Err(Code::E4BadRange),
            }
        }
    }
}

/// The item of a tuple that isn't a table, at a constant index.
fn item_of(vs: &[Const], t: &Typed, d: &mut Design) -> Result<Typed, Fault<Code>>
    ensures { Grows (spec.item_of vs.now t.now d.old) result d.new }
{
    let v = place_in(vs, constant_of(&t.expr))?;
    Ok(leaf(false, v, d)?)
}

/// The element of a tuple at an index.
pub(crate) fn tuple_element(
    alloc: Global,
    vs: &[Const],
    t: Typed,
    d: &mut Design,
) -> Result<Typed, Fault<Code>>
    ensures { Grows (spec.tuple_element vs.now t d.old) result d.new }
{
    if vs.is_empty() {
        return Err(Fault::Broken(Code::E4BadRange));
    }
    match integers_of(alloc, vs)? {
        Some(values) => table_element(alloc, values, t, d),
        None => item_of(vs, &t, d),
    }
}
