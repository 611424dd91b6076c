// Whether a design is one that every later stage takes.
ghost use Rattle.std.specs.Prelude.{◌≡◌, map, length, Option, false, nat_lt};
ghost use Rattle.std.specs.Option.{option_map_or};
ghost use Rattle.std.specs.List.{list_all};
ghost use Rattle.mh_design.specs.Assigned.{all_below, is_assigned_first as assigned_first};
ghost use Rattle.mh_design.specs.Tree.{block, statement_of};
ghost use Rattle.mh_design.specs.WellFormed as spec;

use crate::assigned::is_assigned_first;
use crate::depth::block_is_within;
use crate::design::{
    Design, EnumDecl, GenKind, Generator, Kind, Local, MemDecl, SignalDecl, TableDecl, Wait,
};
use crate::enums::{enum_fits, is_item_code};
use crate::exits::block_exits_fit;
use crate::kinds::signal_kind;
use crate::sizes::sizes_fit;
use crate::statement::GStmt;
use crate::statements::{block_fits, is_bool_kind, wait_fits, waits_fit};
use mh_text::Text;

const DEEPEST: u32 = 200;

/// Letters, digits and `_` alone.
fn is_name(text: &[u8]) -> bool
    ensures { result ≡ spec.is_name text.now }
{
    for c in text {
        if !(c.is_ascii_alphanumeric() || *c == b'_') {
            return false;
        }
    }
    true
}

/// An enum that a kind names is there.
fn kind_fits(d: &Design, kind: Kind) -> bool
    ensures { result ≡ spec.kind_fits d.now kind }
{
    match kind {
        Kind::Bool => true,
        Kind::Int => true,
        Kind::Bits(_) => true,
        Kind::Item(e) => (e as usize) < d.enums.len(),
    }
}

/// `z` is the code of an item of the enum.
fn is_item_value(x: &EnumDecl, z: i128) -> bool
    ensures { result ≡ spec.is_item_value x.now z }
{
    enum_fits(x) && is_item_code(x.encoding, x.names.len(), z)
}

/// `z` is a value of the kind.
fn is_value(d: &Design, kind: Kind, z: i128) -> bool
    ensures { result ≡ spec.is_value d.now kind z }
{
    match kind {
        Kind::Bool => 0 <= z && z <= 1,
        Kind::Int => true,
        Kind::Bits(b) => b.lo <= z && z <= b.top,
        Kind::Item(e) => match d.enums.get(e as usize) {
            Some(x) => is_item_value(x, z),
            None => false,
        },
    }
}

/// A reset is a signal of truth values.
fn reset_fits(s: &SignalDecl) -> bool
    ensures { result ≡ spec.reset_fits s.now }
{
    match s.reset {
        Some(_) => is_bool_kind(s.kind),
        None => true,
    }
}

/// A signal is declared well.
fn signal_fits(d: &Design, s: &SignalDecl) -> bool
    ensures { result ≡ spec.signal_fits d.now s.now }
{
    is_name(s.path.bytes()) && kind_fits(d, s.kind) && is_value(d, s.kind, s.init) && reset_fits(s)
}

/// The kind as which the elements of a list are read, given that of those before.
pub fn met(a: Kind, b: Kind) -> Option<Kind>
    ensures { result ≡ spec.met a b }
{
    match a {
        Kind::Bool => match b {
            Kind::Bool => Some(Kind::Bool),
            Kind::Int => Some(Kind::Int),
            Kind::Bits(_) => Some(Kind::Int),
            Kind::Item(_) => None,
        },
        Kind::Int => match b {
            Kind::Bool => Some(Kind::Int),
            Kind::Int => Some(Kind::Int),
            Kind::Bits(_) => Some(Kind::Int),
            Kind::Item(_) => None,
        },
        Kind::Bits(_) => match b {
            Kind::Bool => Some(Kind::Int),
            Kind::Int => Some(Kind::Int),
            Kind::Bits(_) => Some(a),
            Kind::Item(_) => None,
        },
        Kind::Item(e) => match b {
            Kind::Bool => None,
            Kind::Int => None,
            Kind::Bits(_) => None,
            Kind::Item(f) => { if e == f { Some(a) } else { None } }
        },
    }
}

/// The kind as which elements are read, with one more.
pub fn met_next(d: &Design, kind: Option<Kind>, cell: u32) -> Option<Kind>
    ensures { result ≡ spec.met_next d.now kind cell }
{
    match kind {
        Some(a) => match signal_kind(d, cell) {
            Some(b) => met(a, b),
            None => None,
        },
        None => None,
    }
}

/// The kind as which elements are read, with more of them.
pub fn met_all(d: &Design, first: Option<Kind>, cells: &[u32]) -> Option<Kind>
    ensures { result ≡ spec.met_all d.now first cells.now }
{
    let mut kind = first;
    for cell in cells {
        kind = met_next(d, kind, *cell);
    }
    kind
}

/// The kind as which the elements of a list are read, or `None` where they have none in common.
pub fn cells_kind(d: &Design, cells: &[u32]) -> Option<Kind>
    ensures { result ≡ spec.cells_kind d.now cells.now }
{
    match cells {
        [] => None,
        [first, rest @ ..] => met_all(d, signal_kind(d, *first), rest),
    }
}

/// Two truth values are equal.
fn same_bool(a: bool, b: bool) -> bool
    ensures { result ≡ spec.same_bool a b }
{
    if a { b } else { !b }
}

/// Two kinds are equal.
fn same_kind(a: Kind, b: Kind) -> bool
    ensures { result ≡ spec.same_kind a b }
{
    match (a, b) {
        (Kind::Bool, Kind::Bool) => true,
        (Kind::Int, Kind::Int) => true,
        (Kind::Bits(b), Kind::Bits(c)) => {
            b.lo == c.lo && b.top == c.top && same_bool(b.wraps, c.wraps)
        }
        (Kind::Item(e), Kind::Item(f)) => e == f,
        _ => false,
    }
}

/// The kind of a memory is that of its elements.
fn kind_agrees(d: &Design, m: &MemDecl) -> bool
    ensures { result ≡ option_map_or (spec.same_kind m.now.kind) (spec.cells_kind d.now m.now.cells) false }
{
    match cells_kind(d, m.cells.as_slice()) {
        Some(k) => same_kind(m.kind, k),
        None => false,
    }
}

/// A memory is declared well.
fn mem_fits(d: &Design, m: &MemDecl) -> bool
    ensures { result ≡ spec.mem_fits d.now m.now }
{
    is_name(m.path.bytes()) && kind_agrees(d, m)
}

/// A table is declared well.
fn table_fits(t: &TableDecl) -> bool
    ensures { result ≡ spec.table_fits t.now }
{
    is_name(t.path.bytes()) && 0 < t.values.len()
}

/// A local is declared well.
fn local_fits(d: &Design, v: &Local) -> bool
    ensures { result ≡ spec.local_fits d.now v.now }
{
    is_name(v.name.bytes()) && kind_fits(d, v.kind)
}

/// An edge is waited for.
pub fn is_edge(wait: Wait) -> bool
    ensures { result ≡ spec.is_edge wait }
{
    match wait {
        Wait::Change(_) => false,
        Wait::Edge(_, _) => true,
        Wait::Delay(_) => false,
    }
}

/// A reset is declared as one.
pub fn is_reset(d: &Design, reset: Option<u32>) -> bool
    ensures { result ≡ spec.is_reset d.now reset }
{
    match reset {
        None => true,
        Some(r) => match d.signals.get(r as usize) {
            Some(s) => s.reset.is_some(),
            None => false,
        },
    }
}

/// What a generator waits for before it runs is there.
fn starts_fit(d: &Design, kind: &GenKind) -> bool
    ensures { result ≡ spec.starts_fit d.now kind.now }
{
    match kind {
        GenKind::Comb => true,
        GenKind::Always(waits) => waits_fit(d, waits.as_slice()),
        GenKind::Seq(wait, reset) => is_edge(*wait) && wait_fits(d, *wait) && is_reset(d, *reset),
        GenKind::Instance => true,
    }
}

/// An `@instance`.
fn is_instance(kind: &GenKind) -> bool
    ensures { result ≡ spec.is_instance kind.now }
{
    match kind {
        GenKind::Comb => false,
        GenKind::Always(_) => false,
        GenKind::Seq(_, _) => false,
        GenKind::Instance => true,
    }
}

/// Each of the locals is read only where each path has assigned it.
#[tactic(auto, using(crate::proofs::Below::below_laws))]
fn locals_are_assigned(locals: usize, body: &[GStmt]) -> bool
    ensures { result ≡ all_below locals (assigned_first (block (map statement_of body.now))) }
{
    for local in 0..locals {
        if !is_assigned_first(body, local) {
            return false;
        }
    }
    true
}

/// A body is well formed. Its depth is tested before anything goes down it.
fn body_fits(d: &Design, g: &Generator) -> bool
    ensures { result ≡ spec.body_fits d.now g.now }
{
    let body = g.body.as_slice();
    let locals = g.locals.as_slice();
    block_is_within(body, DEEPEST)
        && block_fits(d, locals, is_instance(&g.kind), body)
        && block_exits_fit(false, body)
        && locals_are_assigned(locals.len(), body)
}

/// The locals of a generator are declared well.
fn locals_fit(d: &Design, locals: &[Local]) -> bool
    ensures { result ≡ list_all (spec.local_fits d.now) locals.now }
{
    for v in locals {
        if !local_fits(d, v) {
            return false;
        }
    }
    true
}

/// A generator is well formed.
fn generator_fits(d: &Design, g: &Generator) -> bool
    ensures { result ≡ spec.generator_fits d.now g.now }
{
    is_name(g.path.bytes())
        && locals_fit(d, g.locals.as_slice())
        && starts_fit(d, &g.kind)
        && body_fits(d, g)
}

/// The generators are well formed.
fn generators_fit(d: &Design, generators: &[Generator]) -> bool
    ensures { result ≡ list_all (spec.generator_fits d.now) generators.now }
{
    for g in generators {
        if !generator_fits(d, g) {
            return false;
        }
    }
    true
}

/// The enums are declared well.
fn enums_fit(enums: &[EnumDecl]) -> bool
    ensures { result ≡ list_all spec.enum_fits enums.now }
{
    for x in enums {
        if !enum_fits(x) {
            return false;
        }
    }
    true
}

/// The signals are declared well.
fn signals_fit(d: &Design, signals: &[SignalDecl]) -> bool
    ensures { result ≡ list_all (spec.signal_fits d.now) signals.now }
{
    for s in signals {
        if !signal_fits(d, s) {
            return false;
        }
    }
    true
}

/// The memories are declared well.
fn mems_fit(d: &Design, mems: &[MemDecl]) -> bool
    ensures { result ≡ list_all (spec.mem_fits d.now) mems.now }
{
    for m in mems {
        if !mem_fits(d, m) {
            return false;
        }
    }
    true
}

/// The tables are declared well.
fn tables_fit(tables: &[TableDecl]) -> bool
    ensures { result ≡ list_all spec.table_fits tables.now }
{
    for t in tables {
        if !table_fits(t) {
            return false;
        }
    }
    true
}

/// What is declared is declared well.
fn declarations_fit(d: &Design) -> bool
    ensures { result ≡ spec.declarations_fit d.now }
{
    enums_fit(d.enums.as_slice())
        && signals_fit(d, d.signals.as_slice())
        && mems_fit(d, d.mems.as_slice())
        && tables_fit(d.tables.as_slice())
}

/// The ports are signals.
fn ports_fit(d: &Design, ports: &[u32]) -> bool
    ensures { result ≡ list_all (λ p. nat_lt p (length d.now.signals)) ports.now }
{
    for port in ports {
        if *port as usize >= d.signals.len() {
            return false;
        }
    }
    true
}

/// Letters, digits and `_` alone, in each of the texts.
fn are_names(texts: &[Text]) -> bool
    ensures { result ≡ list_all spec.is_name texts.now }
{
    for text in texts {
        if !is_name(text.bytes()) {
            return false;
        }
    }
    true
}

/// The names of the design fit.
fn names_fit(d: &Design) -> bool
    ensures { result ≡ spec.names_fit d.now }
{
    is_name(d.name.bytes()) && are_names(d.listed.as_slice())
}

/// The design is one that every later stage takes: exactly where each of the named rules holds.
/// Takes no memory. Time is linear in the design but for the locals of a generator, each of which
/// goes over its body once.
pub fn well_formed(d: &Design) -> bool
    ensures { result ≡ spec.is_well_formed d.now }
{
    names_fit(d)
        && sizes_fit(d)
        && ports_fit(d, d.ports.as_slice())
        && declarations_fit(d)
        && generators_fit(d, d.generators.as_slice())
}
