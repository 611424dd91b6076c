// The things of a design, with their names.
ghost use Rattle.std.specs.Prelude.{◌≡◌, IfOk, map};
ghost use Rattle.mh_plans.specs.Paths.{table_path};
ghost use Rattle.mh_plans.specs.Plans as spec;
ghost use Rattle.mh_plans.specs.Renumbered.{number_in};
ghost use Rattle.mh_plans.specs.Planned.{drawn_of};
ghost use Rattle.mh_plans.specs.View.{chosen_of};
ghost use Rattle.mh_world.specs.View.{world, made_of};

use crate::chosen::{Chosen, generator_at};
use crate::paths::{generator_path, list_label, path_of, signal_path, tuple_label};
use crate::renumbered::{block_in, kind_in, signal_in};
use mh_consts::Const;
use mh_design::{EnumDecl, Generator, Local, MemDecl, SignalDecl, TableDecl};
use mh_text::{Memory, Text};
use mh_world::{Made, State};
use sqlite_items::Items;
use std::alloc::Global;

/// A signal with its path.
fn with_path(x: &SignalDecl, path: Text) -> SignalDecl
    ensures { result ≡ record x.now { path = path } }
{
    SignalDecl {
        path,
        kind: x.kind,
        init: x.init,
        reset: x.reset,
        line: x.line,
    }
}

/// The signals of a design: these.
pub(crate) fn signals_of(
    alloc: Global,
    state: &State,
    top: u32,
    arguments: &[(Text, Const)],
    ns: &[u32],
) -> Result<Items<SignalDecl>, Memory>
    ensures { IfOk result (λ all. all ≡ spec.signals_of (world state.now) top arguments.now ns.now) }
{
    let mut all = Items::new(alloc);
    for n in ns {
        match state.design.signals.get(*n as usize) {
            Some(x) => all.push(with_path(x, signal_path(alloc, state, top, arguments, *n)?))?,
            None => (),
        }
    }
    Ok(all)
}

/// The numbers in the design of the elements of a memory.
fn cells_of(alloc: Global, k: &Chosen, cells: &[u32]) -> Result<Items<u32>, Memory>
    ensures { IfOk result (λ ns. ns ≡ map (number_in (chosen_of k.now).signals) cells.now) }
{
    let mut all = Items::new(alloc);
    for n in cells {
        all.push(signal_in(k, *n))?;
    }
    Ok(all)
}

/// The line of a list.
fn list_line(state: &State, n: u32) -> u32
    ensures { result ≡ spec.list_line (world state.now) n }
{
    match state.marks.lists.get(n as usize) {
        Some(note) => note.line,
        None => 0,
    }
}

/// A memory of a design.
fn mem_of(
    alloc: Global,
    state: &State,
    top: u32,
    k: &Chosen,
    x: &MemDecl,
) -> Result<MemDecl, Memory>
    ensures { IfOk result (λ m. m ≡ spec.mem_of (world state.now) top (chosen_of k.now) x.now) }
{
    Ok(MemDecl {
        list: x.list,
        path: path_of(alloc, state, top, list_label(state, x.list))?,
        kind: x.kind,
        cells: cells_of(alloc, k, x.cells.as_slice())?,
        line: list_line(state, x.list),
    })
}

/// The memories of a design: these.
pub(crate) fn mems_at(
    alloc: Global,
    state: &State,
    top: u32,
    k: &Chosen,
    ms: &[u32],
) -> Result<Items<MemDecl>, Memory>
    ensures { IfOk result (λ all. all ≡ spec.mems_at (world state.now) top (chosen_of k.now) ms.now) }
{
    let mut all = Items::new(alloc);
    for m in ms {
        match state.design.mems.get(*m as usize) {
            Some(x) => all.push(mem_of(alloc, state, top, k, x)?)?,
            None => (),
        }
    }
    Ok(all)
}

/// A table of a design.
fn table_of(alloc: Global, state: &State, top: u32, x: &TableDecl) -> Result<TableDecl, Memory>
    ensures { IfOk result (λ t. t ≡ record x.now { path = table_path (world state.now) top x.now.values }) }
{
    let label = tuple_label(state.tuples.as_slice(), x.values.as_slice());
    Ok(TableDecl {
        path: path_of(alloc, state, top, label)?,
        values: Items::from_slice(alloc, x.values.as_slice())?,
    })
}

/// The tables of a design: these.
pub(crate) fn tables_at(
    alloc: Global,
    state: &State,
    top: u32,
    ts: &[u32],
) -> Result<Items<TableDecl>, Memory>
    ensures { IfOk result (λ all. all ≡ spec.tables_at (world state.now) top ts.now) }
{
    let mut all = Items::new(alloc);
    for t in ts {
        match state.design.tables.get(*t as usize) {
            Some(x) => all.push(table_of(alloc, state, top, x)?)?,
            None => (),
        }
    }
    Ok(all)
}

/// Names once more.
fn copy_names(alloc: Global, ts: &[Text]) -> Result<Items<Text>, Memory>
    ensures { IfOk result (λ all. all ≡ ts.now) }
{
    let mut all = Items::new(alloc);
    for t in ts {
        all.push(t.copy(alloc)?)?;
    }
    Ok(all)
}

/// The enums once more.
pub(crate) fn enums_of(alloc: Global, enums: &[EnumDecl]) -> Result<Items<EnumDecl>, Memory>
    ensures { IfOk result (λ all. all ≡ enums.now) }
{
    let mut all = Items::new(alloc);
    for x in enums {
        all.push(EnumDecl {
            names: copy_names(alloc, x.names.as_slice())?,
            encoding: x.encoding,
        })?;
    }
    Ok(all)
}

/// The locals once more.
fn locals_of(alloc: Global, locals: &[Local]) -> Result<Items<Local>, Memory>
    ensures { IfOk result (λ all. all ≡ locals.now) }
{
    let mut all = Items::new(alloc);
    for x in locals {
        all.push(Local {
            name: x.name.copy(alloc)?,
            kind: x.kind,
        })?;
    }
    Ok(all)
}

/// A generator of a design.
fn generator_of(
    alloc: Global,
    state: &State,
    top: u32,
    k: &Chosen,
    made: &Made,
) -> Result<Generator, Memory>
    ensures { IfOk result (λ g. drawn_of g ≡ spec.drawn (world state.now) top (chosen_of k.now) (made_of made.now)) }
{
    let g = &made.generator;
    let path = generator_path(alloc, state, top, made)?;
    let kind = kind_in(alloc, k, &g.kind)?;
    let locals = locals_of(alloc, g.locals.as_slice())?;
    Ok(Generator {
        path,
        line: g.line,
        kind,
        locals,
        body: block_in(alloc, k, g.body.as_slice())?,
    })
}

/// The generators of a design.
#[tactic(auto, using(crate::proofs::ReadLaws::read_laws))]
pub(crate) fn generators_in(
    alloc: Global,
    state: &State,
    top: u32,
    k: &Chosen,
    gs: &[u32],
) -> Result<Items<Generator>, Memory>
    ensures { IfOk result (λ all. map drawn_of all ≡ map (spec.drawn (world state.now) top (chosen_of k.now)) (spec.reads_at (world state.now) gs.now)) }
{
    let mut all = Items::new(alloc);
    for g in gs {
        match generator_at(state, *g) {
            Some(made) => all.push(generator_of(alloc, state, top, k, made)?)?,
            None => (),
        }
    }
    Ok(all)
}
