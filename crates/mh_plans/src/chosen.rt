// The signals, memories and tables of a design.
ghost use Rattle.std.specs.Prelude.{◌≡◌, ◌||◌, ◌∷◌, ℕ, List, [], IfOk, OnOk, option_copied, slice_get};
ghost use Rattle.std.specs.Option.{option_map};
ghost use Rattle.std.specs.BTreeSet.{contains};
ghost use Rattle.std.specs.Ordering.{nat_cmp};
ghost use Rattle.mh_plans.specs.Order.{is_in};
ghost use Rattle.mh_plans.specs.Paths.{ports_in};
ghost use Rattle.mh_plans.specs.Plans as spec;
ghost use Rattle.mh_plans.specs.View.{chosen_of};
ghost use Rattle.mh_world.specs.View.{made_of, world};

use crate::marks::{add_all, add_in_order};
use crate::numbers::Numbers;
use crate::paths::signal_in;
use crate::used::{indexed_in, start_signals, stated_in};
use mh_consts::Const;
use mh_design::{Design, drives, reads};
use mh_text::{Memory, Text};
use mh_world::{Made, State};
use sqlite_items::{Items, at};
use std::alloc::Global;
use std::collections::BTreeSet;

/// The signals, memories and tables of a design, in its order, by their numbers in the elaboration.
#[derive(Drop)]
pub(crate) struct Chosen {
    pub signals: Numbers,
    pub mems: Numbers,
    pub tables: Numbers,
}

/// What generators use, by the numbers of the elaboration.
#[derive(Drop)]
struct Used {
    signals: BTreeSet<u32>,
    mems: BTreeSet<u32>,
    tables: BTreeSet<u32>,
}

/// The signals among the arguments of the top, in order.
pub(crate) fn ports_of(alloc: Global, arguments: &[(Text, Const)]) -> Result<Items<u32>, Memory>
    ensures { IfOk result (λ ns. ns ≡ ports_in arguments.now) }
{
    let mut all = Items::new(alloc);
    for argument in arguments {
        if let Some(n) = signal_in(&argument.1) {
            all.push(n)?;
        }
    }
    Ok(all)
}

/// Adds the signals that a generator uses: those that it waits for in its body are these.
fn use_signals(
    alloc: Global,
    used: &mut BTreeSet<u32>,
    d: &Design,
    made: &Made,
    waited: &[u32],
) -> Result<(), Memory>
    requires { waited.now ≡ spec.waited_in (made_of made.now) }
    ensures { OnOk result ((n : ℕ) → contains nat_cmp used.new n ≡ (contains nat_cmp used.old n || is_in (spec.signals_used d.now (made_of made.now)) n)) }
{
    let read = reads(alloc, d, &made.generator)?;
    add_all(used, read.as_slice())?;
    let driven = drives(alloc, d, &made.generator)?;
    add_all(used, driven.as_slice())?;
    add_all(used, waited)?;
    let started = start_signals(alloc, &made.generator.kind)?;
    add_all(used, started.as_slice())?;
    Ok(())
}

/// Adds what a generator uses.
fn use_generator(alloc: Global, used: &mut Used, d: &Design, made: &Made) -> Result<(), Memory>
    ensures signals { OnOk result ((n : ℕ) → contains nat_cmp used.new.signals n ≡ (contains nat_cmp used.old.signals n || is_in (spec.signals_used d.now (made_of made.now)) n)) }
    ensures mems { OnOk result ((n : ℕ) → contains nat_cmp used.new.mems n ≡ (contains nat_cmp used.old.mems n || is_in (spec.mems_used (made_of made.now)) n)) }
    ensures tables { OnOk result ((n : ℕ) → contains nat_cmp used.new.tables n ≡ (contains nat_cmp used.old.tables n || is_in (spec.tables_used (made_of made.now)) n)) }
{
    let body = made.generator.body.as_slice();
    let indexed = indexed_in(alloc, body)?;
    let stated = stated_in(alloc, body)?;
    use_signals(alloc, &mut used.signals, d, made, stated.signals.as_slice())?;
    add_all(&mut used.mems, indexed.mems.as_slice())?;
    add_all(&mut used.mems, stated.mems.as_slice())?;
    add_all(&mut used.tables, indexed.tables.as_slice())?;
    Ok(())
}

/// The generator of a number, lent.
#[tactic(auto, using(crate::proofs::ReadLaws::read_laws))]
pub(crate) fn generator_at<'s>(state: &'s State, g: u32) -> Option<&'s Made>
    ensures { option_map made_of (option_copied result) ≡ slice_get (world state.now).generators g }
{
    at(state.generators.as_slice(), g as usize)
}

/// Adds what the generator of a number uses, if there is one.
fn use_number(alloc: Global, used: &mut Used, state: &State, g: u32) -> Result<(), Memory>
    ensures signals { OnOk result ((n : ℕ) → contains nat_cmp used.new.signals n ≡ (contains nat_cmp used.old.signals n || is_in (spec.all_signals_used (world state.now) (spec.reads_at (world state.now) (g ∷ []))) n)) }
    ensures mems { OnOk result ((n : ℕ) → contains nat_cmp used.new.mems n ≡ (contains nat_cmp used.old.mems n || is_in (spec.all_mems_used (spec.reads_at (world state.now) (g ∷ []))) n)) }
    ensures tables { OnOk result ((n : ℕ) → contains nat_cmp used.new.tables n ≡ (contains nat_cmp used.old.tables n || is_in (spec.all_tables_used (spec.reads_at (world state.now) (g ∷ []))) n)) }
{
    match generator_at(state, g) {
        Some(made) => use_generator(alloc, used, &state.design, made),
        None => Ok(()),
    }
}

/// What these generators use.
fn use_all(alloc: Global, state: &State, gs: &[u32]) -> Result<Used, Memory>
    ensures signals { IfOk result (λ used. (n : ℕ) → contains nat_cmp used.signals n ≡ is_in (spec.all_signals_used (world state.now) (spec.reads_at (world state.now) gs.now)) n) }
    ensures mems { IfOk result (λ used. (n : ℕ) → contains nat_cmp used.mems n ≡ is_in (spec.all_mems_used (spec.reads_at (world state.now) gs.now)) n) }
    ensures tables { IfOk result (λ used. (n : ℕ) → contains nat_cmp used.tables n ≡ is_in (spec.all_tables_used (spec.reads_at (world state.now) gs.now)) n) }
{
    let mut used = Used {
        signals: BTreeSet::new(alloc),
        mems: BTreeSet::new(alloc),
        tables: BTreeSet::new(alloc),
    };
    for g in gs {
        use_number(alloc, &mut used, state, *g)?;
    }
    Ok(used)
}

/// The ports, each once, and then the other signals that are used, in order of creation.
fn signals_from(
    alloc: Global,
    ports: &[u32],
    used: &BTreeSet<u32>,
    count: usize,
) -> Result<Numbers, Memory>
    ensures { (others : List ℕ) → ((n : ℕ) → contains nat_cmp used.now n ≡ is_in others n) → IfOk result (λ ns. ns ≡ spec.signals_from ports.now (spec.used_below count others)) }
{
    let mut signals = Numbers::new(alloc);
    signals.add_all(ports)?;
    add_in_order(&mut signals, used, count)?;
    Ok(signals)
}

/// Those of a set, in order.
fn in_order(alloc: Global, used: &BTreeSet<u32>, count: usize) -> Result<Numbers, Memory>
    ensures { (others : List ℕ) → ((n : ℕ) → contains nat_cmp used.now n ≡ is_in others n) → IfOk result (λ ns. ns ≡ spec.used_below count others) }
{
    let mut numbers = Numbers::new(alloc);
    add_in_order(&mut numbers, used, count)?;
    Ok(numbers)
}

/// The signals, memories and tables of the design whose ports and generators are these.
pub(crate) fn choose(
    alloc: Global,
    state: &State,
    ports: &[u32],
    gs: &[u32],
) -> Result<Chosen, Memory>
    ensures { IfOk result (λ k. chosen_of k ≡ spec.chosen (world state.now) ports.now (spec.reads_at (world state.now) gs.now)) }
{
    let used = use_all(alloc, state, gs)?;
    let signals = signals_from(alloc, ports, &used.signals, state.design.signals.len())?;
    let mems = in_order(alloc, &used.mems, state.design.mems.len())?;
    let tables = in_order(alloc, &used.tables, state.design.tables.len())?;
    Ok(Chosen {
        signals,
        mems,
        tables,
    })
}
