// The designs that a source asks for.
ghost use Rattle.std.specs.Prelude.{◌≡◌, ◌≤◌, ◌∷◌, [], Some, IfOk, length, map, option_copied, slice_get};
ghost use Rattle.mh_plans.specs.Plans as spec;
ghost use Rattle.mh_consts.specs.declared.kinds.Const.{out-Const};
ghost use Rattle.mh_plans.specs.Order.{steps as steps_of};
ghost use Rattle.mh_plans.specs.Paths.{ports_in as signals_among};
ghost use Rattle.mh_plans.specs.Planned.{Plans, PlansAll, Planned};
ghost use Rattle.mh_plans.specs.Renumbered.{number_in};
ghost use Rattle.mh_plans.specs.View.{chosen_of};
ghost use Rattle.mh_world.specs.View.{world};

use crate::chosen::{Chosen, choose, generator_at, ports_of};
use crate::drawn::{enums_of, generators_in, mems_at, signals_of, tables_at};
use crate::numbers::Numbers;
use crate::order::{generators_of, steps};
use crate::paths::signal_in as signal_held;
use crate::renumbered::signal_in;
use crate::sizes::{MOST_GENERATORS, declarations_fit};
use mh_consts::{Const, Lists};
use mh_design::Design;
use mh_text::{Code, CodeAt, Fault, Memory, Text};
use mh_world::{Asked, Instance, State, Verb, refuse};
use sqlite_items::{Items, at};
use std::alloc::Global;

/// A request of the source, in order of execution.
#[derive(Clone, Copy, Debug, PartialEq, Eq)]
pub struct Request {
    pub verb: Verb,
    /// The place of the design among the designs.
    pub top: u32,
    /// The time up to which a run goes; 0 for a conversion.
    pub n: u64,
    /// The line of the statement.
    pub line: u32,
}

/// What a source comes to.
#[derive(Drop)]
pub struct Elaborated {
    /// One design for each instance that a request names, in order of its first request.
    pub tops: Items<Design>,
    /// The requests, in order of execution.
    pub requests: Items<Request>,
}

/// Whether a list holds signals.
fn holds_signals(vs: &[Const]) -> bool
    ensures { result ≡ spec.holds_signals vs.now }
{
    for v in vs {
        match signal_held(v) {
            Some(_) => return true,
            None => (),
        }
    }
    false
}

/// Whether a value is a list that holds signals.
#[tactic(auto, using(mh_consts::proofs::Values::values))]
fn is_listed(lists: &Lists, v: &Const) -> bool
    ensures { result ≡ spec.is_listed_in lists.now (out-Const v.now) }
{
    match v {
        Const::List(n) => match lists.get(*n) {
            Some(items) => holds_signals(items.as_slice()),
            None => false,
        },
        _ => false,
    }
}

/// The parameters whose argument is a list that holds signals.
fn listed_in(
    alloc: Global,
    lists: &Lists,
    arguments: &[(Text, Const)],
) -> Result<Items<Text>, Memory>
    ensures { IfOk result (λ ts. ts ≡ spec.listed_among lists.now arguments.now) }
{
    let mut all = Items::new(alloc);
    for argument in arguments {
        if is_listed(lists, &argument.1) {
            all.push(argument.0.copy(alloc)?)?;
        }
    }
    Ok(all)
}

/// The numbers of the ports in the design.
fn ports_in(alloc: Global, k: &Chosen, ports: &[u32]) -> Result<Items<u32>, Memory>
    ensures { IfOk result (λ ns. ns ≡ map (number_in (chosen_of k.now).signals) ports.now) }
{
    let mut all = Items::new(alloc);
    for n in ports {
        all.push(signal_in(k, *n))?;
    }
    Ok(all)
}

/// The design of an instance, without its generators.
fn declared(
    alloc: Global,
    state: &State,
    top: u32,
    x: &Instance,
    ports: &[u32],
    k: &Chosen,
) -> Result<Design, Memory>
    requires { ports.now ≡ signals_among x.now.arguments }
    ensures { IfOk result (λ d. d ≡ spec.design_as (world state.now) top x.now (chosen_of k.now)) }
{
    let arguments = x.arguments.as_slice();
    Ok(Design {
        name: x.name.copy(alloc)?,
        ports: ports_in(alloc, k, ports)?,
        signals: signals_of(alloc, state, top, arguments, k.signals.as_slice())?,
        mems: mems_at(alloc, state, top, k, k.mems.as_slice())?,
        tables: tables_at(alloc, state, top, k.tables.as_slice())?,
        enums: enums_of(alloc, state.design.enums.as_slice())?,
        generators: Items::new(alloc),
        listed: listed_in(alloc, &state.scope.lists, arguments)?,
        line: x.line,
    })
}

/// How many generators have a number: 1 or none.
#[tactic(auto, using(crate::proofs::ReadLaws::read_laws))]
fn made_at(state: &State, g: u32) -> usize
    ensures count { result ≡ length (spec.reads_at (world state.now) (g ∷ [])) }
    ensures at_most { result ≤ 1 }
{
    match generator_at(state, g) {
        Some(_) => 1,
        None => 0,
    }
}

/// How many of these generators there are.
fn made_count(state: &State, gs: &[u32]) -> usize
    ensures { result ≡ length (spec.reads_at (world state.now) gs.now) }
{
    let mut count = 0;
    for g in gs {
        count += made_at(state, *g);
    }
    count
}

/// The design of an instance that leads to these generators, of which there aren't too many.
fn design_with(
    alloc: Global,
    state: &State,
    top: u32,
    x: &Instance,
    gs: &[u32],
) -> Result<Design, Fault<CodeAt>>
    requires { length (spec.reads_at (world state.now) gs.now) ≤ 1024 }
    ensures { Planned (spec.fitting (spec.plan_with (world state.now) top x.now (spec.reads_at (world state.now) gs.now))) result }
{
    let ports = ports_of(alloc, x.arguments.as_slice())?;
    let k = choose(alloc, state, ports.as_slice(), gs)?;
    let mut d = declared(alloc, state, top, x, ports.as_slice(), &k)?;
    let fits = declarations_fit(alloc, &d)?;
    if !fits {
        return refuse(Code::E9SizeLimit, 0);
    }
    let generators = generators_in(alloc, state, top, &k, gs)?;
    d.generators = generators;
    Ok(d)
}

/// The design of an instance.
fn design_of(
    alloc: Global,
    state: &State,
    most: u64,
    top: u32,
    x: &Instance,
) -> Result<Design, Fault<CodeAt>>
    requires { most ≡ steps_of (world state.now).instances }
    ensures { Planned (spec.fitting (spec.plan (world state.now) top x.now)) result }
{
    let gs = generators_of(alloc, state, most, top)?;
    let count = made_count(state, gs.as_slice());
    if count > MOST_GENERATORS {
        return refuse(Code::E9SizeLimit, 0);
    }
    design_with(alloc, state, top, x, gs.as_slice())
}

/// The instances that requests name, in order of first request.
fn tops_of(alloc: Global, state: &State) -> Result<Numbers, Memory>
    ensures { IfOk result (λ ts. ts ≡ spec.tops (world state.now)) }
{
    let mut all = Numbers::new(alloc);
    let requests = state.requests.as_slice();
    for asked in requests {
        all.add(asked.instance)?;
    }
    Ok(all)
}

/// The design of an instance, alone.
fn one_design(
    alloc: Global,
    state: &State,
    most: u64,
    top: u32,
    x: &Instance,
) -> Result<Items<Design>, Fault<CodeAt>>
    requires { most ≡ steps_of (world state.now).instances }
    ensures { PlansAll (spec.plan_at (world state.now) top (Some x.now)) result }
{
    let d = design_of(alloc, state, most, top, x)?;
    let mut all = Items::new(alloc);
    all.push(d)?;
    Ok(all)
}

/// The instance of a number, lent.
fn instance_at<'s>(state: &'s State, top: u32) -> Option<&'s Instance>
    ensures { option_copied result ≡ slice_get (world state.now).instances top }
{
    at(state.instances.as_slice(), top as usize)
}

/// The design of the instance of a number, if there is one.
fn designs_at(
    alloc: Global,
    state: &State,
    most: u64,
    top: u32,
) -> Result<Items<Design>, Fault<CodeAt>>
    requires { most ≡ steps_of (world state.now).instances }
    ensures { PlansAll (spec.plan_at (world state.now) top (slice_get (world state.now).instances top)) result }
{
    match instance_at(state, top) {
        Some(x) => one_design(alloc, state, most, top, x),
        None => Ok(Items::new(alloc)),
    }
}

/// The designs of these instances.
fn designs_of(alloc: Global, state: &State, tops: &[u32]) -> Result<Items<Design>, Fault<CodeAt>>
    ensures { PlansAll (spec.plans_of (world state.now) tops.now) result }
{
    let most = steps(state.instances.as_slice())?;
    let mut all = Items::new(alloc);
    for top in tops {
        let more = designs_at(alloc, state, most, *top)?;
        all.append(more)?;
    }
    Ok(all)
}

/// A request, with the place of its design.
fn request_of(tops: &Numbers, asked: &Asked) -> Request
    ensures { result ≡ spec.request_of tops.now asked.now }
{
    Request {
        verb: asked.verb,
        top: tops.place(asked.instance),
        n: asked.n as u64,
        line: asked.line,
    }
}

/// The requests, with the places of their designs.
fn requests_of(alloc: Global, state: &State, tops: &Numbers) -> Result<Items<Request>, Memory>
    ensures { IfOk result (λ rs. rs ≡ map (spec.request_of tops.now) (world state.now).requests) }
{
    let mut all = Items::new(alloc);
    let requests = state.requests.as_slice();
    for asked in requests {
        all.push(request_of(tops, asked))?;
    }
    Ok(all)
}

/// The designs and requests of what a source has made; or that the first design that is too large is
/// refused, which has no line.
pub fn plans(alloc: Global, state: &State) -> Result<Elaborated, Fault<CodeAt>>
    ensures { Plans (spec.plans (world state.now)) result }
{
    let tops = tops_of(alloc, state)?;
    let designs = designs_of(alloc, state, tops.as_slice())?;
    let requests = requests_of(alloc, state, &tops)?;
    Ok(Elaborated {
        tops: designs,
        requests,
    })
}
