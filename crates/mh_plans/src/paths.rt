// What the things of a design are called.
ghost use Rattle.std.specs.Prelude.{◌≡◌, ◌++◌, true, IfOk, OnOk, is_some, option_and_then, option_copied, slice_get};
ghost use Rattle.mh_consts.specs.declared.kinds.Const.{out-Const};
ghost use Rattle.mh_plans.specs.Paths as spec;
ghost use Rattle.mh_world.specs.View.{world, made_of};

use mh_consts::{Const, Shared};
use mh_text::{Memory, Text};
use mh_world::{Instance, Label, Made, State};
use sqlite_items::Items;
use std::alloc::Global;

/// The first name bound to an instance, or else that of its block, lent.
fn instance_name(x: &Instance) -> &Text
    ensures { result.now ≡ spec.instance_name x.now }
{
    match &x.called {
        Some(t) => t,
        None => &x.name,
    }
}

/// Whether the top is this instance or one in which it was made, of which there are at most so many.
#[tactic(auto, using(crate::proofs::PathLaws::path_laws))]
fn is_within(instances: &[Instance], most: usize, top: u32, inside: Option<u32>) -> bool
    ensures { result ≡ is_some (spec.names_from most instances.now top inside) }
{
    if most == 0 {
        return false;
    }
    let Some(i) = inside else {
        return false;
    };
    if i == top {
        return true;
    }
    match instances.get(i as usize) {
        Some(x) => is_within(instances, most - 1, top, x.outer),
        None => is_within(instances, most - 1, top, None),
    }
}

/// The names of the instances from the top down to one, each with `_` behind it.
#[tactic(auto, using(crate::proofs::PathLaws::path_laws))]
fn push_names(
    words: &mut Vec<u8>,
    instances: &[Instance],
    most: usize,
    top: u32,
    inside: Option<u32>,
) -> Result<(), Memory>
    requires { is_some (spec.names_from most instances.now top inside) ≡ true }
    ensures { OnOk result (words.new.items ≡ words.old.items ++ spec.words_before (spec.names_from most instances.now top inside)) }
{
    let Some(i) = inside else {
        return Ok(());
    };
    if most == 0 || i == top {
        return Ok(());
    }
    match instances.get(i as usize) {
        Some(x) => {
            push_names(words, instances, most - 1, top, x.outer)?;
            words.extend_from_slice(instance_name(x).bytes())?;
            words.push(b'_')?;
            Ok(())
        }
        None => Ok(()),
    }
}

/// A name with those of the instances from the top down to the one in which it was bound before it.
#[tactic(auto, using(crate::proofs::PathLaws::path_laws))]
pub(crate) fn path_in(
    alloc: Global,
    state: &State,
    top: u32,
    inside: Option<u32>,
    name: &Text,
) -> Result<Text, Memory>
    ensures { IfOk result (λ t. t ≡ spec.joined (spec.names_before (world state.now) top inside) name.now) }
{
    let instances = state.instances.as_slice();
    let Some(most) = instances.len().checked_add(1) else {
        return Err(Memory);
    };
    let mut words = Vec::new(alloc);
    if is_within(instances, most, top, inside) {
        push_names(&mut words, instances, most, top, inside)?;
    }
    words.extend_from_slice(name.bytes())?;
    Text::new(alloc, words.as_slice())
}

/// The path of what a label names; what no name leads to has the empty path.
pub(crate) fn path_of(
    alloc: Global,
    state: &State,
    top: u32,
    label: Option<&Label>,
) -> Result<Text, Memory>
    ensures { IfOk result (λ t. t ≡ spec.path_of (world state.now) top (option_copied label.entry)) }
{
    match label {
        None => Text::new(alloc, b""),
        Some(p) => path_in(alloc, state, top, p.inside, &p.words),
    }
}

/// The signal that a value is.
#[tactic(auto, using(mh_consts::proofs::Values::values))]
pub(crate) fn signal_in(v: &Const) -> Option<u32>
    ensures { result ≡ spec.signal_in v.now }
{
    match v {
        Const::Signal(n, _) => Some(*n),
        _ => None,
    }
}

/// The label of a signal, lent.
fn signal_label<'s>(state: &'s State, n: u32) -> Option<&'s Label>
    ensures { option_copied result ≡ spec.no_label (slice_get (world state.now).marks.signals n) }
{
    match state.marks.signals.get(n as usize) {
        Some(label) => label.as_ref(),
        None => None,
    }
}

/// The name of the first parameter whose argument is a signal, lent.
fn port_name<'p>(arguments: &'p [(Text, Const)], n: u32) -> Option<&'p Text>
    ensures { option_copied result ≡ spec.port_name arguments.now n }
{
    for argument in arguments {
        if signal_in(&argument.1) == Some(n) {
            return Some(&argument.0);
        }
    }
    None
}

/// The path of a signal.
pub(crate) fn signal_path(
    alloc: Global,
    state: &State,
    top: u32,
    arguments: &[(Text, Const)],
    n: u32,
) -> Result<Text, Memory>
    ensures { IfOk result (λ t. t ≡ spec.signal_path (world state.now) top arguments.now n) }
{
    match port_name(arguments, n) {
        Some(name) => name.copy(alloc),
        None => path_of(alloc, state, top, signal_label(state, n)),
    }
}

/// The label of a list, lent.
pub(crate) fn list_label<'s>(state: &'s State, n: u32) -> Option<&'s Label>
    ensures { option_copied result ≡ option_and_then (λ x. x.label) (slice_get (world state.now).marks.lists n) }
{
    match state.marks.lists.get(n as usize) {
        Some(note) => note.label.as_ref(),
        None => None,
    }
}

/// Whether a value is this integer.
#[tactic(auto, using(mh_consts::proofs::Values::values))]
fn is_integer(v: &Const, z: i128) -> bool
    ensures { result ≡ spec.is_integer z (out-Const v.now) }
{
    match v {
        Const::Int(n) => *n == z,
        _ => false,
    }
}

/// Whether the items of a tuple are these integers.
fn are_these(items: &[Const], zs: &[i128]) -> bool
    ensures { result ≡ spec.are_these zs.now items.now }
{
    let mut rest = zs;
    for v in items {
        match rest {
            [] => return false,
            [z, more @ ..] => {
                if !is_integer(v, *z) {
                    return false;
                }
                rest = more;
            }
        }
    }
    rest.is_empty()
}

/// The label of the first name that was bound to a tuple of these integers, lent.
pub(crate) fn tuple_label<'t>(
    tuples: &'t [(Shared<Items<Const>>, Label)],
    zs: &[i128],
) -> Option<&'t Label>
    ensures { option_copied result ≡ spec.tuple_label tuples.now zs.now }
{
    for t in tuples {
        if are_these(t.0.get().as_slice(), zs) {
            return Some(&t.1);
        }
    }
    None
}

/// The path of a generator.
pub(crate) fn generator_path(
    alloc: Global,
    state: &State,
    top: u32,
    g: &Made,
) -> Result<Text, Memory>
    ensures { IfOk result (λ t. t ≡ spec.generator_path (world state.now) top (made_of g.now)) }
{
    path_in(alloc, state, top, g.inside, &g.generator.path)
}
