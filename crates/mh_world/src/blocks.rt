// What a function under `@block` returns, and what `instances()` finds.
ghost use Rattle.std.specs.Prelude.{◌≡◌, ◌∷◌, [], Some, IfOk, OnOk, filter, map, slice_get};
ghost use Rattle.mh_consts.specs.Expression.{given_of, keys_of};
ghost use Rattle.mh_world.specs.Blocks as spec;
ghost use Rattle.mh_consts.specs.declared.kinds.Const.{out-Const};
ghost use Rattle.mh_consts.specs.declared.kinds.Const.TheVariants as c;
ghost use Rattle.mh_world.specs.Named.{items_of};
ghost use Rattle.mh_world.specs.Once.{IsOnce};
ghost use Rattle.mh_world.specs.World.{changed};
ghost use Rattle.mh_world.specs.View.{world, Does, same};

use crate::fault::refuse;
use crate::kinds::Instance;
use crate::state::State;
use mh_consts::{Const, Lists, Names};
use mh_pytree::Argument;
use mh_text::{Code, CodeAt, Fault, Memory};
use sqlite_items::Items;
use std::alloc::Global;
use std::collections::BTreeSet;

/// Whether a value is an instance or a generator.
#[tactic(auto, using(mh_consts::proofs::Values::values))]
fn is_part(v: &Const) -> bool
    ensures { result ≡ spec.is_part v.now }
{
    match v {
        Const::Instance(_) => true,
        Const::Generator(_) => true,
        _ => false,
    }
}

/// Instances and generators, each once, at its first place.
#[derive(Drop)]
struct Once {
    instances: BTreeSet<u32>,
    generators: BTreeSet<u32>,
    parts: Items<Const>,
}

/// Nothing yet.
fn nothing(alloc: Global) -> Once
    ensures once { IsOnce result }
    ensures parts { result.parts ≡ [] }
{
    Once {
        instances: BTreeSet::new(alloc),
        generators: BTreeSet::new(alloc),
        parts: Items::new(alloc),
    }
}

/// The parts alone.
fn parts_of(once: Once) -> Items<Const>
    ensures { result ≡ once.parts }
{
    let Once {
        instances: _,
        generators: _,
        parts,
    } = once;
    parts
}

/// An instance more, unless it was met before.
fn meet_instance(once: &mut Once, n: u32) -> Result<(), Memory>
    requires { IsOnce once.old }
    ensures once { OnOk result (IsOnce once.new) }
    ensures parts { OnOk result (once.new.parts ≡ spec.once_onto once.old.parts (c.Instance n ∷ [])) }
{
    if once.instances.insert(n)? {
        once.parts.push(Const::Instance(n))?;
    }
    Ok(())
}

/// A generator more, unless it was met before.
fn meet_generator(once: &mut Once, n: u32) -> Result<(), Memory>
    requires { IsOnce once.old }
    ensures once { OnOk result (IsOnce once.new) }
    ensures parts { OnOk result (once.new.parts ≡ spec.once_onto once.old.parts (c.Generator n ∷ [])) }
{
    if once.generators.insert(n)? {
        once.parts.push(Const::Generator(n))?;
    }
    Ok(())
}

/// An instance or a generator more, unless it was met before.
#[tactic(auto, using(mh_consts::proofs::Values::values))]
fn meet(once: &mut Once, v: &Const) -> Result<(), Memory>
    requires { IsOnce once.old }
    ensures once { OnOk result (IsOnce once.new) }
    ensures parts { OnOk result (once.new.parts ≡ spec.once_onto once.old.parts (filter spec.is_part (v.now ∷ []))) }
{
    match v {
        Const::Instance(n) => meet_instance(once, *n),
        Const::Generator(n) => meet_generator(once, *n),
        _ => Ok(()),
    }
}

/// The instances and generators among these more.
#[tactic(auto, using(crate::proofs::OnceLaws::onward))]
fn meet_all(once: &mut Once, us: &[Const]) -> Result<(), Memory>
    requires { IsOnce once.old }
    ensures once { OnOk result (IsOnce once.new) }
    ensures parts { OnOk result (once.new.parts ≡ spec.once_onto once.old.parts (filter spec.is_part us.now)) }
{
    for v in us {
        meet(once, v)?;
    }
    Ok(())
}

/// Whether all of these are instances and generators.
fn all_are_parts(vs: &[Const]) -> bool
    ensures { result ≡ spec.are_parts vs.now }
{
    for v in vs {
        if !is_part(v) {
            return false;
        }
    }
    true
}

/// The instances and generators that these are, if all are such.
#[tactic(auto, using(crate::proofs::OnceLaws::filter_all))]
fn all_parts(alloc: Global, vs: &[Const]) -> Result<Option<Items<Const>>, Memory>
    ensures { IfOk result (λ parts. parts ≡ spec.all_parts vs.now) }
{
    if !all_are_parts(vs) {
        return Ok(None);
    }
    let mut once = nothing(alloc);
    meet_all(&mut once, vs)?;
    Ok(Some(parts_of(once)))
}

/// One of these alone.
fn one_part(alloc: Global, v: &Const) -> Result<Option<Items<Const>>, Memory>
    ensures { IfOk result (λ parts. parts ≡ Some (v.now ∷ [])) }
{
    let mut parts = Items::new(alloc);
    parts.push(v.copy(alloc)?)?;
    Ok(Some(parts))
}

/// The items of a list, lent.
fn items_in(lists: &Lists, n: u32) -> &[Const]
    ensures { result.now ≡ items_of (slice_get lists.now n) }
{
    match lists.get(n) {
        Some(items) => items.as_slice(),
        None => &[],
    }
}

/// What is bound to a name: it, or what stands in it, where these are instances and generators.
#[tactic(auto, using(mh_consts::proofs::Values::values))]
fn meet_bound(once: &mut Once, lists: &Lists, v: &Const) -> Result<(), Memory>
    requires { IsOnce once.old }
    ensures once { OnOk result (IsOnce once.new) }
    ensures parts { OnOk result (once.new.parts ≡ spec.once_onto once.old.parts (spec.bound_in lists.now v.now (out-Const v.now))) }
{
    match v {
        Const::Instance(n) => meet_instance(once, *n),
        Const::Generator(n) => meet_generator(once, *n),
        Const::Tuple(items) => meet_all(once, items.get().as_slice()),
        Const::List(n) => meet_all(once, items_in(lists, *n)),
        _ => Ok(()),
    }
}

/// What is bound to names, in order of first binding.
#[tactic(auto, using(crate::proofs::Places::bound_step, crate::proofs::OnceLaws::onward))]
fn meet_names(once: &mut Once, lists: &Lists, names: &Names<Const>) -> Result<(), Memory>
    requires { IsOnce once.old }
    ensures once { OnOk result (IsOnce once.new) }
    ensures parts { OnOk result (once.new.parts ≡ spec.once_onto once.old.parts (spec.bound_parts lists.now names.now)) }
{
    let mut place: usize = 0;
    while let Some(v) = names.value_at(place) {
        meet_bound(once, lists, v)?;
        let Some(next) = place.checked_add(1) else {
            return Err(Memory);
        };
        place = next;
    }
    Ok(())
}

/// An instance once more, with other parts.
fn put_parts(instances: &mut Vec<Instance>, i: usize, parts: Items<Const>)
    ensures { instances.new.items ≡ changed (spec.put_parts parts) instances.old.items i }
{
    if i < instances.len() {
        instances[i].parts = parts;
    }
}

impl<'a> State<'a> {
    /// The instances and generators that a value is, or that stand in it.
    #[tactic(auto, using(mh_consts::proofs::Values::values))]
    fn parts_in(&self, alloc: Global, v: &Const) -> Result<Option<Items<Const>>, Memory>
        ensures { IfOk result (λ parts. parts ≡ spec.parts_of v.now (world self.now)) }
    {
        match v {
            Const::Instance(_) => one_part(alloc, v),
            Const::Generator(_) => one_part(alloc, v),
            Const::Tuple(items) => all_parts(alloc, items.get().as_slice()),
            Const::List(n) => all_parts(alloc, items_in(&self.scope.lists, *n)),
            _ => Ok(None),
        }
    }

    /// The instance of a number has returned a value, by the statement at a line.
    pub(crate) fn instance(
        &mut self,
        alloc: Global,
        line: u32,
        i: u32,
        v: &Const,
    ) -> Result<Const, Fault<CodeAt>>
        ensures { Does same (spec.instance line i v.now (world self.old)) result (world self.new) }
    {
        match self.parts_in(alloc, v)? {
            None => refuse(Code::E6BadReturn, line),
            Some(parts) => {
                put_parts(&mut self.instances, i as usize, parts);
                Ok(Const::Instance(i))
            }
        }
    }

    /// The instances and generators that are bound to names of the function that is being executed.
    fn instances_here(&self, alloc: Global) -> Result<Items<Const>, Memory>
        ensures { IfOk result (λ parts. parts ≡ spec.instances_here (world self.now)) }
    {
        let Some(frame) = self.frames.get(self.current as usize) else {
            return Ok(Items::new(alloc));
        };
        let mut once = nothing(alloc);
        meet_names(&mut once, &self.scope.lists, &frame.names)?;
        Ok(parts_of(once))
    }

    /// `instances()`
    pub(crate) fn find_instances(
        &mut self,
        alloc: Global,
        line: u32,
        arguments: &[Argument],
    ) -> Result<Const, Fault<CodeAt>>
        ensures { Does same (spec.find_instances line (keys_of (map given_of arguments.now)) (world self.old)) result (world self.new) }
    {
        match arguments {
            [] => {
                let parts = self.instances_here(alloc)?;
                self.new_list(line, parts)
            }
            [_, ..] => refuse(Code::E3BadArguments, line),
        }
    }
}
