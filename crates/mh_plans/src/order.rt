// Which generators a top instance leads to, and in which order.
ghost use Rattle.std.specs.Prelude.{◌≡◌, [], false, drop, option_copied, slice_get, IfOk, OnOk};
ghost use Rattle.mh_consts.specs.declared.kinds.Const.{out-Const};
ghost use Rattle.mh_plans.specs.Order as spec;
ghost use Rattle.mh_plans.specs.Walks.{parts_ahead, walk_of};
ghost use Rattle.mh_world.specs.View.{world};

use crate::numbers::Numbers;
use mh_consts::Const;
use mh_text::Memory;
use mh_world::{Instance, State};
use std::alloc::Global;

/// What is still to be met, the instances that were met, and the generators that were found.
#[derive(Drop)]
struct Walk<'w> {
    /// The parts that are still to be met, those that come next at the end.
    ahead: Vec<&'w [Const]>,
    met: Numbers,
    found: Numbers,
}

/// The part that comes next, if there is one.
#[tactic(auto, using(crate::proofs::WalkLaws::walk_laws))]
fn next<'w>(ahead: &mut Vec<&'w [Const]>) -> Result<Option<&'w Const>, Memory>
    ensures part { IfOk result (λ v. option_copied v ≡ slice_get (parts_ahead ahead.old.items) 0) }
    ensures rest { OnOk result (parts_ahead ahead.new.items ≡ drop 1 (parts_ahead ahead.old.items)) }
{
    while let Some(parts) = ahead.pop() {
        match parts {
            [] => (),
            [v, rest @ ..] => {
                ahead.push(rest)?;
                return Ok(Some(v));
            }
        }
    }
    Ok(None)
}

/// An instance is met: its parts come next, unless it was met before.
#[tactic(auto, using(crate::proofs::WalkLaws::walk_laws))]
fn meet_instance<'w>(walk: &mut Walk<'w>, instances: &'w [Instance], i: u32) -> Result<(), Memory>
    ensures { OnOk result (walk_of walk.new ≡ spec.met_instance instances.now i (walk_of walk.old).ahead (walk_of walk.old)) }
{
    if walk.met.has(i) {
        return Ok(());
    }
    walk.met.add(i)?;
    match instances.get(i as usize) {
        Some(x) => Ok(walk.ahead.push(x.parts.as_slice())?),
        None => Ok(()),
    }
}

/// A part is met.
#[tactic(auto, using(mh_consts::proofs::Values::values))]
fn visit<'w>(walk: &mut Walk<'w>, instances: &'w [Instance], v: &Const) -> Result<(), Memory>
    ensures { OnOk result (walk_of walk.new ≡ spec.visit instances.now (out-Const v.now) (walk_of walk.old).ahead (walk_of walk.old)) }
{
    match v {
        Const::Instance(i) => meet_instance(walk, instances, *i),
        Const::Generator(g) => walk.found.add(*g),
        _ => Ok(()),
    }
}

/// How many parts all instances have, and one more.
pub(crate) fn steps(instances: &[Instance]) -> Result<u64, Memory>
    ensures { IfOk result (λ n. n ≡ spec.steps instances.now) }
{
    let mut count: u64 = 1;
    for x in instances {
        match count.checked_add(x.parts.len() as u64) {
            Some(more) => count = more,
            None => return Err(Memory),
        }
    }
    Ok(count)
}

/// The part that comes next is met; whether there was one.
fn advance<'w>(walk: &mut Walk<'w>, instances: &'w [Instance]) -> Result<bool, Memory>
    ensures walk { OnOk result (walk_of walk.new ≡ spec.next instances.now (walk_of walk.old).ahead (walk_of walk.old)) }
    ensures ends { IfOk result (λ b. b ≡ false → (walk_of walk.old).ahead ≡ []) }
{
    let part = next(&mut walk.ahead)?;
    match part {
        None => Ok(false),
        Some(v) => {
            visit(walk, instances, v)?;
            Ok(true)
        }
    }
}

/// Goes over so many of the parts that are ahead.
#[tactic(auto, using(crate::proofs::WalkLaws::walk_laws))]
fn go<'w>(walk: &mut Walk<'w>, instances: &'w [Instance], most: u64) -> Result<(), Memory>
    ensures { OnOk result (walk_of walk.new ≡ spec.walk most instances.now (walk_of walk.old)) }
{
    for turn in 0..most {
        let more = advance(walk, instances)?;
        if !more {
            return Ok(());
        }
    }
    Ok(())
}

/// The numbers of the generators of the instance of a number, depth first, each once.
pub(crate) fn generators_of(
    alloc: Global,
    state: &State,
    most: u64,
    top: u32,
) -> Result<Numbers, Memory>
    requires { most ≡ spec.steps (world state.now).instances }
    ensures { IfOk result (λ gs. gs ≡ spec.generators_of (world state.now) top) }
{
    let ahead = Vec::new(alloc);
    let met = Numbers::new(alloc);
    let found = Numbers::new(alloc);
    let mut walk = Walk { ahead, met, found };
    let instances = state.instances.as_slice();
    meet_instance(&mut walk, instances, top)?;
    go(&mut walk, instances, most - 1)?;
    let Walk { found, .. } = walk;
    Ok(found)
}
