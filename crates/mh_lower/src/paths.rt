// Which locals every path that leads to a place has assigned.
ghost use Rattle.std.specs.Prelude.{false, ◌≡◌, IfOk, OnOk, map};
ghost use Rattle.mh_lower.specs.Paths.{no_kind};
ghost use Rattle.mh_lower.specs.Paths as spec;

use mh_design::Kind;
use mh_exprs::{Locals, Work};
use mh_text::{Memory, Text};
use sqlite_items::Items;
use std::alloc::Global;

/// What is assigned on both.
#[tactic(auto, using(crate::proofs::Pairs::pairs))]
fn on_both(alloc: Global, a: &[bool], b: &[bool]) -> Result<Items<bool>, Memory>
    ensures { IfOk result (λ both. both ≡ spec.on_both a.now b.now) }
{
    let mut both = Items::new(alloc);
    let mut rest = b;
    for x in a {
        match rest {
            [y, more @ ..] => {
                both.push(*x && *y)?;
                rest = more;
            }
            [] => return Ok(both),
        }
    }
    Ok(both)
}

/// The same paths once more.
pub(crate) fn copy(alloc: Global, p: &Option<Items<bool>>) -> Result<Option<Items<bool>>, Memory>
    ensures { IfOk result (λ q. q ≡ p.now) }
{
    match p {
        None => Ok(None),
        Some(assigned) => Ok(Some(Items::from_slice(alloc, assigned.as_slice())?)),
    }
}

/// Paths that come together.
pub(crate) fn meet(
    alloc: Global,
    p: Option<Items<bool>>,
    q: &Option<Items<bool>>,
) -> Result<Option<Items<bool>>, Memory>
    ensures { IfOk result (λ r. r ≡ spec.meet p q.now) }
{
    match p {
        None => copy(alloc, q),
        Some(a) => match q {
            None => Ok(Some(a)),
            Some(b) => Ok(Some(on_both(alloc, a.as_slice(), b.as_slice())?)),
        },
    }
}

/// A local is assigned on these paths from here on.
fn assign(p: &mut Option<Items<bool>>, v: u32)
    ensures { p.new ≡ spec.assigned p.old v }
{
    if let Some(assigned) = p {
        if (v as usize) < assigned.len() {
            assigned.set(v as usize, true);
        }
    }
}

/// A local is assigned.
pub(crate) fn assigns(w: &mut Work, v: u32)
    ensures { w.new ≡ spec.assigns w.old v }
{
    assign(&mut w.here, v);
}

/// No kinds.
fn no_kinds(alloc: Global, names: &[Text]) -> Result<Items<Option<Kind>>, Memory>
    ensures { IfOk result (λ ks. ks ≡ map (λ t. no_kind) names.now) }
{
    let mut kinds = Items::new(alloc);
    for _name in names {
        kinds.push(None)?;
    }
    Ok(kinds)
}

/// None of the locals.
fn none_assigned(alloc: Global, names: &[Text]) -> Result<Items<bool>, Memory>
    ensures { IfOk result (λ bs. bs ≡ map (λ t. false) names.now) }
{
    let mut assigned = Items::new(alloc);
    for _name in names {
        assigned.push(false)?;
    }
    Ok(assigned)
}

/// At the start of a body.
pub(crate) fn starts(alloc: Global, locals: &Locals) -> Result<Work, Memory>
    ensures { IfOk result (λ w. w ≡ spec.starts locals.now) }
{
    Ok(Work {
        kinds: no_kinds(alloc, locals.names.as_slice())?,
        here: Some(none_assigned(alloc, locals.names.as_slice())?),
        breaks: None,
        continues: None,
    })
}

/// A `break`: no path leads to what follows.
pub(crate) fn breaks(alloc: Global, w: &mut Work) -> Result<(), Memory>
    ensures { OnOk result (w.new ≡ spec.breaks w.old) }
{
    w.breaks = meet(alloc, w.breaks.take(), &w.here)?;
    w.here = None;
    Ok(())
}

/// A `continue`: no path leads to what follows.
pub(crate) fn continues(alloc: Global, w: &mut Work) -> Result<(), Memory>
    ensures { OnOk result (w.new ≡ spec.continues w.old) }
{
    w.continues = meet(alloc, w.continues.take(), &w.here)?;
    w.here = None;
    Ok(())
}

/// The paths of a turn of a `for`, by whether it has one where its ends are constants.
pub(crate) fn turn(
    alloc: Global,
    has: Option<bool>,
    v: u32,
    p: &Option<Items<bool>>,
) -> Result<Option<Items<bool>>, Memory>
    ensures { IfOk result (λ q. q ≡ spec.turn has v p.now) }
{
    if let Some(false) = has {
        return Ok(None);
    }
    let mut q = copy(alloc, p)?;
    assign(&mut q, v);
    Ok(q)
}

/// What the loop around is left by, while a loop is read.
#[derive(Drop)]
pub(crate) struct Around {
    breaks: Option<Items<bool>>,
    continues: Option<Items<bool>>,
}

/// A turn of a loop begins.
pub(crate) fn enters(w: &mut Work, here: Option<Items<bool>>) -> Around
    ensures inside { w.new ≡ spec.enters here w.old }
    ensures around { result ≡ record { breaks = w.old.breaks; continues = w.old.continues } }
{
    w.here = here;
    Around {
        breaks: w.breaks.take(),
        continues: w.continues.take(),
    }
}

/// A loop ends; the loop around goes on.
pub(crate) fn leaves(w: &mut Work, around: Around, here: Option<Items<bool>>)
    ensures { w.new ≡ record w.old { here = here; breaks = around.breaks; continues = around.continues } }
{
    w.here = here;
    w.breaks = around.breaks;
    w.continues = around.continues;
}

/// A `for` ends, by whether it has a turn where its ends are constants.
pub(crate) fn leaves_turns(
    alloc: Global,
    has: Option<bool>,
    w: &mut Work,
    around: Around,
    before: Option<Items<bool>>,
) -> Result<(), Memory>
    ensures { OnOk result (w.new ≡ record w.old { here = spec.turned has before w.old; breaks = around.breaks; continues = around.continues }) }
{
    let here = match has {
        Some(true) => {
            let turns = meet(alloc, w.here.take(), &w.continues)?;
            meet(alloc, turns, &w.breaks)?
        }
        _ => before,
    };
    leaves(w, around, here);
    Ok(())
}
