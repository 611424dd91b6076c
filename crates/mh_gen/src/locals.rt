// The locals of a generator as a run starts.
ghost use Rattle.std.specs.Prelude.{◌≡◌, ◌<◌, pos, length, map, IsTrue, Some, slice_get, IfOk};
ghost use Rattle.mh_design.specs.declared.design.Generator.{Generator as Seen};
ghost use Rattle.mh_design.specs.Deltas as spec;
ghost use Rattle.mh_design.specs.Values.{limits_of as limits_of_kind};
ghost use Rattle.mh_design.specs.WellFormed.{is_well_formed};

use crate::held::Held;
use mh_design::{Design, Kind, Local};
use mh_signals::limits_of;
use mh_text::Memory;
use sqlite_items::Items;
use std::alloc::Global;

/// A local of this kind to which nothing was assigned.
fn first_local(d: &Design, kind: Kind) -> Held
    requires { IsTrue (is_well_formed d.now) }
    ensures { result ≡ record { value = pos 0; limits = limits_of_kind d.now kind } }
{
    Held::new(0, limits_of(d, kind))
}

/// These locals, to none of which anything was assigned.
fn all_first(alloc: Global, d: &Design, locals: &[Local]) -> Result<Items<Held>, Memory>
    requires { IsTrue (is_well_formed d.now) }
    ensures { IfOk result (λ all. all ≡ map (spec.first_local d.now) locals.now) }
{
    let mut all = Items::new(alloc);
    for local in locals {
        all.push(first_local(d, local.kind))?;
    }
    Ok(all)
}

/// The locals of the generator with this number as a run starts: nothing was assigned to any.
pub fn first_locals(alloc: Global, d: &Design, g: u32) -> Result<Items<Held>, Memory>
    requires formed { IsTrue (is_well_formed d.now) }
    requires there { g < length d.now.generators }
    ensures { IfOk result (λ all. (x : Seen) → slice_get d.now.generators g ≡ Some x → all ≡ map (spec.first_local d.now) x.locals) }
{
    let x = &d.generators.as_slice()[g as usize];
    all_first(alloc, d, x.locals.as_slice())
}
