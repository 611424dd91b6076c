// The arguments of calls.
ghost use Rattle.std.specs.Prelude.{false};
ghost use Rattle.mh_text.specs.Faults.{Gives};
ghost use Rattle.mh_consts.specs.Expression.{given_of, part_of};
ghost use Rattle.mh_exprs.specs.Expression.{read as reading};
ghost use Rattle.mh_lower.specs.Bindings.{constant_number as number_of};
ghost use Rattle.mh_exprs.specs.Step.{Grows};

use crate::bindings::constant_number;
use mh_consts::Scope;
use mh_design::Design;
use mh_exprs::{Locals, Typed, Work, part};
use mh_pytree::Argument;
use mh_text::{Code, Fault};
use sqlite_items::Boxed;
use std::alloc::Global;

/// The value of an argument, in a box.
#[tactic(auto, using(mh_consts::proofs::Shapes::shapes))]
pub(crate) fn part_given(
    alloc: Global,
    s: &Scope,
    locals: &Locals,
    w: &Work,
    a: &Argument,
    d: &mut Design,
) -> Result<Boxed<Typed>, Fault<Code>>
    ensures { Grows (reading s.now locals.now w.now false (part_of (given_of a.now)) d.old) result d.new }
{
    part(alloc, s, locals, w, false, &a.value, d)
}

/// The number of an argument that has to be a constant.
#[tactic(auto, using(mh_consts::proofs::Shapes::shapes))]
pub(crate) fn given_number(
    alloc: Global,
    s: &Scope,
    locals: &Locals,
    a: &Argument,
) -> Result<i128, Fault<Code>>
    ensures { Gives (number_of s.now locals.now (part_of (given_of a.now))) result }
{
    constant_number(alloc, s, locals, &a.value)
}
