// What stands on the left of assignments.
ghost use Rattle.std.specs.Prelude.{◌≡◌, List, is_some, option_copied, slice_get, true};
ghost use Rattle.mh_consts.specs.Expression.{ex_of};
ghost use Rattle.mh_elab.specs.Elaboration as spec;
ghost use Rattle.mh_elab.specs.Views.{names_given};
ghost use Rattle.mh_world.specs.Statements as statements;
ghost use Rattle.mh_world.specs.Statements.{target_of};
ghost use Rattle.mh_consts.specs.declared.kinds.Const.{Const};
ghost use Rattle.mh_text.specs.declared.code.Code.TheVariants.{E10KindClash};
ghost use Rattle.mh_world.specs.View.{world, Does, same};
ghost use Rattle.mh_world.specs.World.{World, given, pure};

use mh_consts::{Const, operated};
use mh_pytree::{Operator, PyExpr};
use mh_text::{Code, CodeAt, Fault, Text};
use mh_world::{State, at_line, refuse};
use std::alloc::Global;

/// The name that an expression is, without brackets round it, lent.
#[tactic(auto, using(crate::proofs::OutForms::outs))]
fn name_of(e: &PyExpr) -> Option<&Text>
    ensures { option_copied result ≡ statements.name_of e.now }
{
    match e {
        PyExpr::Name(t) => Some(t),
        PyExpr::Number(_)
        | PyExpr::Str(_)
        | PyExpr::True
        | PyExpr::False
        | PyExpr::None
        | PyExpr::Group(_)
        | PyExpr::Bracketed(_)
        | PyExpr::Tuple(_)
        | PyExpr::List(_)
        | PyExpr::Comprehension(_, _, _)
        | PyExpr::Not(_)
        | PyExpr::Unary(_, _)
        | PyExpr::Binary(_, _, _)
        | PyExpr::Attribute(_, _)
        | PyExpr::Call(_, _)
        | PyExpr::Index(_, _)
        | PyExpr::Slice(_, _, _)
        | PyExpr::Whole(_) => None,
    }
}

/// Whether all of these are names.
#[tactic(auto, using(crate::proofs::TargetLaws::target_laws))]
fn all_are_names(xs: &[PyExpr]) -> bool
    ensures { result ≡ is_some (statements.names_of xs.now) }
{
    for e in xs {
        if name_of(e).is_none() {
            return false;
        }
    }
    true
}

/// Several names take as many items.
#[tactic(auto, using(crate::proofs::TargetLaws::target_laws))]
fn bind_names<'a>(
    alloc: Global,
    state: &mut State<'a>,
    line: u32,
    xs: &[PyExpr],
    vs: &[Const],
) -> Result<(), Fault<CodeAt>>
    requires { is_some (statements.names_of xs.now) ≡ true }
    ensures { Does same (spec.bind_names line (names_given (statements.names_of xs.now)) vs.now (world state.old)) result (world state.new) }
{
    let mut rest = vs;
    for e in xs {
        let Some(t) = name_of(e) else {
            return Ok(());
        };
        let [v, more @ ..] = rest else {
            return Ok(());
        };
        let own = v.copy(alloc)?;
        state.bind_name(alloc, line, t, own)?;
        rest = more;
    }
    Ok(())
}

/// Several names take these values, if there are as many.
#[tactic(auto, using(crate::proofs::TargetLaws::given_length))]
fn unpack_items<'a>(
    alloc: Global,
    state: &mut State<'a>,
    line: u32,
    xs: &[PyExpr],
    vs: &[Const],
) -> Result<(), Fault<CodeAt>>
    requires { is_some (statements.names_of xs.now) ≡ true }
    ensures { Does same (spec.unpack line (names_given (statements.names_of xs.now)) vs.now (world state.old)) result (world state.new) }
{
    if xs.len() != vs.len() {
        return refuse(Code::E2NotElaborable, line);
    }
    bind_names(alloc, state, line, xs, vs)
}

/// Several names take the items of a tuple or a list.
#[tactic(auto, using(crate::proofs::TargetLaws::unpacking))]
fn unpack<'a>(
    alloc: Global,
    state: &mut State<'a>,
    line: u32,
    xs: &[PyExpr],
    v: &Const,
) -> Result<(), Fault<CodeAt>>
    ensures { (parts : List Const) → Does same (spec.put line (statements.to_names (statements.names_of xs.now)) v.now parts (world state.old)) result (world state.new) }
{
    if !all_are_names(xs) {
        return refuse(Code::E2NotElaborable, line);
    }
    let vs = state.items_of(alloc, line, v)?;
    unpack_items(alloc, state, line, xs, vs.as_slice())
}

/// A value is assigned to a target whose parts have these values.
#[tactic(auto, using(crate::proofs::OutForms::target_forms))]
pub(crate) fn put<'a>(
    alloc: Global,
    state: &mut State<'a>,
    line: u32,
    target: &PyExpr,
    v: Const,
    parts: &[Const],
) -> Result<(), Fault<CodeAt>>
    ensures { Does same (spec.put line (target_of target.now) v parts.now (world state.old)) result (world state.new) }
{
    match target {
        PyExpr::Name(t) => state.bind_name(alloc, line, t, v),
        PyExpr::Index(_, _) => match parts {
            [base, place, ..] => state.set_item(alloc, line, base, place, v),
            [] | [_] => refuse(Code::E10KindClash, line),
        },
        PyExpr::Tuple(xs) => unpack(alloc, state, line, xs.as_slice(), &v),
        PyExpr::Number(_)
        | PyExpr::Str(_)
        | PyExpr::True
        | PyExpr::False
        | PyExpr::None
        | PyExpr::Group(_)
        | PyExpr::Bracketed(_)
        | PyExpr::List(_)
        | PyExpr::Comprehension(_, _, _)
        | PyExpr::Not(_)
        | PyExpr::Unary(_, _)
        | PyExpr::Binary(_, _, _)
        | PyExpr::Attribute(_, _)
        | PyExpr::Call(_, _)
        | PyExpr::Slice(_, _, _)
        | PyExpr::Whole(_) => refuse(Code::E2NotElaborable, line),
    }
}

/// The value of the one part. It leaves the state as it is.
fn first<'a>(
    alloc: Global,
    state: &State<'a>,
    line: u32,
    parts: &[Const],
) -> Result<Const, Fault<CodeAt>>
    ensures { Does same (given (slice_get parts.now 0) E10KindClash line pure (world state.now)) result (world state.now) }
{
    match parts {
        [v, ..] => Ok(v.copy(alloc)?),
        [] => refuse(Code::E10KindClash, line),
    }
}

/// What a target holds before an augmented assignment, where what is evaluated to read it has these
/// values.
#[tactic(auto, using(crate::proofs::TargetLaws::holding))]
pub(crate) fn held<'a>(
    alloc: Global,
    state: &mut State<'a>,
    line: u32,
    target: &PyExpr,
    parts: &[Const],
) -> Result<Const, Fault<CodeAt>>
    ensures { Does same (spec.held line (target_of target.now) parts.now (world state.old)) result (world state.new) }
{
    match target {
        PyExpr::Name(t) => state.name(alloc, line, t),
        PyExpr::Index(_, _) => state.computed(alloc, line, target, parts),
        PyExpr::Tuple(_) => first(alloc, state, line, parts),
        PyExpr::Number(_)
        | PyExpr::Str(_)
        | PyExpr::True
        | PyExpr::False
        | PyExpr::None
        | PyExpr::Group(_) => first(alloc, state, line, parts),
        PyExpr::Bracketed(_)
        | PyExpr::List(_)
        | PyExpr::Comprehension(_, _, _)
        | PyExpr::Not(_)
        | PyExpr::Unary(_, _) => first(alloc, state, line, parts),
        PyExpr::Binary(_, _, _)
        | PyExpr::Attribute(_, _)
        | PyExpr::Call(_, _)
        | PyExpr::Slice(_, _, _)
        | PyExpr::Whole(_) => first(alloc, state, line, parts),
    }
}

/// Whether an augmented assignment may have this target.
#[tactic(auto, using(crate::proofs::TargetLaws::holding))]
fn is_target(target: &PyExpr) -> bool
    ensures { result ≡ spec.is_target (target_of target.now) }
{
    match target {
        PyExpr::Name(_) | PyExpr::Index(_, _) => true,
        PyExpr::Number(_)
        | PyExpr::Str(_)
        | PyExpr::True
        | PyExpr::False
        | PyExpr::None
        | PyExpr::Group(_)
        | PyExpr::Bracketed(_)
        | PyExpr::Tuple(_)
        | PyExpr::List(_)
        | PyExpr::Comprehension(_, _, _)
        | PyExpr::Not(_)
        | PyExpr::Unary(_, _)
        | PyExpr::Binary(_, _, _)
        | PyExpr::Attribute(_, _)
        | PyExpr::Call(_, _)
        | PyExpr::Slice(_, _, _)
        | PyExpr::Whole(_) => false,
    }
}

/// An augmented assignment, at the values of the two sides.
pub(crate) fn update<'a>(
    alloc: Global,
    state: &mut State<'a>,
    line: u32,
    op: Operator,
    target: &PyExpr,
    parts: &[Const],
    left: &Const,
    right: &Const,
) -> Result<(), Fault<CodeAt>>
    ensures { Does same (spec.update line op (target_of target.now) parts.now left.now right.now (world state.old)) result (world state.new) }
{
    if !is_target(target) {
        return refuse(Code::E2NotElaborable, line);
    }
    let v = at_line(operated(op, left, right), line)?;
    put(alloc, state, line, target, v, parts)
}
