// The bodies of generators, by their kinds.
ghost use Rattle.std.specs.Prelude.{◌≡◌, ◌<◌, ◌^◌, ℕ, ◌==◌, true, false, length, Some, slice_get, IfOk};
ghost use Rattle.std.specs.List.{list_any};
ghost use Rattle.std.specs.Ordering.{nat_cmp};
ghost use Rattle.std.specs.BTreeSet.{contains};
ghost use Rattle.mh_flow.specs.Flow as flow;
ghost use Rattle.mh_flat.specs.Body.{block_of, statement_of as flowing_step};
ghost use Rattle.mh_flat.specs.Flat.{IsCodeOf};
ghost use Rattle.mh_design.specs.declared.design.Generator.{Generator as Seen};
ghost use Rattle.mh_design.specs.Tree as tree;
ghost use Rattle.mh_design.specs.Bodies as spec;
ghost use Rattle.mh_design.specs.Numbering.{body_of};
ghost use Rattle.mh_gen.specs.Steps.{Puts, reset_or_from};

use crate::language::{Expression, LeftSide, MyHdl};
use crate::steps::{Reached, if_step, next, push, put_block, put_same, while_step};
use mh_design::{Design, GenKind, Generator, drives};
use mh_flat::{Code, Step, flatten};
use mh_text::Memory;
use std::alloc::Global;
use std::collections::BTreeSet;

/// The set of these signals.
fn set_of(alloc: Global, signals: &[u32]) -> Result<BTreeSet<u32>, Memory>
    ensures { IfOk result (λ found. (n : ℕ) → contains nat_cmp found n ≡ list_any (λ m. m == n) signals.now) }
{
    let mut found = BTreeSet::new(alloc);
    for signal in signals {
        found.insert(*signal)?;
    }
    Ok(found)
}

/// The signals that a generator drives.
pub fn driven(alloc: Global, d: &Design, g: &Generator) -> Result<BTreeSet<u32>, Memory>
    ensures { IfOk result (λ found. (n : ℕ) → contains nat_cmp found n ≡ spec.is_driven d.now g.now n) }
{
    let signals = drives(alloc, d, g)?;
    set_of(alloc, signals.as_slice())
}

/// How many signals there are. With 2^32 of them a body and a run want more memory than there is.
pub fn signal_count(d: &Design) -> Result<u32, Memory>
    ensures { IfOk result (λ n. n ≡ length d.now.signals) }
{
    let count = d.signals.len();
    if count <= u32::MAX as usize {
        Ok(count as u32)
    } else {
        Err(Memory)
    }
}

/// The initial value of a signal.
fn initial_value(d: &Design, n: u32) -> i128
    ensures { result ≡ spec.initial_value d.now n }
{
    match d.signals.get(n as usize) {
        Some(x) => x.init,
        None => 0,
    }
}

/// The value at which a reset is active.
fn active_value(d: &Design, r: u32) -> bool
    ensures { result ≡ spec.active_value d.now r }
{
    match d.signals.get(r as usize) {
        Some(x) => match x.reset {
            Some(y) => y.active,
            None => false,
        },
        None => false,
    }
}

/// A signal is given its initial value.
fn reset_step<'a>(d: &Design, n: u32) -> Step<MyHdl<'a>>
    ensures { flowing_step result ≡ flow.SetStatement (tree.Whole (tree.LeftSignal n)) (tree.Integer (spec.initial_value d.now n)) }
{
    Step::Set(LeftSide::reset(n), Expression::integer(initial_value(d, n)))
}

/// Adds that a signal is given its initial value, where it is driven.
fn put_reset<'a>(
    d: &Design,
    is_driven: bool,
    n: u32,
    at: Reached,
    out: &mut Vec<Step<MyHdl<'a>>>,
) -> Result<Reached, Memory>
    ensures driven { IfOk result (λ r. is_driven ≡ true → Puts out.old.items out.new.items at r (spec.only (flow.SetStatement (tree.Whole (tree.LeftSignal n)) (tree.Integer (spec.initial_value d.now n)))) 0) }
    ensures other { IfOk result (λ r. is_driven ≡ false → (out.new.items ≡ out.old.items) × (r ≡ at)) }
{
    if is_driven {
        put_same(reset_step(d, n), at, out)
    } else {
        Ok(at)
    }
}

/// Adds what a reset does, where these are the signals that the generator drives.
fn put_resets<'a>(
    d: &Design,
    g: &Generator,
    driven: &BTreeSet<u32>,
    first: Reached,
    out: &mut Vec<Step<MyHdl<'a>>>,
) -> Result<Reached, Memory>
    requires { (n : ℕ) → contains nat_cmp driven.now n ≡ spec.is_driven d.now g.now n }
    ensures { IfOk result (λ r. Puts out.old.items out.new.items first r (spec.resets d.now (spec.driven d.now g.now)) 0) }
{
    let mut at = first;
    let count = signal_count(d)?;
    for n in 0..count {
        let is_driven = driven.contains(&n);
        at = put_reset(d, is_driven, n, at, out)?;
    }
    Ok(at)
}

/// Adds the function of an `@always_seq`, and the reset, where there is one.
fn put_reset_or<'a>(
    alloc: Global,
    d: &'a Design,
    g: &'a Generator,
    reset: Option<u32>,
    at: Reached,
    out: &mut Vec<Step<MyHdl<'a>>>,
) -> Result<Reached, Memory>
    ensures { IfOk result (λ q. Puts out.old.items out.new.items at q (reset_or_from d.now g.now reset at.number) (spec.block_extent (body_of g.now))) }
{
    match reset {
        None => put_block(alloc, g.body.as_slice(), at, out),
        Some(r) => put_choice(alloc, d, g, r, at, out),
    }
}

/// Adds the function of an `@always_seq` with this reset.
fn put_choice<'a>(
    alloc: Global,
    d: &'a Design,
    g: &'a Generator,
    r: u32,
    at: Reached,
    out: &mut Vec<Step<MyHdl<'a>>>,
) -> Result<Reached, Memory>
    ensures { IfOk result (λ q. Puts out.old.items out.new.items at q (reset_or_from d.now g.now (Some r) at.number) (spec.block_extent (body_of g.now))) }
{
    let count = next(at.count)?;
    let start = Reached {
        number: at.number,
        count,
    };
    let signals = driven(alloc, d, g)?;
    let mut yes = Vec::new(alloc);
    let middle = put_resets(d, g, &signals, start, &mut yes)?;
    let mut no = Vec::new(alloc);
    let end = put_block(alloc, g.body.as_slice(), middle, &mut no)?;
    let test = Expression::equals(r, active_value(d, r));
    push(out, if_step(test, yes, no))?;
    Ok(end)
}

/// For ever these statements.
fn for_ever<'a>(
    alloc: Global,
    inner: Vec<Step<MyHdl<'a>>>,
    end: Reached,
) -> Result<Vec<Step<MyHdl<'a>>>, Memory>
    requires { end.count ≡ flow.block_size (block_of inner.items) }
    ensures made { IfOk result (λ v. block_of v.items ≡ spec.for_ever (block_of inner.entry.items)) }
    ensures small { IfOk result (λ v. flow.block_size (block_of v.items) < 2 ^ 32) }
{
    let _count = next(end.count)?;
    let mut out = Vec::new(alloc);
    push(&mut out, while_step(Expression::always(), inner))?;
    Ok(out)
}

const START: Reached = Reached {
    number: 0,
    count: 0,
};

/// The body of an `@always_comb`.
fn comb<'a>(alloc: Global, g: &'a Generator) -> Result<Vec<Step<MyHdl<'a>>>, Memory>
    ensures made { IfOk result (λ v. block_of v.items ≡ spec.for_ever (spec.followed_by (spec.function_of g.now) spec.own_wait)) }
    ensures small { IfOk result (λ v. flow.block_size (block_of v.items) < 2 ^ 32) }
{
    let mut inner = Vec::new(alloc);
    let at = put_block(alloc, g.body.as_slice(), START, &mut inner)?;
    let end = put_same(Step::Wait(0), at, &mut inner)?;
    for_ever(alloc, inner, end)
}

/// The body of an `@always`.
fn always<'a>(alloc: Global, g: &'a Generator) -> Result<Vec<Step<MyHdl<'a>>>, Memory>
    ensures made { IfOk result (λ v. block_of v.items ≡ spec.for_ever (spec.followed_by spec.own_wait (spec.function_of g.now))) }
    ensures small { IfOk result (λ v. flow.block_size (block_of v.items) < 2 ^ 32) }
{
    let mut inner = Vec::new(alloc);
    let at = put_same(Step::Wait(0), START, &mut inner)?;
    let end = put_block(alloc, g.body.as_slice(), at, &mut inner)?;
    for_ever(alloc, inner, end)
}

/// The body of an `@always_seq`.
fn seq<'a>(
    alloc: Global,
    d: &'a Design,
    g: &'a Generator,
    reset: Option<u32>,
) -> Result<Vec<Step<MyHdl<'a>>>, Memory>
    ensures made { IfOk result (λ v. block_of v.items ≡ spec.for_ever (spec.followed_by spec.own_wait (spec.reset_or d.now g.now reset))) }
    ensures small { IfOk result (λ v. flow.block_size (block_of v.items) < 2 ^ 32) }
{
    let mut inner = Vec::new(alloc);
    let at = put_same(Step::Wait(0), START, &mut inner)?;
    let end = put_reset_or(alloc, d, g, reset, at, &mut inner)?;
    for_ever(alloc, inner, end)
}

/// The body of an `@instance`.
fn instance<'a>(alloc: Global, g: &'a Generator) -> Result<Vec<Step<MyHdl<'a>>>, Memory>
    ensures made { IfOk result (λ v. block_of v.items ≡ spec.function_of g.now) }
    ensures small { IfOk result (λ v. flow.block_size (block_of v.items) < 2 ^ 32) }
{
    let mut inner = Vec::new(alloc);
    let _end = put_block(alloc, g.body.as_slice(), START, &mut inner)?;
    Ok(inner)
}

/// The body of a generator.
fn body<'a>(alloc: Global, d: &'a Design, g: &'a Generator) -> Result<Vec<Step<MyHdl<'a>>>, Memory>
    ensures made { IfOk result (λ v. block_of v.items ≡ spec.generator_flow d.now g.now) }
    ensures small { IfOk result (λ v. flow.block_size (block_of v.items) < 2 ^ 32) }
{
    match &g.kind {
        GenKind::Comb => comb(alloc, g),
        GenKind::Always(_) => always(alloc, g),
        GenKind::Seq(_, reset) => seq(alloc, d, g, *reset),
        GenKind::Instance => instance(alloc, g),
    }
}

/// The code of a generator's body.
fn code_of<'a>(alloc: Global, d: &'a Design, g: &'a Generator) -> Result<Code<MyHdl<'a>>, Memory>
    ensures { IfOk result (λ c. IsCodeOf (spec.generator_flow d.now g.now) c) }
{
    let steps = body(alloc, d, g)?;
    flatten(alloc, steps)
}

/// The code of the body of the generator with this number.
pub fn code<'a>(alloc: Global, d: &'a Design, g: u32) -> Result<Code<MyHdl<'a>>, Memory>
    requires { g < length d.now.generators }
    ensures { IfOk result (λ c. (x : Seen) → slice_get d.now.generators g ≡ Some x → IsCodeOf (spec.generator_flow d.now x) c) }
{
    let x = &d.generators.as_slice()[g as usize];
    code_of(alloc, d, x)
}
