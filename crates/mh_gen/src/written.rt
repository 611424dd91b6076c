// The expressions and left sides of bodies.
ghost use Rattle.std.specs.Prelude.{◌≡◌, ◌-ℤ◌, length, IsTrue, Ok, Err, IfOk};
ghost use Rattle.std.specs.Option.{option_map_or};
ghost use Rattle.std.specs.Ordering.{int_eq};
ghost use Rattle.mh_num.specs.Results.{in_i128};
ghost use Rattle.mh_design.specs.Constants.{number_of_truth};
ghost use Rattle.mh_design.specs.Tree.{base_of, left_of};
ghost use Rattle.mh_design.specs.Values as spec;
ghost use Rattle.mh_design.specs.Assignments as assignment;
ghost use Rattle.mh_gen.specs.Answers.{Assigns, IsThere};
ghost use Rattle.mh_gen.specs.Seen.{spot_seen, spots_seen};
ghost use Rattle.mh_gen.specs.Written.{written_seen, destination_seen};

use crate::eval::value;
use crate::fault::Fault;
use crate::spot::Spot;
use crate::store::{Store, cell};
use mh_design::{Binding, GExpr, Place, Target};
use mh_num::sub;

/// An expression of a body: one of the source, or one that the kind of its generator adds.
#[derive(Clone, Copy)]
pub enum Written<'a> {
    /// An expression of the source.
    Source(&'a GExpr),
    /// A constant integer.
    Integer(i128),
    /// A constant truth value.
    Truth(bool),
    /// One less than an expression of the source: an end of a `downrange`.
    OneLess(&'a GExpr),
    /// The negative of a constant: the step of a `downrange`.
    Negative(i128),
    /// Whether a signal has this truth value.
    Equals(u32, bool),
}

/// A left side of a body: one of the source, or one that the kind of its generator adds.
#[derive(Clone, Copy)]
pub enum Destination<'a> {
    /// A left side of the source.
    Source(&'a Target),
    /// A signal that a reset sets.
    Reset(u32),
    /// The variable of a loop.
    Variable(u32),
}

/// `a - b`, or the fault that it leaves 128 signed bits.
fn difference(a: i128, b: i128) -> Result<i128, Fault>
    ensures { result ≡ option_map_or Ok (in_i128 (a -ℤ b)) (Err spec.NumberTooWide) }
{
    match sub(a, b) {
        Some(z) => Ok(z),
        None => Err(Fault::too_wide()),
    }
}

/// A truth value as a number.
fn number(b: bool) -> i128
    ensures { result ≡ number_of_truth b }
{
    b as i128
}

/// Whether a signal has this truth value, as a number.
fn equals(s: &Store, n: u32, b: bool) -> i128
    ensures { result ≡ number_of_truth (int_eq (spec.signal_value s.now n) (number_of_truth b)) }
{
    let value = s.signal_value(n);
    let same = is_same(value, number(b));
    number(same)
}

/// Two numbers are equal.
fn is_same(a: i128, b: i128) -> bool
    ensures { result ≡ int_eq a b }
{
    a == b
}

/// The value of an expression of a body, or its first fault.
#[tactic(auto, using(crate::proofs::Writing::written_laws))]
pub fn evaluate(e: &Written, s: &Store) -> Result<i128, Fault>
    requires { assignment.FitsExpression (written_seen e.now) s.now }
    ensures { result ≡ spec.value_of (written_seen e.now) s.now }
{
    match e {
        Written::Source(e) => value(s, e),
        Written::Integer(z) => Ok(*z),
        Written::Truth(b) => Ok(number(*b)),
        Written::OneLess(e) => {
            let z = value(s, e)?;
            difference(z, 1)
        }
        Written::Negative(z) => difference(0, *z),
        Written::Equals(n, b) => Ok(equals(s, *n, *b)),
    }
}

/// What an assignment to a place goes to, or the fault of its index.
#[tactic(auto, using(crate::proofs::Writing::spot_laws))]
fn spot_of(s: &Store, place: &Place) -> Result<Spot, Fault>
    requires { IsTrue (assignment.base_is_named s.now.design (length s.now.signals.values) (length s.now.locals) (base_of place.now)) }
    ensures exact { spots_seen result ≡ assignment.spot_of (base_of place.now) s.now }
    ensures there { IfOk result (λ p. IsThere s.now (spot_seen p)) }
{
    match place {
        Place::Signal(n) => Ok(Spot::Signal(*n)),
        Place::Element(m, i) => {
            let i = value(s, i)?;
            let n = cell(s.design(), *m, i)?;
            Ok(Spot::Signal(n))
        }
        Place::Local(n) => Ok(Spot::Local(*n)),
    }
}

/// Assigns to a left side of the source.
#[tactic(auto, using(crate::proofs::Writing::spot_laws))]
fn assign_target(target: &Target, v: i128, s: &mut Store) -> Result<(), Fault>
    requires { IsTrue (assignment.left_is_named s.old.design (length s.old.signals.values) (length s.old.locals) (left_of target.now)) }
    ensures { Assigns result s.old s.new (assignment.assigned (left_of target.now) v s.old) }
{
    match target {
        Target::Whole(place) => {
            let spot = spot_of(s, place)?;
            s.set(spot, v)
        }
        Target::Bit(place, i) => {
            let spot = spot_of(s, place)?;
            let i = value(s, i)?;
            s.set_bit(spot, i, v)
        }
        Target::Slice(place, i, j) => {
            let spot = spot_of(s, place)?;
            let i = value(s, i)?;
            let j = value(s, j)?;
            s.set_slice(spot, i, j, v)
        }
        Target::Bind(n, binding) => s.bind(*n, *binding, v),
    }
}

/// Assigns to a left side of a body. After a fault nothing has changed.
pub fn assign_to(left: &Destination, v: i128, s: &mut Store) -> Result<(), Fault>
    requires { IsTrue (assignment.left_is_named s.old.design (length s.old.signals.values) (length s.old.locals) (destination_seen left.now)) }
    ensures { Assigns result s.old s.new (assignment.assigned (destination_seen left.now) v s.old) }
{
    match left {
        Destination::Source(target) => assign_target(target, v, s),
        Destination::Reset(n) => s.set(Spot::Signal(*n), v),
        Destination::Variable(n) => s.bind(*n, Binding::Plain, v),
    }
}

/// Gives a left side of a body the number of a counted loop.
pub fn count_to(left: &Destination, v: i128, s: &mut Store)
    requires { IsTrue (assignment.left_is_named s.old.design (length s.old.signals.values) (length s.old.locals) (destination_seen left.now)) }
    ensures { s.new ≡ assignment.counted (destination_seen left.now) v s.old }
{
    match left {
        Destination::Source(target) => match target {
            Target::Whole(_) => {}
            Target::Bit(_, _) => {}
            Target::Slice(_, _, _) => {}
            Target::Bind(n, _) => s.count(*n, v),
        },
        Destination::Reset(_) => {}
        Destination::Variable(n) => s.count(*n, v),
    }
}
