// Locals.
ghost use Rattle.std.specs.Prelude.{◌≡◌, ◌≤◌, ◌<◌, ◌-◌, ◌^◌, pos};
ghost use Rattle.mh_codes.specs.Integers.{slice_of};
ghost use Rattle.mh_design.specs.Values as spec;
ghost use Rattle.mh_design.specs.Assignments.{taken, part_taken, low_limits};
ghost use Rattle.mh_gen.specs.Answers.{held_result};
ghost use Rattle.mh_gen.specs.Seen.{form_seen};
ghost use Rattle.mh_signals.specs.Seen.{limits_seen};

use crate::fault::Fault;
use crate::form::Form;
use crate::operand::Operand;
use crate::operators::greatest;
use mh_num::{Bounds, OutOfBounds, slice};
use mh_signals::{Limits, part_taken};
use std::marker::Model;

/// A local: its value, and its limits at the moment.
#[derive(Drop)]
pub struct Held {
    value: i128,
    limits: Limits,
}

impl Model for Held {
    ghost use Rattle.mh_design.specs.Values.{Held as Seen};

    ghost Value = { Seen };

    ghost use Rattle.mh_signals.specs.Seen.{limits_seen};

    ghost view = { λ h. record { value = h.value; limits = limits_seen h.limits } };
}

/// A local with these limits that has taken a value, or the fault.
fn kept(limits: Limits, taken: Result<i128, OutOfBounds>) -> Result<Held, Fault>
    ensures { result ≡ held_result (limits_seen limits) taken }
{
    match taken {
        Ok(value) => Ok(Held { value, limits }),
        Err(outside) => Err(Fault::range(outside)),
    }
}

/// The bounds of numbers of `n` bits.
fn low_bounds(n: u8, wraps: bool) -> Bounds
    requires { n ≤ 127 }
    ensures low { result.lo ≡ pos 0 }
    ensures top { result.top ≡ pos (2 ^ n - 1) }
    ensures wraps { result.wraps ≡ wraps }
{
    let top = greatest(n);
    Bounds { lo: 0, top, wraps }
}

/// The `n` low bits of a value.
pub fn low_bits(value: i128, n: u8) -> i128
    requires { n ≤ 127 }
    ensures { result ≡ pos (slice_of n 0 value) }
{
    if n == 0 { 0 } else { slice(value, n, 0) }
}

impl Held {
    /// A local with this value and these limits.
    pub fn new(value: i128, limits: Limits) -> Held
        ensures { result ≡ record { value = value; limits = limits_seen limits } }
    {
        Held { value, limits }
    }

    /// A local with these bounds, which takes a value.
    pub fn bounded(b: Bounds, value: i128) -> Result<Held, Fault>
        ensures { result ≡ held_result (spec.Between b.lo b.top b.wraps) (taken (spec.Between b.lo b.top b.wraps) value) }
    {
        let limits = Limits::Within(b);
        kept(limits, limits.take(value))
    }

    /// A local that holds the `n` low bits of a value.
    pub fn low(n: u8, wraps: bool, value: i128) -> Held
        requires { n ≤ 127 }
        ensures { result ≡ record { value = pos (slice_of n 0 value); limits = low_limits n wraps } }
    {
        Held {
            value: low_bits(value, n),
            limits: Limits::Within(low_bounds(n, wraps)),
        }
    }

    /// How it is read.
    pub fn form(&self) -> Form
        ensures exact { form_seen result ≡ spec.form_of self.now.limits }
        ensures narrow { spec.bits_of (form_seen result) ≤ 127 }
    {
        Form::of_limits(&self.limits)
    }

    /// Its value, with its width at the moment.
    pub fn operand(&self) -> Operand
        ensures { result ≡ spec.held_operand self.now }
    {
        Operand::read(self.value, self.form())
    }

    /// The local after it was given a value whose bounds nobody looks at.
    pub fn given(&self, value: i128) -> Held
        ensures { result ≡ record { value = value; limits = self.now.limits } }
    {
        Held {
            value,
            limits: self.limits,
        }
    }

    /// The local after it has taken a value, or the fault.
    pub fn take(&self, value: i128) -> Result<Held, Fault>
        ensures { result ≡ held_result self.now.limits (taken self.now.limits value) }
    {
        kept(self.limits, self.limits.take(value))
    }

    /// The local after its bits `i - 1` down to `j` have taken a value, or the fault.
    pub fn take_part(&self, i: u8, j: u8, value: i128) -> Result<Held, Fault>
        requires some { j < i }
        requires places { i ≤ 127 }
        ensures { result ≡ held_result self.now.limits (part_taken self.now.limits i j self.now.value value) }
    {
        kept(
            self.limits,
            part_taken(&self.limits, i, j, self.value, value),
        )
    }
}
