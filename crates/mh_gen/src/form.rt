// How values are read.
ghost use Rattle.std.specs.Prelude.{◌≡◌, ◌≤◌};
ghost use Rattle.mh_design.specs.declared.design.Design.{Design as Seen};
ghost use Rattle.mh_design.specs.Values as spec;
ghost use Rattle.mh_gen.specs.Seen.{form_seen};
ghost use Rattle.mh_signals.specs.Seen.{limits_seen};

use mh_design::Kind;
use mh_num::{Bounds, width};
use mh_signals::Limits;

/// How a value is read by what stands around it: as an integer, as a truth value, or as so many
/// bits, whose range has negative numbers (true) or hasn't.
#[derive(Clone, Copy)]
pub enum Form {
    Integer,
    Truth,
    Bits(u8, bool),
}

impl Form {
    /// How a bounded number is read.
    pub fn of_bounds(b: &Bounds) -> Form
        ensures exact { form_seen result ≡ spec.form_of (spec.Between b.now.lo b.now.top b.now.wraps) }
        ensures narrow { spec.bits_of (form_seen result) ≤ 127 }
    {
        Form::Bits(width(b), b.lo < 0)
    }

    /// How what has these limits is read.
    pub fn of_limits(limits: &Limits) -> Form
        ensures exact { form_seen result ≡ spec.form_of (limits_seen limits.now) }
        ensures narrow { spec.bits_of (form_seen result) ≤ 127 }
    {
        match limits {
            Limits::Unlimited => Form::Integer,
            Limits::Truth => Form::Truth,
            Limits::Within(b) => Form::of_bounds(b),
            Limits::Items(_) => Form::Integer,
        }
    }

    /// How what is declared so is read.
    pub fn of_kind(kind: &Kind) -> Form
        ensures exact { (d : Seen) → form_seen result ≡ spec.form_of (spec.limits_of d kind.now) }
        ensures narrow { spec.bits_of (form_seen result) ≤ 127 }
    {
        match kind {
            Kind::Bool => Form::Truth,
            Kind::Int => Form::Integer,
            Kind::Bits(b) => Form::of_bounds(b),
            Kind::Item(_) => Form::Integer,
        }
    }

    /// How the result of `&`, `|` or `^` is read: on two truth values as one.
    pub fn joint(self, other: Form) -> Form
        ensures { form_seen result ≡ spec.bitwise_form (form_seen self) (form_seen other) }
    {
        match self {
            Form::Truth => match other {
                Form::Truth => Form::Truth,
                Form::Integer => Form::Integer,
                Form::Bits(_, _) => Form::Integer,
            },
            Form::Integer => Form::Integer,
            Form::Bits(_, _) => Form::Integer,
        }
    }

    /// How many bits a value that is read so has: none without a width, and a truth value one.
    pub fn bits(self) -> u8
        ensures { result ≡ spec.bits_of (form_seen self) }
    {
        match self {
            Form::Integer => 0,
            Form::Truth => 1,
            Form::Bits(width, _) => width,
        }
    }
}
