// What goes wrong in an expression or an assignment.
ghost use Rattle.std.specs.Prelude.{◌≡◌, pos};
ghost use Rattle.mh_gen.specs.Numbers.{numbers_of};
ghost use Rattle.mh_design.specs.Values as spec;

use mh_num::OutOfBounds;
use mh_text::Code;
use std::marker::Model;

/// The kinds of faults, with their numbers.
#[derive(Clone, Copy, Debug)]
pub enum Cause {
    /// A value is outside its bounds.
    Range(OutOfBounds),
    /// An index, or an end of a slice, is outside what it may be.
    Index(OutOfBounds),
    /// A divisor isn't positive.
    Divide(i128),
    /// A value leaves 128 signed bits.
    NumberTooWide,
    /// The amount of a shift is outside 0 to 127.
    Shift(i128),
}

/// A code with a value, and no bounds.
fn alone(code: Code, value: i128) -> FaultNumbers
    ensures { result ≡ record { code = code; value = value; low = pos 0; high = pos 0 } }
{
    FaultNumbers {
        code,
        value,
        low: 0,
        high: 0,
    }
}

/// What goes wrong in an expression or an assignment, with the numbers that tell what.
#[derive(Debug, Drop)]
pub struct Fault {
    cause: Cause,
}

impl Model for Fault {
    ghost use Rattle.mh_design.specs.Values.{Fault as Seen};

    ghost Value = { Seen };

    ghost use Rattle.mh_gen.specs.Seen.{cause_seen};

    ghost view = { λ f. cause_seen f.cause };
}

/// What an error line shows of a fault: its code and its numbers, 0 for one that it doesn't have.
#[derive(Clone, Copy, Debug)]
pub struct FaultNumbers {
    pub code: Code,
    pub value: i128,
    pub low: i128,
    pub high: i128,
}

impl Fault {
    /// What an error line shows of it.
    pub fn numbers(&self) -> FaultNumbers
        ensures { result ≡ numbers_of self.now }
    {
        match self.cause {
            Cause::Range(o) => FaultNumbers {
                code: Code::X1Range,
                value: o.value,
                low: o.low,
                high: o.high,
            },
            Cause::Index(o) => FaultNumbers {
                code: Code::X2Index,
                value: o.value,
                low: o.low,
                high: o.high,
            },
            Cause::Divide(value) => alone(Code::X4Divide, value),
            Cause::NumberTooWide => alone(Code::X5NumberTooWide, 0),
            Cause::Shift(value) => alone(Code::X6Shift, value),
        }
    }

    /// A value that is outside its bounds.
    pub fn range(outside: OutOfBounds) -> Fault
        ensures { result ≡ spec.Range outside.value outside.low outside.high }
    {
        Fault {
            cause: Cause::Range(outside),
        }
    }

    /// An index, or an end of a slice, outside `low` to `high`.
    pub fn index(value: i128, low: i128, high: i128) -> Fault
        ensures { result ≡ spec.Index value low high }
    {
        Fault {
            cause: Cause::Index(OutOfBounds { value, low, high }),
        }
    }

    /// A divisor that isn't positive.
    pub fn divide(value: i128) -> Fault
        ensures { result ≡ spec.Divide value }
    {
        Fault {
            cause: Cause::Divide(value),
        }
    }

    /// A value that leaves 128 signed bits.
    pub fn too_wide() -> Fault
        ensures { result ≡ spec.NumberTooWide }
    {
        Fault {
            cause: Cause::NumberTooWide,
        }
    }

    /// An amount of a shift that is outside 0 to 127.
    pub fn shift(value: i128) -> Fault
        ensures { result ≡ spec.Shift value }
    {
        Fault {
            cause: Cause::Shift(value),
        }
    }
}
