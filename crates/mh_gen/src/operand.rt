// The values of expressions, with how they are read.
ghost use Rattle.std.specs.Prelude.{◌≡◌, ◌≤◌, ◌≤ℤ◌, pos, Ok, Err};
ghost use Rattle.std.specs.Option.{option_map_or};
ghost use Rattle.mh_design.specs.declared.design.Design.{Design as Seen};
ghost use Rattle.mh_design.specs.Values as spec;
ghost use Rattle.mh_gen.specs.Seen.{form_seen};

use crate::fault::Fault;
use crate::form::Form;
use mh_design::Kind;
use mh_num::Bounds;
use std::marker::Model;

/// The value of an expression, with its width at the moment if it has one.
#[derive(Drop)]
pub struct Operand {
    value: i128,
    form: Form,
}

impl Model for Operand {
    ghost use Rattle.mh_design.specs.Values.{Operand as Seen};

    ghost Value = { Seen };

    ghost use Rattle.mh_gen.specs.Seen.{form_seen, HasRoom};

    ghost view = { λ o. record { value = o.value; form = form_seen o.form } };

    ghost invariant = { λ o. HasRoom (form_seen o.form) o.value };
}

impl Operand {
    /// An integer.
    pub fn integer(value: i128) -> Operand
        ensures { result ≡ spec.integer value }
    {
        Operand {
            value,
            form: Form::Integer,
        }
    }

    /// A truth value.
    pub fn truth(value: bool) -> Operand
        ensures { result ≡ spec.truth value }
    {
        Operand {
            value: value as i128,
            form: Form::Truth,
        }
    }

    /// So many bits, which aren't negative.
    pub fn bits(value: i128, width: u8) -> Operand
        requires narrow { width ≤ 128 }
        requires wide { width ≡ 128 → pos 0 ≤ℤ value }
        ensures { result ≡ spec.as_bits width value }
    {
        Operand {
            value,
            form: Form::Bits(width, false),
        }
    }

    /// A number with these bounds.
    pub fn bounded(value: i128, b: &Bounds) -> Operand
        ensures { result ≡ record { value = value; form = spec.form_of (spec.Between b.now.lo b.now.top b.now.wraps) } }
    {
        Operand {
            value,
            form: Form::of_bounds(b),
        }
    }

    /// What is read so.
    pub fn read(value: i128, form: Form) -> Operand
        requires { spec.bits_of (form_seen form) ≤ 127 }
        ensures { result ≡ record { value = value; form = form_seen form } }
    {
        Operand { value, form }
    }

    /// The result of `&`, `|` or `^` on two operands.
    pub fn joint(value: i128, a: &Operand, b: &Operand) -> Operand
        ensures { result ≡ record { value = value; form = spec.bitwise_form a.now.form b.now.form } }
    {
        let form = a.form.joint(b.form);
        Operand { value, form }
    }

    /// Its value.
    pub fn value(&self) -> i128
        ensures { result ≡ self.now.value }
    {
        self.value
    }

    /// How it is read.
    pub fn form(&self) -> Form
        ensures { form_seen result ≡ self.now.form }
    {
        self.form
    }

    /// How many bits it has.
    pub fn width(&self) -> u8
        ensures exact { result ≡ spec.bits_of self.now.form }
        ensures narrow { result ≤ 128 }
        ensures wide { result ≡ 128 → pos 0 ≤ℤ self.now.value }
    {
        self.form.bits()
    }

    /// It is true: it isn't 0.
    pub fn is_true(&self) -> bool
        ensures { result ≡ spec.is_true self.now.value }
    {
        self.value != 0
    }
}

/// An integer, or the fault that it leaves 128 signed bits.
pub fn integer_within(z: Option<i128>) -> Result<Operand, Fault>
    ensures { result ≡ option_map_or (λ x. Ok (spec.integer x)) z (Err spec.NumberTooWide) }
{
    match z {
        Some(z) => Ok(Operand::integer(z)),
        None => Err(Fault::too_wide()),
    }
}
