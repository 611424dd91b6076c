// The language of generators.
ghost use Rattle.std.specs.Prelude.{◌≡◌, true};
ghost use Rattle.mh_design.specs.declared.expression.BinaryOp.TheVariants as binary;
ghost use Rattle.mh_design.specs.declared.statement.Binding.TheVariants as binding;
ghost use Rattle.mh_design.specs.Tree.{expression_of, left_of};
ghost use Rattle.mh_design.specs.Tree as tree;
ghost use Rattle.mh_design.specs.Bodies as body;
ghost use Rattle.mh_design.specs.Values as spec;
ghost use Rattle.mh_design.specs.Assignments as assignment;
ghost use Rattle.mh_gen.specs.Laws as laws;

use crate::fault::Fault;
use crate::store::Store;
use crate::written::{Destination, Written, assign_to, count_to, evaluate};
use mh_design::{Design, GExpr, Target};
use mh_flat::Lang;
use std::marker::Model;

/// The language of the generators of a design: expressions over signals, locals and the time, and
/// assignments to signals and locals.
#[derive(Drop)]
pub struct MyHdl<'a> {
    design: &'a Design,
}

impl<'a> Model for MyHdl<'a> {
    ghost Value = { Unit {0} };

    ghost view = { λ l. tt };
}

/// An expression of a body.
#[derive(Drop)]
pub struct Expression<'a> {
    written: Written<'a>,
}

impl<'a> Model for Expression<'a> {
    ghost use Rattle.std.specs.Prelude.{List};
    ghost use Rattle.std.specs.Coded.{codes, code_by, coded_list};
    ghost use Rattle.mh_design.specs.Tree.{Expression as Seen};
    ghost use Rattle.mh_gen.specs.Codes.{Word, words, read_words, first_or_now, expression-words};

    ghost Value = { Seen };

    ghost coded = { code_by (List Word) (coded_list (Prim.hlevel codes)) words (λ ts. first_or_now (read_words ts)) expression-words };

    ghost use Rattle.mh_gen.specs.Written.{written_seen};

    ghost view = { λ e. written_seen e.written };
}

/// A left side of a body.
#[derive(Drop)]
pub struct LeftSide<'a> {
    destination: Destination<'a>,
}

impl<'a> Model for LeftSide<'a> {
    ghost use Rattle.std.specs.Prelude.{List};
    ghost use Rattle.std.specs.Coded.{codes, code_by, coded_list};
    ghost use Rattle.mh_design.specs.Tree.{Expression as Part, LeftSide as Seen};
    ghost use Rattle.mh_gen.specs.Codes.{Word, words, read_words, first_or_now, expression-words};

    ghost Value = { Seen };

    ghost coded = { Prim.hlevel (codes, code_by {A = Part} (List Word) (coded_list (Prim.hlevel codes)) words (λ ts. first_or_now (read_words ts)) expression-words) };

    ghost use Rattle.mh_gen.specs.Written.{destination_seen};

    ghost view = { λ p. destination_seen p.destination };
}

impl<'a> Expression<'a> {
    /// An expression of the source.
    pub fn source(e: &'a GExpr) -> Expression<'a>
        ensures { result ≡ expression_of e.now }
    {
        Expression {
            written: Written::Source(e),
        }
    }

    /// A constant integer.
    pub fn integer(value: i128) -> Expression<'a>
        ensures { result ≡ tree.Integer value }
    {
        Expression {
            written: Written::Integer(value),
        }
    }

    /// The truth value that is always true.
    pub fn always() -> Expression<'a>
        ensures { result ≡ tree.Truth true }
    {
        Expression {
            written: Written::Truth(true),
        }
    }

    /// Whether a signal has this truth value.
    pub fn equals(signal: u32, value: bool) -> Expression<'a>
        ensures { result ≡ tree.Operation (tree.Binary binary.Equal) (tree.two (tree.Signal signal) (tree.Truth value)) }
    {
        Expression {
            written: Written::Equals(signal, value),
        }
    }

    /// An end of a `range`, or of a `downrange`.
    pub fn end(down: bool, e: &'a GExpr) -> Expression<'a>
        ensures { result ≡ body.end_of down (expression_of e.now) }
    {
        let written = if down {
            Written::OneLess(e)
        } else {
            Written::Source(e)
        };
        Expression { written }
    }

    /// The step of a `range`, or of a `downrange`.
    pub fn step(down: bool, by: i128) -> Expression<'a>
        ensures { result ≡ body.step_of down by }
    {
        let written = if down {
            Written::Negative(by)
        } else {
            Written::Integer(by)
        };
        Expression { written }
    }
}

impl<'a> LeftSide<'a> {
    /// A left side of the source.
    pub fn source(target: &'a Target) -> LeftSide<'a>
        ensures { result ≡ left_of target.now }
    {
        LeftSide {
            destination: Destination::Source(target),
        }
    }

    /// A signal that a reset sets.
    pub fn reset(signal: u32) -> LeftSide<'a>
        ensures { result ≡ tree.Whole (tree.LeftSignal signal) }
    {
        LeftSide {
            destination: Destination::Reset(signal),
        }
    }

    /// The variable of a loop.
    pub fn variable(local: u32) -> LeftSide<'a>
        ensures { result ≡ tree.Bind local binding.Plain }
    {
        LeftSide {
            destination: Destination::Variable(local),
        }
    }
}

impl<'a> Lang for MyHdl<'a> {
    type Expr = Expression<'a>;

    type Place = LeftSide<'a>;

    type Value = i128;

    type Store = Store<'a>;

    type Fault = Fault;

    ghost value_of = { spec.value_of };

    ghost is_true = { spec.is_true };

    ghost number_of = { λ v. v };

    ghost assigned = { assignment.assigned };

    ghost counted = { assignment.counted };

    ghost is_memory = { assignment.meaning.is_memory };

    ghost fits_expr = { assignment.FitsExpression };

    ghost fits_set = { assignment.meaning.fits_set };

    ghost fits_count = { assignment.FitsLeft };

    ghost assign_keeps = { laws.assign_keeps };

    ghost count_keeps = { laws.count_keeps };

    fn eval(expression: &Expression<'a>, store: &Store<'a>) -> Result<i128, Fault> {
        evaluate(&expression.written, store)
    }

    fn truth(value: &i128) -> bool
        ensures { result ≡ spec.is_true value.now }
    {
        *value != 0
    }

    fn number(value: &i128) -> i128
        ensures { result ≡ value.now }
    {
        *value
    }

    fn assign(place: &LeftSide<'a>, value: i128, store: &mut Store<'a>) -> Result<(), Fault> {
        assign_to(&place.destination, value, store)
    }

    fn count(place: &LeftSide<'a>, number: i128, store: &mut Store<'a>) {
        count_to(&place.destination, number, store);
    }
}
