//! Laws over the definitions alone.

ghost use Rattle.std.specs.Prelude.{◌≡◌, ◌↔◌, ℕ, List, Result, Some, None, false};
ghost use Rattle.mh_design.specs.declared.design.Design.{Design};
ghost use Rattle.mh_design.specs.Deltas.{State, Outcome, DeltaStep, first_state, is_due};
ghost use Rattle.mh_sched.specs.declared.answer.Delta.{Delta};
ghost use Rattle.mh_sched.specs.declared.fault.SimFault.{SimFault};
ghost use Rattle.mh_sched.specs.declared.answer.End.{End};
ghost use Rattle.mh_sched.specs.Lines.{Line};
ghost use Rattle.mh_sched.specs.Runs.{Moment, Runs, Row, next_time};
ghost use Rattle.mh_sched.specs.Events.{IsNext, HasNoNext};
ghost use Rattle.mh_sched.specs.Standing.{Standing, DeltaCall, MeansFor, MeansTime, advance_answer};
ghost use Rattle.mh_sched.specs.Outcomes.{IsWhole, HasDelta, HasRun};

use mh_flat::{evaluates_always, evaluates_once};
use mh_gen::MyHdl;

/// A delta is a function of the state: it has one outcome, prints the same lines, and leaves one
/// state. Does nothing.
pub fn delta_once<'a>()
    ensures { (d : Design) (before : State) (o o' : Outcome) (ls ls' : List Line) (after after' : State) → DeltaStep d before o ls after → DeltaStep d before o' ls' after' → (o ≡ o') × (ls ≡ ls') × (after ≡ after') }
{
    evaluates_once::<MyHdl<'a>>(1000000);
}

/// From each state with a process for each generator there is a delta, and the state at the start of
/// a run is such a one. Does nothing.
pub fn delta_always<'a>()
    ensures always { (d : Design) (before : State) → IsWhole d before → HasDelta d before }
    ensures first { (d : Design) → IsWhole d (first_state d) }
{
    evaluates_always::<MyHdl<'a>>(1000000);
}

/// A run up to a time has one outcome: one answer, the same lines and rows, and one moment at its
/// end. Does nothing.
pub fn runs_once<'a>()
    ensures { (d : Design) (limit : ℕ) (m : Moment) (r r' : Result End SimFault) (ls ls' : List Line) (rows rows' : List Row) (n n' : Moment) → Runs d limit m r ls rows n → Runs d limit m r' ls' rows' n' → (r ≡ r') × (ls ≡ ls') × (rows ≡ rows') × (n ≡ n') }
{
    evaluates_once::<MyHdl<'a>>(1000000);
}

/// A run up to a time ends, from each moment with a process for each generator. Does nothing.
pub fn runs_always<'a>()
    ensures { (d : Design) (limit : ℕ) (m : Moment) → IsWhole d m.state → HasRun d limit m }
{
    evaluates_always::<MyHdl<'a>>(1000000);
}

/// The next time is the earliest later one at which a delay is over, if there is one. Does nothing.
pub fn next_laws()
    ensures some { (st : State) (u : ℕ) → (next_time st ≡ Some u) ↔ IsNext st u }
    ensures none { (st : State) → (next_time st ≡ None) ↔ HasNoNext st }
{}

/// Calls of deltas, prints and steps of time do the run: what runs up to a limit from where a call
/// leaves a simulator runs from where it stood, with the line of the print before; a stop and a fault
/// end the run, also a fault in a print; and where nothing is due, a step of time goes on with it or
/// has ended it. Does nothing.
pub fn call_laws()
    ensures calls { (d : Design) (limit : ℕ) (before after : Standing) (a : Result Delta SimFault) → DeltaCall d before a after → MeansFor d limit before a after }
    ensures times { (d : Design) (limit : ℕ) (m : Moment) → is_due d m.state ≡ false → MeansTime d limit m (advance_answer limit m) }
{}
