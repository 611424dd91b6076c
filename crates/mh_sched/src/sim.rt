// A run of a design.
ghost use Rattle.std.specs.Prelude.{◌≡◌, ◌<◌, ◌≤◌, ℕ, List, true, IsTrue, length, pos, slice_index_or, Err, IfOk, IfErr, MatchOption};
ghost use Rattle.mh_design.specs.Deltas as deltas;
ghost use Rattle.mh_design.specs.Values.{Signals as SeenSignals};
ghost use Rattle.mh_design.specs.WellFormed.{is_well_formed};
ghost use Rattle.mh_sched.specs.declared.fault.SimFault.{SimFault as SeenFault};
ghost use Rattle.mh_sched.specs.declared.sim.Phase.TheVariants as phase;
ghost use Rattle.mh_sched.specs.Calls.{Reply};
ghost use Rattle.mh_sched.specs.Kept as kept;
ghost use Rattle.mh_sched.specs.Runs.{Moment, at_time, delta_limit};
ghost use Rattle.mh_sched.specs.Standing as standing;
ghost use Rattle.mh_sched.specs.Standing.{Standing, Between};
ghost use Rattle.mh_sched.specs.At as at;
ghost use Rattle.mh_sched.specs.At.{IsAt, IsBetween, IsSomewhere, StandsAfter, StandsAtEnd, of_sim};

use crate::answer::{Delta, End};
use crate::fault::{SimFault, plain_fault};
use crate::laws::call_laws;
use crate::run::{Passed, Run};
use mh_design::Design;
use mh_num::OutOfBounds;
use mh_text::{Code, Memory};
use std::alloc::Global;

/// How many deltas may be done at one time.
const DELTA_LIMIT: u32 = 10_000;

/// Where a run stands: between two deltas, in a delta whose generator with this number has printed,
/// or after its end.
#[derive(Clone, Copy)]
pub enum Phase {
    Between,
    Inside(u32),
    Stopped,
    Failed(SimFault),
}

/// A run of a design.
#[derive(Drop)]
pub struct Sim<'a> {
    run: Run<'a>,
    /// How many deltas were done at this time.
    deltas: u32,
    phase: Phase,
}

/// The time of an event, where it lies within a limit.
fn within(limit: u64, event: Option<u128>) -> Option<u64>
    ensures { result ≡ standing.reached_event limit event }
{
    match event {
        None => None,
        Some(time) => {
            if time <= limit as u128 {
                Some(time as u64)
            } else {
                None
            }
        }
    }
}

/// How a run ends that reaches its limit, with this next event.
fn quiet_end(event: Option<u128>) -> End
    ensures { result ≡ standing.quiet_end event }
{
    match event {
        None => End::Quiet,
        Some(_) => End::Reached,
    }
}

/// The phase after a fault of a print. Want of memory leaves it.
fn phase_after(fault: SimFault, before: Phase) -> Phase
    ensures { at.IsEndedBy fault before result }
{
    match fault {
        SimFault::Memory => before,
        SimFault::At { .. } => Phase::Failed(fault),
    }
}

impl<'a> Sim<'a> {
    /// A run of a design, before its start.
    pub fn prepare(alloc: Global, d: &'a Design) -> Result<Sim<'a>, Memory>
        requires { IsTrue (is_well_formed d.now) }
        ensures stands { IfOk result (λ sim. IsAt sim (standing.first_standing d.now)) }
        ensures between { IfOk result (λ sim. IsBetween sim) }
        ensures somewhere { IfOk result (λ sim. IsSomewhere sim) }
        ensures design { IfOk result (λ sim. of_sim sim ≡ d.now) }
    {
        Ok(Sim {
            run: Run::new(alloc, d)?,
            deltas: 0,
            phase: Phase::Between,
        })
    }

    /// Gives a signal the value that it has from before the start. An `OutOfBounds` comes exactly
    /// where the value is outside the signal's bounds and they don't wrap, and changes nothing.
    pub fn hold(&mut self, s: u32, v: i128) -> Result<(), OutOfBounds>
        requires there { s < length (of_sim self.old).signals }
        requires stands { IsBetween self.old }
        ensures ok { IfOk result (λ _. (m : Moment) → IsAt self.old (Between m) → at.IsGiven (standing.hold_of m s v) (of_sim self.old) self.new) }
        ensures err { IfErr result (λ e. (m : Moment) → IsAt self.old (Between m) → standing.hold_of m s v ≡ Err e) }
        ensures unchanged { IfErr result (λ e. self.new ≡ self.old) }
        ensures between { IsBetween self.new }
        ensures somewhere { IsSomewhere self.new }
        ensures design { of_sim self.new ≡ of_sim self.old }
    {
        match self.run.hold(s, v) {
            Ok(()) => Ok(()),
            Err(outside) => Err(outside),
        }
    }

    /// Makes a value of a signal pending for the next delta. An `OutOfBounds` comes exactly where the
    /// value is outside the signal's bounds and they don't wrap, and changes nothing.
    pub fn drive(&mut self, s: u32, v: i128) -> Result<(), OutOfBounds>
        requires there { s < length (of_sim self.old).signals }
        requires stands { IsBetween self.old }
        ensures ok { IfOk result (λ _. (m : Moment) → IsAt self.old (Between m) → at.IsGiven (standing.drive_of m s v) (of_sim self.old) self.new) }
        ensures err { IfErr result (λ e. (m : Moment) → IsAt self.old (Between m) → standing.drive_of m s v ≡ Err e) }
        ensures unchanged { IfErr result (λ e. self.new ≡ self.old) }
        ensures between { IsBetween self.new }
        ensures somewhere { IsSomewhere self.new }
        ensures design { of_sim self.new ≡ of_sim self.old }
    {
        match self.run.drive(s, v) {
            Ok(()) => Ok(()),
            Err(outside) => Err(outside),
        }
    }

    /// The current value of a signal.
    pub fn value(&self, s: u32) -> i128
        ensures { (st : Standing) → IsAt self.now st → result ≡ slice_index_or (standing.values_of st) s (pos 0) }
    {
        self.run.value(s)
    }

    /// What a call of a delta has come to.
    fn conclude(&mut self, passed: Passed) -> Result<Delta, SimFault>
        requires { self.old.deltas < 10000 }
        ensures { (m : Moment) (r : Reply) (xs : List deltas.Process) (s : SeenSignals) → at.Concludes self.old passed m r xs s → at.HasConcluded m r xs s result self.new (of_sim self.old) }
    {
        match passed {
            Passed::Finished => {
                self.run.update();
                self.deltas += 1;
                self.phase = Phase::Between;
                Ok(Delta::Ran)
            }
            Passed::Says(g, k) => {
                self.phase = Phase::Inside(g);
                Ok(Delta::Says(g, k))
            }
            Passed::Stops => {
                self.phase = Phase::Stopped;
                Ok(Delta::Stopped)
            }
            Passed::Fails(fault) => {
                self.phase = Phase::Failed(fault);
                Err(fault)
            }
        }
    }

    /// Ends the run, since too many deltas were done at this time.
    fn exceed(&mut self) -> Result<Delta, SimFault>
        ensures { (m : Moment) → IsAt self.old (Between m) → deltas.is_due (of_sim self.old) m.state ≡ true → delta_limit ≤ m.deltas → at.DeltaDone (of_sim self.old) (Between m) result self.new }
    {
        let fault = plain_fault(Code::X7DeltaLimit, self.run.time(), 0);
        self.phase = Phase::Failed(fault);
        Err(fault)
    }

    /// Begins a delta that is due.
    fn begin_due(&mut self) -> Result<Delta, SimFault>
        requires { (m : Moment) × IsAt self.old (Between m) }
        ensures { (m : Moment) → IsAt self.old (Between m) → deltas.is_due (of_sim self.old) m.state ≡ true → at.DeltaDone (of_sim self.old) (Between m) result self.new }
    {
        if self.deltas >= DELTA_LIMIT {
            return self.exceed();
        }
        let passed = self.run.pass(0);
        self.conclude(passed)
    }

    /// Begins a delta, where one is due.
    fn begin(&mut self) -> Result<Delta, SimFault>
        requires { (m : Moment) × IsAt self.old (Between m) }
        ensures { (m : Moment) → IsAt self.old (Between m) → at.DeltaDone (of_sim self.old) (Between m) result self.new }
    {
        let is_due = self.run.is_due();
        if is_due {
            return self.begin_due();
        }
        Ok(Delta::Quiet)
    }

    /// Goes on with a delta where this generator has printed.
    fn go_on(&mut self, g: u32) -> Result<Delta, SimFault>
        requires { (m : Moment) × (n : ℕ) × IsAt self.old (standing.Inside m g n) }
        ensures { (m : Moment) (n : ℕ) → IsAt self.old (standing.Inside m g n) → at.DeltaDone (of_sim self.old) (standing.Inside m g n) result self.new }
    {
        let passed = self.run.go_on(g);
        self.conclude(passed)
    }

    /// Does a call of a delta, wherever the run stands.
    fn one_call(&mut self) -> Result<Delta, SimFault>
        requires { IsSomewhere self.old }
        ensures { (st : Standing) → IsAt self.old st → at.DeltaDone (of_sim self.old) st result self.new }
    {
        match self.phase {
            Phase::Between => self.begin(),
            Phase::Inside(g) => self.go_on(g),
            Phase::Stopped => Ok(Delta::Stopped),
            Phase::Failed(fault) => Err(fault),
        }
    }

    /// Does a delta, up to its end or its next print, after which the next call goes on with it. After
    /// a stop and after a fault the same answer comes again.
    pub fn delta(&mut self) -> Result<Delta, SimFault>
        requires { IsSomewhere self.old }
        ensures done { (st : Standing) → IsAt self.old st → at.DeltaDone (of_sim self.old) st result self.new }
        ensures stands { StandsAfter result self.new }
        ensures somewhere { IsSomewhere self.new }
        ensures design { of_sim self.new ≡ of_sim self.old }
    {
        self.one_call()
    }

    /// Ends the run with the fault of a print; want of memory doesn't.
    fn end_by(&mut self, fault: SimFault)
        ensures run { self.new.run ≡ self.old.run }
        ensures deltas { self.new.deltas ≡ self.old.deltas }
        ensures phase { at.IsEndedBy fault self.old.phase self.new.phase }
    {
        self.phase = phase_after(fault, self.phase);
    }

    /// The fault that has ended the run.
    fn failure(&self) -> Option<SimFault>
        ensures { MatchOption result ((f : SeenFault) → self.now.phase ≡ phase.Failed f → ⊥) (λ f. self.now.phase ≡ phase.Failed f) }
    {
        match self.phase {
            Phase::Between => None,
            Phase::Inside(_) => None,
            Phase::Stopped => None,
            Phase::Failed(fault) => Some(fault),
        }
    }

    /// Adds the line of the print where a generator stands in a delta.
    fn say_line(&mut self, g: u32, k: u32, out: &mut Vec<u8>) -> Result<(), SimFault>
        requires { (m : Moment) × (n : ℕ) × IsAt self.old (standing.Inside m g n) }
        ensures { (m : Moment) (n : ℕ) → IsAt self.old (standing.Inside m g n) → at.HasSaid (of_sim self.old) g k (standing.Inside m g n) result out.old.items out.new.items self.old self.new }
    {
        match self.run.put_line(g, k, out) {
            Ok(()) => Ok(()),
            Err(fault) => {
                self.end_by(fault);
                Err(fault)
            }
        }
    }

    /// Adds the line of the print that the last delta answered, with the numbers of that answer, or
    /// answers the fault of one of its parts, which ends the run and adds nothing. After a fault the
    /// same fault comes again. Want of memory changes nothing.
    pub fn say(&mut self, g: u32, k: u32, out: &mut Vec<u8>) -> Result<(), SimFault>
        requires { at.CanSay self.old g }
        ensures said { (st : Standing) → IsAt self.old st → at.SaysAt g st → at.HasSaid (of_sim self.old) g k st result out.old.items out.new.items self.old self.new }
        ensures somewhere { IsSomewhere self.new }
        ensures design { of_sim self.new ≡ of_sim self.old }
    {
        match self.failure() {
            Some(fault) => Err(fault),
            None => self.say_line(g, k, out),
        }
    }

    /// The time goes on.
    fn move_to(&mut self, time: u64)
        ensures { (m : Moment) → IsAt self.old (Between m) → at.HasMoved (at_time time m) self.new (of_sim self.old) }
    {
        let before = self.run.time();
        if before == time {
            return;
        }
        self.run.move_to(time);
        self.deltas = 0;
    }

    /// The time goes on to an event within a limit, and else to the limit.
    fn move_within(&mut self, limit: u64, event: Option<u128>) -> Option<u64>
        ensures answer { result ≡ standing.reached_event limit event }
        ensures moved { (m : Moment) → IsAt self.old (Between m) → at.HasMoved (standing.moved limit (standing.reached_event limit event) m) self.new (of_sim self.old) }
    {
        match within(limit, event) {
            None => {
                self.move_to(limit);
                None
            }
            Some(time) => {
                self.move_to(time);
                Some(time)
            }
        }
    }

    /// The time goes on to the earliest later event up to a limit, which is answered, and else to the
    /// limit.
    pub fn advance(&mut self, limit: u64) -> Option<u64>
        requires { IsBetween self.old }
        ensures answer { (m : Moment) → IsAt self.old (Between m) → result ≡ standing.advance_answer limit m }
        ensures moved { (m : Moment) → IsAt self.old (Between m) → at.HasMoved (standing.advanced limit m) self.new (of_sim self.old) }
        ensures between { IsBetween self.new }
        ensures somewhere { IsSomewhere self.new }
        ensures design { of_sim self.new ≡ of_sim self.old }
    {
        let event = self.run.next_time();
        self.move_within(limit, event)
    }

    /// The time goes on, or the run up to the limit has ended.
    fn step(&mut self, limit: u64) -> Option<End>
        requires { (m : Moment) × IsAt self.old (Between m) }
        ensures { (m : Moment) → IsAt self.old (Between m) → at.HasStepped limit m result self.new (of_sim self.old) }
    {
        let event = self.run.next_time();
        match self.move_within(limit, event) {
            None => Some(quiet_end(event)),
            Some(_) => None,
        }
    }

    /// Does a delta to its end, and adds the lines that are printed.
    fn whole_delta(&mut self, out: &mut Vec<u8>) -> Result<Delta, SimFault>
        requires { IsSomewhere self.old }
        ensures { (limit : ℕ) (st : Standing) → IsAt self.old st → at.DeltaWhole (of_sim self.old) limit st result out.old.items out.new.items self.new }
    {
        call_laws();
        loop {
            let answer = self.delta()?;
            match answer {
                Delta::Says(g, k) => self.say(g, k, out)?,
                Delta::Ran => return Ok(Delta::Ran),
                Delta::Quiet => return Ok(Delta::Quiet),
                Delta::Stopped => return Ok(Delta::Stopped),
            }
        }
    }

    /// Does a delta to its end, or a step of time where none is due, and answers where that ends the
    /// run up to a limit.
    fn go_round(&mut self, t: u64, out: &mut Vec<u8>) -> Result<Option<End>, SimFault>
        requires { IsSomewhere self.old }
        ensures { (st : Standing) → IsAt self.old st → at.GoesRound (of_sim self.old) t st result out.old.items out.new.items self.old self.new }
    {
        call_laws();
        let answer = self.whole_delta(out)?;
        match answer {
            Delta::Ran => Ok(None),
            Delta::Says(_, _) => Ok(None),
            Delta::Stopped => Ok(Some(End::Stopped)),
            Delta::Quiet => {
                let end = self.step(t);
                Ok(end)
            }
        }
    }

    /// Does what is left at the time that stands, and all times up to and including `t`, and adds the
    /// lines that are printed. `Quiet` comes exactly where no later event is left, and then and after
    /// `Reached` the time is `t`. A stop and a fault come again at each later call. After want of
    /// memory nothing but `value` is of use.
    pub fn run_until(&mut self, t: u64, out: &mut Vec<u8>) -> Result<End, SimFault>
        requires { IsSomewhere self.old }
        ensures ran { (st : Standing) → IsAt self.old st → at.RunsUntil (of_sim self.old) t st result out.old.items out.new.items self.new }
        ensures stands { StandsAtEnd result self.new }
        ensures somewhere { IsSomewhere self.new }
        ensures design { of_sim self.new ≡ of_sim self.old }
    {
        loop {
            let answer = self.go_round(t, out)?;
            match answer {
                Some(end) => return Ok(end),
                None => {}
            }
        }
    }
}
