// The signals and the generators of a run.
ghost use Rattle.std.specs.Prelude.{◌≡◌, ◌<◌, ◌≤◌, ℕ, List, true, false, IsTrue, length, map, slice_get, slice_index_or, pos, Some, Ok, Err, IfOk, IfErr, OnErr};
ghost use Rattle.mh_design.specs.declared.design.Generator.{Generator as Seen};
ghost use Rattle.mh_design.specs.Assignments.{next_set};
ghost use Rattle.mh_design.specs.Deltas as deltas;
ghost use Rattle.mh_design.specs.Values.{Signals as SeenSignals};
ghost use Rattle.mh_design.specs.WellFormed.{is_well_formed};
ghost use Rattle.mh_signals.specs.Holding.{held};
ghost use Rattle.mh_sched.specs.Runs as runs;
ghost use Rattle.mh_sched.specs.Kept as kept;
ghost use Rattle.mh_sched.specs.Kept.{IsRun, IsSomeRun, IsResting, IsHalfway, design_of, no_counts, count_at, RunTurned, HasPassed, HasResumed};

use crate::due::{earliest_end, some_is_over};
use crate::fault::SimFault;
use crate::line::{put_line, unsaid_fault};
use crate::plan::Plan;
use crate::process::{Process, Turn};
use mh_design::Design;
use mh_gen::{Store, body_laws};
use mh_num::OutOfBounds;
use mh_signals::Signals;
use mh_text::Memory;
use sqlite_items::Items;
use std::alloc::Global;

/// The signals and the time of a run, and its generators. Between calls the store has no locals.
#[derive(Drop)]
pub struct Run<'a> {
    store: Store<'a>,
    plans: Vec<Plan<'a>>,
    processes: Vec<Process>,
    /// How many generators there are.
    count: u32,
}

/// What a call of a delta comes to: all generators have been gone through, one of them prints, or a
/// stop or a fault breaks it off.
#[derive(Clone, Copy)]
pub enum Passed {
    Finished,
    Says(u32, u32),
    Stops,
    Fails(SimFault),
}

/// How many generators there are, at most 1,024.
fn generator_count(d: &Design) -> u32
    requires { IsTrue (is_well_formed d.now) }
    ensures { result ≡ length d.now.generators }
{
    d.generators.len() as u32
}

impl<'a> Run<'a> {
    /// A run before its start.
    pub fn new(alloc: Global, d: &'a Design) -> Result<Run<'a>, Memory>
        requires { IsTrue (is_well_formed d.now) }
        ensures run { IfOk result (λ r. IsRun r 0 (deltas.first_signals d.now) (map (deltas.first_process d.now) d.now.generators) no_counts) }
        ensures design { IfOk result (λ r. design_of r ≡ d.now) }
    {
        let count = generator_count(d);
        let mut plans = Vec::new(alloc);
        let mut processes = Vec::new(alloc);
        for number in 0..count {
            let plan = Plan::new(alloc, d, number)?;
            let process = Process::new(alloc, d, number, &plan)?;
            plans.push(plan)?;
            processes.push(process)?;
        }
        let signals = Signals::new(alloc, d)?;
        Ok(Run {
            store: Store::new(d, signals, Items::new(alloc), 0),
            plans,
            processes,
            count,
        })
    }

    /// The time.
    pub fn time(&self) -> u64
        ensures { result ≡ self.now.store.time }
    {
        self.store.time()
    }

    /// Gives a signal the value that it has from before the start.
    pub fn hold(&mut self, s: u32, v: i128) -> Result<(), OutOfBounds>
        requires { s < length self.old.store.signals.values }
        ensures ok { IfOk result (λ _. held self.old.store.signals s v ≡ Ok self.new.store.signals) }
        ensures err { IfErr result (λ e. (held self.old.store.signals s v ≡ Err e) × (self.new ≡ self.old)) }
        ensures rest { self.new ≡ record self.old { store = record self.old.store { signals = self.new.store.signals } } }
    {
        self.store.hold(s, v)
    }

    /// Makes a value of a signal pending.
    pub fn drive(&mut self, s: u32, v: i128) -> Result<(), OutOfBounds>
        requires { s < length self.old.store.signals.values }
        ensures ok { IfOk result (λ _. next_set self.old.store.signals s v ≡ Ok self.new.store.signals) }
        ensures err { IfErr result (λ e. (next_set self.old.store.signals s v ≡ Err e) × (self.new ≡ self.old)) }
        ensures rest { self.new ≡ record self.old { store = record self.old.store { signals = self.new.store.signals } } }
    {
        self.store.set_next(s, v)
    }

    /// The current value of a signal.
    pub fn value(&self, s: u32) -> i128
        ensures { result ≡ slice_index_or self.now.store.signals.values s (pos 0) }
    {
        self.store.signal_value(s)
    }

    /// The generator with this number is woken.
    fn is_woken(&self, k: u32) -> bool
        requires there { k < self.now.count }
        requires run { IsSomeRun self.now }
        ensures { (time : ℕ) (s : SeenSignals) (xs : List deltas.Process) (counts : ℕ → ℕ) (x : deltas.Process) → IsRun self.now time s xs counts → slice_get xs k ≡ Some x → result ≡ deltas.is_woken s time x k }
    {
        let signals = self.store.signals();
        signals.woken(k)
            || some_is_over(
                self.store.time(),
                self.processes[k as usize].since(),
                signals.waits(k),
            )
    }

    /// Some generator is woken.
    fn any_is_woken(&self) -> bool
        requires { IsSomeRun self.now }
        ensures { (time : ℕ) (s : SeenSignals) (xs : List deltas.Process) (counts : ℕ → ℕ) → IsRun self.now time s xs counts → result ≡ deltas.any_woken s time 0 xs }
    {
        for k in 0..self.count {
            if self.is_woken(k) {
                return true;
            }
        }
        false
    }

    /// Something is left to do at this time.
    pub fn is_due(&self) -> bool
        requires { IsSomeRun self.now }
        ensures { (time : ℕ) (s : SeenSignals) (xs : List deltas.Process) (counts : ℕ → ℕ) → IsRun self.now time s xs counts → result ≡ deltas.is_due (design_of self.now) (kept.state_of time s xs) }
    {
        self.store.signals().is_pending() || self.any_is_woken()
    }

    /// The generator with this number goes on.
    fn turn(&mut self, k: u32) -> Turn
        requires there { k < self.old.count }
        requires run { IsSomeRun self.old }
        ensures { (time : ℕ) (s : SeenSignals) (xs : List deltas.Process) (n : ℕ) (g : Seen) (x : deltas.Process) → IsRun self.old time s xs (count_at k n) → slice_get (design_of self.old).generators k ≡ Some g → slice_get xs k ≡ Some x → RunTurned (design_of self.old) time n k g x s xs result self.new }
    {
        body_laws();
        let at = k as usize;
        self.processes[at].take_turn(&self.plans[at], &mut self.store, k)
    }

    /// The generator with this number goes on where it is woken.
    fn visit(&mut self, k: u32) -> Turn
        requires there { k < self.old.count }
        requires run { IsSomeRun self.old }
        ensures { (time : ℕ) (s : SeenSignals) (xs : List deltas.Process) (g : Seen) (x : deltas.Process) → IsRun self.old time s xs no_counts → slice_get (design_of self.old).generators k ≡ Some g → slice_get xs k ≡ Some x → kept.HasVisited (design_of self.old) time k g x s xs result self.old self.new }
    {
        if self.is_woken(k) {
            self.turn(k)
        } else {
            Turn::Rests
        }
    }

    /// Goes through the generators from this number on, up to the first that prints or breaks off.
    pub fn pass(&mut self, from: u32) -> Passed
        requires there { from ≤ self.old.count }
        requires run { IsResting self.old }
        ensures { (time : ℕ) (s : SeenSignals) (xs : List deltas.Process) → IsRun self.old time s xs no_counts → HasPassed (design_of self.old) time from xs s result self.new }
    {
        for k in from..self.count {
            match self.visit(k) {
                Turn::Rests => {}
                Turn::Says(number) => return Passed::Says(k, number),
                Turn::Stops => return Passed::Stops,
                Turn::Fails(fault) => return Passed::Fails(fault),
            }
        }
        Passed::Finished
    }

    /// The generator with this number goes on, and then those after it, up to the first that prints
    /// or breaks off.
    pub fn go_on(&mut self, k: u32) -> Passed
        requires there { k < self.old.count }
        requires run { IsHalfway self.old k }
        ensures { (time : ℕ) (s : SeenSignals) (xs : List deltas.Process) (n : ℕ) → IsRun self.old time s xs (count_at k n) → HasResumed (design_of self.old) time n k xs s result self.new }
    {
        match self.turn(k) {
            Turn::Rests => self.pass(k + 1),
            Turn::Says(number) => Passed::Says(k, number),
            Turn::Stops => Passed::Stops,
            Turn::Fails(fault) => Passed::Fails(fault),
        }
    }

    /// Adds the line that the statement with this number of this generator prints.
    pub fn put_line(&mut self, g: u32, k: u32, out: &mut Vec<u8>) -> Result<(), SimFault>
        requires there { g < self.old.count }
        requires run { IsSomeRun self.old }
        ensures ok { IfOk result (λ _. kept.AllSaid self.old g k (λ line. kept.said_on out.old.items line ≡ Ok out.new.items)) }
        ensures err { IfErr result (λ f. kept.AllSaid self.old g k (kept.IsSaidFault self.old.store.time f)) }
        ensures unchanged { OnErr result (out.new.items ≡ out.old.items) }
        ensures same { self.new ≡ self.old }
    {
        body_laws();
        let plan = &self.plans[g as usize];
        let process = &mut self.processes[g as usize];
        process.swap_locals(&mut self.store);
        let said = put_line(plan.printed(k), &self.store, out);
        process.swap_locals(&mut self.store);
        match said {
            Ok(()) => Ok(()),
            Err(why) => Err(unsaid_fault(self.store.time(), plan.line(k), &why)),
        }
    }

    /// Ends a delta: all pending values are taken.
    pub fn update(&mut self)
        ensures { (time : ℕ) (s : SeenSignals) (xs : List deltas.Process) → IsRun self.old time s xs no_counts → IsRun self.new time (deltas.updated s) xs no_counts × (design_of self.new ≡ design_of self.old) }
    {
        self.store.update();
    }

    /// The earliest later time that has an event.
    pub fn next_time(&self) -> Option<u128>
        requires { IsSomeRun self.now }
        ensures { (time : ℕ) (s : SeenSignals) (xs : List deltas.Process) (counts : ℕ → ℕ) → IsRun self.now time s xs counts → result ≡ runs.next_time (kept.state_of time s xs) }
    {
        let mut best = None;
        for k in 0..self.count {
            best = earliest_end(
                self.store.time(),
                self.processes[k as usize].since(),
                self.store.signals().waits(k),
                best,
            );
        }
        best
    }

    /// The time goes on.
    pub fn move_to(&mut self, time: u64)
        ensures { (before : ℕ) (s : SeenSignals) (xs : List deltas.Process) → IsRun self.old before s xs no_counts → IsRun self.new time s xs no_counts × (design_of self.new ≡ design_of self.old) }
    {
        self.store.set_time(time);
    }
}
