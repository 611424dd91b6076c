// What changes of a generator in a run.
ghost use Rattle.std.specs.Prelude.{◌≡◌, ◌<◌, ◌≤◌, ℕ, IsTrue, length, slice_get, Some, IfOk};
ghost use Rattle.mh_flat.specs.Flat.{IsCodeOf};
ghost use Rattle.mh_design.specs.declared.design.Design.{Design as SeenDesign};
ghost use Rattle.mh_design.specs.declared.design.Generator.{Generator as Seen};
ghost use Rattle.mh_design.specs.Bodies.{generator_flow};
ghost use Rattle.mh_design.specs.Deltas as deltas;
ghost use Rattle.mh_design.specs.WellFormed.{is_well_formed};
ghost use Rattle.mh_gen.specs.Running.{RunsIn};
ghost use Rattle.mh_sched.specs.Kept.{IsPlan, IsStanding, own_store, CanGoOn, HasRoom, GoneOn, Turned};

use crate::fault::{SimFault, fault_of, plain_fault};
use crate::plan::Plan;
use mh_design::{Design, Wait};
use mh_flat::{Resumed, State, resume, start};
use mh_gen::{Fault, Held, Store, body_laws, first_locals};
use mh_text::{Code, Memory};
use sqlite_items::Items;
use std::alloc::Global;

/// The statements that may be executed without a wait.
const TURN_LIMIT: u64 = 1_000_000;

/// Where a generator stands: in its code, with the values of its locals, and since when it waits.
#[derive(Drop)]
pub struct Process {
    state: State,
    locals: Items<Held>,
    since: u64,
}

/// What an evaluation of a generator comes to: it waits or has ended, the statement with this number
/// prints, it stops the run, or a fault ends it.
#[derive(Clone, Copy)]
pub enum Turn {
    Rests,
    Says(u32),
    Stops,
    Fails(SimFault),
}

impl Process {
    /// The generator with this number as a run starts.
    pub fn new(alloc: Global, d: &Design, number: u32, plan: &Plan) -> Result<Process, Memory>
        requires formed { IsTrue (is_well_formed d.now) }
        requires there { number < length d.now.generators }
        requires code { (g : Seen) → slice_get d.now.generators number ≡ Some g → IsCodeOf (generator_flow d.now g) plan.now.code.code }
        ensures { IfOk result (λ q. (g : Seen) → slice_get d.now.generators number ≡ Some g → IsStanding d.now g plan.now q (deltas.first_process d.now g) 0) }
    {
        body_laws();
        let state = start(alloc, plan.code())?;
        let locals = first_locals(alloc, d, number)?;
        Ok(Process {
            state,
            locals,
            since: 0,
        })
    }

    /// Since when it waits.
    pub fn since(&self) -> u64
        ensures { result ≡ self.now.since }
    {
        self.since
    }

    /// The store takes the locals of this generator, and this one what the store had.
    pub fn swap_locals(&mut self, store: &mut Store)
        ensures own { self.new ≡ record self.old { locals = store.old.locals } }
        ensures store { store.new ≡ record store.old { locals = self.old.locals } }
    {
        store.swap_locals(&mut self.locals);
    }

    /// Goes on with its body up to the next stop.
    fn go_on<'a>(&mut self, plan: &Plan<'a>, store: &mut Store<'a>) -> Resumed<Fault>
        requires { CanGoOn plan.now self.old store.old }
        ensures { (d : SeenDesign) (g : Seen) (x : deltas.Process) (n : ℕ) → IsStanding d g plan.now self.old x n → RunsIn d g (own_store store.old x) → GoneOn d g x n plan.now store.old result self.new store.new }
    {
        body_laws();
        self.swap_locals(store);
        let answer = resume(plan.code(), &mut self.state, store, TURN_LIMIT);
        self.swap_locals(store);
        answer
    }

    /// The generator with this number waits from now on for these.
    fn wait(&mut self, store: &mut Store, k: u32, waits: &[Wait])
        requires there { k < length store.old.signals.waiters }
        requires room { length waits.now ≤ (deltas.waiter_at store.old.signals k).room }
        ensures own { self.new ≡ record self.old { since = store.old.time } }
        ensures store { store.new ≡ record store.old { signals = deltas.waiting store.old.signals k waits.now } }
    {
        store.wait(k, waits);
        self.since = store.time();
    }

    /// The generator with this number goes on, and waits where it is done.
    pub fn take_turn<'a>(&mut self, plan: &Plan<'a>, store: &mut Store<'a>, k: u32) -> Turn
        requires stands { CanGoOn plan.now self.old store.old }
        requires there { k < length store.old.signals.waiters }
        requires room { HasRoom plan.now (deltas.waiter_at store.old.signals k).room }
        ensures { (d : SeenDesign) (g : Seen) (x : deltas.Process) (n : ℕ) → IsPlan d g plan.now → IsStanding d g plan.now self.old x n → RunsIn d g (own_store store.old x) → Turned d store.old.time n k g x plan.now store.old result self.new store.new }
    {
        match self.go_on(plan, store) {
            Resumed::Waits(number) => {
                self.wait(store, k, plan.waited(number));
                Turn::Rests
            }
            Resumed::Ended => {
                self.wait(store, k, &[]);
                Turn::Rests
            }
            Resumed::Says(number) => Turn::Says(number),
            Resumed::Stopped => Turn::Stops,
            Resumed::CheckFailed(place) => Turn::Fails(plain_fault(
                Code::X3Assert,
                store.time(),
                plan.line_of_place(place),
            )),
            Resumed::Fault(place, fault) => {
                Turn::Fails(fault_of(store.time(), plan.line_of_place(place), &fault))
            }
            Resumed::TurnLimit => Turn::Fails(plain_fault(Code::X8TurnLimit, store.time(), 0)),
        }
    }
}
