// Calls of a run that no command makes: inputs, and deltas one by one. Signal 0 is `clk`, 1 is `rst`, 2 is `a` and 3 is `b`;
// all are 0 at the start.
ghost use Rattle.std.specs.Prelude.{◌≡◌, ◌<◌, IfOk, length};
ghost use Rattle.mh_sched.specs.At.{IsBetween, IsSomewhere, CanSay, of_sim};

use crate::sources::first;
use mh_design::{Design, well_formed};
use mh_num::OutOfBounds;
use mh_sched::{Delta, End, Sim, SimFault};
use mh_text::Code;
use std::alloc::Global;
use std::process::Abort;
use std::test::Fail;

fn values(sim: &Sim) -> [i128; 4] {
    [sim.value(0), sim.value(1), sim.value(2), sim.value(3)]
}

/// Runs up to a time after which no event is left.
fn goes_quiet(sim: &mut Sim, t: u64, out: &mut Vec<u8>) -> Result<(), Fail>
    requires { IsSomewhere sim.old }
    ensures between { IfOk result (λ _. IsBetween sim.new) }
    ensures somewhere { IfOk result (λ _. IsSomewhere sim.new) }
    ensures design { IfOk result (λ _. of_sim sim.new ≡ of_sim sim.old) }
{
    match sim.run_until(t, out) {
        Ok(End::Quiet) => Ok(()),
        end => Err(Fail::from(end)),
    }
}

/// Runs up to a time after which an event is left.
fn reaches(sim: &mut Sim, t: u64, out: &mut Vec<u8>) -> Result<(), Fail>
    requires { IsSomewhere sim.old }
    ensures between { IfOk result (λ _. IsBetween sim.new) }
    ensures somewhere { IfOk result (λ _. IsSomewhere sim.new) }
    ensures design { IfOk result (λ _. of_sim sim.new ≡ of_sim sim.old) }
{
    match sim.run_until(t, out) {
        Ok(End::Reached) => Ok(()),
        end => Err(Fail::from(end)),
    }
}

/// Does a delta that prints nothing more.
fn ran(sim: &mut Sim) -> Result<(), Fail>
    requires { IsSomewhere sim.old }
    ensures between { IfOk result (λ _. IsBetween sim.new) }
    ensures somewhere { IfOk result (λ _. IsSomewhere sim.new) }
    ensures design { IfOk result (λ _. of_sim sim.new ≡ of_sim sim.old) }
{
    match sim.delta() {
        Ok(Delta::Ran) => Ok(()),
        answer => Err(Fail::from(answer)),
    }
}

/// Nothing is due.
fn rests(sim: &mut Sim) -> Result<(), Fail>
    requires { IsSomewhere sim.old }
    ensures between { IfOk result (λ _. IsBetween sim.new) }
    ensures somewhere { IfOk result (λ _. IsSomewhere sim.new) }
    ensures design { IfOk result (λ _. of_sim sim.new ≡ of_sim sim.old) }
{
    match sim.delta() {
        Ok(Delta::Quiet) => Ok(()),
        answer => Err(Fail::from(answer)),
    }
}

/// Does a delta up to a print: the numbers of its generator and its statement.
fn prints(sim: &mut Sim) -> Result<(u32, u32), Fail>
    requires { IsSomewhere sim.old }
    ensures can_say { IfOk result (λ x. CanSay sim.new x.0) }
    ensures somewhere { IfOk result (λ _. IsSomewhere sim.new) }
    ensures design { IfOk result (λ _. of_sim sim.new ≡ of_sim sim.old) }
{
    match sim.delta() {
        Ok(Delta::Says(g, k)) => Ok((g, k)),
        answer => Err(Fail::from(answer)),
    }
}

/// A generator whose last wait ends ten after a change of `a`.
const LATE: &[u8] =
    b"from myhdl import *\n@block\ndef top(clk, rst, a, b):\n    @instance\n    def g():\n        yield a\n        yield delay(10)\n        b.next = 1\n    return g\ntop(Signal(bool(0)), ResetSignal(0, active=1, isasync=True), Signal(intbv(0)[8:]), Signal(0)).run_sim()\n";

/// Changes `a` four before the last time.
fn change_late(rt: &impl Abort, sim: &mut Sim)
    requires there { 2 < length (of_sim sim.old).signals }
    requires stands { IsBetween sim.old }
    ensures { IsSomewhere sim.new }
{
    assert_eq!(rt; sim.advance(u64::MAX - 4), None);
    assert_eq!(rt; sim.drive(2, 1), Ok(()));
}

/// What follows that change: the delay is over only after the last time.
fn waits_on(rt: &impl Abort, sim: &mut Sim, out: &mut Vec<u8>) -> Result<(), Fail>
    requires { IsSomewhere sim.old }
{
    reaches(sim, u64::MAX - 4, out)?;
    reaches(sim, u64::MAX, out)?;
    reaches(sim, u64::MAX, out)?;
    assert_eq!(rt; sim.advance(u64::MAX), None);
    assert_eq!(rt; values(sim), [0, 0, 1, 0]);
    Ok(())
}

fn changes_late(rt: &impl Abort, alloc: Global, d: &Design) -> Result<(), Fail> {
    let fits = well_formed(d);
    assert!(rt; fits);
    assert!(rt; 2 < d.signals.len());
    let mut sim = Sim::prepare(alloc, d)?;
    let mut out = Vec::new(alloc);
    goes_quiet(&mut sim, 0, &mut out)?;
    change_late(rt, &mut sim);
    waits_on(rt, &mut sim, &mut out)
}

/// No command drives an input, and none runs for so long.
#[test]
fn a_delay_may_end_after_the_last_time(rt: HostRuntime) -> Result<(), Fail> {
    let d = first(rt.alloc(), LATE)?;
    changes_late(&rt, rt.alloc(), &d)
}

/// At each rise of the clock `print("a", int(a)); a.next = a + 1`
const COUNTER: &[u8] =
    b"from myhdl import *\n@block\ndef top(clk, rst, a, b):\n    @always(clk.posedge)\n    def g():\n        print(\"a\", int(a))\n        a.next = a + 1\n    return g\ntop(Signal(bool(0)), ResetSignal(0, active=1, isasync=True), Signal(intbv(0)[8:]), Signal(0)).run_sim()\n";

/// A value of `a` that is too large.
fn outside() -> OutOfBounds {
    OutOfBounds {
        value: 256,
        low: 0,
        high: 255,
    }
}

/// Gives `a` the value 7 from before the start.
fn hold_seven(rt: &impl Abort, sim: &mut Sim)
    requires there { 2 < length (of_sim sim.old).signals }
    requires stands { IsBetween sim.old }
    ensures somewhere { IsSomewhere sim.new }
    ensures design { of_sim sim.new ≡ of_sim sim.old }
{
    assert_eq!(rt; sim.hold(2, 256), Err(outside()));
    assert_eq!(rt; sim.hold(2, 7), Ok(()));
    assert_eq!(rt; values(sim), [0, 0, 7, 0]);
}

/// Raises the clock at time 10, and doesn't change `a`.
fn raise(rt: &impl Abort, sim: &mut Sim)
    requires there { 2 < length (of_sim sim.old).signals }
    requires stands { IsBetween sim.old }
    ensures somewhere { IsSomewhere sim.new }
{
    assert_eq!(rt; sim.advance(10), None);
    assert_eq!(rt; sim.drive(2, 256), Err(outside()));
    assert_eq!(rt; sim.drive(0, 1), Ok(()));
    assert_eq!(rt; values(sim), [0, 0, 7, 0]);
}

/// The delta in which the clock rises, and that in which the counter counts.
fn count_seven(rt: &impl Abort, sim: &mut Sim, out: &mut Vec<u8>) -> Result<(), Fail>
    requires { IsSomewhere sim.old }
{
    ran(sim)?;
    assert_eq!(rt; values(sim), [1, 0, 7, 0]);
    let (g, k) = prints(sim)?;
    assert_eq!(rt; (g, k), (0, 0));
    assert_eq!(rt; sim.say(g, k, out), Ok(()));
    assert_eq!(rt; out.as_slice(), b"a 7\n".as_slice());
    assert_eq!(rt; values(sim), [1, 0, 7, 0]);
    ran(sim)?;
    assert_eq!(rt; values(sim), [1, 0, 8, 0]);
    rests(sim)
}

fn takes_inputs(rt: &impl Abort, alloc: Global, d: &Design) -> Result<(), Fail> {
    let fits = well_formed(d);
    assert!(rt; fits);
    assert!(rt; 2 < d.signals.len());
    let mut sim = Sim::prepare(alloc, d)?;
    let mut out = Vec::new(alloc);
    hold_seven(rt, &mut sim);
    goes_quiet(&mut sim, 0, &mut out)?;
    raise(rt, &mut sim);
    count_seven(rt, &mut sim, &mut out)
}

/// No command holds or drives an input, or does a delta by itself.
#[test]
fn inputs_are_held_and_driven(rt: HostRuntime) -> Result<(), Fail> {
    let d = first(rt.alloc(), COUNTER)?;
    takes_inputs(&rt, rt.alloc(), &d)
}

/// A generator that prints every other time, and one that prints and then leaves the range of `a` on line 13.
const FAULTY: &[u8] =
    b"from myhdl import *\n@block\ndef top(clk, rst, a, b):\n    @instance\n    def x():\n        while True:\n            yield delay(2)\n            print(\"x\", now())\n    @instance\n    def p():\n        yield delay(2)\n        print(\"p\", now())\n        a.next = -1\n    return x, p\ntop(Signal(bool(0)), ResetSignal(0, active=1, isasync=True), Signal(intbv(0)[8:]), Signal(0)).run_sim()\n";

/// Goes on to the first print at time 2, which is that of the second generator.
fn open(rt: &impl Abort, sim: &mut Sim) -> Result<(), Fail>
    requires { IsSomewhere sim.old }
    ensures { IfOk result (λ _. IsSomewhere sim.new) }
{
    ran(sim)?;
    rests(sim)?;
    assert_eq!(rt; sim.advance(9), Some(2));
    let (g, k) = prints(sim)?;
    assert_eq!(rt; (g, k), (0, 2));
    Ok(())
}

/// A run up to time 9 ends with this fault, once and again.
fn fails_twice(rt: &impl Abort, sim: &mut Sim, out: &mut Vec<u8>, want: SimFault)
    requires { IsSomewhere sim.old }
{
    assert_eq!(rt; sim.run_until(9, out), Err(want));
    assert_eq!(rt; out.as_slice(), b"p 2\n".as_slice());
    assert_eq!(rt; sim.delta(), Err(want));
    assert_eq!(rt; sim.run_until(9, out), Err(want));
    assert_eq!(rt; out.as_slice(), b"p 2\n".as_slice());
}

fn opens(rt: &impl Abort, alloc: Global, d: &Design) -> Result<(), Fail> {
    let fits = well_formed(d);
    assert!(rt; fits);
    let mut sim = Sim::prepare(alloc, d)?;
    let mut out = Vec::new(alloc);
    open(rt, &mut sim)?;
    let want = SimFault::At {
        code: Code::X1Range,
        time: 2,
        line: 13,
        value: -1,
        low: 0,
        high: 255,
    };
    fails_twice(rt, &mut sim, &mut out, want);
    Ok(())
}

/// No command goes on in the middle of a delta, or after a fault.
#[test]
fn an_open_delta_is_gone_on_with(rt: HostRuntime) -> Result<(), Fail> {
    let d = first(rt.alloc(), FAULTY)?;
    opens(&rt, rt.alloc(), &d)
}
