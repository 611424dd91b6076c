//! The command `sim FILE`.

ghost use Rattle.std.specs.Prelude.{◌≡◌, ◌<◌, ◌^◌, ℕ, List, length, map, true, IfOk};
ghost use Rattle.mh_design.specs.WellFormed.{is_well_formed};
ghost use Rattle.mh_elab.specs.Answer.{are_well_formed};
ghost use Rattle.mh_plans.specs.Planned.{plan_of};
ghost use Rattle.mh_top.specs.Commands.{Completes, Ends};
ghost use Rattle.mh_top.specs.SimSteps.{EndsRun, HasPrinted, IsDone, IsFailing, IsPlanned, IsRefusing, IsRunIn, IsSimulated};
ghost use Rattle.mh_top.specs.Simulate.{status_of_fault};
ghost use Rattle.mh_top.specs.Words as words;

use crate::complaint::{complain, complain_of, complain_of_memory};
use crate::convert::SOURCE_LIMIT;
use crate::status::Status;
use crate::{lines, source};
use mh_design::{Design, inout};
use mh_elab::Elaborated;
use mh_host::{Fetched, Shelf, ShelfError};
use mh_sched::{Sim, SimFault, runs_once};
use mh_text::{Code, Memory, Refusal, Text};
use std::alloc::Global;

/// What is to be done for a source.
#[derive(Drop)]
pub(crate) enum Step {
    /// Print the text; where that fails, complain of the line.
    Print {
        text: Vec<u8>,
        fault: Vec<u8>,
    },
    /// Print the text, and complain of the line of the run's fault, with this status.
    Fail {
        text: Vec<u8>,
        line: Vec<u8>,
        code: u8,
    },
    /// Complain of the line.
    Refuse {
        line: Vec<u8>,
    },
}

/// What is to be done for a source that is refused.
fn refuse(alloc: Global, refusal: Refusal) -> Result<Step, Memory>
    ensures { IfOk result (IsRefusing refusal) }
{
    match refusal {
        Refusal::At {
            code,
            line,
            names: _,
        } => {
            let line = lines::of_refusal(alloc, code, line)?;
            Ok(Step::Refuse { line })
        }
        Refusal::Memory => Err(Memory),
    }
}

/// The status of a fault of a run: 7 where a limit is met, and 2 otherwise.
fn status_of(code: Code) -> u8
    ensures { result ≡ status_of_fault code }
{
    match code {
        Code::X7DeltaLimit => Status::TOO_LONG,
        Code::X8TurnLimit => Status::TOO_LONG,
        _ => Status::FAULT,
    }
}

/// What is to be done after a fault of a run which has printed this text before it.
fn fail(alloc: Global, text: Vec<u8>, fault: SimFault) -> Result<Step, Memory>
    ensures { IfOk result (IsFailing text.items fault) }
{
    match fault {
        SimFault::Memory => Err(Memory),
        SimFault::At {
            code,
            time,
            line,
            value,
            low,
            high,
        } => {
            let line = lines::of_fault(alloc, code, time, line, value, low, high)?;
            Ok(Step::Fail {
                text,
                line,
                code: status_of(code),
            })
        }
    }
}

/// Runs a design up to a time, that one included.
fn run_up_to(alloc: Global, d: &Design, n: u64) -> Result<Step, Memory>
    requires { is_well_formed d.now ≡ true }
    ensures { IfOk result (IsDone d.now n) }
{
    let mut sim = Sim::prepare(alloc, d)?;
    let mut text = Vec::new(alloc);
    match sim.run_until(n, &mut text) {
        Ok(_) => Ok(Step::Print {
            text,
            fault: lines::of_printing(alloc)?,
        }),
        Err(fault) => fail(alloc, text, fault),
    }
}

/// Runs a design, unless an `@always_comb` in it reads a signal that it drives.
fn simulate_design(alloc: Global, d: &Design, n: u64) -> Result<Step, Memory>
    requires { is_well_formed d.now ≡ true }
    ensures { IfOk result (IsPlanned d.now n) }
{
    match inout(alloc, d) {
        Ok(()) => run_up_to(alloc, d, n),
        Err(refusal) => refuse(alloc, refusal),
    }
}

/// Runs the design that the first request for a run asks for.
fn simulate(alloc: Global, found: &Elaborated) -> Result<Step, Memory>
    requires { are_well_formed found.now.tops ≡ true }
    ensures { IfOk result (IsRunIn (map plan_of found.now.tops) found.now.requests) }
{
    match source::first_run(found.requests.as_slice()) {
        None => refuse(alloc, source::refusal(alloc, Code::C1NoTop)),
        Some((top, n)) => match found.tops.get(top as usize) {
            None => refuse(alloc, source::refusal(alloc, Code::C1NoTop)),
            Some(d) => simulate_design(alloc, d, n),
        },
    }
}

/// What is to be done for a source, with all that it needs of memory.
fn prepare(alloc: Global, source: &[u8]) -> Result<Step, Memory>
    requires { length source.now < 2 ^ 31 }
    ensures { IfOk result (IsSimulated source.now) }
{
    match source::elaborated(alloc, source) {
        Ok(found) => simulate(alloc, &found),
        Err(refusal) => refuse(alloc, refusal),
    }
}

/// Prints a text, unless it is empty, and answers whether no print failed.
fn print<S: Shelf>(shelf: &mut S, text: &[u8]) -> bool
    ensures { HasPrinted text.now result (record { before = S.seen shelf.old; after = S.seen shelf.new; faults_before = S.counts shelf.old; faults_after = S.counts shelf.new }) }
{
    match text {
        [] => true,
        _ => match shelf.print(text) {
            Ok(()) => true,
            Err(_) => false,
        },
    }
}

/// Does what is to be done.
fn finish<S: Shelf>(shelf: &mut S, step: &Step) -> Status
    ensures { (source : List ℕ) → IsSimulated source step.now → EndsRun source (record { before = S.seen shelf.old; after = S.seen shelf.new; faults_before = S.counts shelf.old; faults_after = S.counts shelf.new }) result.code }
{
    match step {
        Step::Print { text, fault } => {
            if print(shelf, text.as_slice()) {
                Status { code: Status::DONE }
            } else {
                complain(shelf, fault.as_slice(), Status::SHELF)
            }
        }
        Step::Fail { text, line, code } => {
            let _ = print(shelf, text.as_slice());
            complain(shelf, line.as_slice(), *code)
        }
        Step::Refuse { line } => complain(shelf, line.as_slice(), Status::REFUSED),
    }
}

/// Runs what a source that was fetched asks for.
fn simulate_source<S: Shelf>(alloc: Global, source: &[u8], shelf: &mut S) -> Status
    requires small { length source.now < 2 ^ 31 }
    ensures { EndsRun source.now (record { before = S.seen shelf.old; after = S.seen shelf.new; faults_before = S.counts shelf.old; faults_after = S.counts shelf.new }) result.code }
{
    match prepare(alloc, source) {
        Ok(step) => finish(shelf, &step),
        Err(_) => complain_of_memory(shelf),
    }
}

/// `sim FILE`: fetches the source that `file` holds, and does the run that its first request for a run
/// asks for. Its printed lines go out in one call at its end, also before the line of its fault.
pub(crate) fn sim<S: Shelf>(alloc: Global, file: &Text, shelf: &mut S) -> Status
    requires file { S.may_fetch file.now }
    ensures ends { Ends (words.Sim file.now) (record { before = S.seen shelf.old; after = S.seen shelf.new; faults_before = S.counts shelf.old; faults_after = S.counts shelf.new }) result.code }
    ensures completes { Completes (words.Sim file.now) (record { before = S.seen shelf.old; after = S.seen shelf.new; faults_before = S.counts shelf.old; faults_after = S.counts shelf.new }) result.code }
{
    runs_once();
    let mut source = Vec::new(alloc);
    match shelf.fetch(file, SOURCE_LIMIT, &mut source) {
        Ok(Fetched::Whole) => simulate_source(alloc, source.as_slice(), shelf),
        Ok(Fetched::TooLong) => {
            complain_of(shelf, lines::of_too_long(alloc, file), Status::TOO_LONG)
        }
        Err(ShelfError::Failed) => complain_of(shelf, lines::of_shelf(alloc, file), Status::SHELF),
        Err(ShelfError::Memory) => complain_of_memory(shelf),
    }
}
