// The faults of a run.
ghost use Rattle.std.specs.Prelude.{◌≡◌, pos};
ghost use Rattle.mh_sched.specs.Faults as spec;
ghost use Rattle.mh_sched.specs.declared.fault.SimFault.TheVariants as variant;

use mh_gen::Fault;
use mh_text::{Code, Memory};

/// What ended a run, or want of memory. A number that the fault's message doesn't show is 0.
#[derive(Clone, Copy, Debug, PartialEq, Eq)]
pub enum SimFault {
    /// One of the faults X1 to X8, at a time and in a line of the source, with the value that broke
    /// the bounds that follow.
    At {
        code: Code,
        time: u64,
        line: u32,
        value: i128,
        low: i128,
        high: i128,
    },
    /// Want of memory.
    Memory,
}

impl From<Memory> for SimFault {
    ghost from_gives = { λ _ e. e ≡ variant.Memory };

    fn from(_wanting: Memory) -> SimFault {
        SimFault::Memory
    }
}

/// A fault that shows no numbers.
pub fn plain_fault(code: Code, time: u64, line: u32) -> SimFault
    ensures { result ≡ variant.At code time line (pos 0) (pos 0) (pos 0) }
{
    SimFault::At {
        code,
        time,
        line,
        value: 0,
        low: 0,
        high: 0,
    }
}

/// A fault of an expression or an assignment, at a time and in a line.
pub fn fault_of(time: u64, line: u32, fault: &Fault) -> SimFault
    ensures { result ≡ spec.fault_of time line fault.now }
{
    let numbers = fault.numbers();
    SimFault::At {
        code: numbers.code,
        time,
        line,
        value: numbers.value,
        low: numbers.low,
        high: numbers.high,
    }
}
