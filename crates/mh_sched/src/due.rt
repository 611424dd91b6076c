// When delays are over.
ghost use Rattle.std.specs.Prelude.{◌≡◌, ◌+◌, nat_lt};
ghost use Rattle.std.specs.List.{list_any, filter, flat_map};
ghost use Rattle.mh_design.specs.Deltas as spec;
ghost use Rattle.mh_sched.specs.Runs as runs;
ghost use Rattle.mh_sched.specs.Events.{earlier, with_end, with_ends};

use mh_design::Wait;

/// The end of a delay that began at this time. It may lie past the last time that a run reaches.
fn end_of(since: u64, delay: u32) -> u128
    ensures { result ≡ since + delay }
{
    since as u128 + delay as u128
}

/// A wait that began at this time is over by the passing of time.
pub fn is_over(time: u64, since: u64, wait: Wait) -> bool
    ensures { result ≡ spec.is_over time since wait }
{
    match wait {
        Wait::Change(_) => false,
        Wait::Edge(_, _) => false,
        Wait::Delay(delay) => end_of(since, delay) == time as u128,
    }
}

/// One of these waits is over by the passing of time.
pub fn some_is_over(time: u64, since: u64, waits: &[Wait]) -> bool
    ensures { result ≡ list_any (spec.is_over time since) waits.now }
{
    for wait in waits {
        if is_over(time, since, *wait) {
            return true;
        }
    }
    false
}

/// The lesser of an end of a delay and the earliest one so far.
fn lesser(end: u128, best: Option<u128>) -> Option<u128>
    ensures { result ≡ runs.lesser end best }
{
    match best {
        None => Some(end),
        Some(other) => { if end <= other { Some(end) } else { Some(other) } }
    }
}

/// The earlier of an end of a delay, where the wait is one and ends after this time, and the
/// earliest one so far.
fn with_wait(after: u64, since: u64, wait: Wait, best: Option<u128>) -> Option<u128>
    ensures { result ≡ with_end after since wait best }
{
    match wait {
        Wait::Change(_) => best,
        Wait::Edge(_, _) => best,
        Wait::Delay(delay) => {
            let end = end_of(since, delay);
            if (after as u128) < end {
                lesser(end, best)
            } else {
                best
            }
        }
    }
}

/// The earlier of the ends of these waits and the earliest one so far, one after the other.
fn with_waits(after: u64, since: u64, waits: &[Wait], best: Option<u128>) -> Option<u128>
    ensures { result ≡ with_ends after since waits.now best }
{
    let mut earliest = best;
    for wait in waits {
        earliest = with_wait(after, since, *wait, earliest);
    }
    earliest
}

/// The earliest of the ends after a time that these waits have, which began at the same time, and of
/// the earliest one so far. An end may lie past the last time that a run reaches.
pub fn earliest_end(after: u64, since: u64, waits: &[Wait], best: Option<u128>) -> Option<u128>
    ensures { result ≡ earlier (runs.least (filter (nat_lt after) (flat_map (runs.delay_end since) waits.now))) best }
{
    with_waits(after, since, waits, best)
}
