// What stands as a run starts.
ghost use Rattle.std.specs.Prelude.{◌≡◌, map, IsTrue, IfOk};
ghost use Rattle.mh_design.specs.Values as spec;
ghost use Rattle.mh_design.specs.WellFormed.{is_well_formed};
ghost use Rattle.mh_signals.specs.Seen.{limits_seen};
ghost use Rattle.mh_signals.specs.Woken.{HasCodes, woken_with};

use crate::codes::Codes;
use crate::limits::Limits;
use crate::waiter::Waiter;
use mh_design::{Design, Kind};
use mh_text::Memory;
use std::alloc::Global;

/// What a signal of this kind may hold.
pub fn limits_of(d: &Design, kind: Kind) -> Limits
    requires { HasCodes d.now kind }
    ensures { limits_seen result ≡ spec.limits_of d.now kind }
{
    match kind {
        Kind::Bool => Limits::Truth,
        Kind::Int => Limits::Unlimited,
        Kind::Bits(b) => Limits::Within(b),
        Kind::Item(e) => match d.enums.get(e as usize) {
            None => Limits::Unlimited,
            Some(x) => Limits::Items(Codes {
                encoding: x.encoding,
                count: x.names.len(),
            }),
        },
    }
}

/// What each signal may hold.
pub fn all_limits(alloc: Global, d: &Design) -> Result<Vec<Limits>, Memory>
    requires { IsTrue (is_well_formed d.now) }
    ensures { IfOk result (λ v. map limits_seen v.items ≡ map (λ x. spec.limits_of d.now x.kind) d.now.signals) }
{
    let mut all = Vec::new(alloc);
    for x in d.signals.as_slice() {
        all.push(limits_of(d, x.kind))?;
    }
    Ok(all)
}

/// The initial value of each signal.
pub fn initial_values(alloc: Global, d: &Design) -> Result<Vec<i128>, Memory>
    ensures { IfOk result (λ v. v.items ≡ map (λ x. x.init) d.now.signals) }
{
    let mut all = Vec::new(alloc);
    for x in d.signals.as_slice() {
        all.push(x.init)?;
    }
    Ok(all)
}

/// A waiter with each of these rooms.
pub fn woken_waiters(alloc: Global, rooms: &[usize]) -> Result<Vec<Waiter>, Memory>
    ensures { IfOk result (λ v. v.items ≡ map woken_with rooms.now) }
{
    let mut all = Vec::new(alloc);
    for room in rooms {
        all.push(Waiter::new(alloc, *room)?)?;
    }
    Ok(all)
}
