// Sets of numbers.
ghost use Rattle.std.specs.Prelude.{◌≡◌, ◌||◌, ℕ, filter, OnOk};
ghost use Rattle.std.specs.BTreeSet.{contains};
ghost use Rattle.std.specs.Ordering.{nat_cmp};
ghost use Rattle.mh_plans.specs.Order.{is_in};
ghost use Rattle.mh_plans.specs.Plans.{below, each_once};

use crate::numbers::Numbers;
use mh_text::Memory;
use std::collections::BTreeSet;

/// Adds numbers to a set.
pub(crate) fn add_all(set: &mut BTreeSet<u32>, ns: &[u32]) -> Result<(), Memory>
    ensures { OnOk result ((n : ℕ) → contains nat_cmp set.new n ≡ (contains nat_cmp set.old n || is_in ns.now n)) }
{
    for n in ns {
        set.insert(*n)?;
    }
    Ok(())
}

/// Adds the numbers below a count that are in a set, in order.
#[tactic(auto, using(crate::proofs::NumberLaws::number_laws))]
pub(crate) fn add_in_order(
    numbers: &mut Numbers,
    set: &BTreeSet<u32>,
    count: usize,
) -> Result<(), Memory>
    ensures { OnOk result (numbers.new ≡ each_once numbers.old (filter (contains nat_cmp set.now) (below count))) }
{
    if count > 4294967296 {
        return Err(Memory);
    }
    for i in 0..count {
        let n = i as u32;
        if set.contains(&n) {
            numbers.add(n)?;
        }
    }
    Ok(())
}
