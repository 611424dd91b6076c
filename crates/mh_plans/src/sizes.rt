// The limits of a design.
ghost use Rattle.std.specs.Prelude.{◌≡◌, ◌+◌, ◌<◌, ◌≤◌, ◌&&◌, ℕ, IfOk, MatchOption, nat_le, not, sum_by, length};
ghost use Rattle.std.specs.BTreeSet.{contains};
ghost use Rattle.std.specs.Ordering.{nat_cmp};
ghost use Rattle.mh_design.specs.WellFormed as spec;

use crate::marks::add_all;
use mh_design::{Design, MemDecl, TableDecl};
use mh_text::Memory;
use std::alloc::Global;
use std::collections::BTreeSet;

const MOST_SIGNALS: usize = 4096;

pub(crate) const MOST_GENERATORS: usize = 1024;

const MOST_ELEMENTS: usize = 65536;

/// How many elements may still stand in tables beside those of the memories, if they aren't too many.
fn elements_left(mems: &[MemDecl]) -> Option<usize>
    ensures { MatchOption result (65536 < sum_by (λ m. length m.cells) mems.now) (λ left. left + sum_by (λ m. length m.cells) mems.now ≡ 65536) }
{
    let mut left = MOST_ELEMENTS;
    for m in mems {
        if m.cells.len() > left {
            return None;
        }
        left -= m.cells.len();
    }
    Some(left)
}

/// The elements of the tables are at most so many.
fn tables_are_within(tables: &[TableDecl], most: usize) -> bool
    ensures { result ≡ nat_le (sum_by (λ t. length t.values) tables.now) most }
{
    let mut left = most;
    for t in tables {
        if t.values.len() > left {
            return false;
        }
        left -= t.values.len();
    }
    true
}

/// The memories and tables have at most 65,536 elements.
fn elements_fit(d: &Design) -> bool
    ensures { result ≡ nat_le (spec.element_count d.now) 65536 }
{
    match elements_left(d.mems.as_slice()) {
        Some(left) => tables_are_within(d.tables.as_slice(), left),
        None => false,
    }
}

/// The elements of memories.
fn cells_in(alloc: Global, mems: &[MemDecl]) -> Result<BTreeSet<u32>, Memory>
    ensures { IfOk result (λ cells. (n : ℕ) → contains nat_cmp cells n ≡ spec.is_in mems.now n) }
{
    let mut cells = BTreeSet::new(alloc);
    for m in mems {
        add_all(&mut cells, m.cells.as_slice())?;
    }
    Ok(cells)
}

/// How many numbers below a count aren't in a set, up to one more than there may be.
fn outside_count(cells: &BTreeSet<u32>, count: usize) -> usize
    requires { count ≤ 4294967296 }
    ensures { nat_le result 4096 ≡ nat_le (spec.count_below count (λ n. not (contains nat_cmp cells.now n))) 4096 }
{
    let mut outside = 0;
    for i in 0..count {
        if outside > MOST_SIGNALS {
            return outside;
        }
        if !cells.contains(&(i as u32)) {
            outside += 1;
        }
    }
    outside
}

/// At most 4,096 signals are elements of no memory.
fn outside_fit(alloc: Global, d: &Design) -> Result<bool, Memory>
    ensures { IfOk result (λ b. b ≡ nat_le (spec.outside_count d.now) 4096) }
{
    let cells = cells_in(alloc, d.mems.as_slice())?;
    if d.signals.len() > 4294967296 {
        return Err(Memory);
    }
    Ok(outside_count(&cells, d.signals.len()) <= MOST_SIGNALS)
}

/// The signals, memories and tables keep the limits.
pub(crate) fn declarations_fit(alloc: Global, d: &Design) -> Result<bool, Memory>
    ensures { IfOk result (λ b. b ≡ (nat_le (spec.outside_count d.now) 4096 && nat_le (spec.element_count d.now) 65536)) }
{
    Ok(outside_fit(alloc, d)? && elements_fit(d))
}
