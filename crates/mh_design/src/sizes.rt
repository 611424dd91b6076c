// The limits of a design.
ghost use Rattle.std.specs.Prelude.{ℕ, ◌||◌, false, not, slice_index_or, ◌^◌, ◌-◌, ◌≡◌, ◌+◌, ◌<◌, length, sum_by, MatchOption, nat_le, ◌==◌, ◌≤◌, if◌then◌else◌};
ghost use Rattle.std.specs.List.{list_any};
ghost use Rattle.mh_design.specs.WellFormed as spec;
ghost use Rattle.mh_design.specs.WellFormed.{is_in, count_below};

use crate::design::{Design, MemDecl, TableDecl};

const MOST_SIGNALS: usize = 4096;

const MOST_GENERATORS: usize = 1024;

/// How many signals are looked for in the memories at once.
const BLOCK: usize = 4096;

const MOST_ELEMENTS: usize = 65536;

/// How many elements may still stand in tables beside those of the memories, if they aren't too many.
fn elements_left(mems: &[MemDecl]) -> Option<usize>
    ensures { MatchOption result (65536 < sum_by (λ m. length m.cells) mems.now) (λ left. left + sum_by (λ m. length m.cells) mems.now ≡ 65536) }
{
    let mut left = MOST_ELEMENTS;
    for m in mems {
        if m.cells.len() > left {
            return None;
        }
        left -= m.cells.len();
    }
    Some(left)
}

/// The elements of the tables are at most so many.
fn tables_are_within(tables: &[TableDecl], most: usize) -> bool
    ensures { result ≡ nat_le (sum_by (λ t. length t.values) tables.now) most }
{
    let mut left = most;
    for t in tables {
        if t.values.len() > left {
            return false;
        }
        left -= t.values.len();
    }
    true
}

/// The memories and tables have at most 65,536 elements.
fn elements_fit(d: &Design) -> bool
    ensures { result ≡ nat_le (spec.element_count d.now) 65536 }
{
    match elements_left(d.mems.as_slice()) {
        Some(left) => tables_are_within(d.tables.as_slice(), left),
        None => false,
    }
}

/// Marks a signal, if it is one of those that the marks are for, which begin with `first`.
fn mark(marks: &mut [bool], first: usize, signal: usize)
    ensures length { length marks.new ≡ length marks.old }
    ensures marks { (k : ℕ) → k < length marks.new → slice_index_or marks.new k false ≡ (slice_index_or marks.old k false || signal == first + k) }
{
    if first <= signal && signal - first < marks.len() {
        marks[signal - first] = true;
    }
}

/// Marks the elements of one memory.
fn mark_cells(marks: &mut [bool], first: usize, cells: &[u32])
    ensures length { length marks.new ≡ length marks.old }
    ensures marks { (k : ℕ) → k < length marks.new → slice_index_or marks.new k false ≡ (slice_index_or marks.old k false || list_any (λ c. c == first + k) cells.now) }
{
    for c in cells {
        mark(marks, first, *c as usize);
    }
}

/// Marks the elements of all memories.
fn mark_all(marks: &mut [bool], first: usize, mems: &[MemDecl])
    ensures length { length marks.new ≡ length marks.old }
    ensures marks { (k : ℕ) → k < length marks.new → slice_index_or marks.new k false ≡ (slice_index_or marks.old k false || list_any (λ m. list_any (λ c. c == first + k) m.cells) mems.now) }
{
    for m in mems {
        mark_cells(marks, first, m.cells.as_slice());
    }
}

/// A count with one more, where a test holds.
fn counted(count: usize, test: bool) -> usize
    requires { count + 1 < 2 ^ 64 }
    ensures value { result ≡ count + (if test then 1 else 0) }
    ensures at_most { result ≤ count + 1 }
{
    if test { count + 1 } else { count }
}

/// How many signals below `end` are elements of no memory, given how many below `first` are.
fn count_block(mems: &[MemDecl], first: usize, end: usize, before: usize) -> usize
    requires ordered { first ≤ end }
    requires block { end ≤ first + 4096 }
    requires few { before ≤ first }
    requires before { before ≡ count_below first (λ s. not (is_in mems.now s)) }
    ensures value { result ≡ count_below end (λ s. not (is_in mems.now s)) }
    ensures few { result ≤ end }
{
    let mut marks = [false; BLOCK];
    mark_all(&mut marks, first, mems);
    let mut count = before;
    for signal in first..end {
        count = counted(count, !marks[signal - first]);
    }
    count
}

/// At most 4,096 signals are elements of no memory. Goes over the memories once for each 4,096
/// signals, and stops once too many were found.
fn outside_fit(d: &Design) -> bool
    ensures { result ≡ nat_le (spec.outside_count d.now) 4096 }
{
    let mems = d.mems.as_slice();
    let signals = d.signals.len();
    let mut first: usize = 0;
    let mut count: usize = 0;
    while first < signals {
        if count > MOST_SIGNALS {
            return false;
        }
        let end = if signals - first <= BLOCK {
            signals
        } else {
            first + BLOCK
        };
        count = count_block(mems, first, end, count);
        first = end;
    }
    count <= MOST_SIGNALS
}

/// The design keeps the limits.
pub fn sizes_fit(d: &Design) -> bool
    ensures { result ≡ spec.sizes_fit d.now }
{
    outside_fit(d) && d.generators.len() <= MOST_GENERATORS && elements_fit(d)
}
