// Generators that read a signal which they drive.
ghost use Rattle.std.specs.Prelude.{◌≡◌, ◌==◌, ℕ, IfOk};
ghost use Rattle.std.specs.Ordering.{nat_cmp};
ghost use Rattle.std.specs.BTreeSet.{contains};
ghost use Rattle.std.specs.List.{list_any};
ghost use Rattle.mh_design.specs.Inout as spec;

use crate::design::{Design, GenKind, Generator};
use crate::uses::{drives, reads};
use mh_text::{Code, Memory, Refusal};
use sqlite_items::Items;
use std::alloc::Global;
use std::collections::BTreeSet;

/// The set of these signals.
fn set_of(alloc: Global, signals: &[u32]) -> Result<BTreeSet<u32>, Memory>
    ensures { IfOk result (λ found. (s : ℕ) → contains nat_cmp found s ≡ spec.is_among signals.now s) }
{
    let mut found = BTreeSet::new(alloc);
    for signal in signals {
        found.insert(*signal)?;
    }
    Ok(found)
}

/// Some of the signals are in the set.
fn some_are_in(found: &BTreeSet<u32>, signals: &[u32]) -> bool
    ensures { result ≡ list_any (contains nat_cmp found.now) signals.now }
{
    for signal in signals {
        if found.contains(signal) {
            return true;
        }
    }
    false
}

/// Some of the read signals are among the driven ones.
fn have_common(alloc: Global, driven: &[u32], read: &[u32]) -> Result<bool, Memory>
    ensures { IfOk result (λ some. some ≡ list_any (spec.is_among driven.now) read.now) }
{
    let found = set_of(alloc, driven)?;
    Ok(some_are_in(&found, read))
}

/// Whether a generator is an `@always_comb` that reads a signal which it drives.
fn is_inout(alloc: Global, d: &Design, g: &Generator) -> Result<bool, Memory>
    ensures { IfOk result (λ found. found ≡ spec.is_inout d.now g.now) }
{
    match g.kind {
        GenKind::Comb => {
            let driven = drives(alloc, d, g)?;
            let read = reads(alloc, d, g)?;
            have_common(alloc, driven.as_slice(), read.as_slice())
        }
        GenKind::Always(_) | GenKind::Seq(_, _) | GenKind::Instance => Ok(false),
    }
}

/// Refuses a design in which an `@always_comb` reads a signal which it drives, with the code
/// `C7 Inout` and the line of the `def` of the first such generator.
pub fn inout(alloc: Global, d: &Design) -> Result<(), Refusal>
    ensures { spec.Answers (spec.first_inout d.now d.now.generators) result }
{
    for g in d.generators.as_slice() {
        if is_inout(alloc, d, g)? {
            return Err(Refusal::At {
                code: Code::C7Inout,
                line: g.line,
                names: Items::new(alloc),
            });
        }
    }
    Ok(())
}
