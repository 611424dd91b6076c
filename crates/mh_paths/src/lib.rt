//! The paths through a body: what may happen on the way from its beginning to its end, whichever
//! way its conditions go, apart from any language. Rules that say "on every path" or "on some path"
//! cite the definitions in `specs/Paths.antt`.
//! The calls do nothing at run time: the contract of each is a law, and the main one says that one
//! walk through a body, which makes no path and unrolls no loop, finds just what some path misses.
#![tactic(auto)]

ghost use Rattle.std.specs.Prelude.{◌≡◌, ◌↔◌, ℕ, suc, Bool, true, false, List};
ghost use Rattle.mh_paths.specs.Paths.{Block, Exit, Onward, BlockPath, HappensAlways, MayMiss, MayReadFirst};
ghost use Rattle.mh_paths.specs.Walk.{block_walk, turns_walk, alike, once};

/// The walk through a body finds that something is read unassigned exactly where some path reads it
/// before any assignment, and that its end is reached unassigned exactly where some path to the end
/// doesn't assign; so where the walk doesn't find that, every path to the end does assign.
pub fn walk_laws<E>()
    ensures reads { (reads assigns : E → Bool) (block : Block E) →
        ((block_walk reads assigns block).reads ≡ true) ↔ MayReadFirst reads assigns block }
    ensures misses { (reads assigns : E → Bool) (block : Block E) →
        ((block_walk reads assigns block).missed Onward ≡ true) ↔ MayMiss assigns block }
    ensures happens { (reads assigns : E → Bool) (block : Block E) →
        ((block_walk reads assigns block).missed Onward ≡ false) ↔ HappensAlways assigns block }
{}

/// A loop of turns that are alike needs no unrolling: from the first turn on, no further turn
/// changes what the walk finds.
pub fn turn_laws<E>()
    ensures { (reads assigns : E → Bool) (turns : ℕ) (body : Block E) (exit : Exit) →
        ((turns_walk reads assigns (alike (suc turns) body)).reads ≡ (once (block_walk reads assigns body)).reads)
        × ((turns_walk reads assigns (alike (suc turns) body)).missed exit ≡ (once (block_walk reads assigns body)).missed exit) }
{}

/// Every body has a path.
pub fn path_laws<E>()
    ensures { (block : Block E) → (path : List E) × (exit : Exit) × BlockPath block path exit }
{}
