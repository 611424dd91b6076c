// Laws over the definitions alone.
ghost use Rattle.std.specs.Prelude.{◌≡◌, ◌≤◌, ℕ, Some, true, length, slice_get};
ghost use Rattle.mh_flat.specs.Fits.{FitsItems};
ghost use Rattle.mh_design.specs.declared.design.Design.{Design};
ghost use Rattle.mh_design.specs.declared.design.Generator.{Generator};
ghost use Rattle.mh_design.specs.Assignments.{meaning};
ghost use Rattle.mh_design.specs.Bodies.{prints_at, waited, waits_room};
ghost use Rattle.mh_design.specs.Deltas.{Left, first_process, first_signals, store_of};
ghost use Rattle.mh_design.specs.Values.{Store};
ghost use Rattle.mh_design.specs.WellFormed.{is_well_formed};
ghost use Rattle.mh_gen.specs.Laws.{Alike};
ghost use Rattle.mh_gen.specs.Running.{RunsIn, AllFit};

/// Laws on the bodies of generators, over the definitions alone: a body runs in the store of the
/// start; in a well-formed design the whole body fits each store in which it runs, and so does all
/// that it prints; what is left of a body fits the stores that are like one which it fits; and there
/// is room for what it waits for. Does nothing.
pub fn body_laws()
    ensures first { (d : Design) (g : Generator) (time : ℕ) → RunsIn d g (store_of d time (first_signals d) (first_process d g)) }
    ensures starts { (d : Design) (k : ℕ) (g : Generator) (s : Store) → is_well_formed d ≡ true → slice_get d.generators k ≡ Some g → RunsIn d g s → FitsItems meaning (first_process d g).left s }
    ensures prints { (d : Design) (k : ℕ) (g : Generator) (s : Store) (n : ℕ) → is_well_formed d ≡ true → slice_get d.generators k ≡ Some g → RunsIn d g s → AllFit (prints_at g n) s }
    ensures alike { (xs : Left) (s t : Store) → Alike s t → FitsItems meaning xs s → FitsItems meaning xs t }
    ensures room { (d : Design) (g : Generator) (k : ℕ) → length (waited d g k) ≤ waits_room d g g.kind }
{}
