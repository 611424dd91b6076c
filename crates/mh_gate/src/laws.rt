// What holds of the definitions, for all designs.
ghost use Rattle.std.specs.Prelude.{◌≡◌, ℕ, List, Some};
ghost use Rattle.mh_design.specs.declared.design.Design.{Design as Flat};
ghost use Rattle.mh_design.specs.declared.design.GenKind.{GenKind};
ghost use Rattle.mh_design.specs.Tree.{Block};
ghost use Rattle.mh_gate.specs.declared.design.Design.{Design};
ghost use Rattle.mh_gate.specs.Gate.{design_with, driven_of, gate_of};
ghost use Rattle.mh_gate.specs.Same.{KeepsBody, KeepsDesign};

/// The gate that a flat design is, or that a generator's body makes with it, assigns to the same
/// signal a value that is the value of the flat design's expression in each run. Does nothing.
pub fn gate_laws()
    ensures bodies { (d : Flat) (path : List ℕ) (k : GenKind) (b : Block) (g : Design) → design_with d (driven_of path k b) ≡ Some g → KeepsBody b g }
    ensures designs { (d : Flat) (g : Design) → gate_of d ≡ Some g → KeepsDesign d g }
{}
