//! Laws over the definitions alone.

ghost use Rattle.std.specs.Prelude.{◌≡◌, ◌↔◌, ℕ, true};
ghost use Rattle.mh_design.specs.declared.design.Generator.{Generator};
ghost use Rattle.mh_design.specs.Assigned.{is_assigned_first};
ghost use Rattle.mh_design.specs.LocalPaths.{MayReadUnassigned};
ghost use Rattle.mh_design.specs.Numbering.{body_of};

/// A local is read only where each path has assigned it, by one walk through the body, exactly where
/// no path reads it unassigned, a `for` with constant ends being its turns in a row and any other loop
/// any number of turns. Does nothing.
pub fn assigned_laws()
    ensures { (g : Generator) (v : ℕ) → (is_assigned_first (body_of g) v ≡ true) ↔ (MayReadUnassigned g v → ⊥) }
{}
