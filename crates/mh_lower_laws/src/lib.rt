//! What reading a generator keeps: laws about the definition of `lower`, over the definitions alone. What it
//! reads fits the design after it, which has all that was there before.
#![tactic(auto)]

ghost use Rattle.mh_lower_laws.specs.Laws.{HaveKinds, GeneratorsFit, BodiesAreWithin, WholeFit};

/// An expression that was read has the kind that it was given, in the design after it. Does nothing.
pub fn kinds_law()
    ensures { HaveKinds }
{}

/// A generator that was read fits the design after it, which has all that was there before. Does nothing.
pub fn generators_law()
    ensures { GeneratorsFit }
{}

/// A body has at most one level more than its definition. Does nothing.
pub fn depth_law()
    ensures { BodiesAreWithin }
{}

/// A generator that was read, of a definition of at most 199 levels whose names are names, is all that the design
/// after it asks of one, which holds with this one at its end. Does nothing.
pub fn whole_law()
    ensures { WholeFit }
{}
