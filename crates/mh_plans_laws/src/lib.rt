//! The designs that are made of a world that fits are well formed: laws over the definitions alone.
#![tactic(auto)]

ghost use Rattle.mh_plans_laws.specs.Laws.{AllFit, ChosenCovers, DesignsDraw, GeneratorPathsAreNames, GeneratorsFit, PathsAreNames, PlansAreDesigns, PlansFit};

/// Paths are names. Does nothing.
pub fn paths_law()
    ensures paths { PathsAreNames }
    ensures generators { GeneratorPathsAreNames }
{}

/// What was chosen is there under the design's own numbers. Does nothing.
pub fn drawing_law()
    ensures designs { DesignsDraw }
    ensures chosen { ChosenCovers }
    ensures generators { GeneratorsFit }
{}

/// All designs are well formed. Does nothing.
pub fn plans_law()
    ensures one { PlansFit }
    ensures all { AllFit }
    ensures designs { PlansAreDesigns }
{}
