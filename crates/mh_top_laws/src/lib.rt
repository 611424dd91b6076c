//! What a source comes to is one thing: laws about the definitions that `run` of mh_top promises by, over the
//! definitions alone. They say that the plain form of a flat design is that of one design alone, and that a source
//! has one run with one text, and one gate.
#![tactic(auto)]

ghost use Rattle.mh_top_laws.specs.Laws.{AnswersAreDetermined, AskedAreDetermined, DesignsAreDetermined, ExpressionsAreDetermined, GatesAreDetermined, RunsAreDetermined, RunsAreNotRefused, StatementsAreDetermined};

use mh_pyparse::one_tree;
use mh_pytok::{one_token_list, tokens_or_refusal};
use mh_sched::runs_once;

/// Trees of generators with the same plain form are the same. Does nothing.
pub fn trees_law()
    ensures expressions { ExpressionsAreDetermined }
    ensures statements { StatementsAreDetermined }
{}

/// Designs with the same plain form are the same. Does nothing.
pub fn designs_law()
    ensures { DesignsAreDetermined }
{}

/// Executing a source comes to one answer; a source asks for a run of at most one design, up to one time; and it
/// spells at most one gate. Does nothing.
pub fn source_law()
    ensures answers { AnswersAreDetermined }
    ensures asked { AskedAreDetermined }
    ensures gates { GatesAreDetermined }
{
    one_token_list();
    one_tree();
}

/// The run that a source asks for ends in one way and prints one text, and a source that has one isn't refused. Does
/// nothing.
pub fn run_law()
    ensures ends { RunsAreDetermined }
    ensures refusals { RunsAreNotRefused }
{
    source_law();
    runs_once();
    one_token_list();
    one_tree();
    tokens_or_refusal();
}
