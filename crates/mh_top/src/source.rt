//! What a source asks for: the gate to convert, or the run of a design.

ghost use Rattle.std.specs.Prelude.{◌≡◌, ◌<◌, ◌^◌, [], length, map, true, IfErr, IfOk};
ghost use Rattle.mh_elab.specs.Answer.{are_well_formed};
ghost use Rattle.mh_plans.specs.Planned.{plan_of};
ghost use Rattle.mh_text.specs.declared.refusal.Refusal.TheVariants.{At};
ghost use Rattle.mh_top.specs.Source as spec;
ghost use Rattle.mh_top.specs.Simulated as simulated;
ghost use Rattle.mh_top.specs.Steps.{IsElaborated, IsFoundIn, IsRefusalOf, IsNotElaborated, SpellsOnly};

use mh_elab::{Elaborated, Request, Verb, elaborate};
use mh_gate::{Design, gate_of};
use mh_pyparse::parse;
use mh_pytok::tokens;
use mh_text::{Code, Memory, Refusal};
use sqlite_items::Items;
use std::alloc::Global;

/// The designs and requests of a source. Else the refusal: of its tokens, of its tree, or of the first
/// statement that breaks a rule. The designs are well formed.
pub(crate) fn elaborated(alloc: Global, source: &[u8]) -> Result<Elaborated, Refusal>
    requires { length source.now < 2 ^ 31 }
    ensures found { IfOk result (IsElaborated source.now) }
    ensures formed { IfOk result (λ x. are_well_formed x.tops ≡ true) }
    ensures refused { IfErr result (IsNotElaborated source.now) }
{
    let tokens = tokens(alloc, source)?;
    let module = parse(alloc, tokens.as_slice(), source)?;
    elaborate(alloc, &module)
}

/// The gate that a source asks to convert. Else the refusal: of its tokens; of its tree; of the first
/// statement that breaks a rule; where no request asks for a conversion, `C1 NoTop` at line 0; or,
/// where the design of the first that does is no gate, `N1 NotYet` at line 0.
pub(crate) fn read(alloc: Global, source: &[u8]) -> Result<Design, Refusal>
    requires { length source.now < 2 ^ 31 }
    ensures found { IfOk result (SpellsOnly source.now) }
    ensures refused { IfErr result (IsRefusalOf source.now) }
{
    let found = elaborated(alloc, source)?;
    gate_in(alloc, &found)
}

/// The gate that the first request for a conversion asks for.
fn gate_in(alloc: Global, found: &Elaborated) -> Result<Design, Refusal>
    ensures { IsFoundIn (map plan_of found.now.tops) found.now.requests result }
{
    match first_conversion(found.requests.as_slice()) {
        None => Err(refusal(alloc, Code::C1NoTop)),
        Some(top) => match gate_at(alloc, found, top)? {
            Some(design) => Ok(design),
            None => Err(refusal(alloc, Code::N1NotYet)),
        },
    }
}

/// The place of the design that the first request for a conversion asks for.
fn first_conversion(requests: &[Request]) -> Option<u32>
    ensures { result ≡ spec.first_conversion requests.now }
{
    for request in requests {
        match request.verb {
            Verb::Convert => return Some(request.top),
            Verb::RunSim => {}
        }
    }
    None
}

/// The place of the design that the first request for a run asks for, and the time up to which it goes.
pub(crate) fn first_run(requests: &[Request]) -> Option<(u32, u64)>
    ensures { result ≡ simulated.first_run requests.now }
{
    for request in requests {
        match request.verb {
            Verb::RunSim => return Some((request.top, request.n)),
            Verb::Convert => {}
        }
    }
    None
}

/// The gate that the design at a place is, if it is one.
fn gate_at(alloc: Global, found: &Elaborated, top: u32) -> Result<Option<Design>, Memory>
    ensures { IfOk result (λ design. design ≡ spec.gate_at (map plan_of found.now.tops) top) }
{
    match found.tops.get(top as usize) {
        None => Ok(None),
        Some(d) => gate_of(alloc, d),
    }
}

/// The refusal of a source that has nothing to convert or to run, or no form that is converted.
pub(crate) fn refusal(alloc: Global, code: Code) -> Refusal
    ensures { result ≡ At code 0 [] }
{
    Refusal::At {
        code,
        line: 0,
        names: Items::new(alloc),
    }
}
