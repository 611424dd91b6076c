// Sources of tests, and what they come to.
use mh_design::Design;
use mh_elab::*;
use mh_pyparse::parse;
use mh_pytok::tokens;
use mh_pytree::Module;
use mh_text::{Code, Refusal};
use std::alloc::Global;
use std::test::Fail;

/// What a source is to come to.
#[derive(Clone, Copy, Debug, PartialEq, Eq)]
pub(crate) enum Want {
    /// So many designs, and so many requests.
    Made(usize, usize),
    Refused(Code, u32),
    Memory,
}

pub(crate) fn seen(r: &Result<Elaborated, Refusal>) -> Want {
    match r {
        Ok(x) => Want::Made(x.tops.len(), x.requests.len()),
        Err(Refusal::At { code, line, .. }) => Want::Refused(*code, *line),
        Err(Refusal::Memory) => Want::Memory,
    }
}

/// The tree of a source of at most a gigabyte.
pub(crate) fn read(alloc: Global, src: &[u8]) -> Result<Module, Refusal> {
    if src.len() > 1 << 30 {
        return Err(Refusal::Memory);
    }
    let tokens = tokens(alloc, src)?;
    parse(alloc, tokens.as_slice(), src)
}

/// What a source makes.
pub(crate) fn made(alloc: Global, src: &[u8]) -> Result<Elaborated, Refusal> {
    let module = read(alloc, src)?;
    elaborate(alloc, &module)
}

/// The first design of a source.
pub(crate) fn first(alloc: Global, src: &[u8]) -> Result<Design, Fail> {
    let mut x = made(alloc, src)?;
    Ok(x.tops.pop().ok_or("no design")?)
}
