// Cases: what a shelf in memory holds, the commands that are run over it, and what each is to come to.
use crate::block::{Block, Frame, fault};
use crate::outcome::outcome;
use mh_host::MemShelf;
use mh_text::Memory;
use std::alloc::Global;

/// Where a case stands: the name of its file, and its title.
#[derive(Clone, Copy)]
struct Site<'a> {
    file: &'a str,
    title: &'a str,
}

/// Holds the lines below a title as `a.py`, in their frame.
fn hold_source(
    alloc: Global,
    frame: Frame,
    lines: &str,
    shelf: &mut MemShelf,
) -> Result<(), Memory> {
    let mut source = Vec::new(alloc);
    for part in [frame.before, lines, frame.after] {
        if !part.is_empty() {
            source.extend_from_slice(part.as_bytes())?;
            source.push(b'\n')?;
        }
    }
    shelf.hold(b"a.py", source.as_slice())
}

/// Reports what came, unless it is what the block says. The end of the last line doesn't count.
fn compare(site: Site, block: Block, came: &[u8], report: &mut Vec<u8>) -> Result<(), Memory> {
    let came = came.strip_suffix(b"\n").unwrap_or(came);
    if came != block.body.as_bytes() {
        let head = block.head.as_bytes();
        for part in [
            b"=== ",
            site.file.as_bytes(),
            b": ",
            site.title.as_bytes(),
            b"\n--- ",
            head,
            b"\n",
            came,
            b"\n\n",
        ] {
            report.extend_from_slice(part)?;
        }
    }
    Ok(())
}

/// Does what a block of a case says.
fn step(
    alloc: Global,
    site: Site,
    block: Block,
    shelf: &mut MemShelf,
    report: &mut Vec<u8>,
) -> Result<(), Memory> {
    let (verb, rest) = block.verb();
    match verb {
        "file" => shelf.hold(rest.as_bytes(), block.body.as_bytes()),
        "fails" => match fault(rest) {
            Some(fault) => shelf.fail(fault),
            None => compare(site, block, b"(no such fault)", report),
        },
        "run" => {
            let came = outcome(alloc, rest, shelf)?;
            compare(site, block, came.as_slice(), report)
        }
        "holds" => {
            let held = shelf.held(rest.as_bytes()).unwrap_or(b"(nothing)");
            compare(site, block, held, report)
        }
        _ => compare(site, block, b"(no such block)", report),
    }
}

/// Runs a case: its title, the source below it, and the blocks.
fn run_case(
    alloc: Global,
    file: &str,
    frame: Frame,
    text: &str,
    report: &mut Vec<u8>,
) -> Result<(), Memory> {
    let (source, blocks) = text.split_once("\n--- ").unwrap_or((text, ""));
    let source = Block::new(source);
    let site = Site {
        file,
        title: source.head,
    };
    let mut shelf = MemShelf::new(alloc);
    hold_source(alloc, frame, source.body, &mut shelf)?;
    for block in blocks.split("\n--- ") {
        step(alloc, site, Block::new(block), &mut shelf, report)?;
    }
    Ok(())
}

/// Runs the cases of a file, and reports each outcome that isn't what the case says.
pub(crate) fn run_cases(alloc: Global, file: &str, text: &str) -> Result<Vec<u8>, Memory> {
    let text = text.strip_suffix('\n').unwrap_or(text);
    let (head, cases) = text.split_once("\n\n=== ").unwrap_or((text, ""));
    let frame = Frame::new(head);
    let mut report = Vec::new(alloc);
    for case in cases.split("\n\n=== ") {
        run_case(alloc, file, frame, case, &mut report)?;
    }
    Ok(report)
}
