//! The command `convert FILE --verilog OUT`.

ghost use Rattle.std.specs.Prelude.{◌≡◌, ◌<◌, ◌^◌, length, IfOk};
ghost use Rattle.mh_top.specs.Commands.{Completes, Ends};
ghost use Rattle.mh_top.specs.Steps.{EndsSource, IsPrepared};
ghost use Rattle.mh_top.specs.Words.{Convert};

use crate::complaint::{complain, complain_of, complain_of_memory};
use crate::status::Status;
use crate::{lines, source, vlog};
use mh_host::{Fetched, Shelf, ShelfError};
use mh_text::{Memory, Refusal, Text};
use std::alloc::Global;

/// The most bytes that a source may have.
pub(crate) const SOURCE_LIMIT: u64 = 1 << 20;

/// What is to be done for a source.
#[derive(Drop)]
pub(crate) enum Step {
    /// Store the text, and where that fails, complain of the line.
    Store { text: Vec<u8>, fault: Vec<u8> },
    /// Complain of the line.
    Refuse { line: Vec<u8> },
}

/// What is to be done for a source, with all that it needs of memory.
fn prepare(alloc: Global, source: &[u8], out: &Text) -> Result<Step, Memory>
    requires { length source.now < 2 ^ 31 }
    ensures { IfOk result (IsPrepared source.now out.now) }
{
    match source::read(alloc, source) {
        Ok(design) => {
            let text = vlog::text(alloc, &design)?;
            let fault = lines::of_shelf(alloc, out)?;
            Ok(Step::Store { text, fault })
        }
        Err(
            Refusal::At {
                code,
                line,
                names: _,
            },
        ) => {
            let line = lines::of_refusal(alloc, code, line)?;
            Ok(Step::Refuse { line })
        }
        Err(Refusal::Memory) => Err(Memory),
    }
}

/// Converts a source that was fetched, and stores its text.
fn convert_source<S: Shelf>(alloc: Global, source: &[u8], out: &Text, shelf: &mut S) -> Status
    requires out { S.may_store out.now }
    requires small { length source.now < 2 ^ 31 }
    ensures { EndsSource source.now out.now (record { before = S.seen shelf.old; after = S.seen shelf.new; faults_before = S.counts shelf.old; faults_after = S.counts shelf.new }) result.code }
{
    match prepare(alloc, source, out) {
        Ok(Step::Store { text, fault }) => match shelf.store(out, text.as_slice()) {
            Ok(()) => Status { code: Status::DONE },
            Err(_) => complain(shelf, fault.as_slice(), Status::SHELF),
        },
        Ok(Step::Refuse { line }) => complain(shelf, line.as_slice(), Status::REFUSED),
        Err(_) => complain_of_memory(shelf),
    }
}

/// `convert FILE --verilog OUT`: fetches the source that `file` holds, converts it, and stores its
/// Verilog text under `out`.
pub(crate) fn convert<S: Shelf>(alloc: Global, file: &Text, out: &Text, shelf: &mut S) -> Status
    requires file { S.may_fetch file.now }
    requires out { S.may_store out.now }
    ensures ends { Ends (Convert file.now out.now) (record { before = S.seen shelf.old; after = S.seen shelf.new; faults_before = S.counts shelf.old; faults_after = S.counts shelf.new }) result.code }
    ensures completes { Completes (Convert file.now out.now) (record { before = S.seen shelf.old; after = S.seen shelf.new; faults_before = S.counts shelf.old; faults_after = S.counts shelf.new }) result.code }
{
    let mut source = Vec::new(alloc);
    match shelf.fetch(file, SOURCE_LIMIT, &mut source) {
        Ok(Fetched::Whole) => convert_source(alloc, source.as_slice(), out, shelf),
        Ok(Fetched::TooLong) => {
            complain_of(shelf, lines::of_too_long(alloc, file), Status::TOO_LONG)
        }
        Err(ShelfError::Failed) => complain_of(shelf, lines::of_shelf(alloc, file), Status::SHELF),
        Err(ShelfError::Memory) => complain_of_memory(shelf),
    }
}
