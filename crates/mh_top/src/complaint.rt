//! The one error line of a run.

ghost use Rattle.std.specs.Prelude.{◌≡◌, MatchResult};
ghost use Rattle.mh_top.specs.Lines.{memory_line};
ghost use Rattle.mh_top.specs.Run.{OnlyComplains};

use crate::status::Status;
use mh_host::Shelf;
use mh_text::Memory;

/// Complains of a line, and ends with a status. Where the complaint fails, the status stays.
pub(crate) fn complain<S: Shelf>(shelf: &mut S, line: &[u8], code: u8) -> Status
    ensures code { result.code ≡ code }
    ensures complained { OnlyComplains line.now (record { before = S.seen shelf.old; after = S.seen shelf.new; faults_before = S.counts shelf.old; faults_after = S.counts shelf.new }) }
{
    let _ = shelf.complain(line);
    Status { code }
}

/// Complains that memory was wanting. Takes no memory.
pub(crate) fn complain_of_memory<S: Shelf>(shelf: &mut S) -> Status
    ensures code { result.code ≡ Status.MEMORY }
    ensures complained { OnlyComplains memory_line (record { before = S.seen shelf.old; after = S.seen shelf.new; faults_before = S.counts shelf.old; faults_after = S.counts shelf.new }) }
{
    complain(shelf, b"error memory\n", Status::MEMORY)
}

/// Complains of a line that was to be made, and ends with a status; where the line found no memory,
/// complains of that.
pub(crate) fn complain_of<S: Shelf>(
    shelf: &mut S,
    line: Result<Vec<u8>, Memory>,
    code: u8,
) -> Status
    ensures code { MatchResult line (λ _. result.code ≡ code) (λ _. result.code ≡ Status.MEMORY) }
    ensures complained { MatchResult line
        (λ line. OnlyComplains line.items (record { before = S.seen shelf.old; after = S.seen shelf.new; faults_before = S.counts shelf.old; faults_after = S.counts shelf.new }))
        (λ _. OnlyComplains memory_line (record { before = S.seen shelf.old; after = S.seen shelf.new; faults_before = S.counts shelf.old; faults_after = S.counts shelf.new })) }
{
    match line {
        Ok(line) => complain(shelf, line.as_slice(), code),
        Err(_) => complain_of_memory(shelf),
    }
}
