ghost use Rattle.std.specs.Prelude.{◌≡◌, ◌↔◌};
ghost use Rattle.mh_top.specs.Commands.{Completes, Ends, MayUseNames, RefusesWords};
ghost use Rattle.mh_top.specs.Words.{Command, Gives, GivesNone};

use crate::command;
use crate::command::command_of;
use crate::complaint::complain;
use crate::convert::convert;
use crate::sim::sim;
use crate::status::Status;
use mh_host::Shelf;
use mh_text::Text;
use std::alloc::Global;

/// Does what the words of the command line ask for, without the program's name, over the files and
/// streams of the shelf. What each status means is said by `Status`; the error line of each goes to
/// the standard error, in one call.
pub fn run<S: Shelf>(alloc: Global, words: &[Text], shelf: &mut S) -> Status
    // The names that the words' command fetches may be fetched, and those that it stores may be stored.
    requires names { (command : Command) → Gives words.now command → MayUseNames S.may_fetch S.may_store command }

    // Status 3 comes exactly where the words give no command, and then nothing but the complaint was done.
    ensures words { (result.code ≡ Status.WORDS) ↔ GivesNone words.now }
    ensures refuses { GivesNone words.now → RefusesWords (record { before = S.seen shelf.old; after = S.seen shelf.new; faults_before = S.counts shelf.old; faults_after = S.counts shelf.new }) }

    // Each other status has its cause, its error line, and what the names then hold, by the command.
    ensures ends { (command : Command) → Gives words.now command → Ends command (record { before = S.seen shelf.old; after = S.seen shelf.new; faults_before = S.counts shelf.old; faults_after = S.counts shelf.new }) result.code }

    // Where no call of the shelf fails, the status is the one that the input asks for, or memory was wanting.
    ensures completes { (command : Command) → Gives words.now command → Completes command (record { before = S.seen shelf.old; after = S.seen shelf.new; faults_before = S.counts shelf.old; faults_after = S.counts shelf.new }) result.code }
{
    match command_of(words) {
        command::Command::Convert { file, out } => convert(alloc, file, out, shelf),
        command::Command::Sim { file } => sim(alloc, file, shelf),
        command::Command::Unknown => complain(shelf, b"error words\n", Status::WORDS),
    }
}
