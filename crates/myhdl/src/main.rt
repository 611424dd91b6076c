//! The program `myhdl`: it makes the words of the command line and the shelf over the real files and
//! streams, and calls `run` of the library `mh_top`, whose contract is the program's promise.
//! Here it promises only that what `run` answers is the exit status.
#![tactic(auto)]

use mh_host::{FileShelf, Shelf};
use mh_text::Text;
use mh_top::{Status, run};
use std::alloc::AllocError;
use std::env;
use std::io::ErrorKind;
use std::process::ExitCode;

/// Why there are no words.
enum WordsFault {
    /// A word isn't UTF-8.
    NotText,
    /// Want of memory.
    Memory,
}

impl From<AllocError> for WordsFault {
    fn from(_refused: AllocError) -> WordsFault {
        WordsFault::Memory
    }
}

/// The words of the command line, without the program's name.
fn words(rt: &HostRuntime) -> Result<Vec<Text>, WordsFault> {
    let mut args = match env::args(rt) {
        Ok(args) => args,
        Err(fault) => {
            return Err(match fault.kind() {
                ErrorKind::OutOfMemory => WordsFault::Memory,
                _ => WordsFault::NotText,
            });
        }
    };
    let _program = args.next();
    let mut words = Vec::new(rt.alloc());
    for arg in args {
        let word = Text::new(rt.alloc(), arg.as_bytes()).map_err(|_| WordsFault::Memory)?;
        words.push(word).map_err(|_| WordsFault::Memory)?;
    }
    Ok(words)
}

/// Complains where there are no words.
fn complain<S: Shelf>(shelf: &mut S, fault: WordsFault) -> Status {
    let (line, code) = match fault {
        WordsFault::NotText => (b"error words\n".as_slice(), Status::WORDS),
        WordsFault::Memory => (b"error memory\n".as_slice(), Status::MEMORY),
    };
    let _ = shelf.complain(line);
    Status { code }
}

fn main(rt: HostRuntime) -> ExitCode {
    let words = words(&rt);
    let alloc = rt.alloc();
    let output = rt.stdout();
    let errors = rt.stderr();
    let mut shelf = FileShelf::new(rt, output, errors);
    let status = match words {
        Ok(words) => run(alloc, words.as_slice(), &mut shelf),
        Err(fault) => complain(&mut shelf, fault),
    };
    ExitCode::from(status.code)
}
