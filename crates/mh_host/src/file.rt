ghost use Rattle.std.specs.Prelude.{◌≡◌, ◌+◌, ◌<◌, ◌≤◌, vec_len, IfOk};
ghost use Rattle.mh_host.specs.OtherShelves.{file_counts};
ghost use Rattle.mh_host.specs.Shelf.{IsWithin, no_faults};

use crate::count::raise;
use crate::shelf::{Failed, Fetched, Shelf, ShelfError};
use mh_text::Text;
use std::fs;
use std::io::{Read, Write};
use std::rt::Files;

/// The real files and standard streams: a name is a path as given, in UTF-8. It is the edge where
/// trust begins: it counts its faults and tells nothing of what files and streams hold, since no
/// contract can. What `store` puts under a name replaces what was there.
#[derive(Drop)]
pub struct FileShelf<R, O, E> {
    rt: R,
    output: O,
    errors: E,
    fetch_faults: u64,
    store_faults: u64,
    print_faults: u64,
    complain_faults: u64,
}

/// Why a file wasn't read.
#[derive(Drop)]
enum ReadFault {
    Outside,
    Memory,
}

/// The first `room` bytes that one read gives, at the end of `into`; 0 at the end of the file.
fn read_some<F: Read>(file: &mut F, room: u64, into: &mut Vec<u8>) -> Result<usize, ReadFault>
    requires { 0 < room }
    ensures { IfOk result (λ n. (n ≤ room) × (vec_len into.new ≡ vec_len into.old + n)) }
{
    let mut chunk = [0u8; 4096];
    let most = if room < 4096 { room as usize } else { 4096 };
    let taken = file
        .read(&mut chunk[..most])
        .map_err(|_| ReadFault::Outside)?;
    into.extend_from_slice(&chunk[..taken])
        .map_err(|_| ReadFault::Memory)?;
    Ok(taken)
}

/// The bytes of a file, but at most `limit + 1` of them, in the place of what `into` has.
fn read_portion<F: Read>(file: &mut F, limit: u64, into: &mut Vec<u8>) -> Result<Fetched, ReadFault>
    ensures { IfOk result (λ found. IsWithin found limit into.new.items) }
{
    into.clear();
    while into.len() as u64 <= limit {
        let room = (limit - into.len() as u64).saturating_add(1);
        if read_some(file, room, into)? == 0 {
            return Ok(Fetched::Whole);
        }
    }
    Ok(Fetched::TooLong)
}

/// The path that a name is.
fn path_of(name: &Text) -> Result<&str, Failed> {
    std::str::from_utf8(name.bytes()).map_err(|_| Failed)
}

/// Reads the file at a path.
fn fetch_file<R: Files>(
    rt: &R,
    name: &Text,
    limit: u64,
    into: &mut Vec<u8>,
) -> Result<Fetched, ReadFault>
    ensures { IfOk result (λ found. IsWithin found limit into.new.items) }
{
    let path = path_of(name).map_err(|_| ReadFault::Outside)?;
    let mut file = fs::open(rt, path).map_err(|_| ReadFault::Outside)?;
    read_portion(&mut file, limit, into)
}

/// Writes the file at a path, in the place of what was there.
fn store_file<R: Files>(rt: &R, name: &Text, bytes: &[u8]) -> Result<(), Failed> {
    let path = path_of(name)?;
    let mut file = fs::create(rt, path).map_err(|_| Failed)?;
    write_whole(&mut file, bytes)
}

/// Writes all of the bytes. A write that takes nothing of a piece that isn't empty has failed.
fn write_whole<W: Write>(writer: &mut W, bytes: &[u8]) -> Result<(), Failed> {
    writer.write_all(bytes).map_err(|_| Failed)?;
    writer.flush().map_err(|_| Failed)
}

impl<R: Files, O: Write, E: Write> FileShelf<R, O, E> {
    /// A shelf over these files, with the standard output and the standard error.
    pub fn new(rt: R, output: O, errors: E) -> FileShelf<R, O, E>
        ensures { file_counts result ≡ no_faults }
    {
        FileShelf {
            rt,
            output,
            errors,
            fetch_faults: 0,
            store_faults: 0,
            print_faults: 0,
            complain_faults: 0,
        }
    }
}

impl<R: Files, O: Write, E: Write> Shelf for FileShelf<R, O, E> {
    ghost use Rattle.std.specs.Prelude.{None};
    ghost use Rattle.mh_host.specs.OtherShelves.{file_counts};

    ghost seen = { λ _. None };

    ghost counts = { file_counts };

    ghost may_fetch = { λ _. Unit {0} };

    ghost may_store = { λ _. Unit {0} };

    fn fetch(
        &mut self,
        name: &Text,
        limit: u64,
        into: &mut Vec<u8>,
    ) -> Result<Fetched, ShelfError> {
        match fetch_file(&self.rt, name, limit, into) {
            Ok(found) => Ok(found),
            Err(ReadFault::Outside) => {
                into.clear();
                raise(&mut self.fetch_faults);
                Err(ShelfError::Failed)
            }
            Err(ReadFault::Memory) => {
                into.clear();
                Err(ShelfError::Memory)
            }
        }
    }

    fn store(&mut self, name: &Text, bytes: &[u8]) -> Result<(), Failed> {
        let stored = store_file(&self.rt, name, bytes);
        if stored.is_err() {
            raise(&mut self.store_faults);
        }
        stored
    }

    fn print(&mut self, bytes: &[u8]) -> Result<(), Failed> {
        let printed = write_whole(&mut self.output, bytes);
        if printed.is_err() {
            raise(&mut self.print_faults);
        }
        printed
    }

    fn complain(&mut self, bytes: &[u8]) -> Result<(), Failed> {
        let complained = write_whole(&mut self.errors, bytes);
        if complained.is_err() {
            raise(&mut self.complain_faults);
        }
        complained
    }
}
