// Calls of the three shelves, one by one.
use mh_host::{Failed, Fault, Fetched, FileShelf, MemShelf, NeverFails, Shelf, ShelfError};
use mh_text::{Memory, Text};
use std::alloc::Global;
use std::fs;
use std::process::Abort;
use std::rt::Files;
use std::test::Fail;

/// Whether a name holds just these bytes.
fn holds(shelf: &MemShelf, name: &[u8], bytes: &[u8]) -> bool {
    match shelf.held(name) {
        Some(held) => held == bytes,
        None => false,
    }
}

/// The names that are held, and the calls that are to fail.
fn set_up(shelf: &mut MemShelf) -> Result<(), Memory> {
    shelf.hold(b"a", b"12345")?;
    shelf.hold(b"b", b"other")?;
    shelf.fail(Fault {
        call: 4,
        taken: None,
    })?;
    shelf.fail(Fault {
        call: 6,
        taken: Some(2),
    })?;
    shelf.fail(Fault {
        call: 7,
        taken: Some(3),
    })
}

/// Calls 0 to 2: a limit of all bytes, of one less, and of none.
fn fetches(rt: &impl Abort, shelf: &mut MemShelf, name: &Text, into: &mut Vec<u8>) {
    for (limit, found, bytes) in [
        (5, Fetched::Whole, b"12345".as_slice()),
        (4, Fetched::TooLong, b"12345"),
        (0, Fetched::TooLong, b"1"),
    ] {
        assert_eq!(rt; shelf.fetch(name, limit, into), Ok(found), "{limit}");
        assert_eq!(rt; into.as_slice(), bytes, "{limit}");
    }
}

/// Call 3: the name that isn't held.
fn misses(rt: &impl Abort, shelf: &mut MemShelf, absent: &Text, into: &mut Vec<u8>) {
    assert_eq!(rt; shelf.fetch(absent, 5, into), Err(ShelfError::Failed));
    assert_eq!(rt; into.len(), 0);
}

/// Calls 4 to 6: a store that leaves what was there, one that is done, and one that takes two bytes.
fn stores(rt: &impl Abort, shelf: &mut MemShelf, name: &Text) {
    assert_eq!(rt; shelf.store(name, b"new"), Err(Failed));
    assert!(rt; holds(shelf, b"a", b"12345".as_slice()));
    assert_eq!(rt; shelf.store(name, b"new"), Ok(()));
    assert!(rt; holds(shelf, b"a", b"new".as_slice()));
    assert_eq!(rt; shelf.store(name, b"again"), Err(Failed));
    assert!(rt; holds(shelf, b"a", b"ag".as_slice()));
}

/// Calls 7 to 9: the outputs.
fn puts_out(rt: &impl Abort, shelf: &mut MemShelf) {
    assert_eq!(rt; shelf.print(b"line\n"), Err(Failed));
    assert_eq!(rt; shelf.print(b"line\n"), Ok(()));
    assert_eq!(rt; shelf.printed(), b"linline\n".as_slice());
    assert_eq!(rt; shelf.complain(b"why\n"), Ok(()));
    assert_eq!(rt; shelf.complained(), b"why\n".as_slice());
}

/// All of these calls.
fn is_called(rt: &impl Abort, alloc: Global, shelf: &mut MemShelf) -> Result<(), Fail> {
    let name = Text::new(alloc, b"a")?;
    let absent = Text::new(alloc, b"c")?;
    let mut into = Vec::new(alloc);
    fetches(rt, shelf, &name, &mut into);
    misses(rt, shelf, &absent, &mut into);
    stores(rt, shelf, &name);
    puts_out(rt, shelf);
    Ok(())
}

/// No command asks for these limits, or calls on after a failure.
#[test]
fn a_shelf_in_memory_holds_and_fails_as_told(rt: HostRuntime) -> Result<(), Fail> {
    let mut shelf = MemShelf::new(rt.alloc());
    set_up(&mut shelf)?;
    is_called(&rt, rt.alloc(), &mut shelf)?;
    assert!(rt; holds(&shelf, b"b", b"other".as_slice()));
    Ok(())
}

fn never_fails(rt: &impl Abort, shelf: &mut NeverFails, name: &Text, into: &mut Vec<u8>) {
    assert_eq!(rt; shelf.fetch(name, 2, into), Ok(Fetched::Whole));
    assert_eq!(rt; into.as_slice(), b"12".as_slice());
    assert_eq!(rt; shelf.fetch(name, 1, into), Ok(Fetched::TooLong));
    assert_eq!(rt; shelf.store(name, b"x"), Ok(()));
    assert_eq!(rt; shelf.print(b"x"), Ok(()));
    assert_eq!(rt; shelf.complain(b"x"), Ok(()));
}

/// The cases run over another shelf.
#[test]
fn a_shelf_without_faults_gives_its_bytes(rt: HostRuntime) -> Result<(), Fail> {
    let name = Text::new(rt.alloc(), b"any")?;
    let mut shelf = NeverFails::new(rt.alloc(), b"12")?;
    let mut into = Vec::new(rt.alloc());
    never_fails(&rt, &mut shelf, &name, &mut into);
    Ok(())
}

/// The shelf of real files, whose outputs are kept in memory.
type Kept<R> = FileShelf<R, Vec<u8>, Vec<u8>>;

/// Of ten bytes: a limit of all, of one less, and of three.
fn file_fetches<R: Files>(rt: &impl Abort, shelf: &mut Kept<R>, name: &Text, into: &mut Vec<u8>) {
    for (limit, found, bytes) in [
        (10, Fetched::Whole, b"0123456789".as_slice()),
        (9, Fetched::TooLong, b"0123456789"),
        (3, Fetched::TooLong, b"0123"),
    ] {
        assert_eq!(rt; shelf.fetch(name, limit, into), Ok(found), "{limit}");
        assert_eq!(rt; into.as_slice(), bytes, "{limit}");
    }
}

/// Fetches the file, and replaces it.
fn fetches_and_stores<R: Files>(
    rt: &impl Abort,
    alloc: Global,
    shelf: &mut Kept<R>,
) -> Result<(), Memory> {
    let name = Text::new(alloc, b"source")?;
    let mut into = Vec::new(alloc);
    file_fetches(rt, shelf, &name, &mut into);
    assert_eq!(rt; shelf.store(&name, b"abc"), Ok(()));
    Ok(())
}

fn misses_one<R: Files>(
    rt: &impl Abort,
    alloc: Global,
    shelf: &mut Kept<R>,
    absent: &[u8],
) -> Result<(), Memory> {
    let absent = Text::new(alloc, absent)?;
    let mut into = Vec::new(alloc);
    into.push(b'x')?;
    assert_eq!(rt;
        shelf.fetch(&absent, 10, &mut into),
        Err(ShelfError::Failed)
    );
    assert_eq!(rt; into.len(), 0);
    Ok(())
}

/// A folder that isn't there, a name that is no UTF-8, and a name that isn't held.
fn file_misses<R: Files>(
    rt: &impl Abort,
    alloc: Global,
    shelf: &mut Kept<R>,
) -> Result<(), Memory> {
    misses_one(rt, alloc, shelf, b"absent/file")?;
    misses_one(rt, alloc, shelf, b"\xff")?;
    misses_one(rt, alloc, shelf, b"absent")
}

/// A folder that isn't there, and the outputs.
fn file_puts<R: Files>(rt: &impl Abort, alloc: Global, shelf: &mut Kept<R>) -> Result<(), Memory> {
    let absent = Text::new(alloc, b"absent/file")?;
    assert_eq!(rt; shelf.store(&absent, b"abc"), Err(Failed));
    assert_eq!(rt; shelf.print(b"printed"), Ok(()));
    assert_eq!(rt; shelf.complain(b"complained"), Ok(()));
    Ok(())
}

/// The cases run over no files.
#[test]
fn files_are_fetched_and_replaced(rt: HostRuntime) -> Result<(), Fail> {
    let alloc = rt.alloc();
    fs::write(&rt, "source", "0123456789")?;
    let mut shelf = FileShelf::new(&rt, Vec::new(alloc), Vec::new(alloc));
    fetches_and_stores(&rt, alloc, &mut shelf)?;
    assert_eq!(rt; fs::read_to_string(&rt, "source")?.as_str(), "abc");
    file_misses(&rt, alloc, &mut shelf)?;
    file_puts(&rt, alloc, &mut shelf)?;
    Ok(())
}
