ghost use Rattle.std.specs.Prelude.{◌≡◌, ◌+◌, ◌-◌, ◌^◌, ◌||◌, Some, ◌++◌, ◌∷◌, [], ℕ, List, true, min, is_ok, is_err, is_none, is_some, IfOk, OnOk, OnErr};
ghost use Rattle.std.specs.Option.{option_copied};
ghost use Rattle.mh_host.specs.Entries.{Puts, MayPutFront};
ghost use Rattle.mh_host.specs.MemShelf.{told_by, calls_made, counted_by, due, failing, fault_at, Called};
ghost use Rattle.mh_host.specs.Shelf.{is_failed, no_faults, Appends, Complains, Counted, Finds, Prints, Stores, Told};

use crate::count::raise;
use crate::entries::{Entry, find, place};
use crate::portion::{copy_portion, front};
use crate::shelf::{Failed, Fetched, Shelf, ShelfError};
use mh_text::{Memory, Text};
use std::alloc::Global;

/// A call of a `MemShelf` that is to fail.
#[derive(Clone, Copy, Debug, PartialEq, Eq)]
pub struct Fault {
    /// Which call, counted from 0 over all calls of `fetch`, `store`, `print` and `complain`.
    pub call: u64,
    /// How many bytes a `store`, `print` or `complain` takes before it fails. None is a store that
    /// leaves what the name held.
    pub taken: Option<usize>,
}

/// A shelf in memory, which tells all that it holds. Where memory is wanting, its `store`, `print`
/// and `complain` fail and count.
#[derive(Debug, Drop)]
pub struct MemShelf {
    alloc: Global,
    files: Vec<Entry>,
    printed: Vec<u8>,
    complained: Vec<u8>,
    fetch_faults: u64,
    store_faults: u64,
    print_faults: u64,
    complain_faults: u64,
    calls: u64,
    to_fail: Vec<Fault>,
}

/// The fault that the call made now is to answer, if it is to fail. Counts the call.
fn take_due(calls: &mut u64, to_fail: &[Fault]) -> Option<Fault>
    ensures fault { result ≡ fault_at to_fail.now calls.old }
    ensures counted { calls.new ≡ min (calls.old + 1) (2 ^ 64 - 1) }
{
    let call = *calls;
    *calls = calls.saturating_add(1);
    fault_for(to_fail, call)
}

/// The first fault that is meant for this call.
fn fault_for(to_fail: &[Fault], call: u64) -> Option<Fault>
    ensures { result ≡ fault_at to_fail.now call }
{
    for fault in to_fail {
        if fault.call == call {
            return Some(*fault);
        }
    }
    None
}

/// Puts bytes under a name.
fn put(alloc: Global, files: &mut Vec<Entry>, name: &[u8], bytes: &[u8]) -> Result<(), Memory>
    ensures ok { OnOk result (Puts files.old.items name.now bytes.now files.new.items) }
    ensures err { OnErr result (files.new.items ≡ files.old.items) }
{
    let entry = Entry {
        name: Text::new(alloc, name)?,
        bytes: Text::new(alloc, bytes)?,
    };
    place(files, entry)
}

/// Puts bytes under a name; where the call is to fail, as many of them as it takes.
fn store_in(
    alloc: Global,
    files: &mut Vec<Entry>,
    name: &[u8],
    bytes: &[u8],
    fault: Option<Fault>,
) -> Result<(), Failed>
    ensures ok { OnOk result (Puts files.old.items name.now bytes.now files.new.items) }
    ensures err { OnErr result (MayPutFront files.old.items name.now bytes.now files.new.items) }
    ensures fails { is_some fault ≡ true → is_err result ≡ true }
{
    match fault {
        None => put(alloc, files, name, bytes).map_err(|_| Failed),
        Some(fault) => {
            if let Some(taken) = fault.taken {
                let _ = put(alloc, files, name, front(bytes, taken));
            }
            Err(Failed)
        }
    }
}

/// Appends bytes; where the call is to fail, as many of them as it takes.
fn append_to(output: &mut Vec<u8>, bytes: &[u8], fault: Option<Fault>) -> Result<(), Failed>
    ensures appends { Appends (is_ok result) bytes.now output.old.items output.new.items }
    ensures fails { is_some fault ≡ true → is_err result ≡ true }
{
    match fault {
        None => output.extend_from_slice(bytes).map_err(|_| Failed),
        Some(fault) => {
            let taken = fault.taken.unwrap_or(0);
            let _ = output.extend_from_slice(front(bytes, taken));
            Err(Failed)
        }
    }
}

impl MemShelf {
    /// A shelf that holds no name, with nothing printed or complained and no call to fail.
    pub fn new(alloc: Global) -> MemShelf
        ensures empty { (name : List ℕ) → (told_by result).holds name ≡ None }
        ensures printed { (told_by result).printed ≡ [] }
        ensures complained { (told_by result).complained ≡ [] }
        ensures counts { counted_by result ≡ no_faults }
        ensures failing { failing result ≡ [] }
        ensures calls { calls_made result ≡ 0 }
    {
        MemShelf {
            alloc,
            files: Vec::new(alloc),
            printed: Vec::new(alloc),
            complained: Vec::new(alloc),
            fetch_faults: 0,
            store_faults: 0,
            print_faults: 0,
            complain_faults: 0,
            calls: 0,
            to_fail: Vec::new(alloc),
        }
    }

    /// Lets a name hold these bytes. It is no call of a program: it is neither counted nor failed.
    pub fn hold(&mut self, name: &[u8], bytes: &[u8]) -> Result<(), Memory>
        ensures ok { OnOk result (Stores true name.now bytes.now (told_by self.old) (told_by self.new)) }
        ensures err { OnErr result (told_by self.new ≡ told_by self.old) }
        ensures counts { counted_by self.new ≡ counted_by self.old }
        ensures failing { failing self.new ≡ failing self.old }
        ensures calls { calls_made self.new ≡ calls_made self.old }
    {
        put(self.alloc, &mut self.files, name, bytes)
    }

    /// Lets one more call fail. The call whose number is that of `calls_made` then answers a fault.
    pub fn fail(&mut self, fault: Fault) -> Result<(), Memory>
        ensures ok { OnOk result (failing self.new ≡ failing self.old ++ fault ∷ []) }
        ensures err { OnErr result (failing self.new ≡ failing self.old) }
        ensures seen { told_by self.new ≡ told_by self.old }
        ensures counts { counted_by self.new ≡ counted_by self.old }
        ensures calls { calls_made self.new ≡ calls_made self.old }
    {
        self.to_fail.push(fault)?;
        Ok(())
    }

    /// What a name holds, None where it isn't held.
    pub fn held(&self, name: &[u8]) -> Option<&[u8]>
        ensures { option_copied result ≡ (told_by self.now).holds name.now }
    {
        find(self.files.as_slice(), name)
    }

    /// All that was printed.
    pub fn printed(&self) -> &[u8]
        ensures { result.now ≡ (told_by self.now).printed }
    {
        self.printed.as_slice()
    }

    /// All that was complained.
    pub fn complained(&self) -> &[u8]
        ensures { result.now ≡ (told_by self.now).complained }
    {
        self.complained.as_slice()
    }
}

impl Shelf for MemShelf {
    ghost use Rattle.std.specs.Prelude.{Some};
    ghost use Rattle.mh_host.specs.MemShelf.{told_by, counted_by};

    ghost seen = { λ shelf. Some (told_by shelf) };

    ghost counts = { counted_by };

    ghost may_fetch = { λ _. Unit {0} };

    ghost may_store = { λ _. Unit {0} };

    fn fetch(&mut self, name: &Text, limit: u64, into: &mut Vec<u8>) -> Result<Fetched, ShelfError>
        ensures found { IfOk result (λ found. Finds found (Some (told_by self.old)) name.now limit into.new.items) }
        ensures err { OnErr result (into.new.items ≡ []) }
        ensures seen { told_by self.new ≡ told_by self.old }
        ensures count { Counted (is_failed result) (counted_by self.old).fetch (counted_by self.new).fetch }
        ensures others { counted_by self.new ≡ record (counted_by self.old) { fetch = (counted_by self.new).fetch } }
        ensures called { Called self.old self.new }
        ensures fails { is_failed result ≡ is_some (due self.old) || is_none ((told_by self.old).holds name.now) }
    {
        into.clear();
        let fault = take_due(&mut self.calls, self.to_fail.as_slice());
        let held = find(self.files.as_slice(), name.bytes());
        match (held, fault) {
            (Some(bytes), None) => {
                copy_portion(bytes, limit, into).map_err(|_| ShelfError::Memory)
            }
            _ => {
                raise(&mut self.fetch_faults);
                Err(ShelfError::Failed)
            }
        }
    }

    fn store(&mut self, name: &Text, bytes: &[u8]) -> Result<(), Failed>
        ensures seen { Told (Stores (is_ok result) name.now bytes.now) (Some (told_by self.old)) (Some (told_by self.new)) }
        ensures count { Counted (is_err result) (counted_by self.old).store (counted_by self.new).store }
        ensures others { counted_by self.new ≡ record (counted_by self.old) { store = (counted_by self.new).store } }
        ensures called { Called self.old self.new }
        ensures fails { is_some (due self.old) ≡ true → is_err result ≡ true }
    {
        let fault = take_due(&mut self.calls, self.to_fail.as_slice());
        let stored = store_in(self.alloc, &mut self.files, name.bytes(), bytes, fault);
        if stored.is_err() {
            raise(&mut self.store_faults);
        }
        stored
    }

    fn print(&mut self, bytes: &[u8]) -> Result<(), Failed>
        ensures seen { Told (Prints (is_ok result) bytes.now) (Some (told_by self.old)) (Some (told_by self.new)) }
        ensures count { Counted (is_err result) (counted_by self.old).print (counted_by self.new).print }
        ensures others { counted_by self.new ≡ record (counted_by self.old) { print = (counted_by self.new).print } }
        ensures called { Called self.old self.new }
        ensures fails { is_some (due self.old) ≡ true → is_err result ≡ true }
    {
        let fault = take_due(&mut self.calls, self.to_fail.as_slice());
        let printed = append_to(&mut self.printed, bytes, fault);
        if printed.is_err() {
            raise(&mut self.print_faults);
        }
        printed
    }

    fn complain(&mut self, bytes: &[u8]) -> Result<(), Failed>
        ensures seen { Told (Complains (is_ok result) bytes.now) (Some (told_by self.old)) (Some (told_by self.new)) }
        ensures count { Counted (is_err result) (counted_by self.old).complain (counted_by self.new).complain }
        ensures others { counted_by self.new ≡ record (counted_by self.old) { complain = (counted_by self.new).complain } }
        ensures called { Called self.old self.new }
        ensures fails { is_some (due self.old) ≡ true → is_err result ≡ true }
    {
        let fault = take_due(&mut self.calls, self.to_fail.as_slice());
        let complained = append_to(&mut self.complained, bytes, fault);
        if complained.is_err() {
            raise(&mut self.complain_faults);
        }
        complained
    }
}
