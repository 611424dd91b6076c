// Names and lists.
ghost use Rattle.std.specs.Prelude.{◌≡◌, ◌<◌, ◌∷◌, ◌++◌, [], Some, List, OnOk, OnErr, length, slice_get, slice_set, option_copied};
ghost use Rattle.mh_consts.specs.Names.{lookup};
ghost use Rattle.mh_consts.specs.declared.kinds.Const.{Const};

use crate::kinds::Const;
use crate::names::Names;
use mh_text::{Memory, Text};
use sqlite_items::Items;
use std::alloc::Global;
use std::marker::Model;

/// The lists made so far. A list is known by its number, its place among them.
#[derive(Drop)]
pub struct Lists {
    lists: Vec<Items<Const>>,
}

impl Model for Lists {
    ghost use Rattle.std.specs.Prelude.{List};
    ghost use Rattle.mh_consts.specs.declared.kinds.Const.{Const};
    ghost use Rattle.mh_consts.specs.contracts.kinds.Const as const;
    ghost use Rattle.std.specs.Coded.{codes};

    ghost Value = { List (List Const) };

    ghost coded = { Prim.hlevel (codes, const.the_row.coded) };

    ghost view = { λ l. l.lists.items };
}

impl Lists {
    /// No lists.
    pub fn new(alloc: Global) -> Lists
        ensures { result ≡ [] }
    {
        Lists {
            lists: Vec::new(alloc),
        }
    }

    /// Makes a list; its number is how many there were. After want of memory nothing is changed.
    pub fn add(&mut self, items: Items<Const>) -> Result<(), Memory>
        ensures ok { OnOk result (self.new ≡ self.old ++ items ∷ []) }
        ensures err { OnErr result (self.new ≡ self.old) }
    {
        self.lists.push(items)?;
        Ok(())
    }

    /// Adds an item to the end of a list, which is changed under every name that shares it. After want
    /// of memory nothing is changed.
    pub fn append(&mut self, n: u32, v: Const) -> Result<(), Memory>
        requires { n < length self.old }
        ensures ok { OnOk result ((vs : List Const) → slice_get self.old n ≡ Some vs → self.new ≡ slice_set self.old n (vs ++ v ∷ [])) }
        ensures err { OnErr result (self.new ≡ self.old) }
    {
        self.lists[n as usize].push(v)?;
        Ok(())
    }

    /// The list of a number, lent.
    pub fn get(&self, n: u32) -> Option<&Items<Const>>
        ensures { option_copied result ≡ slice_get self.now n }
    {
        self.lists.get(n as usize)
    }

    /// How many lists there are.
    pub fn len(&self) -> usize
        ensures { result ≡ length self.now }
    {
        self.lists.len()
    }

    /// Puts a value at a place of a list, which is changed under every name that shares it.
    pub fn set(&mut self, n: u32, at: usize, v: Const)
        requires list { n < length self.old }
        requires within { (vs : List Const) → slice_get self.old n ≡ Some vs → at < length vs }
        ensures { (vs : List Const) → slice_get self.old n ≡ Some vs → self.new ≡ slice_set self.old n (slice_set vs at v) }
    {
        self.lists[n as usize].set(at, v);
    }
}

/// What an expression may speak of: names with what they are bound to, and lists by their numbers.
#[derive(Drop)]
pub struct Scope {
    pub names: Names<Const>,
    pub lists: Lists,
}

impl Scope {
    /// What a name is bound to, lent; `None` exactly where it isn't bound.
    pub fn find(&self, name: &Text) -> Option<&Const>
        ensures { option_copied result ≡ lookup self.now.names name.now }
    {
        self.names.find(name)
    }

    /// The list of a number, lent.
    pub fn list(&self, n: u32) -> Option<&Items<Const>>
        ensures { option_copied result ≡ slice_get self.now.lists n }
    {
        self.lists.get(n)
    }
}
