//! Names in order of first binding, and what each is bound to now.
ghost use Rattle.std.specs.Prelude.{◌≡◌, [], OnOk, OnErr, option_copied, slice_get};
ghost use Rattle.std.specs.Option.{option_map};
ghost use Rattle.mh_consts.specs.Names.{lookup, bind};

use crate::key::{Key, Sought};
use indexmap::IndexMap;
use mh_text::{Memory, Text};
use std::alloc::Global;
use std::marker::Model;

/// Names in order of first binding, each with what it is bound to now. Contracts see the list of
/// these pairs.
#[derive(Drop)]
pub struct Names<V> {
    map: IndexMap<Key, V>,
}

impl<V> Model for Names<V> {
    ghost use Rattle.std.specs.Prelude.{List, ℕ};

    ghost Value = { List (List ℕ × V) };

    ghost view = { λ n. n.map.entries };
}

impl<V: Drop> Names<V> {
    /// No names.
    pub fn new(alloc: Global) -> Names<V>
        ensures { result ≡ [] }
    {
        Names {
            map: IndexMap::new(alloc),
        }
    }

    /// What a name is bound to, lent; `None` exactly where it isn't bound.
    pub fn find(&self, name: &Text) -> Option<&V>
        ensures { option_copied result ≡ lookup self.now name.now }
    {
        self.map.get(Sought { name })
    }

    /// What the name at a place in order of first binding is bound to, lent; `None` exactly where there
    /// are no more.
    pub fn value_at(&self, place: usize) -> Option<&V>
        ensures { option_copied result ≡ option_map (λ e. e.1) (slice_get self.now place) }
    {
        match self.map.get_index(place) {
            Some(entry) => Some(entry.1),
            None => None,
        }
    }

    /// The name at a place in order of first binding, lent; `None` exactly where there are no more.
    pub fn name_at(&self, place: usize) -> Option<&Text>
        ensures { option_copied result ≡ option_map (λ e. e.0) (slice_get self.now place) }
    {
        match self.map.get_index(place) {
            Some(entry) => {
                let key: &Key = entry.0;
                Some(&key.name)
            }
            None => None,
        }
    }

    /// Binds a name. A name that is bound already keeps its place. After want of memory nothing is
    /// changed.
    pub fn bind(&mut self, name: Text, value: V) -> Result<(), Memory>
        ensures ok { OnOk result (self.new ≡ bind self.old name value) }
        ensures err { OnErr result (self.new ≡ self.old) }
    {
        match self.map.insert(Key { name }, value) {
            Ok(_) => Ok(()),
            Err(_) => Err(Memory),
        }
    }
}
