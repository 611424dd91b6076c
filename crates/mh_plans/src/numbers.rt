// Numbers, each once, with the place of each.
ghost use Rattle.std.specs.Prelude.{◌≡◌, [], IfOk, OnOk, length};
ghost use Rattle.mh_plans.specs.Order.{is_in, with_last};
ghost use Rattle.mh_plans.specs.Plans.{each_once};
ghost use Rattle.mh_plans.specs.Renumbered.{number_in};

use mh_text::Memory;
use sqlite_items::Items;
use std::alloc::Global;
use std::collections::BTreeMap;
use std::marker::Model;

/// Numbers, each once, in the order in which they came, with the place of each. Contracts see the list.
#[derive(Drop)]
pub(crate) struct Numbers {
    list: Items<u32>,
    places: BTreeMap<u32, u32>,
}

impl Model for Numbers {
    ghost use Rattle.std.specs.Prelude.{List, ℕ};
    ghost use Rattle.std.specs.Coded.{coded_list, coded_ℕ};

    ghost Value = { List ℕ };

    ghost coded = { coded_list coded_ℕ };

    ghost use Rattle.mh_plans.specs.Places.{ArePlaces};

    ghost view = { λ s. s.list };

    ghost invariant = { λ s. ArePlaces s.places s.list };
}

impl Numbers {
    /// No numbers.
    pub(crate) fn new(alloc: Global) -> Numbers
        ensures { result ≡ [] }
    {
        Numbers {
            list: Items::new(alloc),
            places: BTreeMap::new(alloc),
        }
    }

    /// How many there are.
    pub(crate) fn len(&self) -> usize
        ensures { result ≡ length self.now }
    {
        self.list.len()
    }

    /// All of them, in order.
    pub(crate) fn as_slice(&self) -> &[u32]
        ensures { result.now ≡ self.now }
    {
        self.list.as_slice()
    }

    /// Whether a number is among them.
    #[tactic(auto, using(crate::proofs::NumberLaws::number_laws))]
    pub(crate) fn has(&self, n: u32) -> bool
        ensures { result ≡ is_in self.now n }
    {
        self.places.contains_key(&n)
    }

    /// The place of a number: 0 for one that isn't there.
    pub(crate) fn place(&self, n: u32) -> u32
        ensures { result ≡ number_in self.now n }
    {
        match self.places.get(&n) {
            Some(place) => *place,
            None => 0,
        }
    }

    /// Adds a number at the end, unless it is there.
    pub(crate) fn add(&mut self, n: u32) -> Result<(), Memory>
        ensures { OnOk result (self.new ≡ with_last self.old n) }
    {
        if self.has(n) {
            return Ok(());
        }
        let count = self.list.len();
        if count > 4294967295 {
            return Err(Memory);
        }
        self.list.push(n)?;
        match self.places.insert(n, count as u32) {
            Ok(_) => Ok(()),
            Err(_) => {
                self.list.pop();
                Err(Memory)
            }
        }
    }

    /// Adds numbers in turn.
    pub(crate) fn add_all(&mut self, ns: &[u32]) -> Result<(), Memory>
        ensures { OnOk result (self.new ≡ each_once self.old ns.now) }
    {
        for n in ns {
            self.add(*n)?;
        }
        Ok(())
    }
}
