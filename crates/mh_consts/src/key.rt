//! Names as keys of a map: two are equal where their bytes are.
ghost use Rattle.std.specs.Prelude.{bytes_eq};
ghost use Rattle.std.specs.Cmp.Lexicographic.{bytes_decides, nat_list_eq_equiv, on_texts_equal};
ghost use Rattle.std.specs.Cmp.{partial_equiv_from_equiv};
ghost use Rattle.std.proofs.Common.{ap};
ghost use Rattle.std.specs.Hash as fed;

use indexmap::Equivalent;
use mh_text::Text;
use std::hash::{Hash, Hasher};
use std::marker::Model;

/// A name that is bound. Contracts see it as the list of its bytes.
#[derive(Drop)]
pub(crate) struct Key {
    pub name: Text,
}

impl Model for Key {
    ghost use Rattle.std.specs.Prelude.{List, ℕ};
    ghost use Rattle.std.specs.Coded.{coded_list, coded_ℕ};

    ghost Value = { List ℕ };

    ghost coded = { coded_list coded_ℕ };

    ghost view = { λ key. key.name };
}

impl PartialEq for Key {
    ghost eq = { bytes_eq };

    ghost laws = { partial_equiv_from_equiv nat_list_eq_equiv };

    fn eq(&self, other: &Key) -> bool {
        self.name.bytes() == other.name.bytes()
    }
}

impl Eq for Key {
    ghost laws = { nat_list_eq_equiv };
}

impl Hash for Key {
    ghost hash_input = { fed.str };

    ghost respects_eq = { λ a b h. ap fed.str ((bytes_decides a b).0 h) };

    fn hash<H: Hasher>(&self, state: &mut H) {
        state.write(self.name.bytes());
        state.write_u8(255);
    }
}

/// A name that is looked up.
#[derive(Clone, Copy)]
pub(crate) struct Sought<'a> {
    pub name: &'a Text,
}

impl<'a> PartialEq for Sought<'a> {
    ghost eq = { λ a b. bytes_eq a.name.now b.name.now };

    ghost laws = { partial_equiv_from_equiv (on_texts_equal (λ q. q.name.now)) };

    fn eq(&self, other: &Sought<'a>) -> bool {
        self.name.bytes() == other.name.bytes()
    }
}

impl<'a> Eq for Sought<'a> {
    ghost laws = { on_texts_equal (λ q. q.name.now) };
}

impl<'a> Hash for Sought<'a> {
    ghost hash_input = { λ q. fed.str q.name.now };

    ghost respects_eq = { λ a b h. ap fed.str ((bytes_decides a.name.now b.name.now).0 h) };

    fn hash<H: Hasher>(&self, state: &mut H) {
        state.write(self.name.bytes());
        state.write_u8(255);
    }
}

impl<'a> Equivalent<Key> for Sought<'a> {
    ghost equivalent = { λ q k. bytes_eq q.name.now k };

    ghost respects_hash = { λ q k h. ap fed.str ((bytes_decides q.name.now k).0 h) };

    ghost respects_eq = { λ q x y. nat_list_eq_equiv.congr q.name.now x y };

    fn equivalent(&self, key: &Key) -> bool {
        self.name.bytes() == key.name.bytes()
    }
}
