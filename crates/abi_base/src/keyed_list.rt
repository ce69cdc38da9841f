//! Values under keys.

ghost use Rattle.std.specs.Prelude.{◌≡◌, ◌<◌, ◌++◌, ◌∷◌, [], MatchOption, length, slice_set};
ghost use Rattle.std.specs.Result.{OnErr, OnOk};
ghost use Rattle.abi_base.specs.KeyedList.{entry_value, put_entry};

use std::alloc::{AllocError, Global};
use std::fmt;
use std::fmt::Debug;
use std::marker::Model;

/// Values under keys, the first of a key counts. Contracts see a list of pairs.
#[derive(Drop)]
pub struct KeyedList<K, V> {
    entries: Vec<(K, V)>,
}

impl<K, V> Model for KeyedList<K, V> {
    ghost use Rattle.std.specs.Prelude.{List};

    ghost Value = { List (K × V) };

    ghost view = { λ a. a.entries.items };
}

impl<K: PartialEq, V: PartialEq> PartialEq for KeyedList<K, V> {
    ghost use Rattle.std.specs.Prelude.{◌&&◌};
    ghost use Rattle.std.specs.Cmp.{on_per, and_per};
    ghost use Rattle.std.specs.Cmp.Lexicographic.{pointwise, lists_per};

    ghost eq = { pointwise (λ x y. K.eq x.0 y.0 && V.eq x.1 y.1) };

    ghost laws = { lists_per (and_per (on_per (λ t. t.0) K.laws) (on_per (λ t. t.1) V.laws)) };

    fn eq(&self, other: &Self) -> bool {
        self.entries == other.entries
    }
}

impl<K: Eq, V: Eq> Eq for KeyedList<K, V> {
    ghost use Rattle.std.specs.Cmp.{on_equiv, and_equiv};
    ghost use Rattle.std.specs.Cmp.Lexicographic.{lists_equiv};

    ghost laws = { lists_equiv (and_equiv (on_equiv (λ t. t.0) K.Eq.laws) (on_equiv (λ t. t.1) V.Eq.laws)) };
}

impl<K: Debug, V: Debug> Debug for KeyedList<K, V> {
    fn fmt<W: fmt::Write>(&self, f: &mut fmt::Formatter<W>) -> fmt::Result {
        self.entries.fmt(f)
    }
}

impl<K, V> From<Vec<(K, V)>> for KeyedList<K, V> {
    ghost use Rattle.std.specs.Prelude.{◌≡◌};

    ghost from_gives = { λ entries list. list ≡ entries.items };

    /// The list of these keys with their values.
    fn from(entries: Vec<(K, V)>) -> Self {
        KeyedList { entries }
    }
}

impl<K, V> KeyedList<K, V> {
    /// A list without values, which asks for no memory yet.
    pub fn new(alloc: Global) -> Self
        ensures { result ≡ [] }
    {
        KeyedList {
            entries: Vec::new(alloc),
        }
    }

    /// Keys and values, as they are listed.
    pub fn as_slice(&self) -> &[(K, V)]
        ensures { result.now ≡ self.now }
    {
        self.entries.as_slice()
    }
}

impl<K: PartialEq + Copy, V: Copy> KeyedList<K, V> {
    /// The value under the key, if there is one: the first of the key.
    pub fn get(&self, key: K) -> Option<V>
        ensures { result ≡ entry_value K.eq self.now key }
    {
        for (listed, value) in &self.entries {
            if *listed == key {
                return Some(*value);
            }
        }
        None
    }

    /// The key and its value, added last.
    pub(crate) fn push(&mut self, key: K, value: V) -> Result<(), AllocError>
        ensures ok { OnOk result (self.new ≡ self.old ++ ((key, value) ∷ [])) }
        ensures err { OnErr result (self.new ≡ self.old) }
    {
        self.entries.push((key, value))?;
        Ok(())
    }

    /// The value of the key replaced, or added last.
    pub(crate) fn insert(&mut self, key: K, value: V) -> Result<(), AllocError>
        ensures ok { OnOk result (self.new ≡ put_entry K.eq key value self.old) }
        ensures err { OnErr result (self.new ≡ self.old) }
    {
        match self.place(key) {
            Some(index) => {
                self.entries[index] = (key, value);
                Ok(())
            }
            None => self.push(key, value),
        }
    }

    /// Where the first entry of the key is, if there is one.
    fn place(&self, key: K) -> Option<usize>
        ensures { MatchOption result
            ((value : V) → put_entry K.eq key value self.now ≡ self.now ++ ((key, value) ∷ []))
            (λ index. (index < length self.now) × ((value : V) →
            put_entry K.eq key value self.now ≡ slice_set self.now index (key, value))) }
    {
        for (index, (listed, _)) in self.entries.iter().enumerate() {
            if *listed == key {
                return Some(index);
            }
        }
        None
    }
}
