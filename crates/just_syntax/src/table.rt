// Tables: values sorted by their keys.

ghost use Rattle.std.specs.Prelude.{List, OnErr, OnOk, [], length, map, option_map, ◌==◌, ◌≡◌};
ghost use Rattle.std.specs.Map.Iter.{ShowsInOrder, deref};
ghost use Rattle.just_syntax.specs.Prelude.{IsInOrder, value_at, with_value};

use crate::keyed::Keyed;
use crate::out_of_memory::OutOfMemory;
use std::alloc::Global;
use std::collections::BTreeMap;
use std::collections::btree_map::{IntoValues, Values};
use std::fmt;
use std::fmt::Debug;
use std::marker::Model;

/// Values by their keys, sorted by the keys' bytes. It keeps the allocator that it was created with.
#[derive(Drop)]
pub struct Table<V: Keyed> {
    alloc: Global,
    values: BTreeMap<String, V>,
}

impl<V: Keyed> Model for Table<V> {
    ghost use Rattle.std.specs.Prelude.{List, map};
    ghost use Rattle.std.specs.Map.{values_of};
    ghost use Rattle.just_syntax.specs.Keyed.{IsKeyed};

    ghost Value = { List V };

    ghost view = { λ t. values_of t.values.entries };

    ghost invariant = { λ t. IsKeyed V.key_text t.values.entries };
}

impl<V: Keyed> Table<V> {
    /// An empty table. It allocates nothing.
    pub fn new(alloc: Global) -> Table<V>
        ensures { result ≡ [] }
    {
        Table {
            alloc,
            values: BTreeMap::new(alloc),
        }
    }

    /// The number of values.
    pub fn len(&self) -> usize
        ensures count { result ≡ length self.now }
        ensures in_order { IsInOrder V.key_text self.now }
    {
        self.values.len()
    }

    /// Whether the table is empty.
    pub fn is_empty(&self) -> bool
        ensures { result ≡ (length self.now == 0) }
    {
        self.values.len() == 0
    }

    /// The value of a key, if there is one.
    pub fn get(&self, key: &str) -> Option<&V>
        ensures { option_map (λ v. v.now) result ≡ value_at V.key_text key.now self.now }
    {
        self.values.get(key)
    }

    /// Inserts a value at its place; it replaces a value with the same key. It allocates a copy of the key, even if the
    /// key already has a value.
    ///
    /// # Errors
    ///
    /// `OutOfMemory`, if an allocation fails: the table is unchanged, and the value is dropped.
    pub fn insert(&mut self, value: V) -> Result<(), OutOfMemory>
    where
        V: Drop,
        ensures ok { OnOk result (self.new ≡ with_value V.key_text self.old value) }
        ensures err { OnErr result (self.new ≡ self.old) }
    {
        let key = String::from_str(self.alloc, value.key())?;
        self.values.insert(key, value)?;
        Ok(())
    }

    /// The values, sorted by their keys.
    pub fn iter(&self) -> Values<'_, String, V>
        ensures rest { result ≡ self.now }
        ensures runs { ShowsInOrder (deref {X = V}) }
        ensures in_order { IsInOrder V.key_text self.now }
    {
        self.values.values()
    }
}

impl<'a, V: Keyed> IntoIterator for &'a Table<V> {
    ghost use Rattle.std.specs.Prelude.{◌≡◌};
    ghost use Rattle.std.specs.Map.Iter.{ShowsInOrder, deref};

    type Item = &'a V;

    type IntoIter = Values<'a, String, V>;

    ghost into_iter_gives = { λ t r. (r ≡ t.now) × ShowsInOrder (deref {X = V}) };

    fn into_iter(self) -> Values<'a, String, V> {
        self.iter()
    }
}

impl<V: Keyed + Drop> IntoIterator for Table<V> {
    ghost use Rattle.std.specs.Prelude.{◌≡◌};
    ghost use Rattle.std.specs.Map.Iter.{GivesInOrder};

    type Item = V;

    type IntoIter = IntoValues<String, V, Global>;

    ghost into_iter_gives = { λ t r. (r ≡ t) × GivesInOrder V };

    fn into_iter(self) -> IntoValues<String, V, Global> {
        let Table { alloc: _, values } = self;
        values.into_values()
    }
}

// The keys with their values. The format is unspecified.
impl<V: Keyed + Debug> Debug for Table<V> {
    fn fmt<W: fmt::Write>(&self, f: &mut fmt::Formatter<W>) -> fmt::Result {
        let mut map = f.debug_map();
        for value in self.iter() {
            map.entry(&value.key(), value);
        }
        map.finish()
    }
}
