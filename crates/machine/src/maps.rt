//! A map from names to values, kept as a list in the order of the names' bytes.
ghost use Rattle.std.specs.Prelude.{◌≡◌, is_some, option_copied, IfOk, IfErr, OnOk, OnErr};
ghost use Rattle.std.specs.Prelude.{map as map_list};
ghost use Rattle.std.specs.FinMap as map;
ghost use Rattle.machine.specs.Order.{name_cmp};
ghost use Rattle.machine.specs.Inner.Places.{IsAt, IsGapFor};

use basis::{Down, Text};
use std::alloc::Global;
use std::cmp::Ordering;
use std::marker::Model;

/// A name and its value.
#[derive(Drop)]
pub(crate) struct Entry<T> {
    pub(crate) name: Text,
    pub(crate) value: T,
}

/// A map from names to values, in the order of the names' bytes.
#[derive(Drop)]
pub struct NameMap<T> {
    pub(crate) entries: Vec<Entry<T>>,
}

impl<T> Model for NameMap<T> {
    ghost use Rattle.std.specs.Prelude.{ℕ};
    ghost use Rattle.std.specs.Coded.{coded_list, coded_ℕ};
    ghost use Rattle.std.specs.FinMap as map;
    ghost use Rattle.machine.specs.Order.{name_cmp};

    ghost Value = { map.FinMap name_cmp T };

    ghost coded = { map.code (coded_list coded_ℕ) T.code };

    ghost use Rattle.std.specs.Prelude.{IsTrue};
    ghost use Rattle.std.specs.Prelude.{map as map_list};

    ghost view = { λ m. map.from_sorted (map_list (λ e. (e.name, e.value)) m.entries.items) };

    ghost invariant = { λ m. IsTrue (map.is_sorted name_cmp (map_list (λ e. (e.name, e.value)) m.entries.items)) };
}

impl<T> NameMap<T> {
    /// An empty map.
    pub fn new(alloc: Global) -> NameMap<T>
        ensures { result ≡ map.empty }
    {
        NameMap {
            entries: Vec::new(alloc),
        }
    }

    /// The value of the name, if the map has the name.
    pub fn get(&self, name: &str) -> Option<&T>
        ensures { option_copied result ≡ map.get self.now name.now }
    {
        match self.index_of(name) {
            Ok(i) => Some(&self.entries[i].value),
            Err(_) => None,
        }
    }

    /// Sets the value of the name, and drops the value that it had before.
    pub fn insert(&mut self, name: Text, value: T) -> Result<(), Down>
    where
        T: Drop,
        ensures ok { OnOk result (self.new ≡ map.insert self.old name value) }
        ensures err { OnErr result (self.new ≡ self.old) }
    {
        match self.index_of(name.as_str()) {
            Ok(i) => self.entries[i].value = value,
            Err(i) => self.entries.insert(i, Entry { name, value })?,
        }
        Ok(())
    }

    /// Removes the name and its value. Returns whether the name was in the map.
    pub fn remove(&mut self, name: &str) -> bool
    where
        T: Drop,
        ensures removed { self.new ≡ map.remove self.old name.now }
        ensures there { result ≡ is_some (map.get self.old name.now) }
    {
        match self.index_of(name) {
            Ok(i) => {
                self.entries.remove(i);
                true
            }
            Err(_) => false,
        }
    }

    /// The entries, in the order of their names' bytes.
    pub(crate) fn entries(&self) -> &[Entry<T>]
        ensures { map_list (λ e. (e.name, e.value)) result.now ≡ map.entries self.now }
    {
        self.entries.as_slice()
    }

    /// The index of the name's entry, or the index at which it would be inserted.
    pub(crate) fn index_of(&self, name: &str) -> Result<usize, usize>
        ensures found { IfOk result (λ i. IsAt name.now (map.entries self.now) i) }
        ensures absent { IfErr result (λ i. IsGapFor name.now (map.entries self.now) i) }
    {
        for i in 0..self.entries.len() {
            match name.cmp(self.entries[i].name.as_str()) {
                Ordering::Less => return Err(i),
                Ordering::Equal => return Ok(i),
                Ordering::Greater => {}
            }
        }
        Err(self.entries.len())
    }
}
