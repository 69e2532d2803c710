//! A table of keys: each name has one key at most.

ghost use Rattle.std.specs.Prelude.{◌≡◌, ◌≢◌, ℕ, ◌+◌, ◌-◌, ◌<◌, ◌≤◌, ◌↔◌, List, ◌++◌, length, replicate, slice_set};
ghost use Rattle.std.specs.Prelude.{Option, Some, None, IfOk, IfSome, IsOk, IsErr};

use crate::slots::{NONE, find, put, take_out};
use std::alloc::{AllocError, Global};
use std::marker::Model;

/// Which key each name has, and which name a key.
///
/// Contracts see it as the list of the names' keys. It takes 12 bytes for each name. A look-up takes a step for each slot that it
/// looks at: 1.5 on average where each name has a key and these are scattered, and at worst one for each name.
#[derive(Drop)]
pub struct Table {
    /// The key of each name, or `NONE`.
    keys: Vec<u32>,
    /// The names that have a key, each behind its key's home, and `NONE` in the slots that are empty.
    slots: Vec<u32>,
}

impl Model for Table {
    ghost use Rattle.std.specs.Prelude.{ℕ, List, Option};

    ghost Value = { List (Option ℕ) };

    ghost use Rattle.pp_names.specs.Kept.{keys_of, IsKept};

    ghost view = { λ t. keys_of t.keys.items };

    ghost invariant = { λ t. IsKept t.keys.items t.slots.items };
}

impl Table {
    ghost use Rattle.pp_names.specs.Names.{key_of, IsUnnamed, IsOneToOne};

    /// A table of so many names without a key.
    ///
    /// # Errors
    ///
    /// Only where 12 bytes for each name and 4 more can't be had.
    pub fn new(alloc: Global, names: u32) -> Result<Table, AllocError>
        requires fits { names < 4294967295 }
        ensures empty { IfOk result (λ table. table ≡ replicate names None) }
    {
        Ok(Table {
            keys: vec![in alloc; NONE; names as usize]?,
            slots: vec![in alloc; NONE; 2 * names as usize + 1]?,
        })
    }

    /// How many names there are: they are numbered from 0.
    pub fn len(&self) -> u32
        ensures value { result ≡ length self.now }
        ensures fits { result < 4294967295 }
    {
        self.keys.len() as u32
    }

    /// The name that has this key, if one has it.
    pub fn name(&self, key: u32) -> Option<u32>
        ensures exact { (name : ℕ) → (result ≡ Some name) ↔ (key_of self.now name ≡ Some key) }
        ensures none { result ≡ None → IsUnnamed self.now key }
    {
        find(&self.slots, &self.keys, key)
    }

    /// The key that this name has, if it has one.
    pub fn key(&self, name: u32) -> Option<u32>
        ensures value { result ≡ key_of self.now name }
        ensures below { IfSome result (λ key. key < 4294967295) }
        ensures one_to_one { IsOneToOne self.now }
    {
        if name as usize >= self.keys.len() {
            return None;
        }
        let key = self.keys[name as usize];
        if key == NONE { None } else { Some(key) }
    }

    /// Gives a name that has none this key, which no name has.
    pub fn insert(&mut self, name: u32, key: u32)
        requires name { name < length self.old }
        requires unused { key_of self.old name ≡ None }
        requires key { key < 4294967295 }
        requires unnamed { IsUnnamed self.old key }
        ensures exact { self.new ≡ slice_set self.old name (Some key) }
    {
        put(&mut self.slots, &self.keys, name, key);
        self.keys[name as usize] = key;
    }

    /// Takes its key from a name. A name that has none stays so.
    pub fn remove(&mut self, name: u32)
        ensures exact { self.new ≡ slice_set self.old name None }
    {
        if self.key(name).is_some() {
            take_out(&mut self.slots, &self.keys, name);
            self.keys[name as usize] = NONE;
        }
    }

    /// Makes this a table of so many names, in which each has the key that it had.
    ///
    /// # Errors
    ///
    /// Only where 12 bytes for each name and 4 more can't be had; then nothing has changed.
    pub fn grow(&mut self, alloc: Global, names: u32) -> Result<(), AllocError>
        requires more { length self.old ≤ names }
        requires fits { names < 4294967295 }
        ensures grown { IsOk result → self.new ≡ self.old ++ replicate (names - length self.old) None }
        ensures unchanged { IsErr result → self.new ≡ self.old }
    {
        let mut larger = Table::new(alloc, names)?;
        for name in 0..self.len() {
            if let Some(key) = self.key(name) {
                larger.insert(name, key);
            }
        }
        *self = larger;
        Ok(())
    }
}
