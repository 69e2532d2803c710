//! Names for keys, which are given out and taken back.

ghost use Rattle.std.specs.Prelude.{◌≡◌, ◌≢◌, ℕ, ◌+◌, ◌-◌, ◌<◌, ◌≤◌, ◌↔◌, List, ◌++◌, length, replicate, slice_set};
ghost use Rattle.std.specs.Prelude.{Option, Some, None, IfOk, IfSome, IsOk, IsErr, IsSome};
ghost use Rattle.pp_names.specs.Ordered.{IsLengthened};

use crate::Table;
use std::alloc::{AllocError, Global};
use std::marker::Model;

/// Which key each name has, and which names have none: a key that comes gets one of these.
///
/// Contracts see it as the list of the names' keys. It takes 16 bytes for each name, whatever the keys are. What a look-up takes is
/// said at [`Table`].
#[derive(Drop)]
pub struct Names {
    table: Table,
    /// All names in an order in which those without a key stand last.
    order: Vec<u32>,
    /// How many names have a key.
    used: u32,
}

impl Model for Names {
    ghost use Rattle.std.specs.Prelude.{ℕ, List, Option};

    ghost Value = { List (Option ℕ) };

    ghost use Rattle.pp_names.specs.Ordered.{IsOrdered};

    ghost view = { λ n. n.table };

    ghost invariant = { λ n. IsOrdered n.table n.order.items n.used };
}

/// The names of a list, and behind them those from its length on, up to so many.
fn lengthened(alloc: Global, order: &[u32], names: u32) -> Result<Vec<u32>, AllocError>
    requires more { length order.now ≤ names }
    ensures longer { IfOk result (λ longer. IsLengthened order.now longer.items names) }
{
    let mut longer = Vec::with_capacity(alloc, names as usize)?;
    longer.extend_from_slice(order)?;
    for name in order.len() as u32..names {
        longer.push(name)?;
    }
    Ok(longer)
}

impl Names {
    ghost use Rattle.pp_names.specs.Names.{key_of, IsUnnamed, IsOneToOne, named_count};

    /// So many names without a key.
    ///
    /// # Errors
    ///
    /// Only where 16 bytes for each name and 4 more can't be had.
    pub fn new(alloc: Global, names: u32) -> Result<Names, AllocError>
        requires fits { names < 4294967295 }
        ensures empty { IfOk result (λ empty. empty ≡ replicate names None) }
    {
        Ok(Names {
            table: Table::new(alloc, names)?,
            order: lengthened(alloc, &[], names)?,
            used: 0,
        })
    }

    /// How many names there are: they are numbered from 0.
    pub fn len(&self) -> u32
        ensures value { result ≡ length self.now }
        ensures fits { result < 4294967295 }
    {
        self.table.len()
    }

    /// How many of them have a key.
    pub fn used(&self) -> u32
        ensures value { result ≡ named_count self.now }
    {
        self.used
    }

    /// The name that has this key, if one has it.
    pub fn name(&self, key: u32) -> Option<u32>
        ensures exact { (name : ℕ) → (result ≡ Some name) ↔ (key_of self.now name ≡ Some key) }
        ensures none { result ≡ None → IsUnnamed self.now key }
    {
        self.table.name(key)
    }

    /// The key that this name has, if it has one.
    pub fn key(&self, name: u32) -> Option<u32>
        ensures value { result ≡ key_of self.now name }
        ensures below { IfSome result (λ key. key < 4294967295) }
        ensures one_to_one { IsOneToOne self.now }
    {
        self.table.key(name)
    }

    /// Gives a key, which has no name, one of the names without a key.
    pub fn give(&mut self, key: u32) -> u32
        requires room { named_count self.old < length self.old }
        requires key { key < 4294967295 }
        requires unnamed { IsUnnamed self.old key }
        ensures below { result < length self.old }
        ensures unused { key_of self.old result ≡ None }
        ensures exact { self.new ≡ slice_set self.old result (Some key) }
    {
        let name = self.order[self.used as usize];
        self.table.insert(name, key);
        self.used += 1;
        name
    }

    /// Takes its key from a name. A name that has none stays so.
    pub fn take(&mut self, name: u32)
        ensures exact { self.new ≡ slice_set self.old name None }
    {
        if self.table.key(name).is_some() {
            self.table.remove(name);
            self.used -= 1;
            self.order[self.used as usize] = name;
        }
    }

    /// Gives a name that has a key another key, which has no name.
    pub fn rename(&mut self, name: u32, key: u32)
        requires used { IsSome (key_of self.old name) }
        requires key { key < 4294967295 }
        requires unnamed { IsUnnamed self.old key }
        ensures exact { self.new ≡ slice_set self.old name (Some key) }
    {
        self.table.remove(name);
        self.table.insert(name, key);
    }

    /// Makes these so many names, each with the key that it had.
    ///
    /// # Errors
    ///
    /// Only where 16 bytes for each name and 4 more can't be had; then nothing has changed.
    pub fn grow(&mut self, alloc: Global, names: u32) -> Result<(), AllocError>
        requires more { length self.old ≤ names }
        requires fits { names < 4294967295 }
        ensures grown { IsOk result → self.new ≡ self.old ++ replicate (names - length self.old) None }
        ensures unchanged { IsErr result → self.new ≡ self.old }
    {
        let order = lengthened(alloc, &self.order, names)?;
        self.table.grow(alloc, names)?;
        self.order = order;
        Ok(())
    }
}
