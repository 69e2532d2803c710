//! Names that are given to keys, and taken back where they stand for nothing any more.

ghost use Rattle.std.specs.Prelude.{◌≡◌, ℕ, ◌<◌, ◌≤◌, Option, None, Some, IsSome, is_some, IsTrue, length, if◌then◌else◌};
ghost use Rattle.std.specs.Option.{option_map};
ghost use Rattle.pp_names.specs.Names.{key_of, IsUnnamed, named_count};
ghost use Rattle.pp_cache.specs.Frames.{page_of};
ghost use Rattle.pp_cache.specs.Cache.{PageCache};
ghost use Rattle.pp_cache.specs.declared.left.Left.{Left};
ghost use Rattle.pp_keyed.specs.Keyed.{IsGiven, key_of_left, name_of_left, unused_taken, IsSwept};

use pp_cache::{Cache, Left};
use pp_names::Names;

/// The name of the key: the one that it has, or one that had no key until now.
pub(crate) fn give(names: &mut Names, key: u32) -> u32
    requires room { named_count names.old < length names.old }
    requires key { key < 4294967295 }
    ensures given { IsGiven names.old names.new key result }
{
    match names.name(key) {
        Some(name) => name,
        None => names.give(key),
    }
}

/// The page that left, by its key.
pub(crate) fn left_by_key(names: &Names, left: Option<Left>) -> Option<Left>
    ensures value { result ≡ key_of_left names.now left }
{
    let left = left?;
    let key = names.key(left.key)?;
    Some(Left {
        key,
        frame: left.frame,
    })
}

/// The name of the page that left.
pub(crate) fn name_of(left: Option<Left>) -> Option<u32>
    ensures value { result ≡ name_of_left left }
{
    let left = left?;
    Some(left.key)
}

/// Takes its key from a name that stands in no list, and its page in no frame.
pub(crate) fn take_unused(names: &mut Names, cache: &Cache, name: Option<u32>)
    ensures exact { names.new ≡ unused_taken names.old cache.now name }
{
    if let Some(name) = name {
        if !cache.stands(name) {
            names.take(name);
        }
    }
}

/// Takes its key from a name whose page was unpinned, where that didn't stay in its frame, and the name stands in no list.
#[inline(always)]
pub(crate) fn take_left(names: &mut Names, cache: &Cache, name: u32, stays: bool)
    requires stays { stays ≡ is_some (page_of cache.now.table name) }
    ensures exact { names.new ≡ unused_taken names.old cache.now (Some name) }
{
    if !stays {
        take_unused(names, cache, Some(name));
    }
}

/// Takes their keys from all such names. It takes a step for each name.
pub(crate) fn sweep(names: &mut Names, cache: &Cache)
    ensures swept { IsSwept names.old names.new cache.now }
{
    for name in 0..names.len() {
        take_unused(names, cache, Some(name));
    }
}
