//! The calls that C makes.

ghost use Rattle.std.specs.Prelude.{◌≡◌, ◌≢◌, ◌↔◌, ℕ, ◌+◌, ◌<◌, ◌≤◌, IsTrue, IsFalse, IsSome, is_some, not, nat_lt, ◌==◌};
ghost use Rattle.std.specs.Prelude.{Some, None, length, if◌then◌else◌};
ghost use Rattle.std.specs.Option.{MatchOption, IfSome, option_map_or};
ghost use Rattle.pp_cache.specs.declared.create.Create.{Create};
ghost use Rattle.pp_cache.specs.Frames.{page_of, frame_of, resident_count, IsFree};
ghost use Rattle.pp_cache.specs.Cache.{asked, without_victim, may_bring_in, after_pin, after_bring_in, after_unpin, after_rekey};
ghost use Rattle.pp_cache.specs.Cache.{after_resize, is_idle, KeepsOnly, PinnedStay, left_of};
ghost use Rattle.pp_keyed.specs.Keyed.{empty_keyed, with_frame};
ghost use Rattle.pp_cache_c.specs.Calls.{code, create_of, counts_of, place_of, Goes, KeepsRoom, GrowsRoom};

use crate::counts::Counts;
use crate::handle::{Handle, Kept, put, take};
use crate::place::Place;
use crate::status::Status;
use pp_cache::{Create, Fetched, MOST_KEYS};
use pp_keyed::KeyedCache;
use std::alloc::Global;

// ---- a cache

/// Makes a cache of `size` pages that nobody has pinned. It takes the place of what the handle held, which is dropped.
///
/// It answers `Done`; `NoRoom`; or `BadArgument` for a size of 0. But for `Done`, the handle holds what it held.
#[unsafe(no_mangle)]
pub extern "C" fn pinpool_handle_new(alloc: Global, handle: &mut Handle, size: u32) -> u32
    ensures bad { (result ≡ code Status.BadArgument) ↔ (size ≡ 0) }
    ensures no_room { result ≢ code Status.Done → result ≢ code Status.BadArgument → result ≡ code Status.NoRoom }
    ensures unchanged { result ≢ code Status.Done → handle.new.value ≡ handle.old.value }
    ensures made { result ≡ code Status.Done
        → MatchOption handle.new.value ⊥ (λ kept. kept.cache ≡ record { cache = empty_keyed size; room = 0; used = 0 }) }
{
    if size == 0 {
        return Status::BadArgument.code();
    }
    let Some(kept) = kept_of(alloc, size) else {
        return Status::NoRoom.code();
    };
    let _dropped = take(alloc, handle);
    put(handle, kept);
    Status::Done.code()
}

/// An empty cache in a box, where there is memory for it.
fn kept_of(alloc: Global, size: u32) -> Option<Box<Kept>>
    requires holds_a_page { 1 ≤ size }
    ensures empty { IfSome result (λ kept. kept.value.cache ≡ record { cache = empty_keyed size; room = 0; used = 0 }) }
{
    let cache = KeyedCache::new(alloc, size).ok()?;
    Box::new(alloc, Kept { cache }).ok()
}

/// Drops the cache that the handle holds, and leaves the handle null.
#[unsafe(no_mangle)]
pub extern "C" fn pinpool_handle_drop(alloc: Global, handle: &mut Handle)
    ensures null { handle.new.value ≡ None }
{
    let _gone = take(alloc, handle);
}

// ---- a page

/// Pins the page of the key, and writes to `place` its frame's number, and which page left for it.
///
/// `create` is 0 for never, 1 for only if there is room, and 2 for always. It answers `Hit`; `New`; `Nothing`, where the page
/// may not be brought in; `NoRoom`, where memory can't be had or the key is too great; `NoCache`; or `BadArgument` for another
/// `create`. But for `Hit` and `New`, `place` stays.
#[unsafe(no_mangle)]
pub extern "C" fn pinpool_handle_fetch(
    alloc: Global,
    handle: &mut Handle,
    key: u32,
    create: u32,
    place: &mut Place,
) -> u32
    ensures null { (result ≡ code Status.NoCache) ↔ (handle.old.value ≡ None) }
    ensures hit { Goes (λ old new. result ≡ code Status.Hit
        → (frame_of old.cache.table key ≡ Some place.new.frame) × (place.new ≡ place_of place.new.frame None)
        × (new ≡ record old { cache = after_pin old.cache key })) handle.old.value handle.new.value }
    ensures resident { Goes (λ old new. create < 3 → IsSome (frame_of old.cache.table key) → result ≡ code Status.Hit)
        handle.old.value handle.new.value }
    ensures new { Goes (λ old new. result ≡ code Status.New → (key < 4294967292)
        × (new.cache ≡ after_bring_in (with_frame old.cache) key place.new.frame)
        × IsFree (without_victim (with_frame old.cache).table (asked old.cache key).0) place.new.frame
        × (place.new ≡ place_of place.new.frame (left_of old.cache.table (asked old.cache key).0))
        × IfSome (create_of create) (λ way. IsTrue (may_bring_in old.cache way))) handle.old.value handle.new.value }
    ensures nothing { Goes (λ old new. result ≡ code Status.Nothing → (new ≡ old)
        × IfSome (create_of create) (λ way. IsFalse (may_bring_in old.cache way))) handle.old.value handle.new.value }
    ensures no_room { Goes (λ old new. result ≡ code Status.NoRoom → (new.cache ≡ old.cache) × (new.used ≡ old.used))
        handle.old.value handle.new.value }
    ensures succeeds { Goes (λ old new. key < 4294967292 → old.used < old.room
        → resident_count old.cache.table < old.cache.table.frames → result ≢ code Status.NoRoom)
        handle.old.value handle.new.value }
    ensures used { Goes (λ old new. new.used ≤ old.used + 1) handle.old.value handle.new.value }
    ensures room { Goes GrowsRoom handle.old.value handle.new.value }
    ensures bad { Goes (λ old new. (result ≡ code Status.BadArgument) ↔ (3 ≤ create)) handle.old.value handle.new.value }
    ensures unchanged { Goes (λ old new. 3 ≤ create → new ≡ old) handle.old.value handle.new.value }
    ensures pinned_stay { Goes (λ old new. PinnedStay old.cache.table new.cache.table) handle.old.value handle.new.value }
    ensures place { result ≢ code Status.Hit → result ≢ code Status.New → place.new ≡ place.old }
    ensures other { result ≢ code Status.Hit → result ≢ code Status.New → result ≢ code Status.Nothing
        → result ≢ code Status.NoCache → result ≢ code Status.BadArgument → result ≡ code Status.NoRoom }
{
    match take(alloc, handle) {
        None => Status::NoCache.code(),
        Some(mut kept) => {
            let status = fetch(alloc, &mut kept.cache, key, create, place);
            put(handle, kept);
            status.code()
        }
    }
}

/// The way to create that C's number says.
fn way_of(create: u32) -> Option<Create>
    ensures value { result ≡ create_of create }
    ensures none { (result ≡ None) ↔ (3 ≤ create) }
{
    match create {
        0 => Some(Create::Never),
        1 => Some(Create::IfRoom),
        2 => Some(Create::Always),
        _ => None,
    }
}

#[inline(always)]
fn fetch(alloc: Global, kept: &mut KeyedCache, key: u32, create: u32, place: &mut Place) -> Status
    ensures there { result ≢ Status.NoCache }
    ensures hit { result ≡ Status.Hit
        → (frame_of kept.old.cache.table key ≡ Some place.new.frame) × (place.new ≡ place_of place.new.frame None)
        × (kept.new ≡ record kept.old { cache = after_pin kept.old.cache key }) }
    ensures resident { create < 3 → IsSome (frame_of kept.old.cache.table key) → result ≡ Status.Hit }
    ensures new { result ≡ Status.New → (key < 4294967292) × (kept.new.cache ≡ after_bring_in (with_frame kept.old.cache) key place.new.frame)
        × IsFree (without_victim (with_frame kept.old.cache).table (asked kept.old.cache key).0) place.new.frame
        × (place.new ≡ place_of place.new.frame (left_of kept.old.cache.table (asked kept.old.cache key).0))
        × IfSome (create_of create) (λ way. IsTrue (may_bring_in kept.old.cache way)) }
    ensures nothing { result ≡ Status.Nothing → (kept.new ≡ kept.old)
        × IfSome (create_of create) (λ way. IsFalse (may_bring_in kept.old.cache way)) }
    ensures no_room { result ≡ Status.NoRoom → (kept.new.cache ≡ kept.old.cache) × (kept.new.used ≡ kept.old.used) }
    ensures succeeds { key < 4294967292 → kept.old.used < kept.old.room
        → resident_count kept.old.cache.table < kept.old.cache.table.frames → result ≢ Status.NoRoom }
    ensures used { kept.new.used ≤ kept.old.used + 1 }
    ensures room { GrowsRoom kept.old kept.new }
    ensures bad { (result ≡ Status.BadArgument) ↔ (3 ≤ create) }
    ensures unchanged { 3 ≤ create → kept.new ≡ kept.old }
    ensures pinned_stay { PinnedStay kept.old.cache.table kept.new.cache.table }
    ensures place { result ≢ Status.Hit → result ≢ Status.New → place.new ≡ place.old }
    ensures other { result ≢ Status.Hit → result ≢ Status.New → result ≢ Status.Nothing → result ≢ Status.BadArgument
        → result ≡ Status.NoRoom }
{
    let way = match way_of(create) {
        None => return Status::BadArgument,
        Some(way) => way,
    };
    match kept.fetch(alloc, key, way) {
        Fetched::Hit(frame) => {
            *place = Place::of(frame, None);
            Status::Hit
        }
        Fetched::New(frame, left) => {
            *place = Place::of(frame, left);
            Status::New
        }
        Fetched::Nothing => Status::Nothing,
        Fetched::NoRoom => Status::NoRoom,
    }
}

/// Writes the number of the frame to `frame` that has the page of the key, and changes nothing else.
///
/// It answers `Hit`, `Nothing` or `NoCache`. But for `Hit`, `frame` stays.
#[unsafe(no_mangle)]
pub extern "C" fn pinpool_handle_frame(
    alloc: Global,
    handle: &mut Handle,
    key: u32,
    frame: &mut u32,
) -> u32
    ensures null { (result ≡ code Status.NoCache) ↔ (handle.old.value ≡ None) }
    ensures unchanged { handle.new.value ≡ handle.old.value }
    ensures keys { IfSome handle.old.value (λ kept. length kept.cache.cache.table.pages ≡ 4294967292) }
    ensures hit { IfSome handle.old.value (λ kept.
        frame_of kept.cache.cache.table key ≡ (if result == code Status.Hit then Some frame.new else None)) }
    ensures frame { result ≢ code Status.Hit → frame.new ≡ frame.old }
    ensures nothing { result ≢ code Status.Hit → result ≢ code Status.NoCache → result ≡ code Status.Nothing }
{
    match take(alloc, handle) {
        None => Status::NoCache.code(),
        Some(kept) => {
            let found = kept.cache.frame(key);
            put(handle, kept);
            match found {
                Some(at) => {
                    *frame = at;
                    Status::Hit.code()
                }
                None => Status::Nothing.code(),
            }
        }
    }
}

/// Takes the pin off the page of the key. Where `discard` isn't 0 it leaves its frame, and isn't remembered.
///
/// It answers `Done` where the page stands in a frame afterwards, `Nothing` where it stands in none, or `NoCache`.
#[unsafe(no_mangle)]
pub extern "C" fn pinpool_handle_unpin(
    alloc: Global,
    handle: &mut Handle,
    key: u32,
    discard: u32,
) -> u32
    ensures null { (result ≡ code Status.NoCache) ↔ (handle.old.value ≡ None) }
    ensures stays { IfSome handle.new.value (λ kept.
        result ≡ (if is_some (page_of kept.cache.cache.table key) then code Status.Done else code Status.Nothing)) }
    ensures exact { Goes (λ old new. new.cache ≡ after_unpin old.cache key (nat_lt 0 discard))
        handle.old.value handle.new.value }
    ensures room { Goes KeepsRoom handle.old.value handle.new.value }
{
    match take(alloc, handle) {
        None => Status::NoCache.code(),
        Some(mut kept) => {
            let stays = kept.cache.unpin(key, 0 < discard);
            put(handle, kept);
            if stays {
                Status::Done.code()
            } else {
                Status::Nothing.code()
            }
        }
    }
}

/// Gives the page of the key `old`, where it stands in a frame, the key `new`. What had that key is dropped.
///
/// It takes no memory. It answers `Done`; `NoRoom`, where the key `new` is too great, which changes nothing; or `NoCache`.
#[unsafe(no_mangle)]
pub extern "C" fn pinpool_handle_rekey(
    alloc: Global,
    handle: &mut Handle,
    old: u32,
    new: u32,
) -> u32
    ensures null { (result ≡ code Status.NoCache) ↔ (handle.old.value ≡ None) }
    ensures done { Goes (λ before after. result ≡ code Status.Done → after.cache ≡ after_rekey before.cache old new)
        handle.old.value handle.new.value }
    ensures same { Goes (λ before after. result ≢ code Status.Done → after ≡ before) handle.old.value handle.new.value }
    ensures room { Goes KeepsRoom handle.old.value handle.new.value }
    ensures succeeds { Goes (λ before after. new < 4294967292 → result ≡ code Status.Done)
        handle.old.value handle.new.value }
    ensures great { Goes (λ before after. 4294967292 ≤ new → result ≡ code Status.NoRoom)
        handle.old.value handle.new.value }
{
    match take(alloc, handle) {
        None => Status::NoCache.code(),
        Some(mut kept) => {
            let status = rekey(&mut kept.cache, old, new);
            put(handle, kept);
            status.code()
        }
    }
}

fn rekey(kept: &mut KeyedCache, old: u32, new: u32) -> Status
    ensures there { result ≢ Status.NoCache }
    ensures done { result ≡ Status.Done → kept.new.cache ≡ after_rekey kept.old.cache old new }
    ensures same { result ≢ Status.Done → kept.new ≡ kept.old }
    ensures room { KeepsRoom kept.old kept.new }
    ensures succeeds { new < 4294967292 → result ≡ Status.Done }
    ensures great { 4294967292 ≤ new → result ≡ Status.NoRoom }
{
    if new >= MOST_KEYS {
        return Status::NoRoom;
    }
    kept.rekey(old, new);
    Status::Done
}

/// Makes room for one more key, and a frame for one more page, so that the next fetch isn't refused, whatever its key.
///
/// It answers `Done`; `NoRoom`, which changes no page, and never comes where there is room; or `NoCache`.
#[unsafe(no_mangle)]
pub extern "C" fn pinpool_handle_reserve(alloc: Global, handle: &mut Handle) -> u32
    ensures null { (result ≡ code Status.NoCache) ↔ (handle.old.value ≡ None) }
    ensures done { Goes (λ old new. result ≡ code Status.Done → new.cache ≡ with_frame old.cache)
        handle.old.value handle.new.value }
    ensures room { Goes (λ old new. result ≡ code Status.Done → (new.used < new.room)
        × (resident_count new.cache.table < new.cache.table.frames)) handle.old.value handle.new.value }
    ensures same { Goes (λ old new. result ≢ code Status.Done → new.cache ≡ old.cache) handle.old.value handle.new.value }
    ensures used { Goes (λ old new. new.used ≡ old.used) handle.old.value handle.new.value }
    ensures grows { Goes GrowsRoom handle.old.value handle.new.value }
    ensures succeeds { Goes (λ old new. old.used < old.room → resident_count old.cache.table < old.cache.table.frames
        → result ≡ code Status.Done) handle.old.value handle.new.value }
    ensures no_room { result ≢ code Status.Done → result ≢ code Status.NoCache → result ≡ code Status.NoRoom }
{
    match take(alloc, handle) {
        None => Status::NoCache.code(),
        Some(mut kept) => {
            let status = reserve(alloc, &mut kept.cache);
            put(handle, kept);
            status.code()
        }
    }
}

fn reserve(alloc: Global, kept: &mut KeyedCache) -> Status
    ensures there { result ≢ Status.NoCache }
    ensures done { result ≡ Status.Done → kept.new.cache ≡ with_frame kept.old.cache }
    ensures room { result ≡ Status.Done
        → (kept.new.used < kept.new.room) × (resident_count kept.new.cache.table < kept.new.cache.table.frames) }
    ensures same { result ≢ Status.Done → kept.new.cache ≡ kept.old.cache }
    ensures used { kept.new.used ≡ kept.old.used }
    ensures grows { GrowsRoom kept.old kept.new }
    ensures succeeds { kept.old.used < kept.old.room
        → resident_count kept.old.cache.table < kept.old.cache.table.frames → result ≡ Status.Done }
    ensures no_room { result ≢ Status.Done → result ≡ Status.NoRoom }
{
    match kept.reserve(alloc) {
        Err(_) => Status::NoRoom,
        Ok(()) => Status::Done,
    }
}

// ---- many pages

/// Drops each page whose key is at least `limit`, pinned or not, and forgets such names. It answers `Done` or `NoCache`.
#[unsafe(no_mangle)]
pub extern "C" fn pinpool_handle_truncate(alloc: Global, handle: &mut Handle, limit: u32) -> u32
    ensures status { result ≡ option_map_or (λ _. code Status.Done) handle.old.value (code Status.NoCache) }
    ensures exact { Goes (λ old new. KeepsOnly (λ key. nat_lt key limit) old.cache new.cache)
        handle.old.value handle.new.value }
    ensures room { Goes KeepsRoom handle.old.value handle.new.value }
{
    match take(alloc, handle) {
        None => Status::NoCache.code(),
        Some(mut kept) => {
            kept.cache.truncate(limit);
            put(handle, kept);
            Status::Done.code()
        }
    }
}

/// Drops each page that isn't pinned. It answers `Done` or `NoCache`.
#[unsafe(no_mangle)]
pub extern "C" fn pinpool_handle_shrink(alloc: Global, handle: &mut Handle) -> u32
    ensures status { result ≡ option_map_or (λ _. code Status.Done) handle.old.value (code Status.NoCache) }
    ensures exact { Goes (λ old new. KeepsOnly (λ key. not (is_idle old.cache.table key)) old.cache new.cache)
        handle.old.value handle.new.value }
    ensures room { Goes KeepsRoom handle.old.value handle.new.value }
{
    match take(alloc, handle) {
        None => Status::NoCache.code(),
        Some(mut kept) => {
            kept.cache.shrink();
            put(handle, kept);
            Status::Done.code()
        }
    }
}

/// Makes the cache one of `size` pages that nobody has pinned. Pages leave as ARC chooses them, and pinned ones stay.
///
/// It answers `Done`, `NoCache`, or `BadArgument` for a size of 0, which changes nothing.
#[unsafe(no_mangle)]
pub extern "C" fn pinpool_handle_resize(alloc: Global, handle: &mut Handle, size: u32) -> u32
    ensures bad { (result ≡ code Status.BadArgument) ↔ (size ≡ 0) }
    ensures status { 1 ≤ size → result ≡ option_map_or (λ _. code Status.Done) handle.old.value (code Status.NoCache) }
    ensures unchanged { size ≡ 0 → handle.new.value ≡ handle.old.value }
    ensures exact { 1 ≤ size → Goes (λ old new. new.cache ≡ after_resize old.cache size) handle.old.value handle.new.value }
    ensures pinned_stay { 1 ≤ size → Goes (λ old new. PinnedStay old.cache.table new.cache.table)
        handle.old.value handle.new.value }
    ensures room { 1 ≤ size → Goes KeepsRoom handle.old.value handle.new.value }
{
    if size == 0 {
        return Status::BadArgument.code();
    }
    match take(alloc, handle) {
        None => Status::NoCache.code(),
        Some(mut kept) => {
            kept.cache.resize(size);
            put(handle, kept);
            Status::Done.code()
        }
    }
}

/// How many pages stand in frames: 0 for a null handle.
#[unsafe(no_mangle)]
pub extern "C" fn pinpool_handle_pages(alloc: Global, handle: &mut Handle) -> u32
    ensures value { result ≡ option_map_or (λ kept. resident_count kept.cache.cache.table) handle.old.value 0 }
    ensures unchanged { handle.new.value ≡ handle.old.value }
{
    match take(alloc, handle) {
        None => 0,
        Some(kept) => {
            let pages = kept.cache.pages();
            put(handle, kept);
            pages
        }
    }
}

/// Writes to `counts` how much the cache has, and changes nothing else. It answers `Done`, or `NoCache`, and then `counts`
/// stays.
#[unsafe(no_mangle)]
pub extern "C" fn pinpool_handle_counts(
    alloc: Global,
    handle: &mut Handle,
    counts: &mut Counts,
) -> u32
    ensures status { result ≡ option_map_or (λ _. code Status.Done) handle.old.value (code Status.NoCache) }
    ensures counts { counts.new ≡ option_map_or (λ kept. counts_of kept.cache) handle.old.value counts.old }
    ensures unchanged { handle.new.value ≡ handle.old.value }
{
    match take(alloc, handle) {
        None => Status::NoCache.code(),
        Some(kept) => {
            *counts = counts_of(&kept.cache);
            put(handle, kept);
            Status::Done.code()
        }
    }
}

fn counts_of(kept: &KeyedCache) -> Counts
    ensures { result ≡ counts_of kept.now }
{
    Counts {
        size: kept.size(),
        pages: kept.pages(),
        pinned: kept.pinned(),
        frames: kept.frames(),
        names: kept.room(),
        used: kept.used(),
    }
}

/// Writes to `key` the least key from `from` on whose page stands in a frame, and changes nothing else.
///
/// It answers `Hit`; `Nothing` where there is none; or `NoCache`. But for `Hit`, `key` stays.
#[unsafe(no_mangle)]
pub extern "C" fn pinpool_handle_next(
    alloc: Global,
    handle: &mut Handle,
    from: u32,
    key: &mut u32,
) -> u32
    ensures null { (result ≡ code Status.NoCache) ↔ (handle.old.value ≡ None) }
    ensures first { IfSome handle.old.value (λ kept. result ≡ code Status.Hit
        → (from ≤ key.new) × IsSome (page_of kept.cache.cache.table key.new)) }
    ensures least { IfSome handle.old.value (λ kept. (other : ℕ) → from ≤ other → (result ≡ code Status.Hit → other < key.new)
        → page_of kept.cache.cache.table other ≡ None) }
    ensures key { result ≢ code Status.Hit → key.new ≡ key.old }
    ensures nothing { result ≢ code Status.Hit → result ≢ code Status.NoCache → result ≡ code Status.Nothing }
    ensures unchanged { handle.new.value ≡ handle.old.value }
{
    match take(alloc, handle) {
        None => Status::NoCache.code(),
        Some(kept) => {
            let found = kept.cache.first_from(from);
            put(handle, kept);
            match found {
                Some(first) => {
                    *key = first;
                    Status::Hit.code()
                }
                None => Status::Nothing.code(),
            }
        }
    }
}
