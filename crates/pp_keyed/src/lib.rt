//! A page cache whose keys may lie far apart: its memory goes with how many pages stand in frames or are remembered, and
//! not with the greatest key.
//!
//! A host asks a [`KeyedCache`] for the frame of a key, pins the page, and unpins it again, as it does with the `Cache` of
//! `pp_cache`. Contracts see a `KeyedCache` as such a cache of keys, and each call is the same equation on it. Inside, each
//! key that is known has a name, and a cache of names does the work: replacement doesn't look at the numbers of pages, but
//! at whether two are one, as `laws` says.
#![tactic(auto)]

pub use keyed::KeyedCache;

mod keyed;
mod keys;
pub mod laws;
mod names;
