//! A page cache of dense keys: which page is in which frame, which pages are pinned, and which page leaves for another.
//!
//! A host keeps the bytes of the frames. It asks a [`Cache`] for the frame of a key, pins the page, and unpins it again.
//! Pages that aren't pinned leave by ARC, the directory of `pp_arc`; a pinned page keeps its frame. Contracts see a cache
//! as ARC's four lists of keys beside a map from keys to frames and pins, and each call is an equation on that value, as
//! `specs/Cache.antt` defines it.
//!
//! It is for keys from 0 on without great gaps. `pp_keyed` has the same cache for keys that lie far apart: it gives each key
//! a small name, and has a [`Cache`] of the names.
#![tactic(auto)]

pub use cache::{Cache, MOST_KEYS};
pub use create::Create;
pub use fetched::Fetched;
pub use left::Left;
pub use resident::Resident;

mod cache;
mod create;
mod fetched;
mod frames;
pub mod laws;
mod leaving;
mod left;
mod resident;
