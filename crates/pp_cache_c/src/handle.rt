//! The handle by which C holds a cache.

ghost use Rattle.std.specs.Prelude.{◌≡◌};
ghost use Rattle.std.specs.Option.{MatchOption};
ghost use Rattle.std.specs.declared.option.Option.{Option};
ghost use Rattle.std.specs.declared.option.Option.TheVariants.{None, Some};
ghost use Rattle.std_heap.specs.declared.Global.{Global};
ghost use Rattle.pp_cache_c.specs.declared.handle.Kept.{Kept};

use pp_handle::BoxParts;
use pp_keyed::KeyedCache;
use std::alloc::Global;
use std::marker::Model;
use std::mem;
use std::ptr::null_mut;

/// The cache that lives between two calls.
#[derive(Drop)]
pub struct Kept {
    /// The cache.
    pub cache: KeyedCache,
}

/// A cache that C holds, or none where the pointer is null.
///
/// It is not `Drop`, so no call can lose a cache: what goes into a handle comes out again.
#[repr(C)]
pub struct Handle {
    at: *mut u8,
    /// What it holds.
    pub ghost value: { Option Kept },
    ghost heap: { Global },
}

impl Model for Handle {
    ghost use Rattle.pp_cache_c.specs.Held.{held};

    ghost also_owns = { λ handle. held handle.heap handle.at handle.value };
}

/// A null handle.
fn empty(alloc: Global) -> Handle
    ensures { result.value ≡ None }
{
    let _ = alloc;
    Handle { at: null_mut() }
}

/// The handle that holds what these parts hold.
fn seal(parts: BoxParts<Kept, Global>) -> Handle
    ensures { result.value ≡ Some parts.value }
{
    let BoxParts { at, alloc: _ } = parts;
    Handle { at: at as *mut u8 }
}

/// The parts of the box that the handle holds, if it isn't null.
fn unseal(handle: Handle, alloc: Global) -> Option<BoxParts<Kept, Global>>
    ensures { MatchOption result (handle.value ≡ None) (λ parts. handle.value ≡ Some parts.value) }
{
    let Handle { at } = handle;
    if at.is_null() {
        None
    } else {
        Some(BoxParts {
            at: at as *mut Kept,
            alloc,
        })
    }
}

/// Lets a null handle go.
fn done(handle: Handle)
    requires { handle.value ≡ None }
    ensures { handle.value ≡ None }
{
    let Handle { at: _ } = handle;
}

/// Takes the cache out, and leaves the handle null.
#[inline(always)]
pub(crate) fn take(alloc: Global, handle: &mut Handle) -> Option<Box<Kept>>
    ensures taken { MatchOption result (handle.old.value ≡ None) (λ kept. handle.old.value ≡ Some kept.value) }
    ensures left { handle.new.value ≡ None }
{
    let held = mem::replace(handle, empty(alloc));
    match unseal(held, alloc) {
        None => None,
        Some(parts) => Some(parts.into_box()),
    }
}

/// Puts a cache into a null handle.
#[inline(always)]
pub(crate) fn put(handle: &mut Handle, kept: Box<Kept>)
    requires { handle.old.value ≡ None }
    ensures { handle.new.value ≡ Some kept.value }
{
    let null = mem::replace(handle, seal(BoxParts::of(kept)));
    done(null);
}
