//! The handle by which C holds a pool.

ghost use Rattle.std.specs.Prelude.{◌≡◌};
ghost use Rattle.std.specs.Option.{MatchOption};
ghost use Rattle.std.specs.declared.option.Option.{Option};
ghost use Rattle.std.specs.declared.option.Option.TheVariants.{None, Some};
ghost use Rattle.std_heap.specs.declared.Global.{Global};
ghost use Rattle.pp_model.specs.Pool.{State, dirty_pages};
ghost use Rattle.pp_vault.specs.StandsFor.{StandsFor};
ghost use Rattle.std.specs.Coded.{codes};
ghost use Rattle.pp_pool_c.specs.declared.handle.Kept.{Kept};
ghost use Rattle.pp_pool_c.specs.contracts.handle.Kept as kept;

use pp_handle::BoxParts;
use pp_settings::Settings;
use pp_steps::Steps;
use std::alloc::Global;
use std::marker::Model;
use std::mem;
use std::ptr::null_mut;

/// The pool that lives between two calls.
pub struct Kept {
    /// The pool.
    pub steps: Steps,
    /// Its settings, under which plans are read.
    pub settings: Settings,
}

impl Kept {
    /// Gives the pool up as it is. Tells how many pages were newer than the device's: what they had is lost.
    pub(crate) fn end(self) -> u32
        ensures { (s : State) → StandsFor self.steps.hall.seating.vault s → result ≡ dirty_pages s }
    {
        let Kept {
            steps,
            settings: _settings,
        } = self;
        steps.abandon()
    }
}

impl Drop for Kept {
    fn drop(self) {
        let _lost = self.end();
    }
}

/// A pool that C holds, or none where the pointer is null.
///
/// It is not `Drop`, so no call can lose a pool: what goes into a handle comes out again.
#[repr(C)]
pub struct Handle {
    at: *mut u8,
    /// What it holds.
    pub ghost value: { Option Kept } by { Prim.hlevel (codes, kept.the_row.coded) },
    ghost heap: { Global },
}

impl Model for Handle {
    ghost use Rattle.pp_pool_c.specs.Held.{held};

    ghost also_owns = { λ handle. held handle.heap handle.at handle.value };
}

/// A null handle.
fn empty(alloc: Global) -> Handle
    ensures { result.value ≡ None }
{
    let _ = alloc;
    Handle { at: null_mut() }
}

/// The handle that holds what these parts hold.
fn seal(parts: BoxParts<Kept, Global>) -> Handle
    ensures { result.value ≡ Some parts.value }
{
    let BoxParts { at, alloc: _ } = parts;
    Handle { at: at as *mut u8 }
}

/// The parts of the box that the handle holds, if it isn't null.
fn unseal(handle: Handle, alloc: Global) -> Option<BoxParts<Kept, Global>>
    ensures { MatchOption result (handle.value ≡ None) (λ parts. handle.value ≡ Some parts.value) }
{
    let Handle { at } = handle;
    if at.is_null() {
        None
    } else {
        Some(BoxParts {
            at: at as *mut Kept,
            alloc,
        })
    }
}

/// Lets a null handle go.
fn done(handle: Handle)
    requires { handle.value ≡ None }
    ensures { handle.value ≡ None }
{
    let Handle { at: _ } = handle;
}

/// Takes the pool out, and leaves the handle null.
#[inline(always)]
pub(crate) fn take(alloc: Global, handle: &mut Handle) -> Option<Box<Kept>>
    ensures taken { MatchOption result (handle.old.value ≡ None) (λ kept. handle.old.value ≡ Some kept.value) }
    ensures left { handle.new.value ≡ None }
{
    let held = mem::replace(handle, empty(alloc));
    match unseal(held, alloc) {
        None => None,
        Some(parts) => Some(parts.into_box()),
    }
}

/// Puts a pool into a null handle.
#[inline(always)]
pub(crate) fn put(handle: &mut Handle, kept: Box<Kept>)
    requires { handle.old.value ≡ None }
    ensures { handle.new.value ≡ Some kept.value }
{
    let null = mem::replace(handle, seal(BoxParts::of(kept)));
    done(null);
}
