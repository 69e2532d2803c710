//! The calls that C makes of a whole pool: how it stands, and its end.

ghost use Rattle.std.specs.Prelude.{◌≡◌, ◌≢◌, ◌⊎◌, ◌≤◌, ◌<◌, ℕ, None, Some, IfSome, length, slice_get};
ghost use Rattle.std.specs.Option.{MatchOption, option_map};
ghost use Rattle.pp_model.specs.Pool.{State, dirty_pages};
ghost use Rattle.pp_vault.specs.StandsFor.{StandsFor};
ghost use Rattle.pp_steps.specs.declared.rings.Rings.{Rings};
ghost use Rattle.pp_steps.specs.Ending.{Stops, IsHome, IsClean};
ghost use Rattle.pp_pool_c.specs.declared.answer.Answer.TheVariants as answer;
ghost use Rattle.pp_pool_c.specs.Answers.{code};
ghost use Rattle.pp_pool_c.specs.Asks.{told_of, told_nobody};
ghost use Rattle.pp_pool_c.specs.Calls.{Goes, Answers, Closes, done};
ghost use Rattle.pp_pool_c.specs.Figures.{FiguresAre, AreListed, dirty_of};

use crate::answer::Answer;
use crate::figures::{Dirty, Figures};
use crate::handle::{Handle, Kept, put, take};
use crate::told::Told;
use std::alloc::Global;

/// Nobody starts any more, from now on.
#[unsafe(no_mangle)]
pub extern "C" fn pinpool_stop(alloc: Global, handle: &mut Handle, told: &mut Told) -> u32
    ensures null { handle.old.value ≡ None → (result ≡ code answer.NoPool) × (told.new ≡ told_nobody) }
    ensures stops { Goes (λ old new. (rings : Rings) × Stops old rings new × (told.new ≡ told_of rings)
        × (result ≡ code answer.Done)) handle.old.value handle.new.value }
{
    *told = Told::nobody();
    match take(alloc, handle) {
        None => Answer::NoPool.code(),
        Some(mut kept) => {
            *told = Told::of(kept.steps.stop());
            put(handle, kept);
            Answer::Done.code()
        }
    }
}

/// Tells what was done, and how things stand.
#[unsafe(no_mangle)]
pub extern "C" fn pinpool_stats_of(alloc: Global, handle: &mut Handle, stats: &mut Figures) -> u32
    ensures status { Answers handle.old.value result done }
    ensures null { handle.old.value ≡ None → stats.new ≡ stats.old }
    ensures figures { IfSome handle.old.value (λ kept. FiguresAre kept.steps stats.new) }
    ensures unchanged { handle.new.value ≡ handle.old.value }
{
    match take(alloc, handle) {
        None => Answer::NoPool.code(),
        Some(kept) => {
            *stats = Figures::of(kept.steps.stats(), kept.steps.is_stopped());
            put(handle, kept);
            Answer::Done.code()
        }
    }
}

/// Writes down pages that are newer than the device's.
#[unsafe(no_mangle)]
pub extern "C" fn pinpool_dirty_pages(
    alloc: Global,
    handle: &mut Handle,
    pages: &mut [Dirty],
    count: &mut usize,
) -> u32
    ensures status { MatchOption handle.old.value (result ≡ code answer.NoPool)
        (λ _. (result ≡ code answer.Done) ⊎ (result ≡ code answer.OutOfMemory)) }
    ensures none { result ≢ code answer.Done → (count.new ≡ 0) × (pages.new ≡ pages.old) }
    ensures listed { result ≡ code answer.Done → IfSome handle.old.value
        (λ kept. AreListed kept.steps.hall.seating.vault count.new pages.old pages.new) }
    ensures unchanged { handle.new.value ≡ handle.old.value }
{
    *count = 0;
    match take(alloc, handle) {
        None => Answer::NoPool.code(),
        Some(kept) => {
            let answer = dirty(alloc, &kept, pages, count);
            put(handle, kept);
            answer.code()
        }
    }
}

/// Writes down pages that are newer than the device's.
fn dirty(alloc: Global, kept: &Kept, pages: &mut [Dirty], count: &mut usize) -> Answer
    ensures answer { (result ≡ answer.Done) ⊎ (result ≡ answer.OutOfMemory) }
    ensures none { result ≢ answer.Done → (count.new ≡ count.old) × (pages.new ≡ pages.old) }
    ensures listed { result ≡ answer.Done
        → AreListed kept.now.steps.hall.seating.vault count.new pages.old pages.new }
{
    let Ok(mut found) = Vec::from_elem(alloc, (0u32, 0u64), pages.len()) else {
        return Answer::OutOfMemory;
    };
    let written = kept.steps.dirty_pages(&mut found);
    write_down(&found, written, pages);
    *count = written;
    Answer::Done
}

/// Writes so many pages into the first places, as C sees them.
fn write_down(found: &[(u32, u64)], count: usize, pages: &mut [Dirty])
    requires few { count ≤ length found.now }
    requires room { count ≤ length pages.old }
    ensures first { (k : ℕ) → k < count → slice_get pages.new k ≡ option_map dirty_of (slice_get found.now k) }
    ensures rest { (k : ℕ) → count ≤ k → slice_get pages.new k ≡ slice_get pages.old k }
{
    for at in 0..count {
        let (page, mark) = found[at];
        pages[at] = Dirty::of(page, mark);
    }
}

/// Ends the pool, where nobody runs and no page is newer than the device's.
#[unsafe(no_mangle)]
pub extern "C" fn pinpool_close(alloc: Global, handle: &mut Handle) -> u32
    ensures null { handle.old.value ≡ None → result ≡ code answer.NoPool }
    ensures closes { IfSome handle.old.value (λ kept. Closes result kept.steps) }
    ensures closed { result ≡ code answer.Done → (handle.new.value ≡ None)
        × MatchOption handle.old.value ⊥ (λ kept. IsHome kept.steps × IsClean kept.steps) }
    ensures unchanged { result ≢ code answer.Done → handle.new.value ≡ handle.old.value }
{
    match take(alloc, handle) {
        None => Answer::NoPool.code(),
        Some(kept) => match kept.steps.why_open() {
            None => {
                let _none = Box::into_inner(kept).end();
                Answer::Done.code()
            }
            Some(why) => {
                put(handle, kept);
                Answer::from(why).code()
            }
        },
    }
}

/// Ends the pool as it is.
#[unsafe(no_mangle)]
pub extern "C" fn pinpool_abandon(alloc: Global, handle: &mut Handle, lost: &mut u32) -> u32
    ensures status { Answers handle.old.value result done }
    ensures null { handle.old.value ≡ None → lost.new ≡ 0 }
    ensures gone { handle.new.value ≡ None }
    ensures lost { IfSome handle.old.value
        (λ kept. (s : State) → StandsFor kept.steps.hall.seating.vault s → lost.new ≡ dirty_pages s) }
{
    *lost = 0;
    match take(alloc, handle) {
        None => Answer::NoPool.code(),
        Some(kept) => {
            *lost = Box::into_inner(kept).end();
            Answer::Done.code()
        }
    }
}
