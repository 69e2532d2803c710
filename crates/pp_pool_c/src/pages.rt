//! The calls by which bytes of pages go in and out.

ghost use Rattle.std.specs.Prelude.{◌≡◌, ◌≢◌, None, IfSome};
ghost use Rattle.pp_pool_c.specs.declared.answer.Answer.TheVariants as answer;
ghost use Rattle.pp_pool_c.specs.Answers.{code, of_done};
ghost use Rattle.pp_pool_c.specs.Calls.{Goes, CopiesTo, CameTo, ReadsTo, WritesTo, LendsTo, pass_of};

use crate::answer::Answer;
use crate::handle::{Handle, put, take};
use pp_steps::{Lent, Pass, PassError};
use std::alloc::Global;

/// The status of a call by a pass.
fn status(done: Result<(), PassError>) -> u32
    ensures { result ≡ code (of_done done) }
{
    match done {
        Ok(()) => Answer::Done.code(),
        Err(error) => Answer::from(error).code(),
    }
}

/// Copies the image that the device is to write.
#[unsafe(no_mangle)]
pub extern "C" fn pinpool_image(
    alloc: Global,
    handle: &mut Handle,
    ticket: u64,
    bytes: &mut [u8],
) -> u32
    ensures null { handle.old.value ≡ None → (result ≡ code answer.NoPool) × (bytes.new ≡ bytes.old) }
    ensures copies { IfSome handle.old.value (λ kept. CopiesTo ticket result bytes.old bytes.new kept.steps) }
    ensures unchanged { handle.new.value ≡ handle.old.value }
{
    match take(alloc, handle) {
        None => Answer::NoPool.code(),
        Some(kept) => {
            let done = kept.steps.image(Pass::of(ticket), bytes);
            put(handle, kept);
            status(done)
        }
    }
}

/// Takes the image that the device has read.
#[unsafe(no_mangle)]
pub extern "C" fn pinpool_came(alloc: Global, handle: &mut Handle, ticket: u64, bytes: &[u8]) -> u32
    ensures null { handle.old.value ≡ None → result ≡ code answer.NoPool }
    ensures came { Goes (λ old new. CameTo ticket result bytes.now old new) handle.old.value handle.new.value }
    ensures unchanged { result ≢ code answer.Done → handle.new.value ≡ handle.old.value }
{
    match take(alloc, handle) {
        None => Answer::NoPool.code(),
        Some(mut kept) => {
            let done = kept.steps.came(Pass::of(ticket), bytes);
            put(handle, kept);
            status(done)
        }
    }
}

/// Copies bytes of the body of the page in this slot.
#[unsafe(no_mangle)]
pub extern "C" fn pinpool_read(
    alloc: Global,
    handle: &mut Handle,
    ticket: u64,
    slot: u32,
    from: u32,
    bytes: &mut [u8],
) -> u32
    ensures null { handle.old.value ≡ None → (result ≡ code answer.NoPool) × (bytes.new ≡ bytes.old) }
    ensures reads { IfSome handle.old.value (λ kept. ReadsTo ticket slot from result bytes.old bytes.new kept.steps) }
    ensures unchanged { handle.new.value ≡ handle.old.value }
{
    match take(alloc, handle) {
        None => Answer::NoPool.code(),
        Some(mut kept) => {
            let done = kept.steps.read(Pass::of(ticket), slot, from, bytes);
            put(handle, kept);
            status(done)
        }
    }
}

/// Puts bytes into the body of the page in this slot.
#[unsafe(no_mangle)]
pub extern "C" fn pinpool_write(
    alloc: Global,
    handle: &mut Handle,
    ticket: u64,
    slot: u32,
    from: u32,
    bytes: &[u8],
) -> u32
    ensures null { handle.old.value ≡ None → result ≡ code answer.NoPool }
    ensures writes { Goes (λ old new. WritesTo ticket slot from result bytes.now old new) handle.old.value handle.new.value }
    ensures unchanged { result ≢ code answer.Done → handle.new.value ≡ handle.old.value }
{
    match take(alloc, handle) {
        None => Answer::NoPool.code(),
        Some(mut kept) => {
            let done = kept.steps.write(Pass::of(ticket), slot, from, bytes);
            put(handle, kept);
            status(done)
        }
    }
}

/// Tells where the body of the page in this slot lies.
#[unsafe(no_mangle)]
pub extern "C" fn pinpool_lend(
    alloc: Global,
    handle: &mut Handle,
    ticket: u64,
    slot: u32,
    lent: &mut Lent,
) -> u32
    ensures null { handle.old.value ≡ None → (result ≡ code answer.NoPool) × (lent.new ≡ lent.old) }
    ensures lends { IfSome handle.old.value (λ kept. LendsTo ticket slot result lent.old lent.new kept.steps) }
    ensures unchanged { handle.new.value ≡ handle.old.value }
{
    match take(alloc, handle) {
        None => Answer::NoPool.code(),
        Some(mut kept) => {
            let done = kept.steps.lend(Pass::of(ticket), slot);
            put(handle, kept);
            match done {
                Ok(body) => {
                    *lent = body;
                    Answer::Done.code()
                }
                Err(error) => Answer::from(error).code(),
            }
        }
    }
}
