//! The calls by which pages that are cached are read, one call for two moves.

ghost use Rattle.std.specs.Prelude.{◌≡◌, ◌≢◌, None, length};
ghost use Rattle.pp_pool_c.specs.declared.answer.Answer.TheVariants as answer;
ghost use Rattle.pp_pool_c.specs.Answers.{code};
ghost use Rattle.pp_pool_c.specs.Asks.{no_ask, told_nobody};
ghost use Rattle.pp_pool_c.specs.Calls.{Goes, at_once_answer, ask_at_once, GetsTo, GetsBy, PutsTo, PutsBy};

use crate::answer::Answer;
use crate::ask::Ask;
use crate::handle::{Handle, Kept, put, take};
use crate::running::asked;
use crate::told::Told;
use pp_steps::{AtOnceError, Pass, Step};
use std::alloc::Global;

/// Fixes a page and latches it S, and copies bytes of its body.
#[unsafe(no_mangle)]
pub extern "C" fn pinpool_get(
    alloc: Global,
    handle: &mut Handle,
    ticket: u64,
    page: u32,
    from: u32,
    bytes: &mut [u8],
    ask: &mut Ask,
    told: &mut Told,
) -> u32
    ensures null { handle.old.value ≡ None
        → (result ≡ code answer.NoPool) × (bytes.new ≡ bytes.old) × (ask.new ≡ no_ask) × (told.new ≡ told_nobody) }
    ensures gets { Goes (λ old new. GetsTo ticket page from bytes.old result bytes.new ask.new told.new old new)
        handle.old.value handle.new.value }
    ensures unchanged { result ≢ code answer.Done → handle.new.value ≡ handle.old.value }
    ensures bytes { result ≢ code answer.Done → bytes.new ≡ bytes.old }
    ensures long { length bytes.new ≡ length bytes.old }
{
    match take(alloc, handle) {
        None => {
            *ask = Ask::none();
            *told = Told::nobody();
            Answer::NoPool.code()
        }
        Some(mut kept) => {
            let answer = get(&mut kept, Pass::of(ticket), page, from, bytes, ask, told);
            put(handle, kept);
            answer.code()
        }
    }
}

/// The one with this pass begins a reading.
#[inline(always)]
fn get(
    kept: &mut Kept,
    pass: Pass,
    page: u32,
    from: u32,
    bytes: &mut [u8],
    ask: &mut Ask,
    told: &mut Told,
) -> Answer
    ensures gets { GetsBy pass page from bytes.old result bytes.new ask.new told.new kept.old.steps kept.new.steps }
    ensures long { length bytes.new ≡ length bytes.old }
    ensures settings { kept.new.settings ≡ kept.old.settings }
{
    let (got, rings) = kept.steps.get(pass, page, from, bytes);
    *ask = ask_behind(kept, pass, got);
    *told = Told::of(rings);
    answer_of(got)
}

/// Takes a latch S off, and unfixes its page.
#[unsafe(no_mangle)]
pub extern "C" fn pinpool_put(
    alloc: Global,
    handle: &mut Handle,
    ticket: u64,
    ask: &mut Ask,
    told: &mut Told,
) -> u32
    ensures null { handle.old.value ≡ None
        → (result ≡ code answer.NoPool) × (ask.new ≡ no_ask) × (told.new ≡ told_nobody) }
    ensures puts { Goes (λ old new. PutsTo ticket result ask.new told.new old new) handle.old.value handle.new.value }
    ensures unchanged { result ≢ code answer.Done → handle.new.value ≡ handle.old.value }
{
    match take(alloc, handle) {
        None => {
            *ask = Ask::none();
            *told = Told::nobody();
            Answer::NoPool.code()
        }
        Some(mut kept) => {
            let answer = put_back(&mut kept, Pass::of(ticket), ask, told);
            put(handle, kept);
            answer.code()
        }
    }
}

/// The one with this pass ends a reading.
#[inline(always)]
fn put_back(kept: &mut Kept, pass: Pass, ask: &mut Ask, told: &mut Told) -> Answer
    ensures puts { PutsBy pass result ask.new told.new kept.old.steps kept.new.steps }
    ensures settings { kept.new.settings ≡ kept.old.settings }
{
    let (ended, rings) = kept.steps.put(pass);
    *ask = ask_behind(kept, pass, ended);
    *told = Told::of(rings);
    answer_of(ended)
}

/// What a reading that was begun or ended is answered.
#[inline(always)]
fn answer_of(done: Result<Step, AtOnceError>) -> Answer
    ensures { result ≡ at_once_answer done }
{
    match done {
        Ok(_) => Answer::Done,
        Err(error) => Answer::from(error),
    }
}

/// What comes behind it.
#[inline(always)]
fn ask_behind(kept: &Kept, pass: Pass, done: Result<Step, AtOnceError>) -> Ask
    ensures { result ≡ ask_at_once done kept.now.steps pass }
{
    match done {
        Ok(step) => Ask::of(step),
        Err(_) => asked(kept, pass),
    }
}
