//! The calls by which plans run.

ghost use Rattle.std.specs.Prelude.{◌≡◌, ◌≢◌, None, IfSome, not, ◌==◌, true};
ghost use Rattle.pp_steps.specs.Calls.{next_of};
ghost use Rattle.pp_steps.specs.Parts.{is_flushers};
ghost use Rattle.pp_pool_c.specs.declared.answer.Answer.{Answer as AnAnswer};
ghost use Rattle.pp_pool_c.specs.declared.answer.Answer.TheVariants as answer;
ghost use Rattle.pp_pool_c.specs.Answers.{code, is_refusal};
ghost use Rattle.pp_pool_c.specs.Asks.{no_ask, told_nobody};
ghost use Rattle.pp_pool_c.specs.Calls.{Goes, Answers, IsTicket, pass_of, ask_of_pass, next_answer, ticket_left};
ghost use Rattle.pp_pool_c.specs.Calls.{Queues, Comes, Starts, StartsBy, Steps, Makes, Leaves, GoesAway};
ghost use Rattle.pp_pool_c.specs.Calls.{HandsFlusher, GivesFlusher, FlushWanted, Wishes};

use crate::answer::Answer;
use crate::ask::Ask;
use crate::handle::{Handle, Kept, put, take};
use crate::told::Told;
use pp_steps::{FlushWish, GoError, Pass};
use std::alloc::Global;

/// Comes to the queue to run the plan of this number.
#[unsafe(no_mangle)]
pub extern "C" fn pinpool_enter(
    alloc: Global,
    handle: &mut Handle,
    plan: u32,
    ticket: &mut u64,
) -> u32
    ensures null { handle.old.value ≡ None → (result ≡ code answer.NoPool) × (ticket.new ≡ 0) }
    ensures enters { Goes (λ old new. Queues plan ticket.new result old new) handle.old.value handle.new.value }
    ensures unchanged { result ≢ code answer.Done → handle.new.value ≡ handle.old.value }
{
    *ticket = 0;
    match take(alloc, handle) {
        None => Answer::NoPool.code(),
        Some(mut kept) => {
            let answer = enter(&mut kept, plan, ticket);
            put(handle, kept);
            answer.code()
        }
    }
}

/// Comes to the queue.
fn enter(kept: &mut Kept, plan: u32, ticket: &mut u64) -> Answer
    ensures comes { Comes plan ticket.new result kept.old.steps kept.new.steps }
    ensures settings { kept.new.settings ≡ kept.old.settings }
{
    match kept.steps.enter(plan) {
        Ok(pass) => {
            *ticket = ticket_of(pass);
            Answer::Done
        }
        Err(error) => {
            *ticket = 0;
            Answer::from(error)
        }
    }
}

/// The ticket of a pass.
fn ticket_of(pass: Pass) -> u64
    ensures { IsTicket pass result }
{
    pass.number()
}

/// Starts, where the ticket is the one that may.
#[unsafe(no_mangle)]
pub extern "C" fn pinpool_start(
    alloc: Global,
    handle: &mut Handle,
    ticket: &mut u64,
    ask: &mut Ask,
    told: &mut Told,
) -> u32
    ensures null { handle.old.value ≡ None
        → (result ≡ code answer.NoPool) × (ticket.new ≡ ticket.old) × (ask.new ≡ no_ask) × (told.new ≡ told_nobody) }
    ensures starts { Goes (λ old new. Starts ticket.old ticket.new result ask.new told.new old new)
        handle.old.value handle.new.value }
    ensures unchanged { (why : AnAnswer) → is_refusal why ≡ true → result ≡ code why
        → handle.new.value ≡ handle.old.value }
{
    *ask = Ask::none();
    *told = Told::nobody();
    match take(alloc, handle) {
        None => Answer::NoPool.code(),
        Some(mut kept) => {
            let answer = start(&mut kept, ticket, told);
            *ask = asked(&kept, Pass::of(*ticket));
            put(handle, kept);
            answer.code()
        }
    }
}

/// Starts, where the ticket is the one that may.
fn start(kept: &mut Kept, ticket: &mut u64, told: &mut Told) -> Answer
    ensures begins { StartsBy ticket.old ticket.new result told.new kept.old.steps kept.new.steps }
    ensures settings { kept.new.settings ≡ kept.old.settings }
{
    let (started, rings) = kept.steps.start(Pass::of(*ticket));
    *told = Told::of(rings);
    match started {
        Ok(pass) => {
            *ticket = ticket_of(pass);
            Answer::Done
        }
        Err(error) => {
            *ticket = ticket_left(error, *ticket);
            Answer::from(error)
        }
    }
}

/// The ticket after a start that wasn't made.
fn ticket_left(error: GoError, ticket: u64) -> u64
    ensures { result ≡ ticket_left error ticket }
{
    match error {
        GoError::Stopped => 0,
        _ => ticket,
    }
}

/// The next step of one with this pass; none where it has none.
pub(crate) fn asked(kept: &Kept, pass: Pass) -> Ask
    ensures { result ≡ ask_of_pass kept.now.steps pass }
{
    match kept.steps.next(pass) {
        Ok(step) => Ask::of(step),
        Err(_) => Ask::none(),
    }
}

/// Tells the next step of a ticket.
#[unsafe(no_mangle)]
pub extern "C" fn pinpool_next(
    alloc: Global,
    handle: &mut Handle,
    ticket: u64,
    ask: &mut Ask,
) -> u32
    ensures status { Answers handle.old.value result
        (λ x. next_answer (next_of (is_flushers x (pass_of ticket)) x (pass_of ticket))) }
    ensures null { handle.old.value ≡ None → ask.new ≡ no_ask }
    ensures ask { IfSome handle.old.value (λ kept. ask.new ≡ ask_of_pass kept.steps (pass_of ticket)) }
    ensures unchanged { handle.new.value ≡ handle.old.value }
{
    *ask = Ask::none();
    match take(alloc, handle) {
        None => Answer::NoPool.code(),
        Some(kept) => {
            let answer = next(&kept, Pass::of(ticket), ask);
            put(handle, kept);
            answer.code()
        }
    }
}

/// Tells the next step of one with this pass.
fn next(kept: &Kept, pass: Pass, ask: &mut Ask) -> Answer
    ensures answer { result ≡ next_answer (next_of (is_flushers kept.now.steps pass) kept.now.steps pass) }
    ensures ask { ask.new ≡ ask_of_pass kept.now.steps pass }
{
    match kept.steps.next(pass) {
        Ok(step) => {
            *ask = Ask::of(step);
            Answer::Done
        }
        Err(error) => {
            *ask = Ask::none();
            Answer::from(error)
        }
    }
}

/// Makes the ticket's next step with this argument, and tells the one behind it.
#[unsafe(no_mangle)]
pub extern "C" fn pinpool_go(
    alloc: Global,
    handle: &mut Handle,
    ticket: u64,
    argument: u32,
    ask: &mut Ask,
    told: &mut Told,
) -> u32
    ensures null { handle.old.value ≡ None
        → (result ≡ code answer.NoPool) × (ask.new ≡ no_ask) × (told.new ≡ told_nobody) }
    ensures goes { Goes (λ old new. Steps ticket argument result ask.new told.new old new)
        handle.old.value handle.new.value }
    ensures unchanged { (why : AnAnswer) → is_refusal why ≡ true → result ≡ code why
        → handle.new.value ≡ handle.old.value }
{
    *ask = Ask::none();
    *told = Told::nobody();
    match take(alloc, handle) {
        None => Answer::NoPool.code(),
        Some(mut kept) => {
            let answer = go(&mut kept, Pass::of(ticket), argument, ask, told);
            put(handle, kept);
            answer.code()
        }
    }
}

/// Makes the next step of one with this pass.
fn go(kept: &mut Kept, pass: Pass, argument: u32, ask: &mut Ask, told: &mut Told) -> Answer
    ensures makes { Makes pass argument result ask.new told.new kept.old.steps kept.new.steps }
    ensures settings { kept.new.settings ≡ kept.old.settings }
{
    let (went, rings) = kept.steps.go(pass, argument);
    *told = Told::of(rings);
    match went {
        Ok(went) => {
            *ask = Ask::of_went(went);
            Answer::Done
        }
        Err(error) => {
            *ask = asked(kept, pass);
            Answer::from(error)
        }
    }
}

/// Leaves the queue, or gives back a chair whose plan wasn't taken, or the flusher's ticket with no flush in hand.
#[unsafe(no_mangle)]
pub extern "C" fn pinpool_leave(
    alloc: Global,
    handle: &mut Handle,
    ticket: u64,
    told: &mut Told,
) -> u32
    ensures null { handle.old.value ≡ None → (result ≡ code answer.NoPool) × (told.new ≡ told_nobody) }
    ensures leaves { Goes (λ old new. Leaves ticket result told.new old new) handle.old.value handle.new.value }
    ensures unchanged { result ≢ code answer.Done → handle.new.value ≡ handle.old.value }
{
    *told = Told::nobody();
    match take(alloc, handle) {
        None => Answer::NoPool.code(),
        Some(mut kept) => {
            let answer = leave(&mut kept, Pass::of(ticket), told);
            put(handle, kept);
            answer.code()
        }
    }
}

/// The one with this pass leaves.
fn leave(kept: &mut Kept, pass: Pass, told: &mut Told) -> Answer
    ensures leaves { GoesAway pass result told.new kept.old.steps kept.new.steps }
    ensures settings { kept.new.settings ≡ kept.old.settings }
{
    match kept.steps.leave(pass) {
        Ok(rings) => {
            *told = Told::of(rings);
            Answer::Done
        }
        Err(error) => {
            *told = Told::nobody();
            Answer::from(error)
        }
    }
}

/// Gives the flusher's ticket out.
#[unsafe(no_mangle)]
pub extern "C" fn pinpool_flusher(
    alloc: Global,
    handle: &mut Handle,
    ticket: &mut u64,
    ask: &mut Ask,
) -> u32
    ensures null { handle.old.value ≡ None
        → (result ≡ code answer.NoPool) × (ticket.new ≡ 0) × (ask.new ≡ no_ask) }
    ensures gives { Goes (λ old new. HandsFlusher ticket.new result ask.new old new) handle.old.value handle.new.value }
    ensures unchanged { result ≢ code answer.Done → handle.new.value ≡ handle.old.value }
{
    *ticket = 0;
    *ask = Ask::none();
    match take(alloc, handle) {
        None => Answer::NoPool.code(),
        Some(mut kept) => {
            let answer = flusher(&mut kept, ticket, ask);
            put(handle, kept);
            answer.code()
        }
    }
}

/// Gives the flusher's ticket out.
fn flusher(kept: &mut Kept, ticket: &mut u64, ask: &mut Ask) -> Answer
    ensures gives { GivesFlusher ticket.new ask.new result kept.old.steps kept.new.steps }
    ensures settings { kept.new.settings ≡ kept.old.settings }
{
    match kept.steps.take_flusher() {
        Some(pass) => {
            *ticket = ticket_of(pass);
            *ask = asked(kept, pass);
            Answer::Done
        }
        None => {
            *ticket = 0;
            *ask = Ask::none();
            Answer::InUse
        }
    }
}

/// Tells whether the flusher's thread is to flush now.
#[unsafe(no_mangle)]
pub extern "C" fn pinpool_flush_wanted(
    alloc: Global,
    handle: &mut Handle,
    ticket: u64,
    is_on: u32,
) -> u32
    ensures null { handle.old.value ≡ None → result ≡ code answer.NoPool }
    ensures wishes { Goes (λ old new. FlushWanted ticket (not (is_on == 0)) result old new) handle.old.value handle.new.value }
    ensures unchanged { (why : AnAnswer) → is_refusal why ≡ true → result ≡ code why
        → handle.new.value ≡ handle.old.value }
{
    match take(alloc, handle) {
        None => Answer::NoPool.code(),
        Some(mut kept) => {
            let answer = flush_wanted(&mut kept, Pass::of(ticket), is_on != 0);
            put(handle, kept);
            answer.code()
        }
    }
}

/// Whether the one with this pass is to flush now.
fn flush_wanted(kept: &mut Kept, pass: Pass, is_on: bool) -> Answer
    ensures wishes { Wishes pass is_on result kept.old.steps kept.new.steps }
    ensures settings { kept.new.settings ≡ kept.old.settings }
{
    match kept.steps.flush_wish(pass, is_on) {
        Ok(FlushWish::Flush) => Answer::Done,
        Ok(FlushWish::Sleep) => Answer::NotNow,
        Ok(FlushWish::Stop) => Answer::Stopped,
        Err(error) => Answer::from(error),
    }
}
