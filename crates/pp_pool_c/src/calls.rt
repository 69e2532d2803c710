//! The calls that C makes of a whole pool: to open it, and what stays as it is.

ghost use Rattle.std.specs.Prelude.{◌≡◌, ◌≢◌, ◌↔◌, None, Some, IsSome, IfOk, IfErr, IfSome};
ghost use Rattle.std.specs.Option.{MatchOption};
ghost use Rattle.pp_pool_c.specs.declared.answer.Answer.{Answer as AnAnswer};
ghost use Rattle.pp_pool_c.specs.declared.answer.Answer.TheVariants as answer;
ghost use Rattle.pp_pool_c.specs.Answers.{code};
ghost use Rattle.pp_pool_c.specs.Calls.{Answers, Opens, IsntOpened, done};
ghost use Rattle.pp_pool_c.specs.Figures.{policy_of, sizes_of};

use crate::answer::Answer;
use crate::fault::Fault;
use crate::figures::{Policy, Sizes};
use crate::handle::{Handle, Kept, put, take};
use crate::texts::settings_in;
use pp_steps::Steps;
use std::alloc::Global;

/// Opens a pool into a handle that holds none, with these settings and this policy.
#[unsafe(no_mangle)]
pub extern "C" fn pinpool_open(
    alloc: Global,
    handle: &mut Handle,
    settings: &[u8],
    policy: &Policy,
    fault: &mut Fault,
) -> u32
    ensures in_use { (result ≡ code answer.InUse) ↔ IsSome handle.old.value }
    ensures unchanged { result ≢ code answer.Done → handle.new.value ≡ handle.old.value }
    ensures opened { result ≡ code answer.Done
        → MatchOption handle.new.value ⊥ (Opens settings.now (policy_of policy.now)) }
    ensures isnt { result ≢ code answer.Done → result ≢ code answer.InUse → (why : AnAnswer) × (result ≡ code why)
        × IsntOpened settings.now (policy_of policy.now) why fault.old fault.new }
    ensures fault { result ≢ code answer.Refused → fault.new ≡ fault.old }
{
    if let Some(kept) = take(alloc, handle) {
        put(handle, kept);
        return Answer::InUse.code();
    }
    match opened(alloc, settings, policy, fault) {
        Ok(kept) => {
            put(handle, kept);
            Answer::Done.code()
        }
        Err(answer) => answer.code(),
    }
}

/// A pool with these settings and this policy.
fn opened(
    alloc: Global,
    settings: &[u8],
    policy: &Policy,
    fault: &mut Fault,
) -> Result<Box<Kept>, Answer>
    ensures ok { IfOk result (λ kept. Opens settings.now (policy_of policy.now) kept.value × (fault.new ≡ fault.old)) }
    ensures err { IfErr result (λ why. IsntOpened settings.now (policy_of policy.now) why fault.old fault.new) }
{
    let settings = match settings_in(alloc, settings) {
        Ok(settings) => settings,
        Err(refusal) => return Err(refusal.tell(fault)),
    };
    let steps = match Steps::open(alloc, &settings, policy.policy()) {
        Ok(steps) => steps,
        Err(error) => return Err(Answer::from(error)),
    };
    match Box::new(alloc, Kept { steps, settings }) {
        Ok(kept) => Ok(kept),
        Err(_kept) => Err(Answer::OutOfMemory),
    }
}

/// Tells what stays as it is.
#[unsafe(no_mangle)]
pub extern "C" fn pinpool_sizes_of(alloc: Global, handle: &mut Handle, sizes: &mut Sizes) -> u32
    ensures status { Answers handle.old.value result done }
    ensures null { handle.old.value ≡ None → sizes.new ≡ sizes.old }
    ensures sizes { IfSome handle.old.value (λ kept. sizes.new ≡ sizes_of kept.steps kept.settings) }
    ensures unchanged { handle.new.value ≡ handle.old.value }
{
    match take(alloc, handle) {
        None => Answer::NoPool.code(),
        Some(kept) => {
            *sizes = sizes_of(&kept);
            put(handle, kept);
            Answer::Done.code()
        }
    }
}

/// What stays as it is.
fn sizes_of(kept: &Kept) -> Sizes
    ensures { result ≡ sizes_of kept.now.steps kept.now.settings }
{
    Sizes {
        workers: kept.steps.workers(),
        bells: kept.steps.flushers_bell() + 1,
        frames: kept.settings.frames(),
        page_bytes: kept.settings.page_bytes(),
        pages: kept.settings.pages(),
        unused: 0,
    }
}
