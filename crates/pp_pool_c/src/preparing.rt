//! The calls by which plans are kept.

ghost use Rattle.std.specs.Prelude.{◌≡◌, ◌≢◌, ◌↔◌, ◌⊎◌, ◌+◌, None, Some, IfSome, IfOk, IfErr, Ok};
ghost use Rattle.pp_cert.specs.Accepted.{Acceptance, IsAccepted};
ghost use Rattle.pp_pool_c.specs.declared.answer.Answer.TheVariants as answer;
ghost use Rattle.pp_pool_c.specs.Answers.{code};
ghost use Rattle.pp_pool_c.specs.Asks.{told_nobody};
ghost use Rattle.pp_pool_c.specs.Calls.{KeepsIn, KeepsPlan, IsntKept, Prepares};
ghost use Rattle.pp_pool_c.specs.Texts.{certified_in, alone_in, answer_to, fault_after};

use crate::answer::Answer;
use crate::fault::Fault;
use crate::figures::PreparedPlan;
use crate::handle::{Handle, Kept, put, take};
use crate::refusal::Refusal;
use crate::texts::{alone_in, certified_in};
use crate::told::Told;
use pp_cert::Accepted;
use std::alloc::Global;

/// Checks a plan against its certificate, and keeps it.
#[unsafe(no_mangle)]
pub extern "C" fn pinpool_prepare(
    alloc: Global,
    handle: &mut Handle,
    plan: &[u8],
    certificate: &[u8],
    prepared: &mut PreparedPlan,
    fault: &mut Fault,
    told: &mut Told,
) -> u32
    ensures null { (result ≡ code answer.NoPool) ↔ (handle.old.value ≡ None) }
    ensures keeps { result ≡ code answer.Done → KeepsIn plan.now (λ c. certified_in c plan.now certificate.now) prepared.new told.new
        handle.old.value handle.new.value }
    ensures isnt { IfSome handle.old.value (λ kept. Prepares (certified_in kept.settings plan.now certificate.now) result fault.old
        fault.new kept.steps) }
    ensures unchanged { result ≢ code answer.Done → handle.new.value ≡ handle.old.value }
    ensures nobody { result ≢ code answer.Done → told.new ≡ told_nobody }
    ensures prepared { result ≢ code answer.Done → prepared.new ≡ prepared.old }
    ensures fault { result ≢ code answer.Refused → fault.new ≡ fault.old }
{
    *told = Told::nobody();
    match take(alloc, handle) {
        None => Answer::NoPool.code(),
        Some(mut kept) => {
            let accepted = certified_in(alloc, &kept.settings, plan, certificate);
            let answer = keep(&mut kept, accepted, prepared, fault, told);
            put(handle, kept);
            answer.code()
        }
    }
}

/// Keeps a plan with the least certificate that it has.
#[unsafe(no_mangle)]
pub extern "C" fn pinpool_prepare_alone(
    alloc: Global,
    handle: &mut Handle,
    plan: &[u8],
    prepared: &mut PreparedPlan,
    fault: &mut Fault,
    told: &mut Told,
) -> u32
    ensures null { (result ≡ code answer.NoPool) ↔ (handle.old.value ≡ None) }
    ensures keeps { result ≡ code answer.Done → KeepsIn plan.now (λ c. alone_in c plan.now) prepared.new told.new handle.old.value
        handle.new.value }
    ensures isnt { IfSome handle.old.value (λ kept. Prepares (alone_in kept.settings plan.now) result fault.old fault.new
        kept.steps) }
    ensures unchanged { result ≢ code answer.Done → handle.new.value ≡ handle.old.value }
    ensures nobody { result ≢ code answer.Done → told.new ≡ told_nobody }
    ensures prepared { result ≢ code answer.Done → prepared.new ≡ prepared.old }
    ensures fault { result ≢ code answer.Refused → fault.new ≡ fault.old }
{
    *told = Told::nobody();
    match take(alloc, handle) {
        None => Answer::NoPool.code(),
        Some(mut kept) => {
            let accepted = alone_in(alloc, &kept.settings, plan);
            let answer = keep(&mut kept, accepted, prepared, fault, told);
            put(handle, kept);
            answer.code()
        }
    }
}

/// Keeps a plan, where it is accepted.
fn keep(
    kept: &mut Kept,
    accepted: Result<Accepted, Refusal>,
    prepared: &mut PreparedPlan,
    fault: &mut Fault,
    told: &mut Told,
) -> Answer
    requires { IfOk accepted IsAccepted }
    ensures keeps { result ≡ answer.Done → (a : Acceptance) × (accepted ≡ Ok a)
        × KeepsPlan a prepared.new told.new kept.old.steps kept.new.steps × (fault.new ≡ fault.old) }
    ensures refused { IfErr accepted (λ why. (result ≡ answer_to why) × (fault.new ≡ fault_after why fault.old)) }
    ensures isnt { IfOk accepted (λ a. result ≢ answer.Done → IsntKept a result fault.old fault.new kept.old.steps) }
    ensures settings { kept.new.settings ≡ kept.old.settings }
    ensures unchanged { result ≢ answer.Done
        → (kept.new ≡ kept.old) × (told.new ≡ told.old) × (prepared.new ≡ prepared.old) }
    ensures one { (result ≡ answer.Done) ⊎ ((result ≡ answer.Refused) ⊎ (fault.new ≡ fault.old)) }
{
    let accepted = match accepted {
        Ok(accepted) => accepted,
        Err(refusal) => return refusal.tell(fault),
    };
    match kept.steps.keep(accepted) {
        Ok((number, plan, rings)) => {
            *prepared = PreparedPlan::of(number, plan);
            *told = Told::of(rings);
            Answer::Done
        }
        Err((_accepted, error)) => Answer::from(error),
    }
}
