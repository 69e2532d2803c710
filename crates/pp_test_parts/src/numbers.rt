//! The numbers and names of refusals, faults and failures that no line prints, beside a table by hand.

use crate::common::same;
use pp_device::Fault;
use pp_model::{Cause, Delay, Failure, RenewError};
use pp_shared::OpenError;
use pp_vault::Refusal;
use pp_words::JobError;
use std::test::*;

#[test]
fn each_delay_is_a_not_now(rt: HostRuntime) {
    for delay in [
        Delay::NothingWaiting,
        Delay::NoRoom,
        Delay::InFlight,
        Delay::FlushHolds,
        Delay::LatchHeld,
        Delay::FlushBusy,
    ] {
        same(&rt, (delay.number(), delay.name()), (61, "NotNow"));
        let refusal = Refusal::NotNow(delay);
        same(&rt, (refusal.number(), refusal.name()), (61, "NotNow"));
    }
}

#[test]
fn each_cause_is_an_off_plan(rt: HostRuntime) {
    for cause in [
        Cause::NoWorker,
        Cause::NotIdle,
        Cause::NotActing,
        Cause::NotAsked,
        Cause::NoErrand,
        Cause::NotLeaving,
        Cause::NotHeld,
        Cause::NotEnded,
        Cause::NotDirty,
        Cause::NoFlushLeft,
    ] {
        same(&rt, (cause.number(), cause.name()), (62, "OffPlan"));
        let refusal = Refusal::OffPlan(cause);
        same(&rt, (refusal.number(), refusal.name()), (62, "OffPlan"));
    }
    let refusal = Refusal::Stranger;
    same(&rt, (refusal.number(), refusal.name()), (62, "OffPlan"));
}

#[test]
fn faults_and_failures_have_their_numbers(rt: HostRuntime) {
    for (failure, number, name) in [
        (Failure::ReadFault, 71, "ReadFault"),
        (Failure::WriteFault, 72, "WriteFault"),
        (Failure::Misread, 73, "Misread"),
    ] {
        same(&rt, (failure.number(), failure.name()), (number, name));
    }
    for (fault, number, name) in [
        (Fault::Read, 71, "ReadFault"),
        (Fault::Write, 72, "WriteFault"),
    ] {
        same(&rt, (fault.number(), fault.name()), (number, name));
        let error = OpenError::Fault(fault);
        same(&rt, (error.number(), error.name()), (number, name));
    }
}

#[test]
fn each_refused_renewal_has_its_number(rt: HostRuntime) {
    let error = RenewError::NotAtRest;
    same(&rt, (error.number(), error.name()), (54, "NotAtRest"));
    let error = RenewError::MarkTooHigh { page: 7 };
    same(&rt, (error.number(), error.name()), (55, "MarkTooHigh"));
}

#[test]
fn want_of_memory_has_its_number(rt: HostRuntime) -> Result<(), Fail> {
    let error = OpenError::OutOfMemory;
    same(&rt, (error.number(), error.name()), (19, "OutOfMemory"));
    let error = JobError::OutOfMemory;
    let told = (error.number().unwrap_or(0), error.name().unwrap_or(""));
    same(&rt, told, (19, "OutOfMemory"));
    let error = JobError::Words(format!(in rt.alloc(); "no command")?);
    same(&rt, (error.number(), error.name().is_some()), (None, false));
    Ok(())
}
