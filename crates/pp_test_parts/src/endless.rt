//! A core whose lives last as long as its host wants: plans are prepared once, and submitted as often as wanted.

use crate::common::{endless_settings, same};
use pp_core::{Core, PrepareError, Prepared, SubmitError};
use pp_model::Came::Image;
use pp_model::Ending::Done;
use pp_model::Move::{Finish, Fix, ReadDone, Take, Unfix};
use pp_model::Reply::{Did, Finished, Hit, Loaded, MustRead, Taken};
use pp_settings::{Settings, Span};
use pp_test_plain::accepted;
use pp_test_plain::samples::{NOTHING, SETTINGS, TOUCH};
use std::alloc::Global;
use std::process::Abort;
use std::test::Fail;

/// The core keeps the plan of this text from now on.
fn prepare(rt: &impl Abort, alloc: Global, core: &mut Core, text: &str) -> Result<Prepared, Fail> {
    let settings = Settings::from_text(alloc, SETTINGS)?;
    let plan = accepted(alloc, &settings, text)?;
    match core.prepare(plan) {
        Ok(prepared) => Ok(prepared),
        Err(_) => panic!(rt; "not prepared"),
    }
}

/// The number of the plan, or that of the refusal.
fn submit(core: &mut Core, prepared: Prepared) -> Result<u64, u8> {
    match core.submit_prepared(prepared) {
        Ok(id) => Ok(id.number()),
        Err(error) => Err(error.number()),
    }
}

/// Worker 0 fixes page 1, which is cached or is read, and gives it back.
fn touch(rt: &impl Abort, core: &mut Core, is_cached: bool) {
    let fix = Fix { worker: 0, page: 1 };
    if is_cached {
        same(rt, core.step(&fix), Hit { frame: 0, mark: 0 });
    } else {
        let came = Image(1, 0);
        same(rt, core.step(&fix), MustRead { frame: 0 });
        same(
            rt,
            core.step(&ReadDone { worker: 0, came }),
            Loaded { mark: 0 },
        );
    }
    same(rt, core.step(&Unfix { worker: 0 }), Did);
}

/// Worker 0 takes the next plan, which touches page 1 or nothing, and ends it. The plans before the second one touch nothing.
fn play(rt: &impl Abort, core: &mut Core, number: u64, touches: bool) {
    same(rt, core.step(&Take { worker: 0 }), Taken { plan: number });
    if touches {
        touch(rt, core, number > 1);
    }
    same(rt, core.step(&Finish { worker: 0 }), Finished(Done));
}

#[test]
fn an_endless_core_goes_on(rt: HostRuntime) -> Result<(), Fail> {
    let settings = endless_settings(rt.alloc(), 3, 3)?;
    let mut core = Core::new(rt.alloc(), &settings)?;
    same(&rt, core.span(), Span::Endless { waiting: 3 });
    let nothing = prepare(&rt, rt.alloc(), &mut core, NOTHING)?;
    let touch = prepare(&rt, rt.alloc(), &mut core, TOUCH)?;
    for round in 0..500u64 {
        let first = round.saturating_mul(2);
        let second = first.saturating_add(1);
        same(&rt, submit(&mut core, nothing), Ok(first));
        same(&rt, submit(&mut core, touch), Ok(second));
        same(&rt, core.plans(), second.saturating_add(1));
        play(&rt, &mut core, first, false);
        play(&rt, &mut core, second, true);
    }
    same(&rt, core.next_possible(), None);
    Ok(())
}

#[test]
fn so_many_plans_wait(rt: HostRuntime) -> Result<(), Fail> {
    let settings = endless_settings(rt.alloc(), 3, 2)?;
    let mut core = Core::new(rt.alloc(), &settings)?;
    let nothing = prepare(&rt, rt.alloc(), &mut core, NOTHING)?;
    same(&rt, submit(&mut core, nothing), Ok(0));
    same(&rt, submit(&mut core, nothing), Ok(1));
    same(&rt, submit(&mut core, nothing), Err(51));
    same(&rt, core.plans(), 2);
    play(&rt, &mut core, 0, false);
    same(&rt, submit(&mut core, nothing), Ok(2));
    same(&rt, submit(&mut core, nothing), Err(51));
    Ok(())
}

#[test]
fn prepared_plans_outlast_a_renewal(rt: HostRuntime) -> Result<(), Fail> {
    let settings = endless_settings(rt.alloc(), 3, 1)?;
    let mut core = Core::new(rt.alloc(), &settings)?;
    let nothing = prepare(&rt, rt.alloc(), &mut core, NOTHING)?;
    same(&rt, submit(&mut core, nothing), Ok(0));
    same(&rt, core.renew().is_ok(), false);
    play(&rt, &mut core, 0, false);
    same(&rt, core.renew().is_ok(), true);
    same(&rt, submit(&mut core, nothing), Ok(0));
    play(&rt, &mut core, 0, false);
    Ok(())
}

#[test]
fn what_isnt_prepared_is_refused(rt: HostRuntime) -> Result<(), Fail> {
    let settings = endless_settings(rt.alloc(), 3, 1)?;
    let mut core = Core::new(rt.alloc(), &settings)?;
    let mut other = Core::new(rt.alloc(), &settings)?;
    let first = prepare(&rt, rt.alloc(), &mut other, NOTHING)?;
    same(&rt, submit(&mut core, first), Err(56));
    same(&rt, core.prepared(first).is_some(), false);
    same(&rt, other.prepared(first).is_some(), true);
    let plan = accepted(rt.alloc(), &settings, TOUCH)?;
    let back = match core.submit(plan) {
        Ok(_) => panic!(rt; "taken in"),
        Err((back, error)) => {
            same(&rt, error, SubmitError::NotPrepared);
            back
        }
    };
    let sample = Settings::from_text(rt.alloc(), SETTINGS)?;
    let mut bounded = Core::new(rt.alloc(), &sample)?;
    same(&rt, bounded.span(), Span::Bounded);
    same(&rt, submit(&mut bounded, first), Err(56));
    let back = match bounded.prepare(back) {
        Ok(_) => panic!(rt; "prepared"),
        Err((back, error)) => {
            same(&rt, error, PrepareError::TooManyPrepared);
            same(&rt, (error.number(), error.name()), (57, "TooManyPrepared"));
            back
        }
    };
    let wider = endless_settings(rt.alloc(), 4, 1)?;
    let mut third = Core::new(rt.alloc(), &wider)?;
    match third.prepare(back) {
        Ok(_) => panic!(rt; "prepared"),
        Err((_, error)) => same(&rt, error, PrepareError::OtherSettings),
    }
    Ok(())
}
