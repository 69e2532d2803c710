//! Runs whose plans come with works of their own.

use crate::case::{Case, SAMPLE};
use crate::running::{ends_of, same, settings_of};
use pp_cert::Accepted;
use pp_device::Device;
use pp_pool::{End, Work};
use pp_report::RunRecord;
use pp_run::{Pool, Query, RunError, UnbegunQueries, UnrunQueries};
use pp_settings::Settings;
use pp_test_plain::accepted;
use pp_test_plain::samples::WRITE;
use std::alloc::Global;
use std::process::Abort;
use std::sync::Wait;
use std::test::*;
use std::thread::Threads;

/// Two workers, and a leaf for each of eight plans.
static EACH: Case = Case {
    name: "each_plan_has_its_own_work",
    ..SAMPLE
};

/// Settings with a frame more.
static OTHERS: Case = Case {
    name: "other settings",
    frames: 4,
    ..SAMPLE
};

/// How many plans there are.
const PLANS: u32 = 8;

/// A work that writes the leaf of its number, and notes for which plan it was called, and for which page.
#[derive(Drop)]
struct Own {
    number: u32,
    plan: Option<u64>,
    page: Option<u32>,
    begun: u32,
    changes: u32,
    ends: u32,
}

impl Work for Own {
    ghost begins_leaves = { λ work plan after. Unit {0} };

    ghost ended_leaves = { λ work end after. Unit {0} };

    fn begins(&mut self, plan: u64) {
        self.plan = Some(plan);
        self.begun = self.begun.saturating_add(1);
    }

    fn ended(&mut self, _end: End) {
        self.ends = self.ends.saturating_add(1);
    }

    fn page(&mut self, _region: u8, first: u32, count: u32) -> u32 {
        first + self.number % count
    }

    fn branch(&mut self, _count: u16) -> u16 {
        0
    }

    fn change(&mut self, page: u32, _body: &mut [u8]) {
        self.page = Some(page);
        self.changes = self.changes.saturating_add(1);
    }

    fn see(&mut self, _page: u32, _mark: u64, _image: &[u8]) {}
}

/// So many plans that are accepted for the first settings, and behind them, where there are others, one for these; each with a
/// work of its own.
fn asked(rt: &impl Abort, alloc: Global, own: &Settings, last: &Settings) -> Vec<(Accepted, Own)> {
    let mut asked = Vec::new(alloc);
    for number in 0..PLANS {
        let settings = if number + 1 == PLANS { last } else { own };
        let Ok(plan) = accepted(alloc, settings, WRITE) else {
            panic!(rt; "no memory, or not accepted");
        };
        let work = Own {
            number,
            plan: None,
            page: None,
            begun: 0,
            changes: 0,
            ends: 0,
        };
        asked.push((plan, work)).expect(rt, "memory");
    }
    asked
}

/// What a run of these over a new pool comes to.
fn run<D: Device + Drop + Send, R: Abort + Threads + Wait + Sync>(
    rt: &R,
    alloc: Global,
    pool: Pool,
    asked: Vec<(Accepted, Own)>,
    devices: Vec<D>,
) -> Result<(RunRecord, Pool, Vec<D>, Vec<Query<Own>>), (RunError, UnrunQueries<D, Own>)> {
    let workers = pool.workers() as usize;
    assert!(rt; workers < 64);
    assert!(rt; devices.len() == workers + 1);
    pool.run_queries(rt, alloc, asked, devices)
}

/// Each work is called for its own plan and no other, and comes back in the place of that plan.
#[test]
fn each_plan_has_its_own_work(rt: HostRuntime) {
    let alloc = rt.alloc();
    let own = settings_of(&rt, alloc, &EACH);
    let Ok(pool) = Pool::open(alloc, &own) else {
        panic!(rt; "no memory");
    };
    let asked = asked(&rt, alloc, &own, &own);
    let (pool, queries) = match run(&rt, alloc, pool, asked, ends_of(&rt, &EACH)) {
        Ok((_record, pool, _devices, queries)) => (pool, queries),
        Err((error, _left)) => panic!(rt; "no run: {error}"),
    };
    pool.close();
    same(
        &rt,
        EACH.name,
        "works",
        queries.len() as u64,
        u64::from(PLANS),
    );
    let mut place = 0u32;
    for query in queries {
        let work = query.work;
        assert!(rt; query.end == Some(End::Done), "{place} hasn't ended");
        assert!(rt; work.number == place, "{place} is another work");
        assert!(rt;
            work.plan == Some(u64::from(place)),
            "{place} had another plan"
        );
        assert!(rt;
            work.page == Some(16u32.saturating_add(place)),
            "{place} had another page"
        );
        assert!(rt;
            (work.begun, work.changes, work.ends) == (1, 1, 1),
            "{place} was called otherwise"
        );
        place = place.saturating_add(1);
    }
}

/// Where a plan is refused, each plan comes back with its work, of which none was called.
#[test]
fn plans_that_are_refused_come_back_with_their_works(rt: HostRuntime) {
    let alloc = rt.alloc();
    let (own, other) = (
        settings_of(&rt, alloc, &EACH),
        settings_of(&rt, alloc, &OTHERS),
    );
    let Ok(pool) = Pool::open(alloc, &own) else {
        panic!(rt; "no memory");
    };
    let asked = asked(&rt, alloc, &own, &other);
    let back = match run(&rt, alloc, pool, asked, ends_of(&rt, &EACH)) {
        Err((_error, UnrunQueries::Unbegun(back))) => back,
        Err((error, UnrunQueries::Stalled(_stalled))) => panic!(rt; "begun: {error}"),
        Ok(_ran) => panic!(rt; "run"),
    };
    let UnbegunQueries {
        pool,
        plans,
        devices,
    } = back;
    pool.close();
    same(&rt, EACH.name, "ends", devices.len() as u64, 3);
    same(
        &rt,
        EACH.name,
        "plans",
        plans.len() as u64,
        u64::from(PLANS),
    );
    let mut place = 0u32;
    for (_plan, work) in plans {
        assert!(rt;
            work.number == place && work.begun == 0,
            "{place} is another work"
        );
        place = place.saturating_add(1);
    }
}
