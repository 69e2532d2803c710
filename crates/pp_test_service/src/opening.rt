//! Pools that aren't opened.

use crate::scene::{PAGE_BYTES, PAGES, POLICY};
use pp_buffer_pool::{BufferPool, OpenError};
use pp_device::image::HEAD;
use pp_device::{Device, Failing, Trouble};
use pp_hall::OpenError as Fault;
use pp_settings::Settings;
use pp_shared::SharedDevice;
use pp_test_plain::samples::REGIONS;
use std::alloc::Global;
use std::process::Abort;
use std::sync::Wait;
use std::test::*;

/// How many workers, plans that wait and flushes the settings have, how many ends are handed over, and why no pool is
/// opened.
static ROWS: &[(u32, u32, u32, usize, Fault)] = &[
    (2, 0, 4, 3, Fault::Bounded),
    (2, 1, 0, 3, Fault::NoFlushes),
    (33, 1, 4, 34, Fault::TooManyWorkers),
    (2, 1, 4, 2, Fault::OtherEnds),
    (2, 1, 4, 4, Fault::OtherEnds),
    (2, 1, 4, 0, Fault::OtherEnds),
];

/// A device that isn't of the settings, whose pages are 24 of 512 bytes: how many pages it has and of how many bytes, and what
/// goes amiss at the flusher's end.
type Other = (u32, usize, &'static [(u32, Trouble)]);

static OTHERS: &[Other] = &[
    (PAGES, PAGE_BYTES, &[(1, Trouble::Lie(22, 0))]),
    (PAGES, PAGE_BYTES, &[(1, Trouble::Fail)]),
    (PAGES - 1, PAGE_BYTES, &[]),
    (PAGES, PAGE_BYTES / 2, &[]),
];

/// The first call isn't done.
const NO_CALL: &[(u32, Trouble)] = &[(1, Trouble::Fail)];

/// No pool is opened with these, and all ends come back.
fn is_refused<D: Device + Drop>(
    rt: &impl Abort,
    alloc: Global,
    settings: &Settings,
    ends: Vec<D>,
    want: OpenError,
) {
    let count = ends.len();
    match BufferPool::open(alloc, settings, POLICY, ends) {
        Ok(_pool) => panic!(rt; "opened, and not {want}"),
        Err((error, back)) => {
            assert!(rt; error == want, "{error}, and not {want}");
            assert!(rt; back.len() == count, "{error}: not all ends come back");
        }
    }
}

/// Settings with so many workers, plans that wait, and flushes.
fn settings_of(
    rt: &impl Abort,
    alloc: Global,
    workers: u32,
    waiting: u32,
    flushes: u32,
) -> Settings {
    let text = format!(in alloc;
        "version = 2\nframes = 40\npage_bytes = {PAGE_BYTES}\nworkers = {workers}\nwaiting = {waiting}\n\
        flushes = {flushes}\n{REGIONS}"
    )
    .expect(rt, "memory");
    match Settings::from_text(alloc, &text) {
        Ok(settings) => settings,
        Err(_) => panic!(rt; "no settings: {text}"),
    }
}

#[test]
fn each_pool_that_is_not_opened_gives_its_ends_back(rt: HostRuntime) {
    let alloc = rt.alloc();
    for (workers, waiting, flushes, ends, want) in ROWS {
        let settings = settings_of(&rt, alloc, *workers, *waiting, *flushes);
        let ends = SharedDevice::over_memory(rt, alloc, PAGES, PAGE_BYTES, *ends).expect(
            &rt, "memory",
        );
        is_refused(&rt, alloc, &settings, ends, OpenError::Hall(*want));
    }
}

/// Two chairs' ends, of which no call is done, and the flusher's, at which this goes amiss.
fn ends_of<R: Abort + Wait + Copy + Drop>(
    rt: R,
    alloc: Global,
    other: &Other,
) -> Vec<Failing<SharedDevice<R>>> {
    let (pages, page_bytes, troubles) = other;
    assert!(&rt; *page_bytes >= HEAD, "no room for a head");
    let shared = SharedDevice::over_memory(rt, alloc, *pages, *page_bytes, 3).expect(&rt, "memory");
    let mut ends = Vec::new(alloc);
    for end in shared {
        let troubles = if ends.len() < 2 { NO_CALL } else { *troubles };
        let troubles = troubles.to_vec(alloc).expect(&rt, "memory");
        ends.push(Failing::new(end, troubles)).expect(&rt, "memory");
    }
    ends
}

#[test]
fn a_device_of_other_settings_is_refused(rt: HostRuntime) {
    let alloc = rt.alloc();
    let settings = settings_of(&rt, alloc, 2, 1, 4);
    for other in OTHERS {
        let ends = ends_of(rt, alloc, other);
        is_refused(
            &rt,
            alloc,
            &settings,
            ends,
            OpenError::OtherDevice(PAGES - 1),
        );
    }
}
