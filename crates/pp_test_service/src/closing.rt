//! A pool whose pages can't be written as it is closed, and one that is given up.

use crate::scene::{AT_ONCE, Act, DONE, Deed, Faults, SAMPLE, Scene, Step, Thing};
use crate::serving::passes;
use pp_buffer_pool::{CloseError, Flush};
use pp_test_plain::samples::{READ, WRITE};
use std::test::*;

/// Changes four leaves, one of them twice.
const FOUR: &[Deed] = &[
    (AT_ONCE, Act::Run(WRITE, &[Step(2, AT_ONCE)], DONE)),
    (AT_ONCE, Act::Run(WRITE, &[Step(0, AT_ONCE)], DONE)),
    (AT_ONCE, Act::Run(WRITE, &[Step(5, AT_ONCE)], DONE)),
    (AT_ONCE, Act::Run(WRITE, &[Step(2, AT_ONCE)], DONE)),
    (AT_ONCE, Act::Run(WRITE, &[Step(7, AT_ONCE)], DONE)),
];

/// Four pages are dirty, and one writing fails. Each time a leaf is read in between, with all its changes.
const ONE_FAILS: Scene = Scene {
    name: "a_writing_fails_as_the_pool_is_closed",
    frames: 6,
    threads: &[FOUR],
    counts: &[(Thing::Done, 5), (Thing::Flushed, 0)],
    dirty: Some(4),
    faults_at_close: Some(1),
    between: &[(AT_ONCE, Act::Run(READ, &[Step(2, AT_ONCE)], DONE))],
    ..SAMPLE
};

/// Each writing fails in turn.
static CLOSES: &[Scene] = &[
    Scene {
        name: "no_writing_fails",
        faults_at_close: Some(0),
        ..ONE_FAILS
    },
    Scene {
        name: "the_first_writing_fails",
        faults: Faults::Flusher(&[1]),
        ..ONE_FAILS
    },
    Scene {
        name: "the_second_writing_fails",
        faults: Faults::Flusher(&[2]),
        ..ONE_FAILS
    },
    Scene {
        name: "the_third_writing_fails",
        faults: Faults::Flusher(&[3]),
        ..ONE_FAILS
    },
    Scene {
        name: "the_last_writing_fails",
        faults: Faults::Flusher(&[4]),
        ..ONE_FAILS
    },
    Scene {
        name: "the_first_five_writings_fail",
        faults: Faults::Flusher(&[1, 2, 3, 4, 5]),
        faults_at_close: Some(5),
        ..ONE_FAILS
    },
    // A page is changed once more in between.
    Scene {
        name: "a_page_is_changed_after_a_close_that_failed",
        faults: Faults::Flusher(&[2, 5]),
        faults_at_close: Some(2),
        between: &[(AT_ONCE, Act::Run(WRITE, &[Step(0, AT_ONCE)], DONE))],
        ..ONE_FAILS
    },
];

#[test]
fn each_close_writes_all_in_the_end(rt: HostRuntime) {
    for scene in CLOSES {
        passes(&rt, scene);
    }
}

/// Pools that can't be closed.
static GIVEN_UP: &[Scene] = &[
    // Two flushes are left, and four pages are dirty.
    Scene {
        name: "a_pool_with_too_few_flushes_is_given_up",
        flushes: 2,
        gives_up: Some((CloseError::FlushesSpent, 2)),
        ..ONE_FAILS
    },
    // None is left as it is to be closed.
    Scene {
        name: "a_pool_whose_flushes_are_spent_is_given_up",
        flushes: 1,
        threads: &[&[
            (AT_ONCE, Act::Run(WRITE, &[Step(0, AT_ONCE)], DONE)),
            (AT_ONCE, Act::Flush(Flush::Written)),
            (AT_ONCE, Act::Run(WRITE, &[Step(0, AT_ONCE)], DONE)),
            (AT_ONCE, Act::FlushSpent),
        ]],
        counts: &[(Thing::Done, 2), (Thing::Flushed, 1)],
        dirty: Some(1),
        gives_up: Some((CloseError::FlushesSpent, 1)),
        ..ONE_FAILS
    },
    // The first page isn't written, and so none is.
    Scene {
        name: "a_pool_whose_device_fails_is_given_up",
        faults: Faults::Flusher(&[1]),
        gives_up: Some((CloseError::WriteFault(16), 4)),
        ..ONE_FAILS
    },
];

#[test]
fn each_pool_that_is_given_up_gives_its_ends_back(rt: HostRuntime) {
    for scene in GIVEN_UP {
        passes(&rt, scene);
    }
}
