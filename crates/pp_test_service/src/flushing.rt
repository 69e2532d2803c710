//! How often the flusher writes.

use crate::scene::{
    AT_ONCE, Act, Call, Cue, DONE, FLUSHER, Faults, POLICY, SAMPLE, Scene, Step, Thing, Until,
};
use crate::serving::passes;
use pp_buffer_pool::{Flush, Policy};
use pp_test_plain::samples::{TOUCH, WRITE};
use std::test::*;

/// A region of one page.
const ONE_LEAF: &str = "
[[region]]
name = \"leaf\"
first = 16
count = 1
class = 1
";

/// Change a leaf.
const LEAF_0: Act = Act::Run(WRITE, &[Step(0, AT_ONCE)], DONE);

const LEAF_1: Act = Act::Run(WRITE, &[Step(1, AT_ONCE)], DONE);

const LEAF_2: Act = Act::Run(WRITE, &[Step(2, AT_ONCE)], DONE);

static FLUSHES: &[Scene] = &[
    // One page is changed 3,200 times. It is one dirty page all the time, and the flusher waits for eight.
    Scene {
        name: "a_flusher_that_waits_for_eight_lets_one_be",
        regions: ONE_LEAF,
        policy: Policy {
            flush_from: 8,
            ..POLICY
        },
        threads: &[
            FLUSHER,
            &[(AT_ONCE, Act::Many(3_200, WRITE)), (AT_ONCE, Act::Stop)],
        ],
        counts: &[(Thing::Changed, 3_200), (Thing::Flushed, 0)],
        dirty: Some(1),
        ..SAMPLE
    },
    // It waits for three, and finds one as it begins, which it lets be while the plan reads a root.
    Scene {
        name: "a_flusher_that_waits_for_three_begins_with_one",
        policy: Policy {
            flush_from: 3,
            ..POLICY
        },
        threads: &[
            &[(Until(Thing::Sign, 1), Act::FlushOn)],
            &[
                (AT_ONCE, LEAF_0),
                (AT_ONCE, Act::Sign),
                (AT_ONCE, Act::Run(TOUCH, &[], DONE)),
                (AT_ONCE, Act::Stop),
            ],
        ],
        cues: &[Cue {
            at: Call::Read,
            page: 0,
            until: AT_ONCE,
        }],
        counts: &[(Thing::Changed, 1), (Thing::Flushed, 0)],
        dirty: Some(1),
        ..SAMPLE
    },
    // One that waits for one writes it after each change that isn't made before. While it writes, others are told that the
    // flusher is away.
    Scene {
        name: "a_flusher_that_waits_for_one_writes_each_change",
        regions: ONE_LEAF,
        threads: &[
            FLUSHER,
            &[
                (AT_ONCE, LEAF_0),
                (Until(Thing::Flushed, 1), Act::FlushBusy),
                (AT_ONCE, Act::Sign),
                (AT_ONCE, LEAF_0),
                (Until(Thing::Flushed, 2), LEAF_0),
                (Until(Thing::Flushed, 3), LEAF_0),
                (Until(Thing::Flushed, 4), Act::Stop),
            ],
        ],
        cues: &[Cue {
            at: Call::Flush,
            page: 16,
            until: Until(Thing::Sign, 1),
        }],
        counts: &[(Thing::Changed, 4), (Thing::Flushed, 4)],
        ..SAMPLE
    },
    // One that waits for three and leaves one writes two of three.
    Scene {
        name: "a_flusher_leaves_as_many_as_it_may",
        frames: 4,
        policy: Policy {
            flush_from: 3,
            flush_to: 1,
            ..POLICY
        },
        threads: &[
            FLUSHER,
            &[
                (AT_ONCE, LEAF_0),
                (AT_ONCE, LEAF_1),
                (AT_ONCE, LEAF_2),
                (Until(Thing::Flushed, 2), LEAF_2),
                (AT_ONCE, Act::Stop),
            ],
        ],
        counts: &[(Thing::Changed, 4), (Thing::Flushed, 2)],
        ..SAMPLE
    },
    // Where no flush is left the flusher ends, and a worker writes the page back. Nothing is wanted of one that begins then.
    Scene {
        name: "a_flusher_without_a_flush_lets_workers_write",
        frames: 1,
        workers: 1,
        flushes: 1,
        threads: &[
            &[
                (AT_ONCE, Act::FlushSpent),
                (AT_ONCE, Act::Flush(Flush::Spent)),
                (AT_ONCE, Act::FlushSpent),
                (AT_ONCE, Act::Sign),
                (Until(Thing::Written, 1), Act::FlushOn),
            ],
            &[
                (AT_ONCE, LEAF_0),
                (Until(Thing::Flushed, 1), LEAF_0),
                (Until(Thing::Sign, 1), Act::Run(TOUCH, &[], DONE)),
                (AT_ONCE, Act::Stop),
            ],
        ],
        counts: &[(Thing::Flushed, 1), (Thing::Written, 1)],
        dirty: Some(0),
        ..SAMPLE
    },
    // A flusher goes on where it was, with pages that are changed again before it, and where a writing fails.
    Scene {
        name: "a_flush_goes_on_behind_the_page_that_was_flushed_last",
        frames: 4,
        faults: Faults::Flusher(&[3]),
        threads: &[&[
            (AT_ONCE, Act::Flush(Flush::Nothing)),
            (AT_ONCE, LEAF_0),
            (AT_ONCE, LEAF_1),
            (AT_ONCE, Act::Flush(Flush::Written)),
            (AT_ONCE, Act::Dirty(&[17])),
            (AT_ONCE, LEAF_0),
            (AT_ONCE, Act::Flush(Flush::Written)),
            (AT_ONCE, Act::Dirty(&[16])),
            (AT_ONCE, LEAF_2),
            (AT_ONCE, Act::Flush(Flush::WriteFault)),
            (AT_ONCE, Act::Dirty(&[16, 18])),
            (AT_ONCE, Act::Flush(Flush::Written)),
            (AT_ONCE, Act::Dirty(&[18])),
            (AT_ONCE, Act::Flush(Flush::Written)),
            (AT_ONCE, Act::Flush(Flush::Nothing)),
            (AT_ONCE, LEAF_1),
            (AT_ONCE, Act::Stop),
            (AT_ONCE, Act::Flush(Flush::Written)),
        ]],
        counts: &[(Thing::Flushed, 6)],
        dirty: Some(0),
        ..SAMPLE
    },
];

#[test]
fn each_flush_is_wanted(rt: HostRuntime) {
    for scene in FLUSHES {
        passes(&rt, scene);
    }
}
