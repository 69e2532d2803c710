//! What becomes of those who wait, and of the others, as the pool is stopped.

use crate::scene::{
    ANY, AT_ONCE, Act, Answer, Call, Cue, DONE, Deed, FLUSHER, POLICY, SAMPLE, Scene, Step, Thing,
    Until,
};
use crate::serving::passes;
use pp_buffer_pool::{ExecuteError, Policy};
use pp_test_plain::samples::{NOTHING, TOUCH, WRITE};
use std::test::*;

const STOPPED: Answer = Err(ExecuteError::Stopped);

/// Comes to the queue as one waits there, and is answered that the pool is stopped.
const COMES: Deed = (Until(Thing::Begun, 1), Act::Run(TOUCH, &[], STOPPED));

/// Of these somebody runs as the pool is stopped.
static STOPS: &[Scene] = &[
    // One runs, three wait, and there is no place for another. All that wait are told that the pool is stopped, and
    // who runs ends once that is so.
    Scene {
        name: "a_stop_answers_a_full_queue",
        workers: 1,
        policy: Policy { queue: 3, ..POLICY },
        threads: &[
            FLUSHER,
            &[(
                AT_ONCE,
                Act::Run(WRITE, &[Step(0, Until(Thing::Sign, 1))], DONE),
            )],
            &[COMES],
            &[COMES],
            &[COMES],
            &[
                (
                    Until(Thing::Waiting, 3),
                    Act::Run(TOUCH, &[], Err(ExecuteError::QueueFull)),
                ),
                (AT_ONCE, Act::Stop),
                (Until(Thing::Refused, 4), Act::Sign),
                (AT_ONCE, Act::Run(TOUCH, &[], STOPPED)),
                (AT_ONCE, Act::Stop),
            ],
        ],
        counts: &[(Thing::Done, 1), (Thing::Refused, 5), (Thing::Changed, 1)],
        ..SAMPLE
    },
    // There is no room for those that wait, though there are chairs.
    Scene {
        name: "a_stop_answers_those_who_wait_for_room",
        frames: 1,
        policy: Policy {
            queue: 40,
            bypass: 2,
            ..POLICY
        },
        threads: &[
            &[(
                AT_ONCE,
                Act::Run(WRITE, &[Step(0, Until(Thing::Sign, 1))], DONE),
            )],
            &[
                (Until(Thing::Waiting, 40), Act::Stop),
                (Until(Thing::Refused, 40), Act::Sign),
            ],
            &[COMES],
        ],
        copies: 39,
        counts: &[(Thing::Done, 1), (Thing::Refused, 40)],
        ..SAMPLE
    },
    // The flusher is in its device, and its bell isn't rung again.
    Scene {
        name: "a_stop_in_a_flush_ends_the_flusher",
        threads: &[
            FLUSHER,
            &[
                (AT_ONCE, Act::Run(WRITE, &[], DONE)),
                (Until(Thing::Flushed, 1), Act::Stop),
                (AT_ONCE, Act::Sign),
            ],
        ],
        cues: &[Cue {
            at: Call::Flush,
            page: ANY,
            until: Until(Thing::Sign, 1),
        }],
        counts: &[(Thing::Flushed, 1)],
        dirty: Some(0),
        ..SAMPLE
    },
    // A plan that does nothing waits and is stopped as others are.
    Scene {
        name: "a_plan_that_does_nothing_is_done",
        threads: &[&[
            (AT_ONCE, Act::Run(NOTHING, &[], DONE)),
            (AT_ONCE, Act::Stop),
            (AT_ONCE, Act::Run(NOTHING, &[], STOPPED)),
        ]],
        counts: &[(Thing::Done, 1), (Thing::Refused, 1), (Thing::Asked, 0)],
        ..SAMPLE
    },
    // Nobody runs, and the flusher sleeps.
    Scene {
        name: "a_stop_wakes_the_flusher",
        threads: &[
            FLUSHER,
            &[
                (AT_ONCE, Act::Run(WRITE, &[], DONE)),
                (Until(Thing::Flushed, 1), Act::Run(TOUCH, &[], DONE)),
                (AT_ONCE, Act::Stop),
            ],
        ],
        counts: &[(Thing::Flushed, 1)],
        dirty: Some(0),
        ..SAMPLE
    },
];

#[test]
fn each_stop_answers_all(rt: HostRuntime) {
    for scene in STOPS {
        passes(&rt, scene);
    }
}
