//! Each wake-up is needed: who sleeps is woken by the very move that lets it go on, and not only when a plan ends. In
//! each scene somebody goes on only once the one has done so whom it wakes.

use crate::scene::{
    ANY, AT_ONCE, Act, Answer, Call, Cue, DONE, Deed, FIRST, FLUSHER, Faults, POLICY, SAMPLE,
    Scene, Step, Thing, Until,
};
use crate::serving::passes;
use pp_buffer_pool::{Flush, Outcome, Policy};
use pp_model::Failure;
use pp_test_plain::samples::{READ, TOUCH, WRITE};
use std::test::*;

/// Writes a leaf, and fixes a root afterwards.
const WRITE_THEN_TOUCH: &str =
    "{\"body\":[{\"fix\":\"a\",\"region\":\"leaf\"},{\"latch\":\"a\",\"mode\":\"X\"},\
{\"unlatch\":\"a\"},{\"unfix\":\"a\"},{\"fix\":\"b\",\"region\":\"root\"},{\"unfix\":\"b\"}],\"version\":1}";

/// Writes a leaf, and fixes a root before it lets go of the leaf.
const WRITE_AND_TOUCH: &str =
    "{\"body\":[{\"fix\":\"a\",\"region\":\"leaf\"},{\"latch\":\"a\",\"mode\":\"X\"},\
{\"unlatch\":\"a\"},{\"fix\":\"b\",\"region\":\"root\"},{\"unfix\":\"b\"},{\"unfix\":\"a\"}],\"version\":1}";

/// Changes a leaf, and fixes a root while it is latched.
const WRITE_OVER_TOUCH: &str =
    "{\"body\":[{\"fix\":\"a\",\"region\":\"leaf\"},{\"latch\":\"a\",\"mode\":\"X\"},\
{\"fix\":\"b\",\"region\":\"root\"},{\"unlatch\":\"a\"},{\"unfix\":\"b\"},{\"unfix\":\"a\"}],\"version\":1}";

/// Writes a leaf, and fixes two roots afterwards.
const WRITE_THEN_TOUCH_TWO: &str =
    "{\"body\":[{\"fix\":\"a\",\"region\":\"leaf\"},{\"latch\":\"a\",\"mode\":\"X\"},\
{\"unlatch\":\"a\"},{\"unfix\":\"a\"},{\"fix\":\"b\",\"region\":\"root\"},{\"unfix\":\"b\"},\
{\"fix\":\"c\",\"region\":\"root\"},{\"unfix\":\"c\"}],\"version\":1}";

/// Reads a leaf, and fixes a root before it lets go of the leaf.
const READ_AND_TOUCH: &str =
    "{\"body\":[{\"fix\":\"a\",\"region\":\"leaf\"},{\"latch\":\"a\",\"mode\":\"S\"},\
{\"unlatch\":\"a\"},{\"fix\":\"b\",\"region\":\"root\"},{\"unfix\":\"b\"},{\"unfix\":\"a\"}],\"version\":1}";

/// Reads a leaf and gives it back, and fixes a root afterwards.
const READ_THEN_TOUCH: &str =
    "{\"body\":[{\"fix\":\"a\",\"region\":\"leaf\"},{\"latch\":\"a\",\"mode\":\"S\"},\
{\"unlatch\":\"a\"},{\"unfix\":\"a\"},{\"fix\":\"b\",\"region\":\"root\"},{\"unfix\":\"b\"}],\"version\":1}";

/// Holds a leaf and a root.
const HOLD_BOTH: &str =
    "{\"body\":[{\"fix\":\"a\",\"region\":\"leaf\"},{\"fix\":\"b\",\"region\":\"root\"},\
{\"unfix\":\"b\"},{\"unfix\":\"a\"}],\"version\":1}";

/// Gathers a leaf into a bundle, and lets it go.
const GATHER: &str =
    "{\"body\":[{\"gather\":\"g\",\"region\":\"leaf\"},{\"scatter\":\"g\"}],\"version\":2}";

/// Takes one of two ways: it fixes a root, or does nothing.
const CHOOSE: &str =
    "{\"body\":[{\"choice\":[[{\"fix\":\"a\",\"region\":\"root\"},{\"unfix\":\"a\"}],[]]}],\"version\":1}";

/// Holds two leaves and a root.
const HOLD_THREE: &str =
    "{\"body\":[{\"fix\":\"a\",\"region\":\"leaf\"},{\"fix\":\"b\",\"region\":\"leaf\"},\
{\"fix\":\"c\",\"region\":\"root\"},{\"unfix\":\"c\"},{\"unfix\":\"b\"},{\"unfix\":\"a\"}],\"version\":1}";

/// Holds a root and a leaf, sees the root, and lets the leaf go before it fixes another root.
const HOLD: &str =
    "{\"body\":[{\"fix\":\"b\",\"region\":\"root\"},{\"fix\":\"a\",\"region\":\"leaf\"},\
{\"latch\":\"b\",\"mode\":\"S\"},{\"unfix\":\"a\"},{\"fix\":\"c\",\"region\":\"root\"},\
{\"unlatch\":\"b\"},{\"unfix\":\"c\"},{\"unfix\":\"b\"}],\"version\":1}";

/// Changes the second page, and then reads the first, with nothing but requests in between.
const BACK: &str =
    "{\"body\":[{\"fix\":\"a\",\"region\":\"two\"},{\"fix\":\"b\",\"region\":\"one\"},\
{\"latch\":\"a\",\"mode\":\"X\"},{\"unlatch\":\"a\"},{\"latch\":\"b\",\"mode\":\"S\"},{\"unlatch\":\"b\"},\
{\"unfix\":\"b\"},{\"unfix\":\"a\"}],\"version\":1}";

/// Changes the first page and, with that latched, the second.
const FORTH: &str =
    "{\"body\":[{\"fix\":\"b\",\"region\":\"one\"},{\"fix\":\"a\",\"region\":\"two\"},\
{\"latch\":\"b\",\"mode\":\"X\"},{\"latch\":\"a\",\"mode\":\"X\"},{\"unlatch\":\"a\"},{\"unlatch\":\"b\"},\
{\"unfix\":\"a\"},{\"unfix\":\"b\"}],\"version\":1}";

/// A region for each of two pages.
const TWO_REGIONS: &str = "
[[region]]
name = \"one\"
first = 16
count = 4
class = 1

[[region]]
name = \"two\"
first = 20
count = 4
class = 2
";

/// The root that no device reads.
const LOST: Step = Step(3, AT_ONCE);

/// What comes of that.
const GONE: Answer = Ok(Outcome::Gone {
    page: 3,
    why: Failure::ReadFault,
});

/// Lingers over each change.
const SLOW_CHANGE: Cue = Cue {
    at: Call::Change,
    page: ANY,
    until: AT_ONCE,
};

/// Lingers over each writing of the flusher.
const SLOW_FLUSH: Cue = Cue {
    at: Call::Flush,
    page: ANY,
    until: AT_ONCE,
};

/// The flusher is stopped once the plan of the only client has ended.
const STOPPER: &[Deed] = &[(Until(Thing::Ended, 1), Act::Stop)];

/// A thread sleeps at its chair for a page.
static LOADS: &[Scene] = &[
    // The second wants the leaf that the first reads. The first asks for its root only when the second has it.
    Scene {
        name: "the_end_of_a_reading_wakes_who_waits_for_the_page",
        frames: 4,
        threads: &[
            &[(
                AT_ONCE,
                Act::Run(HOLD_BOTH, &[FIRST, Step(0, Until(Thing::Asked, 3))], DONE),
            )],
            &[(Until(Thing::Read, 1), Act::Run(HOLD_BOTH, &[], DONE))],
        ],
        cues: &[Cue {
            at: Call::Read,
            page: 16,
            until: Until(Thing::Asked, 2),
        }],
        counts: &[(Thing::Done, 2), (Thing::Read, 2)],
        ..SAMPLE
    },
    // Three want it. All of them go on.
    Scene {
        name: "the_end_of_a_reading_wakes_all_who_wait_for_the_page",
        frames: 8,
        workers: 4,
        threads: &[
            &[(
                AT_ONCE,
                Act::Run(HOLD_BOTH, &[FIRST, Step(0, Until(Thing::Sign, 3))], DONE),
            )],
            &[
                (Until(Thing::Read, 1), Act::Run(READ, &[], DONE)),
                (AT_ONCE, Act::Sign),
            ],
        ],
        copies: 2,
        cues: &[Cue {
            at: Call::Read,
            page: 16,
            until: Until(Thing::Asked, 4),
        }],
        counts: &[(Thing::Done, 4), (Thing::Read, 2)],
        ..SAMPLE
    },
    // The second gathers the leaf. The first asks for its root only when that is done.
    Scene {
        name: "the_end_of_a_reading_wakes_who_gathers_the_page",
        frames: 4,
        threads: &[
            &[(
                AT_ONCE,
                Act::Run(HOLD_BOTH, &[FIRST, Step(0, Until(Thing::Done, 1))], DONE),
            )],
            &[(Until(Thing::Read, 1), Act::Run(GATHER, &[], DONE))],
        ],
        cues: &[Cue {
            at: Call::Read,
            page: 16,
            until: Until(Thing::Asked, 2),
        }],
        counts: &[(Thing::Done, 2), (Thing::Read, 2)],
        ..SAMPLE
    },
    // The first can't read the root, for which the second waits: that tries itself, and is gone too. The first runs
    // its next plan only when it is.
    Scene {
        name: "the_end_of_a_reading_that_failed_wakes_who_waits_for_the_page",
        frames: 4,
        faults: Faults::Page(3),
        threads: &[
            &[
                (AT_ONCE, Act::Run(HOLD_BOTH, &[FIRST, LOST], GONE)),
                (Until(Thing::Ended, 2), Act::Run(TOUCH, &[], DONE)),
            ],
            &[(Until(Thing::Read, 2), Act::Run(TOUCH, &[LOST], GONE))],
        ],
        cues: &[Cue {
            at: Call::Read,
            page: 3,
            until: Until(Thing::Asked, 3),
        }],
        counts: &[(Thing::Done, 1), (Thing::Gone, 2)],
        ..SAMPLE
    },
    // The first worker's changed leaf has to be written for the frame of a root. The second wants that leaf, and is
    // woken as it is written: the reading of the root is over only when the second reads the leaf.
    Scene {
        name: "the_end_of_a_write_back_wakes_who_waits_for_the_victim",
        frames: 2,
        threads: &[
            &[(
                AT_ONCE,
                Act::Run(
                    WRITE_THEN_TOUCH_TWO,
                    &[FIRST, FIRST, Step(1, AT_ONCE)],
                    DONE,
                ),
            )],
            &[(
                Until(Thing::Written, 1),
                Act::Run(
                    WRITE_THEN_TOUCH_TWO,
                    &[FIRST, FIRST, Step(1, AT_ONCE)],
                    DONE,
                ),
            )],
        ],
        cues: &[
            Cue {
                at: Call::Read,
                page: 1,
                until: Until(Thing::Read, 4),
            },
            Cue {
                at: Call::Write,
                page: ANY,
                until: Until(Thing::Asked, 4),
            },
        ],
        counts: &[(Thing::Done, 2), (Thing::Changed, 2)],
        ..SAMPLE
    },
];

/// A thread sleeps at its chair for a latch.
static LATCHES: &[Scene] = &[
    // An X waits for an X. The first asks for its root only when the second changes the leaf.
    Scene {
        name: "an_unlatch_x_wakes_who_waits_for_x",
        frames: 4,
        threads: &[
            &[(
                AT_ONCE,
                Act::Run(
                    WRITE_AND_TOUCH,
                    &[FIRST, Step(0, Until(Thing::Changed, 2))],
                    DONE,
                ),
            )],
            &[(Until(Thing::Changed, 1), Act::Run(WRITE, &[], DONE))],
        ],
        cues: &[Cue {
            at: Call::Change,
            page: ANY,
            until: Until(Thing::Asked, 2),
        }],
        counts: &[(Thing::Changed, 2)],
        ..SAMPLE
    },
    // Two S wait for an X, and both go on.
    Scene {
        name: "an_unlatch_x_wakes_all_who_wait_for_s",
        frames: 6,
        workers: 3,
        threads: &[
            &[(
                AT_ONCE,
                Act::Run(
                    WRITE_AND_TOUCH,
                    &[FIRST, Step(0, Until(Thing::Seen, 2))],
                    DONE,
                ),
            )],
            &[(Until(Thing::Changed, 1), Act::Run(READ, &[], DONE))],
        ],
        copies: 1,
        cues: &[Cue {
            at: Call::Change,
            page: ANY,
            until: Until(Thing::Asked, 3),
        }],
        counts: &[(Thing::Seen, 2)],
        ..SAMPLE
    },
    // An X waits for two S. The last of them that lets go wakes it; who sees that first runs to its end.
    Scene {
        name: "the_last_unlatch_s_wakes_who_waits_for_x",
        frames: 6,
        workers: 3,
        threads: &[
            &[(Until(Thing::Seen, 2), Act::Run(WRITE, &[], DONE))],
            &[(
                AT_ONCE,
                Act::Run(
                    READ_AND_TOUCH,
                    &[FIRST, Step(0, Until(Thing::Changed, 1))],
                    DONE,
                ),
            )],
        ],
        copies: 1,
        cues: &[Cue {
            at: Call::See,
            page: 16,
            until: Until(Thing::Asked, 3),
        }],
        counts: &[(Thing::Seen, 2), (Thing::Changed, 1)],
        ..SAMPLE
    },
    // The same where a reader of a cached page unlatches and unfixes it at once.
    Scene {
        name: "the_end_of_a_hit_wakes_who_waits_for_x",
        frames: 4,
        threads: &[
            &[
                (AT_ONCE, Act::Run(WRITE, &[], DONE)),
                (
                    AT_ONCE,
                    Act::Run(
                        READ_THEN_TOUCH,
                        &[FIRST, Step(0, Until(Thing::Changed, 2))],
                        DONE,
                    ),
                ),
            ],
            &[(Until(Thing::Seen, 1), Act::Run(WRITE, &[], DONE))],
        ],
        cues: &[Cue {
            at: Call::See,
            page: 16,
            until: Until(Thing::Asked, 3),
        }],
        counts: &[(Thing::Seen, 1), (Thing::Changed, 2)],
        ..SAMPLE
    },
    // The first has the second page, the other the first, and waits for the second. The first lets that go, and at
    // once sleeps for the other's page. It has to wake the other before, since nobody else does.
    Scene {
        name: "who_waits_is_woken_before_its_waker_sleeps",
        frames: 4,
        regions: TWO_REGIONS,
        threads: &[
            &[(AT_ONCE, Act::Run(BACK, &[], DONE))],
            &[(
                AT_ONCE,
                Act::Run(FORTH, &[Step(0, Until(Thing::Changed, 1))], DONE),
            )],
        ],
        cues: &[Cue {
            at: Call::Change,
            page: 20,
            until: Until(Thing::Changed, 2),
        }],
        counts: &[(Thing::Changed, 3), (Thing::Seen, 1)],
        ..SAMPLE
    },
    // The first changes a leaf, and its plan is left. The second waits for the latch, and is woken as the leaf is
    // given back: the first goes on only when it has changed the leaf.
    Scene {
        name: "a_latch_that_a_left_plan_gives_back_wakes_who_waits_for_it",
        frames: 5,
        faults: Faults::Page(3),
        threads: &[
            &[
                (AT_ONCE, Act::Run(WRITE_OVER_TOUCH, &[FIRST, LOST], GONE)),
                (Until(Thing::Changed, 2), Act::Run(TOUCH, &[], DONE)),
            ],
            &[(Until(Thing::Changed, 1), Act::Run(WRITE, &[], DONE))],
        ],
        cues: &[Cue {
            at: Call::Read,
            page: 3,
            until: Until(Thing::Asked, 3),
        }],
        counts: &[(Thing::Changed, 2), (Thing::Gone, 1), (Thing::Done, 2)],
        ..SAMPLE
    },
];

/// A thread sleeps for a frame.
static FRAMES: &[Scene] = &[
    // The only chair wants the frame of the page that is being flushed. Nobody but the flusher can wake it.
    Scene {
        name: "the_end_of_a_flush_wakes_who_waits_for_its_frame",
        frames: 1,
        workers: 1,
        threads: &[
            FLUSHER,
            STOPPER,
            &[(
                AT_ONCE,
                Act::Run(
                    WRITE_THEN_TOUCH,
                    &[FIRST, Step(0, Until(Thing::Flushed, 1))],
                    DONE,
                ),
            )],
        ],
        cues: &[SLOW_CHANGE, SLOW_FLUSH],
        counts: &[(Thing::Flushed, 1), (Thing::Written, 0)],
        ..SAMPLE
    },
    // The same where the flush fails: the worker writes the page itself.
    Scene {
        name: "the_end_of_a_flush_that_failed_wakes_who_waits_for_its_frame",
        frames: 1,
        workers: 1,
        faults: Faults::Flusher(&[1]),
        threads: &[
            &[(Until(Thing::Done, 1), Act::Flush(Flush::WriteFault))],
            &[
                (AT_ONCE, Act::Run(WRITE, &[], DONE)),
                (
                    AT_ONCE,
                    Act::Run(TOUCH, &[Step(0, Until(Thing::Flushed, 1))], DONE),
                ),
            ],
        ],
        cues: &[Cue {
            at: Call::Flush,
            page: ANY,
            until: Until(Thing::Asked, 2),
        }],
        counts: &[(Thing::Flushed, 1), (Thing::Written, 1)],
        ..SAMPLE
    },
    // Of three frames one is being flushed, and two are held. A worker waits for one, and is woken as a page is
    // unfixed: the flush is over, and the holder goes on, only when that worker reads its page.
    Scene {
        name: "an_unfix_wakes_who_waits_for_a_frame",
        threads: &[
            FLUSHER,
            &[(Until(Thing::Ended, 2), Act::Stop)],
            &[(
                AT_ONCE,
                Act::Run(
                    WRITE_THEN_TOUCH,
                    &[FIRST, Step(2, Until(Thing::Seen, 1))],
                    DONE,
                ),
            )],
            &[(
                AT_ONCE,
                Act::Run(
                    HOLD,
                    &[
                        FIRST,
                        Step(1, Until(Thing::Flushed, 1)),
                        Step(3, Until(Thing::Read, 4)),
                    ],
                    DONE,
                ),
            )],
        ],
        cues: &[
            Cue {
                at: Call::Flush,
                page: ANY,
                until: Until(Thing::Read, 4),
            },
            Cue {
                at: Call::See,
                page: ANY,
                until: Until(Thing::Asked, 4),
            },
        ],
        counts: &[(Thing::Done, 2)],
        ..SAMPLE
    },
];

/// A thread sleeps in the queue, and goes on as another's plan ends.
static QUEUE: &[Scene] = &[
    // The second wants two frames of which one is spoken for.
    Scene {
        name: "the_end_of_a_plan_wakes_who_waits_for_room",
        threads: &[
            &[(
                AT_ONCE,
                Act::Run(HOLD_BOTH, &[Step(0, Until(Thing::Sign, 1))], DONE),
            )],
            &[(Until(Thing::Begun, 1), Act::Run(HOLD_BOTH, &[], DONE))],
            &[(Until(Thing::Waiting, 1), Act::Sign)],
        ],
        counts: &[(Thing::Done, 2)],
        ..SAMPLE
    },
    // There is one chair.
    Scene {
        name: "the_end_of_a_plan_wakes_who_waits_for_a_chair",
        workers: 1,
        threads: &[
            &[(
                AT_ONCE,
                Act::Run(TOUCH, &[Step(0, Until(Thing::Sign, 1))], DONE),
            )],
            &[(Until(Thing::Begun, 1), Act::Run(TOUCH, &[], DONE))],
            &[(Until(Thing::Waiting, 1), Act::Sign)],
        ],
        counts: &[(Thing::Done, 2)],
        ..SAMPLE
    },
    // The end of a plan that is gone wakes as well.
    Scene {
        name: "the_end_of_a_plan_that_is_gone_wakes_who_waits",
        workers: 1,
        faults: Faults::Page(3),
        threads: &[
            &[(
                AT_ONCE,
                Act::Run(TOUCH, &[Step(3, Until(Thing::Sign, 1))], GONE),
            )],
            &[(Until(Thing::Begun, 1), Act::Run(TOUCH, &[], DONE))],
            &[(Until(Thing::Waiting, 1), Act::Sign)],
        ],
        counts: &[(Thing::Done, 1), (Thing::Gone, 1)],
        ..SAMPLE
    },
    // The end of a large plan lets three start. Each that starts wakes the next, and goes on once all have begun.
    Scene {
        name: "a_start_wakes_the_next_that_fits",
        workers: 3,
        threads: &[
            &[(
                AT_ONCE,
                Act::Run(HOLD_THREE, &[Step(0, Until(Thing::Sign, 1))], DONE),
            )],
            &[(Until(Thing::Waiting, 3), Act::Sign)],
            &[(
                Until(Thing::Begun, 1),
                Act::Run(TOUCH, &[Step(0, Until(Thing::Begun, 4))], DONE),
            )],
        ],
        copies: 2,
        counts: &[(Thing::Done, 4)],
        ..SAMPLE
    },
    // More wait than there are bells, so that the last one shares a bell with the first. There is room for the last
    // alone, and the first sleeps on when the bell is rung.
    Scene {
        name: "who_shares_a_bell_is_woken",
        policy: Policy {
            bypass: 1,
            ..POLICY
        },
        threads: &[
            &[(
                AT_ONCE,
                Act::Run(TOUCH, &[Step(0, Until(Thing::Sign, 1))], DONE),
            )],
            &[(
                Until(Thing::Begun, 1),
                Act::Run(TOUCH, &[Step(0, Until(Thing::Done, 2))], DONE),
            )],
            &[(Until(Thing::Waiting, 32), Act::Run(TOUCH, &[], DONE))],
            &[(Until(Thing::Waiting, 33), Act::Sign)],
            &[(Until(Thing::Begun, 2), Act::Run(HOLD_THREE, &[], DONE))],
        ],
        copies: 31,
        counts: &[(Thing::Done, 35)],
        ..SAMPLE
    },
];

/// The flusher sleeps.
static FLUSHER_SLEEPS: &[Scene] = &[
    // It is woken as the worker lets its changed leaf go, which asks for its root only when a writing has begun.
    Scene {
        name: "an_unlatch_wakes_the_flusher",
        threads: &[
            FLUSHER,
            STOPPER,
            &[(
                AT_ONCE,
                Act::Run(
                    WRITE_THEN_TOUCH,
                    &[FIRST, Step(0, Until(Thing::Flushed, 1))],
                    DONE,
                ),
            )],
        ],
        cues: &[SLOW_CHANGE],
        counts: &[(Thing::Flushed, 1)],
        dirty: Some(0),
        ..SAMPLE
    },
    // Two have to be changed.
    Scene {
        name: "the_second_change_wakes_the_flusher",
        policy: Policy {
            flush_from: 2,
            ..POLICY
        },
        threads: &[
            FLUSHER,
            &[(Until(Thing::Ended, 2), Act::Stop)],
            &[
                (AT_ONCE, Act::Run(WRITE, &[Step(1, AT_ONCE)], DONE)),
                (
                    AT_ONCE,
                    Act::Run(
                        WRITE_THEN_TOUCH,
                        &[FIRST, Step(0, Until(Thing::Flushed, 2))],
                        DONE,
                    ),
                ),
            ],
        ],
        cues: &[SLOW_CHANGE],
        counts: &[(Thing::Flushed, 2)],
        dirty: Some(0),
        ..SAMPLE
    },
    // A changed leaf is given back by a plan that is left.
    Scene {
        name: "a_latch_that_a_left_plan_gives_back_wakes_the_flusher",
        faults: Faults::Page(3),
        threads: &[
            FLUSHER,
            &[(Until(Thing::Ended, 2), Act::Stop)],
            &[
                (AT_ONCE, Act::Run(WRITE_OVER_TOUCH, &[FIRST, LOST], GONE)),
                (Until(Thing::Flushed, 1), Act::Run(TOUCH, &[], DONE)),
            ],
        ],
        cues: &[SLOW_CHANGE],
        counts: &[(Thing::Flushed, 1), (Thing::Gone, 1)],
        dirty: Some(0),
        ..SAMPLE
    },
];

/// What is called while the lock is free: the first plan's work goes on only once another plan is done.
static CALLS: &[Scene] = &[
    Scene {
        name: "no_work_is_told_of_its_plan_under_the_lock",
        threads: &[
            &[(AT_ONCE, Act::Run(TOUCH, &[], DONE))],
            &[(Until(Thing::Begun, 1), Act::Run(TOUCH, &[], DONE))],
        ],
        cues: &[Cue {
            at: Call::Begin,
            page: 0,
            until: Until(Thing::Done, 1),
        }],
        counts: &[(Thing::Done, 2)],
        ..SAMPLE
    },
    Scene {
        name: "no_work_chooses_under_the_lock",
        threads: &[
            &[(AT_ONCE, Act::Run(CHOOSE, &[], DONE))],
            &[(Until(Thing::Begun, 1), Act::Run(TOUCH, &[], DONE))],
        ],
        cues: &[Cue {
            at: Call::Branch,
            page: ANY,
            until: Until(Thing::Done, 1),
        }],
        counts: &[(Thing::Done, 2)],
        ..SAMPLE
    },
    Scene {
        name: "no_work_sees_under_the_lock",
        threads: &[
            &[(AT_ONCE, Act::Run(READ, &[], DONE))],
            &[(Until(Thing::Begun, 1), Act::Run(TOUCH, &[], DONE))],
        ],
        cues: &[Cue {
            at: Call::See,
            page: ANY,
            until: Until(Thing::Done, 1),
        }],
        counts: &[(Thing::Done, 2)],
        ..SAMPLE
    },
    // Its chair, the only one, is home by then.
    Scene {
        name: "a_work_is_told_of_its_end_once_its_chair_is_home",
        workers: 1,
        threads: &[
            &[(AT_ONCE, Act::Run(TOUCH, &[], DONE))],
            &[(Until(Thing::Over, 1), Act::Run(TOUCH, &[], DONE))],
        ],
        cues: &[Cue {
            at: Call::End,
            page: 0,
            until: Until(Thing::Done, 1),
        }],
        counts: &[(Thing::Done, 2)],
        ..SAMPLE
    },
];

/// Nobody sleeps in vain.
#[test]
fn each_wake_up_at_a_chair_is_needed(rt: HostRuntime) {
    for scenes in [LOADS, LATCHES, FRAMES] {
        for scene in scenes {
            passes(&rt, scene);
        }
    }
}

#[test]
fn no_work_is_called_under_the_lock(rt: HostRuntime) {
    for scene in CALLS {
        passes(&rt, scene);
    }
}

#[test]
fn each_wake_up_in_the_queue_is_needed(rt: HostRuntime) {
    for scene in QUEUE {
        passes(&rt, scene);
    }
}

#[test]
fn each_wake_up_of_the_flusher_is_needed(rt: HostRuntime) {
    for scene in FLUSHER_SLEEPS {
        passes(&rt, scene);
    }
}
