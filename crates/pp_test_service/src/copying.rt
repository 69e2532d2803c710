//! Works that see copies of pages.

use crate::scene::{
    AT_ONCE, Act, Call, Cue, DONE, Deed, FIRST, FLUSHER, Faults, POLICY, SAMPLE, Scene, Step,
    Thing, Until,
};
use crate::serving::passes;
use pp_buffer_pool::Policy;
use pp_test_plain::samples::{READ, WRITE};
use std::test::*;

/// Reads leaves one after the other.
const LEAVES: &str = "{\"body\":[{\"body\":[{\"fix\":\"a\",\"region\":\"leaf\"},\
{\"latch\":\"a\",\"mode\":\"S\"},{\"unlatch\":\"a\"},{\"unfix\":\"a\"}],\"loop\":3}],\"version\":1}";

/// Reads a root and a leaf, whose latches follow one another, and then changes another root.
const TWO: &str =
    "{\"body\":[{\"fix\":\"a\",\"region\":\"root\"},{\"fix\":\"b\",\"region\":\"leaf\"},\
{\"latch\":\"a\",\"mode\":\"S\"},{\"latch\":\"b\",\"mode\":\"S\"},\
{\"unlatch\":\"b\"},{\"unfix\":\"b\"},{\"unlatch\":\"a\"},{\"unfix\":\"a\"},\
{\"fix\":\"c\",\"region\":\"root\"},{\"latch\":\"c\",\"mode\":\"X\"},{\"unlatch\":\"c\"},{\"unfix\":\"c\"}],\
\"version\":1}";

/// Reads a root and, beside it, a leaf, or takes one of two ways behind a leaf.
const DESCENTS: &str = "{\"body\":[{\"choice\":[\
[{\"fix\":\"a\",\"region\":\"root\"},{\"latch\":\"a\",\"mode\":\"S\"},{\"fix\":\"b\",\"region\":\"leaf\"},\
{\"latch\":\"b\",\"mode\":\"S\"},{\"unlatch\":\"a\"},{\"unfix\":\"a\"},{\"unlatch\":\"b\"},{\"unfix\":\"b\"}],\
[{\"fix\":\"a\",\"region\":\"leaf\"},{\"latch\":\"a\",\"mode\":\"S\"},{\"choice\":[[],\
[{\"unlatch\":\"a\"},{\"latch\":\"a\",\"mode\":\"S\"}]]},{\"unlatch\":\"a\"},{\"unfix\":\"a\"}]\
]}],\"version\":1}";

/// Changes the first leaf, once a page was seen so often.
const WRITER: &[Deed] = &[(Until(Thing::Seen, 1), Act::Run(WRITE, &[FIRST], DONE))];

static ALONE: &[Scene] = &[
    // The first leaf is seen, and stays so until another thread has changed it: so it is latched no more, and the lock is
    // free.
    Scene {
        name: "who_sees_a_copy_has_no_latch_and_no_lock",
        threads: &[&[(AT_ONCE, Act::RunOnCopies(READ, &[FIRST], DONE))], WRITER],
        cues: &[Cue {
            at: Call::See,
            page: 16,
            until: Until(Thing::Changed, 1),
        }],
        counts: &[(Thing::Done, 2), (Thing::Seen, 1), (Thing::Changed, 1)],
        ..SAMPLE
    },
    // Each leaf is seen once, before the next one is told.
    Scene {
        name: "each_page_is_seen_before_the_next_is_told",
        threads: &[&[(
            AT_ONCE,
            Act::RunOnCopies(
                LEAVES,
                &[
                    FIRST,
                    Step(1, Until(Thing::Seen, 1)),
                    Step(2, Until(Thing::Seen, 2)),
                ],
                DONE,
            ),
        )]],
        counts: &[(Thing::Done, 1), (Thing::Seen, 3), (Thing::Over, 1)],
        ..SAMPLE
    },
    // The first of three leaves is seen in the middle of the plan, and stays so until another thread has changed it.
    Scene {
        name: "who_sees_a_copy_within_its_plan_has_no_latch_and_no_lock",
        threads: &[
            &[(
                AT_ONCE,
                Act::RunOnCopies(LEAVES, &[FIRST, Step(1, AT_ONCE), Step(2, AT_ONCE)], DONE),
            )],
            WRITER,
        ],
        cues: &[Cue {
            at: Call::See,
            page: 16,
            until: Until(Thing::Changed, 1),
        }],
        counts: &[(Thing::Done, 2), (Thing::Seen, 3), (Thing::Changed, 1)],
        ..SAMPLE
    },
    // Both pages are seen though the work is asked nothing in between, and with no lock held: the second thread needs it
    // while the first page is seen. The second root's number is told once both were seen.
    Scene {
        name: "two_that_follow_one_another_are_both_seen",
        threads: &[
            &[(
                AT_ONCE,
                Act::RunOnCopies(TWO, &[FIRST, FIRST, Step(1, Until(Thing::Seen, 2))], DONE),
            )],
            &[(
                Until(Thing::Seen, 1),
                Act::Run(WRITE, &[Step(2, AT_ONCE)], DONE),
            )],
        ],
        frames: 4,
        cues: &[Cue {
            at: Call::See,
            page: 0,
            until: Until(Thing::Changed, 1),
        }],
        counts: &[(Thing::Done, 2), (Thing::Seen, 2), (Thing::Changed, 2)],
        ..SAMPLE
    },
];

#[test]
fn copies_are_seen_with_no_latch_and_no_lock(rt: HostRuntime) {
    for scene in ALONE {
        passes(&rt, scene);
    }
}

/// What many threads do: some read copies, some change what others have copied, and devices fail now and then.
static MANY: Scene = Scene {
    name: "readers_of_copies_beside_writers",
    frames: 8,
    workers: 6,
    policy: Policy {
        bypass: 2,
        flush_from: 4,
        flush_to: 1,
        ..POLICY
    },
    threads: &[
        FLUSHER,
        &[(Until(Thing::Sign, 12), Act::Stop)],
        &[(AT_ONCE, Act::Many(100, WRITE)), (AT_ONCE, Act::Sign)],
        &[(AT_ONCE, Act::ManyOnCopies(100, TWO)), (AT_ONCE, Act::Sign)],
        &[
            (AT_ONCE, Act::ManyOnCopies(100, LEAVES)),
            (AT_ONCE, Act::Sign),
        ],
        &[
            (AT_ONCE, Act::ManyOnCopies(100, DESCENTS)),
            (AT_ONCE, Act::Sign),
        ],
    ],
    copies: 8,
    faults: Faults::Often,
    patience: 40_000,
    faults_at_close: None,
    ..SAMPLE
};

#[test]
fn readers_of_copies_lose_no_change(rt: HostRuntime) {
    passes(&rt, &MANY);
}
