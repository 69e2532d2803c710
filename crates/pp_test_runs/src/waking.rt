//! Each wake-up is needed: who waits is woken by the very move that lets it go on, and not only when a worker ends.

use crate::case::{ANY, Area, Call, Case, Cue, Faults, Part, SAMPLE, Step, Thing, Until};
use crate::running::passes;
use pp_test_plain::samples::{TOUCH, WRITE};
use std::test::*;

/// Writes a leaf, and fixes a root afterwards.
const WRITE_THEN_TOUCH: &str =
    "{\"body\":[{\"fix\":\"a\",\"region\":\"leaf\"},{\"latch\":\"a\",\"mode\":\"X\"},\
{\"unlatch\":\"a\"},{\"unfix\":\"a\"},{\"fix\":\"b\",\"region\":\"root\"},{\"unfix\":\"b\"}],\"version\":1}";

/// Writes a leaf, and fixes a root before it lets go of the leaf.
const WRITE_AND_TOUCH: &str =
    "{\"body\":[{\"fix\":\"a\",\"region\":\"leaf\"},{\"latch\":\"a\",\"mode\":\"X\"},\
{\"unlatch\":\"a\"},{\"fix\":\"b\",\"region\":\"root\"},{\"unfix\":\"b\"},{\"unfix\":\"a\"}],\"version\":1}";

/// Changes a leaf, and fixes a root while it is latched.
const WRITE_OVER_TOUCH: &str =
    "{\"body\":[{\"fix\":\"a\",\"region\":\"leaf\"},{\"latch\":\"a\",\"mode\":\"X\"},\
{\"fix\":\"b\",\"region\":\"root\"},{\"unlatch\":\"a\"},{\"unfix\":\"b\"},{\"unfix\":\"a\"}],\"version\":1}";

/// Fixes a leaf and a root.
const FIX_BOTH: &str =
    "{\"body\":[{\"fix\":\"a\",\"region\":\"leaf\"},{\"fix\":\"b\",\"region\":\"root\"},\
{\"unfix\":\"b\"},{\"unfix\":\"a\"}],\"version\":1}";

/// Writes a leaf, and fixes two roots afterwards.
pub const WRITE_THEN_TOUCH_TWO: &str =
    "{\"body\":[{\"fix\":\"a\",\"region\":\"leaf\"},{\"latch\":\"a\",\"mode\":\"X\"},\
{\"unlatch\":\"a\"},{\"unfix\":\"a\"},{\"fix\":\"b\",\"region\":\"root\"},{\"unfix\":\"b\"},\
{\"fix\":\"c\",\"region\":\"root\"},{\"unfix\":\"c\"}],\"version\":1}";

/// Holds a root and a leaf, sees the root, and lets the leaf go before it fixes another root.
const HOLD: &str =
    "{\"body\":[{\"fix\":\"b\",\"region\":\"root\"},{\"fix\":\"a\",\"region\":\"leaf\"},\
{\"latch\":\"b\",\"mode\":\"S\"},{\"unfix\":\"a\"},{\"fix\":\"c\",\"region\":\"root\"},\
{\"unlatch\":\"b\"},{\"unfix\":\"c\"},{\"unfix\":\"b\"}],\"version\":1}";

/// Changes the second page, and then reads the first, with nothing but requests in between.
const BACK: &str =
    "{\"body\":[{\"fix\":\"a\",\"region\":\"two\"},{\"fix\":\"b\",\"region\":\"one\"},\
{\"latch\":\"a\",\"mode\":\"X\"},{\"unlatch\":\"a\"},{\"latch\":\"b\",\"mode\":\"S\"},{\"unlatch\":\"b\"},\
{\"unfix\":\"b\"},{\"unfix\":\"a\"}],\"version\":1}";

/// Changes the first page and, with that latched, the second.
const FORTH: &str =
    "{\"body\":[{\"fix\":\"b\",\"region\":\"one\"},{\"fix\":\"a\",\"region\":\"two\"},\
{\"latch\":\"b\",\"mode\":\"X\"},{\"latch\":\"a\",\"mode\":\"X\"},{\"unlatch\":\"a\"},{\"unlatch\":\"b\"},\
{\"unfix\":\"a\"},{\"unfix\":\"b\"}],\"version\":1}";

/// Holds two pages at once, and fixes a key before, between its two unlatches, and afterwards.
const HOLD_TWO: &str = "{\"body\":[{\"fix\":\"c\",\"region\":\"key\"},{\"unfix\":\"c\"},\
{\"fix\":\"a\",\"region\":\"one\"},{\"fix\":\"b\",\"region\":\"two\"},\
{\"latch\":\"a\",\"mode\":\"S\"},{\"latch\":\"b\",\"mode\":\"S\"},\
{\"unlatch\":\"b\"},{\"fix\":\"d\",\"region\":\"key\"},{\"unlatch\":\"a\"},{\"fix\":\"e\",\"region\":\"key\"},\
{\"unfix\":\"e\"},{\"unfix\":\"d\"},{\"unfix\":\"b\"},{\"unfix\":\"a\"}],\"version\":1}";

/// Reads the second page, gives it back, and fixes a key afterwards.
const READ_THEN_KEY: &str =
    "{\"body\":[{\"fix\":\"a\",\"region\":\"two\"},{\"latch\":\"a\",\"mode\":\"S\"},\
{\"unlatch\":\"a\"},{\"unfix\":\"a\"},{\"fix\":\"b\",\"region\":\"key\"},{\"unfix\":\"b\"}],\"version\":1}";

/// Fixes a key, and changes the second page afterwards.
const KEY_THEN_CHANGE: &str = "{\"body\":[{\"fix\":\"b\",\"region\":\"key\"},{\"unfix\":\"b\"},\
{\"fix\":\"a\",\"region\":\"two\"},{\"latch\":\"a\",\"mode\":\"X\"},{\"unlatch\":\"a\"},{\"unfix\":\"a\"}],\"version\":1}";

/// Changes the first page.
const CHANGE_ONE: &str =
    "{\"body\":[{\"fix\":\"a\",\"region\":\"one\"},{\"latch\":\"a\",\"mode\":\"X\"},\
{\"unlatch\":\"a\"},{\"unfix\":\"a\"}],\"version\":1}";

/// Changes the second page.
const CHANGE_TWO: &str =
    "{\"body\":[{\"fix\":\"a\",\"region\":\"two\"},{\"latch\":\"a\",\"mode\":\"X\"},\
{\"unlatch\":\"a\"},{\"unfix\":\"a\"}],\"version\":1}";

/// A region for each of two pages.
const TWO_REGIONS: &str = "
[[region]]
name = \"one\"
first = 16
count = 4
class = 1

[[region]]
name = \"two\"
first = 20
count = 4
class = 2
";

/// The same, and one of keys before.
const THREE_REGIONS: &str = "
[[region]]
name = \"key\"
first = 0
count = 4
class = 1

[[region]]
name = \"one\"
first = 16
count = 4
class = 2

[[region]]
name = \"two\"
first = 20
count = 4
class = 3
";

/// The first page of its region, at once.
const FIRST: Step = Step {
    behind: 0,
    until: Until::Nothing,
};

/// The root that no device reads.
const LOST: Step = Step {
    behind: 3,
    until: Until::Nothing,
};

/// Lingers over each change.
const SLOW_CHANGE: Cue = Cue {
    at: Call::Change,
    page: ANY,
    until: Until::Nothing,
};

/// Lingers over each writing of the flusher.
const SLOW_FLUSH: Cue = Cue {
    at: Call::Flush,
    page: ANY,
    until: Until::Nothing,
};

/// Lingers over each writing of a worker.
const SLOW_WRITE_BACK: Cue = Cue {
    at: Call::WriteBack,
    page: ANY,
    until: Until::Nothing,
};

/// Of each of these somebody waits for another one, who goes on only when it is woken.
static WAKES: &[Case] = &[
    // Two workers write the same leaf. The second waits for the latch, and is woken as the first lets it go: the first asks for
    // its root only when the second's change has begun.
    Case {
        name: "an_unlatch_wakes_who_waits_for_it",
        frames: 4,
        flushes: 0,
        plans: &[WRITE_AND_TOUCH, WRITE_AND_TOUCH],
        parts: &[
            Part {
                region: 1,
                steps: &[
                    FIRST,
                    Step {
                        behind: 0,
                        until: Until::Come(Thing::Changed, 2),
                    },
                ],
            },
            Part {
                region: 1,
                steps: &[
                    FIRST,
                    Step {
                        behind: 0,
                        until: Until::Come(Thing::Changed, 2),
                    },
                ],
            },
        ],
        cues: &[Cue {
            at: Call::Change,
            page: ANY,
            until: Until::Come(Thing::Asked, 2),
        }],
        counts: &[(Thing::Dirty, 1), (Thing::Changed, 2)],
        ..SAMPLE
    },
    // The flusher has found nothing to flush. It is woken as the worker lets its changed leaf go: the worker asks for its root
    // only when a writing has begun.
    Case {
        name: "an_unlatch_wakes_the_flusher",
        workers: 1,
        plans: &[WRITE_THEN_TOUCH],
        parts: &[Part {
            region: 1,
            steps: &[
                FIRST,
                Step {
                    behind: 0,
                    until: Until::Come(Thing::Flushed, 1),
                },
            ],
        }],
        cues: &[SLOW_CHANGE, SLOW_FLUSH],
        counts: &[(Thing::Dirty, 0), (Thing::Changed, 1)],
        ..SAMPLE
    },
    // The only worker wants the frame of the page that is being flushed, and waits. Nobody but the flusher can wake it: without
    // that the run hangs.
    Case {
        name: "the_end_of_a_flush_wakes_the_only_worker",
        frames: 1,
        workers: 1,
        plans: &[WRITE_THEN_TOUCH],
        parts: &[Part {
            region: 1,
            steps: &[
                FIRST,
                Step {
                    behind: 0,
                    until: Until::Come(Thing::Flushed, 1),
                },
            ],
        }],
        cues: &[SLOW_CHANGE, SLOW_FLUSH],
        counts: &[(Thing::Dirty, 0), (Thing::Changed, 1), (Thing::Written, 0)],
        ..SAMPLE
    },
    // The same where the only flush fails, and the worker has to write the page itself.
    Case {
        name: "the_end_of_a_flush_that_failed_wakes_the_only_worker",
        frames: 1,
        workers: 1,
        flushes: 1,
        plans: &[WRITE_THEN_TOUCH],
        faults: Faults::First(1),
        parts: &[Part {
            region: 1,
            steps: &[
                FIRST,
                Step {
                    behind: 0,
                    until: Until::Come(Thing::Flushed, 1),
                },
            ],
        }],
        cues: &[SLOW_CHANGE, SLOW_FLUSH],
        counts: &[(Thing::Dirty, 0), (Thing::Changed, 1), (Thing::Written, 1)],
        ..SAMPLE
    },
    // The flusher has found nothing to flush. It is woken as the worker, whose plan is left, gives its changed leaf back: the
    // next plan asks for its root only when a writing has begun.
    Case {
        name: "a_writers_guard_that_is_given_back_wakes_the_flusher",
        workers: 1,
        plans: &[WRITE_OVER_TOUCH, TOUCH],
        faults: Faults::Page(3),
        parts: &[Part {
            region: 1,
            steps: &[
                FIRST,
                LOST,
                Step {
                    behind: 0,
                    until: Until::Come(Thing::Flushed, 1),
                },
            ],
        }],
        cues: &[SLOW_CHANGE],
        counts: &[
            (Thing::Dirty, 0),
            (Thing::Changed, 1),
            (Thing::Gone, 1),
            (Thing::Done, 1),
        ],
        ..SAMPLE
    },
    // Two workers change the same leaf, and both their plans are left. The second waits for the latch, and is woken as the first
    // gives the leaf back: the next plan asks for its root only when both have changed the leaf.
    Case {
        name: "a_writers_guard_that_is_given_back_wakes_who_waits_for_its_latch",
        frames: 5,
        flushes: 0,
        plans: &[WRITE_OVER_TOUCH, WRITE_OVER_TOUCH, TOUCH],
        faults: Faults::Page(3),
        parts: &[
            Part {
                region: 1,
                steps: &[
                    FIRST,
                    LOST,
                    Step {
                        behind: 0,
                        until: Until::Come(Thing::Changed, 2),
                    },
                ],
            },
            Part {
                region: 1,
                steps: &[
                    FIRST,
                    LOST,
                    Step {
                        behind: 0,
                        until: Until::Come(Thing::Changed, 2),
                    },
                ],
            },
        ],
        cues: &[Cue {
            at: Call::Change,
            page: ANY,
            until: Until::Come(Thing::Asked, 2),
        }],
        counts: &[
            (Thing::Dirty, 1),
            (Thing::Changed, 2),
            (Thing::Gone, 2),
            (Thing::Done, 1),
        ],
        ..SAMPLE
    },
    // While the flusher writes the first leaf, the worker has to write the second for its frame. The flusher is done first, and
    // finds nothing to flush. It is woken as the worker's writing fails: the last plan asks for its root only when the flusher
    // writes the second leaf.
    Case {
        name: "a_failed_write_back_wakes_the_flusher",
        frames: 2,
        workers: 1,
        plans: &[WRITE, WRITE, TOUCH, TOUCH],
        faults: Faults::Writings,
        parts: &[Part {
            region: 1,
            steps: &[
                FIRST,
                Step {
                    behind: 1,
                    until: Until::Come(Thing::Flushed, 1),
                },
                FIRST,
                Step {
                    behind: 0,
                    until: Until::Come(Thing::Flushed, 2),
                },
            ],
        }],
        cues: &[
            SLOW_CHANGE,
            Cue {
                at: Call::Flush,
                page: ANY,
                until: Until::Come(Thing::Written, 1),
            },
            SLOW_WRITE_BACK,
            SLOW_WRITE_BACK,
            SLOW_WRITE_BACK,
        ],
        counts: &[
            (Thing::Dirty, 0),
            (Thing::Changed, 2),
            (Thing::Written, 1),
            (Thing::Gone, 1),
        ],
        ..SAMPLE
    },
    // Two workers want the same leaf. The second waits while the first reads it, and is woken as that has ended: the first asks
    // for its root only when the second has done so.
    Case {
        name: "the_end_of_a_reading_wakes_who_waits_for_the_page",
        frames: 4,
        flushes: 0,
        plans: &[FIX_BOTH, FIX_BOTH],
        counted: 16,
        parts: &[
            Part {
                region: 1,
                steps: &[
                    FIRST,
                    Step {
                        behind: 0,
                        until: Until::Come(Thing::Asked, 3),
                    },
                ],
            },
            Part {
                region: 1,
                steps: &[
                    Step {
                        behind: 0,
                        until: Until::Come(Thing::Read, 1),
                    },
                    FIRST,
                ],
            },
        ],
        cues: &[Cue {
            at: Call::Read,
            page: 16,
            until: Until::Come(Thing::Asked, 2),
        }],
        counts: &[(Thing::Dirty, 0), (Thing::Done, 2)],
        ..SAMPLE
    },
    // The first worker's changed leaf has to be written for the frame of a root. The second worker wants that leaf, and is
    // woken as it is written: the reading of the root is over only when the second reads the leaf.
    Case {
        name: "the_end_of_a_write_back_wakes_who_waits_for_the_victim",
        frames: 2,
        flushes: 0,
        plans: &[WRITE_THEN_TOUCH_TWO, WRITE_THEN_TOUCH_TWO],
        counted: 16,
        parts: &[
            Part {
                region: 1,
                steps: &[
                    FIRST,
                    FIRST,
                    Step {
                        behind: 1,
                        until: Until::Nothing,
                    },
                ],
            },
            Part {
                region: 1,
                steps: &[
                    Step {
                        behind: 0,
                        until: Until::Come(Thing::Written, 1),
                    },
                    FIRST,
                    Step {
                        behind: 1,
                        until: Until::Nothing,
                    },
                ],
            },
        ],
        cues: &[
            Cue {
                at: Call::Read,
                page: 1,
                until: Until::Come(Thing::Read, 2),
            },
            Cue {
                at: Call::WriteBack,
                page: ANY,
                until: Until::Come(Thing::Asked, 4),
            },
        ],
        counts: &[(Thing::Changed, 2), (Thing::Done, 2)],
        ..SAMPLE
    },
    // Of three frames one is being flushed, and two are held. A worker waits for one, and is woken as a page is unfixed: the
    // flush is over, and the holder goes on, only when that worker reads its page.
    Case {
        name: "an_unfix_wakes_who_waits_for_a_frame",
        flushes: 1,
        plans: &[WRITE_THEN_TOUCH, HOLD],
        counted: 2,
        parts: &[
            Part {
                region: 1,
                steps: &[
                    FIRST,
                    Step {
                        behind: 2,
                        until: Until::Come(Thing::Seen, 1),
                    },
                ],
            },
            Part {
                region: 0,
                steps: &[
                    FIRST,
                    Step {
                        behind: 1,
                        until: Until::Come(Thing::Flushed, 1),
                    },
                    Step {
                        behind: 3,
                        until: Until::Come(Thing::Read, 1),
                    },
                ],
            },
        ],
        cues: &[
            Cue {
                at: Call::Flush,
                page: ANY,
                until: Until::Come(Thing::Read, 1),
            },
            Cue {
                at: Call::See,
                page: ANY,
                until: Until::Come(Thing::Asked, 4),
            },
        ],
        counts: &[(Thing::Dirty, 0), (Thing::Done, 2)],
        ..SAMPLE
    },
    // One plan has both frames, and the other worker waits for room. It is woken as that plan ends: the worker that was at it takes
    // the next one, and asks for its root only when the other has begun the last one.
    Case {
        name: "the_end_of_a_plan_wakes_who_waits_for_room",
        frames: 2,
        flushes: 0,
        plans: &[FIX_BOTH, TOUCH, TOUCH],
        parts: &[Part {
            region: 1,
            steps: &[
                FIRST,
                FIRST,
                Step {
                    behind: 0,
                    until: Until::Come(Thing::Begun, 2),
                },
            ],
        }],
        cues: &[Cue {
            at: Call::Read,
            page: ANY,
            until: Until::Nothing,
        }],
        counts: &[(Thing::Dirty, 0), (Thing::Done, 3)],
        ..SAMPLE
    },
    // The first worker has the second page, the other the first, and waits for the second. The first lets that go, and at once
    // waits for the other's page. It has to wake the other before, since nobody else does.
    Case {
        name: "who_waits_is_woken_before_its_waker_waits",
        frames: 4,
        flushes: 0,
        regions: TWO_REGIONS,
        areas: &[
            Area {
                first: 16,
                count: 4,
            },
            Area {
                first: 20,
                count: 4,
            },
        ],
        plans: &[BACK, FORTH],
        parts: &[Part {
            region: 0,
            steps: &[Step {
                behind: 0,
                until: Until::Come(Thing::Changed, 1),
            }],
        }],
        cues: &[Cue {
            at: Call::Change,
            page: 20,
            until: Until::Come(Thing::Changed, 2),
        }],
        counts: &[(Thing::Dirty, 2), (Thing::Changed, 3), (Thing::Seen, 1)],
        ..SAMPLE
    },
    // One worker holds two pages. A writer waits for the second, and then one for the first, whose fix has the other try again
    // and wait behind it. The second page is let go before the first, and its writer goes on although it waits behind.
    Case {
        name: "each_latch_wakes_who_waits_for_it",
        frames: 6,
        workers: 3,
        flushes: 0,
        regions: THREE_REGIONS,
        areas: &[
            Area { first: 0, count: 4 },
            Area {
                first: 16,
                count: 4,
            },
            Area {
                first: 20,
                count: 4,
            },
        ],
        plans: &[HOLD_TWO, CHANGE_TWO, CHANGE_ONE],
        parts: &[
            Part {
                region: 0,
                steps: &[
                    FIRST,
                    FIRST,
                    FIRST,
                    Step {
                        behind: 0,
                        until: Until::Come(Thing::Changed, 1),
                    },
                    Step {
                        behind: 0,
                        until: Until::Come(Thing::Changed, 2),
                    },
                ],
            },
            Part {
                region: 1,
                steps: &[Step {
                    behind: 0,
                    until: Until::Come(Thing::Lingered, 1),
                }],
            },
            Part {
                region: 2,
                steps: &[Step {
                    behind: 0,
                    until: Until::Come(Thing::Seen, 2),
                }],
            },
        ],
        cues: &[
            Cue {
                at: Call::See,
                page: 20,
                until: Until::Come(Thing::Asked, 4),
            },
            Cue {
                at: Call::See,
                page: 20,
                until: Until::Come(Thing::Asked, 5),
            },
        ],
        counts: &[(Thing::Dirty, 2), (Thing::Changed, 2), (Thing::Seen, 2)],
        ..SAMPLE
    },
    // A reader sees a page, for whose latch X a writer waits, and unlatches and unfixes it by one call. It fixes its key only when
    // the writer has changed the page: so the end of its reading wakes that.
    Case {
        name: "the_end_of_a_hit_wakes_who_waits_for_its_latch",
        frames: 4,
        flushes: 0,
        regions: THREE_REGIONS,
        areas: &[
            Area { first: 0, count: 4 },
            Area {
                first: 16,
                count: 4,
            },
            Area {
                first: 20,
                count: 4,
            },
        ],
        plans: &[READ_THEN_KEY, KEY_THEN_CHANGE],
        parts: &[
            Part {
                region: 2,
                steps: &[
                    FIRST,
                    Step {
                        behind: 0,
                        until: Until::Come(Thing::Changed, 1),
                    },
                ],
            },
            Part {
                region: 0,
                steps: &[
                    Step {
                        behind: 1,
                        until: Until::Come(Thing::Seen, 1),
                    },
                    FIRST,
                ],
            },
        ],
        cues: &[Cue {
            at: Call::See,
            page: 20,
            until: Until::Come(Thing::Asked, 3),
        }],
        counts: &[(Thing::Dirty, 1), (Thing::Changed, 1), (Thing::Seen, 1)],
        ..SAMPLE
    },
];

/// Nobody waits in vain.
#[test]
fn each_wake_up_is_needed(rt: HostRuntime) {
    for case in WAKES {
        passes(&rt, case);
    }
}
