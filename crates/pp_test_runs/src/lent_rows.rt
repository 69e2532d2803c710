//! Worked rows of runs whose works are told of their plans and are lent pages.

use crate::case::{ANY, Call, Case, Cue, Faults, Part, SAMPLE, Step, Thing, Until};
use crate::rows::{AT_ONCE, IN_TURN};
use crate::running::passes_lent;
use pp_test_plain::samples::{NOTHING, TOUCH};
use std::test::*;

/// Writes a leaf, and gives a root back before the leaf's latch comes off.
const WRITE_BESIDE: &str =
    "{\"body\":[{\"fix\":\"a\",\"region\":\"leaf\"},{\"fix\":\"b\",\"region\":\"root\"},\
{\"latch\":\"a\",\"mode\":\"X\"},{\"unfix\":\"b\"},{\"unlatch\":\"a\"},{\"unfix\":\"a\"}],\"version\":1}";

/// Writes a leaf, and fixes another one meanwhile.
const WRITE_AND_FIX: &str =
    "{\"body\":[{\"fix\":\"a\",\"region\":\"leaf\"},{\"latch\":\"a\",\"mode\":\"X\"},\
{\"fix\":\"b\",\"region\":\"leaf\"},{\"unfix\":\"b\"},{\"unlatch\":\"a\"},{\"unfix\":\"a\"}],\"version\":1}";

/// The part of the worker whose plans end.
const TOUCHES: Part = Part {
    region: 0,
    steps: &[IN_TURN, IN_TURN],
};

/// One worker's work waits in a call until the other worker has done one plan more, for which that needs the lock.
static ROWS: &[Case] = &[
    // As it is told that its plan begins, with a plan that asks nothing of it, and that the plan is done.
    Case {
        name: "no_work_is_told_of_its_plan_under_the_lock",
        plans: &[NOTHING, TOUCH, TOUCH],
        parts: &[TOUCHES],
        cues: &[
            Cue {
                at: Call::Begin,
                page: 0,
                until: Until::PlanMore,
            },
            Cue {
                at: Call::End,
                page: 0,
                until: Until::PlanMoreBeside,
            },
        ],
        counts: &[(Thing::Waited, 2), (Thing::Done, 3)],
        ..SAMPLE
    },
    // As it is lent pages, behind a move for which the worker had the lock.
    Case {
        name: "no_page_is_lent_under_the_lock",
        plans: &[WRITE_BESIDE, TOUCH],
        parts: &[
            Part {
                region: 1,
                steps: &[AT_ONCE],
            },
            TOUCHES,
        ],
        cues: &[Cue {
            at: Call::Rework,
            page: 0,
            until: Until::PlanMore,
        }],
        counts: &[(Thing::Waited, 1), (Thing::Changed, 1), (Thing::Done, 2)],
        ..SAMPLE
    },
    // The same on the way out of a plan whose second page can't be read; and as it is told that the plan is gone.
    Case {
        name: "no_page_is_lent_under_the_lock_on_the_way_out",
        plans: &[WRITE_AND_FIX, TOUCH, TOUCH],
        parts: &[
            Part {
                region: 1,
                steps: &[
                    AT_ONCE,
                    Step {
                        behind: 1,
                        until: Until::Nothing,
                    },
                ],
            },
            TOUCHES,
        ],
        faults: Faults::Page(17),
        cues: &[
            Cue {
                at: Call::Rework,
                page: ANY,
                until: Until::PlanMore,
            },
            Cue {
                at: Call::End,
                page: 0,
                until: Until::PlanMoreBeside,
            },
        ],
        counts: &[
            (Thing::Waited, 2),
            (Thing::Changed, 1),
            (Thing::Gone, 1),
            (Thing::Done, 2),
        ],
        ..SAMPLE
    },
];

/// Each comes to what is counted in it.
#[test]
fn each_row_of_lent_works_ends_well(rt: HostRuntime) {
    for case in ROWS {
        passes_lent(&rt, case);
    }
}
