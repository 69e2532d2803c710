//! In which order plans start.

use crate::scene::{AT_ONCE, Act, DONE, Deed, FIRST, POLICY, SAMPLE, Scene, Step, Thing, Until};
use crate::serving::passes;
use pp_buffer_pool::Policy;
use pp_test_plain::samples::TOUCH;
use std::test::*;

/// Holds two leaves.
const TWO: &str =
    "{\"body\":[{\"fix\":\"a\",\"region\":\"leaf\"},{\"fix\":\"b\",\"region\":\"leaf\"},\
{\"unfix\":\"b\"},{\"unfix\":\"a\"}],\"version\":1}";

/// Goes over leaves, and holds four of them at once.
const SCAN: &str =
    "{\"body\":[{\"body\":[{\"fix\":\"a\",\"region\":\"leaf\"},{\"fix\":\"b\",\"region\":\"leaf\"},\
{\"fix\":\"c\",\"region\":\"leaf\"},{\"fix\":\"d\",\"region\":\"leaf\"},\
{\"latch\":\"a\",\"mode\":\"S\"},{\"unlatch\":\"a\"},\
{\"unfix\":\"d\"},{\"unfix\":\"c\"},{\"unfix\":\"b\"},{\"unfix\":\"a\"}],\"loop\":8}],\"version\":1}";

/// The pages of a scan.
const LEAVES: &[Step] = &[FIRST, Step(1, AT_ONCE), Step(2, AT_ONCE), Step(3, AT_ONCE)];

/// It has begun, and goes on once there is a sign.
const HOLDS: &[Step] = &[Step(0, Until(Thing::Sign, 1))];

/// Runs the first plan, which holds up the others.
const HOLDER: &[Deed] = &[(AT_ONCE, Act::RunAs(0, TWO, HOLDS))];

/// Four frames, and chairs enough.
const FOUR: Scene = Scene {
    frames: 4,
    workers: 8,
    ..SAMPLE
};

/// Two frames are held, and a scan wants four: it waits, and short plans come behind it.
static ORDERS: &[Scene] = &[
    // Nobody overtakes it, so all start in the order in which they came.
    Scene {
        name: "with_no_bypass_all_start_in_their_order",
        threads: &[
            HOLDER,
            &[(Until(Thing::Begun, 1), Act::RunAs(1, SCAN, LEAVES))],
            &[(Until(Thing::Waiting, 1), Act::RunAs(2, TOUCH, &[]))],
            &[(Until(Thing::Waiting, 2), Act::RunAs(3, TOUCH, &[]))],
            &[(Until(Thing::Waiting, 3), Act::RunAs(4, TWO, &[]))],
            &[(Until(Thing::Waiting, 4), Act::RunAs(5, TOUCH, &[]))],
            &[(Until(Thing::Waiting, 5), Act::Sign)],
        ],
        counts: &[(Thing::Done, 6)],
        ..FOUR
    },
    // Two overtake it, and those behind them wait.
    Scene {
        name: "with_a_bypass_of_two_two_overtake",
        policy: Policy {
            bypass: 2,
            ..POLICY
        },
        threads: &[
            HOLDER,
            &[(Until(Thing::Begun, 1), Act::RunAs(3, SCAN, LEAVES))],
            &[(Until(Thing::Waiting, 1), Act::RunAs(1, TOUCH, &[]))],
            &[(Until(Thing::Ended, 1), Act::RunAs(2, TOUCH, &[]))],
            &[(Until(Thing::Ended, 2), Act::RunAs(4, TOUCH, &[]))],
            &[(Until(Thing::Waiting, 2), Act::RunAs(5, TOUCH, &[]))],
            &[(Until(Thing::Waiting, 3), Act::Sign)],
        ],
        counts: &[(Thing::Done, 6)],
        ..FOUR
    },
    // One that doesn't fit either overtakes nobody, and one behind it that fits overtakes both.
    Scene {
        name: "with_a_bypass_of_one_both_that_wait_are_overtaken_once",
        policy: Policy {
            bypass: 1,
            ..POLICY
        },
        threads: &[
            HOLDER,
            &[(Until(Thing::Begun, 1), Act::RunAs(2, SCAN, LEAVES))],
            &[(Until(Thing::Waiting, 1), Act::RunAs(3, SCAN, LEAVES))],
            &[(Until(Thing::Waiting, 2), Act::RunAs(1, TWO, &[]))],
            &[(Until(Thing::Ended, 1), Act::RunAs(4, TOUCH, &[]))],
            &[(Until(Thing::Waiting, 3), Act::Sign)],
        ],
        counts: &[(Thing::Done, 5)],
        ..FOUR
    },
    // A long scan runs, and short plans run beside it.
    Scene {
        name: "short_plans_run_beside_a_long_scan",
        frames: 6,
        workers: 3,
        threads: &[
            &[(
                AT_ONCE,
                Act::Run(SCAN, &[FIRST, Step(1, Until(Thing::Done, 12))], DONE),
            )],
            &[(Until(Thing::Begun, 1), Act::Many(6, TOUCH))],
            &[(Until(Thing::Begun, 1), Act::Many(6, TWO))],
        ],
        counts: &[(Thing::Done, 13)],
        ..SAMPLE
    },
];

#[test]
fn plans_start_in_order(rt: HostRuntime) {
    for scene in ORDERS {
        passes(&rt, scene);
    }
}
