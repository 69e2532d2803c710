//! Many threads: on devices that fail and lie, and such as come and go.

use crate::scene::{AT_ONCE, Act, Deed, FLUSHER, Faults, POLICY, SAMPLE, Scene, Thing, Until};
use crate::serving::{passes, passes_scaled};
use pp_buffer_pool::Policy;
use pp_test_plain::samples::READ;
use std::env;
use std::env::Env;
use std::test::*;

/// Changes a leaf below a root that is read, reads a leaf, or changes a leaf and fixes a root while that is latched.
const MIXED: &str = "{\"body\":[{\"choice\":[\
[{\"fix\":\"a\",\"region\":\"root\"},{\"latch\":\"a\",\"mode\":\"S\"},{\"fix\":\"b\",\"region\":\"leaf\"},\
{\"latch\":\"b\",\"mode\":\"X\"},{\"unlatch\":\"a\"},{\"unfix\":\"a\"},{\"unlatch\":\"b\"},{\"unfix\":\"b\"}],\
[{\"fix\":\"a\",\"region\":\"leaf\"},{\"latch\":\"a\",\"mode\":\"S\"},{\"unlatch\":\"a\"},{\"unfix\":\"a\"}],\
[{\"fix\":\"a\",\"region\":\"leaf\"},{\"latch\":\"a\",\"mode\":\"X\"},{\"fix\":\"b\",\"region\":\"root\"},\
{\"unlatch\":\"a\"},{\"unfix\":\"a\"},{\"unfix\":\"b\"}]\
]}],\"version\":1}";

/// Changes a leaf beside one that a bundle keeps, which then keeps another.
const KEEPING: &str = "{\"body\":[{\"gather\":\"g\",\"region\":\"leaf\"},\
{\"fix\":\"a\",\"region\":\"leaf\"},{\"latch\":\"a\",\"mode\":\"X\"},{\"unlatch\":\"a\"},{\"unfix\":\"a\"},\
{\"gather\":\"g\",\"region\":\"leaf\"},{\"scatter\":\"g\"}],\"version\":2}";

/// What the first of these threads do, and what all others.
const READER: &[Deed] = &[(AT_ONCE, Act::Many(200, READ)), (AT_ONCE, Act::Sign)];

const KEEPER: &[Deed] = &[(AT_ONCE, Act::Many(200, KEEPING)), (AT_ONCE, Act::Sign)];

const CLIENT: &[Deed] = &[(AT_ONCE, Act::Many(200, MIXED)), (AT_ONCE, Act::Sign)];

/// Devices fail and lie now and then, and a flusher writes.
const TROUBLED: Scene = Scene {
    faults: Faults::Often,
    patience: 40_000,
    faults_at_close: None,
    ..SAMPLE
};

static MANY: &[Scene] = &[
    // Many threads for few chairs, and eight frames for twelve pages.
    Scene {
        name: "many_threads_share_few_chairs",
        frames: 8,
        workers: 8,
        policy: Policy {
            bypass: 3,
            flush_from: 4,
            flush_to: 1,
            ..POLICY
        },
        threads: &[
            FLUSHER,
            &[(Until(Thing::Sign, 32), Act::Stop)],
            READER,
            KEEPER,
            CLIENT,
        ],
        copies: 29,
        ..TROUBLED
    },
    // As few frames as can be, of which the flusher holds one now and then.
    Scene {
        name: "some_threads_share_few_frames",
        frames: 3,
        workers: 3,
        threads: &[
            FLUSHER,
            &[(Until(Thing::Sign, 8), Act::Stop)],
            READER,
            KEEPER,
            CLIENT,
        ],
        copies: 5,
        ..TROUBLED
    },
    // As many chairs as can be, so that many threads want the same latches.
    Scene {
        name: "many_threads_have_chairs",
        frames: 80,
        workers: 32,
        policy: Policy {
            flush_from: 2,
            ..POLICY
        },
        threads: &[
            FLUSHER,
            &[(Until(Thing::Sign, 32), Act::Stop)],
            READER,
            KEEPER,
            CLIENT,
        ],
        copies: 29,
        ..TROUBLED
    },
];

/// How many times as long as else the threads run: as the word PINPOOL_LONG of the environment says.
fn scale_of<R: Env + AllocGlobal>(rt: &R) -> u32 {
    match env::var(rt, "PINPOOL_LONG") {
        Ok(word) => word.parse().unwrap_or(1),
        Err(_) => 1,
    }
}

/// No change is lost, and none is done twice.
#[test]
fn many_threads_lose_no_change(rt: HostRuntime) {
    let scale = scale_of(&rt);
    for scene in MANY {
        passes_scaled(&rt, scene, scale);
    }
}

/// Twenty-five threads in each of twenty waves. Each runs one plan.
static WAVES: Scene = Scene {
    name: "threads_come_and_go",
    frames: 5,
    workers: 4,
    policy: Policy {
        bypass: 1,
        ..POLICY
    },
    threads: &[&[(AT_ONCE, Act::Many(1, MIXED))]],
    copies: 24,
    waves: 20,
    counts: &[(Thing::Done, 500)],
    ..SAMPLE
};

#[test]
fn threads_come_and_go(rt: HostRuntime) {
    passes(&rt, &WAVES);
}
