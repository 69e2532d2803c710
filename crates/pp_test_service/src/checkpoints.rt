//! Checkpoints: after one that is done, each page that was dirty before is on the medium.

use crate::scene::{
    ANY, AT_ONCE, Act, Call, Cue, DONE, Deed, FIRST, FLUSHER, Faults, POLICY, SAMPLE, Scene, Step,
    Thing, Until,
};
use crate::serving::passes;
use pp_buffer_pool::{CheckpointError, CloseError, Flush, Policy};
use pp_durable::SyncFault;
use pp_test_plain::samples::{TOUCH, WRITE};
use std::test::*;

/// Changes a leaf, and fixes a root while that is latched.
const HOLD: &str =
    "{\"body\":[{\"fix\":\"a\",\"region\":\"leaf\"},{\"latch\":\"a\",\"mode\":\"X\"},\
{\"fix\":\"b\",\"region\":\"root\"},{\"unlatch\":\"a\"},{\"unfix\":\"a\"},{\"unfix\":\"b\"}],\"version\":1}";

/// Changes a leaf: page 16, 17 or 18.
const LEAF_0: Act = Act::Run(WRITE, &[Step(0, AT_ONCE)], DONE);

const LEAF_1: Act = Act::Run(WRITE, &[Step(1, AT_ONCE)], DONE);

const LEAF_2: Act = Act::Run(WRITE, &[Step(2, AT_ONCE)], DONE);

/// A checkpoint that is done.
const CHECKPOINT: Act = Act::Checkpoint(Ok(()));

/// A checkpoint that can't have page 16.
const HELD: Act = Act::Checkpoint(Err(CheckpointError::Held(16)));

/// A checkpoint whose sync fails.
const LOST: Act = Act::Checkpoint(Err(CheckpointError::Sync(SyncFault)));

/// Three pages are dirty, and the device writes all.
const THREE: Scene = Scene {
    name: "a_checkpoint_writes_all_that_is_dirty",
    threads: &[&[
        (AT_ONCE, LEAF_2),
        (AT_ONCE, LEAF_0),
        (AT_ONCE, LEAF_1),
        (AT_ONCE, LEAF_0),
        (AT_ONCE, CHECKPOINT),
        (AT_ONCE, Act::Dirty(&[])),
    ]],
    counts: &[(Thing::Flushed, 3), (Thing::Synced, 1)],
    dirty: Some(0),
    ..SAMPLE
};

static ALONE: &[Scene] = &[
    THREE,
    Scene {
        name: "a_checkpoint_of_no_page_syncs",
        threads: &[&[(AT_ONCE, CHECKPOINT), (AT_ONCE, CHECKPOINT)]],
        counts: &[(Thing::Flushed, 0), (Thing::Synced, 2)],
        ..THREE
    },
    // The pages before the one that isn't written are written, it and those behind it by the next checkpoint.
    Scene {
        name: "the_first_writing_of_a_checkpoint_fails",
        faults: Faults::Flusher(&[1]),
        threads: &[&[
            (AT_ONCE, LEAF_0),
            (AT_ONCE, LEAF_1),
            (AT_ONCE, LEAF_2),
            (
                AT_ONCE,
                Act::Checkpoint(Err(CheckpointError::WriteFault(16))),
            ),
            (AT_ONCE, Act::Dirty(&[16, 17, 18])),
            (AT_ONCE, CHECKPOINT),
        ]],
        counts: &[(Thing::Flushed, 4), (Thing::Synced, 1)],
        ..THREE
    },
    Scene {
        name: "the_second_writing_of_a_checkpoint_fails",
        faults: Faults::Flusher(&[2]),
        threads: &[&[
            (AT_ONCE, LEAF_0),
            (AT_ONCE, LEAF_1),
            (AT_ONCE, LEAF_2),
            (
                AT_ONCE,
                Act::Checkpoint(Err(CheckpointError::WriteFault(17))),
            ),
            (AT_ONCE, Act::Dirty(&[17, 18])),
            (AT_ONCE, CHECKPOINT),
        ]],
        counts: &[(Thing::Flushed, 4), (Thing::Synced, 1)],
        ..THREE
    },
    Scene {
        name: "the_last_writing_of_a_checkpoint_fails_twice",
        faults: Faults::Flusher(&[3, 4]),
        threads: &[&[
            (AT_ONCE, LEAF_0),
            (AT_ONCE, LEAF_1),
            (AT_ONCE, LEAF_2),
            (
                AT_ONCE,
                Act::Checkpoint(Err(CheckpointError::WriteFault(18))),
            ),
            (AT_ONCE, Act::Dirty(&[18])),
            (
                AT_ONCE,
                Act::Checkpoint(Err(CheckpointError::WriteFault(18))),
            ),
            (AT_ONCE, CHECKPOINT),
        ]],
        counts: &[(Thing::Flushed, 5), (Thing::Synced, 1)],
        ..THREE
    },
    // The pages are written, and no later sync is done.
    Scene {
        name: "a_sync_fails_for_good",
        faults: Faults::Syncs(2),
        threads: &[&[
            (AT_ONCE, LEAF_0),
            (AT_ONCE, CHECKPOINT),
            (AT_ONCE, LEAF_0),
            (AT_ONCE, LEAF_1),
            (AT_ONCE, LOST),
            (AT_ONCE, Act::Dirty(&[])),
            (AT_ONCE, LOST),
        ]],
        counts: &[(Thing::Flushed, 3), (Thing::Synced, 3)],
        ..THREE
    },
    Scene {
        name: "a_checkpoint_finds_the_flushes_spent",
        flushes: 2,
        threads: &[&[
            (AT_ONCE, LEAF_0),
            (AT_ONCE, LEAF_1),
            (AT_ONCE, LEAF_2),
            (AT_ONCE, Act::Checkpoint(Err(CheckpointError::Spent))),
            (AT_ONCE, Act::Dirty(&[18])),
        ]],
        counts: &[(Thing::Flushed, 2), (Thing::Synced, 0)],
        dirty: Some(1),
        gives_up: Some((CloseError::FlushesSpent, 1)),
        ..THREE
    },
];

#[test]
fn a_checkpoint_writes_and_syncs(rt: HostRuntime) {
    for scene in ALONE {
        passes(&rt, scene);
    }
}

static HOLDING: &[Scene] = &[
    // Page 16 is latched X all the time, and the dirty page behind it is written. Once it is unlatched it is written too.
    Scene {
        name: "a_page_that_is_latched_is_held",
        threads: &[
            &[
                (AT_ONCE, LEAF_0),
                (
                    Until(Thing::Done, 2),
                    Act::Run(HOLD, &[FIRST, Step(0, Until(Thing::Sign, 1))], DONE),
                ),
            ],
            &[
                (Until(Thing::Done, 1), LEAF_2),
                (Until(Thing::Changed, 3), HELD),
                (AT_ONCE, Act::Sign),
                (Until(Thing::Done, 3), Act::Dirty(&[16])),
                (AT_ONCE, CHECKPOINT),
            ],
        ],
        counts: &[(Thing::Flushed, 2), (Thing::Synced, 1)],
        ..THREE
    },
    // It is unlatched while the checkpoint goes on, which yields in between.
    Scene {
        name: "a_page_that_is_unlatched_in_time_is_written",
        threads: &[
            &[
                (AT_ONCE, LEAF_0),
                (
                    AT_ONCE,
                    Act::Run(HOLD, &[FIRST, Step(0, Until(Thing::Flushed, 1))], DONE),
                ),
            ],
            &[
                (Until(Thing::Done, 1), LEAF_2),
                (Until(Thing::Changed, 3), CHECKPOINT),
            ],
        ],
        cues: &[Cue {
            at: Call::Flush,
            page: 18,
            until: Until(Thing::Done, 3),
        }],
        counts: &[(Thing::Flushed, 2), (Thing::Synced, 1)],
        ..THREE
    },
    // A worker writes page 16 all the time, since it needs its frame.
    Scene {
        name: "a_page_that_a_worker_writes_is_held",
        frames: 1,
        workers: 1,
        threads: &[
            &[(AT_ONCE, LEAF_0), (AT_ONCE, Act::Run(TOUCH, &[], DONE))],
            &[
                (Until(Thing::Written, 1), HELD),
                (AT_ONCE, Act::Sign),
                (Until(Thing::Done, 2), CHECKPOINT),
            ],
        ],
        cues: &[Cue {
            at: Call::Write,
            page: 16,
            until: Until(Thing::Sign, 1),
        }],
        counts: &[(Thing::Flushed, 0), (Thing::Written, 1), (Thing::Synced, 1)],
        ..THREE
    },
];

#[test]
fn a_page_that_is_held_is_told(rt: HostRuntime) {
    for scene in HOLDING {
        passes(&rt, scene);
    }
}

static BESIDE: &[Scene] = &[
    // The flusher's thread writes page 16 as the checkpoint begins, which waits for that.
    Scene {
        name: "a_checkpoint_waits_for_a_flush",
        threads: &[
            FLUSHER,
            &[
                (AT_ONCE, LEAF_0),
                (Until(Thing::Flushed, 1), Act::Sign),
                (AT_ONCE, CHECKPOINT),
                (AT_ONCE, Act::Stop),
            ],
        ],
        cues: &[Cue {
            at: Call::Flush,
            page: 16,
            until: Until(Thing::Sign, 1),
        }],
        counts: &[(Thing::Flushed, 1), (Thing::Synced, 1)],
        ..THREE
    },
    // The flusher's thread sleeps, since it waits for three pages.
    Scene {
        name: "a_checkpoint_flushes_beside_a_flusher_that_sleeps",
        frames: 4,
        policy: Policy {
            flush_from: 3,
            ..POLICY
        },
        threads: &[
            FLUSHER,
            &[
                (AT_ONCE, LEAF_0),
                (AT_ONCE, LEAF_1),
                (AT_ONCE, LEAF_2),
                (Until(Thing::Flushed, 3), LEAF_0),
                (AT_ONCE, LEAF_2),
                (AT_ONCE, CHECKPOINT),
                (AT_ONCE, Act::Dirty(&[])),
                (AT_ONCE, Act::Stop),
            ],
        ],
        counts: &[(Thing::Flushed, 5), (Thing::Synced, 1)],
        ..THREE
    },
    // The checkpoint writes page 16 as a third page is changed, for which the flusher's thread waits. That waits on until the
    // flusher is home.
    Scene {
        name: "a_flusher_waits_for_a_checkpoint",
        frames: 4,
        policy: Policy {
            flush_from: 3,
            ..POLICY
        },
        threads: &[
            FLUSHER,
            &[(Until(Thing::Sign, 1), CHECKPOINT)],
            &[
                (AT_ONCE, LEAF_0),
                (AT_ONCE, LEAF_1),
                (AT_ONCE, Act::Sign),
                (Until(Thing::Flushed, 1), LEAF_2),
                (AT_ONCE, Act::Flush(Flush::Busy)),
                (AT_ONCE, Act::Sign),
                (Until(Thing::Synced, 1), Act::Stop),
            ],
        ],
        cues: &[Cue {
            at: Call::Flush,
            page: 16,
            until: Until(Thing::Sign, 2),
        }],
        counts: &[(Thing::Synced, 1)],
        dirty: None,
        ..THREE
    },
    // Two checkpoints take turns, and write each page once.
    Scene {
        name: "two_checkpoints_take_turns",
        frames: 4,
        threads: &[
            &[
                (AT_ONCE, LEAF_0),
                (AT_ONCE, LEAF_1),
                (AT_ONCE, LEAF_2),
                (AT_ONCE, Act::Sign),
            ],
            &[(Until(Thing::Sign, 1), CHECKPOINT)],
        ],
        copies: 1,
        cues: &[Cue {
            at: Call::Flush,
            page: ANY,
            until: AT_ONCE,
        }],
        counts: &[(Thing::Flushed, 3), (Thing::Synced, 2)],
        ..THREE
    },
];

#[test]
fn a_checkpoint_shares_the_flusher(rt: HostRuntime) {
    for scene in BESIDE {
        passes(&rt, scene);
    }
}

/// What each of some threads does.
const WRITER: &[Deed] = &[(AT_ONCE, Act::Many(200, WRITE)), (AT_ONCE, Act::Sign)];

const CHECKPOINTER: &[Deed] = &[(AT_ONCE, Act::Checkpoints(50)), (AT_ONCE, Act::Sign)];

static MANY: &[Scene] = &[
    // Writers, a flusher's thread and two checkpoints at once.
    Scene {
        name: "checkpoints_beside_writers",
        frames: 6,
        workers: 4,
        policy: Policy {
            flush_from: 3,
            flush_to: 1,
            ..POLICY
        },
        threads: &[
            FLUSHER,
            &[(Until(Thing::Sign, 8), Act::Stop)],
            CHECKPOINTER,
            CHECKPOINTER,
            WRITER,
        ],
        copies: 5,
        patience: 40_000,
        ..SAMPLE
    },
    // No flusher's thread, few frames, and devices that fail.
    Scene {
        name: "checkpoints_beside_writers_on_bad_devices",
        frames: 3,
        workers: 3,
        threads: &[CHECKPOINTER, CHECKPOINTER, WRITER],
        copies: 5,
        faults: Faults::Often,
        patience: 40_000,
        faults_at_close: None,
        ..SAMPLE
    },
];

#[test]
fn checkpoints_beside_writers_lose_no_page(rt: HostRuntime) {
    for scene in MANY {
        passes(&rt, scene);
    }
}
