//! A slow writing stops no reading: while one end of a file is at it, other plans read their pages and end.

use crate::board::Board;
use crate::case::{ANY, Call, Case, Cue, Part, SAMPLE, Step, Thing, Until};
use crate::rows::{AT_ONCE, pages};
use crate::running::ends_well;
use crate::waking::WRITE_THEN_TOUCH_TWO;
use pp_shared::SharedDevice;
use pp_test_plain::samples::{TOUCH, WRITE};
use std::test::*;
use std::{env, fs};

/// The second root, once the flusher's writing has begun.
const WHILE_FLUSHED: Step = Step {
    behind: 1,
    until: Until::Come(Thing::Flushed, 1),
};

/// The third root and the fourth, once a worker's writing has begun.
const THIRD: Step = Step {
    behind: 2,
    until: Until::Come(Thing::Written, 1),
};

const FOURTH: Step = Step {
    behind: 3,
    until: Until::Come(Thing::Written, 1),
};

/// Of each, one writing is over only when all other plans have ended.
static SLOW: &[Case] = &[
    // The flusher writes a leaf. Meanwhile a root is read, and touched by three plans.
    Case {
        name: "a_slow_flush_stops_no_reading",
        plans: &[WRITE, TOUCH, TOUCH, TOUCH],
        parts: &[
            Part {
                region: 1,
                steps: &[AT_ONCE, WHILE_FLUSHED, WHILE_FLUSHED, WHILE_FLUSHED],
            },
            Part {
                region: 0,
                steps: &[WHILE_FLUSHED, WHILE_FLUSHED, WHILE_FLUSHED],
            },
        ],
        cues: &[Cue {
            at: Call::Flush,
            page: ANY,
            until: Until::Come(Thing::Finished, 4),
        }],
        counts: &[
            (Thing::Dirty, 0),
            (Thing::Flushed, 1),
            (Thing::Loads, 2),
            (Thing::Done, 4),
        ],
        ..SAMPLE
    },
    // A worker writes its changed leaf back, for the frame of a second root. Meanwhile the other one reads two roots, for
    // a plan each.
    Case {
        name: "a_slow_write_back_stops_no_reading",
        frames: 2,
        flushes: 0,
        plans: &[WRITE_THEN_TOUCH_TWO, TOUCH, TOUCH],
        parts: &[
            Part {
                region: 1,
                steps: &[
                    AT_ONCE,
                    AT_ONCE,
                    Step {
                        behind: 1,
                        until: Until::Nothing,
                    },
                ],
            },
            Part {
                region: 0,
                steps: &[THIRD, FOURTH],
            },
        ],
        cues: &[Cue {
            at: Call::WriteBack,
            page: ANY,
            until: Until::Come(Thing::Finished, 2),
        }],
        counts: &[
            (Thing::Dirty, 0),
            (Thing::Written, 1),
            (Thing::Loads, 5),
            (Thing::Done, 3),
        ],
        ..SAMPLE
    },
];

/// Nobody waits in vain: neither the lock of the run nor one of the device is held while an end writes.
#[test]
fn a_slow_write_stops_no_reading(rt: HostRuntime) -> Result<(), Fail> {
    let temporary = env::temp_dir(&rt)?;
    let place = temporary.as_path().display();
    let process = std::process::id(rt.process());
    let path = format!(in rt.alloc(); "{place}/pp_run_slow_{process}")?;
    for case in SLOW {
        let new = pages(&rt, rt.alloc(), ANY);
        fs::write(&rt, path.as_str(), new.as_slice())?;
        let ends = SharedDevice::over_file(rt, rt.alloc(), &path, 64, 3)?;
        ends_well(&rt, &Board::new(case), ends);
    }
    fs::remove_file(&rt, path.as_str())?;
    Ok(())
}
