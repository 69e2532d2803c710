//! Many plans by many workers over few frames, on a device that fails and lies.

use crate::board::Board;
use crate::case::{Case, Faults, Picks, SAMPLE, Thing};
use crate::running::{ends_of, ends_well};
use std::test::*;

/// Five times: a leaf is written below a root that is read, or a leaf is read.
pub const DESCENT: &str = "{\"body\":[{\"body\":[{\"choice\":[\
[{\"fix\":\"a\",\"region\":\"root\"},{\"latch\":\"a\",\"mode\":\"S\"},{\"fix\":\"b\",\"region\":\"leaf\"},\
{\"latch\":\"b\",\"mode\":\"X\"},{\"unlatch\":\"a\"},{\"unfix\":\"a\"},{\"unlatch\":\"b\"},{\"unfix\":\"b\"}],\
[{\"fix\":\"a\",\"region\":\"leaf\"},{\"latch\":\"a\",\"mode\":\"S\"},{\"unlatch\":\"a\"},{\"unfix\":\"a\"}]\
]}],\"loop\":5}],\"version\":1}";

/// Five times: a leaf is written beside one that a bundle keeps, or leaves are gathered below a root that is read, and behind it.
pub const KEEPING: &str = "{\"body\":[{\"body\":[{\"choice\":[\
[{\"gather\":\"g\",\"region\":\"leaf\"},{\"fix\":\"a\",\"region\":\"leaf\"},{\"latch\":\"a\",\"mode\":\"X\"},\
{\"unlatch\":\"a\"},{\"unfix\":\"a\"},{\"gather\":\"g\",\"region\":\"leaf\"},{\"scatter\":\"g\"}],\
[{\"fix\":\"a\",\"region\":\"root\"},{\"latch\":\"a\",\"mode\":\"S\"},{\"gather\":\"g\",\"region\":\"leaf\"},\
{\"unlatch\":\"a\"},{\"unfix\":\"a\"},{\"gather\":\"g\",\"region\":\"leaf\"},{\"scatter\":\"g\"}]\
]}],\"loop\":5}],\"version\":2}";

/// Six frames, eight workers, and 25 plans for each, so that devices fail and lie many times in a run. There are flushes
/// enough to write every page back, so that no change is lost.
static STRESS: &[Case] = &[
    Case {
        name: "many_workers_lose_no_change",
        frames: 6,
        workers: 8,
        flushes: 4000,
        plans: &[DESCENT],
        rounds: 200,
        picks: Picks::Chance,
        faults: Faults::Tenths,
        counts: &[(Thing::Dirty, 0)],
        ..SAMPLE
    },
    Case {
        name: "many_workers_keep_their_bundles",
        frames: 6,
        workers: 8,
        flushes: 4000,
        plans: &[DESCENT, KEEPING],
        rounds: 100,
        picks: Picks::Chance,
        faults: Faults::Tenths,
        counts: &[(Thing::Dirty, 0)],
        ..SAMPLE
    },
];

/// Every plan ends, the journal is true, and the bytes of each page are those of its stamp.
#[test]
fn many_workers_lose_no_change(rt: HostRuntime) {
    for case in STRESS {
        let board = Board::new(case);
        let ends = ends_of(&rt, case);
        ends_well(&rt, &board, ends);
        if board.number(Thing::Seen) == 0 || board.number(Thing::Changed) == 0 {
            panic!(rt; "{}: no image was seen or none changed", case.name);
        }
    }
}
