//! Sample plans and other texts, beside those that tests share, and what is made of them.

use pp_model::{Came, Ending, Event, Move, Reply};
use pp_report::{Journal, RunRecord};
use pp_settings::Settings;
use pp_test_plain::samples::{REGIONS, SETTINGS};
use std::alloc::Global;

/// No frame, and no region.
pub const NO_FRAMES: &str = "frames = 0
page_bytes = 64
workers = 2
flushes = 4
region = [{}]
";

/// From a root to a leaf, which is written.
pub const PIN: &str =
    "{\"body\":[{\"fix\":\"a\",\"region\":\"root\"},{\"latch\":\"a\",\"mode\":\"S\"},\
    {\"fix\":\"b\",\"region\":\"leaf\"},{\"unlatch\":\"a\"},{\"unfix\":\"a\"},{\"latch\":\"b\",\"mode\":\"X\"},\
    {\"unlatch\":\"b\"},{\"unfix\":\"b\"}],\"version\":1}";

/// Its certificate.
pub const PIN_NOTES: &str = "{\"notes\":[{},{\"a\":[\"root\",\"-\"]},{\"a\":[\"root\",\"S\"]},\
    {\"a\":[\"root\",\"S\"],\"b\":[\"leaf\",\"-\"]},{\"a\":[\"root\",\"-\"],\"b\":[\"leaf\",\"-\"]},\
    {\"b\":[\"leaf\",\"-\"]},{\"b\":[\"leaf\",\"X\"]},{\"b\":[\"leaf\",\"-\"]},{}],\"peak\":2,\"steps\":8}";

/// The same with a slot that the plan doesn't have.
pub const OTHER_NOTES: &str = "{\"notes\":[{},{\"c\":[\"root\",\"-\"]}],\"peak\":2,\"steps\":8}";

/// Each kind of statement.
pub const EVERY: &str = "{\"body\":[{\"body\":[{\"choice\":[[{\"fix\":\"a\",\"region\":\"leaf\"},\
    {\"latch\":\"a\",\"mode\":\"X\"},{\"unlatch\":\"a\"},{\"unfix\":\"a\"}],[]]}],\"loop\":3}],\"version\":1}";

/// Gathers three leaves into a bundle.
pub const BUNDLE: &str =
    "{\"body\":[{\"body\":[{\"gather\":\"g\",\"region\":\"leaf\"}],\"loop\":3},\
    {\"scatter\":\"g\"}],\"version\":2}";

/// Its certificate.
pub const BUNDLE_NOTES: &str =
    "{\"notes\":[{},{\"g\":2},{\"g\":3},{\"g\":3},{}],\"peak\":3,\"steps\":4}";

/// The same with an entry of a page where the bundle is.
pub const PAGE_NOTES: &str = "{\"notes\":[{},{\"g\":[\"leaf\",\"-\"]}],\"peak\":3,\"steps\":4}";

/// A slot that is a bundle, and then a page's.
pub const MIXED: &str =
    "{\"body\":[{\"gather\":\"g\",\"region\":\"leaf\"},{\"unfix\":\"g\"}],\"version\":2}";

/// Branches that end holding something else.
pub const BRANCHES: &str =
    "{\"body\":[{\"choice\":[[{\"fix\":\"a\",\"region\":\"root\"}],[]]}],\"version\":1}";

/// A list of statements that isn't closed.
pub const CUT_OFF: &str = "{\"body\":[";

/// A script for two plans `WRITE`, with a trouble.
pub const SCRIPT: &str = "fail 2
take 0
fix 0 16
device 0
latch 0
write 0 0 7
unlatch 0
unfix 0
finish 0
look 0 0
";

/// A script with a line that is no cue.
pub const NO_CUE: &str = "take 0
take
";

/// The journals of two lives, in each of which that plan touches the page.
pub const LIVES: &str = "submit 0 = queued
take 0 = taken 0
fix 0 1 = mustread 0
came 0 1 0 = loaded 0
unfix 0 = did
finish 0 = done
renew = renewed
submit 0 = queued
take 0 = taken 0
fix 0 1 = hit 0 0
unfix 0 = did
finish 0 = done
";

/// The texts of two segments of an endless pool, in which the plan that was prepared behind another one touches the page.
pub const SEGMENTS: [&str; 2] = [
    "segment 0 = 0
submit 0 1 = queued
take 0 = taken 0
fix 0 1 = mustread 0
",
    "segment 1 = 1
came 0 1 0 = loaded 0
unfix 0 = did
finish 0 = done
",
];

/// The moves of the journal `TOUCHED`.
pub static MOVES: [Move; 5] = [
    Move::Take { worker: 0 },
    Move::Fix { worker: 0, page: 1 },
    Move::ReadDone {
        worker: 0,
        came: Came::Image(1, 0),
    },
    Move::Unfix { worker: 0 },
    Move::Finish { worker: 0 },
];

/// Their replies.
static REPLIES: [Reply; 5] = [
    Reply::Taken { plan: 0 },
    Reply::MustRead { frame: 0 },
    Reply::Loaded { mark: 0 },
    Reply::Did,
    Reply::Finished(Ending::Done),
];

/// The events of that journal.
pub fn events(alloc: Global) -> anyhow::Result<Vec<Event>> {
    let mut events = Vec::new(alloc);
    events.push(Event::Submit { plan: 0 })?;
    for (did, reply) in MOVES.iter().zip(REPLIES.iter()) {
        events.push(Event::Step {
            did: *did,
            reply: *reply,
        })?;
    }
    Ok(events)
}

/// What a run of one plan `TOUCH` leaves.
pub fn record(alloc: Global) -> anyhow::Result<RunRecord> {
    Ok(RunRecord {
        plans: 1,
        events: Journal::from_events(alloc, &events(alloc)?)?,
        dirty: 0,
    })
}

/// The sample settings; in the row `endless` they are of version 2, lives don't end, and three plans may wait.
pub fn settings_of(alloc: Global, row: &str) -> anyhow::Result<Settings> {
    if row != "endless" {
        return Ok(Settings::from_text(alloc, SETTINGS)?);
    }
    Ok(Settings::from_text(alloc, &endless_text(alloc)?)?)
}

/// The text of these settings of version 2.
pub fn endless_text(alloc: Global) -> anyhow::Result<String> {
    Ok(format!(in alloc;
        "version = 2\nframes = 3\npage_bytes = 512\nworkers = 2\nwaiting = 3\nflushes = 4\n{REGIONS}"
    )?)
}
