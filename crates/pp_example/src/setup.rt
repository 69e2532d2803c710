//! The settings of the pool, and the plans of its workers.

use pp_annotate::annotate;
use pp_cert::{Accepted, check};
use pp_plan::Plan;
use pp_settings::Settings;
use std::alloc::Global;

/// The page of the root.
pub const ROOT: u32 = 0;

/// The first page of the inner nodes.
pub const INNER: u32 = 1;

/// The first page of the leaves.
pub const LEAVES: u32 = 8;

/// How many pages there are.
pub const PAGES: u32 = 64;

/// How many bytes a page has.
pub const PAGE_BYTES: usize = 64;

/// A region for each level of the index. Classes rise from the root to the leaves: that is the order of latches.
const SETTINGS: &str = "frames = 3
page_bytes = 64
workers = 1
flushes = 4
[[region]]
name = \"root\"
first = 0
count = 1
class = 1
[[region]]
name = \"inner\"
first = 1
count = 7
class = 2
[[region]]
name = \"leaf\"
first = 8
count = 56
class = 3
";

/// A way from the root to a leaf. Each child is latched before its parent is let go, so no other worker can change the
/// way while a worker is on it.
const FIND: &str = "{\"body\":[\
    {\"fix\":\"a\",\"region\":\"root\"},{\"latch\":\"a\",\"mode\":\"S\"},\
    {\"fix\":\"b\",\"region\":\"inner\"},{\"latch\":\"b\",\"mode\":\"S\"},\
    {\"unlatch\":\"a\"},{\"unfix\":\"a\"},\
    {\"fix\":\"c\",\"region\":\"leaf\"},{\"latch\":\"c\",\"mode\":\"S\"},\
    {\"unlatch\":\"b\"},{\"unfix\":\"b\"},\
    {\"unlatch\":\"c\"},{\"unfix\":\"c\"}],\"version\":1}";

/// The same way, with the leaf latched X.
const SET: &str = "{\"body\":[\
    {\"fix\":\"a\",\"region\":\"root\"},{\"latch\":\"a\",\"mode\":\"S\"},\
    {\"fix\":\"b\",\"region\":\"inner\"},{\"latch\":\"b\",\"mode\":\"S\"},\
    {\"unlatch\":\"a\"},{\"unfix\":\"a\"},\
    {\"fix\":\"c\",\"region\":\"leaf\"},{\"latch\":\"c\",\"mode\":\"X\"},\
    {\"unlatch\":\"b\"},{\"unfix\":\"b\"},\
    {\"unlatch\":\"c\"},{\"unfix\":\"c\"}],\"version\":1}";

/// The settings.
pub fn settings(alloc: Global) -> anyhow::Result<Settings> {
    Ok(Settings::from_text(alloc, SETTINGS)?)
}

/// The plan that finds a key, accepted by the checker.
pub fn find(alloc: Global, settings: &Settings) -> anyhow::Result<Accepted> {
    accepted(alloc, settings, FIND)
}

/// The plan that gives a key another value, accepted by the checker.
pub fn set(alloc: Global, settings: &Settings) -> anyhow::Result<Accepted> {
    accepted(alloc, settings, SET)
}

/// Reads a plan, has a certificate made for it, and checks that. The maker isn't trusted: `check` decides.
fn accepted(alloc: Global, settings: &Settings, text: &str) -> anyhow::Result<Accepted> {
    let plan = Plan::from_text(alloc, settings, text)?;
    let certificate = annotate(alloc, settings, &plan)?;
    match check(settings, plan, &certificate) {
        Ok(accepted) => Ok(accepted),
        Err((_plan, error)) => Err(anyhow::Error::from(error)),
    }
}
