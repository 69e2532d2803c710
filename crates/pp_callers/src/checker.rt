//! The checker of certificates alone: what a planner asks before it lets a query run.

ghost use Rattle.std.specs.Prelude.{◌≡◌, ◌+◌, ◌≤◌, List};
ghost use Rattle.pp_plan.specs.Traces.{Begins};
ghost use Rattle.pp_plan.specs.declared.action.Action.{Action};
ghost use Rattle.pp_cert.specs.Held.{pins};

use pp_annotate::annotate;
use pp_cert::{Accepted, check};
use pp_plan::Plan;
use pp_settings::Settings;
use std::alloc::Global;

const SETTINGS: &str = "frames = 3
page_bytes = 64
workers = 2
flushes = 4
[[region]]
name = \"root\"
first = 0
count = 4
class = 1
[[region]]
name = \"leaf\"
first = 16
count = 8
class = 2
";

/// From the root to a leaf: the leaf is fixed before the root is let go.
const PLAN: &str =
    "{\"body\":[{\"fix\":\"a\",\"region\":\"root\"},{\"latch\":\"a\",\"mode\":\"S\"},\
    {\"fix\":\"b\",\"region\":\"leaf\"},{\"unlatch\":\"a\"},{\"unfix\":\"a\"},{\"unfix\":\"b\"}],\"version\":1}";

/// Reads the settings and the plan, has a certificate made, and checks it. The maker isn't trusted: `check` decides.
pub fn frames_beside(alloc: Global) -> anyhow::Result<u64> {
    let settings = Settings::from_text(alloc, SETTINGS)?;
    let plan = Plan::from_text(alloc, &settings, PLAN)?;
    let certificate = annotate(alloc, &settings, &plan)?;
    match check(&settings, plan, &certificate) {
        Ok(accepted) => Ok(frames_left(&accepted)),
        Err((_plan, error)) => Err(anyhow::Error::from(error)),
    }
}

/// How many frames are left to others at any time while the plan runs.
///
/// Nothing is tested, and the difference is never below zero: an `Accepted` is made by `check` alone, and its type
/// keeps what the checker found.
fn frames_left(accepted: &Accepted) -> u64
    ensures left { result + accepted.now.peak ≡ accepted.now.plan.layout.frames }
    // Whatever has been done of the plan, it holds no more slots than there are frames.
    ensures never_more { (done : List Action) → Begins accepted.now.plan.layout accepted.now.plan.body done
        → pins done ≤ accepted.now.plan.layout.frames }
{
    let _plan = accepted.plan();
    u64::from(accepted.layout().frames()) - accepted.peak()
}
