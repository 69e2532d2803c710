//! The limits of certificates and of what they claim. What a plan costs by its steps stands in pp_settings.

ghost use Rattle.std.specs.Prelude.{◌≡◌, ◌≤◌, ◌+◌};
ghost use Rattle.pp_settings.specs.Limits.{most_frames};
ghost use Rattle.pp_settings.specs.Settings.{geometry_of};
ghost use Rattle.pp_cert.specs.Limits.{usual_bound, most_bound, most_counted};

use pp_settings::limits::MOST_SLOTS;
use pp_settings::{Layout, Settings};

/// The most notes of a certificate: by the format (docs/formats.md). No plan has so many places: one before each of 4,096
/// statements, one at the end of each of their 16 branches, and one at its own end.
pub const MOST_NOTES: usize = 70_000;

/// The most entries of a note: one for each slot.
pub const MOST_ENTRIES: usize = MOST_SLOTS as usize;

/// The greatest bound of a bundle in a pool with few frames: as many as a pool of version 1 has, so that texts are read
/// under fewer frames as they always were.
const USUAL_BOUND: u32 = 4_096;

/// The most steps that a certificate may claim: by the format. So a plan costs at most 3,000,034, and a bounded life has
/// room for it.
pub const MOST_STEPS: u64 = 1_000_000;

/// Where counting actions stops: one more than the steps that are allowed.
pub(crate) const COUNTED: u64 = MOST_STEPS + 1;

/// The greatest bound of a bundle in a certificate's text under these settings: 4,096, or as many pages as the pool has frames,
/// where these are more. The least is 1, since no entry means 0.
pub fn most_bound(settings: &Settings) -> u32
    ensures is { result ≡ most_bound (geometry_of settings.now) }
    ensures within { (usual_bound ≤ result) × (result ≤ most_frames) }
{
    settings.frames().max(USUAL_BOUND)
}

/// Where counting the pages of a bundle stops under the layout: one more than the greatest bound, so 4,097 for up to 4,096
/// frames, and otherwise one more than there are frames.
pub fn most_counted(layout: &Layout) -> u32
    ensures is { result ≡ most_counted layout.now }
    ensures within { (usual_bound + 1 ≤ result) × (result ≤ most_frames + 1) }
{
    layout.frames().max(USUAL_BOUND) + 1
}
