//! The limits of plans that this crate alone needs. Those of statements, depth and slots stand in pp_settings.

use pp_settings::limits;

/// How many slots a plan may name, as the length of an array.
pub(crate) const MOST_SLOTS: usize = limits::MOST_SLOTS as usize;

/// How many turns a loop may have: by the format (docs/formats.md). All that 16 bits count, and a statement keeps so many.
pub(crate) const MOST_TURNS: u16 = 65_535;

/// How many branches a choice may have: by the format. So no plan has more than 69,633 places, and a certificate has room
/// for a note at each.
pub(crate) const MOST_BRANCHES: usize = 16;

/// How many bytes a slot's name may have: by the format. A plan keeps its names, so they take 512 bytes at most.
pub(crate) const LONGEST_NAME: usize = 16;
