//! The names of regions and slots.

ghost use Rattle.std.specs.Prelude.{◌≡◌, ◌<◌, Some, length, slice_get};
ghost use Rattle.pp_settings.specs.Settings.{name_of};

use pp_plan::Plan;
use pp_settings::Settings;
use std::alloc::{AllocError, Global};

/// The names of the regions, by number.
pub fn region_names(alloc: Global, settings: &Settings) -> Result<Vec<&str>, AllocError> {
    let mut names = Vec::new(alloc);
    for region in 0..settings.layout().extents().len() {
        names.push(region_name(settings, region as u8))?;
    }
    Ok(names)
}

/// The names of the slots of the plan, by number.
pub fn slot_names(alloc: Global, plan: &Plan) -> Result<Vec<&str>, AllocError> {
    let mut names = Vec::new(alloc);
    for slot in 0..plan.slots() {
        names.push(slot_name(plan, slot))?;
    }
    Ok(names)
}

/// The name of the region of this number.
pub fn region_name(settings: &Settings, region: u8) -> &str
    ensures { region < length settings.now.regions → name_of settings.now region ≡ Some result.now }
{
    if usize::from(region) < settings.layout().extents().len() {
        settings.name(region)
    } else {
        "?"
    }
}

/// The name of the slot of this number.
pub fn slot_name(plan: &Plan, slot: u8) -> &str
    ensures { slot < length plan.now.slots → slice_get plan.now.slots slot ≡ Some result.now }
{
    if slot < plan.slots() {
        plan.slot_name(slot)
    } else {
        "?"
    }
}
