//! The device that settings ask for.

ghost use Rattle.std.specs.Prelude.{◌≤◌, IfOk};
ghost use Rattle.pp_settings.specs.Limits.{page_numbers, fewest_page_bytes, most_page_bytes};
ghost use Rattle.pp_text.specs.Steps.{Gives};
ghost use Rattle.pp_judge.specs.Judgement.{device_size_in};
ghost use Rattle.pp_judge.specs.Steps.{is_want_of_memory, same};

use crate::error::JudgeError;
use crate::judgement::settings_in;
use std::alloc::Global;

/// How large a device is.
#[derive(Clone, Copy, Debug, PartialEq, Eq)]
pub struct DeviceSize {
    /// How many pages it has. They are numbered from 0.
    pub pages: u32,
    /// How many bytes the image of a page has.
    pub page_bytes: u32,
}

/// How large a device for a pool with these settings is.
///
/// # Errors
///
/// The refusal of the settings. Bytes that are not UTF-8 are refused as what is no TOML.
pub fn device_size(alloc: Global, settings: &[u8]) -> Result<DeviceSize, JudgeError>
    // Exactly what the definition gives of these bytes, unless memory ran out.
    ensures exact { Gives is_want_of_memory same result (device_size_in settings.now) }
    ensures pages { IfOk result (λ size. (1 ≤ size.pages) × (size.pages ≤ page_numbers)) }
    ensures page_bytes { IfOk result (λ size. (fewest_page_bytes ≤ size.page_bytes) × (size.page_bytes ≤ most_page_bytes)) }
{
    let settings = settings_in(alloc, settings)?;
    Ok(DeviceSize {
        pages: settings.pages(),
        page_bytes: settings.page_bytes(),
    })
}
