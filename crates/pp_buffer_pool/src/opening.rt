//! Whether a device is that of a pool's settings.

ghost use Rattle.std.specs.Prelude.{◌≡◌, ◌≤◌, true, None, IfOk, IfErr, length, vec_len};
ghost use Rattle.pp_hall.specs.Calls.{open_fault};
ghost use Rattle.pp_buffer_pool.specs.Opening.{LooksAt, LooksByLast, OpenFails, ComeBack};

use crate::error::OpenError;
use pp_device::Device;
use pp_device::image::{self, HEAD};
use pp_settings::Settings;
use std::alloc::Global;

/// Looks whether the last of the devices has the last page of the settings.
///
/// # Errors
///
/// The devices come back, with want of memory for one image, before any call; or else where that page isn't there.
pub(crate) fn looked_at<D: Device + Drop>(
    alloc: Global,
    settings: &Settings,
    devices: Vec<D>,
) -> Result<Vec<D>, (OpenError, Vec<D>)>
    requires { open_fault settings.now (vec_len devices) ≡ None }
    ensures ok { IfOk result (λ back. LooksByLast D.Device settings.now devices.items true back.items) }
    ensures all { IfOk result (λ back. vec_len back ≡ vec_len devices) }
    ensures error { IfErr result (λ e. OpenFails settings.now (vec_len devices) e.0) }
    ensures back { IfErr result (λ e. ComeBack D.Device settings.now e.0 devices e.1) }
{
    let Ok(mut image) = vec![in alloc; 0; settings.page_bytes() as usize] else {
        return Err((OpenError::Hall(pp_hall::OpenError::OutOfMemory), devices));
    };
    let mut devices = devices;
    let Some(mut end) = devices.pop() else {
        unreachable!();
    };
    // (Settings have a page.)
    let last = settings.pages().saturating_sub(1);
    let is_there = has_page(&mut end, last, &mut image);
    devices.push_reserved(end);
    if is_there {
        Ok(devices)
    } else {
        Err((OpenError::OtherDevice(last), devices))
    }
}

/// Reads a page, and tells whether that was done and the head of the image names the page.
fn has_page<D: Device>(device: &mut D, page: u32, image: &mut [u8]) -> bool
    requires { HEAD ≤ length image.old }
    ensures { LooksAt D.Device (length image.old) page device.old result device.new }
{
    match device.read(page, image) {
        Ok(()) => image::head(image).0 == page,
        Err(_) => false,
    }
}
