//! Devices: a reader that knows a device by its trait alone, and a device in memory behind planted troubles.

ghost use Rattle.std.specs.Prelude.{◌≡◌, ◌+◌, ◌≤◌, IfOk, IfSome, OnErr, length};
ghost use Rattle.pp_device.specs.Image.{head_of};

use pp_device::{Device, Failing, Fault, SoloDevice, Trouble, image};
use std::alloc::{AllocError, Global};

/// Reads the page, and tells its stamp; `None` where the image is of another page.
pub fn stamp_of<D: Device>(
    device: &mut D,
    page: u32,
    image: &mut [u8],
) -> Result<Option<u64>, Fault>
    requires { 12 ≤ length image.old }
    ensures called { D.calls device.new ≡ D.calls device.old + 1 }
    ensures failed { OnErr result (D.failures device.new ≡ D.failures device.old + 1) }
    // The stamp is that of the page, as its image has it.
    ensures stamp { IfOk result (λ found. IfSome found (λ stamp. head_of image.new ≡ (page, stamp))) }
{
    device.read(page, image)?;
    let (found, stamp) = image::head(image);
    if found == page {
        Ok(Some(stamp))
    } else {
        Ok(None)
    }
}

/// What three readings of page 1 tell, whose stamp is 5: one is planted to fail, and one to lie.
pub fn three_readings(alloc: Global) -> Result<[Result<Option<u64>, Fault>; 3], AllocError> {
    let troubles = [(2, Trouble::Fail), (3, Trouble::Lie(7, 5))].to_vec(alloc)?;
    let mut device = Failing::new(SoloDevice::new(alloc, 4, 64)?, troubles);
    let mut image = [0; 64];
    image::make(&mut image, 1, 5);
    let _ = device.write(1, &image);
    let failed = stamp_of(&mut device, 1, &mut image);
    let other = stamp_of(&mut device, 1, &mut image);
    let found = stamp_of(&mut device, 1, &mut image);
    Ok([failed, other, found])
}
