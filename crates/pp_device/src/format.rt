//! Writing a device's file anew.

ghost use Rattle.std.specs.Prelude.{◌≡◌, ◌≤◌, OnOk, replicate, vec_len};
ghost use Rattle.std.specs.Io.KnownBytes.{Appends};
ghost use Rattle.pp_device.specs.DeviceFile.{blank_file};

use crate::image;
use crate::image::HEAD;
use crate::watch::Watch;
use std::io;
use std::io::Write;

/// Writes the images of `pages` blank pages, in the order of their numbers, and sees that they leave the writer's
/// buffer. Whoever watches is told after each page.
///
/// It takes no memory. It is handed one image of zeros, as long as each page is to be, and makes each page of it.
///
/// # Errors
///
/// The writer's.
pub fn format_onto<W: Write, P: Watch>(
    out: &mut W,
    image: Vec<u8>,
    pages: u32,
    watch: &mut P,
) -> io::Result<()>
    requires long { HEAD ≤ vec_len image }
    requires zeros { image.items ≡ replicate (vec_len image) 0 }
    // Exactly these images are added to what the writer holds.
    ensures { OnOk result (Appends (W.contents out.old) (W.contents out.new) (blank_file pages (vec_len image))) }
{
    let mut image = image;
    for page in 0..pages {
        image::make(&mut image, page, 0);
        out.write_all(&image)?;
        watch.written(page + 1, pages);
    }
    out.flush()
}
