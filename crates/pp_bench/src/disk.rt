//! The device of a pool that is measured.

ghost use Rattle.std.specs.Prelude.{◌≡◌, length};

use pp_device::{Count, Device, Fault, SoloDevice, image};

/// How many bytes each operation looks at: the page's number, which stands at the front of its body.
pub const LOOKED_AT: usize = 8;

/// A device that has its pages in memory, or keeps none, so that it may have any number of them: then it makes the image of a page when
/// that is read, and can't be written. The head has the page's number and the stamp 0, and so stands the number at the front of the
/// body.
///
/// It is one type for both, so that a pool's calls stand once in the program, as a host has them.
#[derive(Drop)]
pub struct Disk {
    pages: Option<SoloDevice>,
    calls: Count,
    failures: Count,
}

impl Disk {
    /// One that keeps no page.
    pub fn numbered() -> Disk {
        Disk {
            pages: None,
            calls: Count::new(),
            failures: Count::new(),
        }
    }

    /// One with these pages.
    pub fn over(pages: SoloDevice) -> Disk {
        Disk {
            pages: Some(pages),
            calls: Count::new(),
            failures: Count::new(),
        }
    }
}

impl Device for Disk {
    ghost calls = { λ d. d.calls.number };

    ghost failures = { λ d. d.failures.number };

    ghost read_gives = { λ d page old answer new e. Unit {0} };

    ghost write_leaves = { λ d page image answer e. Unit {0} };

    fn read(&mut self, page: u32, image: &mut [u8]) -> Result<(), Fault> {
        self.calls.raise();
        let is_read = match &mut self.pages {
            Some(pages) => pages.read(page, image).is_ok(),
            None => make(image, page),
        };
        if is_read {
            return Ok(());
        }
        self.failures.raise();
        Err(Fault::Read)
    }

    fn write(&mut self, page: u32, image: &[u8]) -> Result<(), Fault> {
        self.calls.raise();
        let is_written = match &mut self.pages {
            Some(pages) => pages.write(page, image).is_ok(),
            None => false,
        };
        if is_written {
            return Ok(());
        }
        self.failures.raise();
        Err(Fault::Write)
    }
}

/// Makes the slice an image of the page, with its number at the front of the body, and what the body had behind it. Nothing changes
/// where there is no room for that; tells whether there was.
pub fn make(image: &mut [u8], page: u32) -> bool
    ensures { length image.new ≡ length image.old }
{
    let front = image::HEAD + LOOKED_AT;
    if image.len() < front {
        return false;
    }
    image::make(image, page, 0);
    image[image::HEAD..front].copy_from_slice(&u64::from(page).to_le_bytes());
    true
}

/// Whether there is a body, and the number stands at the front of it.
pub fn is_at_front(body: Option<&[u8]>, number: u64) -> bool {
    let Some(body) = body else {
        return false;
    };
    let &[a, b, c, d, e, f, g, h, ..] = body else {
        return false;
    };
    u64::from_le_bytes([a, b, c, d, e, f, g, h]) == number
}
