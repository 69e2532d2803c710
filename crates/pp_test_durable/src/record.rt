//! What a record of the test engine's log says, and where a page has its number.

ghost use Rattle.std.specs.Prelude.{◌≡◌, ◌≤◌};
ghost use Rattle.pp_test_durable.specs.Numbers.{number_of};

use pp_device::image;

/// How many bytes an image has, of a page and of a record.
pub const BYTES: usize = 32;

/// A change: this page has this value now. In a page's image it is the last change that the page has.
#[derive(Clone, Copy, Debug, PartialEq, Eq)]
pub struct Record {
    /// The number of the record, from 1 on.
    pub number: u64,
    pub page: u32,
    pub value: u64,
}

/// The number at this place, big-endian.
fn number_at(bytes: &[u8; 32], at: usize) -> u64
    requires { at ≤ 24 }
{
    let mut number = [0; 8];
    number.copy_from_slice(&bytes[at..at + 8]);
    u64::from_be_bytes(number)
}

/// The number of the record in an image, which stands behind the head; 0 where the image is shorter.
pub fn number_of(image: &[u8]) -> u64
    ensures { result ≡ number_of image.now }
{
    if image.len() < 20 {
        return 0;
    }
    u64::from_be_bytes([
        image[12], image[13], image[14], image[15], image[16], image[17], image[18], image[19],
    ])
}

impl Record {
    /// The image of a page that has this change last, or of the record.
    pub fn to_image(self, page: u32) -> [u8; 32] {
        let mut bytes = [0; BYTES];
        image::make(&mut bytes, page, 0);
        bytes[12..20].copy_from_slice(&self.number.to_be_bytes());
        bytes[20..24].copy_from_slice(&self.page.to_be_bytes());
        bytes[24..32].copy_from_slice(&self.value.to_be_bytes());
        bytes
    }

    /// The change in the image.
    pub fn of_image(bytes: &[u8; 32]) -> Record {
        Record {
            number: number_at(bytes, 12),
            page: u32::from_be_bytes([bytes[20], bytes[21], bytes[22], bytes[23]]),
            value: number_at(bytes, 24),
        }
    }
}
