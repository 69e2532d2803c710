//! What stands at the front of a page's image: the page's number and its stamp.

ghost use Rattle.std.specs.Prelude.{◌≡◌, ◌≤◌, length};
ghost use Rattle.pp_device.specs.Image.{with_head, head_of};

/// How many bytes of an image the head takes: 4 for the page's number, and 8 for its stamp. The body follows it.
pub const HEAD: usize = 12;

/// Writes the number of the page and its stamp to the front of the image, and leaves the body as it is.
pub fn make(image: &mut [u8], page: u32, stamp: u64)
    requires { HEAD ≤ length image.old }
    ensures { image.new ≡ with_head image.old page stamp }
{
    image[..4].copy_from_slice(&page.to_be_bytes());
    image[4..HEAD].copy_from_slice(&stamp.to_be_bytes());
}

/// The number of the page and the stamp that stand at the front of the image.
pub fn head(image: &[u8]) -> (u32, u64)
    requires { HEAD ≤ length image.now }
    ensures { result ≡ head_of image.now }
{
    let page = u32::from_be_bytes([image[0], image[1], image[2], image[3]]);
    let stamp = u64::from_be_bytes([
        image[4], image[5], image[6], image[7], image[8], image[9], image[10], image[11],
    ]);
    (page, stamp)
}
