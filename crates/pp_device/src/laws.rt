//! Laws of the definitions: what was written is read, which devices keep every byte, and where a page stands in a file.

ghost use Rattle.std.specs.Prelude.{◌≡◌, ◌≢◌, ℕ, ◌^◌, ◌*◌, ◌<◌, ◌≤◌, List, length, All, Ok};
ghost use Rattle.pp_device.specs.Image.{with_head, head_of, body_of, blank_image};
ghost use Rattle.pp_device.specs.DeviceFile.{blank_file, page_in_file};
ghost use Rattle.pp_device.specs.Disk.{Disk, DiskReads, DiskWrites, image_of};
ghost use Rattle.pp_device.specs.Honest.{SoloIsHonest, FailingIsHonest};

use crate::device::Device;
use crate::image::HEAD;

/// A head is read as it was written, and the body stays; writing the head that stands there changes nothing.
pub fn heads_are_read_as_written()
    ensures head { (image : List ℕ) (page stamp : ℕ) → page < 2 ^ 32 → stamp < 2 ^ 64
        → head_of (with_head image page stamp) ≡ (page, stamp) }
    ensures body { (image : List ℕ) (page stamp : ℕ) → body_of (with_head image page stamp) ≡ body_of image }
    ensures length { (image : List ℕ) (page stamp : ℕ) → HEAD ≤ length image
        → length (with_head image page stamp) ≡ length image }
    ensures again { (image : List ℕ) → HEAD ≤ length image → All (λ byte. byte < 2 ^ 8) image
        → with_head image (head_of image).0 (head_of image).1 ≡ image }
{}

/// A page of a device in memory is read as it was written, and other pages stay.
pub fn pages_are_read_as_written()
    ensures page { (d e f : Disk) (page : ℕ) (image slice given : List ℕ) → DiskWrites d page image (Ok tt) e
        → DiskReads e page slice (Ok tt) given f → given ≡ image }
    ensures others { (d e : Disk) (page other : ℕ) (image : List ℕ) → DiskWrites d page image (Ok tt) e
        → other ≢ page → image_of e other ≡ image_of d other }
    ensures readings { (d e : Disk) (page other : ℕ) (slice given : List ℕ)
        → DiskReads d page slice (Ok tt) given e → image_of e other ≡ image_of d other }
{}

/// A device in memory keeps every byte.
pub fn solo_devices_are_honest()
    ensures { SoloIsHonest }
{}

/// A device with planted troubles keeps every byte where the device inside does and no lie is planted: a call that is planted
/// to fail changes nothing.
pub fn failing_devices_are_honest<D: Device>()
    ensures { FailingIsHonest D.read_gives D.write_leaves }
{}

/// A blank file has the bytes of its pages and no more, and the image of each page at its place.
pub fn pages_stand_in_order()
    ensures length { (pages page_bytes : ℕ) → HEAD ≤ page_bytes
        → length (blank_file pages page_bytes) ≡ pages * page_bytes }
    ensures page { (pages page_bytes page : ℕ) → HEAD ≤ page_bytes → page < pages
        → page_in_file (blank_file pages page_bytes) page_bytes page ≡ blank_image page_bytes page }
{}
