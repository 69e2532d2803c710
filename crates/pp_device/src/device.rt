//! What a device does.

ghost use Rattle.std.specs.Prelude.{◌≡◌, ℕ, ◌+◌, ◌≤◌, List, length, OnOk, OnErr, IfErr};
ghost use Rattle.pp_device.specs.Answers.{Answer};

use crate::fault::Fault;
use crate::image::HEAD;

/// Keeps the images of pages.
///
/// Contracts see of each device how many calls of it were made, `calls`, and how many of these failed, `failures`. Both
/// are ghost members, so they have no upper end: a device holds a [`crate::Count`] for each. Two more members say what
/// its calls do: `read_gives`, what a reading can answer and what the slice holds then, and `write_leaves`, what a
/// writing can answer and what it leaves of the device.
pub trait Device {
    ghost calls: { Self → ℕ };

    ghost failures: { Self → ℕ };

    ghost read_gives: { Self → ℕ → List ℕ → Answer → List ℕ → Self → Type 0 };

    ghost write_leaves: { Self → ℕ → List ℕ → Answer → Self → Type 0 };

    /// Reads the image of the page into the slice. After a failure the slice holds what `read_gives` says.
    ///
    /// # Errors
    ///
    /// [`Fault::Read`] where the page was not read.
    fn read(&mut self, page: u32, image: &mut [u8]) -> Result<(), Fault>
        requires { HEAD ≤ length image.old }
        ensures given { read_gives self.old page image.old result image.new self.new }
        ensures length { length image.new ≡ length image.old }
        ensures called { calls self.new ≡ calls self.old + 1 }
        ensures ok { OnOk result (failures self.new ≡ failures self.old) }
        ensures err { OnErr result (failures self.new ≡ failures self.old + 1) }
        ensures fault { IfErr result (λ fault. fault ≡ Fault.Read) };

    /// Makes the slice the image of the page.
    ///
    /// # Errors
    ///
    /// [`Fault::Write`] where the page was not written.
    fn write(&mut self, page: u32, image: &[u8]) -> Result<(), Fault>
        requires { HEAD ≤ length image.now }
        ensures left { write_leaves self.old page image.now result self.new }
        ensures called { calls self.new ≡ calls self.old + 1 }
        ensures ok { OnOk result (failures self.new ≡ failures self.old) }
        ensures err { OnErr result (failures self.new ≡ failures self.old + 1) }
        ensures fault { IfErr result (λ fault. fault ≡ Fault.Write) };
}
