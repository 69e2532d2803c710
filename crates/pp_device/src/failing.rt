//! A device with planted troubles.

ghost use Rattle.std.specs.Prelude.{◌≡◌, ℕ, ◌+◌, Option, None};
ghost use Rattle.pp_device.specs.Troubled.{last_for};

use crate::count::Count;
use crate::device::Device;
use crate::fault::Fault;
use crate::image;
use std::marker::Model;

/// What is planted at a call.
#[derive(Clone, Copy, Debug, PartialEq, Eq)]
pub enum Trouble {
    /// The call fails.
    Fail,
    /// A reading answers an image with the number of this page and this stamp in its head, and a body of zeros. At a
    /// writing it does nothing.
    Lie(u32, u64),
}

/// A device with planted troubles, for tests of what a pool makes of them.
///
/// Its calls are counted from 1 on, readings and writings together. One that is planted to fail, and a reading that is
/// planted to lie, never come to the device inside. All others do, and so do those past number 2^32 - 1, at which
/// nothing can be planted. Of two entries for one call the last counts.
#[derive(Drop)]
pub struct Failing<D> {
    device: D,
    troubles: Vec<(u32, Trouble)>,
    /// How many calls were made, up to the greatest number.
    made: u32,
    calls: Count,
    failures: Count,
}

impl<D> Model for Failing<D> {
    ghost use Rattle.std.specs.Prelude.{◌≡◌, ◌-◌, ◌^◌, min};
    ghost use Rattle.pp_device.specs.Troubled.{Troubled};

    ghost Value = { Troubled D };

    ghost view = { λ f. record {
      device = f.device;
      troubles = f.troubles.items;
      calls = f.calls.number;
      failures = f.failures.number;
    } };

    ghost invariant = { λ f. f.made ≡ min f.calls.number (2 ^ 32 - 1) };
}

/// The trouble of the last entry for the number.
fn last_for(troubles: &[(u32, Trouble)], number: u32) -> Option<Trouble>
    ensures { result ≡ last_for troubles.now number }
{
    troubles
        .iter()
        .rev()
        .find(|entry| entry.0 == number)
        .map(|entry| entry.1)
}

impl<D> Failing<D> {
    ghost use Rattle.pp_device.specs.Troubled.{Troubled, trouble_at};

    /// The device with these troubles, each at the call of its number.
    pub fn new(device: D, troubles: Vec<(u32, Trouble)>) -> Failing<D>
        ensures { result ≡ record { device = device; troubles = troubles.items; calls = 0; failures = 0 } }
    {
        Failing {
            device,
            troubles,
            made: 0,
            calls: Count::new(),
            failures: Count::new(),
        }
    }

    /// The device inside.
    pub fn into_inner(self) -> D
        ensures { result ≡ self.device }
    {
        let Failing { device, .. } = self;
        device
    }

    /// Counts one more call, and tells the trouble that is planted at it.
    fn next(&mut self) -> Option<Trouble>
        ensures trouble { result ≡ trouble_at self.old.troubles (self.old.calls + 1) }
        ensures counted { self.new ≡ record self.old { calls = self.old.calls + 1 } }
    {
        self.calls.raise();
        if self.made == u32::MAX {
            return None;
        }
        self.made += 1;
        last_for(&self.troubles, self.made)
    }
}

impl<D: Device> Device for Failing<D> {
    ghost use Rattle.pp_device.specs.Troubled.{TroubledReads, TroubledWrites};

    ghost calls = { λ f. f.calls };

    ghost failures = { λ f. f.failures };

    ghost read_gives = { TroubledReads D.read_gives };

    ghost write_leaves = { TroubledWrites D.write_leaves };

    fn read(&mut self, page: u32, image: &mut [u8]) -> Result<(), Fault> {
        match self.next() {
            None => {
                let answer = self.device.read(page, image);
                if answer.is_err() {
                    self.failures.raise();
                }
                answer
            }
            Some(Trouble::Fail) => {
                self.failures.raise();
                Err(Fault::Read)
            }
            Some(Trouble::Lie(other, stamp)) => {
                image.fill(0);
                image::make(image, other, stamp);
                Ok(())
            }
        }
    }

    fn write(&mut self, page: u32, image: &[u8]) -> Result<(), Fault> {
        if let Some(Trouble::Fail) = self.next() {
            self.failures.raise();
            return Err(Fault::Write);
        }
        let answer = self.device.write(page, image);
        if answer.is_err() {
            self.failures.raise();
        }
        answer
    }
}
