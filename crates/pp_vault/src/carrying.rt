//! The call of a device that an errand is about.

ghost use Rattle.std.specs.Prelude.{◌≡◌, ◌+◌, OnOk, OnErr, IfErr, length};
ghost use Rattle.pp_vault.specs.Carrying.{CarriesOut, fault_of};

use crate::tokens::{Duty, Errand, Returned};
use pp_device::Device;

impl Errand {
    /// Makes the call of the device that the errand is about, and gives what came of it: a reading of the page into the
    /// errand's buffer, or a writing of the image in it.
    ///
    /// The device is any; it may fail, and a reading may give any bytes. The call is made outside the vault, so that
    /// others can go on meanwhile.
    pub fn carry_out<D: Device>(self, device: &mut D) -> Returned
        // One call, of the errand's page; what comes back is that call's answer, and what was written stays as it was.
        ensures made { CarriesOut D.read_gives D.write_leaves self.duty device.old self.image result.answer
            result.image device.new }
        ensures duty { result.duty ≡ self.duty }
        ensures length { length result.image ≡ length self.image }
        ensures called { D.calls device.new ≡ D.calls device.old + 1 }
        ensures ok { OnOk result.answer (D.failures device.new ≡ D.failures device.old) }
        ensures err { OnErr result.answer (D.failures device.new ≡ D.failures device.old + 1) }
        ensures fault { IfErr result.answer (λ fault. fault ≡ fault_of self.duty) }
    {
        let Errand { duty, mut image } = self;
        let answer = match duty {
            Duty::Read { page, .. } => image.read_from(device, page),
            Duty::Write { victim, .. } => image.write_to(device, victim),
            Duty::Flush { page } => image.write_to(device, page),
        };
        Returned {
            duty,
            image,
            answer,
        }
    }
}
