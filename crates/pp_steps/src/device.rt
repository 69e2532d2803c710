//! The host's device, as the pool calls it.

ghost use Rattle.std.specs.Prelude.{◌≡◌, ◌≤◌, ◌==◌, length, true, false, IfOk, replicate};
ghost use Rattle.pp_steps.specs.declared.device.Answer.TheVariants as answer;
ghost use Rattle.pp_steps.specs.Devices.{has_come};

use pp_device::{Count, Device, Fault};
use std::alloc::{AllocError, Global};
use std::marker::Model;

/// What the host has told of its own call.
#[derive(Clone, Copy, Debug, PartialEq, Eq)]
pub(crate) enum Answer {
    /// Nothing yet, or that it failed.
    Fails,
    /// It has read the page, and the bytes are there.
    Came,
    /// It has written the page.
    Wrote,
}

/// The device of a host that reads and writes in its own time. It answers what the host has told before it is called: a
/// reading gives the bytes that the host has brought, and fails where it has brought none; a writing is well where the host says
/// so.
#[derive(Drop)]
pub(crate) struct HostDevice {
    image: Vec<u8>,
    answer: Answer,
    calls: Count,
    failures: Count,
}

impl Model for HostDevice {
    ghost use Rattle.pp_steps.specs.Devices.{Parts};

    ghost Value = { Parts };

    ghost view = { λ d. record {
      image = d.image.items;
      told = d.answer;
      calls = d.calls.number;
      failures = d.failures.number;
    } };
}

impl HostDevice {
    /// A device for images of so many bytes, of which the host has told nothing.
    pub(crate) fn new(alloc: Global, page_bytes: usize) -> Result<HostDevice, AllocError>
        ensures { IfOk result (λ device. device ≡ record {
          image = replicate page_bytes 0;
          told = answer.Fails;
          calls = 0;
          failures = 0;
        }) }
    {
        Ok(HostDevice {
            image: vec![in alloc; 0; page_bytes]?,
            answer: Answer::Fails,
            calls: Count::new(),
            failures: Count::new(),
        })
    }

    /// Takes the bytes that the host has read. Tells whether they are as many as an image has; else nothing changes.
    pub(crate) fn bring(&mut self, bytes: &[u8]) -> bool
        ensures fits { result ≡ (length bytes.now == length self.old.image) }
        ensures came { result ≡ true → self.new ≡ record self.old { image = bytes.now; told = answer.Came } }
        ensures unchanged { result ≡ false → self.new ≡ self.old }
    {
        if bytes.len() != self.image.len() {
            return false;
        }
        self.image.copy_from_slice(bytes);
        self.answer = Answer::Came;
        true
    }

    /// Whether bytes were brought, and not used yet.
    pub(crate) fn has_come(&self) -> bool
        ensures { result ≡ has_come self.now.told }
    {
        self.answer == Answer::Came
    }

    /// The next call fails, or is well where the host has written.
    pub(crate) fn tell(&mut self, answer: Answer)
        ensures { self.new ≡ record self.old { told = answer } }
    {
        self.answer = answer;
    }
}

impl Device for HostDevice {
    ghost use Rattle.pp_steps.specs.Devices.{HostReads, HostWrites};

    ghost calls = { λ d. d.calls };

    ghost failures = { λ d. d.failures };

    ghost read_gives = { HostReads };

    ghost write_leaves = { HostWrites };

    fn read(&mut self, _page: u32, image: &mut [u8]) -> Result<(), Fault> {
        self.calls.raise();
        if self.answer != Answer::Came || image.len() != self.image.len() {
            self.failures.raise();
            return Err(Fault::Read);
        }
        image.copy_from_slice(&self.image);
        Ok(())
    }

    fn write(&mut self, _page: u32, _image: &[u8]) -> Result<(), Fault> {
        self.calls.raise();
        if self.answer != Answer::Wrote {
            self.failures.raise();
            return Err(Fault::Write);
        }
        Ok(())
    }
}
