//! Why a call of a device failed.

ghost use Rattle.std.specs.Prelude.{◌≡◌};

/// Which call of a device failed.
#[derive(Clone, Copy, Debug, PartialEq, Eq, thiserror::Error)]
pub enum Fault {
    /// The page was not read.
    #[error("the page was not read")]
    Read,
    /// The page was not written.
    #[error("the page was not written")]
    Write,
}

impl Fault {
    ghost use Rattle.pp_device.specs.Faults.{fault_number, fault_name};

    /// The number of the fault, where a fix fails by it: 71 of a reading, 72 of a writing.
    pub fn number(self) -> u8
        ensures { result ≡ fault_number self }
    {
        match self {
            Fault::Read => 71,
            Fault::Write => 72,
        }
    }

    /// The name of the fault: `ReadFault` or `WriteFault`.
    pub fn name(self) -> &'static str
        ensures { result.now ≡ fault_name self }
    {
        match self {
            Fault::Read => "ReadFault",
            Fault::Write => "WriteFault",
        }
    }
}
