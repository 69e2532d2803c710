//! Why a file has no ends.

ghost use Rattle.std.specs.Prelude.{◌≡◌};
ghost use Rattle.pp_shared.specs.declared.error.OpenError.TheVariants.{Fault, OutOfMemory};

use pp_device::Fault;
use std::alloc::AllocError;

/// Why no ends were made onto a file.
#[derive(Clone, Copy, Debug, PartialEq, Eq, thiserror::Error)]
pub enum OpenError {
    /// The file was not opened for reading and writing, or its length could not be told.
    #[error(transparent)]
    Fault(Fault),
    /// Memory ran out.
    #[error("out of memory")]
    OutOfMemory,
}

impl OpenError {
    ghost use Rattle.pp_shared.specs.Refusals.{open_error_number, open_error_name};

    /// The number of the fault, 71 or 72, or 19 for want of memory.
    pub fn number(self) -> u8
        ensures { result ≡ open_error_number self }
    {
        match self {
            OpenError::Fault(fault) => fault.number(),
            OpenError::OutOfMemory => 19,
        }
    }

    /// The name of the fault, or `OutOfMemory`.
    pub fn name(self) -> &'static str
        ensures { result.now ≡ open_error_name self }
    {
        match self {
            OpenError::Fault(fault) => fault.name(),
            OpenError::OutOfMemory => "OutOfMemory",
        }
    }
}

impl From<AllocError> for OpenError {
    ghost from_gives = { λ _ e. e ≡ OutOfMemory };

    fn from(_refused: AllocError) -> OpenError {
        OpenError::OutOfMemory
    }
}

impl From<Fault> for OpenError {
    ghost from_gives = { λ fault e. e ≡ Fault fault };

    fn from(fault: Fault) -> OpenError {
        OpenError::Fault(fault)
    }
}
