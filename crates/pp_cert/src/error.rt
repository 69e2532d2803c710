//! Why a certificate's text is refused, and how a program says so.

ghost use Rattle.std.specs.Prelude.{◌≡◌};
ghost use Rattle.pp_cert.specs.declared.error.CertError.TheVariants.{OutOfMemory};

use pp_text::{About, Refusal};
use std::alloc::{AllocError, AllocFailed};
use thiserror::Error;

/// Why a text gives no certificate: the first error in this fixed order, or want of memory.
///
/// The order is `NotJson`; `WrongField` of the text's own object; `TooMany` notes; and then note by note
/// `WrongField`, `TooMany` entries, and each entry in the byte order of slot names, `WrongField`, `UnknownName` or
/// `WrongKind`.
///
/// `Display` is for people; `refusal` is what the program prints.
#[derive(Clone, Copy, Debug, PartialEq, Eq, Error)]
pub enum CertError {
    /// The text is no JSON value.
    #[error("the text is not a JSON value")]
    NotJson,
    /// An object, a key or a value is of another kind, or a bundle's bound isn't from 1 to 4,096, or to the frames where these are
    /// more.
    #[error("an object, a key or a value of the certificate is of another kind")]
    WrongField,
    /// The plan has no such slot, or the settings have no such region.
    #[error("the certificate names a slot or a region that is not known")]
    UnknownName,
    /// There are more than 70,000 notes, or more than 32 entries in a note.
    #[error("the certificate has too many notes, or a note has too many entries")]
    TooMany,
    /// An entry has the form of the other kind: a number where the plan's slot is no bundle, or a page where it is one.
    #[error("the certificate notes a bundle as a plain slot, or a plain slot as a bundle")]
    WrongKind,
    /// Memory ran out. It says nothing of the text.
    #[error("out of memory")]
    OutOfMemory,
}

impl CertError {
    ghost use Rattle.pp_text.specs.Views.{row_of_refusal};
    ghost use Rattle.pp_cert.specs.CertErrors.{certificate_error_row};

    /// What the program prints: the number and the name, as in `22 WrongField`.
    pub fn refusal(self) -> Refusal
        ensures { row_of_refusal result ≡ certificate_error_row self }
    {
        match self {
            CertError::NotJson => Refusal::new(21, "NotJson", About::Nothing),
            CertError::WrongField => Refusal::new(22, "WrongField", About::Nothing),
            CertError::UnknownName => Refusal::new(23, "UnknownName", About::Nothing),
            CertError::TooMany => Refusal::new(24, "TooMany", About::Nothing),
            CertError::WrongKind => Refusal::new(25, "WrongKind", About::Nothing),
            CertError::OutOfMemory => Refusal::new(19, "OutOfMemory", About::Nothing),
        }
    }

    /// The number of the refusal: 21 to 25, and 19 for want of memory.
    pub fn number(self) -> u8
        ensures { result ≡ (certificate_error_row self).number }
    {
        self.refusal().number
    }

    /// The name of the refusal, as it is printed.
    pub fn name(self) -> &'static str
        ensures { result.now ≡ (certificate_error_row self).name }
    {
        self.refusal().name
    }
}

impl From<AllocError> for CertError {
    ghost from_gives = { λ _ e. e ≡ OutOfMemory };

    fn from(_refused: AllocError) -> CertError {
        CertError::OutOfMemory
    }
}

impl<T: Drop> From<AllocFailed<T>> for CertError {
    ghost from_gives = { λ _ e. e ≡ OutOfMemory };

    fn from(_refused: AllocFailed<T>) -> CertError {
        CertError::OutOfMemory
    }
}
