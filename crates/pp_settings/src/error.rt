//! Why settings are refused, and how a program says so.

ghost use Rattle.std.specs.Prelude.{◌≡◌};
ghost use Rattle.pp_settings.specs.declared.error.SettingsError.TheVariants.{OutOfMemory};

use crate::key::Spot;
use pp_text::{About, Refusal};
use std::alloc::{AllocError, AllocFailed};
use thiserror::Error;

/// Why a text is refused: the first error in this fixed order, or `OutOfMemory`.
///
/// First comes `NotToml`, and then `Unknown` of the document. Then each key of the document's version follows in turn, `Missing`
/// or `Range`; none is at `version`. Then each region follows in turn: `Unknown`, each of its keys, `SameName`, `Overlap`. Regions are
/// numbered from 0.
#[derive(Clone, Copy, Debug, PartialEq, Eq, Error)]
pub enum SettingsError {
    /// The text is not a TOML document.
    #[error("the text is not a TOML document")]
    NotToml,
    /// A key is missing.
    #[error("a key is missing: {0}")]
    Missing(Spot),
    /// The document has a key that is not known, or the region with this number has one.
    #[error("a key is not known")]
    Unknown(Option<u8>),
    /// The value at a key is of another kind, or out of its limits.
    #[error("a value is out of its limits, or of another kind: {0}")]
    Range(Spot),
    /// The region with this number has a page of an earlier one.
    #[error("region {0} has a page of an earlier region")]
    Overlap(u8),
    /// The region with this number has the name of an earlier one.
    #[error("region {0} has the name of an earlier region")]
    SameName(u8),
    /// Memory ran out. It says nothing of the text.
    #[error("out of memory")]
    OutOfMemory,
}

impl SettingsError {
    ghost use Rattle.pp_text.specs.Views.{row_of_refusal};
    ghost use Rattle.pp_settings.specs.Refusals.{settings_error_row};

    /// The refusal as programs print it: its number from 1 to 7, its name, and the key, the table or the region.
    pub fn refusal(self) -> Refusal
        ensures { row_of_refusal result ≡ settings_error_row self }
    {
        match self {
            SettingsError::NotToml => Refusal::new(1, "NotToml", About::Nothing),
            SettingsError::Missing(spot) => Refusal::new(2, "Missing", spot.about()),
            SettingsError::Unknown(None) => Refusal::new(3, "Unknown", About::Top),
            SettingsError::Unknown(Some(i)) => Refusal::new(3, "Unknown", About::Region(i)),
            SettingsError::Range(spot) => Refusal::new(4, "Range", spot.about()),
            SettingsError::Overlap(i) => Refusal::new(5, "Overlap", About::Region(i)),
            SettingsError::SameName(i) => Refusal::new(6, "SameName", About::Region(i)),
            SettingsError::OutOfMemory => Refusal::new(7, "OutOfMemory", About::Nothing),
        }
    }

    /// The number of the refusal, from 1 to 7.
    pub fn number(self) -> u8
        ensures { result ≡ (settings_error_row self).number }
    {
        self.refusal().number
    }

    /// The name of the refusal, as programs print it.
    pub fn name(self) -> &'static str
        ensures { result.now ≡ (settings_error_row self).name }
    {
        self.refusal().name
    }
}

impl From<AllocError> for SettingsError {
    ghost from_gives = { λ _ e. e ≡ OutOfMemory };

    fn from(_refused: AllocError) -> SettingsError {
        SettingsError::OutOfMemory
    }
}

impl<T: Drop> From<AllocFailed<T>> for SettingsError {
    ghost from_gives = { λ _ e. e ≡ OutOfMemory };

    fn from(_refused: AllocFailed<T>) -> SettingsError {
        SettingsError::OutOfMemory
    }
}

/// Why settings aren't served: their lives have no end, and what was asked serves bounded ones alone, of which a journal has
/// everything that was done. Its number is 8, and its name OtherLife.
#[derive(Clone, Copy, Debug, PartialEq, Eq, Error)]
#[error("the settings are of an endless life, and only a bounded one is served here")]
pub struct OtherLife;

impl OtherLife {
    ghost use Rattle.pp_text.specs.Views.{row_of_refusal};
    ghost use Rattle.pp_settings.specs.Refusals.{other_life_row};

    /// The refusal as programs print it: `8 OtherLife`.
    pub fn refusal(self) -> Refusal
        ensures { row_of_refusal result ≡ other_life_row }
    {
        Refusal::new(8, "OtherLife", About::Nothing)
    }
}
