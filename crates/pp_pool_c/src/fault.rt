//! Why a text is refused, as C sees it.

ghost use Rattle.std.specs.Prelude.{◌≡◌};
ghost use Rattle.pp_pool_c.specs.Texts.{fault_at};

use crate::told::NOBODY;

/// Why a text is refused: the number that the program prints, and the statement or note at fault.
#[repr(C)]
#[derive(Clone, Copy, Debug, PartialEq, Eq)]
pub struct Fault {
    pub number: u32,
    /// 4,294,967,295 where it is about none.
    pub place: u32,
}

impl Fault {
    /// The fault of this number, at this place.
    pub(crate) fn at(number: u8, place: Option<u32>) -> Fault
        ensures { result ≡ fault_at number place }
    {
        Fault {
            number: u32::from(number),
            place: place.unwrap_or(NOBODY),
        }
    }
}
