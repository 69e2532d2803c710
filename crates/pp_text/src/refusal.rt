//! A refusal, as programs print it.

ghost use Rattle.std.specs.Prelude.{◌≡◌, Some};

use std::alloc::AllocError;
use std::fmt;

/// What a refusal is about.
#[derive(Clone, Copy, Debug, PartialEq, Eq)]
pub enum About {
    /// Nothing more is said.
    Nothing,
    /// A key of the document itself.
    Key(&'static str),
    /// A key in the table of the region with this number.
    RegionKey(u8, &'static str),
    /// The document itself.
    Top,
    /// The region with this number.
    Region(u8),
    /// A place: a statement of a plan, a note of a certificate, or a line of a text.
    At(u64),
    /// The worker with this number.
    Worker(u32),
}

/// A refusal as programs print it: its number, its name, and what it is about, as in `31 NotesShort at 8`.
///
/// It is plain data, and each error type gives its own by a call `refusal`.
#[derive(Clone, Copy, Debug, PartialEq, Eq)]
pub struct Refusal {
    /// The number.
    pub number: u8,
    /// The name.
    pub name: &'static str,
    /// What the refusal is about.
    pub about: About,
}

impl Refusal {
    ghost use Rattle.pp_text.specs.Refusals.{row};
    ghost use Rattle.pp_text.specs.Views.{row_of_refusal, matter_of};

    /// The refusal with this number and name, about this.
    pub fn new(number: u8, name: &'static str, about: About) -> Refusal
        ensures { row_of_refusal result ≡ row number name.now (matter_of about) }
    {
        Refusal {
            number,
            name,
            about,
        }
    }
}

/// Want of memory as programs print it, `19 OutOfMemory`, where a call answers no other error. (Settings have an error
/// of their own for it, of number 7.)
impl From<AllocError> for Refusal {
    ghost use Rattle.pp_text.specs.Refusals.{out_of_memory};
    ghost use Rattle.pp_text.specs.Views.{row_of_refusal};

    ghost from_gives = { λ _ refusal. row_of_refusal refusal ≡ out_of_memory };

    fn from(_refused: AllocError) -> Refusal {
        Refusal::new(19, "OutOfMemory", About::Nothing)
    }
}

/// Writes the number, the name, and what the refusal is about.
impl fmt::Display for Refusal {
    ghost use Rattle.pp_text.specs.Refusals.{refusal_text};
    ghost use Rattle.pp_text.specs.Views.{row_of_refusal};

    ghost output = { λ refusal. Some (refusal_text (row_of_refusal refusal)) };

    fn fmt<W: fmt::Write>(&self, f: &mut fmt::Formatter<W>) -> fmt::Result {
        let Refusal {
            number,
            name,
            about,
        } = *self;
        write!(f, "{number} {name}")?;
        match about {
            About::Nothing => Ok(()),
            About::Key(key) => write!(f, " {key}"),
            About::RegionKey(region, key) => write!(f, " region {region} {key}"),
            About::Top => f.write_str(" top"),
            About::Region(region) => write!(f, " region {region}"),
            About::At(place) => write!(f, " at {place}"),
            About::Worker(worker) => write!(f, " worker {worker}"),
        }
    }
}
