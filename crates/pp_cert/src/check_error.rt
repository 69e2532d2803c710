//! What the check answers where it refuses.

ghost use Rattle.std.specs.Prelude.{◌≡◌};
ghost use Rattle.pp_text.specs.Refusals.{at};
ghost use Rattle.pp_text.specs.Views.{matter_of};

use pp_text::{About, Refusal};
use thiserror::Error;

/// Why a certificate is refused: the first error in this fixed order, that of the walk over the plan.
///
/// First comes `OtherSettings`. Then, for each note in turn, come `NotesShort`, `NoteDiffers` and `OverPeak`; for the
/// statement behind it `SlotInUse`, `NotFixed`, `StillLatched`, `NotLatched` and `AgainstOrder`; behind the last note
/// of a loop's body `LoopChanges`, of a later branch `BranchDiffers`, of the plan `EndsHolding`. Last come `NotesLong`,
/// `StepsTooMany`, `StepsTooFew` and `PeakTooBig`.
///
/// `place` is the number of the note that the test is about. `Display` is for people; `refusal` is what the
/// program prints.
#[derive(Clone, Copy, Debug, PartialEq, Eq, Error)]
pub enum CheckError {
    /// No note is left for this place.
    #[error("the note at place {place} is missing")]
    NotesShort { place: u32 },
    /// There are more notes than places; this is the place of the first one left over.
    #[error("from place {place} on, notes are left over")]
    NotesLong { place: u32 },
    /// The note isn't the expected one. Expected is the empty note at the plan's beginning, the note before a loop or a
    /// choice at the beginning of a body in it, and else what is held after the statement before it. At the beginning of
    /// a loop's body, a bundle that the body nowhere scatters may have a greater bound than before the loop.
    #[error("the note at place {place} isn't what is held there")]
    NoteDiffers { place: u32 },
    /// A page is fixed into a slot that holds something.
    #[error("at place {place} a page is fixed into a slot that is in use")]
    SlotInUse { place: u32 },
    /// A slot that holds no page of its own is unfixed, latched or unlatched, or a bundle without a page is scattered.
    #[error("at place {place} a statement uses a slot that holds no page")]
    NotFixed { place: u32 },
    /// A slot is unfixed or latched while its page is latched.
    #[error("at place {place} the slot's page is still latched")]
    StillLatched { place: u32 },
    /// A slot is unlatched whose page isn't latched.
    #[error("at place {place} the slot's page isn't latched")]
    NotLatched { place: u32 },
    /// A latch is asked whose class isn't greater than every class that is latched.
    #[error("at place {place} a latch is asked against the order of classes")]
    AgainstOrder { place: u32 },
    /// The note pins more pages than the declared peak.
    #[error("the note at place {place} pins more pages than the peak")]
    OverPeak { place: u32 },
    /// The end of a loop's body doesn't hold what was held before the loop: other pages, another bound of a bundle that
    /// the body scatters, or a bound of another bundle that hasn't grown as the turns want it.
    #[error("at place {place} the loop's body ends holding something else than its turns want")]
    LoopChanges { place: u32 },
    /// The end of a branch doesn't hold what the end of the first branch holds.
    #[error("at place {place} the branch ends holding something else than the first branch")]
    BranchDiffers { place: u32 },
    /// The plan's end holds something.
    #[error("at place {place} the plan ends and still holds a page")]
    EndsHolding { place: u32 },
    /// The longest trace has more actions than the declared steps.
    #[error("the longest trace has more actions than the steps")]
    StepsTooFew,
    /// More than 1,000,000 steps are declared.
    #[error("more than 1,000,000 steps")]
    StepsTooMany,
    /// The declared peak is greater than the number of frames.
    #[error("the peak is greater than the number of frames")]
    PeakTooBig,
    /// The plan was read for the layout of other settings.
    #[error("the plan was read for other settings")]
    OtherSettings,
}

/// About the note at this place.
fn about(place: u32) -> About
    ensures { matter_of result ≡ at place }
{
    About::At(u64::from(place))
}

impl CheckError {
    ghost use Rattle.pp_text.specs.Views.{row_of_refusal};
    ghost use Rattle.pp_cert.specs.CheckErrors.{check_error_row, check_error_place};

    /// What the program prints: the number, the name and the place, as in `31 NotesShort at 8`.
    pub fn refusal(self) -> Refusal
        ensures { row_of_refusal result ≡ check_error_row self }
    {
        match self {
            CheckError::NotesShort { place } => Refusal::new(31, "NotesShort", about(place)),
            CheckError::NotesLong { place } => Refusal::new(32, "NotesLong", about(place)),
            CheckError::NoteDiffers { place } => Refusal::new(33, "NoteDiffers", about(place)),
            CheckError::SlotInUse { place } => Refusal::new(34, "SlotInUse", about(place)),
            CheckError::NotFixed { place } => Refusal::new(35, "NotFixed", about(place)),
            CheckError::StillLatched { place } => Refusal::new(36, "StillLatched", about(place)),
            CheckError::NotLatched { place } => Refusal::new(37, "NotLatched", about(place)),
            CheckError::AgainstOrder { place } => Refusal::new(38, "AgainstOrder", about(place)),
            CheckError::OverPeak { place } => Refusal::new(39, "OverPeak", about(place)),
            CheckError::LoopChanges { place } => Refusal::new(40, "LoopChanges", about(place)),
            CheckError::BranchDiffers { place } => Refusal::new(41, "BranchDiffers", about(place)),
            CheckError::EndsHolding { place } => Refusal::new(42, "EndsHolding", about(place)),
            CheckError::StepsTooFew => Refusal::new(43, "StepsTooFew", About::Nothing),
            CheckError::StepsTooMany => Refusal::new(44, "StepsTooMany", About::Nothing),
            CheckError::PeakTooBig => Refusal::new(45, "PeakTooBig", About::Nothing),
            CheckError::OtherSettings => Refusal::new(46, "OtherSettings", About::Nothing),
        }
    }

    /// The number of the refusal, 31 to 46.
    pub fn number(self) -> u8
        ensures { result ≡ (check_error_row self).number }
    {
        self.refusal().number
    }

    /// The name of the refusal, as it is printed.
    pub fn name(self) -> &'static str
        ensures { result.now ≡ (check_error_row self).name }
    {
        self.refusal().name
    }

    /// The place of the note that the refusal is about, if it is about one.
    pub fn place(self) -> Option<u32>
        ensures { result ≡ check_error_place self }
    {
        match self {
            CheckError::NotesShort { place }
            | CheckError::NotesLong { place }
            | CheckError::NoteDiffers { place }
            | CheckError::SlotInUse { place }
            | CheckError::NotFixed { place }
            | CheckError::StillLatched { place }
            | CheckError::NotLatched { place }
            | CheckError::AgainstOrder { place }
            | CheckError::OverPeak { place }
            | CheckError::LoopChanges { place }
            | CheckError::BranchDiffers { place }
            | CheckError::EndsHolding { place } => Some(place),
            CheckError::StepsTooFew
            | CheckError::StepsTooMany
            | CheckError::PeakTooBig
            | CheckError::OtherSettings => None,
        }
    }
}
