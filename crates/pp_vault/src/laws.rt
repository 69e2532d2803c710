//! What holds of a vault's hands whatever is called.

ghost use Rattle.pp_vault.specs.HandLaws.{OthersStillFit, SlotsStillFit, FlushingStillFits, SubmitsStillFit, PreparesStillFit};
ghost use Rattle.pp_vault.specs.HandLaws.{RenewalsStillFit};
ghost use Rattle.pp_vault.specs.Lending.{BodyKeepsHead, BodyKeepsLength, BodyIsWritten};

/// What a call leaves of hands that fit: the hand of a worker that doesn't make the call still fits; so does the place of
/// each slot that the call leaves, also of the worker that makes it; and so does the flusher's token after a worker's
/// call. All of them still fit after a plan was taken in or prepared, and after a renewal.
pub fn hands_still_fit()
    ensures others { OthersStillFit }
    ensures slots { SlotsStillFit }
    ensures flushing { FlushingStillFits }
    ensures submits { SubmitsStillFit }
    ensures prepares { PreparesStillFit }
    ensures renewals { RenewalsStillFit }
{}

/// What an image is in which a writer has changed the body: its head and its length are as they were, and the body is
/// what was written.
pub fn bodies_are_written()
    ensures head { BodyKeepsHead }
    ensures length { BodyKeepsLength }
    ensures body { BodyIsWritten }
{}
