//! Laws of segments that were taken out of a ledger. But for one, which makes a ledger, and one, which is shown a segment, the
//! functions do nothing: their contracts are the laws.

ghost use Rattle.std.specs.Prelude.{◌≡◌, ◌≢◌, ◌++◌, [], ◌∷◌, None, Bool, false, List, IfOk};
ghost use Rattle.std.specs.List.{AllByRecursion};
ghost use Rattle.pp_settings.specs.Settings.{Configuration};
ghost use Rattle.pp_settings.specs.declared.span.Span.TheVariants.{Bounded};
ghost use Rattle.pp_model.specs.Pool.{opening};
ghost use Rattle.pp_core.specs.Opening.{kept_of};
ghost use Rattle.pp_ledger.specs.Ledgers.{Parts};
ghost use Rattle.pp_ledger.specs.Taken.{Taken, AreTaken, plans_at_end};
ghost use Rattle.pp_segments.specs.Auditing.{begin_fault};
ghost use Rattle.pp_segments.specs.Audits.{EndsSo};
ghost use Rattle.pp_served.specs.Texts.{HasAllNumbers};
ghost use Rattle.pp_served.specs.Runs.{IsNew, IsRun};
ghost use Rattle.pp_served.specs.Served.{ledgers_of, segments_in, end_of, IsTaken, RestsSo, AreAccepted};

use crate::numbers::has_all_numbers;
use pp_ledger::{Ledger, Segment};
use pp_settings::Settings;
use pp_vault::{Hands, VaultError};
use std::alloc::Global;

/// Runs begin with what [`Ledger::new`] makes, and this law makes a ledger so.
///
/// # Errors
///
/// Only where its memory can't be had.
pub fn made_ledgers_are_new(
    alloc: Global,
    settings: &Settings,
    room: usize,
) -> Result<(Ledger, Hands), VaultError>
    requires { settings.now.span ≢ Bounded }
    ensures { IfOk result (λ made. IsNew settings.now made.0) }
{
    let made = Ledger::new(alloc, settings, room)?;
    Ok(made)
}

/// A text has no number of more bits than the types of a segment have. That its numbers fit is a premise of the laws below,
/// and is known of each segment that is at hand, one after the other.
pub fn numbers_of_segments_fit(segment: &Segment)
    ensures { HasAllNumbers segment.now }
{
    has_all_numbers(segment);
}

/// Segments that were taken out of a ledger one after the other, from its beginning on, are accepted: the verdict of
/// [`audit_segments`](pp_segments::audit_segments) on their texts ([`text_of`](crate::text_of)) is how many lines and
/// segments there are. The prepared plans are those of the last ledger.
///
/// A ledger by itself doesn't tell that an audit can prepare its plans, so that is a premise here. Each
/// [`Ledger::prepare`] sees to it, and [`runs_are_audited`] has no such premise.
pub fn taken_segments_are_audited()
    ensures { (c : Configuration) (xs : List Taken) (ended : Bool) → AreTaken (opening (kept_of c)) 0 [] xs
        → AllByRecursion HasAllNumbers (segments_in (ledgers_of xs)) → begin_fault c (plans_at_end [] xs) ≡ None
        → EndsSo ended (end_of c xs) → AreAccepted c (plans_at_end [] xs) ended (segments_in (ledgers_of xs)) }
{}

/// Whatever is called, the segments of a run from a ledger's beginning on were taken out one after the other. Each
/// leads to some state, the present one to one for which the vault stands. An audit can prepare the ledger's plans.
pub fn runs_are_taken()
    ensures { (c : Configuration) (l now : Parts) (before : List Parts) → IsNew c l → IsRun l before now
        → IsTaken c before now }
{}

/// Whatever is called, the texts of a ledger's segments are accepted. The prepared plans are those of the ledger as it
/// is.
pub fn runs_are_audited()
    // So are those of all segments: the present one, which [`Ledger::close`] gives, is the last. The audit may ask that
    // nothing is left to do at the end, where [`Ledger::next_possible`] names no turn.
    ensures all { (c : Configuration) (l now : Parts) (before : List Parts) (ended : Bool) → IsNew c l
        → IsRun l before now → AllByRecursion HasAllNumbers (segments_in (before ++ now ∷ [])) → RestsSo ended now
        → AreAccepted c now.vault.core.plans ended (segments_in (before ++ now ∷ [])) }
    // And so are those of the segments that were taken out, at any time.
    ensures taken_out { (c : Configuration) (l now : Parts) (before : List Parts) → IsNew c l → IsRun l before now
        → AllByRecursion HasAllNumbers (segments_in before)
        → AreAccepted c now.vault.core.plans false (segments_in before) }
{}
